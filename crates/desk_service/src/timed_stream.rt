//! One direction of a connection, which is given so much time and no more.

use std::io;
use std::io::{ErrorKind, Read, Write};
use std::net::TcpStream;
use std::time::{Clock, Duration, Instant};

/// One direction of a connection. Its time begins with the first read or write, and when it is over
/// each read and write fails. Contracts see nothing of what a connection gives and takes.
#[derive(Drop)]
pub(crate) struct TimedStream<'a, R> {
    rt: &'a R,
    stream: &'a TcpStream,
    most: Duration,
    begun: Option<Instant>,
}

impl<'a, R: Clock> TimedStream<'a, R> {
    /// A direction of a connection with so much time.
    pub(crate) fn new(rt: &'a R, stream: &'a TcpStream, most: Duration) -> TimedStream<'a, R> {
        TimedStream {
            rt,
            stream,
            most,
            begun: None,
        }
    }

    /// How much of the time is left; a fault where none is.
    fn left(&mut self) -> io::Result<Duration> {
        let begun = match self.begun {
            Some(begun) => begun,
            None => {
                let now = Instant::now(self.rt)?;
                self.begun = Some(now);
                now
            }
        };
        let left = self.most.saturating_sub(begun.elapsed(self.rt)?);
        if left.is_zero() {
            return Err(io::Error::from(ErrorKind::TimedOut));
        }
        Ok(left)
    }
}

impl<R: Clock> Read for TimedStream<'_, R> {
    fn read(&mut self, buf: &mut [u8]) -> io::Result<usize> {
        let left = self.left()?;
        self.stream.set_read_timeout(Some(left))?;
        let mut stream = self.stream;
        stream.read(buf)
    }
}

impl<R: Clock> Write for TimedStream<'_, R> {
    fn write(&mut self, buf: &[u8]) -> io::Result<usize> {
        let left = self.left()?;
        self.stream.set_write_timeout(Some(left))?;
        let mut stream = self.stream;
        stream.write(buf)
    }

    fn flush(&mut self) -> io::Result<()> {
        Ok(())
    }
}
