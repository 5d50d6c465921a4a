//! How long a client may keep a session waiting.
ghost use Rattle.std.specs.Prelude.{◌≡◌, option_map};
ghost use Rattle.std.specs.Duration.{as_nanos};
ghost use Rattle.desk_service.specs.Patience.{spent_behind, wait_for};

use std::io;
use std::io::{ErrorKind, Read, Write};
use std::net::TcpStream;
use std::time::{Clock, Duration, Instant};

/// How long the rest of a line may take once it has begun, in seconds.
const LINE_SECONDS: u64 = 30;

/// How long one attempt to write waits for a client that takes nothing, in seconds.
const ATTEMPT_SECONDS: u64 = 5;

/// How often it is tried to write to a client that takes nothing.
const ATTEMPTS: u32 = 5;

/// How long a read may wait: what is left of half a minute inside a line, whose reads have taken so long, and else
/// as long as a client may be idle.
fn wait_for(spent: Option<Duration>, idle: Duration) -> Duration
    ensures { as_nanos result ≡ wait_for (option_map as_nanos spent) (as_nanos idle) }
{
    match spent {
        Some(spent) => Duration::from_secs(LINE_SECONDS).saturating_sub(spent),
        None => idle,
    }
}

/// How long the reads have taken of a line whose end was not read, behind one that gave these bytes and took so
/// long.
fn spent_behind(bytes: &[u8], took: Duration, spent: Option<Duration>) -> Option<Duration>
    ensures { option_map as_nanos result ≡ spent_behind bytes.now (as_nanos took) (option_map as_nanos spent) }
{
    match (bytes.last(), spent) {
        (None, spent) => spent,
        (Some(b'\n'), _) => None,
        (Some(_), Some(spent)) if !bytes.contains(&b'\n') => Some(spent.saturating_add(took)),
        (Some(_), _) => Some(Duration::ZERO),
    }
}

/// The reads of a connection. A read at the beginning of a line waits as long as a client may be idle, and
/// the reads of the rest of a line half a minute together; then the reader fails. Contracts see nothing of
/// what a connection gives.
#[derive(Drop)]
pub(crate) struct PatientReader<'a, R> {
    rt: &'a R,
    stream: &'a TcpStream,
    idle: Duration,
    /// How long the reads have taken of the line whose end was not read yet.
    spent: Option<Duration>,
}

impl<'a, R: Clock> PatientReader<'a, R> {
    pub(crate) fn new(rt: &'a R, stream: &'a TcpStream, idle: Duration) -> PatientReader<'a, R> {
        PatientReader {
            rt,
            stream,
            idle,
            spent: None,
        }
    }
}

impl<R: Clock> Read for PatientReader<'_, R> {
    fn read(&mut self, buf: &mut [u8]) -> io::Result<usize> {
        let wait = wait_for(self.spent, self.idle);
        if wait.is_zero() {
            return Err(io::Error::from(ErrorKind::TimedOut));
        }
        self.stream.set_read_timeout(Some(wait))?;
        let began = Instant::now(self.rt)?;
        let mut stream = self.stream;
        let count = stream.read(buf)?;
        let took = began.elapsed(self.rt)?;
        self.spent = spent_behind(&buf[..count], took, self.spent);
        Ok(count)
    }
}

/// The writes of a connection. Where a client takes nothing of one for 25 seconds, the writer fails: half a
/// minute after the last byte that it took at most, since that one may have been taken early in the write
/// before. Contracts see nothing of what a connection takes.
#[derive(Drop)]
pub(crate) struct PatientWriter<'a> {
    stream: &'a TcpStream,
}

impl<'a> PatientWriter<'a> {
    /// The writes to a client that may be idle so long, none of which waits for longer.
    pub(crate) fn new(stream: &'a TcpStream, idle: Duration) -> PatientWriter<'a> {
        let attempt = Duration::from_secs(ATTEMPT_SECONDS).min(idle);
        let _ = stream.set_write_timeout(Some(attempt));
        PatientWriter { stream }
    }
}

impl Write for PatientWriter<'_> {
    fn write(&mut self, buf: &[u8]) -> io::Result<usize> {
        let mut stream = self.stream;
        for _ in 0..ATTEMPTS {
            match stream.write(buf) {
                Err(error) if error.kind() == ErrorKind::WouldBlock => {}
                written => return written,
            }
        }
        Err(io::Error::from(ErrorKind::TimedOut))
    }

    fn flush(&mut self) -> io::Result<()> {
        Ok(())
    }
}
