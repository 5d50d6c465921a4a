//! One connection of a browser, over any reader and writer.
ghost use Rattle.std.specs.Prelude.{◌≡◌, []};
ghost use Rattle.std.specs.Io.KnownBytes.{Appends, Consumes};
ghost use Rattle.http_server.specs.Exchange.{Calls};
ghost use Rattle.http_server.specs.History.{History, IsServed};
ghost use Rattle.page.specs.Answers.{AnswersRequest};
ghost use Rattle.page.specs.Limits.{page_limits};

use crate::service::{PageService, ServeLines};
use http_server::{Config, Connection, serve};
use http1::Limits;
use std::alloc::Global;
use std::hash::RandomState;
use std::io;
use std::io::{Read, Write};

/// How long a request may be: a head of 16 KiB, lines of 64 KiB.
const LIMITS: Config = Config {
    limits: Limits {
        max_head_len: 16_384,
        max_extensions_len: 256,
        max_trailers_len: 1024,
    },
    max_body_len: 65_536,
    max_pending: 65_536,
    read_size: 8192,
};

/// Serves one connection: reads requests and sends their answers, up to the first, which closes it. Where
/// there is no memory, or the reader or the writer fails, it ends without.
pub fn serve_page<S: ServeLines, R: Read, W: Write>(
    alloc: Global,
    keys: RandomState,
    page: &mut PageService<S>,
    reader: &mut R,
    writer: &mut W,
) -> io::Result<()>
    ensures { (h : History) × ∥ IsServed page_limits h ∥₁
        × Consumes (R.remaining reader.old) (R.remaining reader.new) h.received
        × Appends (W.contents writer.old) (W.contents writer.new) h.sent
        × Calls (AnswersRequest S.serves) page.old page.new [] h.calls }
{
    let mut connection = Connection::new(alloc, keys, LIMITS);
    serve(&mut connection, page, reader, writer)
}
