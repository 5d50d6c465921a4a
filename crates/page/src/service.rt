//! What a page's port does: the answer to each request.
ghost use Rattle.std.specs.Prelude.{◌≡◌, OnErr, OnOk};
ghost use Rattle.http_server.specs.Response.{IsBlank};
ghost use Rattle.page.specs.Answers.{AnswersLines};

use crate::Replies;
use crate::answers::{begin_replies, end_replies, show_page, tell, tell_methods};
use crate::asked::{Asked, asked_by};
use bytes::Bytes;
use http::{Request, StatusCode};
use http_server::{Response, Service};
use std::alloc::{AllocError, Global};
use std::marker::Model;

/// What a request is answered that may come from a foreign page.
const FOREIGN: &str =
    "The page is at http://127.0.0.1 with its port: another host or origin is refused, and so are lines without an origin.\n";

/// What a request is answered that has another path.
const NOTHING: &str = "The page is at /, and lines of a session are posted to /session.\n";

/// What a request is answered that would do something else with the page.
const GOT_ALONE: &str = "The page can be got, and nothing else.\n";

/// What a request is answered that does not post its lines.
const POSTED_ALONE: &str = "Lines of a session are posted.\n";

/// What became of lines that were served.
#[derive(Drop)]
pub struct Served {
    /// The replies that found room.
    pub replies: Replies,
    /// Whether none is missing.
    pub is_whole: bool,
}

/// Who serves the lines of a session. The member says what serving them makes of it.
pub trait ServeLines {
    ghost use Rattle.std.specs.Prelude.{◌≡◌, ℕ, [], List, Bool};

    // What stood before, the lines, their replies, whether none is missing, and what stands after.
    ghost serves: { Self → List ℕ → List ℕ → Bool → Self → Type 0 };

    /// Serves these lines as those of a session, and appends the replies.
    fn serve(&mut self, lines: &[u8], replies: Replies) -> Served
        requires { replies ≡ [] }
        ensures { serves self.old lines.now result.replies result.is_whole self.new };
}

/// What a page's port does. Contracts see the port, and who serves lines.
#[derive(Drop)]
pub struct PageService<S> {
    alloc: Global,
    port: u16,
    session: S,
}

impl<S> Model for PageService<S> {
    ghost use Rattle.std.specs.Prelude.{ℕ};

    ghost Value = { ℕ × S };

    ghost view = { λ p. (p.port, p.session) };
}

impl<S> PageService<S> {
    /// The page of a port, at which this one serves lines.
    pub fn new(alloc: Global, port: u16, session: S) -> PageService<S>
        ensures { result ≡ (port, session) }
    {
        PageService {
            alloc,
            port,
            session,
        }
    }
}

/// Serves lines, and answers with their replies.
fn answer_lines<S: ServeLines>(
    alloc: Global,
    session: &mut S,
    lines: &[u8],
    response: &mut Response,
) -> Result<(), AllocError>
    requires { IsBlank response.old }
    ensures ok { OnOk result (AnswersLines S.serves lines.now session.old session.new response.new) }
    ensures err { OnErr result (session.new ≡ session.old) }
{
    begin_replies(response)?;
    let Served { replies, is_whole } = session.serve(lines, Replies::new(alloc));
    end_replies(response, replies, is_whole);
    Ok(())
}

impl<S: ServeLines> Service for PageService<S> {
    ghost use Rattle.page.specs.Answers.{AnswersRequest};

    ghost answers = { AnswersRequest S.serves };

    fn call(
        &mut self,
        request: &Request<Bytes>,
        response: &mut Response,
    ) -> Result<(), AllocError> {
        match asked_by(self.port, request) {
            Asked::Page => show_page(response),
            Asked::Lines => {
                let lines = request.body().as_slice();
                answer_lines(self.alloc, &mut self.session, lines, response)
            }
            Asked::Foreign => tell(response, StatusCode::FORBIDDEN, FOREIGN),
            Asked::Nothing => tell(response, StatusCode::NOT_FOUND, NOTHING),
            Asked::OtherThanGet => tell_methods(response, "GET, HEAD", GOT_ALONE),
            Asked::OtherThanPost => tell_methods(response, "POST", POSTED_ALONE),
        }
    }
}
