//! What a request asks for.
ghost use Rattle.std.specs.Prelude.{◌≡◌};
ghost use Rattle.http.specs.Request.{head_of};
ghost use Rattle.page.specs.Requests.{asked_at, asked_by};

use crate::admission::{comes_from_here, has_origin};
use bytes::Bytes;
use http::Request;

/// What a request asks for.
#[derive(Clone, Copy)]
pub enum Asked {
    /// The page.
    Page,
    /// That the lines of its body are served as those of a session.
    Lines,
    /// It may come from a foreign page.
    Foreign,
    /// There is nothing at its path.
    Nothing,
    /// The page can be got, and nothing else can be done with it.
    OtherThanGet,
    /// Lines can be posted, and nothing else.
    OtherThanPost,
}

/// What a request asks for that comes from here.
fn asked_at(path: &str, method: &str, has_origin: bool) -> Asked
    ensures { result ≡ asked_at path.now method.now has_origin }
{
    if path == "/" {
        if method == "GET" || method == "HEAD" {
            Asked::Page
        } else {
            Asked::OtherThanGet
        }
    } else if path == "/session" {
        if method != "POST" {
            Asked::OtherThanPost
        } else if has_origin {
            Asked::Lines
        } else {
            Asked::Foreign
        }
    } else {
        Asked::Nothing
    }
}

/// What a request asks for at a port.
pub fn asked_by(port: u16, request: &Request<Bytes>) -> Asked
    ensures { result ≡ asked_by port (head_of request.now) }
{
    let headers = request.headers();
    if !comes_from_here(port, headers) {
        return Asked::Foreign;
    }
    asked_at(
        request.uri().path(),
        request.method().as_str(),
        has_origin(headers),
    )
}
