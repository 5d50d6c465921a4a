//! The answers to requests: status, fields and body.
ghost use Rattle.std.specs.Prelude.{◌≡◌, ◌++◌, ◌∷◌, [], codes, IsTrue, OnOk};
ghost use Rattle.http_header.specs.FieldValue.{is_visible_text};
ghost use Rattle.http_server.specs.Response.{IsBlank, IsResponse, fields_of};
ghost use Rattle.page.specs.Answers.{AddsField, IsPage, IsReplies, fields_for, page_fields, plain};

use crate::page_edits::EDITS;
use crate::page_script::SCRIPT;
use crate::page_style::TOP;
use crate::page_text::BODY;
use crate::replies::Replies;
use bytes::Bytes;
use http::header::{
    ALLOW, CACHE_CONTROL, CONNECTION, CONTENT_SECURITY_POLICY, CONTENT_TYPE,
    X_CONTENT_TYPE_OPTIONS, X_FRAME_OPTIONS,
};
use http::{HeaderName, HeaderValue, StatusCode};
use http_server::{Response, Rope};
use std::alloc::AllocError;

/// What a text is.
const PLAIN: &str = "text/plain; charset=utf-8";

/// What the page is.
const HTML: &str = "text/html; charset=utf-8";

/// What the page may do: its own style and script, and requests to where it came from; it stands in no
/// frame, so no foreign page can lay itself over it.
const POLICY: &str =
    "default-src 'none'; script-src 'unsafe-inline'; style-src 'unsafe-inline'; img-src data:; connect-src 'self'; base-uri 'none'; form-action 'none'; frame-ancestors 'none'";

/// Adds a field whose value is known beforehand.
fn add(response: &mut Response, name: HeaderName, value: &'static str) -> Result<(), AllocError>
    requires { IsTrue (is_visible_text value.now) }
    ensures { OnOk result (AddsField name value.now response.old response.new) }
{
    response.add_header(name, HeaderValue::from_static(value))
}

/// Begins an answer: its status, and the fields that each answer has.
fn begin(response: &mut Response, status: StatusCode, kind: &'static str) -> Result<(), AllocError>
    requires blank { IsBlank response.old }
    requires visible { IsTrue (is_visible_text kind.now) }
    ensures { OnOk result (IsResponse status (fields_for kind.now) [] response.new) }
{
    response.status = status;
    add(response, CONTENT_TYPE, kind)?;
    add(response, CONNECTION, "close")?;
    add(response, CACHE_CONTROL, "no-store")?;
    add(response, X_CONTENT_TYPE_OPTIONS, "nosniff")
}

/// Answers with a text.
pub(crate) fn tell(
    response: &mut Response,
    status: StatusCode,
    text: &'static str,
) -> Result<(), AllocError>
    requires { IsBlank response.old }
    ensures { OnOk result (IsResponse status (fields_for plain) text.now response.new) }
{
    begin(response, status, PLAIN)?;
    response.body.push(Bytes::from_static(text.as_bytes()))
}

/// Answers that only these methods do at the path of a request.
pub(crate) fn tell_methods(
    response: &mut Response,
    methods: &'static str,
    text: &'static str,
) -> Result<(), AllocError>
    requires blank { IsBlank response.old }
    requires visible { IsTrue (is_visible_text methods.now) }
    ensures { OnOk result (IsResponse 405 (fields_for plain ++ (codes "allow", methods.now) ∷ []) text.now response.new) }
{
    begin(response, StatusCode::METHOD_NOT_ALLOWED, PLAIN)?;
    add(response, ALLOW, methods)?;
    response.body.push(Bytes::from_static(text.as_bytes()))
}

/// Appends two texts.
fn push_texts(body: &mut Rope, first: &'static str, second: &'static str) -> Result<(), AllocError>
    ensures { OnOk result (body.new.items ≡ body.old.items ++ (first.now ++ second.now)) }
{
    body.push(Bytes::from_static(first.as_bytes()))?;
    body.push(Bytes::from_static(second.as_bytes()))
}

/// Appends the page: its style and its text, and behind them both parts of its script.
fn push_page(body: &mut Rope) -> Result<(), AllocError>
    ensures { OnOk result (body.new.items ≡ body.old.items ++ ((TOP.now ++ BODY.now) ++ (SCRIPT.now ++ EDITS.now))) }
{
    push_texts(body, TOP, BODY)?;
    push_texts(body, SCRIPT, EDITS)
}

/// Begins the answer that has the page.
fn begin_page(response: &mut Response) -> Result<(), AllocError>
    requires { IsBlank response.old }
    ensures { OnOk result (IsResponse 200 page_fields [] response.new) }
{
    begin(response, StatusCode::OK, HTML)?;
    add(response, CONTENT_SECURITY_POLICY, POLICY)?;
    add(response, X_FRAME_OPTIONS, "DENY")
}

/// Shows the page.
pub(crate) fn show_page(response: &mut Response) -> Result<(), AllocError>
    requires { IsBlank response.old }
    ensures { OnOk result (IsPage response.new) }
{
    begin_page(response)?;
    push_page(&mut response.body)
}

/// Begins the answer with the replies to lines, before they are served.
pub(crate) fn begin_replies(response: &mut Response) -> Result<(), AllocError>
    requires { IsBlank response.old }
    ensures { OnOk result (IsResponse 200 (fields_for plain) [] response.new) }
{
    begin(response, StatusCode::OK, PLAIN)
}

/// Puts the replies into the answer, which takes them over: whether there was memory for that.
fn put_replies(response: &mut Response, replies: Replies) -> Result<(), AllocError>
    requires { IsResponse 200 (fields_for plain) [] response.old }
    ensures ok { OnOk result (IsResponse 200 (fields_for plain) replies response.new) }
    ensures fields { fields_of response.new ≡ fields_for plain }
{
    response.body.push(replies.into_bytes()?)
}

/// Ends the answer with the replies to lines: with all of them, or, where one is missing or there is no
/// memory, with status 503 and none.
pub(crate) fn end_replies(response: &mut Response, replies: Replies, is_whole: bool)
    requires { IsResponse 200 (fields_for plain) [] response.old }
    ensures { IsReplies replies is_whole response.new }
{
    if is_whole && put_replies(response, replies).is_ok() {
        return;
    }
    response.status = StatusCode::SERVICE_UNAVAILABLE;
    response.body.clear();
}
