//! Whether a request comes from a page of this service: by the names that a browser sends.
ghost use Rattle.std.specs.Prelude.{◌≡◌, ◌++◌, bytes_eq, codes, is_some};
ghost use Rattle.http_header.specs.HeaderMap.{get};
ghost use Rattle.page.specs.Admission.{comes_from_here, host_is_own, is_named, is_own_host, is_own_origin, origins_are_own};

use http::header::{HOST, ORIGIN};
use http::{HeaderMap, HeaderValue};
use itoa::Buffer;

/// Whether a text is a name and these digits behind it.
fn is_joined(name: &[u8], digits: &[u8], text: &[u8]) -> bool
    ensures { result ≡ bytes_eq text.now (name.now ++ digits.now) }
{
    match text.strip_prefix(name) {
        Some(rest) => rest == digits,
        None => false,
    }
}

/// Whether a text is a name and the port behind it.
fn is_named(name: &[u8], port: u16, text: &[u8]) -> bool
    ensures { result ≡ is_named name.now port text.now }
{
    let mut buffer = Buffer::new();
    is_joined(name, buffer.format(port).as_bytes(), text)
}

/// Whether a host is this machine with this port.
fn is_own_host(port: u16, host: &[u8]) -> bool
    ensures { result ≡ is_own_host port host.now }
{
    is_named(b"127.0.0.1:", port, host)
        || is_named(b"localhost:", port, host)
        || is_named(b"[::1]:", port, host)
}

/// Whether an origin is a page of this machine with this port.
fn is_own_origin(port: u16, origin: &[u8]) -> bool
    ensures { result ≡ is_own_origin port origin.now }
{
    is_named(b"http://127.0.0.1:", port, origin)
        || is_named(b"http://localhost:", port, origin)
        || is_named(b"http://[::1]:", port, origin)
}

/// Whether the host of a request is this machine with this port.
fn host_is_own(port: u16, headers: &HeaderMap<HeaderValue>) -> bool
    ensures { result ≡ host_is_own port headers.now }
{
    match headers.get(HOST) {
        Some(host) => is_own_host(port, host.as_bytes()),
        None => false,
    }
}

/// Whether each origin of a request is a page of this machine with this port.
fn origins_are_own(port: u16, headers: &HeaderMap<HeaderValue>) -> bool
    ensures { result ≡ origins_are_own port headers.now }
{
    headers
        .get_all(ORIGIN)
        .iter()
        .all(|origin| is_own_origin(port, origin.as_bytes()))
}

/// Whether a request comes from a page of this service, or from no page.
pub(crate) fn comes_from_here(port: u16, headers: &HeaderMap<HeaderValue>) -> bool
    ensures { result ≡ comes_from_here port headers.now }
{
    host_is_own(port, headers) && origins_are_own(port, headers)
}

/// Whether a request names the page that it comes from.
pub(crate) fn has_origin(headers: &HeaderMap<HeaderValue>) -> bool
    ensures { result ≡ is_some (get headers.now (codes "origin")) }
{
    headers.get(ORIGIN).is_some()
}
