//! The page of a service: what a browser is answered over one connection. Who serves the lines of a
//! session behind it is a trait; nothing here knows of a desk, a socket or a thread.
//!
//! | Request | Answer |
//! |---|---|
//! | `GET /` | the page: one file with its style and its script |
//! | `POST /session` | the replies to the lines of its body, which are served as those of a session |
//! | another method there | 405 |
//! | another path | 404 |
//! | a `Host` or an `Origin` that is not this machine with this port, or lines without an `Origin` | 403 |
//! | no lawful request, or one that is too long | 400, 413, 414, 431 or 501, of `http_server` |
//!
//! A foreign page can have a browser send requests here. It reads no answer of another origin; but under a
//! name of its own that leads to this machine all would be of its origin, and a form may be sent anywhere.
//! So a request has to name this machine as its host, and lines need the origin too, which a browser sends
//! with all that is posted, and which no page can choose.
//!
//! Each answer closes the connection, so a browser that waits holds none. What it may take of time is
//! kept by those who make the reader and the writer.
#![tactic(auto)]

// What a request asks for.
mod admission;
mod asked;

// What it is answered.
mod answers;
mod page_edits;
mod page_script;
mod page_style;
mod page_text;
mod replies;

// One connection.
mod connections;
mod service;

pub use asked::{Asked, asked_by};
pub use connections::serve_page;
pub use replies::{MOST_REPLIES, Replies};
pub use service::{PageService, ServeLines, Served};
