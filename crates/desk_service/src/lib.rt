//! The service: clients edit decks over connections, workers assemble and link what changed, and all
//! see one desk.
//!
//! | Thread | How many | What it does | Where it sleeps |
//! |---|---|---|---|
//! | receiving | 1 | accepts connections, gives each to a session that is free | in `accept` |
//! | session | 1 to 16 | takes a connection, serves it to its end, takes the next | till one comes, in a read of the connection, till a version is published |
//! | worker | 1 to 16 | claims what is due, runs it, delivers it | on the bell |
//! | page | 4, or none | takes a connection of a browser that said something, answers it, takes the next | in `accept`, or for one of the four who is there, some seconds for a request |
//! | control | 1 | hears whether the service is to end | at the socket of the folder |
//!
//! Each has a seat of one office over the desk, and waits while others have their turn at it. The bell
//! is one channel from all sessions to all workers. A session rings it once for each change that was
//! accepted, after the change; a worker that hears it claims whatever is due then. It claims again after
//! each delivery, so a deck that was out while it changed, and the link behind the last deck, need no
//! bell of their own. When the last session has ended no bell can come any more, which ends the workers.
//!
//! A session that waits for a version asks for the status, and sleeps where that does not show it; it holds no
//! turn and no worker meanwhile. A worker reports each link that the desk took from it, behind the delivery,
//! and so wakes who waits; then the session asks once more. So do a minute, and the end of the service.
//!
//! A client that goes away, sends a line that is too long or never ends, or sends what is no command,
//! ends its session or is answered so, and nothing else; so does one that sends nothing for longer than it may
//! be idle, takes longer than half a minute for a line that has begun, or takes nothing of a reply for as long. A session that begins
//! with a request of HTTP, or with sixteen lines that are no commands, ends there. A client that finds all
//! sessions taken for a fifth of a second is answered `NO Busy`. A bell that finds no memory is not rung; the change stands, and is
//! assembled after the next one. A job that a worker gave up for want of memory it claims again by itself,
//! at growing intervals.
//!
//! A change is reported as made once its record is in the journal, and the system has kept it. A session whose
//! change the desk made puts the record into a queue; one of those that wait writes for all whose turn it
//! is, in the order of their versions, and syncs once. A start makes the changes again, and goes on behind
//! the last version that the folder saw.
//!
//! Lines that a page sends are served as those of a session: from a reader of these bytes to replies in memory,
//! at a desk and a shelf of its thread's own.
//!
//! Who says `STOP` at the control connection ends the service: no connection is taken any more, nothing more
//! is read, and what is being answered goes out. A thread that hangs in the system is waited for: no thread can be
//! ended from outside, so a signal ends the process then.
//!
//! Not promised: that a connection is accepted, that a bell is heard, in which order sessions get their
//! turns, or in what time. What sockets and files of the system take and give is known to no contract.
#![tactic(auto)]

// One session, over any ports.
mod openings;
mod page_lines;
mod sessions;

// What a service begins with, and keeps.
mod faults;
mod journals;
mod notes;
mod opening;
mod root;
mod settings;
mod system_file;
mod versions;

// What a client may rest on.
mod laws;

// Threads and sockets.
mod arrivals;
mod clients;
mod company;
mod connections;
mod control;
mod lobby;
mod pages;
mod patience;
mod places;
mod publications;
mod running;
mod seating;
mod service_end;
mod session_ends;
mod timed_stream;

pub use control::stop;
pub use faults::ServeFault;
pub use journals::Journal;
pub use laws::{told_changes_are_kept, versions_are_read_back};
pub use page_lines::DeskLines;
pub use running::{serve, serve_on};
pub use session_ends::SessionEnds;
pub use sessions::{Ending, serve_session};
pub use settings::{Journaling, Settings};
pub use system_file::SystemFile;
