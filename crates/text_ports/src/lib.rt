//! Bytes in and out: texts in memory, octal and decimal digits, lines, and ports that count their faults.
//! Nothing here knows what a card is, and only `Text` and `Piece` take memory.
//!
//! Contracts see a `Counted` port as the port with its count of faults. `next_held_line` answers as
//! `next_line` does and asks for a reader that shows what it holds: a line that lies there whole is
//! taken at once. `Text` takes what it appends in one call, so without memory it is as it was;
//! `PrependedText` is an array on the stack that grows at its front, for the digits of a number, and for a
//! line that is appended whole. A
//! `Piece` takes all bytes and reports at its end whether it has them: so a text can be put to it by
//! functions that have no want of memory to report.
#![tactic(auto)]

// Numbers.
mod digits;

// Texts in memory, and short ones on the stack.
mod history;
mod piece;
mod prepended_text;
mod text;

// Ports, and what goes in and out.
mod counted;
mod held_lines;
mod lines;
mod writing;

pub use counted::Counted;
pub use digits::octal;
pub use held_lines::next_held_line;
pub use lines::{LineBuf, LineIs, next_line, next_whole_line};
pub use piece::Piece;
pub use prepended_text::{PrependedText, ShortText};
pub use text::Text;
pub use writing::{Broken, put_all};
