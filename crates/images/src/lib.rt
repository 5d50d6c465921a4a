//! Images: read from octal text, packed into bytes and taken out of them again, shown as lines with their
//! instructions, and compared. It is proved that the bytes of an image are its words as `word_packing` packs
//! them, row by row, and that each row comes back; of all else, that it is safe and ends. Nothing here opens a
//! file or knows how an image is made.
#![tactic(auto)]

// An image, read and written.
mod image;
mod packed_images;
mod processor;
mod reading;
mod word_rows;

// An image shown.
mod dumping;
mod instructions;

// Two images compared.
mod aligning;
mod comparing;
mod moves;
mod shortest_ways;
mod units;
mod windows;

pub use comparing::Comparison;
pub use dumping::section_lines;
pub use image::{Image, Section};
pub use packed_images::PackedImage;
pub use reading::ImageFault;
