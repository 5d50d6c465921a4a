//! Images read from octal text: that of an image, of a dump, or lines of an address and words alone.

use crate::image::{Image, MOST_SECTIONS, Section, is_title, processor_of};
use crate::processor::Processor;
use std::alloc::{AllocError, Global};
use thiserror::Error;

/// The line that ends an image, and the text beside packed words.
pub(crate) const END: &[u8] = b"END";

/// Why bytes are no image.
#[derive(Clone, Copy, Debug, Error)]
pub enum ImageFault {
    /// This line, counted from 1, is none of an image.
    #[error("the line is none of an image")]
    BadLine { line: u64 },
    /// The packed words are fewer or more bytes than the text beside them says.
    #[error("the packed words are not as many as the text beside them says")]
    BadLength,
    /// No memory was left.
    #[error("no memory was left")]
    OutOfMemory,
}

impl From<AllocError> for ImageFault {
    fn from(_: AllocError) -> ImageFault {
        ImageFault::OutOfMemory
    }
}

/// Why a line is not taken.
#[derive(Clone, Copy, Debug, Error)]
pub(crate) enum LineFault {
    /// It is none of an image.
    #[error("the line is none of an image")]
    Bad,
    /// No memory was left.
    #[error("no memory was left")]
    OutOfMemory,
}

impl From<AllocError> for LineFault {
    fn from(_: AllocError) -> LineFault {
        LineFault::OutOfMemory
    }
}

impl LineFault {
    /// The fault of a text whose line of this number is not taken.
    pub(crate) fn at(self, line: u64) -> ImageFault {
        match self {
            LineFault::Bad => ImageFault::BadLine { line },
            LineFault::OutOfMemory => ImageFault::OutOfMemory,
        }
    }
}

/// The value of an octal digit.
fn digit_of(byte: u8) -> Option<u64> {
    if byte >= b'0' && byte <= b'7' {
        Some(u64::from(byte - b'0'))
    } else {
        None
    }
}

/// The number that octal digits make, if there is nothing else, and at most ten of them.
pub(crate) fn number_of(digits: &[u8]) -> Option<u32> {
    if digits.is_empty() || digits.len() > 10 {
        return None;
    }
    let mut number = 0u64;
    for byte in digits {
        number = number.wrapping_mul(8).wrapping_add(digit_of(*byte)?);
    }
    u32::try_from(number).ok()
}

/// A line in front of its first blank, and what is behind that.
pub(crate) fn cut_at_blank(line: &[u8]) -> (&[u8], &[u8]) {
    let place = line.iter().position(|byte| *byte == b' ');
    let (front, behind) = line.split_at(place.unwrap_or(line.len()).min(line.len()));
    (front, behind.strip_prefix(b" ").unwrap_or(b""))
}

/// A text without the blanks in front.
fn behind_blanks(text: &[u8]) -> &[u8] {
    let place = text.iter().position(|byte| *byte != b' ');
    text.split_at(place.unwrap_or(text.len()).min(text.len())).1
}

/// The processor whose words a line has that stands below no title: four digits are a peripheral word.
fn processor_of_line(line: &[u8]) -> Processor {
    let words = behind_blanks(cut_at_blank(line).1);
    if cut_at_blank(words).0.len() == Processor::Peripheral.octal_digits() {
        Processor::Peripheral
    } else {
        Processor::Central
    }
}

/// The word that digits are being read to.
#[derive(Clone, Copy)]
struct PartialWord {
    address: u32,
    value: u64,
    /// How many of its digits were read.
    digits: usize,
}

impl PartialWord {
    /// Takes one digit more; the word goes into the section with its last one.
    fn take(&mut self, alloc: Global, section: &mut Section, digit: u64) -> Result<(), AllocError> {
        self.value = self.value.wrapping_mul(8).wrapping_add(digit);
        self.digits = self.digits.saturating_add(1);
        if self.digits >= section.processor.octal_digits() {
            section.put(alloc, self.address, self.value)?;
            *self = PartialWord {
                address: self.address.saturating_add(1),
                value: 0,
                digits: 0,
            };
        }
        Ok(())
    }
}

impl Section {
    /// Takes the words of a line: behind its address their digits, together or in groups, up to two blanks; the
    /// words stand side by side. What is behind the blanks is left.
    fn take_line(&mut self, alloc: Global, line: &[u8]) -> Result<(), LineFault> {
        let (address, behind) = cut_at_blank(line);
        let address = number_of(address).ok_or(LineFault::Bad)?;
        let mut word = PartialWord {
            address,
            value: 0,
            digits: 0,
        };
        let mut is_behind_blank = false;
        for byte in behind_blanks(behind) {
            match digit_of(*byte) {
                Some(digit) => word.take(alloc, self, digit)?,
                None if *byte != b' ' => return Err(LineFault::Bad),
                None if is_behind_blank => break,
                None => {}
            }
            is_behind_blank = *byte == b' ';
        }
        if word.digits == 0 && word.address != address {
            Ok(())
        } else {
            Err(LineFault::Bad)
        }
    }
}

impl Image {
    pub(crate) fn new(alloc: Global) -> Image {
        Image {
            sections: Vec::new(alloc),
        }
    }

    /// Its sections in their order.
    pub fn sections(&self) -> &[Section] {
        self.sections.as_slice()
    }

    /// Begins a section; one more than an image has is refused.
    pub(crate) fn begin(
        &mut self,
        alloc: Global,
        title: &[u8],
        processor: Processor,
    ) -> Result<(), LineFault> {
        if self.sections.len() >= MOST_SECTIONS {
            return Err(LineFault::Bad);
        }
        let section = Section::new(alloc, title, processor)?;
        match self.sections.push(section) {
            Ok(()) => Ok(()),
            Err(_) => Err(LineFault::OutOfMemory),
        }
    }

    /// Takes a line: one that begins a section, or has words of the last one. Words in front of all titles are
    /// in a section that has none.
    fn take_line(&mut self, alloc: Global, line: &[u8]) -> Result<(), LineFault> {
        if is_title(line) {
            return self.begin(alloc, line, processor_of(line));
        }
        if self.sections.is_empty() {
            self.begin(alloc, b"", processor_of_line(line))?;
        }
        match self.sections.as_mut_slice().last_mut() {
            Some(section) => section.take_line(alloc, line),
            None => Err(LineFault::Bad),
        }
    }

    /// The image that an octal text is, up to its line END. Lines without characters are left out, and so is a
    /// carriage return at the end of one. A fault is that of the first line that is none of an image.
    pub fn read(alloc: Global, text: &[u8]) -> Result<Image, ImageFault> {
        let mut image = Image::new(alloc);
        let mut number = 0u64;
        for line in text.split(|byte| *byte == b'\n') {
            number = number.saturating_add(1);
            let line = line.strip_suffix(b"\r").unwrap_or(line);
            if line == END {
                break;
            }
            if !line.is_empty() {
                image
                    .take_line(alloc, line)
                    .map_err(|fault| fault.at(number))?;
            }
        }
        Ok(image)
    }
}
