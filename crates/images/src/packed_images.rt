//! Images as packed words, with a text beside them that says where the words stand.

ghost use Rattle.std.specs.Prelude.{◌≡◌, ◌++◌, IfOk, OnOk};
ghost use Rattle.images.specs.PackedImages.{image_bytes, row_bytes, section_bytes};

use crate::image::{Image, Section, is_title, processor_of};
use crate::reading::{END, ImageFault, LineFault, cut_at_blank, number_of};
use crate::word_rows::{MOST_WORDS, WordRow};
use std::alloc::{AllocError, Global};
use std::marker::Model;
use text_ports::Text;

/// An image as packed words. Contracts see it as the list of its bytes.
#[derive(Drop)]
pub struct PackedImage {
    bytes: Text,
    places: Text,
}

impl Model for PackedImage {
    ghost use Rattle.std.specs.Prelude.{ℕ, List};

    ghost Value = { List ℕ };

    ghost view = { λ p. p.bytes };
}

/// What is left of packed words.
#[derive(Clone, Copy)]
struct Packed<'a> {
    bytes: &'a [u8],
}

/// A line of the text beside packed words: where a row begins, and how many words it has.
#[derive(Clone, Copy)]
struct RowPlace {
    address: u32,
    count: usize,
}

impl RowPlace {
    /// The place that a line `ADDRESS LENGTH` says, both in octal.
    fn read(line: &[u8]) -> Option<RowPlace> {
        let (address, count) = cut_at_blank(line);
        let address = number_of(address)?;
        let count = number_of(count)? as usize;
        (count <= MOST_WORDS).then_some(RowPlace { address, count })
    }
}

impl PackedImage {
    /// The packed words: each row of words that stand side by side in bytes of its own.
    pub fn bytes(&self) -> &[u8]
        ensures { result.now ≡ self.now }
    {
        self.bytes.as_slice()
    }

    /// Where they stand: the titles of the sections, and behind each a line `ADDRESS LENGTH` for each row, in
    /// octal.
    pub fn places(&self) -> &[u8] {
        self.places.as_slice()
    }

    /// Puts a row behind the others.
    fn push_row(&mut self, alloc: Global, row: &WordRow) -> Result<(), AllocError>
        ensures { OnOk result (self.new ≡ self.old ++ row_bytes row.now) }
    {
        self.places.push_octal(6, u64::from(row.address))?;
        self.places.push_byte(b' ')?;
        self.places.push_octal(6, row.words.len() as u64)?;
        self.places.push_byte(b'\n')?;
        self.bytes.push_bytes(row.packed(alloc)?.as_slice())
    }

    /// Puts a section behind the others.
    fn push_section(&mut self, alloc: Global, section: &Section) -> Result<(), AllocError>
        ensures { OnOk result (self.new ≡ self.old ++ section_bytes section.now) }
    {
        self.places.push_bytes(section.title.as_slice())?;
        self.places.push_byte(b'\n')?;
        for row in section.rows.as_slice() {
            self.push_row(alloc, row)?;
        }
        Ok(())
    }

    /// The words of an image, packed.
    pub fn of(alloc: Global, image: &Image) -> Result<PackedImage, AllocError>
        ensures { IfOk result (λ packed. packed ≡ image_bytes image.now) }
    {
        let mut packed = PackedImage {
            bytes: Text::new(alloc),
            places: Text::new(alloc),
        };
        for section in image.sections.as_slice() {
            packed.push_section(alloc, section)?;
        }
        packed.places.push_bytes(END)?;
        packed.places.push_byte(b'\n')?;
        Ok(packed)
    }
}

impl<'a> Packed<'a> {
    /// Takes the row at a place from the front.
    fn take(
        &mut self,
        alloc: Global,
        section: &Section,
        place: RowPlace,
    ) -> Result<WordRow, ImageFault> {
        let digits = section.processor.hexadecimal_digits();
        let size = (place.count.wrapping_mul(digits).wrapping_add(1)) / 2;
        if size > self.bytes.len() {
            return Err(ImageFault::BadLength);
        }
        let (front, behind) = self.bytes.split_at(size);
        self.bytes = behind;
        let count = place.count.min(MOST_WORDS);
        Ok(WordRow::unpacked(alloc, section.processor, place.address, count, front)?)
    }

    /// Takes the row that a line says into a section.
    fn take_line(
        &mut self,
        alloc: Global,
        section: &mut Section,
        line: &[u8],
        number: u64,
    ) -> Result<(), ImageFault> {
        let Some(place) = RowPlace::read(line) else {
            return Err(ImageFault::BadLine { line: number });
        };
        let row = self.take(alloc, section, place)?;
        match section.rows.push(row) {
            Ok(()) => Ok(()),
            Err(_) => Err(ImageFault::OutOfMemory),
        }
    }
}

impl Image {
    /// Takes a line of the text beside packed words, and the words of a row from their front.
    fn take_packed(
        &mut self,
        alloc: Global,
        packed: &mut Packed<'_>,
        line: &[u8],
        number: u64,
    ) -> Result<(), ImageFault> {
        if is_title(line) {
            return self
                .begin(alloc, line, processor_of(line))
                .map_err(|fault| fault.at(number));
        }
        match self.sections.as_mut_slice().last_mut() {
            Some(section) => packed.take_line(alloc, section, line, number),
            None => Err(LineFault::Bad.at(number)),
        }
    }

    /// The image whose words are packed in these bytes, of which the text beside them shows the places. A
    /// fault is that of the first line of this text that is none of it, or whose words are not there; bytes
    /// that no line shows are `BadLength`.
    pub fn unpacked(alloc: Global, bytes: &[u8], places: &[u8]) -> Result<Image, ImageFault> {
        let mut image = Image::new(alloc);
        let mut packed = Packed { bytes };
        let mut number = 0u64;
        for line in places.split(|byte| *byte == b'\n') {
            number = number.saturating_add(1);
            if line == END {
                break;
            }
            if !line.is_empty() {
                image.take_packed(alloc, &mut packed, line, number)?;
            }
        }
        if packed.bytes.is_empty() {
            Ok(image)
        } else {
            Err(ImageFault::BadLength)
        }
    }
}
