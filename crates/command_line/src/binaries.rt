//! The image of a run as packed words: the file that the words name, and the text beside it that shows where
//! they stand.

use crate::image_files::sections_beside;
use crate::outputs::FileName;
use crate::run_faults::RunFault;
use asm_main::{AsmFault, Built, Chosen, write_chosen};
use deck_files::{Begun, begin_whole, end_whole, fill_whole};
use images::{Image, ImageFault, PackedImage};
use std::alloc::{AllocError, Global};
use std::fs;
use std::io::{self, ErrorKind};
use std::os::fd::AsFd;
use std::rt::Files;
use text_ports::Counted;

/// What is taken of a build for the text of its image alone.
const IMAGE: Chosen = Chosen {
    listing: false,
    map: false,
    image: true,
};

/// The texts that are chosen of a build.
pub(crate) fn text_of(
    alloc: Global,
    built: &mut Built,
    chosen: Chosen,
) -> Result<Vec<u8>, AllocError> {
    let mut output = Counted::new(Vec::new(alloc));
    match write_chosen(&mut output, built, chosen) {
        Ok(()) => Ok(output.into_inner()),
        Err(_) => Err(AllocError),
    }
}

/// The packed words of a build.
fn packed(alloc: Global, built: &mut Built) -> Result<PackedImage, ImageFault> {
    let text = text_of(alloc, built, IMAGE)?;
    let image = Image::read(alloc, text.as_slice())?;
    Ok(PackedImage::of(alloc, &image)?)
}

/// Makes the file of the packed words, and that of the text beside them. Both are begun before one of them is
/// there, and the one that can't be made is reported.
pub(crate) fn write_binary<'a, R>(
    rt: &R,
    alloc: Global,
    words: &'a str,
    built: &mut Built,
) -> Result<(), RunFault<'a>>
where
    R: Files,
    R::File: AsFd,
{
    let image = match packed(alloc, built) {
        Ok(image) => image,
        Err(fault) => return Err(packing_fault(words, fault)),
    };
    let begun = match begin_whole(rt, alloc, words) {
        Ok(begun) => begun,
        Err(error) => return Err(RunFault::Output { name: words, error }),
    };
    match begin_beside(rt, alloc, sections_beside(words)) {
        Ok(beside) => fill_both(rt, words, &image, begun, beside),
        Err(error) => {
            let _ = end_whole(rt, begun, Err(error));
            let name = sections_beside(words);
            Err(RunFault::Beside { name, error })
        }
    }
}

/// Begins the file of the text beside packed words.
fn begin_beside<R: Files>(rt: &R, alloc: Global, name: FileName<'_>) -> io::Result<Begun<R::File>>
where
    R::File: AsFd,
{
    let path = format!(in alloc; "{name}")?;
    begin_whole(rt, alloc, path.as_str())
}

/// Fills both files; where the first can't be, the second is not made.
fn fill_both<'a, R: Files>(
    rt: &R,
    name: &'a str,
    image: &PackedImage,
    words: Begun<R::File>,
    sections: Begun<R::File>,
) -> Result<(), RunFault<'a>> {
    if let Err(error) = fill_whole(rt, words, image.bytes()) {
        let _ = end_whole(rt, sections, Err(error));
        return Err(RunFault::Output { name, error });
    }
    let name = sections_beside(name);
    fill_whole(rt, sections, image.places()).map_err(|error| RunFault::Beside { name, error })
}

/// The fault of an image that can't be packed. That the text of an image is none does not come.
fn packing_fault<'a>(name: &'a str, fault: ImageFault) -> RunFault<'a> {
    match fault {
        ImageFault::OutOfMemory => RunFault::Asm(AsmFault::OutOfMemory),
        _ => {
            let error = io::Error::from(ErrorKind::InvalidData);
            RunFault::Output { name, error }
        }
    }
}

/// Whether packed words may be written to a name: not to standard output, nor to what is there and is no plain
/// file, since the text that shows where they stand has to lie beside them.
pub(crate) fn may_hold_words<R: Files>(rt: &R, name: &str) -> bool {
    match fs::metadata(rt, name) {
        Ok(about) => about.is_file(),
        Err(_) => name != "-",
    }
}
