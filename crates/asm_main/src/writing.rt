//! What is published, to a writer.
ghost use Rattle.std.specs.Prelude.{◌≡◌, ◌++◌, length, IfOk};
ghost use Rattle.definitions.specs.Build.{build_of};
ghost use Rattle.text_ports.specs.Joins.Sending.{Sends, count_after_sending};

use deck_linker::Publication;
use std::io::Write;
use text_ports::{Broken, Counted, put_all};

/// The bytes of a text, and how many these are; or exactly the first of them up to a fault.
pub(crate) fn put_text<W: Write>(output: &mut Counted<W>, text: &[u8]) -> Result<usize, Broken>
    ensures sends { Sends (W.contents output.old.0) (W.contents output.new.0) text.now result }
    ensures count { output.new.1 ≡ count_after_sending result output.old.1 }
    ensures len { IfOk result (λ sent. sent ≡ length text.now) }
{
    put_all(output, text)?;
    Ok(text.len())
}

/// The bytes of one text and of another behind it, or exactly the first of them up to a fault.
pub(crate) fn put_both<W: Write>(
    output: &mut Counted<W>,
    first: &[u8],
    second: &[u8],
) -> Result<(), Broken>
    ensures sends { Sends (W.contents output.old.0) (W.contents output.new.0) (first.now ++ second.now) result }
    ensures count { output.new.1 ≡ count_after_sending result output.old.1 }
{
    put_all(output, first)?;
    match put_all(output, second) {
        Ok(()) => Ok(()),
        Err(broken) => Err(Broken {
            sent: first.len() + broken.sent,
        }),
    }
}

/// The listing, and the image behind it.
pub fn write_texts<W: Write>(
    output: &mut Counted<W>,
    publication: &Publication,
) -> Result<(), Broken>
    ensures sends { Sends (W.contents output.old.0) (W.contents output.new.0) (build_of publication.now.decks).text result }
    ensures count { output.new.1 ≡ count_after_sending result output.old.1 }
{
    put_both(output, publication.listing(), publication.image())
}
