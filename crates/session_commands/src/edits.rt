//! Edits of a deck's cards as lines show them, the lines of a batch, and those of a deck that is put.
ghost use Rattle.std.specs.Prelude.{◌≡◌};
ghost use Rattle.session_commands.specs.Edits.{card_behind, card_in_put, fits_edit, edit_at, edit_in_batch};

use crate::refusals::Refusal;
use crate::verbs::{EditKind, edit_kind_of};
use crate::words::{behind_blank, behind_word, first_number, from_blank, to_blank};
use cards::{Card, Edit};

/// Whether what stands behind the place may stand there: behind that of a removed card nothing does.
pub(crate) fn fits_edit(kind: EditKind, rest: &[u8]) -> bool
    ensures { result ≡ fits_edit kind rest.now }
{
    match kind {
        EditKind::Insert | EditKind::Replace => true,
        EditKind::Remove => rest.is_empty(),
    }
}

/// The card of a text, which is all that stands behind one blank.
fn read_card(rest: &[u8]) -> Result<Card, Refusal>
    ensures { result ≡ card_behind rest.now }
{
    match Card::read(behind_blank(rest)) {
        Ok(card) => Ok(card),
        Err(fault) => Err(Refusal::BadCard(fault)),
    }
}

/// The edit of this kind at this place, with the card that the rest of the line shows.
pub(crate) fn edit_at(kind: EditKind, at: u64, rest: &[u8]) -> Result<Edit, Refusal>
    ensures { result ≡ edit_at kind at rest.now }
{
    match kind {
        EditKind::Insert => Ok(Edit::Insert {
            at,
            card: read_card(rest)?,
        }),
        EditKind::Replace => Ok(Edit::Replace {
            at,
            card: read_card(rest)?,
        }),
        EditKind::Remove => Ok(Edit::Remove { at }),
    }
}

/// Reads one of the lines that follow a `BATCH`: `INS at text`, `REP at text` or `DEL at`. The text
/// is all that stands behind one blank; a line that ends behind `at` has the empty card. Any other
/// line is `BadCommand`; then comes the fault of the card.
pub fn read_batch_line(line: &[u8]) -> Result<Edit, Refusal>
    ensures edit { result ≡ edit_in_batch line.now }
{
    let rest = from_blank(line);
    let kind = edit_kind_of(to_blank(line)).ok_or(Refusal::BadCommand)?;
    let at = first_number(rest).ok_or(Refusal::BadCommand)?;
    if !fits_edit(kind, behind_word(rest)) {
        return Err(Refusal::BadCommand);
    }
    edit_at(kind, at, behind_word(rest))
}

/// Reads the line of this number behind a `PUT`, which is a card, all of it. The refusal of any other
/// line shows its number.
pub fn read_put_line(number: u64, line: &[u8]) -> Result<Card, Refusal>
    ensures { result ≡ card_in_put number line.now }
{
    match Card::read(line) {
        Ok(card) => Ok(card),
        Err(fault) => Err(Refusal::BadLine {
            line: number as usize,
            fault,
        }),
    }
}
