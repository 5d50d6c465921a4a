//! The line of one card in a file.
ghost use Rattle.std.specs.Prelude.{◌≡◌};
ghost use Rattle.deck_files.specs.DeckFiles.{line_of_card};

use cards::Card;
use definitions::InlineText;

/// How many bytes a line has at most: 80 columns and the line feed.
const MOST_BYTES: usize = 81;

/// The columns of a card and a line feed.
pub(crate) fn card_line(card: &Card) -> InlineText<MOST_BYTES>
    ensures { result ≡ line_of_card card.now }
{
    let mut line = InlineText::of(card.as_slice());
    line.push(b'\n');
    line
}
