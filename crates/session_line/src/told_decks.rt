//! What became of decks that were to be saved, or to be added.
ghost use Rattle.std.specs.Prelude.{◌≡◌, ◌≤◌, ◌++◌, length};
ghost use Rattle.session_line.specs.Replies.{line_of, outcome_text, told_deck_text};
ghost use Rattle.session_line.specs.ToldDecks.{outcome_of};

use crate::answers::Told;
use crate::line_writing::ReplyRow;
use crate::refusal_texts::put_refusal;
use crate::reply_line::ReplyLine;
use cards::DeckName;
use session_commands::Refusal;

/// What became of a deck.
#[derive(Clone, Copy)]
pub enum DeckOutcome {
    /// It was saved or added: the version whose cards its file has, or that it has on the desk.
    Done(u64),
    /// It was added, and has this version; the record of that is not on the disk.
    Unkept(u64),
    /// It was not, for this reason.
    Refused(Refusal),
}

/// A deck that was to be saved or added, and what became of it.
#[derive(Drop)]
pub struct ToldDeck {
    pub name: DeckName,
    pub outcome: DeckOutcome,
}

/// The outcome that is shown of a deck.
pub(crate) fn outcome_of(told: &Told) -> DeckOutcome
    ensures { result ≡ outcome_of told.now }
{
    match told {
        Told::Done(version) => DeckOutcome::Done(*version),
        Told::Unkept(version) => DeckOutcome::Unkept(*version),
        Told::Refused(refusal) => DeckOutcome::Refused(*refusal),
        _ => DeckOutcome::Refused(Refusal::Foreign),
    }
}

/// Puts the version of a deck, or why nothing was done.
fn put_outcome(line: &mut ReplyLine, outcome: DeckOutcome)
    requires { length line.old ≤ 7 }
    ensures text { line.new ≡ line.old ++ outcome_text outcome }
    ensures short { length line.new ≤ 79 }
{
    match outcome {
        DeckOutcome::Done(version) => {
            line.put(b" ");
            line.put_number(version);
        }
        DeckOutcome::Unkept(version) => {
            line.put(b" UNKEPT ");
            line.put_number(version);
        }
        DeckOutcome::Refused(refusal) => {
            line.put(b" NO ");
            put_refusal(line, &refusal);
        }
    }
}

/// The line of a deck.
fn told_deck_line(deck: &ToldDeck) -> ReplyLine
    ensures { result ≡ line_of (told_deck_text deck.now) }
{
    let mut line = ReplyLine::new();
    line.put(deck.name.as_slice());
    put_outcome(&mut line, deck.outcome);
    line.end();
    line
}

impl ReplyRow for ToldDeck {
    ghost use Rattle.session_line.specs.Replies.{line_of, told_deck_text};

    ghost line_text = { λ deck. line_of (told_deck_text deck) };

    fn line(&self) -> ReplyLine {
        told_deck_line(self)
    }
}
