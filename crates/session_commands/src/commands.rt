//! The commands of a session.
ghost use Rattle.std.specs.Prelude.{◌≡◌};
ghost use Rattle.session_commands.specs.declared.commands.Command.TheVariants as command;
ghost use Rattle.session_commands.specs.Commands.{name_in, alone, only_name, save_over_in, save_in, view_in, at_in, cards_by, cards_in, sought_in, find_in, image_in, list_in, errors_of, errors_in, symbols_in, status_in, wait_in, named_version, of_version, edit_in, head_in, batch_by, put_of, put_by, command_by, refusal_of_word, command_of, is_batch_size, is_put_size};

use crate::edits::{edit_at, fits_edit};
use crate::refusals::Refusal;
use crate::sought::is_sought_size;
use crate::unknown_words::UnknownWord;
use crate::verbs::{EditKind, Verb, verb_of};
use crate::views::{CardsView, ErrorsView};
use crate::words::{
    Seen, behind_blank, behind_word, first_number, first_seen, first_word, from_blank, to_blank,
};
use cards::{Card, DeckName, Edit};
use deck_files::SaveOver;
use definitions::is_same_text;

/// How many edits a batch has at most.
const MOST_EDITS: u64 = 100;

/// How many cards a put has at most.
const MOST_PUT_CARDS: u64 = 20_000;

/// What a line of a session asks for. Who changes a deck gives the version of it that was seen.
#[derive(Drop)]
pub enum Command {
    /// A new deck without cards.
    Add {
        name: DeckName,
    },
    /// A new deck with the cards of the shelf's file of its name.
    Load {
        name: DeckName,
    },
    /// New decks with the cards of the shelf's file of this name: one for each IDENT card.
    LoadAll {
        name: DeckName,
    },
    /// `RELOAD name`
    Reload {
        name: DeckName,
    },
    /// The deck goes.
    Drop {
        name: DeckName,
        version: u64,
    },
    /// One edit of the deck.
    Edit {
        name: DeckName,
        seen: Seen,
        edit: Edit,
    },
    /// The cards of the deck, some of them, or the numbers of some.
    Cards {
        name: DeckName,
        view: CardsView,
    },
    /// The cards that the deck had at this version.
    CardsAt {
        name: DeckName,
        version: u64,
    },
    /// The changes of the deck behind this version.
    Changes {
        name: DeckName,
        version: u64,
    },
    /// The cards of the deck go to the shelf's file of its name, where that may be written over.
    Save {
        name: DeckName,
        over: SaveOver,
    },
    /// Each deck whose file has not its cards is saved.
    SaveAll,
    /// The published image.
    Image,
    /// The published listing, with the map behind it.
    List,
    /// The map of the published link alone.
    Map,
    /// The part of the published image that is this deck's.
    ImageOf {
        name: DeckName,
    },
    /// The part of the published listing that is this deck's.
    ListOf {
        name: DeckName,
    },
    /// The flagged statements and the LINK lines of the publication, those of all decks or of one.
    Errors(ErrorsView),
    /// What is said of each flagged statement of this deck, as the publication has it.
    Words {
        name: DeckName,
    },
    /// The names that decks enter or have as externals, as the publication has them.
    Names,
    /// The symbols of this deck, as the publication has it.
    Symbols {
        name: DeckName,
    },
    /// The versions and states of all decks.
    Status,
    /// The same, with whether the file of each deck has its cards.
    FileStatus,
    /// The deck files of the shelf.
    Files,
    /// The desk's version and the published one, once this version or a later one is published.
    Wait {
        version: u64,
    },
    /// Edits of one deck, all or none, each on a line of its own behind this one.
    Batch(BatchHead),
    /// A deck in the place of the one of its name, its cards on lines of their own behind this one; or a
    /// new deck, where the version is 0.
    Put(LinesHead),
    /// The change of the deck that made this version is taken back.
    Undo {
        name: DeckName,
        version: u64,
    },
    /// The name by which the session changes decks from now on, and who is connected.
    Hello {
        name: DeckName,
    },
    /// `HELP`
    Help,
    /// The end of the session.
    Bye,
}

/// The first line of a batch: the deck, or why the word is no name, the version of it that was seen, and
/// how many edits follow, 1 to 100, a line each.
#[derive(Drop)]
pub struct BatchHead {
    pub name: Result<DeckName, Refusal>,
    pub seen: Seen,
    pub count: u64,
}

/// The first line of a put: the deck, or why the word is no name, the version of it that was seen, and how
/// many cards follow, at most 20,000, a line each.
#[derive(Drop)]
pub struct LinesHead {
    pub name: Result<DeckName, Refusal>,
    pub version: u64,
    pub count: u64,
}

/// The name that a word is.
fn name_in(word: &[u8]) -> Result<DeckName, Refusal>
    ensures { result ≡ name_in word.now }
{
    match DeckName::read(word) {
        Ok(name) => Ok(name),
        Err(_) => Err(Refusal::BadName),
    }
}

/// The command that stands alone on its line.
fn alone(command: Command, rest: &[u8]) -> Result<Command, Refusal>
    ensures { result ≡ alone command rest.now }
{
    if rest.is_empty() {
        Ok(command)
    } else {
        Err(Refusal::BadCommand)
    }
}

/// `name`
fn only_name(rest: &[u8]) -> Result<DeckName, Refusal>
    ensures { result ≡ only_name rest.now }
{
    let name = first_word(rest).ok_or(Refusal::BadCommand)?;
    if !behind_word(rest).is_empty() {
        return Err(Refusal::BadCommand);
    }
    name_in(name)
}

/// What stands behind the name of a save: nothing, or `FORCE` where any file may be written over.
fn save_over_in(rest: &[u8]) -> Option<SaveOver>
    ensures { result ≡ save_over_in rest.now }
{
    if rest.is_empty() {
        Some(SaveOver::Known)
    } else if is_same_text(rest, b" FORCE") {
        Some(SaveOver::Any)
    } else {
        None
    }
}

/// `name`, or `name FORCE`
fn save_in(rest: &[u8]) -> Result<Command, Refusal>
    ensures { result ≡ save_in rest.now }
{
    let name = first_word(rest).ok_or(Refusal::BadCommand)?;
    let over = save_over_in(behind_word(rest)).ok_or(Refusal::BadCommand)?;
    Ok(Command::Save {
        name: name_in(name)?,
        over,
    })
}

/// What is shown of the cards: all where nothing stands behind the name, or those from a place on, which
/// counts from 1, at most so many.
fn view_in(rest: &[u8]) -> Option<CardsView>
    ensures { result ≡ view_in rest.now }
{
    if rest.is_empty() {
        return Some(CardsView::All);
    }
    let place = first_number(rest)?;
    let rest = behind_word(rest);
    let count = first_number(rest)?;
    if place == 0 || !behind_word(rest).is_empty() {
        return None;
    }
    Some(CardsView::From { place, count })
}

/// The version behind the word `AT` that stands behind the name.
fn at_in(rest: &[u8]) -> Option<u64>
    ensures { result ≡ at_in rest.now }
{
    let behind = behind_word(rest);
    if !is_same_text(to_blank(behind_blank(rest)), b"AT") || !behind_word(behind).is_empty() {
        return None;
    }
    first_number(behind)
}

/// Of the cards of the deck of a name this, or else those that it had at a version.
fn cards_by(name: &[u8], view: Option<CardsView>, at: Option<u64>) -> Result<Command, Refusal>
    ensures { result ≡ cards_by name.now view at }
{
    match (view, at) {
        (Some(view), _) => Ok(Command::Cards {
            name: name_in(name)?,
            view,
        }),
        (None, Some(version)) => Ok(Command::CardsAt {
            name: name_in(name)?,
            version,
        }),
        (None, None) => Err(Refusal::BadCommand),
    }
}

/// `name`, `name place count`, or `name AT version`
fn cards_in(rest: &[u8]) -> Result<Command, Refusal>
    ensures { result ≡ cards_in rest.now }
{
    let name = first_word(rest).ok_or(Refusal::BadCommand)?;
    let rest = behind_word(rest);
    cards_by(name, view_in(rest), at_in(rest))
}

/// The text that is looked for: 1 to 72 columns of a card, all that stands behind one blank.
fn sought_in(rest: &[u8]) -> Option<Card>
    ensures { result ≡ sought_in rest.now }
{
    let Ok(text) = Card::read(behind_blank(rest)) else {
        return None;
    };
    if !is_sought_size(text.as_slice().len()) {
        return None;
    }
    Some(text)
}

/// `name text`
fn find_in(rest: &[u8]) -> Result<Command, Refusal>
    ensures { result ≡ find_in rest.now }
{
    let name = first_word(rest).ok_or(Refusal::BadCommand)?;
    let text = sought_in(behind_word(rest)).ok_or(Refusal::BadCommand)?;
    Ok(Command::Cards {
        name: name_in(name)?,
        view: CardsView::With(text),
    })
}

/// Nothing, or `name`, behind `IMAGE`.
fn image_in(rest: &[u8]) -> Result<Command, Refusal>
    ensures { result ≡ image_in rest.now }
{
    if rest.is_empty() {
        return Ok(Command::Image);
    }
    Ok(Command::ImageOf {
        name: only_name(rest)?,
    })
}

/// Nothing, or `name`, behind `LIST`.
fn list_in(rest: &[u8]) -> Result<Command, Refusal>
    ensures { result ≡ list_in rest.now }
{
    if rest.is_empty() {
        return Ok(Command::List);
    }
    Ok(Command::ListOf {
        name: only_name(rest)?,
    })
}

/// Behind `ERRORS name` nothing, or `WORDS`.
fn errors_of(name: &[u8], rest: &[u8]) -> Result<Command, Refusal>
    ensures { result ≡ errors_of name.now rest.now }
{
    if rest.is_empty() {
        return Ok(Command::Errors(ErrorsView::Of(name_in(name)?)));
    }
    if is_same_text(rest, b" WORDS") {
        return Ok(Command::Words {
            name: name_in(name)?,
        });
    }
    Err(Refusal::BadCommand)
}

/// Nothing, `name`, or `name WORDS`, behind `ERRORS`.
fn errors_in(rest: &[u8]) -> Result<Command, Refusal>
    ensures { result ≡ errors_in rest.now }
{
    if rest.is_empty() {
        return Ok(Command::Errors(ErrorsView::Every));
    }
    match first_word(rest) {
        Some(name) => errors_of(name, behind_word(rest)),
        None => Err(Refusal::BadCommand),
    }
}

/// Nothing, or `name`, behind `SYMBOLS`.
fn symbols_in(rest: &[u8]) -> Result<Command, Refusal>
    ensures { result ≡ symbols_in rest.now }
{
    if rest.is_empty() {
        return Ok(Command::Names);
    }
    Ok(Command::Symbols {
        name: only_name(rest)?,
    })
}

/// Nothing, or `FILES`, behind `STATUS`.
fn status_in(rest: &[u8]) -> Result<Command, Refusal>
    ensures { result ≡ status_in rest.now }
{
    if rest.is_empty() {
        Ok(Command::Status)
    } else if is_same_text(rest, b" FILES") {
        Ok(Command::FileStatus)
    } else {
        Err(Refusal::BadCommand)
    }
}

/// `version`
fn wait_in(rest: &[u8]) -> Result<Command, Refusal>
    ensures { result ≡ wait_in rest.now }
{
    let version = first_number(rest).ok_or(Refusal::BadCommand)?;
    if !behind_word(rest).is_empty() {
        return Err(Refusal::BadCommand);
    }
    Ok(Command::Wait { version })
}

/// `name version`
fn named_version(rest: &[u8]) -> Result<(DeckName, u64), Refusal>
    ensures { result ≡ named_version rest.now }
{
    let name = first_word(rest).ok_or(Refusal::BadCommand)?;
    let rest = behind_word(rest);
    let version = first_number(rest).ok_or(Refusal::BadCommand)?;
    if !behind_word(rest).is_empty() {
        return Err(Refusal::BadCommand);
    }
    Ok((name_in(name)?, version))
}

/// `name version`, behind `DROP`.
fn drop_in(rest: &[u8]) -> Result<Command, Refusal>
    ensures { result ≡ of_version command.Drop (named_version rest.now) }
{
    let (name, version) = named_version(rest)?;
    Ok(Command::Drop { name, version })
}

/// `name version`, behind `CHANGES`.
fn changes_in(rest: &[u8]) -> Result<Command, Refusal>
    ensures { result ≡ of_version command.Changes (named_version rest.now) }
{
    let (name, version) = named_version(rest)?;
    Ok(Command::Changes { name, version })
}

/// `name version`, behind `UNDO`.
fn undo_in(rest: &[u8]) -> Result<Command, Refusal>
    ensures { result ≡ of_version command.Undo (named_version rest.now) }
{
    let (name, version) = named_version(rest)?;
    Ok(Command::Undo { name, version })
}

/// `name version at text`, without the text where a card goes; a plus may stand behind the version.
fn edit_in(kind: EditKind, rest: &[u8]) -> Result<Command, Refusal>
    ensures { result ≡ edit_in kind rest.now }
{
    let name = first_word(rest).ok_or(Refusal::BadCommand)?;
    let rest = behind_word(rest);
    let seen = first_seen(rest).ok_or(Refusal::BadCommand)?;
    let rest = behind_word(rest);
    let at = first_number(rest).ok_or(Refusal::BadCommand)?;
    let rest = behind_word(rest);
    if !fits_edit(kind, rest) {
        return Err(Refusal::BadCommand);
    }
    Ok(Command::Edit {
        name: name_in(name)?,
        seen,
        edit: edit_at(kind, at, rest)?,
    })
}

fn is_batch_size(count: u64) -> bool
    ensures { result ≡ is_batch_size count }
{
    1 <= count && count <= MOST_EDITS
}

fn is_put_size(count: u64) -> bool
    ensures { result ≡ is_put_size count }
{
    count <= MOST_PUT_CARDS
}

/// `name version n`, where a plus may stand behind the version.
fn head_in(rest: &[u8]) -> Result<BatchHead, Refusal>
    ensures { result ≡ head_in rest.now }
{
    let name = first_word(rest).ok_or(Refusal::BadCommand)?;
    let rest = behind_word(rest);
    let seen = first_seen(rest).ok_or(Refusal::BadCommand)?;
    let rest = behind_word(rest);
    let count = first_number(rest).ok_or(Refusal::BadCommand)?;
    if !behind_word(rest).is_empty() {
        return Err(Refusal::BadCommand);
    }
    let name = name_in(name);
    Ok(BatchHead { name, seen, count })
}

/// `name version n`, with 1 to 100 lines.
fn batch_in(rest: &[u8]) -> Result<Command, Refusal>
    ensures { result ≡ batch_by (head_in rest.now) }
{
    let head = head_in(rest)?;
    if !is_batch_size(head.count) {
        return Err(Refusal::BadCommand);
    }
    Ok(Command::Batch(head))
}

/// A put, by who has seen this version and no other.
fn put_of(name: Result<DeckName, Refusal>, seen: Seen, count: u64) -> Result<Command, Refusal>
    ensures { result ≡ put_of name seen count }
{
    match seen {
        Seen::Exactly(version) if is_put_size(count) => Ok(Command::Put(LinesHead {
            name,
            version,
            count,
        })),
        _ => Err(Refusal::BadCommand),
    }
}

/// `name version n`, with at most 20,000 lines.
fn put_in(rest: &[u8]) -> Result<Command, Refusal>
    ensures { result ≡ put_by (head_in rest.now) }
{
    let head = head_in(rest)?;
    put_of(head.name, head.seen, head.count)
}

/// Reads a line as a command. Words are separated by one blank each; a number has 1 to 19 decimal
/// digits and is at most 2^62, and a plus may stand behind the version of an edit or a batch; the text of
/// a card is all that stands behind one blank, and a line that ends behind its place has the empty card.
/// Any other line is `BadCommand`, or `UnknownCommand` with its first word where that begins no command
/// and can be written; then comes `BadName`, and then the fault of the card. The name of a batch or a put is
/// looked at later, so its fault stands in the head.
pub fn read_command(line: &[u8]) -> Result<Command, Refusal>
    ensures command { result ≡ command_of line.now }
{
    let word = to_blank(line);
    match verb_of(word) {
        Some(verb) => command_by(verb, from_blank(line)),
        None => Err(refusal_of_word(word)),
    }
}

/// Why a line is none whose first word begins no command.
fn refusal_of_word(word: &[u8]) -> Refusal
    ensures { result ≡ refusal_of_word word.now }
{
    match UnknownWord::read(word) {
        Some(word) => Refusal::UnknownCommand(word),
        None => Refusal::BadCommand,
    }
}

/// The command of a verb, by what stands behind it.
fn command_by(verb: Verb, rest: &[u8]) -> Result<Command, Refusal>
    ensures { result ≡ command_by verb rest.now }
{
    match verb {
        Verb::Add => Ok(Command::Add {
            name: only_name(rest)?,
        }),
        Verb::Load => Ok(Command::Load {
            name: only_name(rest)?,
        }),
        Verb::LoadAll => Ok(Command::LoadAll {
            name: only_name(rest)?,
        }),
        Verb::Reload => Ok(Command::Reload {
            name: only_name(rest)?,
        }),
        Verb::Drop => drop_in(rest),
        Verb::Edit(kind) => edit_in(kind, rest),
        Verb::Cards => cards_in(rest),
        Verb::Changes => changes_in(rest),
        Verb::Find => find_in(rest),
        Verb::Save => save_in(rest),
        Verb::SaveAll => alone(Command::SaveAll, rest),
        Verb::Image => image_in(rest),
        Verb::List => list_in(rest),
        Verb::Map => alone(Command::Map, rest),
        Verb::Errors => errors_in(rest),
        Verb::Symbols => symbols_in(rest),
        Verb::Status => status_in(rest),
        Verb::Files => alone(Command::Files, rest),
        Verb::Wait => wait_in(rest),
        Verb::Batch => batch_in(rest),
        Verb::Put => put_in(rest),
        Verb::Undo => undo_in(rest),
        Verb::Hello => Ok(Command::Hello {
            name: only_name(rest)?,
        }),
        Verb::Help => alone(Command::Help, rest),
        Verb::Bye => alone(Command::Bye, rest),
    }
}
