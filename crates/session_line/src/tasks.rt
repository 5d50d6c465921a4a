//! What a command asks for.
ghost use Rattle.std.specs.Prelude.{◌≡◌, ℕ, true, false, List, Result, Ok};
ghost use Rattle.definitions.specs.Cards.{Card as Columns};
ghost use Rattle.cards.specs.declared.edits.Edit.{Edit as CardEdit};
ghost use Rattle.session_commands.specs.declared.refusals.Refusal.{Refusal as Reason};
ghost use Rattle.session_line.specs.Tasks.{batch_named, cards_of, edits_asked, edits_of, is_put, lines_behind, lines_due, put_named, task_by, task_of_command};
ghost use Rattle.session_line.specs.Taking.{IsTaskFor};
ghost use Rattle.session_line.specs.Joins.LineItems.{IsRead, is_lacking};

use crate::line_items::ItemsRead;
use cards::{Card, DeckName, Edit};
use deck_files::SaveOver;
use desk_core::{Change, DeckText, Edits, Listed, NewDeck, PublishedText, Question};
use session_commands::{BatchHead, CardsView, Command, ErrorsView, LinesHead, Refusal, Seen};
use std::alloc::Global;

/// What is shown of the publication.
#[derive(Drop)]
pub(crate) enum PublishedView {
    /// This text of it.
    Text(PublishedText),
    /// This text of the deck of this name.
    Part(DeckText, DeckName),
    /// The flagged statements and LINK lines, those of all decks or of one.
    Errors(ErrorsView),
    /// What is said of each flagged statement of the deck of this name.
    Words(DeckName),
    /// The names that decks enter or have as externals.
    Names,
    /// The symbols of the deck of this name.
    Symbols(DeckName),
}

/// What a command asks for that was read whole.
#[derive(Drop)]
pub(crate) enum Task {
    /// A change of the desk.
    Make(Change),
    /// A question that shows neither cards nor a publication: the changes of a deck, or the status.
    Ask(Question),
    /// The status is asked for once this version or a later one is published.
    AwaitVersion(u64),
    /// This of the cards of the deck of this name is shown.
    ShowCards(DeckName, CardsView),
    /// The cards that the deck of this name had at this version are shown.
    ShowCardsAt(DeckName, u64),
    /// This of the publication is shown.
    Show(PublishedView),
    /// The shelf's deck of this name is added.
    LoadDeck(DeckName),
    /// The decks of the shelf's file of this name are added.
    LoadAll(DeckName),
    /// The cards of the shelf's file of this name take the place of those of the deck.
    ReloadDeck(DeckName),
    /// The cards of the deck of this name go to the shelf, over what may be written over.
    SaveDeck(DeckName, SaveOver),
    /// The cards of each deck whose file has them not go to the shelf.
    SaveAll,
    /// The files of decks on the shelf are shown.
    ShowFiles,
    /// The status is shown, with whether the file of each deck has its cards.
    ShowFileStatus,
    /// This is the session's name, and who is connected is shown.
    Greet(DeckName),
    /// What may be asked is shown.
    ShowHelp,
    /// The end of the session.
    Leave,
    /// Nothing, for this reason.
    Refuse(Refusal),
}

/// How many lines belong to a command behind its first.
fn lines_behind(command: &Command) -> u64
    ensures { result ≡ lines_behind command.now }
{
    match command {
        Command::Batch(head) => head.count,
        Command::Put(head) => head.count,
        Command::Add { .. } | Command::Load { .. } | Command::LoadAll { .. } => 0,
        Command::Reload { .. } | Command::Drop { .. } => 0,
        Command::Edit { .. } | Command::Cards { .. } | Command::Save { .. } => 0,
        Command::CardsAt { .. } | Command::Changes { .. } | Command::Undo { .. } => 0,
        Command::SaveAll | Command::Image | Command::List | Command::Map => 0,
        Command::ImageOf { .. } | Command::ListOf { .. } | Command::Errors(_) => 0,
        Command::Words { .. } | Command::Names | Command::Symbols { .. } => 0,
        Command::Status | Command::FileStatus | Command::Files => 0,
        Command::Wait { .. } => 0,
        Command::Hello { .. } | Command::Help | Command::Bye => 0,
    }
}

/// How many lines belong to a first line; one that is no command has none.
pub(crate) fn lines_due(command: &Result<Command, Refusal>) -> u64
    ensures { result ≡ lines_due command.now }
{
    match command {
        Ok(command) => lines_behind(command),
        Err(_) => 0,
    }
}

/// Whether a first line begins a put, whose lines are cards.
pub(crate) fn is_put(command: &Result<Command, Refusal>) -> bool
    ensures { result ≡ is_put command.now }
{
    matches!(command, Ok(Command::Put(_)))
}

/// These edits of a deck are asked for, by one who has seen this.
fn edits_asked(name: DeckName, seen: Seen, edits: Edits) -> Task
    ensures { result ≡ edits_asked name seen edits }
{
    Task::Make(Change::EditDeck { name, seen, edits })
}

/// A batch, with the edits of its lines; `OutOfMemory` only where there was no memory for them.
fn batch_named(head: BatchHead, edits: ItemsRead<Edit>) -> Task
    ensures task { (read : Result (List CardEdit) Reason) → IsRead read edits → IsTaskFor (batch_named head.name head.seen read) result }
    ensures whole { is_lacking edits ≡ false → (read : Result (List CardEdit) Reason) → IsRead read edits → result ≡ batch_named head.name head.seen read }
{
    let seen = head.seen;
    let name = match head.name {
        Ok(name) => name,
        Err(refusal) => return Task::Refuse(refusal),
    };
    match edits {
        ItemsRead::Whole(edits) => edits_asked(name, seen, Edits::Batch(Listed::new(edits))),
        ItemsRead::Lacking => Task::Refuse(Refusal::OutOfMemory),
        ItemsRead::Faulty(refusal) => Task::Refuse(refusal),
    }
}

/// A put, with the cards of its lines; `OutOfMemory` only where there was no memory for them.
fn put_named(head: LinesHead, cards: ItemsRead<Card>) -> Task
    ensures task { (read : Result (List Columns) Reason) → IsRead read cards → IsTaskFor (put_named head.name head.version read) result }
    ensures whole { is_lacking cards ≡ false → (read : Result (List Columns) Reason) → IsRead read cards → result ≡ put_named head.name head.version read }
{
    let seen = head.version;
    let name = match head.name {
        Ok(name) => name,
        Err(refusal) => return Task::Refuse(refusal),
    };
    match cards {
        ItemsRead::Whole(cards) => Task::Make(Change::PutDeck {
            deck: NewDeck::new(name, cards),
            seen,
        }),
        ItemsRead::Lacking => Task::Refuse(Refusal::OutOfMemory),
        ItemsRead::Faulty(refusal) => Task::Refuse(refusal),
    }
}

/// What a put asks for, with the cards of the lines behind it.
pub(crate) fn put_by(command: Result<Command, Refusal>, cards: ItemsRead<Card>) -> Task
    requires { is_put command ≡ true }
    ensures task { (lines : List (List ℕ)) → IsRead (cards_of lines) cards → IsTaskFor (task_by command lines) result }
    ensures whole { is_lacking cards ≡ false → (lines : List (List ℕ)) → IsRead (cards_of lines) cards → result ≡ task_by command lines }
{
    match command {
        Ok(Command::Put(head)) => put_named(head, cards),
        _ => unreachable!(),
    }
}

/// What a command that is no put asks for, with the edits of the lines behind it.
fn task_of_command(alloc: Global, command: Command, edits: ItemsRead<Edit>) -> Task
    requires { is_put (Ok command) ≡ false }
    ensures task { (lines : List (List ℕ)) → IsRead (edits_of lines) edits → IsTaskFor (task_of_command command lines) result }
    ensures whole { is_lacking edits ≡ false → (lines : List (List ℕ)) → IsRead (edits_of lines) edits → result ≡ task_of_command command lines }
{
    match command {
        Command::Add { name } => Task::Make(Change::AddDeck(NewDeck::new(name, Vec::new(alloc)))),
        Command::Load { name } => Task::LoadDeck(name),
        Command::LoadAll { name } => Task::LoadAll(name),
        Command::Reload { name } => Task::ReloadDeck(name),
        Command::Drop { name, version } => Task::Make(Change::DropDeck {
            name,
            seen: version,
        }),
        Command::Edit { name, seen, edit } => edits_asked(name, seen, Edits::One(edit)),
        Command::Cards { name, view } => Task::ShowCards(name, view),
        Command::CardsAt { name, version } => Task::ShowCardsAt(name, version),
        Command::Changes { name, version } => Task::Ask(Question::Changes {
            name,
            since: version,
        }),
        Command::Save { name, over } => Task::SaveDeck(name, over),
        Command::SaveAll => Task::SaveAll,
        Command::Image => Task::Show(PublishedView::Text(PublishedText::Image)),
        Command::List => Task::Show(PublishedView::Text(PublishedText::Listing)),
        Command::Map => Task::Show(PublishedView::Text(PublishedText::Map)),
        Command::ImageOf { name } => Task::Show(PublishedView::Part(DeckText::Section, name)),
        Command::ListOf { name } => Task::Show(PublishedView::Part(DeckText::Listing, name)),
        Command::Errors(view) => Task::Show(PublishedView::Errors(view)),
        Command::Words { name } => Task::Show(PublishedView::Words(name)),
        Command::Names => Task::Show(PublishedView::Names),
        Command::Symbols { name } => Task::Show(PublishedView::Symbols(name)),
        Command::Status => Task::Ask(Question::Status),
        Command::FileStatus => Task::ShowFileStatus,
        Command::Files => Task::ShowFiles,
        Command::Wait { version } => Task::AwaitVersion(version),
        Command::Batch(head) => batch_named(head, edits),
        Command::Put(_) => unreachable!(),
        Command::Undo { name, version } => Task::Make(Change::Undo { name, version }),
        Command::Hello { name } => Task::Greet(name),
        Command::Help => Task::ShowHelp,
        Command::Bye => Task::Leave,
    }
}

/// What a first line asks for that begins no put, with the edits of the lines behind it.
pub(crate) fn task_by(
    alloc: Global,
    command: Result<Command, Refusal>,
    edits: ItemsRead<Edit>,
) -> Task
    requires { is_put command ≡ false }
    ensures task { (lines : List (List ℕ)) → IsRead (edits_of lines) edits → IsTaskFor (task_by command lines) result }
    ensures whole { is_lacking edits ≡ false → (lines : List (List ℕ)) → IsRead (edits_of lines) edits → result ≡ task_by command lines }
{
    match command {
        Ok(command) => task_of_command(alloc, command, edits),
        Err(refusal) => Task::Refuse(refusal),
    }
}
