//! What a command is answered, and how the session is answered.
ghost use Rattle.std.specs.Prelude.{◌≡◌, ◌≤◌, ◌⊎◌, true, length};
ghost use Rattle.session_line.specs.Replies.{text_of_reply, IsWithinLimits};
ghost use Rattle.deck_linker.specs.Publishing.{map_of};
ghost use Rattle.desk_core.specs.declared.replies.Reply.TheVariants.{CardsAre};
ghost use Rattle.session_line.specs.Answers.{foreign, told_of_call, told_of_wait, told_of_greeting, told_of_help, told_of_sessions, told_of_cards, told_of_backs, errors_told, part_told, text_told, errors_text, status_text, view_text, told_text, is_bye, is_replied, IsMade, IsTellable, IsToldAt, IsToldBy, IsViewOf};
ghost use Rattle.session_line.specs.Errors.{deck_named};
ghost use Rattle.session_line.specs.Replied.{shown_in};
ghost use Rattle.session_line.specs.Messages.{IsLines, IsLinesOf, IsSaidOf};

use crate::errors::{object_named, shows_any};
use crate::greetings::{Connected, Greeting};
use crate::help::help_text;
use crate::marked_rows::MarkedRow;
use crate::messages::told_of_messages;
use crate::reasons::desk_reason;
use crate::replied::{shown_in, status_in};
use crate::symbol_lines::{told_of_deck_symbols, told_of_entered};
use crate::tasks::PublishedView;
use crate::told_decks::ToldDeck;
use crate::views::cards_from;
use cards::{Card, DeckName, Edit, MOST_CARDS, edited_copy, first_fault};
use deck_files::FileRow;
use deck_linker::{ListedPublication, PublishedListing};
use desk_core::{
    DeckText, KeptEdit, Listed, PublishedText, Reply, Row, ShownText, show_part, show_text,
};
use session_commands::{CardsView, ErrorsView, Refusal};
use std::alloc::Global;
use std::hash::RandomState;
use text_ports::Text;

/// How many edits of a deck are kept at most.
const MOST_KEPT: usize = 2_000;

/// How many decks a desk has at most.
pub(crate) const MOST_DECKS: usize = 64;

/// How many sessions are connected at most.
const MOST_SESSIONS: usize = 64;

/// What a session is shown.
#[derive(Drop)]
pub(crate) enum Told {
    /// What was asked is done; the version is the deck's.
    Done(u64),
    /// What was asked stands on the desk, with this version, and its record is not on the disk.
    Unkept(u64),
    /// A deck's version, and of its cards this.
    Cards(u64, Listed<Card>, CardsView),
    /// A deck's version, and its edits behind the one that was asked for.
    Changes(u64, Listed<KeptEdit>),
    /// The version of the publication, and a text of it.
    Published(u64, ShownText),
    /// The version of the publication, its objects and its map, of which the flagged statements and LINK lines are
    /// shown, those of all decks or of one.
    Errors(u64, PublishedListing, ErrorsView),
    /// A version, and the lines of a text.
    Lines(u64, Text),
    /// The desk's version, the published one, and a row for each deck.
    Status(u64, Option<u64>, Listed<Row>),
    /// The desk's version, the published one, and a row for each deck, with whether its file has its cards.
    FileStatus(u64, Option<u64>, Listed<MarkedRow>),
    /// The desk's version and the published one.
    Standing(u64, Option<u64>),
    /// The desk's version, and what became of each deck that was to be saved or added.
    Decks(u64, Listed<ToldDeck>),
    /// The desk's version, and the rows of the files of decks.
    Files(u64, Listed<FileRow>),
    /// The desk's version, and the sessions that are connected.
    Sessions(u64, Listed<Connected>),
    /// The desk's version, and what may be asked.
    Help(u64),
    /// Why nothing was done.
    Refused(Refusal),
    /// The end of the session.
    Bye,
}

/// The answer to a command: what is shown, and whether a desk call was made.
#[derive(Drop)]
pub(crate) struct Answer {
    pub(crate) told: Told,
    pub(crate) executed: bool,
}

/// The refusal of a reply that no desk gives to such a call.
fn foreign() -> Told
    ensures { result ≡ foreign }
{
    Told::Refused(Refusal::Foreign)
}

/// What is shown of the reply to a call that shows neither cards nor a publication.
pub(crate) fn told_of_call(reply: Reply) -> Told
    ensures told { result ≡ told_of_call reply }
    ensures fits { IsTellable result }
{
    match reply {
        Reply::Changed(made) => {
            let version = made.version();
            made.free();
            Told::Done(version)
        }
        Reply::Carried {
            version,
            seen,
            edits,
        } => {
            let _ = seen;
            drop(edits);
            Told::Done(version)
        }
        Reply::Unkept(version) => Told::Unkept(version),
        Reply::ChangesAre(version, kept) => {
            if kept.as_slice().len() <= MOST_KEPT {
                Told::Changes(version, kept)
            } else {
                foreign()
            }
        }
        Reply::StatusIs(version, published, rows) => {
            if rows.as_slice().len() <= MOST_DECKS {
                Told::Status(version, published, rows)
            } else {
                foreign()
            }
        }
        Reply::Refused(refusal) => Told::Refused(desk_reason(refusal)),
        other => {
            other.free();
            foreign()
        }
    }
}

/// What is shown of the reply to a call for the status that was waited for: the status without its decks.
pub(crate) fn told_of_wait(reply: Reply) -> Told
    ensures told { result ≡ told_of_wait reply }
    ensures fits { IsTellable result }
{
    match status_in(reply) {
        Ok(status) => Told::Standing(status.version, status.published),
        Err(refusal) => Told::Refused(refusal),
    }
}

/// What is shown of the answer to who greets: no more sessions than may be connected.
pub(crate) fn told_of_greeting(greeting: Greeting) -> Told
    ensures told { result ≡ told_of_greeting greeting }
    ensures fits { IsTellable result }
{
    let Greeting { status, sessions } = greeting;
    told_of_sessions(status, sessions)
}

/// What is shown of a status to who greets, with those who are connected.
fn told_of_sessions(status: Reply, sessions: Listed<Connected>) -> Told
    ensures told { result ≡ told_of_sessions status sessions }
    ensures fits { IsTellable result }
{
    match status_in(status) {
        Ok(status) => {
            if sessions.as_slice().len() <= MOST_SESSIONS {
                Told::Sessions(status.version, sessions)
            } else {
                foreign()
            }
        }
        Err(refusal) => Told::Refused(refusal),
    }
}

/// What is shown of a status to who asks for what may be asked.
pub(crate) fn told_of_help(reply: Reply) -> Told
    ensures told { result ≡ told_of_help reply }
    ensures fits { IsTellable result }
{
    match status_in(reply) {
        Ok(status) => Told::Help(status.version),
        Err(refusal) => Told::Refused(refusal),
    }
}

/// What is shown of the reply to a call for the cards of a deck, of which this is shown.
pub(crate) fn told_of_cards(view: CardsView, reply: Reply) -> Told
    ensures told { result ≡ told_of_cards view reply }
    ensures fits { IsTellable result }
{
    match reply {
        Reply::CardsAre(version, cards) => told_of_list(version, cards.into_items(), view),
        Reply::Refused(refusal) => Told::Refused(desk_reason(refusal)),
        other => {
            other.free();
            foreign()
        }
    }
}

/// What is shown of these cards of a deck at a version, of which this is shown.
fn told_of_list(version: u64, cards: Vec<Card>, view: CardsView) -> Told
    ensures told { result ≡ told_of_cards view (CardsAre version cards.items) }
    ensures fits { IsTellable result }
{
    if cards.len() <= MOST_CARDS {
        Told::Cards(version, Listed::new(cards), view)
    } else {
        foreign()
    }
}

/// What is shown of the cards that edits make of these, where there is memory.
fn told_of_backs(alloc: Global, version: u64, backs: &[Edit], cards: &[Card]) -> Told
    ensures told { (result ≡ told_of_backs version backs.now cards.now) ⊎ (result ≡ Told.Refused Refusal.OutOfMemory) }
    ensures fits { IsTellable result }
{
    if first_fault(backs, cards.len()).is_some() {
        return foreign();
    }
    match edited_copy(alloc, cards, backs) {
        Ok(before) => told_of_list(version, before, CardsView::All),
        Err(_) => Told::Refused(Refusal::OutOfMemory),
    }
}

/// What is shown of the reply to a call for the cards that a deck had at a version: those of now, with the
/// changes since taken back, where there is memory for that.
pub(crate) fn told_of_cards_at(alloc: Global, reply: Reply) -> Told
    ensures told { IsToldAt reply result }
    ensures fits { IsTellable result }
{
    match reply {
        Reply::CardsBefore(version, cards, backs) => {
            told_of_backs(alloc, version, backs.as_slice(), &cards.into_items())
        }
        Reply::Refused(refusal) => Told::Refused(desk_reason(refusal)),
        other => {
            other.free();
            foreign()
        }
    }
}

/// What is shown of a text of a publication, where there is memory for it.
fn text_told(
    alloc: Global,
    keys: RandomState,
    publication: &ListedPublication,
    text: PublishedText,
) -> Told
    ensures told { IsMade (text_told text publication.now.version publication.now.decks) result }
    ensures fits { IsTellable result }
{
    match show_text(alloc, keys, publication, text) {
        Ok(shown) => Told::Published(publication.version(), shown),
        Err(_) => Told::Refused(Refusal::OutOfMemory),
    }
}

/// What is shown of a text of the deck of a name in a publication, where there is memory for it. Without one there
/// is no such deck.
fn part_told(
    alloc: Global,
    keys: RandomState,
    publication: &ListedPublication,
    text: DeckText,
    name: &DeckName,
) -> Told
    ensures told { IsMade (part_told text name.now publication.now.version publication.now.decks) result }
    ensures fits { IsTellable result }
{
    match show_part(alloc, keys, publication, text, name) {
        Ok(Some(shown)) => Told::Published(publication.version(), shown),
        Ok(None) => Told::Refused(Refusal::NoDeck),
        Err(_) => Told::Refused(Refusal::OutOfMemory),
    }
}

/// What is shown of the flagged statements and LINK lines of a publication with no more decks than a desk may have,
/// where there is memory for them. Without the deck that is asked for there is no such deck.
fn errors_told(
    alloc: Global,
    keys: RandomState,
    publication: &ListedPublication,
    view: ErrorsView,
) -> Told
    ensures told { IsMade (errors_told view publication.now.version publication.now.decks) result }
    ensures fits { IsTellable result }
{
    if publication.objects().len() > MOST_DECKS {
        return foreign();
    }
    if !shows_any(&view, publication.objects()) {
        return Told::Refused(Refusal::NoDeck);
    }
    match publication.listing(alloc, keys) {
        Ok(listing) => Told::Errors(publication.version(), listing, view),
        Err(_) => Told::Refused(Refusal::OutOfMemory),
    }
}

/// What is shown of what is said of the deck of a name in a publication.
fn words_told(
    alloc: Global,
    keys: RandomState,
    publication: &ListedPublication,
    name: &DeckName,
) -> Told
    ensures told { IsSaidOf publication.now.version (deck_named name.now publication.now.decks) result }
    ensures fits { IsTellable result }
{
    match object_named(publication.objects(), name) {
        Some(shared) => told_of_messages(alloc, keys, publication.version(), shared.object()),
        None => Told::Refused(Refusal::NoDeck),
    }
}

/// What is shown of the symbols of the deck of a name in a publication.
fn symbols_told(
    alloc: Global,
    keys: RandomState,
    publication: &ListedPublication,
    name: &DeckName,
) -> Told
    ensures told { IsLinesOf publication.now.version (deck_named name.now publication.now.decks) result }
    ensures fits { IsTellable result }
{
    match object_named(publication.objects(), name) {
        Some(shared) => told_of_deck_symbols(
            alloc,
            keys,
            publication.version(),
            shared.object().cards(),
        ),
        None => Told::Refused(Refusal::NoDeck),
    }
}

/// What is shown of the names that decks of a publication enter or have as externals.
fn names_told(alloc: Global, publication: &ListedPublication) -> Told
    ensures told { IsLines publication.now.version result }
    ensures fits { IsTellable result }
{
    told_of_entered(alloc, publication.version(), publication.objects())
}

/// What is shown of a publication, where there is memory for it.
fn told_of_view(
    alloc: Global,
    keys: RandomState,
    publication: &ListedPublication,
    view: PublishedView,
) -> Told
    ensures told { IsViewOf view (record { version = publication.now.version; decks = publication.now.decks }) result }
    ensures fits { IsTellable result }
{
    match view {
        PublishedView::Text(text) => text_told(alloc, keys, publication, text),
        PublishedView::Part(text, name) => part_told(alloc, keys, publication, text, &name),
        PublishedView::Errors(view) => errors_told(alloc, keys, publication, view),
        PublishedView::Words(name) => words_told(alloc, keys, publication, &name),
        PublishedView::Names => names_told(alloc, publication),
        PublishedView::Symbols(name) => symbols_told(alloc, keys, publication, &name),
    }
}

/// What is shown of the reply to a call for the publication, of which this is shown, where there is memory for it.
pub(crate) fn told_of_published(
    alloc: Global,
    keys: RandomState,
    view: PublishedView,
    reply: Reply,
) -> Told
    ensures told { IsToldBy view (shown_in reply) result }
    ensures fits { IsTellable result }
{
    match shown_in(reply) {
        Ok(shared) => told_of_view(alloc, keys, shared.publication(), view),
        Err(refusal) => Told::Refused(refusal),
    }
}

/// The reply with what is flagged in a publication of a version.
fn errors_reply<'a>(
    version: u64,
    listing: &'a PublishedListing,
    view: &'a ErrorsView,
) -> crate::Reply<'a>
    requires { length listing.now ≤ 64 }
    ensures text { text_of_reply result ≡ errors_text version view.now listing.now (map_of listing.now) }
    ensures limits { IsWithinLimits result }
{
    crate::Reply::Errors {
        version,
        view,
        decks: listing.objects(),
        map: listing.map(),
    }
}

/// The reply with the status of these decks.
fn status_reply<'a>(version: u64, published: Option<u64>, decks: &'a [Row]) -> crate::Reply<'a>
    requires { length decks.now ≤ 64 }
    ensures text { text_of_reply result ≡ status_text version published decks.now }
    ensures limits { IsWithinLimits result }
{
    crate::Reply::Status {
        version,
        published,
        decks,
    }
}

/// The reply with what is shown of a deck's cards.
fn view_reply<'a>(version: u64, view: &'a CardsView, cards: &'a [Card]) -> crate::Reply<'a>
    requires { length cards.now ≤ 20000 }
    ensures text { text_of_reply result ≡ view_text version view.now cards.now }
    ensures limits { IsWithinLimits result }
{
    match view {
        CardsView::All => crate::Reply::Cards { version, cards },
        CardsView::From { place, count } => crate::Reply::Cards {
            version,
            cards: cards_from(*place, *count, cards),
        },
        CardsView::With(text) => crate::Reply::Found {
            version,
            cards,
            text: text.as_slice(),
        },
    }
}

impl Told {
    /// The reply of the session, where no text of the publication is shown: its parts are made while it is written.
    pub(crate) fn as_reply(&self) -> crate::Reply<'_>
        requires tellable { IsTellable self.now }
        requires replied { is_replied self.now ≡ true }
        ensures text { text_of_reply result ≡ told_text self.now }
        ensures limits { IsWithinLimits result }
    {
        match self {
            Told::Done(version) => crate::Reply::Done { version: *version },
            Told::Published(..) => unreachable!(),
            Told::Unkept(version) => crate::Reply::Unkept { version: *version },
            Told::Cards(version, cards, view) => view_reply(*version, view, cards.as_slice()),
            Told::Changes(version, kept) => crate::Reply::Changes {
                version: *version,
                kept: kept.as_slice(),
            },
            Told::Errors(version, listing, view) => errors_reply(*version, listing, view),
            Told::Lines(version, lines) => crate::Reply::Text {
                version: *version,
                text: lines.as_slice(),
            },
            Told::Status(version, published, rows) => {
                status_reply(*version, *published, rows.as_slice())
            }
            Told::FileStatus(version, published, decks) => crate::Reply::FileStatus {
                version: *version,
                published: *published,
                decks: decks.as_slice(),
            },
            Told::Standing(version, published) => status_reply(*version, *published, &[]),
            Told::Decks(version, decks) => crate::Reply::Decks {
                version: *version,
                decks: decks.as_slice(),
            },
            Told::Files(version, files) => crate::Reply::Files {
                version: *version,
                files: files.as_slice(),
            },
            Told::Sessions(version, sessions) => crate::Reply::Sessions {
                version: *version,
                sessions: sessions.as_slice(),
            },
            Told::Help(version) => crate::Reply::Text {
                version: *version,
                text: help_text(),
            },
            Told::Refused(refusal) => crate::Reply::Refused(*refusal),
            Told::Bye => crate::Reply::Bye,
        }
    }

    /// Whether it is the end of the session.
    pub(crate) fn is_bye(&self) -> bool
        ensures { result ≡ is_bye self.now }
    {
        matches!(self, Told::Bye)
    }

    /// Frees what it shows.
    pub(crate) fn free(self) {
        match self {
            Told::Published(_, shown) => shown.free(),
            Told::Errors(_, listing, _) => drop(listing),
            Told::Cards(_, cards, _) => drop(cards),
            Told::Changes(_, kept) => drop(kept),
            Told::Lines(_, lines) => drop(lines),
            Told::Status(_, _, rows) => drop(rows),
            Told::FileStatus(_, _, rows) => drop(rows),
            Told::Decks(_, decks) => drop(decks),
            Told::Files(_, files) => drop(files),
            Told::Sessions(_, sessions) => drop(sessions),
            Told::Done(_) | Told::Unkept(_) | Told::Standing(..) => {}
            Told::Help(_) | Told::Refused(_) | Told::Bye => {}
        }
    }
}
