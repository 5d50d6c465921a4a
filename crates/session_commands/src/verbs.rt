//! The words that begin a line.
ghost use Rattle.std.specs.Prelude.{◌≡◌};
ghost use Rattle.definitions.specs.Characters.{same_text};
ghost use Rattle.session_commands.specs.Verbs.{edit_kind_of, file_verb_of, other_verb_of, verb_of};

use definitions::is_same_text;

/// What an edit does: a card comes in, takes the place of another, or goes.
#[derive(Clone, Copy)]
pub(crate) enum EditKind {
    Insert,
    Replace,
    Remove,
}

/// What the first word of a line asks for.
#[derive(Clone, Copy)]
pub(crate) enum Verb {
    Add,
    Load,
    LoadAll,
    Reload,
    Drop,
    Edit(EditKind),
    Cards,
    Changes,
    Find,
    Save,
    SaveAll,
    Image,
    List,
    Map,
    Errors,
    Symbols,
    Status,
    Files,
    Wait,
    Batch,
    Put,
    Undo,
    Hello,
    Help,
    Bye,
}

/// The edit that a word asks for, if it asks for one.
pub(crate) fn edit_kind_of(word: &[u8]) -> Option<EditKind>
    ensures { result ≡ edit_kind_of word.now }
{
    if is_same_text(word, b"INS") {
        Some(EditKind::Insert)
    } else if is_same_text(word, b"REP") {
        Some(EditKind::Replace)
    } else if is_same_text(word, b"DEL") {
        Some(EditKind::Remove)
    } else {
        None
    }
}

/// What a word asks for that is about files.
fn file_verb_of(word: &[u8]) -> Option<Verb>
    ensures { result ≡ file_verb_of word.now }
{
    if is_same_text(word, b"LOAD") {
        Some(Verb::Load)
    } else if is_same_text(word, b"LOADALL") {
        Some(Verb::LoadAll)
    } else if is_same_text(word, b"RELOAD") {
        Some(Verb::Reload)
    } else if is_same_text(word, b"SAVE") {
        Some(Verb::Save)
    } else if is_same_text(word, b"SAVEALL") {
        Some(Verb::SaveAll)
    } else if is_same_text(word, b"FILES") {
        Some(Verb::Files)
    } else {
        None
    }
}

/// What another word asks for that asks for no edit.
fn other_verb_of(word: &[u8]) -> Option<Verb>
    ensures { result ≡ other_verb_of word.now }
{
    if is_same_text(word, b"ADD") {
        Some(Verb::Add)
    } else if is_same_text(word, b"DROP") {
        Some(Verb::Drop)
    } else if is_same_text(word, b"CARDS") {
        Some(Verb::Cards)
    } else if is_same_text(word, b"CHANGES") {
        Some(Verb::Changes)
    } else if is_same_text(word, b"FIND") {
        Some(Verb::Find)
    } else if is_same_text(word, b"IMAGE") {
        Some(Verb::Image)
    } else if is_same_text(word, b"LIST") {
        Some(Verb::List)
    } else if is_same_text(word, b"MAP") {
        Some(Verb::Map)
    } else if is_same_text(word, b"ERRORS") {
        Some(Verb::Errors)
    } else if is_same_text(word, b"SYMBOLS") {
        Some(Verb::Symbols)
    } else if is_same_text(word, b"STATUS") {
        Some(Verb::Status)
    } else if is_same_text(word, b"WAIT") {
        Some(Verb::Wait)
    } else if is_same_text(word, b"BATCH") {
        Some(Verb::Batch)
    } else if is_same_text(word, b"PUT") {
        Some(Verb::Put)
    } else if is_same_text(word, b"UNDO") {
        Some(Verb::Undo)
    } else if is_same_text(word, b"HELLO") {
        Some(Verb::Hello)
    } else if is_same_text(word, b"HELP") {
        Some(Verb::Help)
    } else if is_same_text(word, b"BYE") {
        Some(Verb::Bye)
    } else {
        None
    }
}

/// What a word asks for, if it is one of those that begin a line.
pub(crate) fn verb_of(word: &[u8]) -> Option<Verb>
    ensures { result ≡ verb_of word.now }
{
    match edit_kind_of(word) {
        Some(kind) => Some(Verb::Edit(kind)),
        None => match file_verb_of(word) {
            Some(verb) => Some(verb),
            None => other_verb_of(word),
        },
    }
}
