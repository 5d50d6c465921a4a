//! What HELP shows.
ghost use Rattle.std.specs.Prelude.{◌≡◌};
ghost use Rattle.session_line.specs.Help.{help_text};

/// Each command as it is written, and what it asks for, a line each: the list of docs/PROTOCOL.md, which
/// `bench/documents` compares.
const HELP: &str = "ADD name                  a new deck without cards
LOAD name                 a new deck with the cards of the file of its name
LOADALL name              a new deck for each IDENT card of the file of this name
RELOAD name               the cards of the file of its name, as it is now, become all cards of the deck
DROP name version         the deck goes
INS name version at text  the card becomes card at of the deck, and those from there on move back by one
REP name version at text  the card takes the place of card at
DEL name version at       card at goes
BATCH name version n      the n edits on the next n lines, all or none
INS name version+ at text the same, of REP, DEL and BATCH too, whatever others changed of the deck since that version
PUT name version n        the n cards on the next n lines become all cards of the deck; with version 0, of a new deck
UNDO name version         the change of the deck that made this version is taken back, as a new change
CARDS name                the cards of the deck
CARDS name place count    its cards from card place on, at most count
CARDS name AT version     the cards that the deck had at this version
CHANGES name version      the changes of the deck behind this version
FIND name text            the numbers of its cards that contain the text
SAVE name                 the cards go to the file of the deck's name, where the service knows that file
SAVE name FORCE           the same, whatever file stands there
SAVEALL                   each deck that is UNSAVED is saved as by SAVE name
IMAGE                     the published image
LIST                      the published listing and link map
IMAGE name                the part of the published image that is the deck's
LIST name                 the part of the published listing that is the deck's
MAP                       the published link map alone, from its line MAP on
ERRORS                    the flagged statements, the decks behind an END, and the LINK lines of the publication
ERRORS name               those of one deck
ERRORS name WORDS         what is said of its flagged statements
SYMBOLS                   the names that decks enter or have as externals
SYMBOLS name              the symbols of the deck
STATUS                    how things stand
STATUS FILES              the same, and of each deck whether its file has its cards
FILES                     the deck files of the folder
WAIT version              how far things are, once this version or a later one is published
HELLO name                the session gives its name, and asks who is connected
HELP                      how each command is written, and what it asks for: this list without its replies
BYE                       the end of the session
";

/// The lines of HELP.
pub(crate) fn help_text() -> &'static [u8]
    ensures { result.now ≡ help_text }
{
    HELP.as_bytes()
}
