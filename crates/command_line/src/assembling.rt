//! `compass asm`: its words, its run and its faults.

use crate::binaries::{may_hold_words, text_of, write_binary};
use crate::flagged::{Telling, tell_flagged, tell_summary};
use crate::input_files::{STANDARD_INPUT, input_of, shown_names, standard_input};
use crate::input_lines::{LineTelling, tell_lines};
use crate::journal_files::{DecksFault, decks_at};
use crate::manual_layout::manual_listings;
use crate::outputs::{Clash, OutputNames, file_named, first_clash};
use crate::run_faults::{RunFault, tell_clash, tell_no_file, tell_run};
use crate::standard_output::standard_output;
use crate::symbols::symbol_tables;
use crate::tab_places::FileColumns;
use crate::words::{Takes, Word, with_words};
use asm_main::{
    AsmFault, Built, Chained, Chosen, Filter, Remembering, Tally, asm_build, asm_build_with,
    asm_run, write_chosen,
};
use clap::{ArgMatches, Command};
use deck_cuts::Deck;
use deck_files::{begin_whole, end_whole};
use std::alloc::{AllocError, Global};
use std::hash::RandomState;
use std::io::{self, BufRead, BufReader, ErrorKind, Read, Write};
use std::os::fd::AsFd;
use std::process::ExitCode;
use std::random::RandomSource;
use std::rt::Files;
use text_ports::{Broken, Counted, LineBuf, Text, put_all};

/// How many decks are linked at most.
const MOST_DECKS: usize = 64;

/// What goes to a file of the listings.
const LISTING: Chosen = Chosen {
    listing: true,
    map: false,
    image: false,
};

/// What goes to a file of the map.
const MAP: Chosen = Chosen {
    listing: false,
    map: true,
    image: false,
};

/// What goes to a file of the image.
const IMAGE: Chosen = Chosen {
    listing: false,
    map: false,
    image: true,
};

/// The words of `compass asm`. Where files refuse a journal, `clap` asks for no journal of its version: so this
/// refuses files by itself.
const WORDS: [Word; 16] = [
    Word {
        name: "FILE",
        takes: Takes::Places,
        help: "Files of cards, one after the other as one input; - or none is standard input",
        without: &[],
    },
    Word {
        name: "fold-case",
        takes: Takes::Nothing,
        help: "Takes small letters of files as capitals",
        without: &["journal", "version"],
    },
    Word {
        name: "tabs",
        takes: Takes::Nothing,
        help: "Takes a tab as blanks up to column 11, 18, 30, and then the next eighth",
        without: &["journal", "version"],
    },
    Word {
        name: "last-line",
        takes: Takes::Nothing,
        help: "Takes a last line that no line feed ends",
        without: &["journal", "version"],
    },
    Word {
        name: "journal",
        takes: Takes::Text("FILE"),
        help: "The journal of a service, whose decks are taken in place of files",
        without: &["FILE"],
    },
    Word {
        name: "version",
        takes: Takes::NumberBeside("V", "journal"),
        help: "The version of the decks; the last one unless said",
        without: &["FILE"],
    },
    Word {
        name: "listing",
        takes: Takes::Text("FILE"),
        help: "Where the listings go",
        without: &[],
    },
    Word {
        name: "map",
        takes: Takes::Text("FILE"),
        help: "Where the link map goes",
        without: &[],
    },
    Word {
        name: "image",
        takes: Takes::Lettered('o', "FILE"),
        help: "Where the octal image goes",
        without: &[],
    },
    Word {
        name: "binary",
        takes: Takes::Text("FILE"),
        help: "Where the words of the image go, packed; FILE.sections gets where they stand",
        without: &[],
    },
    Word {
        name: "layout",
        takes: Takes::OneOf("L", &["usual", "manual"]),
        help: "How listings are laid out: usual, or manual, with code at the left of its card",
        without: &[],
    },
    Word {
        name: "symbols",
        takes: Takes::Nothing,
        help: "Puts a table of the symbols of each deck after the listings",
        without: &[],
    },
    Word {
        name: "quiet",
        takes: Takes::Nothing,
        help: "Tells no flagged statements and no LINK lines of files on standard error",
        without: &[],
    },
    Word {
        name: "check",
        takes: Takes::Nothing,
        help: "Writes nothing; shows what is flagged, and how much in a last line",
        without: &[
            "quiet", "journal", "symbols", "listing", "map", "image", "binary", "layout",
        ],
    },
    Word {
        name: "explain",
        takes: Takes::Nothing,
        help: "Shows the card below each message, and where on it the fault is",
        without: &[],
    },
    Word {
        name: "name",
        takes: Takes::Text("FILE"),
        help: "What standard input is called in messages",
        without: &["journal"],
    },
];

/// What stands below the help.
const EXAMPLE: &str = "What has no file of its own goes to standard output.

Example:
  compass asm --listing job.lst -o job.img job.deck
  compass asm --journal decks/beskloun.journal --version 4711";

/// The files that the words name: those that are read, and those that parts of the output go to; and the keys of
/// the tables of this run.
#[derive(Drop)]
struct Named<'w, 'a> {
    keys: RandomState,
    inputs: &'w [&'a str],
    filter: Option<Filter>,
    journal: Option<&'a str>,
    version: Option<u64>,
    /// The files of parts of the output; those that have none go to standard output.
    listing: Option<&'a str>,
    map: Option<&'a str>,
    image: Option<&'a str>,
    /// The file of the packed words of the image, which goes to its own place too.
    binary: Option<&'a str>,
    symbols: bool,
    /// Whether the listings have code at the left of its card.
    manual: bool,
    quiet: bool,
    /// Whether nothing is written, and only what is flagged is reported.
    check: bool,
    /// Whether messages show the cards.
    explain: bool,
    /// Whether standard error is a terminal, where a last line shows how much is flagged.
    at_terminal: bool,
    /// What standard input is called in messages.
    name: Option<&'a str>,
}

/// `compass asm` with its words.
pub fn asm_words<'a>(alloc: Global) -> Result<Command<'a>, AllocError> {
    let command = Command::new(alloc, "asm")
        .about("Assembles decks of cards: listing, link map and octal image")
        .after_help(EXAMPLE);
    with_words(alloc, command, WORDS.as_slice())
}

/// The filter that the words ask for, if they do.
fn filter_of(words: &ArgMatches<'_>) -> Option<Filter> {
    let filter = Filter {
        fold_case: words.get_flag("fold-case"),
        tabs: words.get_flag("tabs"),
        last_line: words.get_flag("last-line"),
    };
    (filter.fold_case || filter.tabs || filter.last_line).then_some(filter)
}

impl<'w, 'a> Named<'w, 'a> {
    /// Whether a part of the output has a file of its own.
    fn has_outputs(&self) -> bool {
        let has_parts = self.listing.is_some() || self.map.is_some() || self.image.is_some();
        has_parts || self.binary.is_some()
    }

    /// The files that the output goes to.
    fn output_names(&self) -> OutputNames<'a> {
        OutputNames {
            parts: [self.listing, self.map, self.image],
            binary: self.binary,
        }
    }

    /// The first file of the output that is one of the input too, or that of another part.
    fn first_clash<R: Files>(&self, rt: &R, alloc: Global) -> Option<Clash<'a>> {
        let outputs = self.output_names();
        match self.journal {
            Some(journal) => first_clash(rt, alloc, outputs, &[journal]),
            None if self.inputs.is_empty() => first_clash(rt, alloc, outputs, &["-"]),
            None => first_clash(rt, alloc, outputs, self.inputs),
        }
    }

    /// What has no file of its own.
    fn others(&self) -> Chosen {
        Chosen {
            listing: self.listing.is_none(),
            map: self.map.is_none(),
            image: self.image.is_none(),
        }
    }
}

/// How many files are named where the words name none: standard input, where messages are asked for.
fn count_unnamed(words: &ArgMatches<'_>) -> usize {
    let asks = words.get_flag("check") || words.get_flag("explain");
    usize::from(asks || words.get_str("name").is_some())
}

/// The files that the words name. Where messages are asked for and no files are named, standard input is
/// named by them.
fn inputs_of<'w, 'a>(words: &'w ArgMatches<'a>, standard: &'w [&'a str; 1]) -> &'w [&'a str] {
    let count = count_unnamed(words).min(1);
    words
        .get_strs("FILE")
        .unwrap_or(standard.as_slice().split_at(count).0)
}

/// `compass asm`: what the words name, or standard input to standard output. Where standard error is a terminal,
/// messages show the cards, and a last line shows how much is flagged.
pub fn assemble<R>(rt: &R, words: &ArgMatches<'_>, at_terminal: bool) -> ExitCode
where
    R: AllocGlobal + Input + Print + Eprint + Files + RandomSource,
    R::File: AsFd,
{
    let Ok(keys) = RandomState::new(rt) else {
        return tell_run(rt, &Err(RunFault::Asm(AsmFault::ReadFault)));
    };
    let standard = [STANDARD_INPUT];
    let named = Named {
        keys,
        inputs: inputs_of(words, &standard),
        filter: filter_of(words),
        journal: words.get_str("journal"),
        version: words.get_one("version"),
        listing: file_named(words.get_str("listing")),
        map: file_named(words.get_str("map")),
        image: file_named(words.get_str("image")),
        binary: words.get_str("binary"),
        symbols: words.get_flag("symbols"),
        manual: words.get_str("layout") == Some("manual"),
        quiet: words.get_flag("quiet"),
        check: words.get_flag("check"),
        explain: at_terminal || words.get_flag("explain"),
        at_terminal,
        name: words.get_str("name"),
    };
    assemble_named(rt, &named)
}

/// `compass asm` of what the words name. What can't be written as they say is refused before anything is read.
fn assemble_named<R>(rt: &R, named: &Named<'_, '_>) -> ExitCode
where
    R: AllocGlobal + Input + Print + Eprint + Files + RandomSource,
    R::File: AsFd,
{
    if let Some(name) = named.binary {
        if !may_hold_words(rt, name) {
            return tell_no_file(rt, name);
        }
    }
    if let Some(clash) = named.first_clash(rt, rt.alloc()) {
        return tell_clash(rt, clash);
    }
    let outcome = match named.journal {
        Some(journal) => from_journal(rt, named, journal),
        None if named.inputs.is_empty() => from_input(rt, named),
        None => from_files(rt, named),
    };
    tell_run(rt, &outcome)
}

/// A run from the standard input of the process.
fn from_input<'a, R>(rt: &R, named: &Named<'_, 'a>) -> Result<Tally, RunFault<'a>>
where
    R: AllocGlobal + Input + Print + Files,
    R::File: AsFd,
{
    let Ok(input) = standard_input(rt, rt.alloc(), named.filter) else {
        return Err(RunFault::Asm(AsmFault::OutOfMemory));
    };
    let Ok(reader) = BufReader::new(rt.alloc(), input) else {
        return Err(RunFault::Asm(AsmFault::OutOfMemory));
    };
    from_reader(rt, &mut Counted::new(reader), named)
}

/// A run from a reader, to standard output where all goes there as it stands.
fn from_reader<'a, R, I>(
    rt: &R,
    input: &mut Counted<I>,
    named: &Named<'_, 'a>,
) -> Result<Tally, RunFault<'a>>
where
    R: AllocGlobal + Print + Files,
    R::File: AsFd,
    I: BufRead,
{
    if !named.has_outputs() && !named.symbols && !named.manual {
        let mut output = Counted::new(standard_output(rt));
        return Ok(asm_run(rt.alloc(), named.keys, input, &mut output)?);
    }
    match asm_build(rt.alloc(), named.keys, input) {
        Ok(built) => write_built(rt, named, built),
        Err(fault) => Err(RunFault::Asm(fault)),
    }
}

/// A run from the decks of a journal.
fn from_journal<'a, R>(rt: &R, named: &Named<'_, 'a>, name: &'a str) -> Result<Tally, RunFault<'a>>
where
    R: AllocGlobal + Print + Files,
    R::File: AsFd,
{
    match decks_at(rt, rt.alloc(), name, named.version) {
        Ok(decks) => from_decks(rt, named, decks),
        Err(DecksFault::Asm(fault)) => Err(RunFault::Asm(fault)),
        Err(DecksFault::Journal(error)) => Err(RunFault::Journal { name, error }),
    }
}

/// A run from decks.
fn from_decks<'a, R>(rt: &R, named: &Named<'_, 'a>, decks: Vec<Deck>) -> Result<Tally, RunFault<'a>>
where
    R: AllocGlobal + Print + Files,
    R::File: AsFd,
{
    if decks.len() > MOST_DECKS {
        return Err(RunFault::Asm(AsmFault::TooManyDecks));
    }
    match Built::new(rt.alloc(), named.keys, decks) {
        Ok(built) => write_built(rt, named, built),
        Err(_) => Err(RunFault::Asm(AsmFault::OutOfMemory)),
    }
}

/// Writes the parts of a build, which is over then.
fn write_built<'a, R>(rt: &R, named: &Named<'_, 'a>, built: Built) -> Result<Tally, RunFault<'a>>
where
    R: AllocGlobal + Print + Files,
    R::File: AsFd,
{
    let mut built = built;
    let outcome = write_parts(rt, named, &mut built);
    built.free();
    outcome
}

/// A run from files.
fn from_files<'a, R>(rt: &R, named: &Named<'_, 'a>) -> Result<Tally, RunFault<'a>>
where
    R: AllocGlobal + Input + Print + Eprint + Files,
    R::File: AsFd,
{
    let Ok(names) = shown_names(rt.alloc(), named.inputs, named.name) else {
        return Err(RunFault::Asm(AsmFault::OutOfMemory));
    };
    from_named(rt, named, names.as_slice())
}

/// A run from files that messages call by these names.
fn from_named<'a, R>(
    rt: &R,
    named: &Named<'_, 'a>,
    names: &[&'a str],
) -> Result<Tally, RunFault<'a>>
where
    R: AllocGlobal + Input + Print + Eprint + Files,
    R::File: AsFd,
{
    let chain = input_of(rt, rt.alloc(), named.inputs, named.filter)?;
    from_chain(rt, chain, named, names)
}

/// A run from open files. A fault of the input has the file and the line that it is about.
fn from_chain<'a, R, I>(
    rt: &R,
    chain: Chained<I>,
    named: &Named<'_, 'a>,
    names: &[&'a str],
) -> Result<Tally, RunFault<'a>>
where
    R: AllocGlobal + Print + Eprint + Files,
    R::File: AsFd,
    I: Read + FileColumns + Drop,
{
    let Ok(reader) = BufReader::new(rt.alloc(), chain) else {
        return Err(RunFault::Asm(AsmFault::OutOfMemory));
    };
    let mut input = Counted::new(reader);
    let mut line = LineBuf::new();
    let outcome = asm_build_with(rt.alloc(), named.keys, &mut input, &mut line);
    let reader = input.into_inner();
    match outcome {
        Ok(built) => {
            let mut built = built;
            let told = write_and_tell(rt, named, &mut built, reader.get_ref(), names);
            built.free();
            told
        }
        Err(fault) => {
            let explain = named.explain;
            Err(tell_lines(rt, fault, reader, &mut line, LineTelling { names, explain }))
        }
    }
}

/// Writes the parts of what was built of open files, unless that is only checked, and shows what is flagged in
/// these.
fn write_and_tell<'a, R, I>(
    rt: &R,
    named: &Named<'_, 'a>,
    built: &mut Built,
    chain: &Chained<I>,
    names: &[&str],
) -> Result<Tally, RunFault<'a>>
where
    R: AllocGlobal + Print + Eprint + Files,
    R::File: AsFd,
    I: FileColumns,
{
    let telling = Telling {
        chain,
        names,
        explain: named.explain,
        keys: named.keys,
    };
    if named.check {
        tell_flagged(rt, built, &telling);
        tell_summary(rt, built.tally(), built.objects().len());
        return Ok(built.tally());
    }
    let tally = write_parts(rt, named, built)?;
    if !named.quiet {
        tell_flagged(rt, built, &telling);
        if named.at_terminal {
            tell_summary(rt, tally, built.objects().len());
        }
    }
    Ok(tally)
}

/// What is written of a build beside its own texts, or in the place of one.
#[derive(Drop)]
struct Texts {
    /// The tables of symbols, where they are asked for, and else no text.
    tables: Text,
    /// The listings in another layout, where one is asked for.
    listings: Option<Text>,
}

/// The texts that are asked for.
fn texts_of(alloc: Global, named: &Named<'_, '_>, built: &mut Built) -> Result<Texts, AllocError> {
    let tables = tables_of(alloc, named, built)?;
    let listings = if named.manual {
        let listings = text_of(alloc, built, LISTING)?;
        Some(manual_listings(alloc, listings.as_slice())?)
    } else {
        None
    };
    Ok(Texts { tables, listings })
}

/// The tables of symbols, where they are asked for, and else no text.
fn tables_of(alloc: Global, named: &Named<'_, '_>, built: &Built) -> Result<Text, AllocError> {
    if named.symbols {
        symbol_tables(alloc, named.keys, built.objects())
    } else {
        Ok(Text::new(alloc))
    }
}

/// Writes the parts of a build to the files that are named, and the others to standard output.
fn write_parts<'a, R>(
    rt: &R,
    named: &Named<'_, 'a>,
    built: &mut Built,
) -> Result<Tally, RunFault<'a>>
where
    R: AllocGlobal + Print + Files,
    R::File: AsFd,
{
    let Ok(texts) = texts_of(rt.alloc(), named, built) else {
        return Err(RunFault::Asm(AsmFault::OutOfMemory));
    };
    write_files(rt, named, built, &texts)?;
    write_others(rt, named, built, &texts)
}

/// Writes the parts of a build to the files that are named.
fn write_files<'a, R>(
    rt: &R,
    named: &Named<'_, 'a>,
    built: &mut Built,
    texts: &Texts,
) -> Result<(), RunFault<'a>>
where
    R: AllocGlobal + Files,
    R::File: AsFd,
{
    write_file(rt, named.listing, built, LISTING, texts)?;
    write_file(rt, named.map, built, MAP, texts)?;
    write_file(rt, named.image, built, IMAGE, texts)?;
    match named.binary {
        Some(name) => write_binary(rt, rt.alloc(), name, built),
        None => Ok(()),
    }
}

/// Writes the parts of a build that have no file to standard output.
fn write_others<'a, R>(
    rt: &R,
    named: &Named<'_, 'a>,
    built: &mut Built,
    texts: &Texts,
) -> Result<Tally, RunFault<'a>>
where
    R: AllocGlobal + Print + Files,
{
    let mut output = Counted::new(Remembering::new(standard_output(rt)));
    match write_texts(&mut output, built, named.others(), texts) {
        Ok(()) => Ok(built.tally()),
        Err(broken) => {
            let fault = AsmFault::WriteFault { sent: broken.sent };
            Err(match output.into_inner().fault() {
                Some(error) if !named.inputs.is_empty() => RunFault::Standard { fault, error },
                _ => RunFault::Asm(fault),
            })
        }
    }
}

/// Writes the chosen texts: the listings with the tables of symbols behind them, the map, the image.
fn write_texts<W: Write>(
    output: &mut Counted<W>,
    built: &mut Built,
    chosen: Chosen,
    texts: &Texts,
) -> Result<(), Broken> {
    let is_usual = texts.tables.len() == 0 && texts.listings.is_none();
    if is_usual || !chosen.listing {
        return write_chosen(output, built, chosen);
    }
    let listed = write_listings(output, built, texts)?;
    put_behind(output, listed, texts.tables.as_slice())?;
    let front = listed.saturating_add(texts.tables.len());
    let behind = Chosen {
        listing: false,
        ..chosen
    };
    write_chosen(output, built, behind).map_err(|broken| sent_behind(front, broken))
}

/// Writes the listings in the layout that is asked for; how many bytes they have.
fn write_listings<W: Write>(
    output: &mut Counted<W>,
    built: &mut Built,
    texts: &Texts,
) -> Result<usize, Broken> {
    match &texts.listings {
        Some(listings) => {
            put_all(output, listings.as_slice())?;
            Ok(listings.len())
        }
        None => built.write_listings(output),
    }
}

/// A fault behind so many bytes that went out.
fn sent_behind(front: usize, broken: Broken) -> Broken {
    Broken {
        sent: broken.sent.saturating_add(front),
    }
}

/// Writes a text behind so many bytes.
fn put_behind<W: Write>(output: &mut Counted<W>, front: usize, text: &[u8]) -> Result<(), Broken> {
    put_all(output, text).map_err(|broken| sent_behind(front, broken))
}

/// Makes the file of a part of the output anew, if it has one.
fn write_file<'a, R>(
    rt: &R,
    name: Option<&'a str>,
    built: &mut Built,
    chosen: Chosen,
    texts: &Texts,
) -> Result<(), RunFault<'a>>
where
    R: AllocGlobal + Files,
    R::File: AsFd,
{
    let Some(name) = name else {
        return Ok(());
    };
    make_file(rt, name, built, chosen, texts).map_err(|error| RunFault::Output { name, error })
}

/// Makes a file of the chosen texts.
fn make_file<R>(
    rt: &R,
    name: &str,
    built: &mut Built,
    chosen: Chosen,
    texts: &Texts,
) -> io::Result<()>
where
    R: AllocGlobal + Files,
    R::File: AsFd,
{
    let mut begun = begin_whole(rt, rt.alloc(), name)?;
    let filled = fill(begun.file(), built, chosen, texts);
    end_whole(rt, begun, filled)
}

/// Writes the chosen texts into a file. A fault is what the system says.
fn fill<F: Write>(
    file: &mut F,
    built: &mut Built,
    chosen: Chosen,
    texts: &Texts,
) -> io::Result<()> {
    let mut output = Counted::new(Remembering::new(file));
    match write_texts(&mut output, built, chosen, texts) {
        Ok(()) => Ok(()),
        Err(_) => Err(match output.into_inner().fault() {
            Some(error) => error,
            None => io::Error::from(ErrorKind::WriteZero),
        }),
    }
}
