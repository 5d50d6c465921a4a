//! Single statements as a deck writes them: their sizes, their codes and their effects; and lists of literals.
ghost use Rattle.std.specs.Prelude.{◌≡◌, IfOk};
ghost use Rattle.definitions.specs.Laws.States.{names_of_blocks};
ghost use Rattle.use_blocks.specs.Joins.BlockLengths.{block_names};
ghost use Rattle.use_blocks.specs.Joins.Changes.{IsAccepted};
ghost use Rattle.use_blocks.specs.Joins.EffectsAs.{change_as};

use crate::expression_topics::form;
use crate::field_topics::kind_of;
use crate::item_topics::item;
use crate::outputs::Answer;
use cards::{Card, StatementRoom};
use definitions::DeckKind;
use expr_forms::{Form, Name, Part, Relocation};
use statement_coder::{
    BlockBases, Coded, CodedItems, Content, Defines, Item, KeptSizing, ReadOperand, Statement,
    code, operand_letters, size,
};
use std::alloc::{AllocError, Global};
use std::hash::RandomState;
use test_parts::{KnownNames, NoBases, OneBlock, card_of, cut, cut_line, number, octal, small};
use use_blocks::{
    Bases, BlockState, Counting, Effect, Lengths, Literals, LocationSetting, Position,
    blocks_are_bounded, blocks_are_few, location, origin,
};
use work_meter::Meter;

/// A list to which the words 1, 2 and so on up to the first number were added: how many it has, and the
/// offset of the second number.
pub fn many_literals(answer: &mut Answer, text: &str) -> Result<(), AllocError> {
    let (last, word) = cut(text);
    let mut literals = Literals::new(answer.alloc, answer.keys);
    for word in 1..=number(last) {
        literals.add(word)?;
    }
    answer.number(&literals.len());
    answer.number(&literals.offset(number(word)));
    Ok(())
}

/// A list to which octal numbers were added.
fn literals_of(alloc: Global, keys: RandomState, text: &str) -> Result<Literals, AllocError> {
    let mut literals = Literals::new(alloc, keys);
    for word in text.split_whitespace() {
        literals.add(octal(word))?;
    }
    Ok(literals)
}

pub fn words(answer: &mut Answer, words: &[u64]) {
    for word in words {
        answer.octal(word);
    }
}

/// The words of a list of literals, each once, and the offsets of 7, 0 and 9.
pub fn literals(answer: &mut Answer, text: &str) -> Result<(), AllocError> {
    blocks_are_few();
    blocks_are_bounded();
    let literals = literals_of(answer.alloc, answer.keys, text)?;
    answer.number(&literals.len());
    words(answer, literals.words());
    for word in [7, 0, 9] {
        answer.word("at");
        answer.number(&literals.offset(word));
    }
    Ok(())
}

/// Each symbol is 5, or none is defined; each literal stands at 1.
fn names(value: &str) -> KnownNames {
    KnownNames {
        value: (value == "5").then_some(Form::absolute(5)),
        literal: Form::absolute(1),
        location: Form::absolute(0),
        origin: Form::absolute(0),
    }
}

/// A word of block A.
fn in_block(number: i64) -> Form {
    Form::new(
        number,
        Some(Part::Added(Relocation::Block(Name::new(b"A")))),
    )
}

/// Every symbol is 5 words behind the beginning of block A.
fn names_of_block() -> KnownNames {
    KnownNames {
        value: Some(in_block(5)),
        literal: Form::absolute(1),
        location: Form::absolute(0),
        origin: Form::absolute(0),
    }
}

/// How many statements were sized and coded.
pub fn counts(answer: &mut Answer, sized: u64, coded: u64) {
    answer.word("done");
    answer.number(&sized);
    answer.number(&coded)
}

pub fn meter(answer: &mut Answer, meter: &Meter) {
    counts(answer, meter.sized(), meter.coded())
}

fn defined(answer: &mut Answer, defines: &Defines) {
    match defines {
        Defines::Nothing => answer.word("nothing"),
        Defines::Symbol(value) => {
            answer.word("symbol");
            form(answer, value)
        }
        Defines::Externals => answer.word("externals"),
    }
}

/// One card behind no other: its sizing or its code. The first word is the value of each symbol, in a
/// REL deck, or the kind of a deck in which each symbol is relative to block A.
pub fn one_card(answer: &mut Answer, topic: &str, text: &str) -> Result<(), AllocError> {
    let (first, line) = cut(text);
    let cards = [card_of(line)?];
    match first {
        "REL" | "ABS" | "PERIPH" => {
            let symbols = names_of_block();
            one_statement(answer, true, kind_of(first), &symbols, &OneBlock, &cards)
        }
        _ => {
            let is_coded = topic == "codes";
            let symbols = names(first);
            one_statement(answer, is_coded, DeckKind::Rel, &symbols, &NoBases, &cards)
        }
    }
}

/// The sizing of the statement of a card, or its code, and what was done.
fn one_statement<B: BlockBases>(
    answer: &mut Answer,
    is_coded: bool,
    kind: DeckKind,
    symbols: &KnownNames,
    bases: &B,
    cards: &[Card; 1],
) -> Result<(), AllocError> {
    let (alloc, keys) = (answer.alloc, answer.keys);
    let mut room = StatementRoom::new();
    let statement = Statement::read(kind, cards, &mut room);
    let state = BlockState::new(alloc)?;
    let read = statement.read_operand(state.number_base());
    let mut done = work_meter::begin();
    let sizing = sized(alloc, keys, &statement, &read, &state, symbols, &mut done)?;
    if is_coded {
        coded(answer, &read, &sizing, symbols, bases, &mut done)?;
    } else {
        let effect = sizing.effect(&statement);
        sizing_shown(answer, statement.kind, &sizing, &effect);
    }
    meter(answer, &done);
    Ok(())
}

/// The sizing of a statement whose operand was read; the state before it accepts its change.
fn sized(
    alloc: Global,
    keys: RandomState,
    statement: &Statement<'_>,
    read: &ReadOperand<'_>,
    state: &BlockState,
    symbols: &KnownNames,
    done: &mut Meter,
) -> Result<KeptSizing, AllocError>
    ensures { IfOk result (λ sizing. IsAccepted (change_as sizing.change) state.now) }
{
    let letters = operand_letters(alloc, keys, statement, &read.reading, symbols, done)?;
    size(
        alloc,
        statement,
        &read.reading,
        &letters,
        state,
        symbols,
        done,
    )
}

fn sizing_shown(answer: &mut Answer, kind: DeckKind, sizing: &KeptSizing, effect: &Effect) {
    answer.either(sizing.is_placed(), "placed", "-");
    match effect.position {
        Some(position) => answer.either(position.asks(), "asks", "-"),
        None => answer.word("-"),
    }
    answer.number(&sizing.place());
    answer.number(&sizing.end());
    answer.quoted(sizing.letters().text().as_slice());
    defined(answer, &sizing.defines(kind))
}

/// The code of a statement that was sized.
fn coded<B: BlockBases>(
    answer: &mut Answer,
    read: &ReadOperand<'_>,
    sizing: &KeptSizing,
    symbols: &KnownNames,
    bases: &B,
    done: &mut Meter,
) -> Result<(), AllocError> {
    let mut list = Vec::new(answer.alloc);
    let mut room = [no_field(), no_field(), no_field()];
    let coded = code(read, sizing, symbols, bases, &mut list, &mut room, done)?;
    coded_shown(answer, &coded);
    fields(answer, &list);
    Ok(())
}

fn no_field() -> Item {
    Item {
        width: 0,
        letter: None,
        content: Content::Known(0),
    }
}

fn fields(answer: &mut Answer, list: &[Item]) {
    for listed in list {
        answer.word(";");
        item(answer, listed);
    }
}

fn instruction(answer: &mut Answer, list: &[Item]) {
    let (digits, behind) = list.split_at(list.len().min(1));
    for first in digits {
        item(answer, first);
    }
    fields(answer, behind);
}

fn coded_shown(answer: &mut Answer, coded: &Coded<'_>) {
    answer.quoted(coded.letters.text().as_slice());
    match &coded.items {
        CodedItems::Absent => answer.word("absent"),
        CodedItems::Instruction(fields) => instruction(answer, fields),
        CodedItems::Listed(count) => {
            answer.word("listed");
            answer.number(count)
        }
        CodedItems::Zeros => answer.word("zeros"),
    }
}

/// The state of the blocks, and their lengths beside it.
#[derive(Drop)]
struct Blocks {
    state: BlockState,
    lengths: Lengths,
    ghost same: { block_names lengths ≡ names_of_blocks state.blocks },
}

impl Blocks {
    fn new(alloc: Global, keys: RandomState) -> Result<Blocks, AllocError> {
        let state = BlockState::new(alloc)?;
        let lengths = Lengths::new(alloc, keys)?;
        Ok(Blocks { state, lengths })
    }

    /// Behind a card of a REL deck in which no symbol is defined before, and the effect of the card.
    fn behind(
        self,
        alloc: Global,
        keys: RandomState,
        cards: &[Card; 1],
    ) -> Result<(Blocks, Effect), AllocError> {
        let Blocks {
            mut state,
            mut lengths,
        } = self;
        let mut room = StatementRoom::new();
        let statement = Statement::read(DeckKind::Rel, cards, &mut room);
        let mut done = work_meter::begin();
        let (symbols, read) = (names("none"), statement.read_operand(state.number_base()));
        let sizing = sized(alloc, keys, &statement, &read, &state, &symbols, &mut done)?;
        let effect = sizing.effect(&statement);
        lengths.follow(&state, &effect)?;
        state.advance(&effect)?;
        Ok((Blocks { state, lengths }, effect))
    }
}

/// The blocks behind all cards of a text; where that is asked for, with the effect of each card behind the others,
/// and the block in use then.
fn blocks_behind(answer: &mut Answer, text: &str, is_shown: bool) -> Result<Blocks, AllocError> {
    let mut blocks = Blocks::new(answer.alloc, answer.keys)?;
    for line in text.lines() {
        let cards = [card_of(line)?];
        let (after, effect) = blocks.behind(answer.alloc, answer.keys, &cards)?;
        blocks = after;
        if is_shown {
            effect_shown(answer, &effect);
            answer.bare(blocks.state.block().name().as_slice());
            answer.word(";");
        }
    }
    Ok(blocks)
}

/// Where a block ends, and whether it asks for upper.
pub fn position_shown(answer: &mut Answer, position: Position) {
    answer.number(&position.end());
    answer.either(position.asks(), "asks", "-");
}

/// The state behind cards: each block with its place and whether it asks for upper, the base, and
/// the counters of an ABS deck at place 6.
pub fn state(answer: &mut Answer, text: &str) -> Result<(), AllocError> {
    let state = blocks_behind(answer, text, false)?.state;
    for block in state.blocks() {
        answer.bare(block.name().as_slice());
        position_shown(answer, block.position());
        answer.either(block.counting().is_some(), "counts", "-");
    }
    answer.debug(&state.number_base());
    answer.either(state.is_neutral(), "neutral", "-");
    answer.either(state.same(&state.copy(answer.alloc)?), "same", "-");
    form(answer, &state.origin(DeckKind::Abs, 6));
    form(answer, &state.location(DeckKind::Abs, 6));
    Ok(())
}

/// The rows of the blocks behind cards, with the literals that the first line has.
pub fn bases(answer: &mut Answer, text: &str) -> Result<(), AllocError> {
    let (words, cards) = cut_line(text);
    let blocks = blocks_behind(answer, cards, false)?;
    let literals = literals_of(answer.alloc, answer.keys, words)?;
    bases_of(answer, &blocks.lengths, &literals)
}

/// The rows of blocks of these lengths, with these literals.
fn bases_of(answer: &mut Answer, lengths: &Lengths, literals: &Literals) -> Result<(), AllocError> {
    let bases = Bases::new(answer.alloc, lengths, literals)?;
    bases_shown(answer, &bases);
    Ok(())
}

/// The base of each block, its words and its local words; the bases of B and of X; all local words.
pub fn bases_shown(answer: &mut Answer, bases: &Bases) {
    for row in bases.rows() {
        answer.bare(row.name().as_slice());
        answer.number(&row.base());
        answer.number(&row.words());
        answer.number(&row.local_words());
        answer.word(";");
    }
    answer.word("B");
    answer.number(&bases.base(&Name::new(b"B")));
    answer.word("X");
    answer.number(&bases.base(&Name::new(b"X")));
    answer.word("words");
    answer.number(&bases.total_length())
}

/// The effect of each card behind the others, the block in use then, and the lengths behind all.
pub fn effects(answer: &mut Answer, text: &str) -> Result<(), AllocError> {
    let blocks = blocks_behind(answer, text, true)?;
    answer.number(&blocks.state.blocks().len());
    lengths_shown(answer, &blocks.lengths);
    Ok(())
}

/// How many words each block has.
pub fn lengths_shown(answer: &mut Answer, lengths: &Lengths) {
    for (name, words) in lengths.blocks().iter() {
        answer.bare(name.name().as_slice());
        answer.number(words);
    }
}

fn effect_shown(answer: &mut Answer, effect: &Effect) {
    match effect.position {
        Some(position) => position_shown(answer, position),
        None => answer.word("nowhere"),
    }
    answer.number(&effect.reached);
    answer.debug(&effect.number_base);
    answer.either(effect.neutral, "neutral", "-");
    answer.either(effect.setting == LocationSetting::Unchanged, "-", "set")
}

/// The origin or the location counter at a place of a block; a LOC may have set 1000 octal at place 8.
pub fn counters(answer: &mut Answer, text: &str) {
    let (counter, rest) = cut(text);
    let (block, place) = cut(rest);
    if block.len() > 9 {
        return answer.word("no block");
    }
    let block = Name::new(block.as_bytes());
    let place = small(place);
    let set = Some(Counting::new(Form::absolute(0o1000), 8));
    let found = match counter {
        "origin_rel" => origin(DeckKind::Rel, &block, place),
        "origin_periph" => origin(DeckKind::Periph, &block, place),
        "location" => location(DeckKind::Abs, &block, place, None),
        _ => location(DeckKind::Abs, &block, place, set),
    };
    form(answer, &found)
}
