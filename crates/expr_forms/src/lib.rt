//! Variable fields cut into subfields and read as expressions or as what each pseudo-instruction
//! takes, what expressions are worth, and how values and counted items are coded in fields and
//! words, exactly as the definitions have them. Nothing here takes memory, and nothing knows the
//! tables of instructions.
//!
//! An `Expr` is its first element and the text behind it, checked once; contracts see the
//! definitions' tree, and all that is asked of it goes by its `Links`. `take_apart` gives the
//! registers that are terms by themselves, and K of the other terms: their one link, or the same
//! text with a flag, by which `Links` leaves those out. `Subfields` goes from mark to mark, so a
//! comma in a counted item cuts nothing. A `Shape` is an instruction before any name is known.
//! `value` has two accumulators, the sum so far and the open term, so that the first fault in the
//! text comes out; what names mean is the trait `Names`. `KeptExpr` and its like are what was read
//! without the text; each gives back exactly that. Texts have at most 711 characters.
#![tactic(auto)]

// Characters, numbers, symbols and the pieces of a field.
mod characters;
mod numbers;
mod pieces;
mod register;
mod symbols;

// Expressions.
mod element_lists;
mod elements;
mod expression_texts;
mod expressions;
mod links;
mod plain;
mod shapes;
mod sums;

// Variable fields cut into subfields.
mod operand_fields;
mod operands;
mod subfields;

// Forms, the names in them, and the value of an expression.
mod arithmetic;
mod forms;
mod magnitude;
mod names;
mod running;
mod values;

// How values and counted items are coded.
mod coding;
mod counted_item;

// Variable fields that are no instruction's.
mod base_fields;
mod bit_fields;
mod con_words;
mod data_words;
mod dis_fields;
mod linked_names;
mod use_fields;
mod value_fields;

// What was read, without the text that it borrows.
mod kept_expressions;
mod kept_fields;
mod kept_shapes;
mod kept_texts;

pub use base_fields::number_base;
pub use bit_fields::{BitField, BitFields};
pub use coding::{
    characters_number, coded_in, counted_item_in, counted_item_word, item_literal, item_number,
    number_literal,
};
pub use con_words::ConWords;
pub use counted_item::CountedItem;
pub use data_words::{DataWords, Datum};
pub use dis_fields::{DisText, dis_text};
pub use element_lists::{Literals, Symbols};
pub use elements::{Element, Literal, Sign};
pub use expression_texts::ExprText;
pub use expressions::Expr;
pub use forms::{Form, Names, Part, Relocation};
pub use kept_expressions::KeptExpr;
pub use kept_fields::{KeptBits, KeptData};
pub use kept_shapes::{KeptField, KeptShape};
pub use linked_names::LinkedNames;
pub use links::{Link, Links, Operator};
pub use magnitude::Magnitude;
pub use names::Name;
pub use numbers::Number;
pub use operand_fields::operand;
pub use operands::{Operand, Subfield};
pub use pieces::Mark;
pub use register::{Register, RegisterKind};
pub use shapes::{Field, Shape};
pub use subfields::Subfields;
pub use sums::{Sum, SumRegisters};
pub use symbols::is_symbol;
pub use use_fields::{UseField, use_field};
pub use value_fields::one_value;
pub use values::value;
