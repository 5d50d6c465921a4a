//! What each operation takes in its variable field, in a few words (LANGUAGE.md, INSTRUCTIONS.md).

use definitions::DeckKind;
use operations::Operation;
use ppu_opcodes::{Form, row_of};

/// What a peripheral instruction takes.
fn peripheral_form(name: &[u8]) -> &'static str {
    match row_of(name) {
        Some(code) => match code.form {
            Form::Ignored => " takes anything",
            Form::Short => " takes d, one value",
            Form::ShortJump => " takes one value, the target or how far it is",
            Form::Shift => " takes one value, how far to shift",
            Form::Wide => " takes c, one value of 18 bits",
            Form::Long => " takes m or m,d",
        },
        None => " takes another operand",
    }
}

/// What a jump takes, or a form of two letters.
fn jump_form(name: &[u8]) -> &'static str {
    match name {
        b"RJ" => " takes K",
        b"JP" => " takes K, Bi, or Bi+K",
        b"EQ" => " takes K; Bi,K; or Bi,Bj,K",
        b"NE" | b"GE" | b"LT" | b"LE" | b"GT" => " takes Bi,K or Bi,Bj,K",
        b"ZR" | b"NZ" | b"PL" | b"NG" | b"MI" => " takes Xj,K or Bi,K",
        _ => " takes Xj,K",
    }
}

/// What a central instruction takes.
fn central_form(name: &[u8]) -> &'static str {
    match name {
        [b'S', ..] => " takes K, a register, a register and K, or two registers, one of them a B",
        [b'B', _, _] => " takes Xj, -Xk, or Xj or -Xk and another X with *, + or - between",
        [b'M', b'X', _] => " takes a count",
        [b'L' | b'A', b'X', _] => " takes a count; Xk; or Bj,Xk",
        [b'N' | b'Z' | b'U' | b'P', b'X', _] => " takes Xk or Bj,Xk",
        [b'F' | b'R', b'X', _] => " takes two X registers with +, -, * or / between",
        [b'D' | b'I', b'X', _] => " takes two X registers with +, - or * between",
        [b'C', b'X', _] => " takes Xk",
        _ => jump_form(name),
    }
}

/// What an operation takes, behind its name.
pub(crate) fn form_of(kind: DeckKind, operation: Operation, name: &[u8]) -> &'static str {
    match operation {
        Operation::Base => " takes O or D",
        Operation::Use => " takes the name of a block, 0, * or nothing",
        Operation::Org | Operation::Loc => " takes one address",
        Operation::Equ => " takes one value",
        Operation::Bss | Operation::Bssz => " takes one value, a count of words",
        Operation::Data => " takes numbers and counted items",
        Operation::Con => " takes values, a word each",
        Operation::Vfd => " takes n/e, with n from 1 to 60",
        Operation::Dis => " takes n,text with n from 1 to 100 words",
        Operation::Entry | Operation::Ext => " takes names of 1 to 7 characters",
        _ => match kind {
            DeckKind::Periph => peripheral_form(name),
            DeckKind::Rel | DeckKind::Abs => central_form(name),
        },
    }
}
