//! The rows of an operation in each of the three tables.
ghost use Rattle.std.specs.Prelude.{◌≡◌, ◌∷◌, [], IsTrue, map, true};
ghost use Rattle.std.specs.List.{list_all, list_any};
ghost use Rattle.definitions.specs.CentralTable as table;
ghost use Rattle.definitions.specs.Matching.{is_operation};
ghost use Rattle.definitions.specs.Operations.{is_central};
ghost use Rattle.cpu_opcodes.specs.Joins.CentralTables.{code_row, operand_row, sum_row, ignoring_rows_of, operand_rows_of, sum_rows_of, is_shaped, is_some_of};
ghost use Rattle.cpu_opcodes.specs.Joins.LawfulCodes.{is_lawful_row, has_lawful_code, has_lawful_codes};

use crate::code::{Code, OperandForm, Row, SumForm};
use crate::operand_table::{NO_ROWS, OPERAND_ROWS, PS_ROWS};
use crate::sum_table::SUM_ROWS;
use crate::text_match::is_octal_digit;

/// The rows of an operation whose operand is ignored, in the order in which they count: one of NO and
/// one of PS.
pub fn ignoring_rows(operation: &[u8]) -> &'static [Row<Code>]
    ensures rows { map code_row result.now ≡ ignoring_rows_of operation.now }
    ensures lawful { IsTrue (list_all is_lawful_row result.now) }
{
    match operation {
        [b'N', b'O'] => &NO_ROWS,
        [b'P', b'S'] => &PS_ROWS,
        _ => &[],
    }
}

/// The rows of an operation whose operand is a sum, in the order in which they count.
pub fn sum_rows(operation: &[u8]) -> &'static [Row<SumForm>]
    ensures rows { map sum_row result.now ≡ sum_rows_of operation.now }
    ensures lawful { IsTrue (list_all has_lawful_codes result.now) }
{
    match operation {
        [b'J', b'P'] => &SUM_ROWS[0..2],
        [b'S', b'A', b'0'..=b'7'] => &SUM_ROWS[2..16],
        [b'S', b'B', b'0'..=b'7'] => &SUM_ROWS[16..30],
        [b'S', b'X', b'0'..=b'7'] => &SUM_ROWS[30..44],
        _ => &[],
    }
}

/// Whether an operation is two letters, or has X and an octal digit behind its first.
fn is_shaped(operation: &[u8]) -> bool
    ensures { result ≡ is_shaped operation.now }
{
    match operation {
        [_, _] => true,
        [_, second, digit] => *second == b'X' && is_octal_digit(*digit),
        _ => false,
    }
}

/// The rows of two letters.
fn pair_rows(first: u8, second: u8) -> &'static [Row<OperandForm>]
    ensures rows { map operand_row result.now ≡ operand_rows_of (first ∷ second ∷ []) }
    ensures lawful { IsTrue (list_all has_lawful_code result.now) }
{
    match (first, second) {
        (b'D', b'F') => &OPERAND_ROWS[13..14],
        (b'E', b'Q') => &OPERAND_ROWS[17..20],
        (b'G', b'E') => &OPERAND_ROWS[24..26],
        (b'G', b'T') => &OPERAND_ROWS[26..28],
        (b'I', b'D') => &OPERAND_ROWS[28..29],
        (b'I', b'R') => &OPERAND_ROWS[29..30],
        (b'L', b'E') => &OPERAND_ROWS[33..35],
        (b'L', b'T') => &OPERAND_ROWS[35..37],
        (b'M', b'I') => &OPERAND_ROWS[41..43],
        (b'N', b'E') => &OPERAND_ROWS[44..46],
        (b'N', b'G') => &OPERAND_ROWS[46..48],
        (b'N', b'Z') => &OPERAND_ROWS[51..53],
        (b'O', b'R') => &OPERAND_ROWS[53..54],
        (b'P', b'L') => &OPERAND_ROWS[54..56],
        (b'R', b'J') => &OPERAND_ROWS[59..60],
        (b'Z', b'R') => &OPERAND_ROWS[67..69],
        _ => &[],
    }
}

/// The rows of a letter with X and an octal digit behind it.
fn set_rows(first: u8, second: u8, digit: u8) -> &'static [Row<OperandForm>]
    requires { is_shaped (first ∷ second ∷ digit ∷ []) ≡ true }
    ensures rows { map operand_row result.now ≡ operand_rows_of (first ∷ second ∷ digit ∷ []) }
    ensures lawful { IsTrue (list_all has_lawful_code result.now) }
{
    match first {
        b'A' => &OPERAND_ROWS[0..4],
        b'B' => &OPERAND_ROWS[4..12],
        b'C' => &OPERAND_ROWS[12..13],
        b'D' => &OPERAND_ROWS[14..17],
        b'F' => &OPERAND_ROWS[20..24],
        b'I' => &OPERAND_ROWS[30..33],
        b'L' => &OPERAND_ROWS[37..41],
        b'M' => &OPERAND_ROWS[43..44],
        b'N' => &OPERAND_ROWS[48..51],
        b'P' => &OPERAND_ROWS[56..59],
        b'R' => &OPERAND_ROWS[60..64],
        b'U' => &OPERAND_ROWS[64..67],
        b'Z' => &OPERAND_ROWS[69..72],
        _ => &[],
    }
}

/// The rows of an operation whose operand is read subfield by subfield, in the order in which they
/// count.
pub fn central_rows(operation: &[u8]) -> &'static [Row<OperandForm>]
    ensures rows { map operand_row result.now ≡ operand_rows_of operation.now }
    ensures lawful { IsTrue (list_all has_lawful_code result.now) }
{
    if !is_shaped(operation) {
        return &[];
    }
    match operation {
        [first, second] => pair_rows(*first, *second),
        [first, second, digit] => set_rows(*first, *second, *digit),
        _ => &[],
    }
}

/// Whether a table has an operation.
pub fn is_central(operation: &[u8]) -> bool
    ensures { result ≡ is_central operation.now }
{
    is_ignoring(operation) || is_sum(operation) || is_read_by_subfields(operation)
}

pub(crate) fn is_ignoring(operation: &[u8]) -> bool
    ensures { result ≡ list_any (λ (row : table.Row). is_operation row.operation operation.now) table.ignoring_rows }
{
    has_rows(ignoring_rows(operation))
}

fn is_sum(operation: &[u8]) -> bool
    ensures { result ≡ list_any (λ (row : table.SumRow). is_operation row.operation operation.now) table.sum_rows }
{
    has_rows(sum_rows(operation))
}

fn is_read_by_subfields(operation: &[u8]) -> bool
    ensures { result ≡ list_any (λ (row : table.Row). is_operation row.operation operation.now) table.central_rows }
{
    has_rows(central_rows(operation))
}

/// Whether there is a row.
pub(crate) fn has_rows<F>(rows: &[Row<F>]) -> bool
    ensures { result ≡ is_some_of rows.now }
{
    match rows {
        [] => false,
        [_, ..] => true,
    }
}
