//! The operations and the operands of COMPASS that this language leaves out (COMPASS 60492600, pseudo-instructions,
//! data items, numeric constants, registers; 6600 reference 60100000, the instructions that came later).

use crate::elements::{Part, behind, is_mark};
use crate::flagged_statement::FlaggedStatement;
use definitions::{digit_count, is_same_text};
use operations::Operation;

/// The operations, a blank or a line feed between two: macros and micros, conditions and repetitions, names and
/// segments, the loader and other systems, messages of the programmer's, and instructions that came later.
const LEFT_OUT: &[u8] =
    b"MACRO MACROE ENDM LOCAL IRP OPDEF OPSYN CPOP CPSYN PPOP PURGDEF PURGMAC NIL HERE RMT
MICRO OCTMIC DECMIC MICCNT IF IFC IFCP IFCP6 IFCP7 IFPP IFPP6 IFPP7 IFEQ IFNE IFGT IFGE IFLT IFLE IFPL IFMI
ELSE ENDIF SKIP DUP ECHO STOPDUP ENDD REP REPI REPC SET MAX MIN QUAL POS ORGC COL B1=1 B7=1 LIT R= CODE CHAR
SEG SEGMENT SST STEXT LCC LDSET USELCM USLCM MACHINE PPU SUBR SYSCOM ENTRYC EXTC COMMENT CTEXT ENDX XTEXT TTL
NOLABEL NOREF XREF ERR ERRMI ERRNG ERRNZ ERRPL ERRZR IM DM CC CU RE WE XJ RL WL RXJ WXJ LRD SRD SYSTEM";

/// What is said of an item that has delimiters in place of a count.
pub(crate) const DELIMITED: &str =
    " is left out of this language: an item has a count before its letter";

/// What is said of a number with a fraction or a power of ten.
pub(crate) const FLOATING: &str = " is a floating constant, which is left out of this language";

/// What is said of a register like B.1.
pub(crate) const WITH_PERIOD: &str =
    " is a register with a period, which is left out of this language";

/// Whether an operation is one that this language leaves out.
pub(crate) fn is_left_out(name: &[u8]) -> bool {
    for word in LEFT_OUT.split(|character| *character == b' ' || *character == b'\n') {
        if is_same_text(word, name) {
            return true;
        }
    }
    false
}

/// Whether a text begins with the letter of an item and a delimiter, as C* does.
fn begins_delimited(text: &[u8]) -> bool {
    match text {
        [b'H' | b'A' | b'L' | b'R' | b'C' | b'Z', delimiter, ..] => {
            !matches!(*delimiter, b'A'..=b'Z' | b'0'..=b'9' | b' ' | b',')
        }
        _ => false,
    }
}

/// Whether so many characters of a text end where an item may: a blank or a mark follows, or nothing.
fn may_end(text: &[u8], len: usize) -> bool {
    match text.get(len) {
        Some(next) => *next == b' ' || is_mark(*next),
        None => true,
    }
}

/// How many characters the item between delimiters has that begins a text; none where no delimiter ends it.
fn delimited_len(text: &[u8]) -> Option<usize> {
    if !begins_delimited(text) {
        return None;
    }
    let delimiter = text.get(1).copied()?;
    let rest = behind(text, 2);
    let between = rest.iter().position(|character| *character == delimiter)?;
    let last = rest.get(between.saturating_sub(1));
    let len = between.saturating_add(3);
    if between > 0 && !matches!(last, Some(b' ' | b',')) && may_end(text, len) {
        Some(len)
    } else {
        None
    }
}

/// So many of the characters that stand from a place on.
fn front_part<'a>(start: usize, text: &'a [u8], len: usize) -> Part<'a> {
    Part {
        start,
        text: text.split_at(len.min(text.len())).0,
    }
}

/// The item between delimiters, as C*TWO WORDS*, that begins where a part of the variable field does. Between two
/// marks, and in DATA, which takes no symbols, it may have blanks, although the first of these ends the field; in DATA
/// it may lack its end.
pub(crate) fn delimited_item<'a>(
    flagged: &FlaggedStatement<'a>,
    part: Part<'a>,
) -> Option<Part<'a>> {
    let is_data = flagged.statement.operation == Operation::Data;
    let field = behind(flagged.statement.variable, part.start);
    if let Some(len) = delimited_len(field) {
        return Some(front_part(part.start, field, len));
    }
    let is_marked = matches!(field, [_, b'+' | b'-' | b'*' | b'/', ..]);
    let columns = flagged.columns_at(part.start);
    match delimited_len(columns) {
        Some(len) if is_data || is_marked => Some(front_part(part.start, columns, len)),
        _ if is_data && begins_delimited(field) && matches!(field, [_, b'*' | b'/', ..]) => {
            Some(front_part(part.start, field, field.len()))
        }
        _ => None,
    }
}

/// Whether a text has the form of a floating constant that begins with its period.
pub(crate) fn is_fraction(text: &[u8]) -> bool {
    let Some((b'.', digits)) = text.split_first() else {
        return false;
    };
    let count = digit_count(digits);
    match behind(digits, count).split_first() {
        Some((b'E' | b'P' | b'S', power)) => count > 0 && digit_count(power) == power.len(),
        Some(_) => false,
        None => count > 0,
    }
}

/// What stands behind the period of a register like B.1 or X.N; none where a text is no such.
fn behind_period<'a>(text: &'a [u8]) -> Option<&'a [u8]> {
    match text {
        [b'A' | b'B' | b'X', b'.', _, ..] => Some(behind(text, 2)),
        _ => None,
    }
}

/// Whether a symbol without a definition has the form of a register with a period.
pub(crate) fn may_be_register(flagged: &FlaggedStatement<'_>, name: &[u8]) -> bool {
    behind_period(name).is_some() && flagged.first_card(name).is_none()
}

/// Whether a symbol without a definition is a register with a period: a digit of registers stands behind that, or a
/// symbol that has a definition.
pub(crate) fn is_register_with_period(flagged: &FlaggedStatement<'_>, name: &[u8]) -> bool {
    match behind_period(name) {
        Some([b'0'..=b'7']) => true,
        Some(number) => flagged.first_card(number).is_some(),
        None => false,
    }
}

/// The number with a scale that has a sign, as 1S-1, whose front this element of a field is; none where that is no
/// such front.
pub(crate) fn signed_scale<'a>(field: &'a [u8], part: Part<'a>) -> Option<Part<'a>> {
    let digits = digit_count(part.text);
    let scale = behind(part.text, digits);
    if digits == 0 || !matches!(scale, [b'S'] | [b'B' | b'O' | b'D', b'S']) {
        return None;
    }
    let from = behind(field, part.start);
    match behind(from, part.text.len()).split_first() {
        Some((b'+' | b'-', power)) => {
            let len = part
                .text
                .len()
                .saturating_add(1)
                .saturating_add(digit_count(power));
            Some(front_part(part.start, from, len))
        }
        _ => None,
    }
}
