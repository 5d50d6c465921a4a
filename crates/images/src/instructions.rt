//! Words taken apart into instructions: the names and operands by code, the other way round than the tables of
//! an assembler have them (6600 Computer System Reference Manual 60100000; the written form is COMPASS's).

ghost use Rattle.std.specs.Prelude.{◌≤◌};

use text_ports::Piece;

/// A short or long instruction of the central processor, by its first two octal digits.
#[derive(Clone, Copy)]
struct CentralForm {
    /// What the next three digits are: a digit that has to stand there, one of i, j, k, or n; K from the third
    /// on is the constant of a long instruction.
    digits: [u8; 3],
    /// Name and operand, in which i, j and k stand for a digit, n for two and K for six, both with a B behind.
    text: &'static [u8],
}

/// Rows of digits and texts.
macro_rules! forms {
    ($($digits:literal $text:literal,)*) => {
        [$(CentralForm { digits: *$digits, text: $text }),*]
    };
}

/// The central instructions by their first two octal digits.
const CENTRAL: [CentralForm; 64] = forms![
    b"00P" b"PS",
    b"00K" b"RJ     K",
    b"i0K" b"JP     Bi+K",
    b"ijK" b"",
    b"ijK" b"EQ     Bi,Bj,K",
    b"ijK" b"NE     Bi,Bj,K",
    b"ijK" b"GE     Bi,Bj,K",
    b"ijK" b"LT     Bi,Bj,K",
    b"ijj" b"BXi    Xj",
    b"ijk" b"BXi    Xj*Xk",
    b"ijk" b"BXi    Xj+Xk",
    b"ijk" b"BXi    Xj-Xk",
    b"ikk" b"BXi    -Xk",
    b"ijk" b"BXi    -Xk*Xj",
    b"ijk" b"BXi    -Xk+Xj",
    b"ijk" b"BXi    -Xk-Xj",
    b"inn" b"LXi    n",
    b"inn" b"AXi    n",
    b"ijk" b"LXi    Bj,Xk",
    b"ijk" b"AXi    Bj,Xk",
    b"ijk" b"NXi    Bj,Xk",
    b"ijk" b"ZXi    Bj,Xk",
    b"ijk" b"UXi    Bj,Xk",
    b"ijk" b"PXi    Bj,Xk",
    b"ijk" b"FXi    Xj+Xk",
    b"ijk" b"FXi    Xj-Xk",
    b"ijk" b"DXi    Xj+Xk",
    b"ijk" b"DXi    Xj-Xk",
    b"ijk" b"RXi    Xj+Xk",
    b"ijk" b"RXi    Xj-Xk",
    b"ijk" b"IXi    Xj+Xk",
    b"ijk" b"IXi    Xj-Xk",
    b"ijk" b"FXi    Xj*Xk",
    b"ijk" b"RXi    Xj*Xk",
    b"ijk" b"DXi    Xj*Xk",
    b"inn" b"MXi    n",
    b"ijk" b"FXi    Xj/Xk",
    b"ijk" b"RXi    Xj/Xk",
    b"000" b"NO",
    b"ikk" b"CXi    Xk",
    b"ijK" b"SAi    Aj+K",
    b"ijK" b"SAi    Bj+K",
    b"ijK" b"SAi    Xj+K",
    b"ijk" b"SAi    Xj+Bk",
    b"ijk" b"SAi    Aj+Bk",
    b"ijk" b"SAi    Aj-Bk",
    b"ijk" b"SAi    Bj+Bk",
    b"ijk" b"SAi    Bj-Bk",
    b"ijK" b"SBi    Aj+K",
    b"ijK" b"SBi    Bj+K",
    b"ijK" b"SBi    Xj+K",
    b"ijk" b"SBi    Xj+Bk",
    b"ijk" b"SBi    Aj+Bk",
    b"ijk" b"SBi    Aj-Bk",
    b"ijk" b"SBi    Bj+Bk",
    b"ijk" b"SBi    Bj-Bk",
    b"ijK" b"SXi    Aj+K",
    b"ijK" b"SXi    Bj+K",
    b"ijK" b"SXi    Xj+K",
    b"ijk" b"SXi    Xj+Bk",
    b"ijk" b"SXi    Aj+Bk",
    b"ijk" b"SXi    Aj-Bk",
    b"ijk" b"SXi    Bj+Bk",
    b"ijk" b"SXi    Bj-Bk",
];

/// The jumps of 03, by the digit behind.
const X_JUMPS: [&[u8]; 8] = [
    b"ZR     Xj,K",
    b"NZ     Xj,K",
    b"PL     Xj,K",
    b"NG     Xj,K",
    b"IR     Xj,K",
    b"OR     Xj,K",
    b"DF     Xj,K",
    b"ID     Xj,K",
];

/// The peripheral instructions by their code, each with what stands behind its name: d, m with its word
/// behind, c of both, s a number with a sign, or nothing.
const PERIPHERAL: [&[u8]; 64] = [
    b"PSN", b"LJM m", b"RJM m", b"UJN s", b"ZJN s", b"NJN s", b"PJN s", b"MJN s", // 00
    b"SHN s", b"LMN d", b"LPN d", b"SCN d", b"LDN d", b"LCN d", b"ADN d", b"SBN d", // 10
    b"LDC c", b"ADC c", b"LPC c", b"LMC c", b"", b"", b"EXN d", b"RPN d", // 20
    b"LDD d", b"ADD d", b"SBD d", b"LMD d", b"STD d", b"RAD d", b"AOD d", b"SOD d", // 30
    b"LDI d", b"ADI d", b"SBI d", b"LMI d", b"STI d", b"RAI d", b"AOI d", b"SOI d", // 40
    b"LDM m", b"ADM m", b"SBM m", b"LMM m", b"STM m", b"RAM m", b"AOM m", b"SOM m", // 50
    b"CRD d", b"CRM m", b"CWD d", b"CWM m", b"AJM m", b"IJM m", b"FJM m", b"EJM m", // 60
    b"IAN d", b"IAM m", b"OAN d", b"OAM m", b"ACN d", b"DCN d", b"FAN d", b"FNC m", // 70
];

/// How a code is written, or nothing where no instruction has it.
fn central_text(upper: u64, constant: u64) -> &'static [u8] {
    let code = (upper / 0o1000) % 64;
    let Some(form) = CENTRAL.get(code as usize) else {
        return b"";
    };
    let [first, second, third] = form.digits;
    let fits = has_digit(upper, first, upper / 0o100)
        && has_digit(upper, second, upper / 0o10)
        && has_digit(upper, third, upper);
    if !fits || (third == b'P' && (upper != 0 || constant != 0)) {
        return b"";
    }
    if code == 3 {
        return X_JUMPS
            .get(((upper / 0o100) % 8) as usize)
            .copied()
            .unwrap_or(b"");
    }
    form.text
}

/// Whether an instruction of this first parcel is a long one.
pub(crate) fn is_long(upper: u64) -> bool {
    match CENTRAL.get(((upper / 0o1000) % 64) as usize) {
        Some(form) => {
            let [_, _, third] = form.digits;
            third == b'K' || third == b'P'
        }
        None => false,
    }
}

/// Whether the last digit of a number may stand where a form has this one.
fn has_digit(upper: u64, wanted: u8, number: u64) -> bool {
    let digit = number % 8;
    match wanted {
        b'0' => digit == 0,
        b'j' => digit == (upper / 0o10) % 8,
        b'k' => digit == upper % 8,
        _ => true,
    }
}

/// Writes an instruction of the central processor with the parcel behind it, if there is one; what is no
/// instruction as octal digits.
pub(crate) fn push_central(text: &mut Piece, upper: u64, lower: Option<u64>) {
    let long = is_long(upper);
    let form = match lower {
        None if long => b"",
        _ => central_text(upper, lower.unwrap_or(0)),
    };
    if form.is_empty() {
        push_parcels(text, upper, if long { lower } else { None });
        return;
    }
    push_form(text, form, upper, lower.unwrap_or(0));
}

/// Writes one or two parcels as octal digits.
fn push_parcels(text: &mut Piece, upper: u64, lower: Option<u64>) {
    text.put_octal(5, upper);
    if let Some(lower) = lower {
        text.put(b" ");
        text.put_octal(5, lower);
    }
}

/// Writes the name and the operand of a form with the digits of an instruction.
fn push_form(text: &mut Piece, form: &[u8], upper: u64, lower: u64) {
    for byte in form {
        match *byte {
            b'i' => text.put_octal(1, upper / 0o100),
            b'j' => text.put_octal(1, upper / 0o10),
            b'k' => text.put_octal(1, upper),
            b'n' => push_number(text, 2, upper),
            b'K' => push_number(text, 6, (upper % 8) * 0o100_000 + lower % 0o100_000),
            other => text.put([other].as_slice()),
        }
    }
}

/// Writes a number of so many octal digits, with the letter of octal numbers behind.
fn push_number(text: &mut Piece, digits: u32, number: u64)
    requires few { digits ≤ 20 }
{
    text.put_octal(digits, number);
    text.put(b"B");
}

/// The name of a peripheral instruction with what stands behind it, empty where there is none; no operand makes
/// a d of PSN, or a minus 0.
pub(crate) fn peripheral_form(word: u64) -> &'static [u8] {
    let form = PERIPHERAL
        .get(((word / 64) % 64) as usize)
        .copied()
        .unwrap_or(b"");
    let wants_none = form == b"PSN".as_slice() && word % 64 != 0;
    let is_minus_zero = peripheral_operand(form) == Some(b's') && word % 64 == 63;
    if wants_none || is_minus_zero {
        b""
    } else {
        form
    }
}

/// What stands behind the name.
pub(crate) fn peripheral_operand(form: &[u8]) -> Option<u8> {
    form.get(4).copied()
}

/// Whether the instruction of a word has a second word.
pub(crate) fn has_second(word: u64) -> bool {
    matches!(peripheral_operand(peripheral_form(word)), Some(b'm' | b'c'))
}

/// Writes a number of six bits with a sign.
fn push_signed(text: &mut Piece, number: u64) {
    if number < 32 {
        push_number(text, 2, number);
        return;
    }
    text.put(b"-");
    push_number(text, 2, 63u64.saturating_sub(number));
}

/// Writes an instruction of a peripheral processor with the word behind it, if there is one; a word that is no
/// instruction as octal digits.
pub(crate) fn push_peripheral(text: &mut Piece, word: u64, second: Option<u64>) {
    let form = match second {
        None if has_second(word) => b"",
        _ => peripheral_form(word),
    };
    if form.is_empty() {
        text.put_octal(4, word);
        return;
    }
    text.put(form.split_at(form.len().min(3)).0);
    match peripheral_operand(form) {
        Some(operand) => push_operand(text, operand, word % 64, second.unwrap_or(0) % 4096),
        None => {}
    }
}

/// Writes what stands behind the name of a peripheral instruction.
fn push_operand(text: &mut Piece, operand: u8, number: u64, second: u64) {
    text.put(b"    ");
    match operand {
        b'm' => {
            push_number(text, 4, second);
            text.put(b",");
            push_number(text, 2, number)
        }
        b'c' => push_number(text, 6, (number % 64) * 4096 + second % 4096),
        b's' => push_signed(text, number),
        _ => push_number(text, 2, number),
    }
}
