//! The rows whose operand is read subfield by subfield, and those whose operand is ignored, by name.
use crate::code::{Code, OperandForm, Row};
use crate::patterns::OperandPattern;

/// Rows of a name, a pattern and a code.
macro_rules! operand_rows {
    ($($name:literal $pattern:ident $width:ident $code:literal,)*) => {
        [$(Row {
            name: *$name,
            form: OperandForm { operand: OperandPattern::$pattern, code: Code::$width(*$code) },
        }),*]
    };
}

/// The central instructions but those that set a register, and JP (COMPASS 60492600, CPU
/// instructions).
pub(crate) const OPERAND_ROWS: [Row<OperandForm>; 72] = operand_rows![
    b"AXi" N Short b"21inn",
    b"AXi" BjXk Short b"23ijk",
    b"AXi" XkBj Short b"23ijk",
    b"AXi" Xk Short b"23i0k",
    b"BXi" Xj Short b"10ijj",
    b"BXi" XjTimesXk Short b"11ijk",
    b"BXi" XjPlusXk Short b"12ijk",
    b"BXi" XjMinusXk Short b"13ijk",
    b"BXi" MinusXk Short b"14ikk",
    b"BXi" MinusXkTimesXj Short b"15ijk",
    b"BXi" MinusXkPlusXj Short b"16ijk",
    b"BXi" MinusXkMinusXj Short b"17ijk",
    b"CXi" Xk Short b"47ikk",
    b"DF " XjK Long b"036jKKKKKK",
    b"DXi" XjPlusXk Short b"32ijk",
    b"DXi" XjMinusXk Short b"33ijk",
    b"DXi" XjTimesXk Short b"42ijk",
    b"EQ " K Long b"0400KKKKKK",
    b"EQ " BiBjK Long b"04ijKKKKKK",
    b"EQ " BiK Long b"04i0KKKKKK",
    b"FXi" XjPlusXk Short b"30ijk",
    b"FXi" XjMinusXk Short b"31ijk",
    b"FXi" XjTimesXk Short b"40ijk",
    b"FXi" XjOverXk Short b"44ijk",
    b"GE " BiBjK Long b"06ijKKKKKK",
    b"GE " BiK Long b"06i0KKKKKK",
    b"GT " BiBjK Long b"07jiKKKKKK",
    b"GT " BiK Long b"070iKKKKKK",
    b"ID " XjK Long b"037jKKKKKK",
    b"IR " XjK Long b"034jKKKKKK",
    b"IXi" XjPlusXk Short b"36ijk",
    b"IXi" XjMinusXk Short b"37ijk",
    b"IXi" XjTimesXk Short b"42ijk",
    b"LE " BiBjK Long b"06jiKKKKKK",
    b"LE " BiK Long b"060iKKKKKK",
    b"LT " BiBjK Long b"07ijKKKKKK",
    b"LT " BiK Long b"07i0KKKKKK",
    b"LXi" N Short b"20inn",
    b"LXi" BjXk Short b"22ijk",
    b"LXi" XkBj Short b"22ijk",
    b"LXi" Xk Short b"22i0k",
    b"MI " XjK Long b"033jKKKKKK",
    b"MI " BiK Long b"07i0KKKKKK",
    b"MXi" N Short b"43inn",
    b"NE " BiBjK Long b"05ijKKKKKK",
    b"NE " BiK Long b"05i0KKKKKK",
    b"NG " XjK Long b"033jKKKKKK",
    b"NG " BiK Long b"07i0KKKKKK",
    b"NXi" BjXk Short b"24ijk",
    b"NXi" XkBj Short b"24ijk",
    b"NXi" Xk Short b"24i0k",
    b"NZ " XjK Long b"031jKKKKKK",
    b"NZ " BiK Long b"05i0KKKKKK",
    b"OR " XjK Long b"035jKKKKKK",
    b"PL " XjK Long b"032jKKKKKK",
    b"PL " BiK Long b"06i0KKKKKK",
    b"PXi" BjXk Short b"27ijk",
    b"PXi" XkBj Short b"27ijk",
    b"PXi" Xk Short b"27i0k",
    b"RJ " K Long b"0100KKKKKK",
    b"RXi" XjPlusXk Short b"34ijk",
    b"RXi" XjMinusXk Short b"35ijk",
    b"RXi" XjTimesXk Short b"41ijk",
    b"RXi" XjOverXk Short b"45ijk",
    b"UXi" BjXk Short b"26ijk",
    b"UXi" XkBj Short b"26ijk",
    b"UXi" Xk Short b"26i0k",
    b"ZR " XjK Long b"030jKKKKKK",
    b"ZR " BiK Long b"04i0KKKKKK",
    b"ZXi" BjXk Short b"25ijk",
    b"ZXi" XkBj Short b"25ijk",
    b"ZXi" Xk Short b"25i0k",
];

/// The row of NO, whose operand is ignored.
pub(crate) const NO_ROWS: [Row<Code>; 1] = [Row {
    name: *b"NO ",
    form: Code::Short(*b"46000"),
}];

/// The row of PS, whose operand is ignored.
pub(crate) const PS_ROWS: [Row<Code>; 1] = [Row {
    name: *b"PS ",
    form: Code::Long(*b"0000000000"),
}];
