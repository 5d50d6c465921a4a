//! The rows whose operand is a sum, by name: JP, and all that sets an A, B or X register.
use crate::code::{Code, Row, SumForm};
use crate::patterns::SumPattern;

/// A code, if there is one.
macro_rules! some_code {
    () => {
        None
    };
    ($width:ident $code:literal) => {
        Some(Code::$width(*$code))
    };
}

/// Rows of a name, the registers of a sum, and the codes with K and without it.
macro_rules! sum_rows {
    ($($name:literal $pattern:ident ($($with_k:tt)*) ($($alone:tt)*),)*) => {
        [$(Row {
            name: *$name,
            form: SumForm {
                registers: SumPattern::$pattern,
                with_k: some_code!($($with_k)*),
                alone: some_code!($($alone)*),
            },
        }),*]
    };
}

/// The instructions whose operand is a sum (COMPASS 60492600, CPU instructions).
pub(crate) const SUM_ROWS: [Row<SumForm>; 44] = sum_rows![
    b"JP " NoRegister (Long b"0200KKKKKK") (),
    b"JP " Bi (Long b"02i0KKKKKK") (Long b"02i0000000"),
    b"SAi" NoRegister (Long b"51i0KKKKKK") (),
    b"SAi" Aj (Long b"50ijKKKKKK") (Short b"54ij0"),
    b"SAi" Bj (Long b"51ijKKKKKK") (Short b"56ij0"),
    b"SAi" Xj (Long b"52ijKKKKKK") (Short b"53ij0"),
    b"SAi" MinusBk () (Short b"57i0k"),
    b"SAi" XjPlusBk () (Short b"53ijk"),
    b"SAi" BkPlusXj () (Short b"53ijk"),
    b"SAi" AjPlusBk () (Short b"54ijk"),
    b"SAi" BkPlusAj () (Short b"54ijk"),
    b"SAi" AjMinusBk () (Short b"55ijk"),
    b"SAi" MinusBkPlusAj () (Short b"55ijk"),
    b"SAi" BjPlusBk () (Short b"56ijk"),
    b"SAi" BjMinusBk () (Short b"57ijk"),
    b"SAi" MinusBkPlusBj () (Short b"57ijk"),
    b"SBi" NoRegister (Long b"61i0KKKKKK") (),
    b"SBi" Aj (Long b"60ijKKKKKK") (Short b"64ij0"),
    b"SBi" Bj (Long b"61ijKKKKKK") (Short b"66ij0"),
    b"SBi" Xj (Long b"62ijKKKKKK") (Short b"63ij0"),
    b"SBi" MinusBk () (Short b"67i0k"),
    b"SBi" XjPlusBk () (Short b"63ijk"),
    b"SBi" BkPlusXj () (Short b"63ijk"),
    b"SBi" AjPlusBk () (Short b"64ijk"),
    b"SBi" BkPlusAj () (Short b"64ijk"),
    b"SBi" AjMinusBk () (Short b"65ijk"),
    b"SBi" MinusBkPlusAj () (Short b"65ijk"),
    b"SBi" BjPlusBk () (Short b"66ijk"),
    b"SBi" BjMinusBk () (Short b"67ijk"),
    b"SBi" MinusBkPlusBj () (Short b"67ijk"),
    b"SXi" NoRegister (Long b"71i0KKKKKK") (),
    b"SXi" Aj (Long b"70ijKKKKKK") (Short b"74ij0"),
    b"SXi" Bj (Long b"71ijKKKKKK") (Short b"76ij0"),
    b"SXi" Xj (Long b"72ijKKKKKK") (Short b"73ij0"),
    b"SXi" MinusBk () (Short b"77i0k"),
    b"SXi" XjPlusBk () (Short b"73ijk"),
    b"SXi" BkPlusXj () (Short b"73ijk"),
    b"SXi" AjPlusBk () (Short b"74ijk"),
    b"SXi" BkPlusAj () (Short b"74ijk"),
    b"SXi" AjMinusBk () (Short b"75ijk"),
    b"SXi" MinusBkPlusAj () (Short b"75ijk"),
    b"SXi" BjPlusBk () (Short b"76ijk"),
    b"SXi" BjMinusBk () (Short b"77ijk"),
    b"SXi" MinusBkPlusBj () (Short b"77ijk"),
];
