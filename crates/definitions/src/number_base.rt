//! The base of numbers (COMPASS 60492600, BASE).

/// The base of a number without a suffix.
#[derive(Clone, Copy, Debug)]
pub enum NumberBase {
    Decimal,
    Octal,
}
