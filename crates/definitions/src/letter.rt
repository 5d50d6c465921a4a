//! The letters that flag a statement (COMPASS 60492600, error flags).

/// A letter that flags a statement.
#[derive(Clone, Copy, Debug)]
pub enum Letter {
    /// A value, count or address out of range.
    A,
    /// A stray comma card.
    C,
    /// A symbol that was defined before.
    D,
    /// A bad location field.
    L,
    /// An unknown or misplaced operation.
    O,
    /// Relocation that is not allowed.
    R,
    /// An undefined symbol.
    U,
    /// A bad variable field.
    V,
    /// Division by zero.
    Z,
}
