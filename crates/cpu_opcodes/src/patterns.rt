//! The patterns of operands: i, j and k are digits of registers, K an expression in 18 bits and N
//! one in 6 bits.

/// An operand that is read subfield by subfield.
#[derive(Clone, Copy)]
pub enum OperandPattern {
    /// `K`
    K,
    /// `Xj,K`
    XjK,
    /// `Bi,K`
    BiK,
    /// `Bi,Bj,K`
    BiBjK,
    /// `Xj`
    Xj,
    /// `Xj*Xk`
    XjTimesXk,
    /// `Xj+Xk`
    XjPlusXk,
    /// `Xj-Xk`
    XjMinusXk,
    /// `-Xk`
    MinusXk,
    /// `-Xk*Xj`
    MinusXkTimesXj,
    /// `-Xk+Xj`
    MinusXkPlusXj,
    /// `-Xk-Xj`
    MinusXkMinusXj,
    /// `n`
    N,
    /// `Xj/Xk`
    XjOverXk,
    /// `Xk`
    Xk,
    /// `Bj,Xk`
    BjXk,
    /// `Xk,Bj`
    XkBj,
}

/// The registers of an operand that is a sum; its other terms make K.
#[derive(Clone, Copy)]
pub enum SumPattern {
    NoRegister,
    /// `Bi`
    Bi,
    /// `Aj`
    Aj,
    /// `Bj`
    Bj,
    /// `Xj`
    Xj,
    /// `-Bk`
    MinusBk,
    /// `Xj+Bk`
    XjPlusBk,
    /// `Bk+Xj`
    BkPlusXj,
    /// `Aj+Bk`
    AjPlusBk,
    /// `Bk+Aj`
    BkPlusAj,
    /// `Aj-Bk`
    AjMinusBk,
    /// `-Bk+Aj`
    MinusBkPlusAj,
    /// `Bj+Bk`
    BjPlusBk,
    /// `Bj-Bk`
    BjMinusBk,
    /// `-Bk+Bj`
    MinusBkPlusBj,
}
