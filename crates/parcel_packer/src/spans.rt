//! How a run is kept: whole parcels as spans, and the bits of the parcel behind them.

/// Parcels one behind the other, counted in parcels of the block; their bits are one number, the first
/// parcel's first.
#[derive(Clone, Copy, Drop)]
pub(crate) struct Span {
    pub(crate) place: u32,
    pub(crate) count: u32,
    pub(crate) bits: u64,
    pub(crate) is_instruction: bool,
}

/// The first bits of a parcel that is not yet whole, as one number.
#[derive(Clone, Copy)]
pub(crate) struct OpenParcel {
    pub(crate) place: u32,
    pub(crate) filled: u32,
    pub(crate) bits: u64,
}
