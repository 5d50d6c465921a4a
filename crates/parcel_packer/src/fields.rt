//! Putting a field into a run: bits join the open parcel, and the parcels that are whole join the spans.
ghost use Rattle.std.specs.Prelude.{◌≡◌, ◌+◌, ◌*◌, ◌%◌, ◌^◌, ◌<◌, ◌≤◌, List, IfOk, OnErr};
ghost use Rattle.definitions.specs.Kinds.{unit_bits};
ghost use Rattle.parcel_packer.specs.Joins.Packing.{moved};
ghost use Rattle.parcel_packer.specs.Joins.Spans.{IsOpen, IsField, IsPut, run_of};
ghost use Rattle.parcel_packer.specs.declared.spans.Span.{Span};

use crate::spans::{OpenParcel, Span};
use definitions::DeckKind;
use std::alloc::AllocError;

/// So many bits, 1 to 60, as one number, and whether an instruction has them.
#[derive(Clone, Copy)]
pub struct Field {
    pub width: u32,
    pub bits: u64,
    pub is_instruction: bool,
}

/// The last bits of a number, so many.
#[inline(always)]
pub(crate) fn last_bits(bits: u64, width: u32) -> u64
    requires { width < 64 }
    ensures { result ≡ bits % 2 ^ width }
{
    bits % (1 << width)
}

/// The bits of the open parcel with others, so many, behind them.
#[inline(always)]
fn joined_bits(next: OpenParcel, width: u32, bits: u64) -> u64
    requires open { next.bits < 2 ^ next.filled }
    requires bits { bits < 2 ^ width }
    requires within { next.filled + width ≤ 60 }
    ensures value { result ≡ next.bits * 2 ^ width + bits }
    ensures fits { result < 2 ^ (next.filled + width) }
{
    (next.bits << width) + bits
}

/// Puts a field that makes the open parcel whole. All parcels that it makes whole, which have at most 60
/// bits together, are one span.
#[inline(always)]
fn put_span(
    spans: &mut Vec<Span>,
    next: OpenParcel,
    size: u32,
    field: Field,
) -> Result<OpenParcel, AllocError>
    requires size { size ≤ 15 }
    requires fills { 60 % size ≡ 0 }
    requires open { IsOpen size next }
    requires field { IsField field }
    requires whole { size ≤ next.filled + field.width }
    requires within { size * next.place + next.filled + field.width ≤ size * 524288 }
    ensures put { IfOk result (λ after. IsPut size spans.old.items next field spans.new.items after) }
    ensures unchanged { OnErr result (spans.new.items ≡ spans.old.items) }
{
    let count = (next.filled + field.width) / size;
    let left = (next.filled + field.width) % size;
    spans.push(Span {
        place: next.place,
        count,
        bits: joined_bits(next, field.width - left, field.bits >> left),
        is_instruction: field.is_instruction,
    })?;
    Ok(OpenParcel {
        place: next.place + count,
        filled: left,
        bits: last_bits(field.bits, left),
    })
}

/// Puts a field into a run; where no memory is found, the spans are as before.
#[inline(always)]
pub(crate) fn put_field(
    spans: &mut Vec<Span>,
    next: OpenParcel,
    size: u32,
    field: Field,
) -> Result<OpenParcel, AllocError>
    requires size { size ≤ 15 }
    requires fills { 60 % size ≡ 0 }
    requires open { IsOpen size next }
    requires field { IsField field }
    requires within { size * next.place + next.filled + field.width ≤ size * 524288 }
    ensures put { IfOk result (λ after. IsPut size spans.old.items next field spans.new.items after) }
    ensures unchanged { OnErr result (spans.new.items ≡ spans.old.items) }
    ensures whole { OnErr result (size ≤ next.filled + field.width) }
{
    if size <= next.filled + field.width {
        return put_span(spans, next, size, field);
    }
    Ok(OpenParcel {
        place: next.place,
        filled: next.filled + field.width,
        bits: joined_bits(next, field.width, field.bits),
    })
}

/// How many bits a parcel has; a peripheral word is one parcel.
pub(crate) fn parcel_bits(kind: DeckKind) -> u32
    ensures size { result ≡ unit_bits kind }
    ensures some { 0 < result }
    ensures short { result ≤ 15 }
    ensures fills { 60 % result ≡ 0 }
{
    match kind {
        DeckKind::Periph => 12,
        DeckKind::Rel | DeckKind::Abs => 15,
    }
}

/// The open parcel once the next bit is put at this place, in bits of the block.
pub(crate) fn moved_to(next: OpenParcel, size: u32, at: u32) -> OpenParcel
    requires { 0 < size }
    ensures { (spans : List Span) → run_of size spans result ≡ moved size at (run_of size spans next) }
{
    if next.filled == 0 {
        return OpenParcel {
            place: at / size,
            filled: 0,
            bits: next.bits,
        };
    }
    next
}
