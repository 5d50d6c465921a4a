//! How many statements each piece of a record has.
ghost use Rattle.std.specs.Prelude.{◌≡◌, map, IfOk};
ghost use Rattle.edit_core.specs.Records.{piece_counts};

use deck_assembler::Piece;
use std::alloc::{AllocError, Global};

/// The number of statements of each of these pieces.
pub(crate) fn piece_counts(alloc: Global, pieces: &[Piece]) -> Result<Vec<u32>, AllocError>
    ensures { IfOk result (λ counts. counts.items ≡ piece_counts pieces.now) }
{
    let mut counts = Vec::with_capacity(alloc, pieces.len())?;
    for piece in pieces {
        counts.push(piece.statements().len() as u32)?;
    }
    Ok(counts)
}
