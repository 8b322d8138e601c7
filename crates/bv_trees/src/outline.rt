//! The pieces of a file's goals, from what its terminals are taken as.

ghost use Rattle.std.specs.Prelude.{◌≡◌, IfOk, length, slice_get};
ghost use Rattle.bv_trees.specs.Codes.{ArePieces};
ghost use Rattle.bv_trees.specs.Complete.{ArePiecesBefore};
ghost use Rattle.bv_trees.specs.Building as spec;

use crate::building::Builder;
use crate::pieces::Piece;
use bv_grammar::{Role, Taken};
use std::alloc::{AllocError, Global};

/// The pieces of the goals of a file whose terminals are taken so, where it is derived whole. The error is want of memory
/// alone. The time is linear in the number of terminals, and nothing recurses.
pub fn goal_pieces(alloc: Global, taken: &[Taken]) -> Result<Vec<Piece>, AllocError>
    ensures { IfOk result (λ ps. ArePieces taken.now ps.items) }
{
    let pieces = put_together(alloc, taken)?;
    Ok(pieces)
}

fn put_together(alloc: Global, taken: &[Taken]) -> Result<Vec<Piece>, AllocError>
    ensures { IfOk result (λ ps. ps.items ≡ (spec.run taken.now (length taken.now)).pieces) }
{
    let builder = built(alloc, taken)?;
    Ok(builder.into_pieces())
}

/// The pieces of what is complete behind terminals that are taken so, where the next one can't stand. The error is want of
/// memory alone. The time is linear in the number of terminals, and nothing recurses.
pub fn complete_pieces(alloc: Global, taken: &[Taken]) -> Result<Vec<Piece>, AllocError>
    ensures { IfOk result (λ ps. ArePiecesBefore taken.now ps.items) }
{
    let pieces = put_together_before(alloc, taken)?;
    Ok(pieces)
}

fn put_together_before(alloc: Global, taken: &[Taken]) -> Result<Vec<Piece>, AllocError>
    ensures { IfOk result (λ ps. ps.items ≡ spec.complete_pieces taken.now) }
{
    let mut builder = built(alloc, taken)?;
    builder.end(role_at(taken, taken.len().saturating_sub(1)))?;
    Ok(builder.into_pieces())
}

fn built(alloc: Global, taken: &[Taken]) -> Result<Builder, AllocError>
    ensures { IfOk result (λ b. b ≡ spec.run taken.now (length taken.now)) }
{
    let mut builder = Builder::new(alloc);
    let mut at = 0;
    while at < taken.len() {
        builder.take(at, taken[at], role_at(taken, at + 1))?;
        at += 1;
    }
    Ok(builder)
}

/// What the terminal at a place is taken as.
fn role_at(taken: &[Taken], at: usize) -> Option<Role>
    ensures { result ≡ spec.role_of (slice_get taken.now at) }
{
    match taken.get(at) {
        Some(found) => Some(found.role),
        None => None,
    }
}
