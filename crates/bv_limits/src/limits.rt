//! The first limit of a file.

ghost use Rattle.std.specs.Prelude.{◌≡◌, IfOk, List, length};
ghost use Rattle.bv_grammar.specs.declared.words.Terminal.{Terminal};
ghost use Rattle.bv_grammar.specs.Derivation.{IsSyntaxFault};
ghost use Rattle.bv_grammar.specs.Taking.{AreTaken};
ghost use Rattle.bv_trees.specs.Trees.{Goal};
ghost use Rattle.bv_trees.specs.Codes.{goal_pieces};
ghost use Rattle.bv_limits.specs.Choosing as spec;
ghost use Rattle.bv_limits.specs.Files.{IsLeast, IsMetIn};
ghost use Rattle.bv_limits.specs.Limits.{IsCountedLimit, IsLimit};
ghost use Rattle.bv_limits.specs.Limits as limits;

use crate::depths::{first_deep_term, least_deep};
use crate::laws::pieces_hold_terms;
use crate::plain::{Met, first_plain_limit};
use crate::variables::first_variable_limit;
use bv_grammar::Taken;
use bv_lex::{Token, What};
use bv_trees::{Piece, complete_pieces};
use std::alloc::{AllocError, Global};

/// The first limit of a whole file, whose tokens are taken so and whose goals have these pieces: of those that counts tell, and
/// that on the depth of terms. Of several at one token that is told which stands first in `What`. The error is want of memory
/// alone. Takes time linear in the file.
pub fn first_limit(
    alloc: Global,
    tokens: &[Token],
    taken: &[Taken],
    pieces: &[Piece],
) -> Result<Option<Met>, AllocError>
    ensures { IfOk result (λ met. (ts : List Terminal) (gs : List Goal) → AreTaken ts taken.now → length taken.now ≡ length ts → pieces.now ≡ goal_pieces gs → IsLeast (IsMetIn tokens.now ts gs) met) }
{
    pieces_hold_terms();
    let counted = first_counted_limit(tokens, taken);
    let deep = depth(first_deep_term(alloc, pieces)?);
    Ok(sooner(counted, deep))
}

/// The first limit of a file that is cut short behind these tokens, which are taken so: of those that counts tell, and that on
/// the depth of terms that are complete there. Of several at one token that is told which stands first in `What`. The error is
/// want of memory alone. Takes time linear in the file, and nothing recurses.
pub fn first_limit_before(
    alloc: Global,
    tokens: &[Token],
    taken: &[Taken],
) -> Result<Option<Met>, AllocError>
    ensures { IfOk result (λ met. (ts : List Terminal) → AreTaken ts taken.now → IsSyntaxFault ts (length taken.now) → IsLeast (IsLimit tokens.now ts (length taken.now)) met) }
{
    let counted = first_counted_limit(tokens, taken);
    let pieces = complete_pieces(alloc, taken)?;
    let deep = depth(least_deep(alloc, &pieces)?);
    Ok(sooner(counted, deep))
}

/// The first limit that counts tell, where the tokens are taken so: those of `first_plain_limit`, and the 65th variable of a
/// goal. Of several at one token that is told which stands first in `What`. Takes time linear in the number of tokens.
pub fn first_counted_limit(tokens: &[Token], taken: &[Taken]) -> Option<Met>
    ensures { (ts : List Terminal) → AreTaken ts taken.now → IsLeast (IsCountedLimit tokens.now ts (length taken.now)) result }
{
    let plain = first_plain_limit(tokens, taken);
    let variable = variable(first_variable_limit(taken));
    sooner(plain, variable)
}

fn depth(found: Option<usize>) -> Option<Met>
    ensures { result ≡ spec.depth found }
{
    match found {
        Some(at) => Some(Met {
            what: What::Depth,
            at,
        }),
        None => None,
    }
}

fn variable(found: Option<usize>) -> Option<Met>
    ensures { result ≡ spec.variable found }
{
    match found {
        Some(at) => Some(Met {
            what: What::Variables,
            at,
        }),
        None => None,
    }
}

/// Of two limits the one that is answered.
fn sooner(left: Option<Met>, right: Option<Met>) -> Option<Met>
    ensures { result ≡ spec.sooner left right }
{
    match (left, right) {
        (None, _) => right,
        (_, None) => left,
        (Some(first), Some(second)) => {
            if is_before(first, second) {
                left
            } else {
                right
            }
        }
    }
}

fn is_before(left: Met, right: Met) -> bool
    ensures { result ≡ spec.is_before left right }
{
    left.at < right.at || (left.at == right.at && rank(left.what) <= rank(right.what))
}

/// The order in which limits at one token are answered.
fn rank(what: What) -> u8
    ensures { result ≡ limits.rank what }
{
    match what {
        What::Number => 0,
        What::Width => 1,
        What::Depth => 2,
        What::Nodes => 3,
        What::Variables => 4,
        What::Goals => 5,
    }
}
