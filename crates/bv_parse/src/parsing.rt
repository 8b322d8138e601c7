//! A file from its bytes to its goals or its one fault, step by step: tokens, terminals, what takes each of them, the pieces of
//! the goals, limits, and types. Each step that refuses says where.

ghost use Rattle.std.specs.Prelude.{◌≡◌, ◌≤◌, ◌⊎◌, All, IfErr, IfOk, IsUtf8, List, length, map};
ghost use Rattle.bv_lex.specs.Cut.{AreTokens, IsMemory, IsSpanWithin};
ghost use Rattle.bv_grammar.specs.Taking.{AreTaken, EndsAt};
ghost use Rattle.bv_trees.specs.Trees.{Goal as GoalTree};
ghost use Rattle.bv_trees.specs.Codes.{goal_pieces};
ghost use Rattle.bv_expr.specs.Statement.{statement_of};
ghost use Rattle.bv_parse.specs.Answers.{IsAnswer};
ghost use Rattle.bv_parse.specs.Reads.{HasGoals, IsFaultOf, IsWithinLimits, Outlines, ReadsAs, terminals_of};

use crate::faults::{cut_short, fault_at, limit};
use bv_expr::Goal;
use bv_grammar::{End, Reading, Taken, Terminal, read};
use bv_lex::{Fault, Token, lex};
use bv_limits::first_limit;
use bv_terminals::terminals;
use bv_terms::{TypeStop, typed_goals};
use bv_trees::{Piece, goal_pieces, whole_files_have_one_reading};
use std::alloc::Global;

/// The goals of a file of at most 4,194,304 bytes, 1,024 at most; or its one fault:
///
/// - `Lex` and `Limit(Number)` where the bytes aren't tokens, at the first place where they aren't;
/// - `Syntax` at the first token that no partial derivation reaches, or at the end;
/// - `Limit` at the first token that meets a limit; of `Syntax` and the limits the one at the least token is answered;
/// - only where none of these is met `Typing`, or `Limit(Width)` at an operator or a method whose result is too wide, at the
///   least token.
///
/// `Memory` may come at any time, and its place says nothing. Takes time linear in the file, but for the names of a goal's
/// variables, which are looked up among them; nothing recurses, and memory is taken by what the file holds.
pub fn parse(alloc: Global, bytes: &[u8]) -> Result<Vec<Goal>, Fault>
    requires { length bytes.now ≤ 4194304 }
    ensures goals { IfOk result (λ goals. ReadsAs bytes.now (map statement_of goals.items)) }
    ensures few { IfOk result (λ goals. length goals.items ≤ 1024) }
    ensures fault { IfErr result (λ f. IsMemory f.kind ⊎ IsFaultOf bytes.now f) }
{
    answer(alloc, bytes)
}

fn answer(alloc: Global, bytes: &[u8]) -> Result<Vec<Goal>, Fault>
    requires { length bytes.now ≤ 4194304 }
    ensures { IsAnswer bytes.now result }
{
    match lex(alloc, bytes) {
        Ok(tokens) => of_tokens(alloc, bytes, &tokens),
        Err(fault) => Err(fault),
    }
}

/// Of a file with these tokens.
fn of_tokens(alloc: Global, bytes: &[u8], tokens: &[Token]) -> Result<Vec<Goal>, Fault>
    requires size { length bytes.now ≤ 4194304 }
    requires text { IsUtf8 bytes.now }
    requires spans { All (IsSpanWithin (length bytes.now)) tokens.now }
    requires cut { AreTokens bytes.now tokens.now }
    ensures { IsAnswer bytes.now result }
{
    let terminals = terminals(alloc, bytes, tokens)?;
    let Reading { taken, end } = read(alloc, &terminals)?;
    of_reading(alloc, bytes, tokens, &terminals, &taken, end)
}

/// Of a file whose tokens are these terminals, of which these are reached.
fn of_reading(
    alloc: Global,
    bytes: &[u8],
    tokens: &[Token],
    terminals: &[Terminal],
    taken: &[Taken],
    end: End,
) -> Result<Vec<Goal>, Fault>
    requires size { length bytes.now ≤ 4194304 }
    requires text { IsUtf8 bytes.now }
    requires spans { All (IsSpanWithin (length bytes.now)) tokens.now }
    requires cut { AreTokens bytes.now tokens.now }
    requires terminals { terminals.now ≡ terminals_of bytes.now tokens.now }
    requires taken { AreTaken terminals.now taken.now }
    requires end { EndsAt terminals.now (length taken.now) end }
    ensures { IsAnswer bytes.now result }
{
    let _number = terminals.len();
    whole_files_have_one_reading();
    match end {
        End::Fault => Err(cut_short(alloc, bytes, tokens, taken)?),
        End::Whole => whole(alloc, bytes, tokens, taken),
    }
}

/// The goals of a whole file whose tokens are taken so, where it is within the limits and its types fit.
fn whole(alloc: Global, bytes: &[u8], tokens: &[Token], taken: &[Taken]) -> Result<Vec<Goal>, Fault>
    requires size { length bytes.now ≤ 4194304 }
    requires text { IsUtf8 bytes.now }
    requires spans { All (IsSpanWithin (length bytes.now)) tokens.now }
    requires goals { HasGoals bytes.now tokens.now }
    requires taken { AreTaken (terminals_of bytes.now tokens.now) taken.now }
    requires all { length taken.now ≡ length (terminals_of bytes.now tokens.now) }
    ensures { IsAnswer bytes.now result }
{
    let pieces = goal_pieces(alloc, taken)?;
    match first_limit(alloc, tokens, taken, &pieces)? {
        Some(met) => Err(limit(met, bytes, tokens)),
        None => typed(alloc, bytes, tokens, &pieces),
    }
}

/// The goals of a whole file within the limits, where their types fit.
fn typed(
    alloc: Global,
    bytes: &[u8],
    tokens: &[Token],
    pieces: &[Piece],
) -> Result<Vec<Goal>, Fault>
    requires size { length bytes.now ≤ 4194304 }
    requires text { IsUtf8 bytes.now }
    requires spans { All (IsSpanWithin (length bytes.now)) tokens.now }
    requires goals { (gs : List GoalTree) × Outlines bytes.now tokens.now gs × IsWithinLimits bytes.now tokens.now gs × (length gs ≤ 1024) × (pieces.now ≡ goal_pieces gs) }
    ensures { IsAnswer bytes.now result }
{
    match typed_goals(alloc, bytes, tokens, pieces) {
        Ok(goals) => Ok(goals),
        Err(TypeStop::Misfit(misfit)) => Err(fault_at(misfit.kind, bytes, tokens, misfit.at)),
        Err(TypeStop::Memory(error)) => Err(Fault::from(error)),
    }
}
