//! What the goals of a file state, or the one fault of its types. Goals are read one by one: the pieces of each are judged, and
//! while no fault is found, its terms are built. Behind a fault the others are judged alone, since one of theirs may stand at a
//! lesser place.

ghost use Rattle.std.specs.Prelude.{◌≡◌, ◌++◌, ◌∷◌, [], All, IfErr, IfOk, IsUtf8, List, None, Some, length, map, option_map, reverse};
ghost use Rattle.bv_lex.specs.Cut.{AreTokens, IsSpanWithin};
ghost use Rattle.bv_trees.specs.Codes.{goal_pieces};
ghost use Rattle.bv_trees.specs.Trees.{Goal as GoalTree};
ghost use Rattle.bv_expr.specs.Term.{Term};
ghost use Rattle.bv_expr.specs.Statement.{statement_of};
ghost use Rattle.bv_typing.specs.declared.misfit.Misfit.{Misfit as MisfitOf};
ghost use Rattle.bv_typing.specs.declared.item.Item.TheVariants.{Made};
ghost use Rattle.bv_typing.specs.Source.{quoted_at, source};
ghost use Rattle.bv_typing.specs.Earliest.{also};
ghost use Rattle.bv_typing.specs.Goals.{States, file_misfits, goal_misfits, least, statement};
ghost use Rattle.bv_terms.specs.declared.goals.TypeStop.TheVariants as stops;
ghost use Rattle.bv_terms.specs.Goals.{AreOfGoal, AreOfGoals, AreOfTyped, AreTexts, IsJudged, made};

use crate::building::{Built, build};
use crate::entry::Entry;
use crate::widths::find_widths;
use bv_expr::{Expr, Goal, Name};
use bv_lex::Token;
use bv_trees::Piece;
use bv_typing::{
    File, Judgement, Misfit, binders, earliest, goal_end, goal_name, judge, quoted_name,
};
use sqlite_items::Items;
use std::alloc::{AllocError, Global};

/// Why a file states no goals.
#[derive(Clone, Copy, Debug, PartialEq, Eq)]
pub enum TypeStop {
    /// The one fault of its types.
    Misfit(Misfit),
    /// There was no memory.
    Memory(AllocError),
}

impl From<AllocError> for TypeStop {
    ghost use Rattle.std.specs.Prelude.{◌≡◌};
    ghost use Rattle.bv_terms.specs.declared.goals.TypeStop.TheVariants.{Memory};

    ghost from_gives = { λ error stop. stop ≡ Memory error };

    fn from(error: AllocError) -> TypeStop {
        TypeStop::Memory(error)
    }
}

/// What the goals of a file with these bytes and tokens state, where they have these pieces; or the one fault of its types: the
/// one at the least place. `Memory` may come at any time. Takes time linear in the number of pieces, but for the look-up of
/// names, which takes time linear in the number of a goal's variables, and nothing recurses.
pub fn typed_goals(
    alloc: Global,
    bytes: &[u8],
    tokens: &[Token],
    pieces: &[Piece],
) -> Result<Vec<Goal>, TypeStop>
    requires spans { All (IsSpanWithin (length bytes.now)) tokens.now }
    requires cut { AreTokens bytes.now tokens.now }
    requires text { IsUtf8 bytes.now }
    requires pieces { AreOfGoals pieces.now }
    ensures goals { IfOk result (λ goals. (gs : List GoalTree) → pieces.now ≡ goal_pieces gs → States (source bytes.now tokens.now) gs (map statement_of goals.items)) }
    ensures misfit { IfErr result (λ stop. (m : MisfitOf) → stop ≡ stops.Misfit m → (gs : List GoalTree) → pieces.now ≡ goal_pieces gs → least (file_misfits (source bytes.now tokens.now) gs) ≡ Some m) }
{
    let file = File::new(bytes, tokens);
    let mut goals = Vec::new(alloc);
    match add_goals(alloc, &file, pieces, &mut goals)? {
        Some(misfit) => Err(TypeStop::Misfit(misfit)),
        None => Ok(goals),
    }
}

/// Adds what goals with these pieces state, unless their types have a fault: then it's that at the least place.
fn add_goals(
    alloc: Global,
    file: &File<'_>,
    pieces: &[Piece],
    goals: &mut Vec<Goal>,
) -> Result<Option<Misfit>, AllocError>
    requires texts { AreTexts file.now }
    requires pieces { AreOfGoals pieces.now }
    ensures found { IfOk result (λ m. (gs : List GoalTree) → pieces.now ≡ goal_pieces gs → m ≡ least (file_misfits file.now gs)) }
    ensures added { IfOk result (λ m. m ≡ None → (gs : List GoalTree) → pieces.now ≡ goal_pieces gs → map statement_of goals.new.items ≡ map statement_of goals.old.items ++ map (statement file.now) gs) }
{
    let mut found = None;
    let mut rest = pieces;
    'goals: while !rest.is_empty() {
        let (goal, others) = rest.split_at(goal_end(rest));
        found = add_goal(alloc, file, goal, found, goals)?;
        rest = others;
    }
    Ok(found)
}

/// Adds what a goal with these pieces states, unless a fault was found or its types have one: then it's that at the lesser place.
fn add_goal(
    alloc: Global,
    file: &File<'_>,
    pieces: &[Piece],
    found: Option<Misfit>,
    goals: &mut Vec<Goal>,
) -> Result<Option<Misfit>, AllocError>
    requires texts { AreTexts file.now }
    requires goal { AreOfGoal pieces.now }
    ensures found { IfOk result (λ m. (g : GoalTree) → pieces.now ≡ goal_pieces (g ∷ []) → m ≡ also found (least (goal_misfits file.now g))) }
    ensures added { IfOk result (λ m. m ≡ None → (g : GoalTree) → pieces.now ≡ goal_pieces (g ∷ []) → map statement_of goals.new.items ≡ map statement_of goals.old.items ++ statement file.now g ∷ []) }
{
    let judgement = judge(alloc, file, pieces)?;
    match earliest(found, judgement.misfit) {
        Some(misfit) => Ok(Some(misfit)),
        None => {
            add_typed(alloc, file, pieces, &judgement, goals)?;
            Ok(None)
        }
    }
}

/// Adds what a goal with these pieces states, whose types fit.
fn add_typed(
    alloc: Global,
    file: &File<'_>,
    pieces: &[Piece],
    judgement: &Judgement,
    goals: &mut Vec<Goal>,
) -> Result<(), AllocError>
    requires texts { AreTexts file.now }
    requires goal { AreOfTyped file.now pieces.now }
    requires judged { IsJudged file.now pieces.now judgement.now }
    ensures { IfOk result (λ _. (g : GoalTree) → pieces.now ≡ goal_pieces (g ∷ []) → map statement_of goals.new.items ≡ map statement_of goals.old.items ++ statement file.now g ∷ []) }
{
    let goal = goal_of(alloc, file, pieces, judgement)?;
    goals.push(goal)?;
    Ok(())
}

/// What a goal with these pieces states, whose types fit.
fn goal_of(
    alloc: Global,
    file: &File<'_>,
    pieces: &[Piece],
    judgement: &Judgement,
) -> Result<Goal, AllocError>
    requires texts { AreTexts file.now }
    requires goal { AreOfTyped file.now pieces.now }
    requires judged { IsJudged file.now pieces.now judgement.now }
    ensures { IfOk result (λ goal. (g : GoalTree) → pieces.now ≡ goal_pieces (g ∷ []) → statement_of goal ≡ statement file.now g) }
{
    let (head, path) = head_of(pieces);
    let name = goal_name(alloc, file, head, path)?;
    let stored = stored_name(alloc, file, string_of(pieces))?;
    let binders = binders(alloc, file, &judgement.bindings)?;
    let (hyps, concl) = terms_of(alloc, file, pieces, judgement)?;
    Ok(Goal::new(name, binders, hyps, concl, stored))
}

/// The place of a goal's head word, and the one up to which its name stands.
fn head_of(pieces: &[Piece]) -> (usize, usize)
    ensures { (g : GoalTree) → pieces.now ≡ goal_pieces (g ∷ []) → result ≡ (g.head, g.path) }
{
    match pieces.first() {
        Some(Piece::Goal(head, path)) => (*head, *path),
        _ => (0, 0),
    }
}

/// The place of the string of a goal's certificate.
fn string_of(pieces: &[Piece]) -> Option<usize>
    ensures { (g : GoalTree) → pieces.now ≡ goal_pieces (g ∷ []) → result ≡ g.stored }
{
    match pieces.last() {
        Some(Piece::Proof(string)) => *string,
        _ => None,
    }
}

/// The file of a goal's certificate.
fn stored_name(
    alloc: Global,
    file: &File<'_>,
    string: Option<usize>,
) -> Result<Option<Name>, AllocError>
    requires { AreTexts file.now }
    ensures { IfOk result (λ name. name ≡ option_map (quoted_at file.now) string) }
{
    match string {
        Some(at) => {
            let name = quoted_name(alloc, file, at)?;
            Ok(Some(name))
        }
        None => Ok(None),
    }
}

/// The hypotheses and the conclusion of a goal whose types fit.
fn terms_of(
    alloc: Global,
    file: &File<'_>,
    pieces: &[Piece],
    judgement: &Judgement,
) -> Result<(Items<Expr>, Expr), AllocError>
    requires goal { AreOfTyped file.now pieces.now }
    requires judged { IsJudged file.now pieces.now judgement.now }
    ensures { IfOk result (λ terms. (g : GoalTree) → pieces.now ≡ goal_pieces (g ∷ []) → (terms.0 ≡ (statement file.now g).hyps) × (terms.1 ≡ (statement file.now g).concl)) }
{
    let widths = find_widths(alloc, pieces, &judgement.notes)?;
    match build(alloc, file, &judgement.bindings, pieces, widths)? {
        Some(built) => parted(alloc, built),
        None => unreachable!(),
    }
}

/// The terms on a stack: those below, the lowest first, and the topmost.
fn parted(alloc: Global, built: Built) -> Result<(Items<Expr>, Expr), AllocError>
    requires { (ts : List Term) × (t : Term) × (built ≡ made (t ∷ ts)) }
    ensures { IfOk result (λ terms. built ≡ made (terms.1 ∷ reverse terms.0)) }
{
    let mut terms = lowest_first(alloc, built)?;
    match terms.pop() {
        Some(topmost) => Ok((Items::from_vec(terms), topmost)),
        None => unreachable!(),
    }
}

/// The terms on a stack, the lowest first.
fn lowest_first(alloc: Global, mut built: Built) -> Result<Vec<Expr>, AllocError>
    requires { (ts : List Term) × (built ≡ made ts) }
    ensures { IfOk result (λ terms. built ≡ made (reverse terms.items)) }
{
    let mut terms = Vec::new(alloc);
    'items: while let Some(entry) = built.pop() {
        push_term(entry, &mut terms)?;
    }
    terms.reverse();
    Ok(terms)
}

fn push_term(entry: Entry, terms: &mut Vec<Expr>) -> Result<(), AllocError>
    requires { (t : Term) × (entry ≡ Made t) }
    ensures { IfOk result (λ _. made terms.new.items ≡ made terms.old.items ++ entry ∷ []) }
{
    match entry.into_term() {
        Ok(term) => {
            terms.push(Box::into_inner(term))?;
            Ok(())
        }
        Err(_) => unreachable!(),
    }
}
