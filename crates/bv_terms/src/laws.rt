//! Laws of the terms of typed trees. Each stands as the contract of a function that does nothing, so that the prover holds it
//! and callers can use it.

ghost use Rattle.std.specs.Prelude.{◌≡◌, ◌≤◌, ℕ, List, ◌++◌, Some};
ghost use Rattle.bv_trees.specs.Trees.{Tree};
ghost use Rattle.bv_trees.specs.Codes.{pieces};
ghost use Rattle.bv_trees.specs.declared.pieces.Piece.{Piece as PieceTree};
ghost use Rattle.bv_limits.specs.Depths.{depth as tree_depth};
ghost use Rattle.bv_expr.specs.Term.{depth};
ghost use Rattle.bv_typing.specs.declared.note.Note.{Note as NoteOf};
ghost use Rattle.bv_typing.specs.declared.kind.Kind.{Kind as KindOf};
ghost use Rattle.bv_typing.specs.Notes.{notes};
ghost use Rattle.bv_typing.specs.Stacks.{top};
ghost use Rattle.bv_terms.specs.Widths.{found, told, widths};
ghost use Rattle.bv_typing.specs.Readings.{Env, term, kind_of};
ghost use Rattle.bv_typing.specs.declared.item.Item.TheVariants.{Made};
ghost use Rattle.bv_terms.specs.Building.{checked};
ghost use Rattle.bv_terms.specs.Sorting.{Bounded, Readable, Sorts};

/// Going backward over the pieces of a tree, with a stack of the widths that pieces tell their parts, finds the width at which
/// each of them is read.
pub fn trees_are_read()
    ensures { (e : Env) (t : Tree) (w : ℕ) (ps : List PieceTree) (ns : List NoteOf) (ws : List ℕ) → top (told ps ns ws) ≡ w → found (pieces t ++ ps) (notes e t ++ ns) ws ≡ widths e w t ++ found ps ns ws }
{}

/// The term of a tree is at most as deep as the tree.
pub fn terms_are_shallow()
    ensures { (e : Env) (w : ℕ) (t : Tree) → depth (term e w t) ≤ tree_depth t }
{}

/// The term of a typed tree has the sort that its kind says; a bare one, and a numeral, that of the vectors of the width at
/// which it is read.
pub fn terms_are_sorted()
    ensures { (e : Env) → Bounded e → (t : Tree) (k : KindOf) → kind_of e t ≡ Some k → Sorts (λ v. term e v t) k }
{}

/// The term of a typed tree can be made: its sorts fit, and it is at most 1,000 deep.
pub fn terms_are_held()
    ensures { (e : Env) → Bounded e → (t : Tree) (k : KindOf) → kind_of e t ≡ Some k → (w : ℕ) → Readable w k → checked (term e w t) ≡ Some (Made (term e w t)) }
{}
