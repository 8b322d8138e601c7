//! A law of the definitions. It stands as the contract of a function that does nothing, so that the prover holds it and callers can use it.

ghost use Rattle.std.specs.Prelude.{ℕ, List};
ghost use Rattle.bv_lex.specs.Laws.{OneCut};

/// Bytes have one cut: at most one list of tokens, or one fault with its place.
pub fn one_cut()
    ensures { (bytes : List ℕ) → OneCut bytes }
{}
