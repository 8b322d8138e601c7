//! The rule of the table, and what each kind of step tells the seat that takes it.

use atomic_table::{Join, Play, Split, TableRule};
use gate_probe::View;

/// The words are sound, and each place that a seat has seen holds its word.
pub(crate) struct SoundWords;

impl TableRule<(), View, u32> for SoundWords {
    ghost use Rattle.std.specs.Prelude.{[]};
    ghost use Rattle.gate_probe.specs.Views.{view};
    ghost use Rattle.gate_table.specs.Plays.{IsTable};

    ghost holds = { IsTable };

    ghost first = { λ _. view [] 0 };
}

/// A load: the word found is seen.
pub(crate) struct Look;

impl Play<(), View> for Look {
    ghost use Rattle.gate_table.specs.Plays.{Looks};

    ghost then = { Looks };
}

/// A claim: the word written or found is seen.
pub(crate) struct Claim;

impl Play<(), View> for Claim {
    ghost use Rattle.gate_table.specs.Plays.{Claims};

    ghost then = { Claims };
}

/// The second half of a join: what lies beside is seen.
pub(crate) struct Merge;

impl Play<(), View> for Merge {
    ghost use Rattle.gate_table.specs.Plays.{Merges};

    ghost then = { Merges };
}

/// The new seat has seen what the old one has, and counts from 0.
pub(crate) struct Twin;

impl Split<View> for Twin {
    ghost use Rattle.gate_probe.specs.Views.{view};

    ghost left = { λ v. v };

    ghost right = { λ v. view v.seen 0 };
}

/// The first half of a join: what the other seat has seen lies beside.
pub(crate) struct Both;

impl Join<View> for Both {
    ghost use Rattle.std.specs.Prelude.{[]};
    ghost use Rattle.gate_probe.specs.Views.{view, both};

    ghost both = { both };

    ghost spent = { view [] 0 };
}
