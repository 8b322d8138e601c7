//! What makes gates: the trait that every circuit is written against, and why a gate was not made.

ghost use Rattle.std.specs.Prelude.{List, Bool};
ghost use Rattle.gate_shape.specs.Edge.{Gate};
ghost use Rattle.gate_shape.specs.Row.{both};
ghost use Rattle.gate_shape.specs.Builds.{Meaning, Noting, Known, edge, Stands, Builds, OneEach};

use crate::lit::Lit23;
use std::alloc::AllocError;

/// Why a gate was not made.
#[derive(Debug, Drop)]
pub enum GateStop {
    /// The gate's level would be 262,144.
    Deep,
    /// The builder is filled and has no such gate.
    Full,
    /// Want of memory.
    Memory(AllocError),
}

impl From<AllocError> for GateStop {
    ghost use Rattle.std.specs.Prelude.{◌≡◌};
    ghost use Rattle.gate_shape.specs.declared.builder.GateStop.TheVariants.{Memory};

    ghost from_gives = { λ e s. s ≡ Memory e };

    fn from(error: AllocError) -> GateStop {
        GateStop::Memory(error)
    }
}

/// What makes gates, each pair of edges once.
pub trait Builder {
    ghost meaning: { Self → Meaning };

    ghost noted: { Noting };

    /// The conjunction of two known literals.
    fn and(&mut self, a: Lit23, b: Lit23) -> Result<Lit23, GateStop>
        requires left { Known (meaning self.old) a }
        requires right { Known (meaning self.old) b }
        ensures built { Builds noted Stands (meaning self.old) (meaning self.new) result (both (edge (meaning self.old) a) (edge (meaning self.old) b)) }
        ensures once { OneEach (meaning self.new) };
}
