//! Why a run stops early.
ghost use Rattle.bvd_top.specs.declared.stop.Stop.TheVariants.{Memory};
ghost use Rattle.std.specs.Prelude.{◌≡◌};

use std::alloc::AllocError;

/// Why a run stops early: a device failed, or memory is wanting.
#[derive(Clone, Copy, Debug, PartialEq, Eq)]
pub enum Stop {
    Device,
    Memory,
}

impl From<AllocError> for Stop {
    ghost from_gives = { λ _ e. e ≡ Memory };

    fn from(_: AllocError) -> Self {
        Stop::Memory
    }
}
