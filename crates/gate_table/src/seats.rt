//! The table and its seats.

ghost use Rattle.gate_shape.specs.Builds.{OneEach};
ghost use Rattle.gate_probe.specs.Sound.{IsPart};
ghost use Rattle.gate_table.specs.Seats.{known_by, IsBelow};

use crate::rule::SoundWords;
use atomic_table::{Seat, Table};
use gate_probe::View;
use std::alloc::Global;
use std::marker::Model;

/// A table of 1 to 4,000,000 gate words of 8 bytes, which threads share by `&`. It holds each gate
/// once, whichever threads asked for it, and no gate is removed. Its calls take no lock and never wait.
#[derive(Drop)]
pub struct GateTable {
    pub(crate) table: Table<(), View, u32, SoundWords, Global>,
    pub(crate) size: u32,
}

impl Model for GateTable {
    ghost use Rattle.std.specs.Prelude.{◌≡◌, ◌≤◌};
    ghost use Rattle.atomic_table.specs.Seated.{TableId};

    ghost Value = { TableId };

    ghost view = { λ t. t.table.shared.table_id };

    ghost invariant = { λ t. (t.table.shared.key ≡ t.size) × (t.table.shared.table_id.words ≡ t.size) × (1 ≤ t.size) × (t.size ≤ 4000000) };
}

/// What one thread knows of a table. It has no bytes: what it knows is of contracts alone.
#[derive(Drop)]
pub struct GateSeat {
    pub(crate) seat: Seat<(), View>,
}

impl Model for GateSeat {
    ghost use Rattle.std.specs.Prelude.{◌≡◌, []};
    ghost use Rattle.gate_probe.specs.Sound.{IsPart};
    ghost use Rattle.gate_table.specs.Seats.{SeatState, IsBelow};

    ghost Value = { SeatState };

    ghost view = { λ s. record { table = s.seat.table_id; view = s.seat.me.0 } };

    ghost invariant = { λ s. IsPart s.seat.me.0.seen × IsBelow s.seat.table_id.words s.seat.me.0.seen × (s.seat.me.1 ≡ []) };
}

impl GateSeat {
    /// What a seat has seen is a part of sound words, at places of its table, and of the literals that it
    /// knows no two stand for one edge. Nothing is done.
    pub fn keeps(&self)
        ensures part { IsPart self.now.view.seen }
        ensures below { IsBelow self.now.table.words self.now.view.seen }
        ensures once { OneEach (known_by self.now) }
    {
        let _seat = &self.seat;
    }
}
