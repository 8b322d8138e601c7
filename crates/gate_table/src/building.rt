//! Building by a seat.

ghost use Rattle.std.specs.Prelude.{◌≡◌, ◌↔◌, ◌+◌, ◌*◌, [], Err};
ghost use Rattle.gate_shape.specs.Row.{both};
ghost use Rattle.gate_shape.specs.Builds.{Known, edge, Stands, Builds, OneEach, TooDeep, NoRoom};
ghost use Rattle.gate_shape.specs.Listed.{Writes};
ghost use Rattle.gate_shape.specs.declared.builder.GateStop.TheVariants.{Deep, Full};
ghost use Rattle.gate_probe.specs.Sound.{IsWithin};
ghost use Rattle.gate_table.specs.Seats.{known_by, IsCounted};
ghost use Rattle.gate_table.specs.Answers.{no_note, IsAnswered};
ghost use Rattle.gate_table.specs.Building.{seat_of, name_of, known_to};

use crate::builder::SeatBuilder;
use crate::seats::{GateSeat, GateTable};
use gate_shape::{Builder, GateStop, Lit23};

impl<'a> SeatBuilder<'a> {
    /// A builder by which the seat learns. O(1).
    pub fn new(table: &'a GateTable, seat: &'a mut GateSeat) -> SeatBuilder<'a>
        requires { seat.old.table ≡ table.now }
        ensures seat { seat_of result ≡ seat.old }
        ensures name { name_of result ≡ seat.entry.ghost_name }
    {
        SeatBuilder { table, seat }
    }
}

impl<'a> Builder for SeatBuilder<'a> {
    ghost meaning = { known_to };

    ghost noted = { no_note };

    /// The conjunction of two known literals, as the table's own call makes it: the literal of its gate,
    /// whichever threads built it. It is Deep exactly where the gate's level would be 262,144, and Full
    /// only where the seat has then seen all n words and none of them is the gate's. What was known stays
    /// known, with its edges. It takes at most a load for each fanin that is a gate, then a load and a
    /// claim for each word of the table; a simple pair leaves the seat as it was. It takes no memory.
    fn and(&mut self, a: Lit23, b: Lit23) -> Result<Lit23, GateStop>
        requires left { Known (known_to self.old) a }
        requires right { Known (known_to self.old) b }
        ensures built { Builds no_note Stands (known_to self.old) (known_to self.new) result (both (edge (known_to self.old) a) (edge (known_to self.old) b)) }
        ensures once { OneEach (known_to self.new) }
        ensures deep { (result ≡ Err Deep) ↔ Writes (both (edge (known_by (seat_of self.old)) a) (edge (known_by (seat_of self.old)) b)) TooDeep }
        ensures full { result ≡ Err Full → Writes (both (edge (known_by (seat_of self.old)) a) (edge (known_by (seat_of self.old)) b)) (NoRoom (known_by (seat_of self.new))) }
        ensures answered { IsAnswered result }
        ensures table { (seat_of self.new).table ≡ (seat_of self.old).table }
        ensures seen { IsWithin (seat_of self.old).view.seen (seat_of self.new).view.seen }
        ensures counts { IsCounted (2 * (seat_of self.old).table.words + 2) (seat_of self.old) (seat_of self.new) }
        ensures simple { (both (edge (known_by (seat_of self.old)) a) (edge (known_by (seat_of self.old)) b)).gates ≡ [] → seat_of self.new ≡ seat_of self.old }
    {
        self.table.and(self.seat, a, b)
    }
}
