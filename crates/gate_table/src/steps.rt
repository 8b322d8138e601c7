//! Single steps on the table.

ghost use Rattle.std.specs.Prelude.{◌≡◌, ◌≢◌, ◌+◌, ◌<◌, ◌≤◌, [], IfOk};
ghost use Rattle.gate_shape.specs.Builds.{Keeps};
ghost use Rattle.gate_probe.specs.Sound.{IsWithin, MayClaim};
ghost use Rattle.gate_probe.specs.Views.{view, union};
ghost use Rattle.gate_table.specs.Plays.{Learns};
ghost use Rattle.gate_table.specs.Seats.{known_by};

use crate::rule::{Both, Claim, Look, Merge, Twin};
use crate::seats::{GateSeat, GateTable};
use atomic_table::Table;
use std::alloc::{AllocError, Global};

impl GateTable {
    /// A table of n empty words and its first seat, which has seen nothing. O(n), and the only call of
    /// the table that takes memory.
    pub fn new(alloc: Global, n: u32) -> Result<(GateTable, GateSeat), AllocError>
        requires { (1 ≤ n) × (n ≤ 4000000) }
        ensures { IfOk result (λ r. (r.0.words ≡ n) × (r.1.table ≡ r.0) × (r.1.view ≡ view [] 0)) }
    {
        let words = Vec::from_elem(alloc, 0u64, n as usize)?;
        let (table, seat) = Table::of_words(alloc, words.as_slice(), &n)?;
        Ok((GateTable { table, size: n }, GateSeat { seat }))
    }

    /// How many words the table has.
    pub fn size(&self) -> u32
        ensures value { result ≡ self.now.words }
        ensures small { (1 ≤ result) × (result ≤ 4000000) }
    {
        self.size
    }

    /// The word at a place.
    pub(crate) fn load(&self, seat: &mut GateSeat, place: u32) -> u64
        requires seat { seat.old.table ≡ self.now }
        requires place { place < self.now.words }
        ensures table { seat.new.table ≡ seat.old.table }
        ensures learns { Learns seat.old.view place result seat.new.view }
    {
        self.table
            .shared
            .load::<Look>(&mut seat.seat, place as usize)
    }

    /// Writes a word at a place that is still empty, and answers the word that is then there.
    pub(crate) fn claim(&self, seat: &mut GateSeat, place: u32, word: u64) -> u64
        requires seat { seat.old.table ≡ self.now }
        requires allowed { MayClaim self.now.words seat.old.view.seen word place }
        requires some { 0 < word }
        ensures table { seat.new.table ≡ seat.old.table }
        ensures learns { Learns seat.old.view place result seat.new.view }
        ensures there { result ≢ 0 }
    {
        let found = self
            .table
            .shared
            .compare_exchange::<Claim>(&mut seat.seat, place as usize, 0, word);
        if found == 0 { word } else { found }
    }

    /// A seat that has seen the same, with the number 0. O(1).
    pub fn split(&self, seat: &mut GateSeat) -> GateSeat
        requires { seat.old.table ≡ self.now }
        ensures new { (result.table ≡ self.now) × (result.view ≡ view seat.old.view.seen 0) }
        ensures same { seat.new ≡ seat.old }
    {
        let other = self.table.shared.split_seat::<Twin>(&mut seat.seat);
        GateSeat { seat: other }
    }

    /// The seat has then seen what either has seen, and counts the loads and claims of both. What
    /// either knew the seat knows. O(1).
    pub fn join(&self, seat: &mut GateSeat, other: GateSeat)
        requires seat { seat.old.table ≡ self.now }
        requires other { other.table ≡ self.now }
        ensures table { seat.new.table ≡ seat.old.table }
        ensures union { seat.new.view ≡ view (union seat.old.view.seen other.view.seen) (seat.old.view.steps + other.view.steps) }
        ensures seen { IsWithin seat.old.view.seen seat.new.view.seen × IsWithin other.view.seen seat.new.view.seen }
        ensures keeps { Keeps (known_by seat.old) (known_by seat.new) × Keeps (known_by other) (known_by seat.new) }
    {
        self.merge(seat, other);
        seat.keeps();
    }

    /// The seat has then seen what either has seen.
    fn merge(&self, seat: &mut GateSeat, other: GateSeat)
        requires seat { seat.old.table ≡ self.now }
        requires other { other.table ≡ self.now }
        ensures table { seat.new.table ≡ seat.old.table }
        ensures union { seat.new.view ≡ view (union seat.old.view.seen other.view.seen) (seat.old.view.steps + other.view.steps) }
        ensures seen { IsWithin seat.old.view.seen seat.new.view.seen × IsWithin other.view.seen seat.new.view.seen }
    {
        self.table
            .shared
            .join_seat::<Both>(&mut seat.seat, other.seat);
        self.table.shared.load::<Merge>(&mut seat.seat, 0);
    }
}
