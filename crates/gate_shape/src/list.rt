//! The plain builder: a list of gates for one thread, each gate once.

ghost use Rattle.std.specs.Prelude.{◌≡◌, ◌≤◌, ◌<◌, ◌+◌, ◌-◌, ◌∷◌, ◌↔◌, [], Err, OnErr, length};
ghost use Rattle.gate_shape.specs.Word.{key_less};
ghost use Rattle.gate_shape.specs.Edge.{level, gate_level, gate_edge};
ghost use Rattle.gate_shape.specs.Row.{both};
ghost use Rattle.gate_shape.specs.Builds.{Known, edge, Stands, Builds, OneEach, TooDeep, NoRoom};
ghost use Rattle.gate_shape.specs.Listed.{listed, gates_of, gate_of, note_new, Writes, Conjoined};
ghost use Rattle.gate_shape.specs.declared.builder.GateStop.TheVariants.{Deep, Full};

use crate::builder::{Builder, GateStop};
use crate::gates::Gates;
use crate::lit::Lit23;
use crate::word::{key, simple};
use std::alloc::Global;
use std::marker::Model;

/// The plain builder: the list of the gates in the order in which they were made, with an ordered
/// map from the fanins of each to its place. Entry s is node 8193 + s. A gate costs O(log n).
#[derive(Drop)]
pub struct ListBuilder {
    limit: u32,
    gates: Gates,
}

impl Model for ListBuilder {
    ghost use Rattle.std.specs.Prelude.{map};
    ghost use Rattle.gate_shape.specs.Listed.{Listed, IsListed};

    ghost Value = { Listed };

    ghost view = { λ a. record { limit = a.limit; pairs = map (λ e. (e.left, e.right)) a.gates } };

    ghost invariant = { λ a. IsListed a.limit (map (λ e. (e.left, e.right)) a.gates) (map (λ e. e.level) a.gates) };
}

/// Whether the first key is less than the second.
fn before(a: (u32, u32), b: (u32, u32)) -> bool
    ensures { result ≡ key_less a b }
{
    a.0 < b.0 || (a.0 == b.0 && a.1 < b.1)
}

impl ListBuilder {
    /// A builder without gates, for 1 to 4,000,000 of them. O(1): it takes no memory yet.
    pub fn new(alloc: Global, limit: u32) -> ListBuilder
        requires low { 1 ≤ limit }
        requires high { limit ≤ 4000000 }
        ensures { result ≡ record { limit = limit; pairs = [] } }
    {
        ListBuilder {
            limit,
            gates: Gates::new(alloc),
        }
    }

    /// How many gates the list holds, which is never more than its limit.
    pub fn len(&self) -> u32
        ensures count { result ≡ length (listed self.now).trace }
        ensures within { result ≤ self.now.limit }
    {
        let _limit = &self.limit;
        self.gates.len()
    }

    /// The level of a known literal.
    fn level(&self, lit: Lit23) -> u32
        requires { Known (listed self.now) lit }
        ensures value { result ≡ level (edge (listed self.now) lit) }
        ensures small { result < 262144 }
    {
        if lit.node() < 8193 {
            0
        } else {
            self.gates.get(lit.node() - 8193).level
        }
    }

    /// The left fanin, the right fanin and the level of a known gate. O(1).
    pub fn fanins(&self, lit: Lit23) -> (Lit23, Lit23, u32)
        requires known { Known (listed self.now) lit }
        requires gate { 8193 ≤ lit.node }
        ensures known { Known (listed self.now) result.0 × Known (listed self.now) result.1 }
        ensures fanins { (listed self.now).gate_at (lit.node - 8193) ≡ record { left = edge (listed self.now) result.0; right = edge (listed self.now) result.1 } }
        ensures level { result.2 ≡ level (edge (listed self.now) lit) }
    {
        let entry = self.gates.get(lit.node() - 8193);
        (entry.left, entry.right, entry.level)
    }

    /// The gate of these fanins, which are in order and not simple, at this level.
    fn place(&mut self, left: Lit23, right: Lit23, level: u32) -> Result<Lit23, GateStop>
        requires left_known { Known (listed self.old) left }
        requires right_known { Known (listed self.old) right }
        requires level_right { level ≡ gate_level (gate_of (gates_of self.old.pairs) (left, right)) }
        requires level_small { level < 262144 }
        ensures { let g = gate_of (gates_of self.old.pairs) (left, right) in Conjoined self.old self.new result record { answer = gate_edge g; gates = g ∷ [] } }
    {
        match self.gates.find(left, right) {
            Some(at) => Ok(Lit23::new(8193 + at, false)),
            None => {
                let at = self.gates.len();
                if at >= self.limit {
                    return Err(GateStop::Full);
                }
                self.gates.push(left, right, level)?;
                Ok(Lit23::new(8193 + at, false))
            }
        }
    }

    /// The conjunction of two known literals.
    fn conjoin(&mut self, a: Lit23, b: Lit23) -> Result<Lit23, GateStop>
        requires left { Known (listed self.old) a }
        requires right { Known (listed self.old) b }
        ensures { Conjoined self.old self.new result (both (edge (listed self.old) a) (edge (listed self.old) b)) }
    {
        let _limit = &self.limit;
        match simple(a, b) {
            Some(answer) => Ok(answer),
            None => {
                let first = self.level(a);
                let second = self.level(b);
                let level = 1 + first.max(second);
                if level == 262144 {
                    Err(GateStop::Deep)
                } else if before(key(b, second), key(a, first)) {
                    self.place(b, a, level)
                } else {
                    self.place(a, b, level)
                }
            }
        }
    }
}

impl Builder for ListBuilder {
    ghost meaning = { listed };

    ghost noted = { note_new };

    /// The conjunction of two known literals. It is Deep exactly where the gate would be too deep,
    /// and Full exactly where the list holds as many gates as its limit and not this one. A refusal
    /// leaves the list as it was. O(log n).
    fn and(&mut self, a: Lit23, b: Lit23) -> Result<Lit23, GateStop>
        requires left { Known (listed self.old) a }
        requires right { Known (listed self.old) b }
        ensures built { Builds note_new Stands (listed self.old) (listed self.new) result (both (edge (listed self.old) a) (edge (listed self.old) b)) }
        ensures once { OneEach (listed self.new) }
        ensures deep { (result ≡ Err Deep) ↔ Writes (both (edge (listed self.old) a) (edge (listed self.old) b)) TooDeep }
        ensures full { (result ≡ Err Full) ↔ Writes (both (edge (listed self.old) a) (edge (listed self.old) b)) (NoRoom (listed self.old)) }
        ensures refused { OnErr result (self.new ≡ self.old) }
    {
        let result = self.conjoin(a, b);
        let _limit = &self.limit;
        result
    }
}
