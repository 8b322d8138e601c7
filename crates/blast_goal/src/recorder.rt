//! The builder by which a script is recorded: a plain list whose calls for gates are noted. It stands apart from the list
//! itself, so that whoever builds a goal's edge alone pays nothing for it.

ghost use Rattle.std.specs.Prelude.{◌≡◌, ◌++◌, ◌∷◌, [], IfOk, None, Ok, Err};
ghost use Rattle.gate_shape.specs.Edge.{level as level_of, simplified, ordered};
ghost use Rattle.gate_shape.specs.Row.{both};
ghost use Rattle.gate_shape.specs.Word.{key_less};
ghost use Rattle.gate_shape.specs.Builds.{Known, edge, Stands, Builds, OneEach};
ghost use Rattle.gate_shape.specs.Listed.{listed, gates_of, gate_of};
ghost use Rattle.blast_goal.specs.Recorded.{recorded, note_call, IsRecorded};

use gate_shape::{Builder, GateStop, ListBuilder, Lit23, key, simple};
use std::alloc::{AllocError, Global};
use std::marker::Model;

/// The most gates of a script's list.
const MOST_GATES: u32 = 4_000_000;

/// The calls for a goal's gates, what a plain list for 4,000,000 gates answers, and how it ends.
#[derive(Drop)]
pub struct Script {
    /// For each gate its two fanins, in the gate's order: literals of inputs and of earlier answers.
    pub calls: Vec<(Lit23, Lit23)>,
    /// For each call that wasn't refused its gate.
    pub answers: Vec<Lit23>,
    /// The goal's edge, or why the last call was refused.
    pub end: Result<Lit23, GateStop>,
}

/// A plain list for 4,000,000 gates, the calls for gates that it answered with its answers, and the call that it refused
/// last. A call has the fanins of its gate, in the gate's order.
#[derive(Drop)]
pub(crate) struct Recorder {
    list: ListBuilder,
    calls: Vec<(Lit23, Lit23)>,
    answers: Vec<Lit23>,
    refused: (Lit23, Lit23),
}

impl Model for Recorder {
    ghost use Rattle.blast_goal.specs.Recorded.{Recorded, IsRecorded};

    ghost Value = { Recorded };

    ghost view = { λ r. record { list = r.list; calls = r.calls.items; answers = r.answers.items; refused = r.refused } };

    ghost invariant = { λ r. IsRecorded r.list r.calls.items r.answers.items r.refused };
}

/// The level of a known literal.
fn level(list: &ListBuilder, lit: Lit23) -> u32
    requires { Known (listed list.now) lit }
    ensures { result ≡ level_of (edge (listed list.now) lit) }
{
    if lit.node() < 8193 {
        0
    } else {
        list.fanins(lit).2
    }
}

/// Whether the first key is less than the second.
fn before(a: (u32, u32), b: (u32, u32)) -> bool
    ensures { result ≡ key_less a b }
{
    a.0 < b.0 || (a.0 == b.0 && a.1 < b.1)
}

/// The two literals in the order in which their gate has them.
fn in_order(list: &ListBuilder, a: Lit23, b: Lit23) -> (Lit23, Lit23)
    requires left { Known (listed list.now) a }
    requires right { Known (listed list.now) b }
    ensures left { Known (listed list.now) result.0 }
    ensures right { Known (listed list.now) result.1 }
    ensures gate { gate_of (gates_of list.now.pairs) result ≡ ordered (edge (listed list.now) a) (edge (listed list.now) b) }
{
    let first = level(list, a);
    let second = level(list, b);
    if before(key(b, second), key(a, first)) {
        (b, a)
    } else {
        (a, b)
    }
}

impl Recorder {
    /// A recorder without calls. O(1): it takes no memory yet.
    pub(crate) fn new(alloc: Global) -> Recorder
        ensures { result.calls ≡ [] }
    {
        let no = Lit23::new(0, false);
        Recorder {
            list: ListBuilder::new(alloc, MOST_GATES),
            calls: Vec::new(alloc),
            answers: Vec::new(alloc),
            refused: (no, no),
        }
    }

    /// The gate of two known literals whose conjunction isn't simple. Room for the notes is made first, so that the list
    /// never has a gate that isn't noted.
    fn call(&mut self, a: Lit23, b: Lit23) -> Result<Lit23, GateStop>
        requires left { Known (recorded self.old) a }
        requires right { Known (recorded self.old) b }
        requires one { simplified (edge (recorded self.old) a) (edge (recorded self.old) b) ≡ None }
        ensures built { Builds note_call Stands (recorded self.old) (recorded self.new) result (both (edge (recorded self.old) a) (edge (recorded self.old) b)) }
        ensures once { OneEach (recorded self.new) }
    {
        self.calls.reserve(1)?;
        self.answers.reserve(1)?;
        let call = in_order(&self.list, a, b);
        match self.list.and(a, b) {
            Ok(answer) => {
                self.calls.push_reserved(call);
                self.answers.push_reserved(answer);
                let _count = self.list.len();
                Ok(answer)
            }
            Err(stop) => {
                self.refused = call;
                Err(stop)
            }
        }
    }

    /// The script that ends with this literal.
    pub(crate) fn whole(self, root: Lit23) -> Script
        ensures calls { result.calls.items ≡ self.calls }
        ensures answers { result.answers.items ≡ self.answers }
        ensures end { result.end ≡ Ok root }
        ensures recorded { IsRecorded self.list self.calls self.answers self.refused }
    {
        Script {
            calls: self.calls,
            answers: self.answers,
            end: Ok(root),
        }
    }

    /// The script that ends with the call that was refused last, and why it was refused.
    pub(crate) fn stopped(self, stop: GateStop) -> Result<Script, AllocError>
        ensures calls { IfOk result (λ s. s.calls.items ≡ self.calls ++ self.refused ∷ []) }
        ensures answers { IfOk result (λ s. s.answers.items ≡ self.answers) }
        ensures end { IfOk result (λ s. s.end ≡ Err stop) }
        ensures recorded { IsRecorded self.list self.calls self.answers self.refused }
    {
        let mut calls = self.calls;
        calls.push(self.refused)?;
        Ok(Script {
            calls,
            answers: self.answers,
            end: Err(stop),
        })
    }
}

impl Builder for Recorder {
    ghost meaning = { recorded };

    ghost noted = { note_call };

    /// The conjunction of two known literals, as the list makes it. A simple one isn't noted. O(log n).
    fn and(&mut self, a: Lit23, b: Lit23) -> Result<Lit23, GateStop> {
        let _list = &self.list;
        match simple(a, b) {
            Some(answer) => Ok(answer),
            None => self.call(a, b),
        }
    }
}
