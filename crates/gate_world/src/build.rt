//! A goal's circuit is built in the table by the goal's script: call by call, and each call one load or claim at a time,
//! so that other goals build in the same table between any two of them. A call loads the words of its fanins, whose levels
//! give that of its gate, and then searches for the gate's word. The script is over a plain list, and where its gates are
//! in the table depends on what others wrote there: so the node of each gate of the list is kept.

ghost use Rattle.std.specs.Prelude.{◌≡◌, ◌≢◌, length, ◌+◌, not, false, nat_lt, ◌<◌, ◌≤◌, ◌++◌, ◌∷◌, [], List, ℕ, OnOk, IfOk, OnErr};
ghost use Rattle.gate_shape.specs.Edge.{Edge, Gate, level as level_of, gate_edge};
ghost use Rattle.gate_shape.specs.Builds.{Known, edge};
ghost use Rattle.gate_probe.specs.Sound.{IsSound, IsWithin};
ghost use Rattle.gate_probe.specs.Standing.{StandsIn};
ghost use Rattle.goal_alone.specs.Ends.{Made, end_of};
ghost use Rattle.goal_alone.specs.Formula.{most_gates};
ghost use Rattle.blast_goal.specs.Script.{list_of};
ghost use Rattle.gate_world.specs.World.{Actor, begun_at};
ghost use Rattle.gate_world.specs.Work.{Work as ModelWork};
ghost use Rattle.gate_world.specs.Work.{Problem, to_probe, to_build};
ghost use Rattle.gate_world.specs.Right.{IsScripted};
ghost use Rattle.gate_world.specs.Coding.{problem_of, AreNodes, IsCalls, IsOfList, HasCall, IsAnswered, IsReadBy, AreReadBy, ShowsWork, MayBeTold, GoesOn, IsSearched, SearchMoves, IsInHand, BuildingMoves, IsAtWork};

use blast_goal::{Script, script};
use bv_expr::Goal;
use gate_probe::{Move, Prober};
use gate_shape::{Lit23, unpack};
use std::alloc::{AllocError, Global};

/// A script, and how far its calls are made.
#[derive(Drop)]
pub struct Calls {
    pub script: Script,
    /// The node in the table of each gate of the script's list that is built, in the list's order.
    pub built: Vec<u32>,
    /// How many calls are made: the next one is at this place.
    pub call: usize,
}

/// What is done next for the call at hand.
#[derive(Drop)]
pub enum Stage {
    /// The left fanin's word is loaded.
    Left,
    /// The right fanin's word is loaded; the left one is at this level.
    Right(u32),
    /// The search for the gate's word goes on.
    Probe(Prober),
}

/// A goal that builds its circuit: the calls, and what is done next for the one at hand.
#[derive(Drop)]
pub struct Building {
    pub calls: Calls,
    pub stage: Stage,
}

/// What a goal has in hand while it builds its circuit, and behind that.
#[derive(Drop)]
pub enum Work {
    /// The circuit is built call by call.
    Building(Building),
    /// The circuit is built: the cone of its edge is walked next.
    Built(Calls),
    /// A gate of the script would have the level 262,144.
    Deep,
    /// Each word of the table is taken, and the gate that is wanted isn't there.
    Full,
}

/// Whether the node is a gate.
fn is_gate(lit: Lit23) -> bool
    ensures { result ≡ not (nat_lt lit.node 8193) }
{
    lit.node() >= 8193
}

/// The level of a gate, by its word.
fn level(words: &[u64], lit: Lit23) -> u32
    requires sound { IsSound words.now }
    requires gate { 8193 ≤ lit.node }
    requires stands { (e : Edge) × StandsIn words.now lit e }
    ensures value { (e : Edge) → StandsIn words.now lit e → result ≡ level_of e }
    ensures small { result ≤ 262143 }
{
    unpack(words[(lit.node() - 8193) as usize]).0
}

/// A node at the end, where this is the next place. The only error is want of memory.
fn keep(nodes: &mut Vec<u32>, place: usize, node: u32) -> Result<(), AllocError>
    ensures next { OnOk result (place ≡ length nodes.old.items → nodes.new.items ≡ nodes.old.items ++ node ∷ []) }
    ensures other { OnOk result (place ≢ length nodes.old.items → nodes.new.items ≡ nodes.old.items) }
{
    if place == nodes.len() {
        nodes.push(node)?;
    }
    Ok(())
}

impl Calls {
    /// The literal in the table of a literal of the script.
    pub(crate) fn literal(&self, lit: Lit23) -> Lit23
        requires { IsOfList self.now lit }
        ensures { (words : List ℕ) (kept : List Gate) → AreNodes words kept self.now.built.items → Known (list_of kept) lit → StandsIn words result (edge (list_of kept) lit) }
    {
        if is_gate(lit) {
            Lit23::new(self.built[(lit.node() - 8193) as usize], lit.sign())
        } else {
            lit
        }
    }

    /// The fanins of the call at hand.
    fn fanins(&self) -> (Lit23, Lit23)
        requires { HasCall self.now }
        ensures left { (p : Problem) (words : List ℕ) (done : List Gate) (g : Gate) (gs : List Gate) → IsCalls p words done (g ∷ gs) self.now → StandsIn words result.0 g.left }
        ensures right { (p : Problem) (words : List ℕ) (done : List Gate) (g : Gate) (gs : List Gate) → IsCalls p words done (g ∷ gs) self.now → StandsIn words result.1 g.right }
    {
        let (left, right) = self.script.calls[self.call];
        (self.literal(left), self.literal(right))
    }

    /// The gate of the call at hand is at this node. The only error is want of memory.
    fn found(&mut self, node: u32) -> Result<(), AllocError>
        requires { IsAnswered self.old }
        ensures { OnOk result ((p : Problem) (words more : List ℕ) (done : List Gate) (g : Gate) (gs : List Gate) → IsCalls p words done (g ∷ gs) self.old → end_of most_gates [] (done ++ g ∷ []) ≡ Made → IsWithin words more → StandsIn more (record { node = node; sign = false }) (gate_edge g) → IsCalls p more (done ++ g ∷ []) gs self.new) }
    {
        let _count = self.script.answers.len();
        let place = (self.script.answers[self.call].node() - 8193) as usize;
        keep(&mut self.built, place, node)?;
        self.call += 1;
        Ok(())
    }

    /// The search for the gate of the call at hand is begun, if it isn't too deep.
    fn probe(self, size: u32, left: u32, right: u32) -> Work
        requires size { (1 ≤ size) × (size ≤ 4000000) }
        requires small { (left ≤ 262143) × (right ≤ 262143) }
        requires call { HasCall self }
        ensures { (p : Problem) (words seen : List ℕ) (done : List Gate) (g : Gate) (gs : List Gate) → IsCalls p words done (g ∷ gs) self → IsReadBy words seen g → left ≡ level_of g.left → right ≡ level_of g.right → ShowsWork p words result (to_probe size seen g gs) }
    {
        let level = 1 + left.max(right);
        if level == 262_144 {
            return Work::Deep;
        }
        let (first, second) = self.fanins();
        let prober = Prober::start(size, first, second, level);
        Work::Building(Building {
            calls: self,
            stage: Stage::Probe(prober),
        })
    }

    /// The call at hand is begun; behind the last one the circuit is built.
    fn begin(self, size: u32) -> Work
        requires size { (1 ≤ size) × (size ≤ 4000000) }
        requires calls { (p : Problem) × (words : List ℕ) × (done : List Gate) × (ahead : List Gate) × (length words ≤ 4000000) × IsCalls p words done ahead self }
        ensures { (p : Problem) (words seen : List ℕ) (done ahead : List Gate) → IsCalls p words done ahead self → AreReadBy words seen ahead → ShowsWork p words result (to_build size p seen ahead) }
    {
        if self.call == self.script.calls.len() {
            return Work::Built(self);
        }
        let (left, right) = self.fanins();
        if is_gate(left) {
            return Work::Building(Building {
                calls: self,
                stage: Stage::Left,
            });
        }
        if is_gate(right) {
            return Work::Building(Building {
                calls: self,
                stage: Stage::Right(0),
            });
        }
        self.probe(size, 0, 0)
    }

    /// The search for the gate's word is told a word.
    fn told(self, size: u32, prober: Prober, word: u64) -> Result<Work, AllocError>
        requires size { (1 ≤ size) × (size ≤ 4000000) }
        requires told { MayBeTold self prober word size }
        ensures { IfOk result (GoesOn self prober word size) }
    {
        let mut calls = self;
        let mut search = prober;
        match search.next(word) {
            Move::Found(node) => {
                calls.found(node)?;
                Ok(calls.begin(size))
            }
            Move::Full => Ok(Work::Full),
            Move::Load(_) | Move::Claim(_, _) => Ok(Work::Building(Building {
                calls,
                stage: Stage::Probe(search),
            })),
        }
    }

    /// One load or claim of the search. A word is written only where nothing is refused any more.
    fn search(self, words: &mut [u64], prober: Prober) -> Result<Work, AllocError>
        requires { IsSearched words.old self prober }
        ensures ok { IfOk result (SearchMoves words.old self prober words.new) }
        ensures err { OnErr result (words.new ≡ words.old) }
    {
        let size = words.len() as u32;
        match prober.first() {
            Move::Load(place) => {
                let word = words[place as usize];
                self.told(size, prober, word)
            }
            Move::Claim(place, wanted) => {
                let there = words[place as usize];
                if there > 0 {
                    return self.told(size, prober, there);
                }
                let work = self.told(size, prober, wanted)?;
                words[place as usize] = wanted;
                Ok(work)
            }
            Move::Found(_) | Move::Full => unreachable!(),
        }
    }
}

impl Calls {
    /// The left fanin's word is loaded.
    fn load_left(self, words: &[u64]) -> Work
        requires { (a : Actor) × (w : ModelWork) × IsInHand a w words.now (record { calls = self; stage = Stage.Left }) }
        ensures { BuildingMoves words.now (record { calls = self; stage = Stage.Left }) words.now result }
    {
        let (left, right) = self.fanins();
        let first = level(words, left);
        if is_gate(right) {
            return Work::Building(Building {
                calls: self,
                stage: Stage::Right(first),
            });
        }
        self.probe(words.len() as u32, first, 0)
    }

    /// The right fanin's word is loaded; the left one is at this level.
    fn load_right(self, words: &[u64], first: u32) -> Work
        requires { (a : Actor) × (w : ModelWork) × IsInHand a w words.now (record { calls = self; stage = Stage.Right first }) }
        ensures { BuildingMoves words.now (record { calls = self; stage = Stage.Right first }) words.now result }
    {
        let (_left, right) = self.fanins();
        let second = level(words, right);
        self.probe(words.len() as u32, first, second)
    }
}

impl Building {
    /// One load or claim, and what follows at once behind it. The words stay as they were where memory is wanting.
    fn advance(self, words: &mut [u64]) -> Result<Work, AllocError>
        requires { (a : Actor) × (w : ModelWork) × IsInHand a w words.old self }
        ensures ok { IfOk result (BuildingMoves words.old self words.new) }
        ensures err { OnErr result (words.new ≡ words.old) }
    {
        let Building { calls, stage } = self;
        match stage {
            Stage::Left => Ok(calls.load_left(words)),
            Stage::Right(first) => Ok(calls.load_right(words, first)),
            Stage::Probe(prober) => calls.search(words, prober),
        }
    }

    /// One load or claim, and what follows at once behind it, as the model's step has it: so the words stay sound, a word
    /// that is there stays, and the goal goes on with what it then has in hand. Amortised O(1). The only error is want of
    /// memory, which leaves the words as they were.
    pub fn step(self, words: &mut [u64]) -> Result<Work, AllocError>
        requires { IsAtWork words.old (Work.Building self) }
        ensures moves { IfOk result (BuildingMoves words.old self words.new) }
        ensures sound { OnOk result (IsSound words.new) }
        ensures grows { OnOk result (IsWithin words.old words.new) }
        ensures goes_on { IfOk result (IsAtWork words.new) }
        ensures err { OnErr result (words.new ≡ words.old) }
    {
        self.advance(words)
    }
}

/// A goal at the first load or claim of its script, over a table of `size` words, 1 to 4,000,000. Each call of the script
/// is for a conjunction that isn't simple, with its fanins in the order of their keys, over gates that were called for
/// before. Takes what the script takes, in time and in memory. The only error is want of memory.
pub fn start_building(alloc: Global, goal: &Goal, size: u32) -> Result<Work, AllocError>
    requires size { (1 ≤ size) × (size ≤ 4000000) }
    ensures scripted { IfOk result (λ work. IsScripted (problem_of goal.now)) }
    ensures begun { IfOk result (λ work. (words : List ℕ) → length words ≡ size → IsSound words → ShowsWork (problem_of goal.now) words work (begun_at size (problem_of goal.now)).work) }
    ensures goes_on { IfOk result (λ work. (words : List ℕ) → length words ≡ size → IsSound words → IsAtWork words work) }
{
    let calls = Calls {
        script: script(alloc, goal)?,
        built: Vec::new(alloc),
        call: 0,
    };
    Ok(calls.begin(size))
}
