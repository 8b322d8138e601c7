//! Gates by many steps: the conjunction of two literals, and what a known gate is made of.

ghost use Rattle.std.specs.Prelude.{◌≡◌, ◌↔◌, ◌+◌, ◌-◌, ◌*◌, ◌<◌, ◌≤◌, [], true, false, Err, None, IfOk, IfErr};
ghost use Rattle.gate_shape.specs.Literal.{literal_number};
ghost use Rattle.gate_shape.specs.Edge.{level, gate_level};
ghost use Rattle.gate_shape.specs.Row.{both, written};
ghost use Rattle.gate_shape.specs.Word.{gate_word, key_less, simple_literal};
ghost use Rattle.gate_shape.specs.Builds.{Known, edge, Stands, Builds, OneEach, TooDeep, NoRoom};
ghost use Rattle.gate_shape.specs.Listed.{Writes};
ghost use Rattle.gate_shape.specs.declared.builder.GateStop.TheVariants.{Deep, Full};
ghost use Rattle.gate_probe.specs.Words.{key_in};
ghost use Rattle.gate_probe.specs.Sound.{IsWithin};
ghost use Rattle.gate_probe.specs.Views.{view};
ghost use Rattle.gate_probe.specs.Moves.{moves_left};
ghost use Rattle.gate_probe.specs.Searching.{IsSearching};
ghost use Rattle.gate_table.specs.Seats.{known_by, IsCounted};
ghost use Rattle.gate_table.specs.Searches.{IsWanted, IsSearchFor, IsAt, IsMissed};
ghost use Rattle.gate_table.specs.Answers.{no_note, gate_of, IsAnswered};

use crate::seats::{GateSeat, GateTable};
use gate_probe::{Move, Prober};
use gate_shape::{GateStop, Lit23, key, simple, unpack};

/// Whether the first key is less than the second.
fn before(a: (u32, u32), b: (u32, u32)) -> bool
    ensures { result ≡ key_less a b }
{
    a.0 < b.0 || (a.0 == b.0 && a.1 < b.1)
}

/// Whether the two are the same literal.
fn same(a: Lit23, b: Lit23) -> bool
    ensures { (result ≡ true) ↔ (a ≡ b) }
{
    a.node() == b.node() && a.sign() == b.sign()
}

/// A node of a literal is below 2^22. Nothing is done.
fn fits(lit: Lit23)
    ensures { lit.node < 4194304 }
{
    let _node = lit.node();
}

impl GateTable {
    /// The level of a known literal: a load where it is a gate.
    fn level(&self, seat: &mut GateSeat, lit: Lit23) -> u32
        requires seat { seat.old.table ≡ self.now }
        requires known { Known (known_by seat.old) lit }
        ensures table { seat.new.table ≡ seat.old.table }
        ensures seen { seat.new.view.seen ≡ seat.old.view.seen }
        ensures value { result ≡ level (edge (known_by seat.old) lit) }
        ensures small { result < 262144 }
        ensures counts { IsCounted 1 seat.old seat.new }
    {
        if lit.node() < 8193 {
            0
        } else {
            self.fanins(seat, lit).2
        }
    }

    /// One move of a search for the word of these fanins at this level.
    fn turn(
        &self,
        seat: &mut GateSeat,
        prober: &mut Prober,
        _left: Lit23,
        _right: Lit23,
        _level: u32,
    ) -> Move
        requires seat { seat.old.table ≡ self.now }
        requires pair { IsSearchFor self.now.words _left _right _level prober.old }
        requires wanted { IsWanted seat.old.view.seen _left _right _level }
        requires search { IsSearching seat.old.view.seen prober.old }
        requires more { 0 < moves_left prober.old }
        ensures table { seat.new.table ≡ seat.old.table }
        ensures kept { IsWithin seat.old.view.seen seat.new.view.seen }
        ensures pair { IsSearchFor self.now.words _left _right _level prober.new }
        ensures last { prober.new.last ≡ result }
        ensures search { IsSearching seat.new.view.seen prober.new }
        ensures nearer { moves_left prober.new < moves_left prober.old }
        ensures steps { seat.new.view.steps ≡ seat.old.view.steps + 1 }
    {
        match prober.first() {
            Move::Load(place) => {
                let word = self.load(seat, place);
                prober.next(word)
            }
            Move::Claim(place, wanted) => {
                let word = self.claim(seat, place, wanted);
                prober.next(word)
            }
            end => end,
        }
    }

    /// The literal of the place with a gate's word, which may be new.
    fn find(
        &self,
        seat: &mut GateSeat,
        left: Lit23,
        right: Lit23,
        level: u32,
    ) -> Result<Lit23, GateStop>
        requires seat { seat.old.table ≡ self.now }
        requires wanted { IsWanted seat.old.view.seen left right level }
        ensures table { seat.new.table ≡ seat.old.table }
        ensures kept { IsWithin seat.old.view.seen seat.new.view.seen }
        ensures ok { IfOk result (λ r. IsAt seat.new.view.seen (gate_word level left right) r) }
        ensures full { IfErr result (λ e. (e ≡ Full) × IsMissed self.now.words seat.new.view.seen (gate_word level left right)) }
        ensures counts { IsCounted (2 * self.now.words) seat.old seat.new }
    {
        let mut prober = Prober::start(self.size(), left, right, level);
        let mut next = prober.first();
        loop {
            match next {
                Move::Found(node) => return Ok(Lit23::new(node, false)),
                Move::Full => return Err(GateStop::Full),
                Move::Load(_) => next = self.turn(seat, &mut prober, left, right, level),
                Move::Claim(_, _) => next = self.turn(seat, &mut prober, left, right, level),
            }
        }
    }

    /// The gate of two known literals that are in order and not simple, at its level.
    fn place(
        &self,
        seat: &mut GateSeat,
        left: Lit23,
        right: Lit23,
        level: u32,
    ) -> Result<Lit23, GateStop>
        requires seat { seat.old.table ≡ self.now }
        requires left_known { Known (known_by seat.old) left }
        requires right_known { Known (known_by seat.old) right }
        requires apart { simple_literal left right ≡ None }
        requires order { key_less (key_in seat.old.view.seen right) (key_in seat.old.view.seen left) ≡ false }
        requires level_right { level ≡ gate_level (gate_of (known_by seat.old) left right) }
        requires level_small { level < 262144 }
        ensures table { seat.new.table ≡ seat.old.table }
        ensures kept { IsWithin seat.old.view.seen seat.new.view.seen }
        ensures built { Builds no_note Stands (known_by seat.old) (known_by seat.new) result (written (gate_of (known_by seat.old) left right) None) }
        ensures once { OneEach (known_by seat.new) }
        ensures answered { IsAnswered result }
        ensures counts { IsCounted (2 * self.now.words) seat.old seat.new }
    {
        fits(left);
        fits(right);
        seat.keeps();
        let found = self.find(seat, left, right, level);
        seat.keeps();
        found
    }

    /// The gate of two known literals that aren't simple.
    fn gate(&self, seat: &mut GateSeat, a: Lit23, b: Lit23) -> Result<Lit23, GateStop>
        requires seat { seat.old.table ≡ self.now }
        requires left { Known (known_by seat.old) a }
        requires right { Known (known_by seat.old) b }
        requires apart { simple_literal a b ≡ None }
        ensures table { seat.new.table ≡ seat.old.table }
        ensures kept { IsWithin seat.old.view.seen seat.new.view.seen }
        ensures built { Builds no_note Stands (known_by seat.old) (known_by seat.new) result (both (edge (known_by seat.old) a) (edge (known_by seat.old) b)) }
        ensures once { OneEach (known_by seat.new) }
        ensures answered { IsAnswered result }
        ensures counts { IsCounted (2 * self.now.words + 2) seat.old seat.new }
    {
        seat.keeps();
        let first = self.level(seat, a);
        let second = self.level(seat, b);
        let level = 1 + first.max(second);
        if level == 262_144 {
            return Err(GateStop::Deep);
        }
        if before(key(b, second), key(a, first)) {
            self.place(seat, b, a, level)
        } else {
            self.place(seat, a, b, level)
        }
    }

    /// The conjunction of two known literals: the literal of its gate, whichever threads built it. It is
    /// Deep exactly where the gate's level would be 262,144, and Full only where the seat has then seen
    /// all n words and none of them is the gate's. What was known stays known, with its edges. It takes
    /// at most a load for each fanin that is a gate, then a load and a claim for each word of the table;
    /// none where the conjunction is simple, and one load more than those of the fanins where the gate
    /// stands at its home. It takes no memory.
    pub fn and(&self, seat: &mut GateSeat, a: Lit23, b: Lit23) -> Result<Lit23, GateStop>
        requires seat { seat.old.table ≡ self.now }
        requires left { Known (known_by seat.old) a }
        requires right { Known (known_by seat.old) b }
        ensures table { seat.new.table ≡ seat.old.table }
        ensures seen { IsWithin seat.old.view.seen seat.new.view.seen }
        ensures built { Builds no_note Stands (known_by seat.old) (known_by seat.new) result (both (edge (known_by seat.old) a) (edge (known_by seat.old) b)) }
        ensures once { OneEach (known_by seat.new) }
        ensures deep { (result ≡ Err Deep) ↔ Writes (both (edge (known_by seat.old) a) (edge (known_by seat.old) b)) TooDeep }
        ensures full { result ≡ Err Full → Writes (both (edge (known_by seat.old) a) (edge (known_by seat.old) b)) (NoRoom (known_by seat.new)) }
        ensures answered { IsAnswered result }
        ensures counts { IsCounted (2 * self.now.words + 2) seat.old seat.new }
        ensures simple { (both (edge (known_by seat.old) a) (edge (known_by seat.old) b)).gates ≡ [] → seat.new ≡ seat.old }
    {
        seat.keeps();
        match simple(a, b) {
            Some(lit) => Ok(lit),
            None => self.gate(seat, a, b),
        }
    }

    /// The left fanin, the right fanin and the level of a known gate, by one load. The fanins are known.
    pub fn fanins(&self, seat: &mut GateSeat, lit: Lit23) -> (Lit23, Lit23, u32)
        requires seat { seat.old.table ≡ self.now }
        requires known { Known (known_by seat.old) lit }
        requires gate { 8193 ≤ lit.node }
        ensures table { seat.new.table ≡ seat.old.table }
        ensures view { seat.new.view ≡ view seat.old.view.seen (seat.old.view.steps + 1) }
        ensures known { Known (known_by seat.old) result.0 × Known (known_by seat.old) result.1 }
        ensures fanins { (known_by seat.old).gate_at (lit.node - 8193) ≡ gate_of (known_by seat.old) result.0 result.1 }
        ensures level { result.2 ≡ level (edge (known_by seat.old) lit) }
        ensures small { result.2 < 262144 }
    {
        seat.keeps();
        let word = self.load(seat, lit.node() - 8193);
        let (level, left, right) = unpack(word);
        (left, right, level)
    }

    /// Whether two known literals stand for one edge, which is where they are equal. No step is taken.
    pub fn agree(&self, seat: &mut GateSeat, a: Lit23, b: Lit23) -> bool
        requires seat { seat.old.table ≡ self.now }
        requires left { Known (known_by seat.old) a }
        requires right { Known (known_by seat.old) b }
        ensures seat { seat.new ≡ seat.old }
        ensures edges { (result ≡ true) ↔ (edge (known_by seat.old) a ≡ edge (known_by seat.old) b) }
        ensures literals { (result ≡ true) ↔ (a ≡ b) }
    {
        seat.keeps();
        same(a, b)
    }
}
