//! Seats that build the same gates in turn and at the same time, a table that is just large enough, and
//! the deepest chain of gates.

ghost use Rattle.std.specs.Prelude.{◌≡◌, ◌<◌, IfOk};
ghost use Rattle.gate_shape.specs.Builds.{Known, Keeps};
ghost use Rattle.gate_table.specs.Seats.{known_by};

use crate::builder::SeatBuilder;
use crate::seats::{GateSeat, GateTable};
use gate_shape::{GateStop, Lit23, input, xor2};
use std::test::Fail;
use std::thread;
use std::thread::Threads;

/// Two seats ask for one conjunction in either order, and the gate stands once, at its pair's home.
#[test]
fn either_order(rt: HostRuntime) -> Result<(), Fail> {
    let (table, mut seat) = GateTable::new(rt.alloc(), 8)?;
    let mut other = table.split(&mut seat);
    let (a, b) = (input(0, 0), input(1, 0));
    let first = table.and(&mut other, a, b)?;
    let second = table.and(&mut seat, b, a)?;
    assert_eq!(rt; first, Lit23::new(8193, false));
    assert_eq!(rt; second, Lit23::new(8193, false));
    assert_eq!(rt; table.load(&mut seat, 0), 70_368_760_955_138);
    table.join(&mut seat, other);
    assert!(rt; table.agree(&mut seat, first, second));
    assert!(rt; !table.agree(&mut seat, first, second.not()));
    assert_eq!(rt; table.fanins(&mut seat, Lit23::new(8193, false)), (a, b, 1));
    Ok(())
}

/// The three gates of an exclusive disjunction, and the seat that built them.
#[derive(Drop)]
struct Three {
    seat: GateSeat,
    first: Lit23,
    second: Lit23,
    third: Lit23,
    ghost known: { Known (known_by seat) first × Known (known_by seat) second × Known (known_by seat) third },
}

fn build_three(table: &GateTable, mut seat: GateSeat) -> Result<Three, GateStop>
    requires { seat.table ≡ table.now }
    ensures { IfOk result (λ t. t.seat.table ≡ table.now) }
{
    let (a, b) = (input(0, 0), input(1, 0));
    let first = table.and(&mut seat, a, b)?;
    let second = table.and(&mut seat, a.not(), b.not())?;
    let third = table.and(&mut seat, first.not(), second.not())?;
    Ok(Three {
        seat,
        first,
        second,
        third,
    })
}

/// Whether all gates of the one are those of the other.
fn all_agree(table: &GateTable, mine: Three, theirs: Three) -> bool
    requires mine { mine.seat.table ≡ table.now }
    requires theirs { theirs.seat.table ≡ table.now }
{
    let Three {
        mut seat,
        first,
        second,
        third,
    } = mine;
    let Three {
        seat: other,
        first: one,
        second: two,
        third: last,
    } = theirs;
    table.join(&mut seat, other);
    table.agree(&mut seat, first, one)
        && table.agree(&mut seat, second, two)
        && table.agree(&mut seat, third, last)
}

/// Two threads build the same three gates over three words, each with its own seat.
#[test]
fn three_words(rt: HostRuntime) -> Result<(), Fail> {
    let (table, mut seat) = GateTable::new(rt.alloc(), 3)?;
    let other = table.split(&mut seat);
    let shared = &table;
    let (mine, theirs) = thread::join(
        &rt,
        move || build_three(shared, seat),
        move || build_three(shared, other),
    );
    assert!(rt; all_agree(&table, mine?, theirs?));
    Ok(())
}

/// The exclusive disjunction of two inputs, by the builder over a seat.
fn exclusive(table: &GateTable, seat: &mut GateSeat) -> Result<Lit23, GateStop>
    requires { seat.old.table ≡ table.now }
    ensures table { seat.new.table ≡ seat.old.table }
    ensures known { IfOk result (λ l. Known (known_by seat.new) l) }
{
    let mut builder = SeatBuilder::new(table, seat);
    xor2(&mut builder, input(0, 0), input(1, 0))
}

/// Three words are enough for it, twice over, and two are not.
#[test]
fn just_large_enough(rt: HostRuntime) -> Result<(), Fail> {
    let (table, mut seat) = GateTable::new(rt.alloc(), 3)?;
    assert_eq!(rt; table.size(), 3);
    let first = exclusive(&table, &mut seat)?;
    assert_eq!(rt; first, exclusive(&table, &mut seat)?);
    let (small, mut other) = GateTable::new(rt.alloc(), 2)?;
    assert!(rt; matches!(exclusive(&small, &mut other), Err(GateStop::Full)));
    Ok(())
}

/// Each gate of the chain is one level above the one before, up to the greatest level that a gate word
/// holds.
#[test]
fn deepest_chain(rt: HostRuntime) -> Result<(), Fail> {
    let (table, mut seat) = GateTable::new(rt.alloc(), 300_000)?;
    let a = input(0, 0);
    let mut last = table.and(&mut seat, a, input(1, 0))?;
    for level in 2..262_144u32 {
        last = table.and(&mut seat, a, last.not())?;
        assert!(rt; last.node() >= 8193);
        assert_eq!(rt; table.fanins(&mut seat, last).2, level);
    }
    assert!(rt; matches!(table.and(&mut seat, a, last.not()), Err(GateStop::Deep)));
    Ok(())
}

/// A chain of 10,000 gates over variable k. Its last gate stands for the whole chain.
fn chain(table: &GateTable, seat: &mut GateSeat, k: u8) -> Result<Lit23, GateStop>
    requires seat { seat.old.table ≡ table.now }
    requires variable { k < 64 }
    ensures table { seat.new.table ≡ seat.old.table }
    ensures keeps { Keeps (known_by seat.old) (known_by seat.new) }
    ensures known { IfOk result (λ l. Known (known_by seat.new) l) }
{
    let a = input(k, 0);
    let mut last = table.and(seat, a, input(k, 1))?;
    for _ in 1..10_000u32 {
        last = table.and(seat, a, last.not())?;
    }
    Ok(last)
}

/// The ends of two chains, and the seat that built them.
#[derive(Drop)]
struct Ends {
    seat: GateSeat,
    low: Lit23,
    high: Lit23,
    ghost known: { Known (known_by seat) low × Known (known_by seat) high },
}

/// Both chains, after the one of variable `first`.
fn build_ends(table: &GateTable, mut seat: GateSeat, first: u8) -> Result<Ends, GateStop>
    requires seat { seat.table ≡ table.now }
    requires variable { first < 64 }
    ensures { IfOk result (λ e. e.seat.table ≡ table.now) }
{
    chain(table, &mut seat, first)?;
    let low = chain(table, &mut seat, 0)?;
    let high = chain(table, &mut seat, 1)?;
    Ok(Ends { seat, low, high })
}

/// Whether the chains of the one are those of the other, which is joined into it.
fn meet(table: &GateTable, mine: &mut Ends, theirs: Ends) -> bool
    requires mine { mine.old.seat.table ≡ table.now }
    requires theirs { theirs.seat.table ≡ table.now }
    ensures { mine.new.seat.table ≡ table.now }
{
    let Ends {
        seat: other,
        low,
        high,
    } = theirs;
    table.join(&mut mine.seat, other);
    table.agree(&mut mine.seat, mine.low, low) && table.agree(&mut mine.seat, mine.high, high)
}

/// Two threads, each with its own seat and first chain.
fn build_two<R: Threads>(
    rt: &R,
    table: &GateTable,
    seat: GateSeat,
    other: GateSeat,
) -> (Result<Ends, GateStop>, Result<Ends, GateStop>)
    requires seat { seat.table ≡ table.now }
    requires other { other.table ≡ table.now }
    ensures { IfOk result.0 (λ e. e.seat.table ≡ table.now) × IfOk result.1 (λ e. e.seat.table ≡ table.now) }
{
    thread::join(
        rt,
        move || build_ends(table, seat, 0),
        move || build_ends(table, other, 1),
    )
}

/// Four threads build the same 20,000 gates over as many words, two of them each half first.
#[test]
fn four_threads(rt: HostRuntime) -> Result<(), Fail> {
    let (table, mut seat) = GateTable::new(rt.alloc(), 20_000)?;
    let one = table.split(&mut seat);
    let two = table.split(&mut seat);
    let three = table.split(&mut seat);
    let (host, shared) = (&rt, &table);
    let ((a, b), (c, d)) = thread::join(
        host,
        move || build_two(host, shared, seat, one),
        move || build_two(host, shared, two, three),
    );
    let mut all = a?;
    assert!(rt; meet(&table, &mut all, b?));
    assert!(rt; meet(&table, &mut all, c?));
    assert!(rt; meet(&table, &mut all, d?));
    Ok(())
}
