//! Threads that build blocks in one table.

ghost use Rattle.std.specs.Prelude.{◌≡◌, ◌≤◌};

use crate::blocks::build_blocks;
use gate_table::{GateSeat, GateTable, SeatBuilder};
use std::alloc::{AllocError, Global};
use std::thread;
use std::thread::Threads;

/// What one thread works with, which blocks it builds, and how many it has built.
#[derive(Drop)]
struct Worker<'a> {
    table: &'a GateTable,
    seat: GateSeat,
    from: u32,
    step: u32,
    count: u32,
    built: u32,
    ghost of: { seat.table ≡ table.now },
    ghost forward: { 1 ≤ step },
}

impl<'a> Worker<'a> {
    fn work(&mut self) {
        let mut seat = self.table.split(&mut self.seat);
        let mut builder = SeatBuilder::new(self.table, &mut seat);
        self.built = build_blocks(&mut builder, self.from, self.step, self.count);
    }
}

/// One worker for each thread, each with a seat of its own.
fn workers<'a>(
    alloc: Global,
    table: &'a GateTable,
    seat: &mut GateSeat,
    threads: u32,
    count: u32,
) -> Result<Vec<Worker<'a>>, AllocError>
    requires { seat.old.table ≡ table.now }
{
    let mut crew = Vec::new(alloc);
    for from in 0..threads {
        crew.push(Worker {
            table,
            seat: table.split(seat),
            from,
            step: threads,
            count,
            built: 0,
        })?;
    }
    Ok(crew)
}

/// Builds the blocks below `count` in a table of so many words by so many threads, each its share of
/// them, and answers how many were built.
pub(crate) fn build_shared<R: Threads + Sync>(
    rt: &R,
    alloc: Global,
    threads: u32,
    count: u32,
    size: u32,
) -> Result<u32, AllocError>
    requires threads { 1 ≤ threads }
    requires size { (1 ≤ size) × (size ≤ 4000000) }
{
    let (table, mut seat) = GateTable::new(alloc, size)?;
    let mut crew = workers(alloc, &table, &mut seat, threads, count)?;
    thread::for_each_mut(
        rt,
        crew.as_mut_slice(),
        threads as usize,
        &|_, worker| worker.work(),
    );
    let mut built = 0u32;
    for worker in &crew {
        built = built.saturating_add(worker.built);
    }
    Ok(built)
}
