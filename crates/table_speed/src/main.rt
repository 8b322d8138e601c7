//! Builds many gates, by a plain list or by threads that share one table, so that a script can time it.
//! It prints how many blocks of adders were built, which hangs on nothing but the command line.
#![tactic(auto)]

mod blocks;
mod crew;

use blocks::build_blocks;
use crew::build_shared;
use gate_shape::ListBuilder;
use std::{env, io};

/// The number that is the next word, or 0.
fn number(words: &mut env::Args) -> u32 {
    match words.next() {
        Some(word) => word.parse::<u32>().unwrap_or(0),
        None => 0,
    }
}

/// The words are the number of threads, 1 to 16, or 0 for the plain list; the number of blocks; and the
/// number of words of the table or of gates of the list, 1 to 4,000,000.
fn main(rt: HostRuntime) -> io::Result<()> {
    let mut words = env::args(&rt)?;
    let _name = words.next();
    let threads = number(&mut words).min(16);
    let count = number(&mut words);
    let size = number(&mut words).clamp(1, 4_000_000);
    if threads == 0 {
        let mut list = ListBuilder::new(rt.alloc(), size);
        let built = build_blocks(&mut list, 0, 1, count);
        println!(rt; "list: {built} blocks, {} gates", list.len())
    } else {
        let built = build_shared(&rt, rt.alloc(), threads, count, size)?;
        println!(rt; "{threads} threads: {built} blocks")
    }
}
