//! What the words of the command line ask for: the commands, their tables of options, and the request that words make.
ghost use Rattle.std.specs.Prelude.{◌≡◌, ◌≤◌, option_map, map, string_bytes, length, IfOk, IfSome};
ghost use Rattle.bvd_words.specs.Requests.{command_of, options_of, most_files, seed_in, steps_in, table_in, request_from, request_of};
ghost use Rattle.bvd_words.specs.Shown.{table, items_shown};
ghost use Rattle.bvd_words.specs.Asked.{command_shown, request_shown};

use crate::items::{files_of, has_flag, is_each_once, number_in, number_or, text_of};
use crate::reader::{CommandOption, Item, Kind, cut};
use std::alloc::{AllocError, Global};

/// A command of the program.
#[derive(Clone, Copy)]
pub enum Command {
    Prove,
    Alone,
    Check,
    Schedule,
    Cnf,
    Show,
}

/// What is asked for. A part that the command has no option for has the value of an option that is left out.
#[derive(Drop)]
pub struct Request<'a> {
    pub command: Command,
    /// The step budget of each goal.
    pub steps: u64,
    /// The seed of the schedule; 0 for a command without one.
    pub seed: u32,
    /// How many words the table of the schedule has.
    pub table: u32,
    /// Whether the report leaves out the lines of goals.
    pub quiet: bool,
    /// The files in order.
    pub files: Vec<&'a str>,
}

/// The command of a word.
pub fn command_of(word: &str) -> Option<Command>
    ensures { option_map command_shown result ≡ command_of word.now }
{
    if word == "prove" {
        Some(Command::Prove)
    } else if word == "alone" {
        Some(Command::Alone)
    } else if word == "check" {
        Some(Command::Check)
    } else if word == "schedule" {
        Some(Command::Schedule)
    } else if word == "cnf" {
        Some(Command::Cnf)
    } else if word == "show" {
        Some(Command::Show)
    } else {
        None
    }
}

/// The options of commands that solve.
static SOLVING: [CommandOption<'static>; 2] = [
    CommandOption {
        name: "steps",
        kind: Kind::Number {
            least: 1,
            most: 1_000_000_000,
        },
    },
    CommandOption {
        name: "quiet",
        kind: Kind::Switch,
    },
];

/// The options of `schedule`.
static SCHEDULING: [CommandOption<'static>; 4] = [
    CommandOption {
        name: "seed",
        kind: Kind::Number {
            least: 0,
            most: 4_294_967_295,
        },
    },
    CommandOption {
        name: "steps",
        kind: Kind::Number {
            least: 1,
            most: 1_000_000_000,
        },
    },
    CommandOption {
        name: "table",
        kind: Kind::Number {
            least: 1,
            most: 4_000_000,
        },
    },
    CommandOption {
        name: "quiet",
        kind: Kind::Switch,
    },
];

/// The options of a command.
pub fn options_of(command: Command) -> &'static [CommandOption<'static>]
    ensures { table result.now ≡ options_of (command_shown command) }
{
    match command {
        Command::Prove | Command::Alone => &SOLVING,
        Command::Schedule => &SCHEDULING,
        Command::Check | Command::Cnf | Command::Show => &[],
    }
}

/// How many files a command takes at most; each takes at least one.
pub fn most_files(command: Command) -> usize
    ensures value { result ≡ most_files (command_shown command) }
    ensures few { result ≤ 64 }
{
    match command {
        Command::Cnf | Command::Show => 1,
        Command::Prove | Command::Alone | Command::Check | Command::Schedule => 64,
    }
}

/// The step budget that items give.
fn steps_of(items: &[Item<'_>]) -> Option<u64>
    ensures steps { result ≡ steps_in (items_shown items.now) }
    ensures most { IfSome result (λ n. n ≤ 1000000000) }
{
    number_or(10_000_000, 1, 1_000_000_000, text_of(items, "steps"))
}

/// The seed that items give, or 0 for a command without one.
fn seed_of(command: Command, items: &[Item<'_>]) -> Option<u32>
    ensures { result ≡ seed_in (command_shown command) (items_shown items.now) }
{
    match command {
        Command::Schedule => match text_of(items, "seed") {
            Some(text) => number_in(text, 0, 4_294_967_295).map(|n| n as u32),
            None => None,
        },
        Command::Prove | Command::Alone | Command::Check | Command::Cnf | Command::Show => Some(0),
    }
}

/// The size of the table that items give.
fn table_of(items: &[Item<'_>]) -> Option<u32>
    ensures table { result ≡ table_in (items_shown items.now) }
    ensures size { IfSome result (λ n. (1 ≤ n) × (n ≤ 4000000)) }
{
    number_or(2_097_152, 1, 4_000_000, text_of(items, "table")).map(|n| n as u32)
}

/// The request that items make.
fn request_from<'a>(
    alloc: Global,
    command: Command,
    items: &[Item<'a>],
) -> Result<Option<Request<'a>>, AllocError>
    ensures request { IfOk result (λ r. option_map request_shown r ≡ request_from (command_shown command) (items_shown items.now)) }
    ensures few { IfOk result (λ r. IfSome r (λ request. length request.files.items ≤ 64)) }
    ensures most { IfOk result (λ r. IfSome r (λ request. request.steps ≤ 1000000000)) }
    ensures table { IfOk result (λ r. IfSome r (λ request. (1 ≤ request.table) × (request.table ≤ 4000000))) }
{
    let files = files_of(alloc, items)?;
    if !is_each_once(items) || files.is_empty() || files.len() > most_files(command) {
        return Ok(None);
    }
    match (steps_of(items), seed_of(command, items), table_of(items)) {
        (Some(steps), Some(seed), Some(table)) => Ok(Some(Request {
            command,
            steps,
            seed,
            table,
            quiet: has_flag(items, "quiet"),
            files,
        })),
        _ => Ok(None),
    }
}

/// Reads the words of the command line, the first of which is the command; None exactly where they are refused.
/// Errors: want of memory alone. Cost: linear in the words' bytes.
pub fn read_words<'a>(alloc: Global, words: &'a [String]) -> Result<Option<Request<'a>>, AllocError>
    ensures request { IfOk result (λ r. option_map request_shown r ≡ request_of (map string_bytes words.now)) }
    ensures few { IfOk result (λ r. IfSome r (λ request. length request.files.items ≤ 64)) }
    ensures most { IfOk result (λ r. IfSome r (λ request. request.steps ≤ 1000000000)) }
    ensures table { IfOk result (λ r. IfSome r (λ request. (1 ≤ request.table) × (request.table ≤ 4000000))) }
{
    let [word, rest @ ..] = words else {
        return Ok(None);
    };
    let Some(command) = command_of(word.as_str()) else {
        return Ok(None);
    };
    match cut(alloc, options_of(command), rest)? {
        Some(items) => request_from(alloc, command, &items),
        None => Ok(None),
    }
}
