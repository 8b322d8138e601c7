//! The names of certificates: by the goal's number in the run, or for a check the name that the goal gives.
ghost use Rattle.std.specs.Prelude.{◌≡◌, string_bytes, unwrap_or, IfOk};
ghost use Rattle.bv_expr.specs.Statement.{statement_of};
ghost use Rattle.bvd_words.specs.Asked.{command_shown};
ghost use Rattle.bvd_top.specs.Names.{numbered, certificate_of};

use bv_expr::Goal;
use bvd_words::Command;
use std::alloc::{AllocError, Global};

/// The name of a goal's certificate by its number.
fn numbered(alloc: Global, number: usize) -> Result<String, AllocError>
    ensures { IfOk result (λ name. string_bytes name ≡ numbered number) }
{
    format!(in alloc; "goal-{number}.lrat")
}

/// The name of the certificate that a goal gives, else the one by its number.
fn stored_name(alloc: Global, number: usize, goal: &Goal) -> Result<String, AllocError>
    ensures { IfOk result (λ name. string_bytes name ≡ unwrap_or goal.now.stored (numbered number)) }
{
    match &goal.stored {
        Some(name) => String::from_str(alloc, name.as_str()),
        None => numbered(alloc, number),
    }
}

/// The file of a goal's certificate.
pub fn certificate_name(
    alloc: Global,
    command: Command,
    number: usize,
    goal: &Goal,
) -> Result<String, AllocError>
    ensures { IfOk result (λ name. string_bytes name ≡ certificate_of (command_shown command) number (statement_of goal.now)) }
{
    match command {
        Command::Check => stored_name(alloc, number, goal),
        Command::Prove | Command::Alone | Command::Schedule | Command::Cnf | Command::Show =>
            numbered(alloc, number),
    }
}
