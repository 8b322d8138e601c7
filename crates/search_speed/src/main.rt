//! Searches the clauses of a DIMACS file within a budget of steps and makes the text of the certificate, so that a script can time it. The words behind the program's name are the file and the budget, and maybe a file for the certificate.
#![tactic(auto)]

mod draft;
mod measured;
mod pieces;

use cdcl_solver::Search;
use draft::clauses_of;
use measured::{Found, search};
use sat_form::Cnf;
use std::{env, fs};

/// The clauses that a file has, where it has clauses; its text isn't held any longer then.
fn clauses_in(rt: &HostRuntime, path: &str) -> anyhow::Result<Option<Cnf>> {
    let text = fs::read_to_string(rt, path)?;
    Ok(clauses_of(rt.alloc(), &text)?)
}

/// Writes the certificate of a search into the file of that name, if one is named. Answers how many bytes it has.
fn certificate(rt: &HostRuntime, searched: &Search, path: Option<String>) -> anyhow::Result<u64> {
    let file = match path {
        Some(path) => Some(fs::create(rt, path.as_str())?),
        None => None,
    };
    Ok(pieces::write(rt.alloc(), searched.log(), file)?)
}

fn main(rt: HostRuntime) -> anyhow::Result<()> {
    let mut words = env::args(&rt)?;
    let _name = words.next();
    let (Some(path), Some(budget)) = (words.next(), words.next()) else {
        println!(rt; "usage: search_speed FILE STEPS [CERTIFICATE]")?;
        return Ok(());
    };
    let Some(cnf) = clauses_in(&rt, path.as_str())? else {
        println!(rt; "no clauses")?;
        return Ok(());
    };
    let budget = budget.parse::<u64>().unwrap_or(0).min(1 << 62);
    match search(rt.alloc(), &cnf, budget)? {
        Found::Satisfiable(spent) => println!(rt; "sat {spent}")?,
        Found::Unsatisfiable(spent, searched) => {
            let length = certificate(&rt, &searched, words.next())?;
            println!(rt; "unsat {spent} {length}")?;
        }
        Found::Unknown(spent) => println!(rt; "budget {spent}")?,
    }
    Ok(())
}
