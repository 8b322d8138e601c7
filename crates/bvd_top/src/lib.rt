//! The commands of the program, from words to report. A run reads its files, parses them, answers their goals, and makes
//! the report; then it writes the certificates, and tells the report. Each of these steps has a file of its own.
#![tactic(auto)]

mod answering;
mod checking;
mod clauses;
mod keeping;
mod laws;
mod naming;
mod parsing;
mod reading;
mod run;
mod scheduling;
mod solving;
mod stop;
mod storing;
mod telling;
#[cfg(test)]
mod tests;

pub use laws::later_checks_accept;
pub use run::run_single;
