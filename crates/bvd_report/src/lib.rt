//! The report of a run: what is told of each goal and each file, the lines that say so by command, and the exit status. What was done is put into values first and written afterwards, so that the report, the certificates and the status are functions of the same values.
#![tactic(auto)]

mod fault_line;
mod file_lines;
mod goal_line;
mod outcome_line;
mod replay_line;
mod reporting;
mod status;
mod summary;
mod told;

pub use fault_line::push_fault;
pub use outcome_line::push_outcome;
pub use replay_line::push_replay;
pub use reporting::report;
pub use status::status_of;
pub use told::{Found, Line, Part, Told, goals_of};
