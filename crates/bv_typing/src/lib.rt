//! Types of theorem files: which terms fit together, at which width a bare numeral is read, and what each goal states.
#![tactic(auto)]

mod goals;
mod item;
mod judging;
mod kind;
mod method;
mod methods;
mod misfit;
mod names;
mod note;
mod rows;
mod sorts;
mod source;
mod telling;
mod variables;
mod verdicts;

pub use goals::goal_end;
pub use item::Item;
pub use judging::{Judgement, judge};
pub use kind::{Kind, Row};
pub use method::{Method, Numbered};
pub use methods::method_of;
pub use misfit::{Misfit, earliest};
pub use names::{binders, goal_name, quoted_name};
pub use note::Note;
pub use rows::binary_of;
pub use source::File;
pub use variables::{Binding, bindings_of, variable_at};
