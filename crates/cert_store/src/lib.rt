//! Certificates in a keeper of files: written whole or said to have failed, and read back as a source.
#![tactic(auto)]

mod fetching;
mod putting;
mod stop;
#[cfg(test)]
mod tests;

pub use fetching::{fetch, find};
pub use putting::put;
pub use stop::StoreStop;
