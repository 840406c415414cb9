//! Rehearsal scripts: reading their lines, playing them, and printing the answers.

#![tactic(auto)]

pub mod faults;
pub mod numerals;
mod parsing;
pub mod playing;
mod showing;

pub use faults::Fault;
pub use numerals::{number, short_number, word};
pub use playing::play;
