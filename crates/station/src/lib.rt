//! One station over any broadcast: its calls, each answered by the first question that is answered no, or accepted. A call is handed the
//! book or the outbox where it uses them, and changes nothing where it refuses.

#![tactic(auto)]

mod add;
mod certificate;
mod claim;
pub mod clauses;
mod ground;
pub mod grounds;
mod leave;
mod offer;
mod outbox;
mod probe;
mod ranges;
mod start;
pub mod stations;
mod views;
mod voices;

pub use grounds::Ground;
pub use outbox::{Outbox, take};
pub use stations::Station;
