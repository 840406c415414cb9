//! Messages in words of 32 bits.

#![tactic(auto)]

mod claims;
mod judging;
mod kinds;
mod laws;
mod layouts;
pub mod messages;
mod parts;
mod reading;
mod types;
mod writing;

pub use claims::{read_claims, write_claims};
pub use laws::{claims_round_trip, words_round_trip};
pub use messages::Message;
pub use reading::read;
pub use writing::write;
