//! What all layers share: names, blocks, statements and refusals, and the numbers, quorums and votes of one view.

#![tactic(auto)]

pub mod answers;
pub mod blocks;
pub mod names;
pub mod numbers;
pub mod quorums;
pub mod ranges;
pub mod refusals;
pub mod statements;
pub mod states;
pub mod theorems;
pub mod votes;

pub use answers::{Added, Binding};
pub use blocks::{BackboneBlock, Block, Entry, Names, Parent, References, SideBlock};
pub use names::Name;
pub use numbers::Numbers;
pub use ranges::{LAST_VIEW, view_fits};
pub use refusals::Refusal;
pub use statements::{Certificate, Claim, Offer, OfferClaim, Voices};
pub use states::{Probed, Sent, State};
pub use votes::{Event, Grade, SecondVote};
