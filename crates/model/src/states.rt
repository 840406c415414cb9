use crate::statements::{Certificate, Claim, Offer, Voices};

/// What a station keeps beside its broadcast: its highest certificate, its target (the highest of grade 2), the heights of the kept
/// claims by station number, and whether a ground was given in this view.
#[derive(Clone, Copy, Debug, PartialEq, Eq)]
pub struct State {
    pub highest: Certificate,
    pub target: Certificate,
    pub claims: [Option<u32>; 28],
    pub grounded: bool,
}

/// What a station sends, as it stands in the outbox. An offer tells how many claims go along.
#[derive(Clone, Copy, Debug, PartialEq, Eq)]
pub enum Sent {
    Offer(Offer, u32),
    Voices(Voices),
    Certificate(Certificate),
    Claim(Claim),
}

/// The answer of Probe: the highest certificate, whose view the station may adopt, or the height, where there is none to adopt.
// No Result: both are answers of an accepted Probe, and neither is an error.
#[derive(Clone, Copy, Debug, PartialEq, Eq)]
pub enum Probed {
    Adopt(Certificate),
    NoAdopt(u32),
}
