use model::{BackboneBlock, Certificate, Claim, Offer, SideBlock, Voices};

/// A message between stations.
#[derive(Debug, Clone, Copy, PartialEq, Eq)]
pub enum Message<'a> {
    Side(SideBlock),
    Backbone(BackboneBlock),
    /// An offer and the words of its claims: of a message that was read, a part of its words.
    Offer { offer: Offer, claims: &'a [u32] },
    Voices(Voices),
    Certificate(Certificate),
    Claim(Claim),
    Probe,
    Leave,
}
