/// How a message lies in its words: by its type, and of side blocks by their entry.
#[derive(Debug, Clone, Copy, PartialEq, Eq)]
pub(crate) enum Layout {
    Bind,
    Release,
    Backbone,
    Offer,
    Voices,
    Certificate,
    Claim,
    Probe,
    Leave,
}
