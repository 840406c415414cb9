use model::State;

/// A station: the broadcast of its view, which has the numbers of Start and the view, and what it keeps beside it. It is not copied,
/// since a copy could vote again.
// No `impl Model`: it would ask `B: Observe` of every type that names a station.
#[derive(Drop)]
pub struct Station<B> {
    pub(crate) cast: B,
    pub(crate) state: State,
}
