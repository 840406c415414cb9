ghost use Rattle.std.specs.Prelude.{◌≤◌, length};

/// A list of at most `N` things, in the first `N` of the places that the caller hands in, or in fewer where fewer were handed in.
// A length beside lent places: nothing here is on a heap, and the caller lends the memory.
// No `impl Model`: contracts speak of the list, of its bound and of the places behind it, and a record of the three would be opened in each clause.
#[derive(Drop)]
pub struct Bounded<'a, T, const N: usize> {
    pub(crate) places: &'a mut [T],
    pub(crate) len: usize,
    ghost within: { len ≤ length places.now },
    ghost under: { len ≤ N },
}
