ghost use Rattle.std.specs.Prelude.{◌*◌, ◌≤◌};

/// The numbers of Start: how many stations may lie, and which station this is. There are 3f + 1 stations, and f is from
/// 1 to 9. Only an accepted `Numbers::new` makes them.
#[derive(Clone, Copy, Debug, PartialEq, Eq)]
pub struct Numbers {
    pub(crate) f: u32,
    pub(crate) own: u32,
    ghost some: { 1 ≤ f },
    ghost few: { f ≤ 9 },
    ghost below: { own ≤ 3 * f },
}
