//! The range of views and of the numbers of an entry.

ghost use Rattle.std.specs.Prelude.{◌≡◌};
ghost use Rattle.model.specs.Ranges.{view_fits};

/// The last view that there is, and the highest number of an entry.
pub const LAST_VIEW: u32 = 0xfff_ffff;

/// Whether it is a view, or a number of an entry: from 1 to 2^28 - 1.
pub fn view_fits(view: u32) -> bool
    ensures { result ≡ view_fits view }
{
    (1..=LAST_VIEW).contains(&view)
}
