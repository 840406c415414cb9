//! Whether numbers are in range.

ghost use Rattle.std.specs.Prelude.{◌≡◌};
ghost use Rattle.model.specs.Blocks.{referred};
ghost use Rattle.model.specs.Questions.{Judged};
ghost use Rattle.model.specs.Ranges.{some_stations, name_fits, names_fit, entry_fits, block_fits};
ghost use Rattle.station.specs.Ready.{IsGrade, range_questions};

use model::{Block, Entry, Grade, Name, Numbers, References, Refusal, view_fits};

/// Whether the mask is of some stations, all of them stations that there are.
#[tactic(auto, unfolding(model::specs::Ranges::some_stations))]
pub(crate) fn some_stations(numbers: Numbers, mask: u32) -> bool
    ensures { result ≡ some_stations numbers mask }
{
    mask != 0 && numbers.is_within(mask)
}

/// Whether it is a name, and not that of genesis.
#[tactic(auto, unfolding(model::specs::Ranges::name_fits))]
pub(crate) fn name_fits(name: Name) -> bool
    ensures { result ≡ name_fits name }
{
    name.halves_fit() && name != Name::GENESIS
}

/// The grade of that number, if it is one and view and name are in range.
#[tactic(auto, unfolding(model::specs::Ranges::grade_fits))]
pub(crate) fn judge_ranges(grade: u32, view: u32, name: Name) -> Result<Grade, Refusal>
    ensures { Judged (range_questions grade view name) (IsGrade grade) result }
{
    let grade = Grade::try_from(grade)?;
    if !(view_fits(view) && name_fits(name)) {
        return Err(Refusal::OutOfRange);
    }
    Ok(grade)
}

/// Whether each of them is such a name.
fn names_fit(references: References) -> bool
    ensures { result ≡ names_fit (referred references) }
{
    references.into_iter().all(name_fits)
}

/// Whether each number of the entry is in range.
#[tactic(auto, unfolding(model::specs::Ranges::entry_fits))]
fn entry_fits(entry: Entry) -> bool
    ensures { result ≡ entry_fits entry }
{
    match entry {
        Entry::Bind {
            sonde,
            certificate,
            flight,
        } => view_fits(sonde) && view_fits(certificate) && view_fits(flight),
        Entry::Release { sonde, flight } => view_fits(sonde) && view_fits(flight),
    }
}

/// Whether the block's numbers but its author are in range.
#[tactic(auto, unfolding(model::specs::Ranges::block_fits))]
pub(crate) fn block_fits(block: Block) -> bool
    ensures { result ≡ block_fits block }
{
    match block {
        Block::Side(side) => {
            name_fits(side.name) && entry_fits(side.entry) && names_fit(side.references)
        }
        Block::Backbone(backbone) => {
            name_fits(backbone.name)
                && view_fits(backbone.view)
                && backbone.parent.name.halves_fit()
                && names_fit(backbone.references)
        }
    }
}
