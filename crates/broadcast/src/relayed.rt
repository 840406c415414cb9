ghost use Rattle.std.specs.Prelude.{◌≡◌, true};
ghost use Rattle.model.specs.declared.votes.Grade.{Grade};
ghost use Rattle.broadcast.specs.Grades.{of};
ghost use Rattle.broadcast.specs.Supports.{inside, owned};

use crate::ballots::Ballot;
use crate::grades::PerGrade;
use crate::support::Support;

/// A broadcast in which the leader collects the voices and passes a quorum of them on: it keeps one whole proof for
/// each grade, once there is one. A leader's is under its own first vote. It is not copied, since a copy could vote again.
#[derive(Drop)]
pub struct Relayed {
    pub(crate) ballot: Ballot,
    pub(crate) supports: PerGrade<Option<Support>>,
    ghost inside: { (g : Grade) → inside ballot (of supports g) ≡ true },
    ghost owned: { (g : Grade) → owned ballot (of supports g) ≡ true },
}
