ghost use Rattle.std.specs.Prelude.{◌≡◌};
ghost use Rattle.std.specs.Borrow.{sem};
ghost use Rattle.broadcast.specs.Grades.{of, LendsOne};

use model::Grade;

/// One thing for each grade.
#[derive(Drop)]
pub(crate) struct PerGrade<T> {
    pub(crate) one: T,
    pub(crate) two: T,
}

impl<T> PerGrade<T> {
    /// The one of that grade.
    pub(crate) fn of(&self, grade: Grade) -> &T
        ensures { result.now ≡ of self.now grade }
    {
        match grade {
            Grade::One => &self.one,
            Grade::Two => &self.two,
        }
    }

    /// The one of that grade, to change it.
    pub(crate) fn of_mut(&mut self, grade: Grade) -> &mut T
        ensures value { result.now ≡ of self.old grade }
        ensures* writes_back { sem 𝓛 (LendsOne T.row self.entry grade result) }
    {
        match grade {
            Grade::One => &mut self.one,
            Grade::Two => &mut self.two,
        }
    }
}

impl<T: Copy> PerGrade<T> {
    /// The same for both grades.
    pub(crate) fn both(thing: T) -> PerGrade<T>
        ensures { result ≡ record { one = thing; two = thing } }
    {
        PerGrade {
            one: thing,
            two: thing,
        }
    }
}
