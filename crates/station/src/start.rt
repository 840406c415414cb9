ghost use Rattle.model.specs.Passing.{StartCall};
ghost use Rattle.station.specs.Meaning.{core_of};

use crate::stations::Station;
use broadcast::Broadcast;
use model::{Certificate, Grade, Name, Numbers, Refusal, State};

// Genesis counts as certified in grade 2.
const GENESIS: Certificate = Certificate {
    grade: Grade::Two as u32,
    view: 0,
    name: Name::GENESIS,
    mask: 0,
};

impl<B: Broadcast> Station<B> {
    /// A new station in view 1, if f is from 1 to 9 and the own number at most 3f.
    pub fn start(f: u32, own: u32) -> Result<Station<B>, Refusal>
        ensures { StartCall (core_of B.Observe) f own result }
    {
        let numbers = Numbers::new(f, own)?;
        Ok(Station {
            cast: B::fresh(numbers),
            state: State {
                highest: GENESIS,
                target: GENESIS,
                claims: [None; 28],
                grounded: false,
            },
        })
    }
}
