ghost use Rattle.std.specs.Prelude.{◌≡◌};
ghost use Rattle.profile.specs.Uses.{use_of};

use model::Binding;

/// What a profile program does with a sonde's raw values.
// Not an Option: the project has the profile program take Lookup's Option apart.
#[derive(Clone, Copy, Debug, PartialEq, Eq)]
pub enum Use {
    /// Converts them with the constants of this certificate, for this flight.
    Convert { certificate: u32, flight: u32 },
    /// Passes them over: no certificate holds.
    PassOver,
}

impl From<Option<Binding>> for Use {
    ghost from_gives = { λ held u. u ≡ use_of held };

    fn from(held: Option<Binding>) -> Use {
        match held {
            Some(binding) => Use::Convert {
                certificate: binding.certificate,
                flight: binding.flight,
            },
            None => Use::PassOver,
        }
    }
}
