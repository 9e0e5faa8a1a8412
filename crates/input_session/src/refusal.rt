// Why a session ends.
ghost use Rattle.std.specs.Prelude.{◌≡◌};
ghost use Rattle.input_session.specs.declared.refusal.Refusal.TheVariants.{Opening, Insertion};
ghost use Rattle.input_session.specs.Refused.{refusal_number};

use model::{InsertError, OpenError};

// The input is not settings and whole points, the opening was refused, or an insert. Each call has the list of what it alone can refuse:
// session's has but the opening in common with this one.
#[derive(Clone, Copy, PartialEq, Eq)]
pub enum Refusal {
    Input,
    Opening(OpenError),
    Insertion(InsertError),
}

impl From<OpenError> for Refusal {
    ghost from_gives = { λ e r. r ≡ Opening e };

    fn from(error: OpenError) -> Refusal {
        Refusal::Opening(error)
    }
}

impl From<InsertError> for Refusal {
    ghost from_gives = { λ e r. r ≡ Insertion e };

    fn from(error: InsertError) -> Refusal {
        Refusal::Insertion(error)
    }
}

impl From<Refusal> for u64 {
    ghost from_gives = { λ r n. n ≡ refusal_number r };

    // The refusal's number.
    fn from(refusal: Refusal) -> u64 {
        match refusal {
            Refusal::Input => 11,
            Refusal::Opening(error) => error.into(),
            Refusal::Insertion(error) => error.into(),
        }
    }
}
