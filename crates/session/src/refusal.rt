// Why a run is refused.
ghost use Rattle.std.specs.Prelude.{◌≡◌};
ghost use Rattle.session.specs.declared.refusal.Refusal.TheVariants.{Opening};
ghost use Rattle.session.specs.Refused.{refusal_number};

use model::{OpenError, TooShort};

// The opening's refusal, or a lent slice without a place for each insert's number. Each call has the list of what it alone can refuse:
// input_session's has but the opening in common with this one.
#[derive(Clone, Copy, PartialEq, Eq)]
pub enum Refusal {
    Opening(OpenError),
    TooShort(TooShort),
}

impl From<OpenError> for Refusal {
    ghost from_gives = { λ e r. r ≡ Opening e };

    fn from(error: OpenError) -> Refusal {
        Refusal::Opening(error)
    }
}

impl From<Refusal> for u64 {
    ghost from_gives = { λ r n. n ≡ refusal_number r };

    // The refusal's number.
    fn from(refusal: Refusal) -> u64 {
        match refusal {
            Refusal::Opening(error) => error.into(),
            Refusal::TooShort(error) => error.into(),
        }
    }
}
