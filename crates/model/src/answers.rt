// What a stream answers where it refuses: the error of each call, and its number.
ghost use Rattle.std.specs.Prelude.{◌≡◌, Err, MatchResult};
ghost use Rattle.model.specs.Answers.{open_error_number, insert_error_number, read_out_number, prediction_said, connectivity_said};

// Why a stream is not opened: the first question whose answer is no.
#[derive(Clone, Copy, PartialEq, Eq)]
pub enum OpenError {
    Dim,
    // eps or r
    Radius,
    Lambda,
    // beta or alpha
    Share,
    // mu or min_weight
    Weight,
    // DenStream's beta * mu
    BetaMu,
}

impl From<OpenError> for u64 {
    ghost from_gives = { λ e n. n ≡ open_error_number e };

    // The refusal's number.
    fn from(error: OpenError) -> u64 {
        match error {
            OpenError::Dim => 1,
            OpenError::Radius => 2,
            OpenError::Lambda => 3,
            OpenError::Share => 4,
            OpenError::Weight => 5,
            OpenError::BetaMu => 6,
        }
    }
}

// A point's length is not the stream's: why it is not taken, and why it is told no label.
#[derive(Clone, Copy, PartialEq, Eq)]
pub struct ShapeError {
    pub expected: usize,
    pub got: usize,
}

impl From<ShapeError> for u64 {
    ghost from_gives = { λ e n. n ≡ (prediction_said (Err e)).number };

    // The refusal's number.
    fn from(_error: ShapeError) -> u64 {
        7
    }
}

// Why a point is not taken.
#[derive(Clone, Copy, PartialEq, Eq)]
pub enum InsertError {
    Shape(ShapeError),
    ClockAtLimit,
    NoPlace,
}

impl From<InsertError> for u64 {
    ghost from_gives = { λ e n. n ≡ insert_error_number e };

    // The refusal's number.
    fn from(error: InsertError) -> u64 {
        match error {
            InsertError::Shape(error) => error.into(),
            InsertError::ClockAtLimit => 8,
            InsertError::NoPlace => 9,
        }
    }
}

// Why nothing is written: a lent slice has no place for each element due.
#[derive(Clone, Copy, Debug, PartialEq, Eq)]
pub struct TooShort;

impl From<TooShort> for u64 {
    ghost from_gives = { λ e n. n ≡ read_out_number (Err e) };

    // The refusal's number.
    fn from(_error: TooShort) -> u64 {
        10
    }
}

// Why there is no connectivity: the creation numbers are not both held, or not different.
#[derive(Clone, Copy, PartialEq, Eq)]
pub struct NotLive;

impl From<NotLive> for u64 {
    ghost from_gives = { λ e n. n ≡ (connectivity_said (Err e)).number };

    // The refusal's number.
    fn from(_error: NotLive) -> u64 {
        12
    }
}

// The number of an answer: the refusal's, or 0.
pub fn number_of<E: Into<u64>>(answer: Result<(), E>) -> u64
    ensures { MatchResult answer (λ _. result ≡ 0) (λ e. E.converts e result) }
{
    match answer {
        Ok(()) => 0,
        Err(error) => error.into(),
    }
}
