// The questions before a stream opens, each a test of its own, and before an insert.
ghost use Rattle.std.specs.Prelude.{◌≡◌, Ok};
ghost use Rattle.model.specs.Questions.{dim_in_range, lambda_in_range, share_in_range, first_no, questions, insertion_asked};
ghost use Rattle.model.specs.Questions as doc;

use crate::answers::{InsertError, OpenError, ShapeError};
use crate::limits::CLOCK;
use feature::MAX_DIM;

// From 1 to 15.
pub fn dim_in_range(dim: usize) -> bool
    ensures { result ≡ dim_in_range dim }
{
    1 <= dim && dim <= MAX_DIM
}

// Finite and above 0.
fn positive(x: f64) -> bool
    ensures { result ≡ doc.positive x }
{
    float::is_finite(x) && 0.0 < x
}

// From 2 to the power -32 to 64.
fn lambda_in_range(lambda: f64) -> bool
    ensures { result ≡ lambda_in_range lambda }
{
    f64::from_bits(0x3df0_0000_0000_0000) <= lambda && lambda <= 64.0
}

// beta or alpha: above 0 and at most 1.
fn share_in_range(share: f64) -> bool
    ensures { result ≡ share_in_range share }
{
    0.0 < share && share <= 1.0
}

// The questions of both streams in order: the first no decides.
pub fn asked(dim: usize, radius: f64, lambda: f64, share: f64, weight: f64) -> Result<(), OpenError>
    ensures { result ≡ first_no (questions dim radius lambda share weight) (Ok tt) }
{
    if !dim_in_range(dim) {
        return Err(OpenError::Dim);
    }
    if !positive(radius) {
        return Err(OpenError::Radius);
    }
    if !lambda_in_range(lambda) {
        return Err(OpenError::Lambda);
    }
    if !share_in_range(share) {
        return Err(OpenError::Share);
    }
    if !positive(weight) {
        return Err(OpenError::Weight);
    }
    Ok(())
}

// An insert's questions in order; place says whether the point would be absorbed or has a place.
pub fn insertion_asked(dim: usize, got: usize, t: f64, place: bool) -> Result<(), InsertError>
    ensures { result ≡ insertion_asked dim got t place }
{
    if got != dim {
        return Err(InsertError::Shape(ShapeError { expected: dim, got }));
    }
    if !(t < CLOCK) {
        return Err(InsertError::ClockAtLimit);
    }
    if !place {
        return Err(InsertError::NoPlace);
    }
    Ok(())
}
