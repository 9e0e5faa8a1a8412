// The search over the buckets, oldest first, for a cut that fails.
ghost use Rattle.std.specs.Prelude.{◌≡◌};
ghost use Rattle.float.specs.Rounded.{nought};
ghost use Rattle.adwin_buckets.specs.Cut.{some_fails};

use crate::bucket::Bucket;
use crate::cut::CutTest;

// Places for buckets. 2^40 - 1 values fill at most 224, with 6 in each class; one more is for the newest.
pub const PLACES: usize = 225;

// Whether a cut fails after one of the buckets. They are lent, oldest first.
pub fn some_fails(test: CutTest, buckets: &[Bucket]) -> bool
    ensures { result ≡ some_fails test nought nought buckets.now }
{
    let mut n0 = 0.0;
    let mut t0 = 0.0;
    for b in buckets {
        n0 += b.size;
        t0 += b.total;
        if test.fails(n0, t0) {
            return true;
        }
    }
    false
}
