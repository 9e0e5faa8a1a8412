// A bucket of the window: some of its values, next to each other, known by three doubles.
ghost use Rattle.std.specs.Prelude.{◌≡◌};
ghost use Rattle.adwin_buckets.specs.Bucket.{merged_of, single_of};

// `size` values with the sum `total`; `variance` is the sum of their squared deviations from their mean.
#[derive(Clone, Copy, Default)]
pub struct Bucket {
    pub size: f64,
    pub total: f64,
    pub variance: f64,
}

impl Bucket {
    // One value.
    pub fn single(value: f64) -> Bucket
        ensures { result ≡ single_of value }
    {
        Bucket {
            size: 1.0,
            total: value,
            variance: 0.0,
        }
    }

    // This older bucket and a newer one as one.
    pub fn merged(self, newer: Bucket) -> Bucket
        ensures { result ≡ merged_of self newer }
    {
        let size = self.size + newer.size;
        let gap = self.total / self.size - newer.total / newer.size;
        Bucket {
            size,
            total: self.total + newer.total,
            variance: self.variance + newer.variance + self.size * newer.size / size * gap * gap,
        }
    }
}
