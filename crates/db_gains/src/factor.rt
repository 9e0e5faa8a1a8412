// The fade of the last link is kept for the next: most links of an insert fade from the same clock.
ghost use Rattle.std.specs.Prelude.{◌≡◌};
ghost use Rattle.db_gains.specs.Factor.{factor_of, same_bits, since_of};

// How much is left at the clock of the insert of what was there at last.
#[derive(Clone, Copy)]
pub(crate) struct Factor {
    pub(crate) last: f64,
    pub(crate) fade: f64,
}

impl Factor {
    // The fade from last to t, with the clock that it is from.
    pub(crate) fn new(lambda: f64, t: f64, last: f64) -> Self
        ensures { result ≡ factor_of lambda t last }
    {
        Self {
            last,
            fade: feature::fade(lambda, t, last),
        }
    }

    // The fade from last: the one kept, where it is from there too.
    pub(crate) fn since(&mut self, lambda: f64, t: f64, last: f64) -> f64
        ensures kept { self.new ≡ since_of lambda t self.old last }
        ensures fade { result ≡ self.new.fade }
    {
        if !is_same(self.last, last) {
            *self = Factor::new(lambda, t, last);
        }
        self.fade
    }
}

// Whether a and b are one double, bit for bit, so 0 is not -0, as `==` has it; a NaN is like none.
fn is_same(a: f64, b: f64) -> bool
    ensures { result ≡ same_bits a b }
{
    !a.is_nan() && !b.is_nan() && a.to_bits() == b.to_bits()
}
