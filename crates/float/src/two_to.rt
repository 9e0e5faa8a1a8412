// Two to the y: a short power series for the part below 1, and a power of two made from its bits.
ghost use Rattle.std.specs.Prelude.{◌≡◌, ◌≤◌, T};
ghost use Rattle.std.specs.Float.Ieee.{lt};
ghost use Rattle.float.specs.Rounded.{nought, one};
ghost use Rattle.float.specs.Cut.{cut_of};
ghost use Rattle.float.specs.TwoTo.{steps, minus_power, two_to};

use crate::binary64::{BIAS, DIGITS, LEAD};

// The double with bits 3FE62E42FEFA39EF, near the logarithm of 2.
pub(crate) const L: f64 = 0.6931471805599453;

// For n from 20 down to 1, h becomes 1 + (z * h) / n.
fn horner(z: f64) -> f64
    ensures { result ≡ steps z 20 one }
{
    let mut h = 1.0;
    for n in (1..21u32).rev() {
        h = 1.0 + (z * h) / (n as f64);
    }
    h
}

// y cut towards zero, for y below 0, by the cases of its exponent: document 02, item 3 names the form, so it stays beside f64::trunc.
fn cut(y: f64) -> f64
    requires { T (lt y nought) }
    ensures { result ≡ cut_of y }
{
    let bits = f64::to_bits(-y);
    let biased = bits / LEAD;
    // Below 0: nothing of y is whole.
    let below_one = biased < BIAS;
    if below_one {
        return -0.0;
    }
    let exponent = biased - BIAS;
    // 0 to 51: the digits behind the point are dropped.
    let has_fraction = exponent < DIGITS;
    if has_fraction {
        let significand = LEAD + bits % LEAD;
        return -((significand >> (DIGITS - exponent)) as f64);
    }
    // 52 and above: y is whole, or infinite.
    y
}

// 2 to the power -c, made of its bits: std has no power of two that is known to be exact.
fn power_down(c: u64) -> f64
    requires { c ≤ 1022 }
    ensures { result ≡ minus_power c }
{
    f64::from_bits((BIAS - c) * LEAD)
}

// Two to the y, for every y.
pub fn exp2(y: f64) -> f64
    ensures { result ≡ two_to y }
{
    if y < 0.0 {
        let k = cut(y);
        if k < -1022.0 {
            return 0.0;
        }
        let c = std::num::truncating_f64_to_u64(-k);
        return horner((y - k) * L) * power_down(c);
    }
    1.0
}
