// The natural logarithm of a number of 1 or more, and the one to base 2.
ghost use Rattle.std.specs.Prelude.{◌≡◌, ◌≤◌, T};
ghost use Rattle.std.specs.Float.Ieee.{le};
ghost use Rattle.float.specs.Rounded.{nought, one};
ghost use Rattle.float.specs.Order.{is_finite};
ghost use Rattle.float.specs.Ln.{ln_of, log2_of, series, exponent_of, plus_power};

use crate::binary64::{BIAS, LEAD};
use crate::order::is_finite;
use crate::two_to::L;

// The e with v = m * 2^e and 1 <= m < 2. By its bits: std tells no exponent.
fn exponent(v: f64) -> u64
    requires from_one { T (le one v) }
    requires finite { T (is_finite v) }
    ensures { (result ≡ exponent_of v) × (result ≤ 1023) }
{
    f64::to_bits(v) / LEAD - BIAS
}

// 2 to the power e, made of its bits: std has no power of two that is known to be exact.
fn power_up(e: u64) -> f64
    requires { e ≤ 1023 }
    ensures { result ≡ plus_power e }
{
    f64::from_bits((BIAS + e) * LEAD)
}

// For k from 20 down to 0, h becomes h * q + 1 / (2 * k + 1).
fn log_series(q: f64) -> f64
    ensures { result ≡ series q 21 nought }
{
    let mut h = 0.0;
    for k in (0..21u32).rev() {
        h = h * q + 1.0 / ((2 * k + 1) as f64);
    }
    h
}

// ln v, for v at least 1; infinity, NaN and what is below 1 stay themselves.
pub fn ln(v: f64) -> f64
    ensures { result ≡ ln_of v }
{
    if !(v >= 1.0 && is_finite(v)) {
        return v;
    }
    let e = exponent(v);
    let m = v / power_up(e);
    let s = (m - 1.0) / (m + 1.0);
    (e as f64) * L + (2.0 * s) * log_series(s * s)
}

// The logarithm to base 2: the natural one over L.
pub fn log2(v: f64) -> f64
    ensures { result ≡ log2_of v }
{
    ln(v) / L
}
