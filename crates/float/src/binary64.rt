// IEEE 754's binary64 as bits: the sign, the biased exponent, the digits.

// What is added to an exponent to keep it as bits.
pub(crate) const BIAS: u64 = 1023;

// How many binary digits are kept below the leading one.
pub(crate) const DIGITS: u64 = 52;

// 2^52: the leading one above its digits, and one step of the biased exponent.
pub(crate) const LEAD: u64 = 1 << DIGITS;
