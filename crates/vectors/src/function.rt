// The functions that the records name by number.
use std::fmt;

#[derive(Clone, Copy)]
pub enum Function {
    Exp2,
    Ln,
    Log2,
    Ceil,
    Sqrt,
}

// A number that is no function's.
#[derive(Clone, Copy)]
pub struct Unknown;

impl TryFrom<u64> for Function {
    type Error = Unknown;

    fn try_from(number: u64) -> Result<Self, Unknown> {
        match number {
            1 => Ok(Self::Exp2),
            2 => Ok(Self::Ln),
            3 => Ok(Self::Log2),
            4 => Ok(Self::Ceil),
            5 => Ok(Self::Sqrt),
            _ => Err(Unknown),
        }
    }
}

impl Function {
    pub fn of(self, x: f64) -> f64 {
        match self {
            Self::Exp2 => float::exp2(x),
            Self::Ln => float::ln(x),
            Self::Log2 => float::log2(x),
            Self::Ceil => float::ceil(x),
            Self::Sqrt => sqrt::sqrt(x),
        }
    }
}

impl fmt::Display for Function {
    fn fmt<W: fmt::Write>(&self, f: &mut fmt::Formatter<W>) -> fmt::Result {
        let name = match self {
            Self::Exp2 => "exp2",
            Self::Ln => "ln",
            Self::Log2 => "log2",
            Self::Ceil => "ceil",
            Self::Sqrt => "sqrt",
        };
        write!(f, "{name}")
    }
}
