// What is kept of a micro-cluster.
ghost use Rattle.std.specs.Prelude.{◌≡◌};
ghost use Rattle.model.specs.declared.body.Body.{Body};

use crate::body::Body;

// What both streams keep of a micro-cluster, whatever stands beside it.
pub trait Micro {
    ghost body_of: { Self → Body };

    fn body(&self) -> &Body
        ensures { result.now ≡ body_of self.now };
}

impl Micro for Body {
    ghost body_of = { λ b. b };

    fn body(&self) -> &Body {
        self
    }
}

// A creation number: never a place in a list.
#[derive(Clone, Copy, PartialEq, Eq, PartialOrd, Ord)]
pub struct MicroId(pub u64);

// DBSTREAM's, with its creation number.
#[derive(Clone, Copy)]
pub struct DbMicro {
    pub body: Body,
    pub id: MicroId,
}

impl Micro for DbMicro {
    ghost body_of = { λ m. m.body };

    fn body(&self) -> &Body {
        &self.body
    }
}

// DenStream's, with the clock at its birth.
#[derive(Clone, Copy)]
pub struct DenMicro {
    pub body: Body,
    pub t0: f64,
}

impl Micro for DenMicro {
    ghost body_of = { λ m. m.body };

    fn body(&self) -> &Body {
        &self.body
    }
}
