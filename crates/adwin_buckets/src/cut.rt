// The test of one cut of the window.
ghost use Rattle.std.specs.Prelude.{◌≡◌};
ghost use Rattle.adwin_buckets.specs.Cut.{apart, cut_fails};

// What the tests of all cuts share: the fewest values that a side has, the window's width and total,
// and the two figures of the bound, the window's variance v and g.
#[derive(Clone, Copy)]
pub struct CutTest {
    pub side: f64,
    pub width: f64,
    pub total: f64,
    pub v: f64,
    pub g: f64,
}

// By how much x and y differ. A -0.0 stays, which std's `abs` would make 0.0 of.
fn apart(x: f64, y: f64) -> f64
    ensures { result ≡ apart x y }
{
    let d = x - y;
    if d < 0.0 { -d } else { d }
}

impl CutTest {
    // Whether the cut after the n0 oldest values, whose sum is t0, fails: the means of its two sides
    // are further apart than chance explains.
    pub fn fails(&self, n0: f64, t0: f64) -> bool
        ensures { result ≡ cut_fails self.now n0 t0 }
    {
        let n1 = self.width - n0;
        if n0 < self.side || n1 < self.side {
            return false;
        }
        let a = 1.0 / (n0 - self.side + 1.0) + 1.0 / (n1 - self.side + 1.0);
        let gap = apart(t0 / n0, (self.total - t0) / n1);
        let square = 2.0 * a * self.v * self.g;
        let rest = 2.0 / 3.0 * a * self.g;
        // Most cuts of a steady stream are told by the square of the gap, and no root is taken.
        if rest >= 0.0 && gap * gap < square {
            return false;
        }
        gap > sqrt::sqrt(square) + rest
    }
}
