// How often a stream is cleaned or pruned.
ghost use Rattle.std.specs.Prelude.{◌≡◌};
ghost use Rattle.model.specs.Periods.{t_gap_of, floor_of, tp_of};

// DBSTREAM's ticks between cleanups.
pub fn t_gap(lambda: f64) -> f64
    ensures { result ≡ t_gap_of lambda }
{
    float::max(1.0, float::ceil(1.0 / lambda))
}

// What a weight of 1 fades to in t_gap ticks.
pub fn floor(lambda: f64) -> f64
    ensures { result ≡ floor_of lambda }
{
    float::exp2(-lambda * t_gap(lambda))
}

// DenStream's ticks between prunings.
pub fn tp(lambda: f64, bm: f64) -> f64
    ensures { result ≡ tp_of lambda bm }
{
    float::max(
        1.0,
        float::ceil(1.0 / lambda * float::log2(bm / (bm - 1.0))),
    )
}
