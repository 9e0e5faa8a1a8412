// What a stream keeps of its opening: the settings whole, and what follows from them.
use crate::settings::{DbSettings, DenSettings};

// The ticks between cleanups, and the faded weight that survives them.
#[derive(Clone, Copy)]
pub struct DbParams {
    pub settings: DbSettings,
    pub t_gap: f64,
    pub floor: f64,
}

// eps2 is eps * eps, bm is beta * mu, tp the ticks between prunings.
#[derive(Clone, Copy)]
pub struct DenParams {
    pub settings: DenSettings,
    pub eps2: f64,
    pub bm: f64,
    pub tp: f64,
}
