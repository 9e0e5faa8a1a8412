// What an opening names.

#[derive(Clone, Copy, Default)]
pub struct DbSettings {
    pub dim: usize,
    pub r: f64,
    pub lambda: f64,
    pub alpha: f64,
    pub min_weight: f64,
}

#[derive(Clone, Copy, Default)]
pub struct DenSettings {
    pub dim: usize,
    pub eps: f64,
    pub lambda: f64,
    pub beta: f64,
    pub mu: f64,
}
