// What a run of either stream tells.

// 0, or the number with which the run was refused, and what its stream says of itself. A number, since C reads it.
#[repr(C)]
#[derive(Clone, Copy)]
pub struct Figures {
    pub number: u64,
    // The micro-clusters held; of a DenStream the potential ones.
    pub micros: usize,
    pub families: usize,
    // The drift report: alarms, the window's mean and its width.
    pub alarms: u64,
    pub distance: f64,
    pub window: usize,
}
