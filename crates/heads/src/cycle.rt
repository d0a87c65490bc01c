// How far the rounds of an engine have come.

// The last boundary, if there was one, and the index of the next slice.
#[derive(Clone, Copy)]
pub struct Cycle {
    pub last: Option<f64>,
    pub index: u64,
}
