// When a step is taken.

// The clock reading, in seconds, and the wall time.
#[derive(Clone, Copy)]
pub struct At {
    pub clock: f64,
    pub wall: i64,
}
