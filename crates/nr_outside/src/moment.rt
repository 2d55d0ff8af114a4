//! Time.

/// A moment of a clock: full seconds, and nanoseconds below 1,000,000,000, since the clock's epoch.
#[derive(Clone, Copy)]
pub struct Moment {
    /// Full seconds since the clock's epoch.
    pub seconds: u32,
    /// The nanoseconds after them, below 1,000,000,000.
    pub nanos: u32,
}
