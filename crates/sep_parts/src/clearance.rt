//! What is kept clear around drones.

/// What is kept clear around drones that stray from their curves and are late against one another. Lengths are
/// millimetres.
#[derive(Clone, Copy)]
pub struct Clearance {
    /// The half axis of the ellipsoids on x and y.
    pub r: u16,
    /// The half axis on z.
    pub h: u16,
    /// How far a drone is from where its curve puts it, at most.
    pub stray: u16,
    /// How many milliseconds the instants of two drones are apart, at most.
    pub late: u16,
    /// How far a drone moves on x, y and z in so much time, at most.
    pub reach: [u32; 3],
}
