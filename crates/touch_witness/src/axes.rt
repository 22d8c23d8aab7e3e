//! The half axes of a drone's ellipsoid.

ghost use Rattle.sep_parts.specs.Directions.{IsAxis};

/// Half axes `r`, `r` and `h` in millimetres, each 1 to 2,000.
#[derive(Clone, Copy)]
pub struct Axes {
    pub r: u16,
    pub h: u16,
    ghost are: { IsAxis r × IsAxis h },
}
