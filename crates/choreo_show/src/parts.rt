//! Names, places, frames and acts.

ghost use Rattle.std.specs.Prelude.{◌≡◌, ◌≤◌, length};

use arrayvec::ArrayVec;

/// A name, of 1 to 16 bytes: a lower-case letter, then lower-case letters, digits and `_`. It isn't `form` or `end`.
pub type Name = ArrayVec<u8, 16>;

/// A place and a yaw: x, y and z in micrometres, yaw in tenths of a degree.
#[derive(Clone, Copy, PartialEq, Eq)]
pub struct Point {
    pub x: i64,
    pub y: i64,
    pub z: i64,
    pub yaw: i64,
}

/// The axis along which a figure is mirrored, if it is.
#[derive(Clone, Copy, PartialEq, Eq)]
pub enum Mirror {
    None,
    X,
    Y,
}

/// How a figure is put into the show: a mirror, then quarter turns counter-clockwise, then a shift in micrometres.
#[derive(Clone, Copy, PartialEq, Eq)]
pub struct Frame {
    pub mirror: Mirror,
    pub turns: u8,
    pub dx: i64,
    pub dy: i64,
    pub dz: i64,
}

/// The ends of a quarter circle at which it rests.
#[derive(Clone, Copy, PartialEq, Eq)]
pub enum Ease {
    /// From rest to rest.
    InOut,
    /// From rest into an arc.
    In,
    /// From an arc to rest.
    Out,
}

/// What a drone does in a cue. Coordinates are in micrometres, yaws in tenths of a degree.
#[derive(Clone, Copy, PartialEq, Eq)]
pub enum Act {
    /// It stays.
    Hold,
    /// Straight, evenly.
    Line {
        to: Point,
    },
    /// Straight, from rest to rest.
    Move {
        to: Point,
    },
    /// It stays, and its yaw goes from rest to rest.
    Turn {
        yaw: i64,
    },
    /// A quarter circle around (`cx`, `cy`) at the same height, counter-clockwise where `ccw`; yaw evenly.
    Arc {
        ccw: bool,
        cx: i64,
        cy: i64,
        yaw: i64,
    },
    /// A quarter circle as of `Arc`, at rest at one end or at both; yaw too.
    Eased {
        ease: Ease,
        ccw: bool,
        cx: i64,
        cy: i64,
        yaw: i64,
    },
    /// The cubic Bézier curve with these control points after the present place; yaw evenly.
    Curve {
        p1: [i64; 3],
        p2: [i64; 3],
        to: Point,
    },
}

/// The name of these bytes, which are at most 16.
// Each line of a show has one.
#[inline]
pub fn name_kept(word: &[u8]) -> Name
    requires { length word.now ≤ 16 }
    ensures { result.items ≡ word.now }
{
    let mut name = ArrayVec::new();
    name.try_extend_from_slice(word).unwrap();
    name
}

/// A name once more.
pub fn copy_of(name: &Name) -> Name
    ensures { result ≡ name.now }
{
    name_kept(name.as_slice())
}
