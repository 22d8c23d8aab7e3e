//! Units of length, time and angle.

ghost use Rattle.std.specs.Prelude.{◌≡◌, ◌^◌, option_map};
ghost use Rattle.choreo_lines.specs.Units.{measure_of, micrometres_in, milliseconds_in, tenths_in};
ghost use Rattle.choreo_lines.specs.QuantitySteps.{measure_by};

/// What a place counts.
#[derive(Clone, Copy)]
pub enum Counts {
    Micrometres,
    Millimetres,
    Milliseconds,
    TenthsOfADegree,
}

/// Where the point of a number goes when its unit becomes what a place counts: by this many places.
#[derive(Clone, Copy)]
pub struct Shift {
    pub right: u8,
    pub left: u8,
}

fn length_places(unit: &[u8]) -> Option<u8>
    ensures { option_map (λ places. 10 ^ places) result ≡ micrometres_in unit.now }
{
    if unit == b"m".as_slice() {
        Some(6)
    } else if unit == b"cm".as_slice() {
        Some(4)
    } else if unit == b"mm".as_slice() {
        Some(3)
    } else if unit == b"um".as_slice() {
        Some(0)
    } else {
        None
    }
}

fn time_places(unit: &[u8]) -> Option<u8>
    ensures { option_map (λ places. 10 ^ places) result ≡ milliseconds_in unit.now }
{
    if unit == b"s".as_slice() {
        Some(3)
    } else if unit == b"ms".as_slice() {
        Some(0)
    } else {
        None
    }
}

fn angle_places(unit: &[u8]) -> Option<u8>
    ensures { option_map (λ places. 10 ^ places) result ≡ tenths_in unit.now }
{
    if unit == b"deg".as_slice() {
        Some(1)
    } else {
        None
    }
}

/// Where the point of a number with this unit goes, in a place that counts this.
pub fn shift_of(counts: Counts, unit: &[u8]) -> Option<Shift>
    ensures { option_map measure_by result ≡ measure_of counts unit.now }
{
    let (right, left) = match counts {
        Counts::Micrometres => (length_places(unit)?, 0),
        Counts::Millimetres => (length_places(unit)?, 3),
        Counts::Milliseconds => (time_places(unit)?, 0),
        Counts::TenthsOfADegree => (angle_places(unit)?, 0),
    };
    Some(Shift { right, left })
}
