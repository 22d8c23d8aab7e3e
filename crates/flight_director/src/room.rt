//! Whether a sample is in a flight's room.

ghost use Rattle.std.specs.Prelude.{◌≡◌, ◌+ℤ◌, pos};
ghost use Rattle.flight_model.specs.Rooms.{is_in_room as word_room, is_in_span as word_span};

use flight_model::{Room, Sample, Span};

// The margin above a value.
fn above(v: i16, margin: u32) -> i64
    ensures { result ≡ v +ℤ pos margin }
{
    v as i64 + margin as i64
}

fn is_in_span(margin: u32, s: &Span, v: i16) -> bool
    ensures { result ≡ word_span margin s.now v }
{
    s.low as i64 <= above(v, margin) && v as i64 <= above(s.high, margin)
}

/// Whether a sample is in a room.
pub fn is_in_room(r: &Room, x: &Sample) -> bool
    ensures { result ≡ word_room r.now x.now }
{
    let margin = r.margin;
    is_in_span(margin, &r.x, x.x)
        && (is_in_span(margin, &r.y, x.y) && is_in_span(margin, &r.z, x.z))
}
