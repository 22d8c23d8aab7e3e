//! What holds of all curves that are rounded.

ghost use Rattle.std.specs.Prelude.{◌≡◌};
ghost use Rattle.mm_rounding.specs.declared.piece.Axis.{Axis};
ghost use Rattle.mm_rounding.specs.declared.piece.MicroPiece.{MicroPiece};
ghost use Rattle.mm_rounding.specs.Rounding.{millimetres, first_control, rounded, element_of, segment_of};
ghost use Rattle.mm_rounding.specs.Near.{IsAxis, IsPiece, StaysNear, KeepsNear, KeepsEqual, last_control, EndsThere};

/// A law. At every fraction of a cue an axis in whole millimetres is within half a millimetre of the axis in
/// micrometres: each control value errs by half a millimetre at most, and a point of a Bézier curve is a mean of its
/// control values (the hull property). An element is the curve of its control values, and ends at the last of them; a
/// rounded axis begins and ends at the rounded ends of the axis.
pub fn rounding_law()
    ensures near { (axis : Axis) → IsAxis axis → KeepsNear axis (element_of (rounded axis)) }
    ensures same { (axis : Axis) → IsAxis axis → KeepsEqual axis (element_of axis) }
    ensures pieces { (p : MicroPiece) → IsPiece p → StaysNear p (segment_of p) }
    ensures whole { (axis : Axis) → IsAxis axis → IsAxis (rounded axis) }
    ensures first { (axis : Axis) → IsAxis axis → first_control (rounded axis) ≡ millimetres (first_control axis) }
    ensures last { (axis : Axis) → IsAxis axis → last_control (rounded axis) ≡ millimetres (last_control axis) }
    ensures ends { (axis : Axis) → IsAxis axis → EndsThere axis (element_of axis) }
{}
