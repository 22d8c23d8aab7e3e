//! What holds of all grids.

ghost use Rattle.std.specs.Prelude.{ℕ, None, ◌≡◌, ◌<◌};
ghost use Rattle.choreo_show.specs.declared.parts.Point.{Point};
ghost use Rattle.cue_grid.specs.declared.grid.Job.{Job};
ghost use Rattle.cue_grid.specs.declared.grid.Grid.{Grid};
ghost use Rattle.cue_grid.specs.Grids.{IsGrid};
ghost use Rattle.mm_rounding.specs.Rounding.{axis_on, first_control};
ghost use Rattle.mm_rounding.specs.Near.{IsPiece, last_control};
ghost use Rattle.figure_expand.specs.Acts.{act_of, on_axis};
ghost use Rattle.figure_expand.specs.Controls.{piece_of};
ghost use Rattle.figure_expand.specs.Expanded.{range_fault};
ghost use Rattle.figure_expand.specs.Flown.{FliesAsWritten, FitsWell};
ghost use Rattle.figure_expand.specs.Written.{end_of, ClosedForms};

/// A law. The pieces of each grid are at the written position, on each axis and at each fraction of each cue. A piece
/// begins where its drone is, and ends where the drone is before the next cue. No value is out of range exactly where
/// each start and each piece fits a trajectory. The curves that no arc or control point makes have these closed forms.
pub fn expansion_law()
    ensures written { (g : Grid) → FliesAsWritten g }
    ensures fits { (g : Grid) → IsGrid g → range_fault g ≡ None → FitsWell g }
    ensures held { (g : Grid) → IsGrid g → FitsWell g → range_fault g ≡ None }
    ensures whole { (p : Point) (ms : ℕ) (j : Job) → IsPiece (piece_of p ms j) }
    ensures begins { (p : Point) (ms : ℕ) (j : Job) (axis : ℕ) → axis < 4
        → first_control (axis_on (piece_of p ms j) axis) ≡ on_axis p axis }
    ensures ends { (p : Point) (ms : ℕ) (j : Job) (axis : ℕ) → axis < 4
        → last_control (axis_on (piece_of p ms j) axis) ≡ on_axis (end_of p (act_of j)) axis }
    ensures closed { ClosedForms }
{}
