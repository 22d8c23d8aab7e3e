//! The pieces of a grid.

ghost use Rattle.std.specs.Prelude.{◌≡◌, ◌+◌, ◌<◌, ◌^◌, ℕ, length};
ghost use Rattle.cue_grid.specs.Frames.{IsPointUpTo};
ghost use Rattle.cue_grid.specs.Grids.{FitJobs};
ghost use Rattle.figure_expand.specs.Acts.{act_of};
ghost use Rattle.figure_expand.specs.Written.{end_of};
ghost use Rattle.figure_expand.specs.Controls.{piece_of};
ghost use Rattle.figure_expand.specs.Expanded.{job_in};

use crate::acts::act_of;
use crate::shapes::{axes, end_of};
use choreo_show::Point;
use cue_grid::Cue;
use mm_rounding::MicroPiece;

/// What drone `d` does in a cue, from where it is at the end of the cue before, or from its start: the control values
/// of its act in the show's frame, in micrometres and tenths of a degree (docs/LANGUAGE.md). The point moves to the
/// end of the cue.
pub fn step(point: &mut Point, d: usize, cue: &Cue) -> MicroPiece
    requires point { IsPointUpTo (2 ^ 40) point.old }
    requires drone { d < length cue.now.jobs }
    requires jobs { FitJobs cue.now.jobs }
    ensures piece { result ≡ piece_of point.old cue.now.ms (job_in cue.now d) }
    ensures end { point.new ≡ end_of point.old (act_of (job_in cue.now d)) }
    // It is at most 2^30 further away.
    ensures reach { (n : ℕ) → IsPointUpTo n point.old → IsPointUpTo (n + 2 ^ 30) point.new }
{
    let jobs = cue.jobs.as_slice();
    let act = act_of(&jobs[d]);
    let end = end_of(point, &act);
    let piece = MicroPiece {
        ms: cue.ms,
        axes: axes(point, &act),
    };
    *point = end;
    piece
}
