//! A line of success.
ghost use Rattle.std.specs.Prelude.{◌≡◌};
ghost use Rattle.show_looks.specs.Reports.{ok_line};

use byte_streams::ShortLine;
use byte_streams::Word::Number;

/// What is said of a show that is accepted: how many drones and cues it has, and how many milliseconds it lasts.
#[tactic(auto, unfolding(crate::specs::Reports::ok_line))]
pub fn ok_line(drones: u8, cues: u16, ms: u32) -> ShortLine
    ensures { result ≡ ok_line drones cues ms }
{
    ShortLine::of(
        b"ok drones ? cues ? duration_ms ?",
        &[
            Number(u32::from(drones)),
            Number(u32::from(cues)),
            Number(ms),
        ],
    )
}
