//! The line of the drill's numbers.
ghost use Rattle.std.specs.Prelude.{◌≡◌};
ghost use Rattle.drill_show.specs.Drill.{drill_line};

use byte_streams::ShortLine;
use byte_streams::Word::Number;

/// What is said of a drill's show of this many drones and cues: how many pairs of drones it has, how many bytes the
/// trajectories, how many packets without the starts, and how many nodes its certificate.
#[tactic(auto, unfolding(crate::specs::Drill::drill_line))]
pub fn drill_line(
    drones: u8,
    cues: u16,
    pairs: u16,
    bytes: u32,
    packets: u32,
    nodes: u32,
) -> ShortLine
    ensures { result ≡ drill_line drones cues pairs bytes packets nodes }
{
    ShortLine::of(
        b"drones ? cues ? pairs ? bytes ? packets ? nodes ?",
        &[
            Number(u32::from(drones)),
            Number(u32::from(cues)),
            Number(u32::from(pairs)),
            Number(bytes),
            Number(packets),
            Number(nodes),
        ],
    )
}
