//! The line that says that a show keeps to its regions.
ghost use Rattle.std.specs.Prelude.{◌≡◌};
ghost use Rattle.keepout_boxes.specs.Lines.{kept_line};

use byte_streams::ShortLine;
use byte_streams::Word::Number;

/// What is said of a show whose drones keep to this many regions: `kept regions N` (docs/COMMANDS.md, `boxes`). Takes
/// no memory.
pub fn kept_line(regions: u8) -> ShortLine
    ensures { result ≡ kept_line regions }
{
    ShortLine::of(b"kept regions ?", &[Number(u32::from(regions))])
}
