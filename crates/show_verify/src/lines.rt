//! A line of success.
ghost use Rattle.std.specs.Prelude.{◌≡◌};
ghost use Rattle.show_verify.specs.Verify.{valid_line};

use byte_streams::ShortLine;
use byte_streams::Word::Number;

/// What is said of a certificate that is valid: its depth, and how many trees it has.
#[tactic(auto, unfolding(crate::specs::Verify::valid_line))]
pub fn valid_line(depth: u8, trees: u32) -> ShortLine
    ensures { result ≡ valid_line depth trees }
{
    ShortLine::of(
        b"valid depth ? trees ?",
        &[Number(u32::from(depth)), Number(trees)],
    )
}
