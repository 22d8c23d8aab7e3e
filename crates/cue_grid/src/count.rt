//! How many cues there are, without writing them out: each number stops one above the limit.

ghost use Rattle.std.specs.Prelude.{◌≡◌, ◌*◌, ◌≤◌, ◌+◌, min};
ghost use Rattle.whole_numbers.specs.Limits.{most_cues};
ghost use Rattle.choreo_show.specs.Plain.{block_of, body_of};
ghost use Rattle.choreo_show.specs.Plain as plain;
ghost use Rattle.cue_grid.specs.Shown.{shown};
ghost use Rattle.cue_grid.specs.Steps.{line_in};
ghost use Rattle.cue_grid.specs.Counts.{figure_count as figure_count_of, body_count, over_at};

use crate::lookup::Lookup;
use choreo_show::Block;
use whole_numbers::MOST_CUES;

/// The line of the first block with which the number of cues exceeds the limit.
pub fn over_line(show: &Lookup, body: &[Block]) -> Option<u32>
    ensures { result ≡ over_at (shown show.now).figures 0 (body_of body.now) }
{
    let mut total: usize = 0;
    for block in body {
        total += block_count(show, block);
        if total > MOST_CUES {
            return Some(line_of(block));
        }
    }
    None
}

// The number of cues of a block of the show, or one above the limit where there are more.
fn block_count(show: &Lookup, block: &Block) -> usize
    ensures { result
        ≡ min (most_cues + 1) (body_count (shown show.now).figures (block_of block.now plain.Done)) }
{
    match block {
        Block::Cue { .. } => 1,
        Block::Repeat { times, body, .. } => {
            let mut inside: usize = 0;
            for inner in body {
                // once it is above the limit nothing more need be counted
                if inside <= MOST_CUES {
                    inside = capped(inside + block_count(show, inner));
                }
            }
            times_over(*times, inside)
        }
        Block::Perform { figure, .. } => match show.find_figure(figure) {
            Some(found) => figure_total(found.body.as_slice()),
            None => 0,
        },
    }
}

// The number of cues of a figure's body, or one above the limit where there are more.
fn figure_total(body: &[Block]) -> usize
    ensures { result ≡ min (most_cues + 1) (figure_count_of (body_of body.now)) }
{
    let mut total: usize = 0;
    for block in body {
        if total <= MOST_CUES {
            total = capped(total + figure_count(block));
        }
    }
    total
}

// The number of cues of a block of a figure, or one above the limit where there are more. It is
// `block_count` without performs, which no figure has: the recursion goes down the block alone.
fn figure_count(block: &Block) -> usize
    ensures { result ≡ min (most_cues + 1) (figure_count_of (block_of block.now plain.Done)) }
{
    match block {
        Block::Cue { .. } => 1,
        Block::Repeat { times, body, .. } => {
            let mut inside: usize = 0;
            for inner in body {
                if inside <= MOST_CUES {
                    inside = capped(inside + figure_count(inner));
                }
            }
            times_over(*times, inside)
        }
        Block::Perform { .. } => 0,
    }
}

// A number of cues, or one above the limit where it is greater.
fn capped(count: usize) -> usize
    ensures { result ≡ min (most_cues + 1) count }
{
    count.min(MOST_CUES + 1)
}

// A number of cues that comes this many times, or one above the limit where that is more.
fn times_over(times: u32, count: usize) -> usize
    requires { count ≤ most_cues + 1 }
    ensures { result ≡ min (most_cues + 1) (times * count) }
{
    let all = times as u64 * count as u64;
    all.min(MOST_CUES as u64 + 1) as usize
}

fn line_of(block: &Block) -> u32
    ensures { result ≡ line_in (block_of block.now plain.Done) }
{
    match block {
        Block::Cue { line, .. } => *line,
        Block::Repeat { line, .. } => *line,
        Block::Perform { line, .. } => *line,
    }
}
