//! The text of the drill's show.
ghost use Rattle.std.specs.Prelude.{◌≡◌, ◌≤◌, ◌<◌, ◌++◌, [], ◌∷◌, codes, decimal, string_bytes, IfOk, OnOk};
ghost use Rattle.std.specs.List.{flat_map, range_with_len};
ghost use Rattle.whole_numbers.specs.Limits.{most_drones};
ghost use Rattle.byte_streams.specs.Words.{line};
ghost use Rattle.drill_show.specs.Drill.{cue_lines, drill_text, drone_line, height_in, move_line, shift_in, x_of, y_of};

use std::alloc::{AllocError, Global};

// Drones stand in rows of this many.
const ROW: u8 = 6;

// The distance from a drone to its neighbours, in micrometres.
const METRE: u32 = 1_000_000;

// Where drone i starts along x, in micrometres.
fn x_of(i: u8) -> u32
    ensures { result ≡ x_of i }
{
    METRE * u32::from(i % ROW)
}

// Where drone i starts along y, in micrometres.
fn y_of(i: u8) -> u32
    ensures { result ≡ y_of i }
{
    METRE * u32::from(i / ROW)
}

// How far the drones are from their starts along x in a cue, in micrometres.
fn shift_in(cue: u8) -> u32
    ensures { result ≡ shift_in cue }
{
    if cue == 1 || cue == 2 { METRE / 2 } else { 0 }
}

// How high drone i is in a cue, in micrometres.
fn height_in(cue: u8, i: u8) -> u32
    ensures { result ≡ height_in cue i }
{
    if (cue == 0 || cue == 1) && i % 2 == 1 {
        2 * METRE
    } else {
        METRE
    }
}

fn put_drone_line(text: &mut String, i: u8) -> Result<(), AllocError>
    requires { i < most_drones }
    ensures { OnOk result (string_bytes text.new ≡ string_bytes text.old ++ drone_line i) }
{
    let (number, x, y) = (i + 1, x_of(i), y_of(i));
    writeln!(text, "drone d{number} {x} {y} 1000000 0")
}

fn put_move_line(text: &mut String, cue: u8, i: u8) -> Result<(), AllocError>
    requires cue { cue < 4 }
    requires drone { i < most_drones }
    ensures { OnOk result (string_bytes text.new ≡ string_bytes text.old ++ move_line cue i) }
{
    let (number, x, y) = (i + 1, x_of(i) + shift_in(cue), y_of(i));
    let z = height_in(cue, i);
    writeln!(text, "d{number} move {x} {y} {z} 0")
}

fn put_cue_lines(text: &mut String, n: u8, cue: u8) -> Result<(), AllocError>
    requires few { n ≤ most_drones }
    requires cue { cue < 4 }
    ensures { OnOk result (string_bytes text.new ≡ string_bytes text.old ++ cue_lines n cue) }
{
    text.push_str("cue 3000\n")?;
    for i in 0..n {
        put_move_line(text, cue, i)?;
    }
    text.push_str("end\n")
}

fn put_drone_lines(text: &mut String, n: u8) -> Result<(), AllocError>
    requires { n ≤ most_drones }
    ensures { OnOk result (string_bytes text.new ≡ string_bytes text.old ++ flat_map drone_line (range_with_len 0 n)) }
{
    for i in 0..n {
        put_drone_line(text, i)?;
    }
    Ok(())
}

fn put_all_cues(text: &mut String, n: u8) -> Result<(), AllocError>
    requires { n ≤ most_drones }
    ensures { OnOk result
        (string_bytes text.new ≡ string_bytes text.old ++ flat_map (cue_lines n) (range_with_len 0 4)) }
{
    for cue in 0..4 {
        put_cue_lines(text, n, cue)?;
    }
    Ok(())
}

/// The text of the drill's show of n drones, 1 to 32 (`specs/Drill.antt`). Out of memory is the only refusal.
pub fn drill_text(alloc: Global, n: u8) -> Result<Vec<u8>, AllocError>
    requires some { 1 ≤ n }
    requires few { n ≤ most_drones }
    ensures { IfOk result (λ text. text.items ≡ drill_text n) }
{
    let mut text = String::new(alloc);
    text.push_str("choreo 1\n")?;
    put_drone_lines(&mut text, n)?;
    text.push_str("repeat 10\n")?;
    put_all_cues(&mut text, n)?;
    text.push_str("end\n")?;
    Ok(text.into_bytes())
}
