//! The text of what drones hold.

ghost use Rattle.std.specs.Prelude.{◌≡◌, ℕ, ◌*◌, ◌<◌, ◌≤◌, ◌++◌, All, length, map, Option, IfOk, OnOk, take, drop};
ghost use Rattle.whole_numbers.specs.Bernstein.{at};
ghost use Rattle.firmware_memory.specs.Shown.{shown};
ghost use Rattle.byte_streams.specs.Words.{IsWord};
ghost use Rattle.traj_codec.specs.declared.traj.Traj.{Traj};
ghost use Rattle.fleet_world.specs.WorldState.{state_at};
ghost use Rattle.firmware_memory.specs.Decoded.{last_value};
ghost use Rattle.rehearsal.specs.Texts.{address_word, memory_line, memory_lines, entry_line, entry_lines};
ghost use Rattle.rehearsal.specs.Texts.{started_line, ends_line, ending_line, drone_text, IsFound, IsRehearsalText};

use byte_streams::Word::{Bytes, Decimal, Number};
use byte_streams::{Lines, hex_digit};
use firmware_memory::{Def, Drone, MEMORY_BYTES, TABLE_ENTRIES, curve_of};
use fleet_world::{Name, World};
use integer_player::last_values;
use std::alloc::{AllocError, Global};
use traj_codec::Traj;

const ROW_BYTES: usize = 32;

const ROWS: usize = 128;

fn address_word(address: u16) -> [u8; 4]
    ensures { result ≡ address_word address }
{
    let high = (address / 256) as u8;
    let low = (address % 256) as u8;
    [
        hex_digit(high / 16),
        hex_digit(high % 16),
        hex_digit(low / 16),
        hex_digit(low % 16),
    ]
}

fn row_of(memory: &[u8; MEMORY_BYTES], k: usize) -> &[u8]
    requires { k < ROWS }
    ensures { result.now ≡ take 32 (drop (32 * k) memory.now) }
{
    let from = ROW_BYTES * k;
    &memory[from..from + ROW_BYTES]
}

fn put_row(text: &mut Lines, memory: &[u8; MEMORY_BYTES], k: usize) -> Result<(), AllocError>
    requires { k < ROWS }
    ensures { OnOk result (text.new ≡ text.old ++ memory_line memory.now k) }
{
    let address = address_word((ROW_BYTES * k) as u16);
    text.hex_line(&address, row_of(memory, k))
}

fn put_memory(text: &mut Lines, memory: &[u8; MEMORY_BYTES]) -> Result<(), AllocError>
    ensures { OnOk result (text.new ≡ text.old ++ memory_lines memory.now) }
{
    for k in 0..ROWS {
        put_row(text, memory, k)?;
    }
    Ok(())
}

// What stands in the table under an id.
fn put_entry(text: &mut Lines, id: u8, entry: Option<Def>) -> Result<(), AllocError>
    ensures { OnOk result (text.new ≡ text.old ++ entry_line id entry) }
{
    match entry {
        Some(entry) => text.line(
            b"trajectory ? offset ? pieces ?",
            &[
                Number(u32::from(id)),
                Number(entry.offset),
                Number(u32::from(entry.pieces)),
            ],
        ),
        None => Ok(()),
    }
}

// The entries of a table, in order of their ids.
fn put_entries(text: &mut Lines, table: &[Option<Def>; TABLE_ENTRIES]) -> Result<(), AllocError>
    ensures { OnOk result (text.new ≡ text.old ++ entry_lines 0 table.now) }
{
    for id in 0..TABLE_ENTRIES {
        put_entry(text, id as u8, table[id])?;
    }
    Ok(())
}

fn put_started(text: &mut Lines, started: Option<u8>) -> Result<(), AllocError>
    ensures { OnOk result (text.new ≡ text.old ++ started_line started) }
{
    match started {
        Some(id) => text.line(b"started ?", &[Number(u32::from(id))]),
        None => text.line(b"started none", &[]),
    }
}

fn ends_of(t: &Traj) -> [i16; 4]
    ensures { (axis : ℕ) → axis < 4 → at result axis ≡ last_value t.now axis }
{
    let mut ends = t.start;
    for s in t.segments.as_slice() {
        ends = last_values(&ends, s);
    }
    ends
}

fn put_ends(text: &mut Lines, t: &Traj) -> Result<(), AllocError>
    ensures { OnOk result (text.new ≡ text.old ++ ends_line t.now) }
{
    let ends = ends_of(t);
    text.line(
        b"ends ? ? ? ?",
        &[
            Decimal(i64::from(ends[0])),
            Decimal(i64::from(ends[1])),
            Decimal(i64::from(ends[2])),
            Decimal(i64::from(ends[3])),
        ],
    )
}

// How the trajectory ends that was found, if one was.
fn put_ending(text: &mut Lines, found: &Option<Traj>) -> Result<(), AllocError>
    ensures { OnOk result (text.new ≡ text.old ++ ending_line found.now) }
{
    match found {
        Some(t) => put_ends(text, t),
        None => text.line(b"ends none", &[]),
    }
}

fn put_drone_text(
    text: &mut Lines,
    name: &[u8],
    drone: &Drone,
    found: &Option<Traj>,
) -> Result<(), AllocError>
    ensures { OnOk result (text.new ≡ text.old ++ drone_text name.now (shown drone.now) found.now) }
{
    text.line(b"memory ?", &[Bytes(name)])?;
    put_memory(text, &drone.memory)?;
    put_entries(text, &drone.defs)?;
    put_started(text, drone.started)?;
    put_ending(text, found)
}

// What is said of a drone, with how the trajectory ends to which its memory decodes under this id.
fn put_decoded(
    alloc: Global,
    text: &mut Lines,
    name: &[u8],
    drone: &Drone,
    id: u8,
) -> Result<(), AllocError>
    requires { id < 10 }
    ensures { OnOk result ((found : Option Traj) × IsFound id (shown drone.now) found
        × (text.new ≡ text.old ++ drone_text name.now (shown drone.now) found)) }
{
    let found = curve_of(alloc, drone, id)?;
    put_drone_text(text, name, drone, &found)
}

/// The text of what the drones of a world hold, with the trajectories to which their memories decode
/// under this id (docs/COMMANDS.md, `rehearse`): `rehearsal done`; then for each drone `memory` and its
/// name, 128 rows of an address and 32 bytes, a line for each entry of its table, `started` with the id
/// that was started, and `ends` with the last values of the trajectory, in millimetres and tenths of a
/// degree, or with `none` where the memory decodes to none.
pub fn memory_text(
    alloc: Global,
    world: &World,
    names: &[Name],
    id: u8,
) -> Result<Lines, AllocError>
    requires few { length names.now ≤ length world.now.drones }
    requires words { All (λ name. IsWord name.items) names.now }
    requires id { id < 10 }
    ensures { IfOk result (λ text.
        IsRehearsalText (state_at world.now.drones) id (map (λ name. name.items) names.now) text) }
{
    let mut text = Lines::make(alloc);
    text.line(b"rehearsal done", &[])?;
    for d in 0..names.len() {
        put_decoded(alloc, &mut text, names[d].as_slice(), world.drone(d), id)?;
    }
    Ok(text)
}
