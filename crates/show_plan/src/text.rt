//! The texts that say a plan.

ghost use Rattle.std.specs.Prelude.{◌≡◌, ◌≤◌, ◌++◌, ℕ, [], ◌∷◌, false, true, length, IfOk, OnOk};
ghost use Rattle.std.specs.List.{All};
ghost use Rattle.whole_numbers.specs.Limits.{most_segments, most_drones};
ghost use Rattle.traj_codec.specs.declared.traj.Traj.{Traj};
ghost use Rattle.traj_codec.specs.Spelling.{IsEncoding};
ghost use Rattle.upload_model.specs.Sessions.{Upload};
ghost use Rattle.show_plan.specs.Fitting.{IsSendable, IsValidFitted, size};
ghost use Rattle.show_plan.specs.Landing.{AreUploadable, session_for};
ghost use Rattle.show_plan.specs.Texts.{PlanLaw, drone_line, drone_part, drone_parts, packet_lines, plan_text};

use crate::fitted::Fitted;
use crate::packets::put_packets;
use crate::upload::{load_of, place_in};
use byte_streams::Lines;
use byte_streams::Word::{Bytes, Large};
use choreo_show::{Name, Settings};
use crtp_packets::MEMORY_BYTES;
use std::alloc::{AllocError, Global};
use traj_codec::{Segment, Traj, join_law, size_of, spelling_law};
use upload_core::Session;

fn put_drone_line(
    text: &mut Lines,
    name: &[u8],
    bytes: &[u8],
    segments: &[Segment],
) -> Result<(), AllocError>
    ensures { OnOk result (text.new ≡ text.old ++ drone_line name.now bytes.now (length segments.now)) }
{
    let count = Large(bytes.len() as u64);
    let pieces = Large(segments.len() as u64);
    text.line(b"drone ? bytes ? pieces ?", &[Bytes(name), count, pieces])
}

// The lines of a drone: its trajectory's bytes, and the packets that bring them, which are those of a session of this
// drone alone.
fn put_part(
    alloc: Global,
    text: &mut Lines,
    settings: Settings,
    name: &[u8],
    t: &Traj,
) -> Result<(), AllocError>
    requires { AreUploadable settings (t.now ∷ []) }
    ensures { (s : Upload) (d : ℕ) → packet_lines (session_for settings (t.now ∷ []) false true) 0 ≡ packet_lines s d
        → OnOk result (text.new ≡ text.old ++ drone_part s d name.now t.now) }
{
    let load = load_of(alloc, t)?;
    let bytes = load.bytes.as_slice();
    let segments = t.segments.as_slice();
    put_drone_line(text, name, bytes, segments)?;
    text.hex_line(b"data", bytes)?;
    let mut loads = Vec::new(alloc);
    loads.push(load)?;
    let session = Session::of_loads(place_in(settings), loads, false, true);
    put_packets(text, &session, 0)
}

fn put_parts(
    alloc: Global,
    text: &mut Lines,
    settings: Settings,
    names: &[Name],
    trajs: &[Traj],
) -> Result<(), AllocError>
    requires count { length trajs.now ≡ length names.now }
    requires uploadable { AreUploadable settings trajs.now }
    ensures { OnOk result
        (text.new ≡ text.old ++ drone_parts (session_for settings trajs.now false true) 0 names.now trajs.now) }
{
    for d in 0..names.len() {
        put_part(alloc, text, settings, names[d].as_slice(), &trajs[d])?;
    }
    Ok(())
}

fn total(trajs: &[Traj]) -> usize
    requires few { length trajs.now ≤ most_drones }
    requires sendable { All IsSendable trajs.now }
    requires in_memory { All (λ (t : Traj). size t ≤ MEMORY_BYTES) trajs.now }
    ensures { result ≤ 131072 }
{
    let mut total = 0;
    for t in trajs {
        total += size_of(t);
    }
    total
}

// How many bytes the plan text of a show takes at most. A byte of a trajectory stands in the line `data` and in a
// write, with three characters each, and the head of its write takes one more for it.
fn room_for(f: &Fitted) -> usize
    requires { IsValidFitted f.now }
{
    100 + 250 * f.names.as_slice().len() + 7 * total(f.sent.as_slice())
}

/// The plan text of a show that fits: `plan 1`; for each drone a line with its name, the number of its bytes and of its
/// segments, a line with its bytes in two hexadecimal digits each, and a line for each packet that writes them, defines
/// the trajectory and starts it; and `end` (docs/COMMANDS.md). Out of memory is the only refusal.
pub fn plan_text(alloc: Global, f: &Fitted) -> Result<Lines, AllocError>
    requires { IsValidFitted f.now }
    ensures { IfOk result (λ text. text ≡ plan_text f.now.settings f.now.names f.now.sent) }
{
    join_law();
    let mut text = Lines::with_room(alloc, room_for(f))?;
    text.line(b"plan 1", &[])?;
    put_parts(
        alloc,
        &mut text,
        f.settings,
        f.names.as_slice(),
        f.sent.as_slice(),
    )?;
    text.line(b"end", &[])?;
    Ok(text)
}

/// A law. A plan's text says whose plan it is: two plans with one text, made with any settings, are of the same drones
/// and the same trajectories.
pub fn plan_law()
    ensures { PlanLaw }
{
    spelling_law();
}
