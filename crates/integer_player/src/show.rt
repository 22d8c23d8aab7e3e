//! The rows of a whole show, into a sink.

ghost use Rattle.std.specs.Prelude.{◌≡◌, ℕ, ◌≤◌, [], ◌++◌, All, length, map, OnOk, OnErr};
ghost use Rattle.std.specs.Io.KnownBytes.{Appends};
ghost use Rattle.byte_streams.specs.Causes.{HasCause};
ghost use Rattle.byte_streams.specs.Taken.{AppendsFront};
ghost use Rattle.traj_codec.specs.declared.traj.Traj.{Traj};
ghost use Rattle.integer_player.specs.Played.{played, duration_of, IsPlayable, row_bytes, rows_at, play_text};
ghost use Rattle.integer_player.specs.Places.{IsPlaceIn, ArePlaces};
ghost use Rattle.integer_player.specs.Steps.{Passes};

use crate::instant::Instant;
use crate::player::Player;
use crate::row::{ROW_BYTES, play_row};
use arrayvec::ArrayVec;
use byte_streams::{BUFFER_BYTES, Failed, Sink, write_whole};
use traj_codec::Traj;
use whole_numbers::MOST_DRONES;

/// A drone's name.
pub type Name = ArrayVec<u8, 16>;

// Rows that wait to be written.
type Waiting = ArrayVec<u8, BUFFER_BYTES>;

// The players of drones, each at the beginning of its trajectory.
fn players_of(trajs: &[Traj]) -> ArrayVec<Player, MOST_DRONES>
    requires few { length trajs.now ≤ MOST_DRONES }
    requires playable { All IsPlayable trajs.now }
    ensures places { ArePlaces trajs.now result.items }
    ensures many { length result.items ≡ length trajs.now }
{
    let mut players = ArrayVec::new();
    for t in trajs {
        players.push(Player::of(t));
    }
    players
}

// Adds a row to those that wait, which are written first where there may be no room for it.
fn pass<K: Sink>(row: &[u8], waiting: &mut Waiting, sink: &mut K) -> Result<(), Failed>
    requires { length row.now ≤ row_bytes }
    ensures ok { OnOk result
        (Passes (K.written sink.old) waiting.old.items (K.written sink.new) waiting.new.items row.now) }
    ensures front { OnErr result
        (AppendsFront (K.written sink.old) (K.written sink.new) (waiting.old.items ++ row.now)) }
    ensures cause { HasCause (K.faults sink.old) (K.faults sink.new) result }
{
    if waiting.len() + ROW_BYTES > BUFFER_BYTES {
        write_whole(sink, waiting.as_slice())?;
        waiting.clear();
    }
    let _ = waiting.try_extend_from_slice(row);
    Ok(())
}

// Adds the rows of an instant, drone by drone. The players move there.
fn pass_instant<K: Sink>(
    ms: u32,
    names: &[Name],
    trajs: &[Traj],
    players: &mut [Player],
    waiting: &mut Waiting,
    sink: &mut K,
) -> Result<(), Failed>
    requires each { length names.now ≡ length trajs.now }
    requires playable { All IsPlayable trajs.now }
    requires inside { All (λ (t : Traj). ms ≤ duration_of t) trajs.now }
    requires places { ArePlaces trajs.now players.old }
    requires many { length players.old ≡ length trajs.now }
    ensures places { ArePlaces trajs.now players.new }
    ensures same { length players.new ≡ length players.old }
    ensures ok { OnOk result (Passes (K.written sink.old) waiting.old.items (K.written sink.new) waiting.new.items
        (rows_at ms (map (λ name. name.items) names.now) trajs.now)) }
    ensures front { OnErr result (AppendsFront (K.written sink.old) (K.written sink.new)
        (waiting.old.items ++ rows_at ms (map (λ name. name.items) names.now) trajs.now)) }
    ensures cause { HasCause (K.faults sink.old) (K.faults sink.new) result }
{
    let mut instant = Instant::make(0, 0, 1);
    for d in 0..trajs.len() {
        let position = players[d].at(&trajs[d], ms, &mut instant);
        let row = play_row(ms, names[d].as_slice(), position);
        pass(row.as_slice(), waiting, sink)?;
    }
    Ok(())
}

/// Writes the rows of a show that lasts `total` milliseconds: those of the instants 0, `step`, twice
/// `step` and so on up to the end, and those of the end where it isn't one of these. At each instant
/// there is one row a drone, in their order (`play_text`; docs/COMMANDS.md, `play`). It takes no
/// memory, and writes whenever 4,096 bytes are nearly reached, and at the end.
pub fn play<K: Sink>(
    names: &[Name],
    trajs: &[Traj],
    total: u32,
    step: u16,
    sink: &mut K,
) -> Result<(), Failed>
    requires some { 1 ≤ step }
    requires few { length trajs.now ≤ MOST_DRONES }
    requires each { length names.now ≡ length trajs.now }
    requires playable { All IsPlayable trajs.now }
    requires total { All (λ (t : Traj). duration_of t ≡ total) trajs.now }
    ensures ok { OnOk result (Appends (K.written sink.old) (K.written sink.new)
        (play_text total step (map (λ name. name.items) names.now) trajs.now)) }
    ensures front { OnErr result (AppendsFront (K.written sink.old) (K.written sink.new)
        (play_text total step (map (λ name. name.items) names.now) trajs.now)) }
    ensures cause { HasCause (K.faults sink.old) (K.faults sink.new) result }
{
    let mut places = players_of(trajs);
    let players = places.as_mut_slice();
    let mut waiting = ArrayVec::new();
    let step = step as u64;
    let count = total as u64 / step + 1;
    for k in 0..count {
        let ms = (k * step) as u32;
        pass_instant(ms, names, trajs, players, &mut waiting, sink)?;
    }
    if total as u64 % step != 0 {
        pass_instant(total, names, trajs, players, &mut waiting, sink)?;
    }
    let rest = waiting.as_slice();
    write_whole(sink, rest)
}
