//! What is uploaded of a show that fits, and what it leaves in the drones' memories.

ghost use Rattle.std.specs.Prelude.{◌≡◌, map, IfOk};
ghost use Rattle.std.specs.List.{All};
ghost use Rattle.firmware_memory.specs.Decoded.{load_for};
ghost use Rattle.show_plan.specs.Fitting.{IsSendable, IsValidFitted};
ghost use Rattle.show_plan.specs.Landing.{AreUploadable, LandingLaw, session_for};
ghost use Rattle.show_plan.specs.Uploading.{UploadsLaw};

use crate::fitted::Fitted;
use firmware_memory::curve_law;
use std::alloc::{AllocError, Global};
use traj_codec::{Traj, encode, join_law};
use upload_core::{Listed, Load, Session, Settings};
use upload_model::{readback_law, taking_law, upload_law};

pub(crate) fn load_of(alloc: Global, t: &Traj) -> Result<Load, AllocError>
    requires { IsSendable t.now }
    ensures { IfOk result (λ load. load ≡ load_for t.now) }
{
    Ok(Load {
        bytes: Listed::from_vec(encode(alloc, t)?),
        pieces: t.segments.as_slice().len() as u8,
    })
}

fn loads_of(alloc: Global, trajs: &[Traj]) -> Result<Vec<Load>, AllocError>
    requires { All IsSendable trajs.now }
    ensures { IfOk result (λ loads. loads.items ≡ map load_for trajs.now) }
{
    let mut loads = Vec::new(alloc);
    for t in trajs {
        let load = load_of(alloc, t)?;
        loads.push(load)?;
    }
    Ok(loads)
}

pub(crate) fn place_in(settings: choreo_show::Settings) -> Settings
    ensures memory_id { result.memory_id ≡ settings.memory_id }
    ensures offset { result.offset ≡ settings.offset }
    ensures trajectory_id { result.trajectory_id ≡ settings.trajectory_id }
{
    Settings {
        memory_id: settings.memory_id,
        offset: settings.offset,
        trajectory_id: settings.trajectory_id,
    }
}

/// What is uploaded of a show that fits, with read-back or without and with starts or without: to the memory, the
/// offset and under the trajectory id of its settings, one load for each drone (docs/RADIO.md, "The packets of a
/// session"). Out of memory is the only refusal.
pub fn session(
    alloc: Global,
    f: &Fitted,
    readback: bool,
    start: bool,
) -> Result<Session, AllocError>
    requires { IsValidFitted f.now }
    ensures { IfOk result (λ s. s ≡ session_for f.now.settings f.now.sent readback start) }
{
    join_law();
    let loads = loads_of(alloc, f.sent.as_slice())?;
    Ok(Session::of_loads(place_in(f.settings), loads, readback, start))
}

/// A law. Trajectories that can be uploaded, keep near to a show and keep apart are stored so in the drones' memories,
/// over any link, where nobody else alters a byte.
pub fn landing_law()
    ensures { LandingLaw }
{
    curve_law();
    upload_law();
}

/// A law. Each upload of trajectories that can be uploaded, keep near to a show and keep apart goes right, over any
/// link: with read-back each byte was right when it was read, also where others alter bytes, and starts come last. What
/// is uploaded is stored, as `landing_law` says, from any senders and in any order of the packets. Each start
/// that comes after a drone's writes and define starts the drone's own trajectory, once.
pub fn uploads_law()
    ensures { UploadsLaw }
{
    curve_law();
    landing_law();
    taking_law();
    upload_law();
    readback_law();
}

/// A law. What is sent of a show that fits can be uploaded.
pub fn uploadable_law(f: &Fitted)
    requires { IsValidFitted f.now }
    ensures { AreUploadable f.now.settings f.now.sent }
{
    join_law();
}
