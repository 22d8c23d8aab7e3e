//! Hosts that follow rows of answers.

ghost use Rattle.std.specs.Prelude.{[], IfOk};
ghost use Rattle.upload_core.specs.HostState.{view_of};
ghost use Rattle.upload_core.specs.HostStandsFor.{HostStandsFor};

use crate::sessions::{Upload, owner_of, session_of};
use crtp_packets::from_bytes;
use std::alloc::{AllocError, Global};
use upload_core::{Event, Host, Out, Progress, Sent};

// What happens: a tick, or bytes that come up from a drone, as a packet or as they are.
#[derive(Clone, Copy)]
pub(crate) enum Happens<'a> {
    Tick,
    Up(u8, &'a [u8]),
    Heard(u8, &'a [u8]),
}

// What happens, what is sent then, and how far the upload is.
pub(crate) type Row<'a> = (Happens<'a>, &'a [Sent], Progress);

// How far the upload is after this; nothing where the bytes are no packet.
pub(crate) fn happen(host: &mut Host, what: Happens, out: &mut Out) -> Option<Progress> {
    match what {
        Happens::Tick => Some(host.event(Event::Tick, out)),
        Happens::Up(drone, bytes) => match from_bytes(bytes) {
            Ok(packet) => Some(host.event(Event::Up { drone, packet }, out)),
            Err(_) => None,
        },
        Happens::Heard(drone, bytes) => {
            if bytes.is_empty() || bytes.len() > 31 {
                return None;
            }
            Some(host.hear(drone, bytes, out))
        }
    }
}

// Whether this is in flight before any event, whatever has happened since.
fn is_first(host: &Host, wanted: &[Sent]) -> bool {
    let mut out = Out::new();
    host.first(&mut out);
    out.as_slice() == wanted
}

// A new host, which has copies of the loads.
pub(crate) fn host_of(alloc: Global, upload: &Upload) -> Result<Host, AllocError>
    ensures { IfOk result (λ host. HostStandsFor (view_of host) []) }
{
    if upload.loads.is_empty() || upload.loads.len() > 32 {
        return Err(AllocError);
    }
    Host::make(alloc, session_of(alloc, upload)?)
}

// The same, which owns them.
fn owning_host_of(alloc: Global, upload: &Upload) -> Result<Host, AllocError> {
    if upload.loads.is_empty() || upload.loads.len() > 32 {
        return Err(AllocError);
    }
    Host::make(alloc, owner_of(alloc, upload)?)
}

// The number of the first row that a host doesn't follow; none where it follows all. At 0 something else is in flight
// at first.
fn first_wrong(host: &mut Host, first: &[Sent], parts: &[&[Row]]) -> Option<usize> {
    if !is_first(host, first) {
        return Some(0);
    }
    let mut out = Out::new();
    let mut count: usize = 0;
    for rows in parts {
        for (what, sent, progress) in rows.iter() {
            count = count.saturating_add(1);
            if happen(host, *what, &mut out) != Some(*progress) || out.as_slice() != *sent {
                return Some(count);
            }
        }
    }
    if !is_first(host, first) {
        return Some(0);
    }
    None
}

// The same of a new host, which has copies of the loads, or owns them; 0 where memory is out.
pub(crate) fn wrong_row(
    alloc: Global,
    upload: &Upload,
    first: &[Sent],
    parts: &[&[Row]],
) -> Option<usize> {
    match host_of(alloc, upload) {
        Ok(mut host) => first_wrong(&mut host, first, parts),
        Err(_) => Some(0),
    }
}

pub(crate) fn wrong_owner_row(
    alloc: Global,
    upload: &Upload,
    first: &[Sent],
    parts: &[&[Row]],
) -> Option<usize> {
    match owning_host_of(alloc, upload) {
        Ok(mut host) => first_wrong(&mut host, first, parts),
        Err(_) => Some(0),
    }
}
