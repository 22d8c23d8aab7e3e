//! The host of an upload, as a link sees it.

ghost use Rattle.std.specs.Prelude.{◌≡◌, ◌<◌, ◌≤◌, ◌++◌, ℕ, List, [], ◌∷◌, length, All, None};
ghost use Rattle.whole_numbers.specs.Limits.{most_drones};
ghost use Rattle.upload_model.specs.declared.events.Event.{Event};
ghost use Rattle.upload_core.specs.HostStandsFor.{HostStandsFor};
ghost use Rattle.upload_core.specs.HostState.{IsPacketOf, view_of};
ghost use Rattle.link_upload.specs.Links.{link_of, status_of};

use byte_streams::status::{DIFFERS, DONE, GAVE_UP, REFUSED};
use crtp_packets::{PACKET_BYTES, Packet};
use upload_core::{Event, Host, Out, Progress, Sent};

fn status(progress: Progress) -> Option<u8>
    ensures { result ≡ status_of progress }
{
    match progress {
        Progress::Going => None,
        Progress::Done => Some(DONE),
        Progress::GaveUp { .. } => Some(GAVE_UP),
        Progress::Refused { .. } => Some(REFUSED),
        Progress::Differs { .. } => Some(DIFFERS),
    }
}

// How many drones a host has, 1 to 32; so its upload goes on before any event.
pub fn drone_count(host: &Host) -> usize
    ensures value { result ≡ (link_of host.now.session).drones }
    ensures few { result ≤ most_drones }
    ensures going { (link_of host.now.session).ended [] ≡ None }
{
    host.session().drones()
}

pub fn packet_of(host: &Host, x: Sent) -> Packet
    requires { IsPacketOf host.now.session x }
    ensures value { result ≡ (link_of host.now.session).packet x.drone x.packet }
    ensures drone { x.drone < most_drones }
{
    let _drones = host.session().drones();
    host.session()
        .packet(usize::from(x.drone), usize::from(x.packet))
}

// A tick. `out` is replaced by what is to be sent now. Returns the status of the upload's end, if it has ended.
pub fn take_tick(host: &mut Host, out: &mut Out) -> Option<u8>
    ensures session { host.new.session ≡ host.old.session }
    ensures stands { (h : List Event) → HostStandsFor (view_of host.old) h
        → HostStandsFor (view_of host.new) (h ++ Event.Tick ∷ []) }
    ensures sent { (h : List Event) → HostStandsFor (view_of host.old) h
        → out.new.items ≡ (link_of host.old.session).out h Event.Tick }
    ensures known { All (IsPacketOf host.new.session) out.new.items }
    ensures answer { (h : List Event) → HostStandsFor (view_of host.old) h
        → result ≡ (link_of host.old.session).ended (h ++ Event.Tick ∷ []) }
{
    status(host.event(Event::Tick, out))
}

// A packet of 1 to 31 bytes that came up from a drone, which counts from 0, as for a tick.
pub fn take_packet(host: &mut Host, drone: u8, packet: &[u8], out: &mut Out) -> Option<u8>
    requires not_empty { 1 ≤ length packet.now }
    requires fits { length packet.now ≤ PACKET_BYTES }
    ensures session { host.new.session ≡ host.old.session }
    ensures stands { (h : List Event) → HostStandsFor (view_of host.old) h
        → HostStandsFor (view_of host.new) (h ++ Event.Up drone packet.now ∷ []) }
    ensures sent { (h : List Event) → HostStandsFor (view_of host.old) h
        → out.new.items ≡ (link_of host.old.session).out h (Event.Up drone packet.now) }
    ensures known { All (IsPacketOf host.new.session) out.new.items }
    ensures answer { (h : List Event) → HostStandsFor (view_of host.old) h
        → result ≡ (link_of host.old.session).ended (h ++ Event.Up drone packet.now ∷ []) }
{
    status(host.hear(drone, packet, out))
}
