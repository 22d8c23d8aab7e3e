//! The packet lines of a plan.

ghost use Rattle.std.specs.Prelude.{◌≡◌, ◌<◌, ◌++◌, OnOk};
ghost use Rattle.upload_model.specs.Sessions.{drone_count, packet_count};
ghost use Rattle.show_plan.specs.Texts.{packet_line, packet_lines, packet_word};

use byte_streams::Lines;
use std::alloc::AllocError;
use upload_core::Session;

// What packet k of a drone is, where nothing is read back.
fn word_of(session: &Session, drone: usize, k: usize) -> &'static [u8]
    requires { drone < drone_count session.now }
    ensures { result.now ≡ packet_word session.now drone k }
{
    let writes = session.writes(drone);
    if k < writes {
        return b"write";
    }
    if k == writes { b"define" } else { b"start" }
}

fn put_packet(text: &mut Lines, session: &Session, drone: usize, k: usize) -> Result<(), AllocError>
    requires known { drone < drone_count session.now }
    requires in_range { k < packet_count session.now drone }
    ensures { OnOk result (text.new ≡ text.old ++ packet_line session.now drone k) }
{
    let packet = session.packet(drone, k);
    text.hex_line(word_of(session, drone, k), packet.bytes())
}

pub(crate) fn put_packets(
    text: &mut Lines,
    session: &Session,
    drone: usize,
) -> Result<(), AllocError>
    requires { drone < drone_count session.now }
    ensures { OnOk result (text.new ≡ text.old ++ packet_lines session.now drone) }
{
    for k in 0..session.count(drone) {
        put_packet(text, session, drone, k)?;
    }
    Ok(())
}
