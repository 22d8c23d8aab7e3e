//! The frame that names why three shows are no flight.

ghost use Rattle.std.specs.Prelude.{◌≡◌, ◌++◌};
ghost use Rattle.link_frames.specs.Frames.{end_frame};
ghost use Rattle.show_direct.specs.Frames.{FaultFrameLaw, cause_bytes, no_flight_bytes, seam_byte, way_byte};

use choreo_reader::show_law;
use flight_steps::{FlightFault, Seam, Way};
use link_frames::END_BYTE;

/// Three shows are no flight.
pub const NO_FLIGHT: u8 = 19;

// The first byte of the frame.
const NO_FLIGHT_BYTE: u8 = 5;

fn way_byte(way: Way) -> u8
    ensures { result ≡ way_byte way }
{
    match way {
        Way::Up => 0,
        Way::Down => 1,
    }
}

fn seam_byte(seam: Seam) -> u8
    ensures { result ≡ seam_byte seam }
{
    match seam {
        Seam::UpToShow => 0,
        Seam::ShowToDown => 1,
        Seam::DownToUp => 2,
    }
}

// The frame with these numbers, and the end frame.
fn cause_bytes(cause: u8, place: u8, drone: usize, cue: usize) -> [u8; 8]
    ensures { result ≡ cause_bytes cause place drone cue ++ end_frame 19 }
{
    [
        NO_FLIGHT_BYTE,
        cause,
        place,
        (drone % 256) as u8,
        (cue % 256) as u8,
        (cue / 256 % 256) as u8,
        END_BYTE,
        NO_FLIGHT,
    ]
}

/// What is written of three shows that are no flight: the frame that names the first cause, and the end frame.
pub fn no_flight_bytes(fault: &FlightFault) -> [u8; 8]
    ensures { result ≡ no_flight_bytes fault.now }
{
    match fault {
        FlightFault::OtherDrone { way, drone } => cause_bytes(0, way_byte(*way), *drone, 0),
        FlightFault::Gap { seam, drone } => cause_bytes(1, seam_byte(*seam), *drone, 0),
        FlightFault::Restless { way, drone, cue } => {
            cause_bytes(2, way_byte(*way), *drone, *cue)
        }
        FlightFault::Still { way, drone } => cause_bytes(3, way_byte(*way), *drone, 0),
        FlightFault::Slanted { way, drone } => cause_bytes(4, way_byte(*way), *drone, 0),
        FlightFault::Narrow { .. } => cause_bytes(5, 0, 0, 0),
        FlightFault::OtherEllipsoid { way } => cause_bytes(6, way_byte(*way), 0, 0),
    }
}

/// A law. The bytes of a frame name one cause, given how near to their pads drones have to be and how far they may
/// stray; and of three shows that are accepted the first cause can be named so.
pub fn fault_frame_law()
    ensures { FaultFrameLaw }
{
    show_law();
}
