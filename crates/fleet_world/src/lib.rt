//! The world of an upload: a host, a link that loses, repeats, delays and reorders packets, and the
//! drones; and schedules, which tell as text what happens in it.
//!
//! A [`World`] takes one event after the other, among them alterations of a memory by somebody else, and
//! stands for the list of them (`WorldStandsFor`). It keeps packets by their numbers and answers by their
//! bytes, since an answer can't be made again once the memory has changed. `upload_law` and `readback_law` of
//! `upload_model` say what holds for every list. It stands on the host of `upload_core`, the drone of
//! `firmware_memory`, the definitions of `upload_model` and the lines and words of `text_lines`.
#![tactic(auto)]

mod answers;
mod schedule;
mod traffic;
mod world;

pub use schedule::{Name, ScheduleFault, limits_law, read_schedule, schedule_law};
pub use upload_model::WorldEvent;
pub use world::World;
