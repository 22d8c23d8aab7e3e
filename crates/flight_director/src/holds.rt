//! Where drones are told to be.

ghost use Rattle.std.specs.Prelude.{◌≡◌};
ghost use Rattle.flight_model.specs.Directors.{keeps_hold as word_keeps, last_hold as word_hold};
ghost use Rattle.flight_director.specs.Held.{IsHeld};

use crate::curve::is_in_stretch;
use crate::tracks::later;
use flight_model::{Flight, Hold, Sample};

/// Where drones are told to be after n steps, if anywhere.
pub fn last_hold(f: &Flight, n: usize) -> Option<Hold>
    ensures { result ≡ word_hold f.now n }
{
    if n == 0 {
        return None;
    }
    match f.steps.as_slice().get(n - 1) {
        None => None,
        Some(step) => step.holds,
    }
}

/// Whether a sample, taken `ms` after the last step, is where its drone is told to be.
pub fn keeps_hold(f: &Flight, d: usize, hold: &Option<Hold>, ms: u32, x: &Sample) -> bool
    requires { IsHeld f.now }
    ensures { result ≡ word_keeps f.now d hold.now ms x.now }
{
    match hold {
        None => true,
        Some(h) => is_in_stretch(f, d, h.stretch, later(h.from, ms.min(h.ms)), x),
    }
}
