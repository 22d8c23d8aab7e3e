//! The director of one flight.

ghost use Rattle.std.specs.Prelude.{◌≡◌};
ghost use Rattle.flight_model.specs.Directors.{start, happens, says};
ghost use Rattle.flight_director.specs.Held.{IsHeld, Directed};

use crate::state::{Out, State};
use flight_model::{Event, Flight};
use std::marker::Model;

/// Flies a flight: it hears what happens, and says what goes out.
#[derive(Drop)]
pub struct Director {
    flight: Flight,
    state: State,
}

impl Model for Director {
    ghost use Rattle.flight_director.specs.Held.{IsHeld, Directed};

    ghost Value = { Directed };

    ghost view = { λ d. record { flight = d.flight; state = d.state } };

    ghost invariant = { λ d. IsHeld d.flight };
}

impl Director {
    /// A director to which nothing has happened.
    pub fn make(flight: Flight) -> Director
        requires { IsHeld flight }
        ensures flight { result.flight ≡ flight }
        ensures state { result.state ≡ start flight }
    {
        let state = State::start(&flight);
        Director { flight, state }
    }

    /// One event. `out` is replaced by what goes out.
    pub fn event(&mut self, e: &Event, out: &mut Out)
        ensures flight { self.new.flight ≡ self.old.flight }
        ensures state { self.new.state ≡ happens self.old.flight self.old.state e.now }
        ensures out { out.new.items ≡ says self.old.flight self.old.state e.now }
    {
        self.state.happen(&self.flight, e, out);
    }
}
