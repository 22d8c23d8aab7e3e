//! What a drone does in a leg.

ghost use Rattle.std.specs.Prelude.{◌≡◌, ◌<◌, ℕ, suc, length};
ghost use Rattle.std.specs.List.{list_any};
ghost use Rattle.flight_model.specs.Legs.{same_on as word_same, moves as word_moves, is_vertical as word_vertical};
ghost use Rattle.flight_model.specs.Legs.{goes_up as word_goes_up, goes_down as word_goes_down};
ghost use Rattle.flight_model.specs.Legs.{has_moved as word_has, will_move as word_will, first_move as word_first};
ghost use Rattle.flight_model.specs.Legs.{last_move as word_last, leg as word_leg};
ghost use Rattle.flight_steps.specs.Steps.{IsLike};

use flight_model::Leg;

// Whether a leg ends on an axis as it began.
fn same_on(l: &Leg, axis: usize) -> bool
    requires { axis < 4 }
    ensures { result ≡ word_same l.now axis }
{
    l.from[axis] <= l.to[axis] && l.to[axis] <= l.from[axis]
}

/// Whether the drone moves in a leg.
pub fn is_move(l: &Leg) -> bool
    ensures { result ≡ word_moves l.now }
{
    !(same_on(l, 0) && same_on(l, 1) && same_on(l, 2) && same_on(l, 3))
}

// Whether a leg stays on x and y, and the drone doesn't turn.
fn is_vertical(l: &Leg) -> bool
    ensures { result ≡ word_vertical l.now }
{
    same_on(l, 0) && same_on(l, 1) && same_on(l, 3)
}

/// Whether a leg goes straight up.
pub fn goes_up(l: &Leg) -> bool
    ensures { result ≡ word_goes_up l.now }
{
    is_vertical(l) && !(l.to[2] <= l.from[2])
}

/// Whether a leg goes straight down.
pub fn goes_down(l: &Leg) -> bool
    ensures { result ≡ word_goes_down l.now }
{
    is_vertical(l) && !(l.from[2] <= l.to[2])
}

fn any_moves(legs: &[Leg]) -> bool
    ensures { result ≡ list_any word_moves legs.now }
{
    legs.iter().any(|l| is_move(l))
}

/// Whether it has moved before leg k.
pub fn has_moved(legs: &[Leg], k: usize) -> bool
    ensures { result ≡ word_has legs.now k }
{
    any_moves(&legs[..k.min(legs.len())])
}

/// Whether it still moves in leg k or later.
pub fn will_move(legs: &[Leg], k: usize) -> bool
    ensures { result ≡ word_will legs.now k }
{
    any_moves(&legs[k.min(legs.len())..])
}

/// Whether it has moved before leg k is over.
pub fn has_moved_in(legs: &[Leg], k: usize) -> bool
    ensures { result ≡ word_has legs.now (suc k) }
{
    if k < legs.len() {
        any_moves(&legs[..k + 1])
    } else {
        any_moves(legs)
    }
}

/// Whether it still moves after leg k.
pub fn will_move_after(legs: &[Leg], k: usize) -> bool
    ensures { result ≡ word_will legs.now (suc k) }
{
    if k < legs.len() {
        any_moves(&legs[k + 1..])
    } else {
        false
    }
}

/// The first leg in which it moves.
pub fn first_move(legs: &[Leg]) -> Option<Leg>
    ensures { result ≡ word_first legs.now }
{
    for l in legs {
        if is_move(l) {
            return Some(*l);
        }
    }
    None
}

/// The last leg in which it moves.
pub fn last_move(legs: &[Leg]) -> Option<Leg>
    ensures { result ≡ word_last legs.now }
{
    let mut last = None;
    for l in legs {
        if is_move(l) {
            last = Some(*l);
        }
    }
    last
}

/// Leg k, or one at the origin where there is none.
pub fn leg(legs: &[Leg], k: usize) -> Leg
    ensures { IsLike result (word_leg legs.now k) }
{
    if k < legs.len() {
        legs[k]
    } else {
        Leg {
            from: [0; 4],
            to: [0; 4],
            ms: 0,
        }
    }
}
