//! The director's state, and one event.

ghost use Rattle.std.specs.Prelude.{slice_set, slice_get, All, true, if◌then◌else◌, None, ◌≡◌, ◌≤◌, ◌+◌, ◌++◌, ◌<◌};
ghost use Rattle.std.specs.Prelude.{◌&&◌, ◌∷◌, length, map, [], Some};
ghost use Rattle.std.specs.List.{list_any, list_all};
ghost use Rattle.flight_model.specs.declared.events.Note.{Note};
ghost use Rattle.flight_model.specs.declared.flights.Step.{Step as StepWord};
ghost use Rattle.flight_model.specs.declared.events.Frame.TheVariants.{Noted, Over};
ghost use Rattle.flight_model.specs.declared.states.Choice.TheVariants.{Begin};
ghost use Rattle.flight_model.specs.Directors.{start, drones, in_show, is_off as word_off, track_with as word_track};
ghost use Rattle.flight_model.specs.Directors.{is_doubtful as word_doubtful, is_off_hold as word_off_hold};
ghost use Rattle.flight_model.specs.Directors.{renewed};
ghost use Rattle.flight_model.specs.Directors.{tracks_after, harms as word_harms, heard, fits, next_step};
ghost use Rattle.flight_model.specs.Directors.{noticed as word_noticed, overdue as word_overdue, notes as word_notes};
ghost use Rattle.flight_model.specs.Directors.{is_due as word_due, is_due_step, is_late_step, is_grave as word_grave};
ghost use Rattle.flight_model.specs.Directors.{has_landed as word_landed};
ghost use Rattle.flight_model.specs.Directors.{is_over as word_over, chosen, has_risen as word_risen, frames_of};
ghost use Rattle.flight_model.specs.Directors.{landings, done, led, happens, says, is_fault, is_go as word_go};
ghost use Rattle.flight_model.specs.Directors.{is_land as word_land, is_stop as word_stop, passed as word_passed};
ghost use Rattle.flight_model.specs.Directors.{frames_of_step, frames_from, into, on_the_way};
ghost use Rattle.flight_model.specs.Directors.{starts_with, unfit_in, is_flying as word_flying, land_order, is_flown};
ghost use Rattle.flight_model.specs.Directors.{State as StateWord};
ghost use Rattle.flight_model.specs.Directors.{answered_after, unanswered, awaits as word_awaits};
ghost use Rattle.flight_model.specs.Directors.{covers as word_covers, awaited as word_awaited, may_land as word_may};
ghost use Rattle.flight_model.specs.Directors.{are_aloft as word_aloft, is_airborne as word_airborne};
ghost use Rattle.flight_model.specs.Directors.{is_outside as word_outside};
ghost use Rattle.flight_director.specs.Held.{IsHeld, AreFew, with_answered, with_tracks};

use crate::answers::{all_answered, forget, put_answer};
use crate::covered::{Deaf, are_listed, is_covered, put_deaf};
use crate::curve::is_kept;
use crate::down::are_down;
use crate::fit::{all_fit, first_unfit};
use crate::holds::{keeps_hold, last_hold};
use crate::notes::{MOST_NOTES, Notes, note_if, note_sample, note_silent};
use crate::risen::{any_risen, has_risen};
use crate::room::is_in_room;
use crate::tracks::{age, all_disarmed, any_silent, later, off_with, renew};
use arrayvec::ArrayVec;
use flight_model::{
    Choice, Event, Fault, Flight, Frame, Note, Order, Orders, Phase, Sample, Signal, Step, Track,
};
use std::marker::Model;
use whole_numbers::MOST_DRONES;

/// The most frames of one event: its notes, and one order for each drone.
pub const MOST_OUT: usize = MOST_NOTES + MOST_DRONES;

/// What goes out at an event.
pub type Out = ArrayVec<Frame, MOST_OUT>;

// How long the director waits for drones after a step is over, and for the last of them to disarm.
const PATIENCE_MS: u64 = 8000;

const OFF_MS: u32 = 5000;

// For how long drones have to stand that say that they fly, until they are told to disarm.
const STOOD_MS: u32 = 5000;

/// What the director knows.
#[derive(Drop)]
pub struct State {
    phase: Phase,
    next: usize,
    waited: u32,
    steady: u32,
    stood: u32,
    showing: bool,
    kept: bool,
    wanted: bool,
    tracks: ArrayVec<Track, MOST_DRONES>,
    answered: ArrayVec<bool, MOST_DRONES>,
}

impl Model for State {
    ghost use Rattle.flight_model.specs.Directors.{State as StateWord};

    ghost Value = { StateWord };

    ghost view = { λ s. record {
      phase = s.phase;
      next = s.next;
      waited = s.waited;
      steady = s.steady;
      stood = s.stood;
      showing = s.showing;
      kept = s.kept;
      wanted = s.wanted;
      tracks = s.tracks.items;
      answered = s.answered.items;
    } };
}

fn is_go(e: &Event) -> bool
    ensures { result ≡ word_go e.now }
{
    matches!(e, Event::Said { signal: Signal::Go })
}

fn is_land(e: &Event) -> bool
    ensures { result ≡ word_land e.now }
{
    matches!(
        e,
        Event::Said {
            signal: Signal::Land
        }
    )
}

fn is_stop(e: &Event) -> bool
    ensures { result ≡ word_stop e.now }
{
    matches!(
        e,
        Event::Said {
            signal: Signal::Stop
        }
    )
}

// How much time an event says has passed.
fn passed(e: &Event) -> u32
    ensures { result ≡ word_passed e.now }
{
    match e {
        Event::Clock { ms } => *ms,
        _ => 0,
    }
}

// The landing of a drone, where it has risen.
fn landing(f: &Flight, n: usize, d: usize) -> Option<Order>
    ensures { result ≡ (if word_risen f.now n d then Some (land_order f.now) else None) }
{
    if has_risen(f, n, d) {
        Some(Order::Land {
            z: f.floor,
            ms: f.descent,
        })
    } else {
        None
    }
}

fn put_order(out: &mut Out, d: usize, order: Option<Order>)
    requires known { d < 256 }
    requires room { length out.old.items < MOST_OUT }
    ensures put { out.new.items ≡ out.old.items ++ frames_from d (order ∷ []) }
    ensures few { length out.new.items ≤ length out.old.items + 1 }
{
    if let Some(order) = order {
        out.push(Frame::To {
            drone: d as u8,
            order,
        });
    }
}

// Puts the landing of all that have risen after the others.
fn put_landings(out: &mut Out, f: &Flight, n: usize)
    requires few { drones f.now ≤ MOST_DRONES }
    requires room { length out.old.items ≤ MOST_NOTES }
    ensures { out.new.items ≡ out.old.items ++ frames_from 0 (landings f.now n) }
{
    for d in 0..f.curves.as_slice().len() {
        put_order(out, d, landing(f, n, d));
    }
}

// Puts what is ordered of each drone after the others.
fn put_orders(out: &mut Out, orders: &[Option<Order>])
    requires few { length orders.now ≤ MOST_DRONES }
    requires room { length out.old.items ≤ MOST_NOTES }
    ensures { out.new.items ≡ out.old.items ++ frames_from 0 orders.now }
{
    for d in 0..orders.len() {
        if let Some(order) = orders[d] {
            out.push(Frame::To {
                drone: d as u8,
                order,
            });
        }
    }
}

// Puts the frames of these orders after the others.
fn put_all(out: &mut Out, orders: &Orders)
    requires small { AreFew orders.now }
    requires room { length out.old.items ≤ MOST_NOTES }
    ensures { out.new.items ≡ out.old.items ++ frames_of orders.now }
{
    match orders {
        Orders::All { order } => put_one(out, Frame::ToAll { order: *order }),
        Orders::Each { orders } => put_orders(out, orders.as_slice()),
    }
}

// Puts what step k orders after the others, if there is one.
fn put_step_at(out: &mut Out, steps: &[Step], k: usize)
    requires small { All (λ (step : StepWord). AreFew step.orders) steps.now }
    requires room { length out.old.items ≤ MOST_NOTES }
    ensures { out.new.items ≡ out.old.items ++ frames_of_step (slice_get steps.now k) }
{
    if k >= steps.len() {
        return;
    }
    put_all(out, &steps[k].orders);
}

fn put_one(out: &mut Out, frame: Frame)
    requires { length out.old.items < MOST_OUT }
    ensures { out.new.items ≡ out.old.items ++ frame ∷ [] }
{
    out.push(frame);
}

// People are told that a landing is waited for.
fn awaited(f: &Flight) -> Frame
    requires { drones f.now ≤ MOST_DRONES }
    ensures { result ≡ Noted (word_awaited f.now) }
{
    Frame::Noted {
        note: Note {
            drone: f.curves.as_slice().len() as u8,
            fault: Fault::Uncovered,
        },
    }
}

fn put_notes(out: &mut Out, notes: &[Note])
    requires few { length notes.now ≤ MOST_NOTES }
    requires empty { out.old.items ≡ [] }
    ensures { out.new.items ≡ map Noted notes.now }
{
    for n in notes {
        put_one(out, Frame::Noted { note: *n });
    }
}

fn put_track(tracks: &mut [Track], d: usize, track: Track)
    requires { d < length tracks.old }
    ensures { tracks.new ≡ slice_set tracks.old d track }
{
    tracks[d] = track;
}

fn is_start(orders: &Orders) -> bool
    ensures { result ≡ starts_with orders.now }
{
    match orders {
        Orders::All { order } => matches!(order, Order::Start),
        Orders::Each { .. } => false,
    }
}

impl State {
    /// The state of a flight to which nothing has happened.
    pub fn start(f: &Flight) -> State
        requires { IsHeld f.now }
        ensures { result ≡ start f.now }
    {
        let mut tracks = ArrayVec::new();
        let mut answered = ArrayVec::new();
        for d in 0..f.curves.as_slice().len() {
            tracks.push(Track {
                seen: None,
                off: None,
                unsure: None,
                outside: false,
            });
            answered.push(false);
        }
        State {
            phase: Phase::Steps,
            next: 0,
            waited: 0,
            steady: 0,
            stood: 0,
            showing: false,
            kept: true,
            wanted: false,
            tracks,
            answered,
        }
    }

    fn in_show(&self, f: &Flight, x: &Sample) -> bool
        ensures { result ≡ in_show f.now self.now x.now }
    {
        self.showing && x.age <= self.waited && self.waited - x.age <= f.show_ms
    }

    // Whether a sample was taken in the show, and off the drone's curve.
    fn is_off(&self, f: &Flight, d: usize, x: &Sample) -> bool
        requires { IsHeld f.now }
        ensures { result ≡ word_off f.now self.now d x.now }
    {
        self.in_show(f, x) && !is_kept(f, d, self.waited - x.age, x)
    }

    // Whether a sample was taken after the last step, and off where its drone is told to be.
    fn is_off_hold(&self, f: &Flight, d: usize, x: &Sample) -> bool
        requires { IsHeld f.now }
        ensures { result ≡ word_off_hold f.now self.now d x.now }
    {
        self.is_flying()
            && x.age <= self.waited
            && !keeps_hold(f, d, &last_hold(f, self.next), self.waited - x.age, x)
    }

    // Whether a sample was taken in the show, and isn't sure.
    fn is_doubtful(&self, f: &Flight, x: &Sample) -> bool
        ensures { result ≡ word_doubtful f.now self.now x.now }
    {
        self.in_show(f, x) && !x.sure
    }

    fn is_airborne(&self) -> bool
        ensures { result ≡ word_airborne self.now.phase }
    {
        matches!(self.phase, Phase::Steps | Phase::Landing)
    }

    // Whether drones are in the air.
    fn are_aloft(&self, f: &Flight) -> bool
        ensures { result ≡ word_aloft f.now self.now }
    {
        self.is_airborne() && any_risen(f, self.next)
    }

    // Whether a sample has its drone outside of the room while drones are in the air.
    fn is_outside(&self, f: &Flight, x: &Sample) -> bool
        ensures { result ≡ word_outside f.now self.now x.now }
    {
        !is_in_room(&f.room, x) && self.are_aloft(f)
    }

    fn track_with(&self, f: &Flight, d: usize, t: &Track, x: &Sample) -> Track
        requires { IsHeld f.now }
        ensures { result ≡ word_track f.now self.now d t.now x.now }
    {
        Track {
            seen: Some(*x),
            off: if self.is_off_hold(f, d, x) {
                Some(off_with(&t.off, &t.seen, x))
            } else {
                None
            },
            unsure: if x.sure {
                None
            } else {
                Some(off_with(&t.unsure, &t.seen, x))
            },
            outside: self.is_outside(f, x),
        }
    }

    fn harms(&self, f: &Flight, e: &Event) -> bool
        requires { IsHeld f.now }
        ensures { result ≡ word_harms f.now self.now e.now }
    {
        match e {
            Event::Clock { ms } => {
                self.showing
                    && self.waited < f.show_ms
                    && any_silent(
                        f.silence,
                        (*ms).min(f.show_ms - self.waited),
                        self.tracks.as_slice(),
                    )
            }
            Event::Seen { drone, sample } => {
                self.is_off(f, *drone as usize, sample) || self.is_doubtful(f, sample)
            }
            _ => false,
        }
    }

    #[tactic(auto, unfolding(flight_model::specs::Directors::tracks_after))]
    fn take(&mut self, f: &Flight, e: &Event)
        requires { IsHeld f.now }
        ensures { self.new ≡ with_tracks self.old (tracks_after f.now self.old e.now) }
    {
        match e {
            Event::Clock { ms } => age(self.tracks.as_mut_slice(), *ms),
            Event::Seen { drone, sample } => {
                let d = *drone as usize;
                if d < self.tracks.len() {
                    let track = self.track_with(f, d, &self.tracks.as_slice()[d], sample);
                    put_track(self.tracks.as_mut_slice(), d, track);
                }
            }
            _ => {}
        }
    }

    // A drone that obeys has answered.
    fn take_answer(&mut self, e: &Event)
        ensures { self.new ≡ with_answered self.old (answered_after self.old.answered e.now) }
    {
        if let Event::Answered { drone, status: 0 } = e {
            put_answer(self.answered.as_mut_slice(), *drone as usize);
        }
    }

    // Whether there is a next step, and each drone meets its condition.
    fn fits(&self, f: &Flight) -> bool
        ensures { result ≡ fits f.now.silence (next_step f.now self.now) self.now.tracks }
    {
        match f.steps.as_slice().get(self.next) {
            None => false,
            Some(step) => all_fit(
                f.silence,
                step.conditions.as_slice(),
                self.tracks.as_slice(),
            ),
        }
    }

    // Hears an event, and does nothing yet.
    #[tactic(auto, unfolding(flight_model::specs::Directors::heard))]
    fn hear(&mut self, f: &Flight, e: &Event)
        requires { IsHeld f.now }
        ensures { self.new ≡ heard f.now self.old e.now }
    {
        let harm = self.harms(f, e);
        self.take(f, e);
        self.take_answer(e);
        self.waited = later(self.waited, passed(e));
        self.steady = if self.fits(f) {
            later(self.steady, passed(e))
        } else {
            0
        };
        self.stood = if are_down(f, false, self.tracks.as_slice()) {
            later(self.stood, passed(e))
        } else {
            0
        };
        self.kept = self.kept && !harm;
    }

    // What becomes known with an event, before it is heard.
    fn noticed(&self, f: &Flight, e: &Event, out: &mut Notes)
        requires held { IsHeld f.now }
        requires empty { out.old.items ≡ [] }
        ensures noted { out.new.items ≡ word_noticed f.now self.now e.now }
        ensures few { length out.new.items ≤ MOST_DRONES }
    {
        match e {
            Event::Clock { ms } => note_silent(out, f.silence, *ms, self.tracks.as_slice()),
            Event::Seen { drone, sample } => {
                let d = *drone as usize;
                if d < self.tracks.len() {
                    let before = self.tracks.as_slice()[d];
                    let after = self.track_with(f, d, &before, sample);
                    note_sample(out, d, &before, &after);
                }
            }
            Event::Answered { drone, status } => {
                note_if(out, *status != 0, *drone as usize, Fault::Refused);
            }
            Event::Said { .. } => {}
        }
    }

    // Whether this step may begin with an event that was heard.
    fn is_due_step(&self, f: &Flight, e: &Event, step: &Step) -> bool
        ensures { result ≡ is_due_step f.now self.now e.now (Some step.now) }
    {
        (!step.asked || is_go(e))
            && step.after <= self.waited
            && step.settle <= self.steady
            && all_fit(
                f.silence,
                step.conditions.as_slice(),
                self.tracks.as_slice(),
            )
            && (!step.answered || all_answered(self.answered.as_slice()))
    }

    #[tactic(auto, unfolding(flight_model::specs::Directors::is_due))]
    fn is_due(&self, f: &Flight, e: &Event) -> bool
        ensures value { result ≡ word_due f.now self.now e.now }
        ensures inside { result ≡ true → self.now.next < length f.now.steps }
    {
        match f.steps.as_slice().get(self.next) {
            None => false,
            Some(step) => self.is_due_step(f, e, step),
        }
    }

    fn is_late(&self, step: &Step) -> bool
        ensures { result ≡ is_late_step self.now (Some step.now) }
    {
        !step.asked && step.after as u64 + step.settle as u64 + PATIENCE_MS <= self.waited as u64
    }

    // Whether the step that is next waits for no go, and its time was over long ago.
    fn is_next_late(&self, f: &Flight) -> bool
        ensures { result ≡ is_late_step self.now (next_step f.now self.now) }
    {
        match f.steps.as_slice().get(self.next) {
            None => false,
            Some(step) => self.is_late(step),
        }
    }

    // The first drone that does not meet its condition for the next step.
    fn unfit(&self, f: &Flight) -> usize
        requires { IsHeld f.now }
        ensures value { result ≡ unfit_in f.now self.now (next_step f.now self.now) }
        ensures few { result ≤ MOST_DRONES }
    {
        match f.steps.as_slice().get(self.next) {
            None => 0,
            Some(step) => first_unfit(
                f.silence,
                step.conditions.as_slice(),
                self.tracks.as_slice(),
            ),
        }
    }

    fn is_flying(&self) -> bool
        ensures { result ≡ word_flying self.now.phase }
    {
        matches!(self.phase, Phase::Steps)
    }

    // Whether a landing waits for a window.
    fn awaits(&self, f: &Flight) -> bool
        ensures { result ≡ word_awaits f.now self.now }
    {
        self.wanted && are_listed(f)
    }

    // Whether the windows cover a landing, if any are listed.
    fn covers(&self, f: &Flight) -> bool
        ensures { result ≡ word_covers f.now.windows f.now self.now }
    {
        match &f.windows {
            None => true,
            Some(windows) => {
                let mut deaf = Deaf::new();
                put_deaf(&mut deaf, f, self.next, self.tracks.as_slice());
                is_covered(windows.as_slice(), self.next, self.waited, deaf.as_slice())
            }
        }
    }

    // Whether all that have risen may land.
    #[tactic(auto, unfolding(flight_model::specs::Directors::may_land))]
    fn may_land(&self, f: &Flight) -> bool
        ensures { result ≡ word_may f.now self.now }
    {
        !any_risen(f, self.next) || self.covers(f)
    }

    // Puts a note where the next step is due no more, in a state that has heard an event.
    fn overdue(&self, f: &Flight, e: &Event, out: &mut Notes)
        requires held { IsHeld f.now }
        requires room { length out.old.items ≤ MOST_DRONES }
        ensures noted { out.new.items ≡ out.old.items ++ word_overdue f.now self.now e.now }
        ensures few { length out.new.items ≤ length out.old.items + 1 }
    {
        let late = self.is_flying()
            && !self.awaits(f)
            && !self.is_due(f, e)
            && self.is_next_late(f);
        note_if(out, late, self.unfit(f), Fault::Late);
    }

    // Whether a fault ends the flight.
    fn is_grave(&self, f: &Flight, fault: Fault) -> bool
        ensures { result ≡ word_grave f.now self.now fault }
    {
        match fault {
            Fault::Silent => false,
            Fault::Astray | Fault::Lost | Fault::Unsure | Fault::Outside => {
                !(self.showing && f.flies_on)
            }
            Fault::Refused | Fault::Late => true,
            Fault::Uncovered => false,
        }
    }

    fn any_grave(&self, f: &Flight, notes: &[Note]) -> bool
        ensures { result ≡ list_any (λ (n : Note). word_grave f.now self.now n.fault) notes.now }
    {
        for n in notes {
            if self.is_grave(f, n.fault) {
                return true;
            }
        }
        false
    }

    fn is_over(&self, f: &Flight) -> bool
        ensures { result ≡ word_over f.now self.now }
    {
        all_disarmed(f.silence, self.tracks.as_slice()) || OFF_MS <= self.waited
    }

    fn has_landed(&self, f: &Flight) -> bool
        ensures { result ≡ word_landed f.now self.now }
    {
        are_down(f, true, self.tracks.as_slice()) || STOOD_MS <= self.stood
    }

    // What is done on the way. While a landing is wanted no step begins.
    fn choose_on_way(&self, f: &Flight, e: &Event, fault: bool) -> Choice
        ensures value { result ≡ on_the_way f.now self.now e.now fault }
        ensures begins { result ≡ Begin → self.now.next < length f.now.steps }
    {
        if is_stop(e) {
            Choice::Cut
        } else if self.wanted || (is_land(e) || fault) {
            if self.may_land(f) {
                Choice::Descend
            } else if self.wanted {
                Choice::Rest
            } else {
                Choice::Wait
            }
        } else if self.is_due(f, e) {
            Choice::Begin
        } else {
            Choice::Rest
        }
    }

    // What is done, in a state that has heard an event.
    fn choose(&self, f: &Flight, e: &Event, fault: bool) -> Choice
        ensures value { result ≡ chosen f.now self.now e.now fault self.now.phase }
        ensures begins { result ≡ Begin → self.now.next < length f.now.steps }
    {
        match self.phase {
            Phase::Steps => self.choose_on_way(f, e, fault),
            Phase::Landing => {
                if is_stop(e) {
                    Choice::Cut
                } else if self.has_landed(f) {
                    Choice::Quit
                } else {
                    Choice::Rest
                }
            }
            Phase::Off => {
                if is_stop(e) {
                    Choice::Cut
                } else if self.is_over(f) {
                    Choice::Finish
                } else {
                    Choice::Rest
                }
            }
            Phase::Halted => {
                if self.is_over(f) {
                    Choice::Finish
                } else {
                    Choice::Rest
                }
            }
            Phase::Ended => Choice::Rest,
        }
    }

    fn put_step(&self, f: &Flight, out: &mut Out)
        requires held { IsHeld f.now }
        requires room { length out.old.items ≤ MOST_NOTES }
        ensures { out.new.items ≡ out.old.items ++ frames_of_step (next_step f.now self.now) }
    {
        put_step_at(out, f.steps.as_slice(), self.next);
    }

    fn end(&self, f: &Flight) -> Frame
        ensures { result ≡ Over (is_flown f.now self.now) (is_flown f.now self.now && self.now.kept) }
    {
        let flown = self.phase == Phase::Off && self.next == f.steps.as_slice().len();
        Frame::Over {
            flown,
            kept: flown && self.kept,
        }
    }

    // Puts what a choice sends after the others.
    #[tactic(auto, unfolding(flight_model::specs::Directors::done))]
    fn put(&self, f: &Flight, choice: Choice, out: &mut Out)
        requires held { IsHeld f.now }
        requires room { length out.old.items ≤ MOST_NOTES }
        ensures { out.new.items ≡ out.old.items ++ done f.now self.now choice }
    {
        match choice {
            Choice::Rest => {}
            Choice::Begin => self.put_step(f, out),
            Choice::Descend => put_landings(out, f, self.next),
            Choice::Wait => put_one(out, awaited(f)),
            Choice::Cut => put_one(out, Frame::ToAll { order: Order::Halt }),
            Choice::Quit => put_one(
                out,
                Frame::ToAll {
                    order: Order::Disarm,
                },
            ),
            Choice::Finish => put_one(out, self.end(f)),
        }
    }

    fn to_phase(&mut self, phase: Phase)
        ensures { self.new ≡ into self.old phase }
    {
        self.phase = phase;
        self.waited = 0;
        self.steady = 0;
        self.stood = 0;
        self.showing = false;
        self.wanted = false;
    }

    // What is off or unsure is counted anew.
    fn renew(&mut self)
        ensures { self.new ≡ with_tracks self.old (map renewed self.old.tracks) }
    {
        renew(self.tracks.as_mut_slice());
    }

    // Answers are waited for anew.
    fn forget_answers(&mut self)
        ensures { self.new ≡ with_answered self.old (unanswered self.old.answered) }
    {
        forget(self.answered.as_mut_slice());
    }

    #[tactic(auto, unfolding(flight_model::specs::Directors::led))]
    fn begin(&mut self, f: &Flight)
        requires { self.old.next < length f.now.steps }
        ensures { self.new ≡ led f.now self.old Begin }
    {
        let steps = f.steps.as_slice();
        self.showing = match steps.get(self.next) {
            None => false,
            Some(step) => is_start(&step.orders),
        };
        self.next += 1;
        self.waited = 0;
        self.steady = 0;
        self.phase = if self.next == steps.len() {
            Phase::Off
        } else {
            Phase::Steps
        };
        self.renew();
        self.forget_answers();
    }

    #[tactic(auto, unfolding(flight_model::specs::Directors::led))]
    fn lead(&mut self, f: &Flight, choice: Choice)
        requires { choice ≡ Begin → self.old.next < length f.now.steps }
        ensures { self.new ≡ led f.now self.old choice }
    {
        match choice {
            Choice::Rest => {}
            Choice::Begin => self.begin(f),
            Choice::Descend => self.to_phase(Phase::Landing),
            Choice::Wait => self.wanted = true,
            Choice::Cut => self.to_phase(Phase::Halted),
            Choice::Quit => self.to_phase(Phase::Off),
            Choice::Finish => self.to_phase(Phase::Ended),
        }
    }

    /// One event: the state after it, and what goes out.
    pub fn happen(&mut self, f: &Flight, e: &Event, out: &mut Out)
        requires { IsHeld f.now }
        ensures state { self.new ≡ happens f.now self.old e.now }
        ensures out { out.new.items ≡ says f.now self.old e.now }
    {
        out.clear();
        let mut notes = Notes::new();
        self.noticed(f, e, &mut notes);
        self.hear(f, e);
        self.overdue(f, e, &mut notes);
        let fault = self.any_grave(f, notes.as_slice());
        let choice = self.choose(f, e, fault);
        put_notes(out, notes.as_slice());
        self.put(f, choice, out);
        self.lead(f, choice);
    }
}
