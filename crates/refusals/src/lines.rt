//! The line of each refusal, as a template and the words at its places.

ghost use Rattle.std.specs.Prelude.{◌≡◌, ◌≤◌, [], ◌∷◌, ◌++◌, false, codes, decimal, length, MatchOption};
ghost use Rattle.refusals.specs.Lines.{pair_words, refusal};
ghost use Rattle.refusals.specs.Refusals.{IsSayable, line_of};
ghost use Rattle.refusals.specs.Steps.{is_of_certificate, is_of_dynamics, is_of_show, is_of_study, is_of_upload};

use crate::kinds::{axis_word, kind_word, line_and_word};
use crate::refusal::{Pair, Refusal};
use crate::words::{direction_word, head_count, hex_word, parts};
use bezier_core::Place;
use byte_streams::ShortLine;
use byte_streams::Word::{Bytes, Decimal, Number};

impl Refusal {
    /// The line that the program writes (docs/COMMANDS.md, "Fault lines"). It takes no memory.
    pub fn line(&self) -> ShortLine
        requires { IsSayable self.now }
        ensures { result ≡ line_of self.now }
    {
        if let Some(line) = self.show_line() {
            return line;
        }
        if let Some(line) = self.upload_line() {
            return line;
        }
        if let Some(line) = self.certificate_line() {
            return line;
        }
        if let Some(line) = self.study_line() {
            return line;
        }
        if let Some(line) = self.dynamics_line() {
            return line;
        }
        // What is left is that the words are no command.
        ShortLine::of(b"error 2 usage", &[])
    }

    // The line, if it is of a show or of a failed read.
    fn show_line(&self) -> Option<ShortLine>
        requires { IsSayable self.now }
        ensures { MatchOption result (is_of_show self.now ≡ false) (λ line. line ≡ line_of self.now) }
    {
        match self {
            Refusal::TooLarge => Some(ShortLine::of(b"error 3 too-large", &[])),
            Refusal::Line { line, kind } => Some(ShortLine::of(
                b"error 3 line ? ?",
                &[Number(*line), Bytes(kind_word(*kind))],
            )),
            Refusal::Grid { fault } => {
                let (line, word) = line_and_word(*fault);
                Some(ShortLine::of(b"error 3 line ? ?", &[Number(line), Bytes(word)]))
            }
            Refusal::Range { line, axis, value } => Some(ShortLine::of(
                b"error 3 line ? out-of-range ? ?",
                &[Number(*line), Bytes(axis_word(*axis)), Decimal(*value)],
            )),
            Refusal::Room { drone, bytes, room } => Some(ShortLine::of(
                b"error 4 drone ? bytes ? room ?",
                &[Bytes(drone.as_slice()), Number(*bytes), Number(*room)],
            )),
            Refusal::Segments { drone, segments } => Some(ShortLine::of(
                b"error 4 drone ? segments ?",
                &[Bytes(drone.as_slice()), Number(*segments)],
            )),
            Refusal::Blocked { pair, index, depth } => Some(ShortLine::of(
                b"error 5 pair ? ? cue ? part ? of ?",
                &[
                    Bytes(pair.first.as_slice()),
                    Bytes(pair.second.as_slice()),
                    Number(u32::from(pair.cue) + 1),
                    Number(u32::from(*index)),
                    Number(parts(*depth)),
                ],
            )),
            Refusal::Read => Some(ShortLine::of(b"error 6 read", &[])),
            _ => None,
        }
    }

    fn upload_line(&self) -> Option<ShortLine>
        requires { IsSayable self.now }
        ensures { MatchOption result (is_of_upload self.now ≡ false) (λ line. line ≡ line_of self.now) }
    {
        match self {
            Refusal::Ended => Some(ShortLine::of(b"error 8 ended", &[])),
            Refusal::GaveUp { drone, packet } => Some(ShortLine::of(
                b"error 9 drone ? packet ?",
                &[Bytes(drone.as_slice()), Number(u32::from(*packet) + 1)],
            )),
            Refusal::Refused {
                drone,
                packet,
                status,
            } => Some(ShortLine::of(
                b"error 10 drone ? packet ? status ?",
                &[
                    Bytes(drone.as_slice()),
                    Number(u32::from(*packet) + 1),
                    Number(u32::from(*status)),
                ],
            )),
            Refusal::Differs {
                drone,
                address,
                wanted,
                got,
            } => Some(ShortLine::of(
                b"error 14 drone ? address ? wanted ? got ?",
                &[
                    Bytes(drone.as_slice()),
                    Number(*address),
                    Bytes(&hex_word(*wanted)),
                    Bytes(&hex_word(*got)),
                ],
            )),
            _ => None,
        }
    }

    // The line, if it is of the second text or of its certificate.
    fn certificate_line(&self) -> Option<ShortLine>
        requires { IsSayable self.now }
        ensures { MatchOption result (is_of_certificate self.now ≡ false) (λ line. line ≡ line_of self.now) }
    {
        match self {
            Refusal::SecondLine { line } => Some(ShortLine::of(
                b"error 11 line ?",
                &[Number(*line)],
            )),
            Refusal::SecondTooLarge => Some(ShortLine::of(b"error 11 too-large", &[])),
            Refusal::Missing { pair } => Some(ShortLine::of(
                b"error 12 missing pair ? ? cue ?",
                &[
                    Bytes(pair.first.as_slice()),
                    Bytes(pair.second.as_slice()),
                    Number(u32::from(pair.cue) + 1),
                ],
            )),
            Refusal::Extra { version, tree } => Some(ShortLine::of(
                b"error 12 extra line ?",
                &[Number(tree + 1 + head_count(*version))],
            )),
            Refusal::TooDeep { pair } => Some(ShortLine::of(
                b"error 12 too-deep pair ? ? cue ?",
                &[
                    Bytes(pair.first.as_slice()),
                    Bytes(pair.second.as_slice()),
                    Number(u32::from(pair.cue) + 1),
                ],
            )),
            Refusal::Fails {
                pair,
                place,
                version,
                dir,
                control,
            } => Some(fails_line(
                pair,
                *place,
                direction_word(*version, *dir).as_slice(),
                *control,
            )),
            _ => None,
        }
    }

    // The line, if it is of a study of regions or speeds.
    fn study_line(&self) -> Option<ShortLine>
        requires { IsSayable self.now }
        ensures { MatchOption result (is_of_study self.now ≡ false) (λ line. line ≡ line_of self.now) }
    {
        match self {
            Refusal::Enters {
                region,
                drone,
                cue,
                index,
                depth,
            } => Some(ShortLine::of(
                b"error 15 region ? drone ? cue ? part ? of ?",
                &[
                    Number(u32::from(*region) + 1),
                    Bytes(drone.as_slice()),
                    Number(u32::from(*cue) + 1),
                    Number(u32::from(*index)),
                    Number(parts(*depth)),
                ],
            )),
            Refusal::TooFast { drone, axis, speed } => Some(ShortLine::of(
                b"error 16 drone ? ? speed ?",
                &[
                    Bytes(drone.as_slice()),
                    Bytes(axis_word(*axis)),
                    Decimal(*speed),
                ],
            )),
            _ => None,
        }
    }

    // The line, if it is of a study of accelerations and of jumps of speed.
    fn dynamics_line(&self) -> Option<ShortLine>
        requires { IsSayable self.now }
        ensures { MatchOption result (is_of_dynamics self.now ≡ false) (λ line. line ≡ line_of self.now) }
    {
        match self {
            Refusal::Accelerates {
                drone,
                cue,
                axis,
                acceleration,
            } => Some(ShortLine::of(
                b"error 18 drone ? cue ? accel ? ?",
                &[
                    Bytes(drone.as_slice()),
                    Number(u32::from(*cue) + 1),
                    Bytes(axis_word(*axis)),
                    Decimal(*acceleration),
                ],
            )),
            Refusal::Jumps {
                drone,
                cue,
                axis,
                speed,
            } => Some(ShortLine::of(
                b"error 18 drone ? cue ? jump ? ?",
                &[
                    Bytes(drone.as_slice()),
                    Number(u32::from(*cue) + 1),
                    Bytes(axis_word(*axis)),
                    Decimal(*speed),
                ],
            )),
            _ => None,
        }
    }
}

// What fails in a part, and in which direction. It is a function, since what a line borrows has one lifetime.
fn fails_line<'a>(pair: &'a Pair, place: Place, direction: &'a [u8], control: u8) -> ShortLine
    requires { length direction.now ≤ 2 }
    ensures { result ≡ refusal (codes "12") (codes "fails" ∷ pair_words pair.now
        ++ codes "part" ∷ decimal place.depth ∷ decimal place.index ∷ codes "direction" ∷ direction.now
        ∷ codes "control" ∷ decimal control ∷ []) }
{
    ShortLine::of(
        b"error 12 fails pair ? ? cue ? part ? ? direction ? control ?",
        &[
            Bytes(pair.first.as_slice()),
            Bytes(pair.second.as_slice()),
            Number(u32::from(pair.cue) + 1),
            Number(u32::from(place.depth)),
            Number(u32::from(place.index)),
            Bytes(direction),
            Number(u32::from(control)),
        ],
    )
}
