//! `verify`: whether a certificate is valid for a show.
ghost use Rattle.std.specs.Prelude.{OnErr, List, ℕ, ◌≡◌, ◌+◌, ◌^◌, ◌<◌, ◌≤◌, [], None, length, IfOk, IfSome, IsTrue};
ghost use Rattle.std.specs.Io.KnownBytes.{IsAtEnd};
ghost use Rattle.byte_streams.specs.Causes.{Rose};
ghost use Rattle.byte_streams.specs.Held.{stream};
ghost use Rattle.byte_streams.specs.Told.{MayGive, Went, to_come};
ghost use Rattle.fleet_curves.specs.Raised.{CurvesStandFor};
ghost use Rattle.certificate_checker.specs.Bytes.{ApartWhereValid, HasRead, NamesFault};
ghost use Rattle.refusals.specs.declared.refusal.Refusal.{Refusal};
ghost use Rattle.show_plan.specs.Fitting.{IsValidFitted};
ghost use Rattle.show_plan.specs.Separation.{FlyApart, clearance_of};
ghost use Rattle.show_judge.specs.Answers.{AnswersInput, IsSaid, outcome_of};
ghost use Rattle.show_judge.specs.Input.{IsReadBoth, IsWholeText};
ghost use Rattle.show_judge.specs.Outcome.{refused};
ghost use Rattle.show_judge.specs.Runs.{Does};
ghost use Rattle.show_judge.specs.Shows.{feeds};
ghost use Rattle.show_judge.specs.Verb.{during};
ghost use Rattle.show_verify.specs.Verify.{VerifyLaw, certificate_limit, verify_verb};
ghost use Rattle.show_verify.specs.SecondTexts.{GivesSecond, IsFewTaken, IsTakenToEnd, IsTakenWhole, TakenGives};
ghost use Rattle.show_verify.specs.SecondTexts.{verdict_outcome};
ghost use Rattle.show_judge.specs.TextsRead.{TwoTextsRead};

use crate::faults::not_valid;
use crate::lines::valid_line;
use byte_streams::{Ask, Failed, Parts, Sink, Source, part_law};
use certificate_checker::{Checker, Verdict};
use choreo_reader::show_law;
use fleet_curves::Curves;
use refusals::Refusal;
use sep_certificate::{CERTIFICATE_LIMIT, certificate_law, text_law};
use sep_parts::apart_law;
use show_judge::{Answer, Failure, Output, Planned, Text, Ways, fit_text, next_text, respond};
use show_plan::{Fitted, clearance_of};
use speed_bound::reach_law;
use std::alloc::Global;
use whole_numbers::MOST_TEXT;

/// A certificate's text that was taken.
#[derive(Clone, Copy)]
pub enum Taken {
    /// It is longer than such a text may be.
    TooLarge,
    /// All of it, and the number of the marker line after it, where one stands there.
    Whole { marker: Option<u32> },
}

// A faulty line of the certificate's text.
fn faulty(line: u32) -> Answer
    ensures gives { outcome_of result ≡ refused (Refusal.SecondLine line) }
    ensures said { IsSaid result }
{
    Answer::Refused {
        refusal: Refusal::SecondLine { line },
    }
}

// What a verdict is said as for a show that fits, with a marker line of this number after the certificate's text, or
// none.
fn judge(fitted: &Fitted, curves: &Curves, verdict: Verdict, marker: Option<u32>) -> Answer
    requires valid { IsValidFitted fitted.now }
    requires curves { CurvesStandFor curves.now fitted.now.trajs }
    requires named { NamesFault curves.now verdict }
    requires apart { ApartWhereValid curves.now (clearance_of fitted.now.settings fitted.now.trajs) verdict }
    ensures gives { outcome_of result ≡ verdict_outcome fitted.now.names marker verdict }
    ensures apart { (outcome_of result).status ≡ 0 → FlyApart fitted.now.settings fitted.now.sent }
    ensures unmarked { (outcome_of result).status ≡ 0 → marker ≡ None }
    ensures said { IsSaid result }
{
    apart_law();
    reach_law();
    match verdict {
        Verdict::Line { line } => faulty(line),
        Verdict::Valid { depth, trees } => match marker {
            Some(line) => faulty(line),
            None => Answer::Done {
                output: Output::Line {
                    line: valid_line(depth, trees),
                },
            },
        },
        Verdict::Refused { version, fault } => match marker {
            Some(line) => faulty(line),
            None => Answer::Refused {
                refusal: not_valid(fitted.names.as_slice(), version, fault),
            },
        },
    }
}

// How many line feeds there are.
fn feeds(bytes: &[u8]) -> u32
    requires { length bytes.now < 2 ^ 31 }
    ensures exact { result ≡ feeds bytes.now }
    ensures most { result ≤ length bytes.now }
{
    let mut count = 0;
    for b in bytes {
        count += u32::from(*b == b'\n');
    }
    count
}

// Takes the certificate's text to its end, and hands it to the checker.
fn take_second<S: Source>(
    parts: &mut Parts,
    source: &mut S,
    curves: &Curves,
    checker: &mut Checker,
) -> Result<Taken, Failed>
    requires sound { IsTrue parts.old.sound }
    requires lines { IsTrue parts.old.lines }
    requires at_line { IsTrue parts.old.at_line }
    requires at_end { IsTrue parts.old.ended → IsTrue (S.told source.old).ended }
    requires unfed { HasRead checker.old curves.now [] }
    ensures gives { (all : List ℕ) → MayGive parts.new.ended (S.told source.new) all
        → IfOk result (TakenGives curves.now (stream parts.old (to_come all (S.told source.old))) checker.new) }
    ensures clearance { checker.new.clearance ≡ checker.old.clearance }
    ensures whole { (all : List ℕ) → MayGive parts.new.ended (S.told source.new) all
        → IfOk result (IsTakenToEnd (to_come all (S.told source.new))) }
    ensures few { (all : List ℕ) → MayGive parts.new.ended (S.told source.new) all
        → IfOk result
        (IsFewTaken (stream parts.old (to_come all (S.told source.old))) (to_come all (S.told source.new))) }
    ensures failed { OnErr result (Rose (S.told source.old).faults (S.told source.new).faults) }
    ensures went { Went parts.old.ended parts.new.ended (S.told source.old) (S.told source.new) }
{
    part_law();
    let mut line: u32 = 1;
    let mut count = 0;
    'pieces: loop {
        let ask = parts.part_bytes(source)?;
        match ask {
            Ask::Bytes { count: more } => {
                if more > CERTIFICATE_LIMIT - count {
                    return Ok(Taken::TooLarge);
                }
                let piece = &parts.waiting()[..more];
                checker.feed(curves, piece);
                line += feeds(piece);
                count += more;
                parts.consume(more);
            }
            Ask::Marker => return Ok(Taken::Whole { marker: Some(line) }),
            Ask::End => return Ok(Taken::Whole { marker: None }),
        }
    }
}

// What a certificate's text is for a show that fits. It is judged as it is taken, and never held.
fn judge_second<S: Source>(
    alloc: Global,
    parts: &mut Parts,
    source: &mut S,
    fitted: &Fitted,
) -> Result<Answer, Failure>
    requires valid { IsValidFitted fitted.now }
    requires sound { IsTrue parts.old.sound }
    requires lines { IsTrue parts.old.lines }
    requires at_line { IsTrue parts.old.at_line }
    requires at_end { IsTrue parts.old.ended → IsTrue (S.told source.old).ended }
    ensures gives { (all : List ℕ) → MayGive parts.new.ended (S.told source.new) all
        → IfSome (stream parts.old (to_come all (S.told source.old)))
        (λ comes. IfOk result (λ a. GivesSecond fitted.now comes (outcome_of a))) }
    ensures apart { IfOk result (λ a. (outcome_of a).status ≡ 0 → FlyApart fitted.now.settings fitted.now.sent) }
    ensures whole { (all : List ℕ) → MayGive parts.new.ended (S.told source.new) all
        → IfOk result (λ a. (outcome_of a).status ≡ 0 → IsAtEnd (to_come all (S.told source.new))) }
    ensures both { (all : List ℕ) → MayGive parts.new.ended (S.told source.new) all
        → IfOk result
        (λ _. IsTakenWhole (stream parts.old (to_come all (S.told source.old))) (to_come all (S.told source.new))) }
    ensures said { IfOk result IsSaid }
    ensures failed { result ≡ Err Failure.Read → Rose (S.told source.old).faults (S.told source.new).faults }
    ensures went { Went parts.old.ended parts.new.ended (S.told source.old) (S.told source.new) }
{
    let curves = Curves::of_slice(alloc, fitted.trajs.as_slice())?;
    let mut checker = Checker::make(clearance_of(fitted));
    let taken = match take_second(parts, source, &curves, &mut checker) {
        Ok(taken) => taken,
        Err(Failed) => return Err(Failure::Read),
    };
    match taken {
        Taken::TooLarge => Ok(Answer::Refused {
            refusal: Refusal::SecondTooLarge,
        }),
        Taken::Whole { marker } => {
            let verdict = checker.end(&curves);
            Ok(judge(fitted, &curves, verdict, marker))
        }
    }
}

// Takes the text after that of a show that is refused, as far as it is read.
fn skip_second<S: Source>(parts: &mut Parts, source: &mut S) -> Result<(), Failed>
    requires sound { IsTrue parts.old.sound }
    requires lines { IsTrue parts.old.lines }
    requires at_line { IsTrue parts.old.at_line }
    requires at_end { IsTrue parts.old.ended → IsTrue (S.told source.old).ended }
    ensures whole { (all : List ℕ) → MayGive parts.new.ended (S.told source.new) all
        → IfOk result
        (λ _. IsTakenWhole (stream parts.old (to_come all (S.told source.old))) (to_come all (S.told source.new))) }
    ensures failed { OnErr result (Rose (S.told source.old).faults (S.told source.new).faults) }
    ensures went { Went parts.old.ended parts.new.ended (S.told source.old) (S.told source.new) }
{
    part_law();
    let mut count = 0;
    'pieces: while count <= CERTIFICATE_LIMIT {
        let ask = parts.part_bytes(source)?;
        match ask {
            Ask::Bytes { count: more } => {
                parts.consume(more);
                count += more;
            }
            Ask::Marker => return Ok(()),
            Ask::End => return Ok(()),
        }
    }
    Ok(())
}

// The refusal of a show, after the text after it was taken; after a show's text that is too large none is.
fn refuse_show<S: Source>(
    parts: &mut Parts,
    source: &mut S,
    show: &Text,
    refusal: Refusal,
) -> Result<Answer, Failure>
    requires sound { IsWholeText show.now → IsTrue parts.old.sound }
    requires lines { IsTrue parts.old.lines }
    requires at_line { IsWholeText show.now → IsTrue parts.old.at_line }
    requires at_end { IsTrue parts.old.ended → IsTrue (S.told source.old).ended }
    ensures refusal { IfOk result (λ a. a ≡ Answer.Refused refusal) }
    ensures both { (all : List ℕ) → MayGive parts.new.ended (S.told source.new) all → IsWholeText show.now
        → IfOk result
        (λ _. IsTakenWhole (stream parts.old (to_come all (S.told source.old))) (to_come all (S.told source.new))) }
    ensures stays { (IsWholeText show.now → ⊥) → S.told source.new ≡ S.told source.old }
    ensures failed { result ≡ Err Failure.Read → Rose (S.told source.old).faults (S.told source.new).faults }
    ensures went { Went parts.old.ended parts.new.ended (S.told source.old) (S.told source.new) }
{
    if let Text::TooLarge = show {
        return Ok(Answer::Refused { refusal });
    }
    match skip_second(parts, source) {
        Ok(()) => Ok(Answer::Refused { refusal }),
        Err(Failed) => Err(Failure::Read),
    }
}

// What `verify` ends with for what its source gives. A failed read comes before what is wrong with the show.
fn answer_input<S: Source>(alloc: Global, source: &mut S) -> Result<Answer, Failure>
    ensures reads { TwoTextsRead (λ left left_after. AnswersInput verify_verb left left_after result)
        (λ _ left left_after. IsReadBoth certificate_limit left left_after) (S.told source.old) (S.told source.new)
        result }
    ensures said { IfOk result IsSaid }
{
    let mut parts = Parts::make();
    let show = next_text(alloc, &mut parts, source, MOST_TEXT)?;
    let ways = Ways {
        reads: true,
        has_second: true,
        by_frames: false,
        depth: None,
    };
    match fit_text(alloc, &ways, &show)? {
        Planned::Fits { fitted } => judge_second(alloc, &mut parts, source, &fitted),
        Planned::Refused { refusal } => refuse_show(&mut parts, source, &show, refusal),
    }
}

/// A law. A certificate's text gives one outcome for a show, and some; and where nothing is lacking, that has status 0.
pub fn verify_law()
    ensures { VerifyLaw }
{
    text_law();
    certificate_law();
}

/// Runs `verify` (docs/COMMANDS.md): the depth and the number of trees of a certificate that is valid for the show, or
/// the first thing that is wrong with either text.
pub fn verify<S: Source, K: Sink>(alloc: Global, source: &mut S, sink: &mut K) -> u8
    ensures { Does verify_verb (during S.told K.written K.faults source.old source.new sink.old sink.new) result }
{
    show_law();
    verify_law();
    let answer = answer_input(alloc, source);
    respond(sink, &answer)
}
