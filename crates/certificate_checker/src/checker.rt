//! A certificate's text, judged byte by byte.

ghost use Rattle.std.specs.Prelude.{◌≡◌, ℕ, ◌+◌, ◌≤◌, ◌++◌, [], List, length};
ghost use Rattle.sep_parts.specs.Directions.{IsClearance};
ghost use Rattle.fleet_curves.specs.Raised.{Raised};
ghost use Rattle.certificate_checker.specs.Bytes.{NamesFault, ApartWhereValid, HasRead, most_bytes};
ghost use Rattle.certificate_checker.specs.Verdicts.{VerdictGives};

use crate::tables::Tables;
use crate::text::TextReader;
use crate::verdict::Verdict;
use fleet_curves::Curves;
use sep_parts::Clearance;
use std::marker::Model;

/// Judges the text of a certificate in pieces, for a clearance. It allocates nothing,
/// whatever the text's length: it keeps at most fifteen bytes of a line, a stack of at most nine levels, and counts.
///
/// Contracts see the clearance, what is kept of the bytes that were read, and one difference of curves (`Seen`). Each
/// call takes the curves of one fleet, the same in all calls.
#[derive(Drop)]
pub struct Checker {
    tables: Tables,
    text: TextReader,
}

impl Model for Checker {
    ghost use Rattle.certificate_checker.specs.Bytes.{Seen};
    ghost use Rattle.certificate_checker.specs.Steps.{IsTextSound, checking_of};

    ghost Value = { Seen };

    ghost view = { λ c.
        record { clearance = c.tables; checking = checking_of c.text; diff = c.text.reader.judging.diff } };

    ghost invariant = { λ c. IsTextSound c.text };
}

impl Checker {
    /// A checker before the first byte, for a clearance.
    pub fn make(clearance: Clearance) -> Checker
        requires clearance { IsClearance clearance }
        ensures clearance { result.clearance ≡ clearance }
        ensures has_read { (curves : Raised) → HasRead result curves [] }
    {
        Checker {
            tables: Tables::make(clearance),
            text: TextReader::start(),
        }
    }

    /// Reads more bytes, of at most 400,000,000 in all. The curves are those of the earlier calls.
    pub fn feed(&mut self, curves: &Curves, bytes: &[u8])
        requires { (read : List ℕ) × (length read + length bytes.now ≤ most_bytes) × HasRead self.old curves.now read }
        ensures clearance { self.new.clearance ≡ self.old.clearance }
        ensures has_read { (read : List ℕ) → length read + length bytes.now ≤ most_bytes
            → HasRead self.old curves.now read → HasRead self.new curves.now (read ++ bytes.now) }
    {
        self.text.take_all(curves, &self.tables, bytes);
    }

    /// The verdict on the bytes that were read, as a whole text: its first faulty line; or the first fault of the
    /// certificate; or that the certificate is valid. The curves are those of the earlier calls. Nothing is said of the
    /// checker afterwards.
    ///
    /// Faults come in this order: trees of a pair and cue in order, in each a part before its halves and the first half
    /// before the second; then the first pair and cue without a tree, or the first tree too many, whose nodes aren't
    /// judged.
    ///
    /// If the certificate is valid, whoever made it, any two drones are apart at every instant p / q of the show, for
    /// all whole numbers p and q and for every list of trajectories that the curves stand for.
    pub fn end(&mut self, curves: &Curves) -> Verdict
        requires { (bytes : List ℕ) × (length bytes ≤ most_bytes) × HasRead self.old curves.now bytes }
        ensures gives { (bytes : List ℕ) → length bytes ≤ most_bytes → HasRead self.old curves.now bytes
            → VerdictGives curves.now self.old.clearance bytes result }
        ensures named { NamesFault curves.now result }
        ensures safe { ApartWhereValid curves.now self.old.clearance result }
    {
        // a fleet has at least one drone and one cue
        let _drones = curves.drones();
        let _cues = curves.cues();
        self.text.verdict(curves, &self.tables)
    }
}
