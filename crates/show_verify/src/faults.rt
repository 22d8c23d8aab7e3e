//! What is wrong with a certificate, as a refusal.
ghost use Rattle.std.specs.Prelude.{◌≡◌, length};
ghost use Rattle.std.specs.List.{All};
ghost use Rattle.sep_parts.specs.Versions.{IsVersion};
ghost use Rattle.show_plan.specs.Fitting.{StandsAsWord};
ghost use Rattle.show_judge.specs.Refused.{IsOfInput};
ghost use Rattle.show_verify.specs.Steps.{IsFaultAmong};
ghost use Rattle.show_verify.specs.Verify.{not_valid};

use choreo_reader::Name;
use refusals::Refusal;
use sep_certificate::CertFault;
use show_judge::pair_at;

// What is wrong with a certificate of this version for a show of these drones.
pub(crate) fn not_valid(names: &[Name], version: u8, fault: CertFault) -> Refusal
    requires words { All StandsAsWord names.now }
    requires version { IsVersion version }
    requires fault { IsFaultAmong (length names.now) version fault }
    ensures refusal { result ≡ not_valid names.now version fault }
    ensures said { IsOfInput result }
{
    match fault {
        CertFault::Missing { a, b, cue } => Refusal::Missing {
            pair: pair_at(names, a, b, cue),
        },
        CertFault::Extra { tree } => Refusal::Extra { version, tree },
        CertFault::TooDeep { a, b, cue } => Refusal::TooDeep {
            pair: pair_at(names, a, b, cue),
        },
        CertFault::Fails {
            a,
            b,
            cue,
            place,
            dir,
            control,
        } => Refusal::Fails {
            pair: pair_at(names, a, b, cue),
            place,
            version,
            dir,
            control,
        },
    }
}
