//! What a certificate's text is.

use sep_certificate::CertFault;

/// What a certificate's text is, judged for the curves of a fleet.
#[derive(Clone, Copy)]
pub enum Verdict {
    /// It is a valid certificate of this depth, with this many trees.
    Valid { depth: u8, trees: u32 },
    /// Its first faulty line is this one, counted from 1.
    Line { line: u32 },
    /// It is a certificate of this version, 1 or 2, that isn't valid. This is its first fault.
    Refused { version: u8, fault: CertFault },
}
