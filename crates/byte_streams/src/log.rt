//! Bytes that exist in proofs alone.
ghost use Rattle.std.specs.Prelude.{◌≡◌, ℕ, List, [], ◌++◌};
ghost use Rattle.std.specs.Coded.{coded_list, coded_ℕ};
ghost use base.Fml.{ftrue};

use std::marker::Model;

// Bytes that a reader gave or a writer took. It has no size, and its calls do nothing when they run.
#[derive(Drop)]
pub(crate) struct Log {
    ghost bytes: { List ℕ } by { coded_list coded_ℕ },
}

impl Model for Log {
    ghost also_owns = { λ _. ftrue };
}

// The bytes of one call.
#[derive(Clone, Copy)]
pub(crate) struct Piece<'a> {
    bytes: &'a [u8],
}

impl Log {
    pub(crate) fn new() -> Log
        ensures { result.bytes ≡ [] }
    {
        Log {}
    }

    // The bytes of one call more.
    pub(crate) fn then(&self, _piece: &Piece<'_>) -> Log
        ensures { result.bytes ≡ self.now.bytes ++ _piece.now.bytes.now }
    {
        Log {}
    }
}

pub(crate) fn logged(log: &Log, bytes: &[u8]) -> Log
    ensures { result.bytes ≡ log.now.bytes ++ bytes.now }
{
    log.then(&Piece { bytes })
}
