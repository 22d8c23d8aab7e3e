//! The laws of an upload.

ghost use Rattle.std.specs.Prelude.{◌≡◌};
ghost use Rattle.upload_model.specs.Theorem.{UploadLaw, StartLaw, UnstartedLaw, TakenLaw, LastingLaw, StaysSentLaw};
ghost use Rattle.upload_model.specs.Starts.{BeginLaw, EachLaw, OnceLaw};
ghost use Rattle.upload_model.specs.Readback.{ReadsCover, VerifiedLaw, StartsLastLaw};
ghost use Rattle.upload_model.specs.Taking.{TakingLaw};

use crate::limits::*;

/// Whatever the link loses, repeats, delays or reorders: what holds at every moment of an upload, with
/// read-back or without, for every session, every drone at the start and every list of events.
pub fn upload_law()
    ensures safe { UploadLaw }
    ensures starts { StartLaw }
    ensures unstarted { UnstartedLaw }
    ensures taken { TakenLaw }
    ensures begins { BeginLaw }
    ensures once { OnceLaw }
    ensures lasts { LastingLaw }
    ensures sent { StaysSentLaw }
{}

/// What read-back says, whoever else alters a byte of a memory: each byte of each load was right when it
/// was read, and no start was sent before.
pub fn readback_law()
    ensures cover { ReadsCover }
    ensures verified { VerifiedLaw }
    ensures starts { StartsLastLaw }
{}

/// Whoever sends them, in whatever order and however often: once a drone's writes, its define and its start are
/// accepted, it has its load and its entry and has started. Nothing but the load is written. Where no start came before
/// its define, it begins once for each start.
pub fn taking_law()
    ensures there { TakingLaw }
    ensures each { EachLaw }
{}

/// A law. The numbers of the drone's model and of the upload, which the definitions cite by their names
/// (docs/RADIO.md, "A drone" and "The upload").
pub fn limits_law()
    ensures entries { TABLE_ENTRIES ≡ 10 }
    ensures accepted { ACCEPTED ≡ 0 }
    ensures unfit { UNFIT ≡ 2 }
    ensures no_room { NO_ROOM ≡ 5 }
    ensures window { PACKETS_IN_FLIGHT ≡ 4 }
    ensures patience { TICKS_TO_GIVE_UP ≡ 20 }
{}
