//! The laws of a flight.

ghost use Rattle.std.specs.Prelude.{◌≡◌};
ghost use Rattle.flight_model.specs.Plan.{PlanLaw};
ghost use Rattle.flight_model.specs.Draws.{DrawLaw};
ghost use Rattle.flight_model.specs.Law.{OnlyLaw, DueLaw, LandLaw, FaultLaw, HaltLaw, OverLaw, QuietLaw};
ghost use Rattle.flight_model.specs.Alarms.{AlarmLaw};
ghost use Rattle.flight_model.specs.Holds.{HoldLaw};
ghost use Rattle.flight_model.specs.Rises.{RiseLaw};
ghost use Rattle.flight_model.specs.Turns.{TurnLaw};
ghost use Rattle.flight_model.specs.Kept.{KeptLaw};
ghost use Rattle.flight_model.specs.Ours.{OursLaw};
ghost use Rattle.flight_model.specs.Rooms.{RoomOfLaw};
ghost use Rattle.flight_model.specs.Outside.{OutsideLaw};
ghost use Rattle.flight_model.specs.Wanted.{CoveredLaw, WantedLaw};
ghost use Rattle.flight_model.specs.Rows.{MutantRows};

/// The steps of three ways order of each drone: leg by leg up, the start, leg by leg down, and disarm. A drone that
/// obeys the order of a leg from where the leg begins flies along the leg.
pub fn plan_law()
    ensures plan { PlanLaw }
    ensures draw { DrawLaw }
{}

/// What holds of every flight and every list of events, whatever is lost, late or wrong.
pub fn director_law()
    ensures only { OnlyLaw }
    ensures due { DueLaw }
    ensures rise { RiseLaw }
    ensures turn { TurnLaw }
    ensures land { LandLaw }
    ensures fault { FaultLaw }
    ensures alarm { AlarmLaw }
    ensures hold { HoldLaw }
    ensures outside { OutsideLaw }
    ensures covered { CoveredLaw }
    ensures wanted { WantedLaw }
    ensures ours { OursLaw }
    ensures halt { HaltLaw }
    ensures over { OverLaw }
    ensures kept { KeptLaw }
    ensures quiet { QuietLaw }
{}

/// The room of a flight holds the control points of its curves, with a margin, and is no larger.
pub fn room_law()
    ensures { RoomOfLaw }
{}

/// What no law says: halfway up a drone is watched, and may not be ahead of its way; it is watched for as long as the
/// start is waited for; and a packet for one group doesn't reach a drone that is in another alone.
pub fn mutant_law()
    ensures { MutantRows }
{}
