//! The definitions of the main theorems at small values: what each has to refuse it refuses, and what stands beside
//! that it accepts. So none of them can be weakened without a proof that breaks: a lateness, a stray, a half millimetre
//! or an ending that a definition no longer asks for is refuted here (docs/PROMISES.md, "What is only tested, and what
//! is neither"). The functions are laws, whose contracts are rows of specs/; nothing calls them. One law is no row:
//! `radius_law` says how well the quarter circles of a show keep to their circle (docs/TRAJECTORY.md).
#![tactic(auto)]

ghost use Rattle.definition_tests.specs.Apart.{ApartRows, LateRows, MarginRows, StrayRows, TouchRows};
ghost use Rattle.definition_tests.specs.Begins.{BeginRows, OrderRows, ReadRows, SafeRows};
ghost use Rattle.definition_tests.specs.Blocked.{BlockedRows};
ghost use Rattle.definition_tests.specs.Called.{CalledRows};
ghost use Rattle.definition_tests.specs.Carried.{CarriesRows};
ghost use Rattle.definition_tests.specs.Certified.{ValidRows};
ghost use Rattle.definition_tests.specs.Depths.{DepthRows, SearchRows};
ghost use Rattle.definition_tests.specs.Dialogues.{DialogueRows};
ghost use Rattle.definition_tests.specs.Ends.{EndsLaw};
ghost use Rattle.definition_tests.specs.FlightBounds.{BoundRows};
ghost use Rattle.definition_tests.specs.FlightCovered.{CoveredRows};
ghost use Rattle.definition_tests.specs.FlightExample.{ExampleLaw};
ghost use Rattle.definition_tests.specs.FlightGroup.{GroupRows};
ghost use Rattle.definition_tests.specs.FlightRejected.{RejectedLaw};
ghost use Rattle.definition_tests.specs.FlightRoom.{RoomRows};
ghost use Rattle.definition_tests.specs.FlightSaid.{SaidRows};
ghost use Rattle.definition_tests.specs.FlightWatched.{WatchedRows};
ghost use Rattle.definition_tests.specs.Forms.{FormRows};
ghost use Rattle.definition_tests.specs.Grids.{CountRows, NamingRows};
ghost use Rattle.definition_tests.specs.Headlines.{HeadlineRows, WrittenRows};
ghost use Rattle.definition_tests.specs.Hosts.{HostRows, ReplyRows};
ghost use Rattle.definition_tests.specs.Items.{ItemRows, SingleRows};
ghost use Rattle.definition_tests.specs.Joined.{JoinedRows};
ghost use Rattle.definition_tests.specs.Legs.{LegRows};
ghost use Rattle.definition_tests.specs.Motion.{AccelerationRows, GreatestRows, JumpRows, SpeedRows, WithinRows};
ghost use Rattle.definition_tests.specs.Halves.{HalfRows};
ghost use Rattle.definition_tests.specs.Meetings.{ExplainRows, MeetRows};
ghost use Rattle.definition_tests.specs.Near.{ShowRows};
ghost use Rattle.definition_tests.specs.Options.{OptionRows};
ghost use Rattle.definition_tests.specs.Pairs.{BothReadRows, PairRows, UploadsRows};
ghost use Rattle.definition_tests.specs.Radius.{RadiusLaw};
ghost use Rattle.definition_tests.specs.Ranges.{NameRows, NumberRows, SettingRows};
ghost use Rattle.definition_tests.specs.Regions.{RegionRows};
ghost use Rattle.definition_tests.specs.Rights.{RightRows};
ghost use Rattle.definition_tests.specs.Runs.{BegunRows, BehavesRows, OutcomeRows, RunsRows};
ghost use Rattle.definition_tests.specs.Runs.{SaysRows, TakenRows, VerbRows};
ghost use Rattle.definition_tests.specs.Shapes.{FigureRows, FilledRows, NestingRows};
ghost use Rattle.definition_tests.specs.Shows.{CueRows, PlanRows, WholeRows};
ghost use Rattle.definition_tests.specs.Small.{SmallRows};
ghost use Rattle.definition_tests.specs.Stands.{StandsRows};
ghost use Rattle.definition_tests.specs.Steps.{DirectorRows, EventRows, StepRows};
ghost use Rattle.definition_tests.specs.Stored.{LandedRows, UploadRows};
ghost use Rattle.definition_tests.specs.Texts.{BlockRows, LimitRows, TwiceRows};
ghost use Rattle.definition_tests.specs.Values.{PacketRows, PlaceRows, WordRows};
ghost use Rattle.definition_tests.specs.Wholes.{FlyAsOneRows};

use choreo_reader::show_law;
use sep_certificate::certificate_law;
use show_plan::{plan_law, uploads_law};
use speed_bound::reach_law;
use traj_codec::join_law;

/// A law. Instants that are farther apart than the lateness are not together; two drones that fly one line one behind
/// the other touch where one is 5 ms late.
#[tactic(auto, using(crate::proofs::ApartRows::late))]
pub fn late_rows()
    ensures { LateRows }
{}

/// A law. A drone that strays by 3 mm may be 3 mm off, and no farther: two that are 7 mm apart may touch then.
#[tactic(auto, using(crate::proofs::ApartRows::stray))]
pub fn stray_rows()
    ensures { StrayRows }
{}

/// A law. The same drones fly apart where one is 4 ms late, and where they stray by 2 mm.
#[tactic(auto, using(crate::proofs::KeptRows::apart))]
pub fn apart_rows()
    ensures { ApartRows }
{
    certificate_law();
    reach_law();
}

/// A law. Two drones that touch at one instant don't fly apart, whichever it is.
#[tactic(auto, using(crate::proofs::ApartRows::touch))]
pub fn touch_rows()
    ensures { TouchRows }
{}

/// A law. Ellipsoids that touch share a point, by the width and by the height.
#[tactic(auto, using(crate::proofs::ApartRows::margin))]
pub fn margin_rows()
    ensures { MarginRows }
{}

/// A law. A certificate is valid where its leaf separates by all that is wanted, and has one whole tree for each pair
/// and cue.
#[tactic(auto, using(crate::proofs::KeptRows::valid))]
pub fn valid_rows()
    ensures { ValidRows }
{}

/// A law. Half a millimetre is near, and a micrometre more is not.
#[tactic(auto, using(crate::proofs::HalfRows::half))]
pub fn half_rows()
    ensures { HalfRows }
{}

/// A law. What is sent isn't near to a show that is more than half a millimetre off, turned otherwise, or of other
/// drones.
#[tactic(auto, using(crate::proofs::NearRows::show))]
pub fn show_rows()
    ensures { ShowRows }
{}

/// A law. A short text is that of one show and not of its neighbour; texts without the header, or with a byte that may
/// not stand there, are that of none.
#[tactic(auto, using(crate::proofs::StandsRows::stands))]
pub fn stands_rows()
    ensures { StandsRows }
{
    show_law();
}

/// A law. A show of one drone has a text of each form; a bare length among units, a unit among whole numbers and a part
/// of a micrometre are faults.
#[tactic(auto, using(crate::proofs::FormRows::forms))]
pub fn form_rows()
    ensures { FormRows }
{
    show_law();
}

/// A law. A drone carries a flight where the three zero bytes stand after its bytes, and nowhere else.
#[tactic(auto, using(crate::proofs::CarriedRows::carries))]
pub fn carries_rows()
    ensures { CarriesRows }
{}

/// A law. A flight without its whole ending is not stored, nor one that is far, touches another, hasn't started or
/// comes with another byte.
#[tactic(auto, using(crate::proofs::LandedRows::landed))]
pub fn landed_rows()
    ensures { LandedRows }
{}

/// A law. A flight of a metre a second keeps below that, and not below less.
#[tactic(auto, using(crate::proofs::MotionRows::speeds))]
pub fn speed_rows()
    ensures { SpeedRows }
{}

/// A law. A parabola has its acceleration, and not less.
#[tactic(auto, using(crate::proofs::MotionRows::accelerations))]
pub fn acceleration_rows()
    ensures { AccelerationRows }
{}

/// A law. Jumps of velocity are counted at both ends.
#[tactic(auto, using(crate::proofs::MotionRows::jumps))]
pub fn jump_rows()
    ensures { JumpRows }
{}

/// A law. The greatest jump is the first of those that none exceeds.
#[tactic(auto, using(crate::proofs::MotionRows::greatest))]
pub fn greatest_rows()
    ensures { GreatestRows }
{}

/// A law. A jump or an acceleration is within its own limit, and not within a lower one.
#[tactic(auto, using(crate::proofs::MotionRows::within))]
pub fn within_rows()
    ensures { WithinRows }
{}

/// A law. A drone begins as often as it takes a start.
#[tactic(auto, using(crate::proofs::BeginRows::begins))]
pub fn begin_rows()
    ensures { BeginRows }
{}

/// A law. In any order a drone begins once for each start after its define, and refuses one before.
#[tactic(auto, using(crate::proofs::BeginRows::orders))]
pub fn order_rows()
    ensures { OrderRows }
{}

/// A law. A read that was right found the bytes of the load.
#[tactic(auto, using(crate::proofs::BeginRows::reads))]
pub fn read_rows()
    ensures { ReadRows }
{}

/// A law. What is said of an upload that goes right is said of its bytes, its reads and its starts.
#[tactic(auto, using(crate::proofs::RightRows::rights))]
pub fn right_rows()
    ensures { RightRows }
{}

/// A law. What is said of uploads, of orders and of starts is said of some.
#[tactic(auto, using(crate::proofs::UploadRows::uploads))]
pub fn upload_rows()
    ensures { UploadRows }
{}

/// A law. A start to one drone says of the other that it carries its own trajectory; two that carry the same aren't
/// stored.
#[tactic(auto, using(crate::proofs::PairRows::pairs))]
pub fn pair_rows()
    ensures { PairRows }
{}

/// A law. A start to one drone, and the end of an upload, say of the other that its read was right.
#[tactic(auto, using(crate::proofs::PairRows::both_read))]
pub fn both_read_rows()
    ensures { BothReadRows }
{}

/// A law. What is said of all uploads says so of the second drone, in each of its parts; in any order a read needn't be
/// accepted.
#[tactic(auto, using(crate::proofs::PairRows::uploads))]
pub fn uploads_rows()
    ensures { UploadsRows }
{}

/// A law. A start that came first, a byte outside, and a load that isn't there are not safe.
#[tactic(auto, using(crate::proofs::BeginRows::safe))]
pub fn safe_rows()
    ensures { SafeRows }
{}

/// A law. Holds are joined as far as a segment can last.
#[tactic(auto, using(crate::proofs::JoinedRows::joined))]
pub fn joined_rows()
    ensures { JoinedRows }
{
    join_law();
}

/// A law. Until it begins a drone is at the first place of its curve, and from its end on at the last one: drones that
/// fly apart do so before the first of them begins and after the last has ended.
#[tactic(auto, using(crate::proofs::EndRows::ends))]
pub fn ends_law()
    ensures { EndsLaw }
{}

/// A law. A flight keeps to a volume and out of a box where it has just room for itself, and not where a side is a
/// millimetre nearer.
#[tactic(auto, using(crate::proofs::RegionRows::regions))]
pub fn region_rows()
    ensures { RegionRows }
{}

/// A law. A text of each line of the language is that of one show.
#[tactic(auto, using(crate::proofs::ShowRows::wholes))]
pub fn whole_rows()
    ensures { WholeRows }
{
    show_law();
}

/// A law. A show's cues are its own, and each figure's as often as it is repeated, in its frame, by the drones of its
/// roles.
#[tactic(auto, using(crate::proofs::ShowRows::cues))]
pub fn cue_rows()
    ensures { CueRows }
{}

/// A law. The plan of a small flight, byte by byte.
#[tactic(auto, using(crate::proofs::ShowRows::plans))]
pub fn plan_rows()
    ensures { PlanRows }
{}

/// A law. Drones that meet touch first where they do, and are closest there.
#[tactic(auto, using(crate::proofs::MeetRows::meets))]
pub fn meet_rows()
    ensures { MeetRows }
{}

/// A law. What explains a show is what it has to say, of that show, and of nothing else.
#[tactic(auto, using(crate::proofs::ExplainRows::explains))]
pub fn explain_rows()
    ensures { ExplainRows }
{
    show_law();
}

/// A law. The headline holds of a small show and its plan, and not of a text that isn't a show or of a plan that isn't
/// there.
#[tactic(auto, using(crate::proofs::HeadlineRows::headlines))]
pub fn headline_rows()
    ensures { HeadlineRows }
{
    uploads_law();
}

/// A law. Three texts fly as one only if each is that of a show whose drones don't touch.
#[tactic(auto, using(crate::proofs::WholeRows::wholes))]
pub fn fly_as_one_rows()
    ensures { FlyAsOneRows }
{}

/// A law. A repeat without a block is not filled, wherever it stands, nor is a figure without one.
#[tactic(auto, using(crate::proofs::ShapeRows::filled))]
pub fn filled_rows()
    ensures { FilledRows }
{}

/// A law. A figure has no `form` line and no perform.
#[tactic(auto, using(crate::proofs::ShapeRows::figures))]
pub fn figure_rows()
    ensures { FigureRows }
{}

/// A law. Repeats stand inside each other eight deep, and no deeper.
#[tactic(auto, using(crate::proofs::ShapeRows::nesting))]
pub fn nesting_rows()
    ensures { NestingRows }
{}

/// A law. Names have 1 to 16 bytes of their kinds, and aren't words of the language.
#[tactic(auto, using(crate::proofs::RangeRows::names))]
pub fn name_rows()
    ensures { NameRows }
{}

/// A law. Settings fit at both ends of their ranges, and no further.
#[tactic(auto, using(crate::proofs::RangeRows::settings))]
pub fn setting_rows()
    ensures { SettingRows }
{}

/// A law. Points, yaws, turns, durations and counts fit at both ends of their ranges, and no further.
#[tactic(auto, using(crate::proofs::RangeRows::numbers))]
pub fn number_rows()
    ensures { NumberRows }
{}

/// A law. Each setting stands once at most.
#[tactic(auto, using(crate::proofs::ItemRows::single))]
pub fn single_rows()
    ensures { SingleRows }
{}

/// A law. The items of a text are filled, not too deep, and of their kinds.
#[tactic(auto, using(crate::proofs::ItemRows::items))]
pub fn item_rows()
    ensures { ItemRows }
{}

/// A law. A text that says a setting twice is that of no show.
#[tactic(auto, using(crate::proofs::TextRows::twice))]
pub fn twice_rows()
    ensures { TwiceRows }
{
    show_law();
}

/// A law. Blocks have lines in them, stand where they may, and end.
#[tactic(auto, using(crate::proofs::TextRows::blocks))]
pub fn block_rows()
    ensures { BlockRows }
{
    show_law();
}

/// A law. A number or a name that is one above its range is a fault.
#[tactic(auto, using(crate::proofs::TextRows::limits))]
pub fn limit_rows()
    ensures { LimitRows }
{
    show_law();
}

/// A law. The headline doesn't hold of a plan that isn't the show's: of a neighbouring show, another entry, another
/// place in the memory or another drone.
#[tactic(auto, using(crate::proofs::WrittenRows::written))]
pub fn written_rows()
    ensures { WrittenRows }
{
    show_law();
    uploads_law();
    plan_law();
}

/// A law. A pair that no direction separates in a whole cue is clear by a greater depth, and its tree is split there.
#[tactic(auto, using(crate::proofs::DepthRows::depth))]
pub fn depth_rows()
    ensures { DepthRows }
{}

/// A law. The first part without a direction blocks a depth, and the best tree has the largest parts with one.
#[tactic(auto, using(crate::proofs::DepthRows::search))]
pub fn search_rows()
    ensures { SearchRows }
{}

/// A law. A show has 1 to 32 drones and 1 to 1,000 cues.
#[tactic(auto, using(crate::proofs::GridRows::counts))]
pub fn count_rows()
    ensures { CountRows }
{}

/// A law. Names stand once and are known, and the earliest fault counts.
#[tactic(auto, using(crate::proofs::GridRows::naming))]
pub fn naming_rows()
    ensures { NamingRows }
{}

/// A law. A depth refuses two drones by the first part in which no direction separates them, and a greater depth
/// accepts them.
#[tactic(auto, using(crate::proofs::BlockedRows::blocked))]
pub fn blocked_rows()
    ensures { BlockedRows }
{}

/// A law. Words are called by the first of them, whole.
#[tactic(auto, using(crate::proofs::CalledRows::called))]
pub fn called_rows()
    ensures { CalledRows }
{}

/// A law. What is taken and given is the front of what there was, and a count of faults rises by a fault.
#[tactic(auto, using(crate::proofs::RunRows::taken))]
pub fn taken_rows()
    ensures { TakenRows }
{}

/// A law. An upload begins with a packet, and a flight with what is neither an end nor a cause.
#[tactic(auto, using(crate::proofs::RunRows::begun))]
pub fn begun_rows()
    ensures { BegunRows }
{}

/// A law. A command that judges nothing has one outcome; a text that is no show's has none that is safe.
#[tactic(auto, using(crate::proofs::RunRows::outcomes))]
pub fn outcome_rows()
    ensures { OutcomeRows }
{}

/// A law. A command with two outcomes, with none, or whose promise or shortest statement doesn't hold keeps no rules.
#[tactic(auto, using(crate::proofs::RunRows::verbs))]
pub fn verb_rows()
    ensures { VerbRows }
{}

/// A law. Small runs, and what each clause on a run refuses of them.
#[tactic(auto, using(crate::proofs::RunRows::runs))]
pub fn runs_rows()
    ensures { RunsRows }
{}

/// A law. A run reads as little as it should, ends with 0 where its input lacks nothing, and keeps what its command
/// says besides.
#[tactic(auto, using(crate::proofs::RunRows::behaves))]
pub fn behaves_rows()
    ensures { BehavesRows }
{}

/// A law. What status 0 says isn't said of a text that is no show's, of drones that touch or are faster, or where
/// nothing was written.
#[tactic(auto, using(crate::proofs::RunRows::says_of))]
pub fn says_rows()
    ensures { SaysRows }
{}

/// A law. Each option takes both ends of its range, and nothing beyond.
#[tactic(auto, using(crate::proofs::OptionRows::options))]
pub fn option_rows()
    ensures { OptionRows }
{}

/// A law. The legs of a flight and its end, at the value beside which a weaker definition answers otherwise.
#[tactic(auto, using(crate::proofs::LegRows::legs))]
pub fn leg_rows()
    ensures { LegRows }
{}

/// A law. Small definitions, each at the value beside which a weaker one answers otherwise.
#[tactic(auto, using(crate::proofs::SmallRows::small))]
pub fn small_rows()
    ensures { SmallRows }
{}

/// A law. The host of an upload to two drones: what is in flight, what ends it, and what is sent.
#[tactic(auto, using(crate::proofs::HostRows::hosts))]
pub fn host_rows()
    ensures { HostRows }
{}

/// A law. What an answer is, and what it says of the packet that it answers.
#[tactic(auto, using(crate::proofs::HostRows::replies))]
pub fn reply_rows()
    ensures { ReplyRows }
{}

/// A law. The steps of a flight of one drone: when each begins, its orders, and where the drone has to be.
#[tactic(auto, using(crate::proofs::StepRows::steps))]
pub fn step_rows()
    ensures { StepRows }
{}

/// A law. The bytes of what a flight hears, and its first end.
#[tactic(auto, using(crate::proofs::StepRows::events))]
pub fn event_rows()
    ensures { EventRows }
{}

/// A law. When the director of a flight holds a drone to be silent, and a sample to be of the show.
#[tactic(auto, using(crate::proofs::StepRows::directors))]
pub fn director_rows()
    ensures { DirectorRows }
{}

/// A law. A small flight for which the premises of the flight director's laws hold, and what the laws then say of it.
#[tactic(auto, using(crate::proofs::FlightExampleRows::example_law))]
pub fn example_law()
    ensures { ExampleLaw }
{}

/// A law. What the flight director says in that flight, in each phase and at each fault.
#[tactic(auto, using(crate::proofs::FlightSaidRows::said_rows))]
pub fn said_rows()
    ensures { SaidRows }
{}

/// A law. Positions and shows that `IsFit` and `IsKeptShow` reject, each beside a neighbour that they accept.
#[tactic(auto, using(crate::proofs::FlightKeptRows::rejected_law))]
pub fn rejected_law()
    ensures { RejectedLaw }
{}

/// A law. Whom `is_off_hold` finds off where drones are told to be, each beside a neighbour that it doesn't.
#[tactic(auto, using(crate::proofs::FlightWatchedRows::watched_rows))]
pub fn watched_rows()
    ensures { WatchedRows }
{}

/// A law. When a landing is covered, and whom it may not reach: each value beside one that differs.
#[tactic(auto, using(crate::proofs::FlightCoveredRows::covered_rows))]
pub fn covered_rows()
    ensures { CoveredRows }
{}

/// A law. Whom packets for a group reach, and when drones are armed: each value beside one that differs.
#[tactic(auto, using(crate::proofs::FlightGroupRows::group_rows))]
pub fn group_rows()
    ensures { GroupRows }
{}

/// A law. Who is outside of a flight's room, each beside a neighbour that isn't.
#[tactic(auto, using(crate::proofs::FlightRoomRows::room_rows))]
pub fn room_rows()
    ensures { RoomRows }
{}

/// A law. How near to a leg's beginning drones have to be: each bound beside one that differs.
#[tactic(auto, using(crate::proofs::FlightBoundsRows::bound_rows))]
pub fn bound_rows()
    ensures { BoundRows }
{}

/// A law. What a dialogue takes of what comes, how it ends, and what it sends.
#[tactic(auto, using(crate::proofs::DialogueRows::dialogues))]
pub fn dialogue_rows()
    ensures { DialogueRows }
{}

/// A law. Places of drones, and how near they are to one another.
#[tactic(auto, using(crate::proofs::ValueRows::places))]
pub fn place_rows()
    ensures { PlaceRows }
{}

/// A law. Lines that are read and written.
#[tactic(auto, using(crate::proofs::ValueRows::words))]
pub fn word_rows()
    ensures { WordRows }
{}

/// A law. Packets of an upload, and kinds of commands.
#[tactic(auto, using(crate::proofs::ValueRows::packets))]
pub fn packet_rows()
    ensures { PacketRows }
{}

/// A law. At every instant `arc` is 1 to 1.00028 radii away from its centre, `swing` 0.99906 to 1.00094, and `arc_in`
/// and `arc_out` 0.99995 to 1.00005, before their control points are rounded to whole micrometres. Rounding moves a
/// control point by at most a micrometre on each axis.
pub fn radius_law()
    ensures { RadiusLaw }
{}
