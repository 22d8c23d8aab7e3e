//! The options that are given, each at most once and in any order.
ghost use Rattle.std.specs.Prelude.{◌≡◌, ℕ, ◌≤◌, Bool, map, string_bytes, IfSome, IfOk, length, option_map};
ghost use Rattle.std.specs.Prelude.{option_and_then, is_some, true, unwrap_or, Some, pos, ◌≤ℤ◌};
ghost use Rattle.command_words.specs.Commands as commands;
ghost use Rattle.command_words.specs.Commands.{default_near, depth_in, fine_in, flight_in, given_in, has};
ghost use Rattle.command_words.specs.Commands.{most_floor, most_limit, no_options, noted, options_for, place_of, range_of};
ghost use Rattle.command_words.specs.Commands.{step_in, takes, then_of, value_of, word_of};
ghost use Rattle.command_words.specs.Steps.{AreInRange, IsInRange};

use crate::flight::FlightOptions;
use text_lines::natural;
use whole_numbers::{Depth, Fine, MOST_DEPTH, MOST_FINE};

const DEFAULT_DEPTH: u32 = 6;

// The step where no option names one, in milliseconds.
const DEFAULT_STEP: u32 = 100;

// The greatest step, in milliseconds.
const MOST_STEP: u32 = 60_000;

// The greatest limit on speed, in micrometres per second.
const MOST_LIMIT: u32 = 999_999_999;

// The greatest limit on acceleration, in millimetres per second squared, and on a jump of speed, in millimetres per
// second.
const MOST_BOUND: u32 = 999_999_999;

// How finely a cue is listed where no option says it.
const DEFAULT_FINE: u32 = 5;

// How near a drone has to be to its pad, and to its position in the air, where no option says it, in millimetres.
const DEFAULT_NEAR: u32 = 80;

// The greatest such distance, in millimetres.
const MOST_NEAR: u32 = 32_767;

// After how long a drone is silent where no option says it, in milliseconds.
const DEFAULT_SILENCE: u32 = 1_000;

// How long a landing takes where no option says it, in milliseconds.
const DEFAULT_DESCENT: u32 = 4_000;

// The longest silence, and the longest landing, in milliseconds.
const MOST_WAIT: u32 = 60_000;

// The greatest height of the floor, in millimetres.
const MOST_FLOOR: u32 = 32_767;

// The most digits of a number on the command line.
const MOST_DIGITS: usize = 9;

/// The numbers from `least` to `most`.
#[derive(Clone, Copy)]
pub struct Range {
    pub least: u32,
    pub most: u32,
}

/// An option of the command line (docs/COMMANDS.md, "Options").
#[derive(Clone, Copy)]
pub enum OptionName {
    Depth,
    Step,
    Start,
    Readback,
    Limit,
    Fine,
    Accel,
    Jump,
    Near,
    At,
    Silence,
    Floor,
    Descent,
    Then,
    All,
}

/// The number that a word is, from `least` to `most`: 1 to 9 decimal digits.
pub fn number_from(word: &[u8], least: u32, most: u32) -> Option<u32>
    requires { most ≤ most_limit }
    ensures value { result ≡ commands.number_from least most word.now }
    ensures from { IfSome result (λ n. least ≤ n) }
    ensures to { IfSome result (λ n. n ≤ most) }
{
    if word.len() > MOST_DIGITS {
        return None;
    }
    let n = natural(word)?;
    if (least as u64) <= n && n <= most as u64 {
        Some(n as u32)
    } else {
        None
    }
}

// What a word says that the show does where a drone is lost or astray: 0 where all land, 1 where it goes on.
fn then_from(word: &[u8]) -> Option<u32>
    ensures value { result ≡ then_of word.now }
    ensures to { IfSome result (λ n. n ≤ 1) }
{
    if word == b"land".as_slice() {
        Some(0)
    } else if word == b"fly".as_slice() {
        Some(1)
    } else {
        None
    }
}

impl OptionName {
    fn word(self) -> &'static [u8]
        ensures { result.now ≡ word_of self }
    {
        match self {
            OptionName::Depth => b"--depth",
            OptionName::Step => b"--step",
            OptionName::Start => b"--start",
            OptionName::Readback => b"--readback",
            OptionName::Limit => b"--limit",
            OptionName::Fine => b"--fine",
            OptionName::Accel => b"--accel",
            OptionName::Jump => b"--jump",
            OptionName::Near => b"--near",
            OptionName::At => b"--at",
            OptionName::Silence => b"--silence",
            OptionName::Floor => b"--floor",
            OptionName::Descent => b"--descent",
            OptionName::Then => b"--then",
            OptionName::All => b"--all",
        }
    }

    // The numbers of which one follows it; none follows a flag.
    fn range(self) -> Option<Range>
        ensures value { result ≡ range_of self }
        ensures most { IfSome result (λ r. r.most ≤ most_limit) }
    {
        let (least, most) = match self {
            OptionName::Depth => (0, u32::from(MOST_DEPTH)),
            OptionName::Step => (1, MOST_STEP),
            OptionName::Limit => (1, MOST_LIMIT),
            OptionName::Fine => (0, u32::from(MOST_FINE)),
            OptionName::Accel | OptionName::Jump => (0, MOST_BOUND),
            OptionName::Near | OptionName::At => (0, MOST_NEAR),
            OptionName::Silence | OptionName::Descent => (1, MOST_WAIT),
            OptionName::Floor => (0, MOST_FLOOR),
            OptionName::Then => (0, 1),
            OptionName::Start | OptionName::Readback | OptionName::All => return None,
        };
        Some(Range { least, most })
    }

    fn place(self) -> usize
        ensures value { result ≡ place_of self }
        ensures few { result ≤ 14 }
    {
        match self {
            OptionName::Depth => 0,
            OptionName::Step => 1,
            OptionName::Start => 2,
            OptionName::Readback => 3,
            OptionName::Limit => 4,
            OptionName::Fine => 5,
            OptionName::Accel => 6,
            OptionName::Jump => 7,
            OptionName::Near => 8,
            OptionName::At => 9,
            OptionName::Silence => 10,
            OptionName::Floor => 11,
            OptionName::Descent => 12,
            OptionName::Then => 13,
            OptionName::All => 14,
        }
    }

    // The number that a word is after it, of these.
    #[tactic(auto, unfolding(crate::specs::Commands::value_of))]
    fn value(self, range: Range, word: &[u8]) -> Option<u32>
        requires range { range_of self ≡ Some range }
        requires most { range.most ≤ most_limit }
        ensures value { result ≡ value_of self range word.now }
        ensures from { IfSome result (λ n. range.least ≤ n) }
        ensures to { IfSome result (λ n. n ≤ range.most) }
    {
        match self {
            OptionName::Then => then_from(word),
            OptionName::Depth
            | OptionName::Step
            | OptionName::Start
            | OptionName::Readback
            | OptionName::Limit
            | OptionName::Fine
            | OptionName::Accel
            | OptionName::Jump
            | OptionName::Near
            | OptionName::At
            | OptionName::Silence
            | OptionName::Floor
            | OptionName::Descent
            | OptionName::All => number_from(word, range.least, range.most),
        }
    }
}

fn named_by(word: &[u8]) -> Option<OptionName>
    ensures { result ≡ commands.named_by word.now }
{
    if word == OptionName::All.word() {
        return Some(OptionName::All);
    }
    let names = [
        OptionName::Depth,
        OptionName::Step,
        OptionName::Start,
        OptionName::Readback,
        OptionName::Limit,
        OptionName::Fine,
        OptionName::Accel,
        OptionName::Jump,
        OptionName::Near,
        OptionName::At,
        OptionName::Silence,
        OptionName::Floor,
        OptionName::Descent,
        OptionName::Then,
    ];
    for name in names {
        if word == name.word() {
            return Some(name);
        }
    }
    None
}

fn takes(names: &[OptionName], name: OptionName) -> bool
    ensures { result ≡ takes names.now name }
{
    for taken in names {
        if taken.place() == name.place() {
            return true;
        }
    }
    false
}

/// The options that were given: the number of each, by its place. A flag has 1.
#[derive(Clone, Copy)]
pub struct Options {
    pub values: [Option<u32>; 15],
}

impl Options {
    fn none() -> Options
        ensures value { result ≡ no_options }
        ensures range { AreInRange result }
    {
        Options { values: [None; 15] }
    }

    fn given(self, name: OptionName) -> Option<u32>
        requires { AreInRange self }
        ensures value { result ≡ given_in self name }
        ensures range { IfSome result (IsInRange (range_of name)) }
    {
        self.values[name.place()]
    }

    // One option more, unless it is there, or the command doesn't take it.
    fn noted(self, names: &[OptionName], name: OptionName, value: u32) -> Option<Options>
        requires range { AreInRange self }
        requires value { IsInRange (range_of name) value }
        ensures value { result ≡ noted names.now self (record { name = name; value = value }) }
        ensures range { IfSome result AreInRange }
    {
        if !takes(names, name) || self.given(name).is_some() {
            return None;
        }
        let mut values = self.values;
        values[name.place()] = Some(value);
        Some(Options { values })
    }

    /// The depth; 6 where none is given.
    pub fn depth(self) -> Depth
        requires { AreInRange self }
        ensures { result ≡ depth_in self }
    {
        Depth::make(self.given(OptionName::Depth).unwrap_or(DEFAULT_DEPTH) as u8)
    }

    /// The step in milliseconds, 1 to 60,000; 100 where none is given.
    pub fn step(self) -> u16
        requires { AreInRange self }
        ensures value { result ≡ step_in self }
        ensures from { 1 ≤ result }
        ensures to { result ≤ 60000 }
    {
        self.given(OptionName::Step).unwrap_or(DEFAULT_STEP) as u16
    }

    /// How finely a cue is listed; 5 where it isn't given.
    pub fn fine(self) -> Fine
        requires { AreInRange self }
        ensures { result ≡ fine_in self }
    {
        Fine::make(self.given(OptionName::Fine).unwrap_or(DEFAULT_FINE) as u8)
    }

    /// The limit on speeds, if it is given, in micrometres per second.
    pub fn limit(self) -> Option<u32>
        requires { AreInRange self }
        ensures value { result ≡ given_in self OptionName.Limit }
        ensures range { IfSome result (IsInRange (range_of OptionName.Limit)) }
    {
        self.given(OptionName::Limit)
    }

    /// The limit on accelerations, if it is given, in millimetres per second squared.
    pub fn accel(self) -> Option<u32>
        requires { AreInRange self }
        ensures value { result ≡ given_in self OptionName.Accel }
        ensures range { IfSome result (IsInRange (range_of OptionName.Accel)) }
    {
        self.given(OptionName::Accel)
    }

    /// The limit on jumps of speed, if it is given, in millimetres per second.
    pub fn jump(self) -> Option<u32>
        requires { AreInRange self }
        ensures value { result ≡ given_in self OptionName.Jump }
        ensures range { IfSome result (IsInRange (range_of OptionName.Jump)) }
    {
        self.given(OptionName::Jump)
    }

    // How near a drone has to be to its pad, in millimetres; 80 where it isn't given.
    fn near(self) -> u16
        requires { AreInRange self }
        ensures { result ≡ unwrap_or (given_in self OptionName.Near) default_near }
    {
        self.given(OptionName::Near).unwrap_or(DEFAULT_NEAR) as u16
    }

    // How near a drone has to be to its position in the air, in millimetres; 80 where it isn't given.
    fn at_place(self) -> u16
        requires { AreInRange self }
        ensures { result ≡ unwrap_or (given_in self OptionName.At) default_near }
    {
        self.given(OptionName::At).unwrap_or(DEFAULT_NEAR) as u16
    }

    // The height of the floor, in millimetres; 0 where it isn't given.
    fn floor(self) -> u16
        requires { AreInRange self }
        ensures value { result ≡ unwrap_or (given_in self OptionName.Floor) 0 }
        ensures to { result ≤ 32767 }
    {
        self.given(OptionName::Floor).unwrap_or(0) as u16
    }

    /// What a flight is allowed. Where it isn't given: both distances 80 mm, a silence of 1,000 ms, the floor at 0, a
    /// landing of 4,000 ms, and all land where a drone is lost or astray in the show.
    pub fn flight(self) -> FlightOptions
        requires { AreInRange self }
        ensures value { result ≡ flight_in self }
        ensures floor { (pos 0 ≤ℤ result.floor) × (result.floor ≤ℤ pos most_floor) }
    {
        FlightOptions {
            near: self.near(),
            at_place: self.at_place(),
            silence: self.given(OptionName::Silence).unwrap_or(DEFAULT_SILENCE),
            floor: self.floor() as i16,
            descent: self.given(OptionName::Descent).unwrap_or(DEFAULT_DESCENT),
            then_land: self.given(OptionName::Then).unwrap_or(0) == 0,
            depth: self.depth(),
        }
    }

    /// Whether a flag is given.
    pub fn has(self, flag: OptionName) -> bool
        requires { AreInRange self }
        ensures { result ≡ has self flag }
    {
        self.given(flag).is_some()
    }
}

/// What the words after a command's name give, of a command that takes these options.
pub fn options_for(names: &[OptionName], words: &[String]) -> Option<Options>
    ensures value { result ≡ options_for names.now (map string_bytes words.now) }
    ensures range { IfSome result AreInRange }
{
    let mut options = Options::none();
    let mut rest = words;
    while let Some((word, after)) = rest.split_first() {
        let name = named_by(word.as_bytes())?;
        match name.range() {
            None => {
                options = options.noted(names, name, 1)?;
                rest = after;
            }
            Some(range) => {
                let (value, after) = after.split_first()?;
                let n = name.value(range, value.as_bytes())?;
                options = options.noted(names, name, n)?;
                rest = after;
            }
        }
    }
    Some(options)
}
