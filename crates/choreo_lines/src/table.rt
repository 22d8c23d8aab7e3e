//! The table of lines: what each line wants in its places, and where it may stand (docs/LANGUAGE.md, "Lines, words and
//! numbers").

ghost use Rattle.std.specs.Prelude.{◌≡◌, ◌≤◌, length, map};
ghost use Rattle.choreo_lines.specs.FirstWord.{keyword_of};
ghost use Rattle.choreo_lines.specs.Steps.{act_among};
ghost use Rattle.choreo_lines.specs.Table as spec;
ghost use Rattle.choreo_lines.specs.declared.line.Place.TheVariants.{InCue, InFigureCue};

use crate::line::{Keyword, Place};
use crate::unit::Counts;
use crate::word::keyword;
use choreo_show::{Ease, Mirror, Name};
use whole_numbers::MOST_DRONES;

/// How many places the longest line has, which is that of a curve.
pub const MOST_PLACES: usize = 10;

/// How a text writes lengths, times and angles.
#[derive(Clone, Copy)]
pub enum Form {
    /// As whole numbers of what their places count: `choreo 1`.
    Whole,
    /// As quantities with a unit: `choreo 2`.
    Units,
}

/// What a place of a line wants.
#[derive(Clone, Copy)]
pub enum Want {
    Name,
    /// `none`, `x` or `y`.
    Mirror,
    /// `line` or `move`.
    Manner,
    /// `ccw` or `cw`.
    Sense,
    /// A whole number from `low` to `high`.
    Number { low: i32, high: i32 },
    /// A length, a time or an angle from `low` to `high` of what the place counts, as the form of the text writes it.
    Quantity { counts: Counts, low: i32, high: i32 },
}

/// What stands in a place of a line.
#[derive(Drop)]
pub enum Value {
    Name(Name),
    Mirror(Mirror),
    /// Whether a way goes from rest to rest.
    Smooth(bool),
    /// Whether an arc goes counter-clockwise.
    Ccw(bool),
    Number(i64),
}

impl Default for Value {
    fn default() -> Self {
        Value::Number(0)
    }
}

/// The word of an act.
#[derive(Clone, Copy)]
pub enum ActWord {
    Hold,
    Line,
    Move,
    Turn,
    Arc,
    Curve,
    /// `swing`, `arc_in` or `arc_out`.
    Eased(Ease),
}

const COORDINATE: Want = Want::Quantity {
    counts: Counts::Micrometres,
    low: -100_000_000,
    high: 100_000_000,
};

const YAW: Want = Want::Quantity {
    counts: Counts::TenthsOfADegree,
    low: -32_768,
    high: 32_767,
};

const ID: Want = Want::Number { low: 0, high: 255 };

const OFFSET: Want = Want::Number { low: 0, high: 4095 };

const TRAJECTORY: Want = Want::Number { low: 0, high: 9 };

const HALF_AXIS: Want = Want::Quantity {
    counts: Counts::Millimetres,
    low: 1,
    high: 2000,
};

const STRAY: Want = Want::Quantity {
    counts: Counts::Millimetres,
    low: 0,
    high: 1000,
};

const LATENESS: Want = Want::Quantity {
    counts: Counts::Milliseconds,
    low: 0,
    high: 1000,
};

const DURATION: Want = Want::Quantity {
    counts: Counts::Milliseconds,
    low: 1,
    high: 65_535,
};

const TIMES: Want = Want::Number {
    low: 1,
    high: 1_000_000_000,
};

const TURNS: Want = Want::Number { low: 0, high: 3 };

/// What the places after the first word of a line want.
pub fn places(first: Keyword) -> &'static [Want]
    ensures value { result.now ≡ (spec.row_of first).places }
    ensures few { length result.now ≤ MOST_PLACES }
{
    match first {
        Keyword::Memory => &[ID, OFFSET],
        Keyword::Trajectory => &[TRAJECTORY],
        Keyword::Ellipsoid => &[HALF_AXIS, HALF_AXIS],
        Keyword::Stray => &[STRAY],
        Keyword::Late => &[LATENESS],
        Keyword::Drone | Keyword::At => &[Want::Name, COORDINATE, COORDINATE, COORDINATE, YAW],
        Keyword::Formation | Keyword::Figure => &[Want::Name],
        Keyword::Cue => &[DURATION],
        Keyword::Repeat => &[TIMES],
        Keyword::Perform => &[
            Want::Name,
            Want::Mirror,
            TURNS,
            COORDINATE,
            COORDINATE,
            COORDINATE,
        ],
        Keyword::Form => &[Want::Name, Want::Manner],
        Keyword::End | Keyword::Other => &[],
    }
}

/// How many names may stand after the places of a line, at least one; none where this is 0.
pub fn names(first: Keyword) -> usize
    ensures { result ≡ (spec.row_of first).names }
{
    match first {
        Keyword::Figure | Keyword::Perform => MOST_DRONES,
        _ => 0,
    }
}

const ACTS: [(&[u8], ActWord); 9] = [
    (b"hold", ActWord::Hold),
    (b"line", ActWord::Line),
    (b"move", ActWord::Move),
    (b"turn", ActWord::Turn),
    (b"arc", ActWord::Arc),
    (b"curve", ActWord::Curve),
    (b"swing", ActWord::Eased(Ease::InOut)),
    (b"arc_in", ActWord::Eased(Ease::In)),
    (b"arc_out", ActWord::Eased(Ease::Out)),
];

fn act_among(mut words: &[(&[u8], ActWord)], word: &[u8]) -> Option<ActWord>
    ensures { result ≡ act_among (map (λ w. (w.0.now, w.1)) words.entry.now) word.now }
{
    while let [entry, rest @ ..] = words {
        if word == entry.0 {
            return Some(entry.1);
        }
        words = rest;
    }
    None
}

/// The act of this word.
pub fn act_word(word: &[u8]) -> Option<ActWord>
    ensures { result ≡ spec.act_of word.now }
{
    act_among(&ACTS, word)
}

/// What the places after the word of an act want.
pub fn act_places(act: ActWord) -> &'static [Want]
    ensures value { result.now ≡ spec.act_places act }
    ensures few { length result.now ≤ MOST_PLACES }
{
    match act {
        ActWord::Hold => &[],
        ActWord::Line | ActWord::Move => &[COORDINATE, COORDINATE, COORDINATE, YAW],
        ActWord::Turn => &[YAW],
        ActWord::Arc | ActWord::Eased(_) => &[Want::Sense, COORDINATE, COORDINATE, YAW],
        ActWord::Curve => &[
            COORDINATE, COORDINATE, COORDINATE, COORDINATE, COORDINATE, COORDINATE, COORDINATE,
            COORDINATE, COORDINATE, YAW,
        ],
    }
}

fn first_in_cue(word: &[u8]) -> Keyword
    ensures { result ≡ spec.as_read InCue (keyword_of word.now) }
{
    if word == b"end".as_slice() {
        Keyword::End
    } else if word == b"form".as_slice() {
        Keyword::Form
    } else {
        Keyword::Other
    }
}

fn first_in_figure_cue(word: &[u8]) -> Keyword
    ensures { result ≡ spec.as_read InFigureCue (keyword_of word.now) }
{
    if word == b"end".as_slice() {
        Keyword::End
    } else {
        Keyword::Other
    }
}

/// The first word as it is read at a place: in a cue all words are names, but for `end` and, outside figures, `form`.
// Most lines of a show are acts in cues, whose first words are looked up in no table.
pub fn first_at(place: Place, word: &[u8]) -> Keyword
    ensures { result ≡ spec.as_read place (keyword_of word.now) }
{
    match place {
        Place::InCue => first_in_cue(word),
        Place::InFigureCue => first_in_figure_cue(word),
        _ => keyword(word),
    }
}

/// Whether a line with this first word may stand here; `Other` is an act line.
pub fn may_stand(place: Place, first: Keyword) -> bool
    ensures { result ≡ spec.may_stand place first }
{
    match place {
        Place::Top => !matches!(
            first,
            Keyword::At | Keyword::Form | Keyword::End | Keyword::Other
        ),
        Place::InFormation => matches!(first, Keyword::At | Keyword::End),
        Place::InFigure => matches!(first, Keyword::Cue | Keyword::Repeat | Keyword::End),
        Place::InRepeat => matches!(
            first,
            Keyword::Cue | Keyword::Repeat | Keyword::Perform | Keyword::End
        ),
        Place::InCue => matches!(first, Keyword::Form | Keyword::End | Keyword::Other),
        Place::InFigureCue => matches!(first, Keyword::End | Keyword::Other),
    }
}
