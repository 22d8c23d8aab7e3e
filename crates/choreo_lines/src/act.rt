//! What the words of an act say. Nearly all numbers of a show are those of its acts, some ten a line. So they are read
//! straight into their places, with no list of values between: that saves a sixth of the instructions for reading a
//! show.

ghost use Rattle.std.specs.Prelude.{◌≡◌, ◌+◌, ◌<◌, ◌≤◌, length};
ghost use Rattle.text_lines.specs.Tokens.{words_in};
ghost use Rattle.choreo_lines.specs.Table.{word, act_places};
ghost use Rattle.choreo_lines.specs.Steps.{act_read, line_in, move_in, turn_in, arc_in, eased_in, curve_in};
ghost use Rattle.choreo_lines.specs.Steps.{coordinate_in, yaw_in, triple_in as triple_in_of, point_in as point_in_of};
ghost use Rattle.choreo_lines.specs.Steps.{quarter_in as quarter_in_of};

use crate::field::{ccw, nth, quantity};
use crate::line::LineKind;
use crate::table::{ActWord, Form};
use crate::unit::Counts;
use choreo_show::{Act, Ease, Point};
use text_lines::Token;

/// How far from the origin a coordinate may be, in micrometres.
const FAR: i64 = 100_000_000;

#[inline(always)]
fn coordinate(form: Form, text: &[u8], words: &[Token], k: usize) -> Result<i64, LineKind>
    requires { k < length words.now }
    ensures { result ≡ coordinate_in form (word (words_in text.now words.now) k) }
{
    quantity(form, Counts::Micrometres, nth(text, words, k), -FAR, FAR)
}

#[inline(always)]
fn yaw(form: Form, text: &[u8], words: &[Token], k: usize) -> Result<i64, LineKind>
    requires { k < length words.now }
    ensures { result ≡ yaw_in form (word (words_in text.now words.now) k) }
{
    quantity(
        form,
        Counts::TenthsOfADegree,
        nth(text, words, k),
        -32_768,
        32_767,
    )
}

// The three coordinates of which the first stands at a place.
#[inline(always)]
fn triple_in(form: Form, text: &[u8], words: &[Token], k: usize) -> Result<[i64; 3], LineKind>
    requires few { length words.now ≤ 10 }
    requires within { k + 3 ≤ length words.now }
    ensures { result ≡ triple_in_of form (words_in text.now words.now) k }
{
    let x = coordinate(form, text, words, k)?;
    let y = coordinate(form, text, words, k + 1)?;
    let z = coordinate(form, text, words, k + 2)?;
    Ok([x, y, z])
}

// The point whose x stands at a place.
#[inline(always)]
fn point_in(form: Form, text: &[u8], words: &[Token], k: usize) -> Result<Point, LineKind>
    requires few { length words.now ≤ 10 }
    requires within { k + 4 ≤ length words.now }
    ensures { result ≡ point_in_of form (words_in text.now words.now) k }
{
    let x = coordinate(form, text, words, k)?;
    let y = coordinate(form, text, words, k + 1)?;
    let z = coordinate(form, text, words, k + 2)?;
    let yaw = yaw(form, text, words, k + 3)?;
    Ok(Point { x, y, z, yaw })
}

// The sense, the middle and the yaw of a quarter circle.
#[inline(always)]
fn quarter_in(form: Form, text: &[u8], words: &[Token]) -> Result<(bool, i64, i64, i64), LineKind>
    requires { length words.now ≡ 4 }
    ensures { result ≡ quarter_in_of form (words_in text.now words.now) }
{
    let ccw = ccw(nth(text, words, 0))?;
    let cx = coordinate(form, text, words, 1)?;
    let cy = coordinate(form, text, words, 2)?;
    let yaw = yaw(form, text, words, 3)?;
    Ok((ccw, cx, cy, yaw))
}

fn line_act(form: Form, text: &[u8], words: &[Token]) -> Result<Act, LineKind>
    requires { length words.now ≡ 4 }
    ensures { result ≡ line_in form (words_in text.now words.now) }
{
    let to = point_in(form, text, words, 0)?;
    Ok(Act::Line { to })
}

fn move_act(form: Form, text: &[u8], words: &[Token]) -> Result<Act, LineKind>
    requires { length words.now ≡ 4 }
    ensures { result ≡ move_in form (words_in text.now words.now) }
{
    let to = point_in(form, text, words, 0)?;
    Ok(Act::Move { to })
}

fn turn_act(form: Form, text: &[u8], words: &[Token]) -> Result<Act, LineKind>
    requires { length words.now ≡ 1 }
    ensures { result ≡ turn_in form (words_in text.now words.now) }
{
    let yaw = yaw(form, text, words, 0)?;
    Ok(Act::Turn { yaw })
}

fn arc_act(form: Form, text: &[u8], words: &[Token]) -> Result<Act, LineKind>
    requires { length words.now ≡ 4 }
    ensures { result ≡ arc_in form (words_in text.now words.now) }
{
    let (ccw, cx, cy, yaw) = quarter_in(form, text, words)?;
    Ok(Act::Arc { ccw, cx, cy, yaw })
}

fn eased_act(form: Form, ease: Ease, text: &[u8], words: &[Token]) -> Result<Act, LineKind>
    requires { length words.now ≡ 4 }
    ensures { result ≡ eased_in form ease (words_in text.now words.now) }
{
    let (ccw, cx, cy, yaw) = quarter_in(form, text, words)?;
    Ok(Act::Eased {
        ease,
        ccw,
        cx,
        cy,
        yaw,
    })
}

fn curve_act(form: Form, text: &[u8], words: &[Token]) -> Result<Act, LineKind>
    requires { length words.now ≡ 10 }
    ensures { result ≡ curve_in form (words_in text.now words.now) }
{
    let p1 = triple_in(form, text, words, 0)?;
    let p2 = triple_in(form, text, words, 3)?;
    let to = point_in(form, text, words, 6)?;
    Ok(Act::Curve { p1, p2, to })
}

/// The act that the words in its places say.
pub fn act_by(form: Form, act: ActWord, text: &[u8], words: &[Token]) -> Result<Act, LineKind>
    requires { length words.now ≡ length (act_places act) }
    ensures { result ≡ act_read form act (words_in text.now words.now) }
{
    match act {
        ActWord::Hold => Ok(Act::Hold),
        ActWord::Line => line_act(form, text, words),
        ActWord::Move => move_act(form, text, words),
        ActWord::Turn => turn_act(form, text, words),
        ActWord::Arc => arc_act(form, text, words),
        ActWord::Eased(ease) => eased_act(form, ease, text, words),
        ActWord::Curve => curve_act(form, text, words),
    }
}
