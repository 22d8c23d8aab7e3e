//! The report's value, and its text.
ghost use Rattle.std.specs.Prelude.{◌≡◌, [], ◌∷◌, ◌++◌, codes, map, string_bytes, IfOk};
ghost use Rattle.std.specs.List.{All};
ghost use Rattle.std.specs.Str.{IsAscii};
ghost use Rattle.serde_json.specs.Data.{array, member, no_members, number, object, unsigned};
ghost use Rattle.serde_json.specs.View.{view};
ghost use Rattle.report_text.specs.Report.{name_items, number_items, report_text};

use arrayvec::ArrayVec;
use serde_json::{Value, json};
use std::alloc::{AllocError, Global};
use std::str;

fn numbers_of(alloc: Global, numbers: &[u32]) -> Result<Value, AllocError>
    ensures { IfOk result (λ value. view value ≡ array (number_items numbers.now)) }
{
    let mut list = Vec::with_capacity(alloc, numbers.len())?;
    for number in numbers {
        list.push(Value::from(*number))?;
    }
    Ok(Value::from(list))
}

fn names_of(alloc: Global, names: &[ArrayVec<u8, 16>]) -> Result<Value, AllocError>
    requires { All (λ name. IsAscii name.items) names.now }
    ensures { IfOk result (λ value. view value ≡ array (name_items (map (λ name. name.items) names.now))) }
{
    let mut list = Vec::with_capacity(alloc, names.len())?;
    for name in names {
        let text = str::from_utf8(name.as_slice()).unwrap();
        list.push(Value::try_from_str(alloc, text)?)?;
    }
    Ok(Value::from(list))
}

// The members of a report.
fn report_of(
    alloc: Global,
    bytes: Value,
    cues: u32,
    drones: Value,
    duration_ms: u32,
    nodes: u32,
    packets: Value,
) -> Result<Value, AllocError>
    ensures { IfOk result (λ value. view value ≡ object
        (member (codes "bytes") (view bytes)
        (member (codes "cues") (number (unsigned cues))
        (member (codes "drones") (view drones)
        (member (codes "duration_ms") (number (unsigned duration_ms))
        (member (codes "nodes") (number (unsigned nodes))
        (member (codes "packets") (view packets) no_members))))))) }
{
    json!(in alloc; {
        "bytes": bytes,
        "cues": cues,
        "drones": drones,
        "duration_ms": duration_ms,
        "nodes": nodes,
        "packets": packets
    })
}

fn with_line_feed(mut text: String) -> Result<Vec<u8>, AllocError>
    ensures { IfOk result (λ line. line.items ≡ string_bytes text ++ 10 ∷ []) }
{
    text.push('\n')?;
    Ok(text.into_bytes())
}

/// The report on a show: how many bytes each drone's trajectory has, how many cues the show has, the drones' names, how
/// many milliseconds the show lasts, how many nodes its certificate has, and how many packets each drone is sent before
/// the start. It is the compact JSON of an object with these members, and a line feed (`specs/Report.antt`). Out of
/// memory is the only refusal.
pub fn report_text(
    alloc: Global,
    bytes: &[u32],
    cues: u32,
    names: &[ArrayVec<u8, 16>],
    duration_ms: u32,
    nodes: u32,
    packets: &[u32],
) -> Result<Vec<u8>, AllocError>
    requires { All (λ name. IsAscii name.items) names.now }
    ensures { IfOk result (λ text. text.items ≡ report_text (record {
      bytes = bytes.now;
      cues = cues;
      drones = map (λ name. name.items) names.now;
      duration_ms = duration_ms;
      nodes = nodes;
      packets = packets.now;
    })) }
{
    let bytes = numbers_of(alloc, bytes)?;
    let drones = names_of(alloc, names)?;
    let packets = numbers_of(alloc, packets)?;
    let value = report_of(alloc, bytes, cues, drones, duration_ms, nodes, packets)?;
    with_line_feed(value.to_string(alloc)?)
}
