//! Certificate texts, as they are written.
//!
//! In version 1 the first line is `certificate` and the depth. Each further line is one tree in preorder: `.` is a
//! split, a letter from `a` to `z` a leaf with the direction of that number. In version 2 the line `version 2` stands
//! before, and a leaf is two digits, from `00` to `97`. Lines end with a line feed, which the last may lack; one
//! carriage return before a line feed is dropped.

ghost use Rattle.std.specs.Prelude.{◌≡◌, ◌↔◌, ◌<◌, ◌++◌, ◌∷◌, [], flat_map, All, IfOk, OnOk, MatchOption, IsFalse};
ghost use Rattle.std.specs.Prelude.{IsTrue};
ghost use Rattle.sep_parts.specs.Versions.{IsVersion, direction_word, known_in};
ghost use Rattle.sep_certificate.specs.Certificates.{IsWhole};
ghost use Rattle.sep_parts.specs.Trees.{IsKnown};
ghost use Rattle.sep_certificate.specs.Readings.{TextLaw};
ghost use Rattle.sep_certificate.specs.Texts.{Says, depth_line, fed, head_lines, is_depth_line, node_text, text_of};
ghost use Rattle.sep_certificate.specs.Texts.{tree_line};

use crate::certificate::Certificate;
use sep_parts::Node;
use std::alloc::{AllocError, Global};
use whole_numbers::Depth;

/// How many bytes of text a certificate has at most.
pub const CERTIFICATE_LIMIT: usize = 400_000_000;

/// A law. The limit of a certificate's text (docs/SEPARATION.md, "The text of a certificate").
pub fn limits_law()
    ensures { CERTIFICATE_LIMIT ≡ 400000000 }
{}

/// A law of certificate texts: a line passes exactly where it is that of a tree; the text that is written says its
/// certificate; a text that says a certificate has no faulty line, and says that one alone; and a text without a
/// faulty line says a certificate, where it has fewer than 2^30 bytes.
pub fn text_law()
    ensures { TextLaw }
{}

/// The text of a whole certificate. Out of memory is the only refusal.
#[tactic(auto, unfolding(crate::specs::Texts::text_of))]
pub fn write_certificate(alloc: Global, cert: &Certificate) -> Result<Vec<u8>, AllocError>
    requires { IsWhole cert.now }
    ensures exact { IfOk result (λ text. text.items ≡ text_of cert.now) }
    ensures says { IfOk result (λ text. Says text.items cert.now) }
{
    let mut text = Vec::new(alloc);
    put_head(&mut text, cert.version, Depth::make(cert.depth))?;
    for k in 0..cert.trees.len() {
        put_tree(&mut text, cert.version, cert.trees.tree(k))?;
    }
    Ok(text)
}

fn put_head(text: &mut Vec<u8>, version: u8, depth: Depth) -> Result<(), AllocError>
    requires version { IsVersion version }
    ensures { OnOk result (text.new.items ≡ text.old.items ++ flat_map fed (head_lines version depth)) }
{
    if version != 1 {
        text.extend_from_slice(b"version 2\n")?;
    }
    text.extend_from_slice(b"certificate ")?;
    text.push(b'0' + depth.levels())?;
    text.push(b'\n')?;
    Ok(())
}

// The line of a tree with its line feed, after other text.
fn put_tree(text: &mut Vec<u8>, version: u8, nodes: &[Node]) -> Result<(), AllocError>
    requires version { IsVersion version }
    requires known { All (IsKnown (known_in version)) nodes.now }
    ensures { OnOk result (text.new.items ≡ text.old.items ++ fed (tree_line version nodes.now)) }
{
    for node in nodes {
        put_node(text, version, *node)?;
    }
    text.push(b'\n')?;
    Ok(())
}

fn put_node(text: &mut Vec<u8>, version: u8, node: Node) -> Result<(), AllocError>
    requires version { IsVersion version }
    requires known { IsKnown (known_in version) node }
    ensures { OnOk result (text.new.items ≡ text.old.items ++ node_text version node) }
{
    match node {
        Node::Split => put_split(text),
        Node::Leaf { dir } => {
            if version == 1 {
                put_letter(text, dir)
            } else {
                put_digits(text, dir)
            }
        }
    }
}

fn put_split(text: &mut Vec<u8>) -> Result<(), AllocError>
    ensures { OnOk result (text.new.items ≡ text.old.items ++ (46 ∷ [])) }
{
    text.push(b'.')?;
    Ok(())
}

// The letter of a direction of version 1.
fn put_letter(text: &mut Vec<u8>, dir: u8) -> Result<(), AllocError>
    requires { dir < 26 }
    ensures { OnOk result (text.new.items ≡ text.old.items ++ direction_word 1 dir) }
{
    text.push(b'a' + dir)?;
    Ok(())
}

// The two digits of a direction of version 2.
fn put_digits(text: &mut Vec<u8>, dir: u8) -> Result<(), AllocError>
    requires { dir < 98 }
    ensures { OnOk result (text.new.items ≡ text.old.items ++ direction_word 2 dir) }
{
    text.push(b'0' + dir / 10)?;
    text.push(b'0' + dir % 10)?;
    Ok(())
}

/// The depth that a line says, where it is `certificate` and a digit from 0 to 8.
pub fn depth_of(line: &[u8]) -> Option<Depth>
    ensures { MatchOption result (IsFalse (is_depth_line line.now)) (λ depth. line.now ≡ depth_line depth) }
{
    for levels in 0..9 {
        let depth = Depth::make(levels);
        if says_depth(line, depth) {
            return Some(depth);
        }
    }
    None
}

fn says_depth(line: &[u8], depth: Depth) -> bool
    ensures { IsTrue result ↔ (line.now ≡ depth_line depth) }
{
    let header = [
        b'c',
        b'e',
        b'r',
        b't',
        b'i',
        b'f',
        b'i',
        b'c',
        b'a',
        b't',
        b'e',
        b' ',
        b'0' + depth.levels(),
    ];
    line == header.as_slice()
}
