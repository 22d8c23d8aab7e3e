//! Trees in one list of nodes.

ghost use Rattle.std.specs.Prelude.{◌≡◌, ◌<◌, ◌≤◌, ◌∷◌, ◌++◌, [], length, OnOk, slice_index_or, slice_range};
ghost use Rattle.sep_parts.specs.Steps.{begin_of};

use crate::node::Node;
use std::alloc::{AllocError, Global};
use std::marker::Model;

/// Trees, each the list of its nodes: one after another in one list, so that no tree takes memory of its own. A
/// contract sees the lists.
#[derive(Drop)]
pub struct Forest {
    nodes: Vec<Node>,
    ends: Vec<usize>,
}

impl Model for Forest {
    ghost use Rattle.std.specs.Prelude.{List, length};
    ghost use Rattle.sep_parts.specs.declared.node.Node.{Node};
    ghost use Rattle.sep_parts.specs.Steps.{AreEnds, cut};

    ghost Value = { List (List Node) };

    ghost view = { λ t. cut 0 t.nodes.items t.ends.items };

    ghost invariant = { λ t. AreEnds 0 t.ends.items (length t.nodes.items) };
}

// Where tree `k` begins, by the places where trees end.
fn begin(ends: &[usize], k: usize) -> usize
    requires { k < length ends.now }
    ensures { result ≡ begin_of 0 ends.now k }
{
    if k == 0 { 0 } else { ends[k - 1] }
}

// Where it ends.
fn end(ends: &[usize], k: usize) -> usize
    requires { k < length ends.now }
    ensures { result ≡ slice_index_or ends.now k 0 }
{
    ends[k]
}

// The nodes from one place to another.
fn between(nodes: &[Node], begin: usize, end: usize) -> &[Node]
    requires order { begin ≤ end }
    requires inside { end ≤ length nodes.now }
    ensures { result.now ≡ slice_range nodes.now begin end }
{
    &nodes[begin..end]
}

impl Forest {
    /// No tree.
    pub fn none(alloc: Global) -> Forest
        ensures { result ≡ [] }
    {
        Forest {
            nodes: Vec::new(alloc),
            ends: Vec::new(alloc),
        }
    }

    /// A tree more. Out of memory is the only refusal.
    pub fn push(&mut self, nodes: &[Node]) -> Result<(), AllocError>
        ensures { OnOk result (self.new ≡ self.old ++ nodes.now ∷ []) }
    {
        self.ends.reserve(1)?;
        self.nodes.extend_from_slice(nodes)?;
        self.ends.push_reserved(self.nodes.len());
        Ok(())
    }

    /// How many trees there are.
    pub fn len(&self) -> usize
        ensures { result ≡ length self.now }
    {
        self.ends.len()
    }

    /// The nodes of a tree, counted from 0.
    pub fn tree(&self, k: usize) -> &[Node]
        requires { k < length self.now }
        ensures { result.now ≡ slice_index_or self.now k [] }
    {
        let ends = self.ends.as_slice();
        between(self.nodes.as_slice(), begin(ends, k), end(ends, k))
    }
}
