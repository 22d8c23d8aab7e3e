//! The nodes of a tree of parts of a cue.

ghost use Rattle.sep_parts.specs.Trees.{TreeLaw};

/// A node of a tree of parts of a cue: a split into halves, or a leaf with the direction that separates the part.
#[derive(Clone, Copy, PartialEq, Eq)]
pub enum Node {
    /// The part is cut into its two halves, whose trees follow, the first half's before the second's.
    Split,
    /// The direction with the number `dir` separates the part. Directions count from 0 in the order of the table.
    Leaf { dir: u8 },
}

/// A law: what the definitions read as the tree of a list of nodes is the tree whose preorder the list is, and there
/// is none where the list is the preorder of no tree.
pub fn tree_law()
    ensures { TreeLaw }
{}
