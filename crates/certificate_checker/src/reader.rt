//! The lines of a certificate's text, read byte by byte.

ghost use Rattle.std.specs.Prelude.{◌≡◌, ◌+◌, ◌^◌, ◌≤◌, ◌<◌, [], Some, None, IsTrue, IsFalse, MatchOption};
ghost use Rattle.sep_parts.specs.Trees.{IsKnown};
ghost use Rattle.sep_parts.specs.Versions.{IsVersion, known_in};
ghost use Rattle.sep_certificate.specs.Texts.{is_wide_leaf, two_digits};
ghost use Rattle.certificate_checker.specs.Bytes.{most_bytes};
ghost use Rattle.certificate_checker.specs.Checking.{FirstLine, TreeLine, byte_read, depth_read, digit_read, kept};
ghost use Rattle.certificate_checker.specs.Checking.{letter_read, line_read, node_read, verdict_of, with_return};
ghost use Rattle.certificate_checker.specs.Judgments.{HasAtMost};
ghost use Rattle.certificate_checker.specs.Steps.{HasRoom, HasTreeRoom, IsReader, IsSound, reading_of, trees_of};

use crate::judging::Judging;
use crate::tables::Tables;
use crate::verdict::Verdict;
use arrayvec::ArrayVec;
use fleet_curves::Curves;
use sep_certificate::depth_of;
use sep_parts::Node;
use whole_numbers::Depth;

/// The line that is read: the first one; the one with the depth of version 2; one of a tree; or none, after a faulty
/// one.
#[derive(Clone, Copy, PartialEq, Eq)]
pub enum Stage {
    First,
    Depth,
    Tree,
    Faulty,
}

/// What is kept of a line, and what is judged.
#[derive(Drop)]
pub struct Reader {
    stage: Stage,
    head: ArrayVec<u8, 15>,
    version: u8,
    depth: Depth,
    line: u32,
    owed: u32,
    digit: Option<u8>,
    judging: Judging,
}

// A byte of a line before the trees.
fn keep(head: &mut ArrayVec<u8, 15>, b: u8)
    ensures { head.new.items ≡ kept head.old.items b }
{
    if head.len() < 15 {
        head.push(b);
    }
}

// The direction of version 2 that two digits name.
fn leaf(first: u8, second: u8) -> Option<u8>
    ensures leaf { MatchOption result (IsFalse (is_wide_leaf first second))
        (λ dir. IsTrue (is_wide_leaf first second) × (dir ≡ two_digits first second) × (dir < 98)) }
{
    if first.is_ascii_digit() && second.is_ascii_digit() {
        let dir = (first - b'0') * 10 + (second - b'0');
        if dir < 98 { Some(dir) } else { None }
    } else {
        None
    }
}

impl Reader {
    pub fn start() -> Reader
        ensures read { reading_of result ≡ FirstLine [] }
        ensures sound { IsSound result }
    {
        Reader {
            stage: Stage::First,
            head: ArrayVec::new(),
            version: 1,
            depth: Depth::make(0),
            line: 1,
            owed: 0,
            digit: None,
            judging: Judging::idle(),
        }
    }

    // A node of the line. After it `owed` trees are still to come.
    fn node(&mut self, curves: &Curves, tables: &Tables, node: Node, owed: u32)
        requires reader { IsReader curves.now self.old }
        requires stage { self.old.stage ≡ Stage.Tree }
        requires known { IsKnown (known_in self.old.version) node }
        ensures read { reading_of self.new ≡ node_read tables.now curves.now (trees_of self.old) node owed }
        ensures reader { IsReader curves.now self.new }
    {
        self.owed = owed;
        self.digit = None;
        self.judging
            .node(curves, tables, self.version, self.depth, node);
    }

    // A byte of a line of version 1.
    fn letter(&mut self, curves: &Curves, tables: &Tables, b: u8)
        requires reader { IsReader curves.now self.old }
        requires stage { self.old.stage ≡ Stage.Tree }
        requires version { self.old.version ≡ 1 }
        requires room { self.old.owed < 2 ^ 31 }
        ensures read { reading_of self.new ≡ letter_read tables.now curves.now (trees_of self.old) self.old.owed b }
        ensures reader { IsReader curves.now self.new }
    {
        if self.owed == 0 {
            self.stage = Stage::Faulty;
            return;
        }
        match b {
            b'.' => self.node(curves, tables, Node::Split, self.owed + 1),
            b'a'..=b'z' => self.node(curves, tables, Node::Leaf { dir: b - b'a' }, self.owed - 1),
            _ => self.stage = Stage::Faulty,
        }
    }

    // A byte of a line of version 2 where no digit of a leaf stands before it.
    fn first_digit(&mut self, curves: &Curves, tables: &Tables, b: u8)
        requires reader { IsReader curves.now self.old }
        requires stage { self.old.stage ≡ Stage.Tree }
        requires version { self.old.version ≡ 2 }
        requires some { 1 ≤ self.old.owed }
        requires room { self.old.owed < 2 ^ 31 }
        ensures read { reading_of self.new ≡ digit_read tables.now curves.now (trees_of self.old) self.old.owed None b }
        ensures reader { IsReader curves.now self.new }
    {
        match b {
            b'.' => self.node(curves, tables, Node::Split, self.owed + 1),
            b'0'..=b'9' => self.digit = Some(b),
            _ => self.stage = Stage::Faulty,
        }
    }

    // A byte after the first digit of a leaf.
    fn second_digit(&mut self, curves: &Curves, tables: &Tables, first: u8, b: u8)
        requires reader { IsReader curves.now self.old }
        requires stage { self.old.stage ≡ Stage.Tree }
        requires version { self.old.version ≡ 2 }
        requires some { 1 ≤ self.old.owed }
        ensures read { reading_of self.new
            ≡ digit_read tables.now curves.now (trees_of self.old) self.old.owed (Some first) b }
        ensures reader { IsReader curves.now self.new }
    {
        match leaf(first, b) {
            Some(dir) => self.node(curves, tables, Node::Leaf { dir }, self.owed - 1),
            None => self.stage = Stage::Faulty,
        }
    }

    // A byte of a line of version 2.
    fn digit(&mut self, curves: &Curves, tables: &Tables, b: u8)
        requires reader { IsReader curves.now self.old }
        requires stage { self.old.stage ≡ Stage.Tree }
        requires version { self.old.version ≡ 2 }
        requires room { self.old.owed < 2 ^ 31 }
        ensures read { reading_of self.new
            ≡ digit_read tables.now curves.now (trees_of self.old) self.old.owed self.old.digit b }
        ensures reader { IsReader curves.now self.new }
    {
        if self.owed == 0 {
            self.stage = Stage::Faulty;
            return;
        }
        match self.digit {
            None => self.first_digit(curves, tables, b),
            Some(first) => self.second_digit(curves, tables, first, b),
        }
    }

    fn tree_byte(&mut self, curves: &Curves, tables: &Tables, b: u8)
        requires reader { IsReader curves.now self.old }
        requires stage { self.old.stage ≡ Stage.Tree }
        requires room { self.old.owed < 2 ^ 31 }
        ensures read { reading_of self.new ≡ byte_read tables.now curves.now (TreeLine (trees_of self.old)) b }
        ensures reader { IsReader curves.now self.new }
    {
        if self.version == 1 {
            self.letter(curves, tables, b);
        } else {
            self.digit(curves, tables, b);
        }
    }

    // A byte of the line, which is no line feed.
    pub fn byte(&mut self, curves: &Curves, tables: &Tables, b: u8)
        requires reader { IsReader curves.now self.old }
        requires room { HasRoom self.old }
        ensures read { reading_of self.new ≡ byte_read tables.now curves.now (reading_of self.old) b }
        ensures reader { IsReader curves.now self.new }
    {
        match self.stage {
            Stage::First | Stage::Depth => keep(&mut self.head, b),
            Stage::Tree => self.tree_byte(curves, tables, b),
            Stage::Faulty => {}
        }
    }

    // The carriage return that waits, if one does, belongs to the line.
    pub fn take_return(&mut self, curves: &Curves, tables: &Tables, returned: bool)
        requires reader { IsReader curves.now self.old }
        requires room { HasRoom self.old }
        ensures read { reading_of self.new ≡ with_return tables.now curves.now returned (reading_of self.old) }
        ensures reader { IsReader curves.now self.new }
    {
        if returned {
            self.byte(curves, tables, b'\r');
        }
    }

    // The line with the depth is whole. It is line 1 in version 1 and line 2 in version 2.
    fn end_depth(&mut self, curves: &Curves, version: u8)
        requires version { IsVersion version }
        requires reader { IsReader curves.now self.old }
        ensures read { reading_of self.new ≡ depth_read version version self.old.head.items }
        ensures reader { IsReader curves.now self.new }
    {
        match depth_of(self.head.as_slice()) {
            Some(depth) => {
                self.stage = Stage::Tree;
                self.version = version;
                self.depth = depth;
                self.line = u32::from(version) + 1;
                self.owed = 1;
                self.digit = None;
                self.judging = Judging::first_tree(curves);
            }
            None => {
                self.stage = Stage::Faulty;
                self.line = u32::from(version);
            }
        }
    }

    // The first line is whole.
    fn end_first(&mut self, curves: &Curves)
        requires reader { IsReader curves.now self.old }
        ensures read { reading_of self.new ≡ line_read curves.now (FirstLine self.old.head.items) }
        ensures reader { IsReader curves.now self.new }
    {
        if self.head.as_slice() == b"version 2".as_slice() {
            self.stage = Stage::Depth;
            self.head.clear();
        } else {
            self.end_depth(curves, 1);
        }
    }

    fn end_tree(&mut self, curves: &Curves)
        requires reader { IsReader curves.now self.old }
        requires stage { self.old.stage ≡ Stage.Tree }
        requires lines { self.old.line < 2 ^ 31 }
        requires trees { HasAtMost most_bytes self.old.judging.judged }
        ensures read { reading_of self.new ≡ line_read curves.now (TreeLine (trees_of self.old)) }
        ensures reader { IsReader curves.now self.new }
    {
        if self.owed != 0 {
            self.stage = Stage::Faulty;
            return;
        }
        self.line += 1;
        self.owed = 1;
        self.judging.end_tree(curves);
    }

    pub fn end_line(&mut self, curves: &Curves)
        requires reader { IsReader curves.now self.old }
        requires room { HasTreeRoom self.old }
        ensures read { reading_of self.new ≡ line_read curves.now (reading_of self.old) }
        ensures reader { IsReader curves.now self.new }
    {
        match self.stage {
            Stage::First => self.end_first(curves),
            Stage::Depth => self.end_depth(curves, 2),
            Stage::Tree => self.end_tree(curves),
            Stage::Faulty => {}
        }
    }

    // The verdict where the text ends here.
    pub fn verdict(&self, curves: &Curves) -> Verdict
        ensures { result ≡ verdict_of curves.now (reading_of self.now) }
    {
        match self.stage {
            Stage::First => Verdict::Line { line: 1 },
            Stage::Depth => Verdict::Line { line: 2 },
            Stage::Tree => self.judging.verdict(curves, self.version, self.depth),
            Stage::Faulty => Verdict::Line { line: self.line },
        }
    }
}
