//! The parts of an input, which marker lines divide.
ghost use Rattle.std.specs.Prelude.{◌≡◌, ℕ, ◌<◌, ◌≤◌, ◌+◌, ◌∷◌, [], List, length, Bool, true, false, IsTrue, IfOk};
ghost use Rattle.std.specs.Prelude.{IfSome, IfNone, OnOk, OnErr, IfErr, ◌++◌, ◌⊎◌, ◌==◌, ◌&&◌, if◌then◌else◌, take};
ghost use Rattle.std.specs.Prelude.{drop, is_ok, Some};
ghost use Rattle.byte_streams.specs.declared.parts.IoFault.TheVariants.{Memory};
ghost use Rattle.byte_streams.specs.Causes.{Rose};
ghost use Rattle.byte_streams.specs.Told.{MayGive, Took, Went, to_come};
ghost use Rattle.text_lines.specs.Marker.{is_marker, part_of};
ghost use Rattle.byte_streams.specs.Held.{stream, byte_of, Asked, has_whole_marker, buffer_bytes, text_limit};
ghost use Rattle.byte_streams.specs.PartBytes.{AsksNext, begins_after, begins_line, first_piece, is_marked_here, is_untold};
ghost use Rattle.byte_streams.specs.PartBytes.{IsWithin, may_be_marker, PartLaw, plain_len};
ghost use Rattle.byte_streams.specs.Parts.{MarkerLaw, TakesFewAfter, TakesPart, TookMarked};
ghost use Rattle.byte_streams.specs.Steps.{Goes, Runs};

use crate::stream::{Failed, Source};
use std::alloc::{AllocError, AllocFailed, Global};
use std::marker::Model;
use text_lines::len_before;

/// The most bytes that a reader of parts holds.
pub const BUFFER_BYTES: usize = 4096;

/// A stretch of the input up to a marker line or the end. The marker line belongs to no part.
#[derive(Drop)]
pub struct Part {
    /// The bytes, with their line feeds.
    pub bytes: Vec<u8>,
    /// A marker line ended the part.
    pub marker: bool,
}

/// Why there is no part.
#[derive(Clone, Copy, PartialEq, Eq)]
pub enum IoFault {
    /// A read failed.
    Read,
    /// The part has more bytes than the caller wants.
    TooLong,
    /// Out of memory.
    Memory,
}

/// What comes next of a part.
#[derive(Clone, Copy)]
pub enum Ask {
    /// Bytes of the part, at least one: the first `count` of those that wait.
    Bytes { count: usize },
    /// The marker line that ends the part. It is taken.
    Marker,
    /// The end of the input, which ends the part.
    End,
}

/// Cuts what a source gives into parts. It asks the source for up to 4,096 bytes at a time.
#[derive(Drop)]
pub struct Parts {
    buf: [u8; BUFFER_BYTES],
    start: usize,
    end: usize,
    sound: bool,
    ended: bool,
    lines: bool,
    at_line: bool,
}

impl Model for Parts {
    ghost use Rattle.std.specs.Prelude.{◌≤◌, take, drop};
    ghost use Rattle.byte_streams.specs.Held.{Held, buffer_bytes};

    ghost Value = { Held };

    ghost view = { λ p. record {
      waiting = drop p.start (take p.end p.buf);
      sound = p.sound;
      ended = p.ended;
      lines = p.lines;
      at_line = p.at_line;
    } };

    ghost invariant = { λ p. (p.start ≤ p.end) × (p.end ≤ buffer_bytes) };
}

impl Parts {
    /// A reader that holds nothing yet.
    pub fn make() -> Parts
        ensures { result ≡ record { waiting = []; sound = true; ended = false; lines = true; at_line = true } }
    {
        Parts {
            buf: [0; BUFFER_BYTES],
            start: 0,
            end: 0,
            sound: true,
            ended: false,
            lines: true,
            at_line: true,
        }
    }

    /// No call was refused.
    pub fn sound(&self) -> bool
        ensures value { result ≡ self.now.sound }
        ensures waiting { length self.now.waiting ≤ buffer_bytes }
    {
        self.sound
    }

    /// A call has met the source's end.
    pub fn ended(&self) -> bool
        ensures { result ≡ self.now.ended }
    {
        self.ended
    }

    /// Neither `byte` nor `take_waiting` was ever called.
    pub fn lines(&self) -> bool
        ensures { result ≡ self.now.lines }
    {
        self.lines
    }

    // The first of the bytes that wait, which is taken.
    fn first(&mut self) -> Option<u8>
        ensures some { IfSome result (λ byte. self.old.waiting ≡ byte ∷ self.new.waiting) }
        ensures none { IfNone result ((self.old.waiting ≡ []) × (self.new.waiting ≡ [])) }
        ensures sound { self.new.sound ≡ self.old.sound }
        ensures ended { self.new.ended ≡ self.old.ended }
        ensures lines { self.new.lines ≡ self.old.lines }
        ensures at_line { self.new.at_line ≡ self.old.at_line }
        ensures most { length self.old.waiting ≤ buffer_bytes }
    {
        if self.start == self.end {
            return None;
        }
        let byte = self.buf[self.start];
        self.start += 1;
        Some(byte)
    }

    // The next of the bytes to come. It asks the source only where none is waiting.
    fn next<S: Source>(&mut self, source: &mut S) -> Result<Option<u8>, Failed>
        requires { IsTrue self.old.ended → IsTrue (S.told source.old).ended }
        ensures took { Took self.old.waiting self.new.waiting (S.told source.old) (S.told source.new) (byte_of result) }
        ensures none { IfOk result
            (λ next. IfNone next ((self.old.waiting ≡ []) × (self.new.waiting ≡ []) × IsTrue self.new.ended)) }
        ensures alone { OnErr result ((self.old.waiting ≡ []) × (self.new.waiting ≡ []) × (self.old.ended ≡ false)) }
        ensures goes { Goes self.old self.new (S.told source.old) (S.told source.new) }
        ensures failed { OnErr result (Rose (S.told source.old).faults (S.told source.new).faults) }
        ensures at_line { self.new.at_line ≡ self.old.at_line }
        ensures unasked { 0 < length self.old.waiting → S.told source.new ≡ S.told source.old }
        ensures most { length (byte_of result ++ self.new.waiting) ≤ buffer_bytes }
    {
        if let Some(byte) = self.first() {
            return Ok(Some(byte));
        }
        match self.more(source) {
            Ok(()) => Ok(self.first()),
            Err(Failed) => Err(Failed),
        }
    }

    /// The bytes that the source has given and no call has taken: at most 4,096.
    pub fn waiting(&self) -> &[u8]
        ensures value { result.now ≡ self.now.waiting }
        ensures most { length self.now.waiting ≤ buffer_bytes }
    {
        &self.buf[self.start..self.end]
    }

    // Drops the first of the bytes that wait, or all where they are fewer.
    fn skip(&mut self, count: usize)
        requires { count ≤ buffer_bytes + 1 }
        ensures waiting { self.new.waiting ≡ drop count self.old.waiting }
        ensures sound { self.new.sound ≡ self.old.sound }
        ensures lines { self.new.lines ≡ self.old.lines }
        ensures at_line { self.new.at_line ≡ self.old.at_line }
        ensures ended { self.new.ended ≡ self.old.ended }
    {
        self.start = self.end.min(self.start + count);
    }

    // Reads after the few bytes that wait.
    fn more<S: Source>(&mut self, source: &mut S) -> Result<(), Failed>
        requires few { length self.old.waiting < 4 }
        requires at_end { IsTrue self.old.ended → IsTrue (S.told source.old).ended }
        ensures took { Took self.old.waiting self.new.waiting (S.told source.old) (S.told source.new) [] }
        ensures grew { OnOk result (length self.old.waiting < length self.new.waiting ⊎ IsTrue self.new.ended) }
        ensures kept { OnErr result ((self.new.waiting ≡ self.old.waiting) × (self.old.ended ≡ false)) }
        ensures goes { Goes self.old self.new (S.told source.old) (S.told source.new) }
        ensures failed { OnErr result (Rose (S.told source.old).faults (S.told source.new).faults) }
        ensures at_line { self.new.at_line ≡ self.old.at_line }
        ensures most { length self.new.waiting ≤ buffer_bytes }
    {
        if self.ended {
            return Ok(());
        }
        self.buf.copy_within(self.start..self.end, 0);
        self.end -= self.start;
        self.start = 0;
        match source.read(&mut self.buf[self.end..]) {
            Ok(count) => {
                self.end += count;
                self.ended = count == 0;
                Ok(())
            }
            Err(Failed) => Err(Failed),
        }
    }

    // Reads until the bytes that wait decide what comes next of the part.
    fn fill<S: Source>(&mut self, source: &mut S) -> Result<(), Failed>
        requires { IsTrue self.old.ended → IsTrue (S.told source.old).ended }
        ensures took { Took self.old.waiting self.new.waiting (S.told source.old) (S.told source.new) [] }
        ensures tells { OnOk result ((is_untold self.new.at_line self.new.waiting ≡ false) ⊎ IsTrue self.new.ended) }
        ensures unasked { is_untold self.old.at_line self.old.waiting ≡ false
            → (self.new.waiting ≡ self.old.waiting) × (S.told source.new ≡ S.told source.old) }
        ensures goes { Goes self.old self.new (S.told source.old) (S.told source.new) }
        ensures failed { OnErr result (Rose (S.told source.old).faults (S.told source.new).faults) }
        ensures at_line { self.new.at_line ≡ self.old.at_line }
        ensures most { length self.new.waiting ≤ buffer_bytes }
    {
        'reads: while !self.ended && is_untold(self.at_line, self.waiting()) {
            match self.more(source) {
                Ok(()) => {}
                Err(Failed) => return Err(Failed),
            }
        }
        Ok(())
    }

    // One byte more of the lines that are gathered, and then those of the bytes that wait before a line feed, up to
    // this many bytes in all. What is left of a line is copied at once, where byte by byte it would take ten times as
    // long.
    fn add_run(
        &mut self,
        bytes: &mut Vec<u8>,
        start: &mut usize,
        byte: u8,
        most: usize,
    ) -> Result<(), AllocError>
        requires within { start.old ≤ length bytes.old.items }
        requires room { length bytes.old.items < most }
        ensures ok { OnOk result (Runs self.old.waiting self.new.waiting bytes.old.items bytes.new.items byte) }
        ensures short { OnOk result (length bytes.new.items ≤ most) }
        ensures start { OnOk result (start.new ≡ (if byte == 10 then length bytes.old.items + 1 else start.old)) }
        ensures err { OnErr result (self.new.waiting ≡ self.old.waiting) }
        ensures sound { self.new.sound ≡ self.old.sound }
        ensures lines { self.new.lines ≡ self.old.lines }
        ensures at_line { self.new.at_line ≡ self.old.at_line }
        ensures ended { self.new.ended ≡ self.old.ended }
    {
        add(bytes, start, byte)?;
        let waiting = self.waiting();
        let run = line_len(waiting).min(most - bytes.len());
        if run == 0 {
            return Ok(()); // after the line feed of an empty line, say: a copy of nothing costs as much as one of bytes
        }
        bytes.extend_from_slice(&waiting[..run])?;
        self.skip(run);
        Ok(())
    }

    // The next part. It leaves `sound` and `at_line` to `text`.
    fn gather<S: Source>(
        &mut self,
        alloc: Global,
        source: &mut S,
        limit: usize,
    ) -> Result<Part, IoFault>
        requires limit { limit ≤ text_limit }
        requires at_end { IsTrue self.old.ended → IsTrue (S.told source.old).ended }
        ensures part { (all : List ℕ) → MayGive self.new.ended (S.told source.new) all
            → IfOk result (λ part. TakesPart (stream self.old (to_come all (S.told source.old)))
            (stream self.new (to_come all (S.told source.new))) part.bytes.items part.marker) }
        ensures fits { IfOk result (λ part. length part.bytes.items ≤ limit) }
        ensures too_long { (all : List ℕ) → MayGive self.new.ended (S.told source.new) all
            → result ≡ Err IoFault.TooLong
            → IfSome (stream self.old (to_come all (S.told source.old))) (λ comes. limit < length (part_of comes)) }
        ensures read { result ≡ Err IoFault.Read → Rose (S.told source.old).faults (S.told source.new).faults }
        ensures goes { Goes self.old self.new (S.told source.old) (S.told source.new) }
        ensures at_line { self.new.at_line ≡ self.old.at_line }
        ensures unmarked { result ≡ Err IoFault.Read
            → (self.old.ended ≡ false) × (self.new.waiting ≡ [])
            × ((taken : List ℕ) × Took self.old.waiting [] (S.told source.old) (S.told source.new) taken
            × (has_whole_marker taken ≡ false)) }
        ensures fed { IfOk result (λ part. part.marker ≡ true
            → IsTrue self.new.ended
            ⊎ TookMarked self.old.waiting self.new.waiting (S.told source.old) (S.told source.new)) }
        ensures to_end { IfOk result (λ part. part.marker ≡ false → IsTrue self.new.ended) }
        ensures asks { (S.told source.new ≡ S.told source.old)
            ⊎ Asked self.old.waiting (S.told source.old) (S.told source.new) }
        ensures patient { has_whole_marker self.old.waiting ≡ true → S.told source.new ≡ S.told source.old }
        ensures few { length (S.told source.new).given ≤ length (S.told source.old).given + (limit + 4 + buffer_bytes) }
        ensures most { length self.new.waiting ≤ buffer_bytes }
    {
        let _ = &self.buf;
        let mut bytes = Vec::new(alloc);
        let mut start = 0;
        'bytes: while bytes.len() < limit + 4 {
            let next = match self.next(source) {
                Ok(next) => next,
                Err(Failed) => return Err(IoFault::Read),
            };
            match next {
                Some(byte) => {
                    if ends_marker(&bytes, start, byte) {
                        return up_to_marker(bytes, start, limit);
                    }
                    self.add_run(&mut bytes, &mut start, byte, limit + 4)?;
                }
                None => return up_to_end(bytes, start, limit),
            }
        }
        Err(IoFault::TooLong)
    }

    /// The bytes up to the next marker line or the end. A marker line is a line that is `%%`, or `%%` and a carriage
    /// return; it is taken, and belongs to no part. `TooLong` where more than `limit` bytes stand before it; `Read`
    /// where a read failed. After an `Err` the reader isn't `sound`, and some of the bytes to come are taken.
    pub fn text<S: Source>(
        &mut self,
        alloc: Global,
        source: &mut S,
        limit: usize,
    ) -> Result<Part, IoFault>
        requires sound { IsTrue self.old.sound }
        requires lines { IsTrue self.old.lines }
        requires limit { limit ≤ text_limit }
        requires at_end { IsTrue self.old.ended → IsTrue (S.told source.old).ended }
        ensures part { (all : List ℕ) → MayGive self.new.ended (S.told source.new) all
            → IfOk result (λ part. TakesPart (stream self.old (to_come all (S.told source.old)))
            (stream self.new (to_come all (S.told source.new))) part.bytes.items part.marker) }
        ensures fits { IfOk result (λ part. length part.bytes.items ≤ limit) }
        ensures too_long { (all : List ℕ) → MayGive self.new.ended (S.told source.new) all
            → result ≡ Err IoFault.TooLong
            → IfSome (stream self.old (to_come all (S.told source.old))) (λ comes. limit < length (part_of comes)) }
        ensures read { result ≡ Err IoFault.Read → Rose (S.told source.old).faults (S.told source.new).faults }
        ensures went { Went self.old.ended self.new.ended (S.told source.old) (S.told source.new) }
        ensures sound { self.new.sound ≡ is_ok result }
        ensures lines { self.new.lines ≡ self.old.lines }
        ensures at_line { OnOk result (self.new.at_line ≡ true) }
        ensures unmarked { result ≡ Err IoFault.Read
            → (self.old.ended ≡ false) × (self.new.waiting ≡ [])
            × ((taken : List ℕ) × Took self.old.waiting [] (S.told source.old) (S.told source.new) taken
            × (has_whole_marker taken ≡ false)) }
        // Where a marker line ended the part before the source's end was met, it had its line feed.
        ensures fed { IfOk result (λ part. part.marker ≡ true
            → IsTrue self.new.ended
            ⊎ TookMarked self.old.waiting self.new.waiting (S.told source.old) (S.told source.new)) }
        ensures to_end { IfOk result (λ part. part.marker ≡ false → IsTrue self.new.ended) }
        ensures asks { (S.told source.new ≡ S.told source.old)
            ⊎ Asked self.old.waiting (S.told source.old) (S.told source.new) }
        ensures patient { has_whole_marker self.old.waiting ≡ true → S.told source.new ≡ S.told source.old }
        ensures most { length self.new.waiting ≤ buffer_bytes }
        // How much it reads: in any case at most 4,096 bytes more than `limit` and a marker line; of what stands after
        // the part and its marker line at most 4,096 bytes; and to the end where no marker line is whole.
        ensures few { length (S.told source.new).given ≤ length (S.told source.old).given + (limit + 4 + buffer_bytes) }
        ensures after { (all : List ℕ) → MayGive self.new.ended (S.told source.new) all
            → IfOk result
            (λ _. TakesFewAfter (stream self.old (to_come all (S.told source.old))) (to_come all (S.told source.new))) }
        ensures met { (all : List ℕ) → MayGive self.new.ended (S.told source.new) all
            → IfOk result (λ _. IfSome (stream self.old (to_come all (S.told source.old)))
            (λ comes. has_whole_marker comes ≡ false → IsTrue self.new.ended)) }
    {
        match self.gather(alloc, source, limit) {
            Ok(part) => {
                self.at_line = true;
                Ok(part)
            }
            Err(fault) => {
                self.sound = false;
                Err(fault)
            }
        }
    }

    /// The next of the bytes to come; `None` is the end. It asks the source only where none is waiting, and takes no
    /// memory. After `Failed` the reader isn't `sound`; after a byte no part can be read.
    pub fn byte<S: Source>(&mut self, source: &mut S) -> Result<Option<u8>, Failed>
        requires sound { IsTrue self.old.sound }
        requires at_end { IsTrue self.old.ended → IsTrue (S.told source.old).ended }
        ensures took { Took self.old.waiting self.new.waiting (S.told source.old) (S.told source.new) (byte_of result) }
        ensures none { IfOk result
            (λ next. IfNone next ((self.old.waiting ≡ []) × (self.new.waiting ≡ []) × IsTrue self.new.ended)) }
        // It failed while nothing was waiting, and before the end was met.
        ensures alone { OnErr result ((self.old.waiting ≡ []) × (self.new.waiting ≡ []) × (self.old.ended ≡ false)) }
        ensures went { Went self.old.ended self.new.ended (S.told source.old) (S.told source.new) }
        ensures failed { OnErr result (Rose (S.told source.old).faults (S.told source.new).faults) }
        ensures sound { self.new.sound ≡ is_ok result }
        ensures lines { self.new.lines ≡ false }
        ensures unasked { 0 < length self.old.waiting → S.told source.new ≡ S.told source.old }
        ensures most { length self.new.waiting ≤ buffer_bytes }
    {
        self.lines = false;
        match self.next(source) {
            Ok(next) => Ok(next),
            Err(Failed) => {
                self.sound = false;
                Err(Failed)
            }
        }
    }

    /// Takes the first bytes of those that wait, as as many calls of `byte` do, and asks the source for none. No part
    /// can be read afterwards.
    pub fn take_waiting(&mut self, count: usize)
        requires { count ≤ length self.old.waiting }
        ensures waiting { self.new.waiting ≡ drop count self.old.waiting }
        ensures sound { self.new.sound ≡ self.old.sound }
        ensures ended { self.new.ended ≡ self.old.ended }
        ensures lines { self.new.lines ≡ false }
    {
        self.lines = false;
        self.start += count;
    }

    /// What comes next of the part: bytes, the marker line that ends it, which is taken, or the end of the input. It
    /// takes no memory. The bytes are the first of those that wait, and `consume` takes them. So a part is what `text`
    /// gives of it (`part_law`), where the calls begin at the part's first byte: the lines that `text` cuts begin where
    /// its call begins. After `Failed` the reader isn't `sound`.
    pub fn part_bytes<S: Source>(&mut self, source: &mut S) -> Result<Ask, Failed>
        requires sound { IsTrue self.old.sound }
        requires lines { IsTrue self.old.lines }
        requires at_end { IsTrue self.old.ended → IsTrue (S.told source.old).ended }
        ensures asks { (all : List ℕ) → MayGive self.new.ended (S.told source.new) all
            → IfOk result (λ ask. IfSome (stream self.old (to_come all (S.told source.old)))
            (λ comes. AsksNext ask self.old.at_line comes self.new.waiting (to_come all (S.told source.new)))) }
        ensures within { IfOk result (λ ask. IsWithin ask self.new.waiting) }
        // It asks the source only where no byte waits, or where a line begins and what waits may still be a marker
        // line.
        ensures unasked { is_untold self.old.at_line self.old.waiting ≡ false → S.told source.new ≡ S.told source.old }
        ensures line { IfOk result (λ ask. self.new.at_line ≡ begins_line self.old.at_line ask) }
        ensures ended { IfOk result (λ ask. ask ≡ Ask.«End» → IsTrue self.new.ended) }
        ensures went { Went self.old.ended self.new.ended (S.told source.old) (S.told source.new) }
        ensures failed { OnErr result (Rose (S.told source.old).faults (S.told source.new).faults) }
        ensures sound { self.new.sound ≡ is_ok result }
        ensures lines { self.new.lines ≡ self.old.lines }
        ensures most { length self.new.waiting ≤ buffer_bytes }
    {
        match self.fill(source) {
            Ok(()) => {}
            Err(Failed) => {
                self.sound = false;
                return Err(Failed);
            }
        }
        if is_marked_here(self.at_line, self.waiting()) {
            let len = line_len(self.waiting());
            self.skip(len + 1);
            return Ok(Ask::Marker);
        }
        if self.waiting().is_empty() {
            self.at_line = true;
            return Ok(Ask::End);
        }
        Ok(Ask::Bytes {
            count: plain_len(self.waiting()),
        })
    }

    /// Takes the first bytes of those that wait, at least one, as bytes of the part.
    pub fn consume(&mut self, count: usize)
        requires some { 0 < count }
        requires within { count ≤ length self.old.waiting }
        ensures waiting { self.new.waiting ≡ drop count self.old.waiting }
        ensures line { self.new.at_line ≡ begins_after self.old.at_line (take count self.old.waiting) }
        ensures sound { self.new.sound ≡ self.old.sound }
        ensures lines { self.new.lines ≡ self.old.lines }
        ensures ended { self.new.ended ≡ self.old.ended }
    {
        let last = self.waiting()[count - 1];
        self.start += count;
        self.at_line = last == b'\n';
    }
}

impl From<AllocError> for IoFault {
    ghost from_gives = { λ _ e. e ≡ Memory };

    fn from(_: AllocError) -> IoFault {
        IoFault::Memory
    }
}

impl<T: Drop> From<AllocFailed<T>> for IoFault {
    ghost from_gives = { λ _ e. e ≡ Memory };

    fn from(_: AllocFailed<T>) -> IoFault {
        IoFault::Memory
    }
}

fn is_marker(line: &[u8]) -> bool
    ensures { result ≡ is_marker line.now }
{
    matches!(line, b"%%" | b"%%\r")
}

// Whether these bytes can still begin a marker line, and none of them is its line feed.
fn may_be_marker(bytes: &[u8]) -> bool
    ensures { result ≡ may_be_marker bytes.now }
{
    matches!(bytes, b"" | b"%" | b"%%" | b"%%\r")
}

// Whether these bytes leave open what comes next of a part, where a line begins or not.
fn is_untold(at_line: bool, bytes: &[u8]) -> bool
    ensures { result ≡ is_untold at_line bytes.now }
{
    bytes.is_empty() || at_line && may_be_marker(bytes)
}

// Whether a marker line stands here, where a line begins or not.
fn is_marked_here(at_line: bool, bytes: &[u8]) -> bool
    ensures { result ≡ is_marked_here at_line bytes.now }
{
    at_line && is_marker(&bytes[..line_len(bytes)])
}

// The first byte, and those after it before the next `%`, with which a marker line begins.
fn plain_len(bytes: &[u8]) -> usize
    requires { 0 < length bytes.now }
    ensures value { result ≡ plain_len bytes.now }
    ensures some { 0 < result }
    ensures within { result ≤ length bytes.now }
{
    1 + len_before(&bytes[1..], b'%')
}

// How many bytes stand before the first line feed.
fn line_len(bytes: &[u8]) -> usize
    ensures value { result ≡ length (first_piece bytes.now) }
    ensures within { result ≤ length bytes.now }
{
    len_before(bytes, b'\n')
}

// Whether this byte ends a marker line that begins at `start`.
fn ends_marker(bytes: &[u8], start: usize, byte: u8) -> bool
    requires { start ≤ length bytes.now }
    ensures { result ≡ (byte == 10 && is_marker (drop start bytes.now)) }
{
    byte == b'\n' && is_marker(&bytes[start..])
}

// One byte more of the lines that are gathered.
fn add(bytes: &mut Vec<u8>, start: &mut usize, byte: u8) -> Result<(), AllocError>
    requires within { start.old ≤ length bytes.old.items }
    ensures ok { OnOk result (bytes.new.items ≡ bytes.old.items ++ byte ∷ []) }
    ensures start { OnOk result (start.new ≡ (if byte == 10 then length bytes.old.items + 1 else start.old)) }
{
    bytes.push(byte)?;
    if byte == b'\n' {
        *start = bytes.len();
    }
    Ok(())
}

/// A law. A buffer has the bytes that the definitions say.
pub fn limits_law()
    ensures buffer { BUFFER_BYTES ≡ buffer_bytes }
{}

/// A law. What a text whose marker line is whole is cut into doesn't depend on what comes after it.
pub fn marker_law()
    ensures { MarkerLaw }
{}

/// A law. Byte by byte a part is the same as by lines: what `part_bytes` gives, call by call, is what `text` gives.
pub fn part_law()
    ensures { PartLaw }
{}

// A part that is whole, so that it needs no room for more bytes.
fn whole_part(mut bytes: Vec<u8>, marker: bool) -> Part
    ensures bytes { result.bytes.items ≡ bytes.items }
    ensures marker { result.marker ≡ marker }
{
    bytes.shrink_to_fit();
    Part { bytes, marker }
}

// The part of which the line that begins at `start` is the marker line.
fn up_to_marker(mut bytes: Vec<u8>, start: usize, limit: usize) -> Result<Part, IoFault>
    requires { start ≤ length bytes.items }
    ensures ok { IfOk result
        (λ part. (part.bytes.items ≡ take start bytes.items) × (part.marker ≡ true) × (start ≤ limit)) }
    ensures err { IfErr result (λ fault. (fault ≡ IoFault.TooLong) × (limit < start)) }
{
    bytes.truncate(start);
    if start > limit {
        return Err(IoFault::TooLong);
    }
    Ok(whole_part(bytes, true))
}

// The part that ends with the input. Its last line begins at `start`, and may be a marker line.
fn up_to_end(bytes: Vec<u8>, start: usize, limit: usize) -> Result<Part, IoFault>
    requires { start ≤ length bytes.items }
    ensures marked { is_marker (drop start bytes.items) ≡ true
        → IfOk result (λ part. (part.bytes.items ≡ take start bytes.items) × (part.marker ≡ true) × (start ≤ limit))
        × IfErr result (λ fault. (fault ≡ IoFault.TooLong) × (limit < start)) }
    ensures whole { is_marker (drop start bytes.items) ≡ false
        → IfOk result (λ part. (part.bytes.items ≡ bytes.items) × (part.marker ≡ false) × (length bytes.items ≤ limit))
        × IfErr result (λ fault. (fault ≡ IoFault.TooLong) × (limit < length bytes.items)) }
{
    if is_marker(&bytes[start..]) {
        return up_to_marker(bytes, start, limit);
    }
    if bytes.len() > limit {
        return Err(IoFault::TooLong);
    }
    Ok(whole_part(bytes, false))
}
