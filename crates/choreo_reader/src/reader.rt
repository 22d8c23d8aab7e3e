//! A show that is read line by line.

ghost use Rattle.std.specs.Prelude.{◌≡◌, ℕ, List, Ok, Some, take, drop, ◌+◌, ◌<◌, ◌≤◌, length, OnOk, IfOk, MatchResult};
ghost use Rattle.std.specs.Prelude.{◌++◌, ◌∷◌, []};
ghost use Rattle.whole_numbers.specs.Limits.{most_text};
ghost use Rattle.choreo_show.specs.Plain.{block_of, body_of, plain as plain_show, PlainShow, ◌⨾◌};
ghost use Rattle.choreo_reader.specs.Grammar.{StandsFor};
ghost use Rattle.choreo_show.specs.Plain as plain;
ghost use Rattle.choreo_show.specs.Valid.{IsValid};
ghost use Rattle.choreo_reader.specs.Laws.{ShowLaw};
ghost use Rattle.choreo_reader.specs.Reader.{open_of, opens_of, built_of, Steps, ShowGives, ReadingFails, FaultGives};
ghost use Rattle.choreo_reader.specs.Context.{is_figure as is_figure_of, is_repeat as is_repeat_of};
ghost use Rattle.choreo_reader.specs.Context.{in_figure as in_figure_of, repeats as repeats_of, place_of};
ghost use Rattle.choreo_reader.specs.Context.{is_empty_block as is_empty_block_of, form_named as form_named_of};
ghost use Rattle.choreo_reader.specs.Context.{form_of as form_of_words, fault};
ghost use Rattle.choreo_reader.specs.Text.{show_lines};
ghost use Rattle.text_lines.specs.Lines.{lines_of, between_feeds};
ghost use Rattle.text_lines.specs.Words.{visible, words_of, line_with, numbered};
ghost use Rattle.text_lines.specs.Tokens.{words_in};
ghost use Rattle.text_lines.specs.declared.token.Comments.TheVariants.{FromHash};
ghost use Rattle.choreo_reader.specs.Reading.{InFormation, InFigure, InRepeat, InCue, entry_fault as entry_fault_of};
ghost use Rattle.choreo_reader.specs.Reading.{with_block as with_block_of, act_added, place_added};
ghost use Rattle.choreo_reader.specs.Reading.{add_block as add_block_of, close as close_of};
ghost use Rattle.choreo_reader.specs.Reading.{close_innermost as close_innermost_of, with_act as with_act_of};
ghost use Rattle.choreo_reader.specs.Reading.{with_place as with_place_of, nothing, build, settings_of, opening_of};
ghost use Rattle.choreo_reader.specs.Reading.{openings_of, context_of, built_by, line_step, lines_step};
ghost use Rattle.choreo_reader.specs.Reading.{finish as finish_of, read_lines, reading};

use crate::fault::ShowFault;
use crate::token::{first_bad_line, line_words};
use choreo_lines::{Entry, Form, LineError, LineKind, Place, entry_of};
use choreo_show::{ActLine, Block, DroneLine, Figure, Formation, Listed, Name, Settings, Show};
use std::alloc::{AllocError, Global};
use text_lines::{Token, split_line, word_at};
use whole_numbers::MOST_DRONES;

/// How many repeats may stand inside each other (docs/LANGUAGE.md, "A repeat").
const MOST_NESTED: usize = 8;

// For how many items a list without any takes room.
const LEAST_ROOM: usize = 4;

// The same for the lines of a cue, in which each drone has one. What is left of it is given back where the cue ends.
const CUE_ROOM: usize = MOST_DRONES;

/// An open block with what stands in it so far.
#[derive(Drop)]
pub enum OpenBlock {
    Formation {
        line: u32,
        name: Name,
        places: Vec<DroneLine>,
    },
    Figure {
        line: u32,
        name: Name,
        roles: Listed<Name>,
        body: Vec<Block>,
    },
    Repeat {
        line: u32,
        times: u32,
        body: Vec<Block>,
    },
    Cue {
        line: u32,
        ms: u16,
        acts: Vec<ActLine>,
    },
}

// A formation in which no drone has a place yet.
fn no_places(alloc: Global, line: u32, name: Name) -> OpenBlock
    ensures { open_of result ≡ InFormation line name [] }
{
    OpenBlock::Formation {
        line,
        name,
        places: Vec::new(alloc),
    }
}

// A figure in which nothing stands yet.
fn no_figure_body(alloc: Global, line: u32, name: Name, roles: Listed<Name>) -> OpenBlock
    ensures { open_of result ≡ InFigure line name roles plain.Done }
{
    OpenBlock::Figure {
        line,
        name,
        roles,
        body: Vec::new(alloc),
    }
}

// A repeat in which nothing stands yet.
fn no_repeat_body(alloc: Global, line: u32, times: u32) -> OpenBlock
    ensures { open_of result ≡ InRepeat line times plain.Done }
{
    OpenBlock::Repeat {
        line,
        times,
        body: Vec::new(alloc),
    }
}

// A cue in which no act stands yet.
fn no_acts(alloc: Global, line: u32, ms: u16) -> OpenBlock
    ensures { open_of result ≡ InCue line ms [] }
{
    OpenBlock::Cue {
        line,
        ms,
        acts: Vec::new(alloc),
    }
}

/// What was read so far.
#[derive(Drop)]
pub struct Reader {
    pub memory: Option<(u8, u16)>,
    pub trajectory: Option<u8>,
    pub ellipsoid: Option<(u16, u16)>,
    pub stray: Option<u16>,
    pub late: Option<u16>,
    pub drones: Vec<DroneLine>,
    pub formations: Vec<Formation>,
    pub figures: Vec<Figure>,
    pub body: Vec<Block>,
    /// The open blocks, the innermost last.
    pub opened: Vec<OpenBlock>,
}

fn is_figure(block: &OpenBlock) -> bool
    ensures { result ≡ is_figure_of (opening_of (open_of block.now)).kind }
{
    match block {
        OpenBlock::Figure { .. } => true,
        _ => false,
    }
}

fn is_repeat(block: &OpenBlock) -> bool
    ensures { result ≡ is_repeat_of (opening_of (open_of block.now)).kind }
{
    match block {
        OpenBlock::Repeat { .. } => true,
        _ => false,
    }
}

fn in_figure(opened: &[OpenBlock]) -> bool
    ensures { result ≡ in_figure_of (openings_of (opens_of opened.now)) }
{
    for block in opened {
        if is_figure(block) {
            return true;
        }
    }
    false
}

#[tactic(auto, using(crate::proofs::Opened::repeats_opened))]
fn repeats(opened: &[OpenBlock]) -> usize
    ensures { result ≡ repeats_of (openings_of (opens_of opened.now)) }
{
    opened.iter().rev().filter(|b| is_repeat(b)).count()
}

// Where a line stands that comes next.
fn place(opened: &[OpenBlock]) -> Place
    ensures { result ≡ place_of (openings_of (opens_of opened.now)) }
{
    match opened.split_last() {
        None => Place::Top,
        Some((inner, _)) => match inner {
            OpenBlock::Formation { .. } => Place::InFormation,
            OpenBlock::Figure { .. } => Place::InFigure,
            OpenBlock::Repeat { .. } => {
                if in_figure(opened) {
                    Place::InFigure
                } else {
                    Place::InRepeat
                }
            }
            OpenBlock::Cue { .. } => {
                if in_figure(opened) {
                    Place::InFigureCue
                } else {
                    Place::InCue
                }
            }
        },
    }
}

// Whether the innermost block is a formation, a figure or a repeat without a line in it.
fn is_empty_block(opened: &[OpenBlock]) -> bool
    ensures { result ≡ is_empty_block_of (openings_of (opens_of opened.now)) }
{
    match opened.split_last() {
        None => false,
        Some((inner, _)) => match inner {
            OpenBlock::Formation { places, .. } => places.is_empty(),
            OpenBlock::Figure { body, .. } => body.is_empty(),
            OpenBlock::Repeat { body, .. } => body.is_empty(),
            OpenBlock::Cue { .. } => false,
        },
    }
}

// One more item at the end of a list. A full list takes room for a quarter more and at least this many items, where the
// standard library would double it.
fn push<T: Drop>(list: &mut Vec<T>, item: T, least: usize) -> Result<(), AllocError>
    requires { least ≤ MOST_DRONES }
    ensures { OnOk result (list.new.items ≡ list.old.items ++ item ∷ []) }
{
    if list.len() == list.capacity() {
        list.reserve_exact(list.len() / 4 + least)?;
    }
    list.push(item)?;
    Ok(())
}

fn keep_setting<T: Drop>(setting: &mut Option<T>, value: T) -> Result<(), AllocError>
    ensures { OnOk result (setting.new ≡ Some value) }
{
    *setting = Some(value);
    Ok(())
}

// One more block at the end of a body.
#[tactic(auto, using(choreo_show::proofs::Blocks::body_push))]
fn push_block(body: &mut Vec<Block>, block: Block) -> Result<(), AllocError>
    ensures { OnOk result (body_of body.new.items ≡ body_of body.old.items ⨾ block_of block plain.Done) }
{
    push(body, block, LEAST_ROOM)
}

// A body that is whole, so that it needs no room for more blocks.
fn fitted(mut body: Vec<Block>) -> Vec<Block>
    ensures { result.items ≡ body.items }
{
    body.shrink_to_fit();
    body
}

// An open block with one more block at its end.
fn with_block(outer: OpenBlock, block: Block) -> Result<OpenBlock, AllocError>
    ensures { IfOk result (λ o. open_of o ≡ with_block_of (open_of outer) (block_of block plain.Done)) }
{
    match outer {
        OpenBlock::Figure {
            line,
            name,
            roles,
            mut body,
        } => {
            push_block(&mut body, block)?;
            Ok(OpenBlock::Figure {
                line,
                name,
                roles,
                body,
            })
        }
        OpenBlock::Repeat {
            line,
            times,
            mut body,
        } => {
            push_block(&mut body, block)?;
            Ok(OpenBlock::Repeat { line, times, body })
        }
        OpenBlock::Formation { line, name, places } => {
            Ok(OpenBlock::Formation { line, name, places })
        }
        OpenBlock::Cue { line, ms, acts } => Ok(OpenBlock::Cue { line, ms, acts }),
    }
}

// One more act line of an open block, where it is a cue. It goes straight into its place, since nearly all lines of a
// show are act lines.
fn put_act(inner: &mut OpenBlock, act: ActLine) -> Result<(), AllocError>
    ensures { OnOk result (open_of inner.new ≡ act_added (open_of inner.old) act) }
{
    match inner {
        OpenBlock::Cue { acts, .. } => push(acts, act, CUE_ROOM),
        _ => Ok(()),
    }
}

// An open block with one more place, where it is a formation.
fn with_place(inner: OpenBlock, place: DroneLine) -> Result<OpenBlock, AllocError>
    ensures { IfOk result (λ o. open_of o ≡ place_added (open_of inner) place) }
{
    match inner {
        OpenBlock::Formation {
            line,
            name,
            mut places,
        } => {
            push(&mut places, place, LEAST_ROOM)?;
            Ok(OpenBlock::Formation { line, name, places })
        }
        other => Ok(other),
    }
}

impl Reader {
    fn new(alloc: Global) -> Self
        ensures { built_of result ≡ nothing }
    {
        Reader {
            memory: None,
            trajectory: None,
            ellipsoid: None,
            stray: None,
            late: None,
            drones: Vec::new(alloc),
            formations: Vec::new(alloc),
            figures: Vec::new(alloc),
            body: Vec::new(alloc),
            opened: Vec::new(alloc),
        }
    }

    // One more block, in the innermost open one or at top.
    fn add_block(&mut self, block: Block) -> Result<(), AllocError>
        ensures { OnOk result (built_of self.new
            ≡ add_block_of (built_of self.old) (built_of self.old).open_blocks (block_of block plain.Done)) }
    {
        match self.opened.pop() {
            None => push_block(&mut self.body, block),
            Some(outer) => {
                let outer = with_block(outer, block)?;
                self.opened.push(outer)?;
                Ok(())
            }
        }
    }

    // Closes a block that was taken off the open ones.
    fn close(&mut self, inner: OpenBlock) -> Result<(), AllocError>
        ensures { OnOk result
            (built_of self.new ≡ close_of (built_of self.old) (open_of inner) (built_of self.old).open_blocks) }
    {
        match inner {
            OpenBlock::Formation { line, name, places } => {
                push(
                    &mut self.formations,
                    Formation {
                        line,
                        name,
                        places: Listed::from_vec(places),
                    },
                    LEAST_ROOM,
                )
            }
            OpenBlock::Figure {
                line,
                name,
                roles,
                body,
            } => {
                push(
                    &mut self.figures,
                    Figure {
                        line,
                        name,
                        roles,
                        body: fitted(body),
                    },
                    LEAST_ROOM,
                )
            }
            OpenBlock::Repeat { line, times, body } => {
                self.add_block(Block::Repeat {
                    line,
                    times,
                    body: fitted(body),
                })
            }
            OpenBlock::Cue { line, ms, acts } => self.add_block(Block::Cue {
                line,
                ms,
                acts: Listed::from_vec(acts),
            }),
        }
    }

    fn close_innermost(&mut self) -> Result<(), AllocError>
        ensures { OnOk result
            (built_of self.new ≡ close_innermost_of (built_of self.old) (built_of self.old).open_blocks) }
    {
        match self.opened.pop() {
            None => Ok(()),
            Some(inner) => self.close(inner),
        }
    }

    fn add_act(&mut self, act: ActLine) -> Result<(), AllocError>
        ensures { OnOk result (built_of self.new
            ≡ record (built_of self.old) { open_blocks = with_act_of (built_of self.old).open_blocks act }) }
    {
        match self.opened.last_mut() {
            Some(inner) => put_act(inner, act),
            None => Ok(()),
        }
    }

    fn add_place(&mut self, place: DroneLine) -> Result<(), AllocError>
        ensures { OnOk result (built_of self.new
            ≡ record (built_of self.old) { open_blocks = with_place_of (built_of self.old).open_blocks place }) }
    {
        match self.opened.pop() {
            None => Ok(()),
            Some(inner) => {
                let inner = with_place(inner, place)?;
                self.opened.push(inner)?;
                Ok(())
            }
        }
    }

    fn begin(&mut self, inner: OpenBlock) -> Result<(), AllocError>
        ensures { OnOk result (built_of self.new
            ≡ record (built_of self.old) { open_blocks = open_of inner ∷ (built_of self.old).open_blocks }) }
    {
        self.opened.push(inner)?;
        Ok(())
    }

    fn add_drone(&mut self, drone: DroneLine) -> Result<(), AllocError>
        ensures { OnOk result
            (built_of self.new ≡ record (built_of self.old) { drones = (built_of self.old).drones ++ drone ∷ [] }) }
    {
        push(&mut self.drones, drone, LEAST_ROOM)
    }

    // What one more line says.
    fn take(&mut self, alloc: Global, line: u32, entry: Entry) -> Result<(), AllocError>
        ensures { OnOk result (built_of self.new ≡ build (built_of self.old) line entry) }
    {
        match entry {
            Entry::Memory { id, offset } => keep_setting(&mut self.memory, (id, offset)),
            Entry::Trajectory { id } => keep_setting(&mut self.trajectory, id),
            Entry::Ellipsoid { r, h } => keep_setting(&mut self.ellipsoid, (r, h)),
            Entry::Stray { mm } => keep_setting(&mut self.stray, mm),
            Entry::Late { ms } => keep_setting(&mut self.late, ms),
            Entry::Drone { name, at } => self.add_drone(DroneLine { line, name, at }),
            Entry::Formation { name } => self.begin(no_places(alloc, line, name)),
            Entry::At { name, at } => self.add_place(DroneLine { line, name, at }),
            Entry::Figure { name, roles } => self.begin(no_figure_body(alloc, line, name, roles)),
            Entry::Cue { ms } => self.begin(no_acts(alloc, line, ms)),
            Entry::Repeat { times } => self.begin(no_repeat_body(alloc, line, times)),
            Entry::Perform {
                figure,
                frame,
                drones,
            } => self.add_block(Block::Perform {
                line,
                figure,
                frame,
                drones,
            }),
            Entry::Form { formation, smooth } => self.add_act(ActLine::Form {
                line,
                formation,
                smooth,
            }),
            Entry::One { name, act } => self.add_act(ActLine::One { line, name, act }),
            Entry::End => self.close_innermost(),
        }
    }

    fn fault(&self, entry: &Entry) -> Option<LineKind>
        ensures { result ≡ entry_fault_of (context_of (built_of self.now)) entry.now }
    {
        match entry {
            Entry::Memory { .. } if self.memory.is_some() => Some(LineKind::DoubleSetting),
            Entry::Trajectory { .. } if self.trajectory.is_some() => Some(LineKind::DoubleSetting),
            Entry::Ellipsoid { .. } if self.ellipsoid.is_some() => Some(LineKind::DoubleSetting),
            Entry::Stray { .. } if self.stray.is_some() => Some(LineKind::DoubleSetting),
            Entry::Late { .. } if self.late.is_some() => Some(LineKind::DoubleSetting),
            Entry::Repeat { .. } if repeats(self.opened.as_slice()) >= MOST_NESTED => Some(
                LineKind::Nesting,
            ),
            Entry::End if is_empty_block(self.opened.as_slice()) => Some(LineKind::EmptyBlock),
            _ => None,
        }
    }

    // What one more line says, unless earlier lines forbid it. Beside the act lines a show has few lines: they are a
    // call of their own, so that the room that their entries need isn't cleared at each act line.
    #[inline(never)]
    fn accept(&mut self, alloc: Global, line: u32, entry: Entry) -> Result<(), ShowFault>
        ensures { Steps result (built_of self.new) (built_by (built_of self.old) line (Ok entry)) }
    {
        if let Some(kind) = self.fault(&entry) {
            return Err(ShowFault::Line { line, kind });
        }
        match self.take(alloc, line, entry) {
            Ok(()) => Ok(()),
            Err(_) => Err(ShowFault::Memory),
        }
    }

    // Reads one more line, which has words, of a text in this form.
    fn line(
        &mut self,
        alloc: Global,
        form: Form,
        text: &[u8],
        words: &[Token],
        number: u32,
    ) -> Result<(), ShowFault>
        requires { 0 < length words.now }
        ensures { Steps result (built_of self.new)
            (line_step form (built_of self.old) (record { number = number; words = words_in text.now words.now })) }
    {
        match entry_of(alloc, form, place(self.opened.as_slice()), text, words) {
            Ok(Entry::One { name, act }) => match self.add_act(ActLine::One {
                line: number,
                name,
                act,
            }) {
                Ok(()) => Ok(()),
                Err(_) => Err(ShowFault::Memory),
            },
            Ok(entry) => self.accept(alloc, number, entry),
            Err(LineError::Kind(kind)) => Err(ShowFault::Line { line: number, kind }),
            Err(LineError::Memory) => Err(ShowFault::Memory),
        }
    }

    // Reads one more line of the text, which may have no words.
    fn text_line(
        &mut self,
        alloc: Global,
        form: Form,
        words: &mut Vec<Token>,
        line: &[u8],
        number: u32,
    ) -> Result<(), ShowFault>
        requires within { length line.now ≤ most_text }
        requires one { between_feeds line.now ≡ line.now ∷ [] }
        ensures { Steps result (built_of self.new)
            (lines_step form (built_of self.old) (line_with number (words_of (visible FromHash line.now)) [])) }
    {
        line_words(words, line)?;
        if words.is_empty() {
            return Ok(());
        }
        self.line(alloc, form, line, words.as_slice(), number)
    }

    // Reads the lines of a text, the first of which has this number.
    fn lines(&mut self, alloc: Global, form: Form, text: &[u8], first: u32) -> Result<(), ShowFault>
        requires within { length text.now ≤ most_text }
        requires few { first + length text.now ≤ most_text + 1 }
        ensures { Steps result (built_of self.new)
            (lines_step form (built_of self.old) (numbered FromHash first (lines_of text.now))) }
    {
        let mut words = Vec::new(alloc);
        let mut number = first;
        let mut rest = text;
        'lines: while let Some((line, later)) = split_line(rest) {
            self.text_line(alloc, form, &mut words, line, number)?;
            number += 1;
            rest = later;
        }
        Ok(())
    }

    // The settings that were read, or their defaults.
    fn settings(&self) -> Settings
        ensures { result ≡ settings_of (built_of self.now) }
    {
        let (memory_id, offset) = self.memory.unwrap_or((2, 0));
        let (r, h) = self.ellipsoid.unwrap_or((120, 300));
        Settings {
            memory_id,
            offset,
            trajectory_id: self.trajectory.unwrap_or(0),
            r,
            h,
            stray: self.stray.unwrap_or(0),
            late: self.late.unwrap_or(0),
        }
    }

    // The show, where no block is open.
    fn finish(self) -> Result<Show, ShowFault>
        ensures { ShowGives plain_show result (finish_of (Ok (built_of self))) }
    {
        let settings = self.settings();
        let Reader {
            drones,
            formations,
            figures,
            body,
            opened,
            ..
        } = self;
        if let Some(inner) = opened.last() {
            return Err(ShowFault::Line {
                line: opening_line(inner),
                kind: LineKind::NoEnd,
            });
        }
        Ok(Show {
            settings,
            drones: Listed::from_vec(drones),
            formations: Listed::from_vec(formations),
            figures: Listed::from_vec(figures),
            body: fitted(body),
        })
    }
}

fn opening_line(block: &OpenBlock) -> u32
    ensures { result ≡ (opening_of (open_of block.now)).line }
{
    match block {
        OpenBlock::Formation { line, .. } => *line,
        OpenBlock::Figure { line, .. } => *line,
        OpenBlock::Repeat { line, .. } => *line,
        OpenBlock::Cue { line, .. } => *line,
    }
}

// The form that the second word of a header names.
fn form_named(word: &[u8]) -> Option<Form>
    ensures { result ≡ form_named_of word.now }
{
    if word == b"1".as_slice() {
        Some(Form::Whole)
    } else if word == b"2".as_slice() {
        Some(Form::Units)
    } else {
        None
    }
}

// The form of a text with this header, if it is one.
fn form_of(text: &[u8], words: &[Token]) -> Option<Form>
    ensures { result ≡ form_of_words (words_in text.now words.now) }
{
    if words.len() == 2 && word_at(text, &words[0]) == b"choreo".as_slice() {
        form_named(word_at(text, &words[1]))
    } else {
        None
    }
}

// The form that the header names, which is the first line with words, what stands after it, and the number of the line
// there.
fn after_header(alloc: Global, text: &[u8]) -> Result<(Form, &[u8], u32), ShowFault>
    requires { length text.now ≤ most_text }
    ensures { MatchResult result
        (λ cut. (read_lines (show_lines text.now)
        ≡ finish_of (lines_step cut.0 nothing (numbered FromHash cut.2 (lines_of cut.1.now))))
        × (cut.2 + length cut.1.now ≤ length text.now + 1)
        × (length cut.1.now ≤ length text.now))
        (λ e. ReadingFails e (read_lines (show_lines text.now))) }
{
    let mut words = Vec::new(alloc);
    let mut number: u32 = 1;
    let mut rest = text;
    'lines: while let Some((line, later)) = split_line(rest) {
        line_words(&mut words, line)?;
        if !words.is_empty() {
            return match form_of(line, words.as_slice()) {
                Some(form) => Ok((form, later, number + 1)),
                None => Err(ShowFault::Line {
                    line: number,
                    kind: LineKind::Header,
                }),
            };
        }
        number += 1;
        rest = later;
    }
    Err(ShowFault::Line {
        line: 1,
        kind: LineKind::Header,
    })
}

// The show of a text without a forbidden byte. The words of one line at a time are in memory, each time in the same.
fn read_allowed(alloc: Global, text: &[u8]) -> Result<Show, ShowFault>
    requires { length text.now ≤ most_text }
    ensures { ShowGives plain_show result (read_lines (show_lines text.now)) }
{
    let (form, rest, number) = after_header(alloc, text)?;
    let mut reader = Reader::new(alloc);
    reader.lines(alloc, form, rest, number)?;
    reader.finish()
}

fn read_text(alloc: Global, text: &[u8]) -> Result<Show, ShowFault>
    requires { length text.now ≤ most_text }
    ensures { ShowGives plain_show result (reading text.now) }
{
    if let Some(line) = first_bad_line(text) {
        return Err(ShowFault::Line {
            line,
            kind: LineKind::BadByte,
        });
    }
    read_allowed(alloc, text)
}

/// The show that a text of at most `most_text` bytes stands for, or its first faulty line, from 1, and what is wrong
/// with it. `Memory` where the program is out of memory.
pub fn read_show(alloc: Global, text: &[u8]) -> Result<Show, ShowFault>
    requires { length text.now ≤ most_text }
    // What the text stands for is read, unless memory runs out.
    ensures only { (show : PlainShow) → StandsFor text.now show → ShowGives plain_show result (Ok show) }
    // The text stands for what is read.
    ensures found { IfOk result (λ show. StandsFor text.now (plain_show show)) }
    // Only valid shows are read.
    ensures valid { IfOk result (λ show. IsValid (plain_show show)) }
    // A refusal names the first fault of the text, and a show comes only without one.
    ensures fault { FaultGives result (fault text.now) }
{
    read_text(alloc, text)
}

/// The law of shows' texts: a text stands for at most one show, which is valid, and for one exactly where it has no
/// fault.
pub fn show_law()
    ensures { ShowLaw }
{}
