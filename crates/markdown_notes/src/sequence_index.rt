//! Where the last of some sequences of bytes begins.
ghost use Rattle.std.specs.Prelude.{◌≡◌, ◌-◌, List, Some, None, cond};
ghost use Rattle.markdown_content.specs.Codes.{Code};
ghost use Rattle.markdown_content.specs.ContentBytes.{AreBytes};
ghost use Rattle.markdown_content.specs.Place.{ahead_at, code_at};
ghost use Rattle.markdown_notes.specs.SequenceIndex.{begins_at, begun_at, closes_past_spacing, closes_twice, first_bytes, is_behind_w, is_spacing, last_begins, last_in, last_where, rules_out, shows_at, stand_next, stop_bytes};
ghost use Rattle.markdown_notes.specs.declared.sequence_index.Sequence.{Sequence as Kind};
ghost use Rattle.markdown_notes.specs.declared.sequence_index.Sequence.TheVariants.{WwwDot};
ghost use Rattle.std.specs.Str.{byte};

use markdown_content::byte_table;
use markdown_content::bytes::{ByteSet, ByteTable};
use markdown_content::cursor::Cursor;
use memchr::memrchr2;
use std::marker::Model;

/// A sequence of bytes without which some construct does not stand: one that ends it, or that it holds.
#[derive(Clone, Copy)]
pub enum Sequence {
    /// `-->`: a comment ends.
    CommentEnd,
    /// `]]>`: a CDATA section ends.
    SectionEnd,
    /// `?>`: an instruction ends.
    InstructionEnd,
    /// `>`: a declaration ends.
    DeclarationEnd,
    /// `)`, and another one behind it, past spaces, tabs and line endings: a title in parentheses ends, and its resource.
    ResourceEnd,
    /// `w.` or `W.`, as in the `www.` of a literal.
    WwwDot,
    /// A backtick or a dollar sign, with which a span begins and ends.
    SpanMark,
}

/// For each sequence, how many codes stand before the last place where it begins; `None` where there is no such place.
#[derive(Clone, Copy)]
pub struct LastBegins {
    /// Of `-->`.
    pub comment_end: Option<usize>,
    /// Of `]]>`.
    pub section_end: Option<usize>,
    /// Of `?>`.
    pub instruction_end: Option<usize>,
    /// Of `>`.
    pub declaration_end: Option<usize>,
    /// Of two `)` with nothing but whitespace between them.
    pub resource_end: Option<usize>,
    /// Of `w.` and `W.`.
    pub www_dot: Option<usize>,
    /// Of a backtick and a dollar sign.
    pub span_mark: Option<usize>,
}

impl LastBegins {
    // What is held of a sequence.
    fn of(&self, sequence: Sequence) -> Option<usize>
        ensures { result ≡ last_in self.now sequence }
    {
        match sequence {
            Sequence::CommentEnd => self.comment_end,
            Sequence::SectionEnd => self.section_end,
            Sequence::InstructionEnd => self.instruction_end,
            Sequence::DeclarationEnd => self.declaration_end,
            Sequence::ResourceEnd => self.resource_end,
            Sequence::WwwDot => self.www_dot,
            Sequence::SpanMark => self.span_mark,
        }
    }
}

/// Where the last of each sequence begins in a content: what needs a sequence need not be looked for where there is none.
///
/// It takes no memory. Contracts see `None` where nothing is known.
#[derive(Drop)]
pub struct SequenceIndex {
    last: Option<LastBegins>,
}

impl Model for SequenceIndex {
    ghost use Rattle.std.specs.Prelude.{Option};
    ghost use Rattle.markdown_notes.specs.declared.sequence_index.LastBegins.{LastBegins};

    ghost Value = { Option LastBegins };

    ghost view = { λ i. i.last };
}

impl SequenceIndex {
    /// Knows nothing.
    pub fn new() -> SequenceIndex
        ensures { result ≡ None }
    {
        SequenceIndex { last: None }
    }

    /// The sequences in the whole content of a cursor: searched for in its bytes, from the last one on, where each code is one of them; else by one
    /// walk over the codes.
    pub fn over(cursor: &Cursor) -> SequenceIndex
        ensures { result ≡ Some (last_begins cursor.now.codes) }
    {
        let last = match cursor.bytes_of_codes() {
            Some(bytes) => last_in_bytes(bytes),
            None => last_in_codes(cursor),
        };
        SequenceIndex { last: Some(last) }
    }

    /// Whether it is known that the sequence does not begin at this many codes or after.
    pub fn rules_out(&self, sequence: Sequence, at: usize) -> bool
        ensures { result ≡ rules_out self.now sequence at }
    {
        match &self.last {
            None => false,
            Some(last) => match last.of(sequence) {
                Some(begins) => begins < at,
                None => true,
            },
        }
    }
}

// Where the sequences last begin in the whole content of a cursor, by one walk over its codes.
fn last_in_codes(cursor: &Cursor) -> LastBegins
    ensures { result ≡ last_begins cursor.now.codes }
{
    let mut last = LastBegins {
        comment_end: None,
        section_end: None,
        instruction_end: None,
        declaration_end: None,
        resource_end: None,
        www_dot: None,
        span_mark: None,
    };
    let stops = stop_bytes();
    let mut place = cursor.restart();
    while let Some(code) = place.seek(&stops) {
        last = found_at(&place, code, last);
        place.consume();
    }
    last
}

// Where the sequences last begin in codes that are these bytes.
fn last_in_bytes(bytes: &[u8]) -> LastBegins
    ensures { (cs : List Code) → AreBytes bytes.now cs → result ≡ last_begins cs }
{
    LastBegins {
        comment_end: last_of(Sequence::CommentEnd, bytes),
        section_end: last_of(Sequence::SectionEnd, bytes),
        instruction_end: last_of(Sequence::InstructionEnd, bytes),
        declaration_end: last_of(Sequence::DeclarationEnd, bytes),
        resource_end: last_of(Sequence::ResourceEnd, bytes),
        www_dot: last_of(Sequence::WwwDot, bytes),
        span_mark: last_of(Sequence::SpanMark, bytes),
    }
}

// Where a sequence last begins in codes that are these bytes: from the last byte that may begin it on.
fn last_of(sequence: Sequence, bytes: &[u8]) -> Option<usize>
    ensures { (cs : List Code) → AreBytes bytes.now cs → result ≡ last_where (begins_at sequence) cs }
{
    let (one, other) = first_bytes(sequence);
    let mut end = bytes.len();
    while let Some(at) = memrchr2(one, other, &bytes[..end]) {
        if begins_at(sequence, &bytes[at..]) {
            return Some(at);
        }
        end = at;
    }
    None
}

// The bytes with which a sequence may begin.
fn first_bytes(sequence: Sequence) -> (u8, u8)
    ensures { result ≡ first_bytes sequence }
{
    match sequence {
        Sequence::CommentEnd => (b'-', b'-'),
        Sequence::SectionEnd => (b']', b']'),
        Sequence::InstructionEnd => (b'?', b'?'),
        Sequence::DeclarationEnd => (b'>', b'>'),
        Sequence::ResourceEnd => (b')', b')'),
        Sequence::WwwDot => (b'w', b'W'),
        Sequence::SpanMark => (b'`', b'$'),
    }
}

// Whether codes that are these bytes begin with a sequence.
fn begins_at(sequence: Sequence, bytes: &[u8]) -> bool
    ensures { (cs : List Code) → AreBytes bytes.now cs → result ≡ begins_at sequence cs }
{
    match sequence {
        Sequence::CommentEnd => bytes.starts_with(b"-->"),
        Sequence::SectionEnd => bytes.starts_with(b"]]>"),
        Sequence::InstructionEnd => bytes.starts_with(b"?>"),
        Sequence::DeclarationEnd => bytes.starts_with(b">"),
        Sequence::ResourceEnd => close_twice(bytes),
        Sequence::WwwDot => bytes.starts_with(b"w.") || bytes.starts_with(b"W."),
        Sequence::SpanMark => bytes.starts_with(b"`") || bytes.starts_with(b"$"),
    }
}

// Whether codes that are these bytes begin with a closing parenthesis, and another one comes behind it, past whitespace.
fn close_twice(bytes: &[u8]) -> bool
    ensures { (cs : List Code) → AreBytes bytes.now cs → result ≡ closes_twice cs }
{
    let [first, behind @ ..] = bytes else {
        return false;
    };
    *first == b')' && close_past_spacing(behind)
}

// Whether a closing parenthesis comes next in codes that are these bytes, past whitespace.
fn close_past_spacing(bytes: &[u8]) -> bool
    ensures { (cs : List Code) → AreBytes bytes.now cs → result ≡ closes_past_spacing cs }
{
    for byte in bytes {
        if !is_spacing(*byte) {
            return *byte == b')';
        }
    }
    false
}

// What was found, with the sequence that shows at the place, by the code there.
fn found_at(place: &Cursor, code: u8, mut last: LastBegins) -> LastBegins
    requires { code_at place.now ≡ Some code }
    ensures { (s : Kind) → last_in result s ≡ cond (shows_at s place.now) (Some (begun_at s place.now.at)) (last_in last s) }
{
    let at = place.passed();
    match code {
        b'-' => last.comment_end = at_or(stand_next(place, b"-->"), at, last.comment_end),
        b']' => last.section_end = at_or(stand_next(place, b"]]>"), at, last.section_end),
        b'?' => last.instruction_end = at_or(stand_next(place, b"?>"), at, last.instruction_end),
        b'>' => last.declaration_end = Some(at),
        b')' => last.resource_end = at_or(closes_twice(place), at, last.resource_end),
        b'.' => last.www_dot = before_dot(place, last.www_dot),
        b'`' | b'$' => last.span_mark = Some(at),
        _ => {}
    }
    last
}

// At a dot: the place of the `w` before it, if one is there, else the earlier place.
fn before_dot(place: &Cursor, earlier: Option<usize>) -> Option<usize>
    requires { code_at place.now ≡ Some (byte ".") }
    ensures { result ≡ cond (shows_at WwwDot place.now) (Some (place.now.at - 1)) earlier }
{
    if is_behind_w(place.previous()) {
        Some(place.passed() - 1)
    } else {
        earlier
    }
}

// Whether the code before is a `w`.
fn is_behind_w(previous: Option<u8>) -> bool
    ensures { result ≡ is_behind_w previous }
{
    matches!(previous, Some(b'w' | b'W'))
}

const STOP_BYTES: ByteTable = byte_table!(b'-', b']', b'?', b'>', b')', b'.', b'`', b'$');

// The bytes at which the sequences show.
fn stop_bytes() -> ByteSet
    ensures { result ≡ stop_bytes }
{
    ByteSet::new(&STOP_BYTES)
}

// This place where the test holds, else the earlier one.
fn at_or(here: bool, at: usize, earlier: Option<usize>) -> Option<usize>
    ensures { result ≡ cond here (Some at) earlier }
{
    if here { Some(at) } else { earlier }
}

// Whether these bytes come next, one after another.
fn stand_next(cursor: &Cursor, bytes: &[u8]) -> bool
    ensures { result ≡ stand_next bytes.now (ahead_at cursor.now) }
{
    let mut place = cursor.save();
    for byte in bytes {
        let Some(code) = place.current() else {
            return false;
        };
        if code != *byte {
            return false;
        }
        place.consume();
    }
    true
}

// Whether it is a space, a tab or a line ending.
fn is_spacing(byte: u8) -> bool
    ensures { result ≡ is_spacing byte }
{
    matches!(byte, b' ' | b'\t' | b'\n')
}

// Whether a closing parenthesis comes next, past whitespace.
pub(crate) fn closes_past_spacing(cursor: &Cursor) -> bool
    ensures { result ≡ closes_past_spacing (ahead_at cursor.now) }
{
    let mut place = cursor.save();
    while let Some(code) = place.current() {
        if !is_spacing(code) {
            return code == b')';
        }
        place.consume();
    }
    false
}

// Whether a closing parenthesis comes next, and another one behind it, past whitespace.
fn closes_twice(cursor: &Cursor) -> bool
    ensures { result ≡ closes_twice (ahead_at cursor.now) }
{
    let Some(code) = cursor.current() else {
        return false;
    };
    if code != b')' {
        return false;
    }
    let mut behind = cursor.save();
    behind.consume();
    closes_past_spacing(&behind)
}
