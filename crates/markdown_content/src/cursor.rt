//! A place in a content, which hides the pieces, the tabs and what is left out of the lines.
ghost use Rattle.std.specs.Prelude.{◌≡◌, ◌∷◌, ◌++◌, [], ℕ, List, drop, length, nat_le, ◌<◌, ◌≤◌, true, false, None, IsSome, IfSome, IsTrue, OnOk, slice_range};
ghost use Rattle.markdown_content.specs.Beside.{has_code_before, has_code_behind};
ghost use Rattle.markdown_content.specs.Codes.{count_among, line_feed, place_of};
ghost use Rattle.markdown_content.specs.Content.{IsContent, has_no_blank_line};
ghost use Rattle.markdown_content.specs.ContentBytes.{AreBytes, bytes_within};
ghost use Rattle.markdown_content.specs.KnownPlaces.{first_place};
ghost use Rattle.markdown_content.specs.Place.{start_of_content, ahead_at, code_at, code_before, point_of, exit_point, moved};
ghost use Rattle.markdown_content.specs.PlaceInDocument.{is_open, first_point, followed, IsPlaceOf};
ghost use Rattle.markdown_content.specs.PlainBytes.{ArePlain, spares_words};
ghost use Rattle.markdown_content.specs.Stretch.{is_free, past_stretch};
ghost use Rattle.markdown_content.specs.DocumentWalk.{IsPoint};

use crate::beside::{have_code_before, have_code_behind};
use crate::byte_counts::have_fewer;
use crate::bytes::{ByteSet, NO_BYTES};
use crate::lanes::{EIGHT, LANES, ordinary_among, others_among, plain_among, plain_among_eight};
use crate::parser::Piece;
use crate::part::{is_in_one_piece, push_between};
use crate::walk::{DOCUMENT_START, code_from, past_code, walk_to};
use markdown_event::event::Point;
use memchr::memchr2;
use std::alloc::AllocError;
use std::marker::Model;

/// A place in a content: its codes, how many of them are passed, and where it ends.
pub struct Cursor<'a> {
    bytes: &'a [u8],
    pieces: &'a [Piece],
    // The line and the column at which the content begins.
    first_line: usize,
    first_column: usize,
    // The number of the piece that it stands in.
    piece: usize,
    // Where the code at the place begins, or where the content ends.
    point: Point,
    // Where the code before the place ends, or `point` where there is none.
    exit: Point,
    // The code before the place.
    previous: Option<u8>,
    // How many codes are passed.
    passed: usize,
}

impl<'a> Model for Cursor<'a> {
    ghost use Rattle.markdown_content.specs.Place.{Place, start_of_content};
    ghost use Rattle.markdown_content.specs.PlaceInDocument.{BeginsAt, IsCursor};

    ghost Value = { Place };

    ghost view = { λ c. record (start_of_content c.bytes.now c.pieces.now) { at = c.passed } };

    ghost invariant = { λ c. IsCursor c.bytes.now c.pieces.now c.piece c.point c.exit c.previous c.passed
        × BeginsAt c.bytes.now c.pieces.now c.first_line c.first_column };
}

impl<'a> Drop for Cursor<'a> {
    fn drop(self) {
        let Cursor {
            bytes: _,
            pieces: _,
            first_line: _,
            first_column: _,
            piece: _,
            point: _,
            exit: _,
            previous: _,
            passed: _,
        } = self;
    }
}

impl<'a> Cursor<'a> {
    /// Makes a cursor at the start of a content.
    pub fn new(bytes: &'a [u8], pieces: &'a [Piece]) -> Cursor<'a>
        requires { IsContent bytes.now pieces.now }
        ensures { result ≡ start_of_content bytes.entry.now pieces.entry.now }
    {
        Cursor::starting_at(bytes, pieces, start_of_pieces(bytes, pieces))
    }

    /// Makes a cursor at the start of a content whose first code begins at a known point.
    pub fn starting_at(bytes: &'a [u8], pieces: &'a [Piece], point: Point) -> Cursor<'a>
        requires content { IsContent bytes.now pieces.now }
        requires first { point ≡ first_point bytes.now pieces.now }
        ensures { result ≡ start_of_content bytes.entry.now pieces.entry.now }
    {
        Cursor {
            bytes,
            pieces,
            first_line: point.line,
            first_column: point.column,
            piece: 0,
            point,
            exit: point,
            previous: None,
            passed: 0,
        }
    }

    /// Answers a second cursor at the same place.
    pub fn save(&self) -> Cursor<'a>
        ensures { result ≡ self.now }
    {
        Cursor {
            bytes: self.bytes,
            pieces: self.pieces,
            first_line: self.first_line,
            first_column: self.first_column,
            piece: self.piece,
            point: self.point,
            exit: self.exit,
            previous: self.previous,
            passed: self.passed,
        }
    }

    /// Answers a second cursor at the content's start.
    pub fn restart(&self) -> Cursor<'a>
        ensures { result ≡ record self.now { at = 0 } }
    {
        let (index, vs) = start_of(self.pieces);
        let first = Point {
            line: self.first_line,
            column: self.first_column,
            index,
            vs,
        };
        Cursor::starting_at(self.bytes, self.pieces, first)
    }

    /// Answers whether at least so many codes of the whole content are among these bytes.
    pub fn holds(&self, bytes: &ByteSet, times: usize) -> bool
        ensures { result ≡ nat_le times (count_among bytes.now self.now.codes) }
    {
        if self.has_fewer(bytes, times) {
            return false;
        }
        let mut left = times;
        let mut place = self.restart();
        while left > 0 {
            let Some(code) = place.seek(bytes) else {
                return false;
            };
            if bytes.contains(code) {
                left -= 1;
            }
            place.consume();
        }
        true
    }

    // Whether fewer than so many codes of the whole content are among these bytes, as far as the bytes of the pieces tell it: where it is one byte, which
    // is neither blank nor a control, no other byte makes a code that is this byte.
    #[inline(always)]
    fn has_fewer(&self, bytes: &ByteSet, times: usize) -> bool
        ensures { IsTrue result → false ≡ nat_le times (count_among bytes.now self.now.codes) }
    {
        let set = bytes.as_slice();
        if set.len() != 1 || set[0] <= b' ' {
            return false;
        }
        have_fewer(self.bytes, self.pieces, set[0], times)
    }

    /// Answers the index of the byte at which the content ends.
    pub fn end_index(&self) -> usize
        ensures { result ≡ self.now.end.index }
    {
        if self.pieces.is_empty() {
            0
        } else {
            self.pieces[self.pieces.len() - 1].end.0
        }
    }

    /// Answers whether a code of the whole content stands right before the byte of an index: none does where a piece begins, unless another one ends
    /// there. The pieces are searched by halving.
    pub fn has_code_before(&self, index: usize) -> bool
        ensures { result ≡ has_code_before self.now.codes index }
    {
        have_code_before(self.bytes, self.pieces, index)
    }

    /// Answers whether a code of the whole content has the byte of an index: none does where a piece ends, unless another one begins there. The
    /// pieces are searched by halving.
    pub fn has_code_behind(&self, index: usize) -> bool
        ensures { result ≡ has_code_behind self.now.codes index }
    {
        have_code_behind(self.bytes, self.pieces, index)
    }

    /// Answers whether one piece has all bytes of the document from an index to another, so that the content leaves none of them out. The pieces are
    /// searched by halving.
    pub fn is_in_one_piece(&self, from: usize, to: usize) -> bool
        ensures { IsTrue result → (text : List ℕ) → bytes_within text from to self.now.codes ≡ slice_range text from to }
    {
        is_in_one_piece(self.bytes, self.pieces, from, to)
    }

    /// Appends the bytes of a text, such as the document, at which the content's stand between two indexes of the document: what the pieces leave out is not
    /// among them. The pieces are searched by halving, and read from there on.
    ///
    /// The only error is that memory was refused.
    pub fn push_between(
        &self,
        out: &mut Vec<u8>,
        text: &[u8],
        from: usize,
        to: usize,
    ) -> Result<(), AllocError>
        requires { to ≤ length text.now }
        ensures { OnOk result (out.new.items ≡ out.old.items ++ bytes_within text.now from to self.now.codes) }
    {
        push_between(out, text, self.bytes, self.pieces, from, to)
    }

    /// Answers the bytes of the whole content where each of its codes is one of them: where it is one piece, which does not end within a tab, and no
    /// byte of it is a tab or a carriage return.
    pub fn bytes_of_codes(&self) -> Option<&'a [u8]>
        ensures { IfSome result (λ bytes. AreBytes bytes.now self.now.codes) }
    {
        let [piece] = self.pieces else {
            return None;
        };
        if piece.end.1 != 0 {
            return None;
        }
        let bytes = &self.bytes[piece.start.0..piece.end.0];
        match memchr2(b'\t', b'\r', bytes) {
            Some(_) => None,
            None => Some(bytes),
        }
    }

    /// Answers the bytes of the document that it reads.
    pub fn document(&self) -> &'a [u8]
        ensures { IsPlaceOf result.now self.now }
    {
        self.bytes
    }

    /// Answers how many codes are passed.
    pub fn passed(&self) -> usize
        ensures { result ≡ self.now.at }
    {
        self.passed
    }

    /// Answers the code at the place, `None` where the content ends.
    pub fn current(&self) -> Option<u8>
        ensures { result ≡ code_at self.now }
    {
        if stands_before_end(self.pieces, self.piece, self.point) {
            Some(code_from(self.bytes, self.point))
        } else {
            None
        }
    }

    /// Answers the code behind the code at the place, `None` where the content ends before it.
    pub fn next(&self) -> Option<u8>
        ensures { result ≡ code_at (moved self.now) }
    {
        let here = self.point.index;
        if self.piece < self.pieces.len()
            && here + 1 < self.pieces[self.piece].end.0
            && self.bytes[here] > b'\r'
            && self.bytes[here + 1] > b'\r'
        {
            Some(self.bytes[here + 1])
        } else {
            self.next_any()
        }
    }

    /// Answers the code before the place, `None` where the content starts.
    pub fn previous(&self) -> Option<u8>
        ensures { result ≡ code_before self.now }
    {
        self.previous
    }

    /// Answers where an event that begins here stands.
    pub fn point(&self) -> Point
        ensures { result ≡ point_of self.now }
    {
        self.point
    }

    /// Answers where an event that ends here stands: after a line ending at the start of the next line, before what is left out of that line.
    pub fn exit_point(&self) -> Point
        ensures exit { result ≡ exit_point self.now }
        ensures after_line { code_before self.now ≡ Some line_feed → (result.column ≡ 1) × (result.vs ≡ 0) }
        ensures within_line { (code_before self.now ≡ Some line_feed → ⊥) → result ≡ point_of self.now }
    {
        self.exit
    }

    /// Moves past the code at the place.
    pub fn consume(&mut self)
        requires { IsSome (code_at self.old) }
        ensures { self.new ≡ moved self.old }
    {
        if !self.pass_ordinary() {
            self.consume_rare();
        }
    }

    // Moves past the code at the place where that is a byte above 13 that is not the last of its piece, and answers whether it is.
    #[inline(always)]
    fn pass_ordinary(&mut self) -> bool
        requires { IsSome (code_at self.old) }
        ensures passed { IsTrue result → self.new ≡ moved self.old }
        ensures stays { result ≡ false → self.new ≡ self.old }
    {
        let index = self.point.index;
        let byte = self.bytes[index];
        if byte > b'\r' && index + 1 < self.pieces[self.piece].end.0 {
            let point = Point {
                line: self.point.line,
                column: self.point.column + 1,
                index: index + 1,
                vs: 0,
            };
            self.point = point;
            self.exit = point;
            self.previous = Some(byte);
            self.passed += 1;
            return true;
        }
        false
    }

    /// Answers a second cursor past the code at the place and past the codes behind it, up to a line ending or one of these bytes. `None` where a
    /// look at the bytes of one piece does not tell.
    #[inline(always)]
    pub fn past_ordinary(&self, stops: &ByteSet) -> Option<Cursor<'a>>
        requires { IsSome (code_at self.now) }
        ensures past { IfSome result (λ end. end ≡ past_stretch stops.now (moved self.now)) }
        ensures stop { IfSome result (λ end. is_free stops.now (code_at end) ≡ false) }
    {
        let mut end = self.save();
        if !end.pass_ordinary() {
            return None;
        }
        end.pass_plain(stops);
        if end.stands_at_stop(stops) {
            return Some(end);
        }
        if !end.pass_last(stops) {
            return None;
        }
        Some(end)
    }

    // Moves past the code at the place where that is the last of the content, and an ordinary byte, and answers whether it is.
    #[inline(always)]
    fn pass_last(&mut self, stops: &ByteSet) -> bool
        ensures past { IsTrue result → past_stretch stops.now self.new ≡ past_stretch stops.now self.old }
        ensures end { IsTrue result → code_at self.new ≡ None }
    {
        if self.piece >= self.pieces.len() || self.piece + 1 < self.pieces.len() {
            return false;
        }
        let end = self.pieces[self.piece].end;
        let here = self.point;
        let passed = self.passed;
        if end.1 != 0 || here.index + 1 != end.0 {
            return false;
        }
        let last = self.bytes[here.index];
        if !stops.is_plain(last) {
            return false;
        }
        let past = Point {
            line: here.line,
            column: here.column + 1,
            index: here.index + 1,
            vs: 0,
        };
        self.point = past;
        self.exit = past;
        self.previous = Some(last);
        self.passed = passed + 1;
        true
    }

    // The code behind the code at the place, whatever both are, and wherever in their pieces.
    #[inline(never)]
    fn next_any(&self) -> Option<u8>
        ensures { result ≡ code_at (moved self.now) }
    {
        self.current()?;
        let mut behind = self.save();
        behind.consume();
        behind.current()
    }

    // Whether the piece goes on with a line feed, or with a byte above 13 that is one of these: so most stretches end.
    #[inline(always)]
    fn stands_at_stop(&self, stops: &ByteSet) -> bool
        ensures { IsTrue result → is_free stops.now (code_at self.now) ≡ false }
    {
        if self.piece >= self.pieces.len() || self.point.index >= self.pieces[self.piece].end.0 {
            return false;
        }
        let byte = self.bytes[self.point.index];
        byte == b'\n' || (byte > b'\r' && !stops.is_plain(byte))
    }

    // Moves past the ordinary bytes at the place, as far as the last of the piece.
    #[inline(always)]
    fn pass_plain(&mut self, stops: &ByteSet)
        ensures past { past_stretch stops.now self.new ≡ past_stretch stops.now self.old }
        ensures codes { self.new.codes ≡ self.old.codes }
        ensures forward { self.old.at ≤ self.new.at }
    {
        if self.piece >= self.pieces.len() {
            return;
        }
        let start = self.point.index;
        let end = self.pieces[self.piece].end.0.min(self.bytes.len());
        if end <= start {
            return;
        }
        let count = plain_end(self.bytes, start, end - 1, stops) - start;
        if count == 0 {
            return;
        }
        let next = Point {
            line: self.point.line,
            column: self.point.column + count,
            index: start + count,
            vs: 0,
        };
        self.point = next;
        self.exit = next;
        self.previous = Some(self.bytes[start + count - 1]);
        self.passed += count;
    }

    // Whether a code is at the place that is neither a line ending nor one of these bytes.
    fn is_free(&self, stops: &ByteSet) -> bool
        ensures { result ≡ is_free stops.now (code_at self.now) }
    {
        match self.current() {
            None => false,
            Some(byte) => !(byte == b'\n' || stops.contains(byte)),
        }
    }

    /// Moves past the codes at the place up to a line ending, one of these bytes or the end, as that many calls of `consume` would.
    #[inline(always)]
    pub fn consume_stretch(&mut self, stops: &ByteSet)
        ensures { self.new ≡ past_stretch stops.now self.old }
    {
        self.pass_plain(stops);
        if !self.stands_at_stop(stops) {
            self.consume_rest(stops);
        }
    }

    // What `consume_stretch` does, whatever the codes are.
    #[inline(never)]
    fn consume_rest(&mut self, stops: &ByteSet)
        ensures { self.new ≡ past_stretch stops.now self.old }
    {
        while self.is_free(stops) {
            self.consume();
            self.pass_plain(stops);
        }
    }

    /// Moves past the codes at the place up to a line ending, one of these bytes or the end, and answers the code there.
    #[inline(always)]
    pub fn seek(&mut self, stops: &ByteSet) -> Option<u8>
        ensures place { self.new ≡ past_stretch stops.now self.old }
        ensures code { result ≡ code_at self.new }
    {
        self.consume_stretch(stops);
        self.current()
    }

    // Moves past the code at the place: a line feed that is not the last byte of its piece at once.
    #[inline(never)]
    fn consume_rare(&mut self)
        requires { IsSome (code_at self.old) }
        ensures { self.new ≡ moved self.old }
    {
        if !self.pass_line_feed() {
            self.consume_any();
        }
    }

    // Moves past a line feed at the place that is not the last byte of its piece, and answers whether there is one.
    #[inline(always)]
    fn pass_line_feed(&mut self) -> bool
        ensures passed { IsTrue result → (code_at self.old ≡ Some line_feed) × (self.new ≡ moved self.old) }
        ensures stays { result ≡ false → self.new ≡ self.old }
    {
        if self.piece < self.pieces.len() {
            let at = self.point;
            if at.index + 1 < self.pieces[self.piece].end.0 && self.bytes[at.index] == b'\n' {
                let point = Point {
                    line: at.line + 1,
                    column: 1,
                    index: at.index + 1,
                    vs: 0,
                };
                self.point = point;
                self.exit = point;
                self.previous = Some(b'\n');
                self.passed += 1;
                return true;
            }
        }
        false
    }

    /// Whether the piece goes on with a byte that is neither a control nor the space: so the line at the place is filled.
    #[inline(always)]
    pub fn stands_at_ink(&self) -> bool
        ensures { IsTrue result → has_no_blank_line false (ahead_at self.now) ≡ has_no_blank_line true (ahead_at self.now) }
    {
        if self.pieces.len() <= self.piece || self.point.index >= self.pieces[self.piece].end.0 {
            return false;
        }
        self.bytes[self.point.index] > b' '
    }

    /// Whether the place is that of the last code, and that is a byte above 13.
    #[inline(always)]
    pub fn stands_at_last_byte(&self) -> bool
        ensures { IsTrue result → IsTrue (has_no_blank_line true (ahead_at self.now)) }
    {
        if self.pieces.len() <= self.piece || self.piece + 1 < self.pieces.len() {
            return false;
        }
        let end = self.pieces[self.piece].end;
        if end.1 != 0 || self.point.index + 1 != end.0 {
            return false;
        }
        self.bytes[self.point.index] > b'\r'
    }

    /// Moves past the rest of a line that is filled and past such lines behind it, as far as they are told by a look at few bytes, and
    /// answers whether the line there is filled.
    #[inline(always)]
    pub fn pass_filled_lines(&mut self) -> bool
        ensures lines { has_no_blank_line result (ahead_at self.new) ≡ has_no_blank_line true (ahead_at self.old) }
        ensures left { length (ahead_at self.new) ≤ length (ahead_at self.old) }
    {
        self.pass_plain(&ByteSet::new(&NO_BYTES));
        while self.pass_line_feed() {
            if !self.stands_at_ink() {
                return false;
            }
            self.pass_plain(&ByteSet::new(&NO_BYTES));
        }
        true
    }

    // Moves past the code at the place, whatever it is, and wherever in its piece.
    #[inline(never)]
    fn consume_any(&mut self)
        requires { IsSome (code_at self.old) }
        ensures { self.new ≡ moved self.old }
    {
        let previous = code_from(self.bytes, self.point);
        let exit = past_code(self.bytes, self.point);
        let (piece, point) = follow(self.bytes, self.pieces, self.piece, exit);
        self.piece = piece;
        self.point = point;
        self.exit = exit;
        self.previous = Some(previous);
        self.passed += 1;
    }
}

// Where the bytes above 13 from this index on end, or where fewer than sixteen are left, not past `to`.
#[inline(always)]
fn ordinary_groups_end(bytes: &[u8], from: usize, to: usize) -> usize
    requires order { from ≤ to }
    requires within { to ≤ length bytes.now }
    ensures from { from ≤ result }
    ensures to { result ≤ to }
    ensures plain { ArePlain [] bytes.now from result }
{
    let mut index = from;
    while to - index >= LANES {
        let count = ordinary_among(bytes, index);
        index += count;
        if count < LANES {
            return index;
        }
    }
    index
}

// As `ordinary_groups_end`, of bytes that are none of these, which are one or two.
#[inline(always)]
fn few_groups_end(bytes: &[u8], from: usize, to: usize, stops: &ByteSet) -> usize
    requires some { 0 < length stops.now }
    requires few { length stops.now ≤ 2 }
    requires order { from ≤ to }
    requires within { to ≤ length bytes.now }
    ensures from { from ≤ result }
    ensures to { result ≤ to }
    ensures plain { ArePlain stops.now bytes.now from result }
{
    let set = stops.as_slice();
    let (one, two) = (set[0], set[set.len() - 1]);
    let mut index = from;
    while to - index >= LANES {
        let count = others_among(bytes, index, one, two);
        index += count;
        if count < LANES {
            return index;
        }
    }
    index
}

// As `ordinary_groups_end`, of bytes that are none of these, where words are ordinary.
#[inline(always)]
fn words_end(bytes: &[u8], from: usize, to: usize, stops: &ByteSet) -> usize
    requires words { IsTrue (spares_words stops.now) }
    requires order { from ≤ to }
    requires within { to ≤ length bytes.now }
    ensures from { from ≤ result }
    ensures to { result ≤ to }
    ensures plain { ArePlain stops.now bytes.now from result }
{
    let mut index = from;
    while to - index >= LANES {
        let count = plain_among(bytes, index, stops);
        index += count;
        if count < LANES {
            return index;
        }
    }
    index
}

// Where the ordinary bytes from this index on end, or where fewer than eight are left, not past `to`.
#[inline(always)]
fn eights_end(bytes: &[u8], from: usize, to: usize, stops: &ByteSet) -> usize
    requires order { from ≤ to }
    requires within { to ≤ length bytes.now }
    ensures from { from ≤ result }
    ensures to { result ≤ to }
    ensures plain { ArePlain stops.now bytes.now from result }
{
    let mut index = from;
    while to - index >= EIGHT {
        let count = plain_among_eight(bytes, index, stops);
        index += count;
        if count < EIGHT {
            return index;
        }
    }
    index
}

// Where the ordinary bytes from this index on that are looked at together end, not past `to`.
#[inline(always)]
fn plain_groups_end(bytes: &[u8], from: usize, to: usize, stops: &ByteSet) -> usize
    requires order { from ≤ to }
    requires within { to ≤ length bytes.now }
    ensures from { from ≤ result }
    ensures to { result ≤ to }
    ensures plain { ArePlain stops.now bytes.now from result }
{
    if !stops.spares_words() {
        return eights_end(bytes, from, to, stops);
    }
    match stops.as_slice().len() {
        0 => ordinary_groups_end(bytes, from, to),
        1 | 2 => few_groups_end(bytes, from, to, stops),
        _ => words_end(bytes, from, to, stops),
    }
}

/// Where the ordinary bytes from this index on end, not past `to`.
#[inline(always)]
pub fn plain_end(bytes: &[u8], from: usize, to: usize, stops: &ByteSet) -> usize
    requires order { from ≤ to }
    requires within { to ≤ length bytes.now }
    ensures from { from ≤ result }
    ensures to { result ≤ to }
    ensures plain { ArePlain stops.now bytes.now from result }
{
    let mut index = plain_groups_end(bytes, from, to, stops);
    while index < to && stops.is_plain(bytes[index]) {
        index += 1;
    }
    index
}

// The place at which some pieces begin, by its index and the codes of the tab there; without pieces, that of the document.
fn start_of(pieces: &[Piece]) -> (usize, usize)
    ensures { result ≡ first_place (0, 0) pieces.now }
{
    if pieces.is_empty() {
        (0, 0)
    } else {
        pieces[0].start
    }
}

// Where the first code of some pieces begins.
fn start_of_pieces(bytes: &[u8], pieces: &[Piece]) -> Point
    requires { IsContent bytes.now pieces.now }
    ensures { result ≡ first_point bytes.now pieces.now }
{
    if pieces.is_empty() {
        DOCUMENT_START
    } else {
        walk_to(bytes, DOCUMENT_START, pieces[0].start)
    }
}

// Whether a point is not at the end of the piece of this number.
fn stands_before_end(pieces: &[Piece], piece: usize, point: Point) -> bool
    ensures { result ≡ is_open (place_of point) (drop piece pieces.now) }
{
    piece < pieces.len() && (point.index, point.vs) != pieces[piece].end
}

// The piece and the place of the next code, after a code of this piece.
fn follow(bytes: &[u8], pieces: &[Piece], piece: usize, point: Point) -> (usize, Point)
    requires content { IsContent bytes.now pieces.now }
    requires is_point { IsPoint bytes.now point }
    requires piece { piece < length pieces.now }
    ensures { result ≡ followed bytes.now piece point (drop piece pieces.now) }
{
    if stands_before_end(pieces, piece, point) {
        (piece, point)
    } else if piece + 1 < pieces.len() {
        (piece + 1, walk_to(bytes, point, pieces[piece + 1].start))
    } else {
        (piece, point)
    }
}
