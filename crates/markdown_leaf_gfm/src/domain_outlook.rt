//! Where no domain begins behind a `_`.
//!
//! A domain that holds a `_` in one of its last two parts is none, and from each place in it up to that `_` what is read ends where it does, and
//! holds that `_` as well. So such a stretch of codes is read once for all the places in it at which a literal from `www.` on may begin.
#![tactic(auto)]

ghost use Rattle.std.specs.Prelude.{◌≡◌, ◌+◌, ◌==◌, ◌&&◌, ◌||◌, not, codes, nat_le, nat_lt, IfOk, IsSome, Some, None, true, false, if◌then◌else◌, length};
ghost use Rattle.std.specs.Str.{byte};
ghost use Rattle.markdown_content.specs.Place.{ahead_at, code_at, moved, point_of};
ghost use Rattle.markdown_content.specs.Stretch.{past_stretch};
ghost use Rattle.markdown_plan.specs.ByteTests.{among_values};
ghost use Rattle.markdown_plan.specs.Characters.{IsText, at_later, later_value};
ghost use Rattle.markdown_model.specs.GfmAutolinkLiteral.{is_other, is_space};
ghost use Rattle.markdown_leaf_gfm.specs.Trails.{trails_in};
ghost use Rattle.markdown_util.specs.Neighbours.{class_of, after_index};
ghost use Rattle.markdown_leaf_gfm.specs.GfmAutolinkLiteral.{ends_bracket};
ghost use Rattle.markdown_leaf_gfm.specs.DomainOutlook as DomainOutlook;
ghost use Rattle.markdown_leaf_gfm.specs.DomainScans.{IsLook, ReachesOver, name_look, www_at, goes_on, domain_at, behind_code, barred_by, underscores};

use crate::gfm_autolink_literal::is_trail;
use markdown_content::byte_table;
use markdown_content::bytes::{ByteSet, ByteTable};
use markdown_content::cursor::Cursor;
use markdown_event::place_index::PlaceIndex;
use markdown_plan::bytes::is_letter;
use markdown_util::util::char::{Kind, kind_after_index};
use std::alloc::{AllocError, Global};

/// What a look for trailing punctuation comes to at a code.
#[derive(Clone, Copy)]
enum Look {
    // It goes on behind the code: with `Some` behind a `&`, and whether letters stand between.
    GoesOn(Option<bool>),
    // It is settled whether a trail begins where the look began.
    Ends(bool),
}

/// What is known of the domain over a place.
#[derive(Clone, Copy)]
struct Outlook {
    // How many codes stand before its end.
    end: usize,
    // How many stand before the place behind the last `_` in one of its last two parts; 0 without such a `_`.
    barred: usize,
}

// The class of the document's character at the place.
fn class_at(bytes: &[u8], place: &Cursor) -> Kind
    requires text { IsText bytes.now place.now }
    requires begins { at_later (code_at place.now) ≡ false }
    ensures { result ≡ class_of (after_index bytes.now (point_of place.now).index) }
{
    kind_after_index(bytes, place.point().index)
}

// Whether the document's character at the place is missing or whitespace.
fn is_at_space(bytes: &[u8], place: &Cursor) -> bool
    requires text { IsText bytes.now place.now }
    requires begins { at_later (code_at place.now) ≡ false }
    ensures { result ≡ is_space (class_of (after_index bytes.now (point_of place.now).index)) }
{
    matches!(class_at(bytes, place), Kind::Whitespace)
}

// Whether it is of class other.
fn is_at_other(bytes: &[u8], place: &Cursor) -> bool
    requires text { IsText bytes.now place.now }
    requires begins { at_later (code_at place.now) ≡ false }
    ensures { result ≡ is_other (class_of (after_index bytes.now (point_of place.now).index)) }
{
    matches!(class_at(bytes, place), Kind::Other)
}

// Whether a closing bracket ends here, by what stands behind it.
fn closes(place: &Cursor) -> bool
    requires { IsSome (code_at place.now) }
    ensures { result ≡ ends_bracket (code_at (moved place.now)) }
{
    matches!(
        place.next(),
        None | Some(b' ' | b'\t' | b'\n' | b'(' | b'[')
    )
}

// At a code that stands behind no `&`.
fn look_at_mark(bytes: &[u8], place: &Cursor, code: u8) -> Look
    requires text { IsText bytes.now place.now }
    requires begins { at_later (code_at place.now) ≡ false }
    requires code { code_at place.now ≡ Some code }
    ensures { IsLook bytes.now None place.now code result }
{
    if is_trail(code) {
        Look::GoesOn(None)
    } else if code == b'&' {
        Look::GoesOn(Some(false))
    } else if code == b'<' {
        Look::Ends(true)
    } else if code != b']' {
        Look::Ends(is_at_space(bytes, place))
    } else if closes(place) {
        Look::Ends(true)
    } else {
        Look::GoesOn(None)
    }
}

// At a code behind a `&`; `seen` says that letters stand between.
fn look_at_name(seen: bool, code: u8) -> Look
    ensures { result ≡ name_look seen code }
{
    if is_letter(code) {
        Look::GoesOn(Some(true))
    } else if seen && code == b';' {
        Look::GoesOn(None)
    } else {
        Look::Ends(false)
    }
}

// At this code; `name` says what stands before, as `Look` does.
fn look_at(bytes: &[u8], place: &Cursor, code: u8, name: Option<bool>) -> Look
    requires text { IsText bytes.now place.now }
    requires begins { at_later (code_at place.now) ≡ false }
    requires code { code_at place.now ≡ Some code }
    ensures { IsLook bytes.now name place.now code result }
{
    match name {
        None => look_at_mark(bytes, place, code),
        Some(seen) => look_at_name(seen, code),
    }
}

// Whether the rest of the content is trailing punctuation.
fn trails(bytes: &[u8], cursor: &Cursor) -> bool
    requires text { IsText bytes.now cursor.now }
    requires begins { at_later (code_at cursor.now) ≡ false }
    ensures { result ≡ trails_in bytes.now cursor.now.end.index None (ahead_at cursor.now) }
{
    let mut place = cursor.save();
    let mut name = None;
    while let Some(code) = place.current() {
        match look_at(bytes, &place, code, name) {
            Look::Ends(answer) => return answer,
            Look::GoesOn(next) => name = next,
        }
        place.consume();
    }
    match name {
        None => is_at_space(bytes, &place),
        Some(_) => false,
    }
}

// Whether this is a `.` or a `_`.
fn is_domain_mark(code: u8) -> bool
    ensures { result ≡ among_values (codes "._") code }
{
    matches!(code, b'.' | b'_')
}

// Whether this belongs to a domain wherever it stands.
fn is_plain(code: u8) -> bool
    ensures { result ≡ (code == byte "-" || later_value code) }
{
    matches!(code, b'-' | 0x80..=0xBF)
}

// Whether a domain goes on over the `.` or the `_` at the place. Where another one of it stands before, no trail begins here.
fn mark_goes_on(bytes: &[u8], place: &Cursor, behind_mark: bool) -> bool
    requires text { IsText bytes.now place.now }
    requires begins { at_later (code_at place.now) ≡ false }
    requires mark { behind_mark ≡ true → trails_in bytes.now place.now.end.index None (ahead_at place.now) ≡ false }
    ensures { result ≡ not (trails_in bytes.now place.now.end.index None (ahead_at place.now)) }
{
    behind_mark || !trails(bytes, place)
}

// Whether a domain goes on over this code, which is at the place. Where a `.` or a `_` of it stands before, no trail begins here.
fn goes_on(bytes: &[u8], place: &Cursor, code: u8, behind_mark: bool) -> bool
    requires text { IsText bytes.now place.now }
    requires code { code_at place.now ≡ Some code }
    requires mark { behind_mark ≡ true → trails_in bytes.now place.now.end.index None (ahead_at place.now) ≡ false }
    ensures { result ≡ goes_on bytes.now place.now }
{
    if is_domain_mark(code) {
        mark_goes_on(bytes, place, behind_mark)
    } else if is_plain(code) {
        true
    } else {
        is_at_other(bytes, place)
    }
}

// The code at the place, if a domain goes on over it.
fn domain_code(bytes: &[u8], place: &Cursor, behind_mark: bool) -> Option<u8>
    requires text { IsText bytes.now place.now }
    requires mark { behind_mark ≡ true → trails_in bytes.now place.now.end.index None (ahead_at place.now) ≡ false }
    ensures { result ≡ (if goes_on bytes.now place.now then code_at place.now else None) }
{
    match place.current() {
        Some(code) if goes_on(bytes, place, code, behind_mark) => Some(code),
        _ => None,
    }
}

// Behind a code of a domain, where so many codes stand before: how many stand before the place behind the last `_`, 0 without one, and how
// many dots behind it, two at most.
fn behind_code(code: u8, at: usize, barred: usize, dots: usize) -> (usize, usize)
    ensures { result ≡ behind_code code at barred dots }
{
    if code == b'_' {
        (at, 0)
    } else if code == b'.' && dots < 2 {
        (barred, dots + 1)
    } else {
        (barred, dots)
    }
}

// This, where fewer than two dots stand behind it.
fn near(barred: usize, dots: usize) -> usize
    ensures { result ≡ (if nat_lt dots 2 then barred else 0) }
{
    if dots < 2 { barred } else { 0 }
}

impl Outlook {
    // Of the domain that begins at the place.
    fn at(bytes: &[u8], cursor: &Cursor) -> Outlook
        requires { IsText bytes.now cursor.now }
        ensures end { result.end ≡ cursor.now.at + length (domain_at bytes.now cursor.now) }
        ensures barred { result.barred ≡ barred_by cursor.now.at 0 0 (domain_at bytes.now cursor.now) }
    {
        let mut place = cursor.save();
        let mut barred = 0;
        let mut dots = 0;
        let mut behind_mark = false;
        while let Some(code) = domain_code(bytes, &place, behind_mark) {
            place.consume();
            behind_mark = is_domain_mark(code);
            let at = place.passed();
            let behind = behind_code(code, at, barred, dots);
            barred = behind.0;
            dots = behind.1;
        }
        let end = place.passed();
        let barred = near(barred, dots);
        Outlook { end, barred }
    }

    // Of the domain over the place, which is read where it is not known yet.
    fn over(self, bytes: &[u8], place: &Cursor) -> Outlook
        requires text { IsText bytes.now place.now }
        requires known { ReachesOver bytes.now place.now self }
        ensures known { ReachesOver bytes.now place.now result }
        ensures here { DomainOutlook.is_barred bytes.now place.now.end.index (ahead_at place.now) ≡ nat_lt place.now.at result.barred }
    {
        if place.passed() < self.end {
            self
        } else {
            Outlook::at(bytes, place)
        }
    }
}

const UNDERSCORE: ByteTable = byte_table!(b'_');

// The bytes at which a walk over a content stops.
fn underscores() -> ByteSet
    ensures { result ≡ underscores }
{
    ByteSet::new(&UNDERSCORE)
}

// Moves to the next `_` or line ending, and answers the code there.
#[inline(always)]
fn seek(place: &mut Cursor, marks: &ByteSet) -> Option<u8>
    ensures place { place.new ≡ past_stretch marks.now place.old }
    ensures code { result ≡ code_at place.new }
{
    place.consume_stretch(marks);
    place.current()
}

// Whether a `w` is at the place.
fn is_at_www(place: &Cursor) -> bool
    ensures { result ≡ www_at (code_at place.now) }
{
    matches!(place.current(), Some(b'w' | b'W'))
}

// Whether a literal from `www.` on may begin at the place behind this code, which is a `_`.
fn opens(code: u8, behind: &Cursor) -> bool
    ensures { result ≡ (code == byte "_" && www_at (code_at behind.now)) }
{
    code == b'_' && is_at_www(behind)
}

/// Whether in the whole content a literal from `www.` on may begin behind a `_` at least so many times, by its first letter.
pub fn opens_often(cursor: &Cursor, times: usize) -> bool
    ensures { result ≡ nat_le times (DomainOutlook.openings cursor.now.codes) }
{
    let marks = underscores();
    let mut left = times;
    let mut place = cursor.restart();
    while left > 0 {
        let Some(code) = seek(&mut place, &marks) else {
            return false;
        };
        place.consume();
        if opens(code, &place) {
            left -= 1;
        }
    }
    true
}

/// The places behind a `_` in the whole content of a cursor at which no domain begins, and a literal from `www.` on may, by its first letter.
///
/// `Err` only if memory is refused.
pub fn no_domains(alloc: Global, bytes: &[u8], cursor: &Cursor) -> Result<PlaceIndex, AllocError>
    requires { IsText bytes.now cursor.now }
    ensures { IfOk result (λ places. places ≡ DomainOutlook.no_domains bytes.now cursor.now.end.index cursor.now.codes) }
{
    let marks = underscores();
    let mut places = Vec::new(alloc);
    let mut outlook = Outlook { end: 0, barred: 0 };
    let mut place = cursor.restart();
    while let Some(code) = seek(&mut place, &marks) {
        place.consume();
        if opens(code, &place) {
            outlook = outlook.over(bytes, &place);
            let at = place.passed();
            if at < outlook.barred {
                places.push(at)?;
            }
        }
    }
    Ok(PlaceIndex::new(places))
}
