//! Email literals in a stretch of codes.
//!
//! GFM 6.9: what stands before an `@` is kept while the codes are passed, so that none is read again from the `@`.
#![tactic(auto)]

ghost use Rattle.std.specs.Prelude.{◌≡◌, ◌≤◌, ◌<◌, ◌++◌, List, ℕ, ◌==◌, if◌then◌else◌, length, false, IfOk, OnOk};
ghost use Rattle.std.specs.Str.{byte};
ghost use Rattle.markdown_content.specs.Content.{document_limit};
ghost use Rattle.markdown_content.specs.DocumentWalk.{IsPoint, next_point};
ghost use Rattle.markdown_event.specs.declared.event.Name.TheVariants as N;
ghost use Rattle.markdown_model.specs.CodeTests.{is_alphanumeric, next_is};
ghost use Rattle.markdown_model.specs.GfmEmailLiteral.{is_xmpp};
ghost use Rattle.markdown_passes.specs.TrimmedData.{between, is_same_place, IsStretch};
ghost use Rattle.markdown_passes.specs.EmailScan.{has_sign, local_value, is_letter_of, is_word_of, is_email, word_name, scan_at, domain_value, passes, domain_end, is_sign, literal_here, literal_events, mail_events};

use crate::partial_whitespace::{is_same_place, push_leaf};
use markdown_content::walk::{code_from, past_code};
use markdown_event::event::{Event, Name, Point};
use markdown_plan::bytes::{is_alphanumeric, is_letter};
use std::alloc::{AllocError, Global};

// How far a stretch is read, and what a literal needs to know of its codes so far.
#[derive(Clone, Copy)]
struct Scan {
    // Where the data at hand begins: at the stretch's start, or where the last literal ends.
    from: Point,
    // How far it is read.
    point: Point,
    // Where the letters and digits right before that begin.
    word: Point,
    // A code of a local part stands right before.
    local: bool,
    // The local part stands after a `/`.
    after_slash: bool,
    // The name of a literal with this local part.
    name: Name,
    // Where that literal begins.
    start: Point,
}

// A literal that is found.
#[derive(Clone, Copy)]
struct Literal {
    name: Name,
    start: Point,
    end: Point,
}

// Whether an `@` stands among the codes of a stretch: among its bytes, since no other byte is the code `@`.
#[inline(always)]
pub(crate) fn has_sign(bytes: &[u8], from: Point, to: Point) -> bool
    requires fits { length bytes.now ≤ document_limit }
    requires stretch { IsStretch bytes.now from to }
    ensures { result ≡ has_sign bytes.now from to }
{
    bytes[from.index..to.index].contains(&b'@')
}

// Nothing stands before the start of data.
fn scan_from(from: Point) -> Scan
    ensures { (bytes : List ℕ) → IsPoint bytes from → result ≡ scan_at bytes from from }
{
    Scan {
        from,
        point: from,
        word: from,
        local: false,
        after_slash: false,
        name: Name::GfmAutolinkLiteralEmail,
        start: from,
    }
}

// Whether this may stand in a local part.
fn is_local(code: u8) -> bool
    ensures { result ≡ local_value code }
{
    is_alphanumeric(code) || matches!(code, b'+' | b'-' | b'.' | b'_')
}

// Whether the code is this lower-case letter, in either case.
fn is_letter_of(letter: u8, code: u8) -> bool
    ensures { result ≡ is_letter_of letter code }
{
    code == letter || (is_letter(code) && code + 32 == letter)
}

// Whether the codes of a stretch are this word, whose letters are lower case, in either case.
fn is_word(bytes: &[u8], from: Point, to: Point, word: &[u8]) -> bool
    requires fits { length bytes.now ≤ document_limit }
    requires stretch { IsStretch bytes.now from to }
    ensures { result ≡ is_word_of word.now (between bytes.now from to) }
{
    let mut point = from;
    for letter in word {
        if is_same_place(point, to) || !is_letter_of(*letter, code_from(bytes, point)) {
            return false;
        }
        point = past_code(bytes, point);
    }
    is_same_place(point, to)
}

// The name of a literal whose local part stands after these letters and digits and a colon.
fn word_name(bytes: &[u8], from: Point, to: Point) -> Name
    requires fits { length bytes.now ≤ document_limit }
    requires stretch { IsStretch bytes.now from to }
    ensures { result ≡ word_name (between bytes.now from to) }
{
    if is_word(bytes, from, to, b"mailto") {
        Name::GfmAutolinkLiteralMailto
    } else if is_word(bytes, from, to, b"xmpp") {
        Name::GfmAutolinkLiteralXmpp
    } else {
        Name::GfmAutolinkLiteralEmail
    }
}

// The name of a literal whose local part begins behind the code at hand.
fn name_behind(bytes: &[u8], scan: &Scan, code: u8) -> Name
    requires fits { length bytes.now ≤ document_limit }
    requires stretch { IsStretch bytes.now scan.now.word scan.now.point }
    ensures { result ≡ (if code == byte ":" then word_name (between bytes.now scan.now.word scan.now.point) else N.GfmAutolinkLiteralEmail) }
{
    if code == b':' {
        word_name(bytes, scan.word, scan.point)
    } else {
        Name::GfmAutolinkLiteralEmail
    }
}

// Whether this is a literal without a protocol.
fn is_email(name: Name) -> bool
    ensures { result ≡ is_email name }
{
    matches!(name, Name::GfmAutolinkLiteralEmail)
}

// Whether slashes may stand in the domain of this literal.
fn is_xmpp(name: Name) -> bool
    ensures { result ≡ is_xmpp name }
{
    matches!(name, Name::GfmAutolinkLiteralXmpp)
}

// What an `@` behind the code at hand needs to know.
fn passed(bytes: &[u8], scan: Scan) -> Scan
    requires fits { length bytes.now ≤ document_limit }
    requires stretch { IsStretch bytes.now scan.from scan.point }
    requires begins { scan.point.index < length bytes.now }
    requires read { scan ≡ scan_at bytes.now scan.from scan.point }
    ensures { result ≡ scan_at bytes.now scan.from (next_point bytes.now scan.point) }
{
    let code = code_from(bytes, scan.point);
    let point = past_code(bytes, scan.point);
    if is_local(code) {
        let word = if is_alphanumeric(code) {
            scan.word
        } else {
            point
        };
        return Scan {
            point,
            word,
            local: true,
            ..scan
        };
    }
    let name = name_behind(bytes, &scan, code);
    let start = if is_email(name) { point } else { scan.word };
    Scan {
        from: scan.from,
        point,
        word: point,
        local: false,
        after_slash: code == b'/',
        name,
        start,
    }
}

// Whether this belongs to a domain: a dot only where a letter or digit follows, a slash only where that is asked.
fn is_domain(code: u8, slashes: bool, follows: bool) -> bool
    ensures { result ≡ domain_value slashes follows code }
{
    is_alphanumeric(code)
        || matches!(code, b'-' | b'_')
        || (slashes && code == b'/')
        || (code == b'.' && follows)
}

// Whether a letter or digit begins this stretch.
fn is_word_next(bytes: &[u8], point: Point, to: Point) -> bool
    requires fits { length bytes.now ≤ document_limit }
    requires stretch { IsStretch bytes.now point to }
    ensures { result ≡ next_is is_alphanumeric (between bytes.now point to) }
{
    !is_same_place(point, to) && is_alphanumeric(code_from(bytes, point))
}

// Whether the first code of this stretch belongs to a domain.
fn is_domain_next(bytes: &[u8], point: Point, to: Point, slashes: bool) -> bool
    requires fits { length bytes.now ≤ document_limit }
    requires stretch { IsStretch bytes.now point to }
    ensures { result ≡ passes slashes (between bytes.now point to) }
{
    if is_same_place(point, to) {
        return false;
    }
    let follows = is_word_next(bytes, past_code(bytes, point), to);
    is_domain(code_from(bytes, point), slashes, follows)
}

// Where the domain ends that begins here, if it has a dot and a letter last.
fn domain_end(bytes: &[u8], from: Point, to: Point, slashes: bool) -> Option<Point>
    requires fits { length bytes.now ≤ document_limit }
    requires stretch { IsStretch bytes.now from to }
    ensures { result ≡ domain_end slashes from (between bytes.now from to) }
{
    let mut point = from;
    let mut dot = false;
    let mut letter = false;
    while is_domain_next(bytes, point, to, slashes) {
        let code = code_from(bytes, point);
        dot = dot || code == b'.';
        letter = is_letter(code);
        point = past_code(bytes, point);
    }
    if dot && letter { Some(point) } else { None }
}

// Whether this is an `@` with a local part before it that stands after no `/`.
fn is_sign(code: u8, scan: &Scan) -> bool
    ensures { result ≡ is_sign scan.now code }
{
    code == b'@' && scan.local && !scan.after_slash
}

// The literal whose `@` is the code at hand.
fn literal_here(bytes: &[u8], scan: &Scan, to: Point) -> Option<Literal>
    requires fits { length bytes.now ≤ document_limit }
    requires stretch { IsStretch bytes.now scan.now.point to }
    requires begins { is_same_place scan.now.point to ≡ false }
    ensures { result ≡ literal_here scan.now (between bytes.now scan.now.point to) }
{
    if !is_sign(code_from(bytes, scan.point), scan) {
        return None;
    }
    let end = domain_end(bytes, past_code(bytes, scan.point), to, is_xmpp(scan.name))?;
    Some(Literal {
        name: scan.name,
        start: scan.start,
        end,
    })
}

// Appends the events of a literal, and before it those of the data that begins here.
fn push_literal(events: &mut Vec<Event>, from: Point, literal: Literal) -> Result<(), AllocError>
    ensures { OnOk result (events.new.items ≡ events.old.items ++ literal_events from literal) }
{
    push_leaf(events, Name::Data, from, literal.start)?;
    push_leaf(events, literal.name, literal.start, literal.end)
}

// Answers the events of data: its email literals, and the data between them.
pub(crate) fn mailed_data(
    alloc: Global,
    bytes: &[u8],
    from: Point,
    to: Point,
) -> Result<Vec<Event>, AllocError>
    requires fits { length bytes.now ≤ document_limit }
    requires stretch { IsStretch bytes.now from to }
    ensures { IfOk result (λ v. v.items ≡ mail_events bytes.now from to) }
{
    let mut events = Vec::new(alloc);
    let mut scan = scan_from(from);
    while !is_same_place(scan.point, to) {
        if let Some(literal) = literal_here(bytes, &scan, to) {
            push_literal(&mut events, scan.from, literal)?;
            scan = scan_from(literal.end);
        } else {
            scan = passed(bytes, scan);
        }
    }
    push_leaf(&mut events, Name::Data, scan.from, to)?;
    Ok(events)
}
