//! The walk over events.
#![tactic(auto)]

ghost use Rattle.std.specs.Prelude.{◌≡◌, ◌≤◌, ◌<◌, ◌+◌, ◌^◌, ◌++◌, ◌&&◌, [], List, if◌then◌else◌, map, reverse, IfOk, IfSome, OnErr, OnOk, Option, drop, false, length, take, true, ℕ};
ghost use Rattle.std.specs.List.{All};
ghost use Rattle.markdown_content.specs.Content.{document_limit};
ghost use Rattle.markdown_content.specs.LabelTexts.{HasLabelTexts};
ghost use Rattle.markdown_content.specs.Tree.{Forest, events_from, events_of};
ghost use Rattle.markdown_passes.specs.TrimmedData.{IsStretch};
ghost use Rattle.markdown_innermost.specs.InnermostEvents.{innermost, IsSpanInOrder};
ghost use Rattle.markdown_html_model.specs.Html.{calls_behind, group_html, html, joined_parts, no_parts, own_calls, plain_text, plain_text_by, within_of, written};
ghost use Rattle.markdown_html_model.specs.Roles.{role_of};
ghost use Rattle.markdown_html_model.specs.OwnMarkup.{IsOwnMarkup};
ghost use Rattle.markdown_html.specs.View.{HasContent, open_view, page_from, page_of, parts_of, state_of};
ghost use Rattle.markdown_html.specs.EventWalk.{before_left, before_parts, before_with, closed_apart, closed_around, entered, exit_first, exited, filled_before, has_parts, is_apart, is_bare, is_leaf, is_light, is_silent, is_text_alone, keeps_inside, opened_by, rewritten, stepped, walked};

use crate::addresses::Given;
use crate::calls::push_call;
use crate::footnotes::FootnoteCalls;
use crate::found::{Found, string_of};
use crate::groups::{
    push_check, push_closing, push_image, push_link, push_math, push_opening, push_reference,
    push_span,
};
use crate::leaves::push_leaf_between;
use crate::references::{call_identifier, target};
use crate::stretch::bytes_between;
use crate::targets::Targets;
use markdown_content::configuration::ParseOptions;
use markdown_content::parser::{ParseState, Piece};
use markdown_engine_events::event_list::EventSlice;
use markdown_event::event::{Kind, Name, Point};
use markdown_html_model::options::HtmlOptions;
use markdown_html_model::resolve::{bytes_from, decoding_of};
use markdown_html_model::role::{Role, Within, role_of};
use markdown_util::decoding::Decoding;
use std::alloc::{AllocError, Global};
use std::mem;

// What is kept of something that is open.
#[derive(Clone, Copy)]
struct Entry {
    // Where its inside begins in what is written.
    start: usize,
    // Where it begins in the document.
    point: Point,
    // Where it stands.
    within: Within,
    // Whether `before` of the writer has what was found before it.
    kept: bool,
}

#[derive(Drop)]
struct Writer {
    out: Vec<u8>,
    // Where what comes next stands.
    within: Within,
    // What has been found inside the innermost that is open and has parts of its own.
    found: Found,
    // What is open, but for mere tags and texts.
    entries: Vec<Entry>,
    // What was found before those that are open and have parts of their own. Where nothing was found, there is none.
    before: Vec<Found>,
    calls: FootnoteCalls,
    // Room for an inside that is written anew.
    room: Vec<u8>,
    // Room for the string of the next destination or title.
    spare: Vec<u8>,
}

// Where the inside of something stands.
fn within_of(within: Within, role: Role) -> Within
    ensures { result ≡ within_of within role }
{
    match role {
        Role::Code | Role::Math | Role::Image | Role::Check | Role::Destination | Role::TitleText =>
            Within::InText,
        Role::Link => match within {
            Within::Outside => Within::InLink,
            other => other,
        },
        _ => within,
    }
}

// Whether the inside stays as it is written.
fn keeps_inside(role: Role) -> bool
    ensures { result ≡ keeps_inside role }
{
    match role {
        Role::Code | Role::Math | Role::Reference | Role::Footnote => false,
        Role::Link | Role::Image | Role::Check => false,
        Role::Destination | Role::TitleText | Role::Resource | Role::Tail => false,
        _ => true,
    }
}

// Whether something of this role is mere tags around its inside, or a text: no entry is kept of it while it is open.
fn is_light(role: Role) -> bool
    ensures { result ≡ is_light role }
{
    match role {
        Role::Plain | Role::LineEnd | Role::Break | Role::Raw | Role::Uri | Role::Email => true,
        Role::UriLiteral | Role::WwwLiteral | Role::EmailLiteral => true,
        Role::Emphasis | Role::Strong | Role::Strikethrough | Role::Silent => true,
        _ => false,
    }
}

// Whether something of this role has parts of its own: its surroundings find other parts in it than were found inside it.
pub(crate) fn is_apart(role: Role) -> bool
    ensures { result ≡ is_apart role }
{
    match role {
        Role::Link | Role::Image | Role::Footnote | Role::Label | Role::FullReference => true,
        Role::Destination | Role::TitleText | Role::Title | Role::Resource => true,
        _ => false,
    }
}

// Whether something of this role is written as its text.
fn is_leaf(role: Role) -> bool
    ensures { result ≡ is_leaf role }
{
    match role {
        Role::Plain | Role::LineEnd | Role::Break | Role::Raw | Role::Uri | Role::Email => true,
        Role::UriLiteral | Role::WwwLiteral | Role::EmailLiteral => true,
        _ => false,
    }
}

// Whether nothing is written of something of this role by itself.
fn is_silent(role: Role) -> bool
    ensures { result ≡ is_silent role }
{
    matches!(role, Role::Silent)
}

// Whether nothing is written at the ends of something of this role.
fn is_bare(role: Role) -> bool
    ensures { result ≡ is_bare role }
{
    is_leaf(role) || is_silent(role)
}

// The index behind an event of this name, if nothing is written at it, and else its own.
fn behind_bare(name: Name, index: usize) -> usize
    requires { index + 1 < 2 ^ 64 }
    ensures { result ≡ (if is_bare (role_of name) then index + 1 else index) }
{
    if is_bare(role_of(name)) {
        index + 1
    } else {
        index
    }
}

// Whether something is a link or an image of which the inside alone is written, as in the description of an image.
fn is_text_alone(within: Within, role: Role) -> bool
    ensures { result ≡ is_text_alone within role }
{
    matches!((within, role), (Within::InText, Role::Link | Role::Image))
}

// Takes what stands from an index on out of what is written, into `room`.
fn take_inside(out: &mut Vec<u8>, room: &mut Vec<u8>, start: usize) -> Result<(), AllocError>
    ensures out { OnOk result (out.new.items ≡ take start out.old.items) }
    ensures inside { OnOk result (room.new.items ≡ drop start out.old.items) }
{
    room.clear();
    room.extend_from_slice(bytes_from(out.as_slice(), start))?;
    out.truncate(start);
    Ok(())
}

// Replaces the inside of something, which is written from `entry.start` on, by what is written of the whole.
fn replace(
    alloc: Global,
    given: &Given,
    out: &mut Vec<u8>,
    room: &mut Vec<u8>,
    entry: Entry,
    role: Role,
    found: &Found,
) -> Result<(), AllocError>
    requires content { HasContent given.now }
    ensures { let inside = drop entry.start out.old.items in
        OnOk result (out.new.items ≡ take entry.start out.old.items ++ rewritten (page_of given.now) entry.within role inside (parts_of found.now)) }
{
    take_inside(out, room, entry.start)?;
    let inside = room.as_slice();
    match role {
        Role::Code => push_span(alloc, out, entry.within, b"<code>", inside),
        Role::Math => push_math(alloc, out, entry.within, inside),
        Role::Link => push_link(
            given,
            out,
            entry.within,
            target(alloc, given, found)?,
            inside,
        ),
        Role::Image => push_image(
            given,
            out,
            entry.within,
            target(alloc, given, found)?,
            inside,
        ),
        Role::Check => push_check(out, entry.within, inside),
        _ => Ok(()),
    }
}

// Whether what was found before something is set apart from what is found inside it.
fn sets_apart(role: Role, found: &Found) -> bool
    ensures { result ≡ is_apart role && has_parts (parts_of found.now) }
{
    is_apart(role) && found.has_parts()
}

// Sets what was found before something apart from what is found inside it, if it is to be kept.
fn set_apart(before: &mut Vec<Found>, found: &mut Found, kept: bool) -> Result<(), AllocError>
    ensures parts { OnOk result (parts_of found.new ≡ (if kept then no_parts else parts_of found.old)) }
    ensures before { OnOk result (reverse (map parts_of before.new.items) ≡ before_with kept (parts_of found.old) (reverse (map parts_of before.old.items))) }
{
    if kept {
        before.push(mem::replace(found, Found::nothing()))?;
    }
    Ok(())
}

// Adds what was found before something, if it was kept.
#[tactic(auto, using(crate::proofs::WalkTree::joined_first))]
fn join_before(before: &mut Vec<Found>, found: &mut Found, kept: bool)
    ensures parts { parts_of found.new ≡ joined_parts (before_parts kept (reverse (map parts_of before.old.items))) (parts_of found.old) }
    ensures before { reverse (map parts_of before.new.items) ≡ before_left kept (reverse (map parts_of before.old.items)) }
{
    if !kept {
        return;
    }
    if let Some(earlier) = before.pop() {
        found.join_behind(earlier);
    }
}

// Adds the call that something is, if it is one.
fn push_calls(
    calls: &mut FootnoteCalls,
    alloc: Global,
    given: &Given,
    role: Role,
    found: &Found,
) -> Result<(), AllocError>
    requires content { HasContent given.now }
    ensures { OnOk result (calls.new ≡ own_calls (page_of given.now) role (parts_of found.now) ++ calls.old) }
{
    match role {
        Role::Footnote => calls.push(call_identifier(alloc, given, found.label)?),
        _ => Ok(()),
    }
}

impl Writer {
    // Begins something of which an entry is kept.
    fn open(&mut self, role: Role, point: Point, kept: bool) -> Result<(), AllocError>
        ensures { OnOk result (state_of self.new ≡ opened_by (state_of self.old) role point kept) }
    {
        set_apart(&mut self.before, &mut self.found, kept)?;
        let entry = Entry {
            start: self.out.len(),
            point,
            within: self.within,
            kept,
        };
        self.within = within_of(self.within, role);
        self.entries.push(entry)?;
        Ok(())
    }

    #[tactic(auto, unfolding(crate::specs::EventWalk::entered))]
    fn enter(&mut self, role: Role, point: Point) -> Result<(), AllocError>
        ensures { OnOk result (state_of self.new ≡ entered (state_of self.old) role point) }
    {
        if is_light(role) {
            return push_opening(&mut self.out, self.within, role);
        }
        let kept = sets_apart(role, &self.found);
        self.open(role, point, kept)
    }

    // Writes a text, if its Exit stands at an index, right behind its Enter. Answers the index of the first event that is not done: behind that Exit, if
    // nothing is written at it.
    #[inline(always)]
    fn leaf(
        &mut self,
        alloc: Global,
        given: &Given,
        role: Role,
        from: Point,
        events: &EventSlice,
        index: usize,
    ) -> Result<usize, AllocError>
        requires index { index ≤ length events.now }
        requires fits { length given.now.bytes.now ≤ document_limit }
        requires in_order { IfSome (exit_first (drop index events.now)) (λ to. IsStretch given.now.bytes.now from to) }
        requires leaf { is_leaf role ≡ true }
        ensures low { IfOk result (λ next. index ≤ next) }
        ensures high { IfOk result (λ next. next ≤ length events.now) }
        ensures walk { let p = page_of given.now in let left = drop index events.now in
            IfOk result (λ next. walked p (state_of self.new) (drop next events.now) ≡ walked p (filled_before p (state_of self.old) role from left) left) }
    {
        if index == events.len() {
            return Ok(index);
        }
        let exit = events.at(index);
        match exit.kind {
            Kind::Enter => Ok(index),
            Kind::Exit => {
                push_leaf_between(
                    alloc,
                    given,
                    &mut self.out,
                    self.within,
                    role,
                    from,
                    exit.point,
                )?;
                Ok(behind_bare(exit.name, index))
            }
        }
    }

    // Ends something of which an entry was kept, around what was found inside it.
    #[tactic(auto, unfolding(crate::specs::EventWalk::closed_out))]
    #[inline(always)]
    fn close(
        &mut self,
        alloc: Global,
        given: &Given,
        role: Role,
        entry: Entry,
        to: Point,
    ) -> Result<(), AllocError>
        requires content { HasContent given.now }
        ensures { OnOk result (state_of self.new ≡ closed_around (page_of given.now) (state_of self.old) (open_view entry) role to) }
    {
        self.within = entry.within;
        if is_text_alone(entry.within, role) {
            return Ok(());
        }
        match role {
            Role::Code | Role::Math | Role::Link | Role::Image | Role::Check => replace(
                alloc,
                given,
                &mut self.out,
                &mut self.room,
                entry,
                role,
                &self.found,
            ),
            Role::Destination | Role::TitleText | Role::Resource | Role::Tail => {
                self.out.truncate(entry.start);
                Ok(())
            }
            Role::Reference => {
                self.out.truncate(entry.start);
                let text = bytes_between(given.bytes, entry.point.index, to.index);
                push_reference(
                    alloc,
                    given,
                    &mut self.out,
                    &mut self.room,
                    entry.within,
                    text,
                )
            }
            Role::Footnote => {
                self.out.truncate(entry.start);
                push_call(
                    alloc,
                    given,
                    &self.calls,
                    &mut self.out,
                    entry.within,
                    self.found.label,
                )
            }
            _ => push_closing(&mut self.out, entry.within, role),
        }
    }

    // Ends something that has parts of its own.
    #[tactic(auto, unfolding(crate::specs::EventWalk::closed_apart))]
    fn exit_apart(
        &mut self,
        alloc: Global,
        given: &Given,
        role: Role,
        entry: Entry,
        to: Point,
    ) -> Result<(), AllocError>
        requires content { HasContent given.now }
        ensures { let s = state_of self.old in OnOk result (state_of self.new ≡ closed_apart (page_of given.now) s (open_view entry) role to) }
    {
        let string = string_of(
            alloc,
            given.decoding,
            role,
            bytes_from(self.out.as_slice(), entry.start),
            &mut self.spare,
        )?;
        self.close(alloc, given, role, entry, to)?;
        push_calls(&mut self.calls, alloc, given, role, &self.found)?;
        self.found
            .make_own(alloc, role, entry.point, to, string, &mut self.spare);
        join_before(&mut self.before, &mut self.found, entry.kept);
        Ok(())
    }

    #[tactic(auto, unfolding(crate::specs::EventWalk::exited))]
    fn exit(
        &mut self,
        alloc: Global,
        given: &Given,
        role: Role,
        to: Point,
    ) -> Result<(), AllocError>
        requires content { HasContent given.now }
        ensures { OnOk result (state_of self.new ≡ exited (page_of given.now) (state_of self.old) role to) }
    {
        if is_light(role) {
            return push_closing(&mut self.out, self.within, role);
        }
        let Some(entry) = self.entries.pop() else {
            return Ok(());
        };
        if is_apart(role) {
            return self.exit_apart(alloc, given, role, entry, to);
        }
        self.close(alloc, given, role, entry, to)
    }
}

// Writes the HTML of the event at an index. Answers the index of the first event that is not done.
#[inline(always)]
fn step(
    writer: &mut Writer,
    alloc: Global,
    given: &Given,
    events: &EventSlice,
    index: usize,
) -> Result<usize, AllocError>
    requires content { HasContent given.now }
    requires fits { length given.now.bytes.now ≤ document_limit }
    requires places { All (IsSpanInOrder given.now.bytes.now) (innermost events.now) }
    requires index { index < length events.now }
    requires small { index + 1 < 2 ^ 64 }
    ensures low { IfOk result (λ next. index < next) }
    ensures high { IfOk result (λ next. next ≤ length events.now) }
    ensures walk { let p = page_of given.now in
        IfOk result (λ next. walked p (state_of writer.new) (drop next events.now) ≡ walked p (state_of writer.old) (drop index events.now)) }
{
    let event = events.at(index);
    let role = role_of(event.name);
    if is_silent(role) {
        return Ok(index + 1);
    }
    match event.kind {
        Kind::Exit => writer.exit(alloc, given, role, event.point)?,
        Kind::Enter if is_leaf(role) => {
            return writer.leaf(alloc, given, role, event.point, events, index + 1);
        }
        Kind::Enter => writer.enter(role, event.point)?,
    }
    Ok(index + 1)
}

// Writes trees that stand somewhere, behind what is written and the calls before them.
fn written(
    alloc: Global,
    given: &Given,
    out: Vec<u8>,
    calls: FootnoteCalls,
    within: Within,
    events: &EventSlice,
) -> Result<Writer, AllocError>
    requires content { HasContent given.now }
    requires fits { length given.now.bytes.now ≤ document_limit }
    requires places { All (IsSpanInOrder given.now.bytes.now) (innermost events.now) }
    ensures { (n : ℕ) (previous : Option ℕ) (t : Forest) → events.now ≡ events_from n previous t → IfOk result (λ writer. let w = written (page_of given.now) calls within t in (writer.out.items ≡ out.items ++ w.html) × (writer.calls ≡ w.calls ++ calls)) }
{
    let mut writer = Writer {
        out,
        within,
        found: Found::nothing(),
        entries: Vec::new(alloc),
        before: Vec::new(alloc),
        calls,
        room: Vec::new(alloc),
        spare: Vec::new(alloc),
    };
    let mut index = 0;
    while index < events.len() {
        index = step(&mut writer, alloc, given, events, index)?;
    }
    Ok(writer)
}

/// Appends the HTML of the tree whose events these are, over the bytes of a document.
///
/// The call takes what [`to_html`] takes, and appends what that returns. So the contents of a document are written one behind the other into one vector, and
/// need none of their own.
///
/// The error comes only where memory is refused. After it `out` is empty and there are no calls, and the document has to be written anew.
pub fn push_html(
    alloc: Global,
    out: &mut Vec<u8>,
    parse_state: &ParseState,
    pieces: &[Piece],
    events: &EventSlice,
    definitions: &Targets,
    calls: &mut FootnoteCalls,
    options: HtmlOptions,
) -> Result<(), AllocError>
    requires fits { length parse_state.now.bytes.now ≤ document_limit }
    requires content { HasLabelTexts parse_state.now.options.now parse_state.now.bytes.now pieces.now }
    requires places { All (IsSpanInOrder parse_state.now.bytes.now) (innermost events.now) }
    ensures exact { (t : Forest) → events.now ≡ events_of t → OnOk result (out.new.items ≡ out.old.items ++ html (page_from parse_state.now pieces.now definitions.now options) calls.old t) }
    ensures calls { (t : Forest) → events.now ≡ events_of t → OnOk result (calls.new ≡ calls_behind (page_from parse_state.now pieces.now definitions.now options) calls.old t) }
    ensures err { OnErr result ((out.new.items ≡ []) × (calls.new ≡ [])) }
{
    let given = Given {
        bytes: parse_state.bytes,
        pieces,
        rules: parse_state.options.rules(),
        footnotes_on: parse_state.options.constructs.gfm_label_start_footnote,
        decoding: decoding_of(parse_state.options),
        definitions,
        options,
    };
    let earlier = mem::replace(out, Vec::new(alloc));
    let before = mem::replace(calls, FootnoteCalls::new(alloc));
    let writer = written(alloc, &given, earlier, before, Within::Outside, events)?;
    *out = writer.out;
    *calls = writer.calls;
    Ok(())
}

/// The HTML of the tree whose events these are, over the bytes of a document.
///
/// The events are those of a run over these pieces with this parse state, of which the bytes and the options are read. A reference leads to the first
/// definition with its identifier, and to an empty address where there is none.
///
/// A footnote call is written with its number in the document. So one `FootnoteCalls` is handed to the contents of a document one after the other. It then has the
/// calls of this content too; after an error it has none, and the document has to be written anew.
///
/// Each reference takes time in proportion to its text, and to the logarithm of how many definitions there are. All else takes time and memory in proportion
/// to the events, their text, and what is written.
///
/// With raw HTML off no text becomes markup: what is written is text without `<`, `>` and `"`, and elements of a list, balanced and nested. Where `any_link`
/// is off too, each `href` and `src` in it is empty, relative, or of a listed scheme, as a browser reads it.
///
/// The error comes only where memory is refused.
pub fn to_html(
    alloc: Global,
    parse_state: &ParseState,
    pieces: &[Piece],
    events: &EventSlice,
    definitions: &Targets,
    calls: &mut FootnoteCalls,
    options: HtmlOptions,
) -> Result<Vec<u8>, AllocError>
    requires fits { length parse_state.now.bytes.now ≤ document_limit }
    requires content { HasLabelTexts parse_state.now.options.now parse_state.now.bytes.now pieces.now }
    requires places { All (IsSpanInOrder parse_state.now.bytes.now) (innermost events.now) }
    ensures exact { (t : Forest) → events.now ≡ events_of t → IfOk result (λ written. written.items ≡ html (page_from parse_state.now pieces.now definitions.now options) calls.old t) }
    ensures calls { (t : Forest) → events.now ≡ events_of t → OnOk result (calls.new ≡ calls_behind (page_from parse_state.now pieces.now definitions.now options) calls.old t) }
    ensures err { OnErr result (calls.new ≡ []) }
    ensures own { (t : Forest) → events.now ≡ events_of t → options.raw_html ≡ false → IfOk result (λ written. IsOwnMarkup true written.items) }
    ensures safe { (t : Forest) → events.now ≡ events_of t → options.raw_html ≡ false → options.any_link ≡ false → IfOk result (λ written. IsOwnMarkup false written.items) }
{
    let mut out = Vec::new(alloc);
    push_html(
        alloc,
        &mut out,
        parse_state,
        pieces,
        events,
        definitions,
        calls,
        options,
    )?;
    Ok(out)
}

/// The text of the trees whose events these are, over the bytes of a document, as the description of an image has it (CommonMark 6.4).
///
/// Escapes and character references are resolved, references as without any option: [`text_by`] is for events of a run with options that say otherwise. No
/// markup is left. The destinations and titles of links are no part of it. The events are those of a run over these bytes, of all that stands inside a
/// node, or of a node and its later siblings.
///
/// The error comes only where memory is refused.
pub fn text_of(alloc: Global, bytes: &[u8], events: &EventSlice) -> Result<Vec<u8>, AllocError>
    requires fits { length bytes.now ≤ document_limit }
    requires places { All (IsSpanInOrder bytes.now) (innermost events.now) }
    ensures { (n : ℕ) (previous : Option ℕ) (t : Forest) → events.now ≡ events_from n previous t
        → IfOk result (λ text. text.items ≡ plain_text bytes.now t) }
{
    text_by(alloc, Decoding::shipped(), bytes, events)
}

/// The text of these trees as [`text_of`] has it, with references decoded in this way. `decoding_of` says which way that is under the options of the run.
///
/// The error comes only where memory is refused.
#[tactic(auto, unfolding(markdown_content::specs::CommonMark::rules_of))]
pub fn text_by(
    alloc: Global,
    how: Decoding,
    bytes: &[u8],
    events: &EventSlice,
) -> Result<Vec<u8>, AllocError>
    requires fits { length bytes.now ≤ document_limit }
    requires places { All (IsSpanInOrder bytes.now) (innermost events.now) }
    ensures { (n : ℕ) (previous : Option ℕ) (t : Forest) → events.now ≡ events_from n previous t
        → IfOk result (λ text. text.items ≡ plain_text_by how bytes.now t) }
{
    let definitions = Targets::new(alloc);
    let given = Given {
        bytes,
        pieces: &[],
        rules: ParseOptions::default().rules(),
        footnotes_on: false,
        decoding: how,
        definitions: &definitions,
        options: HtmlOptions::safe(),
    };
    let (out, calls) = (Vec::new(alloc), FootnoteCalls::new(alloc));
    Ok(written(alloc, &given, out, calls, Within::InText, events)?.out)
}
