//! How much definitions bring to a text.
#![tactic(auto)]

ghost use Rattle.std.specs.Prelude.{◌≡◌, ◌≤◌, ◌<◌, ◌+◌, ◌^◌, IfOk, OnOk, drop, length};
ghost use Rattle.markdown_content.specs.LabelTexts.{HasLabelTexts};
ghost use Rattle.markdown_content.specs.Tree.{Forest, events_of};
ghost use Rattle.markdown_html_model.specs.Html.{Page};
ghost use Rattle.markdown_html.specs.Brought.{brought, left_of, target_bytes};
ghost use Rattle.markdown_html.specs.BroughtWalk.{Counted, brought_where, count_of, counted, counted_close, counted_enter, counted_step, joined_seen, nothing_seen, own_seen, seen_brought};
ghost use Rattle.markdown_html.specs.View.{HasContent, page_from, page_of, target_view};

use crate::addresses::Given;
use crate::references::reference_target;
use crate::targets::{Goal, Targets};
use crate::writer::is_apart;
use markdown_content::parser::{ParseState, Piece};
use markdown_engine_events::event_list::EventSlice;
use markdown_event::event::{Event, Kind};
use markdown_html_model::options::HtmlOptions;
use markdown_html_model::resolve::decoding_of;
use markdown_html_model::role::{Role, role_of};
use std::alloc::{AllocError, Global};

// What has been seen of a link or an image so far: whether it has a destination of its own, and where the texts of its label and of a full reference stand.
#[derive(Clone, Copy)]
struct Seen {
    has_destination: bool,
    label: Option<(usize, usize)>,
    reference: Option<(usize, usize)>,
}

// What is kept of something that is open and has parts of its own.
#[derive(Clone, Copy)]
struct Before {
    // The byte at which it begins.
    from: usize,
    // What was seen before it.
    seen: Seen,
}

#[derive(Drop)]
struct Count {
    // What has been seen inside the innermost that is open and has parts of its own.
    seen: Seen,
    opened: Vec<Before>,
    // How many bytes may still be brought; none where more were.
    left: Option<usize>,
}

impl Seen {
    fn nothing() -> Seen
        ensures { result ≡ nothing_seen }
    {
        Seen {
            has_destination: false,
            label: None,
            reference: None,
        }
    }

    // What is seen of siblings, of which these are the earlier ones. What comes later counts.
    fn joined(self, later: Seen) -> Seen
        ensures { result ≡ joined_seen self later }
    {
        Seen {
            has_destination: later.has_destination || self.has_destination,
            label: later.label.or(self.label),
            reference: later.reference.or(self.reference),
        }
    }

    // What is seen up to the end of something, where this is seen inside it.
    fn around(self, before: Seen, role: Role, from: usize, to: usize) -> Seen
        ensures { result ≡ joined_seen before (own_seen role from to self) }
    {
        match role {
            Role::Destination => Seen {
                has_destination: true,
                ..before
            },
            Role::Resource => before.joined(Seen {
                has_destination: true,
                ..self
            }),
            Role::Label => Seen {
                label: Some((from, to)),
                ..before
            },
            Role::FullReference => Seen {
                reference: Some((from, to)),
                ..before
            },
            Role::TitleText | Role::Link | Role::Image | Role::Footnote => before,
            _ => before.joined(self),
        }
    }
}

// What is left of so many bytes where a destination and a title take theirs, if there are as many.
fn without(left: usize, goal: Goal) -> Option<usize>
    ensures { result ≡ left_of (Some left) (target_bytes (target_view goal.entry)) }
{
    let title = match goal.title {
        Some(title) => title.len(),
        None => 0,
    };
    left.checked_sub(goal.destination.len())?.checked_sub(title)
}

// What is left where a link or an image in which this is seen takes what a definition brings to it.
fn left_by_reference(
    alloc: Global,
    given: &Given,
    seen: Seen,
    left: usize,
) -> Result<Option<usize>, AllocError>
    requires content { HasContent given.now }
    ensures { IfOk result (λ rest. rest ≡ left_of (Some left) (brought_where (page_of given.now) seen)) }
{
    if seen.has_destination {
        return Ok(Some(left));
    }
    let goal = reference_target(alloc, given, seen.label, seen.reference)?;
    Ok(without(left, goal))
}

// What is left where something in which this is seen takes what a definition brings to it.
fn left_by(
    alloc: Global,
    given: &Given,
    role: Role,
    seen: Seen,
    left: Option<usize>,
) -> Result<Option<usize>, AllocError>
    requires content { HasContent given.now }
    ensures { IfOk result (λ rest. rest ≡ left_of left (seen_brought (page_of given.now) role seen)) }
{
    match (role, left) {
        (Role::Link | Role::Image, Some(left)) => left_by_reference(alloc, given, seen, left),
        _ => Ok(left),
    }
}

impl Count {
    // Begins something that has parts of its own.
    fn enter(&mut self, at: usize) -> Result<(), AllocError>
        ensures { OnOk result (count_of self.new ≡ counted_enter (count_of self.old) at) }
    {
        self.opened.push(Before {
            from: at,
            seen: self.seen,
        })?;
        self.seen = Seen::nothing();
        Ok(())
    }

    // Ends something that has parts of its own.
    fn exit(
        &mut self,
        alloc: Global,
        given: &Given,
        role: Role,
        to: usize,
    ) -> Result<(), AllocError>
        requires content { HasContent given.now }
        ensures { let s = count_of self.old in OnOk result (count_of self.new ≡ counted_close (page_of given.now) s s.opened role to) }
    {
        let Some(before) = self.opened.pop() else {
            return Ok(());
        };
        self.left = left_by(alloc, given, role, self.seen, self.left)?;
        self.seen = self.seen.around(before.seen, role, before.from, to);
        Ok(())
    }

    // Passes one event.
    fn step(&mut self, alloc: Global, given: &Given, event: &Event) -> Result<(), AllocError>
        requires content { HasContent given.now }
        ensures { OnOk result (count_of self.new ≡ counted_step (page_of given.now) (count_of self.old) event.now) }
    {
        let role = role_of(event.name);
        if !is_apart(role) {
            return Ok(());
        }
        match event.kind {
            Kind::Enter => self.enter(event.point.index),
            Kind::Exit => self.exit(alloc, given, role, event.point.index),
        }
    }
}

// How many events are looked at with no other look between.
const FOUR: usize = 4;

// How many of the four events from an index on come before the first that has parts of its own. They change nothing.
#[inline(always)]
fn others_among_four(events: &EventSlice, at: usize) -> usize
    requires within { at + FOUR ≤ length events.now }
    requires small { at + FOUR < 2 ^ 64 }
    ensures within { result ≤ FOUR }
    ensures same { (p : Page) (s : Counted) → counted p s (drop (at + result) events.now) ≡ counted p s (drop at events.now) }
{
    for count in 0..FOUR {
        if is_apart(role_of(events.at(at + count).name)) {
            return count;
        }
    }
    FOUR
}

// The index of the first event from an index on that has parts of its own, or of one before it, where fewer than four are left. What comes before changes
// nothing.
#[inline(always)]
fn next_apart(events: &EventSlice, from: usize) -> usize
    requires { from ≤ length events.now }
    ensures low { from ≤ result }
    ensures high { result ≤ length events.now }
    ensures same { (p : Page) (s : Counted) → counted p s (drop result events.now) ≡ counted p s (drop from events.now) }
{
    let mut index = from;
    while events.len() - index >= FOUR {
        let others = others_among_four(events, index);
        index += others;
        if others < FOUR {
            return index;
        }
    }
    index
}

/// What is left of a limit on what definitions bring to the tree whose events these are; none where they bring more.
///
/// A definition brings the bytes of its destination and of its title to each link and image that refers to it, also to one in the description of an image. So
/// n references to one definition of n bytes bring n * n bytes, and HTML that has them is not bounded by the document: this call finds it out before `to_html`
/// writes them. What stands in a resource is brought by no definition.
///
/// What is handed in is what `to_html` takes. Each reference takes time in proportion to its text, and to the logarithm of how many definitions there are; all
/// else takes time in proportion to the events, and memory to how deep they are nested.
///
/// The error comes only where memory is refused.
pub fn left_of_limit(
    alloc: Global,
    parse_state: &ParseState,
    pieces: &[Piece],
    events: &EventSlice,
    definitions: &Targets,
    options: HtmlOptions,
    limit: usize,
) -> Result<Option<usize>, AllocError>
    requires content { HasLabelTexts parse_state.now.options.now parse_state.now.bytes.now pieces.now }
    ensures { let page = page_from parse_state.now pieces.now definitions.now options in
        (t : Forest) → events.now ≡ events_of t → IfOk result (λ left. left ≡ left_of (Some limit) (brought page t)) }
{
    let given = Given {
        bytes: parse_state.bytes,
        pieces,
        rules: parse_state.options.rules(),
        footnotes_on: parse_state.options.constructs.gfm_label_start_footnote,
        decoding: decoding_of(parse_state.options),
        definitions,
        options,
    };
    let mut count = Count {
        seen: Seen::nothing(),
        opened: Vec::new(alloc),
        left: Some(limit),
    };
    let mut index = next_apart(events, 0);
    while index < events.len() {
        let event = events.at(index);
        count.step(alloc, &given, &event)?;
        index = next_apart(events, index + 1);
    }
    Ok(count.left)
}
