//! The pass of email literals: addresses that stand bare in text (GFM 6.9).
//!
//!     email_literal ::= (('mailto' | 'xmpp') ':')? local+ '@' domain
//!     local ::= letter | digit | '+' | '-' | '.' | '_'
//!     domain ::= (letter | digit | '-' | '_' | '.' | '/')+     a '.' before letter or digit, a '/' with 'xmpp' alone
//!
//! The codes on both sides of the `@` are as many as there are, with no `/` before them. The domain holds a `.` and ends with a letter. The
//! protocol is a whole word, in either case. Literals are found from the left, and none reaches into the one before.
//!
//! Events: data that carries no link and stands in no link becomes
//!
//!     Data                          what is left between literals
//!     GfmAutolinkLiteralEmail       a literal without a protocol
//!     GfmAutolinkLiteralMailto      one with `mailto:`
//!     GfmAutolinkLiteralXmpp        one with `xmpp:`
//!
//! Example: in `to a@b.c.` the literal is `a@b.c`.
//!
//! Definition: `with_emails_apart` in `markdown_model/specs/Passes.antt`, by `with_emails` in `GfmEmailLiteral.antt`.
#![tactic(auto)]

ghost use Rattle.std.specs.Prelude.{◌≡◌, ◌<◌, ◌≤◌, ◌+◌, ◌^◌, ◌++◌, ◌-◌, [], ℕ, None, length, take, drop, OnOk, OnErr, IsTrue, true, false, slice_index_or};
ghost use Rattle.markdown_content.specs.Content.{document_limit};
ghost use Rattle.markdown_engine.specs.PastTree.{appended_from};
ghost use Rattle.markdown_content.specs.Tree.{Forest};
ghost use Rattle.markdown_model.specs.Passes.{with_emails_apart};
ghost use Rattle.markdown_passes.specs.MergedEvents.{opens_data};
ghost use Rattle.markdown_passes.specs.TrimmedEvents.{FirstDataHasPlaces, HasPlaces, HasParts};
ghost use Rattle.markdown_passes.specs.EmailEdits.{begins_signed, links_after, links_past, mail_first, mails};
ghost use Rattle.markdown_passes.specs.ClearStretch.{IsClear};

use crate::clear::{self, Clear, clear_at_first};
use crate::literal::{has_sign, mailed_data};
use crate::partial_data::{next_data, opens_data};
use markdown_engine::tokenizer::Tokenizer;
use markdown_engine_events::events::Events;
use markdown_engine_events::util::edit_map::EditMap;
use markdown_event::event::{Event, Kind, Name};
use std::alloc::{AllocError, Global};

// How many links are open behind an event, where so many are open before it. The name is looked at first, since most events have another.
fn links_after(links: usize, event: &Event) -> usize
    requires { links + 1 < 2 ^ 64 }
    ensures after { result ≡ links_after links event.now }
    ensures few { result ≤ links + 1 }
{
    if !matches!(event.name, Name::Link) {
        return links;
    }
    match event.kind {
        Kind::Enter => links + 1,
        Kind::Exit => links.saturating_sub(1),
    }
}

// Where data with an `@` begins at this event, outside links: puts its events with their literals in place of its own.
fn mail_first(
    alloc: Global,
    bytes: &[u8],
    events: &Events,
    map: &mut EditMap,
    index: usize,
    links: usize,
) -> Result<(), AllocError>
    requires fits { length bytes.now ≤ document_limit }
    requires within { index < length events.now }
    requires counted { length events.now < 2 ^ 64 }
    requires places { FirstDataHasPlaces bytes.now (drop index events.now) }
    ensures { OnOk result (map.new ≡ map.old ++ mail_first bytes.now index links (drop index events.now)) }
{
    let enter = events.bare_at(index);
    if opens_data(&enter) && links == 0 {
        let exit = events.bare_at(index + 1);
        if has_sign(bytes, enter.point, exit.point) {
            let mailed = mailed_data(alloc, bytes, enter.point, exit.point)?;
            map.add(index, 2, mailed)?;
        }
    }
    Ok(())
}

// Whether data that begins at this event has an `@`. The bytes up to the next `@` may have been looked through before.
fn is_signed(bytes: &[u8], events: &Events, clear: &mut Clear, index: usize) -> bool
    requires fits { length bytes.now ≤ document_limit }
    requires clear { IsClear bytes.now clear.old }
    requires within { index < length events.now }
    requires counted { length events.now < 2 ^ 64 }
    requires places { FirstDataHasPlaces bytes.now (drop index events.now) }
    requires opens { (e : Event) → opens_data (slice_index_or events.now index e) ≡ true }
    ensures value { result ≡ begins_signed bytes.now (drop index events.now) }
    ensures clear { IsClear bytes.now clear.new }
{
    let enter = events.bare_at(index);
    let exit = events.bare_at(index + 1);
    clear::has_sign(bytes, clear, enter.point, exit.point)
}

// The number of the first data with an `@` from an event on, or how many events there are.
fn next_signed(bytes: &[u8], events: &Events, from: usize) -> usize
    requires fits { length bytes.now ≤ document_limit }
    requires within { from ≤ length events.now }
    requires places { HasPlaces bytes.now (drop from events.now) }
    ensures from { from ≤ result }
    ensures within { result ≤ length events.now }
    ensures places { HasPlaces bytes.now (drop result events.now) }
    ensures none { (i : ℕ) → from ≤ i → i < result → begins_signed bytes.now (drop i events.now) ≡ false }
{
    let mut clear = clear_at_first(bytes, events);
    let count = events.len();
    let mut index = next_data(events, from);
    while index < count {
        if is_signed(bytes, events, &mut clear, index) {
            return index;
        }
        index = next_data(events, index + 1);
    }
    index
}

// How many links are open behind the events from one to another, where so many are open before them.
fn links_past(events: &Events, from: usize, to: usize, before: usize) -> usize
    requires order { from ≤ to }
    requires within { to ≤ length events.now }
    requires few { before ≤ from }
    ensures past { result ≡ links_past before (take (to - from) (drop from events.now)) }
    ensures few { result ≤ to }
{
    let mut links = before;
    for index in from..to {
        links = links_after(links, &events.bare_at(index));
    }
    links
}

// Collects the edits of all data. Links are counted only up to the last data with an `@`, so not at all where there is none.
fn mail_each(
    alloc: Global,
    bytes: &[u8],
    events: &Events,
    map: &mut EditMap,
) -> Result<(), AllocError>
    requires fits { length bytes.now ≤ document_limit }
    requires places { HasPlaces bytes.now events.now }
    requires empty { map.old ≡ [] }
    ensures { OnOk result (map.new ≡ mails bytes.now 0 0 events.now) }
{
    let count = events.len();
    let mut links = 0usize;
    let mut from = 0;
    let mut index = next_signed(bytes, events, 0);
    while index < count {
        links = links_past(events, from, index, links);
        mail_first(alloc, bytes, events, map, index, links)?;
        from = index;
        index = next_signed(bytes, events, index + 1);
    }
    Ok(())
}

// Sets the literals in a list of events apart.
fn mail(
    alloc: Global,
    bytes: &[u8],
    events: &mut Events,
    map: &mut EditMap,
) -> Result<(), AllocError>
    requires fits { length bytes.now ≤ document_limit }
    requires places { HasPlaces bytes.now events.old }
    requires empty { map.old ≡ [] }
    ensures mailed { (t : Forest) → HasParts bytes.now t → events.old ≡ appended_from 0 None t
        → OnOk result (events.new ≡ appended_from 0 None (with_emails_apart t)) }
    ensures map { OnOk result (map.new ≡ []) }
{
    mail_each(alloc, bytes, events, map)?;
    map.consume(events)
}

/// Sets email literals apart, in data that carries no link and stands in no link: an address, with `mailto:` or `xmpp:` before it.
///
/// The document has at most `usize::MAX / 8` bytes, the edits are empty before and after, and each data stands at places of the
/// document. The work is that of the events and of the codes of the data. The error comes where memory is refused; then `failed` is
/// true.
#[inline(never)]
pub fn resolve(tokenizer: &mut Tokenizer) -> Result<(), AllocError>
    requires map { tokenizer.old.map ≡ [] }
    requires fits { length tokenizer.old.parse_state.now.bytes.now ≤ document_limit }
    requires places { HasPlaces tokenizer.old.parse_state.now.bytes.now tokenizer.old.events }
    ensures same { OnOk result (tokenizer.new ≡ record tokenizer.old { events = tokenizer.new.events }) }
    ensures mailed { (t : Forest) → HasParts tokenizer.old.parse_state.now.bytes.now t → tokenizer.old.events ≡ appended_from 0 None t
        → OnOk result (tokenizer.new.events ≡ appended_from 0 None (with_emails_apart t)) }
    ensures err { OnErr result (IsTrue tokenizer.new.failed) }
{
    let bytes = tokenizer.parse_state.bytes;
    let mailed = mail(
        tokenizer.alloc,
        bytes,
        &mut tokenizer.events,
        &mut tokenizer.map,
    );
    tokenizer.noted(mailed)
}
