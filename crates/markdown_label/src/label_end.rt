//! The states of ends of labels: a closing bracket, with what follows it (CommonMark 6.3 and 6.4, and footnote calls).
//!
//!     label_end ::= ']' (resource | full | collapsed)?
//!     full ::= label                                           as in `partial_label`; it has a definition
//!     collapsed ::= '[' ']'                                    the label before it has a definition
//!
//! An end takes the last start that no end has used. With a footnote's start and a defined footnote it makes a call, and nothing
//! follows. Else what follows makes a link or an image. Where the label has a definition, nothing has to follow; before a `[` this asks for
//! the option `label_shortcut_before_bracket`, and for no label there. Else the start is used up in vain. A start behind which a link or a call
//! was made is no link's.
//!
//! Events:
//!
//!     LabelEnd
//!       LabelMarker              `]`
//!     Resource                   as in `resource`, or
//!     Reference
//!       ReferenceMarker          `[`
//!       ReferenceString          of a full reference: `Data`, `LineEnding` and `SpaceOrTab`, linked as a string
//!       ReferenceMarker          `]`
//!
//! Example: in `[a][b]` the first `]`, with the full reference `[b]`.
//!
//! Definition: `label_end` in `markdown_model/specs/LabelEnd.antt`.
//!
//! Each state answers the error where a growth is refused; then `failed` is true.
//! A reader of plain resources and references stands beside: `readers::label_end` of `markdown_run_text`.
#![tactic(auto, using(markdown_engine::proofs::OperationFields::law_rules), unfolding(markdown_engine::specs::Operations::scratched, markdown_engine::specs::Operations::attempted, markdown_engine::specs::Operations::frame_of))]

ghost use Rattle.std.specs.Prelude.{◌≡◌, IfOk, OnErr, IsTrue};
ghost use Rattle.markdown_engine.specs.Operations.{IsOpen, current_of};
ghost use Rattle.markdown_event.specs.declared.event.Name.TheVariants.{Reference};
ghost use Rattle.markdown_model.specs.LabelEnd.{is_image, link_kind};
ghost use Rattle.markdown_label.specs.AfterLabelParts.{names_rested};
ghost use Rattle.markdown_label.specs.LabelFields.{bars, as_link, marked, AreOrdered};
ghost use Rattle.markdown_label.specs.LabelEnd.{LabelIsAround, ReferenceIsAround, start_step, tail_at, after_step, ok_step, nok_step, names_set, reference_full_step, reference_full_after_step, reference_full_missing_step, reference_not_full_step, reference_collapsed_step, reference_collapsed_open_step};

use crate::parts;
pub use crate::resource::{
    resource_before, resource_between, resource_destination_after, resource_destination_missing,
    resource_end, resource_open, resource_start, resource_title_after,
};
use markdown_engine::tokenizer::{Label, LabelKind, LabelStart, TokenizeState, Tokenizer};
use markdown_event::event::Name;
use markdown_event::resolve::ResolveName;
use markdown_event::seq::Stack;
use markdown_event::state::{State, StateName};
use markdown_label_names::identifier::{is_defined_between, link_between};
use std::alloc::AllocError;

// Whether a label of this kind is an image.
fn is_image(kind: LabelKind) -> bool
    ensures { result ≡ is_image kind }
{
    matches!(kind, LabelKind::Image)
}

// The kind that the label of such a start has, if it is no footnote call's.
fn link_kind(kind: LabelKind) -> LabelKind
    ensures { result ≡ link_kind kind }
{
    match kind {
        LabelKind::GfmFootnote => LabelKind::GfmUndefinedFootnote,
        other => other,
    }
}

// Whether an end that comes to this start makes nothing: a link or a call was made behind it, and it is no image's.
fn bars(start: LabelStart) -> bool
    ensures { result ≡ bars start }
{
    !is_image(start.kind) && start.inactive
}

// The last start is tried as a link's or an image's.
fn try_last(starts: &mut Stack<LabelStart>)
    ensures { starts.new ≡ as_link starts.old }
{
    if !starts.is_empty() {
        let start = *starts.at(0);
        let kind = link_kind(start.kind);
        starts.put(0, LabelStart { kind, ..start });
    }
}

// Marks the starts: a link or a call was made behind them. Those before a marked one are marked already.
fn mark(starts: &mut Stack<LabelStart>)
    requires { AreOrdered starts.old }
    ensures { starts.new ≡ marked starts.old }
{
    for depth in 0..starts.len() {
        let start = *starts.at(depth);
        if start.inactive {
            return;
        }
        starts.put(
            depth,
            LabelStart {
                inactive: true,
                ..start
            },
        );
    }
}

// Puts the names of a reference's label to rest.
fn rest_names(state: &mut TokenizeState)
    ensures { state.new ≡ names_rested state.old }
{
    state.token_1 = Name::Data;
    state.token_2 = Name::Data;
    state.token_3 = Name::Data;
}

// Asks for a label under the names of a reference's.
fn ask_for_names(state: &mut TokenizeState)
    ensures { state.new ≡ names_set state.old }
{
    state.token_1 = Name::Reference;
    state.token_2 = Name::ReferenceMarker;
    state.token_3 = Name::ReferenceString;
}

/// At the end of a label: its bracket, if a start stands before it.
///
/// The number of the end's first event is kept in `end`. Where the last start is barred, the end fails.
///
///     > | x[y](z)
///            ^
pub fn start(tokenizer: &mut Tokenizer) -> Result<State, AllocError>
    ensures ok { IfOk result (λ s. start_step tokenizer.old ≡ record { state = s; left = tokenizer.new }) }
    ensures err { OnErr result (IsTrue tokenizer.new.failed) }
{
    if !tokenizer.parse_state.options.constructs.label_end || tokenizer.current() != Some(b']') {
        return Ok(State::Nok);
    }
    let Some(top) = tokenizer.tokenize_state.label_starts.top() else {
        return Ok(State::Nok);
    };
    let start = *top;
    tokenizer.tokenize_state.end = tokenizer.events.len();
    if bars(start) {
        return Ok(State::Retry(StateName::LabelEndNok));
    }
    parts::whole_of_one(tokenizer, Name::LabelEnd, Name::LabelMarker)?;
    Ok(State::Next(StateName::LabelEndAfter))
}

// Behind a `]`, where no call was made: what follows is tried.
fn tail(tokenizer: &mut Tokenizer, defined: bool) -> Result<State, AllocError>
    ensures ok { IfOk result (λ s. tail_at defined (current_of tokenizer.old) tokenizer.old ≡ record { state = s; left = tokenizer.new }) }
    ensures err { OnErr result (IsTrue tokenizer.new.failed) }
{
    let otherwise = if defined {
        StateName::LabelEndOk
    } else {
        StateName::LabelEndNok
    };
    match tokenizer.current() {
        Some(b'(') => {
            parts::attempt(
                tokenizer,
                StateName::LabelEndResourceStart,
                StateName::LabelEndOk,
                otherwise,
            )
        }
        Some(b'[') => {
            let no_full = if defined {
                StateName::LabelEndReferenceNotFull
            } else {
                StateName::LabelEndNok
            };
            parts::attempt(
                tokenizer,
                StateName::LabelEndReferenceFull,
                StateName::LabelEndOk,
                no_full,
            )
        }
        _ => Ok(State::Retry(otherwise)),
    }
}

/// Behind a `]`: a call is made, or what follows is tried.
///
/// The label is read at most about twice as far as it begins like something that is defined, and by CommonMark's rules before that up to the
/// limit of a label. The error comes where memory for its identifier is refused, too; then `failed` is true.
///
///     > | x[y](z)
///             ^
pub fn after(tokenizer: &mut Tokenizer) -> Result<State, AllocError>
    requires { LabelIsAround tokenizer.old }
    ensures ok { IfOk result (λ s. after_step tokenizer.old ≡ record { state = s; left = tokenizer.new }) }
    ensures err { OnErr result (IsTrue tokenizer.new.failed) }
{
    let Some(top) = tokenizer.tokenize_state.label_starts.top() else {
        return Ok(State::Nok);
    };
    let start = *top;
    let end = tokenizer.tokenize_state.end;
    let Some(defined) = link_between(tokenizer, start.kind, start.start.1, end)? else {
        return Ok(State::Retry(StateName::LabelEndOk));
    };
    try_last(&mut tokenizer.tokenize_state.label_starts);
    tail(tokenizer, defined)
}

/// The end makes a label of its start, and marks the starts before it where that is a link or a call.
///
///     > | x[y](z)!
///                ^
pub fn ok(tokenizer: &mut Tokenizer) -> Result<State, AllocError>
    requires { AreOrdered tokenizer.old.tokenize_state.label_starts }
    ensures ok { IfOk result (λ s. ok_step tokenizer.old ≡ record { state = s; left = tokenizer.new }) }
    ensures err { OnErr result (IsTrue tokenizer.new.failed) }
{
    if let Some(start) = tokenizer.tokenize_state.label_starts.pop() {
        let label = Label {
            kind: start.kind,
            start: start.start,
            end: (
                tokenizer.tokenize_state.end,
                tokenizer.events.len().saturating_sub(1),
            ),
        };
        let added = tokenizer.tokenize_state.labels.push(label);
        tokenizer.noted(added)?;
        if !is_image(start.kind) {
            mark(&mut tokenizer.tokenize_state.label_starts);
        }
        tokenizer.tokenize_state.end = 0;
    }
    tokenizer.register_resolver_before(ResolveName::Label)?;
    Ok(State::Ok)
}

/// Behind a label that follows a label: whether it names a definition.
///
/// The error comes where memory for its identifier is refused, too; then `failed` is true.
///
///     > | x[y][z]!
///                ^
pub fn reference_full_after(tokenizer: &mut Tokenizer) -> Result<State, AllocError>
    requires { ReferenceIsAround tokenizer.old }
    ensures ok { IfOk result (λ s. reference_full_after_step tokenizer.old ≡ record { state = s; left = tokenizer.new }) }
    ensures err { OnErr result (IsTrue tokenizer.new.failed) }
{
    let to = tokenizer.events.len() - 4;
    let from = tokenizer.tokenize_state.end + 7;
    let defined = is_defined_between(tokenizer, from, to)?;
    let matters = tokenizer
        .parse_state
        .options
        .rules()
        .shortcut_before_bracket;
    let state = &mut tokenizer.tokenize_state;
    rest_names(state);
    if defined {
        Ok(State::Ok)
    } else {
        state.seen = matters;
        Ok(State::Nok)
    }
}

/// The end makes no label: its start is used up.
///
///     > | x[y]!
///             ^
///
///     > | [x[y](z)]!
///                 ^
pub fn nok(tokenizer: &mut Tokenizer) -> Result<State, AllocError>
    ensures ok { IfOk result (λ s. nok_step tokenizer.old ≡ record { state = s; left = tokenizer.new }) }
    ensures err { OnErr result (IsTrue tokenizer.new.failed) }
{
    if let Some(start) = tokenizer.tokenize_state.label_starts.pop() {
        let loose = tokenizer.tokenize_state.label_starts_loose.push(start);
        tokenizer.noted(loose)?;
    }
    tokenizer.tokenize_state.end = 0;
    tokenizer.tokenize_state.seen = false;
    Ok(State::Nok)
}

/// At a `[`: a full reference is tried.
///
///     > | x[y][z]!
///             ^
pub fn reference_full(tokenizer: &mut Tokenizer) -> Result<State, AllocError>
    ensures ok { IfOk result (λ s. reference_full_step tokenizer.old ≡ record { state = s; left = tokenizer.new }) }
    ensures err { OnErr result (IsTrue tokenizer.new.failed) }
{
    ask_for_names(&mut tokenizer.tokenize_state);
    parts::attempt(
        tokenizer,
        StateName::LabelStart,
        StateName::LabelEndReferenceFullAfter,
        StateName::LabelEndReferenceFullMissing,
    )
}

/// No label stands there.
///
///     > | x[y][]!
///             ^
pub fn reference_full_missing(tokenizer: &mut Tokenizer) -> Result<State, AllocError>
    ensures ok { IfOk result (λ s. reference_full_missing_step tokenizer.old ≡ record { state = s; left = tokenizer.new }) }
    ensures err { OnErr result (IsTrue tokenizer.new.failed) }
{
    rest_names(&mut tokenizer.tokenize_state);
    Ok(State::Nok)
}

/// No full reference stands there, and the label itself is defined.
///
///     > | x[y][]!
///             ^
pub fn reference_not_full(tokenizer: &mut Tokenizer) -> Result<State, AllocError>
    ensures ok { IfOk result (λ s. reference_not_full_step tokenizer.old ≡ record { state = s; left = tokenizer.new }) }
    ensures err { OnErr result (IsTrue tokenizer.new.failed) }
{
    let shortcut = tokenizer
        .parse_state
        .options
        .rules()
        .shortcut_before_bracket
        && !tokenizer.tokenize_state.seen;
    tokenizer.tokenize_state.seen = false;
    let otherwise = if shortcut {
        StateName::LabelEndOk
    } else {
        StateName::LabelEndNok
    };
    parts::attempt(
        tokenizer,
        StateName::LabelEndReferenceCollapsed,
        StateName::LabelEndOk,
        otherwise,
    )
}

/// At a `[` where no full reference stands: a collapsed reference may begin.
///
///     > | x[y][]!
///             ^
pub fn reference_collapsed(tokenizer: &mut Tokenizer) -> Result<State, AllocError>
    ensures ok { IfOk result (λ s. reference_collapsed_step tokenizer.old ≡ record { state = s; left = tokenizer.new }) }
    ensures err { OnErr result (IsTrue tokenizer.new.failed) }
{
    match tokenizer.current() {
        Some(b'[') => {
            let next = StateName::LabelEndReferenceCollapsedOpen;
            parts::open(tokenizer, Name::Reference, Name::ReferenceMarker, next)
        }
        _ => Ok(State::Nok),
    }
}

/// After the opening bracket of a collapsed reference: its closing one.
///
///     > | x[y][]!
///              ^
pub fn reference_collapsed_open(tokenizer: &mut Tokenizer) -> Result<State, AllocError>
    requires { IsOpen Reference tokenizer.old }
    ensures ok { IfOk result (λ s. reference_collapsed_open_step tokenizer.old ≡ record { state = s; left = tokenizer.new }) }
    ensures err { OnErr result (IsTrue tokenizer.new.failed) }
{
    match tokenizer.current() {
        Some(b']') => {
            parts::close(tokenizer, Name::Reference, Name::ReferenceMarker)?;
            Ok(State::Ok)
        }
        _ => Ok(State::Nok),
    }
}
