//! The states of resources: in parentheses a destination and a title, behind the label of a link or an image (CommonMark 6.3).
//!
//!     resource ::= '(' space? (destination (space title)? space?)? ')'
//!
//! `space` is that of `partial_space_or_tab_eol`, `destination` that of `partial_destination`, with parentheses 32 deep at most, and `title` that
//! of `partial_title`.
//!
//! Events, with `SpaceOrTab` and `LineEnding` between the parts:
//!
//!     Resource
//!       ResourceMarker                          `(`
//!       ResourceDestination
//!         ResourceDestinationLiteral            in angle brackets, or
//!         ResourceDestinationRaw                without
//!       ResourceTitle
//!         ResourceTitleMarker                   a quote or a parenthesis
//!         ResourceTitleString                   what stands between
//!         ResourceTitleMarker                   the other one
//!       ResourceMarker                          `)`
//!
//! Example: `(b "c")`, behind the label of `[a](b "c")`.
//!
//! Definition: `resource` in `markdown_model/specs/Resource.antt`.
//!
//! Each state answers the error where a growth is refused; then `failed` is true.
#![tactic(auto, using(markdown_engine::proofs::OperationFields::law_rules), unfolding(markdown_engine::specs::Operations::scratched, markdown_engine::specs::Operations::attempted, markdown_engine::specs::Operations::frame_of))]

ghost use Rattle.std.specs.Prelude.{◌≡◌, if◌then◌else◌, IfOk, OnErr, IsTrue};
ghost use Rattle.markdown_engine.specs.Operations.{IsOpen, current_of};
ghost use Rattle.markdown_engine.specs.StateRuns.{stepped};
ghost use Rattle.markdown_event.specs.declared.state.State.TheVariants.{Retry};
ghost use Rattle.markdown_notes.specs.TitleIndex as Titles;
ghost use Rattle.markdown_event.specs.declared.event.Name.TheVariants.{Resource};
ghost use Rattle.markdown_label.specs.AfterLabelParts.{names_rested};
ghost use Rattle.markdown_label.specs.Resource.{destination_asked, destination_rested, title_asked, at_space, spaced, start_step, before_step, open_step, destination_after_step, missing_step, is_hopeless, between_step, title_after_step, end_step};

use crate::parts;
use markdown_engine::tokenizer::{TokenizeState, Tokenizer};
use markdown_event::event::Name;
use markdown_event::state::{State, StateName};
use markdown_notes::sequence_index::Sequence;
use markdown_notes::title_index::TitleIndex;
use markdown_partial::partial_space_or_tab_eol::space_or_tab_eol;
use markdown_util::util::constant::RESOURCE_DESTINATION_BALANCE_MAX;
use std::alloc::AllocError;

// Asks for a destination under the names of a resource's.
fn ask_for_destination(state: &mut TokenizeState)
    ensures { state.new ≡ destination_asked state.old }
{
    state.size_b = RESOURCE_DESTINATION_BALANCE_MAX;
    state.token_1 = Name::ResourceDestination;
    state.token_2 = Name::ResourceDestinationLiteral;
    state.token_3 = Name::ResourceDestinationLiteralMarker;
    state.token_4 = Name::ResourceDestinationRaw;
    state.token_5 = Name::ResourceDestinationString;
}

// Puts to rest what was asked of a destination or a title.
fn rest_destination(state: &mut TokenizeState)
    ensures { state.new ≡ destination_rested state.old }
{
    state.size_b = 0;
    state.token_1 = Name::Data;
    state.token_2 = Name::Data;
    state.token_3 = Name::Data;
    state.token_4 = Name::Data;
    state.token_5 = Name::Data;
}

// Asks for a title under the names of a resource's.
fn ask_for_title(state: &mut TokenizeState)
    ensures { state.new ≡ title_asked state.old }
{
    state.token_1 = Name::ResourceTitle;
    state.token_2 = Name::ResourceTitleMarker;
    state.token_3 = Name::ResourceTitleString;
}

// Puts the names of a title to rest.
fn rest_title(state: &mut TokenizeState)
    ensures { state.new ≡ names_rested state.old }
{
    state.token_1 = Name::Data;
    state.token_2 = Name::Data;
    state.token_3 = Name::Data;
}

// Where whitespace may stand: tries it, and goes on with `behind`. Where none stands there, goes on with `otherwise`.
#[inline(always)]
fn past_space(
    tokenizer: &mut Tokenizer,
    behind: StateName,
    otherwise: StateName,
) -> Result<State, AllocError>
    ensures ok { IfOk result (λ s. (if at_space (current_of tokenizer.old) then spaced behind otherwise tokenizer.old
        else stepped (Retry otherwise) tokenizer.old) ≡ record { state = s; left = tokenizer.new }) }
    ensures err { OnErr result (IsTrue tokenizer.new.failed) }
{
    match tokenizer.current() {
        Some(b'\t' | b'\n' | b' ') => {
            let space = space_or_tab_eol(tokenizer);
            parts::attempt(tokenizer, space, behind, otherwise)
        }
        _ => Ok(State::Retry(otherwise)),
    }
}

/// At the start of a resource: its opening parenthesis.
///
///     > | [x]( y 'z' )
///            ^
pub fn resource_start(tokenizer: &mut Tokenizer) -> Result<State, AllocError>
    ensures ok { IfOk result (λ s. start_step tokenizer.old ≡ record { state = s; left = tokenizer.new }) }
    ensures err { OnErr result (IsTrue tokenizer.new.failed) }
{
    match tokenizer.current() {
        Some(b'(') => {
            let next = StateName::LabelEndResourceBefore;
            parts::open(tokenizer, Name::Resource, Name::ResourceMarker, next)
        }
        _ => Ok(State::Nok),
    }
}

/// Behind the opening parenthesis, where whitespace may stand.
///
///     > | [x]( y 'z' )
///             ^
pub fn resource_before(tokenizer: &mut Tokenizer) -> Result<State, AllocError>
    ensures ok { IfOk result (λ s. before_step tokenizer.old ≡ record { state = s; left = tokenizer.new }) }
    ensures err { OnErr result (IsTrue tokenizer.new.failed) }
{
    let open = StateName::LabelEndResourceOpen;
    past_space(tokenizer, open, open)
}

/// Behind the whitespace after the opening parenthesis: at the closing one, or at a destination.
///
///     > | [x]( y 'z' )
///              ^
pub fn resource_open(tokenizer: &mut Tokenizer) -> Result<State, AllocError>
    ensures ok { IfOk result (λ s. open_step tokenizer.old ≡ record { state = s; left = tokenizer.new }) }
    ensures err { OnErr result (IsTrue tokenizer.new.failed) }
{
    match tokenizer.current() {
        Some(b')') => Ok(State::Retry(StateName::LabelEndResourceEnd)),
        _ => {
            ask_for_destination(&mut tokenizer.tokenize_state);
            parts::attempt(
                tokenizer,
                StateName::DestinationStart,
                StateName::LabelEndResourceDestinationAfter,
                StateName::LabelEndResourceDestinationMissing,
            )
        }
    }
}

/// Behind a destination, where whitespace may stand, and behind that a title.
///
///     > | [x]( y 'z' )
///               ^
pub fn resource_destination_after(tokenizer: &mut Tokenizer) -> Result<State, AllocError>
    ensures ok { IfOk result (λ s. destination_after_step tokenizer.old ≡ record { state = s; left = tokenizer.new }) }
    ensures err { OnErr result (IsTrue tokenizer.new.failed) }
{
    rest_destination(&mut tokenizer.tokenize_state);
    let behind = StateName::LabelEndResourceBetween;
    past_space(tokenizer, behind, StateName::LabelEndResourceEnd)
}

/// No destination stands there, or no title where one has to stand: all names are put to rest.
///
///     > | [x](<y)
///             ^
///
///     > | [x](y 'z)
///               ^
pub fn resource_destination_missing(tokenizer: &mut Tokenizer) -> Result<State, AllocError>
    ensures ok { IfOk result (λ s. missing_step tokenizer.old ≡ record { state = s; left = tokenizer.new }) }
    ensures err { OnErr result (IsTrue tokenizer.new.failed) }
{
    rest_destination(&mut tokenizer.tokenize_state);
    Ok(State::Nok)
}

// Whether it is known that no resource ends behind a title in parentheses that begins at this many codes.
fn rules_out(titles: &Option<TitleIndex>, at: usize) -> bool
    ensures { result ≡ Titles.rules_out titles.now at }
{
    match titles {
        None => false,
        Some(index) => index.rules_out(at),
    }
}

// Whether a title in parentheses may begin here, and it is known that no resource ends behind one.
fn is_hopeless(tokenizer: &Tokenizer) -> bool
    ensures { result ≡ is_hopeless tokenizer.now }
{
    let state = &tokenizer.tokenize_state;
    let at = tokenizer.cursor.passed();
    matches!(tokenizer.current(), Some(b'('))
        && (state.sequences.rules_out(Sequence::ResourceEnd, at) || rules_out(&state.titles, at))
}

/// Behind a destination and whitespace: at a title, if a quote or a parenthesis stands there, or else at the end.
///
/// A title in parentheses is not tried where it is known that the first `)` behind it that no backslash escapes has no other one behind it,
/// past whitespace, or that none at all has.
///
///     > | [x]( y 'z' )
///                ^
pub fn resource_between(tokenizer: &mut Tokenizer) -> Result<State, AllocError>
    ensures ok { IfOk result (λ s. between_step tokenizer.old ≡ record { state = s; left = tokenizer.new }) }
    ensures err { OnErr result (IsTrue tokenizer.new.failed) }
{
    if is_hopeless(tokenizer) {
        return Ok(State::Nok);
    }
    match tokenizer.current() {
        Some(b'"' | b'\'' | b'(') => {
            ask_for_title(&mut tokenizer.tokenize_state);
            let missing = StateName::LabelEndResourceDestinationMissing;
            parts::attempt(
                tokenizer,
                StateName::TitleStart,
                StateName::LabelEndResourceTitleAfter,
                missing,
            )
        }
        _ => Ok(State::Retry(StateName::LabelEndResourceEnd)),
    }
}

/// Behind a title, where whitespace may stand.
///
///     > | [x]( y 'z' )
///                   ^
pub fn resource_title_after(tokenizer: &mut Tokenizer) -> Result<State, AllocError>
    ensures ok { IfOk result (λ s. title_after_step tokenizer.old ≡ record { state = s; left = tokenizer.new }) }
    ensures err { OnErr result (IsTrue tokenizer.new.failed) }
{
    rest_title(&mut tokenizer.tokenize_state);
    let end = StateName::LabelEndResourceEnd;
    past_space(tokenizer, end, end)
}

/// At the closing parenthesis.
///
///     > | [x]( y 'z' )
///                    ^
pub fn resource_end(tokenizer: &mut Tokenizer) -> Result<State, AllocError>
    requires { IsOpen Resource tokenizer.old }
    ensures ok { IfOk result (λ s. end_step tokenizer.old ≡ record { state = s; left = tokenizer.new }) }
    ensures err { OnErr result (IsTrue tokenizer.new.failed) }
{
    match tokenizer.current() {
        Some(b')') => {
            parts::close(tokenizer, Name::Resource, Name::ResourceMarker)?;
            Ok(State::Ok)
        }
        _ => Ok(State::Nok),
    }
}
