//! The states of string content, as in titles and destinations: escapes, character references, line endings and data (CommonMark 2.4 and 2.5).
//! The pass `resolve` sets whitespace beside line endings apart; by CommonMark's rule that before a line ending stays data (CommonMark 6.3).
//!
//!     string ::= (character_escape | character_reference | line_ending | data)*
//!
//! At each code the first of these that holds is the element; data holds everywhere.
//!
//! Events: those of `character_escape` and `character_reference`, and
//!
//!     LineEnding
//!     Data          what no construct takes
//!     SpaceOrTab    blank codes beside a line ending, from the pass
//!
//! Example: `a\*b &amp; c`.
//!
//! Definition: `string_element` in `markdown_model/specs/Elements.antt`, and `string_tree` in `InlineTree.antt` for the whole.
//!
//! Each state answers the error where a growth is refused; then `failed` is true.
#![tactic(auto, using(markdown_engine::proofs::OperationFields::op_rules))]

ghost use Rattle.std.specs.Prelude.{◌≡◌, IfOk, OnErr, IsTrue, None, false};
ghost use Rattle.markdown_content.specs.CommonMark.{rules_of};
ghost use Rattle.markdown_model.specs.Passes.{no_breaks};
ghost use Rattle.markdown_run_text.specs.ContentPasses.{MayTrim, TrimsData};
ghost use Rattle.markdown_run_text.specs.StringContent.{string_markers, start_step, before_step, before_data_step};

use markdown_content::byte_table;
use markdown_content::bytes::{ByteSet, ByteTable};
use markdown_engine::tokenizer::Tokenizer;
use markdown_engine_events::subtokenize::Subresult;
use markdown_event::resolve::ResolveName;
use markdown_event::state::{State, StateName};
use markdown_passes::partial_whitespace;
use std::alloc::AllocError;

const MARKERS: ByteTable = byte_table!(b'&', b'\\');

// The bytes at which data of a string stops: those at which something is tried.
fn markers() -> ByteSet
    ensures { result ≡ string_markers }
{
    ByteSet::new(&MARKERS)
}

/// At the start of a string.
///
///     > | R\&D &gt; x
///         ^
#[tactic(auto, using(markdown_engine::proofs::OperationFields::op_rules), unfolding(markdown_engine::specs::Operations::scratched))]
pub fn start(tokenizer: &mut Tokenizer) -> Result<State, AllocError>
    ensures ok { IfOk result (λ s. start_step tokenizer.old ≡ record { state = s; left = tokenizer.new }) }
    ensures err { OnErr result (IsTrue tokenizer.new.failed) }
{
    tokenizer.tokenize_state.markers = markers();
    Ok(State::Retry(StateName::StringBefore))
}

/// Before an element of the string, or at its end.
///
///     > | R\&D &gt; x
///         ^^ ^ ^   ^ ^
pub fn before(tokenizer: &mut Tokenizer) -> Result<State, AllocError>
    ensures ok { IfOk result (λ s. before_step tokenizer.old ≡ record { state = s; left = tokenizer.new }) }
    ensures err { OnErr result (IsTrue tokenizer.new.failed) }
{
    let construct = match tokenizer.current() {
        None => {
            tokenizer.register_resolver(ResolveName::Data)?;
            tokenizer.register_resolver(ResolveName::String)?;
            return Ok(State::Ok);
        }
        Some(b'\\') => StateName::CharacterEscapeStart,
        Some(b'&') => StateName::CharacterReferenceStart,
        _ => return Ok(State::Retry(StateName::StringBeforeData)),
    };
    tokenizer.attempt(
        State::Next(StateName::StringBefore),
        State::Next(StateName::StringBeforeData),
    )?;
    Ok(State::Retry(construct))
}

/// Before data of the string.
///
///     > | R\&D &gt; x
///         ^  ^     ^
pub fn before_data(tokenizer: &mut Tokenizer) -> Result<State, AllocError>
    ensures ok { IfOk result (λ s. before_data_step tokenizer.old ≡ record { state = s; left = tokenizer.new }) }
    ensures err { OnErr result (IsTrue tokenizer.new.failed) }
{
    tokenizer.attempt(State::Next(StateName::StringBefore), State::Nok)?;
    Ok(State::Retry(StateName::DataStart))
}

/// After the run over a string: sets whitespace beside line endings apart, and by CommonMark's rule that behind them alone.
///
/// The error comes where memory is refused; then `failed` is true.
pub fn resolve(tokenizer: &mut Tokenizer) -> Result<Option<Subresult>, AllocError>
    requires { MayTrim tokenizer.old }
    ensures none { IfOk result (λ r. r ≡ None) }
    ensures ok { IfOk result (λ _. TrimsData (no_breaks (rules_of tokenizer.old.parse_state.now.options.now)) false false tokenizer.old tokenizer.new) }
    ensures err { OnErr result (IsTrue tokenizer.new.failed) }
{
    partial_whitespace::resolve_whitespace(tokenizer, false, false)?;
    Ok(None)
}
