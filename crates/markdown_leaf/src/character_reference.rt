//! The states of character references: `&`, the name of a character or its number, and `;` (CommonMark 2.5).
//!
//!     character_reference ::= '&' (name | decimal | hexadecimal) ';'
//!     name ::= (letter | digit)+                               one of the table of references
//!     decimal ::= '#' digit{1,7}
//!     hexadecimal ::= '#' ('x' | 'X') hex_digit{1,6}
//!
//! Events:
//!
//!     CharacterReference
//!       CharacterReferenceMarker               `&`
//!       CharacterReferenceMarkerNumeric        `#`, of a number
//!       CharacterReferenceMarkerHexadecimal    `x` or `X`, of a hexadecimal number
//!       CharacterReferenceValue                the name or the digits
//!       CharacterReferenceMarkerSemi           `;`
//!
//! Example: `&lt;`, `&#36;` and `&#x3E;`.
//!
//! Definition: `character_reference` in `markdown_model/specs/LeafConstructs.antt`.
//!
//! Each state answers the error where a growth is refused; then `failed` is true.
#![tactic(auto, using(markdown_engine::proofs::OperationFields::op_rules), unfolding(markdown_engine::specs::Operations::scratched))]

ghost use Rattle.std.specs.Prelude.{◌≡◌, ◌<◌, IsTrue};
ghost use Rattle.markdown_engine.specs.Operations.{scratched};
ghost use Rattle.markdown_util.specs.Reference.{IsReferenceMarker, rows_named, value_size_max};
ghost use Rattle.markdown_leaf.specs.CharacterReference.{has_value, is_known, IsValue, is_taken, value_begun, read_of, references_here, rested, start_step, open_step, numeric_step, value_step};
ghost use Rattle.markdown_plan.specs.StateCalls.{Steps};

use crate::marks::close;
use markdown_content::util::slice::Slice;
use markdown_engine::tokenizer::Tokenizer;
use markdown_event::event::Name;
use markdown_event::state::{State, StateName};
use markdown_util::util::character_reference::{
    Names, decode_named_in, known_names, value_max, value_test,
};
use std::alloc::AllocError;
use std::str;

/// At the start of a character reference: the `&`.
///
///     > | &lt; &#36; &#x3E;
///         ^    ^     ^
pub fn start(tokenizer: &mut Tokenizer) -> Result<State, AllocError>
    ensures { Steps start_step tokenizer.old result tokenizer.new }
{
    if tokenizer.parse_state.options.constructs.character_reference
        && tokenizer.current() == Some(b'&')
    {
        tokenizer.enter(Name::CharacterReference)?;
        tokenizer.take(Name::CharacterReferenceMarker)?;
        Ok(State::Next(StateName::CharacterReferenceOpen))
    } else {
        Ok(State::Nok)
    }
}

// Enters the value, which is of this kind, and goes on with this state.
fn begin_value(tokenizer: &mut Tokenizer, marker: u8, state: State) -> Result<State, AllocError>
    ensures { Steps (value_begun marker state) tokenizer.old result tokenizer.new }
{
    tokenizer.enter(Name::CharacterReferenceValue)?;
    tokenizer.tokenize_state.marker = marker;
    Ok(state)
}

/// After the `&`: a `#`, or the first letter or digit of a name.
///
///     > | &lt; &#36; &#x3E;
///          ^    ^     ^
pub fn open(tokenizer: &mut Tokenizer) -> Result<State, AllocError>
    ensures { Steps open_step tokenizer.old result tokenizer.new }
{
    if tokenizer.current() == Some(b'#') {
        tokenizer.take(Name::CharacterReferenceMarkerNumeric)?;
        Ok(State::Next(StateName::CharacterReferenceNumeric))
    } else {
        begin_value(
            tokenizer,
            b'&',
            State::Retry(StateName::CharacterReferenceValue),
        )
    }
}

/// After the `#`: an `x` of either case, or the first decimal digit.
///
///     > | &lt; &#36; &#x3E;
///                ^     ^
pub fn numeric(tokenizer: &mut Tokenizer) -> Result<State, AllocError>
    ensures { Steps numeric_step tokenizer.old result tokenizer.new }
{
    if let Some(b'x' | b'X') = tokenizer.current() {
        tokenizer.take(Name::CharacterReferenceMarkerHexadecimal)?;
        begin_value(
            tokenizer,
            b'x',
            State::Next(StateName::CharacterReferenceValue),
        )
    } else {
        begin_value(
            tokenizer,
            b'#',
            State::Retry(StateName::CharacterReferenceValue),
        )
    }
}

/// In the value, `size` codes of which are passed; `marker` says of which kind it is.
///
///     > | &lt; &#36; &#x3E;
///          ^^^   ^^^    ^^^
pub fn value(tokenizer: &mut Tokenizer) -> Result<State, AllocError>
    requires { IsValue tokenizer.old }
    ensures { Steps value_step tokenizer.old result tokenizer.new }
{
    let marker = tokenizer.tokenize_state.marker;
    let size = tokenizer.tokenize_state.size;
    match tokenizer.current() {
        Some(b';') if size > 0 && is_known(tokenizer) => {
            close(
                tokenizer,
                Name::CharacterReferenceValue,
                Name::CharacterReferenceMarkerSemi,
                Name::CharacterReference,
            )?;
            put_to_rest(tokenizer);
            Ok(State::Ok)
        }
        Some(byte) if takes(marker, size, byte) => {
            tokenizer.consume();
            tokenizer.tokenize_state.size = size + 1;
            Ok(State::Next(StateName::CharacterReferenceValue))
        }
        _ => {
            put_to_rest(tokenizer);
            Ok(State::Nok)
        }
    }
}

// Whether a value of this kind, of so many codes, goes on with this one.
#[tactic(auto, unfolding(crate::specs::CharacterReference::is_taken))]
fn takes(marker: u8, size: usize, byte: u8) -> bool
    requires { IsReferenceMarker marker }
    ensures test { result ≡ is_taken marker size byte }
    ensures room { IsTrue result → size < value_size_max marker }
{
    size < value_max(marker) && value_test(marker, byte)
}

// Puts the scratch fields of references to rest.
fn put_to_rest(tokenizer: &mut Tokenizer)
    ensures { tokenizer.new ≡ scratched (rested tokenizer.old.tokenize_state) tokenizer.old }
{
    tokenizer.tokenize_state.marker = 0;
    tokenizer.tokenize_state.size = 0;
}

// Whether the value that is passed may be one: a named one is a name of the table.
fn is_known(tokenizer: &Tokenizer) -> bool
    requires { IsValue tokenizer.now }
    ensures { result ≡ is_known (references_here tokenizer.now) tokenizer.now.tokenize_state.marker (read_of tokenizer.now) }
{
    let bytes = tokenizer.cursor.document();
    let end = tokenizer.point().index;
    let start = end - tokenizer.tokenize_state.size;
    let value = Slice::from_indices(bytes, start, end);
    let names = known_names(tokenizer.parse_state.options.rules().html_names);
    tokenizer.tokenize_state.marker != b'&' || is_name(value.bytes, names)
}

// Whether these bytes are a name of the table.
fn is_name(bytes: &[u8], names: Names) -> bool
    ensures { result ≡ has_value (rows_named names) bytes.now }
{
    match str::from_utf8(bytes) {
        Ok(name) => decode_named_in(name, names).is_some(),
        Err(_) => false,
    }
}
