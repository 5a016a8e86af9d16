//! The reader of character escapes: a backslash before an ASCII punctuation character, which then stands for itself (CommonMark 2.4).
//!
//!     character_escape ::= '\' ascii_punctuation
//!     ascii_punctuation ::= '!'..'/' | ':'..'@' | '['..'`' | '{'..'~'
//!
//! Events:
//!
//!     CharacterEscape
//!       CharacterEscapeMarker    `\`
//!       CharacterEscapeValue     the punctuation character
//!
//! Example: the codes `\*` of `5 \* 3`.
//!
//!     CharacterEscape 2-4
//!       CharacterEscapeMarker 2-3
//!       CharacterEscapeValue 3-4
//!
//! Definition: `character_escape` in `markdown_model/specs/LeafConstructs.antt`.
//!
//! The reader knows every form: where it answers `false`, no escape stands at the place. The states of hard breaks are tried then, since a hard break
//! may begin with a backslash too.
#![tactic(auto, using(markdown_engine::proofs::OperationFields::op_rules))]

ghost use Rattle.std.specs.Prelude.{◌≡◌, ◌++◌, true, IfOk, OnOk, OnErr, IsTrue, None};
ghost use Rattle.markdown_engine.specs.Operations.{done};
ghost use Rattle.markdown_leaf.specs.CharacterEscape.{opening, value};
ghost use Rattle.markdown_model.specs.SingleConstructs.{character_escape_here};
ghost use Rattle.markdown_run_text.specs.PlacesPassed.{begins_escape, escapes_here, is_some_punctuation};
ghost use Rattle.markdown_run_text.specs.ReaderEnds.{ReadsOrStays, options_here};

use markdown_content::cursor::Cursor;
use markdown_engine::tokenizer::Tokenizer;
use markdown_event::event::Name;
use std::alloc::AllocError;

// Whether the code is ASCII punctuation.
fn is_punctuation(code: Option<u8>) -> bool
    ensures { result ≡ is_some_punctuation code }
{
    matches!(code, Some(b'!'..=b'/' | b':'..=b'@' | b'['..=b'`' | b'{'..=b'~'))
}

// Whether an escape is at the place, whatever is switched on.
//
//     > | 5 \* 3
//           ^^
fn begins_escape(cursor: &Cursor) -> bool
    ensures { result ≡ begins_escape cursor.now }
{
    cursor.current() == Some(b'\\') && is_punctuation(cursor.next())
}

// Whether escapes are on, and one is at the place.
//
//     > | 5 \* 3
//           ^^
fn is_here(tokenizer: &Tokenizer) -> bool
    ensures { result ≡ escapes_here tokenizer.now }
{
    tokenizer.parse_state.options.constructs.character_escape && begins_escape(&tokenizer.cursor)
}

// Reads the escape at hand: appends its events, and moves behind it.
//
//     > | 5 \* 3
//           ^^
fn append(tokenizer: &mut Tokenizer) -> Result<(), AllocError>
    requires { escapes_here tokenizer.old ≡ true }
    ensures ok { OnOk result (tokenizer.new ≡ done (opening ++ value) tokenizer.old) }
    ensures err { OnErr result (IsTrue tokenizer.new.failed) }
{
    tokenizer.enter(Name::CharacterEscape)?;
    tokenizer.take(Name::CharacterEscapeMarker)?;
    tokenizer.take(Name::CharacterEscapeValue)?;
    tokenizer.exit(Name::CharacterEscape)
}

/// Reads the character escape at hand, a backslash and an ASCII punctuation character, and answers whether one is read; none is where
/// `character_escape` is off.
///
///     > | 5 \* 3
///           ^^
///
/// Its events are a `CharacterEscape` with a `CharacterEscapeMarker` and a `CharacterEscapeValue`.
///
/// Where none is read, the tokenizer is as before. The error comes where a growth is refused; then `failed` is true.
pub fn read(tokenizer: &mut Tokenizer) -> Result<bool, AllocError>
    ensures reads { IfOk result (λ ok.
        ReadsOrStays None (character_escape_here (options_here tokenizer.old)) None tokenizer.old.tokenize_state tokenizer.old ok tokenizer.new) }
    ensures err { OnErr result (IsTrue tokenizer.new.failed) }
{
    if !is_here(tokenizer) {
        return Ok(false);
    }
    append(tokenizer)?;
    Ok(true)
}
