//! The states of HTML in text, over one line or more (CommonMark 6.6).
//!
//!     html_text ::= open_tag | closing_tag | comment | instruction | declaration | cdata
//!     open_tag ::= '<' tag_name (space+ attribute)* space* '/'? '>'
//!     closing_tag ::= '</' tag_name space* '>'
//!     tag_name ::= letter (letter | digit | '-')*
//!     attribute ::= attribute_name (space* '=' space* value)?
//!     attribute_name ::= (letter | ':' | '_') (letter | digit | '-' | '.' | ':' | '_')*
//!     value ::= '"' (code - '"')* '"' | "'" (code - "'")* "'" | unquoted
//!     unquoted ::= bare (bare - '/')*                          before space, '/' or '>'; by CommonMark's rule bare (bare)*
//!     bare ::= code - (space | '"' | "'" | '<' | '=' | '>' | '`')
//!     space ::= blank | line_ending
//!     comment ::= '<!-->' | '<!--->' | '<!--' code* '-->'      up to the first '-->'
//!     instruction ::= '<?' code* '?>'                          up to the first '?>'
//!     declaration ::= '<!' letter code* '>'                    up to the first '>'
//!     cdata ::= '<![CDATA[' code* ']]>'                        up to the first ']]>'
//!
//! Events: `HtmlText`, and in it `HtmlTextData` for each line, `LineEnding` between them, and `SpaceOrTab` over the blank codes that begin a
//! later line.
//!
//! Example: `<a href="b">c</a>` has an opening and a closing tag. Definition: `html_text` in `markdown_model/specs/HtmlText.antt`.
//!
//! Each state answers the error where a growth is refused; then `failed` is true.
#![tactic(auto, using(markdown_engine::proofs::OperationFields::op_rules), unfolding(markdown_engine::specs::Operations::scratched))]

ghost use Rattle.std.specs.Prelude.{◌≡◌, ◌<◌, Some, IfOk, OnErr, IsTrue};
ghost use Rattle.std.specs.Str.{byte};
ghost use Rattle.markdown_content.specs.Place.{code_at, moved};
ghost use Rattle.markdown_engine.specs.Operations.{HasCode, current_of};
ghost use Rattle.markdown_event.specs.declared.event.Name.TheVariants.{HtmlText, HtmlTextData};
ghost use Rattle.markdown_plan.specs.ScratchFields.{AreOpen};
ghost use Rattle.markdown_leaf_html.specs.HtmlByteTests.{name_value, attribute_first_value, attribute_rest_value, after_value, unquoted_end_value};
ghost use Rattle.markdown_leaf_html.specs.HtmlText.{stops_in, is_ruled_out, ending_at, marked_ending, broken, marked_at, ending_passed, start_step, open_step, declaration_open_step, comment_open_inside_step, comment_step, comment_close_step, comment_end_step, cdata_open_inside_step, cdata_step, cdata_close_step, cdata_end_step};
ghost use Rattle.markdown_leaf_html.specs.HtmlText.{declaration_step, instruction_step, instruction_close_step, tag_close_start_step, tag_close_step, tag_close_between_step, tag_open_step, tag_open_between_step, tag_open_attribute_name_step, tag_open_attribute_name_after_step};
ghost use Rattle.markdown_leaf_html.specs.HtmlText.{tag_open_attribute_value_before_step, tag_open_attribute_value_quoted_step, tag_open_attribute_value_quoted_after_step, tag_open_attribute_value_unquoted_step, end_step, line_ending_before_step, line_ending_after_step, line_ending_after_prefix_step};

use markdown_content::byte_table;
use markdown_content::bytes::{ByteSet, ByteTable};
use markdown_engine::tokenizer::{TokenizeState, Tokenizer};
use markdown_event::event::Name;
use markdown_event::state::{State, StateName};
use markdown_notes::sequence_index::Sequence;
use markdown_partial::partial_space_or_tab::space_or_tab;
use markdown_plan::bytes::{is_alphanumeric, is_letter};
use markdown_util::util::constant::HTML_CDATA_PREFIX;
use std::alloc::AllocError;

// Whether a tag's name may go on with it.
fn is_name(code: u8) -> bool
    ensures { result ≡ name_value code }
{
    is_alphanumeric(code) || code == b'-'
}

// Whether an attribute's name may start with it.
fn is_attribute_first(code: u8) -> bool
    ensures { result ≡ attribute_first_value code }
{
    is_letter(code) || matches!(code, b':' | b'_')
}

// Whether an attribute's name may go on with it.
fn is_attribute(code: u8) -> bool
    ensures { result ≡ attribute_rest_value code }
{
    is_alphanumeric(code) || matches!(code, b'-' | b'.' | b':' | b'_')
}

// Whether it may follow a value: whitespace or what ends the tag.
fn is_after_value(code: u8) -> bool
    ensures { result ≡ after_value code }
{
    matches!(code, b'\t' | b'\n' | b' ' | b'/' | b'>')
}

// Whether it may follow an unquoted value. No `/` may where slashes may stand in values.
fn ends_unquoted(code: u8, slashes: bool) -> bool
    ensures { result ≡ unquoted_end_value slashes code }
{
    is_after_value(code) && !(code == b'/' && slashes)
}

const DASH: ByteTable = byte_table!(b'-');

const BRACKET: ByteTable = byte_table!(b']');

const ANGLE: ByteTable = byte_table!(b'>');

const QUESTION_MARK: ByteTable = byte_table!(b'?');

const QUOTATION_MARK: ByteTable = byte_table!(b'"');

const APOSTROPHE: ByteTable = byte_table!(b'\'');

/// The bytes at which a state that passes code after code stops, line endings aside; none for the other states. Takes no memory.
pub fn stop_bytes(name: StateName, fields: &TokenizeState) -> Option<ByteSet>
    ensures { result ≡ stops_in name fields.now }
{
    let stops = match name {
        StateName::HtmlTextComment => &DASH,
        StateName::HtmlTextCdata => &BRACKET,
        StateName::HtmlTextDeclaration => &ANGLE,
        StateName::HtmlTextInstruction => &QUESTION_MARK,
        StateName::HtmlTextTagOpenAttributeValueQuoted => match fields.marker {
            b'"' => &QUOTATION_MARK,
            b'\'' => &APOSTROPHE,
            _ => return None,
        },
        _ => return None,
    };
    Some(ByteSet::new(stops))
}

// The sequence that ends what begins with `<!` and this code, if anything does.
fn marked_ending(code: Option<u8>) -> Option<Sequence>
    ensures { result ≡ marked_ending code }
{
    match code {
        Some(b'-') => Some(Sequence::CommentEnd),
        Some(b'[') => Some(Sequence::SectionEnd),
        Some(code) if is_letter(code) => Some(Sequence::DeclarationEnd),
        _ => None,
    }
}

// The sequence that ends what begins with the code at hand and the next two, where that is neither an opening nor a closing tag.
fn ending(tokenizer: &Tokenizer) -> Option<Sequence>
    requires { HasCode tokenizer.now }
    ensures { result ≡ ending_at (code_at (moved tokenizer.now.cursor)) (code_at (moved (moved tokenizer.now.cursor))) }
{
    match tokenizer.cursor.next() {
        Some(b'?') => Some(Sequence::InstructionEnd),
        Some(b'!') => {
            let mut mark = tokenizer.cursor.save();
            mark.consume();
            marked_ending(mark.next())
        }
        _ => None,
    }
}

/// Whether it is known that what begins with the `<` at hand does not end: an instruction, a comment, a declaration or a CDATA section. Takes no
/// memory.
pub fn is_ruled_out(tokenizer: &Tokenizer) -> bool
    requires { HasCode tokenizer.now }
    ensures { result ≡ is_ruled_out tokenizer.now }
{
    let index = &tokenizer.tokenize_state.sequences;
    match ending(tokenizer) {
        Some(ending) => index.rules_out(ending, tokenizer.cursor.passed()),
        None => false,
    }
}

// Goes on with this state after the line ending at hand and the whitespace after it.
fn break_line(tokenizer: &mut Tokenizer, state: StateName) -> Result<State, AllocError>
    ensures ok { IfOk result (λ s. broken state tokenizer.old ≡ record { state = s; left = tokenizer.new }) }
    ensures err { OnErr result (IsTrue tokenizer.new.failed) }
{
    tokenizer.attempt(State::Next(state), State::Nok)?;
    Ok(State::Retry(StateName::HtmlTextLineEndingBefore))
}

// Passes the line ending at hand.
fn pass_line_ending(tokenizer: &mut Tokenizer) -> Result<State, AllocError>
    requires { HasCode tokenizer.old }
    ensures ok { IfOk result (λ s. ending_passed tokenizer.old ≡ record { state = s; left = tokenizer.new }) }
    ensures err { OnErr result (IsTrue tokenizer.new.failed) }
{
    tokenizer.take(Name::LineEnding)?;
    Ok(State::Next(StateName::HtmlTextLineEndingAfter))
}

// In what a mark ends: it goes on with this state, over line endings too, and after the mark with the other one.
fn pass_marked(
    tokenizer: &mut Tokenizer,
    mark: u8,
    state: StateName,
    marked: StateName,
) -> Result<State, AllocError>
    ensures ok { IfOk result (λ s. marked_at mark state marked (current_of tokenizer.old) tokenizer.old ≡ record { state = s; left = tokenizer.new }) }
    ensures err { OnErr result (IsTrue tokenizer.new.failed) }
{
    let next = match tokenizer.current() {
        None => return Ok(State::Nok),
        Some(b'\n') => return break_line(tokenizer, state),
        Some(code) if code == mark => marked,
        Some(_) => state,
    };
    tokenizer.consume();
    Ok(State::Next(next))
}

/// At the start: `<`.
///
///     > | x<br>y
///          ^
pub fn start(tokenizer: &mut Tokenizer) -> Result<State, AllocError>
    ensures ok { IfOk result (λ s. start_step tokenizer.old ≡ record { state = s; left = tokenizer.new }) }
    ensures err { OnErr result (IsTrue tokenizer.new.failed) }
{
    if tokenizer.parse_state.options.constructs.html_text && tokenizer.current() == Some(b'<') {
        tokenizer.enter(Name::HtmlText)?;
        tokenizer.enter(Name::HtmlTextData)?;
        tokenizer.consume();
        Ok(State::Next(StateName::HtmlTextOpen))
    } else {
        Ok(State::Nok)
    }
}

/// After `<`: which kind it is.
///
///     > | x<br>y
///           ^
pub fn open(tokenizer: &mut Tokenizer) -> Result<State, AllocError>
    ensures ok { IfOk result (λ s. open_step tokenizer.old ≡ record { state = s; left = tokenizer.new }) }
    ensures err { OnErr result (IsTrue tokenizer.new.failed) }
{
    let next = match tokenizer.current() {
        Some(b'!') => StateName::HtmlTextDeclarationOpen,
        Some(b'/') => StateName::HtmlTextTagCloseStart,
        Some(b'?') => StateName::HtmlTextInstruction,
        Some(code) if is_letter(code) => StateName::HtmlTextTagOpen,
        _ => return Ok(State::Nok),
    };
    tokenizer.consume();
    Ok(State::Next(next))
}

/// After `<!`: a comment, a declaration or a CDATA section.
///
///     > | x<!DTD 1>y
///            ^
pub fn declaration_open(tokenizer: &mut Tokenizer) -> Result<State, AllocError>
    ensures ok { IfOk result (λ s. declaration_open_step tokenizer.old ≡ record { state = s; left = tokenizer.new }) }
    ensures err { OnErr result (IsTrue tokenizer.new.failed) }
{
    let next = match tokenizer.current() {
        Some(b'-') => StateName::HtmlTextCommentOpenInside,
        Some(code) if is_letter(code) => StateName::HtmlTextDeclaration,
        Some(b'[') => StateName::HtmlTextCdataOpenInside,
        _ => return Ok(State::Nok),
    };
    tokenizer.consume();
    Ok(State::Next(next))
}

/// After `<!-`: another hyphen.
///
///     > | x<!--no-->y
///             ^
pub fn comment_open_inside(tokenizer: &mut Tokenizer) -> Result<State, AllocError>
    ensures ok { IfOk result (λ s. comment_open_inside_step tokenizer.old ≡ record { state = s; left = tokenizer.new }) }
    ensures err { OnErr result (IsTrue tokenizer.new.failed) }
{
    if tokenizer.current() == Some(b'-') {
        tokenizer.consume();
        Ok(State::Next(StateName::HtmlTextCommentEnd))
    } else {
        Ok(State::Nok)
    }
}

/// In a comment.
///
///     > | x<!--no-->y
///              ^^^
pub fn comment(tokenizer: &mut Tokenizer) -> Result<State, AllocError>
    ensures ok { IfOk result (λ s. comment_step tokenizer.old ≡ record { state = s; left = tokenizer.new }) }
    ensures err { OnErr result (IsTrue tokenizer.new.failed) }
{
    pass_marked(
        tokenizer,
        b'-',
        StateName::HtmlTextComment,
        StateName::HtmlTextCommentClose,
    )
}

/// In a comment, after a hyphen.
///
///     > | x<!--n-o-->y
///                ^ ^
pub fn comment_close(tokenizer: &mut Tokenizer) -> Result<State, AllocError>
    ensures ok { IfOk result (λ s. comment_close_step tokenizer.old ≡ record { state = s; left = tokenizer.new }) }
    ensures err { OnErr result (IsTrue tokenizer.new.failed) }
{
    let Some(b'-') = tokenizer.current() else {
        return Ok(State::Retry(StateName::HtmlTextComment));
    };
    tokenizer.consume();
    Ok(State::Next(StateName::HtmlTextCommentEnd))
}

/// In a comment, after two hyphens, which may be those that began it.
///
///     > | x<!--no-->y
///              ^   ^
pub fn comment_end(tokenizer: &mut Tokenizer) -> Result<State, AllocError>
    ensures ok { IfOk result (λ s. comment_end_step tokenizer.old ≡ record { state = s; left = tokenizer.new }) }
    ensures err { OnErr result (IsTrue tokenizer.new.failed) }
{
    let next = match tokenizer.current() {
        Some(b'>') => StateName::HtmlTextEnd,
        Some(b'-') => StateName::HtmlTextCommentClose,
        _ => StateName::HtmlTextComment,
    };
    Ok(State::Retry(next))
}

/// After `<![`, and so many codes of `CDATA[`.
///
///     > | x<![CDATA[2<3]]>y
///             ^^^^^^
pub fn cdata_open_inside(tokenizer: &mut Tokenizer) -> Result<State, AllocError>
    requires { tokenizer.old.tokenize_state.size < 6 }
    ensures ok { IfOk result (λ s. cdata_open_inside_step tokenizer.old ≡ record { state = s; left = tokenizer.new }) }
    ensures err { OnErr result (IsTrue tokenizer.new.failed) }
{
    let size = tokenizer.tokenize_state.size;
    if tokenizer.current() != Some(HTML_CDATA_PREFIX[size]) {
        tokenizer.tokenize_state.size = 0;
        return Ok(State::Nok);
    }
    tokenizer.consume();
    if size + 1 == HTML_CDATA_PREFIX.len() {
        tokenizer.tokenize_state.size = 0;
        Ok(State::Next(StateName::HtmlTextCdata))
    } else {
        tokenizer.tokenize_state.size = size + 1;
        Ok(State::Next(StateName::HtmlTextCdataOpenInside))
    }
}

/// In a CDATA section.
///
///     > | x<![CDATA[2<3]]>y
///                   ^^^^
pub fn cdata(tokenizer: &mut Tokenizer) -> Result<State, AllocError>
    ensures ok { IfOk result (λ s. cdata_step tokenizer.old ≡ record { state = s; left = tokenizer.new }) }
    ensures err { OnErr result (IsTrue tokenizer.new.failed) }
{
    pass_marked(
        tokenizer,
        b']',
        StateName::HtmlTextCdata,
        StateName::HtmlTextCdataClose,
    )
}

/// In a CDATA section, after `]`.
///
///     > | x<![CDATA[2<3]]>y
///                       ^
pub fn cdata_close(tokenizer: &mut Tokenizer) -> Result<State, AllocError>
    ensures ok { IfOk result (λ s. cdata_close_step tokenizer.old ≡ record { state = s; left = tokenizer.new }) }
    ensures err { OnErr result (IsTrue tokenizer.new.failed) }
{
    let Some(b']') = tokenizer.current() else {
        return Ok(State::Retry(StateName::HtmlTextCdata));
    };
    tokenizer.consume();
    Ok(State::Next(StateName::HtmlTextCdataEnd))
}

/// In a CDATA section, after `]]`.
///
///     > | x<![CDATA[2<3]]>y
///                        ^
pub fn cdata_end(tokenizer: &mut Tokenizer) -> Result<State, AllocError>
    ensures ok { IfOk result (λ s. cdata_end_step tokenizer.old ≡ record { state = s; left = tokenizer.new }) }
    ensures err { OnErr result (IsTrue tokenizer.new.failed) }
{
    let next = match tokenizer.current() {
        Some(b'>') => StateName::HtmlTextEnd,
        Some(b']') => StateName::HtmlTextCdataClose,
        _ => StateName::HtmlTextCdata,
    };
    Ok(State::Retry(next))
}

/// In a declaration.
///
///     > | x<!DTD 1>y
///             ^^^^^
pub fn declaration(tokenizer: &mut Tokenizer) -> Result<State, AllocError>
    ensures ok { IfOk result (λ s. declaration_step tokenizer.old ≡ record { state = s; left = tokenizer.new }) }
    ensures err { OnErr result (IsTrue tokenizer.new.failed) }
{
    match tokenizer.current() {
        None | Some(b'>') => Ok(State::Retry(StateName::HtmlTextEnd)),
        Some(b'\n') => break_line(tokenizer, StateName::HtmlTextDeclaration),
        Some(_) => {
            tokenizer.consume();
            Ok(State::Next(StateName::HtmlTextDeclaration))
        }
    }
}

/// In an instruction.
///
///     > | x<?go?>y
///            ^^^
pub fn instruction(tokenizer: &mut Tokenizer) -> Result<State, AllocError>
    ensures ok { IfOk result (λ s. instruction_step tokenizer.old ≡ record { state = s; left = tokenizer.new }) }
    ensures err { OnErr result (IsTrue tokenizer.new.failed) }
{
    pass_marked(
        tokenizer,
        b'?',
        StateName::HtmlTextInstruction,
        StateName::HtmlTextInstructionClose,
    )
}

/// In an instruction, after `?`.
///
///     > | x<?go?>y
///               ^
pub fn instruction_close(tokenizer: &mut Tokenizer) -> Result<State, AllocError>
    ensures ok { IfOk result (λ s. instruction_close_step tokenizer.old ≡ record { state = s; left = tokenizer.new }) }
    ensures err { OnErr result (IsTrue tokenizer.new.failed) }
{
    let next = match tokenizer.current() {
        Some(b'>') => StateName::HtmlTextEnd,
        _ => StateName::HtmlTextInstruction,
    };
    Ok(State::Retry(next))
}

/// After `</`: the name of a closing tag.
///
///     > | x</em>y
///            ^
pub fn tag_close_start(tokenizer: &mut Tokenizer) -> Result<State, AllocError>
    ensures ok { IfOk result (λ s. tag_close_start_step tokenizer.old ≡ record { state = s; left = tokenizer.new }) }
    ensures err { OnErr result (IsTrue tokenizer.new.failed) }
{
    match tokenizer.current() {
        Some(code) if is_letter(code) => {
            tokenizer.consume();
            Ok(State::Next(StateName::HtmlTextTagClose))
        }
        _ => Ok(State::Nok),
    }
}

/// In the name of a closing tag.
///
///     > | x</em>y
///             ^^
pub fn tag_close(tokenizer: &mut Tokenizer) -> Result<State, AllocError>
    ensures ok { IfOk result (λ s. tag_close_step tokenizer.old ≡ record { state = s; left = tokenizer.new }) }
    ensures err { OnErr result (IsTrue tokenizer.new.failed) }
{
    match tokenizer.current() {
        Some(code) if is_name(code) => {
            tokenizer.consume();
            Ok(State::Next(StateName::HtmlTextTagClose))
        }
        _ => Ok(State::Retry(StateName::HtmlTextTagCloseBetween)),
    }
}

/// In a closing tag, after its name.
///
///     > | x</em >y
///              ^^
pub fn tag_close_between(tokenizer: &mut Tokenizer) -> Result<State, AllocError>
    ensures ok { IfOk result (λ s. tag_close_between_step tokenizer.old ≡ record { state = s; left = tokenizer.new }) }
    ensures err { OnErr result (IsTrue tokenizer.new.failed) }
{
    match tokenizer.current() {
        Some(b'\n') => break_line(tokenizer, StateName::HtmlTextTagCloseBetween),
        Some(b' ' | b'\t') => {
            tokenizer.consume();
            Ok(State::Next(StateName::HtmlTextTagCloseBetween))
        }
        _ => Ok(State::Retry(StateName::HtmlTextEnd)),
    }
}

/// In the name of an opening tag.
///
///     > | x<br>y
///            ^^
pub fn tag_open(tokenizer: &mut Tokenizer) -> Result<State, AllocError>
    ensures ok { IfOk result (λ s. tag_open_step tokenizer.old ≡ record { state = s; left = tokenizer.new }) }
    ensures err { OnErr result (IsTrue tokenizer.new.failed) }
{
    match tokenizer.current() {
        Some(code) if is_after_value(code) => Ok(State::Retry(StateName::HtmlTextTagOpenBetween)),
        Some(code) if is_name(code) => {
            tokenizer.consume();
            Ok(State::Next(StateName::HtmlTextTagOpen))
        }
        _ => Ok(State::Nok),
    }
}

/// In an opening tag, after its name or an attribute, and whitespace.
///
///     > | x<br id>y
///             ^^ ^
pub fn tag_open_between(tokenizer: &mut Tokenizer) -> Result<State, AllocError>
    ensures ok { IfOk result (λ s. tag_open_between_step tokenizer.old ≡ record { state = s; left = tokenizer.new }) }
    ensures err { OnErr result (IsTrue tokenizer.new.failed) }
{
    let next = match tokenizer.current() {
        Some(b'\n') => return break_line(tokenizer, StateName::HtmlTextTagOpenBetween),
        Some(b' ' | b'\t') => StateName::HtmlTextTagOpenBetween,
        Some(b'/') => StateName::HtmlTextEnd,
        Some(code) if is_attribute_first(code) => StateName::HtmlTextTagOpenAttributeName,
        _ => return Ok(State::Retry(StateName::HtmlTextEnd)),
    };
    tokenizer.consume();
    Ok(State::Next(next))
}

/// In the name of an attribute.
///
///     > | x<br id>y
///               ^^
pub fn tag_open_attribute_name(tokenizer: &mut Tokenizer) -> Result<State, AllocError>
    ensures ok { IfOk result (λ s. tag_open_attribute_name_step tokenizer.old ≡ record { state = s; left = tokenizer.new }) }
    ensures err { OnErr result (IsTrue tokenizer.new.failed) }
{
    match tokenizer.current() {
        Some(code) if is_attribute(code) => {
            tokenizer.consume();
            Ok(State::Next(StateName::HtmlTextTagOpenAttributeName))
        }
        _ => Ok(State::Retry(StateName::HtmlTextTagOpenAttributeNameAfter)),
    }
}

/// After the name of an attribute, and whitespace.
///
///     > | x<br id = 78>y
///                ^^
pub fn tag_open_attribute_name_after(tokenizer: &mut Tokenizer) -> Result<State, AllocError>
    ensures ok { IfOk result (λ s. tag_open_attribute_name_after_step tokenizer.old ≡ record { state = s; left = tokenizer.new }) }
    ensures err { OnErr result (IsTrue tokenizer.new.failed) }
{
    let next = match tokenizer.current() {
        Some(b'\n') => return break_line(tokenizer, StateName::HtmlTextTagOpenAttributeNameAfter),
        Some(b' ' | b'\t') => StateName::HtmlTextTagOpenAttributeNameAfter,
        Some(b'=') => StateName::HtmlTextTagOpenAttributeValueBefore,
        _ => return Ok(State::Retry(StateName::HtmlTextTagOpenBetween)),
    };
    tokenizer.consume();
    Ok(State::Next(next))
}

/// Before the value of an attribute, after its `=`.
///
///     > | x<br id = 78>y
///                  ^^
pub fn tag_open_attribute_value_before(tokenizer: &mut Tokenizer) -> Result<State, AllocError>
    ensures ok { IfOk result (λ s. tag_open_attribute_value_before_step tokenizer.old ≡ record { state = s; left = tokenizer.new }) }
    ensures err { OnErr result (IsTrue tokenizer.new.failed) }
{
    let next = match tokenizer.current() {
        None | Some(b'<' | b'=' | b'>' | b'`') => return Ok(State::Nok),
        Some(b'\n') => {
            return break_line(tokenizer, StateName::HtmlTextTagOpenAttributeValueBefore);
        }
        Some(code @ (b'"' | b'\'')) => {
            tokenizer.consume();
            tokenizer.tokenize_state.marker = code;
            return Ok(State::Next(StateName::HtmlTextTagOpenAttributeValueQuoted));
        }
        Some(b' ' | b'\t') => StateName::HtmlTextTagOpenAttributeValueBefore,
        Some(_) => StateName::HtmlTextTagOpenAttributeValueUnquoted,
    };
    tokenizer.consume();
    Ok(State::Next(next))
}

/// In a quoted value.
///
///     > | x<br id='78'>y
///                  ^^^
pub fn tag_open_attribute_value_quoted(tokenizer: &mut Tokenizer) -> Result<State, AllocError>
    ensures ok { IfOk result (λ s. tag_open_attribute_value_quoted_step tokenizer.old ≡ record { state = s; left = tokenizer.new }) }
    ensures err { OnErr result (IsTrue tokenizer.new.failed) }
{
    let marker = tokenizer.tokenize_state.marker;
    match tokenizer.current() {
        None => {
            tokenizer.tokenize_state.marker = 0;
            Ok(State::Nok)
        }
        Some(code) if code == marker => {
            tokenizer.consume();
            tokenizer.tokenize_state.marker = 0;
            Ok(State::Next(StateName::HtmlTextTagOpenAttributeValueQuotedAfter))
        }
        Some(b'\n') => break_line(tokenizer, StateName::HtmlTextTagOpenAttributeValueQuoted),
        Some(_) => {
            tokenizer.consume();
            Ok(State::Next(StateName::HtmlTextTagOpenAttributeValueQuoted))
        }
    }
}

/// After a quoted value.
///
///     > | x<br id='78'>y
///                     ^
pub fn tag_open_attribute_value_quoted_after(tokenizer: &mut Tokenizer) -> Result<State, AllocError>
    ensures ok { IfOk result (λ s. tag_open_attribute_value_quoted_after_step tokenizer.old ≡ record { state = s; left = tokenizer.new }) }
    ensures err { OnErr result (IsTrue tokenizer.new.failed) }
{
    Ok(match tokenizer.current() {
        Some(code) if is_after_value(code) => State::Retry(StateName::HtmlTextTagOpenBetween),
        _ => State::Nok,
    })
}

/// In an unquoted value, after its first code.
///
///     > | x<br id=78>y
///                  ^^
pub fn tag_open_attribute_value_unquoted(tokenizer: &mut Tokenizer) -> Result<State, AllocError>
    ensures ok { IfOk result (λ s. tag_open_attribute_value_unquoted_step tokenizer.old ≡ record { state = s; left = tokenizer.new }) }
    ensures err { OnErr result (IsTrue tokenizer.new.failed) }
{
    let slashes = tokenizer.parse_state.options.rules().slashes_in_values;
    match tokenizer.current() {
        None | Some(b'"' | b'\'' | b'<' | b'=' | b'`') => Ok(State::Nok),
        Some(code) if ends_unquoted(code, slashes) => {
            Ok(State::Retry(StateName::HtmlTextTagOpenBetween))
        }
        Some(_) => {
            tokenizer.consume();
            Ok(State::Next(StateName::HtmlTextTagOpenAttributeValueUnquoted))
        }
    }
}

/// At the `>` that ends it.
///
///     > | x<br>y
///             ^
pub fn end(tokenizer: &mut Tokenizer) -> Result<State, AllocError>
    requires { AreOpen HtmlTextData HtmlText tokenizer.old }
    ensures ok { IfOk result (λ s. end_step tokenizer.old ≡ record { state = s; left = tokenizer.new }) }
    ensures err { OnErr result (IsTrue tokenizer.new.failed) }
{
    match tokenizer.current() {
        Some(b'>') => {
            tokenizer.consume();
            tokenizer.exit(Name::HtmlTextData)?;
            tokenizer.exit(Name::HtmlText)?;
            Ok(State::Ok)
        }
        _ => Ok(State::Nok),
    }
}

/// At a line ending: the data of the line ends.
///
///     > | x<br
///             ^
///       |   id>y
pub fn line_ending_before(tokenizer: &mut Tokenizer) -> Result<State, AllocError>
    requires open { AreOpen HtmlTextData HtmlText tokenizer.old }
    requires code { current_of tokenizer.old ≡ Some (byte "\n") }
    ensures ok { IfOk result (λ s. line_ending_before_step tokenizer.old ≡ record { state = s; left = tokenizer.new }) }
    ensures err { OnErr result (IsTrue tokenizer.new.failed) }
{
    tokenizer.exit(Name::HtmlTextData)?;
    pass_line_ending(tokenizer)
}

/// After a line ending: the blank codes at the start of the line.
///
///       | x<br
///     > |   id>y
///         ^
pub fn line_ending_after(tokenizer: &mut Tokenizer) -> Result<State, AllocError>
    ensures ok { IfOk result (λ s. line_ending_after_step tokenizer.old ≡ record { state = s; left = tokenizer.new }) }
    ensures err { OnErr result (IsTrue tokenizer.new.failed) }
{
    match tokenizer.current() {
        Some(b' ' | b'\t') => {
            let blank = space_or_tab(tokenizer);
            tokenizer.attempt(
                State::Next(StateName::HtmlTextLineEndingAfterPrefix),
                State::Nok,
            )?;
            Ok(State::Retry(blank))
        }
        _ => Ok(State::Retry(StateName::HtmlTextLineEndingAfterPrefix)),
    }
}

/// After the blank codes at the start of a line: its data, or the line ending of a blank line, which has none.
///
///       | x<br
///     > |   id>y
///           ^
pub fn line_ending_after_prefix(tokenizer: &mut Tokenizer) -> Result<State, AllocError>
    ensures ok { IfOk result (λ s. line_ending_after_prefix_step tokenizer.old ≡ record { state = s; left = tokenizer.new }) }
    ensures err { OnErr result (IsTrue tokenizer.new.failed) }
{
    match tokenizer.current() {
        Some(b'\n') => pass_line_ending(tokenizer),
        _ => {
            tokenizer.enter(Name::HtmlTextData)?;
            Ok(State::Ok)
        }
    }
}
