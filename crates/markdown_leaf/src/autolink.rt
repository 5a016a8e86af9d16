//! The states of autolinks: a URI or an email address between angle brackets (CommonMark 6.5).
//!
//!     autolink ::= '<' (uri | email_address) '>'
//!     uri ::= scheme ':' (code - (ascii_control | ' ' | '<' | '>'))*
//!     scheme ::= letter (letter | digit | '+' | '-' | '.'){1,31}
//!     email_address ::= local+ '@' domain_label ('.' domain_label)*
//!     local ::= letter | digit | one of # $ % & ' * + - . / = ? ^ _ ` { | } ~, and by CommonMark's rule !
//!     domain_label ::= alphanumeric ((alphanumeric | '-'){0,61} alphanumeric)?
//!     alphanumeric ::= letter | digit
//!
//! Events:
//!
//!     Autolink
//!       AutolinkMarker                       `<`
//!       AutolinkProtocol or AutolinkEmail    the URI or the address
//!       AutolinkMarker                       `>`
//!
//! Example: `<https://a.b/c>` and `<d@e.f>`.
//!
//! Definition: `autolink` in `markdown_model/specs/LeafConstructs.antt`.
//!
//! Each state answers the error where a growth is refused; then `failed` is true.
#![tactic(auto, using(markdown_engine::proofs::OperationFields::op_rules), unfolding(markdown_engine::specs::Operations::scratched))]

ghost use Rattle.std.specs.Prelude.{◌≡◌};
ghost use Rattle.markdown_engine.specs.Operations.{HasCode, current_of};
ghost use Rattle.markdown_event.specs.declared.event.Name.TheVariants.{Autolink};
ghost use Rattle.markdown_plan.specs.ScratchFields.{AreOpen};
ghost use Rattle.markdown_leaf.specs.Autolink.{scheme_value, local_value, uri_ends, uri_stops, uri_value, refused, finished, start_step, open_step, scheme_or_step, scheme_inside_step, url_inside_step, email_atext_step, email_at_sign_or_dot_step, in_label_at, email_value_step, email_label_step, AutolinkInsideReady, FreshReady, SchemeReady, LabelReady};
ghost use Rattle.markdown_plan.specs.StateCalls.{Steps};

use crate::marks::close;
use crate::renaming::rename_entered;
use markdown_content::byte_table;
use markdown_content::bytes::{ByteSet, ByteTable};
use markdown_engine::tokenizer::Tokenizer;
use markdown_event::event::Name;
use markdown_event::state::{State, StateName};
use markdown_plan::bytes::{is_alphanumeric, is_letter};
use markdown_util::util::constant::{AUTOLINK_DOMAIN_SIZE_MAX, AUTOLINK_SCHEME_SIZE_MAX};
use std::alloc::AllocError;

// The link does not hold.
fn refuse(tokenizer: &mut Tokenizer) -> State
    ensures { refused tokenizer.old ≡ record { state = result; left = tokenizer.new } }
{
    tokenizer.tokenize_state.size = 0;
    State::Nok
}

// The link ends at the bracket at hand.
fn finish(tokenizer: &mut Tokenizer, name: Name) -> Result<State, AllocError>
    requires open { AreOpen name Autolink tokenizer.old }
    requires code { HasCode tokenizer.old }
    ensures { Steps (finished name) tokenizer.old result tokenizer.new }
{
    close(tokenizer, name, Name::AutolinkMarker, Name::Autolink)?;
    tokenizer.tokenize_state.size = 0;
    Ok(State::Ok)
}

/// At the start of an autolink: the bracket.
///
///     > | <ftp:x> or <me@b.c>
///         ^          ^
pub fn start(tokenizer: &mut Tokenizer) -> Result<State, AllocError>
    ensures { Steps start_step tokenizer.old result tokenizer.new }
{
    if tokenizer.parse_state.options.constructs.autolink && tokenizer.current() == Some(b'<') {
        tokenizer.enter(Name::Autolink)?;
        tokenizer.take(Name::AutolinkMarker)?;
        tokenizer.enter(Name::AutolinkProtocol)?;
        Ok(State::Next(StateName::AutolinkOpen))
    } else {
        Ok(State::Nok)
    }
}

/// After the bracket: a scheme or an address.
///
///     > | <ftp:x> or <me@b.c>
///          ^          ^
pub fn open(tokenizer: &mut Tokenizer) -> Result<State, AllocError>
    requires { FreshReady tokenizer.old }
    ensures { Steps open_step tokenizer.old result tokenizer.new }
{
    match tokenizer.current() {
        Some(code) if is_letter(code) => {
            tokenizer.consume();
            Ok(State::Next(StateName::AutolinkSchemeOrEmailAtext))
        }
        Some(b'@') => Ok(refuse(tokenizer)),
        _ => Ok(State::Retry(StateName::AutolinkEmailAtext)),
    }
}

/// After one letter: a scheme goes on, or an address.
///
///     > | <ftp:x> or <me@b.c>
///           ^          ^
pub fn scheme_or_email_atext(tokenizer: &mut Tokenizer) -> Result<State, AllocError>
    requires { FreshReady tokenizer.old }
    ensures { Steps scheme_or_step tokenizer.old result tokenizer.new }
{
    match tokenizer.current() {
        Some(code) if is_scheme(code) => {
            tokenizer.tokenize_state.size = 1;
            Ok(State::Retry(StateName::AutolinkSchemeInsideOrEmailAtext))
        }
        _ => Ok(State::Retry(StateName::AutolinkEmailAtext)),
    }
}

/// In a scheme, which may be the front of an address.
///
///     > | <ftp:x> or <me@b.c>
///           ^^^        ^^
pub fn scheme_inside_or_email_atext(tokenizer: &mut Tokenizer) -> Result<State, AllocError>
    requires { SchemeReady tokenizer.old }
    ensures { Steps scheme_inside_step tokenizer.old result tokenizer.new }
{
    let passed = tokenizer.tokenize_state.size;
    let (size, next) = match tokenizer.current() {
        Some(b':') => (0, StateName::AutolinkUrlInside),
        Some(code) if is_scheme(code) && passed < AUTOLINK_SCHEME_SIZE_MAX => {
            (passed + 1, StateName::AutolinkSchemeInsideOrEmailAtext)
        }
        _ => {
            tokenizer.tokenize_state.size = 0;
            return Ok(State::Retry(StateName::AutolinkEmailAtext));
        }
    };
    tokenizer.consume();
    tokenizer.tokenize_state.size = size;
    Ok(State::Next(next))
}

/// After the colon of a URI.
///
///     > | <ftp:x>
///              ^^
pub fn url_inside(tokenizer: &mut Tokenizer) -> Result<State, AllocError>
    requires { AutolinkInsideReady tokenizer.old }
    ensures { Steps url_inside_step tokenizer.old result tokenizer.new }
{
    let replaced = tokenizer.parse_state.options.rules().nul_is_replaced;
    match tokenizer.current() {
        Some(b'>') => finish(tokenizer, Name::AutolinkProtocol),
        Some(code) if is_uri(code, replaced) => {
            tokenizer.consume();
            Ok(State::Next(StateName::AutolinkUrlInside))
        }
        _ => Ok(refuse(tokenizer)),
    }
}

const URI_STOPS: ByteTable = byte_table!(0, b' ', b'<', b'>'; controls);

/// The bytes at which alone a URI may do other than go on, line endings aside: a space, an angle bracket and the controls. Takes no memory.
pub fn uri_stops() -> ByteSet
    ensures { result ≡ uri_stops }
{
    ByteSet::new(&URI_STOPS)
}

const URI_ENDS: ByteTable = byte_table!(b' ', b'<', b'>'; controls);

/// The bytes at which a URI ends, line endings aside: a space, an angle bracket and the controls, but for NUL where it is `replaced` by U+FFFD.
/// Takes no memory.
pub fn uri_ends(replaced: bool) -> ByteSet
    ensures { result ≡ uri_ends replaced }
{
    if replaced {
        ByteSet::new(&URI_ENDS)
    } else {
        uri_stops()
    }
}

/// In an address before its `@`.
///
///     > | <o_k@x-1.org>
///           ^^^
pub fn email_atext(tokenizer: &mut Tokenizer) -> Result<State, AllocError>
    requires { FreshReady tokenizer.old }
    ensures { Steps email_atext_step tokenizer.old result tokenizer.new }
{
    let all = tokenizer.parse_state.options.rules().all_address_marks;
    let next = match tokenizer.current() {
        Some(b'@') => StateName::AutolinkEmailAtSignOrDot,
        Some(code) if is_local(code, all) => StateName::AutolinkEmailAtext,
        _ => return Ok(refuse(tokenizer)),
    };
    tokenizer.consume();
    Ok(State::Next(next))
}

/// After the `@` or a dot: a label, which starts with a letter or a digit.
///
///     > | <o_k@x-1.org>
///              ^   ^
pub fn email_at_sign_or_dot(tokenizer: &mut Tokenizer) -> Result<State, AllocError>
    requires { FreshReady tokenizer.old }
    ensures { Steps email_at_sign_or_dot_step tokenizer.old result tokenizer.new }
{
    match tokenizer.current() {
        Some(code) if is_alphanumeric(code) => Ok(State::Retry(StateName::AutolinkEmailValue)),
        _ => Ok(refuse(tokenizer)),
    }
}

// At a code of a label, which may have so many.
fn in_label(tokenizer: &mut Tokenizer) -> State
    requires { LabelReady tokenizer.old }
    ensures { in_label_at (current_of tokenizer.old) tokenizer.old ≡ record { state = result; left = tokenizer.new } }
{
    let size = tokenizer.tokenize_state.size;
    let next = match tokenizer.current() {
        Some(code) if size < AUTOLINK_DOMAIN_SIZE_MAX && is_alphanumeric(code) => {
            StateName::AutolinkEmailLabel
        }
        Some(b'-') if size < AUTOLINK_DOMAIN_SIZE_MAX => StateName::AutolinkEmailValue,
        _ => return refuse(tokenizer),
    };
    tokenizer.consume();
    tokenizer.tokenize_state.size = size + 1;
    State::Next(next)
}

/// In a label, after a letter or a digit: the label may end.
///
///     > | <o_k@x-1.org>
///               ^ ^ ^^^
#[tactic(auto, using(markdown_plan::proofs::RenameLemmas::rename_rules), unfolding(markdown_engine::specs::Operations::scratched))]
pub fn email_label(tokenizer: &mut Tokenizer) -> Result<State, AllocError>
    requires { LabelReady tokenizer.old }
    ensures { Steps email_label_step tokenizer.old result tokenizer.new }
{
    match tokenizer.current() {
        Some(b'.') => {
            tokenizer.consume();
            tokenizer.tokenize_state.size = 0;
            Ok(State::Next(StateName::AutolinkEmailAtSignOrDot))
        }
        Some(b'>') => {
            rename_entered(tokenizer, Name::AutolinkEmail)?;
            finish(tokenizer, Name::AutolinkEmail)
        }
        _ => Ok(State::Retry(StateName::AutolinkEmailValue)),
    }
}

/// In a label: a letter or a digit, behind which it may end, or a hyphen, behind which it goes on.
///
///     > | <o_k@x-1.org>
///              ^^^ ^^^
pub fn email_value(tokenizer: &mut Tokenizer) -> Result<State, AllocError>
    requires { LabelReady tokenizer.old }
    ensures { Steps email_value_step tokenizer.old result tokenizer.new }
{
    Ok(in_label(tokenizer))
}

// Whether a scheme may have it.
fn is_scheme(code: u8) -> bool
    ensures { result ≡ scheme_value code }
{
    is_alphanumeric(code) || matches!(code, b'+' | b'-' | b'.')
}

// Whether an address may have it before its `@`; `all` says that all of CommonMark's marks may stand there.
fn is_local(code: u8, all: bool) -> bool
    ensures { result ≡ local_value all code }
{
    is_alphanumeric(code)
        || matches!(code, b'#'..=b'\'' | b'*'..=b'+' | b'-'..=b'/' | b'=' | b'?' | b'^'..=b'`' | b'{'..=b'~')
        || code == b'!' && all
}

// Whether a URI may have it: no control, no space, no angle bracket. NUL is no control where it is `replaced` by U+FFFD.
fn is_uri(code: u8, replaced: bool) -> bool
    ensures { result ≡ uri_value replaced code }
{
    !matches!(code, 1..=b' ' | b'<' | b'>' | 0x7f) && (code != 0 || replaced)
}
