//! The states of autolink literals with a protocol or from `www.` on (GFM 6.9). The pass of email literals is in `markdown_passes`.
//!
//!     protocol_literal ::= scheme domain path                  a scheme is one of `SCHEMES`, such as 'https://'
//!     www_literal ::= domain path                              where 'www.' and a further code stand
//!     domain ::= (other | '-' | '.' | '_')+                    no '.' or '_' at which a trail begins
//!     path ::= code*                                           up to whitespace, a trail or the end
//!     trail ::= (mark | ']' | '&' letter+ ';')* trail_end
//!     mark ::= one of ! " ' ) , * . : ; ? _ ~
//!     trail_end ::= '<' | ']' before whitespace, '(', '[' or the end | nothing, before whitespace or the document's end
//!
//! Letters stand in either case. No letter stands before a protocol; before `www.` stands nothing, whitespace or one of `(*_[]~`. A domain holds
//! a character that is none of `.`, `_` and `-`, and neither of its last two parts between dots holds `_`. A `)` that closes a `(` of the path
//! belongs to it. `other` and whitespace are classes of the document's characters; literals end with the content at the latest.
//!
//! Events, over the whole literal:
//!
//!     GfmAutolinkLiteralProtocol or GfmAutolinkLiteralWww
//!
//! Example: in `see www.a.b/c.` the literal is `www.a.b/c`.
//!
//! Definition: `gfm_autolink_literal_protocol` and `gfm_autolink_literal_www` in `markdown_model/specs/GfmAutolinkLiteral.antt`.
//!
//! Each state answers the error where a growth is refused; then `failed` is true.
#![tactic(auto, using(markdown_engine::proofs::OperationFields::op_rules), unfolding(markdown_engine::specs::Operations::scratched))]

ghost use Rattle.std.specs.Prelude.{◌≡◌, ◌<◌, ◌+◌, false, map, Some, IfOk, OnErr, IsTrue};
ghost use Rattle.markdown_engine.specs.Operations.{HasCode, IsOpen, current_of, scratched};
ghost use Rattle.markdown_event.specs.declared.event.Name.TheVariants.{GfmAutolinkLiteralProtocol, GfmAutolinkLiteralWww};
ghost use Rattle.markdown_model.specs.GfmAutolinkLiteral.{schemes};
ghost use Rattle.markdown_plan.specs.Characters.{at_later};
ghost use Rattle.markdown_partial.specs.PartialSpaceOrTab.{most};
ghost use Rattle.markdown_leaf_gfm.specs.GfmAutolinkLiteral.{kind_here, trail_value, mark_value, known_after, is_known, count_value, stands_for, is_named, one_named, longest, begins_scheme, marked, domain_on, rested, refused, protocol_start_step, protocol_after_step, prefix_step, slashes_step, precedes_www, www_letter, is_ruled_out};
ghost use Rattle.markdown_leaf_gfm.specs.GfmAutolinkLiteral.{www_start_step, www_prefix_step, www_prefix_after_step, www_after_step, looked, domain_step, domain_punctuation_step, domain_after_step, passing, path_step, path_punctuation_step, path_after_step, trail_step, bracket_after_step, reference_start_step, reference_step, MayClass, MayName, TrailReady, MayCount};

use markdown_engine::tokenizer::{TokenizeState, Tokenizer};
use markdown_event::event::Name;
use markdown_event::state::{State, StateName};
use markdown_partial::literal_letters;
use markdown_partial::literal_words::SCHEMES;
use markdown_plan::bytes::is_letter;
use markdown_util::util::char::{Kind, kind_after_index};
use std::alloc::AllocError;

// The size of the longest name of a scheme, `https`.
const LONGEST_NAME: usize = 5;

// Puts the scratch fields of literals to rest.
fn rest(tokenizer: &mut Tokenizer)
    ensures { tokenizer.new ≡ scratched (rested tokenizer.old.tokenize_state) tokenizer.old }
{
    tokenizer.tokenize_state.start = 0;
    tokenizer.tokenize_state.marker = 0;
    tokenizer.tokenize_state.marker_b = 0;
    tokenizer.tokenize_state.size = 0;
    tokenizer.tokenize_state.size_b = 0;
    tokenizer.tokenize_state.seen = false;
}

// The literal does not hold.
fn refuse(tokenizer: &mut Tokenizer) -> State
    ensures { refused tokenizer.old ≡ record { state = result; left = tokenizer.new } }
{
    rest(tokenizer);
    State::Nok
}

// The class of the document's character at the place.
fn class_here(tokenizer: &Tokenizer) -> Kind
    requires class { MayClass tokenizer.now }
    requires begins { at_later (current_of tokenizer.now) ≡ false }
    ensures { result ≡ kind_here tokenizer.now }
{
    kind_after_index(tokenizer.parse_state.bytes, tokenizer.point().index)
}

// Whether the code is this letter, which is given in lower case, in either case.
fn stands_for(letter: u8, code: u8) -> bool
    ensures { result ≡ stands_for letter code }
{
    code == letter || (is_letter(code) && code + 32 == letter)
}

// Whether the word has this name before its colon.
fn is_named(mut name: &[u8], mut word: &[u8]) -> bool
    ensures { result ≡ is_named name.entry.now word.entry.now }
{
    while let [letter, rest @ ..] = word {
        match name {
            [code, more @ ..] if stands_for(*letter, *code) => name = more,
            [] => return *letter == b':',
            _ => return false,
        }
        word = rest;
    }
    false
}

// Whether one of these words has this name.
fn one_named(mut words: &[&[u8]], name: &[u8]) -> bool
    ensures { result ≡ one_named (map (λ w. w.now) words.entry.now) name.now }
{
    while let [word, rest @ ..] = words {
        if is_named(name, word) {
            return true;
        }
        words = rest;
    }
    false
}

// Whether a literal with a protocol may begin with this byte.
macro_rules! begins_scheme_of {
    ($byte:ident schemes { $([$($first:literal)*] then [$($second:literal)*];)* } www $www:tt) => {
        matches!($byte, $($($first)|*)|*)
    };
}

// Whether a scheme may begin with this code.
fn begins_scheme(code: u8) -> bool
    ensures { result ≡ begins_scheme code }
{
    literal_letters!(begins_scheme_of code)
}

// Whether this is the code of this number of `www.`, the letters in either case.
fn is_www_letter(number: usize, code: u8) -> bool
    ensures { result ≡ www_letter number code }
{
    match number {
        0 | 1 | 2 => matches!(code, b'w' | b'W'),
        3 => code == b'.',
        _ => false,
    }
}

// Whether `www.` may stand after this code.
fn may_precede_www(previous: Option<u8>) -> bool
    ensures { result ≡ precedes_www previous }
{
    matches!(
        previous,
        None | Some(b' ' | b'\t' | b'\n' | b'(' | b'*' | b'_' | b'[' | b']' | b'~')
    )
}

// Whether this is trailing punctuation by itself.
pub(crate) fn is_trail(code: u8) -> bool
    ensures { result ≡ trail_value code }
{
    matches!(
        code,
        b'!' | b'"' | b'\'' | b')' | b',' | b'*' | b'.' | b':' | b';' | b'?' | b'_' | b'~'
    )
}

// Whether a path may end at this code.
fn is_mark(code: u8) -> bool
    ensures { result ≡ mark_value code }
{
    matches!(
        code,
        b'!' | b'"'
            | b'&'
            | b'\''
            | b')'
            | b','
            | b'*'
            | b'.'
            | b':'
            | b';'
            | b'<'
            | b'?'
            | b']'
            | b'_'
            | b'~'
    )
}

/// At the start of a literal with a protocol: its first letter, with no letter before it.
///
///     > | to http://a.b/c and
///            ^
pub fn protocol_start(tokenizer: &mut Tokenizer) -> Result<State, AllocError>
    ensures ok { IfOk result (λ s. protocol_start_step tokenizer.old ≡ record { state = s; left = tokenizer.new }) }
    ensures err { OnErr result (IsTrue tokenizer.new.failed) }
{
    let letter_before = match tokenizer.previous() {
        Some(code) => is_letter(code),
        None => false,
    };
    let letter_here = match tokenizer.current() {
        Some(code) => begins_scheme(code),
        None => false,
    };
    if tokenizer
        .parse_state
        .options
        .constructs
        .gfm_autolink_literal
        && !letter_before
        && letter_here
    {
        tokenizer.enter(Name::GfmAutolinkLiteralProtocol)?;
        tokenizer.tokenize_state.start = tokenizer.point().index;
        tokenizer.attempt(
            State::Next(StateName::GfmAutolinkLiteralProtocolAfter),
            State::Nok,
        )?;
        tokenizer.attempt(
            State::Next(StateName::GfmAutolinkLiteralDomainInside),
            State::Nok,
        )?;
        Ok(State::Retry(StateName::GfmAutolinkLiteralProtocolPrefixInside))
    } else {
        Ok(State::Nok)
    }
}

/// After a literal with a protocol.
///
///     > | to http://a.b/c and
///                        ^
pub fn protocol_after(tokenizer: &mut Tokenizer) -> Result<State, AllocError>
    requires { IsOpen GfmAutolinkLiteralProtocol tokenizer.old }
    ensures ok { IfOk result (λ s. protocol_after_step tokenizer.old ≡ record { state = s; left = tokenizer.new }) }
    ensures err { OnErr result (IsTrue tokenizer.new.failed) }
{
    tokenizer.exit(Name::GfmAutolinkLiteralProtocol)?;
    Ok(State::Ok)
}

/// In the name of a protocol, which begins at the byte `start`, or at its colon.
///
///     > | to http://a.b/c and
///            ^^^^^
pub fn protocol_prefix_inside(tokenizer: &mut Tokenizer) -> Result<State, AllocError>
    requires { MayName tokenizer.old }
    ensures ok { IfOk result (λ s. prefix_step tokenizer.old ≡ record { state = s; left = tokenizer.new }) }
    ensures err { OnErr result (IsTrue tokenizer.new.failed) }
{
    let start = tokenizer.tokenize_state.start;
    let index = tokenizer.point().index;
    match tokenizer.current() {
        Some(code) if is_letter(code) && index - start < LONGEST_NAME => {
            tokenizer.consume();
            Ok(State::Next(StateName::GfmAutolinkLiteralProtocolPrefixInside))
        }
        Some(b':') if one_named(&SCHEMES, &tokenizer.parse_state.bytes[start..index]) => {
            tokenizer.consume();
            tokenizer.tokenize_state.start = 0;
            Ok(State::Next(StateName::GfmAutolinkLiteralProtocolSlashesInside))
        }
        _ => {
            tokenizer.tokenize_state.start = 0;
            Ok(State::Nok)
        }
    }
}

/// At the slashes after a protocol, of which `size` are passed.
///
///     > | to http://a.b/c and
///                 ^^
pub fn protocol_slashes_inside(tokenizer: &mut Tokenizer) -> Result<State, AllocError>
    ensures ok { IfOk result (λ s. slashes_step tokenizer.old ≡ record { state = s; left = tokenizer.new }) }
    ensures err { OnErr result (IsTrue tokenizer.new.failed) }
{
    match tokenizer.current() {
        Some(b'/') => {
            tokenizer.consume();
            if tokenizer.tokenize_state.size == 0 {
                tokenizer.tokenize_state.size = 1;
                Ok(State::Next(StateName::GfmAutolinkLiteralProtocolSlashesInside))
            } else {
                tokenizer.tokenize_state.size = 0;
                Ok(State::Ok)
            }
        }
        _ => Ok(refuse(tokenizer)),
    }
}

/// Whether it is known that no domain begins at the place, so that no literal from `www.` on does. Takes no memory.
pub fn is_ruled_out(tokenizer: &Tokenizer) -> bool
    ensures { result ≡ is_ruled_out tokenizer.now }
{
    match &tokenizer.tokenize_state.no_domains {
        Some(places) => places.holds(tokenizer.cursor.passed()),
        None => false,
    }
}

/// At the start of a literal from `www.` on: its first letter. The word is only looked at: it belongs to the domain.
///
///     > | to www.a.b and
///            ^
pub fn www_start(tokenizer: &mut Tokenizer) -> Result<State, AllocError>
    ensures ok { IfOk result (λ s. www_start_step tokenizer.old ≡ record { state = s; left = tokenizer.new }) }
    ensures err { OnErr result (IsTrue tokenizer.new.failed) }
{
    if tokenizer
        .parse_state
        .options
        .constructs
        .gfm_autolink_literal
        && may_precede_www(tokenizer.previous())
        && matches!(tokenizer.current(), Some(b'w' | b'W'))
    {
        tokenizer.enter(Name::GfmAutolinkLiteralWww)?;
        tokenizer.attempt(
            State::Next(StateName::GfmAutolinkLiteralWwwAfter),
            State::Nok,
        )?;
        tokenizer.check(
            State::Next(StateName::GfmAutolinkLiteralDomainInside),
            State::Nok,
        )?;
        Ok(State::Retry(StateName::GfmAutolinkLiteralWwwPrefixInside))
    } else {
        Ok(State::Nok)
    }
}

/// In `www.`, of which `size` codes are passed.
///
///     > | to www.a.b and
///            ^^^^
pub fn www_prefix_inside(tokenizer: &mut Tokenizer) -> Result<State, AllocError>
    ensures ok { IfOk result (λ s. www_prefix_step tokenizer.old ≡ record { state = s; left = tokenizer.new }) }
    ensures err { OnErr result (IsTrue tokenizer.new.failed) }
{
    let size = tokenizer.tokenize_state.size;
    match tokenizer.current() {
        Some(code) if is_www_letter(size, code) => {
            tokenizer.consume();
            if size == 3 {
                tokenizer.tokenize_state.size = 0;
                Ok(State::Next(StateName::GfmAutolinkLiteralWwwPrefixAfter))
            } else {
                tokenizer.tokenize_state.size = size + 1;
                Ok(State::Next(StateName::GfmAutolinkLiteralWwwPrefixInside))
            }
        }
        _ => {
            tokenizer.tokenize_state.size = 0;
            Ok(State::Nok)
        }
    }
}

/// After `www.`: a literal needs a code behind it.
///
///     > | to www.a.b and
///                ^
pub fn www_prefix_after(tokenizer: &mut Tokenizer) -> Result<State, AllocError>
    ensures ok { IfOk result (λ s. www_prefix_after_step tokenizer.old ≡ record { state = s; left = tokenizer.new }) }
    ensures err { OnErr result (IsTrue tokenizer.new.failed) }
{
    Ok(match tokenizer.current() {
        Some(_) => State::Ok,
        None => State::Nok,
    })
}

/// After a literal from `www.` on.
///
///     > | to www.a.b and
///                   ^
pub fn www_after(tokenizer: &mut Tokenizer) -> Result<State, AllocError>
    requires { IsOpen GfmAutolinkLiteralWww tokenizer.old }
    ensures ok { IfOk result (λ s. www_after_step tokenizer.old ≡ record { state = s; left = tokenizer.new }) }
    ensures err { OnErr result (IsTrue tokenizer.new.failed) }
{
    tokenizer.exit(Name::GfmAutolinkLiteralWww)?;
    Ok(State::Ok)
}

// Looks whether a trail follows, and then goes on with one of these states.
fn look(tokenizer: &mut Tokenizer, held: StateName, failed: StateName) -> Result<State, AllocError>
    ensures ok { IfOk result (λ s. looked held failed tokenizer.old ≡ record { state = s; left = tokenizer.new }) }
    ensures err { OnErr result (IsTrue tokenizer.new.failed) }
{
    tokenizer.check(State::Next(held), State::Next(failed))?;
    Ok(State::Retry(StateName::GfmAutolinkLiteralTrail))
}

/// In a domain: `.` and `_` belong to it where no trail begins with them.
///
///     > | to http://a.b/c and
///                   ^^^^
pub fn domain_inside(tokenizer: &mut Tokenizer) -> Result<State, AllocError>
    requires { MayClass tokenizer.old }
    ensures ok { IfOk result (λ s. domain_step tokenizer.old ≡ record { state = s; left = tokenizer.new }) }
    ensures err { OnErr result (IsTrue tokenizer.new.failed) }
{
    match tokenizer.current() {
        Some(b'.' | b'_') => look(
            tokenizer,
            StateName::GfmAutolinkLiteralDomainAfter,
            StateName::GfmAutolinkLiteralDomainAtPunctuation,
        ),
        Some(b'-') => {
            tokenizer.consume();
            Ok(State::Next(StateName::GfmAutolinkLiteralDomainInside))
        }
        Some(code) if matches!(code, 0x80..=0xBF) || class_here(tokenizer) == Kind::Other => {
            tokenizer.consume();
            tokenizer.tokenize_state.seen = true;
            Ok(State::Next(StateName::GfmAutolinkLiteralDomainInside))
        }
        _ => Ok(State::Retry(StateName::GfmAutolinkLiteralDomainAfter)),
    }
}

// Keeps a `.` or a `_` of a domain in mind.
fn mark(scratch: &mut TokenizeState, code: Option<u8>)
    ensures { scratch.new ≡ marked code scratch.old }
{
    if code == Some(b'_') {
        scratch.marker = b'_';
    } else {
        scratch.marker_b = scratch.marker;
        scratch.marker = 0;
    }
}

// How a domain goes on behind a `.` or a `_` of it.
fn domain_on(tokenizer: &Tokenizer) -> StateName
    ensures { result ≡ domain_on tokenizer.now }
{
    match tokenizer.current() {
        Some(b'.' | b'_') => StateName::GfmAutolinkLiteralDomainAtPunctuation,
        _ => StateName::GfmAutolinkLiteralDomainInside,
    }
}

/// In a domain, at a `.` or a `_` that belongs to it. Where another one follows, that belongs to it too.
///
///     > | to http://a.b/c and
///                    ^
pub fn domain_at_punctuation(tokenizer: &mut Tokenizer) -> Result<State, AllocError>
    requires { HasCode tokenizer.old }
    ensures ok { IfOk result (λ s. domain_punctuation_step tokenizer.old ≡ record { state = s; left = tokenizer.new }) }
    ensures err { OnErr result (IsTrue tokenizer.new.failed) }
{
    let code = tokenizer.current();
    tokenizer.consume();
    mark(&mut tokenizer.tokenize_state, code);
    Ok(State::Next(domain_on(tokenizer)))
}

/// After a domain: it holds a character of class other, and no `_` in its last two parts.
///
///     > | to http://a.b/c and
///                      ^
pub fn domain_after(tokenizer: &mut Tokenizer) -> Result<State, AllocError>
    ensures ok { IfOk result (λ s. domain_after_step tokenizer.old ≡ record { state = s; left = tokenizer.new }) }
    ensures err { OnErr result (IsTrue tokenizer.new.failed) }
{
    let scratch = &mut tokenizer.tokenize_state;
    if scratch.seen && scratch.marker != b'_' && scratch.marker_b != b'_' {
        scratch.marker = 0;
        scratch.marker_b = 0;
        scratch.seen = false;
        Ok(State::Retry(StateName::GfmAutolinkLiteralPathInside))
    } else {
        Ok(refuse(tokenizer))
    }
}

// What is known of trails behind a code, where so much was known before it. By `.` none begins there. By `&` none goes on there behind
// a `&`, and by `a` none behind a `&` and letters. By 0 nothing is known.
fn known_after(known: u8, code: u8) -> u8
    ensures { result ≡ known_after known code }
{
    match (known, code) {
        (b'.', b'&') => b'&',
        (b'.', _) if is_trail(code) || code == b']' => b'.',
        (b'&' | b'a', _) if is_letter(code) => b'a',
        (b'a', b';') => b'.',
        _ => 0,
    }
}

// Whether no trail begins with this code, by what is known.
fn is_known(known: u8, code: u8) -> bool
    ensures { result ≡ is_known known code }
{
    known == b'.' || (known == b'a' && code == b';')
}

// This count, or one more where the code is the one that is counted.
fn counted(of: u8, code: u8, count: usize) -> usize
    requires { count < most }
    ensures { result ≡ count_value of code count }
{
    if code == of { count + 1 } else { count }
}

// Passes a code of a path, where so much is known of trails.
fn pass(tokenizer: &mut Tokenizer, known: u8, code: u8) -> State
    requires code { HasCode tokenizer.old }
    requires count { MayCount tokenizer.old }
    ensures { passing known code tokenizer.old ≡ record { state = result; left = tokenizer.new } }
{
    tokenizer.consume();
    let scratch = &mut tokenizer.tokenize_state;
    scratch.marker = known_after(known, code);
    scratch.size = counted(b'(', code, scratch.size);
    scratch.size_b = counted(b')', code, scratch.size_b);
    State::Next(StateName::GfmAutolinkLiteralPathInside)
}

/// In a path: `size` parentheses of it opened, and `size_b` closed. `marker` says what is known of trails, so that a series of marks
/// that does not trail is looked at once.
///
///     > | to http://a.b/c and
///                      ^^^
pub fn path_inside(tokenizer: &mut Tokenizer) -> Result<State, AllocError>
    requires class { MayClass tokenizer.old }
    requires count { MayCount tokenizer.old }
    ensures ok { IfOk result (λ s. path_step tokenizer.old ≡ record { state = s; left = tokenizer.new }) }
    ensures err { OnErr result (IsTrue tokenizer.new.failed) }
{
    let Some(code) = tokenizer.current() else {
        return Ok(State::Retry(StateName::GfmAutolinkLiteralPathAfter));
    };
    if !matches!(code, 0x80..=0xBF) && class_here(tokenizer) == Kind::Whitespace {
        return Ok(State::Retry(StateName::GfmAutolinkLiteralPathAfter));
    }
    let scratch = &tokenizer.tokenize_state;
    let known = scratch.marker;
    let closes = code == b')' && scratch.size_b < scratch.size;
    if is_mark(code) && !closes && !is_known(known, code) {
        look(
            tokenizer,
            StateName::GfmAutolinkLiteralPathAfter,
            StateName::GfmAutolinkLiteralPathAtPunctuation,
        )
    } else {
        Ok(pass(tokenizer, known, code))
    }
}

/// In a path, at punctuation that belongs to it, as no trail begins with it.
///
///     > | to http://a.b/c?d and
///                        ^
pub fn path_at_punctuation(tokenizer: &mut Tokenizer) -> Result<State, AllocError>
    requires code { HasCode tokenizer.old }
    requires count { MayCount tokenizer.old }
    ensures ok { IfOk result (λ s. path_punctuation_step tokenizer.old ≡ record { state = s; left = tokenizer.new }) }
    ensures err { OnErr result (IsTrue tokenizer.new.failed) }
{
    Ok(match tokenizer.current() {
        Some(code) => pass(tokenizer, b'.', code),
        None => State::Retry(StateName::GfmAutolinkLiteralPathInside),
    })
}

/// After a path.
///
///     > | to http://a.b/c, and
///                        ^
pub fn path_after(tokenizer: &mut Tokenizer) -> Result<State, AllocError>
    ensures ok { IfOk result (λ s. path_after_step tokenizer.old ≡ record { state = s; left = tokenizer.new }) }
    ensures err { OnErr result (IsTrue tokenizer.new.failed) }
{
    rest(tokenizer);
    Ok(State::Ok)
}

/// In what may be trailing punctuation.
///
///     > | to http://a.b/c), and
///                    ^^  ^^^
pub fn trail(tokenizer: &mut Tokenizer) -> Result<State, AllocError>
    requires { TrailReady tokenizer.old }
    ensures ok { IfOk result (λ s. trail_step tokenizer.old ≡ record { state = s; left = tokenizer.new }) }
    ensures err { OnErr result (IsTrue tokenizer.new.failed) }
{
    match tokenizer.current() {
        Some(code) if is_trail(code) => {
            tokenizer.consume();
            Ok(State::Next(StateName::GfmAutolinkLiteralTrail))
        }
        Some(b'&') => {
            tokenizer.consume();
            Ok(State::Next(StateName::GfmAutolinkLiteralTrailCharRefStart))
        }
        Some(b'<') => Ok(State::Ok),
        Some(b']') => {
            tokenizer.consume();
            Ok(State::Next(StateName::GfmAutolinkLiteralTrailBracketAfter))
        }
        _ => Ok(if class_here(tokenizer) == Kind::Whitespace {
            State::Ok
        } else {
            State::Nok
        }),
    }
}

/// In what may be trailing punctuation, after a closing bracket.
///
///     > | [http://a.b/c][d]
///                       ^
pub fn trail_bracket_after(tokenizer: &mut Tokenizer) -> Result<State, AllocError>
    ensures ok { IfOk result (λ s. bracket_after_step tokenizer.old ≡ record { state = s; left = tokenizer.new }) }
    ensures err { OnErr result (IsTrue tokenizer.new.failed) }
{
    Ok(match tokenizer.current() {
        None | Some(b' ' | b'\t' | b'\n' | b'(' | b'[') => State::Ok,
        _ => State::Retry(StateName::GfmAutolinkLiteralTrail),
    })
}

/// In what may be trailing punctuation, after a `&`: a letter.
///
///     > | to http://a.b/c&lt; and
///                         ^
pub fn trail_char_ref_start(tokenizer: &mut Tokenizer) -> Result<State, AllocError>
    ensures ok { IfOk result (λ s. reference_start_step tokenizer.old ≡ record { state = s; left = tokenizer.new }) }
    ensures err { OnErr result (IsTrue tokenizer.new.failed) }
{
    Ok(match tokenizer.current() {
        Some(code) if is_letter(code) => {
            State::Retry(StateName::GfmAutolinkLiteralTrailCharRefInside)
        }
        _ => State::Nok,
    })
}

/// In what may be trailing punctuation, in what looks like a character reference.
///
///     > | to http://a.b/c&lt; and
///                         ^^^
pub fn trail_char_ref_inside(tokenizer: &mut Tokenizer) -> Result<State, AllocError>
    ensures ok { IfOk result (λ s. reference_step tokenizer.old ≡ record { state = s; left = tokenizer.new }) }
    ensures err { OnErr result (IsTrue tokenizer.new.failed) }
{
    match tokenizer.current() {
        Some(code) if is_letter(code) => {
            tokenizer.consume();
            Ok(State::Next(StateName::GfmAutolinkLiteralTrailCharRefInside))
        }
        Some(b';') => {
            tokenizer.consume();
            Ok(State::Next(StateName::GfmAutolinkLiteralTrail))
        }
        _ => Ok(State::Nok),
    }
}
