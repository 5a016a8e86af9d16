//! Events that readers append at once, an Enter and an Exit or both: none of them is ever among the open events of the tokenizer.
//!
//! Events, by what appends them:
//!
//!     append_leaf, append_leaf_between, read_marker    Enter and Exit of one name
//!     append_string                                    Enter and Exit of `Data`, the Enter linked as a string
//!     read_marker_in                                   a node of one name, and in it a leaf of another
//!
//! Example: `read_marker_in` with the names `LabelLink` and `LabelMarker`, at the bracket of `x[y](z)`.
//!
//!     LabelLink 1-2
//!       LabelMarker 1-2
//!
//! The functions `append` make events of codes that are passed already, and leave the place. The functions `read` pass one code.
//!
//! Each function answers the error where a growth is refused; then `failed` is true.
#![tactic(auto, using(markdown_engine::proofs::OperationFields::op_rules))]

ghost use Rattle.std.specs.Prelude.{◌≡◌, ◌++◌, ◌∷◌, [], OnOk, OnErr, IsTrue, None};
ghost use Rattle.markdown_engine.specs.Operations.{HasCode, done};
ghost use Rattle.markdown_engine_events.specs.EventChains.{IsFresh};
ghost use Rattle.markdown_run_text.specs.PlacesPassed.{marker_in_ops, marker_ops, with_enter, with_exit, with_leaf, with_string};
ghost use Rattle.markdown_run_text.specs.PlainSpan.{with_exit_at};

use markdown_engine::tokenizer::Tokenizer;
use markdown_event::event::{Content, Event, Kind, Link, Name, Point};
use std::alloc::AllocError;

// The link of text that is read as a string, the first of its chain.
const STRING: Link = Link {
    previous: None,
    next: None,
    content: Content::String,
};

// Appends an event, and answers the error where the growth is refused.
#[inline(always)]
fn append(tokenizer: &mut Tokenizer, event: Event) -> Result<(), AllocError>
    requires { IsFresh event }
    ensures ok { OnOk result (tokenizer.new ≡ record tokenizer.old { events = tokenizer.old.events ++ event ∷ [] }) }
    ensures err { OnErr result (IsTrue tokenizer.new.failed) }
{
    let appended = tokenizer.events.push(event);
    tokenizer.noted(appended)
}

// Appends an Enter of this name at this point.
//
//     > | <a b="c" />d</a>
//         ^
#[inline(always)]
pub(crate) fn append_enter(
    tokenizer: &mut Tokenizer,
    name: Name,
    point: Point,
) -> Result<(), AllocError>
    ensures ok { OnOk result (tokenizer.new ≡ with_enter name None point tokenizer.old) }
    ensures err { OnErr result (IsTrue tokenizer.new.failed) }
{
    let enter = Event {
        kind: Kind::Enter,
        name,
        point,
        link: None,
    };
    append(tokenizer, enter)
}

// Appends an Exit of this name where the code before the place ends. Here the caret is under that code:
//
//     > | <a b="c" />d</a>
//                   ^
#[inline(always)]
pub(crate) fn append_exit(tokenizer: &mut Tokenizer, name: Name) -> Result<(), AllocError>
    ensures ok { OnOk result (tokenizer.new ≡ with_exit name tokenizer.old) }
    ensures err { OnErr result (IsTrue tokenizer.new.failed) }
{
    let exit = Event {
        kind: Kind::Exit,
        name,
        point: tokenizer.cursor.exit_point(),
        link: None,
    };
    append(tokenizer, exit)
}

// Appends the events of a leaf of this name from the first point to the other.
//
//     > | x ``y z``
//             ^^^
#[inline(always)]
pub(crate) fn append_leaf_between(
    tokenizer: &mut Tokenizer,
    name: Name,
    from: Point,
    to: Point,
) -> Result<(), AllocError>
    ensures ok { OnOk result (tokenizer.new ≡ with_exit_at name to (with_enter name None from tokenizer.old)) }
    ensures err { OnErr result (IsTrue tokenizer.new.failed) }
{
    append_enter(tokenizer, name, from)?;
    let exit = Event {
        kind: Kind::Exit,
        name,
        point: to,
        link: None,
    };
    append(tokenizer, exit)
}

// Appends the events of a leaf of this name from this point to where the code before the place ends.
//
//     > | <a b="c" />d</a>
//         ^^^^^^^^^^^
#[inline(always)]
pub(crate) fn append_leaf(
    tokenizer: &mut Tokenizer,
    name: Name,
    from: Point,
) -> Result<(), AllocError>
    ensures ok { OnOk result (tokenizer.new ≡ with_leaf name from tokenizer.old) }
    ensures err { OnErr result (IsTrue tokenizer.new.failed) }
{
    let to = tokenizer.cursor.exit_point();
    append_leaf_between(tokenizer, name, from, to)
}

// Appends the events of data from this point to where the code before the place ends, which is linked as a string, the first of its chain.
//
//     > | [a](b "c")
//             ^  ^
#[inline(always)]
pub(crate) fn append_string(tokenizer: &mut Tokenizer, from: Point) -> Result<(), AllocError>
    ensures ok { OnOk result (tokenizer.new ≡ with_string from tokenizer.old) }
    ensures err { OnErr result (IsTrue tokenizer.new.failed) }
{
    let enter = Event {
        kind: Kind::Enter,
        name: Name::Data,
        point: from,
        link: Some(STRING),
    };
    append(tokenizer, enter)?;
    append_exit(tokenizer, Name::Data)
}

// Reads the code at hand as a leaf of this name: appends its events, and moves behind it.
//
//     > | [a](b "c")
//            ^ ^^ ^^
#[inline(always)]
#[tactic(auto, unfolding(markdown_engine::specs::Operations::applied))]
pub(crate) fn read_marker(tokenizer: &mut Tokenizer, name: Name) -> Result<(), AllocError>
    requires { HasCode tokenizer.old }
    ensures ok { OnOk result (tokenizer.new ≡ done (marker_ops name) tokenizer.old) }
    ensures err { OnErr result (IsTrue tokenizer.new.failed) }
{
    let from = tokenizer.point();
    tokenizer.consume();
    append_leaf(tokenizer, name, from)
}

// Reads the code at hand as a leaf that is all of a node: appends the events of both, and moves behind it.
//
//     > | [a](b "c")
//         ^ ^
#[inline(always)]
#[tactic(auto, unfolding(markdown_engine::specs::Operations::applied))]
pub(crate) fn read_marker_in(
    tokenizer: &mut Tokenizer,
    whole: Name,
    marker: Name,
) -> Result<(), AllocError>
    requires { HasCode tokenizer.old }
    ensures ok { OnOk result (tokenizer.new ≡ done (marker_in_ops whole marker) tokenizer.old) }
    ensures err { OnErr result (IsTrue tokenizer.new.failed) }
{
    append_enter(tokenizer, whole, tokenizer.point())?;
    read_marker(tokenizer, marker)?;
    append_exit(tokenizer, whole)
}
