//! The Enter of a leaf that may be linked.
#![tactic(auto)]

ghost use Rattle.std.specs.Prelude.{◌≡◌, OnOk, OnErr, IsTrue, true};
ghost use Rattle.markdown_engine.specs.Operations.{LinkedBefore};
ghost use Rattle.markdown_engine.specs.PastTree.{entered_leaf};

use markdown_engine::tokenizer::Tokenizer;
use markdown_event::event::{Content, Link, Name};
use std::alloc::AllocError;

// Enters, with a link where there is a content, linked to the leaf just before where that is asked.
pub(crate) fn enter_leaf(
    tokenizer: &mut Tokenizer,
    name: Name,
    content: Option<Content>,
    connect: bool,
) -> Result<(), AllocError>
    requires { connect ≡ true → LinkedBefore tokenizer.old }
    ensures ok { OnOk result (tokenizer.new ≡ entered_leaf name content connect tokenizer.old) }
    ensures err { OnErr result (IsTrue tokenizer.new.failed) }
{
    match content {
        None => tokenizer.enter(name),
        Some(content) if connect => tokenizer.enter_connected(name, content),
        Some(content) => {
            let first = Link {
                previous: None,
                next: None,
                content,
            };
            tokenizer.enter_link(name, first)
        }
    }
}
