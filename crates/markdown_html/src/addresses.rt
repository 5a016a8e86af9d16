//! Tags, text and attributes.
#![tactic(auto)]

ghost use Rattle.std.specs.Prelude.{◌≡◌, ◌++◌, OnOk, option_map};
ghost use Rattle.markdown_html_model.specs.Schemes.{link_schemes, image_schemes};
ghost use Rattle.markdown_html_model.specs.Html.{address, tag, text_html, title_attribute};
ghost use Rattle.markdown_html.specs.View.{page_of};

use crate::targets::Targets;
use markdown_content::configuration::Rules;
use markdown_content::parser::Piece;
use markdown_html_model::escape::{push_address, push_escaped};
use markdown_html_model::options::HtmlOptions;
use markdown_html_model::role::Within;
use markdown_html_model::scheme::{is_safe_image, is_safe_link};
use markdown_util::decoding::Decoding;
use std::alloc::AllocError;

// What stands beside the events.
#[derive(Clone, Copy)]
pub(crate) struct Given<'a> {
    pub(crate) bytes: &'a [u8],
    // The pieces that are the content whose events they are.
    pub(crate) pieces: &'a [Piece],
    pub(crate) rules: Rules,
    pub(crate) footnotes_on: bool,
    pub(crate) decoding: Decoding,
    pub(crate) definitions: &'a Targets,
    pub(crate) options: HtmlOptions,
}

// A tag, where tags are written.
pub(crate) fn push_tag(out: &mut Vec<u8>, within: Within, written: &[u8]) -> Result<(), AllocError>
    ensures { OnOk result (out.new.items ≡ out.old.items ++ tag within written.now) }
{
    match within {
        Within::InText => Ok(()),
        _ => out.extend_from_slice(written),
    }
}

// A text: escaped, or as it is where it is escaped later.
pub(crate) fn push_text(out: &mut Vec<u8>, within: Within, text: &[u8]) -> Result<(), AllocError>
    ensures { OnOk result (out.new.items ≡ out.old.items ++ text_html within text.now) }
{
    match within {
        Within::InText => out.extend_from_slice(text),
        _ => push_escaped(out, text),
    }
}

// The address of a link, nothing where it may not be.
pub(crate) fn push_link_address(
    given: &Given,
    out: &mut Vec<u8>,
    to: &[u8],
) -> Result<(), AllocError>
    ensures { OnOk result (out.new.items ≡ out.old.items ++ address (page_of given.now) link_schemes to.now) }
{
    if given.options.any_link || is_safe_link(to) {
        push_address(out, to)?;
    }
    Ok(())
}

// The address of an image, nothing where it may not be.
pub(crate) fn push_image_address(
    given: &Given,
    out: &mut Vec<u8>,
    to: &[u8],
) -> Result<(), AllocError>
    ensures { OnOk result (out.new.items ≡ out.old.items ++ address (page_of given.now) image_schemes to.now) }
{
    if given.options.any_link || is_safe_image(to) {
        push_address(out, to)?;
    }
    Ok(())
}

pub(crate) fn push_title(out: &mut Vec<u8>, title: Option<&[u8]>) -> Result<(), AllocError>
    ensures { OnOk result (out.new.items ≡ out.old.items ++ title_attribute (option_map (λ t. t.now) title.entry)) }
{
    if let Some(title) = title {
        out.extend_from_slice(b" title=\"")?;
        push_escaped(out, title)?;
        out.push(b'"')?;
    }
    Ok(())
}
