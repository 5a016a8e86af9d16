//! Line endings and tags of blocks.

ghost use Rattle.std.specs.Prelude.{◌≡◌, ◌++◌, OnOk, codes, decimal};
ghost use Rattle.markdown_block_line.specs.LineBlocks.{container_of, marker_of};
ghost use Rattle.markdown_page_model.specs.PageTexts.{own_ending};
ghost use Rattle.markdown_page_model.specs.PageHtml.{on_line, list_opening, list_closing, start_attribute};
ghost use Rattle.markdown_page.specs.GivenPage.{page_of};
ghost use Rattle.markdown_page.specs.PlacedTree.{line_start, opening, closing};

use crate::given::Given;
use crate::lists::Place;
use itoa::Buffer;
use markdown_block_line::containers::{Container, Marker};
use markdown_html_model::escape::push_escaped;
use markdown_html_model::options::LineEnds;
use std::alloc::AllocError;

// Appends the line ending of the page's own.
pub(crate) fn push_ending(given: &Given, out: &mut Vec<u8>) -> Result<(), AllocError>
    ensures { OnOk result (out.new.items ≡ out.old.items ++ own_ending (page_of given.now)) }
{
    match given.options.line_ends {
        LineEnds::Kept => push_escaped(out, b"\n"),
        LineEnds::Lf => out.extend_from_slice(b"\n"),
        LineEnds::CrLf => out.extend_from_slice(b"\r\n"),
    }
}

// Appends a text, and the line ending behind it.
pub(crate) fn push_on_line(given: &Given, out: &mut Vec<u8>, text: &[u8]) -> Result<(), AllocError>
    ensures { OnOk result (out.new.items ≡ out.old.items ++ on_line (page_of given.now) text.now) }
{
    out.extend_from_slice(text)?;
    push_ending(given, out)
}

// Begins a line, where none begins by itself.
pub(crate) fn push_line_start(
    given: &Given,
    out: &mut Vec<u8>,
    in_line: bool,
) -> Result<(), AllocError>
    ensures { OnOk result (out.new.items ≡ out.old.items ++ line_start (page_of given.now) in_line) }
{
    if in_line {
        return push_ending(given, out);
    }
    Ok(())
}

// Appends a number.
pub(crate) fn push_number(out: &mut Vec<u8>, number: usize) -> Result<(), AllocError>
    ensures { OnOk result (out.new.items ≡ out.old.items ++ decimal number) }
{
    let mut buffer = Buffer::new();
    out.extend_from_slice(buffer.format(number).as_bytes())
}

// Appends the number that an ordered list begins with, which is one where nothing tells it.
fn push_start(out: &mut Vec<u8>, number: u32) -> Result<(), AllocError>
    ensures { OnOk result (out.new.items ≡ out.old.items ++ start_attribute number) }
{
    if number == 1 {
        return Ok(());
    }
    out.extend_from_slice(b" start=\"")?;
    push_number(out, number as usize)?;
    out.extend_from_slice(b"\"")
}

fn push_list_opening(out: &mut Vec<u8>, marker: Marker) -> Result<(), AllocError>
    ensures { OnOk result (out.new.items ≡ out.old.items ++ list_opening (marker_of marker)) }
{
    match marker {
        Marker::Bullet(_) => out.extend_from_slice(b"<ul>"),
        Marker::Ordered(_, number) => {
            out.extend_from_slice(b"<ol")?;
            push_start(out, number)?;
            out.extend_from_slice(b">")
        }
    }
}

fn push_list_closing(out: &mut Vec<u8>, marker: Marker) -> Result<(), AllocError>
    ensures { OnOk result (out.new.items ≡ out.old.items ++ list_closing (marker_of marker)) }
{
    match marker {
        Marker::Bullet(_) => out.extend_from_slice(b"</ul>"),
        Marker::Ordered(_, _) => out.extend_from_slice(b"</ol>"),
    }
}

// Begins the list of an item.
fn push_list(
    given: &Given,
    out: &mut Vec<u8>,
    in_line: bool,
    marker: Marker,
) -> Result<(), AllocError>
    ensures { let p = page_of given.now in OnOk result (out.new.items ≡ out.old.items ++ (line_start p in_line ++ on_line p (list_opening (marker_of marker)))) }
{
    push_line_start(given, out, in_line)?;
    push_list_opening(out, marker)?;
    push_ending(given, out)
}

// Appends what stands before the inside of a container.
pub(crate) fn push_opening(
    given: &Given,
    out: &mut Vec<u8>,
    in_line: bool,
    container: Container,
    place: Place,
) -> Result<(), AllocError>
    ensures { OnOk result (out.new.items ≡ out.old.items ++ opening (page_of given.now) in_line (container_of container) place) }
{
    match container {
        Container::Quote => {
            push_line_start(given, out, in_line)?;
            push_on_line(given, out, b"<blockquote>")
        }
        Container::Item(marker, _) => {
            if place.begins {
                push_list(given, out, in_line, marker)?;
            }
            out.extend_from_slice(b"<li>")
        }
    }
}

// Ends a list, if it ends with an item.
fn push_list_end(given: &Given, out: &mut Vec<u8>, marker: Marker) -> Result<(), AllocError>
    ensures { OnOk result (out.new.items ≡ out.old.items ++ on_line (page_of given.now) (list_closing (marker_of marker))) }
{
    push_list_closing(out, marker)?;
    push_ending(given, out)
}

// Appends what stands behind the inside of a container.
pub(crate) fn push_closing(
    given: &Given,
    out: &mut Vec<u8>,
    container: Container,
    place: Place,
) -> Result<(), AllocError>
    ensures { OnOk result (out.new.items ≡ out.old.items ++ closing (page_of given.now) (container_of container) place) }
{
    match container {
        Container::Quote => push_on_line(given, out, b"</blockquote>"),
        Container::Item(marker, _) => {
            push_on_line(given, out, b"</li>")?;
            if place.ends {
                return push_list_end(given, out, marker);
            }
            Ok(())
        }
    }
}
