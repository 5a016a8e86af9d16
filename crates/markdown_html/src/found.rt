//! What has been read of a link or an image so far.
#![tactic(auto)]

ghost use Rattle.std.specs.Prelude.{◌≡◌, IfOk, option_map};
ghost use Rattle.markdown_html_model.specs.Html.{no_parts, joined_parts, or_else, own_parts, string_of};
ghost use Rattle.markdown_html.specs.EventWalk.{has_parts};
ghost use Rattle.markdown_html.specs.View.{parts_of};

use markdown_event::event::Point;
use markdown_html_model::resolve::push_resolved;
use markdown_html_model::role::Role;
use markdown_util::decoding::Decoding;
use std::alloc::{AllocError, Global};
use std::mem;

// What has been read of a link or an image so far.
#[derive(Drop)]
pub(crate) struct Found {
    pub(crate) destination: Option<Vec<u8>>,
    pub(crate) title: Option<Vec<u8>>,
    pub(crate) label: Option<(usize, usize)>,
    pub(crate) reference: Option<(usize, usize)>,
}

impl Found {
    pub(crate) fn nothing() -> Found
        ensures { parts_of result ≡ no_parts }
    {
        Found {
            destination: None,
            title: None,
            label: None,
            reference: None,
        }
    }

    // Whether anything was found.
    pub(crate) fn has_parts(&self) -> bool
        ensures { result ≡ has_parts (parts_of self.now) }
    {
        self.destination.is_some()
            || self.title.is_some()
            || self.label.is_some()
            || self.reference.is_some()
    }

    // Forgets what was found.
    fn clear(&mut self)
        ensures { parts_of self.new ≡ no_parts }
    {
        self.destination = None;
        self.title = None;
        self.label = None;
        self.reference = None;
    }

    // Forgets what was found. The memory of a destination becomes spare.
    fn clear_into(&mut self, spare: &mut Vec<u8>)
        ensures { parts_of self.new ≡ no_parts }
    {
        if let Some(destination) = self.destination.take() {
            *spare = destination;
        }
        self.clear();
    }

    // Adds what was found earlier. Of two parts of one kind the later stays.
    pub(crate) fn join_behind(&mut self, earlier: Found)
        ensures { parts_of self.new ≡ joined_parts (parts_of earlier) (parts_of self.old) }
    {
        set_if_none(&mut self.destination, earlier.destination);
        set_if_none(&mut self.title, earlier.title);
        self.label = self.label.or(earlier.label);
        self.reference = self.reference.or(earlier.reference);
    }

    // Replaces what was found inside something by what its surroundings find in it, where it stands from one place to another and has this string.
    // The memory of a destination that is forgotten becomes spare.
    pub(crate) fn make_own(
        &mut self,
        alloc: Global,
        role: Role,
        from: Point,
        to: Point,
        string: Vec<u8>,
        spare: &mut Vec<u8>,
    )
        ensures { parts_of self.new ≡ own_parts role from to string.items (parts_of self.old) }
    {
        match role {
            Role::Destination => {
                self.clear();
                self.destination = Some(string);
            }
            Role::TitleText => {
                self.clear();
                self.title = Some(string);
            }
            Role::Title => set_if_none(&mut self.title, Some(Vec::new(alloc))),
            Role::Resource => set_if_none(&mut self.destination, Some(Vec::new(alloc))),
            Role::Label => {
                self.clear();
                self.label = Some((from.index, to.index));
            }
            Role::FullReference => {
                self.clear();
                self.reference = Some((from.index, to.index));
            }
            Role::Link | Role::Image | Role::Footnote => self.clear_into(spare),
            _ => {}
        }
    }
}

// Sets a text to another where there is none.
fn set_if_none(text: &mut Option<Vec<u8>>, other: Option<Vec<u8>>)
    ensures { option_map (λ v. v.items) text.new ≡ or_else (option_map (λ v. v.items) text.old) (option_map (λ v. v.items) other) }
{
    if text.is_none() {
        *text = other;
    }
}

// The string that a destination or a title is, of the text inside it; empty for all else. It is made in the spare memory.
pub(crate) fn string_of(
    alloc: Global,
    how: Decoding,
    role: Role,
    inside: &[u8],
    spare: &mut Vec<u8>,
) -> Result<Vec<u8>, AllocError>
    ensures { IfOk result (λ text. text.items ≡ string_of how role inside.now) }
{
    match role {
        Role::Destination | Role::TitleText => {
            let mut text = mem::replace(spare, Vec::new(alloc));
            text.clear();
            push_resolved(alloc, &mut text, how, inside)?;
            Ok(text)
        }
        _ => Ok(Vec::new(alloc)),
    }
}
