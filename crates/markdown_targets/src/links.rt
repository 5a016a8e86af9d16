//! Where a node of a tree leads.
ghost use Rattle.std.specs.Prelude.{◌≡◌, IfOk};
ghost use Rattle.std.specs.Option.{option_map};
ghost use Rattle.markdown_content.specs.LabelTexts.{HasLabelTexts};
ghost use Rattle.markdown_html_model.specs.Resolved.{decoding_of};
ghost use Rattle.markdown_tree.specs.LabelsView.{given_of};
ghost use Rattle.markdown_tree.specs.Referred.{second_inside};
ghost use Rattle.markdown_targets.specs.LinkTargets.{autolink_target, called, link_target, node_target, referred, resource_target, target_at, title_in, written};
ghost use Rattle.markdown_targets.specs.TargetView.{led_of};

use crate::strings::{Part, has_title, stretch, string_in};
use crate::target::{Address, Target};
use markdown_engine_events::event_list::EventSlice;
use markdown_event::event::Name;
use markdown_html_model::resolve::decoding_of;
use markdown_tree::labels::Labels;
use markdown_tree::node::Node;
use markdown_tree::tree::Tree;
use markdown_util::decoding::Decoding;
use std::alloc::{AllocError, Global};

// What stands inside a node behind the first: what follows a label, and the address of an autolink.
fn second_inside(tree: &Tree, node: Node) -> Option<Node>
    ensures { result ≡ second_inside tree.now node }
{
    let first = tree.node(tree.first_child(node.enter)?)?;
    tree.node(tree.next_sibling(first.enter)?)
}

// The title inside the events of a resource.
fn title_in(
    alloc: Global,
    how: Decoding,
    bytes: &[u8],
    events: &EventSlice,
) -> Result<Option<Vec<u8>>, AllocError>
    ensures { IfOk result (λ title. option_map (λ t. t.items) title ≡ title_in how bytes.now events.now) }
{
    if has_title(events) {
        Ok(Some(string_in(alloc, how, bytes, Part::Title, events)?))
    } else {
        Ok(None)
    }
}

// Where a resource leads, of which these are the events.
fn resource_target(
    alloc: Global,
    how: Decoding,
    bytes: &[u8],
    events: &EventSlice,
) -> Result<Target, AllocError>
    ensures { IfOk result (λ to. led_of to ≡ resource_target how bytes.now events.now) }
{
    let destination = string_in(alloc, how, bytes, Part::Destination, events)?;
    let title = title_in(alloc, how, bytes, events)?;
    Ok(Target::Here(Address { destination, title }))
}

// Where an address leads that is its own text, with this before it.
fn written(alloc: Global, bytes: &[u8], before: &[u8], node: Node) -> Result<Target, AllocError>
    ensures { IfOk result (λ to. led_of to ≡ written bytes.now before.now node) }
{
    let mut destination = Vec::from_slice(alloc, before)?;
    destination.extend_from_slice(stretch(bytes, node.start.index, node.end.index))?;
    Ok(Target::Here(Address {
        destination,
        title: None,
    }))
}

// The definition that a node refers to.
fn referred(labels: &Labels, tree: &Tree, node: Node) -> Result<Option<Target>, AllocError>
    requires { HasLabelTexts labels.now.options.now labels.now.bytes.now labels.now.pieces.now }
    ensures { IfOk result (λ to. option_map led_of to ≡ referred (given_of labels.now) tree.now node) }
{
    match labels.met(tree, node.enter)? {
        Some(number) => Ok(Some(Target::Definition(number))),
        None => Ok(None),
    }
}

// The footnote that a node refers to.
fn called(labels: &Labels, tree: &Tree, node: Node) -> Result<Option<Target>, AllocError>
    requires { HasLabelTexts labels.now.options.now labels.now.bytes.now labels.now.pieces.now }
    ensures { IfOk result (λ to. option_map led_of to ≡ called (given_of labels.now) tree.now node) }
{
    match labels.met(tree, node.enter)? {
        Some(number) => Ok(Some(Target::Footnote(number))),
        None => Ok(None),
    }
}

// Where a link or an image leads, by what follows its label.
fn link_target(
    alloc: Global,
    labels: &Labels,
    tree: &Tree,
    node: Node,
) -> Result<Option<Target>, AllocError>
    requires { HasLabelTexts labels.now.options.now labels.now.bytes.now labels.now.pieces.now }
    ensures { IfOk result (λ to. option_map led_of to
        ≡ link_target (decoding_of labels.now.options.now) (given_of labels.now) tree.now node (second_inside tree.now node)) }
{
    let Some(tail) = second_inside(tree, node) else {
        return referred(labels, tree, node);
    };
    match tail.name {
        Name::Resource => {
            let how = decoding_of(labels.options);
            let events = tree.events(tail.enter);
            Ok(Some(resource_target(alloc, how, labels.bytes, &events)?))
        }
        _ => referred(labels, tree, node),
    }
}

// Where an autolink leads.
fn autolink_target(
    alloc: Global,
    bytes: &[u8],
    tree: &Tree,
    node: Node,
) -> Result<Option<Target>, AllocError>
    ensures { IfOk result (λ to. option_map led_of to ≡ autolink_target bytes.now (second_inside tree.now node)) }
{
    let Some(address) = second_inside(tree, node) else {
        return Ok(None);
    };
    match address.name {
        Name::AutolinkProtocol => Ok(Some(written(alloc, bytes, b"", address)?)),
        Name::AutolinkEmail => Ok(Some(written(alloc, bytes, b"mailto:", address)?)),
        _ => Ok(None),
    }
}

// Where a node leads, by its name.
fn node_target(
    alloc: Global,
    labels: &Labels,
    tree: &Tree,
    node: Node,
) -> Result<Option<Target>, AllocError>
    requires { HasLabelTexts labels.now.options.now labels.now.bytes.now labels.now.pieces.now }
    ensures { IfOk result (λ to. option_map led_of to ≡ node_target (decoding_of labels.now.options.now) (given_of labels.now) tree.now node.name node) }
{
    let bytes = labels.bytes;
    match node.name {
        Name::Link | Name::Image => link_target(alloc, labels, tree, node),
        Name::GfmFootnoteCall => called(labels, tree, node),
        Name::Autolink => autolink_target(alloc, bytes, tree, node),
        Name::GfmAutolinkLiteralProtocol
        | Name::GfmAutolinkLiteralMailto
        | Name::GfmAutolinkLiteralXmpp => Ok(Some(written(alloc, bytes, b"", node)?)),
        Name::GfmAutolinkLiteralWww => Ok(Some(written(alloc, bytes, b"http://", node)?)),
        Name::GfmAutolinkLiteralEmail => Ok(Some(written(alloc, bytes, b"mailto:", node)?)),
        _ => Ok(None),
    }
}

/// Where the node of this number leads: a link, an image, a footnote call, an autolink or a literal.
///
/// The tree is that of a run over the content of the labels, with their options and definitions. None where the node is something else, and where
/// no definition is met. References in a destination or a title are decoded as the options say. Takes time in proportion to what is answered, and to a
/// label that is looked for, however deep the node stands.
///
/// The error comes only where memory is refused.
pub fn target_of(
    alloc: Global,
    labels: &Labels,
    tree: &Tree,
    node: usize,
) -> Result<Option<Target>, AllocError>
    requires { HasLabelTexts labels.now.options.now labels.now.bytes.now labels.now.pieces.now }
    ensures { IfOk result (λ to. option_map led_of to ≡ target_at (decoding_of labels.now.options.now) (given_of labels.now) tree.now node) }
{
    match tree.node(node) {
        Some(node) => node_target(alloc, labels, tree, node),
        None => Ok(None),
    }
}
