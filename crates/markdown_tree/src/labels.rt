//! Which definition a link or an image refers to, and which footnote a call.
ghost use Rattle.std.specs.Prelude.{◌≡◌, ◌≤◌, IfOk, length, string_bytes};
ghost use Rattle.std.specs.Option.{option_map};
ghost use Rattle.markdown_content.specs.Content.{IsContent, content_of};
ghost use Rattle.markdown_content.specs.ContentBytes.{bytes_within};
ghost use Rattle.markdown_content.specs.LabelTexts.{HasLabelTexts};
ghost use Rattle.markdown_tree.specs.LabelsView.{given_of};
ghost use Rattle.markdown_tree.specs.Referred.{behind, behind_caret, definition_of, first_inside, footnote_of, identifier_in, if_utf8, label_identifier, met, named_by_label, named_by_reference, named_by_text, node_identifier, second_inside, text_between, undefined_footnote};

use crate::definitions::Definitions;
use crate::node::Node;
use crate::tree::Tree;
use markdown_content::configuration::ParseOptions;
use markdown_content::parser::Piece;
use markdown_content::part::{is_in_one_piece, push_between};
use markdown_event::event::Name;
use markdown_util::util::normalize_identifier::identifier_by;
use std::alloc::{AllocError, Global};

/// What the labels of a content are read with.
#[derive(Drop)]
pub struct Labels<'a> {
    /// The document.
    pub bytes: &'a [u8],
    /// The pieces of the document that are the content, whose events a tree shows.
    pub pieces: &'a [Piece],
    /// What a run looks for.
    pub options: &'a ParseOptions,
    /// The definitions, whose identifiers the run was given.
    pub definitions: &'a Definitions,
    /// The definitions of footnotes, whose identifiers the run was given.
    pub footnotes: &'a Definitions,
}

// The first node inside a node.
fn first_inside(tree: &Tree, node: Node) -> Option<Node>
    ensures { result ≡ first_inside tree.now node }
{
    tree.node(tree.first_child(node.enter)?)
}

// The node behind a node.
fn behind(tree: &Tree, node: Node) -> Option<Node>
    ensures { result ≡ behind tree.now node }
{
    tree.node(tree.next_sibling(node.enter)?)
}

// What stands inside a node behind its start.
fn second_inside(tree: &Tree, node: Node) -> Option<Node>
    ensures { result ≡ second_inside tree.now node }
{
    behind(tree, first_inside(tree, node)?)
}

// The bytes as a text, where they are UTF-8.
fn if_utf8(bytes: &[u8]) -> Option<&str>
    ensures { option_map (λ t. t.now) result ≡ if_utf8 bytes.now }
{
    match str::from_utf8(bytes) {
        Ok(text) => Some(text),
        Err(_) => None,
    }
}

// What follows a caret.
fn behind_caret(label: &str) -> Option<&str>
    ensures { option_map (λ t. t.now) result ≡ behind_caret label.now }
{
    match label.strip_prefix("^") {
        Some(text) => Some(text),
        None => None,
    }
}

// The identifier of a label where footnotes are looked for: a caret stands before the identifier of what follows it.
fn undefined_footnote(
    alloc: Global,
    label: &str,
    nul_is_replaced: bool,
) -> Result<String, AllocError>
    ensures { IfOk result (λ identifier. string_bytes identifier ≡ undefined_footnote nul_is_replaced label.now) }
{
    let Some(text) = behind_caret(label) else {
        return identifier_by(alloc, label, nul_is_replaced);
    };
    let name = identifier_by(alloc, text, nul_is_replaced)?;
    let mut identifier = String::from_str(alloc, "^")?;
    identifier.push_str(name.as_str())?;
    Ok(identifier)
}

// The identifier of a text, of a label with a caret or of another.
fn label_identifier(
    alloc: Global,
    text: &str,
    has_caret: bool,
    nul_is_replaced: bool,
) -> Result<String, AllocError>
    ensures { IfOk result (λ identifier. string_bytes identifier ≡ label_identifier has_caret nul_is_replaced text.now) }
{
    if has_caret {
        undefined_footnote(alloc, text, nul_is_replaced)
    } else {
        identifier_by(alloc, text, nul_is_replaced)
    }
}

impl<'a> Labels<'a> {
    // The identifier of bytes, where they are a text.
    fn identifier_in(&self, has_caret: bool, bytes: &[u8]) -> Result<Option<String>, AllocError>
        ensures { IfOk result (λ identifier. option_map string_bytes identifier ≡ identifier_in (given_of self.now) has_caret bytes.now) }
    {
        let Some(text) = if_utf8(bytes) else {
            return Ok(None);
        };
        let alloc = self.definitions.alloc();
        let nul_is_replaced = self.options.rules().nul_is_replaced;
        let identifier = label_identifier(alloc, text, has_caret, nul_is_replaced)?;
        Ok(Some(identifier))
    }

    // The identifier of the content's text between two indexes, which is joined of its parts.
    fn identifier_of_parts(
        &self,
        has_caret: bool,
        from: usize,
        to: usize,
    ) -> Result<Option<String>, AllocError>
        requires content { IsContent self.now.bytes.now self.now.pieces.now }
        requires within { to ≤ length self.now.bytes.now }
        ensures { let text = bytes_within self.now.bytes.now from to (content_of self.now.bytes.now self.now.pieces.now) in
            IfOk result (λ identifier. option_map string_bytes identifier ≡ identifier_in (given_of self.now) has_caret text) }
    {
        let mut text = Vec::new(self.definitions.alloc());
        push_between(&mut text, self.bytes, self.bytes, self.pieces, from, to)?;
        self.identifier_in(has_caret, text.as_slice())
    }

    // The identifier of the text between two indexes: a part of the document, where the content leaves out nothing of it, or where labels go by the document.
    fn identifier_between(
        &self,
        has_caret: bool,
        from: usize,
        to: usize,
    ) -> Result<Option<String>, AllocError>
        requires content { HasLabelTexts self.now.options.now self.now.bytes.now self.now.pieces.now }
        requires in_order { from ≤ to }
        requires within { to ≤ length self.now.bytes.now }
        ensures { let text = text_between (given_of self.now) from to in
            IfOk result (λ identifier. option_map string_bytes identifier ≡ identifier_in (given_of self.now) has_caret text) }
    {
        if !self.options.rules().labels_by_text {
            return self.identifier_in(has_caret, &self.bytes[from..to]);
        }
        if is_in_one_piece(self.bytes, self.pieces, from, to) {
            return self.identifier_in(has_caret, &self.bytes[from..to]);
        }
        self.identifier_of_parts(has_caret, from, to)
    }

    // The identifier of the text of a node.
    fn node_identifier(&self, has_caret: bool, node: Node) -> Result<Option<String>, AllocError>
        requires content { HasLabelTexts self.now.options.now self.now.bytes.now self.now.pieces.now }
        ensures { IfOk result (λ identifier. option_map string_bytes identifier ≡ node_identifier (given_of self.now) has_caret node) }
    {
        let (from, to) = (node.start.index, node.end.index);
        if from <= to && to <= self.bytes.len() {
            self.identifier_between(has_caret, from, to)
        } else {
            Ok(None)
        }
    }

    // The definition that the text of a label names.
    fn named_by_label(&self, tree: &Tree, label: Node) -> Result<Option<usize>, AllocError>
        requires content { HasLabelTexts self.now.options.now self.now.bytes.now self.now.pieces.now }
        ensures { IfOk result (λ number. number ≡ named_by_label (given_of self.now) tree.now label) }
    {
        let Some(text) = second_inside(tree, label) else {
            return Ok(None);
        };
        let has_caret = self.options.constructs.gfm_label_start_footnote;
        match self.node_identifier(has_caret, text)? {
            Some(identifier) => Ok(self.definitions.number(identifier.as_str())),
            None => Ok(None),
        }
    }

    // The definition that the text of a reference names.
    fn named_by_text(&self, node: Node) -> Result<Option<usize>, AllocError>
        requires content { HasLabelTexts self.now.options.now self.now.bytes.now self.now.pieces.now }
        ensures { IfOk result (λ number. number ≡ named_by_text (given_of self.now) node) }
    {
        match self.node_identifier(false, node)? {
            Some(identifier) => Ok(self.definitions.number(identifier.as_str())),
            None => Ok(None),
        }
    }

    // The definition that a reference behind a label names.
    fn named_by_reference(
        &self,
        tree: &Tree,
        label: Node,
        reference: Node,
    ) -> Result<Option<usize>, AllocError>
        requires content { HasLabelTexts self.now.options.now self.now.bytes.now self.now.pieces.now }
        ensures { IfOk result (λ number. number ≡ named_by_reference (given_of self.now) tree.now label (second_inside tree.now reference)) }
    {
        let Some(part) = second_inside(tree, reference) else {
            return Ok(None);
        };
        match part.name {
            Name::ReferenceString => self.named_by_text(part),
            _ => self.named_by_label(tree, label),
        }
    }

    // The definition that a link or an image with this label refers to.
    fn definition_of(&self, tree: &Tree, label: Node) -> Result<Option<usize>, AllocError>
        requires content { HasLabelTexts self.now.options.now self.now.bytes.now self.now.pieces.now }
        ensures { IfOk result (λ number. number ≡ definition_of (given_of self.now) tree.now label (behind tree.now label)) }
    {
        let Some(tail) = behind(tree, label) else {
            return self.named_by_label(tree, label);
        };
        match tail.name {
            Name::Reference => self.named_by_reference(tree, label, tail),
            _ => Ok(None),
        }
    }

    // The footnote that a call with this label refers to.
    fn footnote_of(&self, tree: &Tree, label: Node) -> Result<Option<usize>, AllocError>
        requires content { HasLabelTexts self.now.options.now self.now.bytes.now self.now.pieces.now }
        ensures { IfOk result (λ number. number ≡ footnote_of (given_of self.now) tree.now label) }
    {
        let Some(text) = second_inside(tree, label) else {
            return Ok(None);
        };
        match self.node_identifier(false, text)? {
            Some(identifier) => Ok(self.footnotes.number(identifier.as_str())),
            None => Ok(None),
        }
    }

    /// The number of the definition that a link or an image refers to, or of the footnote that a footnote call refers to.
    ///
    /// The tree is that of a run over this content of the document with these options and definitions, and the node is the number of an event. None
    /// where the node is something else, and where a link or an image has a resource of its own. Takes time in proportion to the label, and with the
    /// option `commonmark` to the logarithm of how many pieces there are.
    ///
    /// The only error is that memory was refused.
    pub fn met(&self, tree: &Tree, node: usize) -> Result<Option<usize>, AllocError>
        requires content { HasLabelTexts self.now.options.now self.now.bytes.now self.now.pieces.now }
        ensures { IfOk result (λ number. number ≡ met (given_of self.now) tree.now node) }
    {
        let Some(node) = tree.node(node) else {
            return Ok(None);
        };
        let Some(label) = first_inside(tree, node) else {
            return Ok(None);
        };
        match node.name {
            Name::Link | Name::Image => self.definition_of(tree, label),
            Name::GfmFootnoteCall => self.footnote_of(tree, label),
            _ => Ok(None),
        }
    }
}
