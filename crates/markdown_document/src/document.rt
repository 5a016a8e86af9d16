//! Documents that are prepared once, and of which many contents are read, each at the cost of itself.
ghost use Rattle.std.specs.Prelude.{◌≡◌, ◌↔◌, false, map, Some, IfOk, OnOk, OnErr, IsTrue, MatchOption};
ghost use Rattle.std.specs.List.{All};
ghost use Rattle.markdown_document.specs.ContentOfDocument.{ContentOf};
ghost use Rattle.markdown_engine.specs.RunStart.{begun};
ghost use Rattle.markdown_content.specs.Content.{IsContent, IsTextContent, content_of};
ghost use Rattle.markdown_content.specs.KnownPlaces.{IsDocument};
ghost use Rattle.markdown_run_text.specs.RunSetting.{setting_of, text_setting_of};
ghost use Rattle.markdown_attention.specs.AttentionPass.{IsProbed};
ghost use Rattle.markdown_innermost.specs.InnermostEvents.{IsSpanInOrder, covered, innermost, lent};
ghost use Rattle.markdown_model.specs.InlineTree.{label_tree, string_events, text_events};

use crate::places::Places;
use markdown_content::content::has_text_lines;
use markdown_content::cursor::Cursor;
use markdown_content::parser::{ParseState, Piece};
use markdown_engine::tokenizer::Tokenizer;
use markdown_event::state::StateName;
use markdown_notes::name_index::{NameIndex, Names};
use markdown_run::run::{ListRun, Run, run_through, text_through};
use std::alloc::{AllocError, Global};
use std::marker::Model;

/// A document with what all runs over its contents have in common, put in order once.
///
/// It keeps a place for each 128 bytes, so that a content is found by a short walk wherever it stands, and the names of what is defined in
/// order, so that each is found by a search. Contracts see the `ParseState` that it was made of.
#[derive(Drop)]
pub struct Document<'a> {
    parse_state: ParseState<'a>,
    places: Places<'a>,
    definitions: NameIndex,
    footnotes: NameIndex,
}

impl<'a> Model for Document<'a> {
    ghost use Rattle.std.specs.Prelude.{◌≡◌, map, string_bytes};
    ghost use Rattle.markdown_content.specs.KnownPlaces.{IsDocument};
    ghost use Rattle.markdown_content.specs.declared.parser.ParseState.{ParseState};
    ghost use Rattle.markdown_notes.specs.NameIndex.{in_order};

    ghost Value = { ParseState };

    ghost view = { λ d. d.parse_state };

    ghost invariant = { λ d. IsDocument d.parse_state.bytes.now
        × ((d.places ≡ d.parse_state.bytes.now)
        × ((d.definitions ≡ in_order (map string_bytes d.parse_state.definitions.items))
        × (d.footnotes ≡ in_order (map string_bytes d.parse_state.gfm_footnote_definitions.items)))) };
}

impl<'a> Document<'a> {
    /// Prepares a document; none where its bytes are no document: not UTF-8, or more than `usize::MAX / 8`.
    ///
    /// The only error is that memory was refused.
    pub fn new(
        alloc: Global,
        parse_state: ParseState<'a>,
    ) -> Result<Option<Document<'a>>, AllocError>
        ensures { let bytes = parse_state.entry.bytes.now in
            IfOk result (λ found. MatchOption found (IsDocument bytes → ⊥) (λ document. IsDocument bytes × (document ≡ parse_state.entry))) }
    {
        let Some(places) = Places::over(alloc, parse_state.bytes)? else {
            return Ok(None);
        };
        let definitions = NameIndex::over(alloc, parse_state.definitions.as_slice())?;
        let footnotes = NameIndex::over(alloc, parse_state.gfm_footnote_definitions.as_slice())?;
        Ok(Some(Document {
            parse_state,
            places,
            definitions,
            footnotes,
        }))
    }

    /// What it was made of.
    pub fn parse_state(&self) -> &ParseState<'a>
        ensures { result.now ≡ self.now }
    {
        &self.parse_state
    }

    /// Whether the pieces are a content of the document, as `run::is_content` says.
    pub fn is_content(&self, pieces: &[Piece]) -> bool
        ensures { IsTrue result ↔ IsContent self.now.bytes.now pieces.now }
    {
        self.places.is_content(pieces)
    }

    /// Whether the pieces are a content of the document that is text, as `run::is_text` says.
    pub fn is_text(&self, pieces: &[Piece]) -> bool
        ensures { IsTrue result ↔ IsTextContent self.now.bytes.now pieces.now }
    {
        self.places.is_text(pieces)
    }

    /// These pieces as a content of the document, which is tested once and found once; none where they are no content.
    pub fn content<'b>(&'b self, pieces: &'b [Piece]) -> Option<Content<'b>>
        ensures { MatchOption result (IsContent self.now.bytes.now pieces.entry.now → ⊥)
            (λ content. IsContent self.now.bytes.now pieces.entry.now × (content ≡ record { parse_state = self.now; pieces = pieces.entry.now })) }
    {
        let cursor = self.places.content(pieces)?;
        Some(Content {
            document: self,
            pieces,
            cursor,
        })
    }

    // The content of pieces that are one.
    fn known_content<'b>(&'b self, pieces: &'b [Piece]) -> Content<'b>
        requires { IsContent self.now.bytes.now pieces.now }
        ensures { result ≡ record { parse_state = self.now; pieces = pieces.entry.now } }
    {
        Content {
            document: self,
            pieces,
            cursor: self.places.start(pieces),
        }
    }

    /// The events of the inline tree of a content of the document that is read as a string, as those of `run::string`.
    ///
    /// The pieces have to be a content, which `is_content` answers.
    ///
    /// The error comes only where memory is refused.
    pub fn string(&self, alloc: Global, pieces: &[Piece]) -> Result<Run, AllocError>
        requires { IsContent self.now.bytes.now pieces.now }
        ensures events { IfOk result (λ run. run.events.items ≡ string_events (setting_of self.now) pieces.now) }
        ensures places { IfOk result (λ run. All (IsSpanInOrder self.now.bytes.now) (innermost run.events.items)) }
        ensures leaves { let bytes = self.now.bytes.now in
            IfOk result (λ run. covered bytes (map (lent bytes) (innermost run.events.items)) ≡ content_of bytes pieces.now) }
        ensures probes { IfOk result (λ run. run.probes ≡ 0) }
    {
        self.known_content(pieces).string(alloc)
    }

    /// As `string`, with the events in the list in which the run made them.
    ///
    /// The pieces have to be a content, which `is_content` answers.
    ///
    /// The error comes only where memory is refused.
    pub fn string_list(&self, alloc: Global, pieces: &[Piece]) -> Result<ListRun, AllocError>
        requires { IsContent self.now.bytes.now pieces.now }
        ensures events { IfOk result (λ run. run.events ≡ string_events (setting_of self.now) pieces.now) }
        ensures places { IfOk result (λ run. All (IsSpanInOrder self.now.bytes.now) (innermost run.events)) }
        ensures leaves { let bytes = self.now.bytes.now in
            IfOk result (λ run. covered bytes (map (lent bytes) (innermost run.events)) ≡ content_of bytes pieces.now) }
        ensures probes { IfOk result (λ run. run.probes ≡ 0) }
    {
        self.known_content(pieces).string_list(alloc)
    }

    /// The events of the inline tree of a content of the document that is read as text, as those of `run::text`.
    ///
    /// The pieces have to be a text content, which `is_text` answers.
    ///
    /// The error comes only where memory is refused.
    pub fn text(
        &self,
        alloc: Global,
        pieces: &[Piece],
        first_of_item: bool,
    ) -> Result<Run, AllocError>
        requires { IsTextContent self.now.bytes.now pieces.now }
        ensures events { IfOk result (λ run. run.events.items ≡ text_events (text_setting_of self.now first_of_item) pieces.now) }
        ensures places { IfOk result (λ run. All (IsSpanInOrder self.now.bytes.now) (innermost run.events.items)) }
        ensures leaves { let bytes = self.now.bytes.now in
            IfOk result (λ run. covered bytes (map (lent bytes) (innermost run.events.items)) ≡ content_of bytes pieces.now) }
        ensures probes { let s = text_setting_of self.now first_of_item in
            IfOk result (λ run. IsProbed s (label_tree s (content_of s.bytes pieces.now)) run.probes) }
        ensures no_probes { let on = self.now.options.now.constructs in on.attention ≡ false → on.gfm_strikethrough ≡ false
            → IfOk result (λ run. run.probes ≡ 0) }
    {
        self.known_content(pieces).text(alloc, first_of_item)
    }

    /// As `text`, with the events in the list in which the run made them.
    ///
    /// The pieces have to be a text content, which `is_text` answers.
    ///
    /// The error comes only where memory is refused.
    pub fn text_list(
        &self,
        alloc: Global,
        pieces: &[Piece],
        first_of_item: bool,
    ) -> Result<ListRun, AllocError>
        requires { IsTextContent self.now.bytes.now pieces.now }
        ensures events { IfOk result (λ run. run.events ≡ text_events (text_setting_of self.now first_of_item) pieces.now) }
        ensures places { IfOk result (λ run. All (IsSpanInOrder self.now.bytes.now) (innermost run.events)) }
        ensures leaves { let bytes = self.now.bytes.now in
            IfOk result (λ run. covered bytes (map (lent bytes) (innermost run.events)) ≡ content_of bytes pieces.now) }
        ensures probes { let s = text_setting_of self.now first_of_item in
            IfOk result (λ run. IsProbed s (label_tree s (content_of s.bytes pieces.now)) run.probes) }
        ensures no_probes { let on = self.now.options.now.constructs in on.attention ≡ false → on.gfm_strikethrough ≡ false
            → IfOk result (λ run. run.probes ≡ 0) }
    {
        self.known_content(pieces).text_list(alloc, first_of_item)
    }

    /// Puts these identifiers of definitions and of footnotes in place of those that it has. What is known of its places stays.
    ///
    /// A block parser reads the strings of definitions before it knows all of them. Takes time for the names alone.
    ///
    /// The error comes only where memory is refused; the document is then as it was.
    pub fn redefine(
        &mut self,
        alloc: Global,
        definitions: Vec<String>,
        footnotes: Vec<String>,
    ) -> Result<(), AllocError>
        ensures ok { OnOk result (self.new ≡ record self.old { definitions = definitions; gfm_footnote_definitions = footnotes }) }
        ensures err { OnErr result (self.new ≡ self.old) }
    {
        let definition_index = NameIndex::over(alloc, definitions.as_slice())?;
        let footnote_index = NameIndex::over(alloc, footnotes.as_slice())?;
        self.parse_state.definitions = definitions;
        self.parse_state.gfm_footnote_definitions = footnotes;
        self.definitions = definition_index;
        self.footnotes = footnote_index;
        Ok(())
    }
}

/// A content of a document, tested once and found once. Contracts see the document's `ParseState` and the pieces.
#[derive(Drop)]
pub struct Content<'b> {
    document: &'b Document<'b>,
    pieces: &'b [Piece],
    // At the start.
    cursor: Cursor<'b>,
}

impl<'b> Model for Content<'b> {
    ghost use Rattle.std.specs.Prelude.{◌≡◌};
    ghost use Rattle.markdown_content.specs.Content.{IsContent};
    ghost use Rattle.markdown_content.specs.Place.{start_of_content};
    ghost use Rattle.markdown_document.specs.ContentOfDocument.{ContentOf};

    ghost Value = { ContentOf };

    ghost view = { λ c. record { parse_state = c.document.now; pieces = c.pieces.now } };

    ghost invariant = { λ c. IsContent c.document.now.bytes.now c.pieces.now × (c.cursor ≡ start_of_content c.document.now.bytes.now c.pieces.now) };
}

// Tells a tokenizer the names of what is defined, and whether its text is the first of a list item.
fn tell<'a>(tokenizer: &mut Tokenizer<'a>, names: Names<'a>, first_of_item: bool)
    ensures { tokenizer.new ≡ record tokenizer.old {
      tokenize_state = record tokenizer.old.tokenize_state {
        names = Some names.entry;
        document_at_first_paragraph_of_list_item = first_of_item;
      };
    } }
{
    tokenizer.tokenize_state.names = Some(names);
    tokenizer
        .tokenize_state
        .document_at_first_paragraph_of_list_item = first_of_item;
}

impl<'b> Content<'b> {
    /// Whether it is text, as `run::is_text` says.
    pub fn is_text(&self) -> bool
        ensures { IsTrue result ↔ IsTextContent self.now.parse_state.bytes.now self.now.pieces }
    {
        has_text_lines(&self.cursor)
    }

    /// The events of its inline tree, read as a string, as those of `run::string`.
    ///
    /// The error comes only where memory is refused.
    pub fn string(&self, alloc: Global) -> Result<Run, AllocError>
        ensures events { IfOk result (λ run. run.events.items ≡ string_events (setting_of self.now.parse_state) self.now.pieces) }
        ensures places { IfOk result (λ run. All (IsSpanInOrder self.now.parse_state.bytes.now) (innermost run.events.items)) }
        ensures leaves { let bytes = self.now.parse_state.bytes.now in
            IfOk result (λ run. covered bytes (map (lent bytes) (innermost run.events.items)) ≡ content_of bytes self.now.pieces) }
        ensures probes { IfOk result (λ run. run.probes ≡ 0) }
    {
        self.string_list(alloc)?.into_run(alloc)
    }

    /// As `string`, with the events in the list in which the run made them.
    ///
    /// The error comes only where memory is refused.
    pub fn string_list(&self, alloc: Global) -> Result<ListRun, AllocError>
        ensures events { IfOk result (λ run. run.events ≡ string_events (setting_of self.now.parse_state) self.now.pieces) }
        ensures places { IfOk result (λ run. All (IsSpanInOrder self.now.parse_state.bytes.now) (innermost run.events)) }
        ensures leaves { let bytes = self.now.parse_state.bytes.now in
            IfOk result (λ run. covered bytes (map (lent bytes) (innermost run.events)) ≡ content_of bytes self.now.pieces) }
        ensures probes { IfOk result (λ run. run.probes ≡ 0) }
    {
        let document = self.document;
        let mut tokenizer = Tokenizer::starting_at(
            alloc,
            &document.parse_state,
            self.cursor.save(),
        );
        run_through(StateName::StringStart, &mut tokenizer)
    }

    /// The events of its inline tree, read as text, as those of `run::text`.
    ///
    /// It has to be text, which `is_text` answers.
    ///
    /// The error comes only where memory is refused.
    pub fn text(&self, alloc: Global, first_of_item: bool) -> Result<Run, AllocError>
        requires { IsTextContent self.now.parse_state.bytes.now self.now.pieces }
        ensures events { IfOk result (λ run. run.events.items ≡ text_events (text_setting_of self.now.parse_state first_of_item) self.now.pieces) }
        ensures places { IfOk result (λ run. All (IsSpanInOrder self.now.parse_state.bytes.now) (innermost run.events.items)) }
        ensures leaves { let bytes = self.now.parse_state.bytes.now in
            IfOk result (λ run. covered bytes (map (lent bytes) (innermost run.events.items)) ≡ content_of bytes self.now.pieces) }
        ensures probes { let s = text_setting_of self.now.parse_state first_of_item in
            IfOk result (λ run. IsProbed s (label_tree s (content_of s.bytes self.now.pieces)) run.probes) }
        ensures no_probes { let on = self.now.parse_state.options.now.constructs in on.attention ≡ false → on.gfm_strikethrough ≡ false
            → IfOk result (λ run. run.probes ≡ 0) }
    {
        self.text_list(alloc, first_of_item)?.into_run(alloc)
    }

    /// As `text`, with the events in the list in which the run made them.
    ///
    /// It has to be text, which `is_text` answers.
    ///
    /// The error comes only where memory is refused.
    pub fn text_list(&self, alloc: Global, first_of_item: bool) -> Result<ListRun, AllocError>
        requires { IsTextContent self.now.parse_state.bytes.now self.now.pieces }
        ensures events { IfOk result (λ run. run.events ≡ text_events (text_setting_of self.now.parse_state first_of_item) self.now.pieces) }
        ensures places { IfOk result (λ run. All (IsSpanInOrder self.now.parse_state.bytes.now) (innermost run.events)) }
        ensures leaves { let bytes = self.now.parse_state.bytes.now in
            IfOk result (λ run. covered bytes (map (lent bytes) (innermost run.events)) ≡ content_of bytes self.now.pieces) }
        ensures probes { let s = text_setting_of self.now.parse_state first_of_item in
            IfOk result (λ run. IsProbed s (label_tree s (content_of s.bytes self.now.pieces)) run.probes) }
        ensures no_probes { let on = self.now.parse_state.options.now.constructs in on.attention ≡ false → on.gfm_strikethrough ≡ false
            → IfOk result (λ run. run.probes ≡ 0) }
    {
        let document = self.document;
        let names = Names::lent(alloc, &document.definitions, &document.footnotes);
        let mut tokenizer = Tokenizer::starting_at(
            alloc,
            &document.parse_state,
            self.cursor.save(),
        );
        tell(&mut tokenizer, names, first_of_item);
        text_through(&mut tokenizer)
    }

    /// A new tokenizer at the start of it, by which single constructs are read: the one that `Tokenizer::new` makes, found at once.
    ///
    /// Takes no memory. `run::construct` and `state::call` read with it.
    pub fn tokenizer(&self, alloc: Global) -> Tokenizer<'b>
        ensures parse_state { result.parse_state.now ≡ self.now.parse_state }
        ensures begun { result ≡ begun alloc result.parse_state self.now.pieces }
    {
        let document = self.document;
        Tokenizer::starting_at(alloc, &document.parse_state, self.cursor.save())
    }
}
