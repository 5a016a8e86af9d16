//! The inline layer for callers in C: each call takes an input, and fills an array that the caller lends. Nothing is kept after a call.
//!
//! A call answers a status: 0 where it is done, 2 for an unknown option, 3 for a document that is not UTF-8, 4 for a text with a blank line or a
//! line ending at its end, 5 where memory was refused, 6 for an array that is too small, 7 for pieces that are no content, 8 for the range of a
//! definition that is no text of the labels, 9 for a document longer than an eighth of `usize::MAX`, 10 for bytes that are no character reference, 11 where
//! references bring more than a limit, 12 for parts of a string that are no texts.
//! It is that of the first thing that is wrong, in the order 2, 9, 3, 7, 4, 8.
#![tactic(auto)]

ghost use Rattle.std.specs.Prelude.{◌≡◌, ◌∷◌, [], IsUtf8, length, map};
ghost use Rattle.markdown_inline_c.specs.FlatInput.{pieces_of, IsStringInput, IsTextInput};
ghost use Rattle.markdown_inline_c.specs.FlatEvents.{flat_event, string_events_of, text_events_of};
ghost use Rattle.markdown_model.specs.InlineTree.{string_events, text_events};
ghost use Rattle.markdown_inline_c.specs.FlatInput.{pieces_of, string_setting, text_setting, IsStringInput, IsTextInput};
ghost use Rattle.markdown_inline_c.specs.FlatDocuments.{IsDocumentAnswer};
ghost use Rattle.markdown_inline_c.specs.FlatEvents.{flat_event};
ghost use Rattle.markdown_inline_c.specs.FlatBlocks.{IsBlocksAnswer};
ghost use Rattle.markdown_inline_c.specs.FlatDefinitions.{IsDefinitionsAnswer};
ghost use Rattle.markdown_inline_c.specs.ShortEvents.{short_events};
ghost use Rattle.markdown_inline_c.specs.FlatLeaves.{leaves_of};
ghost use Rattle.markdown_inline_c.specs.FlatHtml.{html_of, IsHtmlInput};
ghost use Rattle.markdown_inline_c.specs.FlatLines.{AreLinePieces};
ghost use Rattle.markdown_inline_c.specs.References.{IsReference, reference_text};
ghost use Rattle.markdown_inline_c.specs.Answers.{IsAnswer, IsTested};
ghost use Rattle.markdown_inline_c.specs.Calls.{AreHtmls, AreStrings, AreTexts};
ghost use Rattle.markdown_inline_c.specs.Statuses.{IsContentFault, IsHtmlFault, IsPiecesFault, IsLabelFault, IsReferenceFault, IsStringFault, IsTextFault};
ghost use Rattle.markdown_inline_c.specs.WholeHtml.{IsAnswerOfWhole, IsWhole, whole};
ghost use Rattle.markdown_util.specs.Identifier.{identifier_of};
ghost use Rattle.markdown_content.specs.Content.{IsContent, IsTextContent};

pub mod answer;
pub mod blocks;
pub mod check;
pub mod contents;
pub mod definitions;
pub mod document;
pub mod extensions;
pub mod fault;
pub mod flat;
pub mod form;
pub mod found;
pub mod html;
pub mod htmls;
pub mod input;
pub mod label;
pub mod leaf;
pub mod line_pieces;
pub mod outcome;
pub mod reference;
pub mod refusal;
pub mod strings;
pub mod texts;

use answer::answer;
use blocks::{answer_blocks, found_blocks};
use definitions::{answer_definitions, found_definitions};
use document::write_document_html;
use flat::{
    BlocksCount, DefinitionsCount, DocumentOptions, FlatBlock, FlatContent, FlatEvent, FlatLeaf,
    FlatPiece, FlatTarget, Input, Range, ShortEvent,
};
use form::{Large, Short};
use htmls::htmls;
use line_pieces::write_line_pieces;
use outcome::Outcome;
use std::alloc::Global;
use texts::texts;

/// The version of the functions that this library exports, and of the types that they take.
#[unsafe(no_mangle)]
pub extern "C" fn markdown_inline_version() -> u32
    ensures { result ≡ 1 }
{
    1
}

/// Whether the pieces are a content of the document: status 0. Else the status is 9, 3 or 7, or 5.
#[unsafe(no_mangle)]
pub extern "C" fn markdown_inline_is_content(
    alloc: Global,
    bytes: &[u8],
    pieces: &[FlatPiece],
) -> u32
    ensures { IsTested (IsContent bytes.now (pieces_of pieces.now)) (IsContentFault bytes.now (pieces_of pieces.now)) result }
{
    fault::status_of(check::is_content(alloc, bytes, pieces))
}

/// Whether the pieces are a text of the document: status 0. Else the status is 9, 3, 7 or 4, or 5.
#[unsafe(no_mangle)]
pub extern "C" fn markdown_inline_is_text(alloc: Global, bytes: &[u8], pieces: &[FlatPiece]) -> u32
    ensures { IsTested (IsTextContent bytes.now (pieces_of pieces.now)) (IsPiecesFault bytes.now (pieces_of pieces.now)) result }
{
    fault::status_of(check::is_text(alloc, bytes, pieces))
}

/// The pieces of a paragraph, made of where its lines begin: of the byte at which the paragraph's part of each line begins, behind the markers of quotes
/// and items. Blanks may stand there. The time is in proportion to the lines, and not to the document, which is not tested.
///
/// There is a piece for each start, of the same number. It begins at the first byte from the start on that is no space or tab, and ends just behind its
/// line's ending; the last one ends before the whitespace at its end. So no column of a tab comes before a piece.
///
/// With status 0 they stand at the front of `pieces`, and both `done` and `count` of the outcome are how many they are. With status 6 `count` is that too,
/// `done` is 0, and they are more than there is room for. The status is 7 for the first start that stands inside a character or behind the end of the
/// document, or not on the line behind that of the start before; and 4 for the first one whose line has only spaces and tabs behind it: with these two the
/// outcome blames this start by its number. It is 5 too. Nothing else is written.
#[unsafe(no_mangle)]
pub extern "C" fn markdown_inline_pieces_of_lines(
    alloc: Global,
    bytes: &[u8],
    starts: &[usize],
    pieces: &mut [FlatPiece],
    outcome: &mut Outcome,
) -> u32
    ensures { AreLinePieces bytes.now starts.now pieces.old pieces.new outcome.new result }
{
    write_line_pieces(alloc, bytes, starts, pieces, outcome)
}

/// The events of the inline tree of the input's pieces as a string: of escapes, character references and data. Each call tests the whole document
/// and passes all that stands before the pieces, so a call for each of many pieces of one document takes time in proportion to its square. The
/// labels and definitions are not looked at, nor whether the text is the first of an item.
///
/// With status 0 they stand at the front of `events`, and `count` is how many they are. With status 6 `count` is that too, and they are more than
/// `events` has room for. Nothing else is written.
#[unsafe(no_mangle)]
pub extern "C" fn markdown_inline_string(
    alloc: Global,
    input: &Input,
    events: &mut [FlatEvent],
    count: &mut usize,
) -> u32
    ensures { IsAnswer (string_events_of input.now) (IsStringInput input.now) (IsStringFault input.now) events.old events.new count.old count.new result }
{
    answer(input::string(alloc, input), events, count)
}

/// The events of the inline tree of the input's pieces as a text: of the inside of a paragraph, a heading or a table's cell. Each call tests the whole
/// document, passes all that stands before the pieces, and puts the labels in order, so a call for each paragraph of one document takes time in
/// proportion to its square: `markdown_inline_texts` is for many contents.
///
/// With status 0 they stand at the front of `events`, and `count` is how many they are. With status 6 `count` is that too, and they are more than
/// `events` has room for. Nothing else is written.
#[unsafe(no_mangle)]
pub extern "C" fn markdown_inline_text(
    alloc: Global,
    input: &Input,
    events: &mut [FlatEvent],
    count: &mut usize,
) -> u32
    ensures { IsAnswer (text_events_of input.now) (IsTextInput input.now) (IsTextFault input.now) events.old events.new count.old count.new result }
{
    answer(input::text(alloc, input), events, count)
}

/// The leaves of the inline tree of the input's pieces as a text, in order, each with where it begins and ends and what stands there. A call costs what
/// `markdown_inline_text` does.
///
/// With status 0 they stand at the front of `leaves`, and `count` is how many they are. With status 6 `count` is that too, and they are more than
/// `leaves` has room for. Nothing else is written.
#[unsafe(no_mangle)]
pub extern "C" fn markdown_inline_leaves(
    alloc: Global,
    input: &Input,
    leaves: &mut [FlatLeaf],
    count: &mut usize,
) -> u32
    ensures { IsAnswer (leaves_of input.now) (IsTextInput input.now) (IsTextFault input.now) leaves.old leaves.new count.old count.new result }
{
    answer(leaf::leaves(alloc, input), leaves, count)
}

/// The identifier of a label, as labels are compared: its words joined by one space and case folded.
///
/// With status 0 its UTF-8 stands at the front of `identifier`, and `count` is how many bytes it has. With status 6 `count` is that too, and they
/// are more than there is room for. The status is 3 for a label that is not UTF-8, and 5. Nothing else is written.
#[unsafe(no_mangle)]
pub extern "C" fn markdown_inline_identifier(
    alloc: Global,
    label: &[u8],
    identifier: &mut [u8],
    count: &mut usize,
) -> u32
    ensures { IsAnswer (identifier_of label.now) (IsUtf8 label.now) (IsLabelFault label.now) identifier.old identifier.new count.old count.new result }
{
    answer(label::identifier(alloc, label), identifier, count)
}

/// The text that a character reference stands for: the bytes are the whole of it, with its `&` and its `;` (CommonMark 0.31, section 2.5).
///
/// The options are those of an input. They say which names are known, and whether a number stands for a control or a noncharacter.
///
/// With status 0 its UTF-8 stands at the front of `text`, and `count` is how many bytes it has. With status 6 `count` is that too, and they
/// are more than there is room for. The status is 2 for an unknown option, then 10 for bytes that are no reference, or one whose name is not known,
/// and 5. Nothing else is written.
#[unsafe(no_mangle)]
pub extern "C" fn markdown_inline_reference(
    alloc: Global,
    options: u32,
    reference: &[u8],
    text: &mut [u8],
    count: &mut usize,
) -> u32
    ensures { IsAnswer (reference_text options reference.now) (IsReference options reference.now) (IsReferenceFault options reference.now)
        text.old text.new count.old count.new result }
{
    answer(reference::decoded(alloc, options, reference), text, count)
}

/// The events of many contents of the input as texts, one content after another. The document is prepared once, and each content costs what it
/// costs by itself, wherever it stands.
///
/// A content is a range of numbers of the input's pieces. That the text is the first of a list item is said of each content, and not by the
/// options. Numbers of events count within a content.
///
/// The events of as many of the first contents as have room whole stand at the front of `events`, and where those of each end at the front of
/// `ends`; nothing else of the two is written. The outcome tells how many contents these are, and how many events all contents have that are read.
///
/// With status 0 these are all contents. With status 6 all contents are read, and there is not room for all of them. The status is that of the first
/// thing that is wrong, in the order 2, 9, 3, 8; then that of the first content that is no text, 7 or 4: those before it are read. With status 7
/// and 4 the outcome blames this content by its number; with status 8 the definition whose label is none, where numbers of footnotes are counted
/// on behind those of the definitions; with status 3 the first byte of the document that is not UTF-8. Else nothing is to blame, and the number is
/// `usize::MAX`.
#[unsafe(no_mangle)]
pub extern "C" fn markdown_inline_texts(
    alloc: Global,
    input: &Input,
    contents: &[FlatContent],
    events: &mut [FlatEvent],
    ends: &mut [usize],
    outcome: &mut Outcome,
) -> u32
    ensures { AreTexts (λ _. map flat_event) input.now contents.now events.old events.new ends.old ends.new outcome.new result }
{
    let end = texts::<Large>(alloc, input, contents, events, ends, outcome);
    outcome.ended(end, contents.len())
}

/// The same events in 16 bytes each, with the definitions that links, images and footnote calls refer to: of several with one identifier the first
/// counts; and with the code points of the characters that character references stand for (CommonMark 0.31, section 2.5), but where a reference stands for
/// two. It costs what `markdown_inline_texts` costs, and for each reference what it takes to find its definition or its character.
///
/// The events are handed out, and inputs are refused, as by `markdown_inline_texts`.
#[unsafe(no_mangle)]
pub extern "C" fn markdown_inline_short_texts(
    alloc: Global,
    input: &Input,
    contents: &[FlatContent],
    events: &mut [ShortEvent],
    ends: &mut [usize],
    outcome: &mut Outcome,
) -> u32
    ensures { AreTexts short_events input.now contents.now events.old events.new ends.old ends.new outcome.new result }
{
    let end = texts::<Short>(alloc, input, contents, events, ends, outcome);
    outcome.ended(end, contents.len())
}

/// The HTML of the inline tree of the input's pieces as a text. Each call tests the whole document, passes all that stands before the pieces, and puts
/// the definitions in order, so a call for each paragraph of one document takes time in proportion to its square: `markdown_inline_htmls` is for many
/// contents.
///
/// Where each definition of the input leads is told by the target of the same number. The bits of `options` are 0x1, by which raw HTML is written as it
/// is and not as text; 0x2, by which links lead wherever they say and not to listed schemes alone; and 0x20 or 0x40, by which each line ending is written as a
/// line feed, or as a carriage return and a line feed.
///
/// A definition brings the bytes of its destination and of its title, as the target has them, to each link and image that refers to it. Where
/// definitions bring more than `limit` bytes, the status is 11: 0 is the default, which is the larger of 100,000 and the length of the document, and
/// `usize::MAX` is no limit. That is found out before the HTML is written, which would grow with the square of the document without a limit.
///
/// With status 0 the HTML, in UTF-8, stands at the front of `html`, and `count` is how many bytes it has. With status 6 `count` is that too, and
/// they are more than there is room for. The status is 8 too where a target is no text of the labels, or where there is not one target for each
/// definition. Nothing else is written.
#[unsafe(no_mangle)]
pub extern "C" fn markdown_inline_html(
    alloc: Global,
    input: &Input,
    targets: &[FlatTarget],
    options: u32,
    limit: usize,
    html: &mut [u8],
    count: &mut usize,
) -> u32
    ensures { IsAnswer (html_of input.now targets.now options) (IsHtmlInput input.now targets.now options limit)
        (IsHtmlFault input.now targets.now options limit) html.old html.new count.old count.new result }
{
    answer(
        html::html(alloc, input, targets, options, limit),
        html,
        count,
    )
}

fn whole_piece(bytes: &[u8]) -> FlatPiece
    ensures { result ≡ whole (length bytes.now) }
{
    FlatPiece {
        start: 0,
        start_vs: 0,
        end: bytes.len(),
        end_vs: 0,
    }
}

// An input of all of these bytes, with no definitions.
fn whole_input<'a>(bytes: &'a [u8], pieces: &'a [FlatPiece], options: u32) -> Input<'a>
    requires { pieces.now ≡ whole (length bytes.now) ∷ [] }
    ensures { IsWhole bytes.entry.now options result }
{
    Input {
        bytes,
        pieces,
        labels: b"",
        definitions: &[],
        footnotes: &[],
        options,
        reserved: 0,
    }
}

/// The HTML of all of these bytes as a text, with no definitions: that of an input which has them as one piece.
///
/// `options` are those of an input, and `html_options` those of `markdown_inline_html`.
///
/// With status 0 the HTML, in UTF-8, stands at the front of `html`, and `count` is how many bytes it has. With status 6 `count` is that too, and
/// they are more than there is room for. Nothing else is written.
#[unsafe(no_mangle)]
pub extern "C" fn markdown_inline_html_of(
    alloc: Global,
    bytes: &[u8],
    options: u32,
    html_options: u32,
    html: &mut [u8],
    count: &mut usize,
) -> u32
    ensures { IsAnswerOfWhole bytes.now options html_options html.old html.new count.old count.new result }
{
    let pieces = [whole_piece(bytes)];
    let input = whole_input(bytes, &pieces, options);
    markdown_inline_html(alloc, &input, &[], html_options, usize::MAX, html, count)
}

/// The HTML of a document: of its blocks and of what is inside them, by CommonMark 0.31.2. No text becomes markup and no link leads to a script, unless
/// the options say otherwise.
///
/// Of the options, `options` are those of an input: 0 is CommonMark, and neither the first of an item nor footnote calls can be asked for. `blocks` has 0x1 for
/// code fenced with dollars, which is math, and 0x2 for front matter, which is left out of the HTML. `html` and `limit` are those of `markdown_inline_html`; the limit is for what definitions bring to all texts of the document together. The reserved words are 0.
///
/// With status 0 the HTML, in UTF-8, is at the front of `html`; `count` of the outcome is how many bytes it has, and `done` is 1. With status 6 `count` is that
/// too, and they are more than there is room for. The status is that of the first thing that is wrong, in the order 2, 9, 3, 11; or it is 5. With status 3 the
/// outcome blames the first byte that is not UTF-8; else nothing is to blame, and the number is `usize::MAX`. Nothing else is written.
#[unsafe(no_mangle)]
pub extern "C" fn markdown_inline_document_html(
    alloc: Global,
    bytes: &[u8],
    options: &DocumentOptions,
    html: &mut [u8],
    outcome: &mut Outcome,
) -> u32
    ensures { IsDocumentAnswer bytes.now options.now html.old html.new outcome.new result }
{
    write_document_html(alloc, bytes, options, html, outcome)
}

/// The texts of strings, one after another, with escaped punctuation in place of its escape, and in place of each character reference its text
/// (CommonMark 0.31, sections 2.4 and 2.5): of destinations, titles and info strings. All other bytes stay.
///
/// The options are those of an input. They say which names are known, and whether a number stands for a control or a noncharacter.
///
/// The bits of `string_options` are 0x1, by which a line feed is written for each line ending (section 2.1), and 0x2, by which U+FFFD is written for NUL
/// (section 2.3): of the bytes, before escapes and references are resolved.
///
/// A part is a range of the bytes; a string is a range of numbers of parts, whose bytes are one text.
///
/// The texts are handed out as `markdown_inline_texts` hands out events. The status is 2 for an unknown option: then nothing is read. With status 12 the outcome
/// blames the first string that has a part that is not given, or one that is no text of the bytes: those before it are read.
#[unsafe(no_mangle)]
pub extern "C" fn markdown_inline_strings(
    alloc: Global,
    options: u32,
    string_options: u32,
    bytes: &[u8],
    parts: &[Range],
    strings: &[Range],
    texts: &mut [u8],
    ends: &mut [usize],
    outcome: &mut Outcome,
) -> u32
    ensures { AreStrings options string_options bytes.now parts.now strings.now texts.old texts.new ends.old ends.new outcome.new result }
{
    let end = strings::strings(
        alloc,
        options,
        string_options,
        bytes,
        parts,
        strings,
        texts,
        ends,
        outcome,
    );
    outcome.ended(end, strings.len())
}

/// The HTML of many contents of the input as texts, one content after another. The document is prepared once, and each content costs what it costs
/// by itself, wherever it stands. Footnotes are numbered through all contents, so that each call in them has a number and an id of the document.
///
/// Contents are those of `markdown_inline_texts`. Targets and the bits of `options` are those of one content.
///
/// The `limit` is that of one content, for what definitions bring to all contents together.
///
/// The HTML is handed out as `markdown_inline_texts` hands out events. The status is that of the first thing that is wrong, in the order 2, 9, 3, 8; then that
/// of the first content that is refused, 7, 4 or 11, which the outcome blames: those before it are read. With status 8 it blames the definition whose label
/// or target is none; where there is not one target for each definition, it blames none.
#[unsafe(no_mangle)]
pub extern "C" fn markdown_inline_htmls(
    alloc: Global,
    input: &Input,
    targets: &[FlatTarget],
    contents: &[FlatContent],
    options: u32,
    limit: usize,
    html: &mut [u8],
    ends: &mut [usize],
    outcome: &mut Outcome,
) -> u32
    ensures { AreHtmls input.now targets.now contents.now options limit html.old html.new ends.old ends.new outcome.new result }
{
    let end = htmls(
        alloc, input, targets, contents, options, limit, html, ends, outcome,
    );
    outcome.ended(end, contents.len())
}

/// The blocks of a document, in its order, and the pieces of their texts (CommonMark 0.31, sections 4 and 5). A block that holds others stands before
/// them, and they stand one deeper. Definitions are no text: a paragraph of definitions alone has no pieces.
///
/// The pieces of a heading or a paragraph are a text of the document, those of code, HTML and front matter are its lines; of fenced code the info string stands
/// first. `block_options` are the blocks that are read beside CommonMark's, as in the options of a document.
///
/// With status 0 blocks and pieces stand at the fronts of the arrays, and `count` is how many they are. With status 6 `count` is that too, and one of
/// the arrays has too little room. The status is 2, 9, 3 or 5 too. Nothing else is written.
#[unsafe(no_mangle)]
pub extern "C" fn markdown_inline_blocks(
    alloc: Global,
    bytes: &[u8],
    block_options: u32,
    blocks: &mut [FlatBlock],
    pieces: &mut [FlatPiece],
    count: &mut BlocksCount,
) -> u32
    ensures { IsBlocksAnswer block_options bytes.now blocks.old blocks.new pieces.old pieces.new count.old count.new result }
{
    answer_blocks(
        found_blocks(alloc, block_options, bytes),
        blocks,
        pieces,
        count,
    )
}

/// The link reference definitions of a document, in its order, as an input takes them, with a target for each (CommonMark 0.31, section 4.7). Labels
/// stand as they are written; in destinations and titles escapes and character references are resolved. `block_options` are those of `markdown_inline_blocks`.
///
/// With status 0 they stand at the fronts of the arrays, and `count` is how many definitions there are, with as many targets, and how many bytes their labels,
/// destinations and titles have. With status 6 `count` is that too, and one of the arrays has too little room. The status is 2, 9, 3 or 5 too.
/// Nothing else is written.
#[unsafe(no_mangle)]
pub extern "C" fn markdown_inline_definitions(
    alloc: Global,
    bytes: &[u8],
    block_options: u32,
    labels: &mut [u8],
    definitions: &mut [Range],
    targets: &mut [FlatTarget],
    count: &mut DefinitionsCount,
) -> u32
    ensures { IsDefinitionsAnswer block_options bytes.now labels.old labels.new definitions.old definitions.new targets.old targets.new count.old count.new result }
{
    answer_definitions(
        found_definitions(alloc, block_options, bytes),
        labels,
        definitions,
        targets,
        count,
    )
}
