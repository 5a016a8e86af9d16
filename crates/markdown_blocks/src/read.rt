//! A line on the blocks of the lines before it.

ghost use Rattle.std.specs.Prelude.{◌≡◌, ◌≤◌, ◌<◌, ◌∷◌, [], Bool, ℕ, List, suc, length, take, true, false, Some, None, IfOk, IfSome};
ghost use Rattle.std.specs.List.{list_all};
ghost use Rattle.markdown_event.specs.declared.event.Point.{Point};
ghost use Rattle.markdown_content.specs.Codes.{Code};
ghost use Rattle.markdown_content.specs.Content.{content_of};
ghost use Rattle.markdown_block_model.specs.LineRests.{is_blank_line, trimmed};
ghost use Rattle.markdown_block_model.specs.BlockTree.{and_leaf, nothing, paragraph};
ghost use Rattle.markdown_block_model.specs.BlockStarts.{with_rest, with_begun, with_line};
ghost use Rattle.markdown_block_model.specs.DocumentBlocks.{read_line, rest_inside, is_lazy, with_lazy_line, is_nothing, heading_level, with_text_line, with_leaf_line, with_next, with_next_or_line};
ghost use Rattle.markdown_block_line.specs.LineBlocks.{extensions_of, container_of};
ghost use Rattle.markdown_block_line.specs.LineStarts.{begun_of, IsWithin};
ghost use Rattle.markdown_blocks.specs.TreeDepth.{at_depth, inside_at};
ghost use Rattle.markdown_blocks.specs.BlockRows.{leaf_of, closed_tree, whole_tree, depth, container_at, is_text, lazy_leaf, IsBetween, IsStanding, IsDeeper, HasBegun, HasPassed, Changes};
ghost use Rattle.markdown_blocks.specs.LineRest.{IsBegun, TextsBefore, TextsBehind};
ghost use Rattle.markdown_blocks.specs.TextRows.{is_outer, line_stop, HasPlacedText, IsOpenLeaf, HasPlacedRows, HasPlacedTexts};
ghost use Rattle.markdown_blocks.specs.declared.block.Leaf.TheVariants.{Paragraph};

use crate::block::{Leaf, Row};
use crate::leaves::{self, Next};
use crate::reader::Reader;
use crate::rest::Rest;
use crate::text::HasText;
use markdown_block_line::begins::Begun;
use markdown_block_line::containers::Container;
use markdown_content::parser::Piece;
use std::alloc::{AllocError, Global};

// Closes a leaf.
fn put_leaf(reader: &mut Reader, leaf: Leaf) -> Result<(), AllocError>
    ensures tree { IfOk result (λ _. (bytes : List ℕ)
        → closed_tree bytes reader.new ≡ at_depth (depth reader.old) (λ s. and_leaf s (leaf_of bytes leaf)) (closed_tree bytes reader.old)) }
    ensures path { reader.new.path ≡ reader.old.path }
    ensures open { reader.new.open ≡ reader.old.open }
    ensures standing { IfOk result (λ _. (bytes : List ℕ) → IsStanding bytes reader.old → IsStanding bytes reader.new) }
    ensures texts { IfOk result (λ _. (bytes : List ℕ) → IsStanding bytes reader.old → HasPlacedRows bytes reader.old → HasPlacedText bytes leaf
        → HasPlacedRows bytes reader.new) }
{
    let depth = reader.path.len();
    reader.rows.push(Row::LeafAt(depth, leaf))?;
    Ok(())
}

// Opens a container that holds nothing yet.
fn put_container(reader: &mut Reader, container: Container) -> Result<(), AllocError>
    ensures deeper { IfOk result (λ _. (bytes : List ℕ) → IsStanding bytes reader.old → IsDeeper bytes (container_of container) reader.old reader.new) }
    ensures texts { IfOk result (λ _. (bytes : List ℕ) → IsStanding bytes reader.old → HasPlacedRows bytes reader.old
        → HasPlacedRows bytes reader.new) }
{
    let depth = reader.path.len();
    reader.rows.push(Row::ContainerAt(depth, container))?;
    reader.path.push(container)?;
    Ok(())
}

// Makes a leaf the open one.
fn open_leaf(reader: &mut Reader, leaf: Leaf)
    ensures { reader.new ≡ record reader.old { «open» = Some leaf } }
{
    reader.open = Some(leaf);
}

// A text of one piece.
fn one_piece(alloc: Global, piece: Piece) -> Result<Vec<Piece>, AllocError>
    ensures { IfOk result (λ text. text.items ≡ piece ∷ []) }
{
    let mut text = Vec::new(alloc);
    text.push(piece)?;
    Ok(text)
}

// The paragraph that begins with a line.
fn text_leaf(alloc: Global, rest: &Rest) -> Result<Leaf, AllocError>
    requires { is_blank_line rest.now.codes ≡ false }
    ensures leaf { IfOk result (λ leaf. leaf_of rest.now.bytes leaf ≡ paragraph (trimmed rest.now.codes)) }
    ensures text { IfOk result (IsOpenLeaf rest.now.bytes (line_stop rest.now.bytes rest.now.start)) }
{
    let text = one_piece(alloc, rest.trimmed_piece())?;
    Ok(Leaf::Paragraph(text))
}

// The block that begins here: a leaf, or a container, of which it returns how many codes stand outside.
fn begin(
    alloc: Global,
    reader: &mut Reader,
    begun: Begun,
    rest: &Rest,
) -> Result<Option<usize>, AllocError>
    requires standing { IsStanding rest.now.bytes reader.old }
    requires within { IsWithin (length rest.now.codes) begun }
    requires is { IsBegun rest.now.extensions rest.now.codes begun }
    requires texts { HasPlacedRows rest.now.bytes reader.old }
    ensures begun { IfOk result (λ outside. HasBegun rest.now.bytes (begun_of rest.now.codes begun) rest.now.codes outside reader.old reader.new) }
    ensures outer { IfOk result (λ outside. IfSome outside (λ k. list_all is_outer (take k rest.now.codes) ≡ true)) }
    ensures texts { IfOk result (λ _. TextsBehind rest.now reader.new) }
{
    match begun {
        Begun::Container(container, outside) => {
            put_container(reader, container)?;
            Ok(Some(outside))
        }
        Begun::ThematicBreak => {
            open_leaf(reader, Leaf::ThematicBreak);
            Ok(None)
        }
        Begun::Heading(heading) => {
            let text = rest.piece(heading.start, heading.len);
            open_leaf(reader, Leaf::Heading(heading.level, text));
            Ok(None)
        }
        Begun::FencedCode(found) => {
            let info = rest.piece(found.start, found.len);
            open_leaf(
                reader,
                Leaf::FencedCode(found.fence, info, Vec::new(alloc), false),
            );
            Ok(None)
        }
        Begun::Html(html) => {
            let text = one_piece(alloc, rest.piece_from(0))?;
            open_leaf(reader, Leaf::Html(html.kind, text, html.ended));
            Ok(None)
        }
        Begun::IndentedCode => {
            let lines = one_piece(alloc, rest.piece_from(4))?;
            open_leaf(reader, Leaf::IndentedCode(lines));
            Ok(None)
        }
    }
}

// The next block that the rest of a line begins where no leaf is open. It returns how many codes stand outside the container that begins, or `None`.
fn begin_next(alloc: Global, reader: &mut Reader, rest: &Rest) -> Result<Option<usize>, AllocError>
    requires standing { IsStanding rest.now.bytes reader.old }
    requires empty { is_blank_line rest.now.codes ≡ true → inside_at (depth reader.old) (closed_tree rest.now.bytes reader.old) ≡ nothing }
    requires texts { HasPlacedRows rest.now.bytes reader.old }
    ensures begun { IfOk result (λ outside. HasPassed rest.now.extensions rest.now.bytes rest.now.codes outside reader.old reader.new) }
    ensures outer { IfOk result (λ outside. IfSome outside (λ k. list_all is_outer (take k rest.now.codes) ≡ true)) }
    ensures texts { IfOk result (λ _. TextsBehind rest.now reader.new) }
{
    match rest.begun(false, false) {
        Some(begun) => {
            let outside = begin(alloc, reader, begun, rest)?;
            Ok(outside)
        }
        None => {
            if rest.is_blank() {
                return Ok(None);
            }
            let leaf = text_leaf(alloc, rest)?;
            open_leaf(reader, leaf);
            Ok(None)
        }
    }
}

// What the rest of a line begins where no leaf is open.
fn begin_rest(alloc: Global, reader: &mut Reader, rest: &Rest) -> Result<(), AllocError>
    requires standing { IsStanding rest.now.bytes reader.old }
    requires empty { is_blank_line rest.now.codes ≡ true → inside_at (depth reader.old) (closed_tree rest.now.bytes reader.old) ≡ nothing }
    requires texts { HasPlacedRows rest.now.bytes reader.old }
    ensures tree { IfOk result (λ _. Changes rest.now.bytes (with_rest (extensions_of rest.now.extensions) (suc (length rest.now.codes)) rest.now.codes) reader.old reader.new) }
    ensures between { IfOk result (λ _. IsBetween rest.now.bytes reader.new) }
    ensures texts { IfOk result (λ _. TextsBehind rest.now reader.new) }
{
    let mut inner = rest.behind(0);
    while let Some(outside) = begin_next(alloc, reader, &inner)? {
        inner = inner.behind(outside);
    }
    Ok(())
}

// A block that begins here, with what the line begins inside it.
fn begin_all(
    alloc: Global,
    reader: &mut Reader,
    begun: Begun,
    rest: &Rest,
) -> Result<(), AllocError>
    requires standing { IsStanding rest.now.bytes reader.old }
    requires within { IsWithin (length rest.now.codes) begun }
    requires is { IsBegun rest.now.extensions rest.now.codes begun }
    requires texts { HasPlacedRows rest.now.bytes reader.old }
    ensures tree { IfOk result (λ _. Changes rest.now.bytes (with_begun (extensions_of rest.now.extensions) (begun_of rest.now.codes begun)) reader.old reader.new) }
    ensures between { IfOk result (λ _. IsBetween rest.now.bytes reader.new) }
    ensures texts { IfOk result (λ _. TextsBehind rest.now reader.new) }
{
    match begin(alloc, reader, begun, rest)? {
        None => Ok(()),
        Some(outside) => {
            begin_rest(alloc, reader, &rest.behind(outside))?;
            Ok(())
        }
    }
}

// A line that stands behind the siblings of the innermost container.
fn stand(alloc: Global, reader: &mut Reader, rest: &Rest) -> Result<(), AllocError>
    requires standing { IsStanding rest.now.bytes reader.old }
    requires texts { HasPlacedRows rest.now.bytes reader.old }
    ensures tree { IfOk result (λ _. Changes rest.now.bytes (with_line (extensions_of rest.now.extensions) rest.now.codes) reader.old reader.new) }
    ensures between { IfOk result (λ _. IsBetween rest.now.bytes reader.new) }
    ensures texts { IfOk result (λ _. TextsBehind rest.now reader.new) }
{
    if rest.is_blank() {
        open_leaf(reader, Leaf::Blank);
        return Ok(());
    }
    begin_rest(alloc, reader, rest)?;
    Ok(())
}

// The level of the heading that a line makes of a paragraph.
fn heading_level<T: HasText>(
    alloc: Global,
    test: &T,
    text: &[Piece],
    rest: &Rest,
) -> Result<Option<usize>, AllocError>
    ensures { IfOk result (λ level. level ≡ heading_level T.has_text rest.now.codes (content_of rest.now.bytes text.now)) }
{
    match rest.underline() {
        None => Ok(None),
        Some(level) => {
            if test.test(alloc, rest.document(), text)? {
                return Ok(Some(level));
            }
            Ok(None)
        }
    }
}

// A line behind a paragraph.
fn follow_text<T: HasText>(
    alloc: Global,
    test: &T,
    reader: &mut Reader,
    text: Vec<Piece>,
    rest: &Rest,
) -> Result<(), AllocError>
    requires standing { IsStanding rest.now.bytes reader.old }
    requires texts { HasPlacedRows rest.now.bytes reader.old }
    requires text { IsOpenLeaf rest.now.bytes rest.now.start (Paragraph text) }
    ensures tree { IfOk result (λ _.
        Changes rest.now.bytes (λ s. with_text_line (extensions_of rest.now.extensions) T.has_text rest.now.codes s (content_of rest.now.bytes text.items)) reader.old reader.new) }
    ensures between { IfOk result (λ _. IsBetween rest.now.bytes reader.new) }
    ensures texts { IfOk result (λ _. TextsBehind rest.now reader.new) }
{
    let mut text = text;
    if rest.is_blank() {
        put_leaf(reader, Leaf::Paragraph(text))?;
        open_leaf(reader, Leaf::Blank);
        return Ok(());
    }
    let heading = heading_level(alloc, test, &text, rest)?;
    if let Some(level) = heading {
        open_leaf(reader, Leaf::Underlined(level, text));
        return Ok(());
    }
    match rest.begun(true, true) {
        None => {
            text.push(rest.trimmed_piece())?;
            open_leaf(reader, Leaf::Paragraph(text));
            Ok(())
        }
        Some(begun) => {
            put_leaf(reader, Leaf::Paragraph(text))?;
            begin_all(alloc, reader, begun, rest)?;
            Ok(())
        }
    }
}

// A line behind a leaf that is no paragraph, or in it.
fn follow_other(
    alloc: Global,
    reader: &mut Reader,
    leaf: Leaf,
    rest: &Rest,
) -> Result<(), AllocError>
    requires standing { IsStanding rest.now.bytes reader.old }
    requires texts { HasPlacedRows rest.now.bytes reader.old }
    requires text { IsOpenLeaf rest.now.bytes rest.now.start leaf }
    ensures tree { IfOk result (λ _.
        Changes rest.now.bytes (λ s. with_next_or_line (extensions_of rest.now.extensions) rest.now.codes s (leaf_of rest.now.bytes leaf)
        (with_next (extensions_of rest.now.extensions) (leaf_of rest.now.bytes leaf) rest.now.codes)) reader.old reader.new) }
    ensures between { IfOk result (λ _. IsBetween rest.now.bytes reader.new) }
    ensures texts { IfOk result (λ _. TextsBehind rest.now reader.new) }
{
    match leaves::continued(leaf, rest)? {
        Next::WithLine(leaf) => {
            open_leaf(reader, leaf);
            Ok(())
        }
        Next::Without(leaf) => {
            put_leaf(reader, leaf)?;
            stand(alloc, reader, rest)?;
            Ok(())
        }
    }
}

// A line behind a leaf, or in it.
fn follow_leaf<T: HasText>(
    alloc: Global,
    test: &T,
    reader: &mut Reader,
    leaf: Leaf,
    rest: &Rest,
) -> Result<(), AllocError>
    requires standing { IsStanding rest.now.bytes reader.old }
    requires texts { HasPlacedRows rest.now.bytes reader.old }
    requires text { IsOpenLeaf rest.now.bytes rest.now.start leaf }
    ensures tree { IfOk result (λ _.
        Changes rest.now.bytes (λ s. with_leaf_line (extensions_of rest.now.extensions) T.has_text rest.now.codes s (leaf_of rest.now.bytes leaf)) reader.old reader.new) }
    ensures between { IfOk result (λ _. IsBetween rest.now.bytes reader.new) }
    ensures texts { IfOk result (λ _. TextsBehind rest.now reader.new) }
{
    match leaf {
        Leaf::Paragraph(text) => {
            follow_text(alloc, test, reader, text, rest)?;
            Ok(())
        }
        leaf => {
            follow_other(alloc, reader, leaf, rest)?;
            Ok(())
        }
    }
}

// A line that continues all open containers.
fn follow<T: HasText>(
    alloc: Global,
    test: &T,
    reader: &mut Reader,
    rest: &Rest,
) -> Result<(), AllocError>
    requires between { IsBetween rest.now.bytes reader.old }
    requires texts { TextsBefore rest.now reader.old }
    ensures tree { IfOk result (λ _.
        whole_tree rest.now.bytes reader.new ≡ at_depth (depth reader.old) (read_line (extensions_of rest.now.extensions) T.has_text rest.now.codes) (whole_tree rest.now.bytes reader.old)) }
    ensures between { IfOk result (λ _. IsBetween rest.now.bytes reader.new) }
    ensures texts { IfOk result (λ _. TextsBehind rest.now reader.new) }
{
    match reader.open.take() {
        None => {
            stand(alloc, reader, rest)?;
            Ok(())
        }
        Some(leaf) => {
            follow_leaf(alloc, test, reader, leaf, rest)?;
            Ok(())
        }
    }
}

/// Closes the open leaf.
pub fn put_open(reader: &mut Reader) -> Result<(), AllocError>
    ensures tree { IfOk result (λ _. (bytes : List ℕ) → closed_tree bytes reader.new ≡ whole_tree bytes reader.old) }
    ensures path { reader.new.path ≡ reader.old.path }
    ensures standing { IfOk result (λ _. (bytes : List ℕ) → IsBetween bytes reader.old → IsStanding bytes reader.new) }
    ensures texts { IfOk result (λ _. (bytes : List ℕ) (p : Point) → IsBetween bytes reader.old → HasPlacedTexts bytes p reader.old
        → HasPlacedRows bytes reader.new) }
{
    match reader.open.take() {
        None => Ok(()),
        Some(leaf) => {
            put_leaf(reader, leaf)?;
            Ok(())
        }
    }
}

// Closes the open leaf, and the containers from this depth on.
fn close(reader: &mut Reader, outside: usize) -> Result<(), AllocError>
    requires within { outside ≤ depth reader.old }
    ensures tree { IfOk result (λ _. (bytes : List ℕ) → closed_tree bytes reader.new ≡ whole_tree bytes reader.old) }
    ensures depth { IfOk result (λ _. depth reader.new ≡ outside) }
    ensures standing { IfOk result (λ _. (bytes : List ℕ) → IsBetween bytes reader.old → IsStanding bytes reader.new) }
    ensures texts { IfOk result (λ _. (bytes : List ℕ) (p : Point) → IsBetween bytes reader.old → HasPlacedTexts bytes p reader.old
        → HasPlacedRows bytes reader.new) }
{
    put_open(reader)?;
    reader.path.truncate(outside);
    Ok(())
}

// Whether the open container that stands so deep holds nothing.
fn holds_nothing(reader: &Reader, outside: usize) -> bool
    requires { outside < depth reader.now }
    ensures { (bytes : List ℕ) → IsBetween bytes reader.now → result ≡ is_nothing (inside_at (suc outside) (whole_tree bytes reader.now)) }
{
    if outside < reader.path.len() - 1 {
        return false;
    }
    match &reader.open {
        None => true,
        Some(_) => false,
    }
}

// From a place on, the place to which a line goes at once: the last container of a row of items, where nothing is left of the line.
fn leap(reader: &Reader, outside: usize, rest: &Rest) -> usize
    requires between { IsBetween rest.now.bytes reader.now }
    requires within { outside < depth reader.now }
    ensures within { result < depth reader.now }
    ensures forward { outside ≤ result }
    ensures same { (has_text : List Code → Bool)
        → at_depth outside (read_line (extensions_of rest.now.extensions) has_text rest.now.codes) (whole_tree rest.now.bytes reader.now)
        ≡ at_depth result (read_line (extensions_of rest.now.extensions) has_text rest.now.codes) (whole_tree rest.now.bytes reader.now) }
{
    if !rest.is_bare() {
        return outside;
    }
    let len = reader.path.len();
    let row = reader.path.row();
    if len - outside > row {
        return outside;
    }
    len - 1
}

// How many of the open containers a line continues, and what is left of it inside these.
fn go_on<'a>(reader: &Reader, rest: &Rest<'a>) -> (usize, Rest<'a>)
    requires { IsBetween rest.now.bytes reader.now }
    ensures within { result.0 ≤ depth reader.now }
    ensures bytes { result.1.bytes ≡ rest.now.bytes }
    ensures start { result.1.start ≡ rest.now.start }
    ensures extensions { result.1.extensions ≡ rest.now.extensions }
    ensures tree { (has_text : List Code → Bool)
        → read_line (extensions_of rest.now.extensions) has_text rest.now.codes (whole_tree rest.now.bytes reader.now)
        ≡ at_depth result.0 (read_line (extensions_of rest.now.extensions) has_text result.1.codes) (whole_tree rest.now.bytes reader.now) }
    ensures stops { result.0 < depth reader.now
        → rest_inside (container_at result.0 reader.now) (inside_at (suc result.0) (whole_tree rest.now.bytes reader.now)) result.1.codes ≡ None }
{
    let mut depth = 0;
    let mut inner = rest.behind(0);
    while depth < reader.path.len() {
        depth = leap(reader, depth, &inner);
        match inner.outside(reader.path.get(depth), holds_nothing(reader, depth)) {
            Some(outside) => {
                inner = inner.behind(outside);
                depth += 1;
            }
            None => return (depth, inner),
        }
    }
    (depth, inner)
}

// Whether a leaf is a paragraph.
fn is_text(leaf: &Leaf) -> bool
    ensures { (bytes : List ℕ) → result ≡ is_text (leaf_of bytes leaf.now) }
{
    match leaf {
        Leaf::Paragraph(_) => true,
        _ => false,
    }
}

// Whether a line continues the open leaf lazily.
fn is_lazy(reader: &Reader, rest: &Rest) -> bool
    requires { IsBetween rest.now.bytes reader.now }
    ensures { result ≡ is_lazy (extensions_of rest.now.extensions) rest.now.codes (whole_tree rest.now.bytes reader.now) }
{
    match &reader.open {
        None => false,
        Some(leaf) => {
            if is_text(leaf) {
                return rest.is_lazy();
            }
            false
        }
    }
}

// A paragraph with a line that continues it lazily; another leaf as it is.
fn longer(leaf: Leaf, rest: &Rest) -> Result<Leaf, AllocError>
    requires filled { is_blank_line rest.now.codes ≡ false }
    requires is_text { is_text (leaf_of rest.now.bytes leaf) ≡ true }
    requires text { IsOpenLeaf rest.now.bytes rest.now.start leaf }
    ensures leaf { IfOk result (λ l. leaf_of rest.now.bytes l ≡ lazy_leaf rest.now.codes (leaf_of rest.now.bytes leaf)) }
    ensures text { IfOk result (IsOpenLeaf rest.now.bytes (line_stop rest.now.bytes rest.now.start)) }
{
    match leaf {
        Leaf::Paragraph(text) => {
            let mut text = text;
            text.push(rest.trimmed_piece())?;
            Ok(Leaf::Paragraph(text))
        }
        leaf => Ok(leaf),
    }
}

// A line that continues the open leaf lazily.
fn join(reader: &mut Reader, rest: &Rest) -> Result<(), AllocError>
    requires between { IsBetween rest.now.bytes reader.old }
    requires lazy { is_lazy (extensions_of rest.now.extensions) rest.now.codes (whole_tree rest.now.bytes reader.old) ≡ true }
    requires texts { TextsBefore rest.now reader.old }
    ensures tree { IfOk result (λ _. whole_tree rest.now.bytes reader.new ≡ with_lazy_line rest.now.codes (whole_tree rest.now.bytes reader.old)) }
    ensures between { IfOk result (λ _. IsBetween rest.now.bytes reader.new) }
    ensures texts { IfOk result (λ _. TextsBehind rest.now reader.new) }
{
    match reader.open.take() {
        None => Ok(()),
        Some(leaf) => {
            let leaf = longer(leaf, rest)?;
            open_leaf(reader, leaf);
            Ok(())
        }
    }
}

/// Reads a line on the blocks of the lines before it.
pub fn read_line<T: HasText>(
    alloc: Global,
    test: &T,
    reader: &mut Reader,
    line: &Rest,
) -> Result<(), AllocError>
    requires between { IsBetween line.now.bytes reader.old }
    requires texts { TextsBefore line.now reader.old }
    ensures tree { IfOk result (λ _. whole_tree line.now.bytes reader.new ≡ read_line (extensions_of line.now.extensions) T.has_text line.now.codes (whole_tree line.now.bytes reader.old)) }
    ensures between { IfOk result (λ _. IsBetween line.now.bytes reader.new) }
    ensures texts { IfOk result (λ _. TextsBehind line.now reader.new) }
{
    let (depth, rest) = go_on(reader, line);
    if depth == reader.path.len() {
        follow(alloc, test, reader, &rest)?;
        return Ok(());
    }
    if is_lazy(reader, &rest) {
        join(reader, &rest)?;
        return Ok(());
    }
    close(reader, depth)?;
    stand(alloc, reader, &rest)?;
    Ok(())
}
