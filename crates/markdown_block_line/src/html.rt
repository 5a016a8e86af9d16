//! HTML blocks (CommonMark 4.6): what begins each kind, and what ends it. Each takes time linear in the rest at most, and allocates nothing.

ghost use Rattle.std.specs.Prelude.{◌≡◌, ◌<◌, ◌≤◌, ◌&&◌, ◌||◌, ◌==◌, not, length, map, List, true, false, IfSome, is_some};
ghost use Rattle.std.specs.List.{list_any, starts_with};
ghost use Rattle.markdown_content.specs.Codes.{Code};
ghost use Rattle.markdown_model.specs.CodeTests.{values_of, is_letter};
ghost use Rattle.markdown_model.specs.Grammar.{either, one, word, ◌then_◌};
ghost use Rattle.markdown_model.specs.HtmlText.{tag_name, open_tag, closing_tag};
ghost use Rattle.markdown_block_model.specs.BlockTree.{html};
ghost use Rattle.markdown_block_model.specs.HtmlStarts.{raw_tags, raw_ends, block_tags, is_named, ends_raw_tag, ends_block_tag, is_tag_among, begins_raw, begins_block_tag, kind_behind, is_other_tag, html_kind, ends_html, html_at};
ghost use Rattle.markdown_block_line.specs.LineBlocks.{Says};
ghost use Rattle.markdown_block_line.specs.LineTags.{Reads};
ghost use Rattle.markdown_block_line.specs.LineWords.{stands_for, begins_in_any_case, is_word, holds_value};

use crate::line::{is_blank_line, is_gap, trimmed};
use crate::tags::{
    Class, closing_tag_len, is_letter, next_in, open_tag_len, slash_len, tag_name_len,
};

// The names of tags whose content is no HTML.
const RAW_TAGS: [&[u8]; 4] = [b"script", b"pre", b"style", b"textarea"];

const RAW_ENDS: [&[u8]; 4] = [b"</script>", b"</pre>", b"</style>", b"</textarea>"];

// The names of the tags of blocks.
const BLOCK_TAGS: [&[u8]; 62] = [
    b"address",
    b"article",
    b"aside",
    b"base",
    b"basefont",
    b"blockquote",
    b"body",
    b"caption",
    b"center",
    b"col",
    b"colgroup",
    b"dd",
    b"details",
    b"dialog",
    b"dir",
    b"div",
    b"dl",
    b"dt",
    b"fieldset",
    b"figcaption",
    b"figure",
    b"footer",
    b"form",
    b"frame",
    b"frameset",
    b"h1",
    b"h2",
    b"h3",
    b"h4",
    b"h5",
    b"h6",
    b"head",
    b"header",
    b"hr",
    b"html",
    b"iframe",
    b"legend",
    b"li",
    b"link",
    b"main",
    b"menu",
    b"menuitem",
    b"nav",
    b"noframes",
    b"ol",
    b"optgroup",
    b"option",
    b"p",
    b"param",
    b"search",
    b"section",
    b"summary",
    b"table",
    b"tbody",
    b"td",
    b"tfoot",
    b"th",
    b"thead",
    b"title",
    b"tr",
    b"track",
    b"ul",
];

/// HTML that begins with a line.
#[derive(Clone, Copy)]
pub struct Html {
    /// Its kind, 1 to 7.
    pub kind: usize,
    /// Whether the line ends it, too.
    pub ended: bool,
}

// Whether a code is this letter, which is given in lower case, in either case.
fn stands_for(letter: u8, code: u8) -> bool
    ensures { result ≡ stands_for letter code }
{
    code == letter || (is_letter(code) && code + 32 == letter)
}

// Whether this word stands first, its letters in either case. They are given in lower case.
fn begins_with(mut line: &[u8], mut word: &[u8]) -> bool
    ensures { result ≡ begins_in_any_case word.entry.now line.entry.now }
{
    while let [letter, rest @ ..] = word {
        match line {
            [code, more @ ..] if stands_for(*letter, *code) => line = more,
            _ => return false,
        }
        word = rest;
    }
    true
}

// Whether the word stands first; with `whole`, whether it is all that is left.
fn is_word(whole: bool, line: &[u8], word: &[u8]) -> bool
    ensures { result ≡ is_word whole line.now word.now }
{
    begins_with(line, word) && (!whole || line.len() == word.len())
}

// Whether one of these words stands so.
fn one_is_word(whole: bool, line: &[u8], mut words: &[&[u8]]) -> bool
    ensures { result ≡ list_any (is_word whole line.now) (map (λ w. w.now) words.entry.now) }
{
    while let [word, rest @ ..] = words {
        if is_word(whole, line, word) {
            return true;
        }
        words = rest;
    }
    false
}

// Whether this is the name of a tag whose content is no HTML.
fn is_raw_tag(name: &[u8]) -> bool
    ensures { (cs : List Code) → values_of cs ≡ name.now → result ≡ is_named raw_tags cs }
{
    one_is_word(true, name, &RAW_TAGS)
}

// Whether this is the name of a block's tag.
fn is_block_tag(name: &[u8]) -> bool
    ensures { (cs : List Code) → values_of cs ≡ name.now → result ≡ is_named block_tags cs }
{
    one_is_word(true, name, &BLOCK_TAGS)
}

// Whether the name of a raw tag may end here.
fn ends_raw_tag(line: &[u8]) -> bool
    ensures { (cs : List Code) → values_of cs ≡ line.now → result ≡ ends_raw_tag cs }
{
    is_gap(line) || next_in(Class::Only(b'>'), line)
}

// Whether the name of a block's tag may end here.
fn ends_block_tag(line: &[u8]) -> bool
    ensures { (cs : List Code) → values_of cs ≡ line.now → result ≡ ends_block_tag cs }
{
    ends_raw_tag(line) || line.starts_with(b"/>")
}

// Whether the name of a raw tag stands first, and may end.
fn begins_raw(line: &[u8]) -> bool
    ensures { (cs : List Code) → values_of cs ≡ line.now → result ≡ begins_raw cs }
{
    let Some(len) = tag_name_len(line) else {
        return false;
    };
    is_raw_tag(&line[..len]) && ends_raw_tag(&line[len..])
}

// Whether the name of a block's tag stands first, and may end.
fn begins_block_name(line: &[u8]) -> bool
    ensures { (cs : List Code) → values_of cs ≡ line.now → result ≡ is_tag_among block_tags ends_block_tag (tag_name cs) }
{
    let Some(len) = tag_name_len(line) else {
        return false;
    };
    is_block_tag(&line[..len]) && ends_block_tag(&line[len..])
}

// The same, perhaps behind a slash.
fn begins_block_tag(line: &[u8]) -> bool
    ensures { (cs : List Code) → values_of cs ≡ line.now → result ≡ begins_block_tag cs }
{
    let slash = slash_len(line);
    begins_block_name(&line[slash..])
}

// Whether a declaration begins, behind its `<`.
fn begins_declaration(line: &[u8]) -> bool
    ensures { (cs : List Code) → values_of cs ≡ line.now → result ≡ is_some ((word "!" then_ one is_letter) cs) }
{
    next_in(Class::Only(b'!'), line) && next_in(Class::Letter, &line[1..])
}

// The kind that begins, of the kinds 1 to 6, behind its `<`; 0 for none.
fn kind_behind(line: &[u8]) -> usize
    ensures { (cs : List Code) → values_of cs ≡ line.now → result ≡ kind_behind cs }
{
    if begins_raw(line) {
        return 1;
    }
    if line.starts_with(b"!--") {
        return 2;
    }
    if line.starts_with(b"?") {
        return 3;
    }
    if begins_declaration(line) {
        return 4;
    }
    if line.starts_with(b"![CDATA[") {
        return 5;
    }
    if begins_block_tag(line) {
        return 6;
    }
    0
}

// How many codes a tag has that stands first.
fn tag_len(line: &[u8]) -> Option<usize>
    ensures read { (cs : List Code) → values_of cs ≡ line.now → Reads (either (open_tag true) closing_tag) cs result }
    ensures within { IfSome result (λ k. (0 < k) × (k ≤ length line.now)) }
{
    if let Some(len) = open_tag_len(line) {
        return Some(len);
    }
    closing_tag_len(line)
}

// Whether the name of a raw tag stands first.
fn has_raw_name(line: &[u8]) -> bool
    ensures { (cs : List Code) → values_of cs ≡ line.now → result ≡ is_tag_among raw_tags (λ rest. true) (tag_name cs) }
{
    let Some(len) = tag_name_len(line) else {
        return false;
    };
    is_raw_tag(&line[..len])
}

// Whether a tag stands alone that is no raw tag.
fn is_other_tag(line: &[u8]) -> bool
    ensures { (cs : List Code) → values_of cs ≡ line.now → result ≡ is_other_tag cs }
{
    let Some(len) = tag_len(line) else {
        return false;
    };
    is_blank_line(&line[len..]) && !has_raw_name(&line[1..])
}

/// Returns the kind of HTML that begins, 1 to 7, or 0 (CommonMark 4.6). The rest begins behind the indent.
pub fn html_kind(line: &[u8]) -> usize
    ensures { (cs : List Code) → values_of cs ≡ line.now → result ≡ html_kind cs }
{
    if !next_in(Class::Only(b'<'), line) {
        return 0;
    }
    let kind = kind_behind(&line[1..]);
    if kind > 0 {
        return kind;
    }
    if is_other_tag(line) { 7 } else { 0 }
}

// Whether this word stands somewhere.
fn holds(mut line: &[u8], word: &[u8]) -> bool
    ensures { result ≡ holds_value (λ vs. starts_with (λ v n. v == n) vs word.now) line.entry.now }
{
    while let [_, rest @ ..] = line {
        if line.starts_with(word) {
            return true;
        }
        line = rest;
    }
    false
}

// Whether the end of a raw tag stands somewhere.
fn holds_raw_end(mut line: &[u8]) -> bool
    ensures { result ≡ holds_value (λ vs. list_any (is_word false vs) raw_ends) line.entry.now }
{
    while let [_, rest @ ..] = line {
        if one_is_word(false, line, &RAW_ENDS) {
            return true;
        }
        line = rest;
    }
    false
}

/// Returns whether a line ends HTML of this kind (CommonMark 4.6).
pub fn ends_html(kind: usize, line: &[u8]) -> bool
    ensures { (cs : List Code) → values_of cs ≡ line.now → result ≡ ends_html kind cs }
{
    if kind == 1 {
        return holds_raw_end(line);
    }
    if kind == 2 {
        return holds(line, b"-->");
    }
    if kind == 3 {
        return holds(line, b"?>");
    }
    if kind == 4 {
        return holds(line, b">");
    }
    if kind == 5 {
        return holds(line, b"]]>");
    }
    false
}

// Whether HTML of this kind may begin here; there is none of kind 0.
fn may_begin(after_text: bool, kind: usize) -> bool
    ensures { result ≡ not (kind == 0 || (kind == 7 && after_text)) }
{
    kind != 0 && (kind != 7 || !after_text)
}

/// Returns the HTML that a whole line begins, or `None` (CommonMark 4.6). `after_text` says that a paragraph is open before the line.
pub fn html_at(after_text: bool, line: &[u8]) -> Option<Html>
    ensures { (cs : List Code) → values_of cs ≡ line.now → Says result (λ h. html h.kind cs h.ended) (html_at after_text cs) }
{
    let kind = html_kind(trimmed(line));
    if !may_begin(after_text, kind) {
        return None;
    }
    let ended = ends_html(kind, line);
    Some(Html { kind, ended })
}
