//! The words behind the program's name.
use crate::fault::Fault;
use markdown_html::targets::Targets;
use markdown_html_model::options::{Definition, HtmlOptions, LineEnds};
use markdown_inline::configuration::ParseOptions;
use markdown_inline::util::normalize_identifier::normalize_identifier;
use std::alloc::{AllocError, Global};

const VERSION: &str = "inline_html 1.0.0\n";

const HELP: &str = "inline_html writes the HTML of one paragraph of Markdown.

    inline_html text [WORD].. < FILE
    inline_html text [WORD].. -- FILE
    inline_html --help | --version       this page, or the version

A paragraph has no blank line; one final line ending is dropped. No text becomes markup, and no link leads to a script, unless a word says otherwise.

Words
    gfm              strikethrough, task checks, footnote calls, autolink literals
    math             math spans
    task             the text is the first of a list item, where the check of a task may stand
    cm-lengths, cm-shortcut, html-references, commonmark
                     follow CommonMark in one rule each, and the last in many, as mdinline's words do
    note=TEXT        there is a footnote definition with this label
    define=LABEL to=DESTINATION [title=TEXT]
                     there is a definition with this label
    raw              raw HTML is written as it stands
    any-link         links lead wherever they say
    lf, crlf         line endings are written so
    no-limit         definitions may bring any number of bytes; else 100,000, or as many as the input has where it has more

Statuses; where it is not 0, a line on standard error says why
    0  the HTML was written
    2  the first word is not text, or a word is not known, stands where it may not, or is not UTF-8
    3  the input is not UTF-8
    4  a line is blank, or the text ends with a line ending
    5  memory was refused
    6  reading or writing failed
    7  definitions bring more than they may
";

/// What the words ask.
#[derive(Drop)]
pub(crate) struct Asked {
    pub(crate) options: ParseOptions,
    pub(crate) html: HtmlOptions,
    pub(crate) definitions: Vec<Definition>,
    pub(crate) footnotes: Vec<String>,
    /// Whether the paragraph is the first of a list item.
    pub(crate) first_of_item: bool,
    /// Whether there is a limit on what definitions bring.
    pub(crate) is_limited: bool,
    /// Whether the label that was defined last still lacks its destination.
    lacks_target: bool,
}

impl Asked {
    // What no word asks for.
    fn new(alloc: Global) -> Asked {
        Asked {
            options: ParseOptions::default(),
            html: HtmlOptions::safe(),
            definitions: Vec::new(alloc),
            footnotes: Vec::new(alloc),
            first_of_item: false,
            is_limited: true,
            lacks_target: false,
        }
    }

    // Takes a word, and answers whether it is known and stands where it may.
    fn take(&mut self, alloc: Global, word: &str) -> Result<bool, AllocError> {
        if let Some((name, text)) = word.split_once('=') {
            return self.take_text(alloc, name, text);
        }
        let on = &mut self.options.constructs;
        match word {
            "gfm" => {
                on.gfm_autolink_literal = true;
                on.gfm_label_start_footnote = true;
                on.gfm_strikethrough = true;
                on.gfm_task_list_item = true;
            }
            "math" => on.math_text = true,
            "task" => self.first_of_item = true,
            "cm-lengths" => self.options.attention_first_lengths = true,
            "cm-shortcut" => self.options.label_shortcut_before_bracket = true,
            "commonmark" => self.options.commonmark = true,
            "html-references" => self.options.html_references = true,
            "raw" => self.html.raw_html = true,
            "any-link" => self.html.any_link = true,
            "no-limit" => self.is_limited = false,
            "lf" => self.html.line_ends = LineEnds::Lf,
            "crlf" => self.html.line_ends = LineEnds::CrLf,
            _ => return Ok(false),
        }
        Ok(true)
    }

    // Takes a word that ends with a text.
    fn take_text(&mut self, alloc: Global, name: &str, text: &str) -> Result<bool, AllocError> {
        match name {
            "note" => self.footnotes.push(normalize_identifier(alloc, text)?)?,
            "define" if self.lacks_target => return Ok(false),
            "define" => {
                self.lacks_target = true;
                self.definitions.push(Definition {
                    identifier: normalize_identifier(alloc, text)?,
                    destination: String::new(alloc),
                    title: None,
                })?
            }
            "to" | "title" => return self.describe(alloc, name, text),
            _ => return Ok(false),
        }
        Ok(true)
    }

    // Says where the label leads that was defined last, or gives it a title.
    fn describe(&mut self, alloc: Global, name: &str, text: &str) -> Result<bool, AllocError> {
        let Some(definition) = self.definitions.last_mut() else {
            return Ok(false);
        };
        let text = String::from_str(alloc, text)?;
        if name == "to" {
            self.lacks_target = false;
            definition.destination = text;
        } else {
            definition.title = Some(text);
        }
        Ok(true)
    }
}

/// The page that is asked for by the first word, if one is.
pub(crate) fn page(words: &[String]) -> Option<&'static str> {
    match words.first()?.as_str() {
        "--help" => Some(HELP),
        "--version" => Some(VERSION),
        _ => None,
    }
}

/// The words before the word `--`, and the files behind it.
pub(crate) fn split(words: &[String]) -> (&[String], &[String]) {
    match words.iter().position(|word| word.as_str() == "--") {
        Some(at) if at < words.len() => (&words[..at], &words[at + 1..]),
        _ => (words, &[]),
    }
}

/// What the words ask. Errors where the first is not `text`, and where another is not known or stands where it may not.
pub(crate) fn read(alloc: Global, words: &[String]) -> Result<Asked, Fault> {
    let Some((mode, rest)) = words.split_first() else {
        return Err(Fault::Usage);
    };
    if mode.as_str() != "text" {
        return Err(Fault::Usage);
    }
    let mut asked = Asked::new(alloc);
    for word in rest {
        if !asked.take(alloc, word.as_str())? {
            return Err(Fault::Word(word.clone()?));
        }
    }
    if asked.lacks_target {
        return Err(Fault::NoTarget);
    }
    Ok(asked)
}

/// The identifiers of the definitions.
pub(crate) fn identifiers_of(
    alloc: Global,
    definitions: &[Definition],
) -> Result<Vec<String>, AllocError> {
    let mut identifiers = Vec::new(alloc);
    for definition in definitions {
        identifiers.push(String::from_str(alloc, definition.identifier.as_str())?)?;
    }
    Ok(identifiers)
}

/// The definitions, to be found by their identifiers.
pub(crate) fn targets_of(
    alloc: Global,
    definitions: Vec<Definition>,
) -> Result<Targets, AllocError> {
    let mut targets = Targets::new(alloc);
    for definition in definitions {
        targets.push(definition)?;
    }
    Ok(targets)
}
