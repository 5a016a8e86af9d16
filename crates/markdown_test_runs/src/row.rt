//! Cases: a content, and what it is read with.
use crate::calls::Sought;
use crate::fakes::error_kind;
use markdown_inline::configuration::{CONSTRUCTS, DEFAULT_BITS, ParseOptions, SETTINGS};
use markdown_inline::run::Piece;
use std::alloc::{AllocError, Global};
use std::io::ErrorKind;

/// A content, what it is read with, and what is asked of it.
#[derive(Drop)]
pub(crate) struct Row {
    pub(crate) options: ParseOptions,
    bits: u32,
    pub(crate) definitions: Vec<String>,
    pub(crate) footnotes: Vec<String>,
    pub(crate) document: String,
    pub(crate) pieces: Vec<Piece>,
    /// The words of a run of the whole program.
    pub(crate) words: Vec<String>,
    /// The kind of error that a fake answers.
    pub(crate) fault: Option<ErrorKind>,
    pub(crate) asked: Asked,
    /// The call of a state that is asked for.
    pub(crate) sought: Sought,
    times: usize,
}

/// What is asked of a case.
#[derive(Clone, Copy)]
pub(crate) struct Asked {
    /// Whether the text is the first of a list item.
    pub(crate) first_of_item: bool,
    /// Whether the innermost events are asked for.
    pub(crate) leaves: bool,
    /// Whether the events are asked for in a list.
    pub(crate) lists: bool,
    /// Whether a narrow writer hands on what it took.
    pub(crate) flushes: bool,
    /// In fewer than so many others an event lies that is printed.
    pub(crate) depth: usize,
    /// The bounds that the reading names, or those on the probes, if they are asked for.
    pub(crate) least: usize,
    pub(crate) most: Option<usize>,
}

impl Row {
    /// An empty document, with CommonMark's constructs.
    pub(crate) fn new(alloc: Global) -> Row {
        Row {
            options: ParseOptions::default(),
            bits: DEFAULT_BITS,
            definitions: Vec::new(alloc),
            footnotes: Vec::new(alloc),
            document: String::new(alloc),
            pieces: Vec::new(alloc),
            words: Vec::new(alloc),
            fault: None,
            asked: Asked {
                first_of_item: false,
                leaves: false,
                lists: false,
                flushes: false,
                depth: usize::MAX,
                least: 0,
                most: None,
            },
            sought: Sought::new(alloc),
            times: 1,
        }
    }

    /// Reads all fields, and answers whether they are understood.
    pub(crate) fn read_fields(&mut self, alloc: Global, fields: &str) -> Result<bool, AllocError> {
        for field in fields.split('\t') {
            if !self.read_field(alloc, field)? {
                return Ok(false);
            }
        }
        Ok(true)
    }

    // Reads a field, and answers whether it is understood.
    fn read_field(&mut self, alloc: Global, field: &str) -> Result<bool, AllocError> {
        if let Some(name) = field.strip_prefix("+") {
            return Ok(self.switch(name, true));
        }
        if let Some(name) = field.strip_prefix("-") {
            return Ok(self.switch(name, false));
        }
        let Some((name, value)) = field.split_once('=') else {
            return Ok(field.is_empty());
        };
        let text = unescaped(alloc, value)?;
        match name {
            "document" => self.append(text.as_str()),
            "definition" => push(&mut self.definitions, text),
            "footnote" => push(&mut self.footnotes, text),
            "word" => push(&mut self.words, text),
            "piece" => self.add_piece(value),
            "state" | "fields" | "at" => Ok(self.seek(name, text)),
            _ => Ok(self.set_number(name, value)),
        }
    }

    // Turns a switch of the options on or off, or something that is asked.
    fn switch(&mut self, name: &str, on: bool) -> bool {
        if let Some(bit) = bit_of(name) {
            self.bits = if on {
                self.bits | bit
            } else {
                self.bits & !bit
            };
            self.options = ParseOptions::of_bits(self.bits);
            return true;
        }
        match name {
            "first_of_item" => self.asked.first_of_item = on,
            "leaves" => self.asked.leaves = on,
            "lists" => self.asked.lists = on,
            "flushes" => self.asked.flushes = on,
            _ => return false,
        }
        true
    }

    // Sets a number, or a kind of error.
    fn set_number(&mut self, name: &str, value: &str) -> bool {
        if name == "fault" {
            self.fault = error_kind(value);
            return self.fault.is_some();
        }
        let Ok(number) = value.parse::<usize>() else {
            return false;
        };
        match name {
            "times" => self.times = number,
            "depth" => self.asked.depth = number,
            "least" => self.asked.least = number,
            "most" => self.asked.most = Some(number),
            _ => return false,
        }
        true
    }

    // Says of the call that is asked for its state, its place or its scratch fields.
    fn seek(&mut self, name: &str, text: String) -> bool {
        match name {
            "state" => self.sought.state = text,
            "fields" => self.sought.fields = text,
            _ => {
                let Some(place) = place(text.as_str()) else {
                    return false;
                };
                self.sought.place = place;
            }
        }
        true
    }

    // Appends a text to the document, as often as was said.
    fn append(&mut self, text: &str) -> Result<bool, AllocError> {
        for _ in 0..self.times {
            self.document.push_str(text)?;
        }
        self.times = 1;
        Ok(true)
    }

    // Adds a piece of the content.
    fn add_piece(&mut self, text: &str) -> Result<bool, AllocError> {
        let Some((start, end)) = text.split_once('-') else {
            return Ok(false);
        };
        let (Some(start), Some(end)) = (place(start), place(end)) else {
            return Ok(false);
        };
        self.pieces.push(Piece { start, end })?;
        Ok(true)
    }
}

// The bit of the switch of this name, if there is one.
fn bit_of(name: &str) -> Option<u32> {
    let mut switches = CONSTRUCTS.iter().chain(SETTINGS.iter());
    switches.find(|row| row.0 == name).map(|row| row.1)
}

// A byte, and the codes of its tab before the place.
fn place(text: &str) -> Option<(usize, usize)> {
    let (index, inside) = text.split_once('.').unwrap_or((text, "0"));
    Some((index.parse().ok()?, inside.parse().ok()?))
}

// Adds an identifier or a word.
fn push(texts: &mut Vec<String>, text: String) -> Result<bool, AllocError> {
    texts.push(text)?;
    Ok(true)
}

// What a character stands for behind a backslash.
fn meant(c: char) -> char {
    match c {
        'n' => '\n',
        'r' => '\r',
        't' => '\t',
        '0' => '\0',
        _ => c,
    }
}

// A text without the backslashes that stand before others.
fn unescaped(alloc: Global, text: &str) -> Result<String, AllocError> {
    let mut out = String::new(alloc);
    let mut escaped = false;
    for c in text.chars() {
        if c == '\\' && !escaped {
            escaped = true;
        } else {
            out.push(if escaped { meant(c) } else { c })?;
            escaped = false;
        }
    }
    Ok(out)
}
