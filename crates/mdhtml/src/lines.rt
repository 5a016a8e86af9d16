//! The lines that are printed, one for each link.

use crate::fault::{self, Fault};
use markdown_inline::event::Point;
use std::alloc::{AllocError, Global};
use std::io::{Stdout, Write};

// How many bytes of lines are kept before they are printed.
const ROOM: usize = 1 << 16;

/// A link, an image, an autolink or a literal.
#[derive(Drop)]
pub(crate) struct Link {
    /// Where it begins.
    pub(crate) place: Point,
    /// The word that is printed for its kind.
    pub(crate) kind: &'static str,
    /// The destination.
    pub(crate) destination: String,
    /// The title, which is empty if there is none.
    pub(crate) title: String,
}

/// How a link is printed.
#[derive(Clone, Copy)]
pub(crate) enum Form<'a> {
    /// Line, column, kind, destination and title, with a tab between two of them.
    Fields,
    /// The file's name, line, column and destination.
    Place(&'a str),
    /// An object of JSON, with the file's name if it has one.
    Object(Option<&'a str>),
}

impl<'a> Form<'a> {
    /// The form for a file of this name, or for standard input.
    pub(crate) fn of(name: Option<&'a str>, is_json: bool) -> Form<'a> {
        match name {
            _ if is_json => Form::Object(name),
            Some(name) => Form::Place(name),
            None => Form::Fields,
        }
    }
}

/// The lines of a file, of which so many are kept that printing them is worth a call.
#[derive(Drop)]
pub(crate) struct Lines<'a> {
    out: Stdout,
    form: Form<'a>,
    // The lines that are not printed yet.
    text: String,
}

impl<'a> Lines<'a> {
    /// No lines yet, of this form.
    pub(crate) fn new(alloc: Global, out: Stdout, form: Form<'a>) -> Lines<'a> {
        Lines {
            out,
            form,
            text: String::new(alloc),
        }
    }

    /// Appends the line of a link.
    pub(crate) fn push(&mut self, link: &Link) -> Result<(), Fault> {
        match self.form {
            Form::Fields => self.push_fields(link)?,
            Form::Place(file) => self.push_place(file, link)?,
            Form::Object(file) => self.push_object(file, link)?,
        }
        if self.text.len() < ROOM {
            return Ok(());
        }
        self.print()
    }

    /// Prints the lines that are kept.
    pub(crate) fn print(&mut self) -> Result<(), Fault> {
        let printed = self.out.write_all(self.text.as_bytes());
        self.text.clear();
        printed.map_err(fault::of_write)
    }

    fn push_fields(&mut self, link: &Link) -> Result<(), AllocError> {
        let Point { line, column, .. } = link.place;
        let kind = link.kind;
        write!(self.text, "{line}\t{column}\t{kind}\t")?;
        self.push_escaped(link.destination.as_str(), false)?;
        self.text.push('\t')?;
        self.push_escaped(link.title.as_str(), false)?;
        self.text.push('\n')
    }

    fn push_place(&mut self, file: &str, link: &Link) -> Result<(), AllocError> {
        let Point { line, column, .. } = link.place;
        self.push_escaped(file, false)?;
        write!(self.text, ":{line}:{column}: ")?;
        self.push_escaped(link.destination.as_str(), false)?;
        self.text.push('\n')
    }

    fn push_object(&mut self, file: Option<&str>, link: &Link) -> Result<(), AllocError> {
        let Point { line, column, .. } = link.place;
        self.text.push('{')?;
        if let Some(file) = file {
            self.push_member("file", file)?;
            self.text.push(',')?;
        }
        write!(self.text, "\"line\":{line},\"column\":{column},")?;
        self.push_member("kind", link.kind)?;
        self.text.push(',')?;
        self.push_member("destination", link.destination.as_str())?;
        self.text.push(',')?;
        self.push_member("title", link.title.as_str())?;
        self.text.push_str("}\n")
    }

    // Appends a member of an object, whose value is a string.
    fn push_member(&mut self, name: &str, text: &str) -> Result<(), AllocError> {
        write!(self.text, "\"{name}\":\"")?;
        self.push_escaped(text, true)?;
        self.text.push('"')
    }

    // Appends a text with each control character as \u and four hexadecimal digits, so that it stays in its line; for a string of JSON also with
    // a backslash before each quote and backslash.
    fn push_escaped(&mut self, text: &str, in_string: bool) -> Result<(), AllocError> {
        for character in text.chars() {
            if character.is_control() {
                write!(self.text, "\\u{:04x}", u32::from(character))?;
                continue;
            }
            if in_string && matches!(character, '"' | '\\') {
                self.text.push('\\')?;
            }
            self.text.push(character)?;
        }
        Ok(())
    }
}
