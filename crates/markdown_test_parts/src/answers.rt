//! What a program answers: a text that grows, and ends where memory is refused.
use markdown_event::event::Name;
use std::alloc::{AllocError, Global};
use std::fmt::{Debug, Display};

#[derive(Drop)]
pub(crate) struct Answers {
    text: String,
    is_whole: bool,
}

impl Answers {
    // No answer. There is room for some from the start, so that these take no memory.
    pub(crate) fn new(alloc: Global) -> Answers {
        let mut text = String::new(alloc);
        let is_whole = text.reserve(1 << 16).is_ok();
        Answers { text, is_whole }
    }

    // Whether no request for memory was refused.
    pub(crate) fn is_whole(&self) -> bool {
        self.is_whole
    }

    // All answers.
    pub(crate) fn text(&self) -> &str {
        self.text.as_str()
    }

    // Ends the answers, where this was refused.
    pub(crate) fn keep<T: Drop>(&mut self, outcome: Result<T, AllocError>) {
        self.is_whole = self.is_whole && outcome.is_ok();
    }

    // Ends the answers.
    pub(crate) fn end(&mut self) {
        self.is_whole = false;
    }

    // Appends a word as it is.
    pub(crate) fn say(&mut self, word: &str) {
        if self.is_whole {
            let outcome = self.text.push_str(word);
            self.keep(outcome);
        }
    }

    // Appends a value without a space before it.
    pub(crate) fn print<T: Display + Drop>(&mut self, value: T) {
        if self.is_whole {
            let outcome = write!(self.text, "{value}");
            self.keep(outcome);
        }
    }

    // Appends the number of a character, in base 16.
    pub(crate) fn print_hex(&mut self, character: char) {
        if self.is_whole {
            let outcome = write!(self.text, "{:X}", character as u32);
            self.keep(outcome);
        }
    }

    // Appends a name without a space before it.
    pub(crate) fn print_name(&mut self, name: Name) {
        if self.is_whole {
            let outcome = write!(self.text, "{name:?}");
            self.keep(outcome);
        }
    }

    // Appends a space and a value.
    pub(crate) fn show<T: Debug + Drop>(&mut self, value: T) {
        if self.is_whole {
            let outcome = write!(self.text, " {value:?}");
            self.keep(outcome);
        }
    }

    // Appends a space and the value that a call answers, or ends the answers.
    pub(crate) fn show_found<T: Debug + Drop>(&mut self, answer: Result<T, AllocError>) {
        match answer {
            Ok(value) => self.show(value),
            Err(AllocError) => self.end(),
        }
    }
}
