//! What is answered to cases: a text that grows, and ends where memory is refused.
use std::alloc::{AllocError, Global};
use std::fmt::Debug;

/// A text that ends where memory is refused.
#[derive(Drop)]
pub(crate) struct Answers {
    text: String,
    is_whole: bool,
}

impl Answers {
    /// No answer.
    pub(crate) fn new(alloc: Global) -> Answers {
        Answers {
            text: String::new(alloc),
            is_whole: true,
        }
    }

    /// Makes room for so many bytes more.
    pub(crate) fn reserve(&mut self, room: usize) {
        let outcome = self.text.reserve(room);
        self.keep(outcome);
    }

    /// Whether no request for memory was refused.
    pub(crate) fn is_whole(&self) -> bool {
        self.is_whole
    }

    /// All answers.
    pub(crate) fn text(&self) -> &str {
        self.text.as_str()
    }

    // Ends the answers, where this was refused.
    fn keep(&mut self, outcome: Result<(), AllocError>) {
        self.is_whole = self.is_whole && outcome.is_ok();
    }

    /// Appends a word.
    pub(crate) fn say(&mut self, word: &str) {
        if self.is_whole {
            let outcome = self.text.push_str(word);
            self.keep(outcome);
        }
    }

    /// Appends a character.
    pub(crate) fn sign(&mut self, sign: char) {
        if self.is_whole {
            let outcome = self.text.push(sign);
            self.keep(outcome);
        }
    }

    /// Appends a number.
    pub(crate) fn number(&mut self, number: u128) {
        if self.is_whole {
            let outcome = write!(self.text, "{number}");
            self.keep(outcome);
        }
    }

    /// Appends a value by its name.
    pub(crate) fn show<T: Debug + Drop>(&mut self, value: T) {
        if self.is_whole {
            let outcome = write!(self.text, "{value:?}");
            self.keep(outcome);
        }
    }

    /// Appends a word and a number.
    pub(crate) fn count(&mut self, word: &str, number: usize) {
        self.say(word);
        self.number(number as u128);
    }
}
