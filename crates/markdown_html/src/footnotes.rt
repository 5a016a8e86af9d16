//! Footnote calls, and the numbers that they give to footnotes.
#![tactic(auto)]

ghost use Rattle.std.specs.Prelude.{◌≡◌, ◌∷◌, [], OnErr, OnOk, map, reverse, string_bytes, suc};
ghost use Rattle.markdown_html_model.specs.Html.{footnote_number, footnotes_called, times_called};
ghost use Rattle.markdown_html.specs.KnownFootnotes.{known_of};

use std::alloc::{AllocError, Global};
use std::collections::BTreeMap;
use std::marker::Model;

/// What is known of a footnote by the calls so far.
#[derive(Clone, Copy, Debug, PartialEq, Eq)]
pub struct Footnote {
    /// Its number, from 1 on, in the order of first calls; where no call is there yet, the number that the next call gives it.
    pub number: usize,
    /// How often it was called.
    pub calls: usize,
}

/// The footnote calls of a document so far.
///
/// Contracts see the identifiers of the calls, the latest first.
#[derive(Drop)]
pub struct FootnoteCalls {
    // Each call, in reading order.
    calls: Vec<String>,
    // Each footnote that is called.
    footnotes: BTreeMap<String, Footnote>,
    // The number of the footnote that is called next.
    next: usize,
}

impl Model for FootnoteCalls {
    ghost use Rattle.std.specs.Prelude.{◌≡◌, List, ℕ, map, reverse, string_bytes, suc};
    ghost use Rattle.std.specs.BTreeMap.{get_by_text};
    ghost use Rattle.markdown_html_model.specs.Html.{footnotes_called};
    ghost use Rattle.markdown_html.specs.KnownFootnotes.{known_of};

    ghost Value = { List (List ℕ) };

    ghost view = { λ f. reverse (map string_bytes f.calls.items) };

    ghost invariant = { λ f. (f.next ≡ suc (footnotes_called (reverse (map string_bytes f.calls.items)))) × ((identifier : List ℕ) → get_by_text f.footnotes identifier ≡ known_of identifier (reverse (map string_bytes f.calls.items))) };
}

impl FootnoteCalls {
    /// No calls, as where a document begins. Takes no memory.
    pub fn new(alloc: Global) -> FootnoteCalls
        ensures { result ≡ [] }
    {
        FootnoteCalls {
            calls: Vec::new(alloc),
            footnotes: BTreeMap::new(alloc),
            next: 1,
        }
    }

    /// The identifiers of the calls, in reading order.
    pub fn as_slice(&self) -> &[String]
        ensures { map string_bytes result.now ≡ reverse self.now }
    {
        self.calls.as_slice()
    }

    /// What is known of a footnote.
    pub fn footnote(&self, identifier: &str) -> Footnote
        ensures { result ≡ record { number = footnote_number identifier.now self.now; calls = times_called identifier.now self.now } }
    {
        match self.footnotes.get(identifier).copied() {
            Some(footnote) => footnote,
            None => Footnote {
                number: self.next,
                calls: 0,
            },
        }
    }

    // Adds a call. After an error there are the calls of before.
    pub(crate) fn push(&mut self, identifier: String) -> Result<(), AllocError>
        ensures ok { OnOk result (self.new ≡ string_bytes identifier ∷ self.old) }
        ensures err { OnErr result (self.new ≡ self.old) }
    {
        let footnote = self.footnote(identifier.as_str());
        let key = identifier.clone()?;
        self.calls.push(identifier)?;
        let called = Footnote {
            number: footnote.number,
            calls: footnote.calls + 1,
        };
        match self.footnotes.insert(key, called) {
            Ok(_) => {
                if footnote.calls == 0 {
                    self.next += 1;
                }
                Ok(())
            }
            Err(_) => {
                self.calls.pop();
                Err(AllocError)
            }
        }
    }
}
