//! Definitions by their labels: the first of those whose labels match counts (CommonMark 4.7).
ghost use Rattle.std.specs.Prelude.{◌≡◌, ◌==◌, ◌++◌, ◌∷◌, [], IfOk, IsSome, OnOk, OnErr, None, length, map, string_bytes};
ghost use Rattle.markdown_util.specs.Identifier.{identifier_by, identifier_of};
ghost use Rattle.markdown_tree.specs.Numbers.{added_to, number_of, with_identifier};

use markdown_util::util::normalize_identifier::identifier_by;
use std::alloc::{AllocError, Global};
use std::collections::BTreeMap;
use std::marker::Model;

/// What has become of a definition that was added, with its number or that of the one that counts.
#[derive(Clone, Copy, Debug, PartialEq, Eq)]
pub enum Added {
    /// It is the first with its identifier, and has this number.
    First(usize),
    /// The definition of this number has the same identifier, and stands before it.
    Earlier(usize),
}

/// The identifiers of definitions, in the order in which they were added. `add` keeps of equal ones the first alone, and `push` keeps all.
///
/// The number of a definition is its place in that order, from 0; of equal ones the first is found. Contracts see the bytes of the identifiers.
/// Definitions of footnotes are kept by themselves, in a value of their own.
#[derive(Drop)]
pub struct Definitions {
    alloc: Global,
    identifiers: Vec<String>,
    // The number of each, and of equal ones that of the first.
    numbers: BTreeMap<String, usize>,
}

impl Model for Definitions {
    ghost use Rattle.std.specs.Prelude.{◌≡◌, List, ℕ, map, string_bytes};
    ghost use Rattle.std.specs.BTreeMap.{get_by_text};
    ghost use Rattle.markdown_tree.specs.Numbers.{number_of};

    ghost Value = { List (List ℕ) };

    ghost view = { λ d. map string_bytes d.identifiers.items };

    ghost invariant = { λ d. (identifier : List ℕ) → get_by_text d.numbers identifier ≡ number_of identifier (map string_bytes d.identifiers.items) };
}

impl Definitions {
    /// No definitions. Takes no memory.
    pub fn new(alloc: Global) -> Definitions
        ensures { result ≡ [] }
    {
        Definitions {
            alloc,
            identifiers: Vec::new(alloc),
            numbers: BTreeMap::new(alloc),
        }
    }

    /// How many there are.
    pub fn len(&self) -> usize
        ensures { result ≡ length self.now }
    {
        self.identifiers.len()
    }

    /// Whether there are none.
    pub fn is_empty(&self) -> bool
        ensures { result ≡ (length self.now == 0) }
    {
        self.identifiers.is_empty()
    }

    // What takes memory for them.
    pub(crate) fn alloc(&self) -> Global {
        self.alloc
    }

    // The number of the definition with this identifier.
    pub(crate) fn number(&self, identifier: &str) -> Option<usize>
        ensures { result ≡ number_of identifier.now self.now }
    {
        self.numbers.get(identifier).copied()
    }

    // Keeps an identifier that is not yet there.
    fn push_first(&mut self, identifier: String) -> Result<(), AllocError>
        requires { number_of (string_bytes identifier) self.old ≡ None }
        ensures ok { OnOk result (self.new ≡ self.old ++ string_bytes identifier ∷ []) }
        ensures err { OnErr result (self.new ≡ self.old) }
    {
        let key = identifier.clone()?;
        let number = self.identifiers.len();
        self.identifiers.push(identifier)?;
        match self.numbers.insert(key, number) {
            Ok(_) => Ok(()),
            Err(_) => {
                self.identifiers.pop();
                Err(AllocError)
            }
        }
    }

    // Keeps an identifier that is there already.
    fn push_later(&mut self, identifier: String) -> Result<(), AllocError>
        requires { IsSome (number_of (string_bytes identifier) self.old) }
        ensures ok { OnOk result (self.new ≡ self.old ++ string_bytes identifier ∷ []) }
        ensures err { OnErr result (self.new ≡ self.old) }
    {
        self.identifiers.push(identifier)?;
        Ok(())
    }

    /// Adds a definition by its identifier, as `normalize_identifier` answers it, also behind one that has the same: that one counts.
    ///
    /// Takes time in proportion to the identifier, and to the logarithm of how many there are. The only error is that memory was refused;
    /// nothing is added then.
    pub fn push(&mut self, identifier: &str) -> Result<(), AllocError>
        ensures ok { OnOk result (self.new ≡ self.old ++ identifier.now ∷ []) }
        ensures err { OnErr result (self.new ≡ self.old) }
    {
        let kept = String::from_str(self.alloc, identifier)?;
        match self.number(identifier) {
            Some(_) => self.push_later(kept),
            None => self.push_first(kept),
        }
    }

    /// Adds the definition of a label, which is the text between its brackets, or behind the caret of a footnote's. NUL in a label stands for itself.
    ///
    /// It is kept where no definition with the same identifier was added before it. Takes time in proportion to the label, and to the
    /// logarithm of how many there are. The only error is that memory was refused; nothing is added then.
    pub fn add(&mut self, label: &str) -> Result<Added, AllocError>
        ensures ok { OnOk result (self.new ≡ with_identifier (identifier_of label.now) self.old) }
        ensures added { IfOk result (λ added. added ≡ added_to (identifier_of label.now) self.old) }
        ensures err { OnErr result (self.new ≡ self.old) }
    {
        self.add_by(label, false)
    }

    /// As `add`, for documents that are read by rules. NUL in a label stands for U+FFFD or for itself, as the rule `nul_is_replaced` says; the option
    /// `commonmark` has NUL replaced.
    ///
    /// The only error is that memory was refused; nothing is added then.
    pub fn add_by(&mut self, label: &str, nul_is_replaced: bool) -> Result<Added, AllocError>
        ensures ok { OnOk result (self.new ≡ with_identifier (identifier_by nul_is_replaced label.now) self.old) }
        ensures added { IfOk result (λ added. added ≡ added_to (identifier_by nul_is_replaced label.now) self.old) }
        ensures err { OnErr result (self.new ≡ self.old) }
    {
        let identifier = identifier_by(self.alloc, label, nul_is_replaced)?;
        if let Some(number) = self.number(identifier.as_str()) {
            return Ok(Added::Earlier(number));
        }
        let number = self.identifiers.len();
        self.push_first(identifier)?;
        Ok(Added::First(number))
    }

    /// The number of the definition that a label refers to. NUL in the label stands for itself.
    ///
    /// The only error is that memory was refused.
    pub fn find(&self, label: &str) -> Result<Option<usize>, AllocError>
        ensures { IfOk result (λ number. number ≡ number_of (identifier_of label.now) self.now) }
    {
        self.find_by(label, false)
    }

    /// As `find`, where NUL in the label stands for U+FFFD or for itself, as for `add_by`.
    ///
    /// The only error is that memory was refused.
    pub fn find_by(&self, label: &str, nul_is_replaced: bool) -> Result<Option<usize>, AllocError>
        ensures { IfOk result (λ number. number ≡ number_of (identifier_by nul_is_replaced label.now) self.now) }
    {
        let identifier = identifier_by(self.alloc, label, nul_is_replaced)?;
        Ok(self.number(identifier.as_str()))
    }

    /// The identifiers in the order of their numbers, as `ParseState` takes them.
    ///
    /// The only error is that memory was refused.
    pub fn identifiers(&self) -> Result<Vec<String>, AllocError>
        ensures { IfOk result (λ identifiers. map string_bytes identifiers.items ≡ self.now) }
    {
        let mut identifiers = Vec::new(self.alloc);
        for identifier in &self.identifiers {
            identifiers.push(identifier.clone()?)?;
        }
        Ok(identifiers)
    }
}
