//! Where labels lead.
#![tactic(auto)]

ghost use Rattle.std.specs.Prelude.{◌≡◌, ◌-◌, ◌^◌, ◌++◌, ◌∷◌, [], None, IfSome, OnErr, OnOk, min, option_map, string_bytes};
ghost use Rattle.std.specs.List.{slice_get};
ghost use Rattle.markdown_html_model.specs.Html.{defined, nowhere};
ghost use Rattle.markdown_html.specs.Brought.{target_bytes};
ghost use Rattle.markdown_html.specs.BroughtAtMost.{BringAtMost};
ghost use Rattle.markdown_html.specs.FirstDefinitions.{IsDefined, first_with, target_there, target_with};
ghost use Rattle.markdown_html.specs.DefinitionView.{defined_of};
ghost use Rattle.markdown_html.specs.View.{target_view};

use markdown_html_model::options::Definition;
use std::alloc::{AllocError, Global};
use std::collections::BTreeMap;
use std::marker::Model;

// Where a link or an image leads, and its title.
#[derive(Clone, Copy)]
pub(crate) struct Goal<'a> {
    pub(crate) destination: &'a [u8],
    pub(crate) title: Option<&'a [u8]>,
}

impl<'a> Goal<'a> {
    // How many bytes a destination and a title have, or the largest number where they are more than can be counted.
    pub(crate) fn bytes(self) -> usize
        ensures { result ≡ min (target_bytes (target_view self.entry)) (2 ^ 64 - 1) }
    {
        let title = match self.title {
            Some(title) => title.len(),
            None => 0,
        };
        self.destination.len().saturating_add(title)
    }

    pub(crate) fn nowhere() -> Goal<'a>
        ensures { target_view result ≡ nowhere }
    {
        Goal {
            destination: b"",
            title: None,
        }
    }
}

/// What labels are defined to be, each found by a search.
///
/// Of several with one identifier the first counts (CommonMark 4.7). Contracts see the definitions in the order in which they were added.
#[derive(Drop)]
pub struct Targets {
    definitions: Vec<Definition>,
    // Where the first with each identifier stands.
    numbers: BTreeMap<String, usize>,
    // The most bytes of a destination and its title, or the largest number where they are more than can be counted.
    longest: usize,
}

impl Model for Targets {
    ghost use Rattle.std.specs.Prelude.{◌≡◌, List, ℕ, map};
    ghost use Rattle.std.specs.BTreeMap.{get_by_text};
    ghost use Rattle.markdown_html_model.specs.Html.{Defined};
    ghost use Rattle.markdown_html.specs.BroughtAtMost.{BringCounted};
    ghost use Rattle.markdown_html.specs.FirstDefinitions.{first_with};
    ghost use Rattle.markdown_html.specs.DefinitionView.{defined_of};

    ghost Value = { List Defined };

    ghost view = { λ t. map defined_of t.definitions.items };

    ghost invariant = { λ t. ((identifier : List ℕ) → get_by_text t.numbers identifier ≡ first_with identifier (map defined_of t.definitions.items)) × BringCounted (map defined_of t.definitions.items) t.longest };
}

impl Targets {
    /// No definitions. Takes no memory.
    pub fn new(alloc: Global) -> Targets
        ensures { result ≡ [] }
    {
        Targets {
            definitions: Vec::new(alloc),
            numbers: BTreeMap::new(alloc),
            longest: 0,
        }
    }

    // Where the first definition with an identifier stands.
    fn first_with(&self, identifier: &str) -> Option<usize>
        ensures { result ≡ first_with identifier.now self.now }
    {
        self.numbers.get(identifier).copied()
    }

    // Adds a definition that is the first with its identifier.
    fn push_first(&mut self, definition: Definition) -> Result<(), AllocError>
        requires { first_with (string_bytes definition.identifier) self.old ≡ None }
        ensures ok { OnOk result (self.new ≡ self.old ++ defined_of definition ∷ []) }
        ensures err { OnErr result (self.new ≡ self.old) }
    {
        let key = definition.identifier.clone()?;
        let number = self.definitions.len();
        let longest = self.longest.max(goal_of(&definition).bytes());
        self.definitions.push(definition)?;
        match self.numbers.insert(key, number) {
            Ok(_) => {
                self.longest = longest;
                Ok(())
            }
            Err(_) => {
                self.definitions.pop();
                Err(AllocError)
            }
        }
    }

    // Adds a definition that has one with its identifier before it.
    fn push_later(&mut self, definition: Definition) -> Result<(), AllocError>
        requires { IsDefined (string_bytes definition.identifier) self.old }
        ensures ok { OnOk result (self.new ≡ self.old ++ defined_of definition ∷ []) }
        ensures err { OnErr result (self.new ≡ self.old) }
    {
        let longest = self.longest.max(goal_of(&definition).bytes());
        self.definitions.push(definition)?;
        self.longest = longest;
        Ok(())
    }

    /// Adds a definition.
    ///
    /// Takes time in proportion to its identifier, and to the logarithm of how many there are. The only error is that memory was refused;
    /// nothing is added then.
    pub fn push(&mut self, definition: Definition) -> Result<(), AllocError>
        ensures ok { OnOk result (self.new ≡ self.old ++ defined_of definition ∷ []) }
        ensures err { OnErr result (self.new ≡ self.old) }
    {
        match self.first_with(definition.identifier.as_str()) {
            Some(_) => self.push_later(definition),
            None => self.push_first(definition),
        }
    }

    // The most bytes that a definition brings at once; none where they are more than can be counted.
    pub(crate) fn most_brought(&self) -> Option<usize>
        ensures { IfSome result (BringAtMost self.now) }
    {
        if self.longest < usize::MAX {
            Some(self.longest)
        } else {
            None
        }
    }

    // The definition that stands somewhere.
    fn at(&self, number: usize) -> Option<&Definition>
        ensures { option_map (λ d. defined_of d.now) result ≡ slice_get self.now number }
    {
        self.definitions.as_slice().get(number)
    }

    // Where the definition leads that stands somewhere.
    fn goal_at(&self, number: usize) -> Goal
        ensures { target_view result ≡ target_there (slice_get self.now number) }
    {
        match self.at(number) {
            Some(definition) => goal_of(definition),
            None => Goal::nowhere(),
        }
    }

    // Where the first definition with an identifier leads; nowhere where there is none.
    #[tactic(auto, using(crate::proofs::FirstWith::defined_first))]
    pub(crate) fn find(&self, identifier: &str) -> Goal
        ensures { target_view result ≡ defined identifier.now self.now }
    {
        match self.first_with(identifier) {
            Some(number) => self.goal_at(number),
            None => Goal::nowhere(),
        }
    }
}

fn title_of(title: &Option<String>) -> Option<&[u8]>
    ensures { option_map (λ t. t.now) result ≡ option_map string_bytes title.now }
{
    match title {
        Some(title) => Some(title.as_bytes()),
        None => None,
    }
}

fn goal_of(definition: &Definition) -> Goal
    ensures { target_view result ≡ target_with (defined_of definition.now) }
{
    Goal {
        destination: definition.destination.as_bytes(),
        title: title_of(&definition.title),
    }
}
