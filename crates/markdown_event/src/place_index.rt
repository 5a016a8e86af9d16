//! Some places of a content.
ghost use Rattle.std.specs.Prelude.{◌≡◌};
ghost use Rattle.std.specs.List.Sorted.{IsNonDecreasing};
ghost use Rattle.markdown_event.specs.PlaceIndex.{is_kept};

use std::marker::Model;

/// Some places of a content, each as the number of codes before it: it answers in logarithmic time whether a place is one of them.
#[derive(Drop)]
pub struct PlaceIndex {
    // In order.
    places: Vec<usize>,
}

impl Model for PlaceIndex {
    ghost use Rattle.std.specs.Prelude.{List, ℕ};
    ghost use Rattle.std.specs.List.Sorted.{IsNonDecreasing};

    ghost Value = { List ℕ };

    ghost view = { λ r. r.places.items };

    ghost invariant = { λ r. IsNonDecreasing r.places.items };
}

impl PlaceIndex {
    /// These places, which are in order.
    pub fn new(places: Vec<usize>) -> PlaceIndex
        requires { IsNonDecreasing places.items }
        ensures { result ≡ places.items }
    {
        PlaceIndex { places }
    }

    /// Whether the place before which so many codes stand is one of them.
    pub fn holds(&self, at: usize) -> bool
        ensures { result ≡ is_kept at self.now }
    {
        self.places.as_slice().binary_search(&at).is_ok()
    }
}
