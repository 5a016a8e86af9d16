//! The runs of markers of a content, and the one way to look at them.

ghost use Rattle.std.specs.Prelude.{◌≡◌, ◌+◌, ◌^◌, ◌<◌, ◌≤◌, ◌↔◌, length, count_by, IfSome, IsSome, IfOk, OnOk, OnErr, IsTrue, IsUtf8, None};
ghost use Rattle.markdown_attention.specs.NumberedPairs.{run_at, after_taking};
ghost use Rattle.markdown_attention.specs.RunsRead.{HaveRunPlaces, opens_text};
ghost use Rattle.markdown_attention.specs.RunsOfEvents.{runs_of_events};
ghost use Rattle.markdown_attention.specs.OpenRuns.{HaveMarkers};
ghost use Rattle.markdown_attention.specs.PairScan.{AreUntaken, StandIn};
ghost use Rattle.markdown_attention.specs.RunsOfTree.{IsOf, HasRuns, HasRows};
ghost use Rattle.markdown_engine.specs.Operations.{refused};
ghost use Rattle.markdown_engine.specs.PastTree.{appended_from};
ghost use Rattle.markdown_content.specs.Tree.{Forest, leaf_codes};
ghost use Rattle.markdown_model.specs.Setting.{Setting, within};

use crate::attention::reading::read;
use markdown_engine::tokenizer::Tokenizer;
use std::alloc::AllocError;
use std::marker::Model;

/// A run of equal markers as it stands.
#[derive(Clone, Copy)]
pub struct Sequence {
    /// Its number: runs are counted from 0, in order of place.
    pub number: usize,
    /// The number of its `Enter` event.
    pub event: usize,
    /// Its container: the number of the `Enter` event of the `LabelText` that it stands in, none for the whole content.
    pub container: Option<usize>,
    /// The same container, counted: which of the texts of labels it is, from 0 in the order in which they begin, none for the whole content.
    /// The tables of the pairing are laid out by it.
    pub text: Option<usize>,
    /// The byte that it repeats.
    pub marker: u8,
    /// How many markers it began with.
    pub size: usize,
    /// How many markers pairs have left of it.
    pub remaining: usize,
    /// Whether it may open.
    pub may_open: bool,
    /// Whether it may close.
    pub may_close: bool,
}

/// The runs in order of place, one of them in turn, and the number of looks at earlier ones; beside them, how many texts of labels there
/// are.
///
/// A run is answered by `closer`, which answers the one in turn, by `look`, which counts, and at the end by `finish`.
#[derive(Drop)]
pub struct Runs {
    list: Vec<Sequence>,
    texts: usize,
    turn: usize,
    probes: u128,
}

impl Model for Runs {
    ghost use Rattle.std.specs.Prelude.{◌≤◌, length};
    ghost use Rattle.markdown_attention.specs.PairScan.{Walk, Numbered, StandIn};

    ghost Value = { Walk };

    ghost view = { λ r. record { list = r.list.items; texts = r.texts; turn = r.turn; probes = r.probes } };

    ghost invariant = { λ r. (r.turn ≤ length r.list.items) × (Numbered r.list.items × StandIn r.texts r.list.items) };
}

impl Runs {
    /// The runs of the events, the first of them in turn.
    ///
    /// The error comes where memory is refused; then `failed` is true, and nothing else of the tokenizer has changed.
    pub fn new(tokenizer: &mut Tokenizer) -> Result<Runs, AllocError>
        requires utf8 { IsUtf8 tokenizer.old.parse_state.now.bytes.now }
        requires places { HaveRunPlaces tokenizer.old.parse_state.now.bytes.now tokenizer.old.events }
        ensures runs { IfOk result (λ runs. runs
            ≡ record { list = runs_of_events tokenizer.old; texts = count_by opens_text tokenizer.old.events; turn = 0; probes = 0 }) }
        ensures whole { IfOk result (λ runs. AreUntaken runs.list) }
        ensures markers { IfOk result (λ runs. HaveMarkers runs.list) }
        ensures containers { IfOk result (λ runs. StandIn (count_by opens_text tokenizer.old.events) runs.list) }
        ensures rows { (s : Setting) (t : Forest) → IsOf s t tokenizer.old → HasRuns tokenizer.old.parse_state.now.bytes.now t
            → tokenizer.old.events ≡ appended_from 0 None t → IfOk result (λ runs. HasRows (within (leaf_codes t) s) t runs.list) }
        ensures same { OnOk result (tokenizer.new ≡ tokenizer.old) }
        ensures err { OnErr result (tokenizer.new ≡ refused tokenizer.old) }
    {
        let bytes = tokenizer.parse_state.bytes;
        let options = *tokenizer.parse_state.options;
        match read(
            tokenizer.alloc,
            bytes,
            options,
            &tokenizer.cursor,
            &tokenizer.events,
        ) {
            Err(error) => tokenizer.noted(Err(error)),
            Ok(found) => Ok(Runs {
                list: found.list,
                texts: found.texts,
                turn: 0,
                probes: 0,
            }),
        }
    }

    /// How many runs there are.
    pub(crate) fn len(&self) -> usize
        ensures { result ≡ length self.now.list }
    {
        self.list.len()
    }

    /// How many texts of labels there are: each run stands in one of them, or in none.
    pub fn texts(&self) -> usize
        ensures is { result ≡ self.now.texts }
        ensures containers { StandIn result self.now.list }
    {
        self.texts
    }

    /// Which text of a label a run stands in, if any: no more of the run is answered, so this is no look.
    pub(crate) fn text_of(&self, run: usize) -> Option<usize>
        requires { run < length self.now.list }
        ensures { result ≡ (run_at self.now.list run).text }
    {
        self.list[run].text
    }

    /// The run in turn: at first the first, and none after the last.
    pub fn closer(&self) -> Option<Sequence>
        ensures within { IsSome result ↔ (self.now.turn < length self.now.list) }
        ensures run { IfSome result (λ r. r ≡ run_at self.now.list self.now.turn) }
        ensures number { IfSome result (λ r. r.number ≡ self.now.turn) }
    {
        if self.turn < self.list.len() {
            Some(self.list[self.turn])
        } else {
            None
        }
    }

    /// Puts the next run in turn.
    pub fn advance(&mut self)
        requires { self.old.turn < length self.old.list }
        ensures { self.new ≡ record self.old { turn = self.old.turn + 1 } }
    {
        self.turn += 1;
    }

    /// One look at a run before the one in turn.
    pub fn look(&mut self, run: usize) -> Sequence
        requires earlier { run < self.old.turn }
        requires room { self.old.probes + 1 < 2 ^ 128 }
        ensures run { result ≡ run_at self.old.list run }
        ensures number { result.number ≡ run }
        ensures counted { self.new ≡ record self.old { probes = self.old.probes + 1 } }
    {
        self.probes += 1;
        self.list[run]
    }

    /// Takes markers of an earlier run and of the one in turn.
    pub fn take(&mut self, opener: usize, size: usize)
        requires in_turn { self.old.turn < length self.old.list }
        requires earlier { opener < self.old.turn }
        requires opener_has { size ≤ (run_at self.old.list opener).remaining }
        requires closer_has { size ≤ (run_at self.old.list self.old.turn).remaining }
        ensures { self.new ≡ record self.old { list = after_taking self.old.list opener self.old.turn size } }
    {
        let turn = self.turn;
        let first = &mut self.list[opener];
        first.remaining -= size;
        let second = &mut self.list[turn];
        second.remaining -= size;
    }

    /// The number of looks.
    pub fn probes(&self) -> u128
        ensures { result ≡ self.now.probes }
    {
        self.probes
    }

    /// All runs, in order.
    pub fn finish(self) -> Vec<Sequence>
        ensures { result.items ≡ self.list }
    {
        let Runs {
            list,
            texts: _,
            turn: _,
            probes: _,
        } = self;
        list
    }
}
