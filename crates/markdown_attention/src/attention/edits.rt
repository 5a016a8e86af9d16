//! The edits of the pass: one for each run.
#![tactic(auto)]

ghost use Rattle.std.specs.Prelude.{◌≡◌, ◌≢◌, ◌<◌, ◌≤◌, ◌++◌, ◌∷◌, [], OnOk, ℕ, length, slice_index_or, take};
ghost use Rattle.std.specs.List.{All};
ghost use Rattle.markdown_attention.specs.NumberedPairs.{run_at};
ghost use Rattle.markdown_engine_events.specs.Edits.{CanEdit, edited};
ghost use Rattle.markdown_attention.specs.RunEdits.{edits_by, run_edits, point_in};
ghost use Rattle.markdown_attention.specs.PairSizes.{sizes_of, HasRoom, HasRoomFor, added_for};
ghost use Rattle.markdown_attention.specs.PairScan.{Numbered};
ghost use Rattle.markdown_attention.specs.RunContainers.{AreByCloser};
ghost use Rattle.markdown_attention.specs.SolePairs.{IsSole, HasRoomFrom, edit_from};

use crate::attention::brackets::{closing, opening, run_events, shifted};
use crate::attention::pairing::Pair;
use crate::attention::runs::Sequence;
use crate::attention::sizes::Sizes;
use markdown_engine_events::events::Events;
use markdown_engine_events::util::edit_map::EditMap;
use markdown_event::event::{Event, Point};
use std::alloc::{AllocError, Global};

// How one pair takes all markers of a run.
#[derive(Clone, Copy)]
enum Sole {
    // The run is its closer; the size.
    Closing(usize),
    // The run is its opener; the size.
    Opening(usize),
    // Markers are left, or there are more pairs.
    Neither,
}

// Whether one pair takes all markers of a run. It closes the pairs `fronts`.
fn sole_pair(run: &Sequence, fronts: &[Pair], backs: &Sizes) -> Sole
    requires { run.now.number < length backs.now }
    ensures { IsSole result (sizes_of fronts.now) run.now.remaining (slice_index_or backs.now run.now.number []) }
{
    if run.remaining > 0 {
        return Sole::Neither;
    }
    if backs.is_none(run.number) {
        return match fronts {
            [pair] => Sole::Closing(pair.size),
            _ => Sole::Neither,
        };
    }
    match backs.sole(run.number) {
        Some(size) if fronts.is_empty() => Sole::Opening(size),
        _ => Sole::Neither,
    }
}

// How many of the pairs at the front a run closes.
fn closed_count(pairs: &[Pair], run: usize) -> usize
    ensures within { result ≤ length pairs.now }
    ensures closed { All (λ p. p.closer ≡ run) (take result pairs.now) }
    ensures next { (p : Pair) → result < length pairs.now → (slice_index_or pairs.now result p).closer ≢ run }
{
    let mut count = 0usize;
    while count < pairs.len() && pairs[count].closer == run {
        count += 1;
    }
    count
}

// Puts the sizes of pairs in place of those that a list had.
fn read_sizes(pairs: &[Pair], into: &mut Vec<usize>) -> Result<(), AllocError>
    ensures { OnOk result (into.new.items ≡ sizes_of pairs.now) }
{
    into.clear();
    for pair in pairs {
        into.push(pair.size)?;
    }
    Ok(())
}

// Lists that the edits of runs are made in, one after another, so that each takes no memory of its own.
#[derive(Drop)]
struct Lists {
    added: Vec<Event>,
    front: Vec<usize>,
    back: Vec<usize>,
}

// Adds the edit of a run, whatever pairs take of it. It is kept out of line, so that the runs that one pair takes whole do not pay for it.
#[inline(never)]
fn edit_any(
    map: &mut EditMap,
    lists: &mut Lists,
    run: &Sequence,
    from: Point,
    fronts: &[Pair],
    backs: &Sizes,
) -> Result<(), AllocError>
    requires back { run.now.number < length backs.now }
    requires room { HasRoomFrom from (sizes_of fronts.now) (slice_index_or backs.now run.now.number []) run.now }
    ensures { OnOk result (map.new ≡ map.old ++ edit_from from (sizes_of fronts.now) (slice_index_or backs.now run.now.number []) run.now ∷ []) }
{
    read_sizes(fronts, &mut lists.front)?;
    backs.read(run.number, &mut lists.back)?;
    run_events(
        &mut lists.added,
        run.marker,
        from,
        &lists.front,
        run.remaining,
        &lists.back,
    )?;
    map.add_slice(run.event, 2, &lists.added)
}

// Adds the edit of a run: its events go, and those that its pairs make of it come. One pair takes most runs whole; its events need no list.
fn edit_run(
    map: &mut EditMap,
    lists: &mut Lists,
    run: &Sequence,
    from: Point,
    fronts: &[Pair],
    backs: &Sizes,
) -> Result<(), AllocError>
    requires back { run.now.number < length backs.now }
    requires room { HasRoomFrom from (sizes_of fronts.now) (slice_index_or backs.now run.now.number []) run.now }
    ensures { OnOk result (map.new ≡ map.old ++ edit_from from (sizes_of fronts.now) (slice_index_or backs.now run.now.number []) run.now ∷ []) }
{
    match sole_pair(run, fronts, backs) {
        Sole::Closing(size) => {
            let places = [from, shifted(from, size)];
            map.add_marked(run.event, 2, &closing(run.marker, size), places)
        }
        Sole::Opening(size) => {
            let places = [from, shifted(from, size)];
            map.add_marked(run.event, 2, &opening(run.marker, size), places)
        }
        Sole::Neither => edit_any(map, lists, run, from, fronts, backs),
    }
}

// Adds an edit for each run. The pairs that a run closes stand together, behind those that the runs before it close.
fn edit_runs(
    alloc: Global,
    events: &Events,
    map: &mut EditMap,
    runs: &[Sequence],
    pairs: &[Pair],
    backs: &Sizes,
) -> Result<(), AllocError>
    requires empty { map.old ≡ [] }
    requires numbered { Numbered runs.now }
    requires order { AreByCloser pairs.now }
    requires room { (i : ℕ) → i < length runs.now → HasRoom events.now pairs.now backs.now (run_at runs.now i) }
    ensures { OnOk result (map.new ≡ edits_by (added_for events.now pairs.now backs.now) runs.now) }
{
    let mut lists = Lists {
        added: Vec::new(alloc),
        front: Vec::new(alloc),
        back: Vec::new(alloc),
    };
    let mut rest = pairs;
    for run in runs {
        let from = events.bare_at(run.event).point;
        let (fronts, later) = rest.split_at(closed_count(rest, run.number));
        edit_run(map, &mut lists, run, from, fronts, backs)?;
        rest = later;
    }
    Ok(())
}

// Adds the edits that make groups of these pairs of runs.
fn mark_runs(
    alloc: Global,
    events: &Events,
    map: &mut EditMap,
    runs: &[Sequence],
    pairs: &[Pair],
) -> Result<(), AllocError>
    requires empty { map.old ≡ [] }
    requires numbered { Numbered runs.now }
    requires order { AreByCloser pairs.now }
    requires openers { All (λ p. p.opener < length runs.now) pairs.now }
    requires room { (i : ℕ) → i < length runs.now → HasRoomFor events.now (length runs.now) pairs.now (run_at runs.now i) }
    ensures { OnOk result (map.new ≡ run_edits (point_in events.now) pairs.now runs.now) }
{
    let backs = Sizes::over(alloc, runs.len(), pairs)?;
    edit_runs(alloc, events, map, runs, pairs, &backs)
}

/// Makes groups of these pairs of runs, which come in the order of their closers, in the events. What is known of the pairs is let go before the events are made.
pub(crate) fn group_runs(
    alloc: Global,
    events: &mut Events,
    map: &mut EditMap,
    runs: Vec<Sequence>,
    pairs: Vec<Pair>,
) -> Result<(), AllocError>
    requires empty { map.old ≡ [] }
    requires numbered { Numbered runs.items }
    requires order { AreByCloser pairs.items }
    requires openers { All (λ p. p.opener < length runs.items) pairs.items }
    requires room { (i : ℕ) → i < length runs.items → HasRoomFor events.old (length runs.items) pairs.items (run_at runs.items i) }
    requires can { CanEdit (run_edits (point_in events.old) pairs.items runs.items) events.old }
    ensures edited { OnOk result (events.new ≡ edited (run_edits (point_in events.old) pairs.items runs.items) events.old) }
    ensures map { OnOk result (map.new ≡ []) }
{
    mark_runs(alloc, events, map, &runs, &pairs)?;
    drop(runs);
    drop(pairs);
    map.consume(events)
}
