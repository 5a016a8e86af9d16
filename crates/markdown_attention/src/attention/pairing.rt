//! Which runs pair: one scan over all runs, by lists of open runs.
//!
//! Each container has, for each marker, a list of its open runs, the newest first. A closer walks the list of its marker to the nearest run
//! that fits it. A mark for each list and each class of closers says up to which run all open ones refuse the class, so that a walk stops there.

ghost use Rattle.std.specs.Prelude.{◌≡◌, ℕ, ◌+◌, ◌-◌, ◌*◌, ◌^◌, ◌<◌, ◌≤◌, ◌⊎◌, ◌&&◌, length, slice_index, slice_set, nat_lt, if◌then◌else◌, IfSome, IfNone, IfOk, IsTrue, IsFalse, count_by, replicate};
ghost use Rattle.markdown_attention.specs.NumberedPairs.{run_at, markers_left, sizes_fit, ruled_size, is_refused_by_three, is_tilde_pair, size_of_pair, row_of};
ghost use Rattle.markdown_attention.specs.PairScan.{AreRunsAfter, AreUntaken, AreSmall};
ghost use Rattle.markdown_attention.specs.OpenRuns.{AreLines, kind_of, class_of, WalkFound, WalkEnded, IsCut, HaveMarkers, IsClosing};
ghost use Rattle.markdown_attention.specs.RunContainers.{ArePairLists, ArePairsWithin, AreTakenOnce, AreByCloser};

use crate::attention::lines::Lines;
use crate::attention::newest::Newest;
use crate::attention::runs::{Runs, Sequence};
use markdown_content::configuration::ParseOptions;
use std::alloc::{AllocError, Global};

/// An opener and a closer by their numbers, and how many markers the pair takes of each.
#[derive(Clone, Copy)]
pub struct Pair {
    /// The number of the opener.
    pub opener: usize,
    /// The number of the closer.
    pub closer: usize,
    /// How many markers it takes of each.
    pub size: usize,
}

// The number of markers that a pair takes.
fn pair_size(opener: usize, closer: usize) -> usize
    ensures { result ≡ size_of_pair opener closer }
{
    if opener > 1 && closer > 1 { 2 } else { 1 }
}

// The size that the rule of three reads.
fn ruled_size(options: ParseOptions, whole: usize, remaining: usize) -> usize
    ensures { result ≡ ruled_size options whole remaining }
{
    if options.rules().whole_lengths {
        whole
    } else {
        remaining
    }
}

// Whether the rule of three refuses two sizes.
fn is_refused_by_three(both: bool, x: usize, y: usize) -> bool
    requires { x + y < 2 ^ 64 }
    ensures { result ≡ is_refused_by_three both x y }
{
    both && y % 3 != 0 && (x + y) % 3 == 0
}

// Whether two sizes of tildes may pair.
fn is_tilde_pair(options: ParseOptions, x: usize, y: usize) -> bool
    ensures { result ≡ is_tilde_pair options x y }
{
    x == y && (y == 2 || y == 1 && options.gfm_strikethrough_single_tilde)
}

// Whether the sizes let two runs pair.
#[tactic(auto, unfolding(crate::specs::NumberedPairs::sizes_fit))]
fn do_sizes_fit(options: ParseOptions, a: Sequence, b: Sequence) -> bool
    requires whole { a.size + b.size < 2 ^ 64 }
    requires rest { a.remaining + b.remaining < 2 ^ 64 }
    ensures { result ≡ sizes_fit options a b a.remaining b.remaining }
{
    let x = ruled_size(options, a.size, a.remaining);
    let y = ruled_size(options, b.size, b.remaining);
    if b.marker == b'~' {
        is_tilde_pair(options, a.remaining, b.remaining)
    } else {
        !is_refused_by_three(a.may_close || b.may_open, x, y)
    }
}

// Which list of its container a marker has.
fn kind_number(marker: u8) -> usize
    ensures is { result ≡ kind_of marker }
    ensures small { result < 3 }
{
    match marker {
        b'*' => 0,
        b'_' => 1,
        _ => 2,
    }
}

// The list of a run, whose text has this line.
fn list_of(line: usize, run: Sequence) -> usize
    requires { line * 3 + 3 < 2 ^ 64 }
    ensures { result ≡ line * 3 + kind_of run.marker }
{
    line * 3 + kind_number(run.marker)
}

// What of a closer decides who refuses it.
#[tactic(auto, unfolding(crate::specs::OpenRuns::class_of))]
fn class_number(options: ParseOptions, closer: Sequence) -> usize
    ensures is { result ≡ class_of options closer closer.remaining }
    ensures small { result < 6 }
{
    if closer.marker == b'~' {
        if closer.remaining == 1 {
            1
        } else if closer.remaining == 2 {
            2
        } else {
            0
        }
    } else {
        let read = ruled_size(options, closer.size, closer.remaining);
        let more = if closer.may_open { 3 } else { 0 };
        read % 3 + more
    }
}

// Walks a list of open runs to the newest that fits, or to a mark.
fn walk(
    options: ParseOptions,
    runs: &mut Runs,
    head: Newest,
    older: &[Newest],
    mark: Newest,
    closer: Sequence,
) -> Option<Sequence>
    requires run { closer ≡ run_at runs.old.list runs.old.turn }
    requires in_turn { runs.old.turn < length runs.old.list }
    requires older { length older.now ≡ runs.old.turn }
    requires down { (r : ℕ) → r < runs.old.turn → slice_index older.now r ≤ r }
    requires head { head ≤ runs.old.turn }
    requires small { AreSmall runs.old.list }
    requires room { runs.old.probes + runs.old.turn < 2 ^ 128 }
    ensures list { runs.new.list ≡ runs.old.list }
    ensures turn { runs.new.turn ≡ runs.old.turn }
    ensures run { IfSome result (λ o. o ≡ run_at runs.old.list o.number) }
    ensures before { IfSome result (λ o. o.number < runs.old.turn) }
    ensures closes { IfSome result (λ o. IsClosing closer) }
    ensures idle { (IsClosing closer → ⊥) → runs.new.probes ≡ runs.old.probes }
    ensures found { IfSome result (λ o. WalkFound options runs.old.list older.now mark runs.old.turn head o.number (runs.new.probes - runs.old.probes)) }
    ensures none { IsClosing closer → IfNone result (WalkEnded options runs.old.list older.now mark runs.old.turn head (runs.new.probes - runs.old.probes)) }
    ensures at_least { runs.old.probes ≤ runs.new.probes }
    ensures at_most { runs.new.probes ≤ runs.old.probes + runs.old.turn }
{
    if !closer.may_close || closer.remaining == 0 {
        return None;
    }
    let mut at = head;
    while let Some(run) = at.number_past(mark) {
        let opener = runs.look(run);
        if do_sizes_fit(options, opener, closer) {
            return Some(opener);
        }
        at = older[run];
    }
    None
}

// The newest of a list that is not past the opener.
fn cut(head: Newest, older: &[Newest], opener: usize) -> Newest
    requires opener { opener < length older.now }
    requires down { (r : ℕ) → r < length older.now → slice_index older.now r ≤ r }
    requires head { head ≤ length older.now }
    ensures cut { IsCut older.now opener head result }
    ensures down { result ≤ head }
{
    let kept = Newest::run(opener);
    let mut at = head;
    while let Some(run) = at.number_past(kept) {
        at = older[run];
    }
    at
}

// Lowers six marks that reach the opener.
fn lower_marks(marks: &mut [Newest], first: usize, opener: usize)
    requires { first + 6 ≤ length marks.old }
    ensures same { length marks.new ≡ length marks.old }
    ensures low { (i : ℕ) → first ≤ i → i < first + 6 → slice_index marks.old i ≤ opener → slice_index marks.new i ≡ slice_index marks.old i }
    ensures high { (i : ℕ) → first ≤ i → i < first + 6 → opener < slice_index marks.old i → slice_index marks.new i ≡ opener }
    ensures others { (i : ℕ) → (i < first) ⊎ (first + 6 ≤ i) → slice_index marks.new i ≡ slice_index marks.old i }
{
    for i in first..first + 6 {
        if marks[i].reaches(opener) {
            marks[i] = Newest::before(opener);
        }
    }
}

// Cuts the three lists of a container behind the opener, and takes a used-up opener out of its own.
fn cut_for_pair(
    heads: &mut [Newest],
    older: &[Newest],
    first: usize,
    list: usize,
    opener: usize,
    used: bool,
)
    requires lists { first + 3 ≤ length heads.old }
    requires list { list < length heads.old }
    requires opener { opener < length older.now }
    requires down { (r : ℕ) → r < length older.now → slice_index older.now r ≤ r }
    requires heads { (i : ℕ) → i < length heads.old → slice_index heads.old i ≤ length older.now }
    ensures same { length heads.new ≡ length heads.old }
    ensures cut { (i : ℕ) → first ≤ i → i < first + 3 → (i ≡ list → ⊥)
        → IsCut older.now opener (slice_index heads.old i) (slice_index heads.new i) }
    ensures own { IsFalse used → first ≤ list → list < first + 3
        → IsCut older.now opener (slice_index heads.old list) (slice_index heads.new list) }
    ensures used { IsTrue used → slice_index heads.new list ≡ slice_index older.now opener }
    ensures others { (i : ℕ) → (i < first) ⊎ (first + 3 ≤ i) → (i ≡ list → ⊥) → slice_index heads.new i ≡ slice_index heads.old i }
{
    for i in first..first + 3 {
        let head = cut(heads[i], older, opener);
        heads[i] = head;
    }
    if used {
        heads[list] = older[opener];
    }
}

// Notes a run that found no opener: if it may close, all runs before it are marked, and if it may open, it is put on top of its list.
fn note_run(heads: &mut [Newest], marks: &mut [Newest], list: usize, at: usize, run: Sequence)
    requires list { list < length heads.old }
    requires at { at < length marks.old }
    requires number { run.number + 1 < 2 ^ 64 }
    ensures marks { marks.new ≡ (if run.may_close && nat_lt 0 run.remaining then slice_set marks.old at run.number else marks.old) }
    ensures heads { heads.new ≡ (if run.may_open && nat_lt 0 run.remaining then slice_set heads.old list (run.number + 1) else heads.old) }
{
    if run.may_close && run.remaining > 0 {
        marks[at] = Newest::before(run.number);
    }
    if run.may_open && run.remaining > 0 {
        heads[list] = Newest::run(run.number);
    }
}

// How many lists each line has.
const LISTS: usize = 3;

// How many lists and marks each line has: three lists, and six marks for each of them.
const CELLS: usize = 21;

// The empty lists of all lines, and behind them their marks, none of which marks a run.
fn empty_tables(alloc: Global, lines: usize) -> Result<Vec<Newest>, AllocError>
    ensures { IfOk result (λ tables. tables.items ≡ replicate (lines * CELLS) 0) }
{
    let size = lines.checked_mul(CELLS).ok_or(AllocError)?;
    vec![in alloc; Newest::none(); size]
}

// The lines of the rows that hold a run.
fn lines_of(alloc: Global, runs: &Runs) -> Result<Lines, AllocError>
    ensures are { IfOk result (λ lines. AreLines lines.of_rows lines.count) }
    ensures within { IfOk result (λ lines. (r : ℕ) → r < length runs.now.list → row_of (run_at runs.now.list r).text < length lines.of_rows) }
    ensures some { IfOk result (λ lines. (r : ℕ) → r < length runs.now.list → 0 < slice_index lines.of_rows (row_of (run_at runs.now.list r).text)) }
{
    let mut lines = Lines::new(alloc, runs.texts())?;
    for index in 0..runs.len() {
        lines.give(runs.text_of(index));
    }
    Ok(lines)
}

/// Pairs the runs of all containers in one scan.
pub fn pair_runs(
    alloc: Global,
    options: ParseOptions,
    runs: &mut Runs,
) -> Result<Vec<Pair>, AllocError>
    requires start { runs.old.turn ≡ 0 }
    requires unread { runs.old.probes ≡ 0 }
    requires whole { AreUntaken runs.old.list }
    requires markers { HaveMarkers runs.old.list }
    requires small { markers_left runs.old.list < 2 ^ 63 }
    requires count { length runs.old.list < 2 ^ 63 }
    ensures lists { IfOk result (λ pairs. ArePairLists options runs.old.list pairs.items) }
    ensures within { IfOk result (λ pairs. ArePairsWithin runs.old.list pairs.items) }
    ensures once { IfOk result (λ pairs. AreTakenOnce runs.old.list pairs.items) }
    ensures order { IfOk result (λ pairs. AreByCloser pairs.items) }
    ensures left { IfOk result (λ pairs. AreRunsAfter runs.old.list runs.new.list pairs.items) }
    ensures at_most { IfOk result (λ pairs. runs.new.probes ≤ 6 * count_by (λ r. r.may_open) runs.old.list
        + count_by (λ r. r.may_close) runs.old.list + 7 * length pairs.items) }
    ensures at_least { IfOk result (λ pairs. length pairs.items ≤ runs.new.probes) }
    ensures scan { IfOk result (λ pairs. runs.new.probes ≤ (length runs.old.list + length pairs.items) * length runs.old.list) }
    ensures half { IfOk result (λ pairs. 2 * length pairs.items ≤ markers_left runs.old.list) }
{
    let found = lines_of(alloc, runs)?;
    let lines = &found;
    let mut pairs = Vec::with_capacity(alloc, runs.len() / 2)?;
    let count = lines.count();
    let mut tables = empty_tables(alloc, count)?;
    let (heads, marks) = tables.split_at_mut(count * LISTS);
    let mut older = Vec::with_capacity(alloc, runs.len())?;
    while let Some(closer) = runs.closer() {
        let line = lines.line_of(closer.text);
        let list = list_of(line, closer);
        let class = class_number(options, closer);
        let at = list * 6 + class;
        let head = heads[list];
        match walk(options, runs, head, &older, marks[at], closer) {
            None => {
                older.push(head)?;
                note_run(heads, marks, list, at, closer);
                runs.advance();
            }
            Some(opener) => {
                let size = pair_size(opener.remaining, closer.remaining);
                runs.take(opener.number, size);
                let used = opener.remaining == size;
                cut_for_pair(heads, &older, line * 3, list, opener.number, used);
                lower_marks(marks, list * 6, opener.number);
                pairs.push(Pair {
                    opener: opener.number,
                    closer: closer.number,
                    size,
                })?;
            }
        }
    }
    Ok(pairs)
}
