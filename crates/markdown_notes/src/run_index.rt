//! Where the last run of each length begins.
ghost use Rattle.std.specs.Prelude.{◌≡◌, IfErr, IfOk, OnOk};
ghost use Rattle.std.specs.BTreeMap.{insert_entry};
ghost use Rattle.markdown_notes.specs.RunIndex.{last_runs, no_runs, without_runs, rules_out, past_run, key_cmp, AreEntriesInOrder, IsAt, IsGapFor};

use markdown_content::bytes::{ByteSet, NO_BYTES};
use markdown_content::cursor::Cursor;
use std::alloc::{AllocError, Global};
use std::marker::Model;

/// For some bytes, where the last run of each length begins in a content: what ends at a run of one length need not be looked for where there
/// is none.
///
/// A run is as long as it can be: the byte stands neither before it nor after it. Contracts see the bytes, and where the last run of a byte
/// and a length begins, as the number of codes before it.
///
/// It holds one entry for each length of a run, and answers in logarithmic time.
#[derive(Drop)]
pub struct RunIndex {
    asked: ByteSet,
    // Of each byte and length, in their order: how many codes stand before the last run.
    last: Vec<((u8, usize), usize)>,
}

impl Model for RunIndex {
    ghost use Rattle.markdown_notes.specs.RunIndex.{LastRuns, AreEntriesInOrder};

    ghost Value = { LastRuns };

    ghost view = { λ r. record { asked = r.asked; entries = r.last.items } };

    ghost invariant = { λ r. AreEntriesInOrder r.last.items };
}

impl RunIndex {
    /// Knows of no run, and takes no memory.
    pub fn new(alloc: Global) -> RunIndex
        ensures { result ≡ no_runs }
    {
        RunIndex::without(alloc, ByteSet::new(&NO_BYTES))
    }

    /// The runs of these bytes in a content that has none of them. It takes no memory.
    pub fn without(alloc: Global, asked: ByteSet) -> RunIndex
        ensures { result ≡ without_runs asked }
    {
        RunIndex {
            asked,
            last: Vec::new(alloc),
        }
    }

    /// The runs of these bytes in the whole content of a cursor, by one walk.
    ///
    /// `Err` only if memory is refused.
    pub fn over(alloc: Global, cursor: &Cursor, asked: ByteSet) -> Result<RunIndex, AllocError>
        ensures { IfOk result (λ r. r ≡ last_runs asked cursor.now.codes) }
    {
        let mut last = Vec::new(alloc);
        let mut place = cursor.restart();
        while let Some(code) = place.seek(&asked) {
            let begins = place.passed();
            pass_run(&mut place, code);
            if asked.contains(code) {
                put(&mut last, (code, place.passed() - begins), begins)?;
            }
        }
        Ok(RunIndex { asked, last })
    }

    /// Whether it is known that no run of exactly so many of this byte begins at this many codes or after; of a byte that was not asked
    /// for nothing is known, and the answer is false.
    pub fn rules_out(&self, byte: u8, size: usize, at: usize) -> bool
        ensures { result ≡ rules_out self.now byte size at }
    {
        if !self.asked.contains(byte) {
            return false;
        }
        match search(self.last.as_slice(), (byte, size)) {
            Ok(found) => self.last[found].1 < at,
            Err(_) => true,
        }
    }
}

// Where a byte and a length stand among these, which are in order, or where they would go.
fn search(last: &[((u8, usize), usize)], run: (u8, usize)) -> Result<usize, usize>
    requires { AreEntriesInOrder last.now }
    ensures found { IfOk result (IsAt last.now run) }
    ensures absent { IfErr result (IsGapFor last.now run) }
{
    last.binary_search_by_key(&run, |&(it, _)| it)
}

// Notes where the last run of a byte and a length begins. The entries behind a new one are moved; `k` lengths take about `k * k / 2` codes, so
// all moves over a content are linear in it.
fn put(
    last: &mut Vec<((u8, usize), usize)>,
    run: (u8, usize),
    begins: usize,
) -> Result<(), AllocError>
    requires { AreEntriesInOrder last.old.items }
    ensures order { AreEntriesInOrder last.new.items }
    ensures ok { OnOk result (last.new.items ≡ insert_entry key_cmp last.old.items run begins) }
{
    match search(last.as_slice(), run) {
        Ok(found) => {
            last[found] = (run, begins);
            Ok(())
        }
        Err(gap) => Ok(last.insert(gap, (run, begins))?),
    }
}

// Moves past all codes of this value that come next.
fn pass_run(cursor: &mut Cursor, value: u8)
    ensures { cursor.new ≡ past_run value cursor.old }
{
    while cursor.current() == Some(value) {
        cursor.consume();
    }
}
