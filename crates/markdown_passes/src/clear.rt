//! Where an `@` stands: the bytes up to the next one are looked through once, however much data stands among them.
#![tactic(auto)]

ghost use Rattle.std.specs.Prelude.{◌≡◌, ◌<◌, ◌≤◌, slice_index_or, length};
ghost use Rattle.std.specs.Str.{byte};
ghost use Rattle.markdown_passes.specs.ClearStretch.{IsClear};
ghost use Rattle.markdown_passes.specs.EmailScan.{has_sign};
ghost use Rattle.markdown_passes.specs.TrimmedData.{IsStretch};

use markdown_engine_events::events::Events;
use markdown_event::event::Point;
use memchr::memchr;

// A stretch of bytes in which no `@` stands, and how far it is looked for.
#[derive(Clone, Copy)]
pub(crate) struct Clear {
    // Where the stretch begins.
    from: usize,
    // Where it ends: at an `@`, or where the search did.
    to: usize,
    // Where searches end, if data does not reach past it.
    end: usize,
}

// The bytes from a place on before the first `@`; it is looked for up to the end.
#[inline(never)]
fn clear_from(bytes: &[u8], from: usize, end: usize) -> Clear
    requires order { from ≤ end }
    requires within { end ≤ length bytes.now }
    ensures clear { IsClear bytes.now result }
    ensures from { result.from ≡ from }
    ensures end { result.end ≡ end }
    ensures low { from ≤ result.to }
    ensures sign { result.to < end → slice_index_or bytes.now result.to 0 ≡ byte "@" }
{
    let to = match memchr(b'@', &bytes[from..end]) {
        Some(before) => from + before,
        None => end,
    };
    Clear { from, to, end }
}

// Whether an `@` stands in a stretch. As a rule the stretch is known to be clear, since the bytes up to the next `@` were looked through before.
#[inline(always)]
pub(crate) fn has_sign(bytes: &[u8], clear: &mut Clear, from: Point, to: Point) -> bool
    requires clear { IsClear bytes.now clear.old }
    requires stretch { IsStretch bytes.now from to }
    ensures value { result ≡ has_sign bytes.now from to }
    ensures clear { IsClear bytes.now clear.new }
{
    if clear.from <= from.index && to.index <= clear.to {
        return false;
    }
    *clear = clear_from(bytes, from.index, clear.end.max(to.index));
    clear.to < to.index
}

// Nothing is known to be clear. An `@` is looked for up to where the last event stands.
pub(crate) fn clear_at_first(bytes: &[u8], events: &Events) -> Clear
    ensures { IsClear bytes.now result }
{
    let count = events.len();
    let end = if count == 0 {
        0
    } else {
        events.bare_at(count - 1).point.index
    };
    Clear {
        from: 0,
        to: 0,
        end: end.min(bytes.len()),
    }
}
