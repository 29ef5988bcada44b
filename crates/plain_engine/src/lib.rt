// The plain engine: a second allocator of edition 1, for 12 pages, written to be read.
// Its state is tables by value (`Kept`), a lent table of free runs in list order, whose first 12 entries count, and a lent table of
// chunks, 512 bytes for each page: byte i of entry p is 0 where chunk i of page p is free. Each call first asks for whole tables
// (refusal 16), then for a sound state (refusal 3). The table of free runs is tried, scanned and changed where it stands.
#![tactic(auto)]

ghost use Rattle.std.specs.Prelude.{◌≡◌, List, take};
ghost use Rattle.model.specs.Calls.{Alloc, Free};
ghost use Rattle.plain.specs.Fresh.{fresh_runs};
ghost use Rattle.plain_decide.specs.Calls.{seen, Lent, Formats};

use answers::Offset;
use plain::{Answer, Counts, Extent, Kept, PageEntry};

// What is kept of a pool with one free run of 12 pages, whose table begins with it. The table of chunks may hold anything: the bytes of
// a page are written when it is cut.
pub fn format() -> Kept
    ensures { (x : List Extent) → take 12 x ≡ fresh_runs → Formats (seen result x) }
{
    plain_decide::fresh()
}

// What is kept afterwards, with the block's offset or the refusal's number.
pub fn alloc(s: Kept, runs: &mut [Extent], chunks: &mut [u8], size: u32) -> Answer
    ensures { Lent s runs.old chunks.old (Alloc size) result runs.new chunks.new }
{
    if runs.len() < 12 {
        return plain_decide::too_short(s);
    }
    let i = plain_lent::first_fit(runs, plain_alloc::wanted(size));
    let e = plain_lent::entry(runs, i);
    let ok = plain_lent_rules::table_ok(runs, plain_decide::pages_of(s));
    let d = plain_decide::alloc(s, ok, e, chunks, size);
    plain_lent::carve(runs, i, plain_decide::len_of(d));
    plain_decide::answer_of(d)
}

// What is kept afterwards, with the bytes released or the refusal's number.
pub fn free(s: Kept, runs: &mut [Extent], chunks: &mut [u8], at: Offset) -> Answer
    ensures { Lent s runs.old chunks.old (Free at.0) result runs.new chunks.new }
{
    if runs.len() < 12 {
        return plain_decide::too_short(s);
    }
    let ok = plain_lent_rules::table_ok(runs, plain_decide::pages_of(s));
    let d = plain_decide::free(s, ok, chunks, at);
    plain_lent::release(runs, plain_decide::first_of(d), plain_decide::len_of(d));
    plain_decide::answer_of(d)
}
