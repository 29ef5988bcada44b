// The plain engine on what is kept by value: what a call answers, and what the lent table of free runs is still to suffer.
// `ok` tells whether that table keeps its rules. Each call first asks for a whole table of chunks (refusal 16), then for a sound
// state (refusal 3).
#![tactic(auto)]

ghost use Rattle.std.specs.Prelude.{◌≡◌, true, false};
ghost use Rattle.base.specs.Tests.{pick};
ghost use Rattle.plain.specs.Fresh.{kept_fresh};
ghost use Rattle.plain.specs.Mirror.{kept_alloc, kept_alloc_bytes, kept_free, kept_free_bytes, answer_of};
ghost use Rattle.plain_rules.specs.Mirror.{kept_sound};
ghost use Rattle.plain_alloc.specs.Mirror.{Low};
ghost use Rattle.plain_decide.specs.Mirror.{recounted_done, alloc_judged, alloc_judged_bytes, free_judged, free_judged_bytes, AllocDecides, FreeDecides, short_of};

use answers::{Offset, Refusal};
use plain::{Answer, Counts, Done, Extent, Kept, PageEntry};

// ---- answers

// Refused for its table of free runs.
pub fn too_short(s: Kept) -> Answer
    ensures { result ≡ short_of s }
{
    Answer {
        after: s,
        number: u8::from(Refusal::TableTooShort),
        value: 0,
    }
}

pub fn answer_of(d: Done) -> Answer
    ensures { result ≡ answer_of d }
{
    Answer {
        after: d.after,
        number: d.number,
        value: d.value,
    }
}

// The first of the pages that leave the table of free runs or come back.
pub fn first_of(d: Done) -> u32
    ensures { result ≡ d.first }
{
    d.first
}

// How many they are.
pub fn len_of(d: Done) -> u32
    ensures { result ≡ d.len }
{
    d.len
}

pub fn pages_of(s: Kept) -> [PageEntry; 12]
    ensures { result ≡ s.pages }
{
    s.pages
}

// ---- format

// What is kept of one free run of 12 pages.
#[tactic(auto, unfolding(plain::specs::Fresh::kept_fresh, plain::specs::Plain::free_entry, plain::specs::Plain::no_counts))]
pub fn fresh() -> Kept
    ensures { result ≡ kept_fresh }
{
    let free = PageEntry {
        kind: 0,
        class: 0,
        run: 0,
    };
    let zero = Counts {
        used: 0,
        total: 0,
        reqs: 0,
        fails: 0,
    };
    Kept {
        pages: [free; 12],
        ready: [255; 12],
        counts: [zero; 9],
        free: 12,
    }
}

// ---- calls

// What is kept afterwards, with the block's offset or the refusal's number; e is the first entry with as many pages as are asked for.
pub fn alloc(s: Kept, ok: bool, e: Extent, chunks: &mut [u8], size: u32) -> Done
    requires { ok ≡ true → Low e }
    ensures { AllocDecides s ok e chunks.old size result chunks.new }
{
    if chunks.len() < 6144 {
        plain_pages::refuse_as(s, Refusal::TableTooShort)
    } else {
        alloc_judged(s, ok, e, chunks, size)
    }
}

// What is kept afterwards, with the bytes released or the refusal's number.
pub fn free(s: Kept, ok: bool, chunks: &mut [u8], at: Offset) -> Done
    ensures { FreeDecides s ok chunks.old at.0 result chunks.new }
{
    if chunks.len() < 6144 {
        plain_pages::refuse_as(s, Refusal::TableTooShort)
    } else {
        free_judged(s, ok, chunks, at.0)
    }
}

// ---- with a whole table of chunks

#[tactic(auto, unfolding(base::specs::Tests::pick))]
fn is_sound(s: Kept, ok: bool, chunks: &[u8]) -> bool
    ensures { result ≡ pick ok (kept_sound s chunks.now) false }
{
    ok && plain_validate::is_sound(s, chunks)
}

#[tactic(auto, unfolding(crate::specs::Mirror::alloc_judged, crate::specs::Mirror::alloc_judged_bytes, base::specs::Tests::pick))]
fn alloc_judged(s: Kept, ok: bool, e: Extent, chunks: &mut [u8], size: u32) -> Done
    requires { ok ≡ true → Low e }
    ensures answer { result ≡ alloc_judged s ok e chunks.old size }
    ensures slice { chunks.new ≡ alloc_judged_bytes s ok e chunks.old size }
{
    if is_sound(s, ok, chunks) {
        alloc_counted(s, e, chunks, size)
    } else {
        plain_pages::refuse_as(s, Refusal::NotSound)
    }
}

#[tactic(auto, unfolding(crate::specs::Mirror::free_judged, crate::specs::Mirror::free_judged_bytes, base::specs::Tests::pick))]
fn free_judged(s: Kept, ok: bool, chunks: &mut [u8], at: u32) -> Done
    ensures answer { result ≡ free_judged s ok chunks.old at }
    ensures slice { chunks.new ≡ free_judged_bytes s ok chunks.old at }
{
    if is_sound(s, ok, chunks) {
        free_counted(s, chunks, at)
    } else {
        plain_pages::refuse_as(s, Refusal::NotSound)
    }
}

// ---- on a sound state

fn alloc_counted(s: Kept, e: Extent, chunks: &mut [u8], size: u32) -> Done
    requires { Low e }
    ensures answer { result ≡ recounted_done (kept_alloc s chunks.old size e) (kept_alloc_bytes s chunks.old size e) }
    ensures slice { chunks.new ≡ kept_alloc_bytes s chunks.old size e }
{
    let r = plain_alloc::alloc_sound(s, chunks, size, e);
    recount(r, chunks)
}

fn free_counted(s: Kept, chunks: &mut [u8], at: u32) -> Done
    requires { kept_sound s chunks.old ≡ true }
    ensures answer { result ≡ recounted_done (kept_free s chunks.old at) (kept_free_bytes s chunks.old at) }
    ensures slice { chunks.new ≡ kept_free_bytes s chunks.old at }
{
    let r = plain_free::free_sound(s, chunks, at);
    recount(r, chunks)
}

// Used, total and free pages are counted anew after every call.
#[tactic(auto, unfolding(crate::specs::Mirror::recounted_done))]
fn recount(r: Done, chunks: &[u8]) -> Done
    ensures { result ≡ recounted_done r chunks.now }
{
    Done {
        after: plain_counts::recount(r.after, chunks),
        ..r
    }
}
