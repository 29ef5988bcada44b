// Pages taken and released, on what is kept by value.
#![tactic(auto)]

ghost use Rattle.std.specs.Prelude.{◌≡◌};
ghost use Rattle.answers.specs.Outcome.{number_of};
ghost use Rattle.plain.specs.Arrays.{remade};
ghost use Rattle.plain.specs.Pages.{taken_at, freed_at, offset_of};
ghost use Rattle.plain.specs.Mirror.{done_with, done_granted, done_refused, kept_taken, kept_freed, pages_done};

use answers::Refusal;
use plain::{Counts, Done, Extent, Kept, PageEntry};

// The entry of page j after the k pages from p on became a taken run.
#[tactic(auto, unfolding(plain::specs::Pages::taken_at, base::specs::Tests::pick))]
fn taken_at(p: u32, k: u32, j: u32, e: PageEntry) -> PageEntry
    ensures { result ≡ taken_at p k j e }
{
    if j == p {
        PageEntry {
            kind: 2,
            class: 0,
            run: k,
        }
    } else if p < j && (j as u64) < p as u64 + k as u64 {
        PageEntry {
            kind: 3,
            class: 0,
            run: 0,
        }
    } else {
        e
    }
}

// The entry of page j after they became free.
#[tactic(auto, unfolding(plain::specs::Pages::freed_at, plain::specs::Plain::free_entry, base::specs::Tests::pick))]
fn freed_at(p: u32, k: u32, j: u32, e: PageEntry) -> PageEntry
    ensures { result ≡ freed_at p k j e }
{
    if p <= j && (j as u64) < p as u64 + k as u64 {
        PageEntry {
            kind: 0,
            class: 0,
            run: 0,
        }
    } else {
        e
    }
}

fn all_taken(mut pages: [PageEntry; 12], p: u32, k: u32) -> [PageEntry; 12]
    ensures { result ≡ remade (taken_at p k) 0 pages }
{
    for (j, e) in pages.iter_mut().enumerate() {
        *e = taken_at(p, k, j as u32, *e);
    }
    pages
}

fn all_freed(mut pages: [PageEntry; 12], p: u32, k: u32) -> [PageEntry; 12]
    ensures { result ≡ remade (freed_at p k) 0 pages }
{
    for (j, e) in pages.iter_mut().enumerate() {
        *e = freed_at(p, k, j as u32, *e);
    }
    pages
}

// The k pages from p on become a taken run.
#[tactic(auto, unfolding(plain::specs::Mirror::kept_taken))]
fn take_pages(s: Kept, p: u32, k: u32) -> Kept
    ensures { result ≡ kept_taken s p k }
{
    Kept {
        pages: all_taken(s.pages, p, k),
        ..s
    }
}

// The k pages from p on become free.
#[tactic(auto, unfolding(plain::specs::Mirror::kept_freed))]
pub fn free_pages(s: Kept, p: u32, k: u32) -> Kept
    ensures { result ≡ kept_freed s p k }
{
    Kept {
        pages: all_freed(s.pages, p, k),
        ..s
    }
}

// ---- answers

// The table of free runs stays.
#[tactic(auto, unfolding(plain::specs::Mirror::done_granted))]
pub fn grant(s: Kept, value: u32) -> Done
    ensures { result ≡ done_granted s value }
{
    Done {
        after: s,
        number: 0,
        value,
        first: 0,
        len: 0,
    }
}

// The k pages from p on leave the table of free runs or come back.
#[tactic(auto, unfolding(plain::specs::Mirror::done_with))]
pub fn grant_with(s: Kept, value: u32, p: u32, k: u32) -> Done
    ensures { result ≡ done_with s value p k }
{
    Done {
        after: s,
        number: 0,
        value,
        first: p,
        len: k,
    }
}

#[tactic(auto, unfolding(plain::specs::Mirror::done_refused))]
pub fn refuse(s: Kept, number: u8) -> Done
    ensures { result ≡ done_refused s number }
{
    Done {
        after: s,
        number,
        value: 0,
        first: 0,
        len: 0,
    }
}

pub fn refuse_as(s: Kept, why: Refusal) -> Done
    ensures { result ≡ done_refused s (number_of why) }
{
    refuse(s, u8::from(why))
}

// The bytes of p pages, which is also where page p begins.
#[tactic(auto, unfolding(plain::specs::Pages::offset_of, plain::specs::Table::wrap))]
pub fn offset_of(p: u32) -> u32
    ensures { result ≡ offset_of p }
{
    p.wrapping_mul(4096)
}

fn grant_run(s: Kept, p: u32, k: u32) -> Done
    ensures { result ≡ done_with (kept_taken s p k) (offset_of p) p k }
{
    grant_with(take_pages(s, p, k), offset_of(p), p, k)
}

// Alloc of k pages from the run e; an empty place is none.
#[tactic(auto, unfolding(plain::specs::Mirror::pages_done, plain::specs::Table::is_vacant, base::specs::Tests::pick))]
pub fn alloc_from(s: Kept, k: u32, e: Extent) -> Done
    ensures { result ≡ pages_done s k e }
{
    if e.len == 0 {
        refuse_as(s, Refusal::NoRoom)
    } else {
        grant_run(s, e.first, k)
    }
}
