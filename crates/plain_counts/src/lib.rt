// What a plain state has in use, counted from its pages and the bytes of their chunks.
#![tactic(auto)]

ghost use Rattle.std.specs.Prelude.{◌≡◌, ◌≤◌, ◌<◌, get_or};
ghost use Rattle.base.specs.Count.{count};
ghost use Rattle.model.specs.Classes.{own, chunks};
ghost use Rattle.plain.specs.Arrays.{remade};
ghost use Rattle.plain.specs.Plain.{free_entry, mark_of};
ghost use Rattle.plain_rules.specs.Counts.{free_page, of_class, hands_on, used_on_page, used_in, class_page, total_in, free_in, class_recounted};
ghost use Rattle.plain_rules.specs.Mirror.{kept_recounted};

use branchless::{both, one_if};
use plain::{Counts, Kept, PageEntry};

// ---- pages

// The entry of page p; a free one past the pages.
#[tactic(auto, using(plain::proofs::Loops::get_d_past), unfolding(plain::specs::Plain::free_entry))]
pub fn entry(pages: [PageEntry; 12], p: usize) -> PageEntry
    ensures { result ≡ get_or pages p free_entry }
{
    if p < 12 {
        pages[p]
    } else {
        PageEntry {
            kind: 0,
            class: 0,
            run: 0,
        }
    }
}

// Whether page p is one of the pages and free. The entry is read whole: where its kind is read in place, each copy of the pages is made in
// two pieces an entry.
#[tactic(auto, unfolding(plain_rules::specs::Counts::free_page, plain::specs::Plain::free_entry, base::specs::Tests::pick))]
pub fn is_free(pages: [PageEntry; 12], p: usize) -> bool
    ensures { result ≡ free_page pages p }
{
    p < 12 && entry(pages, p).kind == 0
}

#[tactic(auto, unfolding(plain_rules::specs::Counts::of_class, base::specs::Tests::pick))]
fn of_class(e: PageEntry, c: u8) -> bool
    ensures { result ≡ of_class c e }
{
    e.kind == 1 && e.class == c
}

#[tactic(auto, unfolding(plain_rules::specs::Counts::class_page))]
fn is_class(pages: [PageEntry; 12], c: u8, p: usize) -> bool
    ensures { result ≡ class_page pages c p }
{
    of_class(entry(pages, p), c)
}

// ---- chunks in callers' hands

#[tactic(auto, using(crate::proofs::Counting::counting), unfolding(plain_rules::specs::Counts::in_hands, plain_rules::specs::Counts::hands_on, base::specs::Tests::pick))]
fn hands_past(bytes: &[u8], p: usize, c: u8, n: usize, first: usize) -> u64
    requires { (p < 12) × (n ≡ chunks c) × (n ≤ 512) × (first ≡ own c) }
    ensures { (result ≡ hands_on c (mark_of bytes.now p c)) × (result ≤ 512) }
{
    let mut k: u64 = 0;
    for i in 0..n {
        k += one_if(both(first <= i, plain_chunks::is_marked(bytes, p, c, n, i)));
    }
    k
}

// The chunks of page p, of class c, that callers hold.
#[tactic(auto, using(crate::proofs::Counting::count_most))]
pub fn hands_on(bytes: &[u8], p: usize, c: u8) -> u64
    requires { p < 12 }
    ensures { (result ≡ hands_on c (mark_of bytes.now p c)) × (result ≤ 512) }
{
    let n = classes::chunk_count(c);
    let first = classes::own_count(c);
    hands_past(bytes, p, c, n as usize, first as usize)
}

// ---- used, total and free pages (rule 6)

#[tactic(auto, unfolding(plain_rules::specs::Counts::used_on_page, base::specs::Tests::pick))]
fn used_on_page(pages: [PageEntry; 12], bytes: &[u8], c: u8, p: usize) -> u64
    requires { p < 12 }
    ensures { (result ≡ used_on_page pages bytes.now c p) × (result ≤ 512) }
{
    if is_class(pages, c, p) {
        hands_on(bytes, p, c)
    } else {
        0
    }
}

#[tactic(auto, using(crate::proofs::Counting::counting), unfolding(plain_rules::specs::Counts::used_in))]
pub fn count_used(pages: [PageEntry; 12], bytes: &[u8], c: u8) -> u32
    ensures { result ≡ used_in pages bytes.now c }
{
    let mut k: u64 = 0;
    for p in 0..12 {
        k += used_on_page(pages, bytes, c, p);
    }
    k as u32
}

#[tactic(auto, using(crate::proofs::Counting::counting))]
fn count_class(pages: [PageEntry; 12], c: u8) -> u64
    ensures { (result ≡ count (class_page pages c) 12) × (result ≤ 12) }
{
    let mut k: u64 = 0;
    for p in 0..12 {
        k += one_if(is_class(pages, c, p));
    }
    k
}

#[tactic(auto, using(crate::proofs::Counting::total_fits), unfolding(plain_rules::specs::Counts::total_in))]
pub fn count_total(pages: [PageEntry; 12], c: u8) -> u32
    ensures { result ≡ total_in pages c }
{
    count_class(pages, c) as u32 * classes::total_count(c) as u32
}

#[tactic(auto, using(crate::proofs::Counting::counting), unfolding(plain_rules::specs::Counts::free_in))]
pub fn count_free(pages: [PageEntry; 12]) -> u32
    ensures { result ≡ free_in pages }
{
    let mut k: u64 = 0;
    for p in 0..12 {
        k += one_if(is_free(pages, p));
    }
    k as u32
}

// ---- the counts made afresh

#[tactic(auto, unfolding(plain_rules::specs::Counts::class_recounted))]
fn recount_class(pages: [PageEntry; 12], bytes: &[u8], c: u8, x: Counts) -> Counts
    ensures { result ≡ class_recounted pages bytes.now c x }
{
    Counts {
        used: count_used(pages, bytes, c),
        total: count_total(pages, c),
        ..x
    }
}

fn recount_all(pages: [PageEntry; 12], bytes: &[u8], mut counts: [Counts; 9]) -> [Counts; 9]
    ensures { result ≡ remade (class_recounted pages bytes.now) 0 counts }
{
    for (c, x) in counts.iter_mut().enumerate() {
        *x = recount_class(pages, bytes, c as u8, *x);
    }
    counts
}

// What is kept with its counts made afresh; asks and failures stay.
#[tactic(auto, unfolding(plain_rules::specs::Mirror::kept_recounted))]
pub fn recount(s: Kept, bytes: &[u8]) -> Kept
    ensures { result ≡ kept_recounted s bytes.now }
{
    Kept {
        counts: recount_all(s.pages, bytes, s.counts),
        free: count_free(s.pages),
        ..s
    }
}
