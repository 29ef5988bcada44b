// One pass over the pages, a run or a class page at a time: rule 2, and what the other rules need to know of all pages, in eleven counters.
#![tactic(auto)]

ghost use Rattle.std.specs.Prelude.{◌≡◌, ℕ, ◌<◌, ◌≤◌, true, length, slice_index};
ghost use Rattle.records.specs.Layout.{no_page};
ghost use Rattle.records.specs.Page.{unpack_links};
ghost use Rattle.model.specs.Classes.{chunks, own};
ghost use Rattle.rules.specs.Rules.{rule2};
ghost use Rattle.rules.specs.Bytes.{pages_in, fields_of};
ghost use Rattle.validate_runs.specs.Mirror.{Border};
ghost use Rattle.validate_pages.specs.Mirror.{Counted, Here, Steps, ones_at, class_weight, strays, class_fault, add_at, class_added};

use records::{CLASS_PAGE, FIRST_FREE, FIRST_TAKEN, NO_PAGE, PageNumber};

// The eleven counters: one for each class, and these for free pages and for faults.
pub const FREE: usize = 9;

pub const FAULTS: usize = 10;

// Where the second and the third count of a counter begin.
pub const SECOND: u64 = 4294967296;

pub const THIRD: u64 = 281474976710656;

// Adds x to counter j.
pub fn add_at(t: &mut [u64; 11], j: usize, x: u64)
    requires { j < 11 }
    ensures { t.new ≡ add_at t.old j x }
{
    t[j] = t[j].wrapping_add(x);
}

// The set marks of page p of n, which has class c. A map in the record is read as `validate_slabs` reads it, so that the two are one load.
pub fn ones_of(pool: &[u8], w: u8, n: usize, p: PageNumber, c: u8) -> usize
    requires { (n ≡ pages_in w pool.now) × (p.0 < n) × (n ≤ no_page) }
    ensures answer { result ≡ ones_at w pool.now p.0 c }
    ensures bound { result ≤ 512 }
{
    if c < 3 {
        map_count::count_marks(pool, validate_fields::map_at(w, n, p, c), c)
    } else {
        u64::count_ones(validate_fields::map_of(pool, w, p)) as usize
    }
}

// What a page of class c with so many set marks adds to the counter of its class: chunks in use, a page, an open page.
pub fn class_weight(c: u8, ones: usize) -> u64
    requires { (c ≤ 8) × (ones ≤ 512) }
    ensures { result ≡ class_weight c ones }
{
    let own = classes::own_count(c);
    let chunks = classes::class_chunks(c);
    let used = ones.saturating_sub(own as usize) as u64;
    let open = branchless::one_if(ones < chunks as usize);
    used + SECOND + THIRD * open
}

// Whether the page is full and has links.
fn strays_of(c: u8, ones: usize, next: PageNumber, prev: PageNumber) -> bool
    requires { c ≤ 8 }
    ensures { result ≡ strays c ones next.0 prev.0 }
{
    let alone = branchless::both(next.0 == NO_PAGE, prev.0 == NO_PAGE);
    let chunks = classes::class_chunks(c);
    branchless::both(chunks as usize <= ones, !alone)
}

// What it adds to the counter of faults: a page not in use, a full page with links.
pub fn class_fault(c: u8, ones: usize, v: u64) -> u64
    requires { c ≤ 8 }
    ensures { result ≡ class_fault c ones (unpack_links v) }
{
    let l = record_page::unpack_links(v);
    let own = classes::own_count(c);
    let unused = branchless::one_if(ones <= own as usize);
    let stray = branchless::one_if(strays_of(c, ones, l.next, l.prev));
    unused + SECOND * stray
}

// The class page p, with the links of the word v.
fn add_class(pool: &[u8], w: u8, n: usize, p: PageNumber, v: u64, t: &mut [u64; 11])
    requires { (n ≡ pages_in w pool.now) × (p.0 < n) × (n ≤ no_page) × ((unpack_links v).class ≤ 8) }
    ensures { t.new ≡ class_added t.old (unpack_links v).class (ones_at w pool.now p.0 (unpack_links v).class) (unpack_links v) }
{
    let l = record_page::unpack_links(v);
    let c = l.class;
    let ones = ones_of(pool, w, n, p, c);
    add_at(t, c as usize, class_weight(c, ones));
    add_at(t, FAULTS, class_fault(c, ones, v));
}

// The free run that begins with page p, with the links of the word v; pass_taken and pass_class likewise.
fn pass_free(pool: &[u8], w: u8, n: usize, p: PageNumber, v: u64, t: &mut [u64; 11]) -> usize
    requires { Here w pool.now n p.0 (unpack_links v) × ((unpack_links v).kind ≡ 1) }
    ensures { Steps (fields_of w pool.now) n p.0 result t.old t.new }
{
    if !validate_runs::free_whole(pool, w, n, p, v) {
        return p.0 as usize;
    }
    let l = record_page::unpack_links(v);
    let k = l.run as usize;
    add_at(t, FREE, SECOND + k as u64);
    p.0 as usize + k
}

// Nothing of a taken run is counted.
fn pass_taken(pool: &[u8], w: u8, n: usize, p: PageNumber, v: u64, t: &mut [u64; 11]) -> usize
    requires { Here w pool.now n p.0 (unpack_links v) × ((unpack_links v).kind ≡ 3) }
    ensures { Steps (fields_of w pool.now) n p.0 result t.old t.new }
{
    if !validate_runs::taken_whole(pool, w, n, p, v) {
        return p.0 as usize;
    }
    let l = record_page::unpack_links(v);
    p.0 as usize + l.run as usize
}

fn pass_class(pool: &[u8], w: u8, n: usize, p: PageNumber, v: u64, t: &mut [u64; 11]) -> usize
    requires { Here w pool.now n p.0 (unpack_links v) × ((unpack_links v).kind ≡ 2) }
    ensures { Steps (fields_of w pool.now) n p.0 result t.old t.new }
{
    if !validate_slabs::class_page(pool, w, n, p) {
        return p.0 as usize;
    }
    add_class(pool, w, n, p, v, t);
    p.0 as usize + 1
}

// By the kind of page p. No page inside a run is met here, since runs are passed whole.
fn pass_kind(pool: &[u8], w: u8, n: usize, p: PageNumber, v: u64, t: &mut [u64; 11]) -> usize
    requires { Here w pool.now n p.0 (unpack_links v) × Border (fields_of w pool.now) n p.0 }
    ensures { Steps (fields_of w pool.now) n p.0 result t.old t.new }
{
    let l = record_page::unpack_links(v);
    let kind = l.kind;
    match kind {
        FIRST_FREE => pass_free(pool, w, n, p, v, t),
        CLASS_PAGE => pass_class(pool, w, n, p, v, t),
        FIRST_TAKEN => pass_taken(pool, w, n, p, v, t),
        _ => p.0 as usize,
    }
}

// Passes the run or the class page that begins with page p, and counts it: the page after it, or p where rule 2 is broken.
fn pass_next(pool: &[u8], w: u8, n: usize, p: PageNumber, t: &mut [u64; 11]) -> usize
    requires { (n ≡ pages_in w pool.now) × (p.0 < n) × (n ≤ 4096) × Border (fields_of w pool.now) n p.0 }
    ensures { Steps (fields_of w pool.now) n p.0 result t.old t.new }
{
    let v = validate_fields::packed_links(pool, w, p);
    if v % 512 != 0 {
        return p.0 as usize;
    }
    pass_kind(pool, w, n, p, v, t)
}

// Rule 2; where it holds, the counters are those of all pages. The first run or class page that breaks it ends the pass.
pub fn scan(pool: &[u8], w: u8, n: usize, t: &mut [u64; 11]) -> bool
    requires { (n ≡ pages_in w pool.now) × (n ≤ 4096) × (length t.old ≡ 11) × ((j : ℕ) → slice_index t.old j ≡ 0) }
    ensures answer { result ≡ rule2 (fields_of w pool.now) n }
    ensures counters { result ≡ true → Counted (fields_of w pool.now) n n t.new }
{
    let mut p = 0;
    while p < n {
        let at = p as u16;
        let q = pass_next(pool, w, n, PageNumber(at), t);
        if q == p {
            return false;
        }
        p = q;
    }
    true
}
