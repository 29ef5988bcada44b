// Rule 2 with next, previous and the nine zero bits set aside, a page at a time, and the counters of the pass over the pages:
// what can be told of a pool whose links are lost.
#![tactic(auto)]

ghost use Rattle.std.specs.Prelude.{◌≡◌, true, ℕ, ◌+◌, ◌-◌, ◌≤◌, ◌<◌, eqb, length, get_or};
ghost use Rattle.records.specs.Layout.{no_page};
ghost use Rattle.base.specs.Tests.{all_below};
ghost use Rattle.records.specs.Page.{unpack_links};
ghost use Rattle.rules.specs.Fields.{kind};
ghost use Rattle.rules.specs.Rules.{kind_from, run_fits, inside_free, first_free, class_page, first_taken, inside_taken, by_kind, shape_at, shape};
ghost use Rattle.rules.specs.Bytes.{pages_in, fields_of};
ghost use Rattle.validate_pages.specs.Mirror.{Counted, ones_at, class_added, page_added};

use records::{CLASS_PAGE, FIRST_FREE, FIRST_TAKEN, INSIDE_FREE, INSIDE_TAKEN, PageNumber};
use validate_pages::{FAULTS, FREE, SECOND};

fn kind_is(pool: &[u8], w: u8, p: usize, want: u8) -> bool
    requires { p ≤ no_page }
    ensures { result ≡ eqb (kind (fields_of w pool.now) p) want }
{
    let q = p as u16;
    validate_fields::kind_of(pool, w, PageNumber(q)) == want
}

// Whether the `count` pages from `start` on are of this kind: the first that is not ends the loop.
fn all_kind(pool: &[u8], w: u8, start: usize, want: u8, count: usize) -> bool
    requires { start + count ≤ 65536 }
    ensures { result ≡ all_below (kind_from (fields_of w pool.now) start want) count }
{
    for i in 0..count {
        if !kind_is(pool, w, start + i, want) {
            return false;
        }
    }
    true
}

// A run that does not fit is not walked.
fn run_fits(pool: &[u8], w: u8, n: usize, p: usize, k: usize, inner: u8) -> bool
    requires { (n ≤ no_page) × (p < n) × (k ≤ no_page) }
    ensures { result ≡ run_fits (fields_of w pool.now) n p k inner }
{
    if !branchless::both(0 < k, p + k <= n) {
        return false;
    }
    all_kind(pool, w, p + 1, inner, k - 1)
}

fn kind_before(pool: &[u8], w: u8, p: PageNumber) -> u8
    ensures { result ≡ kind (fields_of w pool.now) (p.0 - 1) }
{
    let q = (p.0 as usize).saturating_sub(1) as u16;
    validate_fields::kind_of(pool, w, PageNumber(q))
}

fn inside_free(pool: &[u8], w: u8, p: PageNumber) -> bool
    ensures { result ≡ inside_free (fields_of w pool.now) p.0 }
{
    let l = validate_fields::links_of(pool, w, p);
    let map = validate_fields::map_of(pool, w, p);
    let before = kind_before(pool, w, p);
    branchless::all(&[
        l.class == 0,
        l.run == 0,
        map == 0,
        0 < p.0,
        before <= FIRST_FREE,
    ])
}

fn first_free(pool: &[u8], w: u8, n: usize, p: PageNumber) -> bool
    requires { (n ≤ no_page) × (p.0 < n) }
    ensures { result ≡ first_free (fields_of w pool.now) n p.0 }
{
    let l = validate_fields::links_of(pool, w, p);
    let map = validate_fields::map_of(pool, w, p);
    let k = l.run as usize;
    let at = p.0 as usize;
    let fits = run_fits(pool, w, n, at, k, INSIDE_FREE);
    let ends = validate_runs::ends_free(pool, w, n, at + k);
    branchless::all(&[l.class == 0, map == 0, fits, ends])
}

fn first_taken(pool: &[u8], w: u8, n: usize, p: PageNumber) -> bool
    requires { (n ≤ no_page) × (p.0 < n) }
    ensures { result ≡ first_taken (fields_of w pool.now) n p.0 }
{
    let l = validate_fields::links_of(pool, w, p);
    let map = validate_fields::map_of(pool, w, p);
    let k = l.run as usize;
    let at = p.0 as usize;
    let fits = run_fits(pool, w, n, at, k, INSIDE_TAKEN);
    let ends = validate_runs::ends_taken(pool, w, n, at + k);
    branchless::all(&[l.class == 0, map == 0, fits, ends])
}

fn inside_taken(pool: &[u8], w: u8, p: PageNumber) -> bool
    ensures { result ≡ inside_taken (fields_of w pool.now) p.0 }
{
    let l = validate_fields::links_of(pool, w, p);
    let map = validate_fields::map_of(pool, w, p);
    let before = kind_before(pool, w, p);
    branchless::all(&[
        l.class == 0,
        l.run == 0,
        map == 0,
        0 < p.0,
        CLASS_PAGE < before,
    ])
}

fn of_kind(pool: &[u8], w: u8, n: usize, p: PageNumber, kind: u8) -> bool
    requires { (n ≡ pages_in w pool.now) × (p.0 < n) × (n ≤ no_page) }
    ensures { result ≡ by_kind kind (inside_free (fields_of w pool.now) p.0) (first_free (fields_of w pool.now) n p.0) (class_page (fields_of w pool.now) p.0) (first_taken (fields_of w pool.now) n p.0) (inside_taken (fields_of w pool.now) p.0) }
{
    match kind {
        INSIDE_FREE => inside_free(pool, w, p),
        FIRST_FREE => first_free(pool, w, n, p),
        CLASS_PAGE => validate_slabs::class_page(pool, w, n, p),
        FIRST_TAKEN => first_taken(pool, w, n, p),
        INSIDE_TAKEN => inside_taken(pool, w, p),
        _ => false,
    }
}

fn page_shaped(pool: &[u8], w: u8, n: usize, p: PageNumber) -> bool
    requires { (n ≡ pages_in w pool.now) × (p.0 < n) × (n ≤ no_page) }
    ensures { result ≡ shape_at (fields_of w pool.now) n p.0 }
{
    let kind = validate_fields::kind_of(pool, w, p);
    of_kind(pool, w, n, p, kind)
}

// The class page p, with the links of the word v: the code of `validate_pages` in a function of its own, so that validation's is inlined.
fn add_class(pool: &[u8], w: u8, n: usize, p: PageNumber, v: u64, t: &mut [u64; 11])
    requires { (n ≡ pages_in w pool.now) × (p.0 < n) × (n ≤ no_page) × ((unpack_links v).class ≤ 8) }
    ensures { t.new ≡ class_added t.old (unpack_links v).class (ones_at w pool.now p.0 (unpack_links v).class) (unpack_links v) }
{
    let l = record_page::unpack_links(v);
    let c = l.class;
    let ones = validate_pages::ones_of(pool, w, n, p, c);
    validate_pages::add_at(t, c as usize, validate_pages::class_weight(c, ones));
    validate_pages::add_at(t, FAULTS, validate_pages::class_fault(c, ones, v));
}

// Counts page p, which has the links of the word v.
fn add_page(pool: &[u8], w: u8, n: usize, p: PageNumber, v: u64, t: &mut [u64; 11])
    requires { (n ≡ pages_in w pool.now) × (p.0 < n) × (n ≤ no_page) × ((unpack_links v).kind ≡ 2 → (unpack_links v).class ≤ 8) }
    ensures { t.new ≡ page_added w pool.now t.old p.0 (unpack_links v) }
{
    let l = record_page::unpack_links(v);
    let kind = l.kind;
    if kind == INSIDE_FREE {
        validate_pages::add_at(t, FREE, 1);
        return;
    }
    if kind == FIRST_FREE {
        validate_pages::add_at(t, FREE, SECOND + 1);
        return;
    }
    if kind == CLASS_PAGE {
        add_class(pool, w, n, p, v, t);
        return;
    }
}

// Whether the pages are well shaped; where they are, the counters are those of all pages. The first page that is not ends the pass.
pub fn scan(pool: &[u8], w: u8, n: usize, t: &mut [u64; 11]) -> bool
    requires { (n ≡ pages_in w pool.now) × (n ≤ 4096) × (length t.old ≡ 11) × ((j : ℕ) → get_or t.old j 0 ≡ 0) }
    ensures answer { result ≡ shape (fields_of w pool.now) n }
    ensures counters { result ≡ true → Counted (fields_of w pool.now) n n t.new }
{
    for p in 0..n {
        let at = PageNumber(p as u16);
        if !page_shaped(pool, w, n, at) {
            return false;
        }
        let v = validate_fields::packed_links(pool, w, at);
        add_page(pool, w, n, at, v, t);
    }
    true
}
