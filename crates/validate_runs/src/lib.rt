// Rule 2 for free runs and taken runs, a run at a time: the pages after its first are told by their words.
#![tactic(auto)]

ghost use Rattle.std.specs.Prelude.{◌≡◌, ◌+◌, ◌≤◌, ◌<◌};
ghost use Rattle.records.specs.Layout.{no_page};
ghost use Rattle.records.specs.Page.{unpack_links};
ghost use Rattle.rules.specs.Rules.{ends_free, ends_taken};
ghost use Rattle.rules.specs.Bytes.{fields_of};
ghost use Rattle.validate_runs.specs.Mirror.{plain_at, plain_from, begins, last_plain, free_inside, free_rest, free_whole, taken_rest, taken_whole};

use records::{FIRST_FREE, INSIDE_TAKEN, NO_PAGE, PageNumber};

// The links of a page inside a free run, but for its last: next and previous none, the rest 0.
const FREE_LINKS: u64 = 2199023255040;
// Of the last page of the run that page 0 begins; previous is from bit 9 on.
const LAST_LINKS: u64 = 2198989701120;
// Of a page inside a taken run: kind 4, next and previous none, the rest 0.
const TAKEN_LINKS: u64 = 9223374235878030848;

// Whether the page at this place has the links of the word v and no map.
fn plain_at(pool: &[u8], w: u8, at: usize, v: u64) -> bool
    requires { at ≤ no_page }
    ensures { result ≡ plain_at w pool.now v at }
{
    let links = cells::get_word(pool, 2 + 9 * w as usize + 2 * at);
    let map = cells::get_word(pool, 1 + 9 * w as usize + 2 * at);
    branchless::both(links == v, map == 0)
}

// Whether the `count` pages from `start` on have: the first that has not ends the loop.
fn plain_from(pool: &[u8], w: u8, start: usize, count: usize, v: u64) -> bool
    requires { start + count ≤ 65536 }
    ensures { result ≡ plain_from w pool.now v start count }
{
    for i in 0..count {
        if !plain_at(pool, w, start + i, v) {
            return false;
        }
    }
    true
}

// Whether a run within the n pages begins with page p, which has the links of the word v: what free and taken runs have in common.
fn begins_run(pool: &[u8], w: u8, n: usize, p: PageNumber, v: u64) -> bool
    ensures { result ≡ begins w pool.now n p.0 (unpack_links v) }
{
    let l = record_page::unpack_links(v);
    let k = l.run as usize;
    let map = validate_fields::map_of(pool, w, p);
    branchless::all(&[l.class == 0, map == 0, 0 < k, p.0 as usize + k <= n])
}

// Whether no free page stands at x.
pub fn ends_free(pool: &[u8], w: u8, n: usize, x: usize) -> bool
    requires { n ≤ no_page }
    ensures { result ≡ ends_free (fields_of w pool.now) n x }
{
    if x < n {
        let q = x as u16;
        return FIRST_FREE < validate_fields::kind_of(pool, w, PageNumber(q));
    }
    true
}

// Whether the last of the k free pages from p on leads back to p, where there are two or more.
fn last_plain(pool: &[u8], w: u8, p: PageNumber, k: usize) -> bool
    requires { p.0 + k ≤ no_page }
    ensures { result ≡ last_plain w pool.now p.0 k }
{
    if 1 < k {
        let last = p.0 as usize + k - 1;
        return plain_at(pool, w, last, LAST_LINKS + 512 * p.0 as u64);
    }
    true
}

// The pages after the first.
fn free_inside(pool: &[u8], w: u8, p: PageNumber, k: usize) -> bool
    requires { p.0 + k ≤ no_page }
    ensures { result ≡ free_inside w pool.now p.0 k }
{
    if last_plain(pool, w, p, k) {
        plain_from(pool, w, p.0 as usize + 1, k.saturating_sub(2), FREE_LINKS)
    } else {
        false
    }
}

// And the page after the run.
fn free_rest(pool: &[u8], w: u8, n: usize, p: PageNumber, k: usize) -> bool
    requires { (n ≤ no_page) × (p.0 + k ≤ n) }
    ensures { result ≡ free_rest w pool.now n p.0 k }
{
    if ends_free(pool, w, n, p.0 as usize + k) {
        free_inside(pool, w, p, k)
    } else {
        false
    }
}

// Whether the free run that page p begins, with the links of the word v, keeps rule 2.
pub fn free_whole(pool: &[u8], w: u8, n: usize, p: PageNumber, v: u64) -> bool
    requires { n ≤ no_page }
    ensures { result ≡ free_whole w pool.now n p.0 (unpack_links v) }
{
    let l = record_page::unpack_links(v);
    if begins_run(pool, w, n, p, v) {
        free_rest(pool, w, n, p, l.run as usize)
    } else {
        false
    }
}

// Whether no page inside a taken run stands at x.
pub fn ends_taken(pool: &[u8], w: u8, n: usize, x: usize) -> bool
    requires { n ≤ no_page }
    ensures { result ≡ ends_taken (fields_of w pool.now) n x }
{
    if x < n {
        let q = x as u16;
        return validate_fields::kind_of(pool, w, PageNumber(q)) != INSIDE_TAKEN;
    }
    true
}

fn taken_rest(pool: &[u8], w: u8, n: usize, p: PageNumber, k: usize) -> bool
    requires { (n ≤ no_page) × (0 < k) × (p.0 + k ≤ n) }
    ensures { result ≡ taken_rest w pool.now n p.0 k }
{
    if ends_taken(pool, w, n, p.0 as usize + k) {
        plain_from(pool, w, p.0 as usize + 1, k - 1, TAKEN_LINKS)
    } else {
        false
    }
}

// Whether the taken run that page p begins, with the links of the word v, keeps rule 2.
pub fn taken_whole(pool: &[u8], w: u8, n: usize, p: PageNumber, v: u64) -> bool
    requires { n ≤ no_page }
    ensures { result ≡ taken_whole w pool.now n p.0 (unpack_links v) }
{
    let l = record_page::unpack_links(v);
    let begins = begins_run(pool, w, n, p, v);
    if branchless::all(&[begins, l.next.0 == NO_PAGE, l.prev.0 == NO_PAGE]) {
        taken_rest(pool, w, n, p, l.run as usize)
    } else {
        false
    }
}
