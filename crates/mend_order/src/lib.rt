// The neighbours of a page on its list, where lists stand in page order, found by search on a pool whose pages are well shaped.
// Lists are numbered as in `lists`. A search ends at its first hit, so that those of a list take as many steps as there are pages.
#![tactic(auto)]

ghost use Rattle.std.specs.Prelude.{◌≡◌, true, ◌+◌, ◌-◌, ◌≤◌, ◌<◌};
ghost use Rattle.base.specs.Tests.{pick};
ghost use Rattle.records.specs.Layout.{no_page};
ghost use Rattle.rules.specs.Fields.{class};
ghost use Rattle.rules.specs.Read.{is_head, open_at};
ghost use Rattle.rules.specs.Rules.{shape};
ghost use Rattle.rules.specs.Bytes.{pages_in, fields_of};
ghost use Rattle.validate_walk.specs.Mirror.{belongs};
ghost use Rattle.mending.specs.Mirror.{first_from, last_below, ends_run, next_anew, prev_anew, page_anew};

use records::{INSIDE_FREE, Links, NO_PAGE, PageNumber};

// The code of `validate_walk` in a function of its own, so that validation's is inlined.
fn on_list(pool: &[u8], w: u8, n: usize, list: u8, p: PageNumber) -> bool
    requires { (n ≡ pages_in w pool.now) × (n ≤ no_page) × (shape (fields_of w pool.now) n ≡ true) × (list ≤ 9) }
    ensures { result ≡ belongs (fields_of w pool.now) n list p.0 }
{
    if list == 0 {
        return validate_walk::is_head(pool, w, n, p);
    }
    validate_walk::is_open(pool, w, n, list - 1, p)
}

// The first of the k pages from a on that belongs on the list.
pub fn first_from(pool: &[u8], w: u8, n: usize, list: u8, a: u16, k: usize) -> PageNumber
    requires { (n ≡ pages_in w pool.now) × (n ≤ no_page) × (shape (fields_of w pool.now) n ≡ true) × (list ≤ 9) × (a + k ≤ no_page) }
    ensures { result.0 ≡ first_from (belongs (fields_of w pool.now) n list) a k }
{
    for at in a..a + k as u16 {
        if on_list(pool, w, n, list, PageNumber(at)) {
            return PageNumber(at);
        }
    }
    PageNumber(NO_PAGE)
}

// The last page below p that belongs on the list.
fn last_below(pool: &[u8], w: u8, n: usize, list: u8, p: u16) -> PageNumber
    requires { (n ≡ pages_in w pool.now) × (n ≤ no_page) × (shape (fields_of w pool.now) n ≡ true) × (list ≤ 9) }
    ensures { result.0 ≡ last_below (belongs (fields_of w pool.now) n list) p }
{
    for at in (0..p).rev() {
        if on_list(pool, w, n, list, PageNumber(at)) {
            return PageNumber(at);
        }
    }
    PageNumber(NO_PAGE)
}

// The page after p on the list, on which p stands.
fn next_on(pool: &[u8], w: u8, n: usize, list: u8, p: PageNumber) -> PageNumber
    requires { (n ≡ pages_in w pool.now) × (p.0 < n) × (n ≤ 4096) × (shape (fields_of w pool.now) n ≡ true) × (list ≤ 9) }
    ensures { result.0 ≡ first_from (belongs (fields_of w pool.now) n list) (p.0 + 1) (n - (p.0 + 1)) }
{
    let q = p.0 + 1;
    first_from(pool, w, n, list, q, n - q as usize)
}

// Where p is a page of class c with a clear mark.
fn class_next(pool: &[u8], w: u8, n: usize, c: u8, p: PageNumber) -> PageNumber
    requires { (n ≡ pages_in w pool.now) × (p.0 < n) × (n ≤ 4096) × (shape (fields_of w pool.now) n ≡ true) × (c ≤ 8) }
    ensures { result.0 ≡ pick (open_at (fields_of w pool.now) n c p.0) (first_from (open_at (fields_of w pool.now) n c) (p.0 + 1) (n - (p.0 + 1))) no_page }
{
    if validate_walk::is_open(pool, w, n, c, p) {
        return next_on(pool, w, n, c + 1, p);
    }
    PageNumber(NO_PAGE)
}

fn next_anew(pool: &[u8], w: u8, n: usize, p: PageNumber, c: u8) -> PageNumber
    requires { (n ≡ pages_in w pool.now) × (p.0 < n) × (n ≤ 4096) × (shape (fields_of w pool.now) n ≡ true) × (c ≡ class (fields_of w pool.now) p.0) × (c ≤ 8) }
    ensures { result.0 ≡ next_anew (fields_of w pool.now) n p.0 }
{
    if validate_walk::is_head(pool, w, n, p) {
        return next_on(pool, w, n, 0, p);
    }
    class_next(pool, w, n, c, p)
}

// Whether p is the last page of a free run of two or more.
fn ends_run(pool: &[u8], w: u8, n: usize, p: PageNumber) -> bool
    requires { n ≤ 4096 }
    ensures { result ≡ ends_run (fields_of w pool.now) n p.0 }
{
    if validate_fields::kind_of(pool, w, p) == INSIDE_FREE {
        return !validate_fields::kind_at(pool, w, n, INSIDE_FREE, p.0 as usize + 1);
    }
    false
}

// The first page of the free run that p ends.
fn run_start(pool: &[u8], w: u8, n: usize, p: PageNumber) -> PageNumber
    requires { (n ≡ pages_in w pool.now) × (n ≤ 4096) × (shape (fields_of w pool.now) n ≡ true) }
    ensures { result.0 ≡ pick (ends_run (fields_of w pool.now) n p.0) (last_below (is_head (fields_of w pool.now) n) p.0) no_page }
{
    if ends_run(pool, w, n, p) {
        return last_below(pool, w, n, 0, p.0);
    }
    PageNumber(NO_PAGE)
}

fn class_prev(pool: &[u8], w: u8, n: usize, c: u8, p: PageNumber) -> PageNumber
    requires { (n ≡ pages_in w pool.now) × (n ≤ 4096) × (shape (fields_of w pool.now) n ≡ true) × (c ≤ 8) }
    ensures { result.0 ≡ pick (open_at (fields_of w pool.now) n c p.0) (last_below (open_at (fields_of w pool.now) n c) p.0) (pick (ends_run (fields_of w pool.now) n p.0) (last_below (is_head (fields_of w pool.now) n) p.0) no_page) }
{
    if validate_walk::is_open(pool, w, n, c, p) {
        return last_below(pool, w, n, c + 1, p.0);
    }
    run_start(pool, w, n, p)
}

fn prev_anew(pool: &[u8], w: u8, n: usize, p: PageNumber, c: u8) -> PageNumber
    requires { (n ≡ pages_in w pool.now) × (n ≤ 4096) × (shape (fields_of w pool.now) n ≡ true) × (c ≡ class (fields_of w pool.now) p.0) × (c ≤ 8) }
    ensures { result.0 ≡ prev_anew (fields_of w pool.now) n p.0 }
{
    if validate_walk::is_head(pool, w, n, p) {
        return last_below(pool, w, n, 0, p.0);
    }
    class_prev(pool, w, n, c, p)
}

// The links of page p: kind, class and run length as they stand, next and previous by search.
pub fn page_anew(pool: &[u8], w: u8, n: usize, p: PageNumber) -> Links
    requires { (n ≡ pages_in w pool.now) × (p.0 < n) × (n ≤ 4096) × (shape (fields_of w pool.now) n ≡ true) }
    ensures { result ≡ page_anew (fields_of w pool.now) n p.0 }
{
    let l = validate_fields::links_of(pool, w, p);
    let next = next_anew(pool, w, n, p, l.class);
    let prev = prev_anew(pool, w, n, p, l.class);
    Links { next, prev, ..l }
}
