// Walks along the lists of a pool whose pages are well shaped (rule 2, links set aside): with as many pages to come as belong on the list, a walk ends.
#![tactic(auto)]

ghost use Rattle.std.specs.Prelude.{◌≡◌, true, false, not, ◌/◌, ◌≤◌, ◌<◌, eqb};
ghost use Rattle.base.specs.Tests.{pick};
ghost use Rattle.records.specs.Layout.{no_page};
ghost use Rattle.rules.specs.Fields.{kind, class, next, prev};
ghost use Rattle.rules.specs.Read.{is_head, open_at};
ghost use Rattle.rules.specs.Rules.{shape, linked};
ghost use Rattle.rules.specs.Bytes.{pages_in, map_base, fields_of};
ghost use Rattle.map_occupancy.specs.Mirror.{is_full};
ghost use Rattle.validate_walk.specs.Mirror.{belongs};

use records::{CLASS_PAGE, FIRST_FREE, NO_PAGE, PageNumber};

fn next_of(pool: &[u8], w: u8, p: PageNumber) -> PageNumber
    ensures { result.0 ≡ next (fields_of w pool.now) p.0 }
{
    let l = validate_fields::links_of(pool, w, p);
    l.next
}

fn leads_back(pool: &[u8], w: u8, p: PageNumber, before: PageNumber) -> bool
    ensures { result ≡ eqb (prev (fields_of w pool.now) p.0) before.0 }
{
    let l = validate_fields::links_of(pool, w, p);
    l.prev.0 == before.0
}

// Whether p is the first page of a free run.
pub fn is_head(pool: &[u8], w: u8, n: usize, p: PageNumber) -> bool
    requires { n ≤ no_page }
    ensures { result ≡ is_head (fields_of w pool.now) n p.0 }
{
    if (p.0 as usize) < n {
        return validate_fields::kind_of(pool, w, p) == FIRST_FREE;
    }
    false
}

fn not_full(pool: &[u8], w: u8, n: usize, c: u8, p: PageNumber) -> bool
    requires { (p.0 < n) × (n ≤ no_page) }
    ensures { result ≡ not (is_full pool.now (map_base w n p.0 c / 8) c) }
{
    !map_occupancy::is_full(pool, validate_fields::map_at(w, n, p, c), c)
}

fn open_inside(pool: &[u8], w: u8, n: usize, c: u8, p: PageNumber) -> bool
    requires { (p.0 < n) × (n ≤ no_page) }
    ensures { result ≡ pick (pick (eqb (kind (fields_of w pool.now) p.0) 2) (eqb (class (fields_of w pool.now) p.0) c) false) (not (is_full pool.now (map_base w n p.0 c / 8) c)) false }
{
    let l = validate_fields::links_of(pool, w, p);
    if branchless::both(l.kind == CLASS_PAGE, l.class == c) {
        not_full(pool, w, n, c, p)
    } else {
        false
    }
}

// Whether p is a page of class c with a clear mark.
pub fn is_open(pool: &[u8], w: u8, n: usize, c: u8, p: PageNumber) -> bool
    requires { (n ≡ pages_in w pool.now) × (n ≤ no_page) × (c ≤ 8) × (shape (fields_of w pool.now) n ≡ true) }
    ensures { result ≡ open_at (fields_of w pool.now) n c p.0 }
{
    if (p.0 as usize) < n {
        return open_inside(pool, w, n, c, p);
    }
    false
}

fn on_list(pool: &[u8], w: u8, n: usize, list: u8, p: PageNumber) -> bool
    requires { (n ≡ pages_in w pool.now) × (n ≤ no_page) × (shape (fields_of w pool.now) n ≡ true) × (list ≤ 9) }
    ensures { result ≡ belongs (fields_of w pool.now) n list p.0 }
{
    if list == 0 {
        return is_head(pool, w, n, p);
    }
    is_open(pool, w, n, list - 1, p)
}

// Follows next from `first` over `count` pages that belong on the list, after which it ends.
pub fn follow(pool: &[u8], w: u8, n: usize, list: u8, count: usize, first: PageNumber) -> bool
    requires { (n ≡ pages_in w pool.now) × (n ≤ no_page) × (shape (fields_of w pool.now) n ≡ true) × (list ≤ 9) }
    ensures { result ≡ linked (belongs (fields_of w pool.now) n list) (next (fields_of w pool.now)) (prev (fields_of w pool.now)) count no_page first.0 }
{
    let mut before = PageNumber(NO_PAGE);
    let mut at = first;
    for _ in 0..count {
        if !on_list(pool, w, n, list, at) {
            return false;
        }
        if !leads_back(pool, w, at, before) {
            return false;
        }
        before = at;
        at = next_of(pool, w, at);
    }
    at.0 == NO_PAGE
}
