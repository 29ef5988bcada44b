// Rule 2 for class pages.
#![tactic(auto)]

ghost use Rattle.std.specs.Prelude.{◌≡◌, ◌≤◌, ◌<◌};
ghost use Rattle.records.specs.Layout.{no_page};
ghost use Rattle.base.specs.Tests.{all_below};
ghost use Rattle.model.specs.Classes.{own};
ghost use Rattle.rules.specs.Rules.{map_fits, class_page};
ghost use Rattle.rules.specs.Bytes.{pages_in, mark_at, fields_of};
ghost use Rattle.validate_slabs.specs.Mirror.{map_holds};

use records::PageNumber;

// Whether the map's own chunks are marked: they have the top bits of its first word.
fn own_marked(pool: &[u8], w: u8, n: usize, p: PageNumber, c: u8) -> bool
    requires { (n ≡ pages_in w pool.now) × (p.0 < n) × (n ≤ no_page) }
    ensures { result ≡ all_below (mark_at w pool.now p.0 c) (own c) }
{
    let k = validate_fields::map_at(w, n, p, c);
    classes::own_word(c) <= cells::get_word_in(pool, k)
}

// A map in the page: its own chunks are marked, and the map field is 0.
fn paged_fits(pool: &[u8], w: u8, n: usize, p: PageNumber, c: u8) -> bool
    requires { (n ≡ pages_in w pool.now) × (p.0 < n) × (n ≤ no_page) × (c < 3) }
    ensures { result ≡ map_holds w pool.now p.0 c }
{
    let marked = own_marked(pool, w, n, p, c);
    let map = validate_fields::map_of(pool, w, p);
    branchless::both(marked, map == 0)
}

// A map in the record: no bit is set that the class does not use.
fn unused_clear(map: u64, c: u8) -> bool
    requires { 3 ≤ c }
    ensures { result ≡ map_fits map c }
{
    let n = classes::chunk_count(c);
    map % (9223372036854775808 >> (n - 1)) == 0
}

fn recorded_fits(pool: &[u8], w: u8, p: PageNumber, c: u8) -> bool
    requires { 3 ≤ c }
    ensures { result ≡ map_holds w pool.now p.0 c }
{
    unused_clear(validate_fields::map_of(pool, w, p), c)
}

fn map_holds(pool: &[u8], w: u8, n: usize, p: PageNumber, c: u8) -> bool
    requires { (n ≡ pages_in w pool.now) × (p.0 < n) × (n ≤ no_page) }
    ensures { result ≡ map_holds w pool.now p.0 c }
{
    if c < 3 {
        paged_fits(pool, w, n, p, c)
    } else {
        recorded_fits(pool, w, p, c)
    }
}

// Rule 2 at page p of n, which is a class page.
pub fn class_page(pool: &[u8], w: u8, n: usize, p: PageNumber) -> bool
    requires { (n ≡ pages_in w pool.now) × (p.0 < n) × (n ≤ no_page) }
    ensures { result ≡ class_page (fields_of w pool.now) p.0 }
{
    let l = validate_fields::links_of(pool, w, p);
    let c = l.class;
    let holds = map_holds(pool, w, n, p, c);
    branchless::all(&[c <= 8, l.run == 0, holds])
}
