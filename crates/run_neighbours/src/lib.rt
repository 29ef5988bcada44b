// The free runs beside a page: how long the one is that starts there, and the one that ends right before it.
#![tactic(auto)]

ghost use Rattle.std.specs.Prelude.{◌≡◌, ◌-◌};
ghost use Rattle.run_neighbours.specs.Mirror.{len_from, run_from, right_len, len_to, run_to, left_len};

use records::{FIRST_FREE, INSIDE_FREE, Links, PageNumber};

// The page k pages before p.
pub fn before(p: PageNumber, k: u16) -> PageNumber
    ensures { result.0 ≡ p.0 - k }
{
    PageNumber(p.0.saturating_sub(k))
}

fn len_from(l: Links) -> u16
    ensures { result ≡ len_from l }
{
    if l.kind == FIRST_FREE { l.run } else { 0 }
}

fn run_from(pool: &[u8], w: u8, q: PageNumber) -> u16
    ensures { result ≡ run_from w pool.now q.0 }
{
    len_from(record_page::get_links(pool, w, q))
}

// The length of the free run that starts in page q; 0 where there is none.
pub fn right_len(pool: &[u8], w: u8, pages: u16, q: PageNumber) -> u16
    ensures { result ≡ right_len w pool.now pages q.0 }
{
    if q.0 < pages { run_from(pool, w, q) } else { 0 }
}

fn len_to(l: Links, p: PageNumber) -> u16
    ensures { result ≡ len_to l p.0 }
{
    if l.kind == FIRST_FREE {
        return 1;
    }
    if l.kind == INSIDE_FREE {
        return p.0.saturating_sub(l.prev.0);
    }
    0
}

fn run_to(pool: &[u8], w: u8, p: PageNumber) -> u16
    ensures { result ≡ run_to w pool.now p.0 }
{
    len_to(record_page::get_links(pool, w, before(p, 1)), p)
}

// The length of the free run that ends right before page p; 0 where there is none.
pub fn left_len(pool: &[u8], w: u8, p: PageNumber) -> u16
    ensures { result ≡ left_len w pool.now p.0 }
{
    if 0 < p.0 { run_to(pool, w, p) } else { 0 }
}
