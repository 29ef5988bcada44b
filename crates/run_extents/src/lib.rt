// The free runs of a pool: first fit, and what records of runs are made of.
// Sums of page numbers and counts wrap, so that nothing is required; within a pool none does.
#![tactic(auto)]

ghost use Rattle.std.specs.Prelude.{◌≡◌, ◌+◌, ◌-◌};
ghost use Rattle.run_extents.specs.Mirror.{wrap, plain, fit_in};

use records::{Links, NO_PAGE, PageNumber};

// The page k pages after p.
pub fn after(p: PageNumber, k: u16) -> PageNumber
    ensures { result.0 ≡ wrap (p.0 + k) }
{
    PageNumber(p.0.wrapping_add(k))
}

// A page that is on no list.
pub fn plain_links(kind: u8, run: u16, prev: PageNumber) -> Links
    ensures { result ≡ plain kind run prev.0 }
{
    Links {
        kind,
        class: 0,
        run,
        next: PageNumber(NO_PAGE),
        prev,
    }
}

// The first page of the free-run list whose run has k pages or more; 65535 where there is none.
pub fn first_fit(pool: &[u8], w: u8, pages: u16, k: u32) -> PageNumber
    ensures { result.0 ≡ fit_in w pool.now pages k }
{
    let h = record_header::get_header(pool);
    let mut p = h.first_run;
    for _ in 0..pages {
        if p.0 == NO_PAGE {
            return PageNumber(NO_PAGE);
        }
        let l = record_page::get_links(pool, w, p);
        if k <= l.run as u32 {
            return p;
        }
        p = l.next;
    }
    PageNumber(NO_PAGE)
}
