// Pages released: they join the free runs beside them, and the whole becomes the head of the list.
#![tactic(auto)]

ghost use Rattle.std.specs.Prelude.{◌≡◌, ◌+◌};
ghost use Rattle.run_extents.specs.Mirror.{wrap};
ghost use Rattle.run_neighbours.specs.Mirror.{more_free, run_unlinked, run_dropped, one_of, blanked, run_pushed, joined_run, pages_released};

use records::{FIRST_FREE, INSIDE_FREE, NO_PAGE, PageNumber};

fn sum(a: u16, b: u16, c: u16) -> u16
    ensures { result ≡ wrap (a + b + c) }
{
    a.wrapping_add(b).wrapping_add(c)
}

// Whether a run of n pages is there at all: its end or its first page is one page to blank.
fn one_of(n: u16) -> u16
    ensures { result ≡ one_of n }
{
    if n == 0 { 0 } else { 1 }
}

// The header counts k free pages more.
fn give_free(pool: &mut [u8], k: u16)
    ensures { pool.new ≡ more_free pool.old k }
{
    let h = record_header::get_header(pool);
    record_header::put_header(pool, records::free_to(h, h.free_pages.wrapping_add(k)));
}

fn unlink_run(pool: &mut [u8], w: u8, q: PageNumber)
    ensures { pool.new ≡ run_unlinked w pool.old q.0 }
{
    let l = record_page::get_links(pool, w, q);
    list_moves::unlink(pool, w, 0, l);
}

// The run of n pages that starts in page q leaves the list, where there is one.
fn drop_run(pool: &mut [u8], w: u8, n: u16, q: PageNumber)
    ensures { pool.new ≡ run_dropped w pool.old n q.0 }
{
    if n != 0 {
        unlink_run(pool, w, q);
    }
}

// The k pages from p on become pages inside a free run, and with them the last page of the run of a pages before them and the
// first of the run of b pages after them, where there are such.
fn blank(pool: &mut [u8], w: u8, p: PageNumber, k: u16, a: u16, b: u16)
    ensures { pool.new ≡ blanked w pool.old p.0 k a b }
{
    run_records::fill(
        pool,
        w,
        run_neighbours::before(p, one_of(a)),
        sum(one_of(a), k, one_of(b)),
        run_extents::plain_links(INSIDE_FREE, 0, PageNumber(NO_PAGE)),
    );
}

// A run of n pages from t on becomes the head of the list.
fn push_run(pool: &mut [u8], w: u8, t: PageNumber, n: u16)
    ensures { pool.new ≡ run_pushed w pool.old t.0 n }
{
    run_records::put_back(pool, w, t, n);
    list_moves::push_front(
        pool,
        w,
        0,
        t,
        run_extents::plain_links(FIRST_FREE, n, PageNumber(NO_PAGE)),
    );
}

fn join(pool: &mut [u8], w: u8, p: PageNumber, k: u16, a: u16, b: u16)
    ensures { pool.new ≡ joined_run w pool.old p.0 k a b }
{
    drop_run(pool, w, b, run_extents::after(p, k));
    drop_run(pool, w, a, run_neighbours::before(p, a));
    blank(pool, w, p, k, a, b);
    push_run(pool, w, run_neighbours::before(p, a), sum(a, k, b));
}

// The k pages from p on become free: they join the run right after and the run right before them, and the whole becomes the head of the list.
pub fn release(pool: &mut [u8], w: u8, pages: u16, p: PageNumber, k: u16)
    ensures { pool.new ≡ pages_released w pool.old pages p.0 k }
{
    let a = run_neighbours::left_len(pool, w, p);
    let b = run_neighbours::right_len(pool, w, pages, run_extents::after(p, k));
    give_free(pool, k);
    join(pool, w, p, k, a, b);
}
