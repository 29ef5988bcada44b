// Pages taken from the front of a free run.
#![tactic(auto)]

ghost use Rattle.std.specs.Prelude.{◌≡◌};
ghost use Rattle.run_extents.specs.Mirror.{fewer_free, rest_kept, front_cut, front_off, front_page, run_taken};

use records::{FIRST_FREE, FIRST_TAKEN, INSIDE_TAKEN, Links, NO_PAGE, PageNumber};

fn take_free(pool: &mut [u8], k: u16)
    ensures { pool.new ≡ fewer_free pool.old k }
{
    let h = record_header::get_header(pool);
    record_header::put_header(pool, records::free_to(h, h.free_pages.saturating_sub(k)));
}

// What is left of the run that starts in page p after its front k pages takes its place.
fn keep_rest(pool: &mut [u8], w: u8, p: PageNumber, k: u16, l: Links)
    ensures { pool.new ≡ rest_kept w pool.old p.0 k l }
{
    let t = run_extents::after(p, k);
    let n = l.run.saturating_sub(k);
    list_moves::replace(
        pool,
        w,
        0,
        l,
        t,
        run_extents::plain_links(FIRST_FREE, n, PageNumber(NO_PAGE)),
    );
    run_records::put_back(pool, w, t, n);
}

fn cut_front(pool: &mut [u8], w: u8, p: PageNumber, k: u16, l: Links)
    ensures { pool.new ≡ front_cut w pool.old p.0 k l }
{
    if k < l.run {
        keep_rest(pool, w, p, k, l);
    } else {
        list_moves::unlink(pool, w, 0, l);
    }
}

fn take_front(pool: &mut [u8], w: u8, p: PageNumber, k: u16)
    ensures { pool.new ≡ front_off w pool.old p.0 k }
{
    let l = record_page::get_links(pool, w, p);
    take_free(pool, k);
    cut_front(pool, w, p, k, l);
}

// The first page of the free run that starts in page p leaves it; the caller writes its record.
pub fn take_page(pool: &mut [u8], w: u8, p: PageNumber)
    ensures { pool.new ≡ front_page w pool.old p.0 }
{
    take_front(pool, w, p, 1);
}

// The front k pages of the free run that starts in page p become a taken run.
pub fn take_run(pool: &mut [u8], w: u8, p: PageNumber, k: u16)
    ensures { pool.new ≡ run_taken w pool.old p.0 k }
{
    take_front(pool, w, p, k);
    run_records::fill(
        pool,
        w,
        p,
        k,
        run_extents::plain_links(INSIDE_TAKEN, 0, PageNumber(NO_PAGE)),
    );
    record_page::put_links(
        pool,
        w,
        p,
        run_extents::plain_links(FIRST_TAKEN, k, PageNumber(NO_PAGE)),
    );
}
