// The page records of a run.
#![tactic(auto)]

ghost use Rattle.std.specs.Prelude.{◌≡◌};
ghost use Rattle.run_extents.specs.Mirror.{filled, last_backed, backed};

use records::{INSIDE_FREE, Links, PageNumber};

// Gives the n pages from p on the links l.
pub fn fill(pool: &mut [u8], w: u8, p: PageNumber, n: u16, l: Links)
    ensures { pool.new ≡ filled w pool.old p.0 n l }
{
    for i in 0..n {
        record_page::put_links(pool, w, run_extents::after(p, i), l);
    }
}

fn put_last(pool: &mut [u8], w: u8, t: PageNumber, n: u16)
    ensures { pool.new ≡ last_backed w pool.old t.0 n }
{
    record_page::put_links(
        pool,
        w,
        run_extents::after(t, n.saturating_sub(1)),
        run_extents::plain_links(INSIDE_FREE, 0, t),
    );
}

// The last of the n pages from t on leads back to t.
pub fn put_back(pool: &mut [u8], w: u8, t: PageNumber, n: u16)
    ensures { pool.new ≡ backed w pool.old t.0 n }
{
    if 1 < n {
        put_last(pool, w, t, n);
    }
}
