// The operations on the ten lists: a page leaves its list, comes in front of it, or takes the place of another.
#![tactic(auto)]

ghost use Rattle.std.specs.Prelude.{◌≡◌};
ghost use Rattle.lists.specs.Mirror.{unlinked, pushed_before, pushed, replaced};

use records::{Links, NO_PAGE, PageNumber};

// The page with the links l leaves the list.
pub fn unlink(pool: &mut [u8], w: u8, list: u8, l: Links)
    ensures { pool.new ≡ unlinked w pool.old list l }
{
    list_links::put_next(pool, w, list, l.prev, l.next);
    list_links::put_prev(pool, w, l.next, l.prev);
}

fn push_before(pool: &mut [u8], w: u8, list: u8, p: PageNumber, l: Links, h: PageNumber)
    ensures { pool.new ≡ pushed_before w pool.old list p.0 l h.0 }
{
    record_page::put_links(
        pool,
        w,
        p,
        list_links::between_pages(l, PageNumber(NO_PAGE), h),
    );
    list_links::put_prev(pool, w, h, p);
    list_heads::put_first(pool, w, list, p);
}

// Page p, with the kind, class and run of l, comes in front of the list.
pub fn push_front(pool: &mut [u8], w: u8, list: u8, p: PageNumber, l: Links)
    ensures { pool.new ≡ pushed w pool.old list p.0 l }
{
    let h = list_heads::first(pool, w, list);
    push_before(pool, w, list, p, l, h);
}

// Page p, with the kind, class and run of l, takes the place of the page with the links old.
pub fn replace(pool: &mut [u8], w: u8, list: u8, old: Links, p: PageNumber, l: Links)
    ensures { pool.new ≡ replaced w pool.old list old p.0 l }
{
    record_page::put_links(pool, w, p, list_links::between_pages(l, old.prev, old.next));
    list_links::put_next(pool, w, list, old.prev, p);
    list_links::put_prev(pool, w, old.next, p);
}
