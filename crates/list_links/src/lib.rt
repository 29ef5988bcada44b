// The next and the previous page of a page on a list. They stand in the page records; before a list's first page stands the list itself.
#![tactic(auto)]

ghost use Rattle.std.specs.Prelude.{◌≡◌};
ghost use Rattle.lists.specs.Mirror.{between, linked_next, linked_prev, with_next, with_prev};

use records::{Links, NO_PAGE, PageNumber};

// The kind, class and run of l, between two pages.
pub fn between_pages(l: Links, prev: PageNumber, next: PageNumber) -> Links
    ensures { result ≡ between l prev.0 next.0 }
{
    Links { next, prev, ..l }
}

fn link_next(pool: &mut [u8], w: u8, p: PageNumber, v: PageNumber)
    ensures { pool.new ≡ linked_next w pool.old p.0 v.0 }
{
    let l = record_page::get_links(pool, w, p);
    record_page::put_links(pool, w, p, between_pages(l, l.prev, v));
}

fn link_prev(pool: &mut [u8], w: u8, p: PageNumber, v: PageNumber)
    ensures { pool.new ≡ linked_prev w pool.old p.0 v.0 }
{
    let l = record_page::get_links(pool, w, p);
    record_page::put_links(pool, w, p, between_pages(l, v, l.next));
}

// Makes v the page after p, and the list's first where p is no page.
pub fn put_next(pool: &mut [u8], w: u8, list: u8, p: PageNumber, v: PageNumber)
    ensures { pool.new ≡ with_next w pool.old list p.0 v.0 }
{
    if p.0 == NO_PAGE {
        list_heads::put_first(pool, w, list, v);
    } else {
        link_next(pool, w, p, v);
    }
}

// Makes v the page before p, where p is a page.
pub fn put_prev(pool: &mut [u8], w: u8, p: PageNumber, v: PageNumber)
    ensures { pool.new ≡ with_prev w pool.old p.0 v.0 }
{
    if p.0 != NO_PAGE {
        link_prev(pool, w, p, v);
    }
}
