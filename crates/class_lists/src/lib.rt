// The pages on the class lists: those with a free chunk.
// `w` is the number of words of a class record.
#![tactic(auto)]

ghost use Rattle.std.specs.Prelude.{◌≡◌, ◌/◌, ◌<◌, false, not, eqb, length};
ghost use Rattle.base.specs.Tests.{pick};
ghost use Rattle.records.specs.Layout.{no_page, counts_place, links_place};
ghost use Rattle.records.specs.Page.{links_at};
ghost use Rattle.classes.specs.Mirror.{count_back_first};
ghost use Rattle.chunks.specs.Mirror.{delisted, set_aside, set_before, enlisted, back_counted};

use records::{Links, NO_PAGE, PageNumber};

// Page p leaves the list of class c.
pub fn delist(pool: &mut [u8], w: u8, c: u8, p: PageNumber)
    ensures { pool.new ≡ delisted w pool.old c p.0 }
{
    let l = record_page::get_links(pool, w, p);
    list_moves::unlink(pool, w, chunks::list_of(c), l);
}

pub fn enlist(pool: &mut [u8], w: u8, c: u8, p: PageNumber)
    ensures { pool.new ≡ enlisted w pool.old c p.0 }
{
    list_moves::push_front(pool, w, chunks::list_of(c), p, chunks::class_links(c));
}

// ---- where a chunk is counted too: the class's first page stands in the word of its counts and is written with them

// Page p, the first on the list of class c, leaves it and stays a class page. Answers the page after it, which is to be the first.
pub fn set_aside(pool: &mut [u8], w: u8, c: u8, p: PageNumber) -> PageNumber
    ensures answer { result.0 ≡ (links_at w pool.old p.0).next.0 }
    ensures slice { pool.new ≡ set_aside w pool.old c p.0 }
{
    let l = record_page::get_links(pool, w, p);
    record_page::put_links(pool, w, p, chunks::class_links(c));
    list_links::put_prev(pool, w, l.next, PageNumber(NO_PAGE));
    l.next
}

// A chunk of page p comes back, and others of it stay taken. A page that was full is on no list and returns to its head: two links tell,
// and no map is looked at.
pub fn count_returned(pool: &mut [u8], w: u8, c: u8, p: PageNumber)
    requires { (links_place w p.0 < length pool.old / 8) × (counts_place w c < length pool.old / 8) }
    ensures { pool.new ≡ back_counted w pool.old c p.0 }
{
    let l = record_page::get_links_in(pool, w, p);
    let h = record_class::get_first_in(pool, w, c);
    if is_off(p, h, l) {
        put_back(pool, w, c, p, h);
    } else {
        class_counting::count_back(pool, w, c);
    }
}

// Page p, with the links l, is not on the list that begins with page h.
fn is_off(p: PageNumber, h: PageNumber, l: Links) -> bool
    ensures { result ≡ pick (eqb l.prev.0 no_page) (not (eqb h.0 p.0)) false }
{
    if l.prev.0 == NO_PAGE {
        h.0 != p.0
    } else {
        false
    }
}

// Page p comes in front of page h, the first on the list of class c.
fn put_back(pool: &mut [u8], w: u8, c: u8, p: PageNumber, h: PageNumber)
    requires { counts_place w c < length pool.old / 8 }
    ensures { pool.new ≡ count_back_first w (set_before w pool.old c p.0 h.0) c p.0 }
{
    put_before(pool, w, c, p, h);
    class_counting::count_back_first(pool, w, c, p);
}

fn put_before(pool: &mut [u8], w: u8, c: u8, p: PageNumber, h: PageNumber)
    ensures { pool.new ≡ set_before w pool.old c p.0 h.0 }
{
    let l = list_links::between_pages(chunks::class_links(c), PageNumber(NO_PAGE), h);
    record_page::put_links(pool, w, p, l);
    list_links::put_prev(pool, w, h, p);
}
