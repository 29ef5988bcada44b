// The mark of one offset's block, or its run's flag, written: live or tentatively freed.
// `w` is the number of words of a class record, `pages` the pages of the pool.
#![tactic(auto)]

ghost use Rattle.std.specs.Prelude.{◌≡◌, ◌≤◌};
ghost use Rattle.model.specs.Classes.{chunk};
ghost use Rattle.free_all_mark.specs.Mirror.{sized_put, class_put, run_put, kind_put, page_put, offset_put};

use answers::Offset;
use records::{CLASS_PAGE, FIRST_TAKEN, Links, PAGE, PageNumber};

// For an offset in the pages.
pub fn put_offset(pool: &mut [u8], w: u8, pages: u16, at: Offset, live: bool)
    ensures { pool.new ≡ offset_put live w pool.old pages at.0 }
{
    let x = at.0;
    put_page(
        pool,
        w,
        pages,
        PageNumber((x / PAGE % 65536) as u16),
        x % PAGE,
        live,
    )
}

fn put_page(pool: &mut [u8], w: u8, pages: u16, p: PageNumber, q: u32, live: bool)
    ensures { pool.new ≡ page_put live w pool.old pages p.0 q }
{
    let l = record_page::get_links(pool, w, p);
    put_kind(pool, w, pages, p, q, l, live)
}

fn put_kind(pool: &mut [u8], w: u8, pages: u16, p: PageNumber, q: u32, l: Links, live: bool)
    ensures { pool.new ≡ kind_put live w pool.old pages p.0 q l }
{
    if l.kind == CLASS_PAGE {
        return put_class(pool, w, pages, l.class, p, q, live);
    }
    if l.kind == FIRST_TAKEN {
        put_run(pool, w, pages, p, live)
    }
}

fn put_run(pool: &mut [u8], w: u8, pages: u16, p: PageNumber, live: bool)
    ensures { pool.new ≡ run_put live w pool.old pages p.0 }
{
    let base = map_places::map_base(w, pages, p, 3);
    map_marks::put_mark(pool, base, 0, !live)
}

fn put_class(pool: &mut [u8], w: u8, pages: u16, c: u8, p: PageNumber, q: u32, live: bool)
    ensures { pool.new ≡ class_put live w pool.old pages c p.0 q }
{
    if c <= 8 {
        put_chunk(pool, w, pages, c, p, q, live)
    }
}

fn put_chunk(pool: &mut [u8], w: u8, pages: u16, c: u8, p: PageNumber, q: u32, live: bool)
    requires { c ≤ 8 }
    ensures { pool.new ≡ sized_put live w pool.old pages c p.0 q (chunk c) }
{
    let size = sizes::chunk_size(c);
    put_sized(pool, w, pages, c, p, q, size, live)
}

fn put_sized(
    pool: &mut [u8],
    w: u8,
    pages: u16,
    c: u8,
    p: PageNumber,
    q: u32,
    size: u32,
    live: bool,
)
    requires { 1 ≤ size }
    ensures { pool.new ≡ sized_put live w pool.old pages c p.0 q size }
{
    let base = map_places::map_base(w, pages, p, c);
    map_marks::put_mark(pool, base, (q / size % 65536) as u16, live)
}
