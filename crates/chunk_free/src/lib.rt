// Chunks that come back, and pages of which the last one does. Where the map lies makes no branch: of frees in any order none would be
// foretold well.
// `w` is the number of words of a class record, `pages` the pages of the pool.
#![tactic(auto)]

ghost use Rattle.std.specs.Prelude.{◌≡◌, ◌+◌, ◌*◌, ◌/◌, ◌%◌, ◌≤◌, ◌<◌, false, length};
ghost use Rattle.records.specs.Layout.{counts_place, links_place};
ghost use Rattle.model.specs.Classes.{chunks};
ghost use Rattle.maps.specs.Bitmap.{with_mark};
ghost use Rattle.run_neighbours.specs.Mirror.{pages_released};
ghost use Rattle.classes.specs.Mirror.{count_page_back};
ghost use Rattle.chunks.specs.Mirror.{delisted, back_counted, freed_at};

use records::PageNumber;

// Chunk i of page p, which is taken, comes back. Its map begins with word k.
pub fn free_chunk(pool: &mut [u8], w: u8, pages: u16, c: u8, p: PageNumber, k: usize, i: u16)
    requires { (c ≤ 8) × (i < chunks c) × (k < 67108864) × (k + i / 64 < length pool.old / 8) × (counts_place w c < length pool.old / 8) × (links_place w p.0 < length pool.old / 8) }
    ensures { pool.new ≡ freed_at w pool.old pages c p.0 k i }
{
    if map_occupancy::last_taken(pool, k, c, i) {
        drop_page(pool, w, pages, c, p, k + (i / 64) as usize, i);
    } else {
        keep(pool, w, c, p, k + (i / 64) as usize, i);
    }
}

// Others stay taken. Word k has the mark.
fn keep(pool: &mut [u8], w: u8, c: u8, p: PageNumber, k: usize, i: u16)
    requires { (k < length pool.old / 8) × (counts_place w c < length pool.old / 8) × (links_place w p.0 < length pool.old / 8) }
    ensures { pool.new ≡ with_mark (back_counted w pool.old c p.0) (8 * k) (i % 64) false }
{
    class_lists::count_returned(pool, w, c, p);
    map_marks::put_mark_in(pool, k, i, false);
}

// The last chunk i of page p comes back: the page leaves the list and is released. Word k has the mark.
fn drop_page(pool: &mut [u8], w: u8, pages: u16, c: u8, p: PageNumber, k: usize, i: u16)
    requires { k < length pool.old / 8 }
    ensures { pool.new ≡ count_page_back w (with_mark (pages_released w (delisted w pool.old c p.0) pages p.0 1) (8 * k) (i % 64) false) c }
{
    class_lists::delist(pool, w, c, p);
    run_free::release(pool, w, pages, p, 1);
    map_marks::put_mark_in(pool, k, i, false);
    class_counting::count_page_back(pool, w, c);
}
