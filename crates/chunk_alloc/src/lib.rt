// Chunks handed out, of a page on a class list or of a new page.
// `w` is the number of words of a class record, `pages` the pages of the pool.
#![tactic(auto)]

ghost use Rattle.std.specs.Prelude.{◌≡◌, ◌+◌, ◌*◌, ◌/◌, ◌%◌, ◌≤◌, ◌<◌, true, length};
ghost use Rattle.records.specs.Layout.{tally_place};
ghost use Rattle.records.specs.Page.{links_at};
ghost use Rattle.maps.specs.Bitmap.{with_mark};
ghost use Rattle.maps.specs.Mirror.{lowest_clear};
ghost use Rattle.rules.specs.Bytes.{map_base};
ghost use Rattle.map_count.specs.Mirror.{map_bits};
ghost use Rattle.classes.specs.Mirror.{Whole, count_used, count_used_first};
ghost use Rattle.chunks.specs.Mirror.{set_aside, taken_at, chunk_taken, new_map_at, page_cut};

use records::PageNumber;

// Hands out the lowest free chunk of page p, the first on the list of class c, and answers its number. Where the map lies is asked once.
pub fn alloc_chunk(pool: &mut [u8], w: u8, pages: u16, c: u8, p: PageNumber) -> u16
    requires { (c ≤ 8) × (p.0 < pages) × Whole w pool.old pages }
    ensures answer { result ≡ lowest_clear pool.old (map_base w pages p.0 c) (map_bits c) }
    ensures slice { pool.new ≡ chunk_taken w pool.old pages c p.0 result }
{
    if c < 3 {
        alloc_paged(pool, w, pages, c, p)
    } else {
        alloc_recorded(pool, w, pages, c, p)
    }
}

// Where the map lies in the page.
fn alloc_paged(pool: &mut [u8], w: u8, pages: u16, c: u8, p: PageNumber) -> u16
    requires { (c < 3) × (p.0 < pages) × Whole w pool.old pages }
    ensures answer { result ≡ lowest_clear pool.old (map_base w pages p.0 c) (map_bits c) }
    ensures slice { pool.new ≡ chunk_taken w pool.old pages c p.0 result }
{
    let k = map_places::paged_word(w, pages, p, c);
    let i = map_search::lowest_paged(pool, k, map_occupancy::word_count(c));
    take_paged(pool, w, c, p, k, i);
    i
}

// Where it lies in the record.
fn alloc_recorded(pool: &mut [u8], w: u8, pages: u16, c: u8, p: PageNumber) -> u16
    requires { (3 ≤ c) × (c ≤ 8) × (p.0 < pages) × Whole w pool.old pages }
    ensures answer { result ≡ lowest_clear pool.old (map_base w pages p.0 c) (map_bits c) }
    ensures slice { pool.new ≡ chunk_taken w pool.old pages c p.0 result }
{
    let k = map_places::recorded_word(w, pages, p, c);
    let i = map_search::lowest_in(pool, k);
    take_recorded(pool, w, c, p, k, i);
    i
}

// Chunk i of page p, the first on the list of class c, is handed out; its map begins with word k.
fn take_paged(pool: &mut [u8], w: u8, c: u8, p: PageNumber, k: usize, i: u16)
    requires { (c < 3) × (k < 67108864) × (k + i / 64 < length pool.old / 8) × (tally_place w c < length pool.old / 8) }
    ensures { pool.new ≡ taken_at w pool.old c p.0 k i }
{
    if map_occupancy::last_free_paged(pool, k, c, i) {
        take_last(pool, w, c, p, k + (i / 64) as usize, i);
    } else {
        take(pool, w, c, k + (i / 64) as usize, i);
    }
}

fn take_recorded(pool: &mut [u8], w: u8, c: u8, p: PageNumber, k: usize, i: u16)
    requires { (3 ≤ c) × (k < length pool.old / 8) × (tally_place w c < length pool.old / 8) }
    ensures { pool.new ≡ taken_at w pool.old c p.0 k i }
{
    if map_occupancy::last_free_recorded(pool, k, c, i) {
        take_last(pool, w, c, p, k, i);
    } else {
        take(pool, w, c, k, i);
    }
}

// The last free chunk of page p, which leaves the list; word k has the mark.
fn take_last(pool: &mut [u8], w: u8, c: u8, p: PageNumber, k: usize, i: u16)
    requires { (k < length pool.old / 8) × (tally_place w c < length pool.old / 8) }
    ensures { pool.new ≡ with_mark (count_used_first w (set_aside w pool.old c p.0) c (links_at w pool.old p.0).next.0) (8 * k) (i % 64) true }
{
    let next = class_lists::set_aside(pool, w, c, p);
    class_counting::count_used_first(pool, w, c, next);
    map_marks::put_mark_in(pool, k, i, true);
}

fn take(pool: &mut [u8], w: u8, c: u8, k: usize, i: u16)
    requires { (k < length pool.old / 8) × (tally_place w c < length pool.old / 8) }
    ensures { pool.new ≡ with_mark (count_used w pool.old c) (8 * k) (i % 64) true }
{
    class_counting::count_used(pool, w, c);
    map_marks::put_mark_in(pool, k, i, true);
}

// Writes the whole map of page p, which is new: the map's own chunks and the first after them are taken.
fn open_map(pool: &mut [u8], w: u8, pages: u16, c: u8, p: PageNumber)
    ensures { pool.new ≡ new_map_at w pool.old pages c p.0 }
{
    map_new::write_map_at(
        pool,
        map_places::map_base(w, pages, p, c),
        classes::map_bytes(c),
        classes::own_count(c) + 1,
    );
}

// The first page of the free run that starts in page p becomes the only page on the list of class c, and its first chunk is handed out.
pub fn cut_page(pool: &mut [u8], w: u8, pages: u16, c: u8, p: PageNumber)
    ensures { pool.new ≡ page_cut w pool.old pages c p.0 }
{
    run_alloc::take_page(pool, w, p);
    class_lists::enlist(pool, w, c, p);
    open_map(pool, w, pages, c, p);
    class_counting::count_page_used(pool, w, c);
}
