// Alloc on sound records, from the top: a size is nothing, a chunk of a class or a number of pages, a chunk is of the class list's
// first page or of a new one. `w` is the number of words of a class record, `pages` the pages of the pool.
#![tactic(auto)]

ghost use Rattle.std.specs.Prelude.{◌≡◌, ◌+◌, ◌*◌, ◌%◌, ◌<◌, ◌≤◌};
ghost use Rattle.answers.specs.Outcome.{granted, refused, of_alloc};
ghost use Rattle.answers.specs.declared.Refusal.TheVariants.{NoRoom};
ghost use Rattle.model.specs.Classes.{pages_for};
ghost use Rattle.sizes.specs.Mirror.{class_for};
ghost use Rattle.run_extents.specs.Mirror.{run_taken};
ghost use Rattle.classes.specs.Mirror.{Whole, chunk_refused};
ghost use Rattle.chunks.specs.Mirror.{page_cut};
ghost use Rattle.class_peaks.specs.Mirror.{peak_raised};
ghost use Rattle.alloc_sound.specs.Mirror.{chunk_outcome, chunk_slice, first_outcome, cut_outcome, cut_slice, new_outcome, new_slice, from_outcome, from_slice, class_outcome, class_slice, run_outcome, run_slice, pages_outcome, pages_slice, takes_chunk, runs_outcome, runs_slice, take_slice, peak_for, alloc_outcome, alloc_slice, outcome_of};

use answers::{Offset, Refusal};
use records::{LARGEST_CHUNK, NO_PAGE, PAGE, PageNumber};

// Blocks are passed up as their offset in a plain number, for which no field is packed and unpacked on the way; two numbers past every
// offset refuse.
const NOTHING_ASKED: u32 = 4294967294;

const NO_ROOM: u32 = 4294967295;

// Takes a block of at least `size` bytes (SPEC 4.4).
pub fn alloc_sound(pool: &mut [u8], w: u8, pages: u16, size: u32) -> Result<Offset, Refusal>
    requires { Whole w pool.old pages }
    ensures answer { of_alloc result ≡ alloc_outcome w pool.old pages size }
    ensures slice { pool.new ≡ alloc_slice w pool.old pages size }
{
    let x = take_block(pool, w, pages, size);
    allocated(x)
}

fn allocated(x: u32) -> Result<Offset, Refusal>
    ensures { of_alloc result ≡ outcome_of x }
{
    if x < NOTHING_ASKED {
        return Ok(Offset(x));
    }
    if x == NOTHING_ASKED {
        Err(Refusal::NothingAsked)
    } else {
        Err(Refusal::NoRoom)
    }
}

// Byte x of page p.
fn block(p: PageNumber, x: u32) -> u32
    requires { x ≤ 268435455 }
    ensures { outcome_of result ≡ granted (4096 * p.0 + x) }
{
    PAGE * p.0 as u32 + x
}

// ---- peaks, raised after, where the edition has them. `take` is called at one place, so that it is inlined

fn take_block(pool: &mut [u8], w: u8, pages: u16, size: u32) -> u32
    requires { Whole w pool.old pages }
    ensures answer { outcome_of result ≡ alloc_outcome w pool.old pages size }
    ensures slice { pool.new ≡ alloc_slice w pool.old pages size }
{
    let taken = take(pool, w, pages, size);
    raise_where_kept(pool, w, size);
    taken
}

fn raise_where_kept(pool: &mut [u8], w: u8, size: u32)
    ensures { pool.new ≡ peak_for w pool.old size }
{
    if 2 < w {
        raise_for(pool, w, size);
    }
}

// The peak of the size's class follows.
fn raise_for(pool: &mut [u8], w: u8, size: u32)
    ensures { pool.new ≡ peak_for w pool.old size }
{
    if size == 0 {
        return;
    }
    if size <= LARGEST_CHUNK {
        raise_small(pool, w, size);
    }
}

fn raise_small(pool: &mut [u8], w: u8, size: u32)
    requires { (1 ≤ size) × (size ≤ 2048) }
    ensures { pool.new ≡ peak_raised w pool.old (class_for size) }
{
    class_peaks::raise_peak(pool, w, sizes::class_for(size));
}

// ---- all but the peak

// A chunk of a page on the list is the usual way, and is short by itself: all else stands in a function of its own, called at two places and
// so not inlined.
fn take(pool: &mut [u8], w: u8, pages: u16, size: u32) -> u32
    requires { Whole w pool.old pages }
    ensures answer { outcome_of result ≡ alloc_outcome w pool.old pages size }
    ensures slice { pool.new ≡ take_slice w pool.old pages size }
{
    if takes_chunk(size) {
        alloc_small(pool, w, pages, size)
    } else {
        from_runs(pool, w, pages, size)
    }
}

// Both ends by one comparison: 0 wraps past every size.
fn takes_chunk(size: u32) -> bool
    ensures { result ≡ takes_chunk size }
{
    let x = std::num::wrapping_sub_u32(size, 1);
    x < LARGEST_CHUNK
}

// From the free runs: the first chunk of a new page, or whole pages. A size of 0 is refused here too.
fn from_runs(pool: &mut [u8], w: u8, pages: u16, size: u32) -> u32
    ensures answer { outcome_of result ≡ runs_outcome w pool.old pages size }
    ensures slice { pool.new ≡ runs_slice w pool.old pages size }
{
    if size == 0 {
        return NOTHING_ASKED;
    }
    if size <= LARGEST_CHUNK {
        new_chunk(pool, w, pages, size)
    } else {
        alloc_large(pool, w, pages, size)
    }
}

// ---- a chunk

fn alloc_small(pool: &mut [u8], w: u8, pages: u16, size: u32) -> u32
    requires { (1 ≤ size) × (size ≤ 2048) × Whole w pool.old pages }
    ensures answer { outcome_of result ≡ class_outcome w pool.old pages (class_for size) }
    ensures slice { pool.new ≡ class_slice w pool.old pages (class_for size) }
{
    let c = sizes::class_for(size);
    let p = record_class::get_first_in(pool, w, c);
    chunk_from(pool, w, pages, size, c, p)
}

// Of page p, the first on the list of class c, or of a new page where the list is empty. The test is against the page count, which says
// both that there is a page and that its record is whole.
fn chunk_from(pool: &mut [u8], w: u8, pages: u16, size: u32, c: u8, p: PageNumber) -> u32
    requires { (1 ≤ size) × (size ≤ 2048) × (c ≡ class_for size) × (c ≤ 8) × Whole w pool.old pages }
    ensures answer { outcome_of result ≡ from_outcome w pool.old pages c p.0 }
    ensures slice { pool.new ≡ from_slice w pool.old pages c p.0 }
{
    if p.0 < pages {
        chunk_of_page(pool, w, pages, c, p)
    } else {
        from_runs(pool, w, pages, size)
    }
}

// The lowest free chunk of page p.
fn chunk_of_page(pool: &mut [u8], w: u8, pages: u16, c: u8, p: PageNumber) -> u32
    requires { (c ≤ 8) × (p.0 < pages) × Whole w pool.old pages }
    ensures answer { outcome_of result ≡ chunk_outcome w pool.old pages c p.0 }
    ensures slice { pool.new ≡ chunk_slice w pool.old pages c p.0 }
{
    let i = chunk_alloc::alloc_chunk(pool, w, pages, c, p);
    let x = sizes::chunk_start(c, i);
    block(p, x)
}

fn new_chunk(pool: &mut [u8], w: u8, pages: u16, size: u32) -> u32
    requires { (1 ≤ size) × (size ≤ 2048) }
    ensures answer { outcome_of result ≡ new_outcome w pool.old pages (class_for size) }
    ensures slice { pool.new ≡ new_slice w pool.old pages (class_for size) }
{
    let c = sizes::class_for(size);
    new_page(pool, w, pages, c)
}

fn new_page(pool: &mut [u8], w: u8, pages: u16, c: u8) -> u32
    requires { c ≤ 8 }
    ensures answer { outcome_of result ≡ new_outcome w pool.old pages c }
    ensures slice { pool.new ≡ new_slice w pool.old pages c }
{
    let p = run_extents::first_fit(pool, w, pages, 1);
    cut_or_refuse(pool, w, pages, c, p)
}

fn cut_or_refuse(pool: &mut [u8], w: u8, pages: u16, c: u8, p: PageNumber) -> u32
    requires { c ≤ 8 }
    ensures answer { outcome_of result ≡ cut_outcome c p.0 }
    ensures slice { pool.new ≡ cut_slice w pool.old pages c p.0 }
{
    if p.0 == NO_PAGE {
        no_chunk(pool, w, c)
    } else {
        chunk_of_new_page(pool, w, pages, c, p)
    }
}

// A refused chunk is counted.
fn no_chunk(pool: &mut [u8], w: u8, c: u8) -> u32
    ensures answer { outcome_of result ≡ refused NoRoom }
    ensures slice { pool.new ≡ chunk_refused w pool.old c }
{
    class_counting::refuse_chunk(pool, w, c);
    NO_ROOM
}

// The first chunk past the map.
fn chunk_of_new_page(pool: &mut [u8], w: u8, pages: u16, c: u8, p: PageNumber) -> u32
    requires { c ≤ 8 }
    ensures answer { outcome_of result ≡ first_outcome c p.0 }
    ensures slice { pool.new ≡ page_cut w pool.old pages c p.0 }
{
    chunk_alloc::cut_page(pool, w, pages, c, p);
    let i = classes::own_count(c);
    let x = sizes::chunk_start(c, i);
    block(p, x)
}

// ---- whole pages

fn alloc_large(pool: &mut [u8], w: u8, pages: u16, size: u32) -> u32
    ensures answer { outcome_of result ≡ pages_outcome w pool.old pages (pages_for size) }
    ensures slice { pool.new ≡ pages_slice w pool.old pages (pages_for size) }
{
    let k = sizes::pages_for(size);
    run_of_pages(pool, w, pages, k)
}

// k pages, of the first run on the list that has as many.
fn run_of_pages(pool: &mut [u8], w: u8, pages: u16, k: u32) -> u32
    ensures answer { outcome_of result ≡ pages_outcome w pool.old pages k }
    ensures slice { pool.new ≡ pages_slice w pool.old pages k }
{
    let p = run_extents::first_fit(pool, w, pages, k);
    run_from(pool, w, k, p)
}

fn run_from(pool: &mut [u8], w: u8, k: u32, p: PageNumber) -> u32
    ensures answer { outcome_of result ≡ run_outcome p.0 }
    ensures slice { pool.new ≡ run_slice w pool.old k p.0 }
{
    if p.0 == NO_PAGE {
        return NO_ROOM;
    }
    run_at(pool, w, k, p)
}

fn run_at(pool: &mut [u8], w: u8, k: u32, p: PageNumber) -> u32
    ensures answer { outcome_of result ≡ granted (4096 * p.0) }
    ensures slice { pool.new ≡ run_taken w pool.old p.0 (k % 65536) }
{
    run_alloc::take_run(pool, w, p, (k % 65536) as u16);
    block(p, 0)
}
