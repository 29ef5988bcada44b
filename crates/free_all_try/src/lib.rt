// What a free of one offset answers after frees that only left marks: chunks with their marks cleared, flagged runs.
// `locate` knows neither marks nor flags, nor that an emptied page would be free.
// `w` is the number of words of a class record, `pages` the pages of the pool.
#![tactic(auto)]

ghost use Rattle.std.specs.Prelude.{◌≡◌, Ok};
ghost use Rattle.base.specs.Tests.{all_below};
ghost use Rattle.maps.specs.Bitmap.{mark};
ghost use Rattle.rules.specs.Bytes.{map_base};
ghost use Rattle.classes.specs.Mirror.{Whole};
ghost use Rattle.free_all_try.specs.Mirror.{held_at, unheld_at, emptied, flagged, first_kind, inner_flagged, kind_released, released, off_start, refused_tried, run_tried, chunk_tried, found_tried, offset_tried};

use answers::{Offset, Refusal};
use locate::Found;
use records::{CLASS_PAGE, FIRST_TAKEN, Links, PAGE, PageNumber};

pub fn try_offset(pool: &[u8], w: u8, pages: u16, at: Offset) -> Result<(), Refusal>
    requires { Whole w pool.now pages }
    ensures { result ≡ offset_tried w pool.now pages at.0 }
{
    let x = at.0;
    let p = PageNumber((x / PAGE % 65536) as u16);
    match locate::locate(pool, w, pages, at) {
        Ok(found) => try_found(pool, w, pages, p, found),
        Err(r) => try_refused(pool, w, pages, p, r),
    }
}

fn try_found(pool: &[u8], w: u8, pages: u16, p: PageNumber, found: Found) -> Result<(), Refusal>
    ensures { result ≡ found_tried w pool.now pages p.0 (Ok found) }
{
    match found {
        Found::Chunk(k) => {
            let i = (k.index % 512) as u16;
            try_chunk(pool, w, pages, k.class, k.page, i)
        }
        Found::Run(_) => try_run(pool, w, pages, p),
    }
}

// Chunk i of page p. Where its mark is clear it is free, or was given back before.
fn try_chunk(pool: &[u8], w: u8, pages: u16, c: u8, p: PageNumber, i: u16) -> Result<(), Refusal>
    ensures { result ≡ chunk_tried w pool.now pages c p.0 i }
{
    if is_marked(pool, w, pages, c, p, i) {
        Ok(())
    } else {
        Err(Refusal::NotTaken)
    }
}

fn is_marked(pool: &[u8], w: u8, pages: u16, c: u8, p: PageNumber, i: u16) -> bool
    ensures { result ≡ mark pool.now (map_base w pages p.0 c) i }
{
    map_marks::get_mark(pool, map_places::map_base(w, pages, p, c), i)
}

fn try_run(pool: &[u8], w: u8, pages: u16, p: PageNumber) -> Result<(), Refusal>
    ensures { result ≡ run_tried w pool.now pages p.0 }
{
    if is_flagged(pool, w, pages, p) {
        Err(Refusal::NotTaken)
    } else {
        Ok(())
    }
}

// A refusal stands, but for `NotAStart` in a page that would be free.
fn try_refused(pool: &[u8], w: u8, pages: u16, p: PageNumber, r: Refusal) -> Result<(), Refusal>
    ensures { result ≡ refused_tried w pool.now pages p.0 r }
{
    match r {
        Refusal::NotAStart => off_start(pool, w, pages, p),
        _ => Err(r),
    }
}

fn off_start(pool: &[u8], w: u8, pages: u16, p: PageNumber) -> Result<(), Refusal>
    ensures { result ≡ off_start w pool.now pages p.0 }
{
    if is_released(pool, w, pages, p) {
        Err(Refusal::NotTaken)
    } else {
        Err(Refusal::NotAStart)
    }
}

// ---- a page that is free once the granted offsets are; asked of refused offsets alone, so that a list is tried in linear time

fn is_released(pool: &[u8], w: u8, pages: u16, p: PageNumber) -> bool
    ensures { result ≡ released w pool.now pages p.0 }
{
    let l = record_page::get_links(pool, w, p);
    kind_released(pool, w, pages, p, l)
}

fn kind_released(pool: &[u8], w: u8, pages: u16, p: PageNumber, l: Links) -> bool
    ensures { result ≡ kind_released w pool.now pages p.0 l }
{
    if l.kind == CLASS_PAGE {
        return is_emptied(pool, w, pages, l.class, p);
    }
    if l.kind == FIRST_TAKEN {
        return is_flagged(pool, w, pages, p);
    }
    is_inner_flagged(pool, w, pages, p)
}

// Is the run that begins with page p given back? Its record's map field is 0 in a sound pool and has the flag in its first mark.
fn is_flagged(pool: &[u8], w: u8, pages: u16, p: PageNumber) -> bool
    ensures { result ≡ flagged w pool.now pages p.0 }
{
    is_marked(pool, w, pages, 3, p, 0)
}

fn is_inner_flagged(pool: &[u8], w: u8, pages: u16, p: PageNumber) -> bool
    ensures { result ≡ inner_flagged w pool.now pages p.0 }
{
    let first = first_kind(pool, w, p.0);
    is_flagged(pool, w, pages, PageNumber(first))
}

// The nearest first page of a taken run below page p.
fn first_kind(pool: &[u8], w: u8, p: u16) -> u16
    ensures { result ≡ first_kind w pool.now p }
{
    for i in (0..p).rev() {
        let l = record_page::get_links(pool, w, PageNumber(i));
        if l.kind == FIRST_TAKEN {
            return i;
        }
    }
    0
}

// Is no chunk of page p, which is of class c, in a caller's hands?
fn is_emptied(pool: &[u8], w: u8, pages: u16, c: u8, p: PageNumber) -> bool
    ensures { result ≡ emptied w pool.now pages c p.0 }
{
    let owned = classes::own_count(c);
    let n = classes::chunk_count(c);
    let base = map_places::map_base(w, pages, p, c);
    all_unheld(pool, base, owned, n)
}

// Is none of the n marks a caller's?
fn all_unheld(pool: &[u8], base: u32, owned: u16, n: u16) -> bool
    ensures { result ≡ all_below (unheld_at pool.now base owned) n }
{
    for i in 0..n {
        if !unheld_at(pool, base, owned, i) {
            return false;
        }
    }
    true
}

fn unheld_at(pool: &[u8], base: u32, owned: u16, i: u16) -> bool
    ensures { result ≡ unheld_at pool.now base owned i }
{
    !held_at(pool, base, owned, i)
}

// Is mark i a caller's? The first `owned` are the map's own.
fn held_at(pool: &[u8], base: u32, owned: u16, i: u16) -> bool
    ensures { result ≡ held_at pool.now base owned i }
{
    if i < owned {
        false
    } else {
        map_marks::get_mark(pool, base, i)
    }
}
