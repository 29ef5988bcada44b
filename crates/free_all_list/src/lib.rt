// A list of offsets tried on the pool itself, one after another, and taken back.
// `w` is the number of words of a class record, `pages` the pages of the pool.
#![tactic(auto)]

ghost use Rattle.std.specs.Prelude.{◌≡◌, ◌≤◌, length, take};
ghost use Rattle.classes.specs.Mirror.{Whole};
ghost use Rattle.free_all_list.specs.Mirror.{list_tried, list_marked, list_back, granted_of};

use answers::{Offset, Refusal};

// The first offset that is refused, by its place from 0.
#[derive(Clone, Copy)]
pub struct Stop {
    pub place: usize,
    pub refusal: Refusal,
}

// Tries the offsets in order and clears the marks of the granted ones, up to the first that is refused.
pub fn try_list(pool: &mut [u8], w: u8, pages: u16, offsets: &[u32]) -> Result<(), Stop>
    requires { Whole w pool.old pages }
    ensures answer { result ≡ list_tried w pool.old pages 0 offsets.now }
    ensures slice { pool.new ≡ list_marked w pool.old pages offsets.now }
{
    for (i, x) in offsets.iter().enumerate() {
        match free_all_try::try_offset(pool, w, pages, Offset(*x)) {
            Ok(()) => free_all_mark::put_offset(pool, w, pages, Offset(*x), false),
            Err(refusal) => return Err(Stop { place: i, refusal }),
        }
    }
    Ok(())
}

// How many of `n` offsets were granted.
pub fn granted(t: Result<(), Stop>, n: usize) -> usize
    ensures { result ≡ granted_of t n }
{
    match t {
        Ok(()) => n,
        Err(x) => x.place,
    }
}

// Sets the marks of the first n offsets again, the last first.
pub fn take_back(pool: &mut [u8], w: u8, pages: u16, offsets: &[u32], n: usize)
    requires { n ≤ length offsets.now }
    ensures { pool.new ≡ list_back w pool.old pages (take n offsets.now) }
{
    for i in (0..n).rev() {
        free_all_mark::put_offset(pool, w, pages, Offset(offsets[i]), true);
    }
}
