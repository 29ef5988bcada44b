// A whole list of offsets freed or none, for class records of w words: validated once, tried on the pool itself, taken back, then freed.
// The trial clears marks in place and takes one bit of each run's record, so that neither a copy of the pool nor any other memory is needed.
#![tactic(auto)]

ghost use Rattle.std.specs.Prelude.{◌≡◌, ◌≤◌, ◌<◌, length};
ghost use Rattle.answers.specs.Outcome.{number_of, granted};
ghost use Rattle.sound_pools.specs.Sound.{Validated};
ghost use Rattle.free_all_bytes.specs.FreeAll.{free_all_answered, free_all_outcome, freed_each, free_all_after};
ghost use Rattle.free_all_list.specs.Mirror.{completion_of};
ghost use Rattle.free_all.specs.Outcome.{of_free_all};

use answers::{Offset, Refusal};
use free_all_list::Stop;

// The first offset that could not be freed, by its place from 0. A list has fewer than 2^32 offsets before it: they are of live blocks.
#[derive(Clone, Copy)]
pub struct Failed {
    pub place: u32,
    pub refusal: Refusal,
}

// The refusal of the pool itself stands at the first place.
impl From<Refusal> for Failed {
    ghost from_gives = { λ r f. f ≡ record { place = 0; refusal = r } };

    fn from(refusal: Refusal) -> Failed {
        Failed { place: 0, refusal }
    }
}

// Gives back the blocks at all offsets, or none where single frees in that order would not all succeed.
pub fn free_all(pool: &mut [u8], w: u8, offsets: &[u32]) -> Result<u32, Failed>
    requires { 2 ≤ w }
    ensures answer { of_free_all result ≡ free_all_outcome w pool.old offsets.now }
    ensures slice { pool.new ≡ free_all_after w pool.old offsets.now }
{
    let pages = calls::sound_pages(pool, w)?;
    on_sound(pool, w, pages, offsets)
}

fn on_sound(pool: &mut [u8], w: u8, pages: u16, offsets: &[u32]) -> Result<u32, Failed>
    requires { Validated w pool.old pages }
    ensures answer { of_free_all result ≡ free_all_outcome w pool.old offsets.now }
    ensures slice { pool.new ≡ free_all_after w pool.old offsets.now }
{
    let t = free_all_list::try_list(pool, w, pages, offsets);
    let n = free_all_list::granted(t, offsets.len());
    free_all_list::take_back(pool, w, pages, offsets, n);
    finish(pool, w, pages, offsets, t)
}

// After the trial, with its marks taken back.
fn finish(
    pool: &mut [u8],
    w: u8,
    pages: u16,
    offsets: &[u32],
    t: Result<(), Stop>,
) -> Result<u32, Failed>
    requires { Validated w pool.old pages × (completion_of t ≡ free_all_answered w pool.old offsets.now) }
    ensures answer { of_free_all result ≡ free_all_outcome w pool.old offsets.now }
    ensures slice { pool.new ≡ free_all_after w pool.old offsets.now }
{
    match t {
        Ok(()) => free_whole(pool, w, pages, offsets),
        Err(x) => Err(failed_at(x)),
    }
}

fn failed_at(x: Stop) -> Failed
    requires { x.place < 4294967296 }
    ensures { result ≡ record { place = x.place; refusal = x.refusal } }
{
    Failed {
        place: x.place as u32,
        refusal: x.refusal,
    }
}

fn free_whole(pool: &mut [u8], w: u8, pages: u16, offsets: &[u32]) -> Result<u32, Failed>
    requires { Validated w pool.old pages × (length offsets.now < 4294967296) }
    ensures answer { of_free_all result ≡ granted (length offsets.now) }
    ensures slice { pool.new ≡ freed_each w pool.old offsets.now }
{
    free_each(pool, w, pages, offsets);
    Ok(offsets.len() as u32)
}

fn free_each(pool: &mut [u8], w: u8, pages: u16, offsets: &[u32])
    requires { Validated w pool.old pages }
    ensures { pool.new ≡ freed_each w pool.old offsets.now }
{
    for x in offsets {
        let _ = serve::free_sound(pool, w, pages, Offset(*x));
    }
}
