// Free on sound records: what begins at the offset is given back, and only the records that change are touched.
// `w` is the number of words of a class record, `pages` the pages of the pool.
#![tactic(auto)]

ghost use Rattle.std.specs.Prelude.{Ok, ◌≡◌, ◌*◌, ◌%◌, ◌≤◌, ◌<◌};
ghost use Rattle.answers.specs.Outcome.{granted, of_free};
ghost use Rattle.model.specs.Classes.{chunk, chunks};
ghost use Rattle.classes.specs.Mirror.{Whole};
ghost use Rattle.run_neighbours.specs.Mirror.{pages_released};
ghost use Rattle.free_sound.specs.Mirror.{Classed, chunk_outcome, chunk_slice, found_outcome, found_slice, free_outcome, free_slice};

use answers::{Offset, Refusal};
use locate::{ChunkAt, Found, RunAt};
use records::{PAGE, PageNumber};

// Gives back the block that begins at the offset (SPEC 4.7): its bytes, or the refusal.
pub fn free_sound(pool: &mut [u8], w: u8, pages: u16, at: Offset) -> Result<u32, Refusal>
    requires { Whole w pool.old pages }
    ensures answer { of_free result ≡ free_outcome w pool.old pages at.0 }
    ensures slice { pool.new ≡ free_slice w pool.old pages at.0 }
{
    let found = locate::locate(pool, w, pages, at)?;
    give(pool, w, pages, found)
}

fn give(pool: &mut [u8], w: u8, pages: u16, found: Found) -> Result<u32, Refusal>
    requires { Classed pages (Ok found) × Whole w pool.old pages }
    ensures answer { of_free result ≡ found_outcome w pool.old pages (Ok found) }
    ensures slice { pool.new ≡ found_slice w pool.old pages (Ok found) }
{
    match found {
        Found::Chunk(k) => give_chunk(pool, w, pages, k),
        Found::Run(r) => give_run(pool, w, pages, r),
    }
}

fn give_chunk(pool: &mut [u8], w: u8, pages: u16, k: ChunkAt) -> Result<u32, Refusal>
    requires { (k.class ≤ 8) × (k.page.0 < pages) × (k.index < chunks k.class) × Whole w pool.old pages }
    ensures answer { of_free result ≡ chunk_outcome w pool.old pages k.class k.page.0 (k.index % 512) }
    ensures slice { pool.new ≡ chunk_slice w pool.old pages k.class k.page.0 (k.index % 512) }
{
    let i = (k.index % 512) as u16;
    give_marked(pool, w, pages, k.class, k.page, i)
}

// Chunk i of page p, where it is taken.
fn give_marked(
    pool: &mut [u8],
    w: u8,
    pages: u16,
    c: u8,
    p: PageNumber,
    i: u16,
) -> Result<u32, Refusal>
    requires { (c ≤ 8) × (p.0 < pages) × (i < chunks c) × Whole w pool.old pages }
    ensures answer { of_free result ≡ chunk_outcome w pool.old pages c p.0 i }
    ensures slice { pool.new ≡ chunk_slice w pool.old pages c p.0 i }
{
    let k = map_places::map_word(w, pages, p, c);
    if !map_marks::get_mark_in(pool, k + (i / 64) as usize, i) {
        return Err(Refusal::NotTaken);
    }
    chunk_free::free_chunk(pool, w, pages, c, p, k, i);
    bytes_of(c)
}

// The bytes of a chunk, as an answer.
fn bytes_of(c: u8) -> Result<u32, Refusal>
    requires { c ≤ 8 }
    ensures { of_free result ≡ granted (chunk c) }
{
    Ok(sizes::chunk_size(c))
}

fn give_run(pool: &mut [u8], w: u8, pages: u16, r: RunAt) -> Result<u32, Refusal>
    ensures answer { of_free result ≡ granted (4096 * r.pages) }
    ensures slice { pool.new ≡ pages_released w pool.old pages r.page.0 r.pages }
{
    run_free::release(pool, w, pages, r.page, r.pages);
    Ok(PAGE * r.pages as u32)
}
