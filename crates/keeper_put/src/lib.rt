// A record stored in place i of a directory, on a sound pool and a sound directory: the new block, the copy, the word, the old block.
// `w` is the number of words of a class record, `pages` the pages of the pool.
#![tactic(auto)]

ghost use Rattle.std.specs.Prelude.{◌≡◌, ◌+◌, ◌≤◌, ◌<◌, length, set};
ghost use Rattle.records.specs.Layout.{pages_from};
ghost use Rattle.answers.specs.Outcome.{granted, of_alloc};
ghost use Rattle.classes.specs.Mirror.{Whole};
ghost use Rattle.model.specs.Calls.{Alloc};
ghost use Rattle.demands.specs.Calls.{answered};
ghost use Rattle.keeper_words.specs.Words.{word_of, entry_of, entries};
ghost use Rattle.keeper_bytes.specs.Requests.{record_laid, put_answered};
ghost use Rattle.keeper_put.specs.Mirror.{Ready, Putting, Roomy, old_given, stored_pool, stored_words};

use answers::{Offset, Refusal};

// A record's length has 16 bits, so that it fits an alloc's size.
pub fn put_in(
    pool: &mut [u8],
    w: u8,
    pages: u16,
    directory: &mut [u64],
    i: usize,
    key: u16,
    bytes: &[u8],
) -> Result<Offset, Refusal>
    requires { Ready w pool.old directory.old pages × Putting w pool.old directory.old i key bytes.now }
    ensures answer { of_alloc result ≡ (put_answered w pool.old directory.old i key bytes.now (answered w pool.old (Alloc (length bytes.now)))).outcome }
    ensures pool { pool.new ≡ (put_answered w pool.old directory.old i key bytes.now (answered w pool.old (Alloc (length bytes.now)))).pool }
    ensures directory { directory.new ≡ (put_answered w pool.old directory.old i key bytes.now (answered w pool.old (Alloc (length bytes.now)))).words }
{
    let size = bytes.len() as u32;
    let a = serve::alloc_sound(pool, w, pages, size);
    store(pool, w, pages, directory, i, key, bytes, a)
}

// As the pool has answered.
fn store(
    pool: &mut [u8],
    w: u8,
    pages: u16,
    directory: &mut [u64],
    i: usize,
    key: u16,
    bytes: &[u8],
    a: Result<Offset, Refusal>,
) -> Result<Offset, Refusal>
    requires { Whole w pool.old pages × (i < length directory.old) × (length bytes.now ≤ 65535) × Roomy (pages_from w pages) (length bytes.now) (length pool.old) a }
    ensures answer { of_alloc result ≡ of_alloc a }
    ensures pool { pool.new ≡ stored_pool w pool.old pages directory.old i bytes.now a }
    ensures directory { directory.new ≡ stored_words directory.old i key bytes.now a }
{
    match a {
        Ok(off) => store_at(pool, w, pages, directory, i, key, bytes, off),
        Err(x) => Err(x),
    }
}

// In the block at the offset: the copy, the word, and only then the old block.
fn store_at(
    pool: &mut [u8],
    w: u8,
    pages: u16,
    directory: &mut [u64],
    i: usize,
    key: u16,
    bytes: &[u8],
    off: Offset,
) -> Result<Offset, Refusal>
    requires { Whole w pool.old pages × (i < length directory.old) × (length bytes.now ≤ 65535) × (pages_from w pages + off.0 + length bytes.now ≤ length pool.old) }
    ensures answer { of_alloc result ≡ granted off.0 }
    ensures pool { pool.new ≡ old_given w (record_laid pool.old (pages_from w pages + off.0) bytes.now) pages (entries directory.old i) }
    ensures directory { directory.new ≡ set directory.old i (word_of (record { key = key; len = length bytes.now; off = off.0 })) }
{
    let at = place(w, pages, off.0);
    copying::copy(pool, at, bytes, 0, bytes.len());
    let old = directory[i];
    directory[i] = keeper_words::word_of(key, bytes.len() as u16, off.0);
    give_old(pool, w, pages, old);
    Ok(off)
}

// The byte of the slice at an offset.
fn place(w: u8, pages: u16, off: u32) -> usize
    ensures { result ≡ pages_from w pages + off }
{
    8 * (1 + 9 * w as usize + 2 * pages as usize) + off as usize
}

// Gives back the block of the record that the word tells, where it tells one.
fn give_old(pool: &mut [u8], w: u8, pages: u16, old: u64)
    requires { Whole w pool.old pages }
    ensures { pool.new ≡ old_given w pool.old pages (entry_of old) }
{
    if keeper_words::is_empty(old) {
        return;
    }
    let off = keeper_words::off_of(old);
    let _ = serve::free_sound(pool, w, pages, Offset(off));
}
