// The record keeper's public calls: records by key, in blocks of a pool (SPEC 18). The pool's first byte tells its edition, as in `pool`.
#![tactic(auto)]

ghost use Rattle.std.specs.Prelude.{◌≡◌, ◌+◌, ◌*◌};
ghost use Rattle.answers.specs.Outcome.{of_alloc, of_free};
ghost use Rattle.demands.specs.Editions.{width_of};
ghost use Rattle.keeper_bytes.specs.Requests.{put_left, find_left, remove_left};
ghost use Rattle.answer_words.specs.Word.{word_of};
ghost use Rattle.keeper_calls.specs.Held.{of_find};

use answers::{Offset, Refusal};
use keeper_calls::RecordAt;
use pool::{EDITION_1, EDITION_2};

// Stores the record under its key: the offset of its block, or the refusal. The new block is taken first, and the block of a record
// that stood under the key is given back last.
pub fn put(
    pool: &mut [u8],
    directory: &mut [u64],
    key: u16,
    bytes: &[u8],
) -> Result<Offset, Refusal>
    ensures answer { of_alloc result ≡ (put_left (width_of pool.old) pool.old directory.old key bytes.now).outcome }
    ensures pool { pool.new ≡ (put_left (width_of pool.old) pool.old directory.old key bytes.now).pool }
    ensures directory { directory.new ≡ (put_left (width_of pool.old) pool.old directory.old key bytes.now).words }
{
    if pool::is_second(pool) {
        keeper_calls::put(pool, EDITION_2, directory, key, bytes)
    } else {
        keeper_calls::put(pool, EDITION_1, directory, key, bytes)
    }
}

// Where the record of the key lies in the pool, or the refusal.
pub fn find(pool: &[u8], directory: &[u64], key: u16) -> Result<RecordAt, Refusal>
    ensures { of_find result ≡ (find_left (width_of pool.now) pool.now directory.now key).outcome }
{
    if pool::is_second(pool) {
        keeper_calls::find(pool, EDITION_2, directory, key)
    } else {
        keeper_calls::find(pool, EDITION_1, directory, key)
    }
}

// Gives the block of the key's record back and empties its place: the bytes released, or the refusal.
pub fn remove(pool: &mut [u8], directory: &mut [u64], key: u16) -> Result<u32, Refusal>
    ensures answer { of_free result ≡ (remove_left (width_of pool.old) pool.old directory.old key).outcome }
    ensures pool { pool.new ≡ (remove_left (width_of pool.old) pool.old directory.old key).pool }
    ensures directory { directory.new ≡ (remove_left (width_of pool.old) pool.old directory.old key).words }
{
    if pool::is_second(pool) {
        keeper_calls::remove(pool, EDITION_2, directory, key)
    } else {
        keeper_calls::remove(pool, EDITION_1, directory, key)
    }
}

// A find's answer as one word, for C and other languages: the length in bits 47 to 32, the offset in the low 32.
pub fn held_word(h: Result<RecordAt, Refusal>) -> u64
    ensures { result ≡ word_of (of_find h) }
{
    match h {
        Ok(r) => place_word(r),
        Err(x) => answer_words::refusal_word(x),
    }
}

fn place_word(r: RecordAt) -> u64
    ensures { result ≡ r.len * 4294967296 + r.offset.0 }
{
    r.len as u64 * 4294967296 + r.offset.0 as u64
}
