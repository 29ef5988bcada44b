// Put, find and remove for class records of w words (SPEC 18): pool and directory are checked, then the request is served.
#![tactic(auto)]

ghost use Rattle.std.specs.Prelude.{◌≡◌, false, ◌≤◌, ◌<◌, length, set, Ok, IfOk, IfErr};
ghost use Rattle.answers.specs.Outcome.{of_alloc, of_free, granted};
ghost use Rattle.answers.specs.declared.Refusal.TheVariants.{NotSound, NoPlace, NotHeld};
ghost use Rattle.model.specs.Calls.{Free};
ghost use Rattle.demands.specs.Calls.{answered, after};
ghost use Rattle.sound_pools.specs.Sound.{Validated};
ghost use Rattle.keeper_words.specs.Words.{entry_of, entries};
ghost use Rattle.keeper_bytes.specs.Requests.{both_sound, put_left, place_of, find_left, remove_left};
ghost use Rattle.keeper_put.specs.Mirror.{Ready};
ghost use Rattle.keeper_calls.specs.Held.{of_find};
ghost use Rattle.keeper_calls.specs.Mirror.{slot_in, place_in, looked_up};

use answers::{Offset, Refusal};

// The most bytes of a record: its length has 16 bits.
const MOST_BYTES: usize = 65535;

// A record's place in the pool.
#[derive(Clone, Copy)]
pub struct RecordAt {
    pub offset: Offset,
    // in bytes
    pub len: u16,
}

// Stores the record under its key: the offset of its block, or the refusal. A record that was there is given back last.
pub fn put(
    pool: &mut [u8],
    w: u8,
    directory: &mut [u64],
    key: u16,
    bytes: &[u8],
) -> Result<Offset, Refusal>
    requires { 2 ≤ w }
    ensures answer { of_alloc result ≡ (put_left w pool.old directory.old key bytes.now).outcome }
    ensures pool { pool.new ≡ (put_left w pool.old directory.old key bytes.now).pool }
    ensures directory { directory.new ≡ (put_left w pool.old directory.old key bytes.now).words }
{
    let pages = both_sound(pool, w, directory)?;
    put_sound(pool, w, pages, directory, key, bytes)
}

fn put_sound(
    pool: &mut [u8],
    w: u8,
    pages: u16,
    directory: &mut [u64],
    key: u16,
    bytes: &[u8],
) -> Result<Offset, Refusal>
    requires { Ready w pool.old directory.old pages }
    ensures answer { of_alloc result ≡ (put_left w pool.old directory.old key bytes.now).outcome }
    ensures pool { pool.new ≡ (put_left w pool.old directory.old key bytes.now).pool }
    ensures directory { directory.new ≡ (put_left w pool.old directory.old key bytes.now).words }
{
    if bytes.len() == 0 {
        return Err(Refusal::NothingAsked);
    }
    if MOST_BYTES < bytes.len() {
        return Err(Refusal::WrongLength);
    }
    let i = place_for(directory, key)?;
    keeper_put::put_in(pool, w, pages, directory, i, key, bytes)
}

// The key's own place, or the first empty one.
fn place_for(directory: &[u64], key: u16) -> Result<usize, Refusal>
    ensures some { IfOk result (λ i. (i ≡ place_in directory.now key) × (i < length directory.now)) }
    ensures full { IfErr result (λ r. (length directory.now ≤ place_in directory.now key) × (r ≡ NoPlace)) }
{
    let i = keeper_words::slot(directory, key);
    if i < directory.len() {
        return Ok(i);
    }
    let empty = keeper_words::first_empty(directory);
    if empty < directory.len() {
        return Ok(empty);
    }
    Err(Refusal::NoPlace)
}

// The page count of a sound pool, where the directory on it is sound too.
fn both_sound(pool: &[u8], w: u8, directory: &[u64]) -> Result<u16, Refusal>
    requires { 2 ≤ w }
    ensures sound { IfOk result (λ pages. Ready w pool.now directory.now pages) }
    ensures unsound { IfErr result (λ r. (both_sound w pool.now directory.now ≡ false) × (r ≡ NotSound)) }
{
    let pages = calls::sound_pages(pool, w)?;
    if !keeper_room::directory_ok(pool, w, pages, directory) {
        return Err(Refusal::NotSound);
    }
    Ok(pages)
}

// Where the record of the key lies, or the refusal.
#[tactic(auto, using(crate::proofs::Served::find_unheld))]
pub fn find(pool: &[u8], w: u8, directory: &[u64], key: u16) -> Result<RecordAt, Refusal>
    requires { 2 ≤ w }
    ensures { of_find result ≡ (find_left w pool.now directory.now key).outcome }
{
    both_sound(pool, w, directory)?;
    look_up(directory, key)
}

fn look_up(directory: &[u64], key: u16) -> Result<RecordAt, Refusal>
    ensures { of_find result ≡ looked_up directory.now key }
{
    let i = held_in(directory, key)?;
    Ok(told_by(directory[i]))
}

// The place that holds the key.
fn held_in(directory: &[u64], key: u16) -> Result<usize, Refusal>
    ensures held { IfOk result (λ i. (i ≡ slot_in directory.now key) × (i < length directory.now)) }
    ensures unheld { IfErr result (λ r. (length directory.now ≤ slot_in directory.now key) × (r ≡ NotHeld)) }
{
    let i = keeper_words::slot(directory, key);
    if i < directory.len() {
        return Ok(i);
    }
    Err(Refusal::NotHeld)
}

fn told_by(word: u64) -> RecordAt
    ensures { of_find (Ok result) ≡ granted (place_of (entry_of word)) }
{
    RecordAt {
        offset: Offset(keeper_words::off_of(word)),
        len: keeper_words::len_of(word),
    }
}

// Gives the block of the key's record back and empties its place: the bytes released, or the refusal.
pub fn remove(pool: &mut [u8], w: u8, directory: &mut [u64], key: u16) -> Result<u32, Refusal>
    requires { 2 ≤ w }
    ensures answer { of_free result ≡ (remove_left w pool.old directory.old key).outcome }
    ensures pool { pool.new ≡ (remove_left w pool.old directory.old key).pool }
    ensures directory { directory.new ≡ (remove_left w pool.old directory.old key).words }
{
    let pages = both_sound(pool, w, directory)?;
    remove_sound(pool, w, pages, directory, key)
}

fn remove_sound(
    pool: &mut [u8],
    w: u8,
    pages: u16,
    directory: &mut [u64],
    key: u16,
) -> Result<u32, Refusal>
    requires { Ready w pool.old directory.old pages }
    ensures answer { of_free result ≡ (remove_left w pool.old directory.old key).outcome }
    ensures pool { pool.new ≡ (remove_left w pool.old directory.old key).pool }
    ensures directory { directory.new ≡ (remove_left w pool.old directory.old key).words }
{
    let i = held_in(directory, key)?;
    take_out(pool, w, pages, directory, i)
}

// Gives back the block of place i and empties the place.
fn take_out(
    pool: &mut [u8],
    w: u8,
    pages: u16,
    directory: &mut [u64],
    i: usize,
) -> Result<u32, Refusal>
    requires { Validated w pool.old pages × (i < length directory.old) }
    ensures answer { of_free result ≡ answered w pool.old (Free (entries directory.old i).off) }
    ensures pool { pool.new ≡ after w pool.old (Free (entries directory.old i).off) }
    ensures directory { directory.new ≡ set directory.old i 0 }
{
    let word = directory[i];
    directory[i] = 0;
    let off = keeper_words::off_of(word);
    serve::free_sound(pool, w, pages, Offset(off))
}
