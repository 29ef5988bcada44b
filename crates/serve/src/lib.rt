// Requests on sound records, in one loop. The loop has the only calls of `alloc_sound::alloc_sound` and `free_sound::free_sound`, so that
// both are inlined into it; a single alloc or free is a list of one. `w` is the number of words of a class record, `pages` the pages of
// the pool.
#![tactic(auto)]

ghost use Rattle.std.specs.Prelude.{◌≡◌, ◌++◌, ◌≤◌, length, drop};
ghost use Rattle.answers.specs.Outcome.{of_alloc, of_free};
ghost use Rattle.answer_words.specs.Word.{word_of};
ghost use Rattle.classes.specs.Mirror.{Whole};
ghost use Rattle.alloc_sound.specs.Mirror.{alloc_outcome, alloc_slice};
ghost use Rattle.free_sound.specs.Mirror.{free_outcome, free_slice};
ghost use Rattle.serve.specs.Mirror.{served_word, served_slice, served_words, served_all, allocated_in, freed_in};

use answers::{Offset, Refusal};

// One in the upper half of a word, which says what is asked; the lower half has the size or the offset.
const HALF: u64 = 4294967296;

// An upper half that asks for an alloc.
const ALLOC: u64 = 0;

// An upper half that asks for a free: the top bit alone.
const FREE: u64 = 2147483648;

// The word that asks for a free at offset 0.
const FREE_AT: u64 = 9223372036854775808;

// ---- a list of requests

// Serves all requests in order, each on the pool that the one before left.
pub fn serve_all(pool: &mut [u8], w: u8, pages: u16, requests: &[u64], answers: &mut [u64])
    requires { Whole w pool.old pages × (length requests.now ≤ length answers.old) }
    ensures pool { pool.new ≡ served_all w pages pool.old requests.now }
    ensures answers { answers.new ≡ served_words w pages pool.old requests.now ++ drop (length requests.now) answers.old }
{
    for i in 0..requests.len() {
        answers[i] = serve(pool, w, pages, requests[i]);
    }
}

// Serves one request word and answers the word of its answer (SPEC 12.1).
fn serve(pool: &mut [u8], w: u8, pages: u16, word: u64) -> u64
    requires { Whole w pool.old pages }
    ensures answer { result ≡ served_word w pages pool.old word }
    ensures slice { pool.new ≡ served_slice w pages pool.old word }
{
    let call = word / HALF;
    let low = (word % HALF) as u32;
    if call == ALLOC {
        return serve_alloc(pool, w, pages, low);
    }
    if call == FREE {
        return serve_free(pool, w, pages, low);
    }
    answer_words::refusal_word(Refusal::Unreadable)
}

fn serve_alloc(pool: &mut [u8], w: u8, pages: u16, size: u32) -> u64
    requires { Whole w pool.old pages }
    ensures answer { result ≡ word_of (alloc_outcome w pool.old pages size) }
    ensures slice { pool.new ≡ alloc_slice w pool.old pages size }
{
    answer_words::allocated_word(alloc_sound::alloc_sound(pool, w, pages, size))
}

fn serve_free(pool: &mut [u8], w: u8, pages: u16, offset: u32) -> u64
    requires { Whole w pool.old pages }
    ensures answer { result ≡ word_of (free_outcome w pool.old pages offset) }
    ensures slice { pool.new ≡ free_slice w pool.old pages offset }
{
    answer_words::freed_word(free_sound::free_sound(pool, w, pages, Offset(offset)))
}

// ---- a list of one

// Takes a block of at least `size` bytes (SPEC 4.4).
pub fn alloc_sound(pool: &mut [u8], w: u8, pages: u16, size: u32) -> Result<Offset, Refusal>
    requires { Whole w pool.old pages }
    ensures answer { of_alloc result ≡ alloc_outcome w pool.old pages size }
    ensures slice { pool.new ≡ alloc_slice w pool.old pages size }
{
    let x = serve_one(pool, w, pages, size as u64);
    allocated_in(x)
}

// Gives back the block that begins at the offset (SPEC 4.7): its bytes, or the refusal.
pub fn free_sound(pool: &mut [u8], w: u8, pages: u16, at: Offset) -> Result<u32, Refusal>
    requires { Whole w pool.old pages }
    ensures answer { of_free result ≡ free_outcome w pool.old pages at.0 }
    ensures slice { pool.new ≡ free_slice w pool.old pages at.0 }
{
    let x = serve_one(pool, w, pages, FREE_AT + at.0 as u64);
    freed_in(x)
}

fn serve_one(pool: &mut [u8], w: u8, pages: u16, word: u64) -> u64
    requires { Whole w pool.old pages }
    ensures answer { result ≡ served_word w pages pool.old word }
    ensures slice { pool.new ≡ served_slice w pages pool.old word }
{
    let requests = [word];
    let mut answers = [0];
    serve_all(pool, w, pages, &requests, &mut answers);
    answers[0]
}

// ---- an answer read back from its word: a value, or a refusal's number in the top byte

const NOTHING_ASKED: u64 = 720575940379279360;

const OUTSIDE: u64 = 360287970189639680;

const NOT_TAKEN: u64 = 432345564227567616;

fn allocated_in(x: u64) -> Result<Offset, Refusal>
    ensures { of_alloc result ≡ allocated_in x }
{
    if x < HALF {
        return Ok(Offset(x as u32));
    }
    if x == NOTHING_ASKED {
        Err(Refusal::NothingAsked)
    } else {
        Err(Refusal::NoRoom)
    }
}

fn freed_in(x: u64) -> Result<u32, Refusal>
    ensures { of_free result ≡ freed_in x }
{
    if x < HALF {
        return Ok(x as u32);
    }
    if x == OUTSIDE {
        return Err(Refusal::Outside);
    }
    if x == NOT_TAKEN {
        Err(Refusal::NotTaken)
    } else {
        Err(Refusal::NotAStart)
    }
}
