// The calls for C and other languages: a pool, a directory and a record are each a pointer and a length, a gauge is a struct by value,
// an answer one word.
#![tactic(auto)]

ghost use Rattle.std.specs.Prelude.{◌≡◌, length};
ghost use Rattle.answers.specs.Outcome.{number_of};
ghost use Rattle.model.specs.Calls.{Alloc, Free};
ghost use Rattle.rules.specs.Bytes.{broken_rule};
ghost use Rattle.demands.specs.Calls.{answered, after};
ghost use Rattle.demands.specs.Editions.{width_of, format_as_outcome, formatted_as};
ghost use Rattle.answer_words.specs.Word.{word_of};
ghost use Rattle.convert.specs.Convert.{convert_outcome, converted};
ghost use Rattle.batch.specs.Batch.{batch_outcome, batch_pool, batch_answers};
ghost use Rattle.mending.specs.Checked.{check_outcome, mend_outcome, mended};
ghost use Rattle.keeper_bytes.specs.Requests.{put_left, find_left, remove_left};
ghost use Rattle.gauge.specs.Gauge.{start_outcome, started, sample_outcome, sampled, trip_outcome};
ghost use Rattle.free_all_bytes.specs.FreeAll.{free_all_outcome, free_all_after};
ghost use Rattle.free_all.specs.Outcome.{of_free_all};

use answers::Offset;
use free_all::Failed;
use gauge::Gauge;
use gauge_words::GaugeReply;

// Makes a pool of an edition of a slice: the page count, or the refusal.
#[unsafe(no_mangle)]
pub extern "C" fn dnk_format(pool: &mut [u8], edition: u8) -> u64
    ensures answer { result ≡ word_of (format_as_outcome edition (length pool.old)) }
    ensures slice { pool.new ≡ formatted_as edition pool.old }
{
    answer_words::formatted_word(pool::format(pool, edition))
}

// The number of the first rule that the pool breaks; 0 where it is sound.
#[unsafe(no_mangle)]
pub extern "C" fn dnk_validate(pool: &[u8]) -> u64
    ensures { result ≡ broken_rule (width_of pool.now) pool.now }
{
    pool::broken_rule(pool) as u64
}

// Takes a block: its offset, or the refusal.
#[unsafe(no_mangle)]
pub extern "C" fn dnk_alloc(pool: &mut [u8], size: u32) -> u64
    ensures answer { result ≡ word_of (answered (width_of pool.old) pool.old (Alloc size)) }
    ensures slice { pool.new ≡ after (width_of pool.old) pool.old (Alloc size) }
{
    answer_words::allocated_word(pool::alloc(pool, size))
}

// Gives a block back: the bytes released, or the refusal.
#[unsafe(no_mangle)]
pub extern "C" fn dnk_free(pool: &mut [u8], offset: u32) -> u64
    ensures answer { result ≡ word_of (answered (width_of pool.old) pool.old (Free offset)) }
    ensures slice { pool.new ≡ after (width_of pool.old) pool.old (Free offset) }
{
    answer_words::freed_word(pool::free(pool, Offset(offset)))
}

// Serves a list of request words, with the words of their answers in a second list: 0, or the refusal.
#[unsafe(no_mangle)]
pub extern "C" fn dnk_batch(pool: &mut [u8], requests: &[u64], answers: &mut [u64]) -> u64
    ensures answer { result ≡ word_of (batch_outcome (width_of pool.old) pool.old requests.now answers.old) }
    ensures pool { pool.new ≡ batch_pool (width_of pool.old) pool.old requests.now answers.old }
    ensures answers { answers.new ≡ batch_answers (width_of pool.old) pool.old requests.now answers.old }
{
    answer_words::batched_word(pool::batch(pool, requests, answers))
}

// Gives back the blocks at all offsets of a list, or none: how many, or the refusal with the place of the first that fails.
#[unsafe(no_mangle)]
pub extern "C" fn dnk_free_all(pool: &mut [u8], offsets: &[u32]) -> u64
    ensures answer { result ≡ word_of (free_all_outcome (width_of pool.old) pool.old offsets.now) }
    ensures slice { pool.new ≡ free_all_after (width_of pool.old) pool.old offsets.now }
{
    freed_all_word(pool::free_all(pool, offsets))
}

fn freed_all_word(f: Result<u32, Failed>) -> u64
    ensures { result ≡ word_of (of_free_all f) }
{
    match f {
        Ok(n) => n as u64,
        Err(x) => failed_word(x),
    }
}

fn failed_word(x: Failed) -> u64
    ensures { result ≡ word_of (record { number = number_of x.refusal; value = x.place }) }
{
    answer_words::refusal_word(x.refusal) + x.place as u64
}

// Copies a pool of edition 1 into a second slice as edition 2: the page count, or the refusal.
#[unsafe(no_mangle)]
pub extern "C" fn dnk_convert(source: &[u8], target: &mut [u8]) -> u64
    ensures answer { result ≡ word_of (convert_outcome source.now target.old) }
    ensures slice { target.new ≡ converted source.now target.old }
{
    answer_words::formatted_word(convert::convert(source, target))
}

// Whether the second slice is accepted as a mended copy of the first: 0, or the refusal.
#[unsafe(no_mangle)]
pub extern "C" fn dnk_check_mended(damaged: &[u8], mended: &[u8]) -> u64
    ensures { result ≡ word_of (check_outcome (width_of damaged.now) damaged.now mended.now) }
{
    answer_words::batched_word(pool::check_mended(damaged, mended))
}

// Writes a mended copy of a damaged pool into a second slice: the page count, or the refusal.
#[unsafe(no_mangle)]
pub extern "C" fn dnk_mend(damaged: &[u8], target: &mut [u8]) -> u64
    ensures answer { result ≡ word_of (mend_outcome (width_of damaged.now) damaged.now target.old) }
    ensures slice { target.new ≡ mended (width_of damaged.now) damaged.now target.old }
{
    answer_words::formatted_word(pool::mend(damaged, target))
}

// Stores a record under a key: the offset of its block, or the refusal.
#[unsafe(no_mangle)]
pub extern "C" fn dnk_keeper_put(
    pool: &mut [u8],
    directory: &mut [u64],
    key: u16,
    bytes: &[u8],
) -> u64
    ensures answer { result ≡ word_of (put_left (width_of pool.old) pool.old directory.old key bytes.now).outcome }
    ensures pool { pool.new ≡ (put_left (width_of pool.old) pool.old directory.old key bytes.now).pool }
    ensures directory { directory.new ≡ (put_left (width_of pool.old) pool.old directory.old key bytes.now).words }
{
    answer_words::allocated_word(keeper::put(pool, directory, key, bytes))
}

// Where the record of a key lies, length and offset, or the refusal.
#[unsafe(no_mangle)]
pub extern "C" fn dnk_keeper_find(pool: &[u8], directory: &[u64], key: u16) -> u64
    ensures { result ≡ word_of (find_left (width_of pool.now) pool.now directory.now key).outcome }
{
    keeper::held_word(keeper::find(pool, directory, key))
}

// Gives the block of a key's record back and empties its place: the bytes released, or the refusal.
#[unsafe(no_mangle)]
pub extern "C" fn dnk_keeper_remove(pool: &mut [u8], directory: &mut [u64], key: u16) -> u64
    ensures answer { result ≡ word_of (remove_left (width_of pool.old) pool.old directory.old key).outcome }
    ensures pool { pool.new ≡ (remove_left (width_of pool.old) pool.old directory.old key).pool }
    ensures directory { directory.new ≡ (remove_left (width_of pool.old) pool.old directory.old key).words }
{
    answer_words::freed_word(keeper::remove(pool, directory, key))
}

// A gauge with this trip level, or the refusal.
#[unsafe(no_mangle)]
pub extern "C" fn dnk_gauge_start(level: f64) -> GaugeReply
    ensures answer { result.answer ≡ word_of (start_outcome level) }
    ensures gauge { result.gauge ≡ started level }
{
    gauge_words::gauged_reply(gauge_words::blank(), gauge::start(level))
}

// The gauge after one sample more, or the refusal and the gauge as it was.
#[unsafe(no_mangle)]
pub extern "C" fn dnk_gauge_sample(gauge: Gauge, count: u32) -> GaugeReply
    ensures answer { result.answer ≡ word_of (sample_outcome gauge count) }
    ensures gauge { result.gauge ≡ sampled gauge count }
{
    gauge_words::gauged_reply(gauge, gauge::sample(gauge, count))
}

// Whether the load is above the level, 1 or 0, or the refusal.
#[unsafe(no_mangle)]
pub extern "C" fn dnk_gauge_trips(gauge: Gauge) -> u64
    ensures { result ≡ word_of (trip_outcome gauge) }
{
    gauge_words::tripped_word(gauge::trips(gauge))
}
