// The public calls. The first byte of a pool tells its edition, and with it the number of words of a class record (SPEC 2):
// each call is made for that width, a constant at each place, so that edition 1 does not pay for the other.
#![tactic(auto)]

ghost use Rattle.std.specs.Prelude.{◌≡◌, eqb, length, get_or};
ghost use Rattle.answers.specs.Outcome.{of_format, of_alloc, of_free, of_batch};
ghost use Rattle.model.specs.Calls.{Alloc, Free};
ghost use Rattle.rules.specs.Bytes.{broken_rule};
ghost use Rattle.demands.specs.Calls.{answered, after};
ghost use Rattle.demands.specs.Editions.{width_of, format_as_outcome, formatted_as};
ghost use Rattle.batch.specs.Batch.{batch_outcome, batch_pool, batch_answers};
ghost use Rattle.mending.specs.Checked.{check_outcome, mend_outcome, mended};
ghost use Rattle.free_all_bytes.specs.FreeAll.{free_all_outcome, free_all_after};
ghost use Rattle.free_all.specs.Outcome.{of_free_all};

use answers::{Offset, Refusal};
use free_all::Failed;

// Words of a class record.
pub const EDITION_1: u8 = 2;

pub const EDITION_2: u8 = 3;

pub fn is_second(pool: &[u8]) -> bool
    ensures { result ≡ eqb (get_or pool.now 0 0) 2 }
{
    cells::get_byte(pool, 0) == 2
}

// Makes a pool of the edition, of as many pages as the slice has room for: the page count, or the refusal. Page bytes and tail stay.
pub fn format(pool: &mut [u8], edition: u8) -> Result<u16, Refusal>
    ensures answer { of_format result ≡ format_as_outcome edition (length pool.old) }
    ensures slice { pool.new ≡ formatted_as edition pool.old }
{
    if edition == 1 {
        return format::format(pool, EDITION_1);
    }
    if edition == 2 {
        return format::format(pool, EDITION_2);
    }
    Err(Refusal::NotSound)
}

// The number of the first rule that the pool breaks; 0 where it is sound.
pub fn broken_rule(pool: &[u8]) -> u8
    ensures { result ≡ broken_rule (width_of pool.now) pool.now }
{
    if is_second(pool) {
        validate::broken_rule(pool, EDITION_2)
    } else {
        validate::broken_rule(pool, EDITION_1)
    }
}

// Takes a block of at least `size` bytes: its offset, or the refusal.
pub fn alloc(pool: &mut [u8], size: u32) -> Result<Offset, Refusal>
    ensures answer { of_alloc result ≡ answered (width_of pool.old) pool.old (Alloc size) }
    ensures slice { pool.new ≡ after (width_of pool.old) pool.old (Alloc size) }
{
    if is_second(pool) {
        calls::alloc(pool, EDITION_2, size)
    } else {
        calls::alloc(pool, EDITION_1, size)
    }
}

// Gives back the block that starts at the offset: the bytes released, or the refusal.
pub fn free(pool: &mut [u8], at: Offset) -> Result<u32, Refusal>
    ensures answer { of_free result ≡ answered (width_of pool.old) pool.old (Free at.0) }
    ensures slice { pool.new ≡ after (width_of pool.old) pool.old (Free at.0) }
{
    if is_second(pool) {
        calls::free(pool, EDITION_2, at)
    } else {
        calls::free(pool, EDITION_1, at)
    }
}

// Serves a list of request words under one validation, each on the pool that the one before left, and puts the words of their answers
// into a second slice (SPEC 12).
pub fn batch(pool: &mut [u8], requests: &[u64], answers: &mut [u64]) -> Result<(), Refusal>
    ensures answer { of_batch result ≡ batch_outcome (width_of pool.old) pool.old requests.now answers.old }
    ensures pool { pool.new ≡ batch_pool (width_of pool.old) pool.old requests.now answers.old }
    ensures answers { answers.new ≡ batch_answers (width_of pool.old) pool.old requests.now answers.old }
{
    if is_second(pool) {
        batch::batch(pool, EDITION_2, requests, answers)
    } else {
        batch::batch(pool, EDITION_1, requests, answers)
    }
}

// Whether the second slice is accepted as a mended copy of the first, whoever mended it (SPEC 14).
pub fn check_mended(damaged: &[u8], mended: &[u8]) -> Result<(), Refusal>
    ensures { of_batch result ≡ check_outcome (width_of damaged.now) damaged.now mended.now }
{
    if is_second(damaged) {
        check_mended::check_mended(damaged, mended, EDITION_2)
    } else {
        check_mended::check_mended(damaged, mended, EDITION_1)
    }
}

// Writes a mended copy of a damaged pool into a second slice: the page count, or the refusal (SPEC 14).
pub fn mend(damaged: &[u8], target: &mut [u8]) -> Result<u16, Refusal>
    ensures answer { of_format result ≡ mend_outcome (width_of damaged.now) damaged.now target.old }
    ensures slice { target.new ≡ mended (width_of damaged.now) damaged.now target.old }
{
    if is_second(damaged) {
        mend::mend(damaged, target, EDITION_2)
    } else {
        mend::mend(damaged, target, EDITION_1)
    }
}

// Gives back the blocks at all offsets of a list, or none where single frees in that order would not all succeed (SPEC 17).
pub fn free_all(pool: &mut [u8], offsets: &[u32]) -> Result<u32, Failed>
    ensures answer { of_free_all result ≡ free_all_outcome (width_of pool.old) pool.old offsets.now }
    ensures slice { pool.new ≡ free_all_after (width_of pool.old) pool.old offsets.now }
{
    if is_second(pool) {
        free_all::free_all(pool, EDITION_2, offsets)
    } else {
        free_all::free_all(pool, EDITION_1, offsets)
    }
}
