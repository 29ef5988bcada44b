// Alloc and free on bytes, for class records of w words: the records are validated, then the call is made.
#![tactic(auto)]

ghost use Rattle.std.specs.Prelude.{◌≡◌, ◌≢◌, ◌%◌, ◌≤◌, IfOk, IfErr};
ghost use Rattle.records.specs.Layout.{page_count};
ghost use Rattle.answers.specs.Outcome.{of_alloc, of_free};
ghost use Rattle.answers.specs.declared.Refusal.TheVariants.{NotSound};
ghost use Rattle.model.specs.Calls.{Alloc, Free};
ghost use Rattle.rules.specs.Bytes.{broken_rule};
ghost use Rattle.demands.specs.Calls.{answered, after};
ghost use Rattle.sound_pools.specs.Sound.{Validated};

use answers::{Offset, Refusal};

// The page count of a slice; no sound pool has more than 16 bits tell.
pub fn pages_in(w: u8, len: usize) -> u16
    ensures { result ≡ page_count w len % 65536 }
{
    (validate_length::page_count(w, len) % 65536) as u16
}

// The page count of a pool whose records are sound.
pub fn sound_pages(pool: &[u8], w: u8) -> Result<u16, Refusal>
    requires { 2 ≤ w }
    ensures sound { IfOk result (λ pages. Validated w pool.now pages) }
    ensures unsound { IfErr result (λ r. (broken_rule w pool.now ≢ 0) × (r ≡ NotSound)) }
{
    if !validate::validate(pool, w) {
        return Err(Refusal::NotSound);
    }
    Ok(pages_in(w, pool.len()))
}

// Takes a block of at least `size` bytes: its offset, or the refusal.
#[tactic(auto, using(crate::proofs::Refused::unsound_refused, crate::proofs::Refused::unsound_stays))]
pub fn alloc(pool: &mut [u8], w: u8, size: u32) -> Result<Offset, Refusal>
    requires { 2 ≤ w }
    ensures answer { of_alloc result ≡ answered w pool.old (Alloc size) }
    ensures slice { pool.new ≡ after w pool.old (Alloc size) }
{
    let pages = sound_pages(pool, w)?; // 3 comes before 10 and 4
    serve::alloc_sound(pool, w, pages, size)
}

// Gives back the block that starts at the offset: the bytes released, or the refusal.
#[tactic(auto, using(crate::proofs::Refused::unsound_refused, crate::proofs::Refused::unsound_stays))]
pub fn free(pool: &mut [u8], w: u8, at: Offset) -> Result<u32, Refusal>
    requires { 2 ≤ w }
    ensures answer { of_free result ≡ answered w pool.old (Free at.0) }
    ensures slice { pool.new ≡ after w pool.old (Free at.0) }
{
    let pages = sound_pages(pool, w)?; // 3 comes before 5, 6 and 7
    serve::free_sound(pool, w, pages, at)
}
