// The lowest clear mark of a chunk map.
#![tactic(auto)]

ghost use Rattle.std.specs.Prelude.{◌≡◌, ◌+◌, ◌*◌, ◌/◌, ◌≤◌, ◌<◌, eqb, length};
ghost use Rattle.base.specs.Tests.{pick};
ghost use Rattle.maps.specs.Mirror.{lowest_clear};

// The lowest clear mark of a map of m words from word k on, or their 64 * m marks' number where all are set.
fn lowest_clear(pool: &[u8], k: usize, m: usize) -> u16
    requires { (k < 67108864) × (m ≤ 8) }
    ensures { result ≡ lowest_clear pool.now (8 * k) (64 * m) }
{
    if k + m <= pool.len() / 8 {
        by_words(pool, k, m)
    } else {
        by_bits(pool, 8 * k as u32, 64 * m as u16)
    }
}

// The same where the caller knows that word k is whole: most maps have a free chunk there.
pub fn lowest_paged(pool: &[u8], k: usize, m: usize) -> u16
    requires { (k < 67108864) × (1 ≤ m) × (m ≤ 8) × (k < length pool.now / 8) }
    ensures { result ≡ lowest_clear pool.now (8 * k) (64 * m) }
{
    let i = lowest_in(pool, k);
    if i < 64 { i } else { lowest_clear(pool, k, m) }
}

// A word at a time, where all words of the map lie in the slice: as many marks are set before the first clear one as the word turned over
// has leading zeros.
fn by_words(pool: &[u8], k: usize, m: usize) -> u16
    requires { (k + m ≤ length pool.now / 8) × (m ≤ 8) }
    ensures { result ≡ lowest_clear pool.now (8 * k) (64 * m) }
{
    for j in 0..m {
        let z = u64::leading_zeros(!cells::get_word_in(pool, k + j));
        if z < 64 {
            return (64 * j + z as usize) as u16;
        }
    }
    64 * m as u16
}

// The same of a map that is word k, where the caller knows that it is whole.
pub fn lowest_in(pool: &[u8], k: usize) -> u16
    requires { k < length pool.now / 8 }
    ensures { result ≡ lowest_clear pool.now (8 * k) 64 }
{
    u64::leading_zeros(!cells::get_word_in(pool, k)) as u16
}

// Bit by bit, where the last word of the map is cut off by the slice's end: bytes in order, bits from the top.
fn by_bits(pool: &[u8], base: u32, n: u16) -> u16
    ensures { result ≡ lowest_clear pool.now base n }
{
    let first = base as usize;
    let bytes = n / 8 + (n % 8 + 7) / 8;
    for j in 0..bytes {
        let b = cells::get_byte(pool, first + j as usize);
        for i in passed(b)..8 {
            if !map_marks::bit_at(b, i) {
                let hit = 8 * j + i;
                return hit.min(n);
            }
        }
    }
    n
}

// How many bits of a byte a search passes at once: all of a full one.
fn passed(b: u8) -> u16
    ensures { result ≡ pick (eqb b 255) 8 0 }
{
    if b == 255 { 8 } else { 0 }
}
