// The marks of a chunk map, one at a time. A map is named by the place `base` of its first byte in the pool, wherever it lies: in the
// page record or at the start of the page.
#![tactic(auto)]

ghost use Rattle.std.specs.Prelude.{◌≡◌, ◌+◌, ◌*◌, ◌/◌, ◌%◌, ◌^◌, ◌<◌, true, false, length};
ghost use Rattle.maps.specs.Bitmap.{bit_of, mark, with_bit, with_mark};
ghost use Rattle.maps.specs.Mirror.{word_bit, with_word_bit};

// Bit i % 8 of a byte, from the top: is it set?
pub fn bit_at(b: u8, i: u16) -> bool
    ensures { result ≡ bit_of b (i % 8) }
{
    (b >> (7 - i % 8)) % 2 == 1
}

fn bit_put(b: u8, i: u16, set: bool) -> u8
    ensures { result ≡ with_bit b (i % 8) set }
{
    if set {
        b | (128 >> (i % 8))
    } else {
        b & !(128 >> (i % 8))
    }
}

// The place of the byte that holds mark i.
fn byte_of(base: u32, i: u16) -> usize
    ensures { result ≡ base + i / 8 }
{
    base as usize + (i / 8) as usize
}

// Is chunk i taken? A mark outside the pool reads clear.
pub fn get_mark(pool: &[u8], base: u32, i: u16) -> bool
    ensures { result ≡ mark pool.now base i }
{
    bit_at(cells::get_byte(pool, byte_of(base, i)), i)
}

// Marks chunk i taken or free; a mark outside the pool is not written.
pub fn put_mark(pool: &mut [u8], base: u32, i: u16, taken: bool)
    ensures { pool.new ≡ with_mark pool.old base i taken }
{
    let at = byte_of(base, i);
    let b = cells::get_byte(pool, at);
    cells::put_byte(pool, at, bit_put(b, i, taken));
}

// ---- by words, where the caller knows that the word is whole: word k holds the mark, which is its mark i % 64

// Mark i in the word that holds it.
pub fn mark_word(i: u16) -> u64
    ensures { result ≡ 9223372036854775808 / 2 ^ (i % 64) }
{
    9223372036854775808 >> (i % 64)
}

fn is_in(v: u64, i: u16) -> bool
    ensures { result ≡ word_bit v (i % 64) }
{
    v & mark_word(i) != 0
}

fn put_in(v: u64, i: u16, set: bool) -> u64
    ensures { result ≡ with_word_bit v (i % 64) set }
{
    if set {
        v | mark_word(i)
    } else {
        v & !mark_word(i)
    }
}

pub fn get_mark_in(pool: &[u8], k: usize, i: u16) -> bool
    requires { k < length pool.now / 8 }
    ensures { result ≡ mark pool.now (8 * k) (i % 64) }
{
    is_in(cells::get_word_in(pool, k), i)
}

pub fn put_mark_in(pool: &mut [u8], k: usize, i: u16, taken: bool)
    requires { k < length pool.old / 8 }
    ensures { pool.new ≡ with_mark pool.old (8 * k) (i % 64) taken }
{
    let v = cells::get_word_in(pool, k);
    cells::put_word_in(pool, k, put_in(v, i, taken));
}
