// Whether a class page is full, or one chunk from full or empty, told by the words of its map. No mark is counted: a map in the page record
// is one word, and most others differ in the first.
#![tactic(auto)]

ghost use Rattle.std.specs.Prelude.{◌≡◌, ◌+◌, ◌/◌, ◌≤◌, ◌<◌, eqb, length};
ghost use Rattle.base.specs.Tests.{pick};
ghost use Rattle.words.specs.Word.{word};
ghost use Rattle.model.specs.Classes.{chunks};
ghost use Rattle.maps.specs.Bitmap.{bits_of};
ghost use Rattle.map_count.specs.Mirror.{map_bits};
ghost use Rattle.map_occupancy.specs.Mirror.{expected, words_are, words_from, full_marks, is_full, last_free, last_taken};

// Each word of the map of a full page of class 0, 1 or 2.
const FULL: u64 = 18446744073709551615;

// The word of the map of a full page of another class.
fn full_word(c: u8) -> u64
    requires { 3 ≤ c }
    ensures { result ≡ bits_of (full_marks c) 64 }
{
    let n = classes::chunk_count(c);
    !(9223372036854775807 >> (n - 1))
}

// The words of a map that lies in the page.
pub fn word_count(c: u8) -> usize
    requires { c < 3 }
    ensures answer { result ≡ map_bits c / 64 }
    ensures bound { result ≤ 8 }
{
    8 >> c
}

// The words of a map, wherever it lies.
fn map_words(c: u8) -> usize
    ensures answer { result ≡ map_bits c / 64 }
    ensures bound { result ≤ 8 }
{
    if c < 3 { word_count(c) } else { 1 }
}

// Word j of a map that has `odd` as word `at`, and else begins with `first` and goes on with `rest`.
fn expected_word(first: u64, rest: u64, at: usize, odd: u64, j: usize) -> u64
    ensures { result ≡ expected first rest at odd j }
{
    if j == at {
        return odd;
    }
    if j == 0 { first } else { rest }
}

fn word_is(pool: &[u8], k: usize, v: u64) -> bool
    ensures { result ≡ eqb (word pool.now k) v }
{
    cells::get_word(pool, k) == v
}

fn all_words(pool: &[u8], k: usize, m: usize, first: u64, rest: u64, at: usize, odd: u64) -> bool
    requires { (k < 67108864) × (m ≤ 8) }
    ensures { result ≡ words_are pool.now k m first rest at odd }
{
    for j in 0..m {
        if !word_is(pool, k + j, expected_word(first, rest, at, odd, j)) {
            return false;
        }
    }
    true
}

// The same, where the caller knows that the word is whole.
fn word_in_is(pool: &[u8], k: usize, v: u64) -> bool
    requires { k < length pool.now / 8 }
    ensures { result ≡ eqb (word pool.now k) v }
{
    cells::get_word_in(pool, k) == v
}

// The words from k on, word `at` first: there most maps differ.
fn words_from(pool: &[u8], k: usize, m: usize, first: u64, rest: u64, at: usize, odd: u64) -> bool
    requires { (k < 67108864) × (m ≤ 8) × (k + at < length pool.now / 8) }
    ensures { result ≡ words_from pool.now k m first rest at odd }
{
    if word_in_is(pool, k + at, odd) {
        all_words(pool, k, m, first, rest, at, odd)
    } else {
        false
    }
}

// Whether the page of class c whose map begins with word k is full.
pub fn is_full(pool: &[u8], k: usize, c: u8) -> bool
    requires { k < 67108864 }
    ensures { result ≡ is_full pool.now k c }
{
    if c < 3 {
        full_paged(pool, k, c)
    } else {
        full_in_record(pool, k, c)
    }
}

fn full_paged(pool: &[u8], k: usize, c: u8) -> bool
    requires { (c < 3) × (k < 67108864) }
    ensures { result ≡ is_full pool.now k c }
{
    let m = word_count(c);
    all_words(pool, k, m, FULL, FULL, 8, FULL)
}

fn full_in_record(pool: &[u8], k: usize, c: u8) -> bool
    requires { 3 ≤ c }
    ensures { result ≡ is_full pool.now k c }
{
    word_is(pool, k, full_word(c))
}

// Whether chunk i is its only free chunk.
pub fn last_free_paged(pool: &[u8], k: usize, c: u8, i: u16) -> bool
    requires { (c < 3) × (k < 67108864) × (k + i / 64 < length pool.now / 8) }
    ensures { result ≡ last_free pool.now k c i }
{
    let m = word_count(c);
    let odd = !map_marks::mark_word(i);
    words_from(pool, k, m, FULL, FULL, (i / 64) as usize, odd)
}

pub fn last_free_recorded(pool: &[u8], k: usize, c: u8, i: u16) -> bool
    requires { (3 ≤ c) × (k < length pool.now / 8) }
    ensures { result ≡ last_free pool.now k c i }
{
    word_in_is(pool, k, full_word(c) & !map_marks::mark_word(i))
}

fn first_or_none(at: usize, v: u64) -> u64
    ensures { result ≡ pick (eqb at 0) v 0 }
{
    if at == 0 { v } else { 0 }
}

// Whether chunk i is the only one in a caller's hands, wherever the map lies: a free mostly finds that it is not, by one word.
pub fn last_taken(pool: &[u8], k: usize, c: u8, i: u16) -> bool
    requires { (c ≤ 8) × (i < chunks c) × (k < 67108864) × (k + i / 64 < length pool.now / 8) }
    ensures { result ≡ last_taken pool.now k c i }
{
    let own = classes::class_own_word(c);
    let m = map_words(c);
    let at = (i / 64) as usize;
    let odd = first_or_none(at, own) | map_marks::mark_word(i);
    words_from(pool, k, m, own, 0, at, odd)
}
