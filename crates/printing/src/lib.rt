// Text written into a slice: words, numbers and lines. What would lie past the slice's end is dropped.
#![tactic(auto)]

ghost use Rattle.std.specs.Prelude.{◌≡◌, ◌+◌, ◌/◌, ◌%◌, ◌≤◌, ◌<◌, length};
ghost use Rattle.printing.specs.Text.{ten_to, places, decimal, phrase, line, pair_line, written, Prints};

// Writes a text from place n on, and answers the place after it.
pub fn put_text(out: &mut [u8], n: usize, text: &[u8]) -> usize
    requires { n + length text.now ≤ 1048576 }
    ensures { Prints out.old out.new n result text.now }
{
    for (i, b) in text.iter().enumerate() {
        cells::put_byte(out, n + i, *b);
    }
    n + text.len()
}

#[tactic(auto, using(base::proofs::Tests::picks), unfolding(crate::specs::Text::places, crate::specs::Text::many_places))]
fn places_of(v: u32) -> usize
    ensures { result ≡ places v }
{
    match v {
        0..=9 => 1,
        10..=99 => 2,
        100..=999 => 3,
        1000..=9999 => 4,
        10000..=99999 => 5,
        100000..=999999 => 6,
        1000000..=9999999 => 7,
        10000000..=99999999 => 8,
        100000000..=999999999 => 9,
        _ => 10,
    }
}

// The digit that counts ten_to(k), in ASCII.
fn digit(v: u32, k: usize) -> u8
    requires { k ≤ 10 }
    ensures { result ≡ 48 + v / ten_to k % 10 }
{
    (48 + v as u64 / 10u64.pow(k as u32) % 10) as u8
}

fn put_decimal(out: &mut [u8], n: usize, v: u32) -> usize
    requires { n ≤ 1048576 }
    ensures { (result ≡ n + length (decimal v)) × (out.new ≡ written out.old n (decimal v)) × (result ≤ n + 10) }
{
    let mut at = n;
    for k in (0..places_of(v)).rev() {
        cells::put_byte(out, at, digit(v, k));
        at += 1;
    }
    at
}

// A word and a number.
pub fn put_phrase(out: &mut [u8], n: usize, word: &[u8], v: u32) -> usize
    requires { n + length word.now ≤ 1048576 }
    ensures { (result ≡ n + length (phrase word.now v)) × (out.new ≡ written out.old n (phrase word.now v)) × (result ≤ n + length word.now + 10) }
{
    let after = put_text(out, n, word);
    put_decimal(out, after, v)
}

// The same, ended by a newline.
pub fn put_line(out: &mut [u8], n: usize, word: &[u8], v: u32) -> usize
    requires { n + length word.now ≤ 1048576 }
    ensures { (result ≡ n + length (line word.now v)) × (out.new ≡ written out.old n (line word.now v)) × (result ≤ n + length word.now + 11) }
{
    let after = put_phrase(out, n, word, v);
    cells::put_byte(out, after, 10);
    after + 1
}

// Two words with a number each, ended by a newline.
pub fn put_pair(out: &mut [u8], n: usize, first: &[u8], x: u32, second: &[u8], y: u32) -> usize
    requires { n + length first.now + length second.now ≤ 1048566 }
    ensures { Prints out.old out.new n result (pair_line first.now x second.now y) }
{
    let after = put_phrase(out, n, first, x);
    put_line(out, after, second, y)
}
