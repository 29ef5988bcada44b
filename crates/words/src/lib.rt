// Big-endian 64-bit words: the eight bytes from a place of a slice on, joined and taken apart.
#![tactic(auto)]

ghost use Rattle.std.specs.Prelude.{◌≡◌, ◌+◌, ◌*◌, ◌≤◌, ◌<◌, length};
ghost use Rattle.words.specs.Mirror.{little_at, swap_pair, swap_half, swap_word, with_little_pair, with_little_half, with_little_word};
ghost use Rattle.words.specs.Word.{word_at, with_word};

// Words are composed at 64 bits, least significant byte first, and then turned over: the eight loads become one load, whichever
// parts of the word are used, and the turn one byte swap.
fn first(b: u8) -> u64
    ensures answer { result ≡ b }
    ensures bound { result < 256 }
{
    b as u64
}

fn next(hi: u64, b: u8) -> u64
    requires { hi < 72057594037927936 }
    ensures answer { result ≡ hi * 256 + b }
    ensures bound { result < hi * 256 + 256 }
{
    hi * 256 + b as u64
}

fn little64(s: &[u8], at: usize) -> u64
    requires { at + 8 ≤ length s.now }
    ensures { result ≡ little_at s.now at }
{
    let four = next(
        next(next(first(s[at + 7]), s[at + 6]), s[at + 5]),
        s[at + 4],
    );
    next(
        next(next(next(four, s[at + 3]), s[at + 2]), s[at + 1]),
        s[at],
    )
}

fn swap16(v: u64) -> u64
    ensures answer { result ≡ swap_pair v }
    ensures bound { result < 65536 }
{
    v % 256 * 256 + v / 256 % 256
}

fn swap32(v: u64) -> u64
    ensures answer { result ≡ swap_half v }
    ensures bound { result < 4294967296 }
{
    swap16(v % 65536) * 65536 + swap16(v / 65536 % 65536)
}

fn swap64(v: u64) -> u64
    ensures { result ≡ swap_word v }
{
    swap32(v % 4294967296) * 4294967296 + swap32(v / 4294967296)
}

pub fn get64(s: &[u8], at: usize) -> u64
    requires { at + 8 ≤ length s.now }
    ensures { result ≡ word_at s.now at }
{
    swap64(little64(s, at))
}

// Stores go the other way: the word is turned over as a whole and its bytes are written least significant first. So the fields that a word
// was packed from do not reach the eight stores, which become one.
fn put16(s: &mut [u8], at: usize, v: u16)
    requires { at + 2 ≤ length s.old }
    ensures { s.new ≡ with_little_pair s.old at v }
{
    s[at] = (v % 256) as u8;
    s[at + 1] = (v / 256) as u8;
}

fn put32(s: &mut [u8], at: usize, v: u32)
    requires { at + 4 ≤ length s.old }
    ensures { s.new ≡ with_little_half s.old at v }
{
    put16(s, at, (v % 65536) as u16);
    put16(s, at + 2, (v / 65536) as u16);
}

fn put_little64(s: &mut [u8], at: usize, v: u64)
    requires { at + 8 ≤ length s.old }
    ensures { s.new ≡ with_little_word s.old at v }
{
    put32(s, at, (v % 4294967296) as u32);
    put32(s, at + 4, (v / 4294967296) as u32);
}

pub fn put64(s: &mut [u8], at: usize, v: u64)
    requires { at + 8 ≤ length s.old }
    ensures { s.new ≡ with_word s.old at v }
{
    put_little64(s, at, swap64(v));
}
