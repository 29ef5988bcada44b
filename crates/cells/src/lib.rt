// Bytes and words of a slice by their number. Reads and writes are total: outside the slice a read gives 0 and a write does nothing.
#![tactic(auto)]

ghost use Rattle.std.specs.Prelude.{◌≡◌, ◌/◌, ◌<◌, get_or, set, length};
ghost use Rattle.words.specs.Word.{word, set_word};

// Word k of s, which holds bytes 8k to 8k + 7, where the caller knows that it is whole.
pub fn get_word_in(s: &[u8], k: usize) -> u64
    requires { k < length s.now / 8 }
    ensures { result ≡ word s.now k }
{
    words::get64(s, 8 * k)
}

// The same for any k; 0 past the last whole word.
pub fn get_word(s: &[u8], k: usize) -> u64
    ensures { result ≡ word s.now k }
{
    if k < s.len() / 8 {
        get_word_in(s, k)
    } else {
        0
    }
}

// Sets word k of s, where the caller knows that it is whole.
pub fn put_word_in(s: &mut [u8], k: usize, v: u64)
    requires { k < length s.old / 8 }
    ensures { s.new ≡ set_word s.old k v }
{
    words::put64(s, 8 * k, v);
}

// The same for any k; past the last whole word it does nothing.
pub fn put_word(s: &mut [u8], k: usize, v: u64)
    ensures { s.new ≡ set_word s.old k v }
{
    if k < s.len() / 8 {
        put_word_in(s, k, v);
    }
}

// The byte at a place; 0 outside.
pub fn get_byte(s: &[u8], at: usize) -> u8
    ensures { result ≡ get_or s.now at 0 }
{
    if at < s.len() { s[at] } else { 0 }
}

// Sets the byte at a place; outside it does nothing.
pub fn put_byte(s: &mut [u8], at: usize, v: u8)
    ensures { s.new ≡ set s.old at v }
{
    if at < s.len() {
        s[at] = v;
    }
}
