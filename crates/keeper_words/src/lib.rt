// The directory's words: key 16 bits, length 16 bits, offset 32 bits; length 0 is an empty place.
#![tactic(auto)]

ghost use Rattle.std.specs.Prelude.{◌≡◌, ◌&&◌, not, ◌≤◌, eqb, length};
ghost use Rattle.base.specs.Search.{least};
ghost use Rattle.base.specs.Tests.{all_below};
ghost use Rattle.keeper_model.specs.Store.{is_empty, holds};
ghost use Rattle.keeper_model.specs.Directory.{fits_in, differ};
ghost use Rattle.keeper_words.specs.Words.{key_of, len_of, off_of, word_of, entry_of, entries};

// One in the place of the key, and one in the place of the length.
const KEY: u64 = 281474976710656;

const LENGTH: u64 = 4294967296;

pub fn key_of(word: u64) -> u16
    ensures { result ≡ key_of word }
{
    (word / KEY % 65536) as u16
}

pub fn len_of(word: u64) -> u16
    ensures { result ≡ len_of word }
{
    (word / LENGTH % 65536) as u16
}

pub fn off_of(word: u64) -> u32
    ensures { result ≡ off_of word }
{
    (word % LENGTH) as u32
}

// The word of a record of len bytes in the block at off.
pub fn word_of(key: u16, len: u16, off: u32) -> u64
    ensures { result ≡ word_of (record { key = key; len = len; off = off }) }
{
    key as u64 * KEY + len as u64 * LENGTH + off as u64
}

pub fn is_empty(word: u64) -> bool
    ensures { result ≡ is_empty (entry_of word) }
{
    len_of(word) == 0
}

fn has_key(word: u64, key: u16) -> bool
    ensures { result ≡ holds key (entry_of word) }
{
    if is_empty(word) {
        return false;
    }
    key_of(word) == key
}

// The place of a key; the number of places where none holds it.
pub fn slot(directory: &[u64], key: u16) -> usize
    ensures { result ≡ least (λ i. holds key (entries directory.now i)) (length directory.now) }
{
    directory
        .iter()
        .position(|word| has_key(*word, key))
        .unwrap_or(directory.len())
}

// The first empty place; the number of places where there is none.
pub fn first_empty(directory: &[u64]) -> usize
    ensures { result ≡ least (λ i. is_empty (entries directory.now i)) (length directory.now) }
{
    directory
        .iter()
        .position(|word| is_empty(*word))
        .unwrap_or(directory.len())
}

// ---- when a directory is sound

fn is_blank(word: u64) -> bool
    ensures { result ≡ (eqb (key_of word) 0 && eqb (off_of word) 0) }
{
    if key_of(word) == 0 {
        return off_of(word) == 0;
    }
    false
}

// The word is 0, or its record fits a block of `room` bytes.
pub fn fits_in(word: u64, room: u32) -> bool
    ensures { result ≡ fits_in room (entry_of word) }
{
    if is_empty(word) {
        return is_blank(word);
    }
    len_of(word) as u32 <= room
}

fn unlike(d: u64, e: u64) -> bool
    ensures { result ≡ (not (eqb (key_of d) (key_of e)) && not (eqb (off_of d) (off_of e))) }
{
    if key_of(d) == key_of(e) {
        return false;
    }
    off_of(d) != off_of(e)
}

fn differ_in(d: u64, e: u64) -> bool
    ensures { result ≡ differ (entry_of d) (entry_of e) }
{
    if is_empty(d) {
        return true;
    }
    if is_empty(e) {
        return true;
    }
    unlike(d, e)
}

// The word has its key and its offset for itself among the first n places.
fn new_among(directory: &[u64], n: usize, word: u64) -> bool
    requires { n ≤ length directory.now }
    ensures { result ≡ all_below (λ j. differ (entry_of word) (entries directory.now j)) n }
{
    directory[..n].iter().all(|other| differ_in(word, *other))
}

// Keys and offsets differ in all places with a record.
pub fn all_differ(directory: &[u64]) -> bool
    ensures { result ≡ all_below (λ i. all_below (λ j. differ (entries directory.now i) (entries directory.now j)) i) (length directory.now) }
{
    for (i, word) in directory.iter().enumerate() {
        if !new_among(directory, i, *word) {
            return false;
        }
    }
    true
}
