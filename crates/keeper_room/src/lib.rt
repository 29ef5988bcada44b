// The room of the live block at an offset of a validated pool, and the test of a directory. Nothing changes.
// `w` is the number of words of a class record, `pages` the pages of the pool.
#![tactic(auto)]

ghost use Rattle.std.specs.Prelude.{Ok, ◌≡◌, ◌%◌, ◌≤◌, length};
ghost use Rattle.base.specs.Tests.{all_below};
ghost use Rattle.map_occupancy.specs.Mirror.{bit_for};
ghost use Rattle.rules.specs.Bytes.{read};
ghost use Rattle.free_sound.specs.Mirror.{Classed, marked, chunk_outcome, found_outcome};
ghost use Rattle.sound_pools.specs.Sound.{Validated};
ghost use Rattle.keeper_model.specs.Directory.{room_at, entry_ok, directory_ok};
ghost use Rattle.keeper_words.specs.Words.{entry_of, entries};

use answers::Offset;
use locate::{ChunkAt, Found};
use records::{PAGE, PageNumber};

// The most places that a directory may have.
const MOST_PLACES: usize = 64;

// Whether the directory is sound.
pub fn directory_ok(pool: &[u8], w: u8, pages: u16, directory: &[u64]) -> bool
    requires { Validated w pool.now pages }
    ensures { result ≡ directory_ok (read w pool.now) (length directory.now) (entries directory.now) }
{
    if directory.len() < 1 {
        return false;
    }
    if MOST_PLACES < directory.len() {
        return false;
    }
    if !words_fit(pool, w, pages, directory) {
        return false;
    }
    keeper_words::all_differ(directory)
}

fn words_fit(pool: &[u8], w: u8, pages: u16, directory: &[u64]) -> bool
    requires { Validated w pool.now pages }
    ensures { result ≡ all_below (λ i. entry_ok (read w pool.now) (entries directory.now i)) (length directory.now) }
{
    directory
        .iter()
        .all(|word| word_fits(pool, w, pages, *word))
}

// The word is 0, or its record fits the block at its offset.
fn word_fits(pool: &[u8], w: u8, pages: u16, word: u64) -> bool
    requires { Validated w pool.now pages }
    ensures { result ≡ entry_ok (read w pool.now) (entry_of word) }
{
    let off = keeper_words::off_of(word);
    let room = room_at(pool, w, pages, Offset(off));
    keeper_words::fits_in(word, room)
}

// The bytes of the live block that begins at the offset, which a free would release; 0 where none does.
pub fn room_at(pool: &[u8], w: u8, pages: u16, at: Offset) -> u32
    requires { Validated w pool.now pages }
    ensures { result ≡ room_at (read w pool.now) at.0 }
{
    match locate::locate(pool, w, pages, at) {
        Ok(found) => room_of(pool, w, pages, found),
        Err(_) => 0,
    }
}

fn room_of(pool: &[u8], w: u8, pages: u16, found: Found) -> u32
    requires { Classed pages (Ok found) }
    ensures { result ≡ (found_outcome w pool.now pages (Ok found)).value }
{
    match found {
        Found::Chunk(k) => chunk_room(pool, w, pages, k),
        Found::Run(r) => PAGE * r.pages as u32,
    }
}

// No page has more than 512 chunks.
fn chunk_room(pool: &[u8], w: u8, pages: u16, k: ChunkAt) -> u32
    requires { k.class ≤ 8 }
    ensures { result ≡ (chunk_outcome w pool.now pages k.class k.page.0 (k.index % 512)).value }
{
    let i = (k.index % 512) as u16;
    if is_marked(pool, w, pages, k.class, k.page, i) {
        sizes::chunk_size(k.class)
    } else {
        0
    }
}

fn is_marked(pool: &[u8], w: u8, pages: u16, c: u8, p: PageNumber, i: u16) -> bool
    ensures { result ≡ marked w pool.now pages c p.0 i }
{
    let base = map_places::map_base(w, pages, p, c);
    let bit = bit_for(c, i);
    map_marks::get_mark(pool, base, bit)
}

// A map in a record has 64 marks.
fn bit_for(c: u8, i: u16) -> u16
    ensures { result ≡ bit_for c i }
{
    if c < 3 { i } else { i % 64 }
}
