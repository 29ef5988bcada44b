// The chunk maps of class pages: where they lie.
// `w` is the number of words of a class record, `pages` the pages of the pool.
#![tactic(auto)]

ghost use Rattle.std.specs.Prelude.{◌≡◌, ◌≤◌, ◌<◌};
ghost use Rattle.rules.specs.Bytes.{map_base};
ghost use Rattle.classes.specs.Mirror.{map_word};

use records::PageNumber;

// One of two by where the map lies: in the page, or in its record. The choice is between numbers, so that no branch is made of it.
fn chosen(c: u8, paged: u16, recorded: u16) -> u16
    ensures small { c < 3 → result ≡ paged }
    ensures large { 3 ≤ c → result ≡ recorded }
{
    if c < 3 { paged } else { recorded }
}

// The word that the map of page p begins with: at the start of the page, or in its record.
pub fn map_word(w: u8, pages: u16, p: PageNumber, c: u8) -> usize
    ensures answer { result ≡ map_word w pages p.0 c }
    ensures bound { result < 67108864 }
{
    let q = p.0;
    let records = chosen(c, pages, q);
    let before = chosen(c, q, 0);
    1 + 9 * w as usize + 2 * records as usize + 512 * before as usize
}

// The byte that the map of page p begins with.
pub fn map_base(w: u8, pages: u16, p: PageNumber, c: u8) -> u32
    ensures { result ≡ map_base w pages p.0 c }
{
    let k = map_word(w, pages, p, c);
    8 * k as u32
}

// ---- where the caller knows which of the two it is; each choice then is made once for the whole of a call

// At the start of the page.
pub fn paged_word(w: u8, pages: u16, p: PageNumber, c: u8) -> usize
    requires { c < 3 }
    ensures answer { result ≡ map_word w pages p.0 c }
    ensures bound { result < 67108864 }
{
    1 + 9 * w as usize + 2 * pages as usize + 512 * p.0 as usize
}

// In its record.
pub fn recorded_word(w: u8, pages: u16, p: PageNumber, c: u8) -> usize
    requires { 3 ≤ c }
    ensures answer { result ≡ map_word w pages p.0 c }
    ensures bound { result < 67108864 }
{
    1 + 9 * w as usize + 2 * p.0 as usize
}
