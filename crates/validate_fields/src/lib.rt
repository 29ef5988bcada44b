// The fields of a pool as the rules name them, read from its words. Reads are total: a page outside the pool shows zeros.
#![tactic(auto)]

ghost use Rattle.std.specs.Prelude.{◌≡◌, ◌*◌, ◌≤◌, ◌<◌};
ghost use Rattle.words.specs.Word.{word};
ghost use Rattle.records.specs.Layout.{no_page, links_place};
ghost use Rattle.rules.specs.Fields.{kind, map};
ghost use Rattle.rules.specs.Rules.{kind_at};
ghost use Rattle.rules.specs.Bytes.{fields_of, map_base};

use records::{Links, PageNumber};

pub fn links_of(pool: &[u8], w: u8, p: PageNumber) -> Links
    ensures { result ≡ (fields_of w pool.now).image.links p.0 }
{
    record_page::get_links(pool, w, p)
}

// The links of page p in their word: callers unpack them where a field is needed.
pub fn packed_links(pool: &[u8], w: u8, p: PageNumber) -> u64
    ensures { result ≡ word pool.now (links_place w p.0) }
{
    cells::get_word(pool, records::place(2 + 9 * w as u16, 2, p.0))
}

pub fn kind_of(pool: &[u8], w: u8, p: PageNumber) -> u8
    ensures { result ≡ kind (fields_of w pool.now) p.0 }
{
    let l = links_of(pool, w, p);
    l.kind
}

// Whether p is one of the n pages and of this kind.
pub fn kind_at(pool: &[u8], w: u8, n: usize, want: u8, p: usize) -> bool
    requires { n ≤ no_page }
    ensures { result ≡ kind_at (fields_of w pool.now) n want p }
{
    if p < n {
        let q = p as u16;
        return kind_of(pool, w, PageNumber(q)) == want;
    }
    false
}

pub fn map_of(pool: &[u8], w: u8, p: PageNumber) -> u64
    ensures { result ≡ map (fields_of w pool.now) p.0 }
{
    cells::get_word(pool, records::place(1 + 9 * w as u16, 2, p.0))
}

// The word at which the map of page p of n begins, where the page is of class c.
pub fn map_at(w: u8, n: usize, p: PageNumber, c: u8) -> usize
    requires { n ≤ no_page }
    ensures answer { 8 * result ≡ map_base w n p.0 c }
    ensures bound { result < 67108864 }
{
    let q = p.0 as usize;
    if c < 3 {
        1 + 9 * w as usize + 2 * n + 512 * q
    } else {
        1 + 9 * w as usize + 2 * q
    }
}
