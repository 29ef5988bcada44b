// Page records but for their chunk maps: one word each, packed by multiplication and unpacked by division and remainder.
// `w` is the number of words of a class record: 2 in edition 1.
#![tactic(auto)]

ghost use Rattle.std.specs.Prelude.{◌≡◌, ◌/◌, ◌<◌, length};
ghost use Rattle.records.specs.Layout.{links_place};
ghost use Rattle.records.specs.Page.{pack_links, unpack_links, links_at, with_links};

use records::{Links, PageNumber};

pub fn pack_links(l: Links) -> u64
    ensures { result ≡ pack_links l }
{
    (l.kind % 8) as u64 * 2305843009213693952
        + (l.class % 16) as u64 * 144115188075855872
        + l.run as u64 * 2199023255552
        + l.next.0 as u64 * 33554432
        + l.prev.0 as u64 * 512
}

pub fn unpack_links(v: u64) -> Links
    ensures { result ≡ unpack_links v }
{
    Links {
        kind: (v / 2305843009213693952 % 8) as u8,
        class: (v / 144115188075855872 % 16) as u8,
        run: (v / 2199023255552 % 65536) as u16,
        next: PageNumber((v / 33554432 % 65536) as u16),
        prev: PageNumber((v / 512 % 65536) as u16),
    }
}

// The word that holds the links of page p.
fn links_word(w: u8, p: PageNumber) -> usize
    ensures { result ≡ links_place w p.0 }
{
    records::place(2 + 9 * w as u16, 2, p.0)
}

pub fn get_links(pool: &[u8], w: u8, p: PageNumber) -> Links
    ensures { result ≡ links_at w pool.now p.0 }
{
    unpack_links(cells::get_word(pool, links_word(w, p)))
}

// The same, where the caller knows that the word is whole.
pub fn get_links_in(pool: &[u8], w: u8, p: PageNumber) -> Links
    requires { links_place w p.0 < length pool.now / 8 }
    ensures { result ≡ links_at w pool.now p.0 }
{
    unpack_links(cells::get_word_in(pool, links_word(w, p)))
}

pub fn put_links(pool: &mut [u8], w: u8, p: PageNumber, l: Links)
    ensures { pool.new ≡ with_links w pool.old p.0 l }
{
    cells::put_word(pool, links_word(w, p), pack_links(l));
}
