// The header: word 0 of a pool, packed by multiplication and unpacked by division and remainder.
#![tactic(auto)]

ghost use Rattle.std.specs.Prelude.{◌≡◌};
ghost use Rattle.records.specs.Header.{pack_header, unpack_header, header_at, with_header};

use records::{Header, PageNumber};

fn pack_header(h: Header) -> u64
    ensures { result ≡ pack_header h }
{
    h.edition as u64 * 72057594037927936
        + (h.min_shift % 16) as u64 * 4503599627370496
        + (h.page_shift % 16) as u64 * 281474976710656
        + h.pages as u64 * 4294967296
        + h.free_pages as u64 * 65536
        + h.first_run.0 as u64
}

fn unpack_header(v: u64) -> Header
    ensures { result ≡ unpack_header v }
{
    Header {
        edition: (v / 72057594037927936 % 256) as u8,
        min_shift: (v / 4503599627370496 % 16) as u8,
        page_shift: (v / 281474976710656 % 16) as u8,
        pages: (v / 4294967296 % 65536) as u16,
        free_pages: (v / 65536 % 65536) as u16,
        first_run: PageNumber((v % 65536) as u16),
    }
}

pub fn get_header(pool: &[u8]) -> Header
    ensures { result ≡ header_at pool.now }
{
    unpack_header(cells::get_word(pool, 0))
}

pub fn put_header(pool: &mut [u8], h: Header)
    ensures { pool.new ≡ with_header pool.old h }
{
    cells::put_word(pool, 0, pack_header(h));
}
