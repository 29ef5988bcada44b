// Class records: two words each, packed by multiplication and unpacked by division and remainder, and a third for the peak.
// `w` is the number of words of a class record: 2 in edition 1, 3 in edition 2.
#![tactic(auto)]

ghost use Rattle.std.specs.Prelude.{◌≡◌, ◌/◌, ◌<◌, length};
ghost use Rattle.records.specs.Layout.{counts_place};
ghost use Rattle.records.specs.Class.{pack_counts, pack_tally, unpack_class, class_at, with_class, pack_peak, peak_at, peak_spare, with_peak};

use records::{ClassRecord, PageNumber};

pub fn pack_counts(r: ClassRecord) -> u64
    ensures { result ≡ pack_counts r }
{
    r.first.0 as u64 * 281474976710656
        + (r.used % 16777216) as u64 * 16777216
        + (r.total % 16777216) as u64
}

pub fn pack_tally(r: ClassRecord) -> u64
    ensures { result ≡ pack_tally r }
{
    r.reqs as u64 * 4294967296 + r.fails as u64
}

fn unpack_class(counts: u64, tally: u64) -> ClassRecord
    ensures { result ≡ unpack_class counts tally }
{
    ClassRecord {
        first: PageNumber((counts / 281474976710656 % 65536) as u16),
        used: (counts / 16777216 % 16777216) as u32,
        total: (counts % 16777216) as u32,
        reqs: (tally / 4294967296 % 4294967296) as u32,
        fails: (tally % 4294967296) as u32,
    }
}

pub fn get_class(pool: &[u8], w: u8, c: u8) -> ClassRecord
    ensures { result ≡ class_at w pool.now c }
{
    unpack_class(
        cells::get_word(pool, records::place(1, w, c as u16)),
        cells::get_word(pool, records::place(2, w, c as u16)),
    )
}

// The first page alone, where the caller knows that the word is whole.
pub fn get_first_in(pool: &[u8], w: u8, c: u8) -> PageNumber
    requires { counts_place w c < length pool.now / 8 }
    ensures { result.0 ≡ (class_at w pool.now c).first.0 }
{
    let v = cells::get_word_in(pool, records::place(1, w, c as u16));
    PageNumber((v / 281474976710656 % 65536) as u16)
}

pub fn get_used(pool: &[u8], w: u8, c: u8) -> u32
    ensures { result ≡ (class_at w pool.now c).used }
{
    get_class(pool, w, c).used
}

pub fn put_class(pool: &mut [u8], w: u8, c: u8, r: ClassRecord)
    ensures { pool.new ≡ with_class w pool.old c r }
{
    cells::put_word(pool, records::place(1, w, c as u16), pack_counts(r));
    cells::put_word(pool, records::place(2, w, c as u16), pack_tally(r));
}

// ---- the third word, where there is one

fn pack_peak(n: u32) -> u64
    ensures { result ≡ pack_peak n }
{
    (n % 16777216) as u64 * 1099511627776
}

pub fn get_peak(pool: &[u8], w: u8, c: u8) -> u32
    ensures { result ≡ peak_at w pool.now c }
{
    (cells::get_word(pool, records::place(3, w, c as u16)) / 1099511627776 % 16777216) as u32
}

// The bits after the peak, which are to be 0.
pub fn peak_spare(pool: &[u8], w: u8, c: u8) -> u64
    ensures { result ≡ peak_spare w pool.now c }
{
    cells::get_word(pool, records::place(3, w, c as u16)) % 1099511627776
}

pub fn put_peak(pool: &mut [u8], w: u8, c: u8, n: u32)
    ensures { pool.new ≡ with_peak w pool.old c n }
{
    cells::put_word(pool, records::place(3, w, c as u16), pack_peak(n));
}
