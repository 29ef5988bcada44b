// The first pages of the ten lists: list 0 is the list of free runs, list 1 + c the list of class c's pages with a free chunk.
// A list's first page stands in the header or in the class record.
#![tactic(auto)]

ghost use Rattle.std.specs.Prelude.{◌≡◌};
ghost use Rattle.records.specs.Header.{header_at};
ghost use Rattle.words.specs.Word.{word, set_word};
ghost use Rattle.records.specs.Class.{pack_counts, unpack_class, class_at};
ghost use Rattle.records.specs.Mirror.{first_to};
ghost use Rattle.lists.specs.Mirror.{first_of, with_first_run, with_first_page, with_first};

use records::PageNumber;

fn first_run(pool: &[u8]) -> PageNumber
    ensures { result.0 ≡ (header_at pool.now).first_run.0 }
{
    let h = record_header::get_header(pool);
    h.first_run
}

fn first_page(pool: &[u8], w: u8, c: u8) -> PageNumber
    ensures { result.0 ≡ (class_at w pool.now c).first.0 }
{
    let r = record_class::get_class(pool, w, c);
    r.first
}

// The list's first page.
pub fn first(pool: &[u8], w: u8, list: u8) -> PageNumber
    ensures { result.0 ≡ first_of w pool.now list }
{
    if list == 0 {
        first_run(pool)
    } else {
        first_page(pool, w, list - 1)
    }
}

fn put_first_run(pool: &mut [u8], p: PageNumber)
    ensures { pool.new ≡ with_first_run pool.old p.0 }
{
    let h = record_header::get_header(pool);
    record_header::put_header(pool, records::first_run_to(h, p));
}

// The first page is the top 16 bits of the word of counts; no other word of the record changes.
pub fn first_changed(v: u64, p: PageNumber) -> u64
    ensures { result ≡ pack_counts (first_to (unpack_class v 0) p.0) }
{
    p.0 as u64 * 281474976710656 + v % 281474976710656
}

fn change_first(pool: &mut [u8], k: usize, p: PageNumber)
    ensures { pool.new ≡ set_word pool.old k (pack_counts (first_to (unpack_class (word pool.old k) 0) p.0)) }
{
    let v = cells::get_word(pool, k);
    cells::put_word(pool, k, first_changed(v, p));
}

fn put_first_page(pool: &mut [u8], w: u8, c: u8, p: PageNumber)
    ensures { pool.new ≡ with_first_page w pool.old c p.0 }
{
    change_first(pool, records::place(1, w, c as u16), p);
}

// Page p becomes the list's first page.
pub fn put_first(pool: &mut [u8], w: u8, list: u8, p: PageNumber)
    ensures { pool.new ≡ with_first w pool.old list p.0 }
{
    if list == 0 {
        put_first_run(pool, p);
    } else {
        put_first_page(pool, w, list - 1, p);
    }
}
