// Format: makes a pool of a slice. `w` is the number of words of a class record.
#![tactic(auto)]

ghost use Rattle.std.specs.Prelude.{◌≡◌, ◌≤◌, ◌<◌, length};
ghost use Rattle.answers.specs.Outcome.{of_format};
ghost use Rattle.image.specs.Image.{header_of};
ghost use Rattle.format.specs.Format.{format_outcome, inside_free, first_free, formatted};
ghost use Rattle.format.specs.Mirror.{filled, peaks_cleared, classes_cleared, pages_cleared, run_linked, written};

use answers::Refusal;
use records::{
    CLASS_WORD, FIRST_FREE, HEADER, Header, INSIDE_FREE, Links, NO_PAGE, PAGE_AND_RECORD,
    PageNumber, TOO_LONG,
};

// The header of a pool of one free run.
fn fresh_header(w: u8, pages: u16) -> Header
    requires { 1 ≤ w }
    ensures { result ≡ header_of w pages pages 0 }
{
    Header {
        edition: w - 1,
        min_shift: 3,
        page_shift: 12,
        pages,
        free_pages: pages,
        first_run: PageNumber(0),
    }
}

fn inside_free(prev: PageNumber) -> Links
    ensures { result ≡ inside_free prev.0 }
{
    Links {
        kind: INSIDE_FREE,
        class: 0,
        run: 0,
        next: PageNumber(NO_PAGE),
        prev,
    }
}

fn first_free(pages: u16) -> Links
    ensures { result ≡ first_free pages }
{
    Links {
        kind: FIRST_FREE,
        class: 0,
        run: pages,
        next: PageNumber(NO_PAGE),
        prev: PageNumber(NO_PAGE),
    }
}

// Sets n words, `step` apart from `from` on.
fn fill(pool: &mut [u8], from: u16, step: u8, n: u16, v: u64)
    ensures { pool.new ≡ filled pool.old from step n v }
{
    for i in 0..n {
        cells::put_word(pool, records::place(from, step, i), v);
    }
}

// Edition 1 has no peaks.
fn clear_peaks(pool: &mut [u8], w: u8)
    ensures { pool.new ≡ peaks_cleared w pool.old }
{
    if 2 < w {
        fill(pool, 3, w, 9, 0);
    }
}

fn clear_classes(pool: &mut [u8], w: u8)
    ensures { pool.new ≡ classes_cleared w pool.old }
{
    fill(
        pool,
        1,
        w,
        9,
        record_class::pack_counts(records::empty_class()),
    );
    fill(
        pool,
        2,
        w,
        9,
        record_class::pack_tally(records::empty_class()),
    );
}

fn clear_pages(pool: &mut [u8], w: u8, pages: u16)
    ensures { pool.new ≡ pages_cleared w pages pool.old }
{
    fill(pool, 1 + 9 * w as u16, 2, pages, 0);
    fill(
        pool,
        2 + 9 * w as u16,
        2,
        pages,
        record_page::pack_links(inside_free(PageNumber(NO_PAGE))),
    );
}

// The pages become one free run.
fn link_run(pool: &mut [u8], w: u8, pages: u16)
    requires { 1 ≤ pages }
    ensures { pool.new ≡ run_linked w pages pool.old }
{
    record_page::put_links(pool, w, PageNumber(pages - 1), inside_free(PageNumber(0)));
    record_page::put_links(pool, w, PageNumber(0), first_free(pages));
}

// Header, class records and page records of a pool of one free run.
fn write_records(pool: &mut [u8], w: u8, pages: u16)
    requires { (1 ≤ w) × (1 ≤ pages) }
    ensures { pool.new ≡ written w pages pool.old }
{
    clear_peaks(pool, w);
    record_header::put_header(pool, fresh_header(w, pages));
    clear_classes(pool, w);
    clear_pages(pool, w, pages);
    link_run(pool, w, pages);
}

// Makes a pool of as many pages as the slice has room for. Page bytes and tail stay.
pub fn format(pool: &mut [u8], w: u8) -> Result<u16, Refusal>
    requires { 2 ≤ w }
    ensures answer { of_format result ≡ format_outcome w (length pool.old) }
    ensures slice { pool.new ≡ formatted w pool.old }
{
    let len = pool.len();
    let head = HEADER + CLASS_WORD * w as usize;
    if len < head + PAGE_AND_RECORD {
        return Err(Refusal::TooShort);
    }
    if head + TOO_LONG <= len {
        return Err(Refusal::TooLong);
    }
    let pages = ((len - head) / PAGE_AND_RECORD) as u16;
    write_records(pool, w, pages);
    Ok(pages)
}
