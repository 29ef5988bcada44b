// Rule 1: the page count that a length gives, and the header.
#![tactic(auto)]

ghost use Rattle.std.specs.Prelude.{◌≡◌};
ghost use Rattle.records.specs.Layout.{page_count};
ghost use Rattle.rules.specs.Bytes.{pages_in, rule1};

use records::{CLASS_WORD, HEADER, MOST_PAGES, PAGE_AND_RECORD};

// The page count that a length gives.
pub fn page_count(w: u8, len: usize) -> usize
    ensures { result ≡ page_count w len }
{
    len.saturating_sub(HEADER + CLASS_WORD * w as usize) / PAGE_AND_RECORD
}

pub fn header_fits(pool: &[u8], w: u8, n: usize) -> bool
    requires { n ≡ pages_in w pool.now }
    ensures { result ≡ rule1 w pool.now }
{
    let h = record_header::get_header(pool);
    let edition = (w as usize).saturating_sub(1);
    let least = HEADER + CLASS_WORD * w as usize + PAGE_AND_RECORD;
    let len = pool.len();
    // The page count is compared first: past it the compiler knows page numbers to be small.
    branchless::all(&[
        h.pages as usize == n,
        least <= len,
        n <= MOST_PAGES,
        h.edition as usize == edition,
        h.min_shift == 3,
        h.page_shift == 12,
    ])
}
