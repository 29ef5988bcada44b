// The last line of a printout: the free pages and the free runs, as the pool's records tell them.
#![tactic(auto)]

ghost use Rattle.std.specs.Prelude.{◌≡◌, ◌≤◌};
ghost use Rattle.records.specs.Layout.{no_page};
ghost use Rattle.rules.specs.Bytes.{pages_in};
ghost use Rattle.printing.specs.Text.{Prints};
ghost use Rattle.script_summary.specs.Summary.{summary_line, free_runs, summary_of};

use printing::{put_line, put_phrase};
use records::FIRST_FREE;

// The free runs of a pool of n pages: those pages that are the first of one.
fn free_runs(pool: &[u8], w: u8, n: usize) -> u32
    requires { (n ≡ pages_in w pool.now) × (n ≤ no_page) }
    ensures { result ≡ free_runs w pool.now }
{
    let mut runs = 0;
    for p in 0..n {
        runs += validate_fields::kind_at(pool, w, n, FIRST_FREE, p) as u32;
    }
    runs
}

fn put_counts(out: &mut [u8], n: usize, free: u32, runs: u32) -> usize
    requires { n ≤ 1000000 }
    ensures { Prints out.old out.new n result (summary_line free runs) }
{
    let after = put_phrase(out, n, b"free ", free);
    put_line(out, after, b" runs ", runs)
}

// Writes the line from place n on, and answers the place after it.
pub fn put_summary(pool: &[u8], w: u8, out: &mut [u8], n: usize) -> usize
    requires { (pages_in w pool.now ≤ no_page) × (n ≤ 1000000) }
    ensures { Prints out.old out.new n result (summary_of w pool.now) }
{
    let h = record_header::get_header(pool);
    let runs = free_runs(pool, w, validate_length::page_count(w, pool.len()));
    put_counts(out, n, h.free_pages as u32, runs)
}
