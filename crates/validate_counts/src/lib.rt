// Rules 5 and 6 of a pool that was scanned: chunks in use, the counts of header and class records, and the peaks.
#![tactic(auto)]

ghost use Rattle.std.specs.Prelude.{◌≡◌, false, ◌<◌};
ghost use Rattle.base.specs.Tests.{pick, all_below};
ghost use Rattle.rules.specs.Rules.{rule5, rule6, counts_fit};
ghost use Rattle.rules.specs.Bytes.{fields_of, peak_fits, peaks_fit};
ghost use Rattle.validate_totals.specs.Mirror.{Scanned};

use validate_pages::{FAULTS, FREE};

// Rule 5: no page is without a chunk in a caller's hands.
pub fn in_use(pool: &[u8], w: u8, n: usize, t: &[u64; 11]) -> bool
    requires { Scanned w pool.now n t.now }
    ensures { result ≡ rule5 (fields_of w pool.now) n }
{
    validate_totals::low(t, FAULTS) == 0
}

fn class_counts(pool: &[u8], w: u8, n: usize, t: &[u64; 11], c: u8) -> bool
    requires { Scanned w pool.now n t.now × (c < 9) }
    ensures { result ≡ counts_fit (fields_of w pool.now) n c }
{
    let r = record_class::get_class(pool, w, c);
    let used = validate_totals::low(t, c as usize);
    let total = validate_totals::middle(t, c as usize) * classes::total_count(c) as u64;
    branchless::both(r.used as u64 == used, r.total as u64 == total)
}

fn all_counts(pool: &[u8], w: u8, n: usize, t: &[u64; 11]) -> bool
    requires { Scanned w pool.now n t.now }
    ensures { result ≡ all_below (counts_fit (fields_of w pool.now) n) 9 }
{
    for c in 0..9 {
        if !class_counts(pool, w, n, t, c) {
            return false;
        }
    }
    true
}

fn counts_fit(pool: &[u8], w: u8, n: usize, t: &[u64; 11]) -> bool
    requires { Scanned w pool.now n t.now }
    ensures { result ≡ rule6 (fields_of w pool.now) n }
{
    let h = record_header::get_header(pool);
    let free = validate_totals::low(t, FREE);
    let fit = all_counts(pool, w, n, t);
    branchless::both(h.free_pages as u64 == free, fit)
}

fn peak_fits(pool: &[u8], w: u8, c: u8) -> bool
    ensures { result ≡ peak_fits w pool.now c }
{
    let r = record_class::get_class(pool, w, c);
    let peak = record_class::get_peak(pool, w, c);
    let spare = record_class::peak_spare(pool, w, c);
    branchless::both(r.used <= peak, spare == 0)
}

fn all_peaks(pool: &[u8], w: u8) -> bool
    ensures { result ≡ all_below (peak_fits w pool.now) 9 }
{
    for c in 0..9 {
        if !peak_fits(pool, w, c) {
            return false;
        }
    }
    true
}

// Edition 1 has no peaks.
fn peaks_fit(pool: &[u8], w: u8) -> bool
    ensures { result ≡ peaks_fit w pool.now }
{
    if 2 < w { all_peaks(pool, w) } else { true }
}

// Rule 6.
pub fn counts_and_peaks_fit(pool: &[u8], w: u8, n: usize, t: &[u64; 11]) -> bool
    requires { Scanned w pool.now n t.now }
    ensures { result ≡ pick (rule6 (fields_of w pool.now) n) (peaks_fit w pool.now) false }
{
    if counts_fit(pool, w, n, t) {
        peaks_fit(pool, w)
    } else {
        false
    }
}
