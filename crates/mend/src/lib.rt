// Mends a damaged pool into a second slice (SPEC 14): records are written anew from what kinds, run lengths and maps tell.
// `w` is the number of words of a class record.
#![tactic(auto)]

ghost use Rattle.std.specs.Prelude.{◌≡◌, true, ◌≤◌, ◌<◌, length};
ghost use Rattle.answers.specs.Outcome.{of_format};
ghost use Rattle.image.specs.Image.{header_of};
ghost use Rattle.rules.specs.Fields.{page_at};
ghost use Rattle.rules.specs.Read.{is_head};
ghost use Rattle.rules.specs.Rules.{shape, free_in};
ghost use Rattle.rules.specs.Bytes.{pages_in, fields_of};
ghost use Rattle.validate_totals.specs.Mirror.{Scanned};
ghost use Rattle.mending.specs.Checked.{mend_outcome, mended};
ghost use Rattle.mending.specs.Mirror.{first_from, class_anew, header_written, counts_written, links_written, peaks_written, written};
ghost use Rattle.mend.specs.Mirror.{peaks_below};

use answers::Refusal;
use records::{ClassRecord, Header, PageNumber};
use validate_pages::FREE;

fn header_anew(damaged: &[u8], w: u8, n: usize, t: &[u64; 11]) -> Header
    requires { Scanned w damaged.now n t.now }
    ensures { result ≡ header_of w n (free_in (page_at (fields_of w damaged.now) n) n) (first_from (is_head (fields_of w damaged.now) n) 0 n) }
{
    let edition = (w as usize).saturating_sub(1) as u8;
    let pages = n as u16;
    let free = validate_totals::low(t, FREE) as u16;
    let first = mend_order::first_from(damaged, w, n, 0, 0, n);
    Header {
        edition,
        min_shift: 3,
        page_shift: 12,
        pages,
        free_pages: free,
        first_run: first,
    }
}

fn write_header(target: &mut [u8], damaged: &[u8], w: u8, n: usize, t: &[u64; 11])
    requires { Scanned w damaged.now n t.now }
    ensures { target.new ≡ header_written w damaged.now n target.old }
{
    let h = header_anew(damaged, w, n, t);
    record_header::put_header(target, h);
}

fn class_anew(damaged: &[u8], w: u8, n: usize, t: &[u64; 11], c: u8) -> ClassRecord
    requires { Scanned w damaged.now n t.now × (c < 9) }
    ensures { result ≡ class_anew (fields_of w damaged.now) n c }
{
    let r = record_class::get_class(damaged, w, c);
    let used = validate_totals::low(t, c as usize) as u32;
    let total = (validate_totals::middle(t, c as usize) * classes::total_count(c) as u64) as u32;
    let first = mend_order::first_from(damaged, w, n, c + 1, 0, n);
    ClassRecord {
        first,
        used,
        total,
        ..r
    }
}

fn write_counts(target: &mut [u8], damaged: &[u8], w: u8, n: usize, t: &[u64; 11])
    requires { Scanned w damaged.now n t.now }
    ensures { target.new ≡ counts_written w damaged.now n target.old }
{
    for c in 0..9 {
        let r = class_anew(damaged, w, n, t, c);
        cells::put_word(
            target,
            records::place(1, w, c as u16),
            record_class::pack_counts(r),
        );
    }
}

fn write_links(target: &mut [u8], damaged: &[u8], w: u8, n: usize)
    requires { (n ≡ pages_in w damaged.now) × (n ≤ 4096) × (shape (fields_of w damaged.now) n ≡ true) }
    ensures { target.new ≡ links_written w damaged.now n target.old }
{
    for p in 0..n {
        let at = PageNumber(p as u16);
        let l = mend_order::page_anew(damaged, w, n, at);
        record_page::put_links(target, w, at, l);
    }
}

fn all_peaks(target: &mut [u8], damaged: &[u8], w: u8, n: usize, t: &[u64; 11])
    requires { Scanned w damaged.now n t.now }
    ensures { target.new ≡ peaks_below w damaged.now n target.old 9 }
{
    for c in 0..9 {
        let peak = record_class::get_peak(damaged, w, c);
        let used = validate_totals::low(t, c as usize) as u32;
        record_class::put_peak(target, w, c, peak.max(used));
    }
}

// Edition 1 has no peaks.
fn write_peaks(target: &mut [u8], damaged: &[u8], w: u8, n: usize, t: &[u64; 11])
    requires { Scanned w damaged.now n t.now }
    ensures { target.new ≡ peaks_written w damaged.now n target.old }
{
    if 2 < w {
        all_peaks(target, damaged, w, n, t);
    }
}

fn copy_all(target: &mut [u8], damaged: &[u8])
    requires { length target.old ≡ length damaged.now }
    ensures { target.new ≡ damaged.now }
{
    copying::copy(target, 0, damaged, 0, damaged.len());
}

fn write(target: &mut [u8], damaged: &[u8], w: u8, n: usize, t: &[u64; 11])
    requires { Scanned w damaged.now n t.now × (length target.old ≡ length damaged.now) }
    ensures { target.new ≡ written w damaged.now n }
{
    copy_all(target, damaged);
    write_header(target, damaged, w, n, t);
    write_counts(target, damaged, w, n, t);
    write_links(target, damaged, w, n);
    write_peaks(target, damaged, w, n, t);
}

// Writes a mended copy of the damaged pool into the target: the page count, or the refusal.
pub fn mend(damaged: &[u8], target: &mut [u8], w: u8) -> Result<u16, Refusal>
    requires { 2 ≤ w }
    ensures answer { of_format result ≡ mend_outcome w damaged.now target.old }
    ensures slice { target.new ≡ mended w damaged.now target.old }
{
    if damaged.len() != target.len() {
        return Err(Refusal::WrongLength);
    }
    let n = validate_length::page_count(w, damaged.len());
    let mut t = [0u64; 11];
    if !check_mended::shaped(damaged, w, n, &mut t) {
        return Err(Refusal::BeyondMending);
    }
    write(target, damaged, w, n, &t);
    let pages = n as u16;
    Ok(pages)
}
