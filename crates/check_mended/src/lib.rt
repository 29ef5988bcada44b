// Whether a mended copy of a damaged pool is accepted, whoever mended it (SPEC 14). `w` is the number of words of a class record.
#![tactic(auto)]

ghost use Rattle.std.specs.Prelude.{◌≡◌, true, ℕ, ◌+◌, ◌-◌, ◌≤◌, ◌<◌, eqb, length, get_or};
ghost use Rattle.base.specs.Tests.{pick, all_below};
ghost use Rattle.records.specs.Layout.{no_page, pages_from};
ghost use Rattle.answers.specs.Outcome.{of_batch};
ghost use Rattle.rules.specs.Bytes.{pages_in, fields_of};
ghost use Rattle.validate_totals.specs.Mirror.{Scanned};
ghost use Rattle.mending.specs.Mending.{shaped};
ghost use Rattle.mending.specs.Checked.{same_record, same_page_at, same_byte_from, compared, check_outcome};

use answers::Refusal;
use records::{Links, PageNumber};

// ---- what of the damaged pool must be good

// Whether rules 1, 2 and 5 hold, links and zero bits set aside; where they do, the counters are those of all pages.
pub fn shaped(pool: &[u8], w: u8, n: usize, t: &mut [u64; 11]) -> bool
    requires { (n ≡ pages_in w pool.now) × (length t.old ≡ 11) × ((j : ℕ) → get_or t.old j 0 ≡ 0) }
    ensures answer { result ≡ shaped w pool.now }
    ensures counters { result ≡ true → Scanned w pool.now n t.new }
{
    if !validate_length::header_fits(pool, w, n) {
        return false;
    }
    if !validate_shape::scan(pool, w, n, t) {
        return false;
    }
    validate_counts::in_use(pool, w, n, t)
}

// ---- two pools compared: the pages that their records tell, and all page bytes and the tail

fn choose(t: bool, a: bool, b: bool) -> bool
    ensures { result ≡ pick t a b }
{
    if t { a } else { b }
}

fn same_record(l: Links, k: Links, map: u64, other: u64) -> bool
    ensures { result ≡ same_record l k map other }
{
    let same = branchless::all(&[
        l.kind == k.kind,
        l.class == k.class,
        l.run == k.run,
        map == other,
    ]);
    choose(l.kind <= 1, k.kind <= 1, same)
}

fn same_page(s: &[u8], t: &[u8], w: u8, p: PageNumber) -> bool
    ensures { result ≡ same_page_at (fields_of w s.now) (fields_of w t.now) p.0 }
{
    let l = validate_fields::links_of(s, w, p);
    let k = validate_fields::links_of(t, w, p);
    let map = validate_fields::map_of(s, w, p);
    let other = validate_fields::map_of(t, w, p);
    same_record(l, k, map, other)
}

// The first page that differs ends the pass.
fn same_pages(s: &[u8], t: &[u8], w: u8, n: usize) -> bool
    requires { n ≤ no_page }
    ensures { result ≡ all_below (same_page_at (fields_of w s.now) (fields_of w t.now)) n }
{
    for p in 0..n {
        let at = p as u16;
        if !same_page(s, t, w, PageNumber(at)) {
            return false;
        }
    }
    true
}

fn same_byte(s: &[u8], t: &[u8], from: usize, i: usize) -> bool
    requires { (from + i < length s.now) × (from + i < length t.now) }
    ensures { result ≡ same_byte_from from s.now t.now i }
{
    s[from + i] == t[from + i]
}

// The bytes from this place on, all of them: without a way out of the loop many are compared at once.
fn same_from(s: &[u8], t: &[u8], from: usize) -> bool
    requires { (from ≤ length s.now) × (length s.now ≡ length t.now) }
    ensures { result ≡ all_below (same_byte_from from s.now t.now) (length s.now - from) }
{
    let count = s.len() - from;
    let mut same = true;
    for i in 0..count {
        same = branchless::both(same_byte(s, t, from, i), same);
    }
    same
}

// A sound copy: the maps of small classes lie in the pages, so that these come first.
fn compare(damaged: &[u8], mended: &[u8], w: u8, n: usize) -> Result<(), Refusal>
    requires { (n ≡ pages_in w damaged.now) × (n ≤ 4096) × (pages_from w n ≤ length damaged.now) × (length damaged.now ≡ length mended.now) }
    ensures { of_batch result ≡ compared w damaged.now mended.now }
{
    if !same_from(damaged, mended, 8 * (1 + 9 * w as usize + 2 * n)) {
        return Err(Refusal::OtherBlocks);
    }
    if !same_pages(damaged, mended, w, n) {
        return Err(Refusal::OtherBlocks);
    }
    Ok(())
}

fn same_edition(s: &[u8], t: &[u8]) -> bool
    ensures { result ≡ eqb (get_or s.now 0 0) (get_or t.now 0 0) }
{
    cells::get_byte(s, 0) == cells::get_byte(t, 0)
}

// Accepts the copy, or tells the refusal.
pub fn check_mended(damaged: &[u8], mended: &[u8], w: u8) -> Result<(), Refusal>
    ensures { of_batch result ≡ check_outcome w damaged.now mended.now }
{
    if damaged.len() != mended.len() {
        return Err(Refusal::WrongLength);
    }
    if !same_edition(damaged, mended) {
        return Err(Refusal::WrongLength);
    }
    let n = validate_length::page_count(w, damaged.len());
    let mut t = [0u64; 11];
    if !shaped(damaged, w, n, &mut t) {
        return Err(Refusal::BeyondMending);
    }
    if !validate::validate(mended, w) {
        return Err(Refusal::NotSound);
    }
    compare(damaged, mended, w, n)
}
