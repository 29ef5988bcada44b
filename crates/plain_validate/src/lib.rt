// Rules 2 to 6 on what is kept by value; those of the table of free runs are tried where it stands. Read is_sound, the last, first.
#![tactic(auto)]

ghost use Rattle.std.specs.Prelude.{◌≡◌, ◌<◌, get_or};
ghost use Rattle.base.specs.Tests.{all_below};
ghost use Rattle.plain.specs.Plain.{no_counts};
ghost use Rattle.plain_rules.specs.Rules.{counts_ok};
ghost use Rattle.plain_rules.specs.Mirror.{kept_page_ok, kept_sound};

use branchless::{all, both};
use plain::{Counts, Kept, PageEntry};

// ---- rule 6: counts

#[tactic(auto, unfolding(plain_rules::specs::Rules::counts_ok))]
fn counts_ok(pages: [PageEntry; 12], bytes: &[u8], c: u8, x: Counts) -> bool
    ensures { result ≡ counts_ok pages bytes.now c x }
{
    both(
        x.used == plain_counts::count_used(pages, bytes, c),
        x.total == plain_counts::count_total(pages, c),
    )
}

#[tactic(auto, using(branchless::proofs::Loops::alls), unfolding(plain::specs::Plain::no_counts))]
fn classes_ok(pages: [PageEntry; 12], bytes: &[u8], counts: [Counts; 9]) -> bool
    ensures { result ≡ all_below (λ c. counts_ok pages bytes.now c (get_or counts c no_counts)) 9 }
{
    for (c, x) in counts.iter().enumerate() {
        if !counts_ok(pages, bytes, c as u8, *x) {
            return false;
        }
    }
    true
}

// ---- all of them

#[tactic(auto, unfolding(plain_rules::specs::Mirror::kept_page_ok))]
fn page_ok(pages: [PageEntry; 12], ready: [u8; 12], bytes: &[u8], p: usize) -> bool
    requires { p < 12 }
    ensures { result ≡ kept_page_ok pages ready bytes.now p }
{
    let e = plain_counts::entry(pages, p);
    let kind = plain_kinds::kind_ok(pages, bytes, p, e);
    let listed = plain_lists::list_ok(bytes, ready, p, e);
    both(kind, listed)
}

#[tactic(auto, using(branchless::proofs::Loops::alls))]
fn pages_ok(pages: [PageEntry; 12], ready: [u8; 12], bytes: &[u8]) -> bool
    ensures { result ≡ all_below (kept_page_ok pages ready bytes.now) 12 }
{
    for p in 0..12 {
        if !page_ok(pages, ready, bytes, p) {
            return false;
        }
    }
    true
}

#[tactic(auto, unfolding(plain_rules::specs::Mirror::kept_sound))]
pub fn is_sound(s: Kept, bytes: &[u8]) -> bool
    ensures { result ≡ kept_sound s bytes.now }
{
    all(&[
        pages_ok(s.pages, s.ready, bytes),
        s.free == plain_counts::count_free(s.pages),
        classes_ok(s.pages, bytes, s.counts),
    ])
}
