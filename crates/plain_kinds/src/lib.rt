// Rules 2 and 5 on a plain state: each page is what its kind says. Read kind_ok, the last, first.
#![tactic(auto)]

ghost use Rattle.std.specs.Prelude.{◌≡◌, false, ◌+◌, ◌≤◌, ◌<◌, ltb};
ghost use Rattle.base.specs.Tests.{pick, all_below};
ghost use Rattle.model.specs.Classes.{own, chunks};
ghost use Rattle.plain.specs.Plain.{mark_of};
ghost use Rattle.plain_rules.specs.Counts.{hands_on};
ghost use Rattle.plain_rules.specs.Rules.{class_ok, is_inside, run_ok, run_reaches, inside_ok, kind_ok};

use branchless::both;
use plain::PageEntry;

// Whether the first chunks of page p, of class c, which has n chunks, are marked.
#[tactic(auto, using(branchless::proofs::Loops::alls))]
fn own_marked(bytes: &[u8], p: usize, c: u8, n: usize, first: usize) -> bool
    requires { (p < 12) × (n ≡ chunks c) × (n ≤ 512) × (first ≤ n) }
    ensures { result ≡ all_below (mark_of bytes.now p c) first }
{
    for i in 0..first {
        if !plain_chunks::is_marked(bytes, p, c, n, i) {
            return false;
        }
    }
    true
}

#[tactic(auto, using(crate::proofs::Reaching::own_bounds))]
fn class_marks_ok(bytes: &[u8], p: usize, c: u8) -> bool
    requires { (p < 12) × (c ≤ 8) }
    ensures { result ≡ pick (all_below (mark_of bytes.now p c) (own c)) (ltb 0 (hands_on c (mark_of bytes.now p c))) false }
{
    let n = classes::chunk_count(c);
    let first = classes::own_count(c);
    let set = own_marked(bytes, p, c, n as usize, first as usize);
    let held = plain_counts::hands_on(bytes, p, c);
    both(set, 0 < held)
}

#[tactic(auto, unfolding(plain_rules::specs::Rules::class_ok, base::specs::Tests::pick))]
fn class_ok(bytes: &[u8], p: usize, c: u8) -> bool
    requires { p < 12 }
    ensures { result ≡ class_ok bytes.now p c }
{
    c <= 8 && class_marks_ok(bytes, p, c)
}

#[tactic(auto, unfolding(plain_rules::specs::Rules::is_inside))]
fn is_inside(pages: [PageEntry; 12], p: usize) -> bool
    ensures { result ≡ is_inside pages p }
{
    plain_counts::entry(pages, p).kind == 3
}

#[tactic(auto, using(branchless::proofs::Loops::alls))]
fn all_inside(pages: [PageEntry; 12], p: usize, n: usize) -> bool
    requires { (p < 12) × (n < 4294967296) }
    ensures { result ≡ all_below (λ i. is_inside pages (p + 1 + i)) n }
{
    for i in 0..n {
        if !is_inside(pages, p + 1 + i) {
            return false;
        }
    }
    true
}

// The first of a taken run of n pages: at least one, and the others are inside.
#[tactic(auto, unfolding(plain_rules::specs::Rules::run_ok, base::specs::Tests::pick))]
fn run_ok(pages: [PageEntry; 12], p: usize, n: u32) -> bool
    requires { p < 12 }
    ensures { result ≡ run_ok pages p n }
{
    n != 0 && all_inside(pages, p, (n - 1) as usize)
}

// Whether page q, with the entry e, is the first of a taken run that reaches page p.
#[tactic(auto, unfolding(plain_rules::specs::Rules::run_reaches, base::specs::Tests::pick))]
fn run_reaches(e: PageEntry, q: usize, p: usize) -> bool
    requires { q < 12 }
    ensures { result ≡ run_reaches p q e }
{
    e.kind == 2 && p < q + e.run as usize
}

// Another page of a taken run: one before it reaches it.
#[tactic(auto, using(crate::proofs::Reaching::anys), unfolding(plain_rules::specs::Rules::inside_ok))]
fn inside_ok(pages: [PageEntry; 12], p: usize) -> bool
    requires { p < 12 }
    ensures { result ≡ inside_ok pages p }
{
    for q in 0..p {
        if run_reaches(plain_counts::entry(pages, q), q, p) {
            return true;
        }
    }
    false
}

// Whether page p, with the entry e, is what its kind says.
#[tactic(auto, unfolding(plain_rules::specs::Rules::kind_ok, base::specs::Tests::pick))]
pub fn kind_ok(pages: [PageEntry; 12], bytes: &[u8], p: usize, e: PageEntry) -> bool
    requires { p < 12 }
    ensures { result ≡ kind_ok pages bytes.now p e }
{
    match e.kind {
        0 => true,
        1 => class_ok(bytes, p, e.class),
        2 => run_ok(pages, p, e.run),
        3 => inside_ok(pages, p),
        _ => false,
    }
}
