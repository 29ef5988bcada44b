// Rules 2 and 3 on the lent table of free runs, which is read where it stands.
#![tactic(auto)]

ghost use Rattle.std.specs.Prelude.{◌≡◌, not, false, ◌≤◌, eqb, length, take};
ghost use Rattle.base.specs.Count.{bit};
ghost use Rattle.base.specs.Tests.{pick};
ghost use Rattle.plain_rules.specs.Counts.{free_page};
ghost use Rattle.plain_rules.specs.Rules.{how_many, holds_page, extent_ok};
ghost use Rattle.plain_rules.specs.Mirror.{table_ok};

use branchless::{both, one_if};
use plain::{Extent, PageEntry};

// Each entry is a run that ends within the pages, and that no free page borders, or an empty place; a free page stands in one entry,
// any other in none.
#[tactic(auto, using(branchless::proofs::Loops::alls), unfolding(plain_rules::specs::Mirror::table_ok))]
pub fn table_ok(runs: &[Extent], pages: [PageEntry; 12]) -> bool
    requires { 12 ≤ length runs.now }
    ensures { result ≡ table_ok pages (take 12 runs.now) }
{
    for p in 0..12 {
        if breaks_rule(pages, count_holding(runs, p), plain_lent::entry(runs, p), p) {
            return false;
        }
    }
    true
}

// How many entries have page p.
fn count_holding(runs: &[Extent], p: usize) -> usize
    requires { 12 ≤ length runs.now }
    ensures { result ≡ how_many (holds_page p) (take 12 runs.now) }
{
    count_all(&runs[..12], p)
}

#[tactic(auto, using(plain_rules::proofs::Many::many_count))]
fn count_all(table: &[Extent], p: usize) -> usize
    ensures { result ≡ how_many (holds_page p) table.now }
{
    table
        .iter()
        .filter(|e| plain_lists::holds_page(**e, p))
        .count()
}

// Whether page p, which stands in so many entries, or the entry e breaks a rule.
fn breaks_rule(pages: [PageEntry; 12], times: usize, e: Extent, p: usize) -> bool
    ensures { result ≡ not (pick (eqb times (bit (free_page pages p))) (extent_ok pages e) false) }
{
    let due = one_if(plain_counts::is_free(pages, p));
    let listed = times as u64 == due;
    let fine = plain_lists::extent_ok(pages, e);
    !both(listed, fine)
}
