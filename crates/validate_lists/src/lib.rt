// Rules 3 and 4 of a pool that was scanned: the free-run list and the nine class lists, each walked once.
#![tactic(auto)]

ghost use Rattle.std.specs.Prelude.{◌≡◌, ◌<◌};
ghost use Rattle.base.specs.Tests.{all_below};
ghost use Rattle.rules.specs.Rules.{rule3, rule4, class_list};
ghost use Rattle.rules.specs.Bytes.{fields_of};
ghost use Rattle.validate_totals.specs.Mirror.{Scanned};

use records::PageNumber;
use validate_pages::{FAULTS, FREE};

// Rule 3: as many pages are on the free-run list as begin a free run.
pub fn free_list(pool: &[u8], w: u8, n: usize, t: &[u64; 11]) -> bool
    requires { Scanned w pool.now n t.now }
    ensures { result ≡ rule3 (fields_of w pool.now) n }
{
    let h = record_header::get_header(pool);
    let heads = validate_totals::middle(t, FREE) as usize;
    validate_walk::follow(pool, w, n, 0, heads, h.first_run)
}

// As many pages are on the list of class c as have a clear mark.
fn class_list(pool: &[u8], w: u8, n: usize, t: &[u64; 11], c: u8) -> bool
    requires { Scanned w pool.now n t.now × (c < 9) }
    ensures { result ≡ class_list (fields_of w pool.now) n c }
{
    let r = record_class::get_class(pool, w, c);
    let open = validate_totals::high(t, c as usize) as usize;
    validate_walk::follow(pool, w, n, 1 + c, open, r.first)
}

fn class_lists(pool: &[u8], w: u8, n: usize, t: &[u64; 11]) -> bool
    requires { Scanned w pool.now n t.now }
    ensures { result ≡ all_below (class_list (fields_of w pool.now) n) 9 }
{
    for c in 0..9 {
        if !class_list(pool, w, n, t, c) {
            return false;
        }
    }
    true
}

// Rule 4: and no full page has links.
pub fn class_pages_listed(pool: &[u8], w: u8, n: usize, t: &[u64; 11]) -> bool
    requires { Scanned w pool.now n t.now }
    ensures { result ≡ rule4 (fields_of w pool.now) n }
{
    let linked = class_lists(pool, w, n, t);
    let strays = validate_totals::middle(t, FAULTS);
    branchless::both(linked, strays == 0)
}
