// The table of free runs, lent, and read and changed where it stands.
// It has at least 12 entries, of which the first 12 are the table; what stands behind them stays.
#![tactic(auto)]

ghost use Rattle.std.specs.Prelude.{◌≡◌, ◌++◌, ◌≤◌, length, get_or, take, drop};
ghost use Rattle.std.specs.List.{position};
ghost use Rattle.plain.specs.Arrays.{place_of, pushed};
ghost use Rattle.plain.specs.Table.{vacant, is_vacant, first_fit, len_of, cleared};
ghost use Rattle.plain.specs.Mirror.{carved, returned};
ghost use Rattle.plain_runs.specs.Tests.{passing};

use plain::Extent;
use plain_runs::Test;

// ---- entries

// One entry of the table; an empty place past its end.
pub fn entry(table: &[Extent], i: usize) -> Extent
    requires { 12 ≤ length table.now }
    ensures { result ≡ get_or (take 12 table.now) i vacant }
{
    if i < 12 {
        table[i]
    } else {
        plain_runs::no_run()
    }
}

// The place of the first entry that passes the test; 12 where none does.
pub fn scan(table: &[Extent], test: Test) -> usize
    requires { 12 ≤ length table.now }
    ensures { result ≡ place_of (passing test) (take 12 table.now) }
{
    first_passing(&table[..12], test).unwrap_or(12)
}

fn first_passing(table: &[Extent], test: Test) -> Option<usize>
    ensures { result ≡ position (passing test) table.now }
{
    table.iter().position(|e| plain_runs::passes(test, *e))
}

// The place of the first run of at least k pages; 12 where there is none.
pub fn first_fit(table: &[Extent], k: u32) -> usize
    requires { 12 ≤ length table.now }
    ensures { result ≡ first_fit k (take 12 table.now) }
{
    scan(table, plain_runs::holding(k))
}

// The pages of the first entry that passes the test; 0 where none does.
fn len_of(table: &[Extent], test: Test) -> u32
    requires { 12 ≤ length table.now }
    ensures { result ≡ len_of (passing test) (take 12 table.now) }
{
    plain_runs::pages_of(entry(table, scan(table, test)))
}

// ---- pages taken

// The entry at i loses its front k pages, and keeps its place; of no pages, or past the table's end, nothing changes.
pub fn carve(table: &mut [Extent], i: usize, k: u32)
    requires { 12 ≤ length table.old }
    ensures { table.new ≡ carved i k (take 12 table.old) ++ drop 12 table.old }
{
    if k != 0 && i < 12 {
        table[i] = plain_runs::cut_front(table[i], k);
    }
}

// ---- pages released

// Each entry that touches the pages from p up to q becomes an empty place.
fn clear_touching(table: &mut [Extent], p: u32, q: u32)
    requires { 12 ≤ length table.old }
    ensures { table.new ≡ cleared p q (take 12 table.old) ++ drop 12 table.old }
{
    for e in &mut table[..12] {
        *e = plain_runs::set_apart(*e, p, q);
    }
}

// e becomes the head, and the entries before the first empty place move one place on.
fn push_front(table: &mut [Extent], e: Extent)
    requires { 12 ≤ length table.old }
    ensures { table.new ≡ pushed is_vacant e (take 12 table.old) ++ drop 12 table.old }
{
    let mut carry = e;
    for place in &mut table[..12] {
        let x = *place;
        *place = carry;
        if plain_runs::is_vacant(x) {
            break;
        }
        carry = x;
    }
}

// The k pages from p on are joined with the runs that touch them, and the whole becomes the head; of no pages nothing changes.
pub fn release(table: &mut [Extent], p: u32, k: u32)
    requires { 12 ≤ length table.old }
    ensures { table.new ≡ returned p k (take 12 table.old) ++ drop 12 table.old }
{
    if k == 0 {
        return;
    }
    let q = plain_runs::add(p, k);
    let l = len_of(table, plain_runs::ending_before(p));
    let r = len_of(table, plain_runs::beginning_at(q));
    clear_touching(table, p, q);
    push_front(table, plain_runs::whole_run(p, k, l, r));
}
