// Whether a pool's records are sound (SPEC 3): one pass over the pages and one walk along each list.
// `w` is the number of words of a class record.
#![tactic(auto)]

ghost use Rattle.std.specs.Prelude.{◌≡◌, ◌≤◌, eqb};
ghost use Rattle.rules.specs.Bytes.{pages_in, broken_rule};
ghost use Rattle.validate_totals.specs.Mirror.{Scanned};
ghost use Rattle.validate.specs.Mirror.{from_rule2, from_rule3};

// The first of rules 3 to 6 that does not hold.
fn broken_list_or_count(pool: &[u8], w: u8, n: usize, t: &[u64; 11]) -> u8
    requires { Scanned w pool.now n t.now }
    ensures { result ≡ from_rule3 w pool.now n }
{
    if !validate_lists::free_list(pool, w, n, t) {
        return 3;
    }
    if !validate_lists::class_pages_listed(pool, w, n, t) {
        return 4;
    }
    if !validate_counts::in_use(pool, w, n, t) {
        return 5;
    }
    if !validate_counts::counts_and_peaks_fit(pool, w, n, t) {
        return 6;
    }
    0
}

// The first of rules 2 to 6 that does not hold.
fn broken_page(pool: &[u8], w: u8, n: usize) -> u8
    requires { (n ≡ pages_in w pool.now) × (n ≤ 4096) }
    ensures { result ≡ from_rule2 w pool.now n }
{
    let mut t = [0u64; 11];
    if !validate_pages::scan(pool, w, n, &mut t) {
        return 2;
    }
    broken_list_or_count(pool, w, n, &t)
}

// The number of the first rule that the pool breaks; 0 where it is sound.
pub fn broken_rule(pool: &[u8], w: u8) -> u8
    ensures { result ≡ broken_rule w pool.now }
{
    let n = validate_length::page_count(w, pool.len());
    if !validate_length::header_fits(pool, w, n) {
        return 1;
    }
    broken_page(pool, w, n)
}

fn is_none(rule: u8) -> bool
    ensures { result ≡ eqb rule 0 }
{
    rule == 0
}

// Whether the pool keeps all six rules.
pub fn validate(pool: &[u8], w: u8) -> bool
    ensures { result ≡ eqb (broken_rule w pool.now) 0 }
{
    is_none(broken_rule(pool, w))
}
