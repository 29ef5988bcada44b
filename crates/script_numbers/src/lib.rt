// Decimal numbers in a script.
#![tactic(auto)]

ghost use Rattle.std.specs.Prelude.{◌≡◌, true, ◌+◌, ◌-◌, ◌*◌, ◌≤◌, eqb, leb, length, get_or};
ghost use Rattle.base.specs.Tests.{pick, all_below};
ghost use Rattle.script_numbers.specs.Numeral.{is_digit, value_of, is_number, capped};

use branchless::{all, implies};

#[tactic(auto, using(base::proofs::Tests::picks), unfolding(crate::specs::Numeral::is_digit))]
fn is_digit(b: u8) -> bool
    ensures { result ≡ is_digit b }
{
    matches!(b, b'0'..=b'9')
}

fn all_digits(s: &[u8]) -> bool
    ensures { result ≡ all_below (λ i. is_digit (get_or s.now i 0)) (length s.now) }
{
    s.iter().all(|b| is_digit(*b))
}

// A zero leads only the number 0.
fn zero_alone(s: &[u8]) -> bool
    ensures { result ≡ pick (eqb (get_or s.now 0 0) 48) (eqb (length s.now) 1) true }
{
    implies(cells::get_byte(s, 0) == 48, s.len() == 1)
}

#[tactic(auto, using(base::proofs::Tests::picks), unfolding(crate::specs::Numeral::capped))]
fn cap(v: u64) -> u64
    ensures answer { result ≡ capped v }
    ensures bound { result ≤ 4294967296 }
{
    v.min(4294967296)
}

// One digit more.
fn shifted(v: u64, b: u8) -> u64
    requires { v ≤ 4294967296 }
    ensures answer { result ≡ capped (v * 10 + (b - 48)) }
    ensures bound { result ≤ 4294967296 }
{
    cap(v * 10 + b.saturating_sub(48) as u64)
}

#[tactic(auto, using(crate::proofs::Values::values))]
fn value(s: &[u8]) -> u64
    ensures answer { result ≡ capped (value_of s.now (length s.now)) }
    ensures bound { result ≤ 4294967296 }
{
    let mut v: u64 = 0;
    for b in s {
        v = shifted(v, *b);
    }
    v
}

fn in_range(s: &[u8]) -> bool
    ensures { result ≡ leb (value_of s.now (length s.now)) 4294967295 }
{
    value(s) <= 4294967295
}

pub fn is_number(s: &[u8]) -> bool
    ensures { result ≡ is_number s.now }
{
    all(&[0 < s.len(), all_digits(s), zero_alone(s), in_range(s)])
}

pub fn number(s: &[u8]) -> u32
    requires { is_number s.now ≡ true }
    ensures { result ≡ value_of s.now (length s.now) }
{
    value(s) as u32
}
