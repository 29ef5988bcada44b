// Tests without branches, in the words of the rules: each is a call, so that a function over them is one composition.
#![tactic(auto)]

ghost use Rattle.std.specs.Prelude.{◌≡◌, true, false, [], ◌∷◌, ◌-◌, ◌≤◌};
ghost use Rattle.base.specs.Count.{bit};
ghost use Rattle.base.specs.Tests.{pick, all_of};

pub fn both(a: bool, b: bool) -> bool
    ensures { result ≡ pick a b false }
{
    if a { b } else { false }
}

// b, where a holds.
pub fn implies(a: bool, b: bool) -> bool
    ensures { result ≡ pick a b true }
{
    if a { b } else { true }
}

// All of them are looked at. They are lent: an array by value is packed into one integer and taken apart again.
pub fn all<const N: usize>(tests: &[bool; N]) -> bool
    ensures { result ≡ all_of tests.now }
{
    let mut holds = true;
    for t in tests {
        holds = both(*t, holds);
    }
    holds
}

// One for a test that holds.
pub fn one_if(a: bool) -> u64
    ensures answer { result ≡ bit a }
    ensures bound { result ≤ 1 }
{
    if a { 1 } else { 0 }
}
