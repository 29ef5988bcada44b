// The three counts that a counter of the pass over the pages holds.
#![tactic(auto)]

ghost use Rattle.std.specs.Prelude.{◌≡◌, ◌/◌, ◌%◌, ◌<◌, get_or};

use validate_pages::{SECOND, THIRD};

pub fn low(t: &[u64; 11], j: usize) -> u64
    requires { j < 11 }
    ensures { result ≡ get_or t.now j 0 % 4294967296 }
{
    t[j] % SECOND
}

pub fn middle(t: &[u64; 11], j: usize) -> u64
    requires { j < 11 }
    ensures answer { result ≡ get_or t.now j 0 / 4294967296 % 65536 }
    ensures bound { result < 65536 }
{
    t[j] / SECOND % 65536
}

pub fn high(t: &[u64; 11], j: usize) -> u64
    requires { j < 11 }
    ensures { result ≡ get_or t.now j 0 / 281474976710656 }
{
    t[j] / THIRD
}
