// Bytes of one slice laid over another.
#![tactic(auto)]

ghost use Rattle.std.specs.Prelude.{◌≡◌, ◌+◌, ◌≤◌, length};
ghost use Rattle.copying.specs.Lay.{lay};

// Copies n bytes of the source, from place `from` on, to place `to` of the target.
pub fn copy(target: &mut [u8], to: usize, source: &[u8], from: usize, n: usize)
    requires { (to + n ≤ length target.old) × (from + n ≤ length source.now) }
    ensures { target.new ≡ lay to from source.now n target.old }
{
    for i in 0..n {
        target[to + i] = source[from + i];
    }
}
