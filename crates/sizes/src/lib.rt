// Sizes, classes and offsets.
#![tactic(auto)]

ghost use Rattle.std.specs.Prelude.{◌≡◌, ◌+◌, ◌*◌, ◌≤◌};
ghost use Rattle.model.specs.Classes.{chunk, pages_for};
ghost use Rattle.sizes.specs.Mirror.{class_for};

use answers::Offset;
use records::{PAGE, PageNumber};

// The smallest class whose chunk holds the size: by the count of leading zeros, without a choice for each class. Sizes up to 8 all
// have a 7 here.
pub fn class_for(size: u32) -> u8
    requires { (1 ≤ size) × (size ≤ 2048) }
    ensures answer { result ≡ class_for size }
    ensures bound { result ≤ 8 }
{
    (29 - u32::leading_zeros(size - 1 | 7)) as u8
}

// The size over 4,096, rounded up.
pub fn pages_for(size: u32) -> u32
    ensures { result ≡ pages_for size }
{
    size / PAGE + (size % PAGE + 4095) / PAGE
}

// The offset of byte x of page p.
pub fn offset_in(p: PageNumber, x: u32) -> Offset
    requires { x ≤ 268435455 }
    ensures { result.0 ≡ 4096 * p.0 + x }
{
    Offset(PAGE * p.0 as u32 + x)
}

// The bytes of a chunk; as a power of two written so, products with it become shifts.
pub fn chunk_size(c: u8) -> u32
    requires { c ≤ 8 }
    ensures { (result ≡ chunk c) × (result ≤ 2048) × (1 ≤ result) }
{
    1 << (3 + c)
}

// Chunk i of class c begins so many bytes into its page.
pub fn chunk_start(c: u8, i: u16) -> u32
    requires { c ≤ 8 }
    ensures answer { result ≡ chunk c * i }
    ensures bound { result ≤ 268435455 }
{
    chunk_size(c) * i as u32
}
