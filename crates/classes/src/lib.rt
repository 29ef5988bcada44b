// The nine classes: how many chunks their pages are cut into, and how large their maps are.
#![tactic(auto)]

ghost use Rattle.std.specs.Prelude.{◌≡◌, ◌/◌, ◌≤◌};
ghost use Rattle.model.specs.Classes.{chunks, own, counted};
ghost use Rattle.map_count.specs.Mirror.{map_bits};
ghost use Rattle.classes.specs.Mirror.{own_word};

// The chunks that a page of class c is cut into, where the caller knows that c is a class.
pub fn class_chunks(c: u8) -> u16
    requires { c ≤ 8 }
    ensures { result ≡ chunks c }
{
    512 >> c
}

// The same for any c.
pub fn chunk_count(c: u8) -> u16
    ensures { result ≡ chunks c }
{
    if c < 9 { class_chunks(c) } else { 1 }
}

// The chunks that the map itself takes.
pub fn own_count(c: u8) -> u16
    ensures answer { result ≡ own c }
    ensures bound { result ≤ 8 }
{
    match c {
        0 => 8,
        1 => 2,
        2 => 1,
        _ => 0,
    }
}

// The same without a choice, where the caller knows that c is a class: digit c of a number in hexadecimal.
pub fn class_own(c: u8) -> u16
    requires { c ≤ 8 }
    ensures answer { result ≡ own c }
    ensures bound { result ≤ 8 }
{
    let digits: u64 = 296;
    ((digits >> (4 * c)) % 16) as u16
}

// The top bits of a map's first word that mark them.
pub fn own_word(c: u8) -> u64
    ensures { result ≡ own_word c }
{
    match c {
        0 => 18374686479671623680,
        1 => 13835058055282163712,
        2 => 9223372036854775808,
        _ => 0,
    }
}

// The same without a choice, where the caller knows that c is a class.
pub fn class_own_word(c: u8) -> u64
    requires { c ≤ 8 }
    ensures { result ≡ own_word c }
{
    !(18446744073709551615 >> class_own(c))
}

// The bytes of a map: in a page a bit for each chunk, in a record 8.
pub fn map_bytes(c: u8) -> u16
    ensures answer { result ≡ map_bits c / 8 }
    ensures bound { 8 ≤ result }
{
    match c {
        0 => 64,
        1 => 32,
        2 => 16,
        _ => 8,
    }
}

// The chunks of a page that `total` counts: those that serve callers.
pub fn total_count(c: u8) -> u16
    ensures { result ≡ counted c }
{
    chunk_count(c) - own_count(c)
}
