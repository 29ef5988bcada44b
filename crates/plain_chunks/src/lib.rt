// The list of pages with a free chunk, by value, and the bytes of the chunks, lent.
#![tactic(auto)]

ghost use Rattle.std.specs.Prelude.{◌≡◌, ◌<◌, ◌≤◌};
ghost use Rattle.model.specs.Classes.{own, chunks, lowest, has_clear};
ghost use Rattle.plain.specs.Plain.{mark_of};
ghost use Rattle.plain.specs.Chunks.{new_byte, new_bytes, with_byte, listed_first, unlisted};

// ---- the list

// Page p becomes the head, and the pages before the first empty place move one place on.
pub fn list_first(mut table: [u8; 12], p: u8) -> [u8; 12]
    ensures { result ≡ listed_first p table }
{
    let mut carry = p;
    for place in &mut table {
        let x = *place;
        *place = carry;
        if 12 <= x {
            break;
        }
        carry = x;
    }
    table
}

// Page p leaves an empty place.
pub fn unlist(mut table: [u8; 12], p: u8) -> [u8; 12]
    ensures { result ≡ unlisted p table }
{
    for x in &mut table {
        if *x == p {
            *x = 255;
        }
    }
    table
}

// ---- the bytes

// Chunk i of page p is marked with v.
#[tactic(auto, unfolding(plain::specs::Chunks::with_byte))]
pub fn set_mark(bytes: &mut [u8], p: usize, i: usize, v: u8)
    requires { (p < 12) × (i ≤ 512) }
    ensures { bytes.new ≡ with_byte bytes.old p i v }
{
    let at = 512 * p + i;
    if at < bytes.len() {
        bytes[at] = v;
    }
}

// The byte at x, now y, after page p became a new page of class c, whose map takes `first` chunks.
#[tactic(auto, unfolding(plain::specs::Chunks::new_byte, base::specs::Tests::pick))]
fn new_byte(p: usize, c: u8, first: usize, x: usize, y: u8) -> u8
    requires { first ≡ own c }
    ensures { result ≡ new_byte p c x y }
{
    if x / 512 != p {
        y
    } else if x % 512 <= first {
        1
    } else {
        0
    }
}

// Page p becomes a new page of class c.
pub fn new_page(bytes: &mut [u8], p: usize, c: u8, first: usize)
    requires { first ≡ own c }
    ensures { bytes.new ≡ new_bytes bytes.old p c }
{
    for (x, byte) in bytes.iter_mut().enumerate() {
        *byte = new_byte(p, c, first, x, *byte);
    }
}

// Whether chunk i of page p, of class c, which has n chunks, is in use.
pub fn is_marked(bytes: &[u8], p: usize, c: u8, n: usize, i: usize) -> bool
    requires { (p < 12) × (i < n) × (n ≡ chunks c) × (n ≤ 512) }
    ensures { result ≡ mark_of bytes.now p c i }
{
    let at = 512 * p + i;
    at < bytes.len() && bytes[at] != 0
}

// The lowest free chunk of page p, of class c, which has n chunks; n where none is free.
pub fn lowest_free(bytes: &[u8], p: usize, c: u8, n: usize) -> usize
    requires { (p < 12) × (n ≡ chunks c) × (n ≤ 512) }
    ensures { result ≡ lowest c (mark_of bytes.now p c) }
{
    for i in 0..n {
        if !is_marked(bytes, p, c, n, i) {
            return i;
        }
    }
    n
}

// Whether a chunk of page p, of class c, which has n chunks, is free.
pub fn has_free(bytes: &[u8], p: usize, c: u8, n: usize) -> bool
    requires { (p < 12) × (n ≡ chunks c) × (n ≤ 512) }
    ensures { result ≡ has_clear c (mark_of bytes.now p c) }
{
    lowest_free(bytes, p, c, n) < n
}
