// The chunk map of a new page.
#![tactic(auto)]

ghost use Rattle.std.specs.Prelude.{◌≡◌, ◌≤◌, ltb, length};
ghost use Rattle.maps.specs.Bitmap.{bits_of};
ghost use Rattle.maps.specs.Mirror.{new_map, with_new_map};

// A word whose first k bits are set.
fn top_word(k: u16) -> u64
    requires { k ≤ 63 }
    ensures { result ≡ bits_of (λ i. ltb i k) 64 }
{
    !(18446744073709551615 >> k)
}

// Writes the whole map of a new page, each byte once: the first k chunks are taken. Their marks are in the first word.
pub fn write_new_map(map: &mut [u8], k: u16)
    requires { (8 ≤ length map.old) × (k ≤ 63) }
    ensures { map.new ≡ new_map (length map.old) k }
{
    words::put64(map, 0, top_word(k));
    for j in 8..map.len() {
        map[j] = 0;
    }
}

// Lends the new page's map on to the function that writes it; one that does not lie inside the pool is not written.
pub fn write_map_at(pool: &mut [u8], base: u32, bytes: u16, k: u16)
    requires { (8 ≤ bytes) × (k ≤ 63) }
    ensures { pool.new ≡ with_new_map pool.old base bytes k }
{
    let from = base as usize;
    let to = from + bytes as usize;
    if to <= pool.len() {
        write_new_map(&mut pool[from..to], k);
    }
}
