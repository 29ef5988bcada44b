// How many marks of a map are set, by counting the ones of its words.
#![tactic(auto)]

ghost use Rattle.std.specs.Prelude.{◌≡◌, ◌+◌, ◌*◌, ◌/◌, ◌≤◌, ◌<◌, length};
ghost use Rattle.base.specs.Count.{count};
ghost use Rattle.maps.specs.Bitmap.{mark};
ghost use Rattle.map_count.specs.Mirror.{map_bits};

// Of the map of M words that begins at word k. The number is a constant, so that no loop is left of it.
fn ones<const M: usize>(pool: &[u8], k: usize) -> usize
    requires { (k + M ≤ length pool.now / 8) × (M ≤ 8) }
    ensures answer { result ≡ count (mark pool.now (8 * k)) (64 * M) }
    ensures bound { result ≤ 64 * M }
{
    let mut n = 0;
    for j in 0..M {
        n += u64::count_ones(cells::get_word_in(pool, k + j)) as usize;
    }
    n
}

// Of the map of a page of class c, which begins at word k.
pub fn count_marks(pool: &[u8], k: usize, c: u8) -> usize
    requires { k + 7 < length pool.now / 8 }
    ensures answer { result ≡ count (mark pool.now (8 * k)) (map_bits c) }
    ensures bound { result ≤ 512 }
{
    if 2 < c {
        return ones::<1>(pool, k);
    }
    match c {
        0 => ones::<8>(pool, k),
        1 => ones::<4>(pool, k),
        _ => ones::<2>(pool, k),
    }
}
