// Free on a sound plain state, as SPEC 4.7 to 4.9 tell it. `bytes` has a byte for each chunk.
#![tactic(auto)]

ghost use Rattle.std.specs.Prelude.{◌≡◌, ◌≤◌, ◌<◌, get_or};
ghost use Rattle.model.specs.Classes.{chunk, chunks, starts_chunk, has_taken};
ghost use Rattle.plain.specs.Plain.{free_entry, mark_of};
ghost use Rattle.plain.specs.Pages.{offset_of};
ghost use Rattle.plain.specs.Chunks.{with_byte};
ghost use Rattle.plain.specs.Engine.{free_chunk_bytes};
ghost use Rattle.plain.specs.Mirror.{done_with, kept_freed, chunk_back_done, marked_done, chunk_at_done, chunk_at_bytes, class_done, run_done, kind_done, kind_done_bytes, in_done, in_done_bytes, kept_free, kept_free_bytes};
ghost use Rattle.plain_free.specs.Mirror.{Classed, AllClassed};

use answers::Refusal;
use branchless::both;
use plain::{Counts, Done, Kept, PageEntry};

// What is kept afterwards, with the bytes released or the refusal's number.
#[tactic(auto, unfolding(plain::specs::Mirror::kept_free, plain::specs::Mirror::kept_free_bytes))]
pub fn free_sound(s: Kept, bytes: &mut [u8], at: u32) -> Done
    requires { AllClassed s.pages }
    ensures answer { result ≡ kept_free s bytes.old at }
    ensures slice { bytes.new ≡ kept_free_bytes s bytes.old at }
{
    free_in(s, bytes, (at / 4096) as usize, at % 4096)
}

// Of the block that begins q bytes into page p.
#[tactic(auto, unfolding(plain::specs::Mirror::in_done, plain::specs::Mirror::in_done_bytes, base::specs::Tests::pick))]
fn free_in(s: Kept, bytes: &mut [u8], p: usize, q: u32) -> Done
    requires { (q < 4096) × AllClassed s.pages }
    ensures answer { result ≡ in_done s bytes.old p q }
    ensures slice { bytes.new ≡ in_done_bytes s bytes.old p q }
{
    if p < 12 {
        free_page(s, bytes, p, q)
    } else {
        plain_pages::refuse_as(s, Refusal::Outside)
    }
}

#[tactic(auto, unfolding(crate::specs::Mirror::AllClassed))]
fn free_page(s: Kept, bytes: &mut [u8], p: usize, q: u32) -> Done
    requires { (p < 12) × (q < 4096) × AllClassed s.pages }
    ensures answer { result ≡ kind_done s bytes.old p q (get_or s.pages p free_entry) }
    ensures slice { bytes.new ≡ kind_done_bytes bytes.old p q (get_or s.pages p free_entry) }
{
    free_kind(s, bytes, p as u8, q, plain_counts::entry(s.pages, p))
}

// By the page's kind.
#[tactic(auto, unfolding(plain::specs::Mirror::kind_done, plain::specs::Mirror::kind_done_bytes, crate::specs::Mirror::Classed, base::specs::Tests::pick))]
fn free_kind(s: Kept, bytes: &mut [u8], p: u8, q: u32, e: PageEntry) -> Done
    requires { (p < 12) × (q < 4096) × Classed e }
    ensures answer { result ≡ kind_done s bytes.old p q e }
    ensures slice { bytes.new ≡ kind_done_bytes bytes.old p q e }
{
    match e.kind {
        0 => plain_pages::refuse_as(s, Refusal::NotTaken),
        1 => free_class(s, bytes, p, e.class, q),
        2 => free_run(s, p, e.run, q),
        _ => plain_pages::refuse_as(s, Refusal::NotAStart),
    }
}

// ---- a run

#[tactic(auto, unfolding(plain::specs::Mirror::run_done, base::specs::Tests::pick))]
fn free_run(s: Kept, p: u8, n: u32, q: u32) -> Done
    ensures { result ≡ run_done s p n q }
{
    if q == 0 {
        give_run(s, p, n)
    } else {
        plain_pages::refuse_as(s, Refusal::NotAStart)
    }
}

fn give_run(s: Kept, p: u8, n: u32) -> Done
    ensures { result ≡ done_with (kept_freed s p n) (offset_of n) p n }
{
    plain_pages::grant_with(
        plain_pages::free_pages(s, p as u32, n),
        plain_pages::offset_of(n),
        p as u32,
        n,
    )
}

// ---- a chunk

// Whether a chunk that is not the map's begins q bytes into a page of class c, whose chunks have so many bytes.
#[tactic(auto, using(crate::proofs::Chunked::starts_is))]
fn starts_chunk(c: u8, q: u32, size: u32) -> bool
    requires { (size ≡ chunk c) × (1 ≤ size) }
    ensures { result ≡ starts_chunk c q }
{
    let own = classes::own_count(c);
    both(q % size == 0, own as u32 <= q / size)
}

// Off a chunk's start, or a chunk of the map, is refused first.
fn free_class(s: Kept, bytes: &mut [u8], p: u8, c: u8, q: u32) -> Done
    requires { (p < 12) × (c ≤ 8) × (q < 4096) }
    ensures answer { result ≡ class_done s bytes.old p c q }
    ensures slice { bytes.new ≡ free_chunk_bytes bytes.old p c q }
{
    free_sized(s, bytes, p, c, q, sizes::chunk_size(c))
}

#[tactic(auto, using(crate::proofs::Chunked::in_page), unfolding(plain::specs::Mirror::class_done, plain::specs::Engine::free_chunk_bytes, base::specs::Tests::pick))]
fn free_sized(s: Kept, bytes: &mut [u8], p: u8, c: u8, q: u32, size: u32) -> Done
    requires { (p < 12) × (c ≤ 8) × (q < 4096) × (size ≡ chunk c) × (1 ≤ size) }
    ensures answer { result ≡ class_done s bytes.old p c q }
    ensures slice { bytes.new ≡ free_chunk_bytes bytes.old p c q }
{
    if starts_chunk(c, q, size) {
        free_chunk(s, bytes, p, c, (q / size) as usize)
    } else {
        plain_pages::refuse_as(s, Refusal::NotAStart)
    }
}

#[tactic(auto, unfolding(plain::specs::Mirror::chunk_at_done, plain::specs::Mirror::chunk_at_bytes, base::specs::Tests::pick))]
fn free_chunk(s: Kept, bytes: &mut [u8], p: u8, c: u8, i: usize) -> Done
    requires { (p < 12) × (c ≤ 8) × (i < chunks c) }
    ensures answer { result ≡ chunk_at_done s bytes.old p c i }
    ensures slice { bytes.new ≡ chunk_at_bytes bytes.old p c i }
{
    if is_marked(bytes, p, c, i) {
        free_marked(s, bytes, p, c, i)
    } else {
        plain_pages::refuse_as(s, Refusal::NotTaken)
    }
}

#[tactic(auto, using(plain_counts::proofs::Counting::count_most))]
fn is_marked(bytes: &[u8], p: u8, c: u8, i: usize) -> bool
    requires { (p < 12) × (i < chunks c) }
    ensures { result ≡ mark_of bytes.now p c i }
{
    plain_chunks::is_marked(bytes, p as usize, c, classes::chunk_count(c) as usize, i)
}

// The mark is cleared; a page that was full returns to the head of the list, and one without a chunk in callers' hands is released.
#[tactic(auto, using(crate::proofs::Chunked::chunk_bounds), unfolding(plain::specs::Mirror::marked_done))]
fn free_marked(s: Kept, bytes: &mut [u8], p: u8, c: u8, i: usize) -> Done
    requires { (p < 12) × (c ≤ 8) × (i < chunks c) }
    ensures answer { result ≡ marked_done s bytes.old p c i }
    ensures slice { bytes.new ≡ with_byte bytes.old p i 0 }
{
    let n = classes::chunk_count(c);
    let clear = plain_chunks::has_free(bytes, p as usize, c, n as usize);
    plain_chunks::set_mark(bytes, p as usize, i, 0);
    take_back(s, p, c, clear, has_taken(bytes, p, c))
}

#[tactic(auto, using(crate::proofs::Chunked::taken_told))]
fn has_taken(bytes: &[u8], p: u8, c: u8) -> bool
    requires { p < 12 }
    ensures { result ≡ has_taken c (mark_of bytes.now p c) }
{
    0 < plain_counts::hands_on(bytes, p as usize, c)
}

fn take_back(s: Kept, p: u8, c: u8, clear: bool, left: bool) -> Done
    requires { c ≤ 8 }
    ensures { result ≡ chunk_back_done s p (chunk c) clear left }
{
    plain_tables::free_chunk(s, p, sizes::chunk_size(c), clear, left)
}
