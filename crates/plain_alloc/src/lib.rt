// Alloc on a sound plain state, as SPEC 4.4 to 4.6 tell it. `bytes` has a byte for each chunk, and e is the first entry of the table
// of free runs with as many pages as are asked for, an empty place where there is none.
#![tactic(auto)]

ghost use Rattle.std.specs.Prelude.{◌≡◌, ◌≤◌, ◌<◌};
ghost use Rattle.model.specs.Classes.{class_of, pages_for, lowest};
ghost use Rattle.plain.specs.Plain.{mark_of};
ghost use Rattle.plain.specs.Chunks.{new_bytes, with_byte};
ghost use Rattle.plain.specs.Engine.{chunk_offset};
ghost use Rattle.plain.specs.Mirror.{done_granted, done_refused, kept_refused, kept_handed, kept_ready, cut_from, from_entry, from_entry_bytes, from_listed, chunk_done, chunk_done_bytes, pages_done, kept_alloc, kept_alloc_bytes, wanted_pages};
ghost use Rattle.plain_alloc.specs.Mirror.{Low};

use answers::Refusal;
use plain::{Done, Extent, Kept};

// How many pages of a run a size asks the table for: one to cut into chunks, or as many as hold it.
#[tactic(auto, unfolding(plain::specs::Mirror::wanted_pages, base::specs::Tests::pick))]
pub fn wanted(size: u32) -> u32
    ensures { result ≡ wanted_pages size }
{
    if size <= 2048 {
        1
    } else {
        sizes::pages_for(size)
    }
}

// What is kept afterwards, with the block's offset or the refusal's number.
#[tactic(auto, unfolding(plain::specs::Mirror::kept_alloc, plain::specs::Mirror::kept_alloc_bytes, base::specs::Tests::pick))]
pub fn alloc_sound(s: Kept, bytes: &mut [u8], size: u32, e: Extent) -> Done
    requires { Low e }
    ensures answer { result ≡ kept_alloc s bytes.old size e }
    ensures slice { bytes.new ≡ kept_alloc_bytes s bytes.old size e }
{
    if size == 0 {
        plain_pages::refuse_as(s, Refusal::NothingAsked)
    } else if size <= 2048 {
        alloc_small(s, bytes, size, e)
    } else {
        alloc_large(s, size, e)
    }
}

fn alloc_large(s: Kept, size: u32, e: Extent) -> Done
    ensures { result ≡ pages_done s (pages_for size) e }
{
    plain_pages::alloc_from(s, sizes::pages_for(size), e)
}

// The smallest class that holds the size.
fn class_of(size: u32) -> u8
    requires { (1 ≤ size) × (size ≤ 2048) }
    ensures { (result ≡ class_of size) × (result ≤ 8) }
{
    sizes::class_for(size)
}

fn alloc_small(s: Kept, bytes: &mut [u8], size: u32, e: Extent) -> Done
    requires { (1 ≤ size) × (size ≤ 2048) × Low e }
    ensures answer { result ≡ chunk_done s bytes.old (class_of size) (kept_ready s (class_of size)) e }
    ensures slice { bytes.new ≡ chunk_done_bytes bytes.old (class_of size) (kept_ready s (class_of size)) e }
{
    let c = class_of(size);
    alloc_chunk(s, bytes, c, plain_ready::ready_page(s, c), e)
}

// A chunk of class c: from page p, the first of its list, or from a new page where the list is empty.
#[tactic(auto, unfolding(plain::specs::Mirror::chunk_done, plain::specs::Mirror::chunk_done_bytes, plain::specs::Chunks::is_no_page, base::specs::Tests::pick))]
fn alloc_chunk(s: Kept, bytes: &mut [u8], c: u8, p: u8, e: Extent) -> Done
    requires { (c ≤ 8) × Low e }
    ensures answer { result ≡ chunk_done s bytes.old c p e }
    ensures slice { bytes.new ≡ chunk_done_bytes bytes.old c p e }
{
    if 12 <= p {
        from_run(s, bytes, c, e)
    } else {
        from_page(s, bytes, c, p)
    }
}

// ---- from a listed page

// The lowest free chunk of page p.
#[tactic(auto, using(crate::proofs::Fitting::bounds))]
fn from_page(s: Kept, bytes: &mut [u8], c: u8, p: u8) -> Done
    requires { (c ≤ 8) × (p < 12) }
    ensures answer { result ≡ from_listed s bytes.old c p (lowest c (mark_of bytes.old p c)) }
    ensures slice { bytes.new ≡ with_byte bytes.old p (lowest c (mark_of bytes.old p c)) 1 }
{
    let n = classes::chunk_count(c);
    let i = plain_chunks::lowest_free(bytes, p as usize, c, n as usize);
    take_at(s, bytes, c, p, i)
}

// Chunk i of page p is marked; a page now full leaves the list.
#[tactic(auto, using(plain_counts::proofs::Counting::count_most), unfolding(plain::specs::Mirror::from_listed))]
fn take_at(s: Kept, bytes: &mut [u8], c: u8, p: u8, i: usize) -> Done
    requires { (c ≤ 8) × (p < 12) × (i ≤ 512) }
    ensures answer { result ≡ from_listed s bytes.old c p i }
    ensures slice { bytes.new ≡ with_byte bytes.old p i 1 }
{
    plain_chunks::set_mark(bytes, p as usize, i, 1);
    let n = classes::chunk_count(c);
    let clear = plain_chunks::has_free(bytes, p as usize, c, n as usize);
    hand_out(s, c, p, i, clear)
}

fn hand_out(s: Kept, c: u8, p: u8, i: usize, clear: bool) -> Done
    requires { (c ≤ 8) × (i ≤ 512) }
    ensures { result ≡ done_granted (kept_handed s c p clear) (chunk_offset p c i) }
{
    plain_pages::grant(
        plain_tables::take_chunk(s, c as usize, p, clear),
        chunk_offset(p, c, i as u16),
    )
}

// The offset of chunk i of page p, of class c.
#[tactic(auto, unfolding(plain::specs::Engine::chunk_offset, plain::specs::Table::wrap))]
fn chunk_offset(p: u8, c: u8, i: u16) -> u32
    requires { c ≤ 8 }
    ensures { result ≡ chunk_offset p c i }
{
    4096 * p as u32 + sizes::chunk_start(c, i)
}

// ---- from a new page

// From the run e; an empty place is none.
#[tactic(auto, unfolding(plain::specs::Mirror::from_entry, plain::specs::Mirror::from_entry_bytes, plain::specs::Table::is_vacant, crate::specs::Mirror::Low, base::specs::Tests::pick))]
fn from_run(s: Kept, bytes: &mut [u8], c: u8, e: Extent) -> Done
    requires { (c ≤ 8) × Low e }
    ensures answer { result ≡ from_entry s c e }
    ensures slice { bytes.new ≡ from_entry_bytes bytes.old c e }
{
    if e.len == 0 {
        refuse_room(s, c)
    } else {
        cut(s, bytes, c, e.first as u8)
    }
}

fn refuse_room(s: Kept, c: u8) -> Done
    requires { c ≤ 8 }
    ensures { result ≡ done_refused (kept_refused s c) 4 }
{
    plain_pages::refuse_as(plain_tables::refuse_chunk(s, c as usize), Refusal::NoRoom)
}

// Page p becomes a page of class c; its map's own chunks and the first after them are marked.
#[tactic(auto, unfolding(plain::specs::Mirror::cut_from))]
fn cut(s: Kept, bytes: &mut [u8], c: u8, p: u8) -> Done
    requires { c ≤ 8 }
    ensures answer { result ≡ cut_from s c p }
    ensures slice { bytes.new ≡ new_bytes bytes.old p c }
{
    let own = classes::own_count(c);
    plain_chunks::new_page(bytes, p as usize, c, own as usize);
    plain_pages::grant_with(
        plain_tables::cut_page(s, c, p),
        chunk_offset(p, c, own),
        p as u32,
        1,
    )
}
