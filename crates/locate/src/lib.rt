// What begins at an offset of a sound pool: a chunk, a run, or nothing that can be given back.
// `w` is the number of words of a class record, `pages` the pages of the pool.
#![tactic(auto)]

ghost use Rattle.std.specs.Prelude.{◌≡◌, ◌/◌, ◌≤◌, ◌<◌, length};
ghost use Rattle.records.specs.Layout.{links_place};
ghost use Rattle.classes.specs.Mirror.{Whole};
ghost use Rattle.locate.specs.Mirror.{past_found, start_found, sized_found, offset_found, class_found, run_found, kind_found, page_found, located};

use answers::{Offset, Refusal};
use records::{CLASS_PAGE, FIRST_FREE, FIRST_TAKEN, Links, PAGE, PageNumber};

// A chunk by its number in a page of its class. The number is wide so that `Found` is: of 16 bytes or fewer, an enum is passed as one
// integer, and its fields are shifted in and out.
#[derive(Clone, Copy)]
pub struct ChunkAt {
    pub page: PageNumber,
    pub class: u8,
    pub index: usize,
}

// A taken run by its first page, and its length.
#[derive(Clone, Copy)]
pub struct RunAt {
    pub page: PageNumber,
    pub pages: u16,
}

#[derive(Clone, Copy)]
pub enum Found {
    Chunk(ChunkAt),
    Run(RunAt),
}

// The block that begins at the offset, or the number by which a free is refused. Whether a chunk is taken its mark has still to tell.
pub fn locate(pool: &[u8], w: u8, pages: u16, at: Offset) -> Result<Found, Refusal>
    requires { Whole w pool.now pages }
    ensures { result ≡ located w pool.now pages at.0 }
{
    let x = at.0;
    if pages as u32 <= x / PAGE {
        return Err(Refusal::Outside);
    }
    in_page(pool, w, PageNumber((x / PAGE % 65536) as u16), x % PAGE)
}

fn in_page(pool: &[u8], w: u8, p: PageNumber, within: u32) -> Result<Found, Refusal>
    requires { links_place w p.0 < length pool.now / 8 }
    ensures { result ≡ page_found w pool.now p.0 within }
{
    let l = record_page::get_links_in(pool, w, p);
    in_kind(p, within, l)
}

// By the page's kind.
fn in_kind(p: PageNumber, within: u32, l: Links) -> Result<Found, Refusal>
    ensures { result ≡ kind_found p.0 within l }
{
    if l.kind <= FIRST_FREE {
        return Err(Refusal::NotTaken);
    }
    if l.kind == CLASS_PAGE {
        return in_class(l.class, p, within);
    }
    if l.kind == FIRST_TAKEN {
        return in_run(p, l.run, within);
    }
    Err(Refusal::NotAStart)
}

// In the first page of a taken run.
fn in_run(p: PageNumber, len: u16, within: u32) -> Result<Found, Refusal>
    ensures { result ≡ run_found p.0 len within }
{
    if within == 0 {
        Ok(Found::Run(RunAt {
            page: p,
            pages: len,
        }))
    } else {
        Err(Refusal::NotAStart)
    }
}

// In a class page. Tried in this order: the class, the chunk's boundary, the map's own chunks.
fn in_class(c: u8, p: PageNumber, within: u32) -> Result<Found, Refusal>
    ensures { result ≡ class_found c p.0 within }
{
    if c <= 8 {
        chunk_within(c, p, within)
    } else {
        Err(Refusal::NotAStart)
    }
}

fn chunk_within(c: u8, p: PageNumber, within: u32) -> Result<Found, Refusal>
    requires { c ≤ 8 }
    ensures { result ≡ offset_found c p.0 within }
{
    let size = sizes::chunk_size(c);
    chunk_sized(c, p, within, size)
}

// The chunk of so many bytes that begins `within` bytes into the page, where one does.
fn chunk_sized(c: u8, p: PageNumber, within: u32, size: u32) -> Result<Found, Refusal>
    requires { (c ≤ 8) × (1 ≤ size) }
    ensures { result ≡ sized_found c p.0 within size }
{
    if within % size == 0 {
        chunk_start(c, p, (within / size % 65536) as u16)
    } else {
        Err(Refusal::NotAStart)
    }
}

fn chunk_start(c: u8, p: PageNumber, i: u16) -> Result<Found, Refusal>
    requires { c ≤ 8 }
    ensures { result ≡ start_found c p.0 i }
{
    let own = classes::class_own(c);
    chunk_past(c, p, i, own)
}

// Chunk i, where it is past the map's own chunks.
fn chunk_past(c: u8, p: PageNumber, i: u16, own: u16) -> Result<Found, Refusal>
    ensures { result ≡ past_found c p.0 i own }
{
    if i < own {
        Err(Refusal::NotAStart)
    } else {
        Ok(Found::Chunk(ChunkAt {
            page: p,
            class: c,
            index: i as usize,
        }))
    }
}
