// The first page of a class with a free chunk, found by scanning the list.
#![tactic(auto)]

ghost use Rattle.std.specs.Prelude.{◌≡◌, get_or};
ghost use Rattle.plain.specs.Arrays.{place_of};
ghost use Rattle.plain.specs.Mirror.{class_in, ready_in, kept_ready};

use plain::{Counts, Kept, PageEntry};

#[tactic(auto, unfolding(plain::specs::Mirror::ready_in, plain::specs::Chunks::is_no_page, base::specs::Tests::pick))]
fn is_ready(pages: [PageEntry; 12], c: u8, p: u8) -> bool
    ensures { result ≡ ready_in pages c p }
{
    p < 12 && has_class(pages, c, p)
}

#[tactic(auto, unfolding(plain::specs::Mirror::class_in))]
fn has_class(pages: [PageEntry; 12], c: u8, p: u8) -> bool
    ensures { result ≡ class_in pages c p }
{
    plain_counts::entry(pages, p as usize).class == c
}

fn first_ready(pages: [PageEntry; 12], ready: [u8; 12], c: u8) -> u8
    ensures { result ≡ get_or ready (place_of (ready_in pages c) ready) 255 }
{
    for p in &ready {
        if is_ready(pages, c, *p) {
            return *p;
        }
    }
    255
}

// A number past the pages where there is none.
#[tactic(auto, unfolding(plain::specs::Mirror::kept_ready))]
pub fn ready_page(s: Kept, c: u8) -> u8
    ensures { result ≡ kept_ready s c }
{
    first_ready(s.pages, s.ready, c)
}
