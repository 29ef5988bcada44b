// Chunks handed out and back: what happens to the tables that are kept by value.
#![tactic(auto)]

ghost use Rattle.std.specs.Prelude.{◌≡◌, ◌<◌};
ghost use Rattle.plain.specs.Chunks.{asked_counts, failed_counts};
ghost use Rattle.plain.specs.Mirror.{kept_refused, kept_cut, kept_handed, kept_back, kept_unlisted, kept_dropped, chunk_back_done};

use plain::{Counts, Done, Kept, PageEntry};

// ---- asks and failures

#[tactic(auto, unfolding(plain::specs::Chunks::asked_counts, model::specs::Calls::raise, model::specs::State::most))]
fn asked(t: Counts) -> Counts
    ensures { result ≡ asked_counts t }
{
    Counts {
        reqs: t.reqs.saturating_add(1),
        ..t
    }
}

#[tactic(auto, unfolding(plain::specs::Chunks::asked_counts, plain::specs::Chunks::failed_counts, model::specs::Calls::raise, model::specs::State::most))]
fn failed(t: Counts) -> Counts
    ensures { result ≡ failed_counts t }
{
    Counts {
        fails: t.fails.saturating_add(1),
        ..asked(t)
    }
}

// ---- chunks handed out

// A chunk of class c refused.
#[tactic(auto, unfolding(plain::specs::Mirror::kept_refused, plain::specs::Chunks::count_failure, plain::specs::Plain::no_counts))]
pub fn refuse_chunk(mut s: Kept, c: usize) -> Kept
    requires { c < 9 }
    ensures { result ≡ kept_refused s c }
{
    s.counts[c] = failed(s.counts[c]);
    s
}

// A chunk of page p, of class c, is handed out; `clear` tells whether another is free.
#[tactic(auto, unfolding(plain::specs::Mirror::kept_handed, plain::specs::Chunks::count_ask, plain::specs::Plain::no_counts, base::specs::Tests::pick))]
pub fn take_chunk(mut s: Kept, c: usize, p: u8, clear: bool) -> Kept
    requires { c < 9 }
    ensures { result ≡ kept_handed s c p clear }
{
    if !clear {
        s.ready = plain_chunks::unlist(s.ready, p);
    }
    s.counts[c] = asked(s.counts[c]);
    s
}

// ---- chunks that come back

// The page stays a class page; `clear` tells whether a chunk was free before.
#[tactic(auto, unfolding(plain::specs::Mirror::kept_back, base::specs::Tests::pick))]
fn chunk_back(mut s: Kept, p: u8, clear: bool) -> Kept
    ensures { result ≡ kept_back s p clear }
{
    if !clear {
        s.ready = plain_chunks::list_first(s.ready, p);
    }
    s
}

#[tactic(auto, unfolding(plain::specs::Mirror::kept_unlisted))]
fn unlist_page(s: Kept, p: u8) -> Kept
    ensures { result ≡ kept_unlisted s p }
{
    Kept {
        ready: plain_chunks::unlist(s.ready, p),
        ..s
    }
}

// The page's last chunk came back: it leaves the list and becomes free.
#[tactic(auto, unfolding(plain::specs::Mirror::kept_dropped))]
fn drop_page(s: Kept, p: u8) -> Kept
    ensures { result ≡ kept_dropped s p }
{
    plain_pages::free_pages(unlist_page(s, p), p as u32, 1)
}

// A chunk of page p comes back, of so many bytes; `clear` tells whether a chunk was free before, `left` whether callers hold others of the page.
#[tactic(auto, unfolding(plain::specs::Mirror::chunk_back_done, base::specs::Tests::pick))]
pub fn free_chunk(s: Kept, p: u8, bytes: u32, clear: bool, left: bool) -> Done
    ensures { result ≡ chunk_back_done s p bytes clear left }
{
    if left {
        plain_pages::grant(chunk_back(s, p, clear), bytes)
    } else {
        plain_pages::grant_with(drop_page(s, p), bytes, p as u32, 1)
    }
}

// ---- a page cut into chunks

// Page p becomes a page of class c and the head of the list.
#[tactic(auto, unfolding(plain::specs::Mirror::kept_cut, plain::specs::Chunks::count_ask, plain::specs::Plain::no_counts))]
pub fn cut_page(mut s: Kept, c: u8, p: u8) -> Kept
    requires { c < 9 }
    ensures { result ≡ kept_cut s c p }
{
    if p < 12 {
        s.pages[p as usize] = PageEntry {
            kind: 1,
            class: c,
            run: 0,
        };
    }
    s.ready = plain_chunks::list_first(s.ready, p);
    s.counts[c as usize] = asked(s.counts[c as usize]);
    s
}
