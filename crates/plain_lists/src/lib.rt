// Rules 2 to 4 on a plain state: an entry of the table of free runs, and the list of pages with a free chunk.
#![tactic(auto)]

ghost use Rattle.std.specs.Prelude.{◌≡◌, ◌<◌};
ghost use Rattle.model.specs.Classes.{has_clear};
ghost use Rattle.plain.specs.Plain.{mark_of};
ghost use Rattle.plain_rules.specs.Rules.{how_many, free_before, apart, stretch_ok, extent_ok, holds_page, is_open, is_page, list_ok};

use branchless::one_if;
use plain::{Extent, PageEntry};

// ---- rules 2 and 3: an entry of the table of free runs

#[tactic(auto, unfolding(plain_rules::specs::Rules::free_before, base::specs::Tests::pick))]
fn free_before(pages: [PageEntry; 12], p: usize) -> bool
    ensures { result ≡ free_before pages p }
{
    p != 0 && plain_counts::is_free(pages, p - 1)
}

// Whether no free page borders the pages from p up to q.
#[tactic(auto, unfolding(plain_rules::specs::Rules::apart, base::specs::Tests::pick))]
fn is_apart(pages: [PageEntry; 12], p: usize, q: usize) -> bool
    ensures { result ≡ apart pages p q }
{
    !free_before(pages, p) && !plain_counts::is_free(pages, q)
}

#[tactic(auto, unfolding(plain_rules::specs::Rules::stretch_ok, base::specs::Tests::pick))]
fn stretch_ok(pages: [PageEntry; 12], p: usize, q: usize) -> bool
    ensures { result ≡ stretch_ok pages p q }
{
    q <= 12 && is_apart(pages, p, q)
}

// A run that ends within the pages, and that no free page borders, or an empty place.
#[tactic(auto, unfolding(plain_rules::specs::Rules::extent_ok, plain::specs::Table::is_vacant, base::specs::Tests::pick))]
pub fn extent_ok(pages: [PageEntry; 12], e: Extent) -> bool
    ensures { result ≡ extent_ok pages e }
{
    e.len == 0 || stretch_ok(pages, e.first as usize, e.first as usize + e.len as usize)
}

// Whether an entry has page p.
#[tactic(auto, unfolding(plain_rules::specs::Rules::holds_page, base::specs::Tests::pick))]
pub fn holds_page(e: Extent, p: usize) -> bool
    ensures { result ≡ holds_page p e }
{
    e.first as usize <= p && p < e.first as usize + e.len as usize
}

// ---- rule 4: the list of pages with a free chunk

#[tactic(auto, unfolding(plain_rules::specs::Rules::is_page))]
fn is_page(x: u8, p: usize) -> bool
    ensures { result ≡ is_page p x }
{
    x as usize == p
}

#[tactic(auto, using(plain_rules::proofs::Many::many_count))]
fn count_listed(ready: [u8; 12], p: usize) -> usize
    ensures { result ≡ how_many (is_page p) ready }
{
    ready.iter().filter(|x| is_page(**x, p)).count()
}

#[tactic(auto, using(plain_counts::proofs::Counting::count_most))]
fn page_has_free(bytes: &[u8], p: usize, c: u8) -> bool
    requires { p < 12 }
    ensures { result ≡ has_clear c (mark_of bytes.now p c) }
{
    plain_chunks::has_free(bytes, p, c, classes::chunk_count(c) as usize)
}

#[tactic(auto, unfolding(plain_rules::specs::Rules::is_open, base::specs::Tests::pick))]
fn is_open(bytes: &[u8], p: usize, e: PageEntry) -> bool
    requires { p < 12 }
    ensures { result ≡ is_open bytes.now p e }
{
    e.kind == 1 && page_has_free(bytes, p, e.class)
}

// A class page with a free chunk is listed once, any other not at all.
#[tactic(auto, unfolding(plain_rules::specs::Rules::list_ok))]
pub fn list_ok(bytes: &[u8], ready: [u8; 12], p: usize, e: PageEntry) -> bool
    requires { p < 12 }
    ensures { result ≡ list_ok bytes.now ready p e }
{
    count_listed(ready, p) as u64 == one_if(is_open(bytes, p, e))
}
