// The class records of a pool: chunks counted as they are handed out, come back, or are refused.
// `w` is the number of words of a class record.
#![tactic(auto)]

ghost use Rattle.std.specs.Prelude.{◌≡◌, ◌+◌, ◌-◌, ◌/◌, ◌<◌, length, nat_lt};
ghost use Rattle.words.specs.Word.{word, set_word};
ghost use Rattle.records.specs.Layout.{counts_place, tally_place};
ghost use Rattle.records.specs.Class.{pack_counts, pack_tally, unpack_class};
ghost use Rattle.model.specs.Classes.{counted};
ghost use Rattle.base.specs.Tests.{pick};
ghost use Rattle.records.specs.Mirror.{first_to};
ghost use Rattle.class_counting.specs.Mirror.{chunk_failed, asks_more, fails_more, used_in, raised_by};
ghost use Rattle.classes.specs.Mirror.{chunk_asked, chunk_back, chunk_borrowed, chunk_carried, count_used, count_used_first, count_page_used, count_back, count_back_first, count_page_back, chunk_refused};

use records::{ClassRecord, MOST_ASKS, PageNumber};

fn chunk_back(r: ClassRecord) -> ClassRecord
    ensures { result ≡ chunk_back r }
{
    records::used_to(r, r.used.saturating_sub(1))
}

// ---- one chunk more or less, in the words that change: `used` is the middle 24 bits of the counts, `total` the lowest 24, `reqs` and `fails`
// the upper and the lower half of the tallies. On sound records no count overflows or falls below 0, so the word is added to as it stands

const ONE_USED: u64 = 16777216;

const MINUS_ONE_USED: u64 = 18446744073692774400;

const ONE_ASK: u64 = 4294967296;

fn used_less(v: u64) -> u64
    ensures { result ≡ pack_counts (chunk_borrowed (unpack_class v 0)) }
{
    v.wrapping_add(MINUS_ONE_USED)
}

// Asks that have stopped carry out of the word.
fn asks_more(v: u64) -> u64
    ensures { result ≡ pack_tally (chunk_asked (unpack_class 0 v)) }
{
    let x = v.wrapping_add(ONE_ASK);
    if x < v { v } else { x }
}

// Failures that have stopped would carry into the asks.
fn fails_more(v: u64) -> u64
    ensures { result ≡ pack_tally (chunk_failed (unpack_class 0 v)) }
{
    if v % ONE_ASK < MOST_ASKS as u64 {
        v + 1
    } else {
        v
    }
}

// Where the caller knows the word to be whole.
fn count_one_back(pool: &mut [u8], k: usize)
    requires { k < length pool.old / 8 }
    ensures { pool.new ≡ set_word pool.old k (pack_counts (chunk_borrowed (unpack_class (word pool.old k) 0))) }
{
    let v = cells::get_word_in(pool, k);
    cells::put_word_in(pool, k, used_less(v));
}

// And page p becomes the class's first.
fn count_first_back(pool: &mut [u8], k: usize, p: PageNumber)
    requires { k < length pool.old / 8 }
    ensures { pool.new ≡ set_word pool.old k (pack_counts (chunk_borrowed (unpack_class (pack_counts (first_to (unpack_class (word pool.old k) 0) p.0)) 0))) }
{
    let v = cells::get_word_in(pool, k);
    let first = list_heads::first_changed(v, p);
    cells::put_word_in(pool, k, used_less(first));
}

// ---- the tally of a class: the word of its counts, the word of its asks and failures, and its peak

#[derive(Clone, Copy)]
pub struct Tally {
    pub counts: u64,
    pub asks: u64,
    pub peak: u32,
}

fn asked(v: u64, asks: bool) -> u64
    ensures { result ≡ asks_more asks v }
{
    if asks { asks_more(v) } else { v }
}

fn failed(v: u64, fails: bool) -> u64
    ensures { result ≡ fails_more fails v }
{
    if fails { fails_more(v) } else { v }
}

fn used_in(counts: u64) -> u32
    ensures { result ≡ used_in counts }
{
    (counts / 16777216 % 16777216) as u32
}

// The counts rise by `more`, asks and failures by one where they are to, and the peak follows used.
#[tactic(auto, using(crate::proofs::Peak::max_pick), unfolding(crate::specs::Mirror::raised_by, crate::specs::Mirror::counts_more))]
fn tally_raised(t: Tally, more: u64, asks: bool, fails: bool) -> Tally
    ensures { result ≡ raised_by more asks fails t }
{
    let counts = t.counts.wrapping_add(more);
    let tallies = failed(asked(t.asks, asks), fails);
    let used = used_in(counts);
    let peak = t.peak.max(used);
    Tally {
        counts,
        asks: tallies,
        peak,
    }
}

// The same of a tally that is lent and changed where it stands.
pub fn raise(t: &mut Tally, more: u64, asks: bool, fails: bool)
    ensures { t.new ≡ raised_by more asks fails t.old }
{
    *t = tally_raised(*t, more, asks, fails);
}

// A tally as it was read from the records, lent for the call.
pub fn raised_by_loan(t: Tally, more: u64, asks: bool, fails: bool) -> Tally
    ensures { result ≡ raised_by more asks fails t }
{
    let mut lent = t;
    raise(&mut lent, more, asks, fails);
    lent
}

// ---- in the records; the peak, where there is one, is raised when the call ends

// Counts and asks with a chunk more, into their words.
fn put_used(pool: &mut [u8], k: usize, l: usize, counts: u64, asks: u64)
    requires { (k < length pool.old / 8) × (l < length pool.old / 8) }
    ensures { pool.new ≡ set_word (set_word pool.old k (pack_counts (chunk_carried (unpack_class counts 0)))) l (pack_tally (chunk_asked (unpack_class 0 asks))) }
{
    let t = Tally {
        counts,
        asks,
        peak: 0,
    };
    let r = raised_by_loan(t, ONE_USED, true, false);
    cells::put_word_in(pool, k, r.counts);
    cells::put_word_in(pool, l, r.asks);
}

// A chunk of class c was handed out.
pub fn count_used(pool: &mut [u8], w: u8, c: u8)
    requires { tally_place w c < length pool.old / 8 }
    ensures { pool.new ≡ count_used w pool.old c }
{
    let k = records::place(1, w, c as u16);
    let l = records::place(2, w, c as u16);
    let counts = cells::get_word_in(pool, k);
    let asks = cells::get_word_in(pool, l);
    put_used(pool, k, l, counts, asks);
}

// And page p becomes the class's first, written with the counts in whose word it stands: written before them it costs 2 % of a batch's time.
pub fn count_used_first(pool: &mut [u8], w: u8, c: u8, p: PageNumber)
    requires { tally_place w c < length pool.old / 8 }
    ensures { pool.new ≡ count_used_first w pool.old c p.0 }
{
    let k = records::place(1, w, c as u16);
    let l = records::place(2, w, c as u16);
    let counts = cells::get_word_in(pool, k);
    let asks = cells::get_word_in(pool, l);
    put_used(pool, k, l, list_heads::first_changed(counts, p), asks);
}

// What the counts rise by where a page is new: one used, and in all as many as serve callers.
fn page_used(c: u8) -> u64
    ensures { result ≡ 16777216 + counted c }
{
    ONE_USED + classes::total_count(c) as u64
}

// And it was the first of a new page.
pub fn count_page_used(pool: &mut [u8], w: u8, c: u8)
    ensures { pool.new ≡ count_page_used w pool.old c }
{
    let k = records::place(1, w, c as u16);
    let l = records::place(2, w, c as u16);
    let counts = cells::get_word(pool, k);
    let asks = cells::get_word(pool, l);
    let t = Tally {
        counts,
        asks,
        peak: 0,
    };
    let r = raised_by_loan(t, page_used(c), true, false);
    cells::put_word(pool, k, r.counts);
    cells::put_word(pool, l, r.asks);
}

// A chunk of class c was asked for and there is none.
pub fn refuse_chunk(pool: &mut [u8], w: u8, c: u8)
    ensures { pool.new ≡ chunk_refused w pool.old c }
{
    let l = records::place(2, w, c as u16);
    let asks = cells::get_word(pool, l);
    let t = Tally {
        counts: 0,
        asks,
        peak: 0,
    };
    let r = raised_by_loan(t, 0, true, true);
    cells::put_word(pool, l, r.asks);
}

pub fn count_back(pool: &mut [u8], w: u8, c: u8)
    requires { counts_place w c < length pool.old / 8 }
    ensures { pool.new ≡ count_back w pool.old c }
{
    count_one_back(pool, records::place(1, w, c as u16));
}

// And page p becomes the class's first.
pub fn count_back_first(pool: &mut [u8], w: u8, c: u8, p: PageNumber)
    requires { counts_place w c < length pool.old / 8 }
    ensures { pool.new ≡ count_back_first w pool.old c p.0 }
{
    count_first_back(pool, records::place(1, w, c as u16), p);
}

pub fn count_page_back(pool: &mut [u8], w: u8, c: u8)
    ensures { pool.new ≡ count_page_back w pool.old c }
{
    let r = record_class::get_class(pool, w, c);
    let total = r.total.saturating_sub(classes::total_count(c) as u32);
    record_class::put_class(pool, w, c, records::total_to(chunk_back(r), total));
}
