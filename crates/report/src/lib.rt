// The report of a pool's image of edition 1, up to 12 pages, written into a slice. Every function writes from place n on and answers the
// place after its lines. `pages` are the image's.
#![tactic(auto)]

ghost use Rattle.std.specs.Prelude.{◌≡◌, ◌+◌, ◌*◌, ◌/◌, ◌≤◌, ◌<◌, length};
ghost use Rattle.model.specs.Classes.{chunk, chunks, counted};
ghost use Rattle.model.specs.View.{shown};
ghost use Rattle.model.specs.Live.{small, chunks_on, blocks_on, blocks};
ghost use Rattle.rules.specs.Fields.{page_of};
ghost use Rattle.rules.specs.Bytes.{pages_in, mark_at, broken_rule, read};
ghost use Rattle.printing.specs.Text.{lines_of, written, Prints};
ghost use Rattle.report_lines.specs.Lines.{span_line, block_line};
ghost use Rattle.report.specs.Report.{too_long, class_text, classes_below, spans_at, spans, listing, report_of, judged_text, printout};
ghost use Rattle.report.specs.Mirror.{Sound, spans_of, marked_chunk};

use answers::Refusal;
use records::{
    CLASS_PAGE, CLASS_WORD, FIRST_FREE, FIRST_TAKEN, HEADER, Links, PAGE_AND_RECORD, PageNumber,
};

// The bytes of 13 pages with their records (`too_long`).
const TOO_LONG: usize = HEADER + 2 * CLASS_WORD + 13 * PAGE_AND_RECORD;

// ---- classes

// The pages of class c, from its total.
fn class_pages(total: u32, c: u8) -> u32
    requires { c ≤ 8 }
    ensures { result ≡ total / counted c }
{
    let each = classes::total_count(c);
    total / each as u32
}

fn put_class(image: &[u8], c: u8, out: &mut [u8], n: usize) -> usize
    requires { Sound image.now (pages_in 2 image.now) × (c ≤ 8) × (n ≤ 1000000) }
    ensures { Prints out.old out.new n result (class_text (read 2 image.now) c) }
{
    let r = record_class::get_class(image, 2, c);
    let pages = class_pages(r.total, c);
    report_lines::put_class(out, n, c, pages, r)
}

fn put_classes(image: &[u8], out: &mut [u8], n: usize) -> usize
    requires { Sound image.now (pages_in 2 image.now) × (n ≤ 900000) }
    ensures { Prints out.old out.new n result (classes_below (read 2 image.now) 9) }
{
    let mut next = n;
    for c in 0..9 {
        next = put_class(image, c, out, next);
    }
    next
}

// ---- runs

// The run that starts at page p, by the kind and the length that its record says.
fn put_run(out: &mut [u8], n: usize, kind: u8, p: u32, len: u32) -> usize
    requires { n ≤ 1000000 }
    ensures { Prints out.old out.new n result (lines_of span_line (spans_of kind p len)) }
{
    if kind == FIRST_FREE {
        return report_lines::put_free_run(out, n, p, len);
    }
    if kind == FIRST_TAKEN {
        return report_lines::put_taken_run(out, n, p, len);
    }
    n
}

// The run that starts at page p, where one does.
fn put_run_at(image: &[u8], p: u16, out: &mut [u8], n: usize) -> usize
    requires { Sound image.now (pages_in 2 image.now) × (p < pages_in 2 image.now) × (n ≤ 1000000) }
    ensures { Prints out.old out.new n result (lines_of span_line (spans_at (shown (read 2 image.now)) p)) }
{
    let l = record_page::get_links(image, 2, PageNumber(p));
    put_run(out, n, l.kind, p as u32, l.run as u32)
}

fn put_runs(image: &[u8], pages: u16, out: &mut [u8], n: usize) -> usize
    requires { Sound image.now pages × (n ≤ 900000) }
    ensures { Prints out.old out.new n result (lines_of span_line (spans (read 2 image.now))) }
{
    let mut next = n;
    for p in 0..pages {
        next = put_run_at(image, p, out, next);
    }
    next
}

// ---- blocks

fn put_chunk(p: PageNumber, c: u8, i: u16, out: &mut [u8], n: usize) -> usize
    requires { (c ≤ 8) × (n ≤ 1000000) }
    ensures { Prints out.old out.new n result (block_line (small (4096 * p.0 + chunk c * i) c)) }
{
    let at = sizes::offset_in(p, sizes::chunk_start(c, i));
    report_lines::put_chunk(out, n, at, c)
}

// Chunk i of page p, where it is taken and not one of the map's own.
fn put_marked(
    own: u16,
    marked: bool,
    p: PageNumber,
    c: u8,
    i: u16,
    out: &mut [u8],
    n: usize,
) -> usize
    requires { (c ≤ 8) × (n ≤ 1000000) }
    ensures { Prints out.old out.new n result (lines_of block_line (marked_chunk own marked p.0 c i)) }
{
    if i < own {
        return n;
    }
    if marked {
        return put_chunk(p, c, i, out, n);
    }
    n
}

// The taken chunks of page p, which is of class c.
fn put_chunks(image: &[u8], pages: u16, p: u16, c: u8, out: &mut [u8], n: usize) -> usize
    requires { (pages ≡ pages_in 2 image.now) × (c ≤ 8) × (n ≤ 980000) }
    ensures { Prints out.old out.new n result (lines_of block_line (chunks_on c p (mark_at 2 image.now p c) (chunks c))) }
{
    let base = map_places::map_base(2, pages, PageNumber(p), c);
    let own = classes::own_count(c);
    let end = classes::class_chunks(c);
    let mut next = n;
    for i in 0..end {
        let marked = map_marks::get_mark(image, base, i);
        next = put_marked(own, marked, PageNumber(p), c, i, out, next);
    }
    next
}

// The blocks that begin on page p, by the page's record.
fn put_page(image: &[u8], pages: u16, p: u16, l: Links, out: &mut [u8], n: usize) -> usize
    requires { (pages ≡ pages_in 2 image.now) × (l.kind ≡ 2 → l.class ≤ 8) × (n ≤ 980000) }
    ensures { Prints out.old out.new n result (lines_of block_line (blocks_on (page_of l.kind l.class l.run (mark_at 2 image.now p l.class)) p)) }
{
    if l.kind == CLASS_PAGE {
        return put_chunks(image, pages, p, l.class, out, n);
    }
    if l.kind == FIRST_TAKEN {
        return report_lines::put_pages(out, n, sizes::offset_in(PageNumber(p), 0), l.run as u32);
    }
    n
}

// The blocks that begin on page p.
fn put_page_at(image: &[u8], pages: u16, p: u16, out: &mut [u8], n: usize) -> usize
    requires { Sound image.now pages × (p < pages) × (n ≤ 980000) }
    ensures { Prints out.old out.new n result (lines_of block_line (blocks_on ((read 2 image.now).page p) p)) }
{
    let l = record_page::get_links(image, 2, PageNumber(p));
    put_page(image, pages, p, l, out, n)
}

fn put_blocks(image: &[u8], pages: u16, out: &mut [u8], n: usize) -> usize
    requires { Sound image.now pages × (n ≤ 700000) }
    ensures { Prints out.old out.new n result (lines_of block_line (blocks (read 2 image.now))) }
{
    let mut next = n;
    for p in 0..pages {
        next = put_page_at(image, pages, p, out, next);
    }
    next
}

// ---- all of it

fn put_listing(image: &[u8], pages: u16, out: &mut [u8], n: usize) -> usize
    requires { Sound image.now pages × (n ≤ 600000) }
    ensures { Prints out.old out.new n result (listing (read 2 image.now)) }
{
    let classes = put_classes(image, out, n);
    let runs = put_runs(image, pages, out, classes);
    put_blocks(image, pages, out, runs)
}

fn put_report(image: &[u8], out: &mut [u8]) -> usize
    requires { (broken_rule 2 image.now ≡ 0) × (length image.now < too_long) }
    ensures { Prints out.old out.new 0 result (report_of (read 2 image.now)) }
{
    let pages = validate_length::page_count(2, image.len()) as u16;
    let first = printing::put_line(out, 0, b"pool ", pages as u32);
    put_listing(image, pages, out, first)
}

// The report, or the number of the first rule that does not hold.
fn put_judged(image: &[u8], rule: u8, out: &mut [u8]) -> usize
    requires { (rule ≡ broken_rule 2 image.now) × (length image.now < too_long) }
    ensures { Prints out.old out.new 0 result (judged_text image.now rule) }
{
    if rule == 0 {
        return put_report(image, out);
    }
    printing::put_line(out, 0, b"", rule as u32)
}

// Reports on an image of any length, and answers how long the printout is; at most 262,144 bytes.
pub fn report(image: &[u8], out: &mut [u8]) -> usize
    ensures { (result ≡ length (printout image.now)) × (out.new ≡ written out.old 0 (printout image.now)) × (result ≤ 262144) }
{
    if image.len() < TOO_LONG {
        return put_judged(image, validate::broken_rule(image, 2), out);
    }
    script_replies::put_refusal(out, 0, Refusal::TooLong)
}
