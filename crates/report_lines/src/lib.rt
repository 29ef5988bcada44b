// The lines of a report, printed into a slice from place n on; each function answers the place after its line.
#![tactic(auto)]

ghost use Rattle.std.specs.Prelude.{◌++◌, ◌≤◌};
ghost use Rattle.model.specs.Classes.{chunk};
ghost use Rattle.model.specs.Live.{small, large};
ghost use Rattle.printing.specs.Text.{phrase, pair_line, Prints};
ghost use Rattle.report_lines.specs.Lines.{used_word, total_word, asks_word, failures_word, class_line, free_span, taken_span, span_line, block_line};

use answers::Offset;
use printing::{put_pair, put_phrase};
use records::ClassRecord;

// The part of a class line that the class record tells.
fn put_record(out: &mut [u8], n: usize, r: ClassRecord) -> usize
    requires { n ≤ 1000100 }
    ensures { Prints out.old out.new n result (phrase used_word r.used ++ (phrase total_word r.total ++ pair_line asks_word r.reqs failures_word r.fails)) }
{
    let used = put_phrase(out, n, b" used ", r.used);
    let total = put_phrase(out, used, b" total ", r.total);
    put_pair(out, total, b" asks ", r.reqs, b" failures ", r.fails)
}

// The line of class c, which has so many pages.
pub fn put_class(out: &mut [u8], n: usize, c: u8, pages: u32, r: ClassRecord) -> usize
    requires { (c ≤ 8) × (n ≤ 1000000) }
    ensures { Prints out.old out.new n result (class_line (chunk c) pages r.used r.total r.reqs r.fails) }
{
    let class = put_phrase(out, n, b"class ", sizes::chunk_size(c));
    let cut = put_phrase(out, class, b" pages ", pages);
    put_record(out, cut, r)
}

pub fn put_free_run(out: &mut [u8], n: usize, first: u32, len: u32) -> usize
    requires { n ≤ 1000000 }
    ensures { Prints out.old out.new n result (span_line (free_span first len)) }
{
    put_pair(out, n, b"run free ", first, b" ", len)
}

pub fn put_taken_run(out: &mut [u8], n: usize, first: u32, len: u32) -> usize
    requires { n ≤ 1000000 }
    ensures { Prints out.old out.new n result (span_line (taken_span first len)) }
{
    put_pair(out, n, b"run taken ", first, b" ", len)
}

// The line of a block of class c.
pub fn put_chunk(out: &mut [u8], n: usize, at: Offset, c: u8) -> usize
    requires { (c ≤ 8) × (n ≤ 1000000) }
    ensures { Prints out.old out.new n result (block_line (small at.0 c)) }
{
    let offset = at.0;
    let size = sizes::chunk_size(c);
    put_pair(out, n, b"block ", offset, b" class ", size)
}

// The line of a block of so many pages.
pub fn put_pages(out: &mut [u8], n: usize, at: Offset, pages: u32) -> usize
    requires { n ≤ 1000000 }
    ensures { Prints out.old out.new n result (block_line (large at.0 pages)) }
{
    let offset = at.0;
    put_pair(out, n, b"block ", offset, b" pages ", pages)
}
