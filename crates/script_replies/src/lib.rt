// The answers of the calls, printed as lines into a slice from place n on; each function answers the place after its line.
#![tactic(auto)]

ghost use Rattle.std.specs.Prelude.{◌≤◌};
ghost use Rattle.answers.specs.Outcome.{of_format, of_alloc, of_free};
ghost use Rattle.printing.specs.Text.{Prints};
ghost use Rattle.script_replies.specs.Replies.{refusal_line, format_line, alloc_line, free_line};

use answers::{Offset, Refusal};
use printing::put_line;

pub fn put_refusal(out: &mut [u8], n: usize, r: Refusal) -> usize
    requires { n ≤ 1000000 }
    ensures { Prints out.old out.new n result (refusal_line r) }
{
    put_line(out, n, b"no ", u8::from(r) as u32)
}

pub fn put_formatted(out: &mut [u8], n: usize, f: Result<u16, Refusal>) -> usize
    requires { n ≤ 1000000 }
    ensures { Prints out.old out.new n result (format_line (of_format f)) }
{
    match f {
        Ok(pages) => put_line(out, n, b"pool ", pages as u32),
        Err(r) => put_refusal(out, n, r),
    }
}

pub fn put_allocated(out: &mut [u8], n: usize, a: Result<Offset, Refusal>) -> usize
    requires { n ≤ 1000000 }
    ensures { Prints out.old out.new n result (alloc_line (of_alloc a)) }
{
    match a {
        Ok(at) => put_line(out, n, b"at ", at.0),
        Err(r) => put_refusal(out, n, r),
    }
}

pub fn put_freed(out: &mut [u8], n: usize, f: Result<u32, Refusal>) -> usize
    requires { n ≤ 1000000 }
    ensures { Prints out.old out.new n result (free_line (of_free f)) }
{
    match f {
        Ok(bytes) => put_line(out, n, b"back ", bytes),
        Err(r) => put_refusal(out, n, r),
    }
}
