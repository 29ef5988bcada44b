// A script served on a fresh pool of 12 pages, and its whole printout written into a slice.
#![tactic(auto)]

ghost use Rattle.std.specs.Prelude.{Some, ◌≡◌, ◌+◌, ◌*◌, ◌≤◌, length};
ghost use Rattle.std.proofs.Math.Option.{some};
ghost use Rattle.model.specs.Calls.{Alloc, Free};
ghost use Rattle.format.specs.Format.{format_outcome, formatted};
ghost use Rattle.script_lines.specs.Lines.{lines, request, call_of};
ghost use Rattle.printing.specs.Text.{written};
ghost use Rattle.script_replies.specs.Replies.{format_line};
ghost use Rattle.script.specs.Script.{transcript, printout};
ghost use Rattle.script.specs.Mirror.{Serves, text_on, final_on};

use answers::{Offset, Refusal};
use script_lines::Request;

// Each function writes from place n on and answers the place after its lines.
fn serve_take(pool: &mut [u8], size: u32, out: &mut [u8], n: usize) -> usize
    requires { n ≤ 1000000 }
    ensures { Serves pool.old pool.new out.old out.new n result (some (Alloc size)) }
{
    script_replies::put_allocated(out, n, calls::alloc(pool, 2, size))
}

fn serve_give(pool: &mut [u8], at: Offset, out: &mut [u8], n: usize) -> usize
    requires { n ≤ 1000000 }
    ensures { Serves pool.old pool.new out.old out.new n result (some (Free at.0)) }
{
    script_replies::put_freed(out, n, calls::free(pool, 2, at))
}

fn serve_request(pool: &mut [u8], r: Request, out: &mut [u8], n: usize) -> usize
    requires { n ≤ 1000000 }
    ensures { Serves pool.old pool.new out.old out.new n result (call_of (Some r)) }
{
    match r {
        Request::Take(size) => serve_take(pool, size, out, n),
        Request::Give(at) => serve_give(pool, at, out, n),
    }
}

fn serve_line(pool: &mut [u8], line: &[u8], out: &mut [u8], n: usize) -> usize
    requires { n ≤ 1000000 }
    ensures { Serves pool.old pool.new out.old out.new n result (request line.now) }
{
    match script_lines::read_line(line) {
        Some(r) => serve_request(pool, r, out, n),
        None => script_replies::put_refusal(out, n, Refusal::Unreadable),
    }
}

fn serve_lines(pool: &mut [u8], input: &[u8], out: &mut [u8], n: usize) -> usize
    requires { n + 5 * (length input.now + 1) ≤ 1000000 }
    ensures { (result ≡ n + length (text_on pool.old (lines input.now))) × (out.new ≡ written out.old n (text_on pool.old (lines input.now))) × (pool.new ≡ final_on pool.old (lines input.now)) × (result ≤ n + 5 * (length input.now + 1)) }
{
    let mut next = n;
    let mut at = 0;
    while at < input.len() {
        let end = script_lines::line_end(input, at);
        next = serve_line(pool, &input[at..end], out, next);
        at = end + 1;
    }
    next
}

fn start(pool: &mut [u8], out: &mut [u8]) -> usize
    ensures { (result ≡ length (format_line (format_outcome 2 (length pool.old)))) × (out.new ≡ written out.old 0 (format_line (format_outcome 2 (length pool.old)))) × (pool.new ≡ formatted 2 pool.old) × (result ≤ 16) }
{
    script_replies::put_formatted(out, 0, format::format(pool, 2))
}

fn serve_fresh(pool: &mut [u8], input: &[u8], out: &mut [u8]) -> usize
    requires { (length pool.old ≡ 49496) × (length input.now ≤ 12288) }
    ensures answer { result ≡ length (transcript input.now) }
    ensures slice { out.new ≡ written out.old 0 (transcript input.now) }
{
    let first = start(pool, out);
    let next = serve_lines(pool, input, out, first);
    script_summary::put_summary(pool, 2, out, next)
}

// Serves a script of any length, and answers how long its printout is; at most 65,536 bytes.
pub fn serve(input: &[u8], out: &mut [u8]) -> usize
    ensures { (result ≡ length (printout input.now)) × (out.new ≡ written out.old 0 (printout input.now)) × (result ≤ 65536) }
{
    if input.len() <= 12288 {
        let mut pool = [0u8; 49496];
        return serve_fresh(&mut pool, input, out);
    }
    script_replies::put_refusal(out, 0, Refusal::ScriptTooLong)
}
