// A script served by the plain engine, for a host that has the table of free runs and that of the chunks, and lends them at each call. What it prints is what the packed pool prints (SPEC 8): both are told by `printout`.
#![tactic(auto)]

ghost use Rattle.std.specs.Prelude.{Some, ◌≡◌, true, ◌+◌, ◌*◌, ◌≤◌, length};
ghost use Rattle.std.proofs.Math.Option.{some};
ghost use Rattle.answers.specs.declared.Refusal.TheVariants.{Unreadable};
ghost use Rattle.model.specs.Calls.{Alloc, Free};
ghost use Rattle.printing.specs.Text.{written, Prints};
ghost use Rattle.script_lines.specs.Lines.{lines, request, call_of};
ghost use Rattle.script_replies.specs.Replies.{refusal_line, outcome_line};
ghost use Rattle.script_summary.specs.Summary.{summary_line};
ghost use Rattle.script.specs.Script.{transcript, printout};
ghost use Rattle.plain.specs.Table.{read_runs};
ghost use Rattle.plain_rules.specs.Rules.{is_sound};
ghost use Rattle.plain_host.specs.Host.{shown};
ghost use Rattle.plain_script.specs.Serving.{Replied, Answered};

use answers::{Offset, Refusal};
use plain::{Counts, Extent, Kept, PageEntry};
use plain_host::{Host, Reply};
use printing::{put_line, put_phrase};
use script_lines::Request;

// After a line: the state, and the place after what was printed.
#[derive(Clone, Copy)]
pub struct Turn {
    pub after: Host,
    pub at: usize,
}

// ---- one line

// Granted: the word and the value.
fn put_answer(out: &mut [u8], n: usize, word: &[u8], number: u8, value: u32) -> usize
    requires { (n ≤ 1000000) × (length word.now ≤ 5) }
    ensures { Prints out.old out.new n result (outcome_line word.now (record { number = number; value = value })) }
{
    if number == 0 {
        put_line(out, n, word, value)
    } else {
        put_line(out, n, b"no ", number as u32)
    }
}

fn serve_take(s: Host, chunks: &mut [u8], size: u32, out: &mut [u8], n: usize) -> Turn
    requires { (6144 ≤ length chunks.old) × (is_sound (shown s) chunks.old ≡ true) × (n ≤ 1000000) }
    ensures { Replied (shown s) chunks.old (some (Alloc size)) out.old out.new n result chunks.new }
{
    let r = plain_host::alloc(s, chunks, size);
    Turn {
        after: r.after,
        at: put_answer(out, n, b"at ", r.number, r.value),
    }
}

fn serve_give(s: Host, chunks: &mut [u8], off: Offset, out: &mut [u8], n: usize) -> Turn
    requires { (6144 ≤ length chunks.old) × (is_sound (shown s) chunks.old ≡ true) × (n ≤ 1000000) }
    ensures { Replied (shown s) chunks.old (some (Free off.0)) out.old out.new n result chunks.new }
{
    let r = plain_host::free(s, chunks, off);
    Turn {
        after: r.after,
        at: put_answer(out, n, b"back ", r.number, r.value),
    }
}

fn serve_unreadable(s: Host, out: &mut [u8], n: usize) -> Turn
    requires { n ≤ 1000000 }
    ensures { (result.after ≡ s) × Prints out.old out.new n result.at (refusal_line Unreadable) }
{
    Turn {
        after: s,
        at: script_replies::put_refusal(out, n, Refusal::Unreadable),
    }
}

fn serve_request(s: Host, chunks: &mut [u8], r: Request, out: &mut [u8], n: usize) -> Turn
    requires { (6144 ≤ length chunks.old) × (is_sound (shown s) chunks.old ≡ true) × (n ≤ 1000000) }
    ensures { Replied (shown s) chunks.old (call_of (Some r)) out.old out.new n result chunks.new }
{
    match r {
        Request::Take(size) => serve_take(s, chunks, size, out, n),
        Request::Give(off) => serve_give(s, chunks, off, out, n),
    }
}

fn serve_line(s: Host, chunks: &mut [u8], line: &[u8], out: &mut [u8], n: usize) -> Turn
    requires { (6144 ≤ length chunks.old) × (is_sound (shown s) chunks.old ≡ true) × (n ≤ 1000000) }
    ensures { Replied (shown s) chunks.old (request line.now) out.old out.new n result chunks.new }
{
    match script_lines::read_line(line) {
        Some(r) => serve_request(s, chunks, r, out, n),
        None => serve_unreadable(s, out, n),
    }
}

// ---- all lines

fn serve_lines(s: Host, chunks: &mut [u8], input: &[u8], out: &mut [u8], n: usize) -> Turn
    requires { (6144 ≤ length chunks.old) × (is_sound (shown s) chunks.old ≡ true) × (n + 5 * (length input.now + 1) + 32 ≤ 1000000) }
    ensures { Answered (shown s) chunks.old (lines input.now) out.old out.new n result chunks.new }
{
    let mut state = s;
    let mut next = n;
    let mut at = 0;
    while at < input.len() {
        let end = script_lines::line_end(input, at);
        let t = serve_line(state, chunks, &input[at..end], out, next);
        state = t.after;
        next = t.at;
        at = end + 1;
    }
    Turn {
        after: state,
        at: next,
    }
}

// ---- the last line

// The entries of the table that are no empty places.
#[tactic(auto, using(crate::proofs::Serving::runs_counted))]
fn count_runs(runs: [Extent; 12]) -> u32
    ensures { result ≡ length (read_runs runs) }
{
    runs.iter().filter(|e| 1 <= e.len).count() as u32
}

fn put_summary(s: Host, out: &mut [u8], n: usize) -> usize
    requires { n ≤ 1000000 }
    ensures { Prints out.old out.new n result (summary_line s.kept.free (length (read_runs s.runs))) }
{
    let runs = count_runs(s.runs);
    let after = put_phrase(out, n, b"free ", s.kept.free);
    put_line(out, after, b" runs ", runs)
}

fn serve_fresh(chunks: &mut [u8], input: &[u8], out: &mut [u8]) -> usize
    requires { (6144 ≤ length chunks.old) × (length input.now ≤ 12288) }
    ensures answer { result ≡ length (transcript input.now) }
    ensures slice { out.new ≡ written out.old 0 (transcript input.now) }
{
    let s = plain_host::format();
    let first = put_line(out, 0, b"pool ", 12);
    let t = serve_lines(s, chunks, input, out, first);
    put_summary(t.after, out, t.at)
}

// Serves a script of any length, and answers how long its printout is; at most 65,536 bytes.
pub fn serve(input: &[u8], out: &mut [u8]) -> usize
    ensures { (result ≡ length (printout input.now)) × (out.new ≡ written out.old 0 (printout input.now)) × (result ≤ 65536) }
{
    if input.len() <= 12288 {
        let mut chunks = [0u8; 6144];
        serve_fresh(&mut chunks, input, out)
    } else {
        script_replies::put_refusal(out, 0, Refusal::ScriptTooLong)
    }
}
