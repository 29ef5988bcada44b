// The lines of a script: where a line ends, and what it asks for.
#![tactic(auto)]

ghost use Rattle.std.specs.Prelude.{◌≡◌, ◌∷◌, ◌+◌, ◌-◌, ◌≤◌, ◌<◌, eqb, length, get_or, take, drop};
ghost use Rattle.model.specs.Calls.{Alloc, Free};
ghost use Rattle.script_lines.specs.Lines.{lines, begins, call_with, request, call_of};

use answers::Offset;
use branchless::all;

// What a line asks for, in the script's words.
#[derive(Clone, Copy)]
pub enum Request {
    Take(u32),
    Give(Offset),
}

// The end of the line that starts at a place: its newline, or the input's end.
pub fn line_end(input: &[u8], at: usize) -> usize
    requires { at < length input.now }
    ensures { (at ≤ result) × (result ≤ length input.now) × (lines (drop at input.now) ≡ take (result - at) (drop at input.now) ∷ lines (drop (result + 1) input.now)) }
{
    for end in at..input.len() {
        if input[end] == 10 {
            return end;
        }
    }
    input.len()
}

fn byte_is(s: &[u8], at: usize, want: u8) -> bool
    ensures { result ≡ eqb (get_or s.now at 0) want }
{
    cells::get_byte(s, at) == want
}

fn starts_with(line: &[u8], a: u8, b: u8, c: u8, d: u8) -> bool
    ensures { result ≡ begins line.now a b c d }
{
    all(&[
        byte_is(line, 0, a),
        byte_is(line, 1, b),
        byte_is(line, 2, c),
        byte_is(line, 3, d),
        byte_is(line, 4, 32),
    ])
}

fn take_of(s: &[u8]) -> Option<Request>
    ensures { call_of result ≡ call_with Alloc s.now }
{
    if script_numbers::is_number(s) {
        Some(Request::Take(script_numbers::number(s)))
    } else {
        None
    }
}

fn give_of(s: &[u8]) -> Option<Request>
    ensures { call_of result ≡ call_with Free s.now }
{
    if script_numbers::is_number(s) {
        Some(Request::Give(Offset(script_numbers::number(s))))
    } else {
        None
    }
}

// What a line, without its newline, asks for; none where it is unreadable.
pub fn read_line(line: &[u8]) -> Option<Request>
    ensures { call_of result ≡ request line.now }
{
    if starts_with(line, 116, 97, 107, 101) {
        return take_of(&line[5..]);
    }
    if starts_with(line, 103, 105, 118, 101) {
        return give_of(&line[5..]);
    }
    None
}
