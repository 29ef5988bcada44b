// What programs over standard input and output share.
#![tactic(auto)]

ghost use Rattle.std.specs.Prelude.{ℕ, List, ◌^◌, ◌≤◌, ◌<◌, IfOk, IfSome, OnOk, length, take};
ghost use Rattle.std.specs.Io.KnownBytes.{Consumes, IsAtEnd, Appends};
ghost use Rattle.streams.specs.Printer.{PrintsWithin, PrintsText, ReadsWithin};

use std::io::{self, Read, Write};

// Reads until buf is full or the input ends, and answers how many bytes it put at the start of buf.
pub fn read_full<R: Read>(reader: &mut R, buf: &mut [u8]) -> io::Result<usize>
    ensures within { IfOk result (λ n. n ≤ length buf.new) }
    ensures bytes { IfOk result (λ n. Consumes (R.remaining reader.old) (R.remaining reader.new) (take n buf.new)) }
    ensures whole { IfOk result (λ n. n < length buf.new → IsAtEnd (R.remaining reader.new)) }
{
    let mut done = 0;
    while done < buf.len() {
        let n = reader.read(&mut buf[done..])?;
        if n == 0 {
            break;
        }
        done += n;
    }
    Ok(done)
}

// Reads what fits into IN bytes, and writes the text that `print` makes of it, of at most OUT bytes. Where that text is the same for all
// inputs from IN bytes on, it is the text of the whole input.
pub fn answer<
    const IN: usize,
    const OUT: usize,
    R: Read,
    W: Write,
    F: FnOnce(&[u8], &mut [u8]) -> usize,
>(reader: &mut R, writer: &mut W, print: F) -> io::Result<()>
    requires sizes { (IN < 2 ^ 63) × (OUT < 2 ^ 63) }
    requires callable { F.IsAlwaysCallable print }
    requires room { PrintsWithin (F.post print) OUT }
    ensures { (f : List ℕ → List ℕ) → PrintsText (F.post print) f → ReadsWithin f IN → OnOk result (IfSome (R.remaining reader.old) (λ input. Appends (W.contents writer.old) (W.contents writer.new) (f input))) }
{
    let mut input = [0u8; IN];
    let length = read_full(reader, &mut input)?;
    let mut out = [0u8; OUT];
    let printed = print(&input[..length], &mut out);
    writer.write_all(&out[..printed])
}
