// Serves the script on standard input with a pool of 12 pages, and prints its printout.
#![tactic(auto)]

ghost use Rattle.std.specs.Prelude.{IfSome, OnOk};
ghost use Rattle.std.specs.Io.KnownBytes.{Appends};
ghost use Rattle.script.specs.Script.{printout};

use std::io::{self, Read, Write};

// Serves the script that is left to read, and writes its printout.
fn serve<R: Read, W: Write>(reader: &mut R, writer: &mut W) -> io::Result<()>
    ensures { OnOk result (IfSome (R.remaining reader.old) (λ input. Appends (W.contents writer.old) (W.contents writer.new) (printout input))) }
{
    // one byte more than a script may have tells one that is too long
    streams::answer::<12289, 65536, _, _, _>(
        reader,
        writer,
        |script, out| script::serve(script, out),
    )
}

fn main(rt: HostRuntime) -> io::Result<()> {
    serve(&mut rt.stdin(), &mut rt.stdout())
}
