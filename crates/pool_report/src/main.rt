// Reports on the pool's image on standard input.
#![tactic(auto)]

ghost use Rattle.std.specs.Prelude.{IfSome, OnOk};
ghost use Rattle.std.specs.Io.KnownBytes.{Appends};
ghost use Rattle.report.specs.Report.{printout};

use std::io::{self, Read, Write};

// Reads the image that is left to read, and writes its printout.
fn report<R: Read, W: Write>(reader: &mut R, writer: &mut W) -> io::Result<()>
    ensures { OnOk result (IfSome (R.remaining reader.old) (λ image. Appends (W.contents writer.old) (W.contents writer.new) (printout image))) }
{
    // an image that fills the buffer is too long
    streams::answer::<53608, 262144, _, _, _>(
        reader,
        writer,
        |image, out| report::report(image, out),
    )
}

fn main(rt: HostRuntime) -> io::Result<()> {
    report(&mut rt.stdin(), &mut rt.stdout())
}
