// Writes Tables 10.1-1 to 10.1-4 and 7.1.7.2.1-1 of TS 36.213, to be read against the print: the first from the rows that replies
// look up, the next three from the rows that the engine's lookups are proved equal to, the last from the sizes that are looked up.
#![tactic(auto)]

ghost use Rattle.std.specs.Prelude.{OnOk};
ghost use Rattle.std.specs.Io.KnownBytes.{Appends};
ghost use Rattle.tables.specs.Text.{whole_text};

use std::io;
use std::io::Write;

// Writes each line of the text, in order.
#[tactic(auto, using(crate::proofs::Lines::none_written, crate::proofs::Lines::more_written, crate::proofs::Lines::none_after, crate::proofs::Lines::more_after))]
fn write_tables<W: Write>(writer: &mut W) -> io::Result<()>
    ensures { OnOk result (Appends (W.contents writer.old) (W.contents writer.new) whole_text) }
{
    for i in 0..printing::LINES {
        writer.write_all(printing::table_line(i).as_bytes())?;
    }
    for i in 0..size_text::LINES {
        writer.write_all(size_text::size_line(i).as_bytes())?;
    }
    Ok(())
}

fn main(rt: HostRuntime) -> io::Result<()> {
    write_tables(&mut rt.stdout())
}
