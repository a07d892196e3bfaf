ghost use Rattle.std.specs.Prelude.{◌≡◌, codes};
ghost use Rattle.program.specs.Printing.{SaysLast, OutOfMemory, PrintsText};

use crate::ending::Ending;
use environment::{Sink, write_whole};

/// Writes a last line, as far as the output takes it.
pub fn say_last<W: Sink>(output: &mut W, line: &[u8])
    ensures { SaysLast line.now (W.seen output.old) (W.seen output.new) }
{
    let _ = write_whole(output, line);
}

/// Says that the input, or a file, could not be read.
pub fn input_fault<W: Sink>(output: &mut W) -> Ending
    ensures ends { result ≡ Ending.InputFault }
    ensures line { SaysLast (codes "input fault\n") (W.seen output.old) (W.seen output.new) }
{
    say_last(output, b"input fault\n");
    Ending::InputFault
}

/// Says that memory is wanting.
pub fn out_of_memory<W: Sink>(output: &mut W) -> Ending
    ensures { OutOfMemory (W.seen output.old) (W.seen output.new) result }
{
    say_last(output, b"no memory\n");
    Ending::NoMemory
}

/// Prints a text, and ends so unless the output fails.
pub fn print<W: Sink>(text: &[u8], good: Ending, output: &mut W) -> Ending
    ensures { PrintsText text.now good (W.seen output.old) (W.seen output.new) result }
{
    match write_whole(output, text) {
        Ok(()) => good,
        Err(_) => Ending::OutputFault,
    }
}
