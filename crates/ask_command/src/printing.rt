ghost use Rattle.std.specs.Prelude.{◌≡◌, codes};
ghost use Rattle.ask_command.specs.Printing.{SaysLast, OutOfMemory, Prints, saying};

use crate::ending::Ending;
use environment::{Sink, write_whole};

/// Writes a last line, as far as the output takes it.
pub(crate) fn say_last<S: Sink>(output: &mut S, line: &[u8])
    ensures { SaysLast line.now (S.seen output.old) (S.seen output.new) }
{
    let _ = write_whole(output, line);
}

/// Says that memory is wanting.
pub(crate) fn out_of_memory<S: Sink>(output: &mut S) -> Ending
    ensures { OutOfMemory (S.seen output.old) (S.seen output.new) result }
{
    say_last(output, b"no memory\n");
    Ending::NoMemory
}

/// Prints a text, and ends so unless the output fails.
pub(crate) fn print<S: Sink>(text: &[u8], good: Ending, output: &mut S) -> Ending
    ensures { Prints (saying text.now good) (S.seen output.old) (S.seen output.new) result }
{
    match write_whole(output, text) {
        Ok(()) => good,
        Err(_) => Ending::OutputFault,
    }
}
