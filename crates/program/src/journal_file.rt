ghost use Rattle.std.specs.Prelude.{◌≡◌, codes};
ghost use Rattle.program.specs.Printing.{SaysLast};

use crate::ending::Ending;
use crate::printing::say_last;
use environment::Sink;

/// The disk that a command hands back, and how the run ends.
#[derive(Drop)]
pub struct DiskEnd<D: Drop> {
    pub disk: Option<D>,
    pub ending: Ending,
}

/// Says that a disk could not be opened, or failed.
pub fn disk_fault<W: Sink>(output: &mut W) -> Ending
    ensures ends { result ≡ Ending.DiskFault }
    ensures line { SaysLast (codes "disk fault\n") (W.seen output.old) (W.seen output.new) }
{
    say_last(output, b"disk fault\n");
    Ending::DiskFault
}
