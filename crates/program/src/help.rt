ghost use Rattle.std.specs.Prelude.{◌≡◌};
ghost use Rattle.program.specs.HelpRun.{PrintsAlone, help_text, version_text};

use crate::ending::Ending;
use crate::host::{Host, Kit};
use crate::printing::print;

/// Prints the forms of the words and what they do, one line each.
pub fn help<K: Kit>(host: &mut Host<K>) -> Ending
    ensures prints { PrintsAlone help_text host.old host.new result }
    ensures door { host.new.door ≡ host.old.door }
{
    print(help_text(), Ending::Done, &mut host.output)
}

/// Prints the name and the version of the program.
pub fn version<K: Kit>(host: &mut Host<K>) -> Ending
    ensures prints { PrintsAlone version_text host.old host.new result }
    ensures door { host.new.door ≡ host.old.door }
{
    print(b"gnmid 0.1.0\n", Ending::Done, &mut host.output)
}

fn help_text() -> &'static [u8]
    ensures { result.now ≡ help_text }
{
    b"check SCHEMA: print how many nodes the schema in the file SCHEMA has, or its first fault\ninit JOURNAL: write a journal without entries into the file JOURNAL, which must be empty or not there yet\ninit JOURNAL ENTRIES OCTETS: the same, for a log of at most ENTRIES entries and OCTETS octets\nlog JOURNAL: print the commit log in the journal in the file JOURNAL\nscript SCHEMA: run the script on standard input under the schema, and print its answers and its log\nscript SCHEMA ENTRIES OCTETS: the same, with a log of at most ENTRIES entries and OCTETS octets\nsession SCHEMA JOURNAL: serve one gNMI connection over standard input and output, on the journal in the file JOURNAL\nserve SCHEMA JOURNAL ADDRESS SESSIONS: accept SESSIONS gNMI connections at ADDRESS, a host and a port, and serve them side by side, on the journal in the file JOURNAL\nload SEED COUNT: serve a client that makes COUNT generated Sets over memory, and print what came of them\n--help: print these lines\n--version: print the name and the version of the program\n"
}
