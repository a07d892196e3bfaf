ghost use Rattle.std.specs.Prelude.{◌≡◌, [], None};

use crate::ending::Ending;
use crate::files::Files;
use crate::host::{Host, Kit};
use crate::journal_file::DiskEnd;
use connection_server::LinkEnd;
use listening::Door;
use session_core::How;
use std::alloc::Global;

/// What is kept of the connections that a door gave.
pub type Links<D> = Vec<LinkEnd<<D as Door>::Reader, <D as Door>::Writer, How>>;

/// What a command leaves, and how the run ends.
#[derive(Drop)]
pub struct CommandEnd<K: Kit> {
    pub host: Host<K>,
    /// The disk, where the files gave one.
    pub disk: Option<<K::Files as Files>::Disk>,
    /// How the connection over the input and the output ended, where one was served.
    pub how: Option<How>,
    /// The connections that the door gave, in their order.
    pub links: Links<K::Door>,
    pub ending: Ending,
}

impl<K: Kit> CommandEnd<K> {
    /// Of a command to which no disk was given.
    pub fn without_disk(alloc: Global, host: Host<K>, ending: Ending) -> CommandEnd<K>
        ensures host { result.host ≡ host }
        ensures disk { result.disk ≡ None }
        ensures how { result.how ≡ None }
        ensures links { result.links.items ≡ [] }
        ensures ending { result.ending ≡ ending }
    {
        CommandEnd {
            host,
            disk: None,
            how: None,
            links: Vec::new(alloc),
            ending,
        }
    }

    /// Of a command that serves no connection.
    pub fn with_disk(
        alloc: Global,
        host: Host<K>,
        end: DiskEnd<<K::Files as Files>::Disk>,
    ) -> CommandEnd<K>
        ensures host { result.host ≡ host }
        ensures disk { result.disk ≡ end.disk }
        ensures how { result.how ≡ None }
        ensures links { result.links.items ≡ [] }
        ensures ending { result.ending ≡ end.ending }
    {
        let DiskEnd { disk, ending } = end;
        CommandEnd {
            host,
            disk,
            how: None,
            links: Vec::new(alloc),
            ending,
        }
    }
}
