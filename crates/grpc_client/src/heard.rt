ghost use Rattle.std.specs.Prelude.{◌≡◌, OnOk};
ghost use Rattle.grpc_client.specs.Responses.{nothing_heard, heard_with};

use base_lists::{Bytes, NoMemory};
use h2_responses::ServerEvent;
use hpack_block::Headers;
use std::alloc::Global;

/// What came of the response to the call.
#[derive(Drop)]
pub struct Heard {
    /// The headers that began it.
    pub head: Option<Headers>,
    /// The octets of its DATA.
    pub octets: Bytes,
    /// The headers that ended it.
    pub trailers: Option<Headers>,
    /// The code of the RST_STREAM that ended it.
    pub reset: Option<u32>,
}

impl Heard {
    /// Takes no memory.
    pub fn nothing(alloc: Global) -> Heard
        ensures { result ≡ nothing_heard }
    {
        Heard {
            head: None,
            octets: Bytes::empty(alloc),
            trailers: None,
            reset: None,
        }
    }

    /// Keeps what an event says of the response.
    pub(crate) fn take(&mut self, event: ServerEvent) -> Result<(), NoMemory>
        ensures { OnOk result (self.new ≡ heard_with event self.old) }
    {
        match event {
            ServerEvent::Head(_, headers, _) => self.head = Some(headers),
            ServerEvent::Piece(_, octets, _, _) => self.octets.extend_from_slice(octets.items())?,
            ServerEvent::Trailers(_, headers) => self.trailers = Some(headers),
            ServerEvent::Reset(_, code) => self.reset = Some(code),
            _ => {}
        }
        Ok(())
    }
}
