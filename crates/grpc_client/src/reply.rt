//! What a frame of the server is answered at once.
ghost use Rattle.std.specs.Prelude.{◌≡◌};
ghost use Rattle.h2_windows.specs.Written.{Writes};
ghost use Rattle.grpc_client.specs.Replies.{frames_of, reply_to};

use environment::{Failed, Sink};
use h2_responses::ServerEvent;
use h2_windows::{put_grants, put_ping_ack, put_settings_ack};

/// What a frame of the server is answered.
#[derive(Clone, Copy, Debug)]
pub enum Reply {
    Nothing,
    /// SETTINGS with ACK (RFC 9113 section 6.5.3).
    SettingsAck,
    /// PING with ACK and these eight octets, the first of them the highest (section 6.7).
    PingAck(u64),
    /// WINDOW_UPDATE of as many octets, to the connection, and to the stream unless the server has ended it (section 6.9).
    Grants(u32, u32, bool),
}

impl Reply {
    /// What this event is answered.
    pub(crate) fn to(event: &ServerEvent) -> Reply
        ensures { result ≡ reply_to event.now }
    {
        match event {
            ServerEvent::Settings(_, _) => Reply::SettingsAck,
            ServerEvent::Ping(octets) => Reply::PingAck(*octets),
            ServerEvent::Piece(stream, _, size, ended) => Reply::Grants(*stream, *size, *ended),
            _ => Reply::Nothing,
        }
    }

    pub(crate) fn put<O: Sink>(self, output: &mut O) -> Result<(), Failed>
        ensures { Writes result (frames_of self) (O.seen output.old) (O.seen output.new) }
    {
        match self {
            Reply::Nothing => Ok(()),
            Reply::SettingsAck => put_settings_ack(output),
            Reply::PingAck(octets) => put_ping_ack(output, octets),
            Reply::Grants(stream, size, ended) => put_grants(output, stream, size, ended),
        }
    }
}
