use base_kinds::{Note, Seq};

/// One message of a Subscribe call's answer (gNMI 3.5.1.4).
#[derive(Drop)]
pub enum SubReply {
    Note(Note),
    /// What was there at the beginning has been sent: sync_response.
    Sync,
}

pub type SubReplies = Seq<SubReply>;
