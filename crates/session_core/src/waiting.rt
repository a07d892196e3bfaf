use base_lists::Seq;
use h2_events::Said;

/// Something that waits to be said on a stream.
#[derive(Drop)]
pub struct Waiting {
    pub stream: u32,
    pub said: Said,
}

/// What waits to be said, in order.
pub type Waitings = Seq<Waiting>;
