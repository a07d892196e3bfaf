//! The ports of the sessions.
ghost use Rattle.std.specs.Prelude.{◌≡◌, ◌≤◌, [], length};
ghost use Rattle.std.specs.VecDeque.{deque_len, deque_capacity};
ghost use Rattle.connection_server.specs.Twins.{MakesTwins};

use book_port::{PassFault, Twin};
use std::collections::VecDeque;

/// Makes so many further ports of the book. Takes no memory for the list.
pub(crate) fn make_twins<P: Twin + Drop>(
    port: &mut P,
    twins: &mut VecDeque<P>,
    count: u32,
) -> Result<(), PassFault>
    requires empty { (twins.old.items ≡ []) × (deque_len twins.old ≡ 0) }
    requires room { count ≤ deque_capacity twins.old }
    ensures twins { MakesTwins P.port count result (P.port port.old) twins.new.items
        (P.port port.new) }
    ensures len { deque_len twins.new ≡ length twins.new.items }
{
    for _made in 0..count {
        match port.twin() {
            Ok(twin) => twins.push_back_reserved(twin),
            Err(PassFault::Spent) => return Err(PassFault::Spent),
            Err(PassFault::NoMemory) => return Err(PassFault::NoMemory),
        }
    }
    Ok(())
}
