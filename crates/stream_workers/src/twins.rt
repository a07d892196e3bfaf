//! Ports for a feeder, and what becomes of those that aren't used.
ghost use Rattle.std.specs.Prelude.{◌≡◌, IfOk, IfSome, IfNone};
ghost use Rattle.book_port.specs.Ports.{CanMeet, IsTwin as IsBookTwin, Meets as MeetsBook};
ghost use Rattle.shared_wire.specs.Visits.{IsTwin as IsWireTwin, Meets as MeetsWire};
ghost use Rattle.stream_workers.specs.Ports.{StayTheirs};

use base_lists::{Copied, NoMemory};
use book_port::Twin;
use environment::{Clock, Pacer, Sink};
use schema_core::Schema;
use shared_wire::WireVisit;
use std::alloc::Global;
use std::sync::Wait;

/// What a feeder has beside its ports.
#[derive(Drop)]
pub(crate) struct Tools<C, Q, R> {
    pub clock: C,
    pub pacer: Q,
    pub schema: Schema,
    pub rt: R,
}

/// Twins of these.
pub(crate) fn tools_of<C: Clock + Drop, Q: Pacer + Drop, R: Clone + Drop>(
    alloc: Global,
    clock: &C,
    pacer: &Q,
    schema: &Schema,
    rt: &R,
) -> Result<Tools<C, Q, R>, NoMemory>
    ensures { IfOk result (λ tools. tools.schema ≡ schema.now) }
{
    let clock = clock.twin(alloc)?;
    let pacer = pacer.twin()?;
    let schema = schema.copy(alloc)?;
    let rt = rt.clone()?;
    Ok(Tools {
        clock,
        pacer,
        schema,
        rt,
    })
}

/// Twins of both ports. Where the wire has none, the one of the book is met at once.
pub(crate) fn twins<P: Twin, O: Sink + Drop, R: Wait + Clone + Drop>(
    book: &mut P,
    wire: &mut WireVisit<O, R>,
) -> Option<(P, WireVisit<O, R>)>
    ensures book { IfSome result
        (λ twins. IsBookTwin (P.port book.old) (P.port book.new) (P.port twins.0)) }
    ensures wire { IfSome result (λ twins. IsWireTwin wire.old wire.new twins.1) }
    ensures none { IfNone result
        (StayTheirs (P.port book.old) (P.port book.new) wire.old wire.new) }
{
    let Ok(own) = book.twin() else {
        return None;
    };
    match wire.twin() {
        Ok(visit) => Some((own, visit)),
        Err(_) => {
            book.meet(own);
            None
        }
    }
}

/// Meets ports that are of no use any more.
pub(crate) fn meet_ports<P: Twin + Drop, O: Sink + Drop, R: Drop>(
    book: &mut P,
    wire: &mut WireVisit<O, R>,
    other_book: P,
    other_wire: WireVisit<O, R>,
)
    requires book { CanMeet (P.port book.old) (P.port other_book) }
    requires wire { other_wire.lock ≡ wire.old.lock }
    ensures book { MeetsBook (P.port book.old) (P.port other_book) (P.port book.new) }
    ensures wire { MeetsWire wire.old other_wire wire.new }
{
    book.meet(other_book);
    wire.meet(other_wire);
}
