// Laws of the definitions, each as the contract of a function that does nothing.
ghost use Rattle.gnmi_server.specs.laws.HistoryLaws.{SessionsStand};

use environment::{Sink, Source};

/// One history holds what all sessions did, each session's in its order.
pub fn sessions_stand_in_one_history<I: Source, O: Sink>()
    ensures { SessionsStand I.seen O.seen }
{}
