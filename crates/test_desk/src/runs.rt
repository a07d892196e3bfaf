//! Tables of calls.
use crate::calls::assert_answers;
use crate::client_tables::CLIENTS;
use crate::get_tables::{GETS, REFUSED};
use crate::trial_tables::{EXPIRY_FAILS, FIRST_FAILS, TRIALS};

#[test]
fn real_clients_are_answered(rt: HostRuntime) {
    assert_answers(&rt, rt.alloc(), None, CLIENTS);
}

#[test]
fn gets_in_each_encoding(rt: HostRuntime) {
    assert_answers(&rt, rt.alloc(), None, GETS);
}

#[test]
fn refusals_in_their_order(rt: HostRuntime) {
    assert_answers(&rt, rt.alloc(), None, REFUSED);
}

#[test]
fn trials_and_their_ends(rt: HostRuntime) {
    assert_answers(&rt, rt.alloc(), None, TRIALS);
}

#[test]
fn faults_of_the_disk(rt: HostRuntime) {
    assert_answers(&rt, rt.alloc(), Some(0), FIRST_FAILS);
    assert_answers(&rt, rt.alloc(), Some(8), EXPIRY_FAILS);
}
