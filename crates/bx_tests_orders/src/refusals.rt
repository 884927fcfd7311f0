//! Which changes a register refuses.

use crate::cluster::{Cluster, NODE, SERVER, Told, shift};
use bx_base::Actor;
use bx_global::Change;
use std::alloc::Global;

/// A server that is no master prolongs a term.
const RENEW: Change = Change::Renew {
    by: 1,
    boot: 0,
    reading: 0,
};

/// What comes of changes that are handed to machines of a new cluster, one after the other.
fn proposes<const N: usize>(alloc: Global, handed: [(Actor, Change); N]) -> [Told; N] {
    let mut told = [Told::Failed; N];
    let Some(mut cluster) = Cluster::new(alloc) else {
        return told;
    };
    for (answer, (who, change)) in told.iter_mut().zip(&handed) {
        *answer = cluster.propose(*who, change);
    }
    told
}

#[test]
fn a_change_that_is_not_legal_is_refused(rt: HostRuntime) {
    let told = proposes(rt.alloc(), [(Actor::Server(1), RENEW), (NODE, shift(2, 5))]);
    assert!(rt; told == [Told::NotLegal; 2]);
}

#[test]
fn a_machine_proposes_one_change_at_a_time(rt: HostRuntime) {
    let one = shift(1, 5);
    let told = proposes(rt.alloc(), [(NODE, one), (NODE, one), (SERVER, one)]);
    assert!(rt; told == [Told::Taken, Told::Busy, Told::Taken]);
}

#[test]
fn a_change_that_is_not_legal_is_refused_as_that_by_a_busy_machine(rt: HostRuntime) {
    let told = proposes(
        rt.alloc(),
        [(NODE, shift(1, 5)), (NODE, shift(2, 5)), (NODE, RENEW)],
    );
    assert!(rt; told == [Told::Taken, Told::NotLegal, Told::NotLegal]);
}
