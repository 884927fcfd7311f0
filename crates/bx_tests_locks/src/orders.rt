//! Orders of letters between a lock server and clerks.

use crate::locks::Step::{
    Asks, Decides, Gets, GivesUp, Holds, HoldsNot, IsAsked, Learns, Lose, Overtake, Pass, Reads,
    Repeat, Sent, Ticks, Wants,
};
use crate::locks::{L0, N0, N1, Step, first_wrong};
use bx_base::Mode::{Exclusive, Shared};
use bx_global::Change;

/// A node holds the block exclusively, gave it up with index 9, which was lost, and holds it again.
const GIVEN_UP_AND_HELD_AGAIN: [Step; 6] = [
    Gets(0, Exclusive),
    Holds(0, Exclusive, 0),
    GivesUp(0, 9),
    Lose(N0, L0),
    Gets(0, Exclusive),
    Holds(0, Exclusive, 9),
];

/// Then it gives it up with a lower index: the next one may read from 9 on all the same.
const A_LOWER_INDEX: [Step; 12] = [
    Gets(0, Exclusive),
    GivesUp(0, 9),
    Lose(N0, L0),
    Gets(0, Exclusive),
    Asks(1, Shared),
    Sent(L0, N1, 0),
    Sent(L0, N0, 1),
    GivesUp(0, 3),
    Pass(N0, L0),
    Pass(L0, N1),
    Holds(1, Shared, 9),
    HoldsNot(0),
];

/// A release was lost; the answer to a revoke has its index.
const WHAT_IS_NOT_HELD_IS_ASKED_BACK: [Step; 8] = [
    Gets(0, Exclusive),
    GivesUp(0, 9),
    Lose(N0, L0),
    Asks(1, Shared),
    Pass(L0, N0),
    Pass(N0, L0),
    Pass(L0, N1),
    Holds(1, Shared, 9),
];

/// A shared want overtakes the release of what was held exclusively: the block is held exclusively again, and no one comes in beside.
const A_WANT_OVERTAKES_A_RELEASE: [Step; 16] = [
    Gets(0, Exclusive),
    GivesUp(0, 9),
    Wants(0, Shared),
    Overtake(N0, L0),
    Asks(1, Shared),
    Sent(L0, N1, 0),
    Pass(L0, N0),
    Holds(0, Exclusive, 9),
    Pass(N0, L0),
    Sent(L0, N1, 0),
    Pass(L0, N0),
    IsAsked(0, Some(2)),
    GivesUp(0, 9),
    Pass(N0, L0),
    Pass(L0, N1),
    Holds(1, Shared, 9),
];

/// The server renews its lease, by a clock that reads 5000.
const RENEWS: Change = Change::Renew {
    by: 0,
    boot: 0,
    reading: 5000,
};

/// The server lets session 1 expire, by the same clock.
const EXPIRES: Change = Change::Expire {
    session: 1,
    term: 1,
    reading: 5000,
};

/// Session 1 is closed behind the server's back, which asked for its expiry: its release is passed over, and the next grant has the index of the
/// Close.
const A_LATE_RELEASE: [Step; 28] = [
    Gets(0, Exclusive),
    Reads(5000),
    Ticks(L0, Some(RENEWS)),
    Decides(RENEWS),
    Learns(L0),
    Learns(N1),
    Ticks(N1, None),
    Pass(N1, L0),
    Pass(L0, N1),
    Ticks(L0, Some(EXPIRES)),
    Decides(EXPIRES),
    Decides(Change::Claim { dead: 1, by: 2 }),
    Decides(Change::Close { dead: 1, by: 2 }),
    Asks(1, Shared),
    Sent(L0, N0, 1),
    Sent(L0, N1, 0),
    GivesUp(0, 3),
    Pass(N0, L0),
    Sent(L0, N1, 0),
    HoldsNot(1),
    Learns(N1),
    Ticks(N1, None),
    Pass(N1, L0),
    Pass(L0, N1),
    Learns(L0),
    Ticks(L0, None),
    Pass(L0, N1),
    Holds(1, Shared, 8),
];

/// A session is opened, expired, claimed and closed between two states that the server knows: none of the rows that it knew is gone, and its next
/// grant has the index of the Close all the same.
const A_CLOSING_BETWEEN_TWO_STATES: [Step; 11] = [
    Decides(Change::Open {
        node: 2,
        boot: 0,
        reading: 100,
    }),
    Decides(Change::Expire {
        session: 3,
        term: 1,
        reading: 4700,
    }),
    Decides(Change::Claim { dead: 3, by: 1 }),
    Decides(Change::Close { dead: 3, by: 1 }),
    Wants(0, Shared),
    Learns(L0),
    Pass(N0, L0),
    Pass(L0, N0),
    Holds(0, Shared, 8),
    Asks(1, Shared),
    Sent(L0, N1, 1),
];

/// A want that comes twice is granted twice under its number; the second node's waits until the release, whose index its grant has; and the first
/// want is passed over when it comes late.
const WANTS_AND_THEIR_ANSWERS: [Step; 20] = [
    Wants(0, Exclusive),
    Repeat(N0, L0),
    Sent(L0, N0, 1),
    Repeat(N0, L0),
    Sent(L0, N0, 2),
    Pass(L0, N0),
    Holds(0, Exclusive, 0),
    Pass(L0, N0),
    Holds(0, Exclusive, 0),
    Asks(1, Shared),
    Sent(L0, N1, 0),
    Pass(L0, N0),
    IsAsked(0, Some(2)),
    GivesUp(0, 1),
    Overtake(N0, L0),
    Pass(L0, N1),
    Holds(1, Shared, 1),
    Pass(N0, L0),
    Sent(L0, N0, 0),
    Sent(L0, N1, 0),
];

/// Past the end of its term the server grants nothing.
const PAST_THE_TERM: [Step; 4] = [Wants(0, Shared), Reads(8001), Pass(N0, L0), Sent(L0, N0, 0)];

/// A grant that comes again behind the give-up is no hold.
const A_REPEATED_GRANT: [Step; 8] = [
    Asks(0, Exclusive),
    Repeat(L0, N0),
    Holds(0, Exclusive, 0),
    GivesUp(0, 4),
    Pass(L0, N0),
    HoldsNot(0),
    Pass(N0, L0),
    Sent(L0, N0, 0),
];

/// A revoke comes before the grant of its number: the number is released, and the grant is no hold.
const A_REVOKE_BEFORE_ITS_GRANT: [Step; 8] = [
    Asks(0, Exclusive),
    Asks(1, Shared),
    Overtake(L0, N0),
    Sent(N0, L0, 1),
    Pass(L0, N0),
    HoldsNot(0),
    Pass(N0, L0),
    Sent(L0, N1, 1),
];

const ORDERS: [(&str, &[Step]); 10] = [
    ("given up, lost, and held again", &GIVEN_UP_AND_HELD_AGAIN),
    ("given up with a lower index", &A_LOWER_INDEX),
    (
        "what isn't held is asked back",
        &WHAT_IS_NOT_HELD_IS_ASKED_BACK,
    ),
    ("a want overtakes a release", &A_WANT_OVERTAKES_A_RELEASE),
    ("a release of a session that is closed", &A_LATE_RELEASE),
    (
        "a closing between two states",
        &A_CLOSING_BETWEEN_TWO_STATES,
    ),
    ("wants and their answers", &WANTS_AND_THEIR_ANSWERS),
    ("past the term", &PAST_THE_TERM),
    ("a repeated grant", &A_REPEATED_GRANT),
    ("a revoke before its grant", &A_REVOKE_BEFORE_ITS_GRANT),
];

#[test]
fn letters_of_locks_come_in_these_orders(rt: HostRuntime) {
    for (name, steps) in ORDERS {
        let wrong = first_wrong(rt.alloc(), steps);
        assert!(rt; wrong.is_none(), "{name}: step {}", wrong.unwrap_or(0));
    }
}
