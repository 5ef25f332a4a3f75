//! The texts of runs. They stand in examples/ too, each beside its schedule.

/// One Put in view 0.
pub const PLAIN_PATH: &str = "\
    cluster 3 viewss 4 = done; first 0; promise 0 0; send 0 1 prepare; send 1 2 prepare; first 1; first 2\n\
    request 0 7 1 put 61 62 = done\n\
    batch 0 = done\n\
    tick 0 = done\n\
    batch 0 = done\n\
    deliver 1 0 = done\n\
    protocol 1 = done; promise 1 0; send 2 0 promise\n\
    deliver 0 2 = done\n\
    protocol 0 = done; send 3 1 alive; send 4 2 alive\n\
    protocol 0 = done\n\
    protocol 0 = done; prepared 0 0 0; launch 0 0 0 7.1; vote 0 0 0; send 5 1 propose; send 6 2 propose\n\
    deliver 1 5 = done\n\
    protocol 1 = done; vote 1 0 0; send 7 0 accept; send 8 2 accept; learn 1 0\n\
    service 1 = done; execute 1 0 7.1+ok\n\
    deliver 0 7 = done\n\
    protocol 0 = done; learn 0 0\n\
    service 0 = done; execute 0 0 7.1+ok\n\
    deliver 2 6 = done\n\
    protocol 2 = done; vote 2 0 0; send 9 0 accept; send 10 1 accept; learn 2 0\n\
    service 2 = done; execute 2 0 7.1+ok\n\
    end = done\n\
    replica 0 working 0 1 61=62\n\
    replica 1 working 0 1 61=62\n\
    replica 2 working 0 1 61=62\n\
    ";

/// The shortest schedule.
pub const NOTHING_HAPPENS: &str = "\
    cluster 3 epochss 1 = done; first 0; promise 0 0; send 0 1 prepare; send 1 2 prepare; first 1; first 2\n\
    end = done\n\
    replica 0 working 0 0\n\
    replica 1 working 0 0\n\
    replica 2 working 0 0\n\
    ";

/// The second of two proposals is learned first.
pub const OUT_OF_ORDER: &str = "\
    cluster 3 viewss 3 = done; first 0; promise 0 0; send 0 1 prepare; send 1 2 prepare; first 1; first 2\n\
    deliver 1 0 = done\n\
    protocol 1 = done; promise 1 0; send 2 0 promise\n\
    deliver 0 2 = done\n\
    protocol 0 = done; prepared 0 0 0\n\
    request 0 1 1 put 61 31 = done\n\
    batch 0 = done\n\
    tick 0 = done\n\
    batch 0 = done\n\
    protocol 0 = done; send 3 1 alive; send 4 2 alive\n\
    protocol 0 = done; launch 0 0 0 1.1; vote 0 0 0; send 5 1 propose; send 6 2 propose\n\
    request 0 2 1 get 61 = done\n\
    batch 0 = done\n\
    tick 0 = done\n\
    batch 0 = done\n\
    protocol 0 = done; send 7 1 alive; send 8 2 alive\n\
    protocol 0 = done; launch 0 0 1 2.1; vote 0 0 1; send 9 1 propose; send 10 2 propose\n\
    deliver 1 9 = done\n\
    protocol 1 = done; vote 1 0 1; send 11 0 accept; send 12 2 accept; learn 1 1\n\
    service 1 = empty\n\
    deliver 1 5 = done\n\
    protocol 1 = done; vote 1 0 0; send 13 0 accept; send 14 2 accept; learn 1 0\n\
    service 1 = done; execute 1 0 1.1+ok\n\
    service 1 = done; execute 1 1 2.1+value:31\n\
    end = done\n\
    replica 0 working 0 0\n\
    replica 1 working 0 2 61=31\n\
    replica 2 working 0 0\n\
    ";

/// Every message of the plain path taken three times.
pub const REPEATS: &str = "\
    cluster 3 viewss 4 = done; first 0; promise 0 0; send 0 1 prepare; send 1 2 prepare; first 1; first 2\n\
    request 0 7 1 put 61 62 = done\n\
    batch 0 = done\n\
    tick 0 = done\n\
    batch 0 = done\n\
    deliver 1 0 = done\n\
    protocol 1 = done; promise 1 0; send 2 0 promise\n\
    deliver 0 2 = done\n\
    protocol 0 = done; send 3 1 alive; send 4 2 alive\n\
    protocol 0 = done\n\
    protocol 0 = done; prepared 0 0 0; launch 0 0 0 7.1; vote 0 0 0; send 5 1 propose; send 6 2 propose\n\
    deliver 1 5 = done\n\
    protocol 1 = done; vote 1 0 0; send 7 0 accept; send 8 2 accept; learn 1 0\n\
    service 1 = done; execute 1 0 7.1+ok\n\
    deliver 0 7 = done\n\
    protocol 0 = done; learn 0 0\n\
    service 0 = done; execute 0 0 7.1+ok\n\
    deliver 2 6 = done\n\
    protocol 2 = done; vote 2 0 0; send 9 0 accept; send 10 1 accept; learn 2 0\n\
    service 2 = done; execute 2 0 7.1+ok\n\
    deliver 1 0 = done\n\
    protocol 1 = done; promise 1 0; send 11 0 promise\n\
    deliver 1 0 = done\n\
    protocol 1 = done; promise 1 0; send 12 0 promise\n\
    deliver 2 1 = done\n\
    protocol 2 = done; promise 2 0; send 13 0 promise\n\
    deliver 2 1 = done\n\
    protocol 2 = done; promise 2 0; send 14 0 promise\n\
    deliver 0 2 = done\n\
    protocol 0 = done\n\
    deliver 0 2 = done\n\
    protocol 0 = done\n\
    deliver 1 3 = done\n\
    protocol 1 = done\n\
    deliver 1 3 = done\n\
    protocol 1 = done\n\
    deliver 2 4 = done\n\
    protocol 2 = done\n\
    deliver 2 4 = done\n\
    protocol 2 = done\n\
    deliver 1 5 = done\n\
    protocol 1 = done; vote 1 0 0; send 15 0 accept; send 16 2 accept\n\
    deliver 1 5 = done\n\
    protocol 1 = done; vote 1 0 0; send 17 0 accept; send 18 2 accept\n\
    deliver 2 6 = done\n\
    protocol 2 = done; vote 2 0 0; send 19 0 accept; send 20 1 accept\n\
    deliver 2 6 = done\n\
    protocol 2 = done; vote 2 0 0; send 21 0 accept; send 22 1 accept\n\
    deliver 0 7 = done\n\
    protocol 0 = done\n\
    deliver 0 7 = done\n\
    protocol 0 = done\n\
    deliver 2 8 = done\n\
    protocol 2 = done\n\
    deliver 2 8 = done\n\
    protocol 2 = done\n\
    deliver 0 9 = done\n\
    protocol 0 = done\n\
    deliver 0 9 = done\n\
    protocol 0 = done\n\
    deliver 1 10 = done\n\
    protocol 1 = done\n\
    deliver 1 10 = done\n\
    protocol 1 = done\n\
    service 0 = empty\n\
    service 1 = empty\n\
    service 2 = empty\n\
    end = done\n\
    replica 0 working 0 1 61=62\n\
    replica 1 working 0 1 61=62\n\
    replica 2 working 0 1 61=62\n\
    ";

/// One batch of requests that put and get, two of them repeats.
pub const STORE: &str = "\
    cluster 3 viewss 4 = done; first 0; promise 0 0; send 0 1 prepare; send 1 2 prepare; first 1; first 2\n\
    deliver 1 0 = done\n\
    protocol 1 = done; promise 1 0; send 2 0 promise\n\
    deliver 0 2 = done\n\
    protocol 0 = done; prepared 0 0 0\n\
    request 0 7 1 put 61 62 = done\n\
    request 0 7 2 get 61 = done\n\
    request 0 7 3 get 62 = done\n\
    request 0 7 4 put 61 - = done\n\
    request 0 7 5 get 61 = done\n\
    request 0 7 5 get 61 = done\n\
    request 0 7 4 put 61 62 = done\n\
    tick 0 = done\n\
    batch 0 = done\n\
    batch 0 = done\n\
    batch 0 = done\n\
    batch 0 = done\n\
    batch 0 = done\n\
    batch 0 = done\n\
    batch 0 = done\n\
    batch 0 = done\n\
    protocol 0 = done; send 3 1 alive; send 4 2 alive\n\
    protocol 0 = done; launch 0 0 0 7.1,7.2,7.3,7.4,7.5,7.5,7.4; vote 0 0 0; send 5 1 propose; send 6 2 propose\n\
    deliver 1 5 = done\n\
    protocol 1 = done; vote 1 0 0; send 7 0 accept; send 8 2 accept; learn 1 0\n\
    service 1 = done; execute 1 0 7.1+ok 7.2+value:62 7.3+none 7.4+ok 7.5+value:- 7.5=value:- 7.4~\n\
    deliver 0 7 = done\n\
    protocol 0 = done; learn 0 0\n\
    service 0 = done; execute 0 0 7.1+ok 7.2+value:62 7.3+none 7.4+ok 7.5+value:- 7.5=value:- 7.4~\n\
    end = done\n\
    replica 0 working 0 1 61=-\n\
    replica 1 working 0 1 61=-\n\
    replica 2 working 0 0\n\
    ";

/// A leader crashes, and the next one proposes the batch that was voted on.
pub const NEXT_VIEW: &str = "\
    cluster 5 viewss 4 = done; first 0; promise 0 0; send 0 1 prepare; send 1 2 prepare; send 2 3 prepare; send 3 4 prepare; first 1; first 2; first 3; first 4\n\
    deliver 1 0 = done\n\
    protocol 1 = done; promise 1 0; send 4 0 promise\n\
    deliver 2 1 = done\n\
    protocol 2 = done; promise 2 0; send 5 0 promise\n\
    deliver 0 4 = done\n\
    protocol 0 = done\n\
    deliver 0 5 = done\n\
    protocol 0 = done; prepared 0 0 0\n\
    request 0 7 1 put 61 62 = done\n\
    batch 0 = done\n\
    tick 0 = done\n\
    batch 0 = done\n\
    protocol 0 = done; send 6 1 alive; send 7 2 alive; send 8 3 alive; send 9 4 alive\n\
    protocol 0 = done; launch 0 0 0 7.1; vote 0 0 0; send 10 1 propose; send 11 2 propose; send 12 3 propose; send 13 4 propose\n\
    deliver 1 10 = done\n\
    protocol 1 = done; vote 1 0 0; send 14 0 accept; send 15 2 accept; send 16 3 accept; send 17 4 accept\n\
    crash 0 = done; crash 0\n\
    suspect 2 = done\n\
    protocol 2 = done; enter 2 2; promise 2 2; send 18 0 prepare; send 19 1 prepare; send 20 3 prepare; send 21 4 prepare\n\
    deliver 1 19 = done\n\
    protocol 1 = done; enter 1 2; promise 1 2; send 22 2 promise\n\
    deliver 3 20 = done\n\
    protocol 3 = done; enter 3 2; promise 3 2; send 23 2 promise\n\
    deliver 2 22 = done\n\
    protocol 2 = done\n\
    deliver 2 23 = done\n\
    protocol 2 = done; prepared 2 2 1; launch 2 2 0 7.1; vote 2 2 0; send 24 0 propose; send 25 1 propose; send 26 3 propose; send 27 4 propose\n\
    end = done\n\
    replica 0 down\n\
    replica 1 working 2 0\n\
    replica 2 working 2 0\n\
    replica 3 working 2 0\n\
    replica 4 working 0 0\n\
    ";

/// The next leader fills a gap with the empty batch.
pub const FILLED_GAP: &str = "\
    cluster 3 viewss 3 = done; first 0; promise 0 0; send 0 1 prepare; send 1 2 prepare; first 1; first 2\n\
    deliver 1 0 = done\n\
    protocol 1 = done; promise 1 0; send 2 0 promise\n\
    deliver 0 2 = done\n\
    protocol 0 = done; prepared 0 0 0\n\
    request 0 1 1 put 61 31 = done\n\
    batch 0 = done\n\
    tick 0 = done\n\
    batch 0 = done\n\
    protocol 0 = done; send 3 1 alive; send 4 2 alive\n\
    protocol 0 = done; launch 0 0 0 1.1; vote 0 0 0; send 5 1 propose; send 6 2 propose\n\
    request 0 2 1 get 61 = done\n\
    batch 0 = done\n\
    tick 0 = done\n\
    batch 0 = done\n\
    protocol 0 = done; send 7 1 alive; send 8 2 alive\n\
    protocol 0 = done; launch 0 0 1 2.1; vote 0 0 1; send 9 1 propose; send 10 2 propose\n\
    deliver 1 9 = done\n\
    protocol 1 = done; vote 1 0 1; send 11 0 accept; send 12 2 accept; learn 1 1\n\
    service 1 = empty\n\
    crash 0 = done; crash 0\n\
    suspect 1 = done\n\
    protocol 1 = done; enter 1 1; promise 1 1; send 13 0 prepare; send 14 2 prepare\n\
    deliver 2 14 = done\n\
    protocol 2 = done; enter 2 1; promise 2 1; send 15 1 promise\n\
    deliver 1 15 = done\n\
    protocol 1 = done; prepared 1 1 2; launch 1 1 0 -; vote 1 1 0; send 16 0 propose; send 17 2 propose; launch 1 1 1 2.1; vote 1 1 1; send 18 0 propose; send 19 2 propose\n\
    deliver 2 17 = done\n\
    protocol 2 = done; vote 2 1 0; send 20 0 accept; send 21 1 accept; learn 2 0\n\
    deliver 1 21 = done\n\
    protocol 1 = done; learn 1 0\n\
    service 1 = done; execute 1 0\n\
    service 1 = done; execute 1 1 2.1+none\n\
    end = done\n\
    replica 0 down\n\
    replica 1 working 1 2\n\
    replica 2 working 1 0\n\
    ";

/// One request is decided under two leaders, and executed once.
pub const TWO_LEADERS: &str = "\
    cluster 3 viewss 4 = done; first 0; promise 0 0; send 0 1 prepare; send 1 2 prepare; first 1; first 2\n\
    request 0 7 1 put 61 62 = done\n\
    batch 0 = done\n\
    tick 0 = done\n\
    batch 0 = done\n\
    deliver 1 0 = done\n\
    protocol 1 = done; promise 1 0; send 2 0 promise\n\
    deliver 0 2 = done\n\
    protocol 0 = done; send 3 1 alive; send 4 2 alive\n\
    protocol 0 = done\n\
    protocol 0 = done; prepared 0 0 0; launch 0 0 0 7.1; vote 0 0 0; send 5 1 propose; send 6 2 propose\n\
    deliver 1 5 = done\n\
    protocol 1 = done; vote 1 0 0; send 7 0 accept; send 8 2 accept; learn 1 0\n\
    service 1 = done; execute 1 0 7.1+ok\n\
    deliver 0 7 = done\n\
    protocol 0 = done; learn 0 0\n\
    service 0 = done; execute 0 0 7.1+ok\n\
    deliver 2 6 = done\n\
    protocol 2 = done; vote 2 0 0; send 9 0 accept; send 10 1 accept; learn 2 0\n\
    service 2 = done; execute 2 0 7.1+ok\n\
    suspect 1 = done\n\
    protocol 1 = done; enter 1 1; promise 1 1; send 11 0 prepare; send 12 2 prepare\n\
    deliver 2 12 = done\n\
    protocol 2 = done; enter 2 1; promise 2 1; send 13 1 promise\n\
    deliver 1 13 = done\n\
    protocol 1 = done; prepared 1 1 1\n\
    request 1 7 1 put 61 62 = done\n\
    batch 1 = done\n\
    tick 1 = done\n\
    batch 1 = done\n\
    protocol 1 = done; send 14 0 alive; send 15 2 alive\n\
    protocol 1 = done; launch 1 1 1 7.1; vote 1 1 1; send 16 0 propose; send 17 2 propose\n\
    deliver 2 17 = done\n\
    protocol 2 = done; vote 2 1 1; send 18 0 accept; send 19 1 accept; learn 2 1\n\
    service 2 = done; execute 2 1 7.1=ok\n\
    end = done\n\
    replica 0 working 0 1 61=62\n\
    replica 1 working 1 1 61=62\n\
    replica 2 working 1 2 61=62\n\
    ";

/// ViewSS: a replica crashes, returns and rejoins in view 1.
pub const REJOINS: &str = "\
    cluster 3 viewss 4 = done; first 0; promise 0 0; send 0 1 prepare; send 1 2 prepare; first 1; first 2\n\
    deliver 1 0 = done\n\
    protocol 1 = done; promise 1 0; send 2 0 promise\n\
    deliver 0 2 = done\n\
    protocol 0 = done; prepared 0 0 0\n\
    crash 2 = done; crash 2\n\
    start 2 = done; return 2 1; send 3 0 recovery; send 4 1 recovery\n\
    deliver 0 3 = done\n\
    protocol 0 = done; enter 0 1; answer 0 2 1 -; send 5 2 answer\n\
    suspect 1 = done\n\
    protocol 1 = done; enter 1 1; promise 1 1; send 6 0 prepare; send 7 2 prepare\n\
    deliver 0 6 = done\n\
    protocol 0 = done; promise 0 1; send 8 1 promise\n\
    deliver 1 8 = done\n\
    protocol 1 = done; prepared 1 1 0\n\
    deliver 1 4 = done\n\
    protocol 1 = done; answer 1 2 1 0; send 9 2 answer\n\
    deliver 2 5 = done\n\
    protocol 2 = done\n\
    deliver 2 9 = done\n\
    protocol 2 = done; rejoin 2 1\n\
    end = done\n\
    replica 0 working 1 0\n\
    replica 1 working 1 0\n\
    replica 2 working 1 0\n\
    ";

/// ViewSS: a replica crashes twice, and an answer to its first return comes late.
pub const TWO_CRASHES: &str = "\
    cluster 3 viewss 4 = done; first 0; promise 0 0; send 0 1 prepare; send 1 2 prepare; first 1; first 2\n\
    deliver 1 0 = done\n\
    protocol 1 = done; promise 1 0; send 2 0 promise\n\
    deliver 0 2 = done\n\
    protocol 0 = done; prepared 0 0 0\n\
    crash 2 = done; crash 2\n\
    start 2 = done; return 2 1; send 3 0 recovery; send 4 1 recovery\n\
    deliver 0 3 = done\n\
    protocol 0 = done; enter 0 1; answer 0 2 1 -; send 5 2 answer\n\
    crash 2 = done; crash 2\n\
    start 2 = done; return 2 3; send 6 0 recovery; send 7 1 recovery\n\
    deliver 2 5 = done\n\
    protocol 2 = done\n\
    deliver 0 6 = done\n\
    protocol 0 = done; enter 0 3; promise 0 3; send 8 1 prepare; send 9 2 prepare; answer 0 2 3 -; send 10 2 answer\n\
    deliver 1 7 = done\n\
    protocol 1 = done; enter 1 3; answer 1 2 3 -; send 11 2 answer\n\
    deliver 2 10 = done\n\
    protocol 2 = done\n\
    deliver 2 11 = done\n\
    protocol 2 = done\n\
    deliver 1 8 = done\n\
    protocol 1 = done; promise 1 3; send 12 0 promise\n\
    deliver 0 12 = done\n\
    protocol 0 = done; prepared 0 3 0\n\
    retransmit 2 = done; send 13 0 recovery; send 14 1 recovery\n\
    deliver 0 13 = done\n\
    protocol 0 = done; answer 0 2 3 0; send 15 2 answer\n\
    deliver 2 15 = done\n\
    protocol 2 = done; rejoin 2 3\n\
    end = done\n\
    replica 0 working 3 0\n\
    replica 1 working 3 0\n\
    replica 2 working 3 0\n\
    ";

/// ViewSS: on the answer of a leader that is still preparing a replica does not rejoin.
pub const NO_LICENCE: &str = "\
    cluster 3 viewss 4 = done; first 0; promise 0 0; send 0 1 prepare; send 1 2 prepare; first 1; first 2\n\
    deliver 1 0 = done\n\
    protocol 1 = done; promise 1 0; send 2 0 promise\n\
    deliver 0 2 = done\n\
    protocol 0 = done; prepared 0 0 0\n\
    crash 2 = done; crash 2\n\
    start 2 = done; return 2 1; send 3 0 recovery; send 4 1 recovery\n\
    deliver 0 3 = done\n\
    protocol 0 = done; enter 0 1; answer 0 2 1 -; send 5 2 answer\n\
    crash 2 = done; crash 2\n\
    start 2 = done; return 2 3; send 6 0 recovery; send 7 1 recovery\n\
    deliver 2 5 = done\n\
    protocol 2 = done\n\
    deliver 0 6 = done\n\
    protocol 0 = done; enter 0 3; promise 0 3; send 8 1 prepare; send 9 2 prepare; answer 0 2 3 -; send 10 2 answer\n\
    deliver 1 7 = done\n\
    protocol 1 = done; enter 1 3; answer 1 2 3 -; send 11 2 answer\n\
    deliver 2 10 = done\n\
    protocol 2 = done\n\
    deliver 2 11 = done\n\
    protocol 2 = done\n\
    end = done\n\
    replica 0 working 3 0\n\
    replica 1 working 3 0\n\
    replica 2 recovering 3 0\n\
    ";

/// EpochSS: a promise of an ended life is not counted.
pub const ENDED_PROMISE: &str = "\
    cluster 3 epochss 4 = done; first 0; promise 0 0; send 0 1 prepare; send 1 2 prepare; first 1; first 2\n\
    deliver 1 0 = done\n\
    protocol 1 = done; promise 1 0; send 2 0 promise\n\
    deliver 0 2 = done\n\
    protocol 0 = done; prepared 0 0 0\n\
    suspect 1 = done\n\
    protocol 1 = done; enter 1 1; promise 1 1; send 3 0 prepare; send 4 2 prepare\n\
    deliver 2 4 = done\n\
    protocol 2 = done; enter 2 1; promise 2 1; send 5 1 promise\n\
    crash 2 = done; crash 2\n\
    start 2 = done; return 2 2; send 6 0 recovery; send 7 1 recovery\n\
    deliver 1 7 = done\n\
    protocol 1 = done; answer 1 2 1 -; send 8 2 answer\n\
    deliver 1 5 = done\n\
    protocol 1 = done\n\
    deliver 0 3 = done\n\
    protocol 0 = done; enter 0 1; promise 0 1; send 9 1 promise\n\
    deliver 1 9 = done\n\
    protocol 1 = done; prepared 1 1 0\n\
    end = done\n\
    replica 0 working 1 0\n\
    replica 1 working 1 0\n\
    replica 2 recovering 0 0\n\
    ";

/// EpochSS: an answer of an ended life is not counted.
pub const ENDED_ANSWER: &str = "\
    cluster 7 epochss 4 = done; first 0; promise 0 0; send 0 1 prepare; send 1 2 prepare; send 2 3 prepare; send 3 4 prepare; send 4 5 prepare; send 5 6 prepare; first 1; first 2; first 3; first 4; first 5; first 6\n\
    deliver 1 0 = done\n\
    protocol 1 = done; promise 1 0; send 6 0 promise\n\
    deliver 2 1 = done\n\
    protocol 2 = done; promise 2 0; send 7 0 promise\n\
    deliver 3 2 = done\n\
    protocol 3 = done; promise 3 0; send 8 0 promise\n\
    deliver 0 6 = done\n\
    protocol 0 = done\n\
    deliver 0 7 = done\n\
    protocol 0 = done\n\
    deliver 0 8 = done\n\
    protocol 0 = done; prepared 0 0 0\n\
    crash 6 = done; crash 6\n\
    start 6 = done; return 6 2; send 9 0 recovery; send 10 1 recovery; send 11 2 recovery; send 12 3 recovery; send 13 4 recovery; send 14 5 recovery\n\
    deliver 1 10 = done\n\
    protocol 1 = done; answer 1 6 0 -; send 15 6 answer\n\
    crash 1 = done; crash 1\n\
    start 1 = done; return 1 2; send 16 0 recovery; send 17 2 recovery; send 18 3 recovery; send 19 4 recovery; send 20 5 recovery; send 21 6 recovery\n\
    deliver 0 16 = done\n\
    protocol 0 = done; answer 0 1 0 0; send 22 1 answer\n\
    deliver 2 17 = done\n\
    protocol 2 = done; answer 2 1 0 -; send 23 1 answer\n\
    deliver 3 18 = done\n\
    protocol 3 = done; answer 3 1 0 -; send 24 1 answer\n\
    deliver 4 19 = done\n\
    protocol 4 = done; answer 4 1 0 -; send 25 1 answer\n\
    deliver 1 22 = done\n\
    protocol 1 = done\n\
    deliver 1 23 = done\n\
    protocol 1 = done\n\
    deliver 1 24 = done\n\
    protocol 1 = done\n\
    deliver 1 25 = done\n\
    protocol 1 = done; rejoin 1 0\n\
    deliver 0 9 = done\n\
    protocol 0 = done; answer 0 6 0 0; send 26 6 answer\n\
    deliver 2 11 = done\n\
    protocol 2 = done; answer 2 6 0 -; send 27 6 answer\n\
    deliver 3 12 = done\n\
    protocol 3 = done; answer 3 6 0 -; send 28 6 answer\n\
    deliver 6 15 = done\n\
    protocol 6 = done\n\
    deliver 6 26 = done\n\
    protocol 6 = done\n\
    deliver 6 27 = done\n\
    protocol 6 = done\n\
    deliver 6 28 = done\n\
    protocol 6 = done\n\
    deliver 4 13 = done\n\
    protocol 4 = done; answer 4 6 0 -; send 29 6 answer\n\
    deliver 6 29 = done\n\
    protocol 6 = done; rejoin 6 0\n\
    end = done\n\
    replica 0 working 0 0\n\
    replica 1 working 0 0\n\
    replica 2 working 0 0\n\
    replica 3 working 0 0\n\
    replica 4 working 0 0\n\
    replica 5 working 0 0\n\
    replica 6 working 0 0\n\
    ";

/// EpochSS: the leader of the highest view recovers.
pub const RECOVERING_LEADER: &str = "\
    cluster 3 epochss 4 = done; first 0; promise 0 0; send 0 1 prepare; send 1 2 prepare; first 1; first 2\n\
    deliver 1 0 = done\n\
    protocol 1 = done; promise 1 0; send 2 0 promise\n\
    deliver 0 2 = done\n\
    protocol 0 = done; prepared 0 0 0\n\
    suspect 1 = done\n\
    protocol 1 = done; enter 1 1; promise 1 1; send 3 0 prepare; send 4 2 prepare\n\
    deliver 0 3 = done\n\
    protocol 0 = done; enter 0 1; promise 0 1; send 5 1 promise\n\
    deliver 1 5 = done\n\
    protocol 1 = done; prepared 1 1 0\n\
    crash 1 = done; crash 1\n\
    start 1 = done; return 1 2; send 6 0 recovery; send 7 2 recovery\n\
    deliver 0 6 = done\n\
    protocol 0 = done; answer 0 1 1 -; send 8 1 answer\n\
    deliver 2 4 = done\n\
    protocol 2 = done; enter 2 1; promise 2 1; send 9 1 promise\n\
    deliver 2 7 = done\n\
    protocol 2 = done; answer 2 1 1 -; send 10 1 answer\n\
    deliver 1 8 = done\n\
    protocol 1 = done\n\
    deliver 1 10 = done\n\
    protocol 1 = done\n\
    suspect 2 = done\n\
    protocol 2 = done; enter 2 2; promise 2 2; send 11 0 prepare; send 12 1 prepare\n\
    deliver 0 11 = done\n\
    protocol 0 = done; enter 0 2; promise 0 2; send 13 2 promise\n\
    deliver 2 13 = done\n\
    protocol 2 = done; prepared 2 2 0\n\
    retransmit 1 = done; send 14 0 recovery; send 15 2 recovery\n\
    deliver 2 15 = done\n\
    protocol 2 = done; answer 2 1 2 0; send 16 1 answer\n\
    deliver 1 16 = done\n\
    protocol 1 = done; rejoin 1 2\n\
    end = done\n\
    replica 0 working 2 0\n\
    replica 1 working 2 0\n\
    replica 2 working 2 0\n\
    ";

/// Each answer word, and a lane that is full.
pub const ANSWER_WORDS: &str = "\
    cluster 3 viewss 4 = done; first 0; promise 0 0; send 0 1 prepare; send 1 2 prepare; first 1; first 2\n\
    deliver 1 99 = unsent\n\
    deliver 2 0 = unsent\n\
    protocol 0 = empty\n\
    service 0 = empty\n\
    batch 0 = empty\n\
    retransmit 1 = empty\n\
    start 0 = up\n\
    crash 1 = done; crash 1\n\
    protocol 1 = down\n\
    deliver 1 0 = down\n\
    crash 1 = down\n\
    retransmit 0 = done; send 2 1 prepare; send 3 2 prepare\n\
    deliver 2 1 = done\n\
    deliver 2 1 = done\n\
    deliver 2 1 = done\n\
    deliver 2 1 = done\n\
    deliver 2 1 = done\n\
    deliver 2 1 = done\n\
    deliver 2 1 = done\n\
    deliver 2 1 = done\n\
    deliver 2 1 = done\n\
    deliver 2 1 = done\n\
    deliver 2 1 = done\n\
    deliver 2 1 = done\n\
    deliver 2 1 = done\n\
    deliver 2 1 = done\n\
    deliver 2 1 = done\n\
    deliver 2 1 = done\n\
    deliver 2 1 = done\n\
    deliver 2 1 = done\n\
    deliver 2 1 = done\n\
    deliver 2 1 = done\n\
    deliver 2 1 = done\n\
    deliver 2 1 = done\n\
    deliver 2 1 = done\n\
    deliver 2 1 = done\n\
    deliver 2 1 = done\n\
    deliver 2 1 = done\n\
    deliver 2 1 = done\n\
    deliver 2 1 = done\n\
    deliver 2 1 = done\n\
    deliver 2 1 = done\n\
    deliver 2 1 = done\n\
    deliver 2 1 = done\n\
    deliver 2 1 = done\n\
    deliver 2 1 = done\n\
    deliver 2 1 = done\n\
    deliver 2 1 = done\n\
    deliver 2 1 = done\n\
    deliver 2 1 = done\n\
    deliver 2 1 = done\n\
    deliver 2 1 = done\n\
    deliver 2 1 = done\n\
    deliver 2 1 = done\n\
    deliver 2 1 = done\n\
    deliver 2 1 = done\n\
    deliver 2 1 = done\n\
    deliver 2 1 = done\n\
    deliver 2 1 = done\n\
    deliver 2 1 = done\n\
    deliver 2 1 = done\n\
    deliver 2 1 = done\n\
    deliver 2 1 = done\n\
    deliver 2 1 = done\n\
    deliver 2 1 = done\n\
    deliver 2 1 = done\n\
    deliver 2 1 = done\n\
    deliver 2 1 = done\n\
    deliver 2 1 = done\n\
    deliver 2 1 = done\n\
    deliver 2 1 = done\n\
    deliver 2 1 = done\n\
    deliver 2 1 = done\n\
    deliver 2 1 = done\n\
    deliver 2 1 = done\n\
    deliver 2 1 = done\n\
    deliver 2 1 = full\n\
    end = done\n\
    replica 0 working 0 0\n\
    replica 1 down\n\
    replica 2 working 0 0\n\
    ";

/// ViewSS: a replica crashes, returns, is given the batch that it missed, and rejoins.
pub const CATCHES_UP: &str = "\
    cluster 3 viewss 4 = done; first 0; promise 0 0; send 0 1 prepare; send 1 2 prepare; first 1; first 2\n\
    deliver 1 0 = done\n\
    protocol 1 = done; promise 1 0; send 2 0 promise\n\
    deliver 0 2 = done\n\
    protocol 0 = done; prepared 0 0 0\n\
    crash 2 = done; crash 2\n\
    request 0 7 1 put 61 62 = done\n\
    batch 0 = done\n\
    tick 0 = done\n\
    batch 0 = done\n\
    protocol 0 = done; send 3 1 alive; send 4 2 alive\n\
    protocol 0 = done; launch 0 0 0 7.1; vote 0 0 0; send 5 1 propose; send 6 2 propose\n\
    deliver 2 6 = down\n\
    deliver 1 5 = done\n\
    protocol 1 = done; vote 1 0 0; send 7 0 accept; send 8 2 accept; learn 1 0\n\
    service 1 = done; execute 1 0 7.1+ok\n\
    deliver 0 7 = done\n\
    protocol 0 = done; learn 0 0\n\
    service 0 = done; execute 0 0 7.1+ok\n\
    start 2 = done; return 2 1; send 9 0 recovery; send 10 1 recovery\n\
    deliver 0 9 = done\n\
    protocol 0 = done; enter 0 1; answer 0 2 1 -; send 11 2 answer\n\
    deliver 1 10 = done\n\
    protocol 1 = done; enter 1 1; promise 1 1; send 12 0 prepare; send 13 2 prepare; answer 1 2 1 -; send 14 2 answer\n\
    deliver 0 12 = done\n\
    protocol 0 = done; promise 0 1; send 15 1 promise\n\
    deliver 1 15 = done\n\
    protocol 1 = done; prepared 1 1 1\n\
    deliver 2 11 = done\n\
    protocol 2 = done\n\
    retransmit 2 = done; send 16 0 recovery; send 17 1 recovery\n\
    deliver 1 17 = done\n\
    protocol 1 = done; answer 1 2 1 1; send 18 2 answer\n\
    deliver 2 18 = done\n\
    protocol 2 = done\n\
    tick 2 = done\n\
    protocol 2 = done; send 19 0 query\n\
    deliver 0 19 = done\n\
    protocol 0 = done; send 20 2 batches\n\
    deliver 2 20 = done\n\
    protocol 2 = done; learn 2 0; rejoin 2 1\n\
    service 2 = done; execute 2 0 7.1+ok\n\
    end = done\n\
    replica 0 working 1 1 61=62\n\
    replica 1 working 1 1 61=62\n\
    replica 2 working 1 1 61=62\n\
    ";
