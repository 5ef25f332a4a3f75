//! What a door gives and answers, over links in memory.

use crate::stage::ClientStage;
use crate::told::Told;
use client_codec::frame::{ClientFrame, write};
use jp_types::command::{Command, Reply, Request};
use jp_types::octets::Octets;
use links::arrivals::Arrivals;
use links::came::Came;
use links::scripted::{LinkScript, ScriptedPeer};
use std::alloc::Global;
use std::test::Fail;

/// A request of a client, to read one key.
fn get(alloc: Global, client: u64, number: u64) -> Result<ClientFrame, Fail> {
    Ok(ClientFrame::Request(Request {
        client,
        number,
        command: Command::Get {
            key: Octets::from_slice(alloc, b"a")?,
        },
    }))
}

/// The bytes of these frames.
fn spelt(alloc: Global, frames: &[ClientFrame]) -> Result<Vec<u8>, Fail> {
    let mut bytes = Vec::new(alloc);
    for frame in frames {
        write(frame, &mut bytes)?;
    }
    Ok(bytes)
}

/// A link over which these bytes come in these turns, and of which these calls fail.
fn script(
    alloc: Global,
    bytes: Vec<u8>,
    turns: &[Came],
    failing: &[u64],
) -> Result<LinkScript, Fail> {
    Ok(LinkScript {
        coming: Arrivals::new(bytes, turns.to_vec(alloc)?),
        most: 3,
        failing: failing.to_vec(alloc)?,
    })
}

/// A peer that gives these links, and of which these calls fail.
fn peer(alloc: Global, scripts: Vec<LinkScript>, failing: &[u64]) -> Result<ScriptedPeer, Fail> {
    let mut accepts = Vec::new(alloc);
    for script in scripts {
        accepts.push(Some(script))?;
    }
    let dials = Vec::new(alloc);
    Ok(ScriptedPeer::new(alloc, dials, accepts, failing.to_vec(alloc)?))
}

/// What one call of the door came to.
#[derive(Debug, Drop, PartialEq, Eq)]
struct Outcome {
    /// The numbers of the requests to put.
    numbers: Vec<u64>,
    stop: bool,
    idle: bool,
    /// What was sent over the link that was given up, and how many of its calls failed.
    gone: Option<(Vec<u8>, u64)>,
}

/// Calls the door once.
fn call(
    alloc: Global,
    stage: &mut ClientStage<ScriptedPeer>,
    peer: &mut ScriptedPeer,
) -> Result<Outcome, Fail> {
    let turn = stage.door(peer)?;
    let mut numbers = Vec::new(alloc);
    for request in turn.requests.as_slice() {
        numbers.push(request.number)?;
    }
    let gone = match stage.gone() {
        Some(link) => Some((link.sent().to_vec(alloc)?, link.faults())),
        None => None,
    };
    Ok(Outcome {
        numbers,
        stop: turn.stop,
        idle: turn.idle,
        gone,
    })
}

#[test]
fn redirects_gives_and_answers(rt: HostRuntime) -> Result<(), Fail> {
    let alloc = rt.alloc();
    let length = spelt(alloc, &[get(alloc, 5, 1)?])?.len();
    let twice = spelt(alloc, &[get(alloc, 5, 1)?, get(alloc, 5, 1)?])?;
    let turns = [
        Came::Bytes(length),
        Came::Bytes(length),
        Came::Quiet,
        Came::Quiet,
        Came::Ended,
    ];
    let mut scripts = Vec::new(alloc);
    scripts.push(script(alloc, twice, &turns, &[])?)?;
    let mut peer = peer(alloc, scripts, &[])?;
    let mut stage = ClientStage::new(alloc, 1, 3)?;
    // The replica does not lead, as far as the stage knows: Redirect to replica 0 is queued.
    let first = call(alloc, &mut stage, &mut peer)?;
    assert!(rt; first.numbers.is_empty() && !first.idle && first.gone.is_none());
    stage.told(Told::Hint {
        view: 1,
        leading: true,
    })?;
    let second = call(alloc, &mut stage, &mut peer)?;
    assert_eq!(rt; second.numbers.as_slice(), [1].as_slice());
    stage.busy(5, 1)?;
    // No session sent a request of this client.
    stage.busy(9, 1)?;
    stage.told(Told::Answer {
        client: 5,
        number: 1,
        reply: Reply::Done,
    })?;
    assert!(rt; !call(alloc, &mut stage, &mut peer)?.idle);
    let quiet = call(alloc, &mut stage, &mut peer)?;
    assert!(rt; quiet.idle && quiet.gone.is_none());
    let last = call(alloc, &mut stage, &mut peer)?;
    let sent = [
        0, 0, 0, 2, 3, 0, 0, 0, 0, 9, 4, 0, 0, 0, 0, 0, 0, 0, 1, 0, 0, 0, 10, 2, 0, 0, 0, 0, 0, 0,
        0, 1, 1,
    ];
    assert_eq!(rt; last.gone, Some((sent.to_vec(alloc)?, 0)));
    assert!(rt; !last.idle);
    assert_eq!(rt; stage.sessions(), 0);
    let tally = stage.tally();
    assert_eq!(rt;
        (tally.given, tally.busy, tally.told, tally.stop),
        (1, 2, 2, false)
    );
    let none = call(alloc, &mut stage, &mut peer)?;
    assert!(rt; none.idle && none.gone.is_none());
    Ok(())
}

/// How many requests one session of a leading replica gives in three calls of the door, whether it asks to stop, and how
/// many calls of its link failed if it is given up.
fn one_session(
    alloc: Global,
    bytes: Vec<u8>,
    turns: &[Came],
    failing: &[u64],
) -> Result<(usize, bool, Option<u64>), Fail> {
    let mut scripts = Vec::new(alloc);
    scripts.push(script(alloc, bytes, turns, failing)?)?;
    let mut peer = peer(alloc, scripts, &[])?;
    let mut stage = ClientStage::new(alloc, 1, 3)?;
    stage.told(Told::Hint {
        view: 4,
        leading: true,
    })?;
    let mut given = 0usize;
    for _ in 0..3u8 {
        let turn = call(alloc, &mut stage, &mut peer)?;
        given = given.saturating_add(turn.numbers.len());
        if let Some((_, faults)) = turn.gone {
            return Ok((given, stage.tally().stop, Some(faults)));
        }
        stage.busy(5, 7)?;
    }
    Ok((given, stage.tally().stop, None))
}

#[test]
fn gives_up_sessions(rt: HostRuntime) -> Result<(), Fail> {
    let alloc = rt.alloc();
    let other = get(alloc, 6, 7)?;
    let reply = ClientFrame::Reply {
        number: 1,
        reply: Reply::NoKey,
    };
    let redirect = ClientFrame::Redirect { replica: 1 };
    let busy = ClientFrame::Busy { number: 1 };
    let one = spelt(alloc, &[get(alloc, 5, 7)?])?;
    let mut garbage = one.clone()?;
    garbage.extend_from_slice(&[255, 255, 255, 255, 1])?;
    let mut half = one.clone()?;
    half.truncate(9);
    let stops = spelt(alloc, &[get(alloc, 5, 7)?, ClientFrame::Stop])?;
    let mixed = spelt(alloc, &[get(alloc, 5, 7)?, other, get(alloc, 5, 8)?])?;
    let quiet = [Came::Bytes(99), Came::Quiet, Came::Quiet].as_slice();
    let ends = [Came::Bytes(9), Came::Ended].as_slice();
    let none = [].as_slice();
    let cases = [
        (stops, quiet, none, (1, true, None)),
        // Behind the frame of another stage's client nothing is taken.
        (mixed, quiet, none, (1, false, Some(0))),
        (spelt(alloc, &[reply])?, quiet, none, (0, false, Some(0))),
        (spelt(alloc, &[redirect])?, quiet, none, (0, false, Some(0))),
        (spelt(alloc, &[busy])?, quiet, none, (0, false, Some(0))),
        // Bytes that are no frame, behind one.
        (garbage, quiet, none, (1, false, Some(0))),
        // The link ends inside a frame.
        (half, ends, none, (0, false, Some(0))),
        // The link fails at a receive, and at a send.
        (one.clone()?, quiet, [0].as_slice(), (0, false, Some(1))),
        (one, quiet, [1].as_slice(), (1, false, Some(1))),
    ];
    for (bytes, turns, failing, want) in cases {
        assert_eq!(rt; one_session(alloc, bytes, turns, failing)?, want);
    }
    Ok(())
}

#[test]
fn accepts_while_there_is_room(rt: HostRuntime) -> Result<(), Fail> {
    let alloc = rt.alloc();
    let quiet = [Came::Quiet; 9];
    let mut scripts = Vec::new(alloc);
    scripts.push(script(alloc, Vec::new(alloc), &[Came::Ended], &[])?)?;
    for _ in 0..65u8 {
        scripts.push(script(alloc, Vec::new(alloc), &quiet, &[])?)?;
    }
    // The first call of `accept` fails.
    let mut peer = peer(alloc, scripts, &[0])?;
    let mut stage = ClientStage::new(alloc, 0, 3)?;
    assert!(rt; call(alloc, &mut stage, &mut peer)?.idle);
    assert_eq!(rt; (stage.sessions(), peer.faults()), (0, 1));
    // The first session ends as it is served, and makes room for one more.
    assert!(rt; call(alloc, &mut stage, &mut peer)?.gone.is_some());
    for _ in 0..64u8 {
        assert!(rt; !call(alloc, &mut stage, &mut peer)?.idle);
    }
    assert_eq!(rt; stage.sessions(), 64);
    assert!(rt; call(alloc, &mut stage, &mut peer)?.idle);
    assert_eq!(rt; stage.sessions(), 64);
    Ok(())
}
