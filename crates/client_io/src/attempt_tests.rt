//! How attempts end, over links in memory.

use crate::attempt::{QUIET_LIMIT, attempt};
use crate::attempt_end::Attempt;
use client_codec::frame::{ClientFrame, write};
use jp_types::command::{Command, Reply, Request};
use jp_types::octets::Octets;
use links::arrivals::Arrivals;
use links::came::Came;
use links::scripted::{LinkScript, ScriptedLink};
use std::alloc::Global;
use std::test::Fail;

/// How an attempt at the request of number 9 ends over a link that brings these frames in these turns and fails at these
/// calls, as text, and how many bytes it sent.
fn ended(
    alloc: Global,
    frames: &[ClientFrame],
    turns: &[Came],
    failing: &[u64],
) -> Result<(String, usize), Fail> {
    let mut bytes = Vec::new(alloc);
    for frame in frames {
        write(frame, &mut bytes)?;
    }
    let mut link = ScriptedLink::new(
        alloc,
        LinkScript {
            coming: Arrivals::new(bytes, turns.to_vec(alloc)?),
            most: 7,
            failing: failing.to_vec(alloc)?,
        },
    );
    let request = Request {
        client: 5,
        number: 9,
        command: Command::Get {
            key: Octets::from_slice(alloc, b"a")?,
        },
    };
    let end = attempt(alloc, &mut link, &request)?;
    Ok((format!(in alloc; "{end:?}")?, link.sent().len()))
}

#[test]
fn attempts_end(rt: HostRuntime) -> Result<(), Fail> {
    let alloc = rt.alloc();
    let reply = |number: u64| ClientFrame::Reply {
        number,
        reply: Reply::NoKey,
    };
    let busy = |number: u64| ClientFrame::Busy { number };
    let redirect = ClientFrame::Redirect { replica: 2 };
    let few = [Came::Bytes(3), Came::Quiet].as_slice();
    let silent = [Came::Quiet; QUIET_LIMIT].as_slice();
    let none = [].as_slice();
    let cases = [
        (
            vec![in alloc; reply(8), busy(8), reply(9), busy(9)]?,
            few,
            none,
            ("Answered(NoKey)", 25),
        ),
        (vec![in alloc; busy(9), reply(9)]?, few, none, ("Busy", 25)),
        (
            vec![in alloc; ClientFrame::Stop, redirect, reply(9)]?,
            few,
            none,
            ("Redirected(2)", 25),
        ),
        // The link ends, and it is quiet too long.
        (vec![in alloc; reply(8)]?, few, none, ("Ended", 25)),
        (vec![in alloc; reply(9)]?, silent, none, ("Ended", 25)),
        // The second send fails, and the first receive.
        (vec![in alloc; reply(9)]?, few, [1].as_slice(), ("Ended", 7)),
        (
            vec![in alloc; reply(9)]?,
            few,
            [4].as_slice(),
            ("Ended", 25),
        ),
    ];
    for (frames, turns, failing, (end, sent)) in cases {
        let (text, count) = ended(alloc, &frames, turns, failing)?;
        assert_eq!(rt; text.as_str(), end);
        assert_eq!(rt; count, sent);
    }
    Ok(())
}
