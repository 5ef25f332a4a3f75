use super::texts::{
    ANSWER_WORDS, CATCHES_UP, ENDED_ANSWER, ENDED_PROMISE, FILLED_GAP, NEXT_VIEW, NO_LICENCE,
    NOTHING_HAPPENS, OUT_OF_ORDER, PLAIN_PATH, RECOVERING_LEADER, REJOINS, REPEATS, STORE,
    TWO_CRASHES, TWO_LEADERS,
};
use super::*;
use jp_types::cause::Cause;
use jp_types::sink::{CountingSink, MemorySink};
use jp_types::source::{FailingSource, MemorySource};
use jp_types::words::number;
use std::test::Fail;
use text_lines::texts::push_text;

/// The schedule of a run: each line of its text up to its answer, with `end` last.
pub fn schedule_of(alloc: Global, text: &[u8]) -> Result<Vec<u8>, Fail> {
    let mut schedule = Vec::new(alloc);
    for line in text.split(|c| *c == b'\n') {
        let front = match line.iter().position(|c| *c == b'=') {
            Some(at) => &line[..at.saturating_sub(1)],
            None => line,
        };
        push_text(front, &mut schedule)?;
        push_text(b"\n", &mut schedule)?;
        if front == b"end".as_slice() {
            break;
        }
    }
    Ok(schedule)
}

/// Runs a schedule between memory and memory, and gives the status with what was written.
pub fn told(alloc: Global, input: &[u8]) -> Result<(Status, MemorySink), Fail> {
    let mut source = MemorySource::new(Vec::from_slice(alloc, input)?);
    let mut sink = MemorySink::new(alloc, Vec::new(alloc));
    let status = run_cluster(alloc, &mut source, &mut sink);
    Ok((status, sink))
}

#[test]
fn writes_the_text_of_a_run(rt: HostRuntime) -> Result<(), Fail> {
    for text in [
        PLAIN_PATH,
        NOTHING_HAPPENS,
        OUT_OF_ORDER,
        REPEATS,
        STORE,
        NEXT_VIEW,
        FILLED_GAP,
        TWO_LEADERS,
        REJOINS,
        TWO_CRASHES,
        NO_LICENCE,
        ENDED_PROMISE,
        ENDED_ANSWER,
        RECOVERING_LEADER,
        ANSWER_WORDS,
        CATCHES_UP,
    ] {
        let input = schedule_of(rt.alloc(), text.as_bytes())?;
        let (status, sink) = told(rt.alloc(), &input)?;
        assert_eq!(rt; status, Status::Done);
        assert_eq!(rt; sink.bytes(), text.as_bytes());
    }
    Ok(())
}

#[test]
fn tells_the_first_bad_line(rt: HostRuntime) -> Result<(), Fail> {
    for (input, line, cause, text) in [
        ("", 1, Cause::NoCluster, "jpaxos: schedule line 1 cause 1\n"),
        (
            "cluster 2 viewss 4\n",
            1,
            Cause::Number,
            "jpaxos: schedule line 1 cause 4\n",
        ),
        (
            "cluster 3 viewss 4\n",
            2,
            Cause::NoEnd,
            "jpaxos: schedule line 2 cause 8\n",
        ),
        (
            "cluster 3 viewss 4\nrequest 0 7 0 get 61\n",
            2,
            Cause::Number,
            "jpaxos: schedule line 2 cause 4\n",
        ),
        (
            "cluster 3 viewss 4\nrequest 0 7 1 get 6\n",
            2,
            Cause::Bytes,
            "jpaxos: schedule line 2 cause 6\n",
        ),
        (
            "cluster 3 viewss 4\njump 1\n",
            2,
            Cause::Unknown,
            "jpaxos: schedule line 2 cause 2\n",
        ),
        (
            "cluster 9 epochss 64\nsuspect 8\nend\ntick 0\n",
            4,
            Cause::AfterEnd,
            "jpaxos: schedule line 4 cause 9\n",
        ),
    ] {
        let (status, sink) = told(rt.alloc(), input.as_bytes())?;
        assert_eq!(rt; status, Status::BadSchedule { line, cause });
        assert_eq!(rt; sink.bytes(), text.as_bytes());
    }
    Ok(())
}

#[test]
fn tells_too_many_bytes_and_lines(rt: HostRuntime) -> Result<(), Fail> {
    for (count, byte, kind, text) in [
        (67_108_865, b'x', 1, "jpaxos: too large 1\n"),
        (100_001, b'\n', 2, "jpaxos: too large 2\n"),
    ] {
        let mut source = MemorySource::new(vec![in rt.alloc(); byte; count]?);
        let mut sink = MemorySink::new(rt.alloc(), Vec::new(rt.alloc()));
        let status = run_cluster(rt.alloc(), &mut source, &mut sink);
        assert_eq!(rt; status, Status::TooLarge(kind));
        assert_eq!(rt; sink.bytes(), text.as_bytes());
    }
    Ok(())
}

#[test]
fn tells_a_fault_of_the_source(rt: HostRuntime) -> Result<(), Fail> {
    for call in [0, 1] {
        let bytes = schedule_of(rt.alloc(), PLAIN_PATH.as_bytes())?;
        let mut source = FailingSource::new(bytes, Vec::from_slice(rt.alloc(), &[call])?);
        let mut sink = MemorySink::new(rt.alloc(), Vec::new(rt.alloc()));
        let status = run_cluster(rt.alloc(), &mut source, &mut sink);
        assert_eq!(rt; status, Status::ReadFault);
        assert_eq!(rt; sink.bytes().len(), 0);
    }
    Ok(())
}

#[test]
fn tells_a_fault_of_the_sink(rt: HostRuntime) -> Result<(), Fail> {
    for input in ["cluster 3 viewss 4\nend\n", "cluster 3 viewss 4\n"] {
        let mut source = MemorySource::new(Vec::from_slice(rt.alloc(), input.as_bytes())?);
        let mut sink = MemorySink::new(rt.alloc(), Vec::from_slice(rt.alloc(), &[0])?);
        let status = run_cluster(rt.alloc(), &mut source, &mut sink);
        assert_eq!(rt; status, Status::WriteFault);
        assert_eq!(rt; sink.bytes().len(), 0);
    }
    let mut sink = MemorySink::new(rt.alloc(), Vec::from_slice(rt.alloc(), &[0])?);
    let status = run_gen(rt.alloc(), 7, 5, 20, &mut sink);
    assert_eq!(rt; status, Status::WriteFault);
    assert_eq!(rt; sink.bytes().len(), 0);
    Ok(())
}

/// Draws and runs a schedule, and gives what was written.
fn drawn(alloc: Global, words: &[&str]) -> Result<(Status, MemorySink), Fail> {
    let mut given = Vec::new(alloc);
    for word in words {
        given.push(String::from_str(alloc, word)?)?;
    }
    let mut source = MemorySource::new(Vec::new(alloc));
    let mut sink = MemorySink::new(alloc, Vec::new(alloc));
    let status = jpaxos_top(alloc, &given, &mut source, &mut sink);
    Ok((status, sink))
}

// The texts are those that the definitions give, as worked_schedules/proofs/Summaries.antt computes them.
#[test]
fn writes_the_summary_of_a_drawn_run(rt: HostRuntime) -> Result<(), Fail> {
    for (words, text) in [
        (
            ["gen", "7", "5", "300"].as_slice(),
            "seed 7 replicas 5 steps 300\n\
            done 77 empty 189 full 0 down 36 up 0 unsent 0\n\
            messages 17\n\
            replica 0 down\n\
            replica 1 working 0 0 0\n\
            replica 2 working 0 0 0\n\
            replica 3 working 0 0 0\n\
            replica 4 working 0 0 0\n",
        ),
        (
            &["gen", "10", "3", "500"],
            "seed 10 replicas 3 steps 500\n\
            done 67 empty 249 full 0 down 186 up 0 unsent 0\n\
            messages 13\n\
            replica 0 down\n\
            replica 1 working 1 0 0\n\
            replica 2 working 1 0 0\n",
        ),
        (
            &["gen", "21", "9", "150"],
            "seed 21 replicas 9 steps 150\n\
            done 43 empty 109 full 0 down 0 up 0 unsent 0\n\
            messages 16\n\
            replica 0 working 0 0 0\n\
            replica 1 working 0 0 0\n\
            replica 2 working 0 0 0\n\
            replica 3 working 0 0 0\n\
            replica 4 working 0 0 0\n\
            replica 5 working 0 0 0\n\
            replica 6 working 0 0 0\n\
            replica 7 working 0 0 0\n\
            replica 8 working 0 0 0\n",
        ),
        (
            &["gen", "4", "4", "0"],
            "seed 4 replicas 4 steps 0\n\
            done 2 empty 0 full 0 down 0 up 0 unsent 0\n\
            messages 3\n\
            replica 0 working 0 0 0\n\
            replica 1 working 0 0 0\n\
            replica 2 working 0 0 0\n\
            replica 3 working 0 0 0\n",
        ),
    ] {
        let (status, sink) = drawn(rt.alloc(), words)?;
        assert_eq!(rt; status, Status::Done);
        assert_eq!(rt; sink.bytes(), text.as_bytes());
    }
    Ok(())
}

/// Whether a line has these words, where `-` stands for a number; the numbers are added to the sum.
fn has_words(line: &[u8], form: &[u8], sum: &mut u64) -> bool {
    let mut words = line.split(|c| *c == b' ');
    for wanted in form.split(|c| *c == b' ') {
        let Some(word) = words.next() else {
            return false;
        };
        match number(word, 0, u64::MAX) {
            Ok(value) if wanted == b"-".as_slice() => *sum = sum.saturating_add(value),
            _ if word == wanted => {}
            _ => return false,
        }
    }
    words.next().is_none()
}

#[test]
fn summarizes_a_long_drawn_run(rt: HostRuntime) -> Result<(), Fail> {
    let words = ["gen", "7", "5", "20000"];
    let (status, sink) = drawn(rt.alloc(), &words)?;
    assert_eq!(rt; status, Status::Done);
    let (again, other) = drawn(rt.alloc(), &words)?;
    assert_eq!(rt; again, Status::Done);
    assert_eq!(rt; sink.bytes(), other.bytes());

    let mut lines = sink.bytes().split(|c| *c == b'\n');
    let mut sum = 0;
    for (form, has_counts) in [
        ("seed 7 replicas 5 steps 20000", false),
        ("done - empty - full - down - up - unsent -", true),
        ("messages -", false),
    ] {
        let mut found = 0;
        let line = lines.next().unwrap_or_default();
        assert!(rt; has_words(line, form.as_bytes(), &mut found), "{form}");
        if has_counts {
            sum = found;
        }
    }
    assert_eq!(rt; sum, 20002);
    for (working, recovering, down) in [
        (
            "replica 0 working - - -",
            "replica 0 recovering - - -",
            "replica 0 down",
        ),
        (
            "replica 1 working - - -",
            "replica 1 recovering - - -",
            "replica 1 down",
        ),
        (
            "replica 2 working - - -",
            "replica 2 recovering - - -",
            "replica 2 down",
        ),
        (
            "replica 3 working - - -",
            "replica 3 recovering - - -",
            "replica 3 down",
        ),
        (
            "replica 4 working - - -",
            "replica 4 recovering - - -",
            "replica 4 down",
        ),
    ] {
        let line = lines.next().unwrap_or_default();
        let mut found = 0;
        let told = has_words(line, working.as_bytes(), &mut found)
            || has_words(line, recovering.as_bytes(), &mut found)
            || line == down.as_bytes();
        assert!(rt; told, "{working}");
    }
    assert_eq!(rt; lines.next().unwrap_or_default().len(), 0);
    assert!(rt; lines.next().is_none());
    Ok(())
}

#[test]
fn reads_the_words(rt: HostRuntime) -> Result<(), Fail> {
    for (words, status) in [
        (
            ["cluster"].as_slice(),
            Status::BadSchedule {
                line: 1,
                cause: Cause::NoCluster,
            },
        ),
        (&[], Status::Usage),
        (&["Cluster"], Status::Usage),
        (&["cluster", "cluster"], Status::Usage),
        (&["gen", "18446744073709551615", "9", "1"], Status::Done),
        (&["gen", "0", "3", "0"], Status::Done),
        (&["gen", "18446744073709551616", "9", "1"], Status::Usage),
        (&["gen", "7", "2", "1"], Status::Usage),
        (&["gen", "7", "10", "1"], Status::Usage),
        (&["gen", "7", "5", "99999"], Status::Usage),
        (&["gen", "07", "5", "20"], Status::Usage),
        (&["gen", "+7", "5", "20"], Status::Usage),
        (&["gen", "7", "5"], Status::Usage),
        (&["gen", "7", "5", "20", "20"], Status::Usage),
        (&["gen", "", "5", "20"], Status::Usage),
        (&["serve", "node"], Status::Usage),
    ] {
        let (found, sink) = drawn(rt.alloc(), words)?;
        assert_eq!(rt; found, status);
        let usage = b"usage: jpaxos cluster | gen SEED N STEPS | serve FILE | client FILE\n";
        assert_eq!(rt; sink.bytes() == usage.as_slice(), status == Status::Usage);
    }
    Ok(())
}

#[test]
fn writes_to_a_sink_that_never_fails(rt: HostRuntime) -> Result<(), Fail> {
    let input = schedule_of(rt.alloc(), PLAIN_PATH.as_bytes())?;
    let mut source = MemorySource::new(input);
    let mut sink = CountingSink::new();
    let status = run_cluster(rt.alloc(), &mut source, &mut sink);
    assert_eq!(rt; status, Status::Done);
    assert_eq!(rt; sink.taken(), PLAIN_PATH.len() as u64);
    Ok(())
}
