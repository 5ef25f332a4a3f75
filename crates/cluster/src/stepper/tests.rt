//! Lines and what answers them.

use super::*;
use schedules::read_line::read_line;
use schedules::text::show_event;
use std::test::Fail;

/// A run so far.
#[derive(Drop)]
struct Lines {
    alloc: Global,
    head: Head,
    stepper: Stepper,
}

impl Lines {
    // Begins by the first line, whose text is told.
    fn start(alloc: Global, first: &str) -> Result<(Lines, Vec<u8>), Fail> {
        let Line::Cluster(read) = read_line(alloc, first.as_bytes(), None)? else {
            return Err("no first line")?;
        };
        // a line that is read is within these limits, and `read_line` does not say so
        let head = Head {
            n: read.n.max(3).min(9),
            mode: read.mode,
            window: read.window.max(1).min(64),
        };
        let (stepper, event) = Stepper::start(alloc, &head)?;
        let mut text = Vec::new(alloc);
        show_event(&event, &mut text)?;
        let lines = Lines {
            alloc,
            head,
            stepper,
        };
        Ok((lines, text))
    }

    fn event(&mut self, line: &str) -> Result<Event, Fail> {
        let line = read_line(self.alloc, line.as_bytes(), Some(self.head))?;
        Ok(self.stepper.event(&line)?)
    }

    fn word(&mut self, line: &str) -> Result<Word, Fail> {
        Ok(self.event(line)?.word)
    }
}

// The line of a text of a run, without its answer.
fn asked(told: &str) -> &str {
    match told.split_once(" = ") {
        Some((line, _answer)) => line,
        None => told,
    }
}

// The text of the run of the lines that a text of a run answers.
fn retold(alloc: Global, text: &str) -> Result<Vec<u8>, Fail> {
    let mut told = text.lines();
    let Some(first) = told.next() else {
        return Err("no first line")?;
    };
    let (mut lines, mut again) = Lines::start(alloc, asked(first))?;
    for line in told {
        let event = lines.event(asked(line))?;
        show_event(&event, &mut again)?;
    }
    Ok(again)
}

const FIRST: &str =
    "cluster 3 viewss 4 = done; first 0; promise 0 0; send 0 1 prepare; send 1 2 prepare; first 1; first 2\n";

const WORDS: &str = "deliver 1 99 = unsent\n\
    deliver 2 0 = unsent\n\
    protocol 0 = empty\n\
    service 0 = empty\n\
    batch 0 = empty\n\
    retransmit 1 = empty\n\
    start 0 = up\n\
    crash 1 = done; crash 1\n\
    protocol 1 = down\n\
    deliver 1 0 = down\n\
    deliver 1 1 = unsent\n\
    request 1 0 1 get 61 = down\n\
    tick 1 = down\n\
    suspect 1 = down\n\
    batch 1 = down\n\
    service 1 = down\n\
    retransmit 1 = down\n\
    crash 1 = down\n\
    retransmit 0 = done; send 2 1 prepare; send 3 2 prepare\n\
    end = done\n";

const TWO_LIVES: &str = "deliver 1 0 = done\n\
    protocol 1 = done; promise 1 0; send 2 0 promise\n\
    deliver 0 2 = done\n\
    protocol 0 = done; prepared 0 0 0\n\
    crash 2 = done; crash 2\n\
    start 2 = done; return 2 1; send 3 0 recovery; send 4 1 recovery\n\
    tick 2 = done\n\
    protocol 2 = done\n\
    suspect 2 = done\n\
    protocol 2 = done\n\
    protocol 2 = empty\n\
    retransmit 2 = done; send 5 0 recovery; send 6 1 recovery\n\
    suspect 1 = done\n\
    protocol 1 = done; enter 1 1; promise 1 1; send 7 0 prepare; send 8 2 prepare\n\
    crash 2 = done; crash 2\n\
    start 2 = done; return 2 3; send 9 0 recovery; send 10 1 recovery\n\
    deliver 0 9 = done\n\
    protocol 0 = done; enter 0 3; promise 0 3; send 11 1 prepare; send 12 2 prepare; answer 0 2 3 -; send 13 2 answer\n";

#[test]
fn answers_of_lines(rt: HostRuntime) -> Result<(), Fail> {
    for rest in [WORDS, TWO_LIVES] {
        let mut text = String::new(rt.alloc());
        text.push_str(FIRST)?;
        text.push_str(rest)?;
        let again = retold(rt.alloc(), text.as_str())?;
        assert_eq!(rt; std::str::from_utf8(&again)?, text.as_str());
    }
    Ok(())
}

#[test]
fn lanes_have_64_places(rt: HostRuntime) -> Result<(), Fail> {
    let (mut lines, _text) = Lines::start(rt.alloc(), "cluster 3 epochss 1")?;
    for line in ["request 1 7 1 get 61", "batch 1"] {
        assert_eq!(rt; lines.word(line)?, Word::Done, "{line}");
    }
    for _ in 0..64 {
        assert_eq!(rt; lines.word("tick 1")?, Word::Done);
        assert_eq!(rt; lines.word("deliver 2 1")?, Word::Done);
    }
    for line in [
        "tick 1",
        "deliver 2 1",
        "request 1 7 2 get 61",
        "suspect 1",
        "deliver 1 0",
        "batch 1",
    ] {
        assert_eq!(rt; lines.word(line)?, Word::Full, "{line}");
    }
    for line in ["protocol 1", "batch 1", "tick 2"] {
        let word = lines.word(line)?;
        let wanted = if line == "tick 2" {
            Word::Full
        } else {
            Word::Done
        };
        assert_eq!(rt; word, wanted, "{line}");
    }
    Ok(())
}
