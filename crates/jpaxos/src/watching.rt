//! What is wrong with the characters of an input, to be told to a person.

use jp_types::fault::Failed;
use jp_types::source::Source;

/// The first fault of the characters of an input.
#[derive(Clone, Copy, Debug, PartialEq, Eq)]
pub enum TextFault {
    EmptyLine,
    LeadingSpace,
    DoubledSpace,
    TrailingSpace,
    CarriageReturn,
    Tab,
    Control,
    NotAscii,
}

impl TextFault {
    pub fn told(self) -> &'static str {
        match self {
            TextFault::EmptyLine => "an empty line",
            TextFault::LeadingSpace => "a space in front of the first word",
            TextFault::DoubledSpace => "two spaces between words, where one is expected",
            TextFault::TrailingSpace => "a space behind the last word",
            TextFault::CarriageReturn =>
                "a carriage return, where a line ends with a line feed alone",
            TextFault::Tab => "a tab, where words are parted by a space",
            TextFault::Control => "a control character",
            TextFault::NotAscii => "a character that is not ASCII",
        }
    }
}

/// What was seen of the characters of an input so far.
#[derive(Clone, Copy, Debug, PartialEq, Eq)]
pub struct Watch {
    before: u8,
    fault: Option<TextFault>,
}

// What is wrong with a byte behind another one. Before the first byte stands a line feed.
fn fault_of(before: u8, byte: u8) -> Option<TextFault> {
    match (before, byte) {
        (b'\n', b'\n') => Some(TextFault::EmptyLine),
        (b'\n', b' ') => Some(TextFault::LeadingSpace),
        (b' ', b' ') => Some(TextFault::DoubledSpace),
        (b' ', b'\n') => Some(TextFault::TrailingSpace),
        (_, b'\n') => None,
        (_, b'\r') => Some(TextFault::CarriageReturn),
        (_, b'\t') => Some(TextFault::Tab),
        (_, byte) if byte < 32 || byte == 127 => Some(TextFault::Control),
        (_, byte) if byte > 127 => Some(TextFault::NotAscii),
        _ => None,
    }
}

impl Watch {
    pub fn new() -> Watch {
        Watch {
            before: b'\n',
            fault: None,
        }
    }

    /// Sees further bytes.
    pub fn see(&mut self, bytes: &[u8]) {
        for byte in bytes {
            if self.fault.is_none() {
                self.fault = fault_of(self.before, *byte);
            }
            self.before = *byte;
        }
    }

    /// The first fault, in words. An input without one ends with no line feed, if its characters are at fault at all.
    pub fn told(&self) -> &'static str {
        match self.fault {
            Some(fault) => fault.told(),
            None => "no line feed at its end",
        }
    }
}

/// A source whose bytes are seen as they are read.
#[derive(Drop)]
pub struct Watched<S: Source + Drop> {
    inner: S,
    watch: Watch,
}

impl<S: Source + Drop> Watched<S> {
    pub fn new(inner: S) -> Watched<S> {
        Watched {
            inner,
            watch: Watch::new(),
        }
    }

    pub fn watch(&self) -> Watch {
        self.watch
    }
}

impl<S: Source + Drop> Source for Watched<S> {
    ghost left = { λ w. S.left w.inner };

    ghost faults = { λ w. S.faults w.inner };

    fn read(&mut self, room: &mut [u8]) -> Result<usize, Failed> {
        match self.inner.read(room) {
            Ok(count) => {
                self.watch.see(&room[..count]);
                Ok(count)
            }
            Err(Failed) => Err(Failed),
        }
    }
}

#[cfg(test)]
mod tests {
    use super::*;

    #[test]
    fn tells_the_first_fault(rt: HostRuntime) {
        let cases = [
            (b"tick 0\n\nend\n".as_slice(), "an empty line"),
            (b" tick 0\n\n", "a space in front of the first word"),
            (
                b"tick  0 \n",
                "two spaces between words, where one is expected",
            ),
            (b"tick 0 \nend\n", "a space behind the last word"),
            (
                b"tick 0\r\n",
                "a carriage return, where a line ends with a line feed alone",
            ),
            (b"tick\t0\n", "a tab, where words are parted by a space"),
            (b"tick 0\x7f\n", "a control character"),
            (b"tick 0\xff\n", "a character that is not ASCII"),
            (b"tick 0\nend", "no line feed at its end"),
        ];
        for (input, want) in cases {
            let mut watch = Watch::new();
            watch.see(&input[..1]);
            watch.see(&input[1..]);
            assert_eq!(rt; watch.told(), want);
        }
    }
}
