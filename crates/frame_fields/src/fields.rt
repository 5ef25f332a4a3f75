//! The fields of a frame, read from the front.

ghost use Rattle.std.specs.Prelude.{◌≡◌, ◌≤◌, ◌<◌, ◌*◌, ◌/◌, ◌+◌, Some, None, IfOk, length, min, fold};
ghost use Rattle.frame_fields.specs.Faults.{told};
ghost use Rattle.frame_fields.specs.Reading.{bytes, number, number_within, counter, key, value, optional, command, command_of_kind, reply, reply_of_kind, request, at_end, too_large};
ghost use Rattle.frame_fields.specs.Telling.{Tells};

use crate::fault::FrameFault;
use jp_types::command::{Command, Reply, Request};
use jp_types::octets::Octets;
use jp_types::views::NUMBER_LIMIT;
use std::alloc::Global;
use std::marker::Model;

/// How many clients there may be, which are numbered from 0.
const CLIENTS: u64 = 1024;

/// The greatest length of a key.
const KEY: u64 = 256;

/// The greatest length of a value.
const VALUE: u64 = 4096;

/// The most bytes of a batch.
const BATCH: usize = 65536;

/// How far the fields of a frame were read.
#[derive(Drop)]
pub struct Fields<'a> {
    // the place of the first field, as it is told
    first: u64,
    // the bytes that were read
    passed: usize,
    // the bytes that are left
    rest: &'a [u8],
    // how many bytes were read before the batch that is being read, if one is
    batch: Option<usize>,
}

impl<'a> Model for Fields<'a> {
    ghost use Rattle.std.specs.Prelude.{ℕ, ◌+◌, ◌<◌, ◌^◌, List, Option, length, refl};
    ghost use Rattle.std.specs.Coded.{code_by, coded×, coded_ℕ, coded_list, coded_option};
    ghost use Rattle.std.specs.Option.{option_map};
    ghost use Rattle.frame_fields.specs.Reading.{Place};

    ghost Value = { Place };

    ghost coded = { code_by (ℕ × (List ℕ × Option ℕ)) (coded× coded_ℕ (coded× (coded_list coded_ℕ) (coded_option coded_ℕ))) (λ p. (p.at, (p.rest, p.batch))) (λ p. record { at = p.0; rest = p.1.0; batch = p.1.1 }) (λ _. refl) };

    ghost view = { λ f. record { at = f.first + f.passed; rest = f.rest.now; batch = option_map (λ start. f.first + start) f.batch } };

    ghost invariant = { λ f. f.passed + length f.rest.now < 2 ^ 64 };
}

impl<'a> Fields<'a> {
    /// The fields of a frame, of which the first stands at this place of the stream.
    pub fn new(at: u64, bytes: &'a [u8]) -> Fields<'a>
        ensures { result ≡ record { at = at; rest = bytes.now; batch = None } }
    {
        let _length = bytes.len();
        Fields {
            first: at,
            passed: 0,
            rest: bytes,
            batch: None,
        }
    }

    /// The place that is reached.
    pub fn at(&self) -> u64
        ensures { result ≡ told self.now.at }
    {
        place(self.first, self.passed)
    }

    /// For how many items a list is made: as many as are told, but no more than there can be in the bytes that are left,
    /// where each item takes at least `size` of them.
    pub fn room(&self, count: u64, size: usize) -> usize
        requires { 1 ≤ size }
        ensures { result ≡ min (length self.now.rest / size) count }
    {
        (self.rest.len() / size).min(count as usize)
    }

    /// What is read from here on is a batch.
    pub fn begin_batch(&mut self)
        ensures { self.new ≡ record self.old { batch = Some self.old.at } }
    {
        self.batch = Some(self.passed);
    }

    /// The batch ends here.
    pub fn end_batch(&mut self)
        ensures { self.new ≡ record self.old { batch = None } }
    {
        self.batch = None;
    }

    /// A field of so many bytes.
    pub fn bytes(&mut self, count: usize) -> Result<&'a [u8], FrameFault>
        ensures read { Tells (λ read. (read.now, self.new)) result (bytes count self.old) }
        ensures length { IfOk result (λ read. length read.now ≡ count) }
    {
        if self.rest.len() < count {
            return Err(FrameFault::BadLength(self.at()));
        }
        let (read, rest) = self.rest.split_at(count);
        let end = self.passed + count;
        if let Some(start) = large_batch(self.batch, end) {
            return Err(FrameFault::BadField(place(self.first, start)));
        }
        self.passed = end;
        self.rest = rest;
        Ok(read)
    }

    /// A number in so many bytes.
    pub fn number(&mut self, size: usize) -> Result<u64, FrameFault>
        requires { size ≤ 8 }
        ensures { Tells (λ read. (read, self.new)) result (number size self.old) }
    {
        Ok(number_of(self.bytes(size)?))
    }

    /// A number in so many bytes, from low to high.
    pub fn number_within(&mut self, size: usize, low: u64, high: u64) -> Result<u64, FrameFault>
        requires { size ≤ 8 }
        ensures { Tells (λ read. (read, self.new)) result (number_within size low high self.old) }
    {
        let at = self.at();
        let number = self.number(size)?;
        if number < low || high < number {
            return Err(FrameFault::BadField(at));
        }
        Ok(number)
    }

    /// A view, an instance, a mark or an epoch.
    pub fn counter(&mut self) -> Result<u64, FrameFault>
        ensures { Tells (λ read. (read, self.new)) result (counter self.old) }
    {
        self.number_within(8, 0, NUMBER_LIMIT)
    }

    /// A counter, if there is one.
    pub fn optional_counter(&mut self) -> Result<Option<u64>, FrameFault>
        ensures { Tells (λ read. (read, self.new)) result (optional counter self.old) }
    {
        let tag = self.number_within(1, 0, 1)?;
        if tag == 0 {
            return Ok(None);
        }
        Ok(Some(self.counter()?))
    }

    /// A key.
    pub fn key(&mut self, alloc: Global) -> Result<Octets, FrameFault>
        ensures { Tells (λ read. (read, self.new)) result (key self.old) }
    {
        let size = self.number_within(2, 1, KEY)?;
        Ok(Octets::from_slice(alloc, self.bytes(size as usize)?)?)
    }

    /// A value.
    pub fn value(&mut self, alloc: Global) -> Result<Octets, FrameFault>
        ensures { Tells (λ read. (read, self.new)) result (value self.old) }
    {
        let size = self.number_within(2, 0, VALUE)?;
        Ok(Octets::from_slice(alloc, self.bytes(size as usize)?)?)
    }

    /// A value, if there is one.
    pub fn optional_value(&mut self, alloc: Global) -> Result<Option<Octets>, FrameFault>
        ensures { Tells (λ read. (read, self.new)) result (optional value self.old) }
    {
        let tag = self.number_within(1, 0, 1)?;
        if tag == 0 {
            return Ok(None);
        }
        Ok(Some(self.value(alloc)?))
    }

    /// A command.
    pub fn command(&mut self, alloc: Global) -> Result<Command, FrameFault>
        ensures { Tells (λ read. (read, self.new)) result (command self.old) }
    {
        let kind = self.number_within(1, 1, 4)?;
        self.command_of_kind(alloc, kind)
    }

    fn command_of_kind(&mut self, alloc: Global, kind: u64) -> Result<Command, FrameFault>
        ensures { Tells (λ read. (read, self.new)) result (command_of_kind kind self.old) }
    {
        match kind {
            1 => Ok(Command::Put {
                key: self.key(alloc)?,
                value: self.value(alloc)?,
            }),
            2 => Ok(Command::Get {
                key: self.key(alloc)?,
            }),
            3 => Ok(Command::Del {
                key: self.key(alloc)?,
            }),
            _ => Ok(Command::Cas {
                key: self.key(alloc)?,
                old: self.optional_value(alloc)?,
                new: self.value(alloc)?,
            }),
        }
    }

    /// A reply.
    pub fn reply(&mut self, alloc: Global) -> Result<Reply, FrameFault>
        ensures { Tells (λ read. (read, self.new)) result (reply self.old) }
    {
        let kind = self.number_within(1, 1, 4)?;
        self.reply_of_kind(alloc, kind)
    }

    fn reply_of_kind(&mut self, alloc: Global, kind: u64) -> Result<Reply, FrameFault>
        ensures { Tells (λ read. (read, self.new)) result (reply_of_kind kind self.old) }
    {
        match kind {
            1 => Ok(Reply::Done),
            2 => Ok(Reply::Value(self.value(alloc)?)),
            3 => Ok(Reply::NoKey),
            _ => Ok(Reply::NoRoom),
        }
    }

    /// A request: its client, its number and its command.
    pub fn request(&mut self, alloc: Global) -> Result<Request, FrameFault>
        ensures { Tells (λ read. (read, self.new)) result (request self.old) }
    {
        let client = self.number_within(8, 0, CLIENTS - 1)?;
        let number = self.number_within(8, 1, NUMBER_LIMIT)?;
        let command = self.command(alloc)?;
        Ok(Request {
            client,
            number,
            command,
        })
    }

    /// What was read of a frame, where no bytes are left of it.
    pub fn finish<T: Drop>(self, item: T) -> Result<T, FrameFault>
        ensures { Tells (λ read. read) result (at_end item self.entry.rest self.entry.at) }
    {
        match self.rest {
            [] => Ok(item),
            [_, ..] => Err(FrameFault::BadLength(self.at())),
        }
    }
}

// The place that is so many bytes behind the first field, as it is told.
fn place(first: u64, passed: usize) -> u64
    ensures { result ≡ told (first + passed) }
{
    first.saturating_add(passed as u64)
}

// Where the batch begins that is too large, if the batch is and a field of it ends here.
fn large_batch(batch: Option<usize>, end: usize) -> Option<usize>
    ensures { result ≡ too_large batch end }
{
    match batch {
        Some(start) if BATCH < end.saturating_sub(start) => Some(start),
        Some(_) | None => None,
    }
}

// The number that bytes spell, the highest first.
fn number_of(bytes: &[u8]) -> u64
    requires { length bytes.now ≤ 8 }
    ensures { result ≡ fold (λ n b. n * 256 + b) 0 bytes.now }
{
    let mut number = 0;
    for byte in bytes {
        number = number * 256 + *byte as u64;
    }
    number
}
