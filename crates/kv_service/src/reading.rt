//! The parts of a state, read from bytes from the front.

ghost use Rattle.std.specs.Prelude.{◌≡◌, ◌≤◌, ◌<◌, ◌*◌, ◌/◌, ◌+◌, IfOk, None, length, min, fold};
ghost use Rattle.std.specs.Option.{option_copied};
ghost use Rattle.std.specs.Ordering.{nat_cmp};
ghost use Rattle.kv_service.specs.StateReading.{bytes, number, number_within, count_within, key, value, reply, reply_of_kind, follows, pairs, clients, state, read_state};
ghost use Rattle.kv_service.specs.StateTelling.{Tells, pair, client, of_parts};
ghost use Rattle.kv_service.specs.Store.{bytes_cmp};

use crate::fault::StateFault;
use crate::store::KEYS;
use jp_types::command::Reply;
use jp_types::octets::Octets;
use std::alloc::Global;
use std::marker::Model;

/// The greatest executed number, and the greatest number of a request.
const NUMBERS: u64 = 1 << 48;

/// How many clients there may be, which are numbered from 0.
const CLIENTS: u64 = 1024;

/// The greatest length of a key.
const KEY: u64 = 256;

/// The greatest length of a value.
const VALUE: u64 = 4096;

/// The least bytes of a key with its value: two lengths and one byte.
const LEAST_PAIR: usize = 5;

/// The least bytes of a client with its last number and the reply to it: two numbers and the reply's kind.
const LEAST_CLIENT: usize = 17;

// How far the bytes were read.
#[derive(Drop)]
struct Cursor<'a> {
    at: usize,
    rest: &'a [u8],
}

impl<'a> Model for Cursor<'a> {
    ghost use Rattle.std.specs.Prelude.{ℕ, ◌+◌, ◌<◌, ◌^◌, List, length, refl};
    ghost use Rattle.std.specs.Coded.{code_by, coded×, coded_ℕ, coded_list};
    ghost use Rattle.kv_service.specs.StateReading.{Place};

    ghost Value = { Place };

    ghost coded = { code_by (ℕ × List ℕ) (coded× coded_ℕ (coded_list coded_ℕ)) (λ p. (p.at, p.rest)) (λ p. record { at = p.0; rest = p.1 }) (λ _. refl) };

    ghost view = { λ c. record { at = c.at; rest = c.rest.now } };

    ghost invariant = { λ c. c.at + length c.rest.now < 2 ^ 64 };
}

impl<'a> Cursor<'a> {
    fn new(bytes: &'a [u8]) -> Cursor<'a>
        ensures { result ≡ record { at = 0; rest = bytes.now } }
    {
        let _length = bytes.len();
        Cursor { at: 0, rest: bytes }
    }

    fn at(&self) -> usize
        ensures { result ≡ self.now.at }
    {
        self.at
    }

    fn bytes(&mut self, count: usize) -> Result<&'a [u8], StateFault>
        ensures read { Tells (λ read. (read.now, self.new)) result (bytes count self.old) }
        ensures length { IfOk result (λ read. length read.now ≡ count) }
    {
        if self.rest.len() < count {
            return Err(StateFault::Truncated(self.at));
        }
        let (read, rest) = self.rest.split_at(count);
        self.at += count;
        self.rest = rest;
        Ok(read)
    }

    fn number(&mut self, size: usize) -> Result<u64, StateFault>
        requires { size ≤ 8 }
        ensures { Tells (λ read. (read, self.new)) result (number size self.old) }
    {
        Ok(number_of(self.bytes(size)?))
    }

    fn number_within(&mut self, size: usize, low: u64, high: u64) -> Result<u64, StateFault>
        requires { size ≤ 8 }
        ensures { Tells (λ read. (read, self.new)) result (number_within size low high self.old) }
    {
        let at = self.at();
        let number = self.number(size)?;
        if number < low || high < number {
            return Err(StateFault::BadField(at));
        }
        Ok(number)
    }

    // A count or a length.
    fn count_within(&mut self, size: usize, low: u64, high: u64) -> Result<u64, StateFault>
        requires { size ≤ 8 }
        ensures { Tells (λ read. (read, self.new)) result (count_within size low high self.old) }
    {
        let at = self.at();
        let count = self.number(size)?;
        if high < count {
            return Err(StateFault::TooLong(at));
        }
        if count < low {
            return Err(StateFault::BadField(at));
        }
        Ok(count)
    }

    fn key(&mut self) -> Result<&'a [u8], StateFault>
        ensures { Tells (λ read. (read.now, self.new)) result (key self.old) }
    {
        let length = self.count_within(2, 1, KEY)?;
        self.bytes(length as usize)
    }

    fn value(&mut self) -> Result<&'a [u8], StateFault>
        ensures { Tells (λ read. (read.now, self.new)) result (value self.old) }
    {
        let length = self.count_within(2, 0, VALUE)?;
        self.bytes(length as usize)
    }

    fn reply(&mut self, alloc: Global) -> Result<Reply, StateFault>
        ensures { Tells (λ read. (read, self.new)) result (reply self.old) }
    {
        let kind = self.number_within(1, 1, 4)?;
        self.reply_of_kind(alloc, kind)
    }

    fn reply_of_kind(&mut self, alloc: Global, kind: u64) -> Result<Reply, StateFault>
        ensures { Tells (λ read. (read, self.new)) result (reply_of_kind kind self.old) }
    {
        match kind {
            1 => Ok(Reply::Done),
            2 => Ok(Reply::Value(Octets::from_slice(alloc, self.value()?)?)),
            3 => Ok(Reply::NoKey),
            _ => Ok(Reply::NoRoom),
        }
    }

    // A key with its value, where the key is above the one before it.
    fn pair(&mut self, before: Option<&[u8]>) -> Result<(&'a [u8], &'a [u8]), StateFault>
        ensures { Tells (λ read. ((read.0.now, read.1.now), self.new)) result (pair (option_copied before.entry) self.old) }
    {
        let at = self.at();
        let key = self.key()?;
        if !follows(before, key) {
            return Err(StateFault::Unordered(at));
        }
        Ok((key, self.value()?))
    }

    // A client with its last number and the reply to it, where the client is above the one before it.
    fn client(
        &mut self,
        alloc: Global,
        before: Option<u64>,
    ) -> Result<(u64, (u64, Reply)), StateFault>
        ensures { Tells (λ read. (read, self.new)) result (client before self.old) }
    {
        let at = self.at();
        let client = self.number_within(8, 0, CLIENTS - 1)?;
        if !is_above(before, client) {
            return Err(StateFault::Unordered(at));
        }
        let number = self.number_within(8, 1, NUMBERS)?;
        Ok((client, (number, self.reply(alloc)?)))
    }

    // For how many entries a list is made: as many as are told, but no more than there can be in the bytes that are left,
    // where each entry takes at least `size` of them.
    fn room(&self, count: u64, size: usize) -> usize
        requires { 1 ≤ size }
        ensures { result ≡ min (length self.now.rest / size) count }
    {
        (self.rest.len() / size).min(count as usize)
    }

    // So many keys with their values.
    fn pairs(&mut self, alloc: Global, count: u64) -> Result<Vec<(Octets, Octets)>, StateFault>
        ensures { Tells (λ read. (read.items, self.new)) result (pairs count None self.old) }
    {
        let mut pairs = Vec::with_capacity(alloc, self.room(count, LEAST_PAIR))?;
        let mut before: Option<&[u8]> = None;
        for _ in 0..count {
            let (key, value) = self.pair(before)?;
            let pair = (
                Octets::from_slice(alloc, key)?,
                Octets::from_slice(alloc, value)?,
            );
            pairs.push(pair)?;
            before = Some(key);
        }
        Ok(pairs)
    }

    // So many clients.
    fn clients(&mut self, alloc: Global, count: u64) -> Result<Vec<(u64, (u64, Reply))>, StateFault>
        ensures { Tells (λ read. (read.items, self.new)) result (clients count None self.old) }
    {
        let mut clients = Vec::with_capacity(alloc, self.room(count, LEAST_CLIENT))?;
        let mut before = None;
        for _ in 0..count {
            let last = self.client(alloc, before)?;
            before = Some(last.0);
            clients.push(last)?;
        }
        Ok(clients)
    }

    fn state(&mut self, alloc: Global) -> Result<Parts, StateFault>
        ensures { Tells (λ parts. (of_parts parts, self.new)) result (state self.old) }
    {
        let executed = self.number_within(8, 0, NUMBERS)?;
        let keys = self.count_within(4, 0, KEYS as u64)?;
        let pairs = self.pairs(alloc, keys)?;
        let count = self.count_within(4, 0, CLIENTS)?;
        let clients = self.clients(alloc, count)?;
        Ok(Parts {
            pairs,
            executed,
            clients,
        })
    }
}

// The number that bytes spell, the highest first.
fn number_of(bytes: &[u8]) -> u64
    requires { length bytes.now ≤ 8 }
    ensures { result ≡ fold (λ n b. n * 256 + b) 0 bytes.now }
{
    let mut number = 0;
    for byte in bytes {
        number = number * 256 + *byte as u64;
    }
    number
}

fn follows(before: Option<&[u8]>, key: &[u8]) -> bool
    ensures { result ≡ follows bytes_cmp (option_copied before.entry) key.now }
{
    match before {
        Some(before) => before.cmp(key).is_lt(),
        None => true,
    }
}

fn is_above(before: Option<u64>, client: u64) -> bool
    ensures { result ≡ follows nat_cmp before client }
{
    match before {
        Some(before) => before < client,
        None => true,
    }
}

/// What a state is made of.
#[derive(Drop)]
pub struct Parts {
    pub pairs: Vec<(Octets, Octets)>,
    pub executed: u64,
    pub clients: Vec<(u64, (u64, Reply))>,
}

/// The parts of the state that the bytes hold.
#[tactic(auto, unfolding(crate::specs::StateReading::read_state))]
pub fn read_parts(alloc: Global, bytes: &[u8]) -> Result<Parts, StateFault>
    ensures { Tells of_parts result (read_state bytes.now) }
{
    let mut cursor = Cursor::new(bytes);
    let parts = cursor.state(alloc)?;
    match cursor.rest {
        [] => Ok(parts),
        [_, ..] => Err(StateFault::Trailing(cursor.at)),
    }
}

#[cfg(test)]
mod tests {
    use super::*;
    use crate::state::State;
    use jp_types::memory::NoMemory;
    use std::test::Fail;

    // No keys, or no clients.
    const NONE: &[u8] = b"\0\0\0\0";

    // The fault of the bytes of an executed number and of what follows it.
    fn fault_of(
        alloc: Global,
        executed: u64,
        rest: [&[u8]; 2],
    ) -> Result<Option<StateFault>, NoMemory> {
        let mut bytes = Vec::from_slice(alloc, &executed.to_be_bytes())?;
        for part in rest {
            bytes.extend_from_slice(part)?;
        }
        Ok(State::from_bytes(alloc, &bytes).err())
    }

    #[test]
    fn the_first_fault_up_to_the_keys_is_told(rt: HostRuntime) -> Result<(), Fail> {
        let lines = [
            (NUMBERS + 1, b"".as_slice(), StateFault::BadField(0)),
            (0, b"\0\0\0", StateFault::Truncated(8)),
            (0, b"\0\0\x40\x01", StateFault::TooLong(8)),
            (0, b"\0\0\0\x01\0\0", StateFault::BadField(12)),
            (0, b"\0\0\0\x01\0\x02a", StateFault::Truncated(14)),
            (0, b"\0\0\0\x01\0\x01a\x10\x01", StateFault::TooLong(15)),
            (
                0,
                b"\0\0\0\x02\0\x01b\0\0\0\x01b",
                StateFault::Unordered(17),
            ),
        ];
        for (executed, keys, fault) in lines {
            assert_eq!(rt; fault_of(rt.alloc(), executed, [keys, b""])?, Some(fault));
        }
        Ok(())
    }

    #[test]
    fn the_first_fault_of_the_clients_is_told(rt: HostRuntime) -> Result<(), Fail> {
        let lines = [
            (b"\0\0\x04\x01".as_slice(), StateFault::TooLong(12)),
            (b"\0\0\0\x01\0\0\0\0\0\0\x04\0", StateFault::BadField(16)),
            (
                b"\0\0\0\x01\0\0\0\0\0\0\0\x07\0\0\0\0\0\0\0\0",
                StateFault::BadField(24),
            ),
            (
                b"\0\0\0\x01\0\0\0\0\0\0\0\x07\0\0\0\0\0\0\0\x01\x05",
                StateFault::BadField(32),
            ),
            (
                b"\0\0\0\x02\0\0\0\0\0\0\0\x07\0\0\0\0\0\0\0\x01\x04\0\0\0\0\0\0\0\x07",
                StateFault::Unordered(33),
            ),
        ];
        for (clients, fault) in lines {
            assert_eq!(rt; fault_of(rt.alloc(), 0, [NONE, clients])?, Some(fault));
        }
        Ok(())
    }

    #[test]
    fn the_first_fault_at_the_end_is_told(rt: HostRuntime) -> Result<(), Fail> {
        let one_key = b"\0\0\0\x01\0\x01a\0\x01b".as_slice();
        let lines = [
            (
                b"\0\0\0\x01\0\0\0\0\0\0\0\x07\0\0\0\0\0\0\0\x01".as_slice(),
                StateFault::Truncated(38),
            ),
            (
                b"\0\0\0\x01\0\0\0\0\0\0\0\x07\0\0\0\0\0\0\0\x01\x01\0",
                StateFault::Trailing(39),
            ),
        ];
        for (clients, fault) in lines {
            assert_eq!(rt; fault_of(rt.alloc(), 1, [one_key, clients])?, Some(fault));
        }
        Ok(())
    }

    #[test]
    fn a_list_has_room_for_its_entries_alone(rt: HostRuntime) -> Result<(), Fail> {
        let bytes =
            b"\0\0\0\0\0\0\0\x01\0\0\0\x01\0\x01a\0\0\0\0\0\x01\0\0\0\0\0\0\0\x07\0\0\0\0\0\0\0\x01\x03";
        let Ok(parts) = read_parts(rt.alloc(), bytes) else {
            return Err("a state's bytes are read".into());
        };
        assert_eq!(rt; parts.pairs.capacity(), 1);
        assert_eq!(rt; parts.clients.capacity(), 1);
        Ok(())
    }
}
