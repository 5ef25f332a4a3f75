//! Keys and values.

ghost use Rattle.std.specs.Prelude.{◌≡◌, [], if◌then◌else◌, length, slice_get, IfErr, IfOk, OnErr, OnOk};
ghost use Rattle.std.specs.Option.{option_copied};
ghost use Rattle.kv_service.specs.Above.{first_above, pair_of};
ghost use Rattle.kv_service.specs.Ascending.{IsAscending, IsFoundAt, IsMissingAt};
ghost use Rattle.kv_service.specs.Entries;
ghost use Rattle.kv_service.specs.Store.{apply, bytes_cmp, contains_key, get, is_same, put, reply_of};

use jp_types::command::{Command, Reply};
use jp_types::memory::{Duplicate, NoMemory};
use jp_types::octets::Octets;
use std::alloc::Global;
use std::cmp::Ordering;
use std::marker::Model;

/// The greatest number of keys.
pub const KEYS: usize = 16_384;

/// A finite map from keys to values, in ascending byte order of the keys.
#[derive(Debug, Drop)]
pub struct Store {
    pairs: Vec<(Octets, Octets)>,
}

impl Model for Store {
    ghost use Rattle.kv_service.specs.Ascending.{IsAscending};
    ghost use Rattle.kv_service.specs.Store.{Store as Pairs, bytes_cmp};

    ghost Value = { Pairs };

    ghost view = { λ s. s.pairs.items };

    ghost invariant = { λ s. IsAscending bytes_cmp s.pairs.items };
}

fn compare(pair: &(Octets, Octets), key: &[u8]) -> Ordering
    ensures { result ≡ bytes_cmp pair.now.0 key.now }
{
    pair.0.bytes().cmp(key)
}

impl Store {
    pub fn new(alloc: Global) -> Store
        ensures { result ≡ [] }
    {
        Store {
            pairs: Vec::new(alloc),
        }
    }

    /// The store of these pairs.
    pub(crate) fn from_pairs(pairs: Vec<(Octets, Octets)>) -> Store
        requires { IsAscending bytes_cmp pairs.items }
        ensures { result ≡ pairs.items }
    {
        Store { pairs }
    }

    /// The keys and their values.
    pub fn pairs(&self) -> &[(Octets, Octets)]
        ensures all { result.now ≡ self.now }
        ensures ascending { IsAscending bytes_cmp self.now }
    {
        &self.pairs
    }

    /// How many keys there are.
    pub fn count(&self) -> u64
        ensures { result ≡ length self.now }
    {
        self.pairs.len() as u64
    }

    /// The value of a key.
    pub fn get(&self, key: &[u8]) -> Option<&Octets>
        ensures { option_copied result ≡ get self.now key.now }
    {
        match self.search(key) {
            Ok(at) => Some(&self.pairs[at].1),
            Err(_) => None,
        }
    }

    /// The key and value of the least key above `key`, or of the least key of all where it is `None`.
    pub fn after(&self, key: Option<&[u8]>) -> Option<(&Octets, &Octets)>
        ensures least { pair_of result ≡ first_above bytes_cmp (λ pair. pair.0) (option_copied key.entry) self.now }
        ensures ascending { IsAscending bytes_cmp self.now }
    {
        let from = self.above(key);
        match self.pairs.get(from) {
            Some(pair) => Some((&pair.0, &pair.1)),
            None => None,
        }
    }

    /// What a command does, and the reply to it.
    pub fn apply(&mut self, command: &Command) -> Result<Reply, NoMemory>
        ensures reply { IfOk result (λ reply. reply ≡ (apply self.old command.now).1) }
        ensures ok { OnOk result (self.new ≡ (apply self.old command.now).0) }
        ensures err { OnErr result (self.new ≡ self.old) }
    {
        match command {
            Command::Put { key, value } => self.put(key, value),
            Command::Get { key } => self.found(key.bytes()),
            Command::Del { key } => {
                if self.remove(key.bytes()) {
                    Ok(Reply::Done)
                } else {
                    Ok(Reply::NoKey)
                }
            }
            Command::Cas { key, old, new } => {
                if self.is_held(key.bytes(), old) {
                    self.put(key, new)
                } else {
                    self.found(key.bytes())
                }
            }
        }
    }

    // Where the key is, or where it would go.
    fn search(&self, key: &[u8]) -> Result<usize, usize>
        ensures found { IfOk result (IsFoundAt (bytes_cmp key.now) self.now) }
        ensures missing { IfErr result (IsMissingAt (bytes_cmp key.now) self.now) }
    {
        self.pairs.binary_search_by(|pair| compare(pair, key))
    }

    // The place of the first key above this one, or of the first of all.
    fn above(&self, key: Option<&[u8]>) -> usize
        ensures { slice_get self.now result ≡ first_above bytes_cmp (λ pair. pair.0) (option_copied key.entry) self.now }
    {
        match key {
            Some(key) => self
                .pairs
                .partition_point(|pair| compare(pair, key).is_le()),
            None => 0,
        }
    }

    // The value is copied before anything changes.
    fn put(&mut self, key: &Octets, value: &Octets) -> Result<Reply, NoMemory>
        ensures reply { IfOk result (λ reply. reply ≡ (put self.old key.now value.now).1) }
        ensures ok { OnOk result (self.new ≡ (put self.old key.now value.now).0) }
        ensures err { OnErr result (self.new ≡ self.old) }
    {
        match self.search(key.bytes()) {
            Ok(at) => {
                let value = value.copy()?;
                self.pairs[at].1 = value;
                Ok(Reply::Done)
            }
            Err(at) => {
                if self.pairs.len() >= KEYS {
                    return Ok(Reply::NoRoom);
                }
                let pair = (key.copy()?, value.copy()?);
                self.pairs.insert(at, pair)?;
                Ok(Reply::Done)
            }
        }
    }

    fn found(&self, key: &[u8]) -> Result<Reply, NoMemory>
        ensures { IfOk result (λ reply. reply ≡ reply_of (get self.now key.now)) }
    {
        match self.get(key) {
            Some(value) => Ok(Reply::Value(value.copy()?)),
            None => Ok(Reply::NoKey),
        }
    }

    // Takes a key out, and tells whether it was there.
    fn remove(&mut self, key: &[u8]) -> bool
        ensures found { result ≡ contains_key self.old key.now }
        ensures after { self.new ≡ (if contains_key self.old key.now then Entries.remove bytes_cmp self.old key.now else self.old) }
    {
        match self.search(key) {
            Ok(at) => {
                self.pairs.remove(at);
                true
            }
            Err(_) => false,
        }
    }

    // Whether the key's value is this one, where `None` means that there is none.
    fn is_held(&self, key: &[u8], old: &Option<Octets>) -> bool
        ensures { result ≡ is_same (get self.now key.now) old.now }
    {
        match (self.get(key), old) {
            (None, None) => true,
            (Some(held), Some(old)) => held.bytes() == old.bytes(),
            _ => false,
        }
    }
}

#[cfg(test)]
mod tests {
    use super::*;
    use std::test::Fail;

    fn command(
        alloc: Global,
        word: &str,
        key: &[u8],
        old: Option<&[u8]>,
        new: &[u8],
    ) -> Result<Command, NoMemory> {
        let key = Octets::from_slice(alloc, key)?;
        match word {
            "put" => Ok(Command::Put {
                key,
                value: Octets::from_slice(alloc, new)?,
            }),
            "get" => Ok(Command::Get { key }),
            "del" => Ok(Command::Del { key }),
            _ => cas(alloc, key, old, new),
        }
    }

    fn cas(
        alloc: Global,
        key: Octets,
        old: Option<&[u8]>,
        new: &[u8],
    ) -> Result<Command, NoMemory> {
        let old = match old {
            Some(old) => Some(Octets::from_slice(alloc, old)?),
            None => None,
        };
        Ok(Command::Cas {
            key,
            old,
            new: Octets::from_slice(alloc, new)?,
        })
    }

    // Whether a reply is told by this word, and a value by its bytes.
    fn is_told(reply: &Reply, word: &str, value: &[u8]) -> bool {
        match reply {
            Reply::Done => word == "ok",
            Reply::Value(held) => word == "value" && held.bytes() == value,
            Reply::NoKey => word == "none",
            Reply::NoRoom => word == "full",
        }
    }

    #[test]
    fn commands_in_turn(rt: HostRuntime) -> Result<(), Fail> {
        let mut store = Store::new(rt.alloc());
        let lines = [
            ("put", None, b"b".as_slice(), "ok", b"".as_slice()),
            ("get", None, b"", "value", b"b"),
            ("cas", Some(b"c".as_slice()), b"d", "value", b"b"),
            ("cas", Some(b"b"), b"", "ok", b""),
            ("get", None, b"", "value", b""),
            ("del", None, b"", "ok", b""),
            ("del", None, b"", "none", b""),
            ("cas", None, b"e", "ok", b""),
        ];
        for (word, old, new, told, value) in lines {
            let reply = store.apply(&command(rt.alloc(), word, b"a", old, new)?)?;
            assert!(rt; is_told(&reply, told, value), "{word}");
        }
        assert_eq!(rt; store.count(), 1);
        Ok(())
    }

    // The keys 0, 1, 2 .. in two bytes.
    fn filled(alloc: Global, count: u16) -> Result<Store, NoMemory> {
        let mut store = Store::new(alloc);
        for number in 0..count {
            store.apply(&command(alloc, "put", &number.to_be_bytes(), None, b"")?)?;
        }
        Ok(store)
    }

    #[test]
    fn no_key_above_the_limit(rt: HostRuntime) -> Result<(), Fail> {
        let mut store = filled(rt.alloc(), 16_384)?;
        let lines = [
            ("put", b"new".as_slice(), None, "full"),
            ("cas", b"new", None, "full"),
            ("put", b"\0\x01", None, "ok"),
            ("cas", b"\0\x01", Some(b"v".as_slice()), "ok"),
            ("del", b"\0\x01", None, "ok"),
            ("put", b"new", None, "ok"),
        ];
        for (word, key, old, told) in lines {
            let reply = store.apply(&command(rt.alloc(), word, key, old, b"v")?)?;
            assert!(rt; is_told(&reply, told, b""), "{word}");
        }
        assert_eq!(rt; store.count(), 16_384);
        Ok(())
    }

    fn of_keys(alloc: Global, keys: &[&[u8]]) -> Result<Store, NoMemory> {
        let mut store = Store::new(alloc);
        for key in keys {
            store.apply(&command(alloc, "put", key, None, key)?)?;
        }
        Ok(store)
    }

    #[test]
    fn keys_in_turn(rt: HostRuntime) -> Result<(), Fail> {
        let store = of_keys(rt.alloc(), &[b"b", b"a", b"ab"])?;
        let lines = [
            (None, Some(b"a".as_slice())),
            (Some(b"".as_slice()), Some(b"a")),
            (Some(b"a"), Some(b"ab")),
            (Some(b"aa"), Some(b"ab")),
            (Some(b"ab"), Some(b"b")),
            (Some(b"b"), None),
        ];
        for (key, next) in lines {
            assert_eq!(rt; store.after(key).map(|pair| pair.0.bytes()), next);
        }
        assert_eq!(rt;
            store.get(b"ab").map(|value| value.bytes()),
            Some(b"ab".as_slice())
        );
        assert_eq!(rt; store.pairs().len(), 3);
        Ok(())
    }
}
