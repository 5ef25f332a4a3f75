//! The state of the service: the store, how many batches were executed, and each client's last reply.

ghost use Rattle.std.specs.Prelude.{◌≡◌, ◌<◌, true, ◌-◌, ◌^◌, ◌⊎◌, [], length, min, slice_get, Ok, Err, IfErr, IfOk, IfSome, OnErr, OnOk, vec_len, vec_capacity};
ghost use Rattle.std.specs.Option.{option_copied};
ghost use Rattle.std.specs.Ordering.{is_le, nat_cmp};
ghost use Rattle.kv_service.specs.Above.{first_above, kept_of, pair_cmp};
ghost use Rattle.kv_service.specs.Ascending.{IsAscending, IsFoundAt, IsMissingAt};
ghost use Rattle.kv_service.specs.Limits.{IsWithinLimits};
ghost use Rattle.kv_service.specs.Prefix.{IsAfterPrefix};
ghost use Rattle.kv_service.specs.Entries;
ghost use Rattle.kv_service.specs.Service.{State as ServiceState, execute, kept, kind_of, last_of, outcomes, start, take_request, take_requests};
ghost use Rattle.kv_service.specs.StateBytes.{state_bytes};
ghost use Rattle.kv_service.specs.StateReading.{read_state};
ghost use Rattle.kv_service.specs.StateTelling.{fault_of};
ghost use Rattle.kv_service.specs.Store.{apply, is_value};

use crate::fault::StateFault;
use crate::lengths::{clients_length, pairs_length};
use crate::outcome::{Kind, Outcome, Outcomes};
use crate::reading::read_parts;
use crate::store::Store;
use crate::writing::{push_clients, push_pairs};
use jp_types::batch::Batch;
use jp_types::command::{Reply, Request};
use jp_types::memory::{Duplicate, NoMemory};
use jp_types::message::Instance;
use jp_types::octets::Octets;
use std::alloc::Global;
use std::marker::Model;

/// The bytes of the executed number.
const EXECUTED: usize = 8;

/// Each client's last number and the reply to it, in ascending order of the clients.
#[derive(Debug, Drop)]
struct Clients {
    last: Vec<(u64, (u64, Reply))>,
}

impl Model for Clients {
    ghost use Rattle.std.specs.Prelude.{ℕ, List};
    ghost use Rattle.std.specs.Ordering.{nat_cmp};
    ghost use Rattle.jp_types.specs.declared.command.Reply.{Reply};
    ghost use Rattle.kv_service.specs.Ascending.{IsAscending};

    ghost Value = { List (ℕ × (ℕ × Reply)) };

    ghost view = { λ c. c.last.items };

    ghost invariant = { λ c. IsAscending nat_cmp c.last.items };
}

// Whether the client and number of an entry are not above these.
fn is_up_to(entry: &(u64, (u64, Reply)), last: (u64, u64)) -> bool
    ensures { result ≡ is_le (pair_cmp (entry.now.0, entry.now.1.0) last) }
{
    entry.0 < last.0 || (entry.0 == last.0 && entry.1.0 <= last.1)
}

impl Clients {
    fn new(alloc: Global) -> Clients
        ensures { result ≡ [] }
    {
        Clients {
            last: Vec::new(alloc),
        }
    }

    fn allocator(&self) -> Global {
        *self.last.allocator()
    }

    // Where the client is, or where it would go.
    fn search(&self, client: u64) -> Result<usize, usize>
        ensures found { IfOk result (IsFoundAt (nat_cmp client) self.now) }
        ensures missing { IfErr result (IsMissingAt (nat_cmp client) self.now) }
    {
        self.last.binary_search_by(|entry| entry.0.cmp(&client))
    }

    fn last(&self, client: u64) -> Option<&(u64, Reply)>
        ensures { option_copied result ≡ Entries.get nat_cmp self.now client }
    {
        match self.search(client) {
            Ok(at) => Some(&self.last[at].1),
            Err(_) => None,
        }
    }

    fn after(&self, last: Option<(u64, u64)>) -> Option<(u64, u64, &Reply)>
        ensures least { kept_of result ≡ first_above pair_cmp (λ entry. (entry.0, entry.1.0)) last self.now }
        ensures ascending { IsAscending nat_cmp self.now }
    {
        let from = self.above(last);
        match self.last.get(from) {
            Some(entry) => Some((entry.0, entry.1.0, &entry.1.1)),
            None => None,
        }
    }

    // The place of the first client and number above these, or of the first of all.
    fn above(&self, last: Option<(u64, u64)>) -> usize
        ensures { slice_get self.now result ≡ first_above pair_cmp (λ entry. (entry.0, entry.1.0)) last self.now }
    {
        match last {
            Some(last) => self.last.partition_point(|entry| is_up_to(entry, last)),
            None => 0,
        }
    }

    // Executes a request and keeps the reply to it. What may fail comes before the first change, but for the copy of a
    // value, which no change comes with.
    fn execute(&mut self, store: &mut Store, request: &Request) -> Result<Reply, NoMemory>
        ensures reply { IfOk result (λ reply. reply ≡ (apply store.old request.now.command).1) }
        ensures store { OnOk result (store.new ≡ (apply store.old request.now.command).0) }
        ensures last { OnOk result (self.new ≡ Entries.insert nat_cmp self.old request.now.client (request.now.number, (apply store.old request.now.command).1)) }
        ensures err { OnErr result ((store.new ≡ store.old) × (self.new ≡ self.old)) }
    {
        self.last.reserve(1)?;
        let at = self.search(request.client);
        let reply = store.apply(&request.command)?;
        let kept = copy_of(&reply)?;
        keep(&mut self.last, at, (request.client, (request.number, kept)));
        Ok(reply)
    }
}

// Sets an entry, at the place that a search gave for its client. There is room for one more.
fn keep(last: &mut Vec<(u64, (u64, Reply))>, at: Result<usize, usize>, entry: (u64, (u64, Reply)))
    requires room { vec_len last.old < vec_capacity last.old }
    requires found { IfOk at (IsFoundAt (nat_cmp entry.0) last.old.items) }
    requires missing { IfErr at (IsMissingAt (nat_cmp entry.0) last.old.items) }
    ensures { last.new.items ≡ Entries.insert nat_cmp last.old.items entry.0 entry.1 }
{
    match at {
        Ok(at) => replace(last, at, entry),
        Err(at) => add(last, at, entry),
    }
}

fn replace(last: &mut Vec<(u64, (u64, Reply))>, at: usize, entry: (u64, (u64, Reply)))
    requires { IsFoundAt (nat_cmp entry.0) last.old.items at }
    ensures { last.new.items ≡ Entries.insert nat_cmp last.old.items entry.0 entry.1 }
{
    last[at].1 = entry.1;
}

fn add(last: &mut Vec<(u64, (u64, Reply))>, at: usize, entry: (u64, (u64, Reply)))
    requires room { vec_len last.old < vec_capacity last.old }
    requires missing { IsMissingAt (nat_cmp entry.0) last.old.items at }
    ensures { last.new.items ≡ Entries.insert nat_cmp last.old.items entry.0 entry.1 }
{
    let _inserted = last.insert(at, entry);
}

// A copy, which takes memory for a value alone.
fn copy_of(reply: &Reply) -> Result<Reply, NoMemory>
    ensures ok { IfOk result (λ made. made ≡ reply.now) }
    ensures err { OnErr result (is_value reply.now ≡ true) }
{
    match reply {
        Reply::Done => Ok(Reply::Done),
        Reply::Value(value) => Ok(Reply::Value(value.copy()?)),
        Reply::NoKey => Ok(Reply::NoKey),
        Reply::NoRoom => Ok(Reply::NoRoom),
    }
}

fn kind_of(last: Option<&(u64, Reply)>, number: u64) -> Kind
    ensures { result ≡ kind_of (option_copied last.entry) number }
{
    match last {
        None => Kind::First,
        Some(last) => {
            if last.0 < number {
                Kind::First
            } else if number == last.0 {
                Kind::Repeated
            } else {
                Kind::Passed
            }
        }
    }
}

/// The state of the service.
#[derive(Debug, Drop)]
pub struct State {
    store: Store,
    executed: u64,
    clients: Clients,
}

impl Model for State {
    ghost use Rattle.std.specs.Prelude.{ℕ, List, refl};
    ghost use Rattle.std.specs.Coded.{code_by, coded×, coded_ℕ, coded_list};
    ghost use Rattle.jp_types.specs.declared.command.Reply.{Reply};
    ghost use Rattle.kv_service.specs.Service.{State as ServiceState};
    ghost use Rattle.kv_service.specs.Store.{Store as Pairs};
    ghost use Rattle.kv_service.specs.contracts.store.Store as of_store;
    ghost use Rattle.kv_service.specs.contracts.state.Clients as of_clients;

    ghost Value = { ServiceState };

    ghost coded = { code_by (Pairs × (ℕ × List (ℕ × (ℕ × Reply)))) (coded× of_store.the_row.coded (coded× coded_ℕ of_clients.the_row.coded)) (λ s. (s.store, (s.executed, s.last))) (λ p. record { store = p.0; executed = p.1.0; last = p.1.1 }) (λ _. refl) };

    ghost view = { λ s. record { store = s.store; executed = s.executed; last = s.clients } };
}

impl State {
    pub fn new(alloc: Global) -> State
        ensures { result ≡ start }
    {
        State {
            store: Store::new(alloc),
            executed: 0,
            clients: Clients::new(alloc),
        }
    }

    /// How many batches were executed, which is the instance of the next one.
    pub fn executed(&self) -> Instance
        ensures { result ≡ self.now.executed }
    {
        self.executed
    }

    pub fn store(&self) -> &Store
        ensures { result.now ≡ self.now.store }
    {
        &self.store
    }

    /// Executes a batch: each request whose number is above its client's last.
    pub fn execute(&mut self, batch: &Batch) -> Result<Outcomes, NoMemory>
        requires { self.old.executed < 2 ^ 48 }
        ensures outcomes { IfOk result (λ made. made ≡ outcomes self.old batch.now) }
        ensures ok { OnOk result (self.new ≡ execute self.old batch.now) }
        ensures executed { OnErr result (self.new.executed ≡ self.old.executed) }
        ensures prefix { OnErr result (IsAfterPrefix self.old batch.now self.new) }
    {
        let made = self.take_requests(batch.requests())?;
        self.executed += 1;
        Ok(Outcomes::from_vec(made))
    }

    fn take_requests(&mut self, requests: &[Request]) -> Result<Vec<Outcome>, NoMemory>
        ensures outcomes { IfOk result (λ made. made.items ≡ outcomes self.old requests.now) }
        ensures ok { OnOk result (self.new ≡ (take_requests self.old requests.now).0) }
        ensures err { OnErr result (IsAfterPrefix self.old requests.now self.new) }
    {
        let mut made = Vec::new(self.clients.allocator());
        for request in requests {
            made.push(self.take_request(request)?)?;
        }
        Ok(made)
    }

    fn take_request(&mut self, request: &Request) -> Result<Outcome, NoMemory>
        ensures outcome { IfOk result (λ outcome. outcome ≡ (take_request self.old request.now).1) }
        ensures ok { OnOk result (self.new ≡ (take_request self.old request.now).0) }
        ensures err { OnErr result (self.new ≡ self.old) }
    {
        let kind = kind_of(self.clients.last(request.client), request.number);
        let reply = match kind {
            Kind::First => Some(self.clients.execute(&mut self.store, request)?),
            Kind::Repeated => self.kept(request.client)?,
            Kind::Passed => None,
        };
        Ok(Outcome {
            client: request.client,
            number: request.number,
            kind,
            reply,
        })
    }

    // The reply that is kept for a client.
    fn kept(&self, client: u64) -> Result<Option<Reply>, NoMemory>
        ensures { IfOk result (λ reply. reply ≡ kept (last_of self.now client)) }
    {
        match self.clients.last(client) {
            Some(last) => Ok(Some(last.1.copy()?)),
            None => Ok(None),
        }
    }

    /// The client, the number and the reply of the least client and number above `last`, or of the least of all where
    /// it is `None`. Of each client the last number is there.
    pub fn pair_after(&self, last: Option<(u64, u64)>) -> Option<(u64, u64, &Reply)>
        ensures least { kept_of result ≡ first_above pair_cmp (λ entry. (entry.0, entry.1.0)) last self.now.last }
        ensures ascending { IsAscending nat_cmp self.now.last }
    {
        self.clients.after(last)
    }

    /// The one spelling of the state, from which another replica takes it over. It takes as much memory as it has bytes.
    #[tactic(auto, unfolding(crate::specs::StateBytes::state_bytes))]
    pub fn to_bytes(&self) -> Result<Octets, NoMemory>
        ensures { IfOk result (λ made. made ≡ state_bytes self.now) }
    {
        let mut out = Vec::with_capacity(self.clients.allocator(), self.bytes_length())?;
        out.extend_from_slice(&self.executed.to_be_bytes())?;
        push_pairs(&mut out, self.store.pairs())?;
        push_clients(&mut out, &self.clients.last)?;
        Ok(Octets::from_vec(out))
    }

    // How many bytes the spelling has, or the greatest `usize` where it has more.
    #[tactic(auto, unfolding(crate::specs::StateBytes::state_bytes))]
    fn bytes_length(&self) -> usize
        ensures { result ≡ min (length (state_bytes self.now)) (2 ^ 64 - 1) }
    {
        EXECUTED
            .saturating_add(pairs_length(self.store.pairs()))
            .saturating_add(clients_length(&self.clients.last))
    }

    /// The state that the bytes spell, all of the bytes, or the first fault that is met as they are read from the front.
    pub fn from_bytes(alloc: Global, bytes: &[u8]) -> Result<State, StateFault>
        ensures ok { IfOk result (λ state. read_state bytes.now ≡ Ok state) }
        ensures fault { IfErr result (λ told. IfSome (fault_of told) (λ fault. read_state bytes.now ≡ Err fault)) }
        ensures only { IfOk result (λ state. IsWithinLimits state × (bytes.now ≡ state_bytes state)) }
        ensures each { (s : ServiceState) → IsWithinLimits s → bytes.now ≡ state_bytes s → (result ≡ Ok s) ⊎ (result ≡ Err StateFault.NoMemory) }
    {
        let parts = read_parts(alloc, bytes)?;
        Ok(State {
            store: Store::from_pairs(parts.pairs),
            executed: parts.executed,
            clients: Clients {
                last: parts.clients,
            },
        })
    }
}

#[cfg(test)]
mod tests {
    use super::*;
    use jp_types::command::Command;
    use jp_types::octets::Octets;
    use std::test::Fail;

    // Puts a value at one key, or gets the one there.
    fn command(alloc: Global, value: Option<&[u8]>) -> Result<Command, NoMemory> {
        let key = Octets::from_slice(alloc, b"a")?;
        match value {
            Some(value) => Ok(Command::Put {
                key,
                value: Octets::from_slice(alloc, value)?,
            }),
            None => Ok(Command::Get { key }),
        }
    }

    fn batch(alloc: Global, lines: &[(u64, u64, Option<&[u8]>)]) -> Result<Batch, NoMemory> {
        let mut batch = Batch::empty(alloc);
        for line in lines {
            batch.push(Request {
                client: line.0,
                number: line.1,
                command: command(alloc, line.2)?,
            })?;
        }
        Ok(batch)
    }

    // Two clients, which also repeat themselves and send an older number.
    fn served(alloc: Global) -> Result<(State, Outcomes), NoMemory> {
        let lines = [
            (9, 4, Some(b"b".as_slice())),
            (9, 4, Some(b"c")),
            (7, 1, None),
            (7, 6, Some(b"d")),
            (7, 5, Some(b"e")),
            (9, 5, None),
            (9, 5, Some(b"f")),
        ];
        let mut state = State::new(alloc);
        let outcomes = state.execute(&batch(alloc, &lines)?)?;
        Ok((state, outcomes))
    }

    // The bytes of a value, and none of another reply.
    fn value_of(reply: &Reply) -> Option<&[u8]> {
        match reply {
            Reply::Value(value) => Some(value.bytes()),
            _ => None,
        }
    }

    #[test]
    fn requests_are_first_repeated_or_passed(rt: HostRuntime) -> Result<(), Fail> {
        let (state, outcomes) = served(rt.alloc())?;
        let lines = [
            (Kind::First, None),
            (Kind::Repeated, None),
            (Kind::First, Some(b"b".as_slice())),
            (Kind::First, None),
            (Kind::Passed, None),
            (Kind::First, Some(b"d")),
            (Kind::Repeated, Some(b"d")),
        ];
        let outcomes = outcomes.as_slice();
        assert_eq!(rt; outcomes.len(), lines.len());
        for (outcome, (kind, value)) in outcomes.iter().zip(lines) {
            assert_eq!(rt; outcome.kind, kind);
            assert_eq!(rt; outcome.reply.as_ref().and_then(value_of), value);
        }
        assert_eq!(rt; state.executed(), 1);
        assert_eq!(rt; state.store().count(), 1);
        Ok(())
    }

    #[test]
    fn clients_in_turn(rt: HostRuntime) -> Result<(), Fail> {
        let (state, _outcomes) = served(rt.alloc())?;
        let lines = [
            (None, Some((7, 6))),
            (Some((7, 5)), Some((7, 6))),
            (Some((7, 6)), Some((9, 5))),
            (Some((8, u64::MAX)), Some((9, 5))),
            (Some((9, 5)), None),
        ];
        for (last, next) in lines {
            let found = state.pair_after(last).map(|pair| (pair.0, pair.1));
            assert_eq!(rt; found, next);
        }
        Ok(())
    }

    // A state whose only request was a put by client 7: 1 batch, 1 key with its value, 1 client with its number and reply.
    const PUT_ONCE: [u8; 39] =
        *b"\0\0\0\0\0\0\0\x01\0\0\0\x01\0\x01a\0\x01b\0\0\0\x01\0\0\0\0\0\0\0\x07\0\0\0\0\0\0\0\x01\x01";

    #[test]
    fn bytes_both_ways(rt: HostRuntime) -> Result<(), Fail> {
        let mut put_once = State::new(rt.alloc());
        put_once.execute(&batch(rt.alloc(), &[(7, 1, Some(b"b"))])?)?;
        let (served, _outcomes) = served(rt.alloc())?;
        assert_eq!(rt; put_once.to_bytes()?.bytes(), PUT_ONCE.as_slice());
        for state in [State::new(rt.alloc()), put_once, served] {
            let bytes = state.to_bytes()?;
            let Ok(read) = State::from_bytes(rt.alloc(), bytes.bytes()) else {
                return Err("a state's bytes are read".into());
            };
            assert_eq!(rt; read.executed(), state.executed());
            assert_eq!(rt; read.to_bytes()?.bytes(), bytes.bytes());
        }
        Ok(())
    }

    // 5 batches, 3 keys of which the second has an empty value, and 4 clients with one reply of each kind.
    const EACH_REPLY: &[u8] =
        b"\0\0\0\0\0\0\0\x05\0\0\0\x03\0\x01a\0\x01b\0\x02ab\0\0\0\x01c\0\x03def\
        \0\0\0\x04\0\0\0\0\0\0\0\x01\0\0\0\0\0\0\0\x01\x01\0\0\0\0\0\0\0\x02\0\0\0\0\0\0\0\x09\x02\0\x02gh\
        \0\0\0\0\0\0\0\x03\0\0\0\0\0\0\x01\0\x03\0\0\0\0\0\0\x03\xff\0\x01\0\0\0\0\0\0\x04";

    #[test]
    fn bytes_take_their_length_of_memory(rt: HostRuntime) -> Result<(), Fail> {
        let Ok(each_reply) = State::from_bytes(rt.alloc(), EACH_REPLY) else {
            return Err("a state's bytes are read".into());
        };
        assert_eq!(rt; each_reply.to_bytes()?.bytes(), EACH_REPLY);
        let (served, _outcomes) = served(rt.alloc())?;
        for state in [State::new(rt.alloc()), served, each_reply] {
            let bytes = state.to_bytes()?.into_vec();
            assert_eq!(rt; state.bytes_length(), bytes.len());
            assert_eq!(rt; bytes.capacity(), bytes.len());
        }
        Ok(())
    }
}
