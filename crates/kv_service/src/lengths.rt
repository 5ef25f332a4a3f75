//! How many bytes the parts of a state take, as `writing` spells them. A sum that no `usize` holds is told as the greatest
//! one, for which there is no memory either.

ghost use Rattle.std.specs.Prelude.{◌≡◌, ◌+◌, ◌-◌, ◌^◌, length, flat_map, min};
ghost use Rattle.kv_service.specs.StateBytes.{sized_bytes, pair_bytes, reply_bytes, client_bytes};

use jp_types::command::Reply;
use jp_types::octets::Octets;

/// The bytes of the count of keys, and of that of clients.
const COUNT: usize = 4;

/// The bytes of the length of a key or a value.
const LENGTH: usize = 2;

/// The bytes of a client and of its last number.
const CLIENT_AND_NUMBER: usize = 16;

/// The byte of a reply's kind.
const KIND: usize = 1;

/// The bytes of the count of keys, and of each key with its value.
pub fn pairs_length(pairs: &[(Octets, Octets)]) -> usize
    ensures { result ≡ min (4 + length (flat_map pair_bytes pairs.now)) (2 ^ 64 - 1) }
{
    let mut total = COUNT;
    for pair in pairs {
        total = total.saturating_add(pair_length(pair));
    }
    total
}

/// The bytes of the count of clients, and of each client with its last number and the reply to it.
pub fn clients_length(clients: &[(u64, (u64, Reply))]) -> usize
    ensures { result ≡ min (4 + length (flat_map client_bytes clients.now)) (2 ^ 64 - 1) }
{
    let mut total = COUNT;
    for last in clients {
        total = total.saturating_add(client_length(last));
    }
    total
}

fn pair_length(pair: &(Octets, Octets)) -> usize
    ensures { result ≡ min (length (pair_bytes pair.now)) (2 ^ 64 - 1) }
{
    sized_length(pair.0.bytes()).saturating_add(sized_length(pair.1.bytes()))
}

fn client_length(last: &(u64, (u64, Reply))) -> usize
    ensures { result ≡ min (length (client_bytes last.now)) (2 ^ 64 - 1) }
{
    CLIENT_AND_NUMBER.saturating_add(reply_length(&last.1.1))
}

fn reply_length(reply: &Reply) -> usize
    ensures { result ≡ min (length (reply_bytes reply.now)) (2 ^ 64 - 1) }
{
    match reply {
        Reply::Value(value) => KIND.saturating_add(sized_length(value.bytes())),
        Reply::Done | Reply::NoKey | Reply::NoRoom => KIND,
    }
}

// A key or a value: its length, and then itself.
fn sized_length(sized: &[u8]) -> usize
    ensures { result ≡ min (length (sized_bytes sized.now)) (2 ^ 64 - 1) }
{
    LENGTH.saturating_add(sized.len())
}
