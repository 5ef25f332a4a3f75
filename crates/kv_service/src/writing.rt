//! The bytes of a state's parts, each appended to those before.

ghost use Rattle.std.specs.Prelude.{◌≡◌, ◌++◌, length, flat_map, OnOk};
ghost use Rattle.std.specs.Int.{to_be_bytes, w16, w32};
ghost use Rattle.kv_service.specs.StateBytes.{sized_bytes, pair_bytes, reply_bytes, client_bytes};

use jp_types::command::Reply;
use jp_types::memory::NoMemory;
use jp_types::octets::Octets;

/// The count of keys, and each key with its value.
pub fn push_pairs(out: &mut Vec<u8>, pairs: &[(Octets, Octets)]) -> Result<(), NoMemory>
    ensures { OnOk result (out.new.items ≡ out.old.items ++ to_be_bytes w32 (length pairs.now) ++ flat_map pair_bytes pairs.now) }
{
    push_count(out, pairs.len())?;
    for pair in pairs {
        push_sized(out, pair.0.bytes())?;
        push_sized(out, pair.1.bytes())?;
    }
    Ok(())
}

/// The count of clients, and each client with its last number and the reply to it.
pub fn push_clients(out: &mut Vec<u8>, clients: &[(u64, (u64, Reply))]) -> Result<(), NoMemory>
    ensures { OnOk result (out.new.items ≡ out.old.items ++ to_be_bytes w32 (length clients.now) ++ flat_map client_bytes clients.now) }
{
    push_count(out, clients.len())?;
    for last in clients {
        push_client(out, last)?;
    }
    Ok(())
}

// A count, in the low four of its eight bytes.
fn push_count(out: &mut Vec<u8>, count: usize) -> Result<(), NoMemory>
    ensures { OnOk result (out.new.items ≡ out.old.items ++ to_be_bytes w32 count) }
{
    let bytes = (count as u64).to_be_bytes();
    out.extend_from_slice(&bytes[4..])?;
    Ok(())
}

// A key or a value: its length, in the low two of its eight bytes, and then itself.
fn push_sized(out: &mut Vec<u8>, sized: &[u8]) -> Result<(), NoMemory>
    ensures { OnOk result (out.new.items ≡ out.old.items ++ sized_bytes sized.now) }
{
    let length = (sized.len() as u64).to_be_bytes();
    out.extend_from_slice(&length[6..])?;
    out.extend_from_slice(sized)?;
    Ok(())
}

fn push_client(out: &mut Vec<u8>, last: &(u64, (u64, Reply))) -> Result<(), NoMemory>
    ensures { OnOk result (out.new.items ≡ out.old.items ++ client_bytes last.now) }
{
    out.extend_from_slice(&last.0.to_be_bytes())?;
    out.extend_from_slice(&last.1.0.to_be_bytes())?;
    push_reply(out, &last.1.1)
}

fn push_reply(out: &mut Vec<u8>, reply: &Reply) -> Result<(), NoMemory>
    ensures { OnOk result (out.new.items ≡ out.old.items ++ reply_bytes reply.now) }
{
    match reply {
        Reply::Done => out.push(1)?,
        Reply::Value(value) => {
            out.push(2)?;
            push_sized(out, value.bytes())?;
        }
        Reply::NoKey => out.push(3)?,
        Reply::NoRoom => out.push(4)?,
    }
    Ok(())
}
