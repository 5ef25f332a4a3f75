//! The bytes of the fields of a frame, each appended to those before.

ghost use Rattle.std.specs.Prelude.{◌≡◌, ◌≤◌, ◌+◌, [], ◌∷◌, ◌++◌, ℕ, List, length, OnOk, IfOk};
ghost use Rattle.std.specs.Int.{to_be_bytes, w16, w32, w64};
ghost use Rattle.frame_fields.specs.Spelling.{sized_bytes, optional_bytes, command_bytes, reply_bytes, request_bytes, frame_of, begun_frame, filled};

use jp_types::command::{Command, Reply, Request};
use jp_types::memory::NoMemory;
use jp_types::octets::Octets;

/// The bytes of a frame's length.
const LENGTH: usize = 4;

/// A number, in eight bytes.
pub fn push_number(out: &mut Vec<u8>, number: u64) -> Result<(), NoMemory>
    ensures { OnOk result (out.new.items ≡ out.old.items ++ to_be_bytes w64 number) }
{
    out.extend_from_slice(&number.to_be_bytes())?;
    Ok(())
}

/// A count, in the low four of its eight bytes.
pub fn push_count(out: &mut Vec<u8>, count: u64) -> Result<(), NoMemory>
    ensures { OnOk result (out.new.items ≡ out.old.items ++ to_be_bytes w32 count) }
{
    let bytes = count.to_be_bytes();
    out.extend_from_slice(&bytes[4..])?;
    Ok(())
}

/// A tag, a kind or another number of one byte.
pub fn push_byte(out: &mut Vec<u8>, byte: u8) -> Result<(), NoMemory>
    ensures { OnOk result (out.new.items ≡ out.old.items ++ byte ∷ []) }
{
    out.push(byte)?;
    Ok(())
}

/// Bytes as they are.
pub fn push_bytes(out: &mut Vec<u8>, bytes: &[u8]) -> Result<(), NoMemory>
    ensures { OnOk result (out.new.items ≡ out.old.items ++ bytes.now) }
{
    out.extend_from_slice(bytes)?;
    Ok(())
}

/// A key or a value: its length, in the low two of its eight bytes, and then itself.
pub fn push_sized(out: &mut Vec<u8>, sized: &[u8]) -> Result<(), NoMemory>
    ensures { OnOk result (out.new.items ≡ out.old.items ++ sized_bytes sized.now) }
{
    let length = (sized.len() as u64).to_be_bytes();
    out.extend_from_slice(&length[6..])?;
    out.extend_from_slice(sized)?;
    Ok(())
}

/// A tag, and the value if there is one.
pub fn push_optional_value(out: &mut Vec<u8>, old: &Option<Octets>) -> Result<(), NoMemory>
    ensures { OnOk result (out.new.items ≡ out.old.items ++ optional_bytes sized_bytes old.now) }
{
    match old {
        Some(value) => {
            out.push(1)?;
            push_sized(out, value.bytes())?;
        }
        None => out.push(0)?,
    }
    Ok(())
}

/// A tag, and the number in eight bytes if there is one.
pub fn push_optional_number(out: &mut Vec<u8>, number: Option<u64>) -> Result<(), NoMemory>
    ensures { OnOk result (out.new.items ≡ out.old.items ++ optional_bytes (to_be_bytes w64) number) }
{
    match number {
        Some(number) => {
            out.push(1)?;
            push_number(out, number)
        }
        None => push_byte(out, 0),
    }
}

/// A command's kind, and its parts.
pub fn push_command(out: &mut Vec<u8>, command: &Command) -> Result<(), NoMemory>
    ensures { OnOk result (out.new.items ≡ out.old.items ++ command_bytes command.now) }
{
    match command {
        Command::Put { key, value } => {
            out.push(1)?;
            push_sized(out, key.bytes())?;
            push_sized(out, value.bytes())
        }
        Command::Get { key } => {
            out.push(2)?;
            push_sized(out, key.bytes())
        }
        Command::Del { key } => {
            out.push(3)?;
            push_sized(out, key.bytes())
        }
        Command::Cas { key, old, new } => {
            out.push(4)?;
            push_sized(out, key.bytes())?;
            push_optional_value(out, old)?;
            push_sized(out, new.bytes())
        }
    }
}

/// A reply's kind, and its value.
pub fn push_reply(out: &mut Vec<u8>, reply: &Reply) -> Result<(), NoMemory>
    ensures { OnOk result (out.new.items ≡ out.old.items ++ reply_bytes reply.now) }
{
    match reply {
        Reply::Done => out.push(1)?,
        Reply::Value(value) => {
            out.push(2)?;
            push_sized(out, value.bytes())?;
        }
        Reply::NoKey => out.push(3)?,
        Reply::NoRoom => out.push(4)?,
    }
    Ok(())
}

/// A request: its client, its number and its command.
pub fn push_request(out: &mut Vec<u8>, request: &Request) -> Result<(), NoMemory>
    ensures { OnOk result (out.new.items ≡ out.old.items ++ request_bytes request.now) }
{
    push_number(out, request.client)?;
    push_number(out, request.number)?;
    push_command(out, &request.command)
}

/// Room for a frame's length, which `end_frame` fills, and the frame's kind. The answer is the place of the frame.
pub fn begin_frame(out: &mut Vec<u8>, kind: u8) -> Result<usize, NoMemory>
    ensures items { OnOk result (out.new.items ≡ out.old.items ++ begun_frame kind) }
    ensures place { IfOk result (λ place. place ≡ length out.old.items) }
{
    let place = out.len();
    out.extend_from_slice(&[0, 0, 0, 0, kind])?;
    Ok(place)
}

/// Fills in the length of the frame that begins at this place and ends where `out` does.
pub fn end_frame(out: &mut Vec<u8>, place: usize)
    requires { place + 4 ≤ length out.old.items }
    ensures filled { out.new.items ≡ filled place out.old.items }
    ensures frame { (before : List ℕ) (kind : ℕ) (fields : List ℕ) → place ≡ length before → out.old.items ≡ before ++ begun_frame kind ++ fields → out.new.items ≡ before ++ frame_of kind fields }
{
    fill_length(out, place);
}

fn fill_length(out: &mut Vec<u8>, place: usize)
    requires { place + 4 ≤ length out.old.items }
    ensures { out.new.items ≡ filled place out.old.items }
{
    let size = ((out.len() - place - LENGTH) as u64).to_be_bytes();
    out[place..place + LENGTH].copy_from_slice(&size[4..]);
}
