//! Numbers, words, bytes and replies as text.

ghost use Rattle.std.specs.Prelude.{◌≡◌, ◌<◌, false, [], ◌∷◌, ◌++◌, decimal, OnOk};
ghost use Rattle.std.specs.Fmt.{digit_glyph};
ghost use Rattle.text_lines.specs.Texts.{numbers, hex, show_bytes as bytes_text, show_reply as reply_text};

use jp_types::command::Reply;
use jp_types::memory::NoMemory;
use jp_types::message::ReplicaId;

/// Appends bytes as they stand.
pub fn push_text(text: &[u8], out: &mut Vec<u8>) -> Result<(), NoMemory>
    ensures { OnOk result (out.new.items ≡ out.old.items ++ text.now) }
{
    out.extend_from_slice(text)?;
    Ok(())
}

/// Appends one byte.
pub fn push_byte(byte: u8, out: &mut Vec<u8>) -> Result<(), NoMemory>
    ensures { OnOk result (out.new.items ≡ out.old.items ++ byte ∷ []) }
{
    out.push(byte)?;
    Ok(())
}

/// Appends a number in decimal.
pub fn push_decimal(number: u64, out: &mut Vec<u8>) -> Result<(), NoMemory>
    ensures { OnOk result (out.new.items ≡ out.old.items ++ decimal number) }
{
    if number < 10 {
        return push_byte(b'0' + number as u8, out);
    }
    push_decimal(number / 10, out)?;
    push_byte(b'0' + (number % 10) as u8, out)
}

/// Appends a number of 128 bits in decimal.
pub fn push_wide_decimal(number: u128, out: &mut Vec<u8>) -> Result<(), NoMemory>
    ensures { OnOk result (out.new.items ≡ out.old.items ++ decimal number) }
{
    if number < 10 {
        return push_byte(b'0' + number as u8, out);
    }
    push_wide_decimal(number / 10, out)?;
    push_byte(b'0' + (number % 10) as u8, out)
}

/// Appends numbers, each with a space before it.
pub fn push_numbers(all: &[u64], out: &mut Vec<u8>) -> Result<(), NoMemory>
    ensures { OnOk result (out.new.items ≡ out.old.items ++ numbers all.now) }
{
    for number in all {
        out.push(b' ')?;
        push_decimal(*number, out)?;
    }
    Ok(())
}

/// Appends a word, and numbers with a space before each.
pub fn push_named(word: &[u8], all: &[u64], out: &mut Vec<u8>) -> Result<(), NoMemory>
    ensures { OnOk result (out.new.items ≡ out.old.items ++ (word.now ++ numbers all.now)) }
{
    push_text(word, out)?;
    push_numbers(all, out)
}

/// Appends a word, a replica and a number of it.
pub fn push_number_at(
    word: &[u8],
    replica: ReplicaId,
    number: u64,
    out: &mut Vec<u8>,
) -> Result<(), NoMemory>
    ensures { OnOk result (out.new.items ≡ out.old.items ++ (word.now ++ numbers (replica ∷ number ∷ []))) }
{
    push_named(word, &[u64::from(replica), number], out)
}

fn hex_digit(value: u8) -> u8
    requires { value < 16 }
    ensures { result ≡ digit_glyph false value }
{
    if value < 10 {
        b'0' + value
    } else {
        b'a' + (value - 10)
    }
}

/// Appends two lower-case digits for each byte.
pub fn push_hex(bytes: &[u8], out: &mut Vec<u8>) -> Result<(), NoMemory>
    ensures { OnOk result (out.new.items ≡ out.old.items ++ hex bytes.now) }
{
    for byte in bytes {
        out.push(hex_digit(*byte / 16))?;
        out.push(hex_digit(*byte % 16))?;
    }
    Ok(())
}

/// Appends a key or a value: `-` where it has no bytes.
pub fn show_bytes(bytes: &[u8], out: &mut Vec<u8>) -> Result<(), NoMemory>
    ensures { OnOk result (out.new.items ≡ out.old.items ++ bytes_text bytes.now) }
{
    if bytes.is_empty() {
        return push_text(b"-", out);
    }
    push_hex(bytes, out)
}

/// Appends a reply.
pub fn show_reply(reply: &Reply, out: &mut Vec<u8>) -> Result<(), NoMemory>
    ensures { OnOk result (out.new.items ≡ out.old.items ++ reply_text reply.now) }
{
    match reply {
        Reply::Done => push_text(b"ok", out),
        Reply::Value(value) => {
            push_text(b"value:", out)?;
            show_bytes(value.bytes(), out)
        }
        Reply::NoKey => push_text(b"none", out),
        Reply::NoRoom => push_text(b"full", out),
    }
}
