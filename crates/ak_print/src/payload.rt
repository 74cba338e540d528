//! The texts of values that hold no message.

ghost use Rattle.std.specs.Prelude.{◌≡◌, ◌<◌, ◌++◌, OnOk};
ghost use Rattle.std.specs.Char.{digit_char};
ghost use Rattle.std.specs.List.{flat_map};
ghost use Rattle.ak_base.specs.Code.{hex_of};
ghost use Rattle.ak_input.specs.MessageText.{address_text, bool_text, quoted, quoted_byte};

use ak_base::{Bytes, NoMemory, print_uint};
use ak_message::{Address, Target};

pub(crate) fn put_bool(out: &mut Bytes, value: bool) -> Result<(), NoMemory>
    ensures { OnOk result (out.new ≡ out.old ++ bool_text value) }
{
    if value {
        out.extend(b"true")
    } else {
        out.extend(b"false")
    }
}

/// The looper, a point, and the token or `p`.
pub(crate) fn put_address(out: &mut Bytes, address: &Address) -> Result<(), NoMemory>
    ensures { OnOk result (out.new ≡ out.old ++ address_text address.now) }
{
    print_uint(u64::from(address.looper), out)?;
    out.push(b'.')?;
    match address.target {
        Target::Preferred => out.push(b'p'),
        Target::Token(token) => print_uint(token, out),
    }
}

/// The text in double quotes.
pub(crate) fn put_quoted(out: &mut Bytes, text: &[u8]) -> Result<(), NoMemory>
    ensures { OnOk result (out.new ≡ out.old ++ quoted text.now) }
{
    out.push(b'"')?;
    put_escaped(out, text)?;
    out.push(b'"')
}

// What stands between the quotes.
fn put_escaped(out: &mut Bytes, text: &[u8]) -> Result<(), NoMemory>
    ensures { OnOk result (out.new ≡ out.old ++ flat_map quoted_byte text.now) }
{
    for byte in text {
        put_quoted_byte(out, *byte)?;
    }
    Ok(())
}

// A byte of a quoted text.
fn put_quoted_byte(out: &mut Bytes, byte: u8) -> Result<(), NoMemory>
    ensures { OnOk result (out.new ≡ out.old ++ quoted_byte byte) }
{
    match byte {
        b'"' | b'\\' => out.extend(&[b'\\', byte]),
        0x01..=0x1f | 0x7f => {
            out.extend(b"\\x")?;
            put_hex_byte(out, byte)
        }
        _ => out.push(byte),
    }
}

/// Two hexadecimal digits for each byte.
pub(crate) fn put_hex(out: &mut Bytes, bytes: &[u8]) -> Result<(), NoMemory>
    ensures { OnOk result (out.new ≡ out.old ++ flat_map hex_of bytes.now) }
{
    for byte in bytes {
        put_hex_byte(out, *byte)?;
    }
    Ok(())
}

fn put_hex_byte(out: &mut Bytes, byte: u8) -> Result<(), NoMemory>
    ensures { OnOk result (out.new ≡ out.old ++ hex_of byte) }
{
    out.extend(&[hex_digit(byte / 16), hex_digit(byte % 16)])
}

fn hex_digit(digit: u8) -> u8
    requires { digit < 16 }
    ensures { result ≡ digit_char digit }
{
    if digit < 10 {
        b'0' + digit
    } else {
        b'a' + (digit - 10)
    }
}
