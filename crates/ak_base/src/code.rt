ghost use Rattle.std.specs.Prelude.{◌≡◌, ◌++◌, ◌∷◌, ◌<◌, [], ℕ, IfSome, IfNone, OnOk, OnErr, length, codes};
ghost use Rattle.std.specs.Char.{digit_char};
ghost use Rattle.ak_base.specs.Code as code;

use crate::bytes::Bytes;
use crate::no_memory::NoMemory;

/// A type or command code: four bytes, the first one highest. The letters of a code are its bytes. (The Be
/// Book, The Application Kit, BMessage: what; Scripting.)
#[derive(Clone, Copy, Debug, PartialEq, Eq)]
pub struct Code(pub u32);

impl Code {
    /// `'PGET'`: the command get. (BeOS: B_GET_PROPERTY.)
    pub const GET: Code = Code(0x5047_4554);
    /// `'PSET'`: the command set. (BeOS: B_SET_PROPERTY.)
    pub const SET: Code = Code(0x5053_4554);
    /// `'PCNT'`: the command count. (BeOS: B_COUNT_PROPERTIES.)
    pub const COUNT: Code = Code(0x5043_4E54);
    /// `'PCRT'`: the command create. (BeOS: B_CREATE_PROPERTY.)
    pub const CREATE: Code = Code(0x5043_5254);
    /// `'PDEL'`: the command delete. (BeOS: B_DELETE_PROPERTY.)
    pub const DELETE: Code = Code(0x5044_454C);
    /// `'PEXE'`: execute, which has a name and no more: it is no command on properties. (BeOS:
    /// B_EXECUTE_PROPERTY.)
    pub const EXECUTE: Code = Code(0x5045_5845);
    /// `'SUIT'`: asks a handler for its suites. (BeOS: B_GET_SUPPORTED_SUITES.)
    pub const SUITES: Code = Code(0x5355_4954);
    /// `'RPLY'`: a reply. (BeOS: B_REPLY.)
    pub const REPLY: Code = Code(0x5250_4C59);
    /// `'NONE'`: that there is no reply. (BeOS: B_NO_REPLY.)
    pub const NO_REPLY: Code = Code(0x4E4F_4E45);
    /// `'MNOT'`: that a message was not understood. (BeOS: B_MESSAGE_NOT_UNDERSTOOD.)
    pub const NOT_UNDERSTOOD: Code = Code(0x4D4E_4F54);
    /// `'_QRQ'`: asks a looper to end. (BeOS: B_QUIT_REQUESTED.)
    pub const QUIT_REQUESTED: Code = Code(0x5F51_5251);
    /// `'_ARG'`: that arguments were received. (BeOS: B_ARGV_RECEIVED.)
    pub const ARGV_RECEIVED: Code = Code(0x5F41_5247);
    /// `'_RTR'`: that an application is ready to run. (BeOS: B_READY_TO_RUN.)
    pub const READY_TO_RUN: Code = Code(0x5F52_5452);

    /// Adds the code's printed form. Where each of its bytes is from 0x20 to 0x7E, and none is `'` or `\`,
    /// they stand between `'`, as `'PGET'`. Any other code is `0x` and eight hexadecimal digits in lower
    /// case. An `Err` changes nothing. `NoMemory` where memory ran out.
    #[tactic(auto, unfolding(crate::specs::Code::code_text))]
    pub fn print(&self, out: &mut Bytes) -> Result<(), NoMemory>
        ensures ok { OnOk result (out.new ≡ out.old ++ code.code_text self.now.0) }
        ensures err { OnErr result (out.new ≡ out.old) }
    {
        let bytes = self.0.to_be_bytes();
        if may_all_be_quoted(&bytes) {
            out.extend(&quoted(bytes))
        } else {
            out.extend(&hex(bytes))
        }
    }

    /// The code that the bytes are a text of. Each code is read from its eight digits after `0x`, and one
    /// whose bytes may stand between quotes from these too. None where the bytes are no text of a code. Takes
    /// no memory.
    pub fn read(word: &[u8]) -> Option<Code>
        ensures found { IfSome result (λ c. code.IsCodeText word.now c.0) }
        ensures none { IfNone result ((n : ℕ) → code.IsCodeText word.now n → ⊥) }
    {
        match word.len() {
            6 => read_quoted(word),
            10 => read_hex(word),
            _ => None,
        }
    }
}

fn may_be_quoted(b: u8) -> bool
    ensures { result ≡ code.may_be_quoted b }
{
    b >= b' ' && b <= b'~' && b != b'\'' && b != b'\\'
}

fn may_all_be_quoted(bytes: &[u8]) -> bool
    ensures { result ≡ code.may_all_be_quoted bytes.now }
{
    bytes.iter().all(|b| may_be_quoted(*b))
}

fn quoted(bytes: [u8; 4]) -> [u8; 6]
    ensures { result ≡ code.quoted bytes }
{
    [b'\'', bytes[0], bytes[1], bytes[2], bytes[3], b'\'']
}

fn hex(bytes: [u8; 4]) -> [u8; 10]
    ensures { result ≡ code.hex bytes }
{
    [
        b'0',
        b'x',
        hex_digit(bytes[0] / 16),
        hex_digit(bytes[0] % 16),
        hex_digit(bytes[1] / 16),
        hex_digit(bytes[1] % 16),
        hex_digit(bytes[2] / 16),
        hex_digit(bytes[2] % 16),
        hex_digit(bytes[3] / 16),
        hex_digit(bytes[3] % 16),
    ]
}

fn hex_digit(d: u8) -> u8
    requires { d < 16 }
    ensures { result ≡ digit_char d }
{
    if d < 10 { b'0' + d } else { b'a' + (d - 10) }
}

// The code whose bytes stand between quotes.
fn read_quoted(word: &[u8]) -> Option<Code>
    requires { length word.now ≡ 6 }
    ensures found { IfSome result (λ c. code.IsCodeText word.now c.0) }
    ensures none { IfNone result ((n : ℕ) → code.IsCodeText word.now n → ⊥) }
{
    if word[0] != b'\'' || word[5] != b'\'' || !may_all_be_quoted(&word[1..5]) {
        return None;
    }
    Some(Code(u32::from_be_bytes([word[1], word[2], word[3], word[4]])))
}

// The code whose digits stand after `0x`.
fn read_hex(word: &[u8]) -> Option<Code>
    requires { length word.now ≡ 10 }
    ensures found { IfSome result (λ c. code.IsCodeText word.now c.0) }
    ensures none { IfNone result ((n : ℕ) → code.IsCodeText word.now n → ⊥) }
{
    if word[0] != b'0' || word[1] != b'x' {
        return None;
    }
    let first = read_byte(word[2], word[3])?;
    let second = read_byte(word[4], word[5])?;
    let third = read_byte(word[6], word[7])?;
    let fourth = read_byte(word[8], word[9])?;
    Some(Code(u32::from_be_bytes([first, second, third, fourth])))
}

// The byte that two hexadecimal digits write.
fn read_byte(high: u8, low: u8) -> Option<u8>
    ensures found { IfSome result (λ b. (high ∷ low ∷ []) ≡ code.hex_of b) }
    ensures none { IfNone result ((b : ℕ) → b < 256 → (high ∷ low ∷ []) ≡ code.hex_of b → ⊥) }
{
    Some(16 * hex_value(high)? + hex_value(low)?)
}

fn hex_value(digit: u8) -> Option<u8>
    ensures found { IfSome result (λ d. (d < 16) × (digit ≡ digit_char d)) }
    ensures none { IfNone result ((d : ℕ) → d < 16 → digit ≡ digit_char d → ⊥) }
{
    match digit {
        b'0'..=b'9' => Some(digit - b'0'),
        b'a'..=b'f' => Some(digit - b'a' + 10),
        _ => None,
    }
}

/// A text is read as one code.
pub fn one_code_text()
    ensures { code.OneCodeText }
{}

/// Whatever `print` adds is read as the code that was printed.
pub fn printed_codes_are_read()
    ensures { code.PrintedCodesAreRead }
{}

/// Each named code is the number of its four letters, the first one highest.
pub fn codes_are_named()
    ensures get { Code.GET.0 ≡ code.code_of (codes "PGET") }
    ensures set { Code.SET.0 ≡ code.code_of (codes "PSET") }
    ensures count { Code.COUNT.0 ≡ code.code_of (codes "PCNT") }
    ensures create { Code.CREATE.0 ≡ code.code_of (codes "PCRT") }
    ensures delete { Code.DELETE.0 ≡ code.code_of (codes "PDEL") }
    ensures execute { Code.EXECUTE.0 ≡ code.code_of (codes "PEXE") }
    ensures suites { Code.SUITES.0 ≡ code.code_of (codes "SUIT") }
    ensures reply { Code.REPLY.0 ≡ code.code_of (codes "RPLY") }
    ensures no_reply { Code.NO_REPLY.0 ≡ code.code_of (codes "NONE") }
    ensures not_understood { Code.NOT_UNDERSTOOD.0 ≡ code.code_of (codes "MNOT") }
    ensures quit_requested { Code.QUIT_REQUESTED.0 ≡ code.code_of (codes "_QRQ") }
    ensures argv_received { Code.ARGV_RECEIVED.0 ≡ code.code_of (codes "_ARG") }
    ensures ready_to_run { Code.READY_TO_RUN.0 ≡ code.code_of (codes "_RTR") }
{}
