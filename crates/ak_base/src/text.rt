ghost use Rattle.std.specs.Prelude.{◌≡◌, ◌<◌, ◌≤◌, ◌↔◌, true, [], length, Contains, IsUtf8, IfOk, IsErrOf};
ghost use Rattle.ak_base.specs.declared.text.TheConstants.{TEXT_LIMIT};
ghost use Rattle.ak_base.specs.Limits.{text_limit};
ghost use Rattle.ak_base.specs.Word.{is_word};

use crate::no_memory::NoMemory;
use std::alloc::{AllocError, Global};
use std::error::Error;
use std::fmt;
use std::marker::Model;

/// The longest text, in bytes.
pub const TEXT_LIMIT: usize = 1024;

/// Why bytes are no text, or could not be kept.
#[derive(Clone, Copy, Debug, PartialEq, Eq)]
pub enum TextFault {
    /// Over 1,024 bytes.
    TooLong,
    /// They are not UTF-8.
    NotUtf8,
    /// A zero byte is among them.
    Zero,
    /// Memory ran out.
    NoMemory,
}

impl fmt::Display for TextFault {
    fn fmt<W: fmt::Write>(&self, f: &mut fmt::Formatter<W>) -> fmt::Result {
        match self {
            TextFault::TooLong => f.write_str("over 1,024 bytes"),
            TextFault::NotUtf8 => f.write_str("the bytes are not UTF-8"),
            TextFault::Zero => f.write_str("a zero byte is among the bytes"),
            TextFault::NoMemory => f.write_str("no memory"),
        }
    }
}

impl Error for TextFault {}

impl From<AllocError> for TextFault {
    ghost use Rattle.std.specs.Prelude.{◌≡◌};
    ghost use Rattle.ak_base.specs.declared.text.TextFault.TheVariants.{NoMemory};

    ghost from_gives = { λ _ e. e ≡ NoMemory };

    fn from(_error: AllocError) -> TextFault {
        TextFault::NoMemory
    }
}

/// UTF-8 without a zero byte, at most 1,024 bytes. Contracts see its bytes.
#[derive(Debug, Drop)]
pub struct Text {
    text: String,
}

impl Model for Text {
    ghost use Rattle.std.specs.Prelude.{List, ℕ, string_bytes};
    ghost use Rattle.ak_base.specs.Text.{IsTextBytes};

    ghost Value = { List ℕ };

    ghost view = { λ t. string_bytes t.text };

    ghost invariant = { λ t. IsTextBytes (string_bytes t.text) };
}

impl Text {
    ghost use Rattle.ak_base.specs.Text.{IsTextBytes, IsText};

    /// The text of these bytes. The faults are tested in the order of `TextFault`. The bytes are copied.
    pub fn from_bytes(alloc: Global, bytes: &[u8]) -> Result<Text, TextFault>
        ensures ok { IfOk result (λ t. t ≡ bytes.now) }
        ensures is_text { IfOk result (λ _. IsText bytes.now) }
        ensures limit { TEXT_LIMIT ≡ text_limit }
        ensures too_long { IsErrOf result TextFault.TooLong ↔ (TEXT_LIMIT < length bytes.now) }
        ensures not_utf8 { IsErrOf result TextFault.NotUtf8 ↔ ((length bytes.now ≤ TEXT_LIMIT) × (¬ (IsUtf8 bytes.now))) }
        ensures zero { IsErrOf result TextFault.Zero
            ↔ ((length bytes.now ≤ TEXT_LIMIT) × IsUtf8 bytes.now × Contains bytes.now 0) }
    {
        if bytes.len() > TEXT_LIMIT {
            return Err(TextFault::TooLong);
        }
        let Ok(text) = str::from_utf8(bytes) else {
            return Err(TextFault::NotUtf8);
        };
        if bytes.contains(&0) {
            return Err(TextFault::Zero);
        }
        Ok(Text {
            text: String::from_str(alloc, text)?,
        })
    }

    /// The text of no bytes. `NoMemory` where memory ran out.
    pub fn empty(alloc: Global) -> Result<Text, NoMemory>
        ensures { IfOk result (λ t. t ≡ []) }
    {
        match Text::from_bytes(alloc, b"") {
            Ok(text) => Ok(text),
            Err(_) => Err(NoMemory),
        }
    }

    /// The text of a word. Each word is a text, so only memory can be missing. The bytes are copied.
    pub fn from_word(alloc: Global, word: &[u8]) -> Result<Text, NoMemory>
        requires { is_word word.now ≡ true }
        ensures { IfOk result (λ t. t ≡ word.now) }
    {
        match Text::from_bytes(alloc, word) {
            Ok(text) => Ok(text),
            Err(fault) => {
                prove!(matches!(fault, TextFault::NoMemory));
                Err(NoMemory)
            }
        }
    }

    /// An equal text. `NoMemory` where memory ran out.
    pub fn try_clone(&self) -> Result<Text, NoMemory>
        ensures { IfOk result (λ t. t ≡ self.now) }
    {
        Ok(Text {
            text: self.text.clone()?,
        })
    }

    /// The bytes of the text, at most 1,024.
    pub fn as_bytes(&self) -> &[u8]
        ensures value { result.now ≡ self.now }
        ensures is_text { IsText self.now }
    {
        self.text.as_str().as_bytes()
    }

    /// The text itself.
    pub fn as_str(&self) -> &str
        ensures value { result.now ≡ self.now }
    {
        self.text.as_str()
    }
}
