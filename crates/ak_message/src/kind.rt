ghost use Rattle.std.specs.Prelude.{◌≡◌};
ghost use Rattle.ak_message.specs.Kind.{code_of_kind, kind_of_code};

use ak_base::Code;

/// What a value is. (The Be Book, The Support Kit: type codes.)
#[derive(Clone, Copy, Debug, PartialEq, Eq)]
pub enum Kind {
    /// `BOOL`: true or false.
    Bool,
    /// `BYTE`: a whole number from -2^7 to 2^7 - 1.
    Int8,
    /// `SHRT`: from -2^15 to 2^15 - 1.
    Int16,
    /// `LONG`: from -2^31 to 2^31 - 1.
    Int32,
    /// `LLNG`: from -2^63 to 2^63 - 1.
    Int64,
    /// `UBYT`: from 0 to 2^8 - 1.
    UInt8,
    /// `USHT`: from 0 to 2^16 - 1.
    UInt16,
    /// `ULNG`: from 0 to 2^32 - 1.
    UInt32,
    /// `ULLG`: from 0 to 2^64 - 1.
    UInt64,
    /// `CSTR`: UTF-8 without a zero byte, at most 1,024 bytes.
    Text,
    /// `MSGG`: a message.
    Message,
    /// `MSNG`: an address.
    Messenger,
    /// `RAWT`: at most 1,024 bytes of any kind.
    Raw,
}

impl Kind {
    /// The type code, after BeOS: `LONG` for `Int32`.
    pub fn code(&self) -> Code
        ensures { result.0 ≡ code_of_kind self.now }
    {
        let letters = match self {
            Kind::Bool => b"BOOL",
            Kind::Int8 => b"BYTE",
            Kind::Int16 => b"SHRT",
            Kind::Int32 => b"LONG",
            Kind::Int64 => b"LLNG",
            Kind::UInt8 => b"UBYT",
            Kind::UInt16 => b"USHT",
            Kind::UInt32 => b"ULNG",
            Kind::UInt64 => b"ULLG",
            Kind::Text => b"CSTR",
            Kind::Message => b"MSGG",
            Kind::Messenger => b"MSNG",
            Kind::Raw => b"RAWT",
        };
        Code(u32::from_be_bytes(*letters))
    }

    /// The kind of that type code. None where no kind has it.
    pub fn from_code(code: Code) -> Option<Kind>
        ensures { result ≡ kind_of_code code.0 }
    {
        match code.0 {
            0x424f_4f4c => Some(Kind::Bool),
            0x4259_5445 => Some(Kind::Int8),
            0x5348_5254 => Some(Kind::Int16),
            0x4c4f_4e47 => Some(Kind::Int32),
            0x4c4c_4e47 => Some(Kind::Int64),
            0x5542_5954 => Some(Kind::UInt8),
            0x5553_4854 => Some(Kind::UInt16),
            0x554c_4e47 => Some(Kind::UInt32),
            0x554c_4c47 => Some(Kind::UInt64),
            0x4353_5452 => Some(Kind::Text),
            0x4d53_4747 => Some(Kind::Message),
            0x4d53_4e47 => Some(Kind::Messenger),
            0x5241_5754 => Some(Kind::Raw),
            _ => None,
        }
    }
}
