//! What is open at a place of a line: quotes, an escape in them, braces and brackets.

ghost use Rattle.std.specs.Prelude.{◌≡◌, ◌+◌, ◌-◌, ◌<◌, ◌≤◌, ◌^◌, IfSome};
ghost use Rattle.ak_input.specs.Marks as marks;

/// The quotes that a place stands in, and how far an escape in them has come.
#[derive(Clone, Copy, Debug, PartialEq, Eq)]
pub(crate) enum Quotes {
    None,
    Single,
    Double,
    /// Behind `\`.
    Escape,
    /// Behind `\x`.
    Hex,
    /// Behind `\x0`.
    HexZero,
    /// Behind `\x1`.
    HexOne,
    /// Behind `\x7`.
    HexSeven,
}

/// What is open at a place of a line.
#[derive(Clone, Copy, Debug)]
pub(crate) struct Marks {
    pub quotes: Quotes,
    pub braces: u64,
    pub brackets: u64,
}

/// Space and tab part words.
pub(crate) fn is_blank(b: u8) -> bool
    ensures { result ≡ marks.is_blank b }
{
    b == b' ' || b == b'\t'
}

pub(crate) fn is_hex_digit(b: u8) -> bool
    ensures { result ≡ marks.is_hex_digit b }
{
    (b >= b'0' && b <= b'9') || (b >= b'a' && b <= b'f')
}

impl Quotes {
    // What the byte makes of quotes that are open. None where it is no part of an escape.
    fn step(self, b: u8) -> Option<Quotes>
        ensures { result ≡ marks.quoted_step self b }
    {
        match self {
            Quotes::None => Some(Quotes::None),
            Quotes::Single => Some(if b == b'\'' {
                Quotes::None
            } else {
                Quotes::Single
            }),
            Quotes::Double => Some(double_step(b)),
            Quotes::Escape => escape_step(b),
            Quotes::Hex => hex_step(b),
            Quotes::HexZero => escape_ends(is_hex_digit(b) && b != b'0'),
            Quotes::HexOne => escape_ends(is_hex_digit(b)),
            Quotes::HexSeven => escape_ends(b == b'f'),
        }
    }
}

pub(crate) fn double_step(b: u8) -> Quotes
    ensures { result ≡ marks.double_step b }
{
    if b == b'"' {
        Quotes::None
    } else if b == b'\\' {
        Quotes::Escape
    } else {
        Quotes::Double
    }
}

pub(crate) fn escape_step(b: u8) -> Option<Quotes>
    ensures { result ≡ marks.escape_step b }
{
    if b == b'"' || b == b'\\' {
        Some(Quotes::Double)
    } else if b == b'x' {
        Some(Quotes::Hex)
    } else {
        None
    }
}

pub(crate) fn hex_step(b: u8) -> Option<Quotes>
    ensures { result ≡ marks.hex_step b }
{
    if b == b'0' {
        Some(Quotes::HexZero)
    } else if b == b'1' {
        Some(Quotes::HexOne)
    } else if b == b'7' {
        Some(Quotes::HexSeven)
    } else {
        None
    }
}

fn escape_ends(is_right: bool) -> Option<Quotes>
    ensures { result ≡ marks.escape_ends is_right }
{
    if is_right { Some(Quotes::Double) } else { None }
}

impl Marks {
    /// At a word's first byte.
    pub fn start() -> Marks
        ensures { result ≡ marks.start }
    {
        Marks {
            quotes: Quotes::None,
            braces: 0,
            brackets: 0,
        }
    }

    /// Whether nothing is open.
    pub fn is_outside(self) -> bool
        ensures { result ≡ marks.is_outside self }
    {
        self.quotes == Quotes::None && self.braces == 0 && self.brackets == 0
    }

    /// Whether a word ends before this byte.
    pub fn ends_before(self, b: u8) -> bool
        ensures { result ≡ marks.ends_before self b }
    {
        self.is_outside() && (is_blank(b) || b == b'[')
    }

    /// What is open behind this byte. None where it is no part of an escape.
    pub fn step(self, b: u8) -> Option<Marks>
        requires braces { self.braces < 2 ^ 64 - 1 }
        requires brackets { self.brackets < 2 ^ 64 - 1 }
        ensures step { result ≡ marks.step self b }
        ensures braces { IfSome result (λ m. m.braces ≤ self.braces + 1) }
        ensures brackets { IfSome result (λ m. m.brackets ≤ self.brackets + 1) }
    {
        if self.quotes == Quotes::None {
            return Some(self.plain_step(b));
        }
        Some(Marks {
            quotes: self.quotes.step(b)?,
            braces: self.braces,
            brackets: self.brackets,
        })
    }

    // Outside of quotes.
    fn plain_step(self, b: u8) -> Marks
        requires braces { self.braces < 2 ^ 64 - 1 }
        requires brackets { self.brackets < 2 ^ 64 - 1 }
        ensures step { result ≡ marks.plain_step self b }
        ensures braces { result.braces ≤ self.braces + 1 }
        ensures brackets { result.brackets ≤ self.brackets + 1 }
    {
        Marks {
            quotes: opened(b),
            braces: counted(self.braces, b, b'{', b'}'),
            brackets: counted(self.brackets, b, b'[', b']'),
        }
    }
}

// The quotes that the byte opens.
fn opened(b: u8) -> Quotes
    ensures { result ≡ marks.opened b }
{
    if b == b'"' {
        Quotes::Double
    } else if b == b'\'' {
        Quotes::Single
    } else {
        Quotes::None
    }
}

// How many are open behind the byte. One that closes where none is open counts for nothing.
fn counted(count: u64, b: u8, opening: u8, closing: u8) -> u64
    requires { count < 2 ^ 64 - 1 }
    ensures count { result ≡ marks.counted count b opening closing }
    ensures bound { result ≤ count + 1 }
{
    if b == opening {
        count + 1
    } else if b == closing {
        count.saturating_sub(1)
    } else {
        count
    }
}
