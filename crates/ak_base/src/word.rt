ghost use Rattle.std.specs.Prelude.{◌≡◌};
ghost use Rattle.std.specs.List.{list_all};
ghost use Rattle.ak_base.specs.Word as word;

/// The longest word, in bytes.
pub const WORD_LIMIT: usize = 64;

/// Whether the byte may stand in a word: a letter, a digit or one of `_ - . : /`. Letters are those of ASCII.
pub fn is_word_byte(byte: u8) -> bool
    ensures { result ≡ word.is_word_byte byte }
{
    byte.is_ascii_alphanumeric()
        || byte == b'_'
        || byte == b'-'
        || byte == b'.'
        || byte == b':'
        || byte == b'/'
}

/// Whether the bytes are a word: 1 to 64 of them, each of which may stand in a word.
pub fn is_word(bytes: &[u8]) -> bool
    ensures { result ≡ word.is_word bytes.now }
{
    !bytes.is_empty() && bytes.len() <= WORD_LIMIT && are_word_bytes(bytes)
}

fn are_word_bytes(b: &[u8]) -> bool
    ensures { result ≡ list_all word.is_word_byte b.now }
{
    b.iter().all(|byte| is_word_byte(*byte))
}
