ghost use Rattle.std.specs.Prelude.{◌≡◌, ◌∷◌, ◌<◌, ◌==◌, length, map, IfOk};
ghost use Rattle.std.specs.List.{position};
ghost use Rattle.rows.specs.Lines.{line_seen, lines_of, numbered};

use ak_base::NoMemory;
use std::alloc::Global;

/// A line of a file.
#[derive(Clone, Copy, Debug)]
pub struct FileLine<'a> {
    /// Its number, counted from 1.
    pub number: u64,
    /// Its bytes, without the LF at its end.
    pub text: &'a [u8],
}

/// The lines of the file in order. The last one may end without LF. `NoMemory` where memory ran out.
pub fn file_lines(alloc: Global, file: &[u8]) -> Result<Vec<FileLine<'_>>, NoMemory>
    ensures { IfOk result (λ lines. map line_seen lines.items ≡ numbered 1 (lines_of file.now)) }
{
    let mut lines = Vec::new(alloc);
    let mut rest = file;
    while !rest.is_empty() {
        let (text, behind) = first_line(rest);
        let number = lines.len() as u64 + 1;
        lines.push(FileLine { number, text })?;
        rest = behind;
    }
    Ok(lines)
}

// Where the first LF stands.
fn line_end(text: &[u8]) -> Option<usize>
    ensures { result ≡ position (λ b. b == 10) text.now }
{
    text.iter().position(|b| *b == b'\n')
}

// The first line, and what stands behind it.
#[tactic(auto, using(crate::proofs::Parting::parted))]
fn first_line(text: &[u8]) -> (&[u8], &[u8])
    requires { 0 < length text.now }
    ensures lines { lines_of text.now ≡ result.0.now ∷ lines_of result.1.now }
    ensures shorter { length result.1.now < length text.now }
{
    match line_end(text) {
        Some(end) => (&text[..end], &text[end + 1..]),
        None => (text, &[]),
    }
}
