//! What is wanted from outside, told.

use crate::telling::{number, put_address, word};
use crate::values::put_message;
use ak_action::Want;
use ak_base::{AppWord, Bytes, NoMemory};
use ak_message::{Address, Message};

/// Tells the want in a line.
pub(crate) fn tell_want(out: &mut Bytes, want: &Want) -> Result<(), NoMemory> {
    out.extend(b"want")?;
    match want {
        Want::Find(app) => tell_app(out, app)?,
        Want::Post { to, message, back } => {
            tell_sent(out, b"post", to, message)?;
            tell_back(out, back)?;
        }
        Want::Ask { to, message } => tell_sent(out, b"ask", to, message)?,
        Want::Forward { looper, popped } => tell_forward(out, *looper, *popped)?,
        Want::Done => word(out, b"nothing")?,
    }
    out.push(b'\n')
}

fn tell_app(out: &mut Bytes, app: &AppWord) -> Result<(), NoMemory> {
    word(out, b"find")?;
    match app {
        AppWord::Path(text) | AppWord::Signature(text) | AppWord::Name(text) => {
            word(out, text.as_bytes())
        }
        AppWord::Team(team) => number(out, u64::from(*team)),
    }
}

fn tell_sent(out: &mut Bytes, how: &[u8], to: &Address, message: &Message) -> Result<(), NoMemory> {
    word(out, how)?;
    out.push(b' ')?;
    put_address(out, to)?;
    out.push(b' ')?;
    put_message(out, message)
}

// Nothing of none.
fn tell_back(out: &mut Bytes, back: &Option<Address>) -> Result<(), NoMemory> {
    let Some(address) = back else {
        return Ok(());
    };
    out.extend(b" back ")?;
    put_address(out, address)
}

fn tell_forward(out: &mut Bytes, looper: u32, popped: u32) -> Result<(), NoMemory> {
    word(out, b"forward")?;
    number(out, u64::from(looper))?;
    word(out, b"popped")?;
    number(out, u64::from(popped))
}
