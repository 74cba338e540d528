//! What is sent to the loopers that count.

ghost use Rattle.std.specs.Prelude.{◌≡◌, ◌≤◌, true, None, codes, length, IfOk, OnOk};
ghost use Rattle.ak_base.specs.Word.{is_word};
ghost use Rattle.ak_base.specs.declared.app_word.AppWord.TheVariants as word;
ghost use Rattle.ak_flatten.specs.Limits.{flat_limit};
ghost use Rattle.ak_flatten.specs.Spelling.{spelling};
ghost use Rattle.ak_specifier.specs.Current.{specifier_fault};
ghost use Rattle.ak_script.specs.Generated as gen;
ghost use Rattle.ak_script.specs.StatementSeen.{hey_seen};

use crate::statement::Hey;
use ak_base::{AppWord, Code, NoMemory, Text};
use ak_message::{AddFault, At, Message, Specifier};
use ak_specifier::add_specifier;
use std::alloc::Global;

/// `'incr'`: the code on which a looper counts.
pub(crate) const INCR: Code = Code(0x696E_6372);

/// `hey work 'incr' of Looper [PLACE]`
pub(crate) fn incr(alloc: Global, place: u32) -> Result<Hey, NoMemory>
    requires { place ≤ 3 }
    ensures { IfOk result (λ hey. hey_seen hey ≡ gen.incr place) }
{
    let mut message = Message::new(alloc, INCR);
    add(alloc, &mut message, b"Looper", At::Index(place as i32))?;
    hey(alloc, message)
}

/// `hey work get Count of Looper [PLACE]`
pub(crate) fn get_count(alloc: Global, place: u32) -> Result<Hey, NoMemory>
    requires { place ≤ 3 }
    ensures { IfOk result (λ hey. hey_seen hey ≡ gen.get_count place) }
{
    let mut message = Message::new(alloc, Code::GET);
    add(alloc, &mut message, b"Count", At::Direct)?;
    add(alloc, &mut message, b"Looper", At::Index(place as i32))?;
    hey(alloc, message)
}

// Adds a specifier, for which there is room.
fn add(alloc: Global, message: &mut Message, property: &[u8], at: At) -> Result<(), NoMemory>
    requires word { is_word property.now ≡ true }
    requires room { specifier_fault message.old ≡ None }
    ensures { OnOk result (message.new ≡ gen.of_property message.old property.now at) }
{
    let property = Text::from_word(alloc, property)?;
    match add_specifier(alloc, message, Specifier { property, at }) {
        Ok(()) => Ok(()),
        Err(fault) => {
            prove!(matches!(fault, AddFault::NoMemory));
            Err(NoMemory)
        }
    }
}

// What is sent to the application's own looper.
fn hey(alloc: Global, message: Message) -> Result<Hey, NoMemory>
    requires { length (spelling message) ≤ flat_limit }
    ensures { IfOk result (λ hey. hey_seen hey ≡ record { app = word.Name (codes "work"); message = message }) }
{
    let app = AppWord::Name(Text::from_word(alloc, b"work")?);
    Ok(Hey { app, message })
}
