ghost use Rattle.std.specs.Prelude.{◌≡◌, ◌+◌, ◌<◌, ◌≤◌, ◌++◌, ◌∷◌, [], IfOk};

use crate::answer::AnswerWord;
use ak_base::{Items, NoMemory};
use std::alloc::Global;
use std::marker::Model;

/// Words, with room reserved for more. Contracts see the list, and for how many more there is room.
#[derive(Drop)]
pub(crate) struct Words {
    list: Vec<AnswerWord>,
}

impl Model for Words {
    ghost use Rattle.ak_action.specs.Words.{WordsData, words_inside};

    ghost Value = { WordsData };

    ghost view = { words_inside };
}

impl Words {
    /// No words, and room for so many.
    pub(crate) fn with_room(alloc: Global, room: usize) -> Result<Words, NoMemory>
        ensures { IfOk result (λ w. w ≡ record { list = []; room = room }) }
    {
        Ok(Words {
            list: Vec::with_capacity(alloc, room)?,
        })
    }

    /// Adds a word where there is room. Takes no memory.
    pub(crate) fn push(&mut self, word: AnswerWord)
        requires { 0 < self.old.room }
        ensures list { self.new.list ≡ self.old.list ++ word ∷ [] }
        ensures room { self.old.room ≤ self.new.room + 1 }
    {
        self.list.push(word).unwrap();
    }

    /// Takes no memory.
    pub(crate) fn into_items(self) -> Items<AnswerWord>
        ensures { result ≡ self.list }
    {
        Items::from_vec(self.list)
    }

    /// What further words would be kept with.
    pub(crate) fn allocator(&self) -> Global {
        *self.list.allocator()
    }
}
