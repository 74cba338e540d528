ghost use Rattle.std.specs.Prelude.{◌≡◌, [], ◌∷◌, ◌++◌, ◌+◌, ◌≤◌, length, take, drop, IfOk, OnOk, OnErr};

use crate::no_memory::NoMemory;
use std::alloc::Global;
use std::marker::Model;

/// A list of bytes that grows at its end. Contracts see the list. Places count from 0.
#[derive(Debug, Drop)]
pub struct Bytes {
    items: Vec<u8>,
}

impl Model for Bytes {
    ghost use Rattle.std.specs.Prelude.{List, ℕ};

    ghost Value = { List ℕ };

    ghost view = { λ b. b.items.items };
}

impl Bytes {
    /// No bytes. Takes no memory.
    pub fn new(alloc: Global) -> Bytes
        ensures { result ≡ [] }
    {
        Bytes {
            items: Vec::new(alloc),
        }
    }

    /// No bytes, and memory for so many. `NoMemory` where that is not to be had.
    pub fn with_capacity(alloc: Global, capacity: usize) -> Result<Bytes, NoMemory>
        ensures { IfOk result (λ b. b ≡ []) }
    {
        Ok(Bytes {
            items: Vec::with_capacity(alloc, capacity)?,
        })
    }

    /// Adds one byte at the end. An `Err` changes nothing. `NoMemory` where memory ran out.
    pub fn push(&mut self, byte: u8) -> Result<(), NoMemory>
        ensures ok { OnOk result (self.new ≡ self.old ++ byte ∷ []) }
        ensures err { OnErr result (self.new ≡ self.old) }
    {
        self.items.push(byte)?;
        Ok(())
    }

    /// Adds a piece at the end, all of it or nothing. An `Err` changes nothing. `NoMemory` where memory ran
    /// out.
    pub fn extend(&mut self, piece: &[u8]) -> Result<(), NoMemory>
        ensures ok { OnOk result (self.new ≡ self.old ++ piece.now) }
        ensures err { OnErr result (self.new ≡ self.old) }
    {
        self.items.extend_from_slice(piece)?;
        Ok(())
    }

    /// How many bytes.
    pub fn len(&self) -> usize
        ensures { result ≡ length self.now }
    {
        self.items.len()
    }

    /// Puts a piece at a place, over as many bytes that stand there. The piece has to end within the bytes,
    /// so their number stays. Takes no memory.
    pub fn overwrite(&mut self, place: usize, piece: &[u8])
        requires { place + length piece.now ≤ length self.old }
        ensures { self.new ≡ take place self.old ++ piece.now ++ drop (place + length piece.now) self.old }
    {
        self.items[place..place + piece.len()].copy_from_slice(piece);
    }

    // What holds the bytes' memory, for calls that build a piece before they add it.
    pub(crate) fn allocator(&self) -> Global {
        *self.items.allocator()
    }

    /// Removes every byte, and keeps the memory.
    pub fn clear(&mut self)
        ensures { self.new ≡ [] }
    {
        self.items.clear();
    }

    /// The bytes, in their order.
    pub fn as_slice(&self) -> &[u8]
        ensures { result.now ≡ self.now }
    {
        self.items.as_slice()
    }
}
