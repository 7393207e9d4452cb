//! The files of a host in memory.

ghost use Rattle.std.specs.Prelude.{◌≡◌, ℕ, ◌+◌, ◌<◌, ◌≤◌, ◌==◌, [], length, OnOk, OnErr, IfOk};
ghost use Rattle.std.specs.List.{position_or_len};
ghost use Rattle.nb_host.specs.Disk.{synced_file, written_file, cut_file, left_file, with_change};
ghost use Rattle.nb_host.specs.declared.outcome.Outcome.TheVariants.{Lost, Filled};

use crate::PLACE_LIMIT;
use crate::stored_file::StoredFile;
use nb_model::NoMemory;
use std::alloc::Global;

/// Each file that was written, cut or placed, in that order. One that isn't there has no bytes.
#[derive(Drop)]
pub struct Files {
    alloc: Global,
    list: Vec<StoredFile>,
}

impl Files {
    ghost use Rattle.nb_host.specs.Files.{file_in, KeepsFiles, ready_in};

    /// No files. Takes no memory.
    pub fn new(alloc: Global) -> Self
        ensures { (number : ℕ) → file_in result number ≡ synced_file [] }
    {
        Files {
            alloc,
            list: Vec::new(alloc),
        }
    }

    /// The bytes of a file as they read.
    pub fn bytes(&self, number: u64) -> &[u8]
        ensures { result.now ≡ (file_in self.now number).reads }
    {
        let index = self.find(number);
        if index == self.list.len() {
            return &[];
        }
        self.list[index].bytes()
    }

    /// Gives a file these bytes, durable, in place of those that it had.
    pub fn place(&mut self, number: u64, bytes: &[u8]) -> Result<(), NoMemory>
        ensures ok { OnOk result ((other : ℕ) → file_in self.new other
            ≡ with_change number (λ _. synced_file bytes.now) (file_in self.old) other) }
        ensures err { OnErr result (KeepsFiles self.old self.new) }
    {
        let bytes = bytes.to_vec(self.alloc)?;
        let index = self.slot(number)?;
        self.list[index].place(bytes);
        Ok(())
    }

    /// Writes the first `done` of the bytes into a file at an offset, in bytes, behind zeros where that lies
    /// past its end. The range of all the bytes counts as written.
    pub fn write(&mut self, number: u64, at: u64, bytes: &[u8], done: usize) -> Result<(), NoMemory>
        requires offset { at + length bytes.now < PLACE_LIMIT }
        requires part { done ≤ length bytes.now }
        ensures ok { OnOk result ((other : ℕ) → file_in self.new other
            ≡ with_change number (written_file at bytes.now done) (file_in self.old) other) }
        ensures err { OnErr result (KeepsFiles self.old self.new) }
    {
        let index = self.slot(number)?;
        self.list[index].write(at, bytes, done)
    }

    /// Cuts a file off behind its first bytes, so many.
    pub fn cut(&mut self, number: u64, len: u64) -> Result<(), NoMemory>
        ensures ok { OnOk result ((other : ℕ) → file_in self.new other
            ≡ with_change number (cut_file len) (file_in self.old) other) }
        ensures err { OnErr result (KeepsFiles self.old self.new) }
    {
        let index = self.slot(number)?;
        self.list[index].cut(len)
    }

    /// Makes what reads durable in each file.
    pub fn sync(&mut self)
        ensures { (number : ℕ) → file_in self.new number ≡ synced_file (file_in self.old number).reads }
    {
        for file in self.list.iter_mut() {
            file.sync();
        }
    }

    /// Goes back to the bytes of the last sync in each file.
    pub fn lose(&mut self)
        ensures { (number : ℕ) → file_in self.new number
            ≡ synced_file (left_file Lost (file_in self.old number)) }
    {
        for file in self.list.iter_mut() {
            file.lose();
        }
    }

    /// Makes ready what a crash that fills with this byte leaves of each file.
    pub fn prepare(&mut self, filler: u8) -> Result<(), NoMemory>
        ensures ok { OnOk result ((number : ℕ) → ready_in self.new number
            ≡ synced_file (left_file (Filled filler) (file_in self.old number))) }
        ensures same { KeepsFiles self.old self.new }
    {
        for file in self.list.iter_mut() {
            file.prepare(filler)?;
        }
        Ok(())
    }

    /// Makes what was made ready the bytes of each file, durable.
    pub fn fill(&mut self)
        ensures { (number : ℕ) → file_in self.new number ≡ ready_in self.old number }
    {
        for file in self.list.iter_mut() {
            file.fill();
        }
    }

    // The index of a file, or how many there are where it isn't there.
    fn find(&self, number: u64) -> usize
        ensures index { result ≡ position_or_len (λ file. file.number == number) self.now.list.items }
        ensures within { result ≤ length self.now.list.items }
    {
        for (index, file) in self.list.iter().enumerate() {
            if file.number == number {
                return index;
            }
        }
        self.list.len()
    }

    // The index of a file, which is added without bytes where it isn't there.
    fn slot(&mut self, number: u64) -> Result<usize, NoMemory>
        ensures index { IfOk result (λ index. index
            ≡ position_or_len (λ file. file.number == number) self.new.list.items) }
        ensures within { IfOk result (λ index. index < length self.new.list.items) }
        ensures same { KeepsFiles self.old self.new }
    {
        let index = self.find(number);
        if index == self.list.len() {
            self.list.push(StoredFile::new(self.alloc, number))?;
        }
        Ok(index)
    }
}
