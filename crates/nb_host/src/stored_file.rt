//! One file of a host in memory, and what it keeps for a crash.

ghost use Rattle.std.specs.Prelude.{◌≡◌, ℕ, ◌+◌, ◌<◌, ◌≤◌, ◌-◌, List, [], ◌++◌, length, take, drop, replicate, reverse, OnOk, OnErr, IfOk, Some};
ghost use Rattle.nb_host.specs.Disk.{synced_file, written_file, cut_file, left_file, filled_byte, is_unsynced};
ghost use Rattle.nb_host.specs.Image.{overwritten};
ghost use Rattle.nb_host.specs.declared.outcome.Outcome.TheVariants.{Lost, Filled};

use crate::PLACE_LIMIT;
use crate::span::Span;
use nb_model::NoMemory;
use std::alloc::Global;

/// A file's bytes as they read, and what changed since the last sync.
#[derive(Drop)]
pub struct StoredFile {
    pub number: u64,
    alloc: Global,
    bytes: Vec<u8>,
    /// None where the file wasn't changed since then.
    changes: Option<Changes>,
}

/// What a crash may make of a file that was changed since the last sync.
#[derive(Drop)]
pub struct Changes {
    /// Its bytes at that sync.
    pub base: Vec<u8>,
    /// Its least length since then, in bytes.
    pub least: u64,
    /// Its greatest length since then, in bytes.
    pub greatest: u64,
    /// The ranges that are unsynced, the oldest first.
    pub unsynced: Vec<Span>,
    /// What a crash that fills is to leave of the file, once that was made ready.
    pub filled: Vec<u8>,
}

impl StoredFile {
    ghost use Rattle.nb_host.specs.Files.{disk_file_of, changed_file, filled_of};

    /// A file that has no bytes. Takes no memory.
    pub fn new(alloc: Global, number: u64) -> Self
        ensures file { disk_file_of result ≡ synced_file [] }
        ensures number { result.number ≡ number }
    {
        StoredFile {
            number,
            alloc,
            bytes: Vec::new(alloc),
            changes: None,
        }
    }

    /// Its bytes as they read.
    pub fn bytes(&self) -> &[u8]
        ensures { result.now ≡ (disk_file_of self.now).reads }
    {
        self.bytes.as_slice()
    }

    /// Makes these its bytes, durable.
    pub fn place(&mut self, bytes: Vec<u8>)
        ensures file { disk_file_of self.new ≡ synced_file bytes.items }
        ensures number { self.new.number ≡ self.old.number }
    {
        self.bytes = bytes;
        self.changes = None;
    }

    /// Makes what reads durable.
    pub fn sync(&mut self)
        ensures file { disk_file_of self.new ≡ synced_file (disk_file_of self.old).reads }
        ensures number { self.new.number ≡ self.old.number }
    {
        self.changes = None;
    }

    /// Writes the first `done` of the bytes at an offset, in bytes, behind zeros where that lies past the
    /// end. The range of all the bytes counts as written.
    pub fn write(&mut self, at: u64, bytes: &[u8], done: usize) -> Result<(), NoMemory>
        requires offset { at + length bytes.now < PLACE_LIMIT }
        requires part { done ≤ length bytes.now }
        ensures ok { OnOk result (disk_file_of self.new
            ≡ written_file at bytes.now done (disk_file_of self.old)) }
        ensures err { OnErr result (disk_file_of self.new ≡ disk_file_of self.old) }
        ensures number { self.new.number ≡ self.old.number }
    {
        if bytes.is_empty() {
            return Ok(());
        }
        let mut changes = self.take_changes()?;
        let answer = changes.write(&mut self.bytes, at, bytes, done);
        self.changes = Some(changes);
        answer
    }

    /// Cuts the file off behind its first bytes, so many.
    pub fn cut(&mut self, len: u64) -> Result<(), NoMemory>
        ensures ok { OnOk result (disk_file_of self.new ≡ cut_file len (disk_file_of self.old)) }
        ensures err { OnErr result (disk_file_of self.new ≡ disk_file_of self.old) }
        ensures number { self.new.number ≡ self.old.number }
    {
        let mut changes = self.take_changes()?;
        let answer = changes.cut(&mut self.bytes, len);
        self.changes = Some(changes);
        answer
    }

    /// Makes ready what a crash that fills with this byte leaves of the file.
    pub fn prepare(&mut self, filler: u8) -> Result<(), NoMemory>
        ensures ok { OnOk result (filled_of self.new ≡ left_file (Filled filler) (disk_file_of self.old)) }
        ensures same { disk_file_of self.new ≡ disk_file_of self.old }
        ensures number { self.new.number ≡ self.old.number }
    {
        if let Some(changes) = &mut self.changes {
            changes.filled = changes.filled_with(self.alloc, filler)?;
        }
        Ok(())
    }

    /// Makes what was made ready its bytes, durable.
    pub fn fill(&mut self)
        ensures file { disk_file_of self.new ≡ synced_file (filled_of self.old) }
        ensures number { self.new.number ≡ self.old.number }
    {
        let changes = self.changes.take();
        if let Some(changes) = changes {
            self.bytes = changes.filled;
        }
    }

    /// Goes back to the bytes of the last sync.
    pub fn lose(&mut self)
        ensures file { disk_file_of self.new ≡ synced_file (left_file Lost (disk_file_of self.old)) }
        ensures number { self.new.number ≡ self.old.number }
    {
        let changes = self.changes.take();
        if let Some(changes) = changes {
            self.bytes = changes.base;
        }
    }

    // What changed since the last sync, taken out to be put back. It may have been nothing yet.
    fn take_changes(&mut self) -> Result<Changes, NoMemory>
        ensures ok { IfOk result (λ changes. changed_file self.new.bytes.items (Some changes)
            ≡ disk_file_of self.old) }
        ensures err { OnErr result (self.new ≡ self.old) }
        ensures number { self.new.number ≡ self.old.number }
        ensures bytes { self.new.bytes ≡ self.old.bytes }
    {
        if let Some(changes) = self.changes.take() {
            return Ok(changes);
        }
        let base = self.bytes.clone()?;
        let len = base.len() as u64;
        Ok(Changes {
            base,
            least: len,
            greatest: len,
            unsynced: Vec::new(self.alloc),
            filled: Vec::new(self.alloc),
        })
    }
}

impl Changes {
    ghost use Rattle.nb_host.specs.Files.{changed_file};

    // Writes into the file's bytes, which has some bytes to write.
    fn write(
        &mut self,
        file: &mut Vec<u8>,
        at: u64,
        bytes: &[u8],
        done: usize,
    ) -> Result<(), NoMemory>
        requires some { 0 < length bytes.now }
        requires offset { at + length bytes.now < PLACE_LIMIT }
        requires part { done ≤ length bytes.now }
        ensures ok { OnOk result (changed_file file.new.items (Some self.new)
            ≡ written_file at bytes.now done (changed_file file.old.items (Some self.old))) }
        ensures err { OnErr result (changed_file file.new.items (Some self.new)
            ≡ changed_file file.old.items (Some self.old)) }
    {
        let from = at.min(file.len() as u64);
        let end = at + bytes.len() as u64;
        self.unsynced.push(Span { from, end })?;
        let answer = write(file, at as usize, &bytes[..done]);
        if answer.is_err() {
            let _ = self.unsynced.pop();
            return answer;
        }
        self.greatest = self.greatest.max(end);
        answer
    }

    // Cuts the file's bytes off.
    fn cut(&mut self, file: &mut Vec<u8>, len: u64) -> Result<(), NoMemory>
        ensures ok { OnOk result (changed_file file.new.items (Some self.new)
            ≡ cut_file len (changed_file file.old.items (Some self.old))) }
        ensures err { OnErr result (changed_file file.new.items (Some self.new)
            ≡ changed_file file.old.items (Some self.old)) }
    {
        let end = file.len() as u64;
        self.unsynced.push(Span { from: len, end })?;
        file.truncate(len as usize);
        self.least = self.least.min(len);
        Ok(())
    }

    // The file of the greatest length, with the filler in each unsynced byte.
    fn filled_with(&self, alloc: Global, filler: u8) -> Result<Vec<u8>, NoMemory>
        ensures { IfOk result (λ filled. (bytes : List ℕ) → filled.items
            ≡ left_file (Filled filler) (changed_file bytes (Some self.now))) }
    {
        let mut filled = Vec::new(alloc);
        for offset in 0..self.greatest {
            filled.push(self.filled_byte(filler, offset))?;
        }
        Ok(filled)
    }

    // A byte of that file.
    #[tactic(auto, using(crate::proofs::StoredFiles::unsynced_reversed))]
    fn filled_byte(&self, filler: u8, offset: u64) -> u8
        ensures { (bytes : List ℕ) → result ≡ filled_byte filler (changed_file bytes (Some self.now)) offset }
    {
        if has_offset(&self.unsynced, offset) {
            return filler;
        }
        match self.base.get(offset as usize) {
            Some(byte) => *byte,
            None => 0,
        }
    }
}

// Whether the offset is in one of the ranges.
fn has_offset(spans: &[Span], offset: u64) -> bool
    ensures { result ≡ is_unsynced spans.now offset }
{
    spans
        .iter()
        .any(|span| span.from <= offset && offset < span.end)
}

// Writes the bytes into the file.
fn write(file: &mut Vec<u8>, at: usize, bytes: &[u8]) -> Result<(), NoMemory>
    requires { at + length bytes.now < PLACE_LIMIT }
    ensures ok { OnOk result (file.new.items ≡ overwritten at bytes.now file.old.items) }
    ensures err { OnErr result (file.new.items ≡ file.old.items) }
{
    if bytes.is_empty() {
        return Ok(());
    }
    overwrite(file, at, bytes)
}

// Writes some bytes into the file. Only its growth can want memory, and comes first.
fn overwrite(file: &mut Vec<u8>, at: usize, bytes: &[u8]) -> Result<(), NoMemory>
    requires some { 0 < length bytes.now }
    requires offset { at + length bytes.now < PLACE_LIMIT }
    ensures ok { OnOk result (file.new.items ≡ overwritten at bytes.now file.old.items) }
    ensures err { OnErr result (file.new.items ≡ file.old.items) }
{
    grow(file, at + bytes.len())?;
    replace(file, at, bytes);
    Ok(())
}

// Puts the bytes at the offset in the file, which reaches to their end.
fn replace(file: &mut [u8], at: usize, bytes: &[u8])
    requires { at + length bytes.now ≤ length file.old }
    ensures { file.new ≡ take at file.old ++ bytes.now ++ drop (at + length bytes.now) file.old }
{
    file[at..at + bytes.len()].copy_from_slice(bytes);
}

// Makes the file so long, by zeros at its end, where it is shorter.
fn grow(file: &mut Vec<u8>, len: usize) -> Result<(), NoMemory>
    ensures ok { OnOk result (file.new.items ≡ file.old.items ++ replicate (len - length file.old.items) 0) }
    ensures err { OnErr result (file.new.items ≡ file.old.items) }
{
    if file.len() < len {
        file.resize(len, 0)?;
    }
    Ok(())
}
