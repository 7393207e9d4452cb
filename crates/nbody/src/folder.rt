//! The files of the current folder. Each call that fails says why, and counts nothing.

ghost use Rattle.std.specs.Prelude.{◌≡◌, ◌≢◌, ℕ, ◌+◌, ◌<◌, ◌≤◌, true, false, IfOk, OnOk, OnErr, Err, Contains, [], length};

use crate::names::is_name;
use crate::open_files::{FileError, OpenFiles, open_to_read};
use nb_host::PLACE_LIMIT;
use std::fs::{File, read_dir};
use std::io;
use std::io::ErrorKind;
use std::os::unix::fs::FileExt;
use std::rt::Files;

/// The current folder. Its clauses say which files are due to be synced: those that were written or cut since
/// the last sync that succeeded, and all of the program's until one has.
#[derive(Drop)]
pub struct Folder<R> {
    rt: R,
    open_files: OpenFiles,
    /// The files that were written or cut since the last sync that succeeded.
    unsynced: Vec<u64>,
    /// Whether a sync has succeeded. Before that an earlier process may have left any file unsynced.
    was_synced: bool,
}

impl<R: Files<File = File> + AllocGlobal + Clone + Drop> Folder<R> {
    /// The folder that the process runs in. It opens nothing yet, and its first sync takes all of the program's
    /// files.
    pub fn new(rt: R) -> Self
        ensures unsynced { result.unsynced.items ≡ [] }
        ensures was_synced { result.was_synced ≡ false }
    {
        let open_files = OpenFiles::new(rt.alloc());
        let unsynced = Vec::new(rt.alloc());
        Folder {
            rt,
            open_files,
            unsynced,
            was_synced: false,
        }
    }

    /// The file's length in bytes: 0 for one that isn't there.
    pub fn len(&mut self, number: u64) -> Result<u64, FileError>
        ensures unsynced { self.new.unsynced.items ≡ self.old.unsynced.items }
        ensures was_synced { self.new.was_synced ≡ self.old.was_synced }
    {
        let Some(open) = self.open_files.reader(&self.rt, number)? else {
            return Ok(0);
        };
        let len = open.file.metadata()?.len();
        self.open_files.keep(open);
        Ok(len)
    }

    /// Fills `into` from the place on, and answers how many bytes it gave.
    pub fn read_at(&mut self, number: u64, at: u64, into: &mut [u8]) -> Result<usize, FileError>
        requires { at + length into.old < PLACE_LIMIT }
        ensures count { IfOk result (λ n. n ≤ length into.old) }
        ensures unsynced { self.new.unsynced.items ≡ self.old.unsynced.items }
        ensures was_synced { self.new.was_synced ≡ self.old.was_synced }
    {
        let Some(open) = self.open_files.reader(&self.rt, number)? else {
            return Ok(0);
        };
        let count = fill(&open.file, at, into)?;
        self.open_files.keep(open);
        Ok(count)
    }

    /// Puts the bytes at the place.
    pub fn write_at(&mut self, number: u64, at: u64, bytes: &[u8]) -> Result<(), FileError>
        ensures marked { bytes.now ≢ [] → result ≢ Err FileError.NoMemory
            → Contains self.new.unsynced.items number }
        ensures earlier { (other : ℕ) → Contains self.old.unsynced.items other
            → Contains self.new.unsynced.items other }
        ensures was_synced { self.new.was_synced ≡ self.old.was_synced }
    {
        if bytes.is_empty() {
            return Ok(());
        }
        self.mark_unsynced(number)?;
        let open = self.open_files.writer(&self.rt, number)?;
        open.file.write_all_at(bytes, at)?;
        self.open_files.keep(open);
        Ok(())
    }

    /// Makes the file `len` bytes long where it is longer.
    pub fn cut(&mut self, number: u64, len: u64) -> Result<(), FileError>
        ensures marked { result ≢ Err FileError.NoMemory → Contains self.new.unsynced.items number }
        ensures earlier { (other : ℕ) → Contains self.old.unsynced.items other
            → Contains self.new.unsynced.items other }
        ensures was_synced { self.new.was_synced ≡ self.old.was_synced }
    {
        self.mark_unsynced(number)?;
        if self.len(number)? <= len {
            return Ok(());
        }
        let open = self.open_files.writer(&self.rt, number)?;
        open.file.set_len(len)?;
        self.open_files.keep(open);
        Ok(())
    }

    /// Makes the files and the folder durable.
    pub fn sync(&mut self) -> Result<(), FileError>
        ensures synced { OnOk result (self.new.unsynced.items ≡ []) }
        ensures first { OnOk result (self.new.was_synced ≡ true) }
        ensures unsynced { OnErr result (self.new.unsynced.items ≡ self.old.unsynced.items) }
        ensures was_synced { OnErr result (self.new.was_synced ≡ self.old.was_synced) }
    {
        if !self.was_synced {
            sync_program_files(&self.rt)?;
        }
        for number in self.unsynced.iter() {
            sync_file(&self.rt, &mut self.open_files, *number)?;
        }
        File::open(&self.rt, ".")?.sync_all()?;
        self.unsynced.clear();
        self.was_synced = true;
        Ok(())
    }

    /// Has the next sync take the file.
    fn mark_unsynced(&mut self, number: u64) -> Result<(), FileError>
        ensures marked { OnOk result (Contains self.new.unsynced.items number) }
        ensures no_memory { OnErr result (result ≡ Err FileError.NoMemory) }
        ensures earlier { (other : ℕ) → Contains self.old.unsynced.items other
            → Contains self.new.unsynced.items other }
        ensures was_synced { self.new.was_synced ≡ self.old.was_synced }
    {
        if !self.unsynced.contains(&number) {
            self.unsynced.push(number)?;
        }
        Ok(())
    }
}

/// Reads from the place on until `into` is full or the file ends. A read that a signal interrupts is tried
/// again.
fn fill(file: &File, at: u64, into: &mut [u8]) -> io::Result<usize>
    requires { at + length into.old < PLACE_LIMIT }
    ensures { IfOk result (λ n. n ≤ length into.old) }
{
    let mut count = 0;
    for _ in 0..u64::MAX {
        if count == into.len() {
            return Ok(count);
        }
        match file.read_at(&mut into[count..], at + count as u64) {
            Ok(0) => return Ok(count),
            Ok(n) => count += n,
            Err(e) if e.kind() == ErrorKind::Interrupted => {}
            Err(e) => return Err(e),
        }
    }
    Err(io::Error::from(ErrorKind::Interrupted))
}

/// Syncs one file, where it is there.
fn sync_file<R: Files<File = File> + AllocGlobal>(
    rt: &R,
    open_files: &mut OpenFiles,
    number: u64,
) -> Result<(), FileError> {
    let Some(open) = open_files.reader(rt, number)? else {
        return Ok(());
    };
    open.file.sync_all()?;
    open_files.keep(open);
    Ok(())
}

/// Syncs every file of the folder that has a name of the program's.
fn sync_program_files<R: Files<File = File> + AllocGlobal + Clone + Drop>(
    rt: &R,
) -> Result<(), FileError> {
    let entries = match read_dir(rt, ".") {
        Ok(entries) => entries,
        Err(e) => return Err(listing_error(e)),
    };
    for entry in entries {
        match entry {
            Ok(entry) => sync_program_file(rt, entry.file_name())?,
            // A name that isn't text is none of the program's.
            Err(e) if e.kind() == ErrorKind::InvalidFilename => {}
            Err(e) => return Err(listing_error(e)),
        }
    }
    Ok(())
}

/// Syncs the file with this name, where a file of the program has it.
fn sync_program_file<R: Files<File = File>>(rt: &R, name: &str) -> io::Result<()> {
    if is_name(name) {
        open_to_read(rt, name)?.sync_all()?;
    }
    Ok(())
}

/// Why the folder can't be listed. Unlike the calls on a file, this one takes memory of its own.
fn listing_error(error: io::Error) -> FileError {
    if error.kind() == ErrorKind::OutOfMemory {
        FileError::NoMemory
    } else {
        FileError::Device
    }
}
