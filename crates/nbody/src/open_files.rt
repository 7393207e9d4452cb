//! The files of the folder that stay open from one call of the host to the next.

ghost use Rattle.std.specs.Prelude.{◌≡◌};
ghost use Rattle.nbody.specs.declared.open_files.FileError.TheVariants.{Device, NoMemory};

use crate::names::name_of;
use std::alloc::{AllocError, AllocFailed, Global};
use std::fs::{File, OpenOptions, metadata};
use std::io;
use std::io::ErrorKind;
use std::os::fd::AsRawFd;
use std::rt::Files;

/// So many files stay open at most.
const MOST_OPEN: usize = 8;

/// The descriptor of the standard error, after those of the standard input and output.
const LAST_STREAM: i32 = 2;

/// Why a call on the folder's files failed.
#[derive(Clone, Copy, PartialEq, Eq, Debug)]
pub enum FileError {
    /// The device failed.
    Device,
    /// Memory is wanting, and nothing was done.
    NoMemory,
}

/// An error of a call on a file is a fault of the device, also where the system wanted memory: a part of
/// the call may have been done.
impl From<io::Error> for FileError {
    ghost from_gives = { λ _ e. e ≡ Device };

    fn from(_: io::Error) -> Self {
        FileError::Device
    }
}

impl From<AllocError> for FileError {
    ghost from_gives = { λ _ e. e ≡ NoMemory };

    fn from(_: AllocError) -> Self {
        FileError::NoMemory
    }
}

impl<T: Drop> From<AllocFailed<T>> for FileError {
    ghost from_gives = { λ _ e. e ≡ NoMemory };

    fn from(_: AllocFailed<T>) -> Self {
        FileError::NoMemory
    }
}

/// An open file and its number.
#[derive(Drop)]
pub struct NumberedFile {
    number: u64,
    is_writable: bool,
    /// The file itself.
    pub file: File,
}

/// The open files, the least recently used first.
#[derive(Drop)]
pub struct OpenFiles {
    files: Vec<NumberedFile>,
}

impl OpenFiles {
    /// No open file.
    pub fn new(alloc: Global) -> Self {
        OpenFiles {
            files: Vec::new(alloc),
        }
    }

    /// The file, open for reading, or None where there is none. `keep` takes it back.
    pub fn reader<R: Files<File = File> + AllocGlobal>(
        &mut self,
        rt: &R,
        number: u64,
    ) -> Result<Option<NumberedFile>, FileError> {
        if let Some(open) = self.take(number) {
            return Ok(Some(open));
        }
        let name = name_of(rt.alloc(), number)?;
        match open_to_read(rt, name.as_str()) {
            Ok(file) => Ok(Some(NumberedFile {
                number,
                is_writable: false,
                file,
            })),
            Err(e) if e.kind() == ErrorKind::NotFound => Ok(None),
            Err(e) => Err(FileError::from(e)),
        }
    }

    /// The file, open for reading and writing. It is made where there is none. `keep` takes it back.
    pub fn writer<R: Files<File = File> + AllocGlobal>(
        &mut self,
        rt: &R,
        number: u64,
    ) -> Result<NumberedFile, FileError> {
        if let Some(open) = self.take(number) {
            if open.is_writable {
                return Ok(open);
            }
        }
        let name = name_of(rt.alloc(), number)?;
        let file = open_file(
            rt,
            name.as_str(),
            OpenOptions::new().read(true).write(true).create(true),
        )?;
        Ok(NumberedFile {
            number,
            is_writable: true,
            file,
        })
    }

    /// Keeps the file open, and closes the one that wasn't used for longest where there are too many. Where
    /// memory is wanting it closes this one.
    pub fn keep(&mut self, open: NumberedFile) {
        if self.files.len() >= MOST_OPEN {
            let _ = self.files.remove(0);
        }
        let _ = self.files.push(open);
    }

    fn take(&mut self, number: u64) -> Option<NumberedFile> {
        let at = self.files.iter().position(|open| open.number == number)?;
        Some(self.files.remove(at))
    }
}

/// Opens the file with the name. A folder is refused, and so is what isn't a file at all: to open a pipe
/// could wait forever. What can't be looked at is refused too, but for a name that isn't there.
pub fn open_file<R: Files<File = File>>(
    rt: &R,
    name: &str,
    options: &OpenOptions,
) -> io::Result<File> {
    match metadata(rt, name) {
        Ok(found) if !found.is_file() => return Err(io::Error::from(ErrorKind::InvalidInput)),
        Err(e) if e.kind() != ErrorKind::NotFound => return Err(e),
        _ => {}
    }
    off_streams(options.open(rt, name)?)
}

/// The file, on a descriptor above those of the standard streams. Where one of these is closed, its number
/// goes to the next file that is opened, and what is then said on that stream would be written into the
/// file.
fn off_streams(file: File) -> io::Result<File> {
    if file.as_raw_fd() > LAST_STREAM {
        Ok(file)
    } else {
        file.try_clone()
    }
}

/// Opens the file with the name for reading.
pub fn open_to_read<R: Files<File = File>>(rt: &R, name: &str) -> io::Result<File> {
    open_file(rt, name, OpenOptions::new().read(true))
}
