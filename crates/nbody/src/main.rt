//! `nbody`: moves bodies under gravity, from file to file.
#![tactic(auto)]

mod folder;
mod folder_host;
mod names;
mod open_files;

use crate::folder_host::FolderHost;
use nb_cli::nbody;
use nb_cli::status::{MEMORY, WORDS};
use std::alloc::{AllocError, Global};
use std::env;
use std::io::ErrorKind;
use std::process::ExitCode;
use std::rt::Env;

/// The words after the program's name. Where they can't be had, the status to end with: they aren't text, or
/// memory for them is wanting.
fn words_of<R: Env + AllocGlobal>(rt: &R) -> Result<Vec<String>, u8> {
    let words = match env::args(rt) {
        Ok(words) => words.skip(1).collect(rt.alloc()),
        Err(e) if e.kind() == ErrorKind::OutOfMemory => return Err(MEMORY),
        Err(_) => return Err(WORDS),
    };
    words.map_err(|_| MEMORY)
}

fn texts_of(alloc: Global, words: &Vec<String>) -> Result<Vec<&str>, AllocError> {
    words.iter().map(|word| word.as_str()).collect(alloc)
}

/// Does the command that the words say, in the current folder, and answers its status. It is an error where
/// the words can't be had.
fn run(rt: HostRuntime) -> Result<u8, u8> {
    let alloc = rt.alloc();
    let words = words_of(&rt)?;
    let texts = texts_of(alloc, &words).map_err(|_| MEMORY)?;
    let mut host = FolderHost::new(rt, rt.stdout(), rt.stderr());
    Ok(nbody(alloc, texts.as_slice(), &mut host))
}

fn main(rt: HostRuntime) -> ExitCode {
    let status = run(rt).unwrap_or_else(|status| status);
    ExitCode::from(status)
}
