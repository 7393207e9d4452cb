//! The words after the program's name.

ghost use Rattle.std.specs.Prelude.{◌≡◌, ◌↔◌, ◌≤◌, ℕ, IsTrue, IfSome, IfOk, Some, None, Err, [], map};
ghost use Rattle.std.specs.Option.{option_map_or};
ghost use Rattle.clap.specs.Words.{kind_of as kind_of_error, new_rule, rule_of};
ghost use Rattle.nb_engine.specs.declared.going.Pace.{Pace as Paces};
ghost use Rattle.nb_cli.specs.Words.{numbers_behind, IsGivenOr, IsPaceOf, ArePages, IsNamed, IsJob, IsNoCommand};
ghost use Rattle.nb_cli.specs.Splitting.{of_parse, numbers_in, lists_of};
ghost use Rattle.nb_cli.specs.declared.words.Job.{Job as Jobs};
ghost use Rattle.nb_cli.specs.declared.words.WordsError.TheVariants as refused;

use clap::error::ErrorKind;
use clap::{Arg, ArgAction, Command};
use nb_engine::Pace;
use nb_format::number_of;
use nb_model::MOST_BODIES;
use std::alloc::{AllocError, AllocFailed, Global};
use thiserror::Error;

/// How many pages are in memory, where the words don't say it.
const USUAL_PAGES: u64 = 256;

/// How many walks go on at a time, where the words don't say it.
const USUAL_WALKS: u64 = 64;

/// The fewest and the most pages in memory.
const LEAST_PAGES: u64 = 4;

const MOST_PAGES: u64 = 1 << 18;

/// The fewest and the most walks at a time.
const LEAST_WALKS: u64 = 1;

const MOST_WALKS: u64 = 1024;

/// The names of the options, without their hyphens, and of the arguments, which no word spells.
const PAGES: &str = "pages";

const WALKS: &str = "walks";

const ARGUMENTS: &str = "arguments";

/// A command.
#[derive(Clone, Copy, PartialEq, Eq, Debug)]
pub enum Job {
    /// A run is started, with so many pages in memory.
    Start(u64),
    /// The run is led to this time, in ticks.
    Go(u64, Pace),
    /// The last leg of the run is brought to its end.
    Resume(Pace),
    /// What the folder's journal tells is said.
    Show,
    /// The bodies of the initial snapshot are brought to this time, in ticks.
    Once(u64),
    /// Parameters and bodies are made of a seed, first: so many bodies.
    Make(u64, u64),
    /// They are made, and a run of them is started and led to this time, in ticks.
    Demo(u64, u64, u64, Pace),
}

/// Why words aren't read as a command.
#[derive(Clone, Copy, PartialEq, Eq, Debug, Error)]
pub enum WordsError {
    /// They are no command.
    #[error("no command")]
    Refused,
    /// Memory is wanting.
    #[error("no memory")]
    NoMemory,
}

/// What stands behind a command, all of it numbers: the arguments, and the values that each option is given,
/// in the order in which they stand.
#[derive(Drop)]
pub(crate) struct Given {
    arguments: Vec<u64>,
    pages: Vec<u64>,
    walks: Vec<u64>,
}

impl Given {
    /// Whether neither option stands.
    fn is_plain(&self) -> bool
        ensures { IsTrue result ↔ ((self.now.pages.items ≡ []) × (self.now.walks.items ≡ [])) }
    {
        self.pages.is_empty() && self.walks.is_empty()
    }
}

/// The command that the words are.
pub fn read_words(alloc: Global, words: &[&str]) -> Result<Job, WordsError>
    ensures command { IfOk result (IsJob (map (λ w. w.now) words.now)) }
    ensures refused { result ≡ Err WordsError.Refused → IsNoCommand (map (λ w. w.now) words.now) }
{
    let Some((name, rest)) = words.split_first() else {
        return Err(WordsError::Refused);
    };
    let given = split(alloc, rest)?;
    job_named(name, &given).ok_or(WordsError::Refused)
}

/// What stands behind a command. `clap` tells arguments and the values of options apart; that each is a
/// number is seen to here, since it would take a sign and any number of digits.
fn split(alloc: Global, words: &[&str]) -> Result<Given, WordsError>
    ensures spelled { IfOk result (λ given.
        numbers_behind (map (λ w. w.now) words.now) ≡ Some (lists_of given)) }
    ensures refused { result ≡ Err WordsError.Refused
        → numbers_behind (map (λ w. w.now) words.now) ≡ None }
{
    let command = Command::new(alloc, "nbody")
        .no_binary_name(true)
        .disable_help_flag(true)
        .arg(Arg::new(alloc, ARGUMENTS).action(ArgAction::Append))?
        .arg(option(alloc, PAGES))?
        .arg(option(alloc, WALKS))?;
    let matches = command.try_get_matches_from(words)?;
    Ok(Given {
        arguments: numbers(alloc, matches.get_raw(ARGUMENTS))?,
        pages: numbers(alloc, matches.get_raw(PAGES))?,
        walks: numbers(alloc, matches.get_raw(WALKS))?,
    })
}

/// The option `--name`. Each of its values is kept, so that one that stands twice is seen by their number.
fn option<'a>(alloc: Global, name: &'a str) -> Arg<'a>
    ensures { rule_of result ≡ record (new_rule name.entry.now) {
      long = Some name.entry.now;
      action = Some ArgAction.Append;
    } }
{
    Arg::new(alloc, name).long(name).action(ArgAction::Append)
}

/// The numbers that words spell, where each spells one. Where an option doesn't stand there are none.
fn numbers(alloc: Global, words: Option<&[&str]>) -> Result<Vec<u64>, WordsError>
    ensures spelled { IfOk result (λ numbers.
        numbers_in (option_map_or (λ w. map (λ v. v.now) w.now) words.entry []) ≡ Some numbers.items) }
    ensures refused { result ≡ Err WordsError.Refused
        → numbers_in (option_map_or (λ w. map (λ v. v.now) w.now) words.entry []) ≡ None }
{
    let mut numbers = Vec::new(alloc);
    let Some(words) = words else {
        return Ok(numbers);
    };
    for word in words {
        let Some(number) = number_of(word.as_bytes()) else {
            return Err(WordsError::Refused);
        };
        numbers.push(number)?;
    }
    Ok(numbers)
}

/// The command of this name, with these numbers.
fn job_named(name: &str, given: &Given) -> Option<Job>
    ensures some { IfSome result (IsNamed name.now (lists_of given.now)) }
    ensures none { result ≡ None → (job : Jobs) → IsNamed name.now (lists_of given.now) job → ⊥ }
{
    match given.arguments.as_slice() {
        [] if name == "start" => Some(Job::Start(start_pages(given)?)),
        [] if name == "resume" => Some(Job::Resume(pace_of(given)?)),
        [] if name == "show" && given.is_plain() => Some(Job::Show),
        [target] if name == "go" => Some(Job::Go(*target, pace_of(given)?)),
        [target] if name == "once" && given.is_plain() => Some(Job::Once(*target)),
        [seed, count] if name == "make" && *count <= MOST_BODIES && given.is_plain() => {
            Some(Job::Make(*seed, *count))
        }
        [seed, count, target] if name == "demo" && *count <= MOST_BODIES => {
            Some(Job::Demo(*seed, *count, *target, pace_of(given)?))
        }
        _ => None,
    }
}

/// The pace that the values of the two options say.
fn pace_of(given: &Given) -> Option<Pace>
    ensures some { IfSome result (IsPaceOf (lists_of given.now)) }
    ensures none { result ≡ None → (pace : Paces) → IsPaceOf (lists_of given.now) pace → ⊥ }
{
    Some(Pace {
        pages: given_or(USUAL_PAGES, &given.pages, LEAST_PAGES, MOST_PAGES)?,
        walks: given_or(USUAL_WALKS, &given.walks, LEAST_WALKS, MOST_WALKS)?,
    })
}

/// How many pages `start` takes, which has no walks.
fn start_pages(given: &Given) -> Option<u64>
    ensures some { IfSome result (ArePages (lists_of given.now)) }
    ensures none { result ≡ None → (pages : ℕ) → ArePages (lists_of given.now) pages → ⊥ }
{
    if !given.walks.is_empty() {
        return None;
    }
    given_or(USUAL_PAGES, &given.pages, LEAST_PAGES, MOST_PAGES)
}

/// What an option is: what it is given, where that is once and in its range, or what it usually is.
fn given_or(usual: u64, given: &[u64], least: u64, most: u64) -> Option<u64>
    requires low { least ≤ usual }
    requires high { usual ≤ most }
    ensures some { IfSome result (λ value.
        IsGivenOr usual given.now value × (least ≤ value) × (value ≤ most)) }
    ensures none { result ≡ None → (value : ℕ) → IsGivenOr usual given.now value
        → least ≤ value → value ≤ most → ⊥ }
{
    match given {
        [] => Some(usual),
        [value] if least <= *value && *value <= most => Some(*value),
        _ => None,
    }
}

impl From<clap::Error> for WordsError {
    ghost from_gives = { λ error r. r ≡ of_parse (kind_of_error error) };

    fn from(error: clap::Error) -> Self {
        match error.kind() {
            ErrorKind::OutOfMemory => WordsError::NoMemory,
            _ => WordsError::Refused,
        }
    }
}

impl From<AllocError> for WordsError {
    ghost from_gives = { λ _ r. r ≡ refused.NoMemory };

    fn from(_: AllocError) -> Self {
        WordsError::NoMemory
    }
}

impl<T: Drop> From<AllocFailed<T>> for WordsError {
    ghost from_gives = { λ _ r. r ≡ refused.NoMemory };

    fn from(_: AllocFailed<T>) -> Self {
        WordsError::NoMemory
    }
}

#[cfg(test)]
mod tests;
