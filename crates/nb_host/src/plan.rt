//! Which host calls fail, and how many were made and failed.

ghost use Rattle.std.specs.Prelude.{◌≡◌, ◌+◌, ◌↔◌, ◌||◌, [], true, false, Contains, IsTrue, OnOk, OnErr};
ghost use Rattle.nb_host.specs.Counts.{next_count};
ghost use Rattle.nb_host.specs.Faults.{CountsFault};
ghost use Rattle.nb_host.specs.Plan.{burnt, FailsNext, answer_of, fails, faults_after};
ghost use Rattle.nb_host.specs.declared.fate.Fate.TheVariants.{Passes, Nothing};
ghost use Rattle.nb_host.specs.declared.fuse.Fuse.TheVariants.{Unset, Burning, Blown};

use crate::HostError;
use crate::fate::Fate;
use crate::fuse::Fuse;
use nb_model::NoMemory;
use std::alloc::Global;

/// The host calls that are set to fail, by their numbers and by a fuse, and the counts. Every count stands
/// still at the end of its type.
#[derive(Drop)]
pub struct Plan {
    alloc: Global,
    /// The numbers of the calls that fail, counted from 1 from when they were set on.
    failing: Vec<u64>,
    /// How many calls were made since then.
    since: u64,
    fuse: Fuse,
    calls: u64,
    faults: u64,
    /// Whether the last call answered Fault.
    halted: bool,
}

impl Plan {
    /// No calls made, and none set to fail. Takes no memory.
    pub fn new(alloc: Global) -> Self
        ensures failing { result.failing.items ≡ [] }
        ensures since { result.since ≡ 0 }
        ensures fuse { result.fuse ≡ Unset }
        ensures calls { result.calls ≡ 0 }
        ensures faults { result.faults ≡ 0 }
        ensures halted { result.halted ≡ false }
    {
        Plan {
            alloc,
            failing: Vec::new(alloc),
            since: 0,
            fuse: Fuse::Unset,
            calls: 0,
            faults: 0,
            halted: false,
        }
    }

    /// How many host calls were made.
    pub fn calls(&self) -> u64
        ensures { result ≡ self.now.calls }
    {
        self.calls
    }

    /// How many of them answered Fault.
    pub fn faults(&self) -> u64
        ensures { result ≡ self.now.faults }
    {
        self.faults
    }

    /// Sets the calls with these numbers to fail, counted from 1 from here on, in place of those set before.
    pub fn set(&mut self, calls: &[u64]) -> Result<(), NoMemory>
        ensures failing { OnOk result (self.new.failing.items ≡ calls.now) }
        ensures since { OnOk result (self.new.since ≡ 0) }
        ensures fuse { self.new.fuse ≡ self.old.fuse }
        ensures calls { self.new.calls ≡ self.old.calls }
        ensures faults { self.new.faults ≡ self.old.faults }
        ensures halted { self.new.halted ≡ self.old.halted }
        ensures err { OnErr result (self.new ≡ self.old) }
    {
        self.failing = calls.to_vec(self.alloc)?;
        self.since = 0;
        Ok(())
    }

    /// Sets a fuse that lets so many calls pass from here on, in place of one set before.
    pub fn light(&mut self, calls: u64)
        ensures { self.new ≡ record self.old { fuse = Burning calls } }
    {
        self.fuse = Fuse::Burning(calls);
    }

    /// Sets no call to fail from here on.
    pub fn clear(&mut self)
        ensures failing { self.new.failing.items ≡ [] }
        ensures since { self.new.since ≡ 0 }
        ensures fuse { self.new.fuse ≡ Unset }
        ensures calls { self.new.calls ≡ self.old.calls }
        ensures faults { self.new.faults ≡ self.old.faults }
        ensures halted { self.new.halted ≡ self.old.halted }
    {
        self.failing = Vec::new(self.alloc);
        self.since = 0;
        self.fuse = Fuse::Unset;
    }

    /// Counts a call that begins, and says what it does.
    pub fn begin(&mut self) -> Fate
        ensures due { (result ≡ Passes → ⊥) ↔ FailsNext self.old.fuse self.old.failing.items self.old.since }
        ensures nothing { result ≡ Nothing ↔ self.old.fuse ≡ Blown }
        ensures counts { self.new ≡ record self.old {
          since = next_count self.old.since;
          fuse = burnt self.old.fuse;
          calls = next_count self.old.calls;
          halted = false;
        } }
    {
        let named = has_next(&self.failing, self.since);
        let fate = self.fuse.fate(named);
        self.since = self.since.saturating_add(1);
        self.fuse = self.fuse.next();
        self.calls = self.calls.saturating_add(1);
        self.halted = false;
        fate
    }

    /// What a call answers that has done its part: Fault, and counted, where it doesn't pass.
    pub fn end(&mut self, fate: Fate) -> Result<(), HostError>
        ensures answer { result ≡ answer_of fate }
        ensures fault { CountsFault self.old.faults self.new.faults result }
        ensures halted { result ≡ Err HostError.Fault → self.new.halted ≡ true }
        ensures counts { self.new ≡ record self.old {
          faults = faults_after fate self.old.faults;
          halted = fails fate || self.old.halted;
        } }
    {
        match fate {
            Fate::Passes => Ok(()),
            Fate::HalfDone | Fate::Nothing => {
                self.faults = self.faults.saturating_add(1);
                self.halted = true;
                Err(HostError::Fault)
            }
        }
    }
}

// Whether the numbers have the one after this. No number of the type comes after the last one.
fn has_next(numbers: &[u64], number: u64) -> bool
    ensures { IsTrue result ↔ Contains numbers.now (number + 1) }
{
    match number.checked_add(1) {
        Some(next) => numbers.contains(&next),
        None => false,
    }
}
