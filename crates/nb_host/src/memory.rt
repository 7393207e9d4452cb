//! The host in memory, which tells everything and fails where it is told to.

ghost use Rattle.std.specs.Prelude.{◌≡◌, ◌≢◌, ◌⊎◌, ℕ, ◌+◌, ◌/◌, ◌<◌, ◌≤◌, [], ◌∷◌, ◌++◌, length, take, drop, true, OnOk, OnErr, IfOk, Err};
ghost use Rattle.nb_host.specs.Counts.{next_count, first_half};
ghost use Rattle.nb_host.specs.Crashes.{ImagesFollow, Stays};
ghost use Rattle.nb_host.specs.Disk.{Wrote, Cut, Synced, Said, Placed, Crashed, IsCrashImage, left_file};
ghost use Rattle.nb_host.specs.Faults.{CountsFault};
ghost use Rattle.nb_host.specs.Plan.{part_by};
ghost use Rattle.nb_host.specs.Image.{IsOverwritten, IsTorn, IsCut, IsPartlyCut, FileBecomes, Says, readable};
ghost use Rattle.nb_host.specs.Meaning.{IsDurable, IsDurableFile, Leads, Ran, RanSyncing, RanSaying};
ghost use Rattle.nb_host.specs.declared.fuse.Fuse.TheVariants.{Unset, Burning};
ghost use Rattle.nb_host.specs.declared.host.HostError.TheVariants.{Fault};
ghost use Rattle.nb_host.specs.declared.host.Channel.{Channel};

use crate::channels::Refusals;
use crate::disk::MemoryDisk;
use crate::fate::Fate;
use crate::plan::Plan;
use crate::{Channel, Host, HostError, Outcome, PLACE_LIMIT};
use nb_model::NoMemory;
use std::alloc::Global;

/// Files and channels in memory. It tells all that it holds, and fails at the host calls that `fail_at` and
/// `fuse` name and at no other. It records what each call did to a file or a channel, so that it can say
/// which images a crash may leave, and crash. Every count stands still at 2^64 - 1.
#[derive(Drop)]
pub struct MemoryHost {
    disk: MemoryDisk,
    refusals: Refusals,
    plan: Plan,
    reads: u64,
}

impl MemoryHost {
    ghost use Rattle.nb_host.specs.Memory.{events_of, disk_of, contents_of, crashes_of, meaning_of, calls_of, reads_of, faults_of, refused_of, failing_of, fuse_of, calls_since_set, IsBlown, CountsCall, KeepsCounts, KeepsFailing};

    /// No files, nothing said, no calls, and none set to fail. Takes no memory.
    pub fn new(alloc: Global) -> MemoryHost
        ensures files { (file : ℕ) → (contents_of result).file file ≡ [] }
        ensures said { (channel : Channel) → (contents_of result).said channel ≡ [] }
        ensures events { events_of result ≡ [] }
        ensures durable { IsDurable meaning_of result }
        ensures calls { calls_of result ≡ 0 }
        ensures reads { reads_of result ≡ 0 }
        ensures faults { faults_of result ≡ 0 }
        ensures refused { (channel : Channel) → refused_of result channel ≡ 0 }
        ensures failing { failing_of result ≡ [] }
        ensures since { calls_since_set result ≡ 0 }
        ensures fuse { fuse_of result ≡ Unset }
    {
        MemoryHost {
            disk: MemoryDisk::new(alloc),
            refusals: Refusals::new(),
            plan: Plan::new(alloc),
            reads: 0,
        }
    }

    /// Gives the file these bytes, durable. It is no host call, and isn't counted.
    pub fn with_file(&mut self, file: u64, bytes: &[u8]) -> Result<(), NoMemory>
        ensures ok { OnOk result
            (FileBecomes file (λ _ now. now ≡ bytes.now) (contents_of self.old) (contents_of self.new)) }
        ensures durable { OnOk result (IsDurableFile meaning_of file self.new) }
        ensures placed { OnOk result (events_of self.new ≡ Placed file bytes.now ∷ events_of self.old) }
        ensures err { OnErr result (contents_of self.new ≡ contents_of self.old) }
        ensures nothing { OnErr result (events_of self.new ≡ events_of self.old) }
        ensures counts { KeepsCounts self.old self.new }
        ensures failing { KeepsFailing self.old self.new }
    {
        self.disk.place(file, bytes)
    }

    /// Sets the host calls with these numbers to fail, counted from 1 from here on, in place of those set
    /// before. Such a call answers Fault. A write or a say then does the first half of its bytes, rounded
    /// down, and any other call nothing.
    pub fn fail_at(&mut self, calls: &[u64]) -> Result<(), NoMemory>
        ensures failing { OnOk result (failing_of self.new ≡ calls.now) }
        ensures since { OnOk result (calls_since_set self.new ≡ 0) }
        ensures fuse { fuse_of self.new ≡ fuse_of self.old }
        ensures err { OnErr result (KeepsFailing self.old self.new) }
        ensures events { events_of self.new ≡ events_of self.old }
        ensures contents { contents_of self.new ≡ contents_of self.old }
        ensures counts { KeepsCounts self.old self.new }
    {
        self.plan.set(calls)
    }

    /// Lets so many host calls pass from here on, but for those that `fail_at` names, in place of a fuse set
    /// before. Every later one answers Fault. The first of those is half done, as one that `fail_at` names,
    /// and each after it does nothing.
    pub fn fuse(&mut self, calls: u64)
        ensures fuse { fuse_of self.new ≡ Burning calls }
        ensures failing { failing_of self.new ≡ failing_of self.old }
        ensures since { calls_since_set self.new ≡ calls_since_set self.old }
        ensures events { events_of self.new ≡ events_of self.old }
        ensures counts { KeepsCounts self.old self.new }
    {
        self.plan.light(calls);
    }

    /// Crashes. What the outcome leaves of each file is durable, what was said stays, no call is set to fail
    /// any more, and the fuse is gone. It is no host call, and isn't counted.
    pub fn crash(&mut self, outcome: Outcome) -> Result<(), NoMemory>
        ensures image { OnOk result (IsCrashImage (disk_of self.old) (contents_of self.new)) }
        ensures durable { OnOk result (IsDurable meaning_of self.new) }
        ensures left { OnOk result ((file : ℕ) → (contents_of self.new).file file
            ≡ left_file outcome ((disk_of self.old).file file)) }
        ensures said { OnOk result ((contents_of self.new).said ≡ (contents_of self.old).said) }
        ensures crashed { OnOk result (events_of self.new ≡ Crashed outcome ∷ events_of self.old) }
        ensures images { ImagesFollow crashes_of self.old self.new Stays }
        ensures failing { OnOk result (failing_of self.new ≡ []) }
        ensures since { OnOk result (calls_since_set self.new ≡ 0) }
        ensures fuse { OnOk result (fuse_of self.new ≡ Unset) }
        ensures nothing { OnErr result (events_of self.new ≡ events_of self.old) }
        ensures err { OnErr result (KeepsFailing self.old self.new) }
        ensures counts { KeepsCounts self.old self.new }
    {
        self.disk.crash(outcome)?;
        self.plan.clear();
        Ok(())
    }

    /// The bytes of a file: none of one that isn't there.
    pub fn bytes(&self, file: u64) -> &[u8]
        ensures { result.now ≡ (contents_of self.now).file file }
    {
        self.disk.bytes(file)
    }

    /// The bytes said on a channel.
    pub fn said(&self, channel: Channel) -> &[u8]
        ensures { result.now ≡ (contents_of self.now).said channel }
    {
        self.disk.said(channel)
    }

    /// How many host calls were made.
    pub fn calls(&self) -> u64
        ensures { result ≡ calls_of self.now }
    {
        self.plan.calls()
    }

    /// How many of them were calls of `read_at`.
    pub fn reads(&self) -> u64
        ensures { result ≡ reads_of self.now }
    {
        self.reads
    }

    /// How many of them answered Fault.
    pub fn faults(&self) -> u64
        ensures { result ≡ faults_of self.now }
    {
        self.plan.faults()
    }

    // Says the bytes, or the first half of them where the call is set to fail, and none once the fuse has
    // blown. It counts no refused say.
    fn speak(&mut self, channel: Channel, bytes: &[u8]) -> Result<(), HostError>
        ensures ok { OnOk result
            (events_of self.new ≡ Said channel bytes.now (length bytes.now) ∷ events_of self.old) }
        ensures half { result ≡ Err Fault → (IsBlown self.old → ⊥)
            → events_of self.new ≡ Said channel bytes.now (length bytes.now / 2) ∷ events_of self.old }
        ensures nothing { IsBlown self.old → events_of self.new ≡ events_of self.old }
        ensures no_memory { result ≡ Err HostError.NoMemory → events_of self.new ≡ events_of self.old }
        ensures blown { IsBlown self.old → result ≡ Err Fault }
        ensures spoken { (events_of self.new ≡ events_of self.old)
            ⊎ ((done : ℕ) × (events_of self.new ≡ Said channel bytes.now done ∷ events_of self.old)) }
        ensures fault { CountsFault (faults_of self.old) (faults_of self.new) result }
        ensures call { CountsCall self.old self.new result }
        ensures reads { reads_of self.new ≡ reads_of self.old }
        ensures refused { refused_of self.new ≡ refused_of self.old }
    {
        let fate = self.plan.begin();
        if fate == Fate::Nothing {
            return self.plan.end(fate);
        }
        self.disk.say(channel, bytes, part_of(bytes.len(), fate))?;
        self.plan.end(fate)
    }
}

// How many of its bytes, so many in all, a call does: the first half of them, rounded down, where it is half
// done.
fn part_of(len: usize, fate: Fate) -> usize
    ensures { result ≡ part_by fate len }
{
    match fate {
        Fate::Passes => len,
        Fate::HalfDone => len / 2,
        Fate::Nothing => 0,
    }
}

// Reads the file from this offset on into the room, and answers how many bytes it gave.
fn read(file: &[u8], at: usize, into: &mut [u8]) -> usize
    ensures count { result ≡ length (readable at (length into.old) file.now) }
    ensures bytes { into.new ≡ readable at (length into.old) file.now ++ drop result into.old }
{
    let rest = &file[at.min(file.len())..];
    let count = rest.len().min(into.len());
    into[..count].copy_from_slice(&rest[..count]);
    count
}

// Each method has the trait's clauses, which here need no host that tells, and says exactly what it does
// besides.
impl Host for MemoryHost {
    ghost use Rattle.nb_host.specs.Memory.{events_of, contents_of, meaning_of, reads_of, refused_of, IsBlown, IsDue, CountsCall};

    ghost meaning = { meaning_of };

    fn len(&mut self, file: u64) -> Result<u64, HostError>
        ensures length { IfOk result (λ n. n ≡ length ((contents_of self.old).file file)) }
        ensures ran { Ran meaning_of HostError.Fault Stays self.old self.new result }
        ensures nothing { events_of self.new ≡ events_of self.old }
        ensures due { IsDue self.old → result ≡ Err Fault }
        ensures call { CountsCall self.old self.new result }
        ensures reads { reads_of self.new ≡ reads_of self.old }
        ensures needs_no_memory { result ≢ Err HostError.NoMemory }
    {
        let fate = self.plan.begin();
        self.plan.end(fate)?;
        Ok(self.disk.bytes(file).len() as u64)
    }

    fn read_at(&mut self, file: u64, at: u64, into: &mut [u8]) -> Result<usize, HostError>
        ensures count { IfOk result (λ n. n ≤ length into.old) }
        ensures whole { IfOk result (λ n. n
            ≡ length (readable at (length into.old) ((contents_of self.old).file file))) }
        ensures bytes { IfOk result (λ n. take n into.new
            ≡ readable at (length into.old) ((contents_of self.old).file file)) }
        ensures rest { IfOk result (λ n. into.new
            ≡ readable at (length into.old) ((contents_of self.old).file file) ++ drop n into.old) }
        ensures untouched { OnErr result (into.new ≡ into.old) }
        ensures ran { Ran meaning_of HostError.Fault Stays self.old self.new result }
        ensures nothing { events_of self.new ≡ events_of self.old }
        ensures due { IsDue self.old → result ≡ Err Fault }
        ensures call { CountsCall self.old self.new result }
        ensures reads { reads_of self.new ≡ next_count (reads_of self.old) }
        ensures needs_no_memory { result ≢ Err HostError.NoMemory }
    {
        self.reads = self.reads.saturating_add(1);
        let fate = self.plan.begin();
        self.plan.end(fate)?;
        Ok(read(self.disk.bytes(file), at as usize, into))
    }

    fn write_at(&mut self, file: u64, at: u64, bytes: &[u8]) -> Result<(), HostError>
        requires { at + length bytes.now < PLACE_LIMIT }
        ensures written { OnOk result
            (FileBecomes file (IsOverwritten at bytes.now) (contents_of self.old) (contents_of self.new)) }
        ensures ran { Ran meaning_of HostError.Fault (FileBecomes file (IsTorn at (length bytes.now)))
            self.old self.new result }
        ensures idle { result ≡ Err HostError.NoMemory → Leads meaning_of Stays self.old self.new }
        ensures ok { OnOk result
            (events_of self.new ≡ Wrote file at bytes.now (length bytes.now) ∷ events_of self.old) }
        ensures half { result ≡ Err Fault → (IsBlown self.old → ⊥)
            → events_of self.new ≡ Wrote file at bytes.now (length bytes.now / 2) ∷ events_of self.old }
        ensures half_written { result ≡ Err Fault → (IsBlown self.old → ⊥)
            → FileBecomes file (IsOverwritten at (first_half bytes.now))
            (contents_of self.old) (contents_of self.new) }
        ensures nothing { IsBlown self.old → events_of self.new ≡ events_of self.old }
        ensures unrecorded { result ≡ Err HostError.NoMemory → events_of self.new ≡ events_of self.old }
        ensures blown { IsBlown self.old → result ≡ Err Fault }
        ensures call { CountsCall self.old self.new result }
        ensures reads { reads_of self.new ≡ reads_of self.old }
    {
        let fate = self.plan.begin();
        if fate == Fate::Nothing {
            return self.plan.end(fate);
        }
        self.disk
            .write(file, at, bytes, part_of(bytes.len(), fate))?;
        self.plan.end(fate)
    }

    fn cut(&mut self, file: u64, len: u64) -> Result<(), HostError>
        ensures cut { OnOk result
            (FileBecomes file (IsCut len) (contents_of self.old) (contents_of self.new)) }
        ensures ran { Ran meaning_of HostError.Fault (FileBecomes file (IsPartlyCut len))
            self.old self.new result }
        ensures idle { result ≡ Err HostError.NoMemory → Leads meaning_of Stays self.old self.new }
        ensures ok { OnOk result (events_of self.new ≡ Cut file len ∷ events_of self.old) }
        ensures nothing { OnErr result (events_of self.new ≡ events_of self.old) }
        ensures due { IsDue self.old → result ≡ Err Fault }
        ensures call { CountsCall self.old self.new result }
        ensures reads { reads_of self.new ≡ reads_of self.old }
    {
        let fate = self.plan.begin();
        if fate != Fate::Passes {
            return self.plan.end(fate);
        }
        self.disk.cut(file, len)?;
        self.plan.end(fate)
    }

    fn sync(&mut self) -> Result<(), HostError>
        ensures ran { RanSyncing meaning_of 1 HostError.Fault Stays self.old self.new result }
        ensures durable { OnOk result (IsDurable meaning_of self.new) }
        ensures ok { OnOk result (events_of self.new ≡ Synced ∷ events_of self.old) }
        ensures nothing { OnErr result (events_of self.new ≡ events_of self.old) }
        ensures due { IsDue self.old → result ≡ Err Fault }
        ensures call { CountsCall self.old self.new result }
        ensures reads { reads_of self.new ≡ reads_of self.old }
    {
        let fate = self.plan.begin();
        if fate != Fate::Passes {
            return self.plan.end(fate);
        }
        self.disk.sync()?;
        self.plan.end(fate)
    }

    fn say(&mut self, channel: Channel, bytes: &[u8]) -> Result<(), HostError>
        ensures said { OnOk result (Says channel bytes.now (contents_of self.old) (contents_of self.new)) }
        ensures spoke { RanSaying meaning_of channel bytes.now self.old self.new result }
        ensures ok { OnOk result
            (events_of self.new ≡ Said channel bytes.now (length bytes.now) ∷ events_of self.old) }
        ensures half { result ≡ Err Fault → (IsBlown self.old → ⊥)
            → events_of self.new ≡ Said channel bytes.now (length bytes.now / 2) ∷ events_of self.old }
        ensures half_said { result ≡ Err Fault → (IsBlown self.old → ⊥)
            → Says channel (first_half bytes.now) (contents_of self.old) (contents_of self.new) }
        ensures nothing { IsBlown self.old → events_of self.new ≡ events_of self.old }
        ensures unrecorded { result ≡ Err HostError.NoMemory → events_of self.new ≡ events_of self.old }
        ensures blown { IsBlown self.old → result ≡ Err Fault }
        ensures call { CountsCall self.old self.new result }
        ensures reads { reads_of self.new ≡ reads_of self.old }
        ensures refused_once { OnErr result
            (refused_of self.new channel ≡ next_count (refused_of self.old channel)) }
    {
        let answer = self.speak(channel, bytes);
        if answer.is_ok() {
            return answer;
        }
        self.refusals.count(channel);
        answer
    }
}

#[cfg(test)]
mod tests;
