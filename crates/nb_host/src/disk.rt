//! The disk of a host in memory: its files, its channels and the record of its calls.

ghost use Rattle.std.specs.Prelude.{◌≡◌, ℕ, ◌+◌, ◌<◌, ◌≤◌, [], ◌∷◌, length, OnOk, OnErr};
ghost use Rattle.nb_host.specs.Disk.{contents_on, Wrote, Cut, Synced, Said, Placed, Crashed};
ghost use Rattle.nb_host.specs.Record.{recorded, IsMadeBy};

use crate::channels::Channels;
use crate::entry::CallRecord;
use crate::files::Files;
use crate::{Channel, Outcome, PLACE_LIMIT};
use nb_model::NoMemory;
use std::alloc::Global;

/// Files, channels, and what each call did to them since the disk was made. Where a call wants memory,
/// nothing is done.
#[derive(Drop)]
pub struct MemoryDisk {
    alloc: Global,
    files: Files,
    channels: Channels,
    /// The oldest first.
    calls: Vec<CallRecord>,
    ghost kept: { IsMadeBy (recorded calls.items) files channels },
}

impl MemoryDisk {
    ghost use Rattle.nb_host.specs.Memory.{events_in, disk_in};

    /// No files, and nothing said. Takes no memory.
    pub fn new(alloc: Global) -> Self
        ensures { events_in result ≡ [] }
    {
        MemoryDisk {
            alloc,
            files: Files::new(alloc),
            channels: Channels::new(alloc),
            calls: Vec::new(alloc),
        }
    }

    /// The bytes of a file as they read.
    pub fn bytes(&self, number: u64) -> &[u8]
        ensures { result.now ≡ (contents_on (disk_in self.now)).file number }
    {
        self.files.bytes(number)
    }

    /// The bytes said on a channel.
    pub fn said(&self, channel: Channel) -> &[u8]
        ensures { result.now ≡ (contents_on (disk_in self.now)).said channel }
    {
        self.channels.said(channel)
    }

    /// Gives a file these bytes, durable.
    pub fn place(&mut self, number: u64, bytes: &[u8]) -> Result<(), NoMemory>
        ensures ok { OnOk result (events_in self.new ≡ Placed number bytes.now ∷ events_in self.old) }
        ensures err { OnErr result (events_in self.new ≡ events_in self.old) }
    {
        let all = bytes.to_vec(self.alloc)?;
        self.calls.push(CallRecord::Place(number, all))?;
        let answer = self.files.place(number, bytes);
        if answer.is_err() {
            let _ = self.calls.pop();
            return answer;
        }
        answer
    }

    /// Writes the first `done` of the bytes into a file at an offset, in bytes.
    pub fn write(&mut self, number: u64, at: u64, bytes: &[u8], done: usize) -> Result<(), NoMemory>
        requires offset { at + length bytes.now < PLACE_LIMIT }
        requires part { done ≤ length bytes.now }
        ensures ok { OnOk result (events_in self.new ≡ Wrote number at bytes.now done ∷ events_in self.old) }
        ensures err { OnErr result (events_in self.new ≡ events_in self.old) }
    {
        let all = bytes.to_vec(self.alloc)?;
        self.calls.push(CallRecord::Write(number, at, all, done))?;
        let answer = self.files.write(number, at, bytes, done);
        if answer.is_err() {
            let _ = self.calls.pop();
            return answer;
        }
        answer
    }

    /// Cuts a file to a length, in bytes, where it is longer.
    pub fn cut(&mut self, number: u64, len: u64) -> Result<(), NoMemory>
        ensures ok { OnOk result (events_in self.new ≡ Cut number len ∷ events_in self.old) }
        ensures err { OnErr result (events_in self.new ≡ events_in self.old) }
    {
        self.calls.push(CallRecord::CutOff(number, len))?;
        let answer = self.files.cut(number, len);
        if answer.is_err() {
            let _ = self.calls.pop();
            return answer;
        }
        answer
    }

    /// Makes all files durable.
    pub fn sync(&mut self) -> Result<(), NoMemory>
        ensures ok { OnOk result (events_in self.new ≡ Synced ∷ events_in self.old) }
        ensures err { OnErr result (events_in self.new ≡ events_in self.old) }
    {
        self.calls.push(CallRecord::Sync)?;
        self.files.sync();
        Ok(())
    }

    /// Says the first `done` of the bytes on a channel.
    pub fn say(&mut self, channel: Channel, bytes: &[u8], done: usize) -> Result<(), NoMemory>
        requires { done ≤ length bytes.now }
        ensures ok { OnOk result (events_in self.new ≡ Said channel bytes.now done ∷ events_in self.old) }
        ensures err { OnErr result (events_in self.new ≡ events_in self.old) }
    {
        let all = bytes.to_vec(self.alloc)?;
        self.calls.push(CallRecord::Say(channel, all, done))?;
        let answer = self.channels.say(channel, &bytes[..done]);
        if answer.is_err() {
            let _ = self.calls.pop();
            return answer;
        }
        answer
    }

    /// Crashes: each file becomes what the outcome leaves of it, durable.
    pub fn crash(&mut self, outcome: Outcome) -> Result<(), NoMemory>
        ensures ok { OnOk result (events_in self.new ≡ Crashed outcome ∷ events_in self.old) }
        ensures err { OnErr result (events_in self.new ≡ events_in self.old) }
    {
        match outcome {
            Outcome::Kept => {
                self.calls.push(CallRecord::Crash(outcome))?;
                self.files.sync();
                Ok(())
            }
            Outcome::Lost => {
                self.calls.push(CallRecord::Crash(outcome))?;
                self.files.lose();
                Ok(())
            }
            Outcome::Filled(filler) => {
                self.files.prepare(filler)?;
                self.calls.push(CallRecord::Crash(outcome))?;
                self.files.fill();
                Ok(())
            }
        }
    }
}
