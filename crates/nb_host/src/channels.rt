//! The two channels of a host in memory: what was said on them, and how many says were refused.

ghost use Rattle.std.specs.Prelude.{◌≡◌, ◌≢◌, ◌≤◌, ◌++◌, [], OnOk, OnErr};
ghost use Rattle.nb_host.specs.Counts.{next_count};
ghost use Rattle.nb_host.specs.declared.host.Channel.{Channel};

use crate::Channel;
use nb_model::NoMemory;
use std::alloc::Global;

/// The bytes said on each channel.
#[derive(Drop)]
pub struct Channels {
    out: Vec<u8>,
    err: Vec<u8>,
}

impl Channels {
    ghost use Rattle.nb_host.specs.Channels.{said_on};

    /// Nothing said. Takes no memory.
    pub fn new(alloc: Global) -> Self
        ensures { (channel : Channel) → said_on result channel ≡ [] }
    {
        Channels {
            out: Vec::new(alloc),
            err: Vec::new(alloc),
        }
    }

    /// The bytes said on a channel.
    pub fn said(&self, channel: Channel) -> &[u8]
        ensures { result.now ≡ said_on self.now channel }
    {
        match channel {
            Channel::Out => self.out.as_slice(),
            Channel::Err => self.err.as_slice(),
        }
    }

    /// Adds the bytes to those said on a channel.
    pub fn say(&mut self, channel: Channel, bytes: &[u8]) -> Result<(), NoMemory>
        ensures ok { OnOk result (said_on self.new channel ≡ said_on self.old channel ++ bytes.now) }
        ensures others { (other : Channel) → other ≢ channel
            → said_on self.new other ≡ said_on self.old other }
        ensures err { OnErr result ((other : Channel) → said_on self.new other ≡ said_on self.old other) }
    {
        match channel {
            Channel::Out => Ok(self.out.extend_from_slice(bytes)?),
            Channel::Err => Ok(self.err.extend_from_slice(bytes)?),
        }
    }
}

/// How many says on each channel were refused.
#[derive(Drop)]
pub struct Refusals {
    out: u64,
    err: u64,
}

impl Refusals {
    ghost use Rattle.nb_host.specs.Channels.{refused_on};

    /// None refused.
    pub fn new() -> Self
        ensures { (channel : Channel) → refused_on result channel ≡ 0 }
    {
        Refusals { out: 0, err: 0 }
    }

    /// Counts a say on a channel that was refused.
    pub fn count(&mut self, channel: Channel)
        ensures no_less { refused_on self.old channel ≤ refused_on self.new channel }
        ensures count { refused_on self.new channel ≡ next_count (refused_on self.old channel) }
        ensures others { (other : Channel) → other ≢ channel
            → refused_on self.new other ≡ refused_on self.old other }
    {
        match channel {
            Channel::Out => self.out = self.out.saturating_add(1),
            Channel::Err => self.err = self.err.saturating_add(1),
        }
    }
}
