//! A fuse, which lets some host calls pass and none after them.

ghost use Rattle.std.specs.Prelude.{◌≡◌};
ghost use Rattle.nb_host.specs.Plan.{burnt, fate_by};

use crate::fate::Fate;

/// How far a fuse is.
#[derive(Clone, Copy, PartialEq, Eq, Debug)]
pub enum Fuse {
    /// There is none.
    Unset,
    /// So many more calls pass.
    Burning(u64),
    /// Its first failing call has come.
    Blown,
}

impl Fuse {
    /// What the next call does, where its number is set to fail or isn't. From its first failing call on the
    /// fuse alone says so.
    pub fn fate(self, named: bool) -> Fate
        ensures { result ≡ fate_by self named }
    {
        match self {
            Fuse::Burning(0) => Fate::HalfDone,
            Fuse::Blown => Fate::Nothing,
            Fuse::Unset | Fuse::Burning(_) => { if named { Fate::HalfDone } else { Fate::Passes } }
        }
    }

    /// The fuse after one more call.
    pub fn next(self) -> Fuse
        ensures { result ≡ burnt self }
    {
        match self {
            Fuse::Unset => Fuse::Unset,
            Fuse::Burning(0) | Fuse::Blown => Fuse::Blown,
            Fuse::Burning(calls) => Fuse::Burning(calls - 1),
        }
    }
}
