//! The memory of one page.

ghost use Rattle.std.specs.Prelude.{◌≡◌, length};
ghost use Rattle.nb_host.specs.declared.page_name.TheConstants.{PAGE_SIZE};

use nb_host::PAGE_SIZE;
use std::alloc::{AllocError, Global};

/// The memory of one page, and whether it is dirty: whether its bytes are still to be written.
#[derive(Drop)]
pub(crate) struct Frame {
    pub(crate) bytes: Vec<u8>,
    pub(crate) dirty: bool,
    pub(crate) ghost whole: { length bytes.items ≡ PAGE_SIZE },
}

impl Frame {
    /// A page of zeros.
    pub(crate) fn new(alloc: Global) -> Result<Frame, AllocError> {
        Ok(Frame {
            bytes: vec![in alloc; 0; PAGE_SIZE]?,
            dirty: false,
        })
    }

    /// Takes in the bytes of a page.
    pub(crate) fn fill(&mut self, bytes: &[u8])
        requires { length bytes.now ≡ PAGE_SIZE }
        ensures { self.new.bytes.items ≡ bytes.now }
    {
        self.bytes.copy_from_slice(bytes);
    }

    /// Marks the page as dirty or as clean.
    pub(crate) fn mark(&mut self, dirty: bool)
        ensures { self.new ≡ record self.old { dirty = dirty } }
    {
        self.dirty = dirty;
    }
}
