//! What lies outside the program: its files and its two channels, behind one trait, so that one clock orders
//! them.
//!
//! `host` has the trait, `memory` the host that keeps everything in memory, tells everything and can crash,
//! and `laws` the laws by which stretches of calls compose. The meanings stand in `specs/`: `Image` is what
//! the files hold and what was said, `Crashes` is what a crash may leave of them and how calls change that,
//! `Faults` is when a call may answer Fault, `Disk` is the disk model that the host in memory obeys, and
//! `Memory` is what it shows.
#![tactic(auto)]

mod channels;
mod disk;
mod entry;
mod fate;
mod files;
mod fuse;
mod host;
mod laws;
mod memory;
mod outcome;
mod page_name;
mod plan;
mod span;
mod stored_file;

pub use host::{Channel, Host, HostError, LAST_FILE, PLACE_LIMIT};
pub use laws::{
    law_changes_both, law_changes_more, law_contents_are_left, law_durable_file, law_every_image,
    law_images_of_both, law_limits,
};
pub use memory::MemoryHost;
pub use outcome::Outcome;
pub use page_name::{PAGE_SIZE, PageName};
