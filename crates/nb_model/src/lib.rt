//! The bodies and the parameters of a run, and the gravity that moves them.
//!
//! The definitions stand in `specs/`, over lists of bodies: `Limits`, `Vector`, `Root`, `Octree`,
//! `Gravity`, `Leapfrog`, `Legs` and `Valid`, in this order. They know no keys, pages or files. `laws` has
//! what is proved of them.
#![tactic(auto)]

mod body;
mod edge;
mod laws;
mod limits;
mod memory;
mod params;
mod way;

pub use body::{At, Body, V3};
pub use edge::Edge;
pub use laws::{
    law_back, law_body, law_force_on, law_half_kick, law_integer_root, law_limits, law_open_box,
    law_step, law_wrapped_box,
};
pub use limits::{
    BOX_BITS, BOX_SIDE, DEEPEST_LEVEL, GM_LIMIT, HALF_BOX, KICK_LIMIT, MOST_BODIES, MOST_TICKS,
    SPEED_LIMIT,
};
pub use memory::NoMemory;
pub use params::Params;
pub use way::Way;
