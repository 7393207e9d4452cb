//! The border of the box.

/// What the border of the box does.
#[derive(Clone, Copy, PartialEq, Eq, Debug)]
pub enum Edge {
    /// An isolated box: a body that would move out of it becomes out.
    Open,
    /// A periodic box: opposite sides meet. The difference from a body to what pulls it is the one to the
    /// nearest image (the minimum image convention), with no sum over further images. A body that moves
    /// across a side comes in by the opposite one, unless it is as fast as 2^40 box units a tick on an axis:
    /// then it becomes out. Cells, octants and centres of mass are those of an isolated box.
    Wrap,
}
