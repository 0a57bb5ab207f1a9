//! What is left to do of a process.
use epl_values::Variables;
use smallvec::SmallVec;

/// Which steps of a statement a block is: all of the body, those of an `if` where the test is true or
/// not, those of a `while`, or those of a `with` and the step that leaves its monitor.
#[derive(Clone, Copy, Debug, Default, PartialEq, Eq)]
pub enum Branch {
    #[default]
    Whole,
    So,
    Otherwise,
    Body,
    Held,
}

/// A block that has been entered, at a statement of the block around it, and the place of its next
/// step, both counted from 0.
#[derive(Clone, Copy, Debug, Default)]
pub struct Frame {
    pub entered: usize,
    pub branch: Branch,
    pub next: usize,
}

/// What is left to do of a process: the frames from the outermost block to the innermost, and its own
/// variables. It holds none of the Eject's between turns. The answer that is awaited is that of the step
/// before the place of the innermost frame.
#[derive(Drop)]
pub struct Rest {
    pub variables: Variables,
    pub frames: SmallVec<Frame, 8>,
}
