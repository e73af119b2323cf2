//! The refusals of the disk head's steps, as codes for C.

/// The code for a cylinder past the last one of the disk, or a last cylinder above 65,535.
pub const OFF_DISK: u64 = 116;

/// The code for a grant of a drive that is out already.
pub const IS_OUT: u64 = 117;

/// The code for a drive that is given back and isn't out.
pub const NOT_OUT: u64 = 118;

/// The code for a `waits` that is neither 1 nor 0, so that it doesn't say if a request waits.
pub const NO_ANSWER: u64 = 119;
