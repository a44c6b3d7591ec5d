//! The limits of a test. A test that passes one is refused.

/// The most harts of a test.
pub const MOST_HARTS: usize = 8;

/// The most instructions of one hart.
pub const MOST_INSTRUCTIONS: usize = 32;

/// The most memory instructions of a test, in all harts together.
pub const MOST_ACCESSES: usize = 48;

/// The most locations of a test.
pub const MOST_LOCATIONS: usize = 8;

/// The greatest depth of a condition.
pub const MOST_DEPTH: u8 = 64;
