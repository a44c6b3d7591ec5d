//! Lists of steps and of operations: contracts see each as a list.

use fs_kinds::List;
use fs_model::{Operation, Step};

/// The steps of a run, in program order.
pub type Steps = List<Step>;

/// Memory operations by their numbers: hart by hart in program order, and then the initial stores by location.
pub type Operations = List<Operation>;

/// A set of words: those that a location may come to hold.
pub type Words = List<u32>;
