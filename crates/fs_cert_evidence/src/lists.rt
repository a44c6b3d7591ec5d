//! The lists of a witness file: contracts see each as a list.

use fs_kinds::{List, OperationName};
use fs_model::Choice;

/// The choices of one hart, in the order of its run.
pub type Choices = List<Choice>;

/// The choices of each hart, from hart 0 on.
pub type ChoiceLists = List<Choices>;

/// Operations by their names, where a name with a number above 255 is none: no operation has it.
pub type Names = List<Option<OperationName>>;
