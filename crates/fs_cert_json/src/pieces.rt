//! Parts of a certificate that one of a question over sites has too.

pub use crate::read_answer::read_answer;
pub use crate::read_inferences::read_inferences;
pub use crate::write_inferences::inferences_value;
