//! What `solve --write` prints: the file with the fences of the answer.

ghost use Rattle.std.specs.Prelude.{ℕ, List, IfOk, IfSome, string_bytes};
ghost use Rattle.std.specs.Arc.{arc_value};
ghost use Rattle.fs_app_solve_and_check.specs.Found.{IsFound};
ghost use Rattle.fs_app.specs.Answers.{IsFencedFile};

use fs_app_file_text::inserted;
use fs_app_solve_and_check::Found;
use fs_board_search::Answer;
use fs_kinds::Fault;
use std::alloc::Global;

/// The file with the fences of the answer to its test, if the answer is fences.
pub(crate) fn fenced_file(
    alloc: Global,
    test: &[u8],
    found: &Found,
) -> Result<Option<String>, Fault>
    requires { (prices : List ℕ) × (limit : ℕ)
        × IsFound test.now prices limit (arc_value found.now.question) found.now.solved }
    ensures { IfOk result (λ file. IfSome file (λ text. (prices : List ℕ) (limit : ℕ)
        → IsFound test.now prices limit (arc_value found.now.question) found.now.solved
        → IsFencedFile test.now prices (string_bytes text))) }
{
    match &found.solved.answer {
        Answer::Fenced { forbidden, .. } => {
            let text = inserted(alloc, test, found.question.test(), &forbidden.placement)?;
            Ok(Some(text))
        }
        Answer::None { .. } => Ok(None),
    }
}
