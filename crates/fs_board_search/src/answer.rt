//! Answers, as values.

ghost use Rattle.std.specs.Prelude.{◌≡◌, option_map};

use fs_board::Board;
use fs_cert_evidence::{Forbidden, Witness};
use std::sync::Arc;

/// The answer to a question.
#[derive(Drop)]
pub enum Answer {
    /// The cheapest placement that forbids the outcome, of several the first, with what shows that it does, and what it
    /// costs.
    Fenced {
        forbidden: Arc<Forbidden>,
        cost: u64,
    },
    /// No placement does: the witness shows the outcome even with `rw,rw` in every slot.
    None {
        witness: Witness,
    },
}

/// An answer, which has with it what shows it, and the finished board that it was read from. There is no board where
/// the search came to its limit before it was finished: then the answer is no fence at all, or none by a witness, and
/// was found by judging the least and the greatest placement.
#[derive(Drop)]
pub struct Solved {
    pub answer: Answer,
    pub board: Option<Board>,
}

impl Solved {
    /// The finished board; none where the search came to its limit and the answer was found without it.
    pub fn board(&self) -> Option<&Board>
        ensures { option_map (λ b. b.now) result ≡ self.now.board }
    {
        self.board.as_ref()
    }
}
