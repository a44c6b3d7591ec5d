//! What a desk is for.

use std::marker::Brand;

/// What a desk's board is asked, and the greatest number that a node of it may have. They exist in the proofs alone:
/// all that has to agree on them is generic in one such type, and a program picks it by `Brand`.
pub trait Asked {
    ghost use Rattle.std.specs.Prelude.{ℕ};
    ghost use Rattle.fs_board_offers.specs.Questions.{Question};

    ghost question: { Question };

    ghost limit: { ℕ };
}

impl Asked for Brand {
    ghost use Rattle.fs_pool.specs.Asked.{no_question};

    ghost question = { no_question };

    ghost limit = { 0 };
}
