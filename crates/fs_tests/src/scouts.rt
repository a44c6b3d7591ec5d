//! What a scout of the search says of itself: when others may help it.
ghost use Rattle.std.specs.Prelude.{◌≡◌, IfOk, IfSome};
ghost use Rattle.std.specs.Arc.{arc_value};
ghost use Rattle.fs_board_offers.specs.Offers.{slots};
ghost use Rattle.fs_board_offers.specs.Parts.{slots_in_part};

use fs_board::{Board, Event, Reply};
use fs_board_search::{Problem, Scout, Taken, USUAL_INFERENCES, Way};
use fs_kinds::Fault;
use fs_tests_shared::{CO_RR, PRICES, question_of};
use std::alloc::{AllocError, Global};
use std::sync::Arc;

/// The root of a new board.
fn root(alloc: Global, board: &mut Board) -> Result<Option<Taken>, AllocError>
    ensures { IfOk result (λ found. IfSome found (λ t. slots_in_part (arc_value t.part)
        ≡ slots board.old.question.offers)) }
{
    let _legal = board.log();
    let reply = board.ask(alloc, 0, &Event::Take)?;
    let Reply::Node(node, part) = reply else {
        return Ok(None);
    };
    Ok(Some(Taken {
        node,
        part,
        slot: None,
    }))
}

/// A scout that has asked for so many verdicts at a node, each time anew, since no fences are needed there.
fn scout_after(alloc: Global, verdicts: usize) -> Result<Scout, Fault> {
    let question = question_of(alloc, CO_RR, PRICES)?;
    let mut board = Board::new(alloc, Arc::try_clone(&question)?, 1)?;
    let problem = Problem::shared(alloc, Arc::try_clone(question.test())?, USUAL_INFERENCES)?;
    let mut scout = Scout::new(alloc, question, problem);
    let Some(taken) = root(alloc, &mut board)? else {
        return Ok(scout);
    };
    for _ in 0..verdicts {
        scout.propose(alloc, Way::Judged, &taken)?;
    }
    Ok(scout)
}

/// Whether others may help after 15 verdicts, and after 16, with so many nodes. 15 verdicts aren't many; 16 are, up to 67
/// nodes, as long as there is one for every fourth.
pub(crate) fn may_help(alloc: Global) -> Result<String, Fault> {
    let mut text = String::new(alloc);
    for verdicts in [15, 16] {
        let scout = scout_after(alloc, verdicts)?;
        for nodes in [0, 16, 67, 68] {
            write!(text, "{} ", scout.judges_much(nodes))?;
        }
    }
    Ok(text)
}

/// What is said of these.
pub(crate) const HELPED: &str = "false false false false true true true false ";
