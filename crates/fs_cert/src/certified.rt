//! Certificates of answers.

ghost use Rattle.std.specs.Prelude.{◌≡◌, IfOk, IsOkUnless, None, Some, List, true};
ghost use Rattle.fs_kinds.specs.Placement.{all_with};
ghost use Rattle.fs_board_offers.specs.Offers.{Offers, slots};
ghost use Rattle.fs_model.specs.declared.test.Test.{Test};
ghost use Rattle.fs_model.specs.Allows.{RefutesAll};
ghost use Rattle.fs_model.specs.Execution.{Execution};
ghost use Rattle.fs_cert_evidence.specs.Evidence.{IsWitnessFor, ShowsForbidden};
ghost use Rattle.fs_board_offers.specs.Board.{is_finished};
ghost use Rattle.fs_board_offers.specs.Sizes.{HasNoRunFault};
ghost use Rattle.fs_cert.specs.Certified.{Certifies, CertifiesNone, HasEachOnce};
ghost use Rattle.fs_cert.specs.inner.Fenced.{IsFenced};

use crate::answered::answer_of;
use crate::copied::witness_of;
use crate::cycles::{cycles_of, version_of};
use crate::numbered::number_all;
use crate::preorder::tree_of;
use fs_board::Board;
use fs_board_offers::Question;
use fs_cert_evidence::{Forbidden, Witness, WitnessFile};
use fs_cert_json::{Certificate, CertifiedAnswer, CertifiedCycles, Item, Version};
use fs_kinds::{Fault, List};
use std::alloc::{AllocError, Global};

/// The certificate of a placement, with this tree and these witnesses.
fn fenced(
    alloc: Global,
    question: &Question,
    forbidden: &Forbidden,
    tree: List<Item>,
    witnesses: List<WitnessFile>,
) -> Result<Certificate, AllocError>
    ensures { IfOk result (IsFenced question.now forbidden.now tree witnesses) }
{
    Ok(Certificate {
        version: version_of(&forbidden.cycles),
        answer: answer_of(alloc, question.offers(), &forbidden.placement)?,
        cycles: cycles_of(alloc, &forbidden.cycles)?,
        tree,
        witnesses,
    })
}

/// The certificate of a finished board's bound: the bound is its answer, the board's tree shows that nothing better
/// forbids the outcome, and each of the board's witnesses stands in it once. The error is want of memory. It takes time
/// of nodes times slots, and of witnesses times the different ones among them.
pub fn from_board(alloc: Global, board: &Board, bound: &Forbidden) -> Result<Certificate, Fault>
    requires finished { is_finished board.now.board ≡ true }
    requires posted { board.now.board.bound ≡ Some bound.now.placement }
    requires cycles { ShowsForbidden board.now.question.test bound.now }
    ensures ok { IfOk result (Certifies board.now.question.test board.now.question.offers board.now.board.bound) }
    ensures once { IfOk result HasEachOnce }
    ensures err { IsOkUnless result Fault.Memory }
{
    let _legal = board.log();
    let question = board.question();
    let slots = question.offers().slots(alloc)?;
    let numbering = number_all(alloc, board.witnesses())?;
    let tree = tree_of(alloc, board, &slots, &numbering.numbers)?;
    let witnesses = List::new(numbering.files);
    Ok(fenced(alloc, question, bound, tree, witnesses)?)
}

/// The certificate of no fence at all, where that is shown to forbid the outcome: nothing is better, whatever the
/// offers. The error is want of memory.
pub fn from_least(
    alloc: Global,
    question: &Question,
    forbidden: &Forbidden,
) -> Result<Certificate, AllocError>
    requires least { forbidden.now.placement ≡ all_with None (slots question.now.offers) }
    requires cycles { ShowsForbidden question.now.test forbidden.now }
    ensures { IfOk result (Certifies question.now.test question.now.offers (Some forbidden.now.placement)) }
{
    let mut tree = Vec::new(alloc);
    tree.push(Item::Costly)?;
    fenced(
        alloc,
        question,
        forbidden,
        List::new(tree),
        List::new(Vec::new(alloc)),
    )
}

/// The certificate of the answer none, by this witness, of a test that shows the outcome even with `rw,rw` in every
/// slot. It is of the fourth version, as nothing is listed. The error is want of memory.
pub fn from_witness(alloc: Global, witness: &Witness) -> Result<Certificate, AllocError>
    ensures { IfOk result (λ made. (t : Test) (offers : Offers) (e : Execution)
        → HasNoRunFault t → IsWitnessFor t witness.now e → RefutesAll t e
        → CertifiesNone t offers witness.now.witness made) }
{
    let mut witnesses = Vec::new(alloc);
    witnesses.push(witness_of(alloc, witness)?)?;
    Ok(Certificate {
        version: Version::Fourth,
        answer: CertifiedAnswer::NoneForbids,
        cycles: CertifiedCycles::Inferred(List::new(Vec::new(alloc))),
        tree: List::new(Vec::new(alloc)),
        witnesses: List::new(witnesses),
    })
}
