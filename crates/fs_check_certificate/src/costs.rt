//! Whether the floor of a part is better than the answer.

ghost use Rattle.std.specs.Prelude.{◌≡◌};
ghost use Rattle.fs_cert_evidence.specs.Certificate.{First, Second};
ghost use Rattle.fs_board_offers.specs.Valid.{is_costly};

use fs_board_offers::{Offers, cost, floor_cost};
use fs_cert_evidence::Decision;
use fs_kinds::Entry;

/// Does the part's floor cost no less than the answer? So a leaf is closed by its cost in the first version.
pub(crate) fn is_dearer(offers: &Offers, answer: &[Entry], part: &[Decision]) -> bool
    ensures { result ≡ is_costly First offers.now answer.now part.now }
{
    cost(offers, answer) <= floor_cost(offers, part)
}

/// Does the part's floor cost more than the answer, or as much and isn't before it? So a leaf is closed by its cost
/// in the other versions.
pub(crate) fn is_no_better(offers: &Offers, answer: &[Entry], part: &[Decision]) -> bool
    ensures { result ≡ is_costly Second offers.now answer.now part.now }
{
    fs_board_offers::is_no_better(offers, answer, part, Some(floor_cost(offers, part)))
}
