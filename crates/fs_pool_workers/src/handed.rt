//! The board that workers leave.

ghost use Rattle.std.specs.Prelude.{IfSome, drop};
ghost use Rattle.fs_board_offers.specs.Receipts.{IsAgreed};
ghost use Rattle.fs_pool.specs.Asked.{IsAsked};

use fs_board::Board;
use fs_pool::{Asked, Desk, Pass, finish};

/// The board that the workers leave, with nodes that are open or held where they lacked memory or met the limit: its
/// log since the desk was made agrees with the passes. None where `finish` hands none out: then the lock or the threads
/// didn't do as they should. The cost is that of `finish`.
pub(crate) fn handed_out<A: Asked>(desk: Desk<A>, passes: Vec<Pass<A>>) -> Option<Board>
    ensures asked { IfSome result (λ b. IsAsked b A.question A.limit) }
    ensures agreed { IfSome result (λ b. IsAgreed passes.items (drop desk.since b.log)) }
{
    finish(desk, passes).ok()
}
