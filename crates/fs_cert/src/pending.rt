//! The nodes that a walk has still to visit.

ghost use Rattle.std.specs.Prelude.{◌≡◌, ◌+◌, ◌<◌, ◌^◌, [], ◌∷◌, ◌++◌, IfOk, OnOk, IfSome, IfNone};
ghost use Rattle.std.specs.List.{range_with_len};
ghost use Rattle.fs_cert_evidence.specs.CertificateFile.{most_number};
ghost use Rattle.fs_board.specs.View.{status_of};
ghost use Rattle.fs_cert.specs.inner.Items.{below, AreBelow};

use fs_board::Status;
use std::alloc::{AllocError, Global};
use std::marker::Model;

/// Numbers of nodes, of which the next one to be visited is the first. The walk keeps no more of them than the test's
/// slots times the ways to decide one.
#[derive(Drop)]
pub(crate) struct Pending {
    nodes: Vec<usize>,
}

impl Model for Pending {
    ghost use Rattle.std.specs.Prelude.{ℕ, List, reverse};

    ghost Value = { List ℕ };

    ghost view = { λ p. reverse p.nodes.items };
}

impl Pending {
    /// The root alone.
    pub(crate) fn new(alloc: Global) -> Result<Pending, AllocError>
        ensures { IfOk result (λ p. p ≡ 0 ∷ []) }
    {
        let mut nodes = Vec::new(alloc);
        nodes.push(0)?;
        Ok(Pending { nodes })
    }

    /// Takes the first node off.
    pub(crate) fn pop(&mut self) -> Option<usize>
        ensures some { IfSome result (λ node. self.old ≡ node ∷ self.new) }
        ensures none { IfNone result (self.old ≡ []) }
    {
        self.nodes.pop()
    }

    /// Puts a node before the others.
    fn push(&mut self, node: usize) -> Result<(), AllocError>
        ensures { OnOk result (self.new ≡ node ∷ self.old) }
    {
        self.nodes.push(node)?;
        Ok(())
    }

    /// Puts so many nodes before the others, from one on, in their order.
    fn push_run(&mut self, first: usize, count: usize) -> Result<(), AllocError>
        requires { first + count < 2 ^ 64 }
        ensures { OnOk result (self.new ≡ range_with_len first count ++ self.old) }
    {
        for place in (0..count).rev() {
            self.push(first + place)?;
        }
        Ok(())
    }

    /// Puts the children of a node of this status before the others, where a split makes so many.
    pub(crate) fn push_children(&mut self, status: Status, ways: usize) -> Result<(), AllocError>
        requires { AreBelow ways most_number (status_of status) }
        ensures { OnOk result (self.new ≡ below ways (status_of status) ++ self.old) }
    {
        if let Status::Split(_, first) = status {
            self.push_run(first, ways)?;
        }
        Ok(())
    }
}
