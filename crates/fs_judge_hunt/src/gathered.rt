//! What several have hunted, put together.

use crate::crew::Left;
use crate::frames::{Hunted, Search};
use crate::pieces::Piece;
use crate::region::Region;
use crate::tree::{Node, Tree};
use std::alloc::{AllocError, Global};

/// The pieces, as they come.
#[derive(Drop)]
struct Gathering {
    whole: Option<Search>,
    /// The trees of the others, by their tickets.
    trees: Vec<Option<Vec<Node>>>,
    /// A region in which nothing is left to decide, and the parts that lead to it.
    shown: Option<(Box<Region>, Vec<usize>)>,
    is_open: bool,
    looks: usize,
}

/// Puts the tree at the place of its ticket.
fn put_tree(
    trees: &mut Vec<Option<Vec<Node>>>,
    ticket: usize,
    tree: Vec<Node>,
) -> Result<(), AllocError> {
    for _ in trees.len()..ticket.saturating_add(1) {
        trees.push(None)?;
    }
    if let Some(place) = trees.get_mut(ticket) {
        *place = Some(tree);
    }
    Ok(())
}

impl Gathering {
    /// Takes what a piece came to.
    fn take_end(
        &mut self,
        alloc: Global,
        search: &Search,
        hunted: Option<Hunted>,
    ) -> Result<(), AllocError> {
        match hunted {
            Some(Hunted::Shown(region)) => self.shown = Some((region, search.parts(alloc)?)),
            Some(Hunted::Refuted) => {}
            _ => self.is_open = true,
        }
        Ok(())
    }

    fn take(&mut self, alloc: Global, piece: Piece) -> Result<(), AllocError> {
        let Piece {
            ticket,
            mut search,
            hunted,
        } = piece;
        self.looks = self.looks.saturating_add(search.looks());
        self.take_end(alloc, &search, hunted)?;
        match ticket {
            None => self.whole = Some(search),
            Some(ticket) => {
                let tree = search.tree.take_out(alloc, search.base)?;
                put_tree(&mut self.trees, ticket, tree)?;
            }
        }
        Ok(())
    }

    /// The tree of this ticket, if it came.
    fn take_tree(&mut self, ticket: usize) -> Option<Vec<Node>> {
        if ticket < self.trees.len() {
            self.trees[ticket].take()
        } else {
            None
        }
    }

    /// Puts the tree of this ticket in the place of the node. Where it is missing, the hunt isn't at its end.
    fn put_tree(
        &mut self,
        tree: &mut Tree,
        number: usize,
        ticket: usize,
    ) -> Result<(), AllocError> {
        match self.take_tree(ticket) {
            Some(moved) => tree.put_back(number, moved),
            None => {
                self.is_open = true;
                Ok(())
            }
        }
    }

    /// Puts each tree in its place, from the root on.
    fn put_all(&mut self, tree: &mut Tree) -> Result<(), AllocError> {
        for number in 0..usize::MAX {
            if number >= tree.nodes.len() {
                break;
            }
            if let Some(ticket) = tree.nodes[number].given.take() {
                self.put_tree(tree, number, ticket)?;
            }
        }
        Ok(())
    }

    /// What the whole search comes to.
    fn hunted(&mut self, search: &mut Search) -> Hunted {
        match self.shown.take() {
            Some((region, parts)) => {
                search.remember_parts(&parts);
                Hunted::Shown(region)
            }
            None if self.is_open => Hunted::GaveUp,
            None => Hunted::Refuted,
        }
    }
}

/// The pieces, put together.
fn gathering_of(alloc: Global, pieces: Vec<Piece>) -> Result<Gathering, AllocError> {
    let mut gathering = Gathering {
        whole: None,
        trees: Vec::new(alloc),
        shown: None,
        is_open: false,
        looks: 0,
    };
    for piece in pieces {
        gathering.take(alloc, piece)?;
    }
    Ok(gathering)
}

/// The whole search, with all that was hunted in pieces of it, and what it comes to. Nothing where the whole is missing.
pub(crate) fn gathered(alloc: Global, left: Left) -> Result<(Option<Search>, Hunted), AllocError> {
    let Left { pieces, learned } = left;
    let mut gathering = gathering_of(alloc, pieces)?;
    let Some(mut search) = gathering.whole.take() else {
        return Ok((None, Hunted::GaveUp));
    };
    gathering.put_all(&mut search.tree)?;
    search.learned = learned;
    search.trail.looks = gathering.looks;
    let hunted = gathering.hunted(&mut search);
    Ok((Some(search), hunted))
}
