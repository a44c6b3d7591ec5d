//! Regions: what is known of the candidates that are in one.

use crate::access::Doing;
use crate::condition::{Node, Wanted};
use crate::fenced::Fenced;
use crate::hart::Hart;
use crate::names::{MOST_NAMES, Origin, Relation};
use crate::needs::Fences;
use crate::rows::{Row, are_same, both, do_meet, is_empty, is_within};
use crate::sum::{Left, left_with};
use fs_kinds::{List, OperationName};
use std::alloc::{AllocError, Global};
use std::sync::Arc;

/// What a hunt is over.
#[derive(Clone, Copy)]
pub(crate) struct Field<'a> {
    pub(crate) harts: &'a [Hart],
    /// Rule 4 in each hart, with the placement.
    pub(crate) fenced: &'a [Fenced],
    /// What is placed.
    pub(crate) fences: Fences<'a>,
    pub(crate) nodes: &'a [Node],
    /// For each of the nodes that is an atom on a register, the runs of its hart with which it is true.
    pub(crate) atoms: &'a [Row],
    /// The words that locations begin with.
    pub(crate) words: &'a [u32],
    pub(crate) names: &'a [OperationName],
    /// How many names there are.
    pub(crate) count: u8,
}

/// The candidates with these runs, sources, orders and truth values.
#[derive(Drop)]
pub(crate) struct Region {
    /// For each hart.
    pub(crate) left: Vec<Arc<Left>>,
    pub(crate) origins: [Origin; MOST_NAMES],
    /// Stores that come earlier in coherence order than others.
    pub(crate) before: Relation,
    pub(crate) wanted: Arc<List<Wanted>>,
}

/// These runs of the hart.
fn shared_left(alloc: Global, hart: &Hart, row: Row) -> Result<Arc<Left>, AllocError> {
    let left = left_with(alloc, hart, row)?;
    Ok(Arc::new(alloc, left)?)
}

/// The condition of this truth value, wanted alone.
fn wanted_root(alloc: Global, truth: bool) -> Result<Arc<List<Wanted>>, AllocError> {
    let mut wanted = Vec::new(alloc);
    wanted.push(Wanted { node: 0, truth })?;
    Ok(Arc::new(alloc, List::new(wanted))?)
}

impl<'a> Field<'a> {
    /// The number of the name's hart.
    pub(crate) fn owner(&self, name: u8) -> u8 {
        self.name(name).hart
    }

    /// The name of this number.
    pub(crate) fn name(&self, number: u8) -> OperationName {
        let number = usize::from(number);
        if number < self.names.len() {
            self.names[number]
        } else {
            OperationName { hart: 255, at: 255 }
        }
    }

    pub(crate) fn hart_of(&self, name: u8) -> Option<&'a Hart> {
        let owner = usize::from(self.owner(name));
        if owner < self.harts.len() {
            Some(&self.harts[owner])
        } else {
            None
        }
    }

    /// What the runs of its hart do at the name.
    pub(crate) fn doing(&self, name: u8) -> Option<&'a Doing> {
        self.hart_of(name)?.doing(name)
    }

    /// Rule 4 in this hart.
    pub(crate) fn fenced_in(&self, hart: u8) -> Option<&'a Fenced> {
        let hart = usize::from(hart);
        if hart < self.fenced.len() {
            Some(&self.fenced[hart])
        } else {
            None
        }
    }

    /// All runs of each hart; nothing where some hart has none.
    fn all_left(&self, alloc: Global) -> Result<Option<Vec<Arc<Left>>>, AllocError> {
        let mut all = Vec::new(alloc);
        for hart in self.harts {
            if is_empty(&hart.all) {
                return Ok(None);
            }
            let left = shared_left(alloc, hart, hart.all.clone()?)?;
            all.push(left)?;
        }
        Ok(Some(all))
    }

    /// All candidates with the outcome, if there can be one. The condition is to have this truth value.
    pub(crate) fn root(
        &self,
        alloc: Global,
        truth: bool,
    ) -> Result<Option<Box<Region>>, AllocError> {
        let Some(left) = self.all_left(alloc)? else {
            return Ok(None);
        };
        let wanted = wanted_root(alloc, truth)?;
        let root = Region {
            left,
            origins: [Origin::Unknown; MOST_NAMES],
            before: Relation::new(),
            wanted,
        };
        Ok(Some(Box::new(alloc, root)?))
    }
}

fn share(alloc: Global, left: &[Arc<Left>]) -> Result<Vec<Arc<Left>>, AllocError> {
    let mut shared = Vec::with_capacity(alloc, left.len())?;
    for one in left {
        shared.push(Arc::try_clone(one)?)?;
    }
    Ok(shared)
}

impl Region {
    /// The same region.
    pub(crate) fn copy(&self, alloc: Global) -> Result<Box<Region>, AllocError> {
        let wanted = Arc::try_clone(&self.wanted)?;
        let left = share(alloc, &self.left)?;
        let copy = Region {
            left,
            origins: self.origins,
            before: self.before,
            wanted,
        };
        Ok(Box::new(alloc, copy)?)
    }

    /// What is left of the hart.
    pub(crate) fn left(&self, hart: u8) -> Option<&Left> {
        let hart = usize::from(hart);
        if hart < self.left.len() {
            Some(&*self.left[hart])
        } else {
            None
        }
    }

    /// The runs that are left of the hart.
    pub(crate) fn row(&self, hart: u8) -> &[u64] {
        let hart = usize::from(hart);
        if hart < self.left.len() {
            self.left[hart].row.as_slice()
        } else {
            &[]
        }
    }

    /// The names that store in some run.
    pub(crate) fn may_store(&self) -> u64 {
        let mut stores = 0;
        for left in &self.left {
            stores |= left.sum.may_store;
        }
        stores
    }

    /// What the load returns from.
    pub(crate) fn origin(&self, load: u8) -> Origin {
        let load = usize::from(load);
        if load < MOST_NAMES {
            self.origins[load]
        } else {
            Origin::Unknown
        }
    }

    pub(crate) fn set_origin(&mut self, load: u8, origin: Origin) {
        let load = usize::from(load);
        if load < MOST_NAMES {
            self.origins[load] = origin;
        }
    }

    /// Puts these runs in the place of the hart's.
    fn put(
        &mut self,
        alloc: Global,
        field: Field<'_>,
        hart: u8,
        row: Vec<u64>,
    ) -> Result<(), AllocError> {
        let hart = usize::from(hart);
        if hart < self.left.len() && hart < field.harts.len() {
            self.left[hart] = shared_left(alloc, &field.harts[hart], row)?;
        }
        Ok(())
    }

    /// Leaves only these of the hart's runs, at least one, which are among those that are left.
    pub(crate) fn keep(
        &mut self,
        alloc: Global,
        field: Field<'_>,
        hart: u8,
        row: Vec<u64>,
    ) -> Result<(), AllocError> {
        if are_same(&row, self.row(hart)) {
            return Ok(());
        }
        self.put(alloc, field, hart, row)
    }

    /// The region with only those of the hart's runs that are in the row, if one is.
    pub(crate) fn with_some(
        &self,
        alloc: Global,
        field: Field<'_>,
        hart: u8,
        row: &[u64],
    ) -> Result<Option<Box<Region>>, AllocError> {
        if !do_meet(self.row(hart), row) {
            return Ok(None);
        }
        let mut region = self.copy(alloc)?;
        if !is_within(self.row(hart), row) {
            region.put(alloc, field, hart, both(alloc, self.row(hart), row)?)?;
        }
        Ok(Some(region))
    }

    /// Are its runs among the other's?
    pub(crate) fn is_in(&self, other: &Region) -> bool {
        for hart in 0..self.left.len().min(other.left.len()) {
            if !is_within(&self.left[hart].row, &other.left[hart].row) {
                return false;
            }
        }
        true
    }
}
