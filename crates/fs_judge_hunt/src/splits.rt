//! How a region is split into smaller ones: those that the check of a tree makes, in its order.

use crate::access::{Doing, class_of};
use crate::endings::Outlook;
use crate::facts::Facts;
use crate::names::Origin;
use crate::portions::Portion;
use crate::region::{Field, Region};
use crate::rows::{Group, Row, are_same, both, do_meet, is_empty, join_both, without};
use fs_cert_evidence::Inference;
use std::alloc::{AllocError, Global};

/// How a region is split.
#[derive(Clone, Copy)]
pub(crate) enum Decision {
    Choice(u8),
    Source(u8),
    Order(u8, u8),
    Cases(usize),
    Filter(u8),
}

/// What splits a region.
#[derive(Clone, Copy)]
pub(crate) struct Splitter<'a> {
    pub(crate) alloc: Global,
    pub(crate) field: Field<'a>,
}

/// The runs of two harts in which a load agrees with a store: empty rows where there are none.
#[derive(Drop)]
struct Agreeing {
    loading: Row,
    storing: Row,
}

/// A load and a store of two harts: the runs that are left of these, and what they do, by location and word.
#[derive(Clone, Copy)]
pub(crate) struct Parties<'a> {
    left: &'a [u64],
    loads: &'a [Group],
    others: &'a [u64],
    stores: &'a [Group],
}

impl Decision {
    /// The inference that makes it.
    pub(crate) fn inference(self, field: Field<'_>) -> Inference {
        match self {
            Decision::Choice(name) => Inference::ByChoice(field.name(name)),
            Decision::Source(load) => Inference::BySource(field.name(load)),
            Decision::Order(first, second) => Inference::ByOrder {
                first: field.name(first),
                second: field.name(second),
            },
            Decision::Cases(number) => Inference::ByCases(number),
            Decision::Filter(hart) => Inference::Filter(hart),
        }
    }
}

impl Agreeing {
    /// Adds a class's runs, of which both harts have some left.
    fn add_class(
        &mut self,
        alloc: Global,
        parties: Parties<'_>,
        loads: &[u64],
        stores: &[u64],
    ) -> Result<(), AllocError> {
        if self.loading.is_empty() {
            self.loading = both(alloc, parties.left, loads)?;
            self.storing = both(alloc, parties.others, stores)?;
        } else {
            join_both(&mut self.loading, parties.left, loads);
            join_both(&mut self.storing, parties.others, stores);
        }
        Ok(())
    }

    /// Adds those of each class that is among both. Mostly few classes have runs left, and none is among both.
    fn add_classes(&mut self, alloc: Global, parties: Parties<'_>) -> Result<(), AllocError> {
        for class in parties.loads {
            if !do_meet(parties.left, &class.row) {
                continue;
            }
            if let Some(other) = class_of(parties.stores, class.key) {
                if do_meet(parties.others, &other.row) {
                    self.add_class(alloc, parties, &class.row, &other.row)?;
                }
            }
        }
        Ok(())
    }
}

impl Parties<'_> {
    /// Do the two agree in runs that are left?
    pub(crate) fn do_agree(self) -> bool {
        for class in self.loads {
            if !do_meet(self.left, &class.row) {
                continue;
            }
            if let Some(other) = class_of(self.stores, class.key) {
                if do_meet(self.others, &other.row) {
                    return true;
                }
            }
        }
        false
    }

    /// The runs that are left in which they do.
    fn agreeing(self, alloc: Global) -> Result<Agreeing, AllocError> {
        let mut agreeing = Agreeing {
            loading: Vec::new(alloc),
            storing: Vec::new(alloc),
        };
        agreeing.add_classes(alloc, self)?;
        Ok(agreeing)
    }

    /// Are these all runs that are left?
    pub(crate) fn are_whole(self, alloc: Global) -> Result<bool, AllocError> {
        let agreeing = self.agreeing(alloc)?;
        Ok(are_same(&agreeing.loading, self.left) && are_same(&agreeing.storing, self.others))
    }
}

/// The runs in which the load has the address and the word of the hart's store.
pub(crate) fn own_row(doing: &Doing, store: u8) -> &[u64] {
    for own in &doing.own {
        if own.store == store {
            return own.row.as_slice();
        }
    }
    &[]
}

impl<'a> Splitter<'a> {
    /// The regions that the decision makes of this one.
    pub(crate) fn regions(
        self,
        region: &Region,
        decision: Decision,
    ) -> Result<Vec<Box<Region>>, AllocError> {
        let mut regions = Vec::new(self.alloc);
        for portion in self.portions(region, decision, usize::MAX)? {
            if let Some(made) = self.make(region, portion)? {
                regions.push(made)?;
            }
        }
        Ok(regions)
    }

    /// The one of this number, if it makes so many.
    pub(crate) fn region(
        self,
        region: &Region,
        decision: Decision,
        number: usize,
    ) -> Result<Option<Box<Region>>, AllocError> {
        let portions = self.portions(region, decision, number.saturating_add(1))?;
        if number < portions.len() {
            self.make(region, portions[number])
        } else {
            Ok(None)
        }
    }

    /// The portion of the region, if it has candidates.
    pub(crate) fn make(
        self,
        region: &Region,
        portion: Portion,
    ) -> Result<Option<Box<Region>>, AllocError> {
        match portion {
            Portion::Choice(name, place) => {
                let hart = self.field.owner(name);
                self.with_some(region, hart, self.choice_row(name, place))
            }
            Portion::Idle(load) => self.idle(region, load),
            Portion::Source(load, origin) => {
                let some = self.with_source(region, load, origin)?;
                Ok(returning(some, load, origin))
            }
            Portion::Ordered(first, second) => {
                let mut ordered = region.copy(self.alloc)?;
                ordered.before.add(first, second);
                Ok(Some(ordered))
            }
            Portion::Case(number, way) => self.case(region, number, way),
            Portion::Showing(hart) => {
                let row = self.showing_row(region, hart)?;
                self.with_some(region, hart, &row)
            }
        }
    }

    /// The region with only those of the hart's runs that are in the row, if one is.
    fn with_some(
        self,
        region: &Region,
        hart: u8,
        row: &[u64],
    ) -> Result<Option<Box<Region>>, AllocError> {
        region.with_some(self.alloc, self.field, hart, row)
    }

    /// The runs with the choice of this place at the name.
    pub(crate) fn choice_row(self, name: u8, place: usize) -> &'a [u64] {
        match self.field.doing(name) {
            Some(doing) if place < doing.choices.len() => doing.choices[place].row.as_slice(),
            _ => &[],
        }
    }

    /// The hart's runs with which the outcome may be shown.
    pub(crate) fn showing_row(self, region: &Region, hart: u8) -> Result<Row, AllocError> {
        let facts = Facts::of(self.field, region);
        let outlook = Outlook {
            field: self.field,
            region,
            facts: &facts,
        };
        outlook.showing(self.alloc, hart)
    }

    /// The candidates in which the load isn't executed.
    fn idle(self, region: &Region, load: u8) -> Result<Option<Box<Region>>, AllocError> {
        let hart = self.field.owner(load);
        match self.field.doing(load) {
            Some(doing) => {
                let idle = without(self.alloc, region.row(hart), &doing.loads.any)?;
                self.with_some(region, hart, &idle)
            }
            None => Ok(None),
        }
    }

    /// The candidates in which the load may return from this.
    fn with_source(
        self,
        region: &Region,
        load: u8,
        origin: Origin,
    ) -> Result<Option<Box<Region>>, AllocError> {
        let Some(doing) = self.field.doing(load) else {
            return Ok(None);
        };
        let hart = self.field.owner(load);
        match origin {
            Origin::Unknown => Ok(None),
            Origin::Initial => self.with_some(region, hart, &doing.initial),
            Origin::From(store) if self.field.owner(store) == hart => {
                self.with_some(region, hart, own_row(doing, store))
            }
            Origin::From(store) => self.from_another(region, load, store),
        }
    }

    /// The load and the store of another hart.
    pub(crate) fn parties<'b>(self, region: &'b Region, load: u8, store: u8) -> Option<Parties<'b>>
    where
        'a: 'b,
    {
        let loading = self.field.doing(load)?;
        let storing = self.field.doing(store)?;
        Some(Parties {
            left: region.row(self.field.owner(load)),
            loads: &loading.loads.classes,
            others: region.row(self.field.owner(store)),
            stores: &storing.stores.classes,
        })
    }

    /// The candidates in which the load agrees with the store of another hart.
    fn from_another(
        self,
        region: &Region,
        load: u8,
        store: u8,
    ) -> Result<Option<Box<Region>>, AllocError> {
        let Some(parties) = self.parties(region, load, store) else {
            return Ok(None);
        };
        let Agreeing { loading, storing } = parties.agreeing(self.alloc)?;
        if is_empty(&loading) || is_empty(&storing) {
            return Ok(None);
        }
        let mut smaller = region.copy(self.alloc)?;
        smaller.keep(self.alloc, self.field, self.field.owner(load), loading)?;
        smaller.keep(self.alloc, self.field, self.field.owner(store), storing)?;
        Ok(Some(smaller))
    }
}

/// The region in which the load returns from this.
fn returning(region: Option<Box<Region>>, load: u8, origin: Origin) -> Option<Box<Region>> {
    let mut region = region?;
    region.set_origin(load, origin);
    Some(region)
}
