//! What the runs of a hart that are left have in common.

use crate::access::{Access, Doing, NOWHERE};
use crate::hart::Hart;
use crate::names::bit;
use crate::rows::{Row, do_meet, is_within};
use crate::rules::Rule;
use std::alloc::{AllocError, Global};

/// A store through which rule 12 puts a name before another one, where that returns from the store.
#[derive(Clone, Copy)]
pub(crate) struct Through {
    pub(crate) first: u8,
    pub(crate) store: u8,
    pub(crate) second: u8,
}

/// What holds at one name in all runs that are left of its hart. The sets are of names that come after it.
#[derive(Clone, Copy)]
pub(crate) struct Common {
    /// The location that each run loads from.
    pub(crate) load_at: u8,
    pub(crate) store_at: u8,
    /// What one rule but 4 orders in each run, whatever loads return from.
    pub(crate) ordered: u64,
    /// What rule 2 orders, where the two return from different stores.
    pub(crate) same: u64,
    /// What rule 3 orders, where the second returns from the first.
    pub(crate) returned: u64,
    /// The sc.w of a pair with the lr.w.
    pub(crate) pairs: u64,
}

/// What holds in all runs that are left of a hart, or in some. The sets are of names.
#[derive(Drop)]
pub(crate) struct Sum {
    /// Those that load in each run.
    pub(crate) loads: u64,
    pub(crate) stores: u64,
    /// Those that load in some run.
    pub(crate) may_load: u64,
    pub(crate) may_store: u64,
    /// The hart's first name, and what is common at this and at those behind it.
    pub(crate) first: u8,
    pub(crate) names: Vec<Common>,
    pub(crate) through: Vec<Through>,
}

/// Runs of a hart, and what they have in common.
#[derive(Drop)]
pub(crate) struct Left {
    pub(crate) row: Row,
    pub(crate) sum: Sum,
}

/// Nothing is common at a name.
const NOTHING: Common = Common {
    load_at: NOWHERE,
    store_at: NOWHERE,
    ordered: 0,
    same: 0,
    returned: 0,
    pairs: 0,
};

fn blank(alloc: Global, hart: &Hart) -> Result<Sum, AllocError> {
    Ok(Sum {
        loads: 0,
        stores: 0,
        may_load: 0,
        may_store: 0,
        first: hart.first(),
        names: Vec::with_capacity(alloc, hart.doings.len())?,
        through: Vec::new(alloc),
    })
}

/// The location that each of the runs accesses.
fn place_in(access: &Access, row: &[u64]) -> u8 {
    for place in &access.places {
        if do_meet(row, &place.row) {
            return if is_within(row, &place.row) {
                place.location
            } else {
                NOWHERE
            };
        }
    }
    NOWHERE
}

impl Common {
    /// Takes a rule that puts this name before another.
    fn add_rule(&mut self, rule: &Rule) {
        let second = bit(rule.second);
        match rule.number {
            2 => self.same |= second,
            3 => self.returned |= second,
            8 => {
                self.pairs |= second;
                self.ordered |= second;
            }
            _ => self.ordered |= second,
        }
    }
}

impl Sum {
    /// Takes what the runs load at the name. The location that each loads from.
    fn add_loads(&mut self, name: u8, access: &Access, row: &[u64]) -> u8 {
        if do_meet(row, &access.any) {
            self.may_load |= bit(name);
        }
        if !is_within(row, &access.any) {
            return NOWHERE;
        }
        self.loads |= bit(name);
        place_in(access, row)
    }

    /// The same of what they store.
    fn add_stores(&mut self, name: u8, access: &Access, row: &[u64]) -> u8 {
        if do_meet(row, &access.any) {
            self.may_store |= bit(name);
        }
        if !is_within(row, &access.any) {
            return NOWHERE;
        }
        self.stores |= bit(name);
        place_in(access, row)
    }

    /// Takes what the runs do at the name, which comes next.
    fn add_name(&mut self, name: u8, doing: &Doing, row: &[u64]) -> Result<(), AllocError> {
        let mut common = NOTHING;
        common.load_at = self.add_loads(name, &doing.loads, row);
        common.store_at = self.add_stores(name, &doing.stores, row);
        self.names.push(common)?;
        Ok(())
    }

    /// What is common at the name.
    pub(crate) fn common(&self, name: u8) -> Option<&Common> {
        self.names.get(usize::from(name.checked_sub(self.first)?))
    }

    fn add_rule(&mut self, rule: &Rule) {
        let place = usize::from(rule.first.saturating_sub(self.first));
        if let Some(common) = self.names.get_mut(place) {
            common.add_rule(rule);
        }
    }

    /// Takes the rules that hold in each of the runs.
    fn add_rules(&mut self, rules: &[Rule], row: &[u64]) {
        for rule in rules {
            if rule.is_whole || is_within(row, &rule.row) {
                self.add_rule(rule);
            }
        }
    }

    fn add_through(&mut self, hart: &Hart, row: &[u64]) -> Result<(), AllocError> {
        for forwarded in &hart.forwarded {
            if is_within(row, &forwarded.row) {
                self.through.push(Through {
                    first: forwarded.first,
                    store: forwarded.store,
                    second: forwarded.second,
                })?;
            }
        }
        Ok(())
    }
}

/// These runs of the hart, with what they have in common but for rule 4.
pub(crate) fn left_with(alloc: Global, hart: &Hart, row: Row) -> Result<Left, AllocError> {
    let mut sum = blank(alloc, hart)?;
    let mut name = sum.first;
    for doing in &hart.doings {
        sum.add_name(name, doing, &row)?;
        name = name.saturating_add(1);
    }
    sum.add_rules(&hart.rules, &row);
    sum.add_through(hart, &row)?;
    Ok(Left { row, sum })
}
