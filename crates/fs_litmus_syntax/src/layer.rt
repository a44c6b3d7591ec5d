//! What stands before a unit of a condition.

ghost use Rattle.std.specs.Prelude.{◌≡◌, ◌<◌, IfOk, option_map};
ghost use Rattle.fs_litmus_syntax.specs.Machine.{joined, denied, empty, with_denial, with_unit, with_conjunction};
ghost use Rattle.fs_litmus_syntax.specs.Machine.{with_premise, sum_of, total_of};
ghost use Rattle.fs_litmus_syntax.specs.Limited.{limited};
ghost use Rattle.fs_litmus_syntax.specs.Views.{subformula_of, layer_of};

use crate::subformula::{Connective, Subformula};
use std::alloc::{AllocError, Global};

/// What stands before a unit inside one pair of parentheses. 80 bytes.
#[derive(Drop)]
pub struct Layer<'a> {
    /// The disjunctions that are read with `=>` behind them, denied and joined by `\/`.
    pub premises: Option<Subformula<'a>>,
    /// The conjunctions that are read, joined by `\/`.
    pub sum: Option<Subformula<'a>>,
    /// The units of this conjunction that are read, joined by `/\`.
    pub product: Option<Subformula<'a>>,
    /// How many denials stand before the unit.
    pub denials: usize,
}

/// So many denials of a unit.
fn denied<'a>(
    alloc: Global,
    denials: usize,
    unit: Subformula<'a>,
) -> Result<Subformula<'a>, AllocError>
    ensures { IfOk result (λ p. subformula_of p ≡ denied limited.deny denials (subformula_of unit.entry)) }
{
    let mut subformula = unit;
    for _i in 0..denials {
        subformula = subformula.denied(alloc)?;
    }
    Ok(subformula)
}

/// The units that `/\` joins, with the last of them.
fn product<'a>(
    alloc: Global,
    before: Option<Subformula<'a>>,
    denials: usize,
    unit: Subformula<'a>,
) -> Result<Subformula<'a>, AllocError>
    ensures { IfOk result (λ p. subformula_of p
        ≡ joined limited.both (option_map subformula_of before.entry) (denied limited.deny denials
        (subformula_of unit.entry))) }
{
    let subformula = denied(alloc, denials, unit)?;
    match before {
        None => Ok(subformula),
        Some(before) => before.connected(alloc, Connective::And, subformula),
    }
}

/// A part, `\/` and another; or that one alone.
fn either<'a>(
    alloc: Global,
    before: Option<Subformula<'a>>,
    other: Subformula<'a>,
) -> Result<Subformula<'a>, AllocError>
    ensures { IfOk result (λ p. subformula_of p
        ≡ joined limited.either (option_map subformula_of before.entry) (subformula_of other.entry)) }
{
    match before {
        None => Ok(other),
        Some(before) => before.connected(alloc, Connective::Or, other),
    }
}

impl<'a> Layer<'a> {
    /// Nothing is read yet.
    pub fn new() -> Layer<'a>
        ensures { layer_of result ≡ empty }
    {
        Layer {
            premises: None,
            sum: None,
            product: None,
            denials: 0,
        }
    }

    /// One more denial.
    pub fn with_denial(self) -> Layer<'a>
        requires { self.denials < usize.MAX }
        ensures { layer_of result ≡ with_denial (layer_of self.entry) }
    {
        let Layer {
            premises,
            sum,
            product,
            denials,
        } = self;
        Layer {
            premises,
            sum,
            product,
            denials: denials + 1,
        }
    }

    /// The unit, and then `/\`.
    pub fn with_unit(self, alloc: Global, unit: Subformula<'a>) -> Result<Layer<'a>, AllocError>
        ensures { IfOk result (λ l. layer_of l ≡ with_unit limited (layer_of self.entry) (subformula_of unit.entry)) }
    {
        let Layer {
            premises,
            sum,
            product: before,
            denials,
        } = self;
        let subformula = product(alloc, before, denials, unit)?;
        Ok(Layer {
            premises,
            sum,
            product: Some(subformula),
            denials: 0,
        })
    }

    /// The premises, and the disjunction behind them with its last unit.
    fn sum(
        self,
        alloc: Global,
        unit: Subformula<'a>,
    ) -> Result<(Option<Subformula<'a>>, Subformula<'a>), AllocError>
        ensures premises { IfOk result (λ x. option_map subformula_of x.0
            ≡ option_map subformula_of self.entry.premises) }
        ensures sum { IfOk result (λ x. subformula_of x.1
            ≡ sum_of limited (layer_of self.entry) (subformula_of unit.entry)) }
    {
        let Layer {
            premises,
            sum,
            product: before,
            denials,
        } = self;
        let subformula = product(alloc, before, denials, unit)?;
        let sum = either(alloc, sum, subformula)?;
        Ok((premises, sum))
    }

    /// The unit, and then `\/`.
    pub fn with_conjunction(
        self,
        alloc: Global,
        unit: Subformula<'a>,
    ) -> Result<Layer<'a>, AllocError>
        ensures { IfOk result (λ l. layer_of l
            ≡ with_conjunction limited (layer_of self.entry) (subformula_of unit.entry)) }
    {
        let (premises, sum) = self.sum(alloc, unit)?;
        Ok(Layer {
            premises,
            sum: Some(sum),
            product: None,
            denials: 0,
        })
    }

    /// The unit, and then `=>`.
    pub fn with_premise(self, alloc: Global, unit: Subformula<'a>) -> Result<Layer<'a>, AllocError>
        ensures { IfOk result (λ l. layer_of l
            ≡ with_premise limited (layer_of self.entry) (subformula_of unit.entry)) }
    {
        let (premises, sum) = self.sum(alloc, unit)?;
        let denial = sum.denied(alloc)?;
        let premises = either(alloc, premises, denial)?;
        Ok(Layer {
            premises: Some(premises),
            sum: None,
            product: None,
            denials: 0,
        })
    }

    /// The whole of the layer, with its last unit.
    pub fn total(self, alloc: Global, unit: Subformula<'a>) -> Result<Subformula<'a>, AllocError>
        ensures { IfOk result (λ p. subformula_of p
            ≡ total_of limited (layer_of self.entry) (subformula_of unit.entry)) }
    {
        let (premises, sum) = self.sum(alloc, unit)?;
        either(alloc, premises, sum)
    }
}
