//! A test with another condition.

ghost use Rattle.std.specs.Prelude.{◌≡◌, IfOk};
ghost use Rattle.fs_judge_outcomes.specs.inner.Parts.{with_condition};

use fs_model::{
    Code, Codes, Location, Locations, Name, Outcome, Quantifier, Registers, Starts, Test,
};
use std::alloc::{AllocError, Global};

fn copied_name(alloc: Global, name: &Name) -> Result<Name, AllocError>
    ensures { IfOk result (λ made. made ≡ name.now) }
{
    Ok(Name::new(String::from_str(alloc, name.as_str())?))
}

fn copied_codes(alloc: Global, codes: &[Code]) -> Result<Codes, AllocError>
    ensures { IfOk result (λ made. made ≡ codes.now) }
{
    let mut made = Vec::new(alloc);
    for code in codes {
        made.push(Code::new(Vec::from_slice(alloc, code.as_slice())?))?;
    }
    Ok(Codes::new(made))
}

fn copied_starts(alloc: Global, starts: &[Registers]) -> Result<Starts, AllocError>
    ensures { IfOk result (λ made. made ≡ starts.now) }
{
    let mut made = Vec::new(alloc);
    for words in starts {
        made.push(Registers::new(Vec::from_slice(alloc, words.as_slice())?))?;
    }
    Ok(Starts::new(made))
}

fn copied_locations(alloc: Global, locations: &[Location]) -> Result<Locations, AllocError>
    ensures { IfOk result (λ made. made ≡ locations.now) }
{
    let mut made = Vec::new(alloc);
    for location in locations {
        let name = copied_name(alloc, &location.name)?;
        let word = location.word;
        made.push(Location { name, word })?;
    }
    Ok(Locations::new(made))
}

/// The test, asking for a state in which the condition is true. Linear in the test.
pub(crate) fn asked(alloc: Global, test: &Test, condition: Outcome) -> Result<Test, AllocError>
    ensures { IfOk result (λ made. made ≡ with_condition condition test.now) }
{
    let name = copied_name(alloc, &test.name)?;
    let codes = copied_codes(alloc, test.codes.as_slice())?;
    let starts = copied_starts(alloc, test.starts.as_slice())?;
    let locations = copied_locations(alloc, test.locations.as_slice())?;
    Ok(Test {
        name,
        codes,
        starts,
        locations,
        quantifier: Quantifier::Exists,
        condition,
    })
}
