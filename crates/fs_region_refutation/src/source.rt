//! What a load returns from, by name.

ghost use Rattle.std.specs.Prelude.{◌≡◌};
ghost use Rattle.fs_cert_evidence.specs.Regions.{same_source};
ghost use Rattle.fs_region_refutation.specs.Alone.{source_of};

use fs_kinds::OperationName;

/// What a load returns from: the initial store of its location, or the operation of this name.
#[derive(Clone, Copy)]
pub enum Source {
    Initial,
    From(OperationName),
}

/// A name, and what is known of what its operation returns from.
#[derive(Clone, Copy)]
pub struct Sourced {
    pub name: OperationName,
    pub source: Option<Source>,
}

/// Are both the initial store, or both the operation of one name?
pub(crate) fn is_same_source(first: Source, second: Source) -> bool
    ensures { result ≡ same_source (source_of first) (source_of second) }
{
    match (first, second) {
        (Source::Initial, Source::Initial) => true,
        (Source::From(first), Source::From(second)) => {
            first.hart == second.hart && first.at == second.at
        }
        _ => false,
    }
}
