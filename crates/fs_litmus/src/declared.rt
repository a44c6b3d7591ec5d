//! The locations that a test declares.

ghost use Rattle.std.specs.Prelude.{◌≡◌, ◌++◌, [], map, IfOk, OnOk};
ghost use Rattle.fs_litmus_syntax.specs.Init.{entries_of};
ghost use Rattle.fs_litmus_syntax.specs.Views.{atom_of};
ghost use Rattle.fs_litmus.specs.Locations.{declared};
ghost use Rattle.fs_litmus.specs.Settings.{entry_bindings};

use crate::names::Names;
use fs_litmus_syntax::{Atom, Entry};
use std::alloc::{AllocError, Global};

fn declare_entries<'a>(names: &mut Names<'a>, entries: &[Entry<'a>]) -> Result<(), AllocError>
    ensures { OnOk result (names.new ≡ declared names.old (entry_bindings (entries_of entries.now))) }
{
    for entry in entries {
        names.declare(entry.target, entry.value)?;
    }
    Ok(())
}

fn declare_atoms<'a>(names: &mut Names<'a>, atoms: &[Atom<'a>]) -> Result<(), AllocError>
    ensures { OnOk result (names.new ≡ declared names.old (map atom_of atoms.now)) }
{
    for atom in atoms {
        names.declare(atom.target, atom.value)?;
    }
    Ok(())
}

/// The locations that a test declares, in order of first appearance: in the initial values, and then in the condition.
pub fn declared_names<'a>(
    alloc: Global,
    entries: &[Entry<'a>],
    atoms: &[Atom<'a>],
) -> Result<Names<'a>, AllocError>
    ensures { IfOk result (λ n. n
        ≡ declared (declared [] (entry_bindings (entries_of entries.now))) (map atom_of atoms.now)) }
{
    let mut names = Names::new(alloc);
    declare_entries(&mut names, entries)?;
    declare_atoms(&mut names, atoms)?;
    Ok(names)
}
