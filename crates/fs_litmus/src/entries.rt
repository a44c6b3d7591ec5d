//! The block of initial values, as settings.

ghost use Rattle.std.specs.Prelude.{◌≡◌, ◌≢◌, ◌++◌, ◌∷◌, IfOk, IfErr, IfSome, IsTrue, not, option_and_then, Some, []};
ghost use Rattle.std.specs.Prelude.{List};
ghost use Rattle.std.specs.List.{list_any};
ghost use Rattle.fs_litmus_syntax.specs.Init.{entries_of};
ghost use Rattle.fs_kinds.specs.FaultOrder.{IsFirst};
ghost use Rattle.fs_litmus.specs.Checks.{IsEntryFault};
ghost use Rattle.fs_litmus.specs.Rising.{Rising, entry_lines};
ghost use Rattle.fs_litmus.specs.Settings.{entry_bindings, settings_after, is_x0, same_holder, fresh};

use crate::names::Names;
use crate::settings::{Holder, Setting, setting_of};
use fs_kinds::Fault;
use fs_litmus_syntax::Entry;
use indexmap::IndexSet;
use std::alloc::{AllocError, Global};

fn is_x0(holder: Holder) -> bool
    ensures { result ≡ is_x0 holder }
{
    match holder {
        Holder::Register(_, register) => register == 0,
        Holder::Location(_) => false,
    }
}

/// Is the holder new? It is among those that were seen from then on.
fn see(seen: &mut IndexSet<Holder>, holder: Holder) -> Result<bool, AllocError>
    ensures added { IfOk result (λ new. new ≡ not (list_any (same_holder holder) seen.old.keys)) }
    ensures keys { IfOk result (λ new. IsTrue new → seen.new.keys ≡ seen.old.keys ++ holder ∷ []) }
{
    Ok(seen.insert(holder)?)
}

/// The setting, unless it is of x0 or of a holder that was seen. Its holder is among those that were seen from then on.
fn fresh(seen: &mut IndexSet<Holder>, found: Option<Setting>) -> Result<Option<Setting>, AllocError>
    ensures value { IfOk result (λ s. s ≡ option_and_then (fresh seen.old.keys) found) }
    ensures keys { IfOk result (λ r. IfSome r (λ s. seen.new.keys ≡ seen.old.keys ++ s.holder ∷ [])) }
{
    let Some(setting) = found else {
        return Ok(None);
    };
    if is_x0(setting.holder) {
        return Ok(None);
    }
    if see(seen, setting.holder)? {
        Ok(Some(setting))
    } else {
        Ok(None)
    }
}

/// What the entries of the block of initial values set. F7, with the line of the first token of the entry's target, at
/// the first entry with a hart that has no column, an unknown register, x0, a number out of range, or a target a second
/// time; F19. Linear in the entries.
pub fn read_settings(
    alloc: Global,
    columns: usize,
    names: &Names,
    entries: &[Entry],
) -> Result<Vec<Setting>, Fault>
    requires rising { Rising 0 (entry_lines (entries_of entries.now)) }
    ensures ok { IfOk result (λ v. settings_after columns names.now [] (entry_bindings (entries_of entries.now))
        ≡ Some v.items) }
    ensures first { IfErr result (λ f. f ≢ Fault.Memory
        → IsFirst (IsEntryFault columns names.now (entries_of entries.now)) f) }
{
    let mut settings = Vec::new(alloc);
    let mut seen = IndexSet::new(alloc);
    for entry in entries {
        let found = setting_of(columns, names, entry.target, entry.value);
        let Some(setting) = fresh(&mut seen, found)? else {
            return Err(Fault::BadInit { line: entry.line });
        };
        settings.push(setting)?;
    }
    Ok(settings)
}
