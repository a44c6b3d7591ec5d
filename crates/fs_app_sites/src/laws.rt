//! Laws of what is printed. The function does nothing: it stands for the laws that it promises.

ghost use Rattle.std.specs.Prelude.{◌≡◌, ℕ, List, Option, true};
ghost use Rattle.fs_kinds.specs.declared.kind.Kind.{Kind};
ghost use Rattle.fs_kinds.specs.declared.slot.Slot.{Slot};
ghost use Rattle.fs_kinds.specs.Slot.{IsSlot, slot_name};
ghost use Rattle.fs_cert_evidence.specs.Texts.{fence_line};
ghost use Rattle.fs_cert_evidence.specs.Texts as slots;
ghost use Rattle.fs_model.specs.Witness.{Witness};
ghost use Rattle.fs_app_sites.specs.Printed.{none_lines, site_line};

/// A law: where each slot of one test is a site, a site without a label has the line of its slot, and `none` is said
/// as it is of slots.
pub fn slots_stand_as_slots()
    ensures fences { (s : Slot) (kind : Option Kind) → IsSlot s
        → site_line true (slot_name s) kind ≡ fence_line s kind }
    ensures none { (name : List ℕ) (w : Witness) → none_lines true name w ≡ slots.none_lines w }
{}
