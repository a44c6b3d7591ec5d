//! Each rule of preserved program order at work in small runs. `rules_of` lists all rules that hold of two operations;
//! the runs and orders there need not obey the axioms.

ghost use Rattle.std.specs.Prelude.{◌≡◌, ℕ, true, false, List, [], ◌∷◌, None, Some};
ghost use Rattle.std.proofs.Common.{Box};
ghost use Rattle.std.specs.declared.alloc.Global.{Global};
ghost use Rattle.fs_kinds.specs.declared.kind.Kind.TheVariants.{RR, WR, WW};
ghost use Rattle.fs_instr.specs.declared.instr.Instr.TheVariants.{Fence, FenceTso};
ghost use Rattle.fs_model.specs.Fenced.{read, write};
ghost use Rattle.fs_model.specs.Operations.{are_paired};
ghost use Rattle.fs_model.specs.Preserved.{Rule1, Rule2, Rule3, Rule4, Rule5, Rule6, Rule7, Rule8, Rule9, Rule10};
ghost use Rattle.fs_model.specs.Preserved.{Rule11, Rule12, Rule13};
ghost use Rattle.fs_model.specs.Execution.{IsExecution};
ghost use Rattle.fs_model.specs.Allows.{Allows};
ghost use Rattle.fs_model_worked_examples.specs.StoreBuffering.{sb, buffered, fences};
ghost use Rattle.fs_model_worked_examples.specs.Examples.{rules_of, fence_at, load_then_store, coherent_reads};
ghost use Rattle.fs_model_worked_examples.specs.Examples.{reserved, swap_then_read, store_then_read, read_store_read};
ghost use Rattle.fs_model_worked_examples.specs.Examples.{store_then_load, swap_then_load, around};
ghost use Rattle.fs_model_worked_examples.specs.Examples.{load_and_store_around, jumped, reserved_twice, tried_twice};
ghost use Rattle.fs_model_worked_examples.specs.Examples.{output, input, message_passing, release_then_acquire};
ghost use Rattle.fs_model_worked_examples.specs.Examples.{address_known_late, forwarded, branched, carried};
ghost use Rattle.fs_model_worked_examples.specs.Examples.{overwritten, branch_then_load, address_then_load};

/// A law: store buffering without fences is allowed, wherever the parts of its condition lie in memory. With `w,r`
/// before the load of hart 0, the execution that shows it is none.
pub fn store_buffering()
    ensures allowed { (p q : Box (Unit {0}) Global) → Allows (sb p q) (fences None None) }
    ensures refused { (p q : Box (Unit {0}) Global) → IsExecution (sb p q) (fences (Some WR) None) buffered → ⊥ }
{}

/// A law: overlapping addresses. A store after an access to its word (rule 1), two loads that return different stores
/// (2), and a load that returns what an sc.w wrote (3).
pub fn overlapping_addresses()
    ensures same_word { rules_of load_then_store [] (0 ∷ 1 ∷ []) 0 1 ≡ Rule1 ∷ [] }
    ensures reads { rules_of coherent_reads [] (2 ∷ 0 ∷ 1 ∷ []) 1 2 ≡ Rule2 ∷ [] }
    ensures returned { rules_of reserved [] (0 ∷ 1 ∷ 2 ∷ []) 1 2 ≡ Rule3 ∷ [] }
{}

/// A law: placed fences (rule 4). A store and a later load of another word are ordered by a placed `w,r`, and by no
/// other rule. An AMO is both a load and a store to a fence.
pub fn placed_fences()
    ensures unfenced { rules_of store_then_load [] (0 ∷ 1 ∷ []) 0 1 ≡ [] }
    ensures fenced { rules_of store_then_load (fence_at 0 1 WR) (0 ∷ 1 ∷ []) 0 1 ≡ Rule4 ∷ [] }
    ensures swap_writes { rules_of swap_then_load (fence_at 0 1 WR) (0 ∷ 1 ∷ []) 0 1 ≡ Rule4 ∷ [] }
    ensures swap_reads { rules_of swap_then_load (fence_at 0 1 RR) (0 ∷ 1 ∷ []) 0 1 ≡ Rule4 ∷ [] }
    ensures swap_passes { rules_of swap_then_load (fence_at 0 1 WW) (0 ∷ 1 ∷ []) 0 1 ≡ [] }
{}

/// A law: fences of a test (rule 4). Between a store and a later load of another word, `fence w,r` orders them,
/// `fence.tso` doesn't, and nor does `fence o,i`, which is for devices. `fence.tso` orders a load and a later store.
pub fn written_fences()
    ensures written { rules_of (around (Fence write read)) [] (0 ∷ 1 ∷ []) 0 1 ≡ Rule4 ∷ [] }
    ensures tso { rules_of (around FenceTso) [] (0 ∷ 1 ∷ []) 0 1 ≡ [] }
    ensures tso_keeps { rules_of (load_and_store_around FenceTso) [] (0 ∷ 1 ∷ []) 0 1 ≡ Rule4 ∷ [] }
    ensures devices { rules_of (around (Fence output input)) [] (0 ∷ 1 ∷ []) 0 1 ≡ [] }
{}

/// A law: annotations and pairs. In message passing an acquiring lr.w comes before the load after it (rule 5) and a
/// releasing AMO after the store before it (6); a release comes before a later acquire (7), and against program order
/// no rule holds; an lr.w comes before its sc.w (8).
pub fn annotations()
    ensures acquired { rules_of message_passing [] (3 ∷ 0 ∷ 1 ∷ 2 ∷ []) 2 3 ≡ Rule5 ∷ [] }
    ensures released { rules_of message_passing [] (3 ∷ 0 ∷ 1 ∷ 2 ∷ []) 0 1 ≡ Rule6 ∷ [] }
    ensures both { rules_of release_then_acquire [] (0 ∷ 1 ∷ []) 0 1 ≡ Rule7 ∷ [] }
    ensures against { rules_of release_then_acquire [] (0 ∷ 1 ∷ []) 1 0 ≡ [] }
    ensures paired { rules_of reserved [] (0 ∷ 1 ∷ 2 ∷ []) 0 1 ≡ Rule1 ∷ Rule8 ∷ [] }
{}

/// A law: dependencies. A loaded word is a later access's address (rule 9), is stored (10) or decides a branch before a
/// store (11); it is stored and then loaded again (12), or is the address of an access before a store (13).
pub fn dependencies()
    ensures address { rules_of address_known_late [] (0 ∷ 1 ∷ 2 ∷ []) 0 1 ≡ Rule9 ∷ [] }
    ensures word { rules_of forwarded [] (0 ∷ 2 ∷ 1 ∷ []) 0 1 ≡ Rule10 ∷ [] }
    ensures control { rules_of branched [] (0 ∷ 1 ∷ []) 0 1 ≡ Rule11 ∷ [] }
    ensures through_store { rules_of forwarded [] (0 ∷ 2 ∷ 1 ∷ []) 0 2 ≡ Rule12 ∷ [] }
    ensures address_first { rules_of address_known_late [] (0 ∷ 1 ∷ 2 ∷ []) 0 2 ≡ Rule13 ∷ [] }
{}

/// A law: a load that returns what an AMO before it wrote is ordered after it (rule 3; also 2, since an AMO is a load).
/// One that returns what an sw before it wrote isn't, and nor are two loads with a store to their word between.
pub fn stores_and_reads()
    ensures amo_returned { rules_of swap_then_read [] (0 ∷ 1 ∷ []) 0 1 ≡ Rule2 ∷ Rule3 ∷ [] }
    ensures store_returned { rules_of store_then_read [] (0 ∷ 1 ∷ []) 0 1 ≡ [] }
    ensures store_between { rules_of read_store_read [] (0 ∷ 1 ∷ 2 ∷ []) 0 2 ≡ [] }
{}

/// A law: a placed fence is known by its hart and its position in the code, and not by the number of its step. It
/// orders what the run has before it and after it (rule 4); it orders nothing where a branch jumps past it, in another
/// hart, or where both operations come after it.
pub fn fences_by_position()
    ensures run_between { rules_of jumped (fence_at 1 3 WR) (0 ∷ 1 ∷ 2 ∷ 3 ∷ []) 1 3 ≡ Rule4 ∷ [] }
    ensures jumped_past { rules_of jumped (fence_at 1 2 WR) (0 ∷ 1 ∷ 2 ∷ 3 ∷ []) 1 3 ≡ [] }
    ensures other_hart { rules_of jumped (fence_at 0 3 WR) (0 ∷ 1 ∷ 2 ∷ 3 ∷ []) 1 3 ≡ [] }
    ensures before_both { rules_of jumped (fence_at 1 3 RR) (0 ∷ 1 ∷ 2 ∷ 3 ∷ []) 2 3 ≡ [] }
{}

/// A law: an lr.w and an sc.w with another lr.w or sc.w between them are no pair, so rule 8 doesn't hold of them; a
/// failed sc.w counts too.
pub fn pairs()
    ensures first_lr { rules_of reserved_twice [] (0 ∷ 1 ∷ 2 ∷ []) 0 2 ≡ Rule1 ∷ [] }
    ensures second_lr { rules_of reserved_twice [] (0 ∷ 1 ∷ 2 ∷ []) 1 2 ≡ Rule1 ∷ Rule8 ∷ [] }
    ensures first_sc { are_paired tried_twice 0 1 ≡ true }
    ensures second_sc { are_paired tried_twice 0 2 ≡ false }
{}

/// A law: a computation carries a dependency from a source to its destination (rule 10), and a write to the register
/// ends it.
pub fn dependencies_carried()
    ensures carries { rules_of carried [] (0 ∷ 1 ∷ []) 0 1 ≡ Rule10 ∷ [] }
    ensures ends { rules_of overwritten [] (0 ∷ 1 ∷ []) 0 1 ≡ [] }
{}

/// A law: neither a branch on a loaded word (rule 11) nor an access with its address from one (rule 13) comes before a
/// later load.
pub fn loads_run_ahead()
    ensures branch { rules_of branch_then_load [] (0 ∷ 1 ∷ []) 0 1 ≡ [] }
    ensures address_between { rules_of address_then_load [] (0 ∷ 1 ∷ 2 ∷ []) 0 2 ≡ [] }
{}
