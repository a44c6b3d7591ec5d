//! Rows of refutations.

ghost use Rattle.std.specs.Prelude.{◌≡◌, true, false, None, Some, List, [], ◌∷◌, ◌++◌, map, take, drop};
ghost use Rattle.fs_kinds.specs.declared.placement.Entry.{Entry};
ghost use Rattle.fs_kinds.specs.declared.kind.Kind.TheVariants.{RR, RW, WR, WW, RwRw};
ghost use Rattle.fs_model.specs.Allows.{Allows};
ghost use Rattle.fs_model.specs.Preserved.{Rule2, Rule3, Rule4, Rule5, Rule8, Rule11, Rule12};
ghost use Rattle.fs_cert_evidence.specs.Judged.{Preserved, ReadsFrom, Coherence, FromReads};
ghost use Rattle.fs_cert_evidence.specs.Regions.{Initial, From};
ghost use Rattle.fs_cert_evidence.specs.Musts.{must};
ghost use Rattle.fs_cert_evidence.specs.Certificate.{ByChoice, BySource, ByOrder, ByCases, Filter, Stale, Reversed};
ghost use Rattle.fs_cert_evidence.specs.Certificate.{Parted};
ghost use Rattle.fs_cert_evidence.specs.Trees.{IsRefuted, follows, left_after, refutes_test, root};
ghost use Rattle.fs_model_worked_examples.specs.Small.{Place, sb, sb_or, sb_runs, mp, mp_forall, mp_runs, corr};
ghost use Rattle.fs_model_worked_examples.specs.Small.{corr_runs, parted, reversed, pair_runs, inner, inner_runs};
ghost use Rattle.fs_model_worked_examples.specs.Small.{guarded, guarded_end, guarded_runs, swaps, swap_runs, own, last};
ghost use Rattle.fs_model_worked_examples.specs.Small.{own_runs, returned, returned_runs, carried, carried_runs};
ghost use Rattle.fs_model_worked_examples.specs.Small.{through, through_runs, swapped, swapped_runs, denied, either};
ghost use Rattle.fs_model_worked_examples.specs.Small.{not_both, seen_runs, behind, behind_runs, spinlock};
ghost use Rattle.fs_model_worked_examples.specs.Small.{spinlock_runs};
ghost use Rattle.fs_model_worked_examples.specs.Refutations.{P0, P1, fences, fence_in, link, but_last, ending_in};
ghost use Rattle.fs_model_worked_examples.specs.Refutations.{left_by, child, sources_left, sb_tree, sb_or_tree};
ghost use Rattle.fs_model_worked_examples.specs.Refutations.{mp_tree, mp_forall_tree, corr_tree, parted_tree};
ghost use Rattle.fs_model_worked_examples.specs.Refutations.{reversed_tree, guarded_rest, guarded_tree};
ghost use Rattle.fs_model_worked_examples.specs.Refutations.{guarded_by_store, swap_cycle, swap_tree, own_tree};
ghost use Rattle.fs_model_worked_examples.specs.Refutations.{last_tree, carried_tree, turned_cycle, far_cycle};
ghost use Rattle.fs_model_worked_examples.specs.Refutations.{lock_fences, spinlock_tree};

/// A law: trees that refute small tests. Store buffering, with fences `w,r`, and by cases of a disjunction; message
/// passing with `w,w` and `r,r`, also as `forall`; coherent reads, without a fence; an lr.w and sc.w with a store
/// between, or with the store that they return from behind them; a store behind a branch, split by what its load or
/// the store itself chooses; two swaps; a load that misses an own store; a last word; load buffering, where one load
/// is split by its sources again once there are fewer runs.
pub fn right_trees()
    ensures store_buffering { (b : Place) → refutes_test (sb b) (fences WR WR) sb_runs sb_tree ≡ true }
    ensures cases { (b : Place) → refutes_test (sb_or b) (fences WR WR) sb_runs sb_or_tree ≡ true }
    ensures message_passing { (b : Place) → refutes_test (mp b) (fences WW RR) mp_runs mp_tree ≡ true }
    ensures for_all { (b : Place) → refutes_test (mp_forall b) (fences WW RR) mp_runs mp_forall_tree ≡ true }
    ensures coherent_reads { (b : Place) → refutes_test (corr b) [] corr_runs corr_tree ≡ true }
    ensures between { (b : Place) → refutes_test (parted b) [] pair_runs parted_tree ≡ true }
    ensures behind { (b : Place) → refutes_test (reversed b) [] pair_runs reversed_tree ≡ true }
    ensures branch { (b : Place) → refutes_test (guarded b) (fence_in 1 RW) guarded_runs guarded_tree ≡ true }
    ensures executed { (b : Place) → refutes_test (guarded b) (fence_in 1 RW) guarded_runs guarded_by_store ≡ true }
    ensures two_swaps { (b : Place) → refutes_test (swaps b) [] swap_runs (swap_tree swap_cycle) ≡ true }
    ensures own_store { (b : Place) → refutes_test (own b) [] own_runs own_tree ≡ true }
    ensures last_word { (b : Place) → refutes_test (last b) [] own_runs last_tree ≡ true }
    ensures again { (b : Place)
        → refutes_test (carried b) (fence_in 1 RW) carried_runs (carried_tree (BySource (P1 0) ∷ [])) ≡ true }
{}

/// A law: the runs given of store buffering, and of a pair with a store between, are all that there are over the value
/// sets. So the trees refute both tests, under stronger fences too, as `rw,rw` in the place of `w,r`, or any fences
/// where none is needed. And as the runs can be listed, the outcomes are forbidden.
pub fn whole_tests()
    ensures store_buffering { (b : Place) → IsRefuted (sb b) (fences WR WR) sb_tree }
    ensures full_fences { (b : Place) → IsRefuted (sb b) (fences RwRw RwRw) sb_tree }
    ensures between { (b : Place) → IsRefuted (parted b) [] parted_tree }
    ensures any_fences { (b : Place) (p : List Entry) → IsRefuted (parted b) p parted_tree }
    ensures forbidden { (b : Place) → Allows (sb b) (fences WR WR) → ⊥ }
    ensures never_between { (b : Place) (p : List Entry) → Allows (parted b) p → ⊥ }
{}

/// A law: a tree of seventeen inferences refutes a spinlock, with fences behind the swap that takes the lock and before
/// the one that leaves it. It doesn't where the first hart lacks the fence behind.
pub fn locks()
    ensures spinlock { (b : Place) → refutes_test (spinlock b) lock_fences spinlock_runs spinlock_tree ≡ true }
    ensures one_missing { (b : Place)
        → refutes_test (spinlock b) (drop 1 lock_fences) spinlock_runs spinlock_tree ≡ false }
{}

/// A law: trees that refute nothing. A fence isn't placed, or doesn't order what it should; an item is missing, or is
/// one too many; there is no item; a choice of the load is left out, or a case of the condition; the links of a cycle
/// go against program order, or through a read from a store to another address; a swap comes before itself; a cycle
/// has no link; the second split by a load's sources is left out.
pub fn wrong_trees()
    ensures no_fence { (b : Place) → refutes_test (sb b) [] sb_runs sb_tree ≡ false }
    ensures one_fence { (b : Place) → refutes_test (sb b) (fence_in 0 WR) sb_runs sb_tree ≡ false }
    ensures weak_fence { (b : Place) → refutes_test (sb b) (fences WR WW) sb_runs sb_tree ≡ false }
    ensures weak_reads { (b : Place) → refutes_test (mp b) (fences WW RW) mp_runs mp_tree ≡ false }
    ensures too_few { (b : Place) → refutes_test (sb b) (fences WR WR) sb_runs (but_last sb_tree) ≡ false }
    ensures too_many { (b : Place) → refutes_test (sb b) (fences WR WR) sb_runs (sb_tree ++ Filter 0 ∷ []) ≡ false }
    ensures none { (b : Place) → refutes_test (sb b) (fences WR WR) sb_runs [] ≡ false }
    ensures choice { (b : Place)
        → refutes_test (guarded b) (fence_in 1 RW) guarded_runs (ByChoice (P0 0) ∷ guarded_rest) ≡ false }
    ensures case { (b : Place) → refutes_test (sb_or b) (fences WR WR) sb_runs (ByCases 0 ∷ sb_tree) ≡ false }
    ensures turned { (b : Place)
        → refutes_test (sb b) (fences WR WR) sb_runs (ending_in turned_cycle sb_tree) ≡ false }
    ensures other_address { (b : Place)
        → refutes_test (mp b) (fences WW RR) mp_runs (ending_in far_cycle mp_tree) ≡ false }
    ensures itself { (b : Place)
        → refutes_test (swaps b) [] swap_runs (swap_tree (link (P0 0) FromReads ∷ [])) ≡ false }
    ensures no_step { (b : Place) → refutes_test (sb b) (fences WR WR) sb_runs (ending_in [] sb_tree) ≡ false }
    ensures not_again { (b : Place)
        → refutes_test (carried b) (fence_in 1 RW) carried_runs (carried_tree []) ≡ false }
{}

/// A law: inferences that don't follow. A choice of an instruction that accesses no memory, or of a hart that isn't
/// there; sources of no load; an order of stores to two locations, of a store with itself, of one that some run doesn't
/// make, and of a pair that is decided, either way round; the cases of an atom, and of a condition that isn't there; a
/// filter of a hart that isn't there; a store behind the load that would miss it, and one of another hart; a store
/// between a pair whose order isn't decided, one while the source of the pair's load isn't known, one that is this
/// source, and one of the pair's own hart; a pair in order as a reversed one.
pub fn wrong_inferences()
    ensures no_access { (b : Place)
        → follows (guarded b) [] (root (guarded b) guarded_runs) (ByChoice (P0 1)) ≡ false }
    ensures no_hart { (b : Place)
        → follows (mp b) [] (root (mp b) mp_runs) (ByChoice (record { hart = 2; at = 0 })) ≡ false }
    ensures no_load { (b : Place)
        → follows (guarded b) [] (root (guarded b) guarded_runs) (BySource (P0 1)) ≡ false }
    ensures two_places { (b : Place) → follows (mp b) [] (root (mp b) mp_runs) (ByOrder (P0 0) (P0 1)) ≡ false }
    ensures itself { (b : Place) → follows (mp b) [] (root (mp b) mp_runs) (ByOrder (P0 0) (P0 0)) ≡ false }
    ensures may_fail { (b : Place)
        → follows (parted b) [] (root (parted b) pair_runs) (ByOrder (P1 0) (P0 1)) ≡ false }
    ensures decided { (b : Place)
        → follows (parted b) [] (left_by (parted b) pair_runs (Filter 0 ∷ ByOrder (P1 0) (P0 1) ∷ [])) (ByOrder
        (P1 0) (P0 1)) ≡ false }
    ensures turned { (b : Place)
        → follows (parted b) [] (left_by (parted b) pair_runs (Filter 0 ∷ ByOrder (P1 0) (P0 1) ∷ [])) (ByOrder
        (P0 1) (P1 0)) ≡ false }
    ensures atom { (b : Place) → follows (own b) [] (root (own b) own_runs) (ByCases 0) ≡ false }
    ensures no_condition { (b : Place) → follows (mp b) [] (root (mp b) mp_runs) (ByCases 1) ≡ false }
    ensures no_filter { (b : Place) → follows (mp b) [] (root (mp b) mp_runs) (Filter 2) ≡ false }
    ensures later { (b : Place)
        → follows (parted b) [] (left_by (parted b) pair_runs (Filter 0 ∷ BySource (P0 0) ∷ [])) (Stale (P0 0) (P0
        1)) ≡ false }
    ensures foreign { (b : Place)
        → follows (own b) [] (left_by (own b) own_runs (BySource (P0 1) ∷ [])) (Stale (P0 1) (P1 0)) ≡ false }
    ensures undecided { (b : Place)
        → follows (parted b) [] (left_by (parted b) pair_runs (Filter 0 ∷ BySource (P0 0) ∷ [])) (Parted (P0 0)
        (P0 1) (P1 0)) ≡ false }
    ensures unknown { (b : Place)
        → follows (parted b) [] (left_by (parted b) pair_runs (Filter 0 ∷ ByOrder (P1 0) (P0 1) ∷ [])) (Parted (P0
        0) (P0 1) (P1 0)) ≡ false }
    ensures returned { (b : Place)
        → follows (reversed b) [] (left_by (reversed b) pair_runs (Filter 0 ∷ BySource (P0 0) ∷ ByOrder (P1 0) (P0
        1) ∷ [])) (Parted (P0 0) (P0 1) (P1 0)) ≡ false }
    ensures own_hart { (b : Place)
        → follows (inner b) [] (left_by (inner b) inner_runs (Filter 0 ∷ BySource (P0 0) ∷ ByOrder (P0 1) (P0 2) ∷
        [])) (Parted (P0 0) (P0 2) (P0 1)) ≡ false }
    ensures in_order { (b : Place)
        → follows (parted b) [] (left_by (parted b) pair_runs (Filter 0 ∷ BySource (P0 0) ∷ ByOrder (P1 0) (P0 1)
        ∷ [])) (Reversed (P0 0) (P0 1)) ≡ false }
{}

/// A law: what doesn't have to hold in a region, though it may, and beside it what then has to. Rule 2, while one of
/// the two sources isn't known, or where both are the initial store; rule 11 to a store that some run doesn't
/// execute; rule 5 of what is no acquire; anything of a hart that isn't there; an order that isn't decided; a load
/// before a load, before the store that it returns from, before any store while its source isn't known, before a
/// store to another location, and before one that some run doesn't execute; a read from the own hart's store as one
/// from another's; rule 3 of what is no AMO, or not the source; rule 12 through what isn't the source; a pair that
/// may fail.
pub fn not_sure()
    ensures one_source { (b : Place)
        → must (corr b) (left_by (corr b) corr_runs (Filter 1 ∷ BySource (P1 0) ∷ [])) [] (Preserved Rule2) (P1 0)
        (P1 1) ≡ false }
    ensures both_sources { (b : Place)
        → must (corr b) (left_by (corr b) corr_runs (Filter 1 ∷ BySource (P1 0) ∷ BySource (P1 1) ∷ [])) []
        (Preserved Rule2) (P1 0) (P1 1) ≡ true }
    ensures both_initial { (b : Place)
        → must (corr b) (left_by (corr b) corr_runs (BySource (P1 0) ∷ BySource (P1 1) ∷ [])) [] (Preserved Rule2)
        (P1 0) (P1 1) ≡ false }
    ensures not_executed { (b : Place)
        → must (guarded b) (root (guarded b) guarded_runs) [] (Preserved Rule11) (P0 0) (P0 2) ≡ false }
    ensures executed { (b : Place)
        → must (guarded b) (left_by (guarded b) guarded_runs (Filter 0 ∷ [])) [] (Preserved Rule11) (P0 0) (P0 2)
        ≡ true }
    ensures no_acquire { (b : Place)
        → must (corr b) (root (corr b) corr_runs) [] (Preserved Rule5) (P1 0) (P1 1) ≡ false }
    ensures no_hart { (b : Place)
        → must (corr b) (root (corr b) corr_runs) [] (Preserved Rule4) (record { hart = 2; at = 0 }) (record {
          hart = 2;
          at = 1;
        }) ≡ false }
    ensures no_order { (b : Place)
        → must (parted b) (root (parted b) pair_runs) [] Coherence (P1 0) (P0 1) ≡ false }
    ensures load { (b : Place)
        → must (corr b) (left_by (corr b) corr_runs (BySource (P1 0) ∷ [])) [] FromReads (P1 0) (P1 1) ≡ false }
    ensures returned { (b : Place)
        → must (corr b) (left_by (corr b) corr_runs (Filter 1 ∷ BySource (P1 0) ∷ [])) [] FromReads (P1 0) (P0 0)
        ≡ false }
    ensures unknown { (b : Place) → must (mp b) (root (mp b) mp_runs) [] FromReads (P1 1) (P0 0) ≡ false }
    ensures other_place { (b : Place)
        → must (mp b) (left_by (mp b) mp_runs (BySource (P1 1) ∷ [])) [] FromReads (P1 1) (P0 1) ≡ false }
    ensures one_place { (b : Place)
        → must (mp b) (left_by (mp b) mp_runs (BySource (P1 1) ∷ [])) [] FromReads (P1 1) (P0 0) ≡ true }
    ensures store_behind { (b : Place)
        → must (guarded b) (left_by (guarded b) guarded_runs (BySource (P1 0) ∷ [])) [] FromReads (P1 0) (P0 2) ≡
        false }
    ensures store_there { (b : Place)
        → must (guarded b) (left_by (guarded b) guarded_runs (Filter 0 ∷ BySource (P1 0) ∷ [])) [] FromReads (P1
        0) (P0 2) ≡ true }
    ensures own_store { (b : Place)
        → must (returned b) (left_by (returned b) returned_runs (Filter 0 ∷ BySource (P0 1) ∷ [])) [] ReadsFrom
        (P0 0) (P0 1) ≡ false }
    ensures no_amo { (b : Place)
        → must (returned b) (left_by (returned b) returned_runs (Filter 0 ∷ BySource (P0 1) ∷ [])) [] (Preserved
        Rule3) (P0 0) (P0 1) ≡ false }
    ensures amo { (b : Place)
        → must (swapped b) (child (swapped b) swapped_runs (BySource (P0 1)) 1) [] (Preserved Rule3) (P0 0) (P0 1)
        ≡ true }
    ensures other_hart { (b : Place)
        → must (swapped b) (child (swapped b) swapped_runs (BySource (P0 1)) 2) [] (Preserved Rule3) (P0 0) (P0 1)
        ≡ false }
    ensures through_initial { (b : Place)
        → must (through b) (child (through b) through_runs (BySource (P0 2)) 0) [] (Preserved Rule12) (P0 0) (P0
        2) ≡ false }
    ensures through_own { (b : Place)
        → must (through b) (child (through b) through_runs (BySource (P0 2)) 1) [] (Preserved Rule12) (P0 0) (P0
        2) ≡ true }
    ensures through_other { (b : Place)
        → must (through b) (child (through b) through_runs (BySource (P0 2)) 2) [] (Preserved Rule12) (P0 0) (P0
        2) ≡ false }
    ensures may_not_pair { (b : Place)
        → must (parted b) (root (parted b) pair_runs) [] (Preserved Rule8) (P0 0) (P0 1) ≡ false }
    ensures pair { (b : Place)
        → must (parted b) (left_by (parted b) pair_runs (Filter 0 ∷ [])) [] (Preserved Rule8) (P0 0) (P0 1) ≡ true }
{}

/// A law: what splits leave. A load returns from the initial store, from a store before it in its hart, or from
/// another hart's, each where some run has the word, and from no other than the known one; an AMO doesn't return from
/// itself, nor an lr.w from its sc.w. What isn't a load has no source, and nor has a load where it isn't executed.
/// Choices come in their order. A filter looks through `~`, `\/` and a conjunction that is to be false, at a word that
/// must be stored, and at one that may be.
pub fn splits()
    ensures own_first { (b : Place)
        → sources_left (own b) own_runs (P0 1) ≡ Some Initial ∷ Some (From (P0 0)) ∷ Some (From (P1 0)) ∷ Some
        (From (P1 1)) ∷ [] }
    ensures own_alone { (b : Place)
        → map (λ left. left.source (P0 1)) (left_after (returned b) (left_by (returned b) returned_runs (Filter 0
        ∷ [])) (BySource (P0 1))) ≡ Some (From (P0 0)) ∷ [] }
    ensures known { (b : Place)
        → map (λ left. left.source (P1 0)) (left_after (corr b) (left_by (corr b) corr_runs (BySource (P1 0) ∷
        [])) (BySource (P1 0))) ≡ Some Initial ∷ [] }
    ensures other_swap { (b : Place)
        → sources_left (swaps b) swap_runs (P0 0) ≡ Some Initial ∷ Some (From (P1 0)) ∷ [] }
    ensures other_store { (b : Place)
        → sources_left (parted b) pair_runs (P0 0) ≡ Some Initial ∷ Some (From (P1 0)) ∷ [] }
    ensures no_load { (b : Place) → sources_left (guarded b) guarded_runs (P0 2) ≡ None ∷ [] }
    ensures load_behind { (b : Place)
        → sources_left (behind b) behind_runs (P0 2) ≡ None ∷ Some Initial ∷ Some (From (P1 1)) ∷ [] }
    ensures by_choice { (b : Place)
        → map (λ left. left.runs 0) (left_after (guarded b) (root (guarded b) guarded_runs) (ByChoice (P0 0))) ≡
        map (λ run. run ∷ []) (guarded_runs 0) }
    ensures denial { (b : Place) → (left_by (denied b) seen_runs (Filter 0 ∷ [])).runs 0 ≡ drop 1 (seen_runs 0) }
    ensures one_of_two { (b : Place)
        → (left_by (either b) seen_runs (Filter 0 ∷ [])).runs 0 ≡ take 1 (seen_runs 0) }
    ensures not_two { (b : Place) → (left_by (not_both b) seen_runs (Filter 0 ∷ [])).runs 0 ≡ drop 1 (seen_runs 0) }
    ensures may_store { (b : Place)
        → (left_by (guarded_end 1 b) guarded_runs (Filter 1 ∷ [])).runs 1 ≡ guarded_runs 1 }
    ensures may_not_store { (b : Place)
        → (left_by (guarded_end 0 b) guarded_runs (Filter 1 ∷ [])).runs 1 ≡ guarded_runs 1 }
{}
