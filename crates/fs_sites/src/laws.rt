//! Laws of questions over sites. The functions do nothing: each stands for the laws that it promises.

ghost use Rattle.std.specs.Prelude.{◌≡◌, ◌↔◌, List};
ghost use Rattle.fs_kinds.specs.declared.placement.Entry.{Entry};
ghost use Rattle.fs_kinds.specs.Placement.{slots_of};
ghost use Rattle.fs_model.specs.declared.test.Test.{Test};
ghost use Rattle.fs_board_offers.specs.Offers.{Offers, slots, IsCheapest, IsPlacement};
ghost use Rattle.fs_sites.specs.Alone.{alone, places_at};
ghost use Rattle.fs_sites.specs.Questions.{AllowsIn, Question, IsCheapestIn, image, top};

/// A law: a question has one cheapest placement at most.
pub fn one_is_cheapest()
    ensures { (q : Question) (p r : List Entry) → IsCheapestIn q p → IsCheapestIn q r → p ≡ r }
{}

/// A law: whether fences of the sites can forbid all outcomes is decided by `rw,rw` at each site. Where some outcome is
/// allowed with these, some is with each placement, and so no placement is the cheapest.
pub fn full_fences_decide()
    ensures { (q : Question) → AllowsIn q.parts (top q.offers) → (p : List Entry) → IsPlacement q.offers p
        → AllowsIn q.parts p }
{}

/// A law: a question of one test in which each slot of the offers is a site is that of the test with these offers. A
/// placement stands in the test as it is, and the cheapest is the same.
pub fn one_test_with_all_slots()
    ensures images { (offers : Offers) (p : List Entry) → slots_of p ≡ slots offers
        → image (places_at (slots offers)) p ≡ p }
    ensures cheapest { (t : Test) (offers : Offers) (p : List Entry)
        → IsCheapestIn (alone t offers) p ↔ IsCheapest t offers p }
{}
