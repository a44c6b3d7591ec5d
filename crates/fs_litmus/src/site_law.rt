//! What site labels are to the branches and instructions of their hart. The function does nothing: it stands for the
//! law that it promises.

ghost use Rattle.std.specs.Prelude.{ℕ, List};
ghost use Rattle.std.specs.List.{All};
ghost use Rattle.fs_litmus_syntax.specs.Body.{Cell};
ghost use Rattle.fs_litmus_syntax.specs.Cells.{Item, AreCells};
ghost use Rattle.fs_litmus.specs.SiteLabels.{hart_sites};
ghost use Rattle.fs_litmus.specs.Standing.{IsSiteLabel};

/// A law: a site label is a label that stands behind as many instructions of its hart as its position says, and to
/// which no branch of the hart goes. (A word that is a name doesn't read as a number.)
pub fn site_labels_stand_free()
    ensures { (number : ℕ) (cells : List Cell) (items : List Item) → AreCells cells items
        → All (IsSiteLabel items) (hart_sites number cells) }
{}
