//! What the objects of `audit` have to do with its lines.

ghost use Rattle.std.specs.Prelude.{◌≡◌, ℕ, List};
ghost use Rattle.std.specs.List.{flat_map};
ghost use Rattle.fs_instr.specs.declared.instr.Instr.{Instr};
ghost use Rattle.fs_kinds.specs.declared.placement.Entry.{Entry};
ghost use Rattle.fs_kinds.specs.PriceTable.{PriceTable};
ghost use Rattle.fs_app_audit.specs.InPlace.{lines_in_place};
ghost use Rattle.fs_app_audit.specs.Report.{lines_text};
ghost use Rattle.fs_app_audit_json_and_why.specs.Rows.{row_text, rows_anew, rows_in_place};

/// A law: the lines that `audit` prints, in place and anew, are those of the rows of which its objects are made.
pub fn lines_are_of_rows()
    ensures in_place { (prices : PriceTable) (lines : List (List ℕ)) (codes : List (List Instr)) (p : List Entry)
        → lines_in_place prices lines codes p ≡ flat_map row_text (rows_in_place prices lines codes p) }
    ensures anew { (lines : List (List ℕ)) (codes : List (List Instr)) (p : List Entry)
        → lines_text lines codes p ≡ flat_map row_text (rows_anew lines codes p) }
{}
