//! What is found of the copies of sites.

ghost use Rattle.std.specs.Prelude.{◌≡◌, IfOk};
ghost use Rattle.fs_app_sites_check_and_audit.specs.Printed.{found_lines};

use crate::lines::{Line, advised, is_kept, lines_of};
use crate::marks::Mark;
use fs_app_test::Kind;
use fs_kinds::List;
use fs_sites::Answer;
use std::alloc::{AllocError, Global};
use std::marker::Model;

/// What is found of the copies of sites.
#[derive(Drop)]
pub(crate) struct Findings {
    /// The names of the sites.
    pub names: List<String>,
    /// The copies as they are written.
    pub marks: List<Mark>,
    /// What they cost, where copies agree.
    pub written: Option<u64>,
    /// Each of their FENCEs costs something.
    pub all_cost: bool,
    /// What is said of all files together as they are written.
    pub kind: Kind,
    /// The answer to the question without the copies' FENCEs.
    pub found: Answer,
}

impl Model for Findings {
    ghost use Rattle.std.specs.Prelude.{map, string_bytes};
    ghost use Rattle.fs_app_sites_check_and_audit.specs.Printed.{Findings as Found};

    ghost Value = { Found };

    ghost view = { λ f. record {
      names = map string_bytes f.names;
      marks = f.marks;
      written = f.written;
      all_cost = f.all_cost;
      kind = f.kind;
      found = f.found;
    } };
}

/// The lines of the sites; none where no fences rule the outcomes out.
pub(crate) fn found_lines(alloc: Global, findings: &Findings) -> Result<Vec<Line>, AllocError>
    ensures { IfOk result (λ lines. lines.items ≡ found_lines findings.now) }
{
    let marks = findings.marks.as_slice();
    match &findings.found {
        Answer::Fenced { placement, cost } => {
            let kept = findings.all_cost && is_kept(findings.kind, findings.written, *cost);
            lines_of(
                alloc,
                findings.names.len(),
                marks,
                kept,
                placement.as_slice(),
            )
        }
        Answer::None { .. } => Ok(Vec::new(alloc)),
    }
}
