//! How many rounds there are.

ghost use Rattle.std.specs.Prelude.{◌≡◌, ◌≤◌, length, count_by};
ghost use Rattle.fs_model.specs.Test.{IsBounded};
ghost use Rattle.fs_model.specs.Forms.{is_storing};
ghost use Rattle.fs_model.specs.Values.{rounds};

use fs_instr::Instr;
use fs_model::Test;

/// Can the instruction store a word?
fn is_storing(instr: &Instr) -> bool
    ensures { result ≡ is_storing instr.now }
{
    matches!(
        *instr,
        Instr::Sw { .. } | Instr::Sc { .. } | Instr::Amo { .. }
    )
}

fn count_storing(code: &[Instr]) -> usize
    ensures value { result ≡ count_by is_storing code.now }
    ensures within { result ≤ length code.now }
{
    code.iter().filter(|instr| is_storing(instr)).count()
}

/// As many rounds as the test has sw, sc.w and AMO instructions.
pub(crate) fn rounds(test: &Test) -> usize
    requires { IsBounded test.now }
    ensures { result ≡ rounds test.now }
{
    let mut total = 0;
    for code in test.codes.as_slice() {
        total += count_storing(code.as_slice());
    }
    total
}
