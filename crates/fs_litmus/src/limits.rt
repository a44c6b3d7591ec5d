//! The limits of a test.

ghost use Rattle.std.specs.Prelude.{◌≡◌, ◌≤◌, ◌<◌, List, All, length, map, nat_le, sum_by, count_by, true, false};
ghost use Rattle.std.specs.Prelude.{MatchOption, IfOk, IfSome};
ghost use Rattle.std.specs.List.{Any, list_all};
ghost use Rattle.std.specs.Option.{IfNone};
ghost use Rattle.fs_kinds.specs.Limits.{most_instructions, most_accesses};
ghost use Rattle.fs_instr.specs.declared.instr.Instr.{Instr};
ghost use Rattle.fs_litmus_syntax.specs.Codes.{AreKept};
ghost use Rattle.fs_instr.specs.Instructions.{is_memory};
ghost use Rattle.fs_litmus.specs.inner.Kept.{instrs_of, is_short};

use fs_instr::Instr;
use fs_kinds::MOST_ACCESSES;
use fs_litmus_syntax::HartCode;
use fs_model::Code;
use std::alloc::{AllocError, Global};

/// The code that is kept; nothing where it has too many instructions.
fn kept_code(alloc: Global, kept: &HartCode) -> Result<Option<Code>, AllocError>
    ensures { IfOk result (λ o. MatchOption o (is_short kept.now ≡ false) (λ c. (c ≡ instrs_of kept.now)
        × (is_short kept.now ≡ true))) }
{
    match kept {
        HartCode::Short(instrs) => Ok(Some(Code::new(Vec::from_slice(alloc, instrs)?))),
        HartCode::Long(_) => Ok(None),
    }
}

/// The code of each hart; nothing where one has too many instructions.
fn kept_codes(alloc: Global, kept: &[HartCode]) -> Result<Option<Vec<Code>>, AllocError>
    ensures some { IfOk result (λ o. IfSome o (λ v. (v.items ≡ map instrs_of kept.now)
        × (list_all is_short kept.now ≡ true))) }
    ensures none { IfOk result (λ o. IfNone o (list_all is_short kept.now ≡ false)) }
{
    let mut codes = Vec::new(alloc);
    for hart in kept {
        match kept_code(alloc, hart)? {
            Some(code) => codes.push(code)?,
            None => return Ok(None),
        }
    }
    Ok(Some(codes))
}

/// The code of each hart; nothing where one has too many instructions.
pub fn short_codes(alloc: Global, kept: &[HartCode]) -> Result<Option<Vec<Code>>, AllocError>
    ensures codes { IfOk result (λ o. IfSome o (λ v. (codes : List (List Instr)) → AreKept codes kept.now → v.items
        ≡ codes)) }
    ensures within { IfOk result (λ o. IfSome o (λ v. (codes : List (List Instr)) → AreKept codes kept.now
        → All (λ code. length code ≤ most_instructions) codes)) }
    ensures long { IfOk result (λ o. IfNone o ((codes : List (List Instr)) → AreKept codes kept.now
        → Any (λ code. most_instructions < length code) codes)) }
{
    match kept_codes(alloc, kept)? {
        Some(codes) => Ok(Some(codes)),
        None => Ok(None),
    }
}

fn access_count(code: &[Instr]) -> usize
    ensures value { result ≡ count_by is_memory code.now }
    ensures within { result ≤ length code.now }
{
    code.iter().filter(|instr| instr.is_memory()).count()
}

/// Are the memory instructions of all codes together within the limit?
pub fn has_few_accesses(codes: &[Code]) -> bool
    ensures { result ≡ nat_le (sum_by (count_by is_memory) codes.now) most_accesses }
{
    let mut total = 0;
    for code in codes {
        let count = access_count(code.as_slice());
        if count > MOST_ACCESSES - total {
            return false;
        }
        total += count;
    }
    true
}
