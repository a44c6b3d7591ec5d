//! What leads from an operation of a chain to the next one, in words.

ghost use Rattle.std.specs.Prelude.{◌≡◌, ◌++◌, Some, IfOk, string_bytes};
ghost use Rattle.fs_instr.specs.Roles.{is_amo};
ghost use Rattle.fs_app_why.specs.Arrows.{amo_counts, arrow_text, because_text, cause_text, counts_as};
ghost use Rattle.fs_app_why.specs.Arrows.{counts_before, counts_behind, fence_text, if_amo, named_counts};
ghost use Rattle.fs_app_why.specs.Arrows.{rule_4_text};
ghost use Rattle.fs_app_why.specs.InstructionWords.{instr_named, text_of_instr};

use crate::instruction_words::{instr_named, instr_text, line_of};
use crate::{Arrow, Fence, fence_orders};
use fs_cert_evidence::Cause;
use fs_instr::Instr;
use fs_kinds::{Classes, List, OperationName};
use fs_model::Test;
use std::alloc::{AllocError, Global};

/// Why a comes before b, but for the fence of rule 4.
fn cause_text(
    alloc: Global,
    cause: Cause,
    a: OperationName,
    b: OperationName,
) -> Result<String, AllocError>
    ensures { IfOk result (λ text. string_bytes text ≡ cause_text cause a b) }
{
    match cause {
        Cause::Rule1 => format!(in alloc;
            "{} is a store to the same word, behind it in the code (rule 1)",
            b
        ),
        Cause::Rule2 => format!(in alloc;
            "{} loads the same word behind it, from another store (rule 2)",
            b
        ),
        Cause::Rule3 => format!(in alloc;
            "{} reads what {}, an AMO or sc.w of its own hart, stored (rule 3)",
            b, a
        ),
        Cause::Rule4 => format!(in alloc; "fences (rule 4)"),
        Cause::Rule5 => format!(in alloc; "{} is an acquire (rule 5)", a),
        Cause::Rule6 => format!(in alloc; "{} is a release (rule 6)", b),
        Cause::Rule7 => format!(in alloc; "{} and {} both have .aq or .rl (rule 7)", a, b),
        Cause::Rule8 => format!(in alloc; "{} and {} are a pair of lr.w and sc.w (rule 8)", a, b),
        Cause::Rule9 => format!(in alloc; "the address of {} comes from {} (rule 9)", b, a),
        Cause::Rule10 => format!(in alloc; "the value of {} comes from {} (rule 10)", b, a),
        Cause::Rule11 => format!(in alloc; "{} is a store behind a branch on {} (rule 11)", b, a),
        Cause::Rule12 => format!(in alloc;
            "{} reads a store of its hart whose address or value comes from {} (rule 12)",
            b, a
        ),
        Cause::Rule13 => format!(in alloc;
            "{} is a store behind an access whose address comes from {} (rule 13)",
            b, a
        ),
        Cause::ReadsFrom => format!(in alloc; "{} reads from it (rf)", b),
        Cause::Coherence => format!(in alloc; "{} overwrites it (co)", b),
        Cause::FromReads => format!(in alloc; "{} overwrites what it reads (fr)", b),
    }
}

/// The instruction in print, if there is one.
fn named_text(alloc: Global, test: &Test, name: OperationName) -> Result<String, AllocError>
    ensures { IfOk result (λ text. string_bytes text ≡ text_of_instr (instr_named test.now name)) }
{
    match instr_named(test, name) {
        Some(instr) => instr_text(alloc, instr),
        None => Ok(String::new(alloc)),
    }
}

/// A fence, and where it stands.
fn fence_text(
    alloc: Global,
    test: &Test,
    lines: &[List<usize>],
    fence: Fence,
) -> Result<String, AllocError>
    ensures { IfOk result (λ text. string_bytes text ≡ fence_text test.now lines.now fence) }
{
    match fence {
        Fence::Placed { slot, kind } => {
            let (hart, at) = (slot.hart, slot.at);
            let line = line_of(lines, OperationName { hart, at });
            format!(in alloc; "fence {} before line {}", kind.name(), line)
        }
        Fence::Written { hart, at } => {
            let name = OperationName { hart, at };
            let text = named_text(alloc, test, name)?;
            let line = line_of(lines, name);
            format!(in alloc; "{} in line {}", text.as_str(), line)
        }
    }
}

const LOADS_ALONE: Classes = Classes {
    reads: true,
    writes: false,
};

const STORES_ALONE: Classes = Classes {
    reads: false,
    writes: true,
};

const LOADS_AND_STORES: Classes = Classes {
    reads: true,
    writes: true,
};

/// As what an operation counts that does both, where one of these is enough and the other isn't.
fn counts_as(by_load: bool, by_store: bool) -> &'static str
    ensures { result.now ≡ counts_as by_load by_store }
{
    match (by_load, by_store) {
        (true, false) => " counts as a load",
        (false, true) => " counts as a store",
        (true, true) | (false, false) => "",
    }
}

/// As what an AMO counts before the fence.
pub fn counts_before(test: &Test, fence: Fence) -> &'static str
    ensures { result.now ≡ counts_before test.now fence }
{
    counts_as(
        fence_orders(test, fence, LOADS_ALONE, LOADS_AND_STORES),
        fence_orders(test, fence, STORES_ALONE, LOADS_AND_STORES),
    )
}

/// As what an AMO counts behind the fence.
pub fn counts_behind(test: &Test, fence: Fence) -> &'static str
    ensures { result.now ≡ counts_behind test.now fence }
{
    counts_as(
        fence_orders(test, fence, LOADS_AND_STORES, LOADS_ALONE),
        fence_orders(test, fence, LOADS_AND_STORES, STORES_ALONE),
    )
}

fn is_amo(instr: Instr) -> bool
    ensures { result ≡ is_amo instr }
{
    matches!(instr, Instr::Amo { .. })
}

/// The same where the instruction is an AMO, else nothing.
pub fn if_amo(instr: Option<Instr>, counts: &'static str) -> &'static str
    ensures { result.now ≡ if_amo instr counts.now }
{
    match instr {
        Some(instr) if is_amo(instr) => counts,
        _ => "",
    }
}

fn named_counts(alloc: Global, name: OperationName, counts: &str) -> Result<String, AllocError>
    ensures { IfOk result (λ text. string_bytes text ≡ named_counts name counts.now) }
{
    if counts.is_empty() {
        return Ok(String::new(alloc));
    }
    format!(in alloc; "; {}{}", name, counts)
}

/// That the operation counts as this, if it is an AMO.
fn amo_counts(
    alloc: Global,
    test: &Test,
    name: OperationName,
    counts: &'static str,
) -> Result<String, AllocError>
    ensures { IfOk result (λ text. string_bytes text ≡ amo_counts test.now name counts.now) }
{
    named_counts(alloc, name, if_amo(instr_named(test, name), counts))
}

/// That this fence orders a before b.
fn ordered_text(
    alloc: Global,
    test: &Test,
    lines: &[List<usize>],
    fence: Fence,
    a: OperationName,
    b: OperationName,
) -> Result<String, AllocError>
    ensures { IfOk result (λ text. string_bytes text ≡ rule_4_text test.now lines.now (Some fence) a b) }
{
    let text = fence_text(alloc, test, lines, fence)?;
    let first = amo_counts(alloc, test, a, counts_before(test, fence))?;
    let second = amo_counts(alloc, test, b, counts_behind(test, fence))?;
    format!(in alloc;
        "{} (rule 4{}{})",
        text.as_str(),
        first.as_str(),
        second.as_str()
    )
}

/// That a fence orders a before b; which one, where it is known.
fn rule_4_text(
    alloc: Global,
    test: &Test,
    lines: &[List<usize>],
    fence: Option<Fence>,
    a: OperationName,
    b: OperationName,
) -> Result<String, AllocError>
    ensures { IfOk result (λ text. string_bytes text ≡ rule_4_text test.now lines.now fence a b) }
{
    match fence {
        Some(fence) => ordered_text(alloc, test, lines, fence, a, b),
        None => format!(in alloc; "fences (rule 4)"),
    }
}

/// Why a comes before b.
fn because_text(
    alloc: Global,
    test: &Test,
    lines: &[List<usize>],
    cause: Cause,
    fence: Option<Fence>,
    names: (OperationName, OperationName),
) -> Result<String, AllocError>
    ensures { IfOk result (λ text.
        string_bytes text ≡ because_text test.now lines.now cause fence names.0 names.1) }
{
    let (a, b) = names;
    match cause {
        Cause::Rule4 => rule_4_text(alloc, test, lines, fence, a, b),
        _ => cause_text(alloc, cause, a, b),
    }
}

/// What leads from a to b.
pub fn arrow_text(
    alloc: Global,
    test: &Test,
    lines: &[List<usize>],
    arrow: Arrow,
    fence: Option<Fence>,
    names: (OperationName, OperationName),
) -> Result<String, AllocError>
    ensures { IfOk result (λ text. string_bytes text
        ≡ arrow_text test.now lines.now arrow fence names.0 names.1) }
{
    match arrow {
        Arrow::Because(cause) => because_text(alloc, test, lines, cause, fence, names),
        Arrow::Forgotten => format!(in alloc;
            "{} comes after it in the code, and yet reads an older store (load values)",
            names.1
        ),
        Arrow::Pair(load) => format!(in alloc;
            "but no store of another hart may come between it and what {} reads (atomicity)",
            load
        ),
        Arrow::End => Ok(String::new(alloc)),
    }
}
