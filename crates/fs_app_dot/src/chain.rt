//! The arrows of a contradiction.

ghost use Rattle.std.specs.Prelude.{◌≡◌, ◌++◌, codes, slice_get, IfOk, OnOk};
ghost use Rattle.fs_model.specs.Execution.{code_of};
ghost use Rattle.fs_app_dot.specs.Chains.{cause_label, chain_edges, fence_label, ink_of, label_of, link_edges};
ghost use Rattle.fs_app_dot.specs.Chains.{written_label};
ghost use Rattle.fs_app_dot.specs.declared.graph.Ink.TheVariants.{Rule};

use crate::graph::{Edge, Ink};
use fs_app_why::{Arrow, ChainLink, Fence};
use fs_cert_evidence::Cause;
use fs_instr::{Instr, write_instr};
use fs_kinds::OperationName;
use fs_model::{Name, Test};
use std::alloc::{AllocError, Global};

pub(crate) fn ink_of(cause: Cause) -> Ink
    ensures { result ≡ ink_of cause }
{
    match cause {
        Cause::Rule4 => Ink::Fence,
        Cause::ReadsFrom => Ink::ReadsFrom,
        Cause::Coherence => Ink::Coherence,
        Cause::FromReads => Ink::FromReads,
        _ => Ink::Rule,
    }
}

pub(crate) fn cause_label(cause: Cause) -> &'static str
    ensures { result.now ≡ cause_label cause }
{
    match cause {
        Cause::Rule1 => "ppo (rule 1)",
        Cause::Rule2 => "ppo (rule 2)",
        Cause::Rule3 => "ppo (rule 3)",
        Cause::Rule4 => "fence",
        Cause::Rule5 => "aq (rule 5)",
        Cause::Rule6 => "rl (rule 6)",
        Cause::Rule7 => "aq, rl (rule 7)",
        Cause::Rule8 => "lr/sc (rule 8)",
        Cause::Rule9 => "addr (rule 9)",
        Cause::Rule10 => "data (rule 10)",
        Cause::Rule11 => "ctrl (rule 11)",
        Cause::Rule12 => "ppo (rule 12)",
        Cause::Rule13 => "ppo (rule 13)",
        Cause::ReadsFrom => "rf",
        Cause::Coherence => "co",
        Cause::FromReads => "fr",
    }
}

/// The instruction there, if there is one.
pub(crate) fn instr_at(test: &Test, hart: u8, at: u8) -> Option<Instr>
    ensures { result ≡ slice_get (code_of test.now hart) at }
{
    let code = test.codes.get(usize::from(hart))?;
    code.get(usize::from(at)).copied()
}

/// The text as a name.
pub(crate) fn named(alloc: Global, text: &str) -> Result<Name, AllocError>
    ensures { IfOk result (λ name. name ≡ text.now) }
{
    Ok(Name::new(String::from_str(alloc, text)?))
}

/// A FENCE of the test in print.
fn written_label(alloc: Global, instr: Option<Instr>) -> Result<Name, AllocError>
    ensures { IfOk result (λ label. label ≡ written_label instr) }
{
    let Some(instr) = instr else {
        return named(alloc, "fence");
    };
    let mut text = String::new(alloc);
    write_instr(&instr, &mut text)?;
    Ok(Name::new(text))
}

/// What stands beside an arrow for which a fence is the cause.
pub(crate) fn fence_label(
    alloc: Global,
    test: &Test,
    fence: Option<Fence>,
) -> Result<Name, AllocError>
    ensures { IfOk result (λ label. label ≡ fence_label test.now fence) }
{
    match fence {
        Some(Fence::Placed { kind, .. }) => {
            Ok(Name::new(format!(in alloc; "fence {}", kind.name())?))
        }
        Some(Fence::Written { hart, at }) => written_label(alloc, instr_at(test, hart, at)),
        None => named(alloc, "fence"),
    }
}

/// What stands beside an arrow.
fn label_of(
    alloc: Global,
    test: &Test,
    cause: Cause,
    fence: Option<Fence>,
) -> Result<Name, AllocError>
    ensures { IfOk result (λ label. label ≡ label_of test.now cause fence) }
{
    match cause {
        Cause::Rule4 => fence_label(alloc, test, fence),
        _ => named(alloc, cause_label(cause)),
    }
}

/// The arrow from a store to a load behind it that returns what it overwrites.
fn forgotten(alloc: Global, link: &ChainLink) -> Result<Edge, AllocError>
    ensures { IfOk result (λ edge. edge
        ≡ record { from = link.now.name; to = link.now.next; ink = Rule; label = codes "load values" }) }
{
    let label = named(alloc, "load values")?;
    Ok(Edge {
        from: link.name,
        to: link.next,
        ink: Ink::Rule,
        label,
    })
}

/// The arrow from this load to the link's operation, with which it is a pair.
fn paired(alloc: Global, link: &ChainLink, load: OperationName) -> Result<Edge, AllocError>
    ensures { IfOk result (λ edge. edge
        ≡ record { from = load; to = link.now.name; ink = Rule; label = codes "atomicity" }) }
{
    let label = named(alloc, "atomicity")?;
    Ok(Edge {
        from: load,
        to: link.name,
        ink: Ink::Rule,
        label,
    })
}

/// The arrow from the link's operation to the next one, for this cause.
fn because(alloc: Global, test: &Test, link: &ChainLink, cause: Cause) -> Result<Edge, AllocError>
    ensures { IfOk result (λ edge. edge ≡ record {
      from = link.now.name;
      to = link.now.next;
      ink = ink_of cause;
      label = label_of test.now cause link.now.fence;
    }) }
{
    let label = label_of(alloc, test, cause, link.fence)?;
    Ok(Edge {
        from: link.name,
        to: link.next,
        ink: ink_of(cause),
        label,
    })
}

/// Appends the arrow to which a link comes, if it comes to one.
fn push_link(
    alloc: Global,
    test: &Test,
    link: &ChainLink,
    edges: &mut Vec<Edge>,
) -> Result<(), AllocError>
    ensures { OnOk result (edges.new.items ≡ edges.old.items ++ link_edges test.now link.now) }
{
    match link.arrow {
        Arrow::Because(cause) => edges.push(because(alloc, test, link, cause)?)?,
        Arrow::Forgotten => edges.push(forgotten(alloc, link)?)?,
        Arrow::Pair(load) => edges.push(paired(alloc, link, load)?)?,
        Arrow::End => {}
    }
    Ok(())
}

/// The arrows of a chain: for each link why its operation comes before the next one. Linear in the links.
pub(crate) fn chain_edges(
    alloc: Global,
    test: &Test,
    links: &[ChainLink],
) -> Result<Vec<Edge>, AllocError>
    ensures { IfOk result (λ edges. edges.items ≡ chain_edges test.now links.now) }
{
    let mut edges = Vec::new(alloc);
    for link in links {
        push_link(alloc, test, link, &mut edges)?;
    }
    Ok(edges)
}
