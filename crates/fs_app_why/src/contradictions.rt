//! Why an outcome is ruled out: the kinds of contradictions of a refutation, in print.

ghost use Rattle.std.specs.Prelude.{◌≡◌, ◌≤◌, ◌<◌, ◌++◌, length, IfOk, map, false, string_bytes, true};
ghost use Rattle.fs_kinds.specs.Limits.{most_locations};
ghost use Rattle.fs_model.specs.Forms.{is_loading, is_storing};
ghost use Rattle.fs_app_why.specs.Counted.{rest_text};
ghost use Rattle.fs_app_why.specs.InstructionWords.{text_of_instr};
ghost use Rattle.fs_app_why.specs.Contradictions.{above_text, again, also_text, amo_text, any_told, below_by};
ghost use Rattle.fs_app_why.specs.Contradictions.{chain_text, contradictions_text, cycle_text, does_by, does_known};
ghost use Rattle.fs_app_why.specs.Contradictions.{does_there, end_text, headed, heading_of, initial_text, is_text};
ghost use Rattle.fs_app_why.specs.Contradictions.{kind_text, link_row, loaded_text, none_there, numbered_text};
ghost use Rattle.fs_app_why.specs.Contradictions.{others_text, shape_text, told_text, unsaid_text};

use crate::arrows::arrow_text;
use crate::chain::{Arrow, Chain, ChainLink, Shape};
use crate::counted::rest_text;
use crate::instruction_words::{instr_named, instr_text};
use crate::kinds::ChainKind;
use crate::known::Known;
use crate::likeness::told_links;
use crate::rows::{line_cell, name_cell};
use crate::signs::{Sign, some_told};
use crate::table::{Row, table_text};
use crate::telling::{Telling, is_told, told_place};
use crate::words::{loads, stores, word_text};
use fs_instr::Instr;
use fs_kinds::List;
use fs_model::{Location, Name, Test};
use fs_report::value_text;
use std::alloc::{AllocError, Global};

// ---- what an operation does, as far as all runs that are left agree

fn is_text(alloc: Global, locations: &[Location], word: Option<u32>) -> Result<String, AllocError>
    requires { length locations.now ≤ most_locations }
    ensures { IfOk result (λ text. string_bytes text ≡ is_text locations.now word) }
{
    match word {
        Some(word) => {
            let word = word_text(alloc, locations, word)?;
            format!(in alloc; "={}", word.as_str())
        }
        None => Ok(String::new(alloc)),
    }
}

/// What an operation stores that loads, too.
fn also_text(alloc: Global, locations: &[Location], word: Option<u32>) -> Result<String, AllocError>
    requires { length locations.now ≤ most_locations }
    ensures { IfOk result (λ text. string_bytes text ≡ also_text locations.now word) }
{
    match word {
        Some(word) => {
            let word = word_text(alloc, locations, word)?;
            format!(in alloc; ", stores {}", word.as_str())
        }
        None => format!(in alloc; ", stores to it"),
    }
}

fn initial_text(is_initial: bool) -> &'static str
    ensures { result.now ≡ initial_text is_initial }
{
    if is_initial { " (initial)" } else { "" }
}

fn loaded_text(
    alloc: Global,
    locations: &[Location],
    at: &str,
    known: Known,
) -> Result<String, AllocError>
    requires { length locations.now ≤ most_locations }
    ensures { IfOk result (λ text. string_bytes text ≡ loaded_text locations.now at.now known) }
{
    let word = is_text(alloc, locations, known.loaded)?;
    let initial = initial_text(known.is_initial);
    format!(in alloc; "reads {}{}{}", at, word.as_str(), initial)
}

fn stored_text(
    alloc: Global,
    locations: &[Location],
    at: &str,
    known: Known,
) -> Result<String, AllocError>
    requires { length locations.now ≤ most_locations }
    ensures { IfOk result (λ text. string_bytes text ≡ does_there locations.now at.now known false true) }
{
    let word = is_text(alloc, locations, known.stored)?;
    format!(in alloc; "stores {}{}", at, word.as_str())
}

fn both_text(
    alloc: Global,
    locations: &[Location],
    at: &str,
    known: Known,
) -> Result<String, AllocError>
    requires { length locations.now ≤ most_locations }
    ensures { IfOk result (λ text. string_bytes text ≡ does_there locations.now at.now known true true) }
{
    let loaded = loaded_text(alloc, locations, at, known)?;
    let stored = also_text(alloc, locations, known.stored)?;
    format!(in alloc; "{}{}", loaded.as_str(), stored.as_str())
}

fn does_there(
    alloc: Global,
    locations: &[Location],
    at: &str,
    known: Known,
    instr: &Instr,
) -> Result<String, AllocError>
    requires { length locations.now ≤ most_locations }
    ensures { IfOk result (λ text. string_bytes text
        ≡ does_there locations.now at.now known (is_loading instr.now) (is_storing instr.now)) }
{
    if !loads(instr) {
        return stored_text(alloc, locations, at, known);
    }
    if stores(instr) {
        both_text(alloc, locations, at, known)
    } else {
        loaded_text(alloc, locations, at, known)
    }
}

fn does_known(
    alloc: Global,
    locations: &[Location],
    known: Known,
    instr: &Instr,
) -> Result<String, AllocError>
    requires { length locations.now ≤ most_locations }
    ensures { IfOk result (λ text. string_bytes text
        ≡ does_known locations.now known known.address instr.now) }
{
    match known.address {
        Some(address) => {
            let at = value_text(alloc, locations, address)?;
            does_there(alloc, locations, at.as_str(), known, instr)
        }
        None => Ok(String::new(alloc)),
    }
}

/// What the operation does, as far as it is known; nothing where its location isn't.
fn does_by(
    alloc: Global,
    locations: &[Location],
    known: Known,
    instr: Option<Instr>,
) -> Result<String, AllocError>
    requires { length locations.now ≤ most_locations }
    ensures { IfOk result (λ text. string_bytes text ≡ does_by locations.now known instr) }
{
    match instr {
        Some(instr) => does_known(alloc, locations, known, &instr),
        None => Ok(String::new(alloc)),
    }
}

// ---- chains

/// The line below an operation that says what leads to the next one.
fn below(
    alloc: Global,
    test: &Test,
    lines: &[List<usize>],
    link: &ChainLink,
) -> Result<String, AllocError>
    ensures { IfOk result (λ text. string_bytes text ≡ below_by test.now lines.now link.now link.now.arrow) }
{
    if matches!(link.arrow, Arrow::End) {
        return Ok(String::new(alloc));
    }
    let names = (link.name, link.next);
    let words = arrow_text(alloc, test, lines, link.arrow, link.fence, names)?;
    format!(in alloc; "    |   {}\n", words.as_str())
}

fn text_cell(alloc: Global, instr: Option<Instr>) -> Result<Name, AllocError>
    ensures { IfOk result (λ text. text ≡ text_of_instr instr) }
{
    match instr {
        Some(instr) => Ok(Name::new(instr_text(alloc, instr)?)),
        None => Ok(Name::new(String::new(alloc))),
    }
}

/// The row of an operation of a chain.
fn link_row(
    alloc: Global,
    test: &Test,
    lines: &[List<usize>],
    link: &ChainLink,
) -> Result<Row, AllocError>
    requires { length test.now.locations ≤ most_locations }
    ensures { IfOk result (λ row. row ≡ link_row test.now lines.now link.now) }
{
    let instr = instr_named(test, link.name);
    let does = does_by(alloc, test.locations.as_slice(), link.known, instr)?;
    Ok(Row {
        name: name_cell(alloc, link.name)?,
        line: line_cell(alloc, lines, link.name)?,
        text: text_cell(alloc, instr)?,
        does: Name::new(does),
        below: Name::new(below(alloc, test, lines, link)?),
    })
}

fn link_rows(
    alloc: Global,
    test: &Test,
    lines: &[List<usize>],
    links: &[ChainLink],
) -> Result<Vec<Row>, AllocError>
    requires { length test.now.locations ≤ most_locations }
    ensures { IfOk result (λ rows. rows.items ≡ map (link_row test.now lines.now) links.now) }
{
    let mut rows = Vec::new(alloc);
    for link in links {
        rows.push(link_row(alloc, test, lines, link)?)?;
    }
    Ok(rows)
}

/// The first operation again.
fn again(alloc: Global, links: &[ChainLink]) -> Result<String, AllocError>
    ensures { IfOk result (λ text. string_bytes text ≡ again links.now) }
{
    match links.first() {
        Some(link) => format!(in alloc; "  {}  again\n", link.name),
        None => Ok(String::new(alloc)),
    }
}

fn end_text(alloc: Global, shape: Shape, links: &[ChainLink]) -> Result<String, AllocError>
    ensures { IfOk result (λ text. string_bytes text ≡ end_text shape links.now) }
{
    match shape {
        Shape::Cycle => again(alloc, links),
        Shape::Stale | Shape::NotAtomic => Ok(String::new(alloc)),
    }
}

/// The chain in print; of a cycle the first operation stands again at its end.
fn chain_text(
    alloc: Global,
    test: &Test,
    lines: &[List<usize>],
    chain: &Chain,
) -> Result<String, AllocError>
    requires { length test.now.locations ≤ most_locations }
    ensures { IfOk result (λ text. string_bytes text ≡ chain_text test.now lines.now chain.now) }
{
    let links = told_links(alloc, chain)?;
    let rows = link_rows(alloc, test, lines, &links)?;
    let mut text = table_text(alloc, &rows)?;
    let end = end_text(alloc, chain.shape, &links)?;
    text.push_str(end.as_str())?;
    Ok(text)
}

// ---- kinds in print

fn shape_text(shape: Shape) -> &'static str
    ensures { result.now ≡ shape_text shape }
{
    match shape {
        Shape::Cycle => "cycle ",
        Shape::Stale => "stale ",
        Shape::NotAtomic => "not atomic ",
    }
}

fn others_text(alloc: Global, count: usize) -> Result<String, AllocError>
    ensures { IfOk result (λ text. string_bytes text ≡ others_text count) }
{
    if count <= 1 {
        return format!(in alloc; "\n");
    }
    let others = count - 1;
    format!(in alloc; " (and {} more like it, with other harts)\n", others)
}

/// The chain below its number, as that of a kind with so many.
fn headed(
    alloc: Global,
    test: &Test,
    lines: &[List<usize>],
    number: usize,
    count: usize,
    chain: &Chain,
) -> Result<String, AllocError>
    requires { length test.now.locations ≤ most_locations }
    ensures { IfOk result (λ text. string_bytes text ≡ headed test.now lines.now number count chain.now) }
{
    let others = others_text(alloc, count)?;
    let told = chain_text(alloc, test, lines, chain)?;
    format!(in alloc;
        "\n{}{}{}{}",
        shape_text(chain.shape),
        number,
        others.as_str(),
        told.as_str()
    )
}

fn kind_text(
    alloc: Global,
    test: &Test,
    lines: &[List<usize>],
    telling: Telling,
    number: usize,
    kind: &ChainKind,
) -> Result<String, AllocError>
    requires { length test.now.locations ≤ most_locations }
    ensures { IfOk result (λ text. string_bytes text ≡ kind_text test.now lines.now telling number kind.now) }
{
    match kind.instances.get(told_place(telling, kind)) {
        Some(chain) => headed(alloc, test, lines, number, kind.instances.len(), chain),
        None => Ok(String::new(alloc)),
    }
}

/// The kind of this number, from 0, if it is told.
fn numbered_text(
    alloc: Global,
    test: &Test,
    lines: &[List<usize>],
    telling: Telling,
    kinds: &[ChainKind],
    number: usize,
) -> Result<String, AllocError>
    requires locations { length test.now.locations ≤ most_locations }
    requires number { number < length kinds.now }
    ensures { IfOk result (λ text. string_bytes text
        ≡ numbered_text test.now lines.now telling kinds.now number) }
{
    if is_told(telling, kinds, number) {
        kind_text(alloc, test, lines, telling, number + 1, &kinds[number])
    } else {
        Ok(String::new(alloc))
    }
}

/// The kinds that are told.
fn told_text(
    alloc: Global,
    test: &Test,
    lines: &[List<usize>],
    telling: Telling,
    kinds: &[ChainKind],
) -> Result<String, AllocError>
    requires { length test.now.locations ≤ most_locations }
    ensures { IfOk result (λ text. string_bytes text ≡ told_text test.now lines.now telling kinds.now) }
{
    let mut text = String::new(alloc);
    for number in 0..kinds.len() {
        let told = numbered_text(alloc, test, lines, telling, kinds, number)?;
        text.push_str(told.as_str())?;
    }
    Ok(text)
}

// ---- what stands above them

fn heading_of(count: usize) -> &'static str
    ensures { result.now ≡ heading_of count }
{
    if count == 1 {
        "\nEach way to the outcome that its values leave open has this\ncontradiction."
    } else {
        "\nEach way to the outcome that its values leave open has one of these\ncontradictions."
    }
}

/// What a cycle is, where one is told; the end of the line.
fn cycle_text(is_told: bool) -> &'static str
    ensures { result.now ≡ cycle_text is_told }
{
    if is_told {
        " In a cycle each operation comes to memory before the next one,\nand the last before the first.\n"
    } else {
        "\n"
    }
}

/// What it means that a value is left out, where one is.
fn unsaid_text(is_told: bool) -> &'static str
    ensures { result.now ≡ unsaid_text is_told }
{
    if is_told {
        "Where a value is left out it differs from way to way, or may do so.\n"
    } else {
        ""
    }
}

/// What is meant by an AMO that counts as a load, or as a store, where one does.
fn amo_text(is_told: bool) -> &'static str
    ensures { result.now ≡ amo_text is_told }
{
    if is_told {
        "\nAn AMO is one operation that loads and stores at once: what orders either half orders all of it.\n"
    } else {
        ""
    }
}

/// The heading, and what is meant by what stands below it.
fn above_text(
    alloc: Global,
    test: &Test,
    telling: Telling,
    kinds: &[ChainKind],
) -> Result<String, AllocError>
    ensures { IfOk result (λ text. string_bytes text ≡ above_text test.now telling kinds.now) }
{
    format!(in alloc;
        "{}{}{}{}",
        heading_of(kinds.len()),
        cycle_text(some_told(test, telling, kinds, Sign::Cycle)),
        unsaid_text(some_told(test, telling, kinds, Sign::Unsaid)),
        amo_text(some_told(test, telling, kinds, Sign::Halves))
    )
}

/// Is a kind told? Not where the fence that is asked for is in none.
fn any_told(telling: Telling, kinds: &[ChainKind]) -> bool
    ensures { result ≡ any_told telling kinds.now }
{
    (0..kinds.len()).any(|number| is_told(telling, kinds, number))
}

/// That the fence is in none, above how many there are.
fn none_there(alloc: Global, telling: Telling, kinds: &[ChainKind]) -> Result<String, AllocError>
    ensures { IfOk result (λ text. string_bytes text ≡ none_there ++ rest_text telling kinds.now) }
{
    let rest = rest_text(alloc, telling, kinds)?;
    format!(in alloc;
        "\nThis fence is in none of the contradictions that rule the outcome out.\n{}",
        rest.as_str()
    )
}

/// The kinds of contradictions in print: those that are told, and how many there are besides. The square of the kinds,
/// times that of the fences in each. The error is want of memory.
pub fn contradictions_text(
    alloc: Global,
    test: &Test,
    lines: &[List<usize>],
    telling: Telling,
    kinds: &[ChainKind],
) -> Result<String, AllocError>
    requires { length test.now.locations ≤ most_locations }
    ensures { IfOk result (λ text.
        string_bytes text ≡ contradictions_text test.now lines.now telling kinds.now) }
{
    if kinds.is_empty() {
        return format!(in alloc;
            "\nNo values that the loads can return lead to the outcome, whatever the order of memory.\n"
        );
    }
    if !any_told(telling, kinds) {
        return none_there(alloc, telling, kinds);
    }
    let above = above_text(alloc, test, telling, kinds)?;
    let told = told_text(alloc, test, lines, telling, kinds)?;
    let rest = rest_text(alloc, telling, kinds)?;
    format!(in alloc; "{}{}{}", above.as_str(), told.as_str(), rest.as_str())
}
