//! What `audit` finds of a test file and prices.

ghost use Rattle.std.specs.Prelude.{◌≡◌, ◌≢◌, ◌≤◌, ◌++◌, ◌&&◌, ℕ, All, List as Items, Option, Some, length, OnOk, IfOk};
ghost use Rattle.std.specs.Prelude.{IfErr, IsOkUnless, IsTrue, true, false};
ghost use Rattle.std.specs.Arc.{arc_value};
ghost use Rattle.fs_kinds.specs.Limits.{most_harts, most_instructions};
ghost use Rattle.fs_kinds.specs.Placement.{slots_of};
ghost use Rattle.fs_kinds.specs.PriceTable.{are_offered, cost as fences_cost};
ghost use Rattle.fs_model.specs.declared.test.Test.{Test as Tests};
ghost use Rattle.fs_model.specs.Allows.{Allows, IsCheapest, no_fences};
ghost use Rattle.fs_model.specs.Slots.{slots};
ghost use Rattle.fs_model.specs.Test.{IsBounded, IsSame, IsStart, IsTest};
ghost use Rattle.fs_model.specs.Witness.{Witness as Shown};
ghost use Rattle.fs_cert_evidence.specs.CandidateFaults.{IsCandidateFault};
ghost use Rattle.fs_cert_evidence.specs.Sizes.{IsUnanswered};
ghost use Rattle.fs_board_offers.specs.Questions.{HasTop};
ghost use Rattle.fs_board_search.specs.Priced.{question_of};
ghost use Rattle.fs_litmus.specs.Faults.{IsTestFault};
ghost use Rattle.fs_litmus.specs.Lines.{StandIn};
ghost use Rattle.fs_litmus.specs.Reads.{Reads};
ghost use Rattle.fs_app_place_and_order.specs.Place.{ArePricesOf};
ghost use Rattle.fs_app_test.specs.SaidVerdicts.{IsTestedAs};
ghost use Rattle.fs_app_audit.specs.Audit.{AreFound, IsAdvised, IsKept, IsFirstFault, asked, bare, fence_there};
ghost use Rattle.fs_app_audit.specs.Audit.{written_fence, code_fences, written_fences, fits_one, with_one, taken_up};
ghost use Rattle.fs_app_audit.specs.Audit.{all_fit, costs_there, costs_everywhere};
ghost use Rattle.fs_app_audit.specs.inner.Made.{IsSound, findings_of};

use crate::advice::slot_of;
use crate::asked::{Purpose, asked, bare};
use crate::priced::Priced;
use crate::standing::access_after;
use crate::{is_fence, memory_kind};
use fs_app_test::{Kind, forbids, judge_test};
use fs_board_offers::{Question, is_same};
use fs_board_search::{Answer, Limits, Problem, Unwatched, problem_of, solve_problem};
use fs_cert_evidence::Forbidden;
use fs_instr::Instr;
use fs_kinds::{Entry, Fault, Kind as FenceKind, List, Placement, Prices, Slot, read_prices};
use fs_litmus::{Code, Test, read_lines, read_test, slots};
use std::alloc::{AllocError, Global};
use std::sync::Arc;

/// A test as it is written.
#[derive(Drop)]
pub struct Written {
    pub test: Arc<Test>,
    /// What is said of it.
    pub kind: Kind,
}

/// What was found anew.
#[derive(Drop)]
pub struct Findings {
    pub written: Written,
    /// The lines in which its instructions stand, hart by hart.
    pub lines: Vec<List<usize>>,
    /// The test with the FENCEs that count.
    pub asked: Arc<Test>,
    /// The test without FENCEs, and the prices.
    pub question: Arc<Priced>,
    /// The FENCEs as a placement over the slots of the test without them, as far as they fit.
    pub fences: Placement,
    /// Do all fit?
    pub all_fit: bool,
    /// The fences that are advised.
    pub best: Option<Placement>,
}

// ---- the FENCEs as they are written

/// A fence of this kind at the slot of this access, if there are both.
fn fence_there(
    hart: u8,
    code: &[Instr],
    access: Option<usize>,
    kind: Option<FenceKind>,
) -> Option<(Slot, FenceKind)>
    requires { length code.now ≤ most_instructions }
    ensures { result ≡ fence_there hart code.now access kind }
{
    let access = access?;
    let kind = kind?;
    Some((slot_of(hart, code, access), kind))
}

/// Appends what is there of the instruction at `at`, where it is a FENCE.
fn push_fence(
    hart: u8,
    code: &[Instr],
    at: usize,
    instr: &Instr,
    fences: &mut Vec<Option<(Slot, FenceKind)>>,
) -> Result<(), AllocError>
    requires { length code.now ≤ most_instructions }
    ensures { OnOk result (fences.new.items ≡ fences.old.items ++ written_fence hart code.now (at, instr.now)) }
{
    if is_fence(*instr) {
        let access = access_after(code, at);
        fences.push(fence_there(hart, code, access, memory_kind(*instr)))?;
    }
    Ok(())
}

/// Appends the FENCEs of a hart.
fn push_fences(
    hart: u8,
    code: &[Instr],
    fences: &mut Vec<Option<(Slot, FenceKind)>>,
) -> Result<(), AllocError>
    requires { length code.now ≤ most_instructions }
    ensures { OnOk result (fences.new.items ≡ fences.old.items ++ code_fences (hart, code.now)) }
{
    for (at, instr) in code.iter().enumerate() {
        push_fence(hart, code, at, instr, fences)?;
    }
    Ok(())
}

/// The FENCEs of all harts, each with its slot.
fn written_fences(
    alloc: Global,
    codes: &[Code],
) -> Result<Vec<Option<(Slot, FenceKind)>>, AllocError>
    requires harts { length codes.now ≤ most_harts }
    requires lengths { All (λ code. length code ≤ most_instructions) codes.now }
    ensures { IfOk result (λ fences. fences.items ≡ written_fences codes.now) }
{
    let mut fences = Vec::new(alloc);
    for (hart, code) in codes.iter().enumerate() {
        push_fences(hart as u8, code.as_slice(), &mut fences)?;
    }
    Ok(fences)
}

/// Puts the fence at its slot where it fits: where there is such a slot, with no fence yet, and the kind has a price.
fn take_up(prices: &Prices, fence: Option<(Slot, FenceKind)>, placement: &mut Placement) -> bool
    ensures fits { result ≡ fits_one prices.now placement.old fence }
    ensures taken { placement.new ≡ with_one prices.now placement.old fence }
{
    let Some((slot, kind)) = fence else {
        return false;
    };
    if prices.of(kind).is_none() || placement.get(slot).is_some() {
        return false;
    }
    placement.with(slot, Some(kind)).is_ok()
}

/// Takes up the fences in turn. Do all fit?
fn take_up_all(
    prices: &Prices,
    fences: &[Option<(Slot, FenceKind)>],
    placement: &mut Placement,
) -> bool
    ensures fit { result ≡ all_fit prices.now placement.old fences.now }
    ensures taken { placement.new ≡ taken_up prices.now placement.old fences.now }
{
    let mut all_fit = true;
    for fence in fences {
        all_fit &= take_up(prices, *fence, placement);
    }
    all_fit
}

/// The FENCEs as a placement over the slots of the test without them, as far as they fit; and whether all do.
fn written_placement(
    alloc: Global,
    question: &Priced,
    codes: &[Code],
) -> Result<(Placement, bool), Fault>
    requires bounded { IsBounded question.now.test }
    requires harts { length codes.now ≤ most_harts }
    requires lengths { All (λ code. length code ≤ most_instructions) codes.now }
    ensures taken { IfOk result (λ x. x.0
        ≡ taken_up question.now.prices (no_fences question.now.test) (written_fences codes.now)) }
    ensures fit { IfOk result (λ x. x.1
        ≡ all_fit question.now.prices (no_fences question.now.test) (written_fences codes.now)) }
    ensures err { IsOkUnless result Fault.Memory }
{
    let slots = slots(alloc, &question.test)?;
    let mut placement = Placement::bottom(alloc, &slots)?;
    let fences = written_fences(alloc, codes)?;
    let all_fit = take_up_all(&question.prices, &fences, &mut placement);
    Ok((placement, all_fit))
}

/// The same for a question that is shared: a placement over the slots of its test, with kinds that have a price.
fn own_fences(
    alloc: Global,
    question: &Arc<Priced>,
    codes: &[Code],
) -> Result<(Placement, bool), Fault>
    requires bounded { IsBounded (arc_value question.now).test }
    requires harts { length codes.now ≤ most_harts }
    requires lengths { All (λ code. length code ≤ most_instructions) codes.now }
    ensures taken { IfOk result (λ x. x.0
        ≡ taken_up (arc_value question.now).prices (no_fences (arc_value question.now).test) (written_fences
        codes.now)) }
    ensures fit { IfOk result (λ x. x.1
        ≡ all_fit (arc_value question.now).prices (no_fences (arc_value question.now).test) (written_fences
        codes.now)) }
    ensures slots { IfOk result (λ x. slots_of x.0 ≡ slots (arc_value question.now).test) }
    ensures offered { IfOk result (λ x. IsTrue (are_offered (arc_value question.now).prices x.0)) }
    ensures err { IsOkUnless result Fault.Memory }
{
    written_placement(alloc, question, codes)
}

// ---- the fences that are advised

fn costs_there(prices: &Prices, entry: &Entry) -> bool
    ensures { result ≡ costs_there prices.now entry.now }
{
    entry.kind.is_none() || prices.weight(entry.slot) != 0
}

/// Is no fence of the placement for nothing?
fn costs_everywhere(prices: &Prices, placement: &Placement) -> bool
    ensures { result ≡ costs_everywhere prices.now placement.now }
{
    placement
        .as_slice()
        .iter()
        .all(|entry| costs_there(prices, entry))
}

/// Does the placement forbid the outcome as the first one does? Where they are the same nothing is judged.
fn forbids_too(
    alloc: Global,
    problem: &Problem,
    own: &Placement,
    first: &Forbidden,
) -> Result<bool, Fault>
    requires slots { slots_of own.now ≡ slots problem.now }
    requires first { Allows problem.now first.now.placement → ⊥ }
    ensures yes { IfOk result (λ is. is ≡ true → Allows problem.now own.now → ⊥) }
    ensures no { IfOk result (λ is. is ≡ false → Allows problem.now own.now) }
    ensures err { IfErr result (λ f. f ≢ Fault.Memory → IsCandidateFault problem.now f) }
{
    if is_same(own.as_slice(), first.placement.as_slice()) {
        return Ok(true);
    }
    forbids(alloc, problem, own)
}

/// Is no fence of the placement for nothing, does it cost as much as the cheapest, and forbid the outcome as they do?
fn is_kept(
    alloc: Global,
    question: &Arc<Priced>,
    problem: &Problem,
    own: &Placement,
    first: &Forbidden,
    cost: u64,
) -> Result<bool, Fault>
    requires same { problem.now ≡ (arc_value question.now).test }
    requires slots { slots_of own.now ≡ slots (arc_value question.now).test }
    requires offered { IsTrue (are_offered (arc_value question.now).prices own.now) }
    requires first { IsCheapest (arc_value question.now).test (arc_value question.now).prices first.now.placement }
    requires cost { cost ≡ fences_cost (arc_value question.now).prices first.now.placement }
    ensures yes { IfOk result (λ is. is ≡ true
        → IsKept (arc_value question.now).test (arc_value question.now).prices own.now) }
    ensures no { IfOk result (λ is. is ≡ false
        → IsKept (arc_value question.now).test (arc_value question.now).prices own.now → ⊥) }
    ensures err { IfErr result (λ f. f ≢ Fault.Memory → IsCandidateFault (arc_value question.now).test f) }
{
    let prices = &question.prices;
    if costs_everywhere(prices, own) && prices.cost(own) == cost {
        forbids_too(alloc, problem, own, first)
    } else {
        Ok(false)
    }
}

/// The FENCEs as they are written, where they are kept; else the first of the cheapest placements.
fn kept_or_first(
    alloc: Global,
    question: &Arc<Priced>,
    problem: &Problem,
    own: &Placement,
    first: &Forbidden,
    cost: u64,
) -> Result<Placement, Fault>
    requires same { problem.now ≡ (arc_value question.now).test }
    requires slots { slots_of own.now ≡ slots (arc_value question.now).test }
    requires offered { IsTrue (are_offered (arc_value question.now).prices own.now) }
    requires first { IsCheapest (arc_value question.now).test (arc_value question.now).prices first.now.placement }
    requires cost { cost ≡ fences_cost (arc_value question.now).prices first.now.placement }
    ensures ok { IfOk result
        (λ p. IsAdvised (arc_value question.now).test (arc_value question.now).prices own.now (Some p)) }
    ensures err { IfErr result (λ f. f ≢ Fault.Memory → IsCandidateFault (arc_value question.now).test f) }
{
    let is_kept = is_kept(alloc, question, problem, own, first, cost)?;
    if is_kept {
        own.copy()
    } else {
        first.placement.copy()
    }
}

/// The question at whose slots the prices make the offers.
fn offered_question(alloc: Global, question: &Priced) -> Result<Arc<Question>, Fault>
    requires bounded { IsBounded question.now.test }
    ensures ok { IfOk result (λ made. arc_value made ≡ question_of question.now.test question.now.prices) }
    ensures top { IfOk result (λ made. HasTop (arc_value made).offers) }
    ensures err { IsOkUnless result Fault.Memory }
{
    let _table = question.prices.of(FenceKind::RwRw);
    let test = Arc::try_clone(&question.test)?;
    let made = Question::priced(alloc, test, &question.prices)?;
    Ok(Arc::new(alloc, made)?)
}

/// The fences that are advised; nothing where none rule the outcome out. The fault is that of a search by one worker.
fn best(
    alloc: Global,
    question: &Arc<Priced>,
    own: &Placement,
    limits: Limits,
) -> Result<Option<Placement>, Fault>
    requires bounded { IsBounded (arc_value question.now).test }
    requires starts { All IsStart (arc_value question.now).test.starts }
    requires slots { slots_of own.now ≡ slots (arc_value question.now).test }
    requires offered { IsTrue (are_offered (arc_value question.now).prices own.now) }
    requires least { 1 ≤ limits.nodes }
    requires most { limits.nodes ≤ 1000000 }
    ensures ok { IfOk result (IsAdvised (arc_value question.now).test (arc_value question.now).prices own.now) }
    ensures err { IfErr result (λ f. f ≢ Fault.Memory
        → IsUnanswered (arc_value question.now).test (arc_value question.now).prices limits.nodes f) }
{
    let asked = offered_question(alloc, question)?;
    let problem = problem_of(alloc, &asked, limits.inferences)?;
    let shared = Arc::try_clone(&problem)?;
    let solved = solve_problem(alloc, asked, shared, limits.nodes, &mut Unwatched)?;
    match &solved.answer {
        Answer::Fenced { forbidden, cost } => {
            let best = kept_or_first(alloc, question, &problem, own, forbidden, *cost)?;
            Ok(Some(best))
        }
        Answer::None { .. } => Ok(None),
    }
}

// ---- all of it

/// The test that the bytes are, to be shared. Faults and cost are those of `read_test` of fs_litmus.
pub fn read_shared(alloc: Global, bytes: &[u8]) -> Result<Arc<Test>, Fault>
    ensures ok { IfOk result (λ test. Reads bytes.now (arc_value test)) }
    ensures test { IfOk result (λ test. IsTest (arc_value test)) }
    ensures err { IfErr result (λ f. f ≢ Fault.Memory → IsTestFault bytes.now f) }
{
    let test = read_test(alloc, bytes)?;
    Ok(Arc::new(alloc, test)?)
}

/// The lines of the instructions of a test.
fn lines_of(alloc: Global, bytes: &[u8]) -> Result<Vec<List<usize>>, Fault>
    requires { (t : Tests) × Reads bytes.now t }
    ensures ok { IfOk result (λ lines. StandIn bytes.now lines.items) }
    ensures err { IsOkUnless result Fault.Memory }
{
    read_lines(alloc, bytes)
}

/// The test of the bytes with the FENCEs that count.
fn read_asked(alloc: Global, purpose: Purpose, bytes: &[u8]) -> Result<Arc<Test>, Fault>
    ensures codes { IfOk result (λ test. (t : Tests) → Reads bytes.now t → (arc_value test).codes
        ≡ (asked purpose t).codes) }
    ensures bounded { IfOk result (λ test. IsBounded (arc_value test)) }
    ensures err { IfErr result (λ f. f ≢ Fault.Memory → IsTestFault bytes.now f) }
{
    let test = read_test(alloc, bytes)?;
    let counted = asked(alloc, purpose, test)?;
    Ok(Arc::new(alloc, counted)?)
}

/// The test of the bytes without FENCEs.
fn read_bare(alloc: Global, purpose: Purpose, bytes: &[u8]) -> Result<Arc<Test>, Fault>
    ensures same { IfOk result (λ made. (t : Tests) → Reads bytes.now t → IsSame (arc_value made) (bare purpose t)) }
    ensures bounded { IfOk result (λ made. IsBounded (arc_value made)) }
    ensures starts { IfOk result (λ made. All IsStart (arc_value made).starts) }
    ensures err { IfErr result (λ f. f ≢ Fault.Memory → IsTestFault bytes.now f) }
{
    let test = read_test(alloc, bytes)?;
    let made = bare(alloc, purpose, test)?;
    Ok(Arc::new(alloc, made)?)
}

/// The question of the test without FENCEs at these prices.
fn bare_question(
    alloc: Global,
    purpose: Purpose,
    bytes: &[u8],
    prices: Prices,
) -> Result<Arc<Priced>, Fault>
    ensures same { IfOk result (λ question. (t : Tests) → Reads bytes.now t
        → IsSame (arc_value question).test (bare purpose t)) }
    ensures prices { IfOk result (λ question. (arc_value question).prices ≡ prices) }
    ensures bounded { IfOk result (λ question. IsBounded (arc_value question).test) }
    ensures starts { IfOk result (λ question. All IsStart (arc_value question).test.starts) }
    ensures err { IfErr result (λ f. f ≢ Fault.Memory → IsTestFault bytes.now f) }
{
    let test = read_bare(alloc, purpose, bytes)?;
    Ok(Arc::new(alloc, Priced { test, prices })?)
}

/// What is found anew of a test that was judged as it is written. Faults and cost are those of `run_anew` behind the
/// first verdict.
pub fn find_judged(
    alloc: Global,
    purpose: Purpose,
    bytes: &[u8],
    prices: Prices,
    written: Written,
    limits: Limits,
) -> Result<Findings, Fault>
    requires reads { Reads bytes.now (arc_value written.test) }
    requires test { IsTest (arc_value written.test) }
    requires tested { (why : Items ℕ) × (witness : Option Shown)
        × IsTestedAs (arc_value written.test) written.kind why witness }
    requires least { 1 ≤ limits.nodes }
    requires most { limits.nodes ≤ 1000000 }
    ensures found { IfOk result (λ found. (file : Items ℕ) → ArePricesOf file prices
        → AreFound purpose bytes.now file (findings_of found)) }
    ensures own { IfOk result (λ found. arc_value found.written.test ≡ arc_value written.test) }
    ensures kind { IfOk result (λ found. found.written.kind ≡ written.kind) }
    ensures prices { IfOk result (λ found. (arc_value found.question).prices ≡ prices) }
    ensures sound { IfOk result IsSound }
    ensures fault { IfErr result (λ f. (file : Items ℕ) → ArePricesOf file prices
        → IsFirstFault purpose bytes.now file limits.nodes f) }
{
    let question = bare_question(alloc, purpose, bytes, prices)?;
    let asked = read_asked(alloc, purpose, bytes)?;
    let (fences, all_fit) = own_fences(alloc, &question, asked.codes.as_slice())?;
    let best = best(alloc, &question, &fences, limits)?;
    let lines = lines_of(alloc, bytes)?;
    Ok(Findings {
        written,
        lines,
        asked,
        question,
        fences,
        all_fit,
        best,
    })
}

/// What is found anew of a test file and a file of prices. Faults and cost are those of `run_anew`.
pub fn find(
    alloc: Global,
    purpose: Purpose,
    test: &[u8],
    prices: &[u8],
    limits: Limits,
) -> Result<Findings, Fault>
    requires least { 1 ≤ limits.nodes }
    requires most { limits.nodes ≤ 1000000 }
    ensures found { IfOk result (λ found. AreFound purpose test.now prices.now (findings_of found)) }
    ensures sound { IfOk result IsSound }
    ensures fault { IfErr result (IsFirstFault purpose test.now prices.now limits.nodes) }
{
    let table = read_prices(alloc, prices)?;
    let own = read_shared(alloc, test)?;
    let said = judge_test(alloc, &own, limits.inferences)?;
    let written = Written {
        test: own,
        kind: said.kind,
    };
    find_judged(alloc, purpose, test, table, written, limits)
}
