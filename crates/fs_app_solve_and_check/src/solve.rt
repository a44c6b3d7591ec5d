//! What `solve` answers.

ghost use Rattle.std.specs.Prelude.{◌≡◌, ◌≤◌, ℕ, List, Some, IfOk, IfErr, IsOkUnless, string_bytes};
ghost use Rattle.std.specs.Arc.{arc_value};
ghost use Rattle.fs_kinds.specs.PriceTable.{PriceTable, IsPriceTable};
ghost use Rattle.fs_model.specs.Test.{IsBounded, IsTest};
ghost use Rattle.fs_litmus.specs.Reads.{Reads};
ghost use Rattle.serde_json.specs.View.{view};
ghost use Rattle.fs_cert_evidence.specs.Evidence.{ShowsForbidden};
ghost use Rattle.fs_board_offers.specs.Questions.{Question as Asked};
ghost use Rattle.fs_board_offers.specs.Offers.{offers_of};
ghost use Rattle.fs_pool_workers.specs.Answers.{placement_of};
ghost use Rattle.fs_cert.specs.Certified.{Certifies};
ghost use Rattle.fs_app_place_and_order.specs.Place.{ArePricesOf};
ghost use Rattle.fs_report.specs.Objects.{AreOneAnswer};
ghost use Rattle.fs_app_solve_and_check.specs.Found.{IsAskedBy, IsFound, IsFoundFor, Prints, lines_of, value_of, is_free};
ghost use Rattle.fs_board_search.specs.Priced.{question_of};
ghost use Rattle.fs_app_io.specs.declared.status.Status.{Status as Ends};
ghost use Rattle.fs_app_solve_and_check.specs.Solve.{IsSolved, IsCertified, IsFirstSolveFault};
ghost use Rattle.fs_app_solve_and_check.specs.inner.Made.{CertifiesAnswer, SaysAnswer};

use fs_app_io::{Output, Status};
use fs_board_offers::Question;
use fs_cert::{from_board, from_least, from_witness};
use fs_cert_evidence::Forbidden;
use fs_cert_json::Certificate;
use fs_kinds::{Fault, Kind, Prices, read_prices};
use fs_litmus::{Test, read_test};
use fs_pool_workers::{Answer, Gate, Limits, Solved, Watch, solve_alone};
use fs_report::{fenced_text, fenced_value, json_line, none_text, none_value};
use serde_json::Value;
use std::alloc::{AllocError, Global};
use std::sync::{Arc, Wait};
use std::thread::Threads;

/// A question that was read, with its answer.
#[derive(Drop)]
pub struct Found {
    pub question: Arc<Question>,
    pub solved: Solved,
}

/// What `solve` answers for a test file and a file of prices: the first of the cheapest placements of fences that rule
/// the outcome out, with its cost, and status 0; or `none`, with an execution that shows the outcome with `rw,rw` in
/// every slot, and status 1. The files are bytes as they were read. One worker searches, without threads, and the call
/// ends; the watch is told how far it is.
///
/// The first fault in this order: `BadPrices` and `NoTop`; those of a test file by number and then line;
/// `TooManyTraces` and `Astray`; `TooManyCandidates`; `NodeLimit`, which comes only where fences are needed, `rw,rw` in
/// every slot is enough, and the tree of all placements has more nodes below its root than the limit. `Memory` may come
/// in place of any answer. The law `headline` of fs_app_guarantees says what an answer means.
pub fn run_solve_alone<W: Watch>(
    alloc: Global,
    test: &[u8],
    prices: &[u8],
    limits: Limits,
    watch: &mut W,
) -> Result<Found, Fault>
    requires least { 1 ≤ limits.nodes }
    requires most { limits.nodes ≤ 1000000 }
    ensures found { IfOk result (λ found.
        IsFound test.now prices.now limits.nodes (arc_value found.question) found.solved) }
    ensures fault { IfErr result (IsFirstSolveFault test.now prices.now limits.nodes) }
{
    let question = read_question(alloc, test, prices)?;
    let asked = Arc::try_clone(&question)?;
    let solved = solve_alone(alloc, asked, limits, watch)?;
    Ok(Found { question, solved })
}

/// What `run_solve_alone` answers, searched by 1 to 16 workers: one begins, and where judging takes long the others
/// join it, in threads of their own; the gate is told how far they are. Whatever their number, the placement is the
/// first of the cheapest.
///
/// The faults are those of `run_solve_alone`. Where what was logged under the lock isn't what the workers were told,
/// the lock or the threads didn't do as they should: then nothing of it is used, and one worker searches alone; no test
/// meets it. Several workers may make more nodes, and so come to `NodeLimit` where one has the answer. It isn't proved
/// that a thread comes back: a call that waits for ever has no answer.
pub fn run_solve<R: Threads + Wait + Sync, G: Gate + Sync>(
    rt: &R,
    alloc: Global,
    test: &[u8],
    prices: &[u8],
    workers: u8,
    limits: Limits,
    gate: &G,
) -> Result<Found, Fault>
    requires some { 1 ≤ workers }
    requires few { workers ≤ 16 }
    requires least { 1 ≤ limits.nodes }
    requires most { limits.nodes ≤ 1000000 }
    ensures found { IfOk result (λ found.
        IsFound test.now prices.now limits.nodes (arc_value found.question) found.solved) }
    ensures fault { IfErr result (IsFirstSolveFault test.now prices.now limits.nodes) }
{
    let question = read_question(alloc, test, prices)?;
    let asked = Arc::try_clone(&question)?;
    let solved = fs_pool_workers::solve(rt, alloc, asked, workers, limits, gate)?;
    Ok(Found { question, solved })
}

impl Found {
    /// What `solve` prints, and the status that goes with it. Fails only for want of memory.
    pub fn output(&self, alloc: Global) -> Result<Output, Fault>
        ensures answer { IfOk result (λ output. (test prices : List ℕ) (limit : ℕ)
            → IsFound test prices limit (arc_value self.now.question) self.now.solved
            → IsSolved test prices (string_bytes output.text) output.status) }
        ensures prints { IfOk result (λ output.
            Prints self.now.solved.answer (string_bytes output.text) output.status) }
        ensures lines { IfOk result (λ output. string_bytes output.text ≡ lines_of self.now.solved.answer) }
        ensures err { IsOkUnless result Fault.Memory }
    {
        let output = answer_output(alloc, &self.solved.answer)?;
        Ok(output)
    }

    /// The same answer as a JSON object, in a line, which may be printed in place of its lines. Fails only for want of
    /// memory.
    pub fn object(&self, alloc: Global) -> Result<String, Fault>
        ensures alike { IfOk result (λ object. AreOneAnswer (lines_of self.now.solved.answer) (string_bytes object)) }
        ensures err { IsOkUnless result Fault.Memory }
    {
        let object = answer_object(alloc, &self.solved.answer)?;
        Ok(object)
    }

    /// Is the answer a placement that costs nothing?
    pub fn is_free(&self) -> bool
        ensures { result ≡ is_free self.now.solved.answer }
    {
        match &self.solved.answer {
            Answer::Fenced { cost, .. } => *cost == 0,
            Answer::None { .. } => false,
        }
    }

    /// The text of a certificate file, which is valid for the test and the prices with the answer that is printed: of
    /// the second version where it lists cycles, each of which begins at its least operation, else of the fourth. Where
    /// the answer is `none`, its witness is the printed one. Fails only for want of memory.
    pub fn certificate(&self, alloc: Global) -> Result<String, Fault>
        requires { (test prices : List ℕ) × (limit : ℕ)
            × IsFound test prices limit (arc_value self.now.question) self.now.solved }
        ensures certificate { IfOk result (λ made. (test prices text : List ℕ) (limit : ℕ) (status : Ends)
            → IsFound test prices limit (arc_value self.now.question) self.now.solved
            → Prints self.now.solved.answer text status → text ≡ lines_of self.now.solved.answer
            → IsCertified test prices text status (string_bytes made)) }
        ensures err { IsOkUnless result Fault.Memory }
    {
        let text = certificate_text(alloc, &self.question, &self.solved)?;
        Ok(text)
    }
}

/// The question that a test file and a file of prices ask.
fn read_question(alloc: Global, test: &[u8], prices: &[u8]) -> Result<Arc<Question>, Fault>
    ensures asked { IfOk result (λ question. IsAskedBy test.now prices.now (arc_value question)) }
    ensures fault { IfErr result (λ fault. (limit : ℕ) → IsFirstSolveFault test.now prices.now limit fault) }
{
    let table = read_prices(alloc, prices)?;
    read_priced(alloc, test, table)
}

/// The question that a test file asks at these prices.
fn read_priced(alloc: Global, test: &[u8], prices: Prices) -> Result<Arc<Question>, Fault>
    ensures asked { IfOk result (λ question. (bytes : List ℕ) → ArePricesOf bytes prices
        → IsAskedBy test.now bytes (arc_value question)) }
    ensures fault { IfErr result (λ fault. (bytes : List ℕ) → ArePricesOf bytes prices
        → (limit : ℕ) → IsFirstSolveFault test.now bytes limit fault) }
{
    let read = read_test(alloc, test)?;
    let question = question_of(alloc, read, prices)?;
    Ok(question)
}

/// The question of this test, at whose slots these prices make the offers.
fn question_of(alloc: Global, test: Test, prices: Prices) -> Result<Arc<Question>, Fault>
    requires bounded { IsBounded test }
    ensures ok { IfOk result (λ question. arc_value question ≡ question_of test prices) }
    ensures table { IsPriceTable prices }
    ensures err { IsOkUnless result Fault.Memory }
{
    let _table = prices.of(Kind::RwRw);
    let test = shared(alloc, test)?;
    let question = Question::priced(alloc, test, &prices)?;
    Ok(Arc::new(alloc, question)?)
}

/// The test, to be shared.
fn shared(alloc: Global, test: Test) -> Result<Arc<Test>, AllocError>
    ensures { IfOk result (λ shared. arc_value shared ≡ test) }
{
    Ok(Arc::new(alloc, test)?)
}

/// The answer as a JSON object, in a line.
fn answer_object(alloc: Global, answer: &Answer) -> Result<String, AllocError>
    ensures { IfOk result (λ text. AreOneAnswer (lines_of answer.now) (string_bytes text)) }
{
    let value = answer_value(alloc, answer)?;
    json_line(alloc, &value)
}

/// The JSON object of the answer.
fn answer_value(alloc: Global, answer: &Answer) -> Result<Value, AllocError>
    ensures { IfOk result (λ value. view value ≡ value_of answer.now) }
{
    match answer {
        Answer::Fenced { forbidden, cost } => fenced_value(alloc, &forbidden.placement, *cost),
        Answer::None { witness } => none_value(alloc, &witness.choices, &witness.order),
    }
}

/// The answer in print, and the status that goes with it.
fn answer_output(alloc: Global, answer: &Answer) -> Result<Output, AllocError>
    ensures prints { IfOk result (λ output. Prints answer.now (string_bytes output.text) output.status) }
    ensures lines { IfOk result (λ output. string_bytes output.text ≡ lines_of answer.now) }
{
    match answer {
        Answer::Fenced { forbidden, cost } => Ok(Output {
            text: fenced_text(alloc, &forbidden.placement, *cost)?,
            status: Status::Success,
        }),
        Answer::None { witness } => Ok(Output {
            text: none_text(alloc, &witness.choices, &witness.order)?,
            status: Status::Denied,
        }),
    }
}

/// The text of a certificate of the answer.
fn certificate_text(alloc: Global, question: &Question, solved: &Solved) -> Result<String, Fault>
    requires { (q : Asked) × (limit : ℕ) × IsFoundFor q limit question.now solved.now }
    ensures ok { IfOk result (λ text. (prices : PriceTable) → question.now.offers ≡ offers_of question.now.test prices
        → SaysAnswer question.now.test prices solved.now.answer (string_bytes text)) }
    ensures err { IsOkUnless result Fault.Memory }
{
    let made = certificate_of(alloc, question, solved)?;
    let text = made.to_text(alloc)?;
    Ok(text)
}

/// The certificate of the answer.
fn certificate_of(alloc: Global, question: &Question, solved: &Solved) -> Result<Certificate, Fault>
    requires { (q : Asked) × (limit : ℕ) × IsFoundFor q limit question.now solved.now }
    ensures ok { IfOk result (CertifiesAnswer question.now.test question.now.offers solved.now.answer) }
    ensures err { IsOkUnless result Fault.Memory }
{
    match &solved.answer {
        Answer::None { witness } => Ok(from_witness(alloc, witness)?),
        Answer::Fenced { forbidden, .. } => fenced_certificate(alloc, question, solved, forbidden),
    }
}

/// The certificate of an answer that is a placement: of the board's bound, where there is a board, else of no fence at
/// all.
fn fenced_certificate(
    alloc: Global,
    question: &Question,
    solved: &Solved,
    forbidden: &Forbidden,
) -> Result<Certificate, Fault>
    requires placed { placement_of solved.now.answer ≡ Some forbidden.now.placement }
    requires cycles { ShowsForbidden question.now.test forbidden.now }
    requires found { (q : Asked) × (limit : ℕ) × IsFoundFor q limit question.now solved.now }
    ensures ok { IfOk result (Certifies question.now.test question.now.offers (Some forbidden.now.placement)) }
    ensures err { IsOkUnless result Fault.Memory }
{
    match solved.board() {
        Some(board) => from_board(alloc, board, forbidden),
        None => Ok(from_least(alloc, question, forbidden)?),
    }
}
