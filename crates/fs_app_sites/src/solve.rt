//! What `solve --sites` answers.

ghost use Rattle.std.specs.Prelude.{◌≡◌, map, string_bytes, IfOk, IfErr};
ghost use Rattle.fs_kinds.specs.declared.fault.Fault.TheVariants.{Memory};
ghost use Rattle.fs_app_sites.specs.Printed.{answer_text, status_of};
ghost use Rattle.fs_app_sites.specs.Solved.{IsFirstSitesFault, IsSolved};

use crate::ask::{read_one, read_question};
use crate::content::{File, Tests};
use crate::report::answer_text;
use fs_app_io::{Output, Status};
use fs_kinds::Fault;
use fs_sites::Answer;
use fs_sites_search::{Limits, solve_by};
use std::alloc::Global;
use std::thread::Threads;

/// What is printed, and how many sites the files have.
#[derive(Drop)]
pub struct Solved {
    pub output: Output,
    pub sites: usize,
}

/// What `solve --sites` answers for tests, in this order, and a file of prices: the first of the cheapest fences of
/// sites that rule out the outcome of each test, with their cost, and status 0; or `none`, the first file whose outcome
/// they don't rule out, with an execution that shows it with `rw,rw` at every site, and status 1. It is in lines, or as
/// a JSON object. Where each slot of one test is a site, the lines are in the form of an answer of slots. The files are
/// bytes as they were read. It is searched by up to so many workers, in threads; the answer is that of one. No contract
/// says how long the search takes.
///
/// The first fault in this order: `BadPrices` and `NoTop`; of each file in turn those of a test by number and then
/// line, and `BadLabel` of a second site label at a place; `NodeLimit` where there are more than 65,536 sites;
/// `TooManyTraces`, `Astray` and `TooManyCandidates` of some test, or `NodeLimit` where the search takes more rounds or
/// steps than so many. `Memory` may come in place of any answer.
pub fn run_sites<R: Threads + Sync>(
    rt: &R,
    alloc: Global,
    tests: &Tests,
    prices: &[u8],
    is_json: bool,
    limits: Limits,
) -> Result<Solved, Fault>
    ensures ok { IfOk result (λ solved. IsSolved is_json tests.now prices.now
        (string_bytes solved.output.text) solved.output.status) }
    ensures fault { IfErr result (IsFirstSitesFault tests.now prices.now) }
{
    let asked = read_question(alloc, tests, prices)?;
    let names = asked.names.as_slice();
    let answer = solve_by(rt, alloc, &asked.question, limits)?;
    solved_of(alloc, tests, names, &answer, is_json)
}

/// The status that goes with an answer.
fn status_of(answer: &Answer) -> Status
    ensures { result ≡ status_of answer.now }
{
    match answer {
        Answer::Fenced { .. } => Status::Success,
        Answer::None { .. } => Status::Denied,
    }
}

/// The answer in print to a question of these tests with sites of these names: in lines, or as a JSON object. The error
/// is F19.
pub fn solved_of(
    alloc: Global,
    tests: &Tests,
    names: &[String],
    answer: &Answer,
    is_json: bool,
) -> Result<Solved, Fault>
    ensures text { IfOk result (λ solved. string_bytes solved.output.text
        ≡ answer_text is_json tests.now (map string_bytes names.now) answer.now) }
    ensures status { IfOk result (λ solved. solved.output.status ≡ status_of answer.now) }
    ensures err { IfErr result (λ f. f ≡ Memory) }
{
    let text = answer_text(alloc, tests, names, answer, is_json)?;
    Ok(Solved {
        output: Output {
            text,
            status: status_of(answer),
        },
        sites: names.len(),
    })
}

/// The number of the first file that has the fault where it is the only one, for a message. None where no file is found
/// to have it. Each file is read again, and its outcome judged once with `rw,rw` at every site, by hunts of so many
/// inferences each.
pub fn first_at_fault(
    alloc: Global,
    tests: &Tests,
    prices: &[u8],
    fault: Fault,
    inferences: usize,
) -> Option<usize> {
    for (number, file) in tests.files.as_slice().iter().enumerate() {
        match judged_once(alloc, tests, file, prices, inferences) {
            Err(found) if found == fault => return Some(number),
            _ => {}
        }
    }
    None
}

/// Judges the outcome of one of the tests once, with `rw,rw` at every site.
fn judged_once(
    alloc: Global,
    tests: &Tests,
    file: &File,
    prices: &[u8],
    inferences: usize,
) -> Result<Answer, Fault> {
    let asked = read_one(alloc, tests, file, prices)?;
    let limits = Limits {
        workers: 1,
        rounds: 0,
        steps: 1,
        inferences,
    };
    fs_sites_search::solve(alloc, &asked.question, limits)
}
