//! The command line: its words, and what each command's help says.
use crate::completions::{Shell, script};
use clap::error::ErrorKind;
use clap::{Arg, ArgAction, ArgMatches, Command, Error, value_parser};
use std::alloc::{AllocError, Global};

/// The version of the program, which `--version` prints behind its name.
const VERSION: &str = "0.1.0";

const TEST_ABOUT: &str = "Can the outcome of a litmus test happen, as the test is written?";

const TEST_HELP: &str = "\
Prints a line for each file, in order: its name, what is said of its test, and why; and
a last line that counts them. No fence is placed, and prices are not asked for.

  forbidden  no execution under RVWMO shows the outcome of the condition (of `forall`: of
             its denial). N contradictions: how many the refutation has that was found
  allowed    some execution shows it. Why: the first operation that comes to memory
             before an earlier one of its hart, and the earliest that it passes
  vacuous    no execution shows it, for a reason that has nothing to do with the memory
             model: no runs of the harts end so, whatever their loads return of the words
             that are stored at all. Why: an atom of the condition that nothing makes
             true, mostly a slip of the pen
  fault      the file isn't read, or not answered, and why; a message on standard error
             shows where, and what was expected

  $ rvfence test examples/tests/SB-half.litmus examples/tests/typo.litmus
  examples/tests/SB-half.litmus  allowed    P1:2 comes to memory before P1:1
  examples/tests/typo.litmus     vacuous    nothing stores 1 to z
  2 tests: 1 allowed, 1 vacuous

With --json it prints a JSON object for each file, a line each, and nothing counts them:

  $ rvfence test examples/tests/SB-half.litmus --json
  {\"file\":\"examples/tests/SB-half.litmus\",\"verdict\":\"allowed\",\"why\":\"P1:2 comes to memory
  before P1:1\",\"witness\":{\"choices\":[[0],[0]],\"order\":[\"P1:2\",\"P0:1\",\"P0:3\",\"P1:1\"]}}

(here in two lines). Where the outcome is allowed, the witness is an execution that shows it,
which `order` reads. Of a file with a fault the object has line, column and a message.

With --dot FOLDER a picture of each execution and of each contradiction that --why tells is
written into the folder, for Graphviz's `dot`: of SB.litmus SB-execution.dot or SB-cycle-1.dot.

With --expect each file says what is expected of its test, in a comment as
(* expect forbidden *), or `allowed` or `vacuous`. With --expect=LIST a file does, with lines
as `SB allowed`: the name of a test, and one of these words. A line that isn't as expected
says what was; a fault never is, nor a test of which nothing is expected.

FILE may also be a folder, for its files *.litmus and those of its folders; or a list, a file
whose name begins with @, with a FILE a line, as herd7 reads it.

Exit status:
  0  each outcome is forbidden; with --expect, each test is as expected
  1  one is allowed, whatever else there is; with --expect, a test isn't as expected, or LIST
     names one that isn't there
  2  none is allowed, and a file has a fault; or a bad command line or LIST
  3  memory ran out (fault F19), and nothing is printed
  4  none is allowed, no file has a fault, and one is vacuous
Faults beside those of the files: a hart has too many runs (F13), a run accesses an
address of no location (F14), there are too many candidate executions (F15), a file
can't be read (F20).";

const STATES_ABOUT: &str = "Which final states does the memory model allow?";

const STATES_HELP: &str = "\
Prints for each test, in herd7's form, all final states of what its condition and its
`locations [..]` name: each state in which some execution under RVWMO ends, and no other.

  $ rvfence states examples/SB.litmus
  Test SB Allowed
  States 4
  0:x7=0; 1:x7=0;
  0:x7=0; 1:x7=1;
  0:x7=1; 1:x7=0;
  0:x7=1; 1:x7=1;
  Ok
  Witnesses
  Positive: 1 Negative: 3
  Condition exists (0:x7=0 /\\ 1:x7=0)
  Observation SB Sometimes 1 3

Positive and Negative count the states that make the condition true, and false (herd7 counts
executions there). `Ok`: the condition with its `exists`, `~exists` or `forall` holds of them.

A word as P0:3=w,w is a fence, which is placed in each test as `place` does it.

With --all the states have all registers that are written, and all locations. With
--witnesses each state has an execution below it, which `order` reads. With --json an object
stands for a test, in a line; a file with a fault has one as of `test --json`.

With --log LOG the states are not printed, but held against those that herd7 or litmus7 wrote
to the file, for what it shows of each test:

  $ rvfence states --log examples/logs/CoRR-forbidden.log examples/CoRR.litmus
  CoRR: 2 seen, 3 allowed
    forbidden, 12 seen  1:x5=1; 1:x7=0;
    not seen   1:x5=0; 1:x7=0;
    not seen   1:x5=0; 1:x7=1;

Exit status:
  0  done; with --log, each state that was seen is allowed
  1  with --log, a state was seen that isn't allowed
  2  a file or the log has a fault, a test isn't in the log, or a bad command line; the
     other files are answered
  3  memory ran out (fault F19)
Faults beside those of the files: a hart has too many runs (F13), a run accesses an
address of no location (F14), there are too many candidate executions (F15), a file
can't be read (F20).";

const PLACE_ABOUT: &str = "Print a litmus test with fences placed in it";

const PLACE_HELP: &str = "\
Prints the test in a fixed layout, with the fences given. With prices, a last line
gives the cost of the fences, as (* cost 5 *).

A fence P0:3=w,w stands before instruction 3 of hart 0. Harts and instructions count
from 0, labels don't count. It must be a memory instruction with an earlier one in
its hart. Kinds: r,r r,w r,rw w,r w,w w,rw rw,r rw,w rw,rw tso.

With --sites fences are given to the sites that labels name (`rvfence solve --help`), as
lock=r,r, and stand at all copies; with --free also as P0:3=w,w where no site is. Of prices
each site is paid once.

Exit status:
  0  the fenced test is on standard output
  2  a fault, a line on standard error as `fault F6 BadLabel line 5` (with -v a message
     explains it), or a bad command line
  3  memory ran out (fault F19)
A fault leaves standard output empty, unless standard output itself failed.";

const ORDER_ABOUT: &str = "Is this an execution that the memory model allows?";

const ORDER_HELP: &str = "\
Prints `yes` where the witness is an execution of the fenced test under RVWMO that shows
the outcome of its condition, else `no: ` and the first reason against it.

A witness is a JSON file {\"choices\":[[1],[0]],\"order\":[\"P0:2\",\"P1:0\"]}: for each hart
the words that its loads return, with true or false for an sc.w that succeeds or fails;
and the memory operations, by hart and instruction, in the global memory order.

Reasons:
  choices P1, astray P1:2   the choices make no whole run of this hart
  order                     not each operation once and nothing else
  load P1:2                 the load's word isn't that of its source
  rule 4 P0:1 P0:2          preserved program order, by the manual's rule, isn't kept
  atomic P0:0 P0:1          another hart stores between the paired lr.w and sc.w
  outcome                   the execution doesn't show the outcome

With --sites fences are those of sites that labels name, as lock=r,r; with --free also as
P0:3=w,w where no site is.

Exit status:
  0  yes
  1  no
  2  a fault, a line on standard error as `fault F17 BadWitness` (with -v a message
     explains it), or a bad command line
  3  memory ran out (fault F19)";

const SOLVE_ABOUT: &str = "Find the cheapest fences that rule an outcome out";

const SOLVE_HELP: &str = "\
Prints the cheapest fences under which no execution of the test shows the outcome of
its condition (of `forall`: of the condition's denial). Store buffering needs two:

  $ rvfence solve examples/SB.litmus examples/prices.json
  fenced 18
  fence P0 2 w,r
  fence P1 2 w,r

Both together cost 18. The first is a `fence w,r` before instruction 2 of hart 0; harts
and instructions count from 0, labels don't count. `place` with P0:2=w,r P1:2=w,r prints
the test with them. Of fences that cost the same it takes the first, slot by slot: no
fence before any, then r,r r,w r,rw w,r w,w w,rw rw,r rw,w rw,rw tso.

Where some execution shows the outcome even with rw,rw in every slot, no fences rule it
out. Then it prints `none` and such an execution, as a witness that `order` reads:

  $ rvfence solve examples/MP11.litmus examples/prices.json
  none
  {\"choices\":[[],[1,1]],\"order\":[\"P0:1\",\"P0:3\",\"P1:0\",\"P1:1\"]}

With --json the answer is a JSON object, in one line:

  {\"answer\":\"fenced\",\"cost\":18,\"fences\":[{\"before\":2,\"hart\":0,\"kind\":\"w,r\"},
  {\"before\":2,\"hart\":1,\"kind\":\"w,r\"}]}
  {\"answer\":\"none\",\"witness\":{\"choices\":[[],[1,1]],\"order\":[\"P0:1\",\"P0:3\",\"P1:0\",\"P1:1\"]}}

So is a fault, as of `test --json`, beside its line.

Where the outcome is vacuous (`rvfence test --help`), a note on standard error says why.

With --cert PATH a certificate of the answer is written to PATH first, which `check` reads
and judges without a search for executions.

With --write FILE itself is printed with the fences, in rows of their own before their
instructions. Else nothing changes. Below `none` there is nothing to write, and it is printed
as ever. With --dot FOLDER pictures are written of what --why tells, as `test` does it, and
of the execution without each fence as SB-without-P0-2.dot.

With --workers N up to N threads search. The fences are the same for every number. One
thread begins; the others join it only where many placements are still to be judged once
it has made its plan, which few tests need.

With --sites FILE stands for one test or several, also folders and @lists as of `test`, and
fences for the functions of a library are found in place of fences for each hart. A label to
which no branch goes names a site, a place in a function: lock_0 and lock_1 are copies of
the site lock. All copies take the same fence, and the fences together rule the outcome of
each test out. A site's fence is paid once:

  $ rvfence solve examples/sites/ticket-*.litmus examples/prices-linux.json --sites
  fenced 7
  site lock r,r
  site unlock rw,w

Elsewhere no fence is placed; with --free each place before an access is a site of its own
where no label names one, as P0:3 or, of several files, FILE:P0:3. Below `none` stands first
the file whose outcome is shown, even with rw,rw at every site. --json has sites in place of
fences, and the file. --workers judges the tests side by side. Weights in PRICES go by names
of sites, as {\"lock\":3}. With -v a note says of each test which sites it needs. There is no
--write, --why or --dot.

PRICES offers kinds, each for 1 to 1000000, and rw,rw must be one of them, as in
{\"w,w\":2,\"rw,rw\":10}. Slots may have weights that multiply the price.

Exit status:
  0  fenced
  1  none
  2  a fault, a line on standard error as `fault F16 NodeLimit` (with -v a message
     explains it), or a bad command line
  3  memory ran out (fault F19)
Faults beside those of the files: a hart has too many runs (F13), a run accesses an
address of no location (F14), there are too many candidate executions (F15), the search
needs more nodes (F16).";

const AUDIT_ABOUT: &str = "Which fences of a litmus test are needed, and which are missing?";

const AUDIT_HELP: &str = "\
Finds the cheapest fences that rule the test's outcome out in the places of its FENCEs: in
each there may stand none, the FENCE, or a kind that orders less. The first line has what
they cost as written, in place, and found anew, anywhere. Then comes a line for each FENCE:

  $ rvfence audit examples/tests/SB-fenced.litmus examples/prices.json
  forbidden as written, 20; in place 18; anew 18
  line 11   P0:2   rw,rw      w,r is enough
  line 11   P1:2   rw,rw      w,r is enough

  needed          without it, and the others as advised, the outcome can happen
  K is enough     kind K, which orders less, is enough in its place
  not needed      it can go
  orders nothing  no access stands before it, or none behind it
  not for memory  it orders no access to memory before another, and stays

Behind these words `for memory` stands where a FENCE has i or o among its letters: what it
orders of devices isn't judged. `(no price)` stands where PRICES lack the kind of a FENCE
that stays: it costs what the cheapest kind does that orders as much.

Follow all of the lines or some: the outcome stays ruled out. Where several fences cost
the least, FENCEs stay as they are first. Lines and instructions are those of the file;
instructions count from 0, FENCEs too. Weights of PRICES go by instructions of the test
without FENCEs.

Where the outcome can happen as the test is written, and with --anew, the test without its
FENCEs is searched as by `solve`, and the lines compare: `K instead` advises a kind of which
the FENCE doesn't order all, `K is missing` asks for a fence before this instruction, and
`at no slot` says that a label or a branch stands behind the FENCE. Follow these together.
Where the outcome is vacuous there are no lines, but with --anew.

With --write the file is printed with what is advised in the places of its FENCEs; all else
stays as it is, and so do FENCEs with i or o among their letters. With -i the file itself
becomes so. Where the outcome can happen as the test is written, or a FENCE can't be changed in
its place, --write prints the test anew with the cheapest fences, and -i leaves the file.

Of several files, also those of a folder or a list as `test` takes them, each has its name
above what is said of it, and an empty line below. A last line counts them:

  3 tests: 1 forbidden, 1 allowed, 1 vacuous; 10 could be saved in place

There a fault stands in the place of a file's lines, and the status is 1 where it is of
some file, else 2, else 4, else 0. --write and -i take one file.

With --json it prints a JSON object for each file, a line each, and nothing counts them. It has
the costs of the first line, and `lines`; of a file with a fault it is that of `test --json`.

With --why it is told below the lines why the FENCEs as advised rule the outcome out, and of
each an execution without it; where the outcome can happen as written, an execution.

With --sites the FENCEs are judged that stand right behind labels that name sites (`rvfence
solve --help`), for all tests together; other FENCEs stay. A line has a site, a FENCE that
copies of it have, or `none`, what is advised, and where these copies stand.

Exit status:
  0  each FENCE is needed or not for memory; with --write nothing changes; with -i the file
     is as advised
  1  there is something to change, or the outcome can happen as the test is written
  2  a fault, a line on standard error as `fault F11 NoTop` and a message that explains
     it, or a bad command line
  3  memory ran out (fault F19)
  4  the outcome is vacuous, as `test` says it
Faults are those of `test` and of `solve`.";

const CHECK_ABOUT: &str = "Does this certificate show that an answer is right?";

const CHECK_HELP: &str = "\
Prints `yes` where the certificate is valid for the test and the prices, and below it the
answer that it is for, as `solve` prints it; else `no: ` and the first reason against it.
Nothing is searched, so a yes needs no trust in the search:

  $ rvfence check examples/SB.litmus examples/prices.json examples/certificates/SB.json
  yes
  fenced 18
  fence P0 2 w,r
  fence P1 2 w,r

With --json it prints a JSON object, in one line, with the answer as `solve --json` has it:

  {\"answer\":{\"answer\":\"fenced\",\"cost\":18,\"fences\":[..]},\"valid\":true}
  {\"reason\":\"cycle 3\",\"valid\":false}

So is a fault, as of `test --json`, beside its line.

With --sites the certificate is of `solve --sites --cert`, for the same files in the same order,
and what costs less is searched for.

A certificate is a JSON file with the answer, a cycle for each candidate execution that
shows the outcome (in version 4 a refutation of them all), a tree in which nothing better
than the answer is left, and the executions that the tree names. docs/CERTIFICATE.md says
what makes one valid.

Reasons, where K counts from 0:
  answer       the answer is none of the test and the prices
  cycles       not one cycle for each candidate execution that shows the outcome; or the
               items of a refutation are not one whole tree
  cycle K      this one is no cycle under the answer's fences, or this item doesn't follow
  tree         the items are not one whole tree
  node K       something better than the answer is left at this item
  witness K    an item needs this execution, and it isn't there or shows nothing there
  cycles K     with --sites: the test of this number isn't refuted under the answer

Exit status:
  0  yes
  1  no
  2  a fault, a line on standard error as `fault F18 BadCertificate` (with -v a message
     explains it), or a bad command line
  3  memory ran out (fault F19)
Faults beside those of the files: a hart has too many runs (F13), a run accesses an
address of no location (F14), there are too many candidate executions (F15; not with
version 4).";

const COMPLETIONS_ABOUT: &str = "Print a script by which a shell completes commands and options";

const COMPLETIONS_HELP: &str = "\
A shell that reads the script completes commands, options and the names of files:

  source <(rvfence completions bash)      in bash
  source <(rvfence completions zsh)       in zsh
  rvfence completions fish | source       in fish

Exit status:
  0  the script is on standard output
  2  a fault, or a bad command line
  3  memory ran out (fault F19)";

const PROGRAM_HELP: &str = "\
`rvfence <COMMAND> --help` says what a command answers. A fault is a line on standard error.
With -v, and on a terminal, a message below it shows where in a file it is, and what was
expected; `test`, `audit` and `states` always say this. With -q only the line of a fault is
said.

Exit status: 0 done, yes, fenced or forbidden; 1 no, none or allowed; 2 a fault or a bad
command line; 3 memory ran out; 4 vacuous.";

const FILE_HELP: &str = "Litmus test in herd7's RISC-V format; `-` or `stdin` is standard input";

const FILES_HELP: &str =
    "Litmus tests in herd7's RISC-V format, folders and @lists; `-` is standard input";

const FILES_AND_FENCES_HELP: &str =
    "Litmus tests, folders and @lists, and fences to place in each test, as P0:3=w,w";

const ALL_HELP: &str = "Show all registers that are written, and all locations";

const WITNESSES_HELP: &str = "Print an execution below each state, which `order` reads";

const STATES_JSON_HELP: &str = "Print a JSON object for each test, a line each; not with --log";

const LOG_HELP: &str = "File that herd7 or litmus7 wrote, to hold the states against";

const FENCE_HELP: &str = "Fence to place, as P0:3=w,w: hart, instruction (from 0) and kind";

const WITNESS_HELP: &str = "JSON file with an execution: the choices of each hart, and the order";

const PRICES_HELP: &str = "JSON file with the prices of the kinds that may be placed";

const CERTIFICATE_HELP: &str = "JSON file with a certificate, of up to 1 GiB";

const CERT_HELP: &str = "File to write a certificate of the answer to, which `check` reads";

const WORKERS_HELP: &str = "Threads to search with, 1 to 16";

const JOBS_HELP: &str = "Threads to judge files with, 1 to 16; the lines are the same";

const EXPECT_HELP: &str = "Is each test as its comments, or LIST, expect it?";

const LINES_HELP: &str = "Print a JSON object for each file, a line each";

const JSON_HELP: &str = "Print a JSON object";

const ORDER_WHY_HELP: &str = "Tell the execution of a yes, operation by operation";

const TEST_WHY_HELP: &str =
    "Tell an execution of each allowed outcome, why one is forbidden (=all, or =P1:6); no --json";

const WITHOUT_HELP: &str =
    "Tell contradictions and executions without fences (=all, or of one fence =P1:6); no --json";

const DOT_HELP: &str =
    "Folder to write pictures of what --why tells into, as files for Graphviz's dot";

const ORDER_DOT_HELP: &str =
    "Folder to write a picture of the execution of a yes into, for Graphviz's dot";

const SHELL_HELP: &str = "Which shell is to read it";

const ANEW_HELP: &str = "Compare with the cheapest fences in the test without FENCEs";

const WRITE_HELP: &str = "Print the file with its FENCEs as advised";

const SOLVE_WRITE_HELP: &str = "Print FILE with the fences in it; no --json, no --why";

const IN_PLACE_HELP: &str = "Write FENCEs as advised into the file itself";

const QUIET_HELP: &str = "Say nothing on standard error but a line for what is wrong";

const VERBOSE_HELP: &str = "Explain a fault: where it is, and what was expected";

const SITES_HELP: &str =
    "Find fences of labelled sites, for all tests given; not with --write, --why, --dot";

const PLACE_SITES_HELP: &str = "Place fences of labelled sites, as lock=r,r, at all their copies";

const ORDER_SITES_HELP: &str =
    "Of labelled sites, as lock=r,r, at all copies; not with --why, --dot";

const FREE_HELP: &str =
    "With --sites: each place before an access without a site is one of its own";

const AUDIT_WHY_HELP: &str =
    "Tell why the advised FENCEs are enough, and an execution without each (=all, or =P1:6)";

const AUDIT_SITES_HELP: &str =
    "Judge FENCEs at labelled sites, in all tests given; not with --anew, --write, -i, --why, --jobs";

const CHECK_SITES_HELP: &str =
    "Of labelled sites, and any number of files before PRICES; not with --why, --dot";

const FILES_AND_PRICES_HELP: &str = "Litmus tests, folders and @lists, and behind them PRICES";

const UNROLL_HELP: &str =
    "Read branches that go back, with 1: of executions those in which none does";

const ZALASR_HELP: &str = "Read lw.aq, sw.rl and their like, of the extension Zalasr";

const NODES_HELP: &str = "Most nodes that the search may make, 1 to 1000000";

const WORK_HELP: &str = "Most inferences that a hunt for a verdict may make, 1 to 1000000000";

/// What is read of an option that may have a path and has none. No path has such a byte.
const NO_PATH: &str = "\0";

/// The names of the shells.
const SHELLS: &[&str] = &["bash", "zsh", "fish"];

/// The most threads that may search, or judge files.
pub const MOST_WORKERS: u8 = 16;

/// How many threads do, where the command line doesn't say.
const ONE_WORKER: u8 = 1;

/// The most nodes that a search may be allowed, and how many it is where the command line doesn't say.
pub const MOST_NODES: u32 = 1_000_000;

/// How many inferences a hunt may be allowed at most, and how many it is where the command line doesn't say.
const MOST_WORK: u32 = 1_000_000_000;

const USUAL_WORK: u32 = 1_000_000;

/// What a command line asks for.
#[derive(Drop)]
pub struct Request<'a> {
    pub task: Task<'a>,
    /// Whether all but a line for what is wrong is to be left out on standard error.
    pub quiet: bool,
    /// Whether a message is to explain a fault.
    pub verbose: bool,
    /// How many inferences each hunt may make: from 1 to 1,000,000,000.
    pub work: u32,
    /// Whether branches that go back are read: of executions those in which none does.
    pub unroll: bool,
    /// Whether lw and sw may have the annotations of the extension Zalasr.
    pub zalasr: bool,
}

/// What is to be done. Files go by their paths.
#[derive(Drop)]
pub enum Task<'a> {
    Test(Test<'a>),
    States(States<'a>),
    Place(Place<'a>),
    Order(Order<'a>),
    Solve(Solve<'a>),
    Sites(Sites<'a>),
    Audit(Audit<'a>),
    AuditSites(AuditSites<'a>),
    Check(Check<'a>),
    CheckSites(CheckSites<'a>),
    /// To print the script for this shell.
    Completions(Shell),
}

impl Task<'_> {
    /// Whether JSON is to be printed.
    pub fn is_json(&self) -> bool {
        match self {
            Task::Test(test) => test.json,
            Task::States(states) => states.json,
            Task::Solve(solve) => solve.json,
            Task::Sites(sites) => sites.json,
            Task::Check(check) => check.json,
            Task::CheckSites(check) => check.json,
            Task::Audit(audit) => audit.json,
            Task::AuditSites(audit) => audit.json,
            Task::Place(_) | Task::Order(_) | Task::Completions(_) => false,
        }
    }
}

impl Task<'_> {
    /// Whether what is to be told is of a word that is no place.
    pub fn asks_unclearly(&self) -> bool {
        let why = match self {
            Task::Test(test) => test.why,
            Task::Solve(solve) => solve.why,
            Task::Audit(audit) => audit.why,
            Task::Check(check) => check.why,
            _ => Why::Untold,
        };
        matches!(why, Why::Unclear(_))
    }
}

/// What `test` was asked for.
#[derive(Drop)]
pub struct Test<'a> {
    pub files: Vec<String>,
    /// Whether, and where, it is said what is expected of the tests.
    pub expect: Option<Expectations<'a>>,
    /// How many threads judge files: from 1 to 16.
    pub jobs: u8,
    /// Whether JSON is to be printed.
    pub json: bool,
    /// What is to be told below the lines.
    pub why: Why<'a>,
    /// The folder for pictures of what may be told.
    pub dot: Option<&'a str>,
}

/// What is to be told below answers.
#[derive(Clone, Copy)]
pub enum Why<'a> {
    /// Nothing.
    Untold,
    /// Executions, and contradictions; of many kinds of these such as have a fence for the first time.
    Few,
    /// The same, and all kinds.
    All,
    /// What has to do with the fence at this place, as `P1:6`.
    Fence { hart: u8, at: u8 },
    /// A word that is no place.
    Unclear(&'a str),
}

/// Where it is said what is expected of tests.
#[derive(Clone, Copy)]
pub enum Expectations<'a> {
    /// In comments of each test file.
    Comments,
    /// In the list at this path.
    List(&'a str),
}

/// What `states` was asked for.
#[derive(Drop)]
pub struct States<'a> {
    pub files: Vec<String>,
    pub fences: Vec<String>,
    /// Whether the states have all registers that are written, and all locations.
    pub all: bool,
    /// Whether each state gets its execution.
    pub witnesses: bool,
    /// Whether JSON is to be printed.
    pub json: bool,
    /// The log that the states are held against, in place of being printed.
    pub log: Option<&'a str>,
}

/// What `place` was asked for.
#[derive(Drop)]
pub struct Place<'a> {
    pub test: &'a str,
    pub fences: Vec<String>,
    pub prices: Option<&'a str>,
    /// Whether the fences are those of sites.
    pub sites: bool,
    /// Whether each slot without a site is one of its own.
    pub free: bool,
}

/// What `order` was asked for.
#[derive(Drop)]
pub struct Order<'a> {
    pub test: &'a str,
    pub witness: &'a str,
    pub fences: Vec<String>,
    /// Whether they are those of sites.
    pub sites: bool,
    /// Whether each slot without a site is one of its own.
    pub free: bool,
    /// Whether the execution is to be told below a yes.
    pub why: bool,
    /// The folder for a picture of it.
    pub dot: Option<&'a str>,
}

/// What `solve` was asked for.
#[derive(Drop)]
pub struct Solve<'a> {
    pub test: &'a str,
    pub prices: &'a str,
    /// How many threads search: from 1 to 16.
    pub workers: u8,
    /// How many nodes the search may make: from 1 to 1,000,000.
    pub nodes: u32,
    /// Where a certificate of the answer is to be written.
    pub certificate: Option<&'a str>,
    /// Whether JSON is to be printed.
    pub json: bool,
    /// Whether the test is to be printed with the fences, in place of the answer.
    pub write: bool,
    /// What is to be told below the answer.
    pub why: Why<'a>,
    /// The folder for pictures of what may be told.
    pub dot: Option<&'a str>,
}

/// What `solve --sites` was asked for.
#[derive(Drop)]
pub struct Sites<'a> {
    pub files: Vec<String>,
    pub prices: &'a str,
    /// Whether each slot without a site is one of its own.
    pub free: bool,
    /// How many threads judge tests: from 1 to 16.
    pub workers: u8,
    /// How many nodes each plan may make: from 1 to 1,000,000.
    pub nodes: u32,
    /// Where a certificate of the answer is to be written.
    pub certificate: Option<&'a str>,
    /// Whether JSON is to be printed.
    pub json: bool,
}

/// What `audit` was asked for.
#[derive(Drop)]
pub struct Audit<'a> {
    pub files: Vec<String>,
    pub prices: &'a str,
    /// Whether the FENCEs are to be compared with fences that are found anew.
    pub anew: bool,
    /// Whether the mended test is to be printed.
    pub write: bool,
    /// Whether the file is to be mended.
    pub in_place: bool,
    /// Whether JSON is to be printed.
    pub json: bool,
    /// How many threads judge files: from 1 to 16.
    pub jobs: u8,
    /// How many nodes the search may make: from 1 to 1,000,000.
    pub nodes: u32,
    /// What is to be told below the lines.
    pub why: Why<'a>,
}

/// What `audit --sites` was asked for.
#[derive(Drop)]
pub struct AuditSites<'a> {
    pub files: Vec<String>,
    pub prices: &'a str,
    /// Whether JSON is to be printed.
    pub json: bool,
    /// How many nodes each plan may make: from 1 to 1,000,000.
    pub nodes: u32,
}

/// What `check` was asked for.
#[derive(Drop)]
pub struct Check<'a> {
    pub test: &'a str,
    pub prices: &'a str,
    pub certificate: &'a str,
    /// Whether JSON is to be printed.
    pub json: bool,
    /// What is to be told below the answer.
    pub why: Why<'a>,
    /// The folder for pictures of what may be told.
    pub dot: Option<&'a str>,
}

/// What `check --sites` was asked for.
#[derive(Drop)]
pub struct CheckSites<'a> {
    pub files: Vec<String>,
    pub prices: &'a str,
    pub certificate: &'a str,
    /// Whether each slot without a site is one of its own.
    pub free: bool,
    /// Whether JSON is to be printed.
    pub json: bool,
}

/// The request that the words make, the program's name first. An error holds the text for the user, and help and the
/// version are such errors.
///
/// `audit` takes its prices behind its files, also where an option stands between one file and them; so do `solve` and
/// `check` with `--sites`.
pub fn read_request<'a>(alloc: Global, words: &'a [String]) -> Result<Request<'a>, Error> {
    let matches = matches_of(alloc, words)?;
    Ok(request_of(alloc, &matches)?)
}

/// What the words match.
fn matches_of<'a>(alloc: Global, words: &'a [String]) -> Result<ArgMatches<'a>, Error> {
    let program = whole_command(alloc, named(words), true, asks_for_sites(words))?;
    match program.try_get_matches_from(words) {
        Ok(matches) => Ok(matches),
        Err(error) => matches_of_one(alloc, words, error),
    }
}

/// The command that the first word behind the program's name is.
fn named(words: &[String]) -> Option<&'static str> {
    let first = words.get(1)?;
    for name in COMMANDS {
        if *name == first.as_str() {
            return Some(*name);
        }
    }
    None
}

/// Is `--sites` one of the words before `--`?
fn asks_for_sites(words: &[String]) -> bool {
    for word in words {
        match word.as_str() {
            "--" => return false,
            "--sites" => return true,
            _ => {}
        }
    }
    false
}

/// The same where `audit` and `solve` take one file, for words that aren't understood otherwise. The error is the first
/// one, but where it says that words are missing.
fn matches_of_one<'a>(
    alloc: Global,
    words: &'a [String],
    error: Error,
) -> Result<ArgMatches<'a>, Error> {
    if !error.use_stderr() {
        return Err(error);
    }
    match whole_command(alloc, named(words), false, false)?.try_get_matches_from(words) {
        Ok(matches) => Ok(matches),
        Err(other) => Err(clearer(error, other)),
    }
}

/// The first of the errors, but where it says that words are missing.
fn clearer(error: Error, other: Error) -> Error {
    match error.kind() {
        ErrorKind::MissingRequiredArgument => other,
        _ => error,
    }
}

fn request_of<'a>(alloc: Global, matches: &ArgMatches<'a>) -> Result<Request<'a>, AllocError> {
    let (name, found) = matches.subcommand().unwrap_or(("", matches));
    Ok(Request {
        task: task_of(alloc, name, found)?,
        quiet: found.get_flag("quiet"),
        verbose: found.get_flag("verbose"),
        work: work_of(name, found),
        unroll: reads_tests(name) && found.get_one::<u8>("unroll").is_some(),
        zalasr: reads_tests(name) && found.get_flag("zalasr"),
    })
}

/// How much a hunt of the command of this name may do. Not all hunt.
fn work_of(name: &str, found: &ArgMatches<'_>) -> u32 {
    match name {
        "test" | "states" | "solve" | "audit" => found.get_one::<u32>("work").unwrap_or(USUAL_WORK),
        _ => USUAL_WORK,
    }
}

/// Does the command of this name read tests, and so have the words for their forms?
fn reads_tests(name: &str) -> bool {
    name != "completions"
}

/// What the command of this name is to do.
fn task_of<'a>(alloc: Global, name: &str, found: &ArgMatches<'a>) -> Result<Task<'a>, AllocError> {
    match name {
        "test" => test_of(alloc, found),
        "states" => states_of(alloc, found),
        "order" => order_of(alloc, found),
        "solve" => solve_or_sites_of(alloc, found),
        "audit" => audit_or_sites_of(alloc, found),
        "check" => check_or_sites_of(alloc, found),
        "completions" => Ok(Task::Completions(shell_of(found))),
        _ => place_of(alloc, found),
    }
}

/// What `solve` is to do, with `--sites` or without.
fn solve_or_sites_of<'a>(alloc: Global, found: &ArgMatches<'a>) -> Result<Task<'a>, AllocError> {
    if found.get_flag("sites") {
        sites_of(alloc, found)
    } else {
        Ok(Task::Solve(solve_of(found)))
    }
}

/// The same of `audit`.
fn audit_or_sites_of<'a>(alloc: Global, found: &ArgMatches<'a>) -> Result<Task<'a>, AllocError> {
    if found.get_flag("sites") {
        audit_sites_of(alloc, found)
    } else {
        audit_of(alloc, found)
    }
}

/// The same of `check`.
fn check_or_sites_of<'a>(alloc: Global, found: &ArgMatches<'a>) -> Result<Task<'a>, AllocError> {
    if found.get_flag("sites") {
        check_sites_of(alloc, found)
    } else {
        Ok(Task::Check(check_of(found)))
    }
}

fn test_of<'a>(alloc: Global, found: &ArgMatches<'a>) -> Result<Task<'a>, AllocError> {
    Ok(Task::Test(Test {
        files: words_of(alloc, found, "FILE")?,
        expect: expectations_of(found),
        jobs: found.get_one::<u8>("jobs").unwrap_or(ONE_WORKER),
        json: found.get_flag("json"),
        why: why_of(found),
        dot: found.get_str("dot"),
    }))
}

/// By `--why` or `--why=WHICH`.
fn why_of<'a>(found: &ArgMatches<'a>) -> Why<'a> {
    let which = found.get_str("why").unwrap_or("");
    match which {
        "" => Why::Untold,
        "all" => Why::All,
        _ if which == NO_PATH => Why::Few,
        _ => match hart_and_at(which) {
            Some((hart, at)) => Why::Fence { hart, at },
            None => Why::Unclear(which),
        },
    }
}

/// The numbers of a place such as `P1:6`, none where the word is no place.
fn hart_and_at(word: &str) -> Option<(u8, u8)> {
    let (hart, at) = word.strip_prefix('P')?.split_once(':')?;
    Some((number_of(hart)?, number_of(at)?))
}

/// The number that decimal digits write without leading zeros, none where it passes 255 or the word is no number.
fn number_of(digits: &str) -> Option<u8> {
    match digits.as_bytes() {
        [b'+' | b'0', _, ..] => None,
        _ => digits.parse().ok(),
    }
}

/// By `--expect` or `--expect=LIST`.
fn expectations_of<'a>(found: &ArgMatches<'a>) -> Option<Expectations<'a>> {
    let path = found.get_str("expect")?;
    if path == NO_PATH {
        Some(Expectations::Comments)
    } else {
        Some(Expectations::List(path))
    }
}

fn states_of<'a>(alloc: Global, found: &ArgMatches<'a>) -> Result<Task<'a>, AllocError> {
    let (files, fences) = files_and_fences(alloc, found.get_strs("FILE").unwrap_or(&[]))?;
    Ok(Task::States(States {
        files,
        fences,
        all: found.get_flag("all"),
        witnesses: found.get_flag("witnesses"),
        json: found.get_flag("json"),
        log: found.get_str("log"),
    }))
}

/// The words that name files, and those that are FENCE words. The first is a file's.
fn files_and_fences(
    alloc: Global,
    words: &[&str],
) -> Result<(Vec<String>, Vec<String>), AllocError> {
    let mut files = Vec::new(alloc);
    let mut fences = Vec::new(alloc);
    for word in words {
        if !files.is_empty() && is_fence(word) {
            push_copy(alloc, &mut fences, word)?;
        } else {
            push_copy(alloc, &mut files, word)?;
        }
    }
    Ok((files, fences))
}

/// Does the word begin as a FENCE word does, with `P`, a digit and some `:` behind them?
fn is_fence(word: &str) -> bool {
    match word.as_bytes() {
        [b'P', digit, rest @ ..] => digit.is_ascii_digit() && rest.contains(&b':'),
        _ => false,
    }
}

fn place_of<'a>(alloc: Global, found: &ArgMatches<'a>) -> Result<Task<'a>, AllocError> {
    Ok(Task::Place(Place {
        test: found.get_str("FILE").unwrap_or(""),
        fences: fences_of(alloc, found)?,
        prices: found.get_str("prices"),
        sites: found.get_flag("sites"),
        free: found.get_flag("free"),
    }))
}

fn order_of<'a>(alloc: Global, found: &ArgMatches<'a>) -> Result<Task<'a>, AllocError> {
    Ok(Task::Order(Order {
        test: found.get_str("FILE").unwrap_or(""),
        witness: found.get_str("WITNESS").unwrap_or(""),
        fences: fences_of(alloc, found)?,
        sites: found.get_flag("sites"),
        free: found.get_flag("free"),
        why: found.get_flag("why"),
        dot: found.get_str("dot"),
    }))
}

fn solve_of<'a>(found: &ArgMatches<'a>) -> Solve<'a> {
    Solve {
        test: found.get_str("FILE").unwrap_or(""),
        prices: found.get_str("PRICES").unwrap_or(""),
        workers: found.get_one::<u8>("workers").unwrap_or(ONE_WORKER),
        nodes: found.get_one::<u32>("nodes").unwrap_or(MOST_NODES),
        certificate: found.get_str("cert"),
        json: found.get_flag("json"),
        write: found.get_flag("write"),
        why: why_of(found),
        dot: found.get_str("dot"),
    }
}

fn sites_of<'a>(alloc: Global, found: &ArgMatches<'a>) -> Result<Task<'a>, AllocError> {
    Ok(Task::Sites(Sites {
        files: words_of(alloc, found, "FILE")?,
        prices: found.get_str("PRICES").unwrap_or(""),
        free: found.get_flag("free"),
        workers: found.get_one::<u8>("workers").unwrap_or(ONE_WORKER),
        nodes: found.get_one::<u32>("nodes").unwrap_or(MOST_NODES),
        certificate: found.get_str("cert"),
        json: found.get_flag("json"),
    }))
}

fn audit_of<'a>(alloc: Global, found: &ArgMatches<'a>) -> Result<Task<'a>, AllocError> {
    Ok(Task::Audit(Audit {
        files: words_of(alloc, found, "FILE")?,
        prices: found.get_str("PRICES").unwrap_or(""),
        anew: found.get_flag("anew"),
        write: found.get_flag("write"),
        in_place: found.get_flag("in-place"),
        json: found.get_flag("json"),
        jobs: found.get_one::<u8>("jobs").unwrap_or(ONE_WORKER),
        nodes: found.get_one::<u32>("nodes").unwrap_or(MOST_NODES),
        why: why_of(found),
    }))
}

fn audit_sites_of<'a>(alloc: Global, found: &ArgMatches<'a>) -> Result<Task<'a>, AllocError> {
    Ok(Task::AuditSites(AuditSites {
        files: words_of(alloc, found, "FILE")?,
        prices: found.get_str("PRICES").unwrap_or(""),
        json: found.get_flag("json"),
        nodes: found.get_one::<u32>("nodes").unwrap_or(MOST_NODES),
    }))
}

fn check_of<'a>(found: &ArgMatches<'a>) -> Check<'a> {
    Check {
        test: found.get_str("FILE").unwrap_or(""),
        prices: found.get_str("PRICES").unwrap_or(""),
        certificate: found.get_str("CERTIFICATE").unwrap_or(""),
        json: found.get_flag("json"),
        why: why_of(found),
        dot: found.get_str("dot"),
    }
}

/// Behind its files stand its prices.
fn check_sites_of<'a>(alloc: Global, found: &ArgMatches<'a>) -> Result<Task<'a>, AllocError> {
    let words = found.get_strs("FILE").unwrap_or(&[]);
    let (prices, files) = match words.split_last() {
        Some((prices, files)) => (*prices, files),
        None => ("", words),
    };
    Ok(Task::CheckSites(CheckSites {
        files: copies_of(alloc, files)?,
        prices,
        certificate: found.get_str("CERTIFICATE").unwrap_or(""),
        free: found.get_flag("free"),
        json: found.get_flag("json"),
    }))
}

fn shell_of(found: &ArgMatches<'_>) -> Shell {
    match found.get_str("SHELL") {
        Some("zsh") => Shell::Zsh,
        Some("fish") => Shell::Fish,
        _ => Shell::Bash,
    }
}

fn fences_of(alloc: Global, found: &ArgMatches<'_>) -> Result<Vec<String>, AllocError> {
    words_of(alloc, found, "FENCE")
}

/// The words of this argument.
fn words_of(alloc: Global, found: &ArgMatches<'_>, name: &str) -> Result<Vec<String>, AllocError> {
    copies_of(alloc, found.get_strs(name).unwrap_or(&[]))
}

fn copies_of(alloc: Global, words: &[&str]) -> Result<Vec<String>, AllocError> {
    let mut copies = Vec::new(alloc);
    for word in words {
        push_copy(alloc, &mut copies, word)?;
    }
    Ok(copies)
}

fn push_copy(alloc: Global, copies: &mut Vec<String>, word: &str) -> Result<(), AllocError> {
    copies.push(String::from_str(alloc, word)?)?;
    Ok(())
}

// ---- the commands, and what each takes

/// The names of the commands, in the order in which help lists them.
const COMMANDS: &[&str] = &[
    "test",
    "solve",
    "audit",
    "states",
    "place",
    "order",
    "check",
    "completions",
];

/// What a command is for, in a line.
fn about_of(command: &str) -> &'static str {
    match command {
        "test" => TEST_ABOUT,
        "solve" => SOLVE_ABOUT,
        "audit" => AUDIT_ABOUT,
        "states" => STATES_ABOUT,
        "place" => PLACE_ABOUT,
        "order" => ORDER_ABOUT,
        "check" => CHECK_ABOUT,
        _ => COMPLETIONS_ABOUT,
    }
}

/// What the help of a command says below its arguments.
fn help_of(command: &str) -> &'static str {
    match command {
        "test" => TEST_HELP,
        "solve" => SOLVE_HELP,
        "audit" => AUDIT_HELP,
        "states" => STATES_HELP,
        "place" => PLACE_HELP,
        "order" => ORDER_HELP,
        "check" => CHECK_HELP,
        _ => COMPLETIONS_HELP,
    }
}

/// What an argument is.
#[derive(Clone, Copy)]
enum Form {
    /// A word that must be there.
    Word,
    /// One word or more.
    Words,
    /// One file, or any number where that is so taken.
    Files,
    /// One file, or where many are taken any number, and prices behind them.
    Checked,
    /// Any number of words.
    Fences,
    /// The name of a shell.
    Shell,
    /// A word after `--` by itself.
    Flag,
    /// The same, only beside `--sites`.
    OfSites,
    /// A word after `--` by itself, or its first letter after `-`.
    Letter,
    /// A word after `--`, with a value.
    Option,
    /// A word after `--` by itself, or with `=` and a value. By itself its value is `NO_PATH`.
    Optional,
    /// How many threads are asked for.
    Threads,
    /// How many nodes a search may make.
    Nodes,
    /// How many inferences a hunt may make.
    Work,
    /// How many turns each loop takes.
    Turns,
}

/// An argument of a command. The value is what help calls it, where it has one.
struct Parameter {
    command: &'static str,
    name: &'static str,
    form: Form,
    value: &'static str,
    help: &'static str,
}

const PARAMETERS: &[Parameter] = &[
    Parameter {
        command: "test",
        name: "FILE",
        form: Form::Words,
        value: "",
        help: FILES_HELP,
    },
    Parameter {
        command: "test",
        name: "jobs",
        form: Form::Threads,
        value: "N",
        help: JOBS_HELP,
    },
    Parameter {
        command: "test",
        name: "json",
        form: Form::Flag,
        value: "",
        help: LINES_HELP,
    },
    Parameter {
        command: "test",
        name: "expect",
        form: Form::Optional,
        value: "LIST",
        help: EXPECT_HELP,
    },
    Parameter {
        command: "test",
        name: "why",
        form: Form::Optional,
        value: "WHICH",
        help: TEST_WHY_HELP,
    },
    Parameter {
        command: "test",
        name: "dot",
        form: Form::Option,
        value: "FOLDER",
        help: DOT_HELP,
    },
    Parameter {
        command: "test",
        name: "work",
        form: Form::Work,
        value: "N",
        help: WORK_HELP,
    },
    Parameter {
        command: "test",
        name: "unroll",
        form: Form::Turns,
        value: "N",
        help: UNROLL_HELP,
    },
    Parameter {
        command: "test",
        name: "zalasr",
        form: Form::Flag,
        value: "",
        help: ZALASR_HELP,
    },
    Parameter {
        command: "solve",
        name: "FILE",
        form: Form::Files,
        value: "",
        help: FILE_HELP,
    },
    Parameter {
        command: "solve",
        name: "PRICES",
        form: Form::Word,
        value: "",
        help: PRICES_HELP,
    },
    Parameter {
        command: "solve",
        name: "sites",
        form: Form::Flag,
        value: "",
        help: SITES_HELP,
    },
    Parameter {
        command: "solve",
        name: "free",
        form: Form::OfSites,
        value: "",
        help: FREE_HELP,
    },
    Parameter {
        command: "solve",
        name: "workers",
        form: Form::Threads,
        value: "N",
        help: WORKERS_HELP,
    },
    Parameter {
        command: "solve",
        name: "nodes",
        form: Form::Nodes,
        value: "N",
        help: NODES_HELP,
    },
    Parameter {
        command: "solve",
        name: "cert",
        form: Form::Option,
        value: "PATH",
        help: CERT_HELP,
    },
    Parameter {
        command: "solve",
        name: "json",
        form: Form::Flag,
        value: "",
        help: JSON_HELP,
    },
    Parameter {
        command: "solve",
        name: "why",
        form: Form::Optional,
        value: "WHICH",
        help: WITHOUT_HELP,
    },
    Parameter {
        command: "solve",
        name: "write",
        form: Form::Flag,
        value: "",
        help: SOLVE_WRITE_HELP,
    },
    Parameter {
        command: "solve",
        name: "dot",
        form: Form::Option,
        value: "FOLDER",
        help: DOT_HELP,
    },
    Parameter {
        command: "solve",
        name: "work",
        form: Form::Work,
        value: "N",
        help: WORK_HELP,
    },
    Parameter {
        command: "solve",
        name: "unroll",
        form: Form::Turns,
        value: "N",
        help: UNROLL_HELP,
    },
    Parameter {
        command: "solve",
        name: "zalasr",
        form: Form::Flag,
        value: "",
        help: ZALASR_HELP,
    },
    Parameter {
        command: "audit",
        name: "FILE",
        form: Form::Files,
        value: "",
        help: FILE_HELP,
    },
    Parameter {
        command: "audit",
        name: "PRICES",
        form: Form::Word,
        value: "",
        help: PRICES_HELP,
    },
    Parameter {
        command: "audit",
        name: "anew",
        form: Form::Flag,
        value: "",
        help: ANEW_HELP,
    },
    Parameter {
        command: "audit",
        name: "write",
        form: Form::Flag,
        value: "",
        help: WRITE_HELP,
    },
    Parameter {
        command: "audit",
        name: "in-place",
        form: Form::Letter,
        value: "",
        help: IN_PLACE_HELP,
    },
    Parameter {
        command: "audit",
        name: "json",
        form: Form::Flag,
        value: "",
        help: LINES_HELP,
    },
    Parameter {
        command: "audit",
        name: "jobs",
        form: Form::Threads,
        value: "N",
        help: JOBS_HELP,
    },
    Parameter {
        command: "audit",
        name: "nodes",
        form: Form::Nodes,
        value: "N",
        help: NODES_HELP,
    },
    Parameter {
        command: "audit",
        name: "why",
        form: Form::Optional,
        value: "WHICH",
        help: AUDIT_WHY_HELP,
    },
    Parameter {
        command: "audit",
        name: "sites",
        form: Form::Flag,
        value: "",
        help: AUDIT_SITES_HELP,
    },
    Parameter {
        command: "audit",
        name: "work",
        form: Form::Work,
        value: "N",
        help: WORK_HELP,
    },
    Parameter {
        command: "audit",
        name: "unroll",
        form: Form::Turns,
        value: "N",
        help: UNROLL_HELP,
    },
    Parameter {
        command: "audit",
        name: "zalasr",
        form: Form::Flag,
        value: "",
        help: ZALASR_HELP,
    },
    Parameter {
        command: "states",
        name: "FILE",
        form: Form::Words,
        value: "",
        help: FILES_AND_FENCES_HELP,
    },
    Parameter {
        command: "states",
        name: "all",
        form: Form::Flag,
        value: "",
        help: ALL_HELP,
    },
    Parameter {
        command: "states",
        name: "witnesses",
        form: Form::Flag,
        value: "",
        help: WITNESSES_HELP,
    },
    Parameter {
        command: "states",
        name: "json",
        form: Form::Flag,
        value: "",
        help: STATES_JSON_HELP,
    },
    Parameter {
        command: "states",
        name: "log",
        form: Form::Option,
        value: "LOG",
        help: LOG_HELP,
    },
    Parameter {
        command: "states",
        name: "work",
        form: Form::Work,
        value: "N",
        help: WORK_HELP,
    },
    Parameter {
        command: "states",
        name: "unroll",
        form: Form::Turns,
        value: "N",
        help: UNROLL_HELP,
    },
    Parameter {
        command: "states",
        name: "zalasr",
        form: Form::Flag,
        value: "",
        help: ZALASR_HELP,
    },
    Parameter {
        command: "place",
        name: "FILE",
        form: Form::Word,
        value: "",
        help: FILE_HELP,
    },
    Parameter {
        command: "place",
        name: "FENCE",
        form: Form::Fences,
        value: "",
        help: FENCE_HELP,
    },
    Parameter {
        command: "place",
        name: "prices",
        form: Form::Option,
        value: "PRICES",
        help: PRICES_HELP,
    },
    Parameter {
        command: "place",
        name: "sites",
        form: Form::Flag,
        value: "",
        help: PLACE_SITES_HELP,
    },
    Parameter {
        command: "place",
        name: "free",
        form: Form::OfSites,
        value: "",
        help: FREE_HELP,
    },
    Parameter {
        command: "place",
        name: "unroll",
        form: Form::Turns,
        value: "N",
        help: UNROLL_HELP,
    },
    Parameter {
        command: "place",
        name: "zalasr",
        form: Form::Flag,
        value: "",
        help: ZALASR_HELP,
    },
    Parameter {
        command: "order",
        name: "FILE",
        form: Form::Word,
        value: "",
        help: FILE_HELP,
    },
    Parameter {
        command: "order",
        name: "WITNESS",
        form: Form::Word,
        value: "",
        help: WITNESS_HELP,
    },
    Parameter {
        command: "order",
        name: "FENCE",
        form: Form::Fences,
        value: "",
        help: FENCE_HELP,
    },
    Parameter {
        command: "order",
        name: "sites",
        form: Form::Flag,
        value: "",
        help: ORDER_SITES_HELP,
    },
    Parameter {
        command: "order",
        name: "free",
        form: Form::OfSites,
        value: "",
        help: FREE_HELP,
    },
    Parameter {
        command: "order",
        name: "why",
        form: Form::Flag,
        value: "",
        help: ORDER_WHY_HELP,
    },
    Parameter {
        command: "order",
        name: "dot",
        form: Form::Option,
        value: "FOLDER",
        help: ORDER_DOT_HELP,
    },
    Parameter {
        command: "order",
        name: "unroll",
        form: Form::Turns,
        value: "N",
        help: UNROLL_HELP,
    },
    Parameter {
        command: "order",
        name: "zalasr",
        form: Form::Flag,
        value: "",
        help: ZALASR_HELP,
    },
    Parameter {
        command: "check",
        name: "FILE",
        form: Form::Checked,
        value: "",
        help: FILE_HELP,
    },
    Parameter {
        command: "check",
        name: "PRICES",
        form: Form::Word,
        value: "",
        help: PRICES_HELP,
    },
    Parameter {
        command: "check",
        name: "CERTIFICATE",
        form: Form::Word,
        value: "",
        help: CERTIFICATE_HELP,
    },
    Parameter {
        command: "check",
        name: "json",
        form: Form::Flag,
        value: "",
        help: JSON_HELP,
    },
    Parameter {
        command: "check",
        name: "why",
        form: Form::Optional,
        value: "WHICH",
        help: WITHOUT_HELP,
    },
    Parameter {
        command: "check",
        name: "dot",
        form: Form::Option,
        value: "FOLDER",
        help: DOT_HELP,
    },
    Parameter {
        command: "check",
        name: "sites",
        form: Form::Flag,
        value: "",
        help: CHECK_SITES_HELP,
    },
    Parameter {
        command: "check",
        name: "free",
        form: Form::OfSites,
        value: "",
        help: FREE_HELP,
    },
    Parameter {
        command: "check",
        name: "unroll",
        form: Form::Turns,
        value: "N",
        help: UNROLL_HELP,
    },
    Parameter {
        command: "check",
        name: "zalasr",
        form: Form::Flag,
        value: "",
        help: ZALASR_HELP,
    },
    Parameter {
        command: "completions",
        name: "SHELL",
        form: Form::Shell,
        value: "",
        help: SHELL_HELP,
    },
];

/// Two options of a command that aren't given together.
struct Conflict {
    command: &'static str,
    name: &'static str,
    other: &'static str,
}

const CONFLICTS: &[Conflict] = &[
    Conflict {
        command: "states",
        name: "unroll",
        other: "log",
    },
    Conflict {
        command: "test",
        name: "why",
        other: "json",
    },
    Conflict {
        command: "solve",
        name: "why",
        other: "json",
    },
    Conflict {
        command: "solve",
        name: "sites",
        other: "why",
    },
    Conflict {
        command: "solve",
        name: "sites",
        other: "write",
    },
    Conflict {
        command: "solve",
        name: "sites",
        other: "dot",
    },
    Conflict {
        command: "solve",
        name: "write",
        other: "json",
    },
    Conflict {
        command: "solve",
        name: "write",
        other: "why",
    },
    Conflict {
        command: "audit",
        name: "write",
        other: "anew",
    },
    Conflict {
        command: "audit",
        name: "in-place",
        other: "anew",
    },
    Conflict {
        command: "audit",
        name: "in-place",
        other: "write",
    },
    Conflict {
        command: "audit",
        name: "json",
        other: "write",
    },
    Conflict {
        command: "audit",
        name: "json",
        other: "in-place",
    },
    Conflict {
        command: "audit",
        name: "why",
        other: "json",
    },
    Conflict {
        command: "audit",
        name: "why",
        other: "anew",
    },
    Conflict {
        command: "audit",
        name: "why",
        other: "write",
    },
    Conflict {
        command: "audit",
        name: "why",
        other: "in-place",
    },
    Conflict {
        command: "audit",
        name: "sites",
        other: "anew",
    },
    Conflict {
        command: "audit",
        name: "sites",
        other: "write",
    },
    Conflict {
        command: "audit",
        name: "sites",
        other: "in-place",
    },
    Conflict {
        command: "audit",
        name: "sites",
        other: "why",
    },
    Conflict {
        command: "audit",
        name: "sites",
        other: "jobs",
    },
    Conflict {
        command: "states",
        name: "json",
        other: "log",
    },
    Conflict {
        command: "order",
        name: "sites",
        other: "why",
    },
    Conflict {
        command: "order",
        name: "sites",
        other: "dot",
    },
    Conflict {
        command: "check",
        name: "why",
        other: "json",
    },
    Conflict {
        command: "check",
        name: "sites",
        other: "why",
    },
    Conflict {
        command: "check",
        name: "sites",
        other: "dot",
    },
];

/// The program; `audit`, and `solve` and `check`, each take one file or any number. Where a command is named only that
/// one has its arguments, since words behind it are matched by no other.
fn whole_command<'a>(
    alloc: Global,
    named: Option<&str>,
    audits_many: bool,
    has_sites: bool,
) -> Result<Command<'a>, AllocError> {
    let mut program = bare_program(alloc);
    for name in COMMANDS {
        program = if is_asked(named, name) {
            let many = takes_many(name, audits_many, has_sites);
            with_command(alloc, program, name, many)?
        } else {
            program.subcommand(bare_command(alloc, name))?
        };
    }
    Ok(program)
}

/// Is this the named command, or is none named?
fn is_asked(named: Option<&str>, name: &str) -> bool {
    match named {
        Some(named) => named == name,
        None => true,
    }
}

/// Does the command of this name take any number of files?
fn takes_many(name: &str, audits_many: bool, has_sites: bool) -> bool {
    match name {
        "audit" => audits_many,
        "solve" | "check" => has_sites,
        _ => true,
    }
}

/// The program without its commands.
fn bare_program<'a>(alloc: Global) -> Command<'a> {
    Command::new(alloc, "rvfence")
        .version(VERSION)
        .about("Fences for RISC-V litmus tests under RVWMO")
        .after_help(PROGRAM_HELP)
        .subcommand_required(true)
}

/// The program with this command.
fn with_command<'a>(
    alloc: Global,
    program: Command<'a>,
    name: &'a str,
    many: bool,
) -> Result<Command<'a>, AllocError> {
    program.subcommand(command_of(alloc, name, many)?)
}

/// The command, which takes one file or any number.
fn command_of<'a>(alloc: Global, name: &'a str, many: bool) -> Result<Command<'a>, AllocError> {
    let mut command = bare_command(alloc, name);
    for parameter in PARAMETERS {
        command = with_its_own(alloc, command, parameter, many)?;
    }
    with_voice(alloc, command)
}

/// The command, with this argument if it is its own.
fn with_its_own<'a>(
    alloc: Global,
    command: Command<'a>,
    parameter: &Parameter,
    many: bool,
) -> Result<Command<'a>, AllocError> {
    if is_of(parameter, command.get_name(), many) {
        command.arg(argument_of(alloc, parameter, many)?)
    } else {
        Ok(command)
    }
}

/// Is it an argument of the command of this name, which takes one file or any number?
fn is_of(parameter: &Parameter, command: &str, many: bool) -> bool {
    parameter.command == command && !(many && is_among_files(parameter))
}

/// Does it stand among the files where many are taken? No more than one argument but the last takes many words.
fn is_among_files(parameter: &Parameter) -> bool {
    parameter.command == "check" && parameter.name == "PRICES"
}

/// The command without its arguments.
fn bare_command<'a>(alloc: Global, name: &'a str) -> Command<'a> {
    Command::new(alloc, name)
        .about(about_of(name))
        .after_help(help_of(name))
}

/// The command with what each takes: how much is to be said on standard error.
fn with_voice<'a>(alloc: Global, command: Command<'a>) -> Result<Command<'a>, AllocError> {
    let command = command.arg(flag(alloc, "quiet", QUIET_HELP).short('q'))?;
    command.arg(flag(alloc, "verbose", VERBOSE_HELP).short('v'))
}

/// The argument, what it isn't given with, and what it isn't given without.
fn argument_of<'a>(
    alloc: Global,
    parameter: &Parameter,
    many: bool,
) -> Result<Arg<'a>, AllocError> {
    let mut argument = argument(alloc, parameter, many);
    for conflict in CONFLICTS {
        if conflict.command == parameter.command && conflict.name == parameter.name {
            argument = argument.conflicts_with(conflict.other)?;
        }
    }
    match parameter.form {
        Form::OfSites => argument.requires_arg("sites"),
        _ => Ok(argument),
    }
}

fn argument<'a>(alloc: Global, parameter: &Parameter, many: bool) -> Arg<'a> {
    let (name, help) = (parameter.name, parameter.help);
    match parameter.form {
        Form::Word => required(alloc, name, help),
        Form::Words => files(alloc, help),
        Form::Files => one_or_many(alloc, many),
        Form::Checked => one_or_priced(alloc, many),
        Form::Fences => Arg::new(alloc, name).help(help).num_args(0..),
        Form::Shell => required(alloc, name, help).value_parser(SHELLS),
        Form::Flag | Form::OfSites => flag(alloc, name, help),
        Form::Letter => flag(alloc, name, help).short('i'),
        Form::Option => option(alloc, name, parameter.value, help),
        Form::Optional => optional(alloc, name, parameter.value, help),
        Form::Threads => threads(alloc, name, help),
        Form::Nodes => nodes(alloc, help),
        Form::Work => work(alloc, help),
        Form::Turns => turns(alloc, help),
    }
}

/// The script by which the shell completes the words of a command line. The error is want of memory.
pub fn completion_script(alloc: Global, shell: Shell) -> Result<String, AllocError> {
    script(alloc, &whole_command(alloc, None, true, false)?, shell)
}

/// A word that must be there.
fn required<'a>(alloc: Global, name: &'a str, help: &'a str) -> Arg<'a> {
    Arg::new(alloc, name).help(help).required(true)
}

/// A word after `--`, with a value.
fn option<'a>(alloc: Global, name: &'a str, value: &'a str, help: &'a str) -> Arg<'a> {
    Arg::new(alloc, name)
        .long(name)
        .value_name(value)
        .help(help)
}

/// A word after `--` by itself, or with `=` and a value. By itself its value is `NO_PATH`.
fn optional<'a>(alloc: Global, name: &'a str, value: &'a str, help: &'a str) -> Arg<'a> {
    option(alloc, name, value, help)
        .num_args(0..=1)
        .require_equals(true)
        .default_missing_value(NO_PATH)
}

/// A word after `--` by itself.
fn flag<'a>(alloc: Global, name: &'a str, help: &'a str) -> Arg<'a> {
    Arg::new(alloc, name)
        .help(help)
        .long(name)
        .action(ArgAction::SetTrue)
}

/// One file, or any number.
fn one_or_many<'a>(alloc: Global, many: bool) -> Arg<'a> {
    if many {
        files(alloc, FILES_HELP)
    } else {
        required(alloc, "FILE", FILE_HELP)
    }
}

/// One file; or two words or more, of which the last names prices.
fn one_or_priced<'a>(alloc: Global, many: bool) -> Arg<'a> {
    if many {
        files(alloc, FILES_AND_PRICES_HELP).num_args(2..)
    } else {
        required(alloc, "FILE", FILE_HELP)
    }
}

/// One word or more.
fn files<'a>(alloc: Global, help: &'a str) -> Arg<'a> {
    Arg::new(alloc, "FILE")
        .help(help)
        .num_args(1..)
        .required(true)
}

/// How many threads are asked for.
fn threads<'a>(alloc: Global, name: &'a str, help: &'a str) -> Arg<'a> {
    option(alloc, name, "N", help)
        .value_parser(value_parser!(u8).range(1..=i64::from(MOST_WORKERS)))
        .default_value("1")
}

fn nodes<'a>(alloc: Global, help: &'a str) -> Arg<'a> {
    option(alloc, "nodes", "N", help)
        .value_parser(value_parser!(u32).range(1..=i64::from(MOST_NODES)))
        .default_value("1000000")
}

fn work<'a>(alloc: Global, help: &'a str) -> Arg<'a> {
    option(alloc, "work", "N", help)
        .value_parser(value_parser!(u32).range(1..=i64::from(MOST_WORK)))
        .default_value("1000000")
}

/// How many turns each loop takes.
fn turns<'a>(alloc: Global, help: &'a str) -> Arg<'a> {
    option(alloc, "unroll", "N", help).value_parser(value_parser!(u8).range(1..=1))
}
