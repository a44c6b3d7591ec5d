//! The question that files and prices ask, read from their bytes.

ghost use Rattle.std.specs.Prelude.{◌≡◌, ◌≢◌, ◌<◌, map, length, string_bytes, All, IfOk, IfErr, IsSome};
ghost use Rattle.serde_json.specs.View.{view};
ghost use Rattle.fs_kinds.specs.declared.fault.Fault.TheVariants.{Memory, NodeLimit};
ghost use Rattle.fs_kinds.specs.declared.kind.Kind.TheVariants.{RwRw};
ghost use Rattle.fs_sites.specs.Questions.{IsQuestion};
ghost use Rattle.fs_app_sites.specs.Asked.{IsAsked, IsFirstAskedFault};
ghost use Rattle.fs_app_sites.specs.SitePrices.{price_of};
ghost use Rattle.fs_app_sites.specs.Sites.{AreContents, IsContentOf, IsFileFault, IsFilesFault, IsSound, most_sites};
ghost use Rattle.fs_app_sites.specs.Sites.{names_of, question_of};

use crate::content::{Content, File, Tests, read_content};
use crate::free::prefix_of;
use crate::names::names_of;
use crate::prices::{SitePrices, read_site_prices};
use crate::question::{MOST_SITES, question_of};
use fs_kinds::{Fault, List};
use fs_sites::Question;
use std::alloc::Global;

/// A question, and the names of its sites in the order of their numbers.
#[derive(Drop)]
pub struct Asked {
    pub question: Question,
    pub names: List<String>,
}

/// The question that tests, in this order, and a file of prices ask. The files are bytes as they were read.
///
/// The first fault in this order: `BadPrices` and `NoTop`; of each file in turn those of a test by number and then
/// line, and `BadLabel` of a second site label at a place; `NodeLimit` where there are more than 65,536 sites. `Memory`
/// may come in place of any answer. It costs what reading costs, each copy of a site is looked for in the names of all,
/// and each slot that is a site of its own in the copies of its test.
pub fn read_question(alloc: Global, tests: &Tests, prices: &[u8]) -> Result<Asked, Fault>
    ensures ok { IfOk result (λ asked. IsAsked tests.now prices.now asked.question
        (map string_bytes asked.names)) }
    ensures question { IfOk result (λ asked. IsQuestion asked.question) }
    ensures fault { IfErr result (IsFirstAskedFault tests.now prices.now) }
{
    let table = read_site_prices(alloc, prices)?;
    let contents = read_contents(alloc, tests)?;
    asked_of(alloc, &contents, &table)
}

/// The question that one of the tests asks by itself, at these prices. The names of its sites are as among all tests.
pub(crate) fn read_one(
    alloc: Global,
    tests: &Tests,
    file: &File,
    prices: &[u8],
) -> Result<Asked, Fault>
    ensures { IfOk result (λ asked. IsQuestion asked.question) }
{
    let table = read_site_prices(alloc, prices)?;
    let mut contents = Vec::new(alloc);
    contents.push(content_of(alloc, tests, file)?)?;
    asked_of(alloc, &contents, &table)
}

/// What the files hold.
fn read_contents(alloc: Global, tests: &Tests) -> Result<Vec<Content>, Fault>
    ensures ok { IfOk result (λ contents. AreContents tests.now contents.items) }
    ensures sound { IfOk result (λ contents. All IsSound contents.items) }
    ensures err { IfErr result (λ f. f ≢ Memory → IsFilesFault tests.now f) }
{
    let mut contents = Vec::new(alloc);
    for file in tests.files.as_slice() {
        contents.push(content_of(alloc, tests, file)?)?;
    }
    Ok(contents)
}

/// What one of the files holds.
fn content_of(alloc: Global, tests: &Tests, file: &File) -> Result<Content, Fault>
    ensures ok { IfOk result (IsContentOf tests.now file.now) }
    ensures sound { IfOk result IsSound }
    ensures err { IfErr result (λ f. f ≢ Memory → IsFileFault file.now.bytes.items f) }
{
    let prefix = prefix_of(alloc, tests.files.as_slice(), file)?;
    let content = read_content(alloc, &file.bytes, prefix.as_str(), tests.is_free)?;
    Ok(content)
}

/// The question of files that hold this, at prices with one of `rw,rw`.
fn asked_of(alloc: Global, contents: &[Content], prices: &SitePrices) -> Result<Asked, Fault>
    requires sound { All IsSound contents.now }
    requires top { IsSome (price_of (view prices.now) RwRw) }
    ensures names { IfOk result (λ asked. map string_bytes asked.names ≡ names_of contents.now) }
    ensures value { IfOk result (λ asked. asked.question
        ≡ question_of (view prices.now) (map string_bytes asked.names) contents.now) }
    ensures question { IfOk result (λ asked. IsQuestion asked.question) }
    ensures err { IfErr result (λ f. f ≢ Memory
        → (f ≡ NodeLimit) × (most_sites < length (names_of contents.now))) }
{
    let names = names_of(alloc, contents)?;
    if names.len() > MOST_SITES {
        return Err(Fault::NodeLimit);
    }
    let question = question_of(alloc, contents, &names, prices)?;
    Ok(Asked {
        question,
        names: List::new(names),
    })
}
