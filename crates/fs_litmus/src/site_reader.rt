//! Reads the site labels of a test file.

ghost use Rattle.std.specs.Prelude.{◌≡◌, ◌≢◌, IfOk, IfErr};
ghost use Rattle.fs_litmus_syntax.specs.Body.{cells_of, flatten};
ghost use Rattle.fs_litmus_syntax.specs.Form.{form_of};
ghost use Rattle.fs_litmus.specs.SiteLabels.{site_labels_of, clash, all_of};
ghost use Rattle.fs_litmus.specs.Sited.{HasSites, IsSiteFault};

use crate::site_hart::push_hart;
use crate::site_label::SiteLabel;
use crate::{Body, read_lines, skip_title};
use fs_kinds::Fault;
use fs_litmus_syntax::{Form, read_form};
use fs_litmus_tokens::{Stop, tokens};
use std::alloc::{AllocError, Global};

/// The site labels of all harts. Fails only for want of memory.
fn form_sites<'a>(alloc: Global, form: &Form<'_, 'a>) -> Result<Vec<SiteLabel<'a>>, AllocError>
    requires { cells_of form.now.cells.items ≡ flatten (form_of form.now).rows }
    ensures { IfOk result (λ sites. all_of sites.items ≡ site_labels_of (form_of form.now)) }
{
    let mut sites = Vec::new(alloc);
    for hart in 0..form.columns {
        let cells = form.column(alloc, hart)?;
        push_hart(alloc, hart, &cells, &mut sites)?;
    }
    Ok(sites)
}

/// The line of the first site label that stands at the place of the one before it.
fn clash(sites: &[SiteLabel<'_>]) -> Option<usize>
    ensures { result ≡ clash (all_of sites.now) }
{
    let mut rest = sites;
    while rest.len() >= 2 {
        if rest[0].hart == rest[1].hart && rest[0].at == rest[1].at {
            return Some(rest[1].line);
        }
        rest = &rest[1..];
    }
    None
}

/// The site labels of a test file that `read_test` reads, in the order of harts and then of their cells. A site label
/// is a label that begins with a letter or `_` and to which no branch of its hart goes: no cell of the hart ends in it.
/// Its site's name is the label without the digits and `_` at its end, or all of it where that is nothing.
///
/// F6 in the line of a site label that stands before the same instruction as another, or at the end as another does: a
/// place is of one site. F3 where the bytes aren't of the form; or F19. Linear in the bytes, for as many instructions
/// as a test may have.
pub fn read_site_labels<'a>(alloc: Global, bytes: &'a [u8]) -> Result<Vec<SiteLabel<'a>>, Fault>
    ensures ok { IfOk result (λ sites. HasSites bytes.now (all_of sites.items)) }
    ensures err { IfErr result (λ f. f ≢ Fault.Memory → IsSiteFault bytes.now f) }
{
    // It finds what isn't of the form.
    let _lines = read_lines(alloc, bytes)?;
    let Some(Body { text, line }) = skip_title(bytes) else {
        unreachable!()
    };
    let (tokens, _) = tokens(alloc, text, line)?;
    let (form, _) = match read_form(alloc, &tokens) {
        Ok(read) => read,
        Err(Stop::Memory) => return Err(Fault::Memory),
        Err(Stop::At(_)) => unreachable!(),
    };
    let sites = form_sites(alloc, &form)?;
    match clash(&sites) {
        Some(line) => Err(Fault::BadLabel { line }),
        None => Ok(sites),
    }
}
