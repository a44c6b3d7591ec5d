//! Pictures of what is told below answers, written into a folder as files for Graphviz's `dot`.

ghost use Rattle.std.specs.Prelude.{ℕ};
ghost use Rattle.std.specs.Arc.{arc_value};
ghost use Rattle.fs_app_solve_and_check.specs.Found.{IsFound};

use crate::telling::{telling_of, test_at};
use fs_app_command_line::Why;
use fs_app_dot::{
    Picture, allowed_pictures, certified_pictures, forbidden_pictures, order_pictures,
};
use fs_app_io::write_whole;
use fs_app_solve_and_check::Found;
use fs_app_test::{Judged, Kind, Line, Papers};
use fs_app_why::Telling;
use fs_kinds::Fault;
use std::alloc::Global;
use std::rt::Files;

/// Which contradictions are drawn: those that `--why` tells, and where it isn't given those that it would.
fn drawn(why: Why<'_>) -> Telling {
    telling_of(why).unwrap_or(Telling::Few)
}

/// The name of the file without its folders, and without `.litmus` at its end.
fn stem_of(path: &str) -> &str {
    let name = match path.rsplit_once('/') {
        Some((_, name)) => name,
        None => path,
    };
    match name.strip_suffix(".litmus") {
        Some(stem) => stem,
        None => name,
    }
}

/// Writes each picture of a test to a file of its own in the folder, as `SB-cycle-1.dot`.
fn write_pictures<R: Files + AllocGlobal>(
    rt: &R,
    folder: &str,
    stem: &str,
    pictures: &[Picture],
) -> Result<(), Fault> {
    for picture in pictures {
        let path = format!(in rt.alloc(); "{}/{}-{}.dot", folder, stem, picture.name.as_str())?;
        write_whole(rt, path.as_str(), picture.text.as_bytes())?;
    }
    Ok(())
}

// ---- of `test`

/// The pictures of the test that has this line: none where its outcome is neither allowed nor forbidden.
fn pictures_of(
    alloc: Global,
    telling: Telling,
    line: &Line,
    test: &[u8],
    inferences: usize,
) -> Result<Vec<Picture>, Fault> {
    let stem = stem_of(line.name.as_str());
    match (line.said.kind, &line.said.witness) {
        (Kind::Allowed, Some(witness)) => {
            let (choices, order) = (witness.choices.as_slice(), witness.order.as_slice());
            allowed_pictures(alloc, stem, test, choices, order)
        }
        (Kind::Forbidden, _) => forbidden_pictures(alloc, stem, telling, test, inferences),
        _ => Ok(Vec::new(alloc)),
    }
}

/// Draws what is told of the tests.
pub(crate) fn draw_tests<R: Files + AllocGlobal>(
    rt: &R,
    folder: &str,
    why: Why<'_>,
    judged: &Judged,
    inferences: usize,
) -> Result<(), Fault> {
    for (number, line) in judged.lines.iter().enumerate() {
        let test = test_at(&judged.tests, number);
        let pictures = pictures_of(rt.alloc(), drawn(why), line, test, inferences)?;
        write_pictures(rt, folder, stem_of(line.name.as_str()), &pictures)?;
    }
    Ok(())
}

// ---- of `solve`, `check` and `order`

/// Draws what is told of an answer with this certificate, to the test that was read.
pub(crate) fn draw_certified<R: Files + AllocGlobal>(
    rt: &R,
    folder: &str,
    why: Why<'_>,
    papers: &Papers<'_>,
    certificate: &[u8],
) -> Result<(), Fault> {
    let stem = stem_of(papers.test.name);
    let test = &papers.test.bytes;
    let pictures = certified_pictures(rt.alloc(), stem, drawn(why), test, certificate)?;
    write_pictures(rt, folder, stem, &pictures)
}

/// The same of an answer that was found.
pub(crate) fn draw_found<R: Files + AllocGlobal>(
    rt: &R,
    folder: &str,
    why: Why<'_>,
    papers: &Papers<'_>,
    found: &Found,
) -> Result<(), Fault>
    requires { (limit : ℕ) × IsFound papers.now.test.bytes.items papers.now.prices.bytes.items limit
        (arc_value found.now.question) found.now.solved }
{
    let certificate = found.certificate(rt.alloc())?;
    draw_certified(rt, folder, why, papers, certificate.as_bytes())
}

/// Draws the execution of the witness that was read, if it is one.
pub(crate) fn draw_ordered<R: Files + AllocGlobal>(
    rt: &R,
    folder: &str,
    papers: &Papers<'_>,
) -> Result<(), Fault> {
    let stem = stem_of(papers.test.name);
    let (test, witness) = (&papers.test.bytes, &papers.evidence.bytes);
    let pictures = order_pictures(rt.alloc(), stem, test, witness, papers.fences)?;
    write_pictures(rt, folder, stem, &pictures)
}
