//! What `audit` finds of a test, as JSON.

ghost use Rattle.std.specs.Prelude.{◌≡◌, ◌≤◌, length, IfOk};
ghost use Rattle.serde_json.specs.View.{view};
ghost use Rattle.fs_app_audit.specs.InPlace.{offers_in_place, written_cost};
ghost use Rattle.fs_app_audit.specs.inner.Made.{IsSound, findings_of};
ghost use Rattle.fs_app_audit_json_and_why.specs.Objects.{anew_object, anew_value, in_place_object, in_place_value};
ghost use Rattle.fs_app_audit_json_and_why.specs.Objects.{vacuous_value};

use crate::cost::{cost_of, written_of};
use crate::row_values::rows_value;
use crate::rows::{rows_below, rows_in_place};
use fs_app_audit::{Findings, InPlace};
use fs_app_test::{Kind, kind_text};
use fs_report::number_or_null;
use serde_json::{Value, json};
use std::alloc::{AllocError, Global};

fn in_place_object(
    alloc: Global,
    name: &str,
    anew: Option<u64>,
    in_place: u64,
    written: u64,
    lines: Value,
) -> Result<Value, AllocError>
    ensures { IfOk result (λ value. view value ≡ in_place_object name.now anew in_place written (view lines)) }
{
    json!(in alloc; {
        "anew": number_or_null(anew),
        "file": name,
        "in place": in_place,
        "lines": lines,
        "verdict": "forbidden",
        "written": written,
    })
}

/// The object of a test that is forbidden, with what is advised in place.
pub(crate) fn in_place_value(
    alloc: Global,
    name: &str,
    found: &Findings,
    in_place: &InPlace,
) -> Result<Value, AllocError>
    requires sound { IsSound found.now }
    requires offers { in_place.now.offers
        ≡ offers_in_place (findings_of found.now).prices (findings_of found.now).test.codes }
    requires few { length in_place.now.offers ≤ 256 }
    ensures { IfOk result (λ value. view value
        ≡ in_place_value name.now (findings_of found.now) in_place.now.advised) }
{
    let prices = &found.question.prices;
    let codes = found.written.test.codes.as_slice();
    let advised = &in_place.advised;
    let written = written_of(in_place.offers.as_slice());
    let cost = in_place.offers.cost(advised);
    let anew = cost_of(prices, found.best.as_ref());
    let rows = rows_in_place(alloc, prices, &found.lines, codes, advised)?;
    let lines = rows_value(alloc, &rows)?;
    in_place_object(alloc, name, anew, cost, written, lines)
}

fn anew_object(
    alloc: Global,
    name: &str,
    kind: Kind,
    anew: Option<u64>,
    written: Option<u64>,
    lines: Value,
) -> Result<Value, AllocError>
    ensures { IfOk result (λ value. view value ≡ anew_object name.now kind anew written (view lines)) }
{
    json!(in alloc; {
        "anew": number_or_null(anew),
        "file": name,
        "lines": lines,
        "verdict": kind_text(kind),
        "written": number_or_null(written),
    })
}

/// The object of what was found anew.
pub(crate) fn anew_value(alloc: Global, name: &str, found: &Findings) -> Result<Value, AllocError>
    requires { IsSound found.now }
    ensures { IfOk result (λ value. view value ≡ anew_value name.now (findings_of found.now)) }
{
    let prices = &found.question.prices;
    let best = found.best.as_ref();
    let fences = if found.all_fit {
        Some(&found.fences)
    } else {
        None
    };
    let anew = cost_of(prices, best);
    let written = cost_of(prices, fences);
    let codes = found.written.test.codes.as_slice();
    let rows = rows_below(alloc, &found.lines, codes, best)?;
    let lines = rows_value(alloc, &rows)?;
    anew_object(alloc, name, found.written.kind, anew, written, lines)
}

/// The object of a test that is vacuous, for this reason.
pub(crate) fn vacuous_value(
    alloc: Global,
    name: &str,
    why: &str,
    written: u64,
) -> Result<Value, AllocError>
    ensures { IfOk result (λ value. view value ≡ vacuous_value name.now why.now written) }
{
    json!(in alloc; {
        "file": name,
        "verdict": "vacuous",
        "why": why,
        "written": written,
    })
}
