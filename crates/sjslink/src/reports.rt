// The lines of a run.
ghost use Rattle.std.specs.Prelude.{◌≡◌, IfOk, string_bytes};
ghost use Rattle.sj_session.specs.Sessions.{work_told};
ghost use Rattle.sjslink.specs.Output as output;

use sj_names::NoMemory;
use sj_session::Report;
use std::alloc::Global;

/// The line of an edit that is accepted.
pub fn accepted_line(alloc: Global, number: u32, report: &Report) -> Result<String, NoMemory>
    ensures { IfOk result (λ text. string_bytes text ≡ output.accepted_line number report.now.modules (work_told report.now)) }
{
    let modules = report.modules;
    let work = work_words(alloc, report)?;
    Ok(format!(in alloc; "edit {number} ok modules={modules} {work}\n")?)
}

// How much work an edit took.
fn work_words(alloc: Global, report: &Report) -> Result<String, NoMemory>
    ensures { IfOk result (λ text. string_bytes text ≡ output.work_words (work_told report.now)) }
{
    let Report {
        read,
        checked,
        optimised,
        emitted,
        ..
    } = *report;
    Ok(format!(in alloc; "read={read} checked={checked} optimised={optimised} emitted={emitted}")?)
}

/// The line of an edit that is refused.
pub fn refused_line(alloc: Global, number: u32, code: u8, place: &str) -> Result<String, NoMemory>
    ensures { IfOk result (λ text. string_bytes text ≡ output.refused_line number code place.now) }
{
    Ok(format!(in alloc; "edit {number} refused {code} {place}\n")?)
}

/// The line of an entries file that is bad.
pub fn entries_line(alloc: Global, number: u32) -> Result<String, NoMemory>
    ensures { IfOk result (λ text. string_bytes text ≡ output.entries_line number) }
{
    Ok(format!(in alloc; "entries line {number}\n")?)
}
