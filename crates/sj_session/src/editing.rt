// What is made of a folder.
ghost use Rattle.std.specs.Prelude.{◌≡◌, IfOk, MatchResult, length};
ghost use Rattle.folder_judging.specs.Counts.{bodies_among};
ghost use Rattle.folder_judging.specs.Refusals.{IsRefusal};
ghost use Rattle.folder_linking.specs.Verdicts.{IsVerdict};
ghost use Rattle.sj_session.specs.Editing.{IsEdit};
ghost use Rattle.sj_session.specs.Counts as counts;

use crate::{EditRefusal, ModuleFile, Report};
use folder_judging::judge;
use folder_linking::link;
use sj_names::{Entries, NoMemory, SourceFile};
use sj_split::Style;
use sj_workers::Workers;
use sj_world::{Fact, LinkedWorld};
use std::alloc::Global;

/// The files and the report of an edit that is accepted.
#[derive(Drop)]
pub struct Edit {
    pub files: Vec<ModuleFile>,
    pub report: Report,
}

/// Judges and links the folder of these files.
pub fn linked_edit<W: Workers>(
    alloc: Global,
    files: &[SourceFile],
    entries: &Entries,
    style: Style,
    work: &mut W,
) -> Result<Edit, EditRefusal>
    ensures edit { MatchResult result (IsEdit entries.now files.now style) (IsRefusal (IsVerdict entries.now files.now)) }
    ensures counted { counts.CountsMade entries.now files.now result (W.meter work.old) (W.meter work.new) }
{
    let linked = judge(alloc, files, entries, work)?;
    let links = link(alloc, &linked, entries, style, work)?;
    Ok(edit_of(files, &linked, links)?)
}

// The edit with these files. Where they are too many for a report, they would be more than memory holds.
fn edit_of(
    files: &[SourceFile],
    linked: &LinkedWorld,
    links: Vec<ModuleFile>,
) -> Result<Edit, NoMemory>
    ensures files { IfOk result (λ edit. edit.files ≡ links) }
    ensures report { IfOk result (λ edit. edit.report ≡ record { modules = length links.items; read = length files.now; checked = bodies_among linked.now.facts; optimised = 0; emitted = bodies_among linked.now.facts }) }
{
    let modules = links.len();
    if modules > u32::MAX as usize {
        return Err(NoMemory);
    }
    let bodies = count_bodies(linked.facts());
    Ok(Edit {
        report: Report {
            modules: modules as u32,
            read: files.len() as u64,
            checked: bodies,
            optimised: 0,
            emitted: bodies,
        },
        files: links,
    })
}

// How many bodies are needed.
fn count_bodies(facts: &[Fact]) -> u64
    ensures { result ≡ bodies_among facts.now }
{
    let mut count: u64 = 0;
    for fact in facts {
        if let Fact::Body(_) = fact {
            count += 1;
        }
    }
    count
}
