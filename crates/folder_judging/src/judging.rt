// The verdict on a folder, stage by stage.
ghost use Rattle.std.specs.Prelude.{◌≡◌, ◌++◌, List, Ok, MatchOption, MatchResult, codes, decimal};
ghost use Rattle.sj_names.specs.declared.entry_points.EntryPoint.{EntryPoint};
ghost use Rattle.sj_reach.specs.Answers.{AreReachable};
ghost use Rattle.folder_judging_spec.specs.Stages.{KeepRules};
ghost use Rattle.folder_judging_spec.specs.Verdicts.{IsVerdict, ByFiles, ByNames, ByReferences};
ghost use Rattle.folder_judging.specs.Counts.{Counts, CountsChecks};
ghost use Rattle.folder_judging.specs.Judging.{Judges, IsLinked, IsLinkedOf, IsLinkedFolder, AreFactsOf, AreFactsRead, AreFactsIn, IsKeptWorld};
ghost use Rattle.folder_judging.specs.Rules.{IsLeastIn};
ghost use Rattle.folder_judging.specs.Refusals.{IsRefusal, IsAt};

use crate::JudgeError;
use crate::reading::read_files;
use crate::refusals::{refusal_at, refusal_by_rule};
use crate::rules::least_broken;
use crate::sizes::sizes_of;
use crate::types::check_types;
use folder_sizes::first_too_large;
use sj_baselink::base_link;
use sj_names::{ClassName, Entries, SourceFile};
use sj_reach::{ReachError, Report, reach};
use sj_trees::ClassDef;
use sj_workers::Workers;
use sj_world::{LinkedWorld, World, WorldError};
use std::alloc::Global;

/// Judges the folder of these files, in the order of their paths, by the entry points. `Ok` exactly where its verdict is that it is accepted, with
/// its world, all that is reachable in it, and its method entries; `Refused` with the code and the place of the verdict where it is refused. The
/// stages come in the order sizes, files, names, local rules, cycles, references, types, and the first that finds something refuses.
///
/// As many files are counted as read as there are and as many bodies as checked as are reachable in a folder that is accepted; of any other no more, and
/// no body where it is refused before the types.
pub fn judge<W: Workers>(
    alloc: Global,
    files: &[SourceFile],
    entries: &Entries,
    work: &mut W,
) -> Result<LinkedWorld, JudgeError>
    ensures verdict { Judges (IsVerdict entries.now files.now) (IsLinkedFolder entries.now files.now) result }
    ensures counted { Counts files.now (AreFactsIn entries.now files.now) result (W.meter work.old) (W.meter work.new) }
{
    let sizes = sizes_of(alloc, files)?;
    match first_too_large(&sizes) {
        Some(place) => Err(refusal_at(alloc, 18, files[place].path.as_str())),
        None => judge_files(alloc, files, entries, work),
    }
}

fn judge_files<W: Workers>(
    alloc: Global,
    files: &[SourceFile],
    entries: &Entries,
    work: &mut W,
) -> Result<LinkedWorld, JudgeError>
    ensures verdict { Judges (ByFiles entries.now files.now) (IsLinkedFolder entries.now files.now) result }
    ensures counted { Counts files.now (AreFactsRead entries.now files.now) result (W.meter work.old) (W.meter work.new) }
{
    let classes = read_files(alloc, files, work)?;
    judge_classes(alloc, classes, entries, work)
}

// Names, then local rules, then cycles: the rules are looked at before the classes become a world, and count only where no name comes twice.
fn judge_classes<W: Workers>(
    alloc: Global,
    classes: Vec<ClassDef>,
    entries: &Entries,
    work: &mut W,
) -> Result<LinkedWorld, JudgeError>
    ensures verdict { Judges (ByNames entries.now classes.items) (IsLinkedOf entries.now classes.items) result }
    ensures counted { CountsChecks (AreFactsOf entries.now classes.items) result (W.meter work.old) (W.meter work.new) }
{
    let broken = least_broken(alloc, &classes)?;
    let world = world_of(alloc, classes, &broken)?;
    judge_world(alloc, &world, entries, work)
}

// The world of the classes, of which this is the least that breaks a local rule.
fn world_of(
    alloc: Global,
    classes: Vec<ClassDef>,
    broken: &Option<Report>,
) -> Result<World, JudgeError>
    requires { IsLeastIn classes.items broken.now }
    ensures { MatchResult result (IsKeptWorld classes.items) (IsRefusal (λ v. (entries : List EntryPoint) → ByNames entries classes.items v)) }
{
    match World::new(alloc, classes) {
        Ok(world) => kept_world(alloc, world, broken),
        Err(WorldError::DuplicateClass(name)) => Err(refusal_at(alloc, 11, name.text())),
        Err(WorldError::Cycle(name)) => Err(refusal_on_cycle(alloc, &name, broken)),
        Err(WorldError::NoMemory) => Err(JudgeError::NoMemory),
    }
}

fn kept_world(alloc: Global, world: World, broken: &Option<Report>) -> Result<World, JudgeError>
    ensures { MatchOption broken.now (result ≡ Ok world) (λ r. MatchResult result (λ _. ⊥) (IsAt 19 (r.place ++ codes " " ++ decimal r.code))) }
{
    match broken {
        Some(broken) => Err(refusal_by_rule(alloc, 19, broken)),
        None => Ok(world),
    }
}

fn refusal_on_cycle(alloc: Global, name: &ClassName, broken: &Option<Report>) -> JudgeError
    ensures { MatchOption broken.now (IsAt 17 name.now result) (λ r. IsAt 19 (r.place ++ codes " " ++ decimal r.code) result) }
{
    match broken {
        Some(broken) => refusal_by_rule(alloc, 19, broken),
        None => refusal_at(alloc, 17, name.text()),
    }
}

// References, then types.
fn judge_world<W: Workers>(
    alloc: Global,
    world: &World,
    entries: &Entries,
    work: &mut W,
) -> Result<LinkedWorld, JudgeError>
    requires { KeepRules world.now }
    ensures verdict { Judges (ByReferences entries.now world.now) (IsLinked entries.now world.now) result }
    ensures counted { CountsChecks (AreReachable world.now entries.now) result (W.meter work.old) (W.meter work.new) }
{
    let linked = linked_of(alloc, world, entries)?;
    check_types(alloc, &linked, work)?;
    Ok(linked)
}

// The world with all that is reachable in it, where every reference resolves.
fn linked_of(alloc: Global, world: &World, entries: &Entries) -> Result<LinkedWorld, JudgeError>
    ensures { MatchResult result (IsLinked entries.now world.now) (IsRefusal (ByReferences entries.now world.now)) }
{
    match reach(alloc, world, entries) {
        Ok(reached) => Ok(base_link(alloc, world, &reached)?),
        Err(ReachError::Refused { code, place }) => Err(JudgeError::Refused { code, place }),
        Err(ReachError::NoMemory) => Err(JudgeError::NoMemory),
    }
}
