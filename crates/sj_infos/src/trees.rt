// The trees of a body.
ghost use Rattle.std.specs.Prelude.{◌≡◌, ◌++◌, map, IfOk, OnOk};
ghost use Rattle.sj_trees.specs.View.{view, terms_view, cases_view};
ghost use Rattle.sj_trees.specs.declared.trees.Tree.{Tree};
ghost use Rattle.sj_infos.specs.Trees as specs;

use sj_names::NoMemory;
use sj_trees::{MatchCase, Tree};
use std::alloc::Global;
use tree_parts::{Parts, parts_in};

// The trees of a body: a tree before those in it, and those from left to right.
pub fn trees_in<'t>(alloc: Global, body: &'t Tree) -> Result<Vec<&'t Tree>, NoMemory>
    ensures { IfOk result (λ found. map (λ t. view t.now) found.items ≡ specs.trees (view body.now)) }
{
    let mut found = Vec::new(alloc);
    add(&mut found, body)?;
    Ok(found)
}

// Adds a tree and the trees in it.
#[cycle(adding)]
fn add<'t>(found: &mut Vec<&'t Tree>, tree: &'t Tree) -> Result<(), NoMemory>
    ensures { OnOk result (map (λ t. view t.now) found.new.items ≡ map (λ t. view t.now) found.old.items ++ specs.trees (view tree.now)) }
{
    found.push(tree)?;
    match parts_in(tree) {
        Parts::None => Ok(()),
        Parts::One(one) => add(found, one),
        Parts::Two(one, two) => {
            add(found, one)?;
            add(found, two)
        }
        Parts::Three(one, two, three) => {
            add(found, one)?;
            add(found, two)?;
            add(found, three)
        }
        Parts::Many(trees) => add_all(found, trees),
        Parts::OneAndMany(one, trees) => {
            add(found, one)?;
            add_all(found, trees)
        }
        Parts::Cases(one, cases, two) => {
            add(found, one)?;
            add_cases(found, cases)?;
            add(found, two)
        }
    }
}

#[cycle(adding)]
fn add_all<'t>(found: &mut Vec<&'t Tree>, trees: &'t [Tree]) -> Result<(), NoMemory>
    ensures { OnOk result (map (λ t. view t.now) found.new.items ≡ map (λ t. view t.now) found.old.items ++ specs.all_below (terms_view trees.now)) }
{
    for tree in trees {
        add(found, tree)?;
    }
    Ok(())
}

#[cycle(adding)]
fn add_cases<'t>(found: &mut Vec<&'t Tree>, cases: &'t [MatchCase]) -> Result<(), NoMemory>
    ensures { OnOk result (map (λ t. view t.now) found.new.items ≡ map (λ t. view t.now) found.old.items ++ specs.cases_below (cases_view cases.now)) }
{
    for case in cases {
        add(found, &case.body)?;
    }
    Ok(())
}
