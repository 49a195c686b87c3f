// What appends trees.
ghost use Rattle.std.specs.Prelude.{◌≡◌, ◌++◌, ◌∷◌, OnOk};
ghost use Rattle.sj_trees.specs.View.{view, terms_view, cases_view};
ghost use Rattle.tree_parts.specs.Parts.{seen};
ghost use Rattle.sj_canon.specs.Numbers.{list_bytes, signed_bytes};
ghost use Rattle.sj_canon.specs.Terms.{term_bytes, terms_bytes, cases_bytes, parts_bytes};

use crate::numbers::{put_byte, put_keys};
use crate::own::put_own;
use sj_names::NoMemory;
use sj_trees::{MatchCase, Tree};
use tree_parts::{Parts, own_in, parts_in};

/// Appends a tree: what it has of its own, and then its parts.
#[cycle(put)]
pub fn put_tree(out: &mut Vec<u8>, tree: &Tree) -> Result<(), NoMemory>
    ensures { OnOk result (out.new.items ≡ out.old.items ++ term_bytes (view tree.now)) }
{
    put_own(out, &own_in(tree))?;
    put_parts(out, parts_in(tree))
}

// Appends how many parts there are, and they.
#[cycle(put)]
fn put_parts(out: &mut Vec<u8>, parts: Parts<'_>) -> Result<(), NoMemory>
    ensures { OnOk result (out.new.items ≡ out.old.items ++ parts_bytes (seen parts.entry)) }
{
    match parts {
        Parts::None => put_byte(out, 0),
        Parts::One(one) => {
            put_byte(out, 1)?;
            put_tree(out, one)
        }
        Parts::Two(one, two) => {
            put_byte(out, 2)?;
            put_tree(out, one)?;
            put_tree(out, two)
        }
        Parts::Three(one, two, three) => {
            put_byte(out, 3)?;
            put_tree(out, one)?;
            put_tree(out, two)?;
            put_tree(out, three)
        }
        Parts::Many(trees) => {
            put_byte(out, 4)?;
            put_trees(out, trees)
        }
        Parts::OneAndMany(one, trees) => {
            put_byte(out, 5)?;
            put_tree(out, one)?;
            put_trees(out, trees)
        }
        Parts::Cases(one, cases, two) => {
            put_byte(out, 6)?;
            put_tree(out, one)?;
            put_cases(out, cases)?;
            put_tree(out, two)
        }
    }
}

// Appends a 1 and the tree for each, and a 0.
#[cycle(put)]
#[tactic(auto, using(std::proofs::lemmas::Grind::common_steps))]
fn put_trees(out: &mut Vec<u8>, trees: &[Tree]) -> Result<(), NoMemory>
    ensures { OnOk result (out.new.items ≡ out.old.items ++ terms_bytes (terms_view trees.now)) }
{
    for i in 0..trees.len() {
        put_byte(out, 1)?;
        put_tree(out, &trees[i])?;
    }
    put_byte(out, 0)
}

// Appends a 1 and the case for each, and a 0.
#[cycle(put)]
#[tactic(auto, using(std::proofs::lemmas::Grind::common_steps))]
fn put_cases(out: &mut Vec<u8>, cases: &[MatchCase]) -> Result<(), NoMemory>
    ensures { OnOk result (out.new.items ≡ out.old.items ++ cases_bytes (cases_view cases.now)) }
{
    for i in 0..cases.len() {
        put_case(out, &cases[i])?;
    }
    put_byte(out, 0)
}

#[cycle(put)]
fn put_case(out: &mut Vec<u8>, case: &MatchCase) -> Result<(), NoMemory>
    ensures { OnOk result (out.new.items ≡ out.old.items ++ 1 ∷ list_bytes signed_bytes case.now.keys ++ term_bytes (view case.now.body)) }
{
    put_byte(out, 1)?;
    put_keys(out, case.keys.as_slice())?;
    put_tree(out, &case.body)
}
