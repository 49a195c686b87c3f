// Whether trees are equal apart from positions.
ghost use Rattle.std.specs.Prelude.{◌≡◌, ◌↔◌, IsTrue};
ghost use Rattle.sj_trees.specs.View.{view, terms_view, cases_view};
ghost use Rattle.sj_trees.specs.Erase.{erase, erase_all, erase_cases};
ghost use Rattle.tree_parts.specs.Parts.{seen, erased_parts};

use sj_names::Namespace;
use sj_trees::{MatchCase, Tree};
use tree_parts::{Parts, is_same_own, own_in, parts_in};

/// Whether both are the same tree, apart from positions.
#[cycle(same)]
pub fn is_same_tree(tree: &Tree, other: &Tree) -> bool
    ensures { IsTrue result ↔ (erase (view tree.now) ≡ erase (view other.now)) }
{
    is_same_own(&own_in(tree), &own_in(other)) && are_same_parts(parts_in(tree), parts_in(other))
}

// Whether the trees in two trees are the same.
#[cycle(same)]
fn are_same_parts(parts: Parts<'_>, others: Parts<'_>) -> bool
    ensures { IsTrue result ↔ (erased_parts (seen parts.entry) ≡ erased_parts (seen others.entry)) }
{
    match parts {
        Parts::None => matches!(others, Parts::None),
        Parts::One(one) => match others {
            Parts::One(other) => is_same_tree(one, other),
            _ => false,
        },
        Parts::Two(one, two) => match others {
            Parts::Two(other, another) => is_same_tree(one, other) && is_same_tree(two, another),
            _ => false,
        },
        Parts::Three(one, two, three) => match others {
            Parts::Three(other, another, last) => {
                is_same_tree(one, other) && is_same_tree(two, another) && is_same_tree(three, last)
            }
            _ => false,
        },
        Parts::Many(trees) => match others {
            Parts::Many(others) => are_same_trees(trees, others),
            _ => false,
        },
        Parts::OneAndMany(one, trees) => match others {
            Parts::OneAndMany(other, others) => {
                is_same_tree(one, other) && are_same_trees(trees, others)
            }
            _ => false,
        },
        Parts::Cases(one, cases, two) => match others {
            Parts::Cases(other, others, another) => {
                is_same_tree(one, other)
                    && are_same_cases(cases, others)
                    && is_same_tree(two, another)
            }
            _ => false,
        },
    }
}

#[cycle(same)]
#[tactic(auto, using(std::proofs::lemmas::Grind::common_steps, crate::proofs::Lengths::lengths))]
fn are_same_trees(trees: &[Tree], others: &[Tree]) -> bool
    ensures { IsTrue result ↔ (erase_all (terms_view trees.now) ≡ erase_all (terms_view others.now)) }
{
    if trees.len() != others.len() {
        return false;
    }
    for i in 0..trees.len() {
        if !is_same_tree(&trees[i], &others[i]) {
            return false;
        }
    }
    true
}

#[cycle(same)]
#[tactic(auto, using(std::proofs::lemmas::Grind::common_steps, crate::proofs::Lengths::lengths))]
fn are_same_cases(cases: &[MatchCase], others: &[MatchCase]) -> bool
    ensures { IsTrue result ↔ (erase_cases (cases_view cases.now) ≡ erase_cases (cases_view others.now)) }
{
    if cases.len() != others.len() {
        return false;
    }
    for i in 0..cases.len() {
        if !is_same_case(&cases[i], &others[i]) {
            return false;
        }
    }
    true
}

#[cycle(same)]
fn is_same_case(case: &MatchCase, other: &MatchCase) -> bool
    ensures { IsTrue result ↔ ((case.now.keys ≡ other.now.keys) × (erase (view case.now.body) ≡ erase (view other.now.body))) }
{
    are_same_keys(case.keys.as_slice(), other.keys.as_slice())
        && is_same_tree(&case.body, &other.body)
}

fn are_same_keys(keys: &[i32], others: &[i32]) -> bool
    ensures { IsTrue result ↔ (keys.now ≡ others.now) }
{
    keys == others
}

pub fn is_same_namespace(namespace: Namespace, other: Namespace) -> bool
    ensures { IsTrue result ↔ (namespace ≡ other) }
{
    namespace == other
}
