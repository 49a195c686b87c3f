// How many trees there are.
ghost use Rattle.std.specs.Prelude.{◌≡◌, ◌↔◌, ◌≤◌, IsTrue};
ghost use Rattle.sj_trees.specs.View.{view, terms_view, cases_view};
ghost use Rattle.sj_ask.specs.Sizes.{size, next, counted, counted_all, counted_cases};

use sj_trees::{MatchCase, Tree};
use tree_parts::{Parts, parts_in};

const MOST: u32 = 16;

/// Whether a tree has at most 16 trees, itself among them.
pub fn is_small(tree: &Tree) -> bool
    ensures { IsTrue result ↔ (size (view tree.now) ≤ 16) }
{
    count(tree, 0) <= MOST
}

#[tactic(auto, unfolding(crate::specs::Sizes::next))]
fn one_more(before: u32) -> u32
    ensures { result ≡ next before }
{
    before.saturating_add(1)
}

// Counts on from `before`.
#[cycle(count)]
fn count(tree: &Tree, before: u32) -> u32
    ensures { result ≡ counted (view tree.now) before }
{
    let before = one_more(before);
    match parts_in(tree) {
        Parts::None => before,
        Parts::One(one) => count(one, before),
        Parts::Two(one, two) => count(two, count(one, before)),
        Parts::Three(one, two, three) => count(three, count(two, count(one, before))),
        Parts::Many(trees) => count_all(trees, before),
        Parts::OneAndMany(one, trees) => count_all(trees, count(one, before)),
        Parts::Cases(one, cases, two) => count(two, count_cases(cases, count(one, before))),
    }
}

#[cycle(count)]
fn count_all(trees: &[Tree], before: u32) -> u32
    ensures { result ≡ counted_all (terms_view trees.now) before }
{
    let mut counted = before;
    for each in trees {
        counted = count(each, counted);
    }
    counted
}

#[cycle(count)]
fn count_cases(cases: &[MatchCase], before: u32) -> u32
    ensures { result ≡ counted_cases (cases_view cases.now) before }
{
    let mut counted = before;
    for each in cases {
        counted = count(&each.body, counted);
    }
    counted
}
