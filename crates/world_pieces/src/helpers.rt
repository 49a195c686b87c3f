// The helpers that pieces use.
ghost use Rattle.std.specs.Prelude.{◌≡◌, ◌↔◌, Contains, IfOk, OnOk, IsTrue, List, map};
ghost use Rattle.std.specs.Hash as fed;
ghost use Rattle.std.specs.List.{filter};
ghost use Rattle.sj_emit_help_spec.specs.Helpers.{helper_name as name_of_helper};
ghost use Rattle.indexmap.specs.IndexSet.{insert_all};
ghost use Rattle.js_tree.specs.Terms.{Name, Piece};
ghost use Rattle.linked_pieces.specs.Pieces.{AreHelpers};
ghost use Rattle.sj_baselink.specs.Steps.{Puts, OfOne};
ghost use Rattle.world_pieces.specs.Helpers.{every_helper, IsNamed, UsesWord, as_used, is_found, is_same_used, next_used};
ghost use Rattle.world_pieces.specs.declared.helpers.UsedHelper.{UsedHelper as Used};
ghost use Rattle.world_pieces.specs.Same.{same_used};
ghost use Rattle.std.proofs.Common.{ap};

use crate::table::all_helpers;
use indexmap::IndexSet;
use piece_making::{helper_name, text};
use sj_emit_help::used_helpers;
use sj_emit_help_spec::Helper;
use sj_names::{NoMemory, Text};
use std::alloc::Global;
use std::hash::{Hash, Hasher};
use worklist::{Key, Step, search};

/// A helper that is used.
#[derive(PartialEq, Eq, Drop)]
pub struct UsedHelper {
    pub helper: Helper,
}

impl Hash for UsedHelper {
    ghost hash_input = { λ u. fed.str (name_of_helper u.helper) };

    ghost respects_eq = { λ x y same. ap (λ u. fed.str (name_of_helper u.helper)) (same_used x y same) };

    fn hash<H: Hasher>(&self, state: &mut H) {
        helper_name(self.helper).hash(state);
    }
}

impl Key for UsedHelper {
    ghost same = { same_used };

    fn again(&self) -> Result<UsedHelper, NoMemory> {
        Ok(UsedHelper {
            helper: self.helper,
        })
    }
}

// From a helper to those that it uses.
#[derive(Drop)]
struct UsedBy {}

impl Step<UsedHelper> for UsedBy {
    ghost next = { λ _ u. next_used u };

    fn add_next(
        &self,
        used: &UsedHelper,
        found: &mut IndexSet<UsedHelper>,
    ) -> Result<(), NoMemory> {
        add_used(used_helpers(used.helper), found)
    }
}

fn add_used(helpers: &[Helper], found: &mut IndexSet<UsedHelper>) -> Result<(), NoMemory>
    ensures { OnOk result (found.new.keys ≡ insert_all is_same_used found.old.keys (map as_used helpers.now)) }
{
    for helper in helpers {
        found.insert(UsedHelper { helper: *helper })?;
    }
    Ok(())
}

/// Exactly the helpers that have these names, which pieces use, or that other helpers use which are used, in the order of their names.
pub fn helpers_of(alloc: Global, words: &IndexSet<Text>) -> Result<Vec<Helper>, NoMemory>
    ensures { (ps : List Piece) → ((x : Name) → Contains words.now.keys x ↔ OfOne ps UsesWord x) → IfOk result (λ hs. AreHelpers ps hs.items) }
{
    let mut found = helpers_named(alloc, words)?;
    search(&UsedBy {}, &mut found)?;
    listed(alloc, &found)
}

// The helpers of which the names are among these.
fn helpers_named(alloc: Global, words: &IndexSet<Text>) -> Result<IndexSet<UsedHelper>, NoMemory>
    ensures { IfOk result (λ found. (u : Used) → Contains found.keys u ↔ Contains words.now.keys (name_of_helper u.helper)) }
{
    let mut found = IndexSet::new(alloc);
    let all = all_helpers();
    for helper in all {
        put_named(alloc, words, *helper, &mut found)?;
    }
    Ok(found)
}

fn put_named(
    alloc: Global,
    words: &IndexSet<Text>,
    helper: Helper,
    found: &mut IndexSet<UsedHelper>,
) -> Result<(), NoMemory>
    ensures { OnOk result (Puts (IsNamed words.now.keys helper) found.old.keys found.new.keys) }
{
    if is_named(alloc, words, helper)? {
        found.insert(UsedHelper { helper })?;
    }
    Ok(())
}

fn is_named(alloc: Global, words: &IndexSet<Text>, helper: Helper) -> Result<bool, NoMemory>
    ensures { IfOk result (λ yes. IsTrue yes ↔ Contains words.now.keys (name_of_helper helper)) }
{
    let name = text(alloc, helper_name(helper))?;
    Ok(words.contains(&name))
}

// Those of all helpers that are found.
fn listed(alloc: Global, found: &IndexSet<UsedHelper>) -> Result<Vec<Helper>, NoMemory>
    ensures { IfOk result (λ hs. hs.items ≡ filter (is_found found.now.keys) every_helper) }
{
    let mut helpers = Vec::new(alloc);
    let all = all_helpers();
    for helper in all {
        if found.contains(&UsedHelper { helper: *helper }) {
            helpers.push(*helper)?;
        }
    }
    Ok(helpers)
}
