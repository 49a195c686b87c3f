// The pieces of helpers.
ghost use Rattle.std.specs.Prelude.{◌≡◌, IfOk, IsTrue, length};
ghost use Rattle.js_tree.specs.Terms.{Item};
ghost use Rattle.js_tree.specs.Rules.{IsPiece};
ghost use Rattle.js_tree.specs.Views.{item_view, module_view, piece_view};
ghost use Rattle.sj_emit_help_spec.specs.Helpers as rules;
ghost use Rattle.sj_emit_help_spec.specs.Texts.{is_fixed, only_item};
ghost use Rattle.sj_emit_help_spec.specs.declared.kinds.Helper.TheVariants.{ConstantsOf};

use crate::texts::helper_text;
use crate::uses::helper_uses;
use js_read::{JsError, read_module};
use js_tree::{JsItem, JsModule, JsPiece};
use piece_making::{class_of_kind, constants, helper_binding, helper_name, object_item, text};
use sj_emit_class_printing::{names_fit, pieces_of_classes_are_pieces};
use sj_emit_help_spec::{Helper, Kind};
use sj_names::{ClassName, Items, NoMemory, Text};
use std::alloc::Global;
use std::rc::Rc;

/// The piece of a helper, where the class of a kind has these ancestors. It keeps the rules of printing. Want of memory is the only error.
pub fn helper_piece(
    alloc: Global,
    helper: Helper,
    ancestors: &[ClassName],
) -> Result<JsPiece, NoMemory>
    ensures piece { IfOk result (λ p. piece_view p ≡ rules.helper_piece (λ _. ancestors.now) helper) }
    ensures rules { IfOk result (λ p. IsPiece (piece_view p)) }
{
    names_fit(ancestors);
    pieces_of_classes_are_pieces();
    let item = helper_item(alloc, helper, ancestors)?;
    let uses = helper_uses(alloc, helper)?;
    let binding = helper_binding(alloc, helper)?;
    Ok(JsPiece {
        owner: binding.owner,
        name: binding.name,
        uses: Items::from_vec(uses),
        item,
    })
}

fn helper_item(
    alloc: Global,
    helper: Helper,
    ancestors: &[ClassName],
) -> Result<Rc<JsItem>, NoMemory>
    ensures { IfOk result (λ i. item_view i.value ≡ rules.helper_item (λ _. ancestors.now) helper) }
{
    match helper {
        Helper::ConstantsOf(kind) => constants_of(alloc, kind, ancestors),
        _ => fixed_item(alloc, helper),
    }
}

// `const $kX = {s: "i_C", i_A: 1, ..};`
fn constants_of(alloc: Global, kind: Kind, ancestors: &[ClassName]) -> Result<Rc<JsItem>, NoMemory>
    ensures { IfOk result (λ i. item_view i.value ≡ rules.helper_item (λ _. ancestors.now) (ConstantsOf kind)) }
{
    let class = ClassName::of_text(Text::from_str(alloc, class_of_kind(kind))?);
    let item = object_item(
        text(alloc, helper_name(Helper::ConstantsOf(kind))),
        constants(alloc, &class, ancestors),
    )?;
    Ok(Rc::new(alloc, item)?)
}

// The item that the text of the helper spells.

fn fixed_item(alloc: Global, helper: Helper) -> Result<Rc<JsItem>, NoMemory>
    requires { IsTrue (is_fixed helper) }
    ensures { IfOk result (λ i. (above : rules.Above) → item_view i.value ≡ rules.helper_item above helper) }
{
    match read_module(alloc, helper_text(helper).as_bytes()) {
        Ok(module) => Ok(only_item_of(module)),
        Err(JsError::NoMemory) => Err(NoMemory),
        Err(JsError::BadJs(_)) => unreachable!(),
    }
}

// The item of a module that has one.
fn only_item_of(read: JsModule) -> Rc<JsItem>
    requires { length read.items.items ≡ 1 }
    ensures { (i : Item) → module_view read ≡ only_item i → item_view result.value ≡ i }
{
    let mut items = read.items;
    items.remove(0)
}
