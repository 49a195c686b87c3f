// The calls of initializers.
ghost use Rattle.std.specs.Prelude.{◌≡◌, ◌++◌, IfOk, OnOk, map};
ghost use Rattle.js_tree.specs.Views.{item_view};
ghost use Rattle.sj_emit_module_spec.specs.Calls as calls;
ghost use Rattle.sj_emit_module_spec.specs.Calls.{call_item_of};

use js_tree::{Binding, JsExpr, JsItem};
use sj_mangling::function_name;
use sj_names::{EntryPoint, Member, MethodName, Namespace, NoMemory, Shared, Text, TypeRef};
use std::alloc::Global;
use std::rc::Rc;

/// Adds what initializers call.
pub fn add_called(
    alloc: Global,
    initializers: &[EntryPoint],
    list: &mut Vec<Binding>,
) -> Result<(), NoMemory>
    ensures { OnOk result (list.new.items ≡ list.old.items ++ map calls.called initializers.now) }
{
    for entry in initializers {
        list.push(called(alloc, entry)?)?;
    }
    Ok(())
}

// The binding that an initializer calls.
fn called(alloc: Global, entry: &EntryPoint) -> Result<Binding, NoMemory>
    ensures { IfOk result (λ b. b ≡ calls.called entry.now) }
{
    let member = initializer(alloc, entry)?;
    let name = function_name(alloc, &member)?;
    Ok(Binding {
        owner: entry.class.copied()?,
        name,
    })
}

/// Adds the calls of initializers.
pub fn add_calls(
    alloc: Global,
    initializers: &[EntryPoint],
    items: &mut Vec<Rc<JsItem>>,
) -> Result<(), NoMemory>
    ensures { OnOk result (map (λ i. item_view i.value) items.new.items ≡ map (λ i. item_view i.value) items.old.items ++ map call_item_of initializers.now) }
{
    for entry in initializers {
        let call = call_item(alloc, entry)?;
        items.push(call)?;
    }
    Ok(())
}

fn call_item(alloc: Global, entry: &EntryPoint) -> Result<Rc<JsItem>, NoMemory>
    ensures { IfOk result (λ i. item_view i.value ≡ call_item_of entry.now) }
{
    let member = initializer(alloc, entry)?;
    let function = function_name(alloc, &member)?;
    let call = JsExpr::Call {
        function,
        arguments: Vec::new(alloc),
    };
    Ok(Rc::new(alloc, JsItem::Expression(call))?)
}

// The member that an initializer calls.
fn initializer(alloc: Global, entry: &EntryPoint) -> Result<Member, NoMemory>
    ensures { IfOk result (λ m. m ≡ calls.initializer entry.now) }
{
    let params = Shared::from_vec(Vec::new(alloc))?;
    Ok(Member {
        class: entry.class.copied()?,
        namespace: Namespace::PublicStatic,
        method: MethodName {
            simple: entry.method.copied()?,
            params,
            result: Some(TypeRef::Void),
        },
    })
}
