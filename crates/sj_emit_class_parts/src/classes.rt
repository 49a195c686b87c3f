// The class itself, and what the running code knows of it.
ghost use Rattle.std.specs.Prelude.{◌≡◌, [], ◌++◌, List, map, OnOk, IfOk};
ghost use Rattle.js_tree.specs.Terms as js;
ghost use Rattle.js_tree.specs.Views.{item_view, member_view, piece_view, statement_view, statements_view, statements_of};
ghost use Rattle.sj_emit_help_spec.specs.Words as words;
ghost use Rattle.piece_making.specs.Made.{Makes};
ghost use Rattle.sj_emit_class_spec.specs.Pieces as pieces;

use crate::entries::{entry_member, put_uses};
use crate::fields::put_starts;
use crate::once::once;
use js_tree::{Binding, ClassMember, JsItem, JsPiece, JsStmt};
use piece_making::{
    bound, constants, constructor, name_of, no_bindings, no_parameters, object_item, one_binding,
    piece, set_property, text,
};
use sj_mangling::{ClassBinding, class_binding};
use sj_names::{ClassName, NoMemory};
use sj_trees::FieldDef;
use sj_world::MethodEntry;
use std::alloc::Global;

/// `const k_C = {s: "i_C", i_A: 1, ..};`
pub fn constants_piece(
    alloc: Global,
    class: &ClassName,
    ancestors: &[ClassName],
) -> Result<JsPiece, NoMemory>
    ensures { Makes piece_view result (pieces.constants_piece class.now ancestors.now) }
{
    piece(
        alloc,
        own_constants(alloc, class),
        no_bindings(alloc),
        object_item(
            class_binding(alloc, ClassBinding::Constants, class),
            constants(alloc, class, ancestors),
        ),
    )
}

fn own_constants(alloc: Global, class: &ClassName) -> Result<Binding, NoMemory>
    ensures { IfOk result (λ b. b ≡ pieces.own_constants class.now) }
{
    bound(class, class_binding(alloc, ClassBinding::Constants, class))
}

fn own_class(alloc: Global, class: &ClassName) -> Result<Binding, NoMemory>
    ensures { IfOk result (λ b. b ≡ words.bound class.now (words.class_name class.now)) }
{
    bound(class, class_binding(alloc, ClassBinding::Class, class))
}

/// `class c_C extends c_S { .. }`: its constructor, and its entries.
pub fn class_piece(
    alloc: Global,
    class: &ClassName,
    superclass: &Option<ClassName>,
    entries: &[&MethodEntry],
    fields: &[&FieldDef],
) -> Result<JsPiece, NoMemory>
    ensures { Makes piece_view result (pieces.class_piece class.now superclass.now (map (λ e. e.now) entries.now) (map (λ f. f.now) fields.now)) }
{
    piece(
        alloc,
        own_class(alloc, class),
        once(alloc, class_uses(alloc, class, superclass, entries)),
        class_item(
            alloc,
            class,
            superclass,
            members(alloc, class, superclass, entries, fields),
        ),
    )
}

fn class_item(
    alloc: Global,
    class: &ClassName,
    superclass: &Option<ClassName>,
    members: Result<Vec<ClassMember>, NoMemory>,
) -> Result<JsItem, NoMemory>
    ensures { (ms : List js.Member) → Makes (λ ms. map member_view ms.items) members ms → Makes item_view result (pieces.class_item_of class.now superclass.now ms) }
{
    let members = members?;
    let name = class_binding(alloc, ClassBinding::Class, class)?;
    match superclass {
        Some(above) => {
            let parent = class_binding(alloc, ClassBinding::Class, above)?;
            Ok(JsItem::Subclass {
                name,
                parent,
                members,
            })
        }
        None => Ok(JsItem::Class { name, members }),
    }
}

fn members(
    alloc: Global,
    class: &ClassName,
    superclass: &Option<ClassName>,
    entries: &[&MethodEntry],
    fields: &[&FieldDef],
) -> Result<Vec<ClassMember>, NoMemory>
    ensures { Makes (λ ms. map member_view ms.items) result (pieces.members class.now superclass.now (map (λ e. e.now) entries.now) (map (λ f. f.now) fields.now)) }
{
    let first = constructor_of(alloc, class, superclass, fields)?;
    let mut members = vec![in alloc; first]?;
    put_entries(alloc, entries, &mut members)?;
    Ok(members)
}

fn constructor_of(
    alloc: Global,
    class: &ClassName,
    superclass: &Option<ClassName>,
    fields: &[&FieldDef],
) -> Result<ClassMember, NoMemory>
    ensures { Makes member_view result (js.constructor_of [] (statements_of (pieces.constructor_body class.now superclass.now (map (λ f. f.now) fields.now)))) }
{
    constructor(
        alloc,
        no_parameters(alloc),
        constructor_body(alloc, class, superclass, fields),
    )
}

fn put_entries(
    alloc: Global,
    entries: &[&MethodEntry],
    members: &mut Vec<ClassMember>,
) -> Result<(), NoMemory>
    ensures { OnOk result (map member_view members.new.items ≡ map member_view members.old.items ++ map pieces.entry_member (map (λ e. e.now) entries.now)) }
{
    for entry in entries {
        members.push(entry_member(alloc, entry)?)?;
    }
    Ok(())
}

fn constructor_body(
    alloc: Global,
    class: &ClassName,
    superclass: &Option<ClassName>,
    fields: &[&FieldDef],
) -> Result<Vec<JsStmt>, NoMemory>
    ensures { Makes (λ ss. statements_view ss.items) result (statements_of (pieces.constructor_body class.now superclass.now (map (λ f. f.now) fields.now))) }
{
    let mut statements = Vec::new(alloc);
    if superclass.is_some() {
        statements.push(JsStmt::SuperCall)?;
    }
    statements.push(set_constants(alloc, class)?)?;
    put_starts(alloc, class, fields, &mut statements)?;
    Ok(statements)
}

// `this.k = k_C;`
fn set_constants(alloc: Global, class: &ClassName) -> Result<JsStmt, NoMemory>
    ensures { Makes statement_view result (pieces.set_constants class.now) }
{
    set_property(
        text(alloc, "k"),
        name_of(class_binding(alloc, ClassBinding::Constants, class)),
    )
}

fn class_uses(
    alloc: Global,
    class: &ClassName,
    superclass: &Option<ClassName>,
    entries: &[&MethodEntry],
) -> Result<Vec<Binding>, NoMemory>
    ensures { IfOk result (λ bs. bs.items ≡ pieces.class_uses class.now superclass.now (map (λ e. e.now) entries.now)) }
{
    let mut bindings = parent_uses(alloc, superclass)?;
    bindings.push(own_constants(alloc, class)?)?;
    put_all_uses(alloc, entries, &mut bindings)?;
    Ok(bindings)
}

fn parent_uses(alloc: Global, superclass: &Option<ClassName>) -> Result<Vec<Binding>, NoMemory>
    ensures { IfOk result (λ bs. bs.items ≡ pieces.parent_uses superclass.now) }
{
    match superclass {
        Some(above) => one_binding(alloc, own_class(alloc, above)),
        None => Ok(Vec::new(alloc)),
    }
}

fn put_all_uses(
    alloc: Global,
    entries: &[&MethodEntry],
    bindings: &mut Vec<Binding>,
) -> Result<(), NoMemory>
    ensures { OnOk result (bindings.new.items ≡ bindings.old.items ++ pieces.uses_of_entries (map (λ e. e.now) entries.now)) }
{
    for entry in entries {
        put_uses(alloc, entry, bindings)?;
    }
    Ok(())
}
