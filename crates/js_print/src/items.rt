//! Items, import lines and the export line.
ghost use Rattle.std.specs.Prelude.{◌≡◌, OnOk, codes, map};
ghost use Rattle.js_tree.specs.Written.{put, ◌▸◌, put_each, put_separated, put_more};
ghost use Rattle.js_tree.specs.Texts.{put_object_property, put_member, put_members, put_item, put_item_line, put_import, put_exports, put_parameters, put_block};
ghost use Rattle.js_tree.specs.Views.{property_view, member_view, item_view, body_view};

use crate::expressions::append_expression;
use crate::statements::{append_assignment, append_block, append_value};
use crate::writing::{append_names, append_parameters};
use js_tree::{ClassMember, JsBody, JsImport, JsItem, ObjectProperty};
use sj_names::{NoMemory, Text};
use std::rc::Rc;
use text_print::append;

// Appends a property of an object literal.
fn append_property(out: &mut Vec<u8>, property: &ObjectProperty) -> Result<(), NoMemory>
    ensures { OnOk result (out.new.items ≡ put_object_property (property_view property.now) out.old.items) }
{
    append(out, property.name.as_str())?;
    append(out, ": ")?;
    append_expression(out, &property.value)
}

// Appends properties with a comma and a space between them.
fn append_properties(out: &mut Vec<u8>, properties: &[ObjectProperty]) -> Result<(), NoMemory>
    ensures { OnOk result (out.new.items ≡ put_separated (codes ", ") put_object_property (map property_view properties.now) out.old.items) }
{
    match properties {
        [] => Ok(()),
        [first, others @ ..] => {
            append_property(out, first)?;
            append_more_properties(out, others)
        }
    }
}

// Appends properties with a comma and a space in front of each.
fn append_more_properties(out: &mut Vec<u8>, properties: &[ObjectProperty]) -> Result<(), NoMemory>
    ensures { OnOk result (out.new.items ≡ put_more (codes ", ") put_object_property (map property_view properties.now) out.old.items) }
{
    for property in properties {
        append(out, ", ")?;
        append_property(out, property)?;
    }
    Ok(())
}

// Appends a member of a class on its own lines.
fn append_member(out: &mut Vec<u8>, member: &ClassMember) -> Result<(), NoMemory>
    ensures { OnOk result (out.new.items ≡ put_member (member_view member.now) out.old.items) }
{
    match member {
        ClassMember::Constructor { parameters, body } => {
            append(out, "  constructor")?;
            append_parameters(out, parameters.as_slice())?;
            append(out, " ")?;
            append_block(out, 1, body.as_slice())?;
            append(out, "\n")
        }
        ClassMember::Method {
            name,
            parameters,
            body,
        } => {
            append(out, "  ")?;
            append(out, name.as_str())?;
            append_parameters(out, parameters.as_slice())?;
            append(out, " ")?;
            append_block(out, 1, body.as_slice())?;
            append(out, "\n")
        }
    }
}

// Appends the members of a class, in braces.
fn append_members(out: &mut Vec<u8>, members: &[ClassMember]) -> Result<(), NoMemory>
    ensures { OnOk result (out.new.items ≡ put_members (map member_view members.now) out.old.items) }
{
    append(out, "{\n")?;
    append_each_member(out, members)?;
    append(out, "}")
}

// Appends the members of a class.
fn append_each_member(out: &mut Vec<u8>, members: &[ClassMember]) -> Result<(), NoMemory>
    ensures { OnOk result (out.new.items ≡ put_each put_member (map member_view members.now) out.old.items) }
{
    for member in members {
        append_member(out, member)?;
    }
    Ok(())
}

// Appends the rest of a function behind its name.
fn append_function(out: &mut Vec<u8>, parameters: &[Text], body: &JsBody) -> Result<(), NoMemory>
    ensures { OnOk result (out.new.items ≡ (put_parameters parameters.now ▸ put (codes " ") ▸ put_block 0 (body_view body.now)) out.old.items) }
{
    append_parameters(out, parameters)?;
    append(out, " ")?;
    append_block(out, 0, body.as_slice())
}

// Appends an item without the line feed behind it.
fn append_item(out: &mut Vec<u8>, item: &JsItem) -> Result<(), NoMemory>
    ensures { OnOk result (out.new.items ≡ put_item (item_view item.now) out.old.items) }
{
    match item {
        JsItem::Const { name, value } => {
            append(out, "const ")?;
            append_assignment(out, name, value)
        }
        JsItem::ConstObject { name, properties } => {
            append(out, "const ")?;
            append(out, name.as_str())?;
            append(out, " = {")?;
            append_properties(out, properties)?;
            append(out, "};")
        }
        JsItem::Let { name, value } => {
            append(out, "let ")?;
            append_assignment(out, name, value)
        }
        JsItem::Expression(value) => append_value(out, value),
        JsItem::Function {
            name,
            parameters,
            body,
        } => {
            append(out, "function ")?;
            append(out, name.as_str())?;
            append_function(out, parameters.as_slice(), body)
        }
        JsItem::Class { name, members } => {
            append(out, "class ")?;
            append(out, name.as_str())?;
            append(out, " ")?;
            append_members(out, members)
        }
        JsItem::Subclass {
            name,
            parent,
            members,
        } => {
            append(out, "class ")?;
            append(out, name.as_str())?;
            append(out, " extends ")?;
            append(out, parent.as_str())?;
            append(out, " ")?;
            append_members(out, members)
        }
    }
}

// Appends an item on its own lines.
pub(crate) fn append_item_line(out: &mut Vec<u8>, item: &JsItem) -> Result<(), NoMemory>
    ensures { OnOk result (out.new.items ≡ put_item_line (item_view item.now) out.old.items) }
{
    append_item(out, item)?;
    append(out, "\n")
}

// Appends the items of a module.
pub(crate) fn append_items(out: &mut Vec<u8>, items: &[Rc<JsItem>]) -> Result<(), NoMemory>
    ensures { OnOk result (out.new.items ≡ put_each put_item_line (map (λ i. item_view i.value) items.now) out.old.items) }
{
    for item in items {
        append_item_line(out, item.as_ref())?;
    }
    Ok(())
}

// Appends an import line.
fn append_import(out: &mut Vec<u8>, import: &JsImport) -> Result<(), NoMemory>
    ensures { OnOk result (out.new.items ≡ put_import import.now out.old.items) }
{
    append(out, "import { ")?;
    append_names(out, import.names.as_slice())?;
    append(out, " } from \"./")?;
    append(out, import.file.as_str())?;
    append(out, "\";\n")
}

// Appends the import lines of a module.
pub(crate) fn append_imports(out: &mut Vec<u8>, imports: &[JsImport]) -> Result<(), NoMemory>
    ensures { OnOk result (out.new.items ≡ put_each put_import imports.now out.old.items) }
{
    for import in imports {
        append_import(out, import)?;
    }
    Ok(())
}

// Appends the export line of a module, where there are names.
pub(crate) fn append_exports(out: &mut Vec<u8>, names: &[Text]) -> Result<(), NoMemory>
    ensures { OnOk result (out.new.items ≡ put_exports names.now out.old.items) }
{
    match names {
        [] => Ok(()),
        [_, ..] => {
            append(out, "export { ")?;
            append_names(out, names)?;
            append(out, " };\n")
        }
    }
}
