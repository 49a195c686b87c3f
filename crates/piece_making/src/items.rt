// Items and pieces.
ghost use Rattle.std.specs.Prelude.{◌≡◌, List, map, IfOk};
ghost use Rattle.js_tree.specs.Terms as js;
ghost use Rattle.js_tree.specs.Views.{expression_view, statements_view, property_view, member_view, item_view, piece_view};
ghost use Rattle.js_tree.specs.declared.items.Binding.{Binding as Bound};
ghost use Rattle.sj_emit_help_spec.specs.Words.{bound};
ghost use Rattle.piece_making.specs.Made.{Makes};

use js_tree::{Binding, ClassMember, JsBody, JsExpr, JsItem, JsPiece, JsStmt, ObjectProperty};
use sj_names::{Items, NoMemory, Text};
use std::alloc::Global;
use std::rc::Rc;

/// `function x(x, ..) { S }`
pub fn function(
    alloc: Global,
    name: Result<Text, NoMemory>,
    parameters: Result<Items<Text>, NoMemory>,
    statements: Result<Vec<JsStmt>, NoMemory>,
) -> Result<JsItem, NoMemory>
    ensures { (x : js.Name) (xs : List js.Name) (ss : js.Statements) → IfOk name (λ t. t ≡ x) → IfOk parameters (λ ts. ts ≡ xs) → Makes (λ ss. statements_view ss.items) statements ss → Makes item_view result (js.function_item x xs ss) }
{
    let name = name?;
    let parameters = parameters?;
    Ok(JsItem::Function {
        name,
        parameters,
        body: JsBody::new(alloc, statements?)?,
    })
}

/// `let x = e;`
pub fn let_item(
    name: Result<Text, NoMemory>,
    value: Result<JsExpr, NoMemory>,
) -> Result<JsItem, NoMemory>
    ensures { (x : js.Name) (e : js.Expression) → IfOk name (λ t. t ≡ x) → Makes expression_view value e → Makes item_view result (js.let_item x e) }
{
    let name = name?;
    Ok(JsItem::Let {
        name,
        value: value?,
    })
}

/// `const x = {p: e, ..};`
pub fn object_item(
    name: Result<Text, NoMemory>,
    properties: Result<Vec<ObjectProperty>, NoMemory>,
) -> Result<JsItem, NoMemory>
    ensures { (x : js.Name) (ps : List js.Property) → IfOk name (λ t. t ≡ x) → Makes (λ ps. map property_view ps.items) properties ps → Makes item_view result (js.object_item x ps) }
{
    let name = name?;
    Ok(JsItem::ConstObject {
        name,
        properties: properties?,
    })
}

/// `constructor(x, ..) { S }`
pub fn constructor(
    alloc: Global,
    parameters: Result<Items<Text>, NoMemory>,
    statements: Result<Vec<JsStmt>, NoMemory>,
) -> Result<ClassMember, NoMemory>
    ensures { (xs : List js.Name) (ss : js.Statements) → IfOk parameters (λ ts. ts ≡ xs) → Makes (λ ss. statements_view ss.items) statements ss → Makes member_view result (js.constructor_of xs ss) }
{
    let parameters = parameters?;
    Ok(ClassMember::Constructor {
        parameters,
        body: JsBody::new(alloc, statements?)?,
    })
}

/// `p(x, ..) { S }`
pub fn method(
    alloc: Global,
    name: Result<Text, NoMemory>,
    parameters: Result<Items<Text>, NoMemory>,
    statements: Result<Vec<JsStmt>, NoMemory>,
) -> Result<ClassMember, NoMemory>
    ensures { (p : js.Name) (xs : List js.Name) (ss : js.Statements) → IfOk name (λ t. t ≡ p) → IfOk parameters (λ ts. ts ≡ xs) → Makes (λ ss. statements_view ss.items) statements ss → Makes member_view result (js.method_of p xs ss) }
{
    let name = name?;
    let parameters = parameters?;
    Ok(ClassMember::Method {
        name,
        parameters,
        body: JsBody::new(alloc, statements?)?,
    })
}

/// The item as a piece of the class and the name of a binding.
pub fn piece(
    alloc: Global,
    binding: Result<Binding, NoMemory>,
    uses: Result<Vec<Binding>, NoMemory>,
    item: Result<JsItem, NoMemory>,
) -> Result<JsPiece, NoMemory>
    ensures { (c x : js.Name) (bs : List Bound) (i : js.Item) → IfOk binding (λ b. b ≡ bound c x) → IfOk uses (λ us. us.items ≡ bs) → Makes item_view item i → Makes piece_view result (record { owner = c; name = x; uses = bs; item = i }) }
{
    let Binding { owner, name } = binding?;
    let uses = uses?;
    let item = Rc::new(alloc, item?)?;
    Ok(JsPiece {
        owner,
        name,
        uses: Items::from_vec(uses),
        item,
    })
}
