// The cell of a module class.
ghost use Rattle.std.specs.Prelude.{◌≡◌, ◌++◌, map, OnOk, IfOk};
ghost use Rattle.js_tree.specs.Terms as js;
ghost use Rattle.js_tree.specs.Views.{expression_view, piece_view, statement_view, statements_view};
ghost use Rattle.piece_making.specs.Made.{Makes};
ghost use Rattle.sj_mangling.specs.Bindings.{class_binding};
ghost use Rattle.sj_mangling.specs.declared.bindings.ClassBinding.TheVariants.{Instance};
ghost use Rattle.sj_emit_class_spec.specs.Pieces as pieces;

use crate::fields::set_piece;
use js_tree::{JsExpr, JsPiece, JsStmt};
use piece_making::{
    assign, bound, call, constant, function, if_only, is_null, let_item, name, name_of, new_of,
    no_arguments, no_bindings, no_parameters, one_argument, piece, return_of, text, three_bindings,
    two_statements,
};
use sj_mangling::{ClassBinding, class_binding, function_name};
use sj_names::{
    ClassName, INIT, Member, MethodName, Namespace, NoMemory, Shared, SimpleName, Text, TypeRef,
};
use std::alloc::Global;

/// Puts the cell of the class, the function that loads it, where it is loaded, and the one that stores it, behind other pieces.
pub fn put_cell(
    alloc: Global,
    class: &ClassName,
    loaded: bool,
    all: &mut Vec<JsPiece>,
) -> Result<(), NoMemory>
    ensures { OnOk result (map piece_view all.new.items ≡ map piece_view all.old.items ++ pieces.cell_pieces class.now loaded) }
{
    all.push(cell_piece(alloc, class)?)?;
    if loaded {
        all.push(load_piece(alloc, class)?)?;
    }
    all.push(store_piece(alloc, class)?)?;
    Ok(())
}

fn cell_name(alloc: Global, class: &ClassName) -> Result<Text, NoMemory>
    ensures { IfOk result (λ name. name ≡ class_binding Instance class.now) }
{
    class_binding(alloc, ClassBinding::Instance, class)
}

fn null() -> Result<JsExpr, NoMemory>
    ensures { Makes expression_view result js.null_literal }
{
    Ok(JsExpr::Null)
}

// `let n_C = null;`
fn cell_piece(alloc: Global, class: &ClassName) -> Result<JsPiece, NoMemory>
    ensures { Makes piece_view result (pieces.cell_piece class.now) }
{
    piece(
        alloc,
        bound(class, cell_name(alloc, class)),
        no_bindings(alloc),
        let_item(cell_name(alloc, class), null()),
    )
}

// `function q_C(x) { n_C = x; }`
fn store_piece(alloc: Global, class: &ClassName) -> Result<JsPiece, NoMemory>
    ensures { IfOk result (λ p. piece_view p ≡ pieces.store_piece class.now) }
{
    let cell = cell_name(alloc, class)?;
    let name = class_binding(alloc, ClassBinding::StoreModule, class)?;
    set_piece(alloc, class, name.as_str(), cell.as_str())
}

// `function g_C() { .. }`
fn load_piece(alloc: Global, class: &ClassName) -> Result<JsPiece, NoMemory>
    ensures { Makes piece_view result (pieces.load_piece class.now) }
{
    piece(
        alloc,
        bound(class, class_binding(alloc, ClassBinding::LoadModule, class)),
        three_bindings(
            alloc,
            bound(class, cell_name(alloc, class)),
            bound(class, init_name(alloc, class)),
            bound(class, class_binding(alloc, ClassBinding::Class, class)),
        ),
        function(
            alloc,
            class_binding(alloc, ClassBinding::LoadModule, class),
            no_parameters(alloc),
            load_body(alloc, class),
        ),
    )
}

fn load_body(alloc: Global, class: &ClassName) -> Result<Vec<JsStmt>, NoMemory>
    ensures { Makes (λ ss. statements_view ss.items) result (js.statement (pieces.fill_cell class.now (class_binding Instance class.now)) (js.statement (js.return_of (js.name_use (class_binding Instance class.now))) js.no_statements)) }
{
    two_statements(
        alloc,
        fill_cell(alloc, class),
        return_of(name_of(cell_name(alloc, class))),
    )
}

// `if ((n_C === null)) { const x = ct_C__<init>;V(new c_C()); n_C = x; }`
fn fill_cell(alloc: Global, class: &ClassName) -> Result<JsStmt, NoMemory>
    ensures { Makes statement_view result (pieces.fill_cell class.now (class_binding Instance class.now)) }
{
    if_only(
        is_null(alloc, name_of(cell_name(alloc, class))),
        two_statements(
            alloc,
            constant(text(alloc, "x"), made_instance(alloc, class)),
            assign(cell_name(alloc, class), name(alloc, "x")),
        ),
    )
}

// `ct_C__<init>;V(new c_C())`
fn made_instance(alloc: Global, class: &ClassName) -> Result<JsExpr, NoMemory>
    ensures { Makes expression_view result (pieces.made_instance class.now) }
{
    call(
        init_name(alloc, class),
        one_argument(
            alloc,
            new_of(
                class_binding(alloc, ClassBinding::Class, class),
                no_arguments(alloc),
            ),
        ),
    )
}

// The function of the constructor without parameters.
fn init_name(alloc: Global, class: &ClassName) -> Result<Text, NoMemory>
    ensures { IfOk result (λ name. name ≡ pieces.init_name class.now) }
{
    let member = Member {
        class: class.copied()?,
        namespace: Namespace::Constructor,
        method: init_method(alloc)?,
    };
    function_name(alloc, &member)
}

// `<init>;V`
fn init_method(alloc: Global) -> Result<MethodName, NoMemory>
    ensures { IfOk result (λ m. m ≡ pieces.init) }
{
    let simple = SimpleName::of_text(Text::from_str(alloc, INIT)?);
    let params = Shared::from_vec(Vec::new(alloc))?;
    Ok(MethodName {
        simple,
        params,
        result: Some(TypeRef::Void),
    })
}
