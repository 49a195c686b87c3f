// The trees of the generated classes.
ghost use Rattle.std.specs.Prelude.{◌≡◌, ◌≤◌, ◌<◌, IfOk};
ghost use Rattle.sj_trees.specs.View.{view};
ghost use Rattle.sj_gen.specs.Classes as spec;

use sj_names::{
    ClassName, LocalName, MethodName, Namespace, NoMemory, Shared, SimpleName, Text, TypeRef,
};
use sj_trees::{BinaryOp, IrType, Position, Tree};
use sj_units::Units;
use std::alloc::Global;

/// The one position in generated classes.
pub const NOWHERE: Position = Position {
    file: 0,
    line: 0,
    column: 0,
};

/// The name of the class of this number.
#[tactic(auto, using(crate::proofs::Names::numbered_class))]
pub fn class_name(alloc: Global, number: u32) -> Result<ClassName, NoMemory>
    ensures { IfOk result (λ name. name ≡ spec.class_name number) }
{
    let text = format!(in alloc; "G{number}")?;
    Ok(ClassName::of_text(Text::from_string(text)?))
}

/// The name of the function of each class.
pub fn function_name(alloc: Global) -> Result<MethodName, NoMemory>
    ensures { IfOk result (λ name. name ≡ spec.function_name) }
{
    let params = vec![in alloc; TypeRef::Int]?;
    Ok(MethodName {
        simple: SimpleName::of_text(Text::from_str(alloc, "f")?),
        params: Shared::from_vec(params)?,
        result: Some(TypeRef::Int),
    })
}

/// The name of the parameter.
pub fn parameter_name(alloc: Global) -> Result<LocalName, NoMemory>
    ensures { IfOk result (λ name. name ≡ spec.parameter_name) }
{
    Ok(LocalName::of_text(Text::from_str(alloc, "p")?))
}

fn parameter(alloc: Global) -> Result<Tree, NoMemory>
    ensures { IfOk result (λ tree. view tree ≡ spec.parameter) }
{
    Ok(Tree::VarRef {
        position: NOWHERE,
        name: parameter_name(alloc)?,
        tpe: IrType::Int,
    })
}

// An operation on the parameter and a number.
fn with_number(alloc: Global, operator: BinaryOp, number: i32) -> Result<Tree, NoMemory>
    ensures { IfOk result (λ tree. view tree ≡ spec.with_number operator number) }
{
    let left = Box::new(alloc, parameter(alloc)?)?;
    let right = Box::new(
        alloc,
        Tree::IntLiteral {
            position: NOWHERE,
            value: number,
        },
    )?;
    Ok(Tree::BinaryOp {
        position: NOWHERE,
        operator,
        left,
        right,
    })
}

// A call of the function of the class of this number.
fn call(alloc: Global, number: u32, argument: Tree) -> Result<Tree, NoMemory>
    ensures { IfOk result (λ tree. view tree ≡ spec.call_of number (view argument)) }
{
    let arguments = vec![in alloc; argument]?;
    Ok(Tree::ApplyStatic {
        position: NOWHERE,
        class: class_name(alloc, number)?,
        namespace: Namespace::PublicStatic,
        method: function_name(alloc)?,
        arguments,
        tpe: IrType::Int,
    })
}

/// The body of the function of the class of this number.
pub fn function_body(alloc: Global, number: u32, edited: bool) -> Result<Tree, NoMemory>
    requires { number ≤ 20000 }
    ensures { IfOk result (λ tree. view tree ≡ spec.body_of edited number) }
{
    if number > 0 {
        let argument = with_number(alloc, BinaryOp::IntAdd, number as i32)?;
        call(alloc, number - 1, argument)
    } else if edited {
        with_number(alloc, BinaryOp::IntMultiply, 2)
    } else {
        parameter(alloc)
    }
}

/// The body of the method that logs what the function of the last of `count` classes gives for 0.
pub fn main_body(alloc: Global, count: u32) -> Result<Tree, NoMemory>
    requires { 0 < count }
    ensures { IfOk result (λ tree. view tree ≡ spec.main_body count) }
{
    let value = call(
        alloc,
        count - 1,
        Tree::IntLiteral {
            position: NOWHERE,
            value: 0,
        },
    )?;
    let right = Box::new(alloc, value)?;
    let left = Box::new(alloc, empty_text(alloc)?)?;
    let text = Tree::BinaryOp {
        position: NOWHERE,
        operator: BinaryOp::StringConcatenate,
        left,
        right,
    };
    Ok(Tree::Log {
        position: NOWHERE,
        value: Box::new(alloc, text)?,
    })
}

fn empty_text(alloc: Global) -> Result<Tree, NoMemory>
    ensures { IfOk result (λ tree. view tree ≡ spec.empty_text) }
{
    Ok(Tree::StringLiteral {
        position: NOWHERE,
        value: Units::from_vec(Vec::new(alloc))?,
    })
}
