// Forms without trees in them.
ghost use Rattle.std.specs.Prelude.{◌≡◌};
ghost use Rattle.sj_trees.specs.View.{view};
ghost use Rattle.text_scan.specs.Gives.{Gives};
ghost use Rattle.sj_text_spec.specs.Reading as reading;
ghost use Rattle.sj_trees.specs.declared.forms.LeafForm.TheVariants as leaves;

use sj_text_parts::{
    byte_field, char_field, class_field, field_field, int_field, long_field, mark_field,
    name_field, short_field, string_field, type_field,
};
use sj_trees::{LeafForm, Position, Tree};
use std::alloc::Global;
use text_scan::{Stop, literal};

/// What a reader of trees gives: the tree and the rest.
pub type Read<'a> = Result<(Tree, &'a [u8]), Stop>;

/// The position that a listing gives.
pub const NOWHERE: Position = Position {
    file: 0,
    line: 0,
    column: 0,
};

/// The tree, behind the closing parenthesis.
pub fn ended_tree<'a>(tree: Tree, bytes: &'a [u8]) -> Read<'a>
    ensures { Gives (λ x. (view x.0, x.1.now)) result (reading.close_at (view tree) bytes.now) }
{
    let rest = literal(b")", bytes)?;
    Ok((tree, rest))
}

#[tactic(auto, unfolding(sj_text_spec::specs::Reading::leaf_at))]
fn load_module_of<'a>(alloc: Global, fuel: usize, bytes: &'a [u8]) -> Read<'a>
    ensures { Gives (λ x. (view x.0, x.1.now)) result (reading.leaf_at (reading.tree_at fuel) fuel leaves.LoadModule bytes.now) }
{
    let (class, rest) = class_field(alloc, fuel, bytes)?;
    ended_tree(
        Tree::LoadModule {
            position: NOWHERE,
            class,
        },
        rest,
    )
}

#[tactic(auto, unfolding(sj_text_spec::specs::Reading::leaf_at))]
fn select_static_of<'a>(alloc: Global, fuel: usize, bytes: &'a [u8]) -> Read<'a>
    ensures { Gives (λ x. (view x.0, x.1.now)) result (reading.leaf_at (reading.tree_at fuel) fuel leaves.SelectStatic bytes.now) }
{
    let (class, rest) = class_field(alloc, fuel, bytes)?;
    let (field, rest) = field_field(alloc, fuel, rest)?;
    let (tpe, rest) = type_field(alloc, fuel, rest)?;
    ended_tree(
        Tree::SelectStatic {
            position: NOWHERE,
            class,
            field,
            tpe,
        },
        rest,
    )
}

#[tactic(auto, unfolding(sj_text_spec::specs::Reading::leaf_at))]
fn string_literal_of<'a>(alloc: Global, fuel: usize, bytes: &'a [u8]) -> Read<'a>
    ensures { Gives (λ x. (view x.0, x.1.now)) result (reading.leaf_at (reading.tree_at fuel) fuel leaves.StringLiteral bytes.now) }
{
    let (text, rest) = string_field(alloc, fuel, bytes)?;
    ended_tree(
        Tree::StringLiteral {
            position: NOWHERE,
            value: text,
        },
        rest,
    )
}

#[tactic(auto, unfolding(sj_text_spec::specs::Reading::leaf_at))]
fn var_ref_of<'a>(alloc: Global, fuel: usize, bytes: &'a [u8]) -> Read<'a>
    ensures { Gives (λ x. (view x.0, x.1.now)) result (reading.leaf_at (reading.tree_at fuel) fuel leaves.VarRef bytes.now) }
{
    let (name, rest) = name_field(alloc, fuel, bytes)?;
    let (tpe, rest) = type_field(alloc, fuel, rest)?;
    ended_tree(
        Tree::VarRef {
            position: NOWHERE,
            name,
            tpe,
        },
        rest,
    )
}

#[tactic(auto, unfolding(sj_text_spec::specs::Reading::leaf_at))]
fn this_of<'a>(alloc: Global, fuel: usize, bytes: &'a [u8]) -> Read<'a>
    ensures { Gives (λ x. (view x.0, x.1.now)) result (reading.leaf_at (reading.tree_at fuel) fuel leaves.This bytes.now) }
{
    let (tpe, rest) = type_field(alloc, fuel, bytes)?;
    ended_tree(
        Tree::This {
            position: NOWHERE,
            tpe,
        },
        rest,
    )
}

/// A form without trees in it, behind its name.
#[tactic(auto, unfolding(sj_text_spec::specs::Reading::leaf_at))]
pub fn leaf_of<'a>(alloc: Global, fuel: usize, form: LeafForm, bytes: &'a [u8]) -> Read<'a>
    ensures { Gives (λ x. (view x.0, x.1.now)) result (reading.leaf_at (reading.tree_at fuel) fuel form bytes.now) }
{
    match form {
        LeafForm::Skip => ended_tree(Tree::Skip { position: NOWHERE }, bytes),
        LeafForm::LoadModule => load_module_of(alloc, fuel, bytes),
        LeafForm::SelectStatic => select_static_of(alloc, fuel, bytes),
        LeafForm::Undefined => ended_tree(Tree::Undefined { position: NOWHERE }, bytes),
        LeafForm::Null => ended_tree(Tree::Null { position: NOWHERE }, bytes),
        LeafForm::BooleanLiteral => {
            let (value, rest) = mark_field(bytes)?;
            ended_tree(
                Tree::BooleanLiteral {
                    position: NOWHERE,
                    value,
                },
                rest,
            )
        }
        LeafForm::CharLiteral => {
            let (value, rest) = char_field(bytes)?;
            ended_tree(
                Tree::CharLiteral {
                    position: NOWHERE,
                    value,
                },
                rest,
            )
        }
        LeafForm::ByteLiteral => {
            let (value, rest) = byte_field(bytes)?;
            ended_tree(
                Tree::ByteLiteral {
                    position: NOWHERE,
                    value,
                },
                rest,
            )
        }
        LeafForm::ShortLiteral => {
            let (value, rest) = short_field(bytes)?;
            ended_tree(
                Tree::ShortLiteral {
                    position: NOWHERE,
                    value,
                },
                rest,
            )
        }
        LeafForm::IntLiteral => {
            let (value, rest) = int_field(bytes)?;
            ended_tree(
                Tree::IntLiteral {
                    position: NOWHERE,
                    value,
                },
                rest,
            )
        }
        LeafForm::LongLiteral => {
            let (value, rest) = long_field(bytes)?;
            ended_tree(
                Tree::LongLiteral {
                    position: NOWHERE,
                    value,
                },
                rest,
            )
        }
        LeafForm::StringLiteral => string_literal_of(alloc, fuel, bytes),
        LeafForm::VarRef => var_ref_of(alloc, fuel, bytes),
        LeafForm::This => this_of(alloc, fuel, bytes),
    }
}
