// Trees without trees in them.
ghost use Rattle.std.specs.Prelude.{◌≡◌};
ghost use Rattle.sj_trees.specs.View.{view};
ghost use Rattle.sj_read_spec.specs.Trees.{leaf_at};
ghost use Rattle.sj_read_trees.specs.Stops.{Gives};

use crate::fields::{
    mark_of, short_of, signed_byte_of, signed_long_of, signed_number_of, signed_short_of,
};
use crate::file_tables::FileTables;
use crate::stops::Stop;
use crate::tables::{class_name_of, field_name_of, local_name_of, units_of};
use crate::types::type_of;
use sj_trees::{LeafForm, Position, Tree};

// A form without trees in it.
#[tactic(auto, unfolding(sj_read_spec::specs::Trees::leaf_at))]
pub fn leaf_of<'a>(
    tables: &FileTables,
    tag: LeafForm,
    position: Position,
    bytes: &'a [u8],
) -> Result<(Tree, &'a [u8]), Stop>
    ensures { Gives (λ x. (view x.0, x.1.now)) result (leaf_at tables.now tag position bytes.now) }
{
    match tag {
        LeafForm::Skip => Ok((Tree::Skip { position }, bytes)),
        LeafForm::LoadModule => {
            let (class, rest) = class_name_of(tables.names(), bytes)?;
            Ok((Tree::LoadModule { position, class }, rest))
        }
        LeafForm::SelectStatic => {
            let (class, rest) = class_name_of(tables.names(), bytes)?;
            let (field, rest) = field_name_of(tables.names(), rest)?;
            let (tpe, rest) = type_of(tables.names(), rest)?;
            Ok((
                Tree::SelectStatic {
                    position,
                    class,
                    field,
                    tpe,
                },
                rest,
            ))
        }
        LeafForm::Undefined => Ok((Tree::Undefined { position }, bytes)),
        LeafForm::Null => Ok((Tree::Null { position }, bytes)),
        LeafForm::BooleanLiteral => {
            let (value, rest) = mark_of(bytes)?;
            Ok((Tree::BooleanLiteral { position, value }, rest))
        }
        LeafForm::CharLiteral => {
            let (value, rest) = short_of(bytes)?;
            Ok((Tree::CharLiteral { position, value }, rest))
        }
        LeafForm::ByteLiteral => {
            let (value, rest) = signed_byte_of(bytes)?;
            Ok((Tree::ByteLiteral { position, value }, rest))
        }
        LeafForm::ShortLiteral => {
            let (value, rest) = signed_short_of(bytes)?;
            Ok((Tree::ShortLiteral { position, value }, rest))
        }
        LeafForm::IntLiteral => {
            let (value, rest) = signed_number_of(bytes)?;
            Ok((Tree::IntLiteral { position, value }, rest))
        }
        LeafForm::LongLiteral => {
            let (value, rest) = signed_long_of(bytes)?;
            Ok((Tree::LongLiteral { position, value }, rest))
        }
        LeafForm::StringLiteral => {
            let (value, rest) = units_of(tables.strings(), bytes)?;
            Ok((Tree::StringLiteral { position, value }, rest))
        }
        LeafForm::VarRef => {
            let (name, rest) = local_name_of(tables.names(), bytes)?;
            let (tpe, rest) = type_of(tables.names(), rest)?;
            Ok((
                Tree::VarRef {
                    position,
                    name,
                    tpe,
                },
                rest,
            ))
        }
        LeafForm::This => {
            let (tpe, rest) = type_of(tables.names(), bytes)?;
            Ok((Tree::This { position, tpe }, rest))
        }
    }
}
