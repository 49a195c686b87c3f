// The labels around a tree.
use sj_names::LabelName;
use sj_trees::IrType;

/// A label and the type of its block.
#[derive(Drop)]
pub struct Label {
    pub name: LabelName,
    pub tpe: IrType,
}
