// A member of a class as it stands in a file.
use sj_trees::{FieldDef, MethodDef};

/// A member of a class.
#[derive(Drop)]
pub enum MemberDef {
    Field(FieldDef),
    Method(MethodDef),
}
