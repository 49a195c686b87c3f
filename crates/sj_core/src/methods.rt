// Methods of the core.
use crate::CoreStatement;
use sj_names::{Items, LocalName, Namespace};

/// A method: its namespace, its parameters, and the statements of its body.
#[derive(Drop)]
pub struct CoreMethod {
    pub namespace: Namespace,
    pub params: Items<LocalName>,
    pub body: Vec<CoreStatement>,
}
