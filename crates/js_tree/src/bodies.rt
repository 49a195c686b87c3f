//! The statements of a function, shared by all that hold them.
ghost use Rattle.std.specs.Prelude.{◌≡◌, IfOk};
ghost use Rattle.js_tree.specs.Views.{body_view, statements_view};

use crate::statements::JsStmt;
use sj_names::NoMemory;
use std::alloc::Global;
use std::rc::Rc;

/// The statements of a function, a method or a constructor. A copy shares them.
#[derive(Drop)]
pub struct JsBody {
    statements: Rc<Vec<JsStmt>>,
}

impl JsBody {
    /// The body of these statements.
    pub fn new(alloc: Global, statements: Vec<JsStmt>) -> Result<JsBody, NoMemory>
        ensures { IfOk result (λ b. body_view b ≡ statements_view statements.items) }
    {
        let statements = Rc::new(alloc, statements)?;
        Ok(JsBody { statements })
    }

    /// The statements as a slice.
    pub fn as_slice(&self) -> &[JsStmt]
        ensures { statements_view result.now ≡ body_view self.now }
    {
        self.statements.as_ref().as_slice()
    }

    /// The same body once more.
    pub fn copied(&self) -> Result<JsBody, NoMemory>
        ensures { IfOk result (λ b. body_view b ≡ body_view self.now) }
    {
        let statements = self.statements.clone()?;
        Ok(JsBody { statements })
    }
}
