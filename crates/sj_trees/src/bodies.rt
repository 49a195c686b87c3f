// The body of a method: a contract sees of it the term of its tree.
ghost use Rattle.std.specs.Prelude.{◌≡◌, IfOk};
ghost use Rattle.sj_trees.specs.View.{view};

use crate::Tree;
use sj_names::NoMemory;
use std::alloc::Global;
use std::marker::Model;
use std::rc::Rc;

/// The body of a method. A copy shares its tree.
#[derive(Drop)]
pub struct Body {
    tree: Rc<Tree>,
}

impl Model for Body {
    ghost use Rattle.sj_trees.specs.Term.{Term};
    ghost use Rattle.sj_trees.specs.Code.{term_code};

    ghost Value = { Term };

    ghost coded = { term_code };

    ghost use Rattle.sj_trees.specs.View.{view as term_view};

    ghost view = { λ b. term_view b.tree.value };
}

impl Body {
    /// The body with this tree.
    pub fn new(alloc: Global, tree: Tree) -> Result<Body, NoMemory>
        ensures { IfOk result (λ b. b ≡ view tree) }
    {
        let tree = Rc::new(alloc, tree)?;
        Ok(Body { tree })
    }

    /// The tree of the body.
    pub fn tree(&self) -> &Tree
        ensures { view result.now ≡ self.now }
    {
        self.tree.as_ref()
    }

    /// The same body once more, which shares its tree.
    pub fn copied(&self) -> Result<Body, NoMemory>
        ensures { IfOk result (λ b. b ≡ self.now) }
    {
        let tree = self.tree.clone()?;
        Ok(Body { tree })
    }
}
