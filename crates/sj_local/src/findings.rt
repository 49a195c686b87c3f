// What was found of each rule on trees.
ghost use Rattle.std.specs.Prelude.{◌≡◌};
ghost use Rattle.sj_local.specs.WalkParts.{noted, with_judgement, no_findings};
ghost use Rattle.sj_local.specs.MethodParts.{finding_of};

use crate::Rule;

/// Which rules a tree breaks.
#[derive(Clone, Copy, Drop)]
pub struct Judgement {
    pub definition: bool,
    pub variable: bool,
    pub return_label: bool,
    pub this: bool,
    pub store_module: bool,
    pub target: bool,
    pub keys: bool,
}

/// For each rule the number of the first tree that breaks it.
#[derive(Clone, Copy, Drop)]
pub struct Findings {
    pub definition: Option<u32>,
    pub variable: Option<u32>,
    pub return_label: Option<u32>,
    pub this: Option<u32>,
    pub store_module: Option<u32>,
    pub target: Option<u32>,
    pub keys: Option<u32>,
}

fn noted(number: u32, broken: bool, first: Option<u32>) -> Option<u32>
    ensures { result ≡ noted number broken first }
{
    match first {
        Some(first) => Some(first),
        None if broken => Some(number),
        None => None,
    }
}

impl Findings {
    pub fn new() -> Findings
        ensures { result ≡ no_findings }
    {
        Findings {
            definition: None,
            variable: None,
            return_label: None,
            this: None,
            store_module: None,
            target: None,
            keys: None,
        }
    }

    // The findings with those of the tree of this number.
    pub fn with(&self, number: u32, judgement: &Judgement) -> Findings
        ensures { result ≡ with_judgement number judgement.now self.now }
    {
        Findings {
            definition: noted(number, judgement.definition, self.definition),
            variable: noted(number, judgement.variable, self.variable),
            return_label: noted(number, judgement.return_label, self.return_label),
            this: noted(number, judgement.this, self.this),
            store_module: noted(number, judgement.store_module, self.store_module),
            target: noted(number, judgement.target, self.target),
            keys: noted(number, judgement.keys, self.keys),
        }
    }
}

/// What was found in a method: beside the rules above, the tree of the first declaration of what was declared already.
#[derive(Clone, Copy, Drop)]
pub struct MethodFindings {
    pub declared_twice: Option<u32>,
    pub findings: Findings,
}

impl MethodFindings {
    // What was found of a rule on trees.
    pub fn of_rule(&self, rule: Rule) -> Option<u32>
        ensures { result ≡ finding_of rule self.now }
    {
        match rule {
            Rule::DeclaredTwice => self.declared_twice,
            Rule::Definition => self.findings.definition,
            Rule::Variable => self.findings.variable,
            Rule::ReturnLabel => self.findings.return_label,
            Rule::This => self.findings.this,
            Rule::StoreModule => self.findings.store_module,
            Rule::Target => self.findings.target,
            Rule::Keys => self.findings.keys,
            _ => None,
        }
    }
}
