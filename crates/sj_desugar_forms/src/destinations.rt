// Where the value of a tree goes.
ghost use Rattle.std.specs.Prelude.{◌≡◌, ◌∷◌, IfOk, map};
ghost use Rattle.sj_desugar_spec.specs.Desugar as desugar;
ghost use Rattle.sj_desugar_forms.specs.Views.{destination_view, target_view};

use sj_core::CoreVariable;
use sj_names::{LabelName, NoMemory};
use sj_trees::IrType;
use std::alloc::Global;

/// Where the value of a tree goes.
#[derive(Drop)]
pub enum Destination {
    /// Nowhere.
    Discard,
    /// To a variable of this type.
    Variable(CoreVariable, IrType),
    /// Out of the method, whose result has this type.
    Result(IrType),
}

/// A label around a tree, and where a value that leaves to it goes.
#[derive(Drop)]
pub struct Target {
    pub label: LabelName,
    pub goes_to: Destination,
}

/// The same variable once more.
pub fn copied_variable(variable: &CoreVariable) -> Result<CoreVariable, NoMemory>
    ensures { IfOk result (λ v. v ≡ variable.now) }
{
    match variable {
        CoreVariable::Local(name) => Ok(CoreVariable::Local(name.copied()?)),
        CoreVariable::Numbered(number) => Ok(CoreVariable::Numbered(*number)),
        CoreVariable::Receiver => Ok(CoreVariable::Receiver),
    }
}

impl Destination {
    /// The same destination once more.
    pub fn copied(&self) -> Result<Destination, NoMemory>
        ensures { IfOk result (λ d. d ≡ self.now) }
    {
        match self {
            Destination::Discard => Ok(Destination::Discard),
            Destination::Variable(variable, tpe) => {
                let variable = copied_variable(variable)?;
                Ok(Destination::Variable(variable, tpe.copied()?))
            }
            Destination::Result(tpe) => Ok(Destination::Result(tpe.copied()?)),
        }
    }
}

impl Target {
    fn copied(&self) -> Result<Target, NoMemory>
        ensures { IfOk result (λ t. t ≡ self.now) }
    {
        let label = self.label.copied()?;
        let goes_to = self.goes_to.copied()?;
        Ok(Target { label, goes_to })
    }
}

/// The targets with a label in front of them.
pub fn with_label(
    alloc: Global,
    label: &LabelName,
    goes_to: &Destination,
    targets: &[Target],
) -> Result<Vec<Target>, NoMemory>
    ensures { IfOk result (λ ts. ts.items ≡ (record { label = label.now; goes_to = goes_to.now }) ∷ targets.now) }
{
    let mut inner = Vec::new(alloc);
    inner.push(new_target(label, goes_to)?)?;
    for target in targets {
        inner.push(target.copied()?)?;
    }
    Ok(inner)
}

fn new_target(label: &LabelName, goes_to: &Destination) -> Result<Target, NoMemory>
    ensures { IfOk result (λ t. t ≡ record { label = label.now; goes_to = goes_to.now }) }
{
    let label = label.copied()?;
    let goes_to = goes_to.copied()?;
    Ok(Target { label, goes_to })
}

/// Where a value that leaves to a label goes: nowhere if the label isn't there.
pub fn target_of(targets: &[Target], label: &LabelName) -> Result<Destination, NoMemory>
    ensures { IfOk result (λ d. destination_view d ≡ desugar.target_of (map target_view targets.now) label.now) }
{
    for target in targets {
        if label.is_same(&target.label) {
            return Ok(target.goes_to.copied()?);
        }
    }
    Ok(Destination::Discard)
}
