// The subtypes that a tree asks for.
ghost use Rattle.std.specs.Prelude.{◌≡◌, ◌++◌, ◌∷◌, [], IfOk, OnOk};
ghost use Rattle.sj_trees.specs.View.{view, terms_view, cases_view};
ghost use Rattle.sj_typing_spec.specs.Rows as rows;

use sj_names::{NoMemory, TypeRef};
use sj_trees::{IrType, MatchCase, Tree, type_of};
use sj_typing_spec::Fit;
use std::alloc::Global;

fn fit_of(alloc: Global, tree: &Tree, above: IrType) -> Result<Fit, NoMemory>
    ensures { IfOk result (λ f. f ≡ rows.fit (view tree.now) above) }
{
    Ok(Fit {
        sub: type_of(alloc, tree)?,
        above,
    })
}

/// Adds that the tree fits the type.
pub fn add_fit(
    alloc: Global,
    fits: &mut Vec<Fit>,
    tree: &Tree,
    above: IrType,
) -> Result<(), NoMemory>
    ensures { OnOk result (fits.new.items ≡ fits.old.items ++ rows.fit (view tree.now) above ∷ []) }
{
    fits.push(fit_of(alloc, tree, above)?)?;
    Ok(())
}

/// Adds that the tree yields the type.
pub fn add_yield(
    alloc: Global,
    fits: &mut Vec<Fit>,
    tree: &Tree,
    tpe: &IrType,
) -> Result<(), NoMemory>
    ensures { OnOk result (fits.new.items ≡ fits.old.items ++ rows.yield (view tree.now) tpe.now) }
{
    match tpe {
        IrType::NoType => Ok(()),
        _ => add_fit(alloc, fits, tree, tpe.copied()?),
    }
}

/// Adds that each tree fits the type.
pub fn add_all(
    alloc: Global,
    fits: &mut Vec<Fit>,
    trees: &[Tree],
    tpe: &IrType,
) -> Result<(), NoMemory>
    ensures { OnOk result (fits.new.items ≡ fits.old.items ++ rows.all_fit (terms_view trees.now) tpe.now) }
{
    for each in trees {
        add_fit(alloc, fits, each, tpe.copied()?)?;
    }
    Ok(())
}

/// Adds that the tree of each case yields the type.
pub fn add_cases(
    alloc: Global,
    fits: &mut Vec<Fit>,
    cases: &[MatchCase],
    tpe: &IrType,
) -> Result<(), NoMemory>
    ensures { OnOk result (fits.new.items ≡ fits.old.items ++ rows.cases_yield (cases_view cases.now) tpe.now) }
{
    for each in cases {
        add_yield(alloc, fits, &each.body, tpe)?;
    }
    Ok(())
}

/// Adds that each argument fits the type of its parameter.
pub fn add_arguments(
    alloc: Global,
    fits: &mut Vec<Fit>,
    trees: &[Tree],
    params: &[TypeRef],
) -> Result<(), NoMemory>
    ensures { OnOk result (fits.new.items ≡ fits.old.items ++ rows.arguments_fit (terms_view trees.now) params.now) }
{
    let count = trees.len().min(params.len());
    for i in 0..count {
        add_fit(alloc, fits, &trees[i], IrType::of_reference(&params[i])?)?;
    }
    Ok(())
}

/// Whether there are as many arguments as parameters.
pub fn are_as_many(trees: &[Tree], params: &[TypeRef]) -> bool
    ensures { result ≡ rows.are_as_many (terms_view trees.now) params.now }
{
    trees.len() == params.len()
}
