// The least class of each component.
ghost use Rattle.std.specs.Prelude.{◌≡◌, ◌<◌, ℕ, List, length, Contains};
ghost use Rattle.number_graphs.specs.Graphs.{At, AreComponents};
ghost use Rattle.class_numbers.specs.Numbering.{IsNumbering};
ghost use Rattle.sj_split.specs.Walks.{References, IsLeastOfComponent};
ghost use Rattle.sj_split.specs.Steps.{AreFirsts, AreLeast, IsLowered};

use class_numbers::ClassNumbers;
use sj_names::ClassName;

/// For each component the number of its class with the least name. `firsts` has a number of each.
pub fn least_classes(numbers: &ClassNumbers, of: &[usize], firsts: Vec<usize>) -> Vec<usize>
    requires whole { length of.now ≡ length numbers.now.classes.keys }
    requires firsts { AreFirsts of.now firsts.items }
    ensures { AreLeast numbers.now.classes.keys of.now result.items }
{
    let mut least = firsts;
    for number in 0..of.len() {
        lower(numbers, of[number], number, &mut least);
    }
    least
}

// Takes the number for the least of its component, if its name stands in front of that of the least so far.
fn lower(numbers: &ClassNumbers, component: usize, number: usize, least: &mut Vec<usize>)
    requires component { component < length least.now.items }
    requires number { number < length numbers.now.classes.keys }
    requires least { (place one : ℕ) → At least.now.items place one → one < length numbers.now.classes.keys }
    ensures { IsLowered numbers.now.classes.keys component number least.old.items least.new.items }
{
    if numbers.class(number) < numbers.class(least[component]) {
        least[component] = number;
    }
}

/// The class of the least name in the component of `class`.
pub fn least_of_component<'n>(
    numbers: &'n ClassNumbers,
    of: &[usize],
    least: &[usize],
    class: &ClassName,
) -> &'n ClassName
    requires inside { Contains numbers.now.classes.keys class.now }
    requires whole { length of.now ≡ length numbers.now.classes.keys }
    requires least { AreLeast numbers.now.classes.keys of.now least.now }
    ensures { (references : References) (firsts : List ℕ) → IsNumbering references numbers.now → AreComponents numbers.now.next.items of.now firsts → IsLeastOfComponent references class.now result.now }
{
    numbers.class(least[of[numbers.number_of(class)]])
}
