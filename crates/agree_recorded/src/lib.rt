//! Classes for which an independent reference of the profile has recorded what they show at the bounds 0, 1, 2, 3, 10 and 50, and how their
//! methods are printed. What is recorded is what the definitions come to.
//!
//! `specs/` has the classes and the records. For each class it is proved that its recorded file reads as the class; that the class shows what
//! is recorded, and so does the file of its functions, within the same bounds; that these functions have the recorded texts; and that class
//! and file agree at every bound, by the theorem on classes. Each class is `java.lang.Object`, and the initializer of the module `main` calls
//! its `main`. The file of its functions has those that are emitted for its methods by definition, and behind them the call of `main`. The
//! functions here are laws: they do nothing when they run, and their clauses are theorems.
#![tactic(auto)]

ghost use Rattle.std.specs.Prelude.{◌≡◌, true, codes, Ok};
ghost use Rattle.std.specs.List.{Contains};
ghost use Rattle.outcomes.specs.Agreement.{Agree};
ghost use Rattle.ir_mean.specs.Rows.{once};
ghost use Rattle.ir_mean.specs.Shows.{initializers, ir_shows};
ghost use Rattle.js_mean.specs.Shows.{js_shows};
ghost use Rattle.sj_read_spec.specs.Files.{file_of};
ghost use Rattle.agree_early_errors.specs.EmittedMethods.{EmittedMethod, HaveOwnMembers};
ghost use Rattle.agree_classes.specs.Files.{program_with};
ghost use Rattle.agree_classes.specs.Linked.{have_functions};
ghost use Rattle.agree_classes.specs.Worked.{worked_world, worked_methods};
ghost use Rattle.agree_classes.specs.Programs.{IsAccepted};
ghost use Rattle.sj_trees.specs.declared.classes.ClassDef.{ClassDef};
ghost use Rattle.agree_recorded.specs.Judged.{IsJudged};
ghost use Rattle.agree_recorded.specs.Bounds.{class_within, class_shows, file_within, file_shows, function_texts};
ghost use Rattle.agree_recorded.specs.Files as files;
ghost use Rattle.agree_recorded.specs.Texts as texts;
ghost use Rattle.agree_recorded.specs.Whole as whole;

/// `main` logs `hi`: the class and its file have shown nothing within the bound 0, and the line within each further one.
pub fn logs_hi()
    ensures read { file_of files.logs_hi ≡ Ok whole.logs_hi_class }
    ensures by_the_class { class_shows whole.logs_hi_class ≡ whole.logs_hi_shown }
    ensures by_the_file { file_shows whole.logs_hi_class.methods ≡ whole.logs_hi_shown }
    ensures printed { function_texts whole.logs_hi_class.methods ≡ texts.logs_hi }
    ensures agree { Agree (class_within whole.logs_hi_class) (file_within whole.logs_hi_class.methods) }
{}

/// `again` logs `x` and calls itself: from the bound 1 on both have shown a line less than the bound, and they are going at each.
pub fn calls_itself()
    ensures read { file_of files.calls_itself ≡ Ok whole.calls_itself_class }
    ensures by_the_class { class_shows whole.calls_itself_class ≡ whole.calls_itself_shown }
    ensures by_the_file { file_shows whole.calls_itself_class.methods ≡ whole.calls_itself_shown }
    ensures printed { function_texts whole.calls_itself_class.methods ≡ texts.calls_itself }
    ensures agree { Agree (class_within whole.calls_itself_class) (file_within whole.calls_itself_class.methods) }
{}

/// A line with half of a pair, which no text in UTF-8 has, is shown unit for unit.
pub fn odd_units()
    ensures read { file_of files.odd_units ≡ Ok whole.odd_units_class }
    ensures by_the_class { class_shows whole.odd_units_class ≡ whole.odd_units_shown }
    ensures by_the_file { file_shows whole.odd_units_class.methods ≡ whole.odd_units_shown }
    ensures printed { function_texts whole.odd_units_class.methods ≡ texts.odd_units }
    ensures agree { Agree (class_within whole.odd_units_class) (file_within whole.odd_units_class.methods) }
{}

/// The turn behind the first, whose condition doesn't hold, takes a unit: both are going within the bound 1.
pub fn one_turn()
    ensures read { file_of files.one_turn ≡ Ok whole.one_turn_class }
    ensures by_the_class { class_shows whole.one_turn_class ≡ whole.one_turn_shown }
    ensures by_the_file { file_shows whole.one_turn_class.methods ≡ whole.one_turn_shown }
    ensures printed { function_texts whole.one_turn_class.methods ≡ texts.one_turn }
    ensures agree { Agree (class_within whole.one_turn_class) (file_within whole.one_turn_class.methods) }
{}

/// Loops without a turn behind the first take no unit.
pub fn three_loops()
    ensures read { file_of files.three_loops ≡ Ok whole.three_loops_class }
    ensures by_the_class { class_shows whole.three_loops_class ≡ whole.three_loops_shown }
    ensures by_the_file { file_shows whole.three_loops_class.methods ≡ whole.three_loops_shown }
    ensures printed { function_texts whole.three_loops_class.methods ≡ texts.three_loops }
    ensures agree { Agree (class_within whole.three_loops_class) (file_within whole.three_loops_class.methods) }
{}

/// A local gets the value of a block that logs.
pub fn block_value()
    ensures read { file_of files.block_value ≡ Ok whole.block_value_class }
    ensures by_the_class { class_shows whole.block_value_class ≡ whole.block_value_shown }
    ensures by_the_file { file_shows whole.block_value_class.methods ≡ whole.block_value_shown }
    ensures printed { function_texts whole.block_value_class.methods ≡ texts.block_value }
    ensures agree { Agree (class_within whole.block_value_class) (file_within whole.block_value_class.methods) }
{}

/// Matches whose selectors have statements in them take the default, one inside the other.
pub fn spilled_matches()
    ensures read { file_of files.spilled_matches ≡ Ok whole.spilled_matches_class }
    ensures by_the_class { class_shows whole.spilled_matches_class ≡ whole.spilled_matches_shown }
    ensures by_the_file { file_shows whole.spilled_matches_class.methods ≡ whole.spilled_matches_shown }
    ensures printed { function_texts whole.spilled_matches_class.methods ≡ texts.spilled_matches }
    ensures agree { Agree (class_within whole.spilled_matches_class) (file_within whole.spilled_matches_class.methods) }
{}

/// A choice stands in a choice, inside an expression, and nothing leaves to the label around it.
pub fn choices()
    ensures read { file_of files.choices ≡ Ok whole.choices_class }
    ensures by_the_class { class_shows whole.choices_class ≡ whole.choices_shown }
    ensures by_the_file { file_shows whole.choices_class.methods ≡ whole.choices_shown }
    ensures printed { function_texts whole.choices_class.methods ≡ texts.choices }
    ensures agree { Agree (class_within whole.choices_class) (file_within whole.choices_class.methods) }
{}

/// A match without the key takes its default.
pub fn no_such_key()
    ensures read { file_of files.no_such_key ≡ Ok whole.no_such_key_class }
    ensures by_the_class { class_shows whole.no_such_key_class ≡ whole.no_such_key_shown }
    ensures by_the_file { file_shows whole.no_such_key_class.methods ≡ whole.no_such_key_shown }
    ensures printed { function_texts whole.no_such_key_class.methods ≡ texts.no_such_key }
    ensures agree { Agree (class_within whole.no_such_key_class) (file_within whole.no_such_key_class.methods) }
{}

/// A local gets the value of operators, and nothing is shown.
pub fn no_lines()
    ensures read { file_of files.no_lines ≡ Ok whole.no_lines_class }
    ensures by_the_class { class_shows whole.no_lines_class ≡ whole.no_lines_shown }
    ensures by_the_file { file_shows whole.no_lines_class.methods ≡ whole.no_lines_shown }
    ensures printed { function_texts whole.no_lines_class.methods ≡ texts.no_lines }
    ensures agree { Agree (class_within whole.no_lines_class) (file_within whole.no_lines_class.methods) }
{}

/// A condition that logs is evaluated once in each turn and once behind the last: both are going within the bound 3, and end within 10.
pub fn four_turns()
    ensures read { file_of files.four_turns ≡ Ok whole.four_turns_class }
    ensures by_the_class { class_shows whole.four_turns_class ≡ whole.four_turns_shown }
    ensures by_the_file { file_shows whole.four_turns_class.methods ≡ whole.four_turns_shown }
    ensures printed { function_texts whole.four_turns_class.methods ≡ texts.four_turns }
    ensures agree { Agree (class_within whole.four_turns_class) (file_within whole.four_turns_class.methods) }
{}

/// One branch of a choice logs, and the other is taken.
pub fn choice_with_lines()
    ensures read { file_of files.choice_with_lines ≡ Ok whole.choice_with_lines_class }
    ensures by_the_class { class_shows whole.choice_with_lines_class ≡ whole.choice_with_lines_shown }
    ensures by_the_file { file_shows whole.choice_with_lines_class.methods ≡ whole.choice_with_lines_shown }
    ensures printed { function_texts whole.choice_with_lines_class.methods ≡ texts.choice_with_lines }
    ensures agree { Agree (class_within whole.choice_with_lines_class) (file_within whole.choice_with_lines_class.methods) }
{}

/// The premises of the theorem on classes can be met: by the worked program, whose class breaks none of the local rules, and whose two methods
/// have the rows of typing. So its class and its file agree.
pub fn worked_classes_agree()
    ensures accepted { (e : EmittedMethod) → Contains worked_methods e → IsAccepted worked_world worked_world worked_methods e }
    ensures own_members { HaveOwnMembers worked_methods }
    ensures called { have_functions worked_methods (initializers once (codes "main")) ≡ true }
    ensures agree { Agree (ir_shows worked_world once (codes "main")) (js_shows (program_with (codes "main") worked_methods once) (codes "main")) }
{}

/// The premises of the theorem on classes that were read and judged can be met: by recorded files that read as classes which break none of the local
/// rules, with methods that are typed: one that logs, one that calls itself, one with a loop, and one with parameters and a label.
pub fn classes_that_were_read_agree()
    ensures logs { IsJudged whole.logs_hi_class }
    ensures calls { IsJudged whole.calls_itself_class }
    ensures loops { IsJudged whole.one_turn_class }
    ensures has_parameters { IsJudged whole.block_value_class }
    ensures agree { (c : ClassDef) → IsJudged c → Agree (class_within c) (file_within c.methods) }
{}
