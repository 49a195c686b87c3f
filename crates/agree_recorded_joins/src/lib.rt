//! Recorded classes with joined texts and characters: what an independent reference of the profile has recorded that they show at the bounds 0, 1, 2, 3,
//! 10 and 50, and how their methods are printed.
//!
//! As in `agree_recorded`, for each class it is proved that its recorded file reads as the class; that the class shows what is recorded, and so
//! does the file of its functions, within the same bounds; that these functions have the recorded texts; and that class and file agree at
//! every bound, by the theorem on classes. The functions here are laws: they do nothing when they run, and their clauses are theorems.
#![tactic(auto)]

ghost use Rattle.std.specs.Prelude.{◌≡◌, Ok};
ghost use Rattle.outcomes.specs.Agreement.{Agree};
ghost use Rattle.agree_recorded.specs.Bounds.{class_within, class_shows, file_within, file_shows, function_texts};
ghost use Rattle.sj_read_spec.specs.Files.{file_of};
ghost use Rattle.agree_recorded_joins.specs.Files as files;
ghost use Rattle.agree_recorded_joins.specs.Recorded as recorded;
ghost use Rattle.agree_recorded_joins.specs.Texts as texts;

/// A parameter is tripled in a loop of three turns behind a call: both are going within the bound 3, and log `27` within 10.
pub fn tripled()
    ensures read { file_of files.tripled ≡ Ok recorded.tripled_class }
    ensures by_the_class { class_shows recorded.tripled_class ≡ recorded.tripled_shown }
    ensures by_the_file { file_shows recorded.tripled_class.methods ≡ recorded.tripled_shown }
    ensures printed { function_texts recorded.tripled_class.methods ≡ texts.tripled }
    ensures agree { Agree (class_within recorded.tripled_class) (file_within recorded.tripled_class.methods) }
{}

/// The call stands in front of the line that the right operand logs, and its result is kept in a temporary.
pub fn spilled_call()
    ensures read { file_of files.spilled_call ≡ Ok recorded.spilled_call_class }
    ensures by_the_class { class_shows recorded.spilled_call_class ≡ recorded.spilled_call_shown }
    ensures by_the_file { file_shows recorded.spilled_call_class.methods ≡ recorded.spilled_call_shown }
    ensures printed { function_texts recorded.spilled_call_class.methods ≡ texts.spilled_call }
    ensures agree { Agree (class_within recorded.spilled_call_class) (file_within recorded.spilled_call_class.methods) }
{}

/// A call stands in a call: both are going within the bound 2.
pub fn call_in_a_call()
    ensures read { file_of files.call_in_a_call ≡ Ok recorded.call_in_a_call_class }
    ensures by_the_class { class_shows recorded.call_in_a_call_class ≡ recorded.call_in_a_call_shown }
    ensures by_the_file { file_shows recorded.call_in_a_call_class.methods ≡ recorded.call_in_a_call_shown }
    ensures printed { function_texts recorded.call_in_a_call_class.methods ≡ texts.call_in_a_call }
    ensures agree { Agree (class_within recorded.call_in_a_call_class) (file_within recorded.call_in_a_call_class.methods) }
{}

/// A local gets the value with which its label is left.
pub fn left_with_a_value()
    ensures read { file_of files.left_with_a_value ≡ Ok recorded.left_with_a_value_class }
    ensures by_the_class { class_shows recorded.left_with_a_value_class ≡ recorded.left_with_a_value_shown }
    ensures by_the_file { file_shows recorded.left_with_a_value_class.methods ≡ recorded.left_with_a_value_shown }
    ensures printed { function_texts recorded.left_with_a_value_class.methods ≡ texts.left_with_a_value }
    ensures agree { Agree (class_within recorded.left_with_a_value_class) (file_within recorded.left_with_a_value_class.methods) }
{}

/// A match takes the case of its key; the value of another, whose default logs, is joined to a text.
pub fn matches_by_key()
    ensures read { file_of files.matches_by_key ≡ Ok recorded.matches_by_key_class }
    ensures by_the_class { class_shows recorded.matches_by_key_class ≡ recorded.matches_by_key_shown }
    ensures by_the_file { file_shows recorded.matches_by_key_class.methods ≡ recorded.matches_by_key_shown }
    ensures printed { function_texts recorded.matches_by_key_class.methods ≡ texts.matches_by_key }
    ensures agree { Agree (class_within recorded.matches_by_key_class) (file_within recorded.matches_by_key_class.methods) }
{}

/// Values of each kind are joined: null and undefined by their words, numbers in decimal, and a char as its unit, half of a pair too.
pub fn joined_values()
    ensures read { file_of files.joined_values ≡ Ok recorded.joined_values_class }
    ensures by_the_class { class_shows recorded.joined_values_class ≡ recorded.joined_values_shown }
    ensures by_the_file { file_shows recorded.joined_values_class.methods ≡ recorded.joined_values_shown }
    ensures printed { function_texts recorded.joined_values_class.methods ≡ texts.joined_values }
    ensures agree { Agree (class_within recorded.joined_values_class) (file_within recorded.joined_values_class.methods) }
{}

/// What an operand logs stands in front of the line of the joined text.
pub fn joined_behind_a_line()
    ensures read { file_of files.joined_behind_a_line ≡ Ok recorded.joined_behind_a_line_class }
    ensures by_the_class { class_shows recorded.joined_behind_a_line_class ≡ recorded.joined_behind_a_line_shown }
    ensures by_the_file { file_shows recorded.joined_behind_a_line_class.methods ≡ recorded.joined_behind_a_line_shown }
    ensures printed { function_texts recorded.joined_behind_a_line_class.methods ≡ texts.joined_behind_a_line }
    ensures agree { Agree (class_within recorded.joined_behind_a_line_class) (file_within recorded.joined_behind_a_line_class.methods) }
{}

/// A comparison of longs is compared to a boolean; null, whose operand logs, is joined to undefined.
pub fn joined_nulls()
    ensures read { file_of files.joined_nulls ≡ Ok recorded.joined_nulls_class }
    ensures by_the_class { class_shows recorded.joined_nulls_class ≡ recorded.joined_nulls_shown }
    ensures by_the_file { file_shows recorded.joined_nulls_class.methods ≡ recorded.joined_nulls_shown }
    ensures printed { function_texts recorded.joined_nulls_class.methods ≡ texts.joined_nulls }
    ensures agree { Agree (class_within recorded.joined_nulls_class) (file_within recorded.joined_nulls_class.methods) }
{}

/// Texts with a pair of units are joined unit for unit.
pub fn joined_letters()
    ensures read { file_of files.joined_letters ≡ Ok recorded.joined_letters_class }
    ensures by_the_class { class_shows recorded.joined_letters_class ≡ recorded.joined_letters_shown }
    ensures by_the_file { file_shows recorded.joined_letters_class.methods ≡ recorded.joined_letters_shown }
    ensures printed { function_texts recorded.joined_letters_class.methods ≡ texts.joined_letters }
    ensures agree { Agree (class_within recorded.joined_letters_class) (file_within recorded.joined_letters_class.methods) }
{}

/// An int becomes a char and is joined as its unit.
pub fn char_of_an_int()
    ensures read { file_of files.char_of_an_int ≡ Ok recorded.char_of_an_int_class }
    ensures by_the_class { class_shows recorded.char_of_an_int_class ≡ recorded.char_of_an_int_shown }
    ensures by_the_file { file_shows recorded.char_of_an_int_class.methods ≡ recorded.char_of_an_int_shown }
    ensures printed { function_texts recorded.char_of_an_int_class.methods ≡ texts.char_of_an_int }
    ensures agree { Agree (class_within recorded.char_of_an_int_class) (file_within recorded.char_of_an_int_class.methods) }
{}

/// A condition is the value of a label that is left behind a line.
pub fn left_behind_a_line()
    ensures read { file_of files.left_behind_a_line ≡ Ok recorded.left_behind_a_line_class }
    ensures by_the_class { class_shows recorded.left_behind_a_line_class ≡ recorded.left_behind_a_line_shown }
    ensures by_the_file { file_shows recorded.left_behind_a_line_class.methods ≡ recorded.left_behind_a_line_shown }
    ensures printed { function_texts recorded.left_behind_a_line_class.methods ≡ texts.left_behind_a_line }
    ensures agree { Agree (class_within recorded.left_behind_a_line_class) (file_within recorded.left_behind_a_line_class.methods) }
{}

/// A long that a call gives is joined to an int; the call has matches whose cases log.
pub fn calls_behind_calls()
    ensures read { file_of files.calls_behind_calls ≡ Ok recorded.calls_behind_calls_class }
    ensures by_the_class { class_shows recorded.calls_behind_calls_class ≡ recorded.calls_behind_calls_shown }
    ensures by_the_file { file_shows recorded.calls_behind_calls_class.methods ≡ recorded.calls_behind_calls_shown }
    ensures printed { function_texts recorded.calls_behind_calls_class.methods ≡ texts.calls_behind_calls }
    ensures agree { Agree (class_within recorded.calls_behind_calls_class) (file_within recorded.calls_behind_calls_class.methods) }
{}

/// A joined text is kept in a temporary in front of the line that its other operand logs.
pub fn kept_text()
    ensures read { file_of files.kept_text ≡ Ok recorded.kept_text_class }
    ensures by_the_class { class_shows recorded.kept_text_class ≡ recorded.kept_text_shown }
    ensures by_the_file { file_shows recorded.kept_text_class.methods ≡ recorded.kept_text_shown }
    ensures printed { function_texts recorded.kept_text_class.methods ≡ texts.kept_text }
    ensures agree { Agree (class_within recorded.kept_text_class) (file_within recorded.kept_text_class.methods) }
{}
