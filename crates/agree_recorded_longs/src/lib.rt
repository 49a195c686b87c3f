//! Recorded classes with operators on longs: what an independent reference of the profile has recorded that they show at the bounds 0, 1, 2, 3,
//! 10 and 50, and how their methods are printed.
//!
//! As in `agree_recorded`, for each class it is proved that its recorded file reads as the class; that the class shows what is recorded, and so
//! does the file of its functions, within the same bounds; that these functions have the recorded texts; and that class and file agree at
//! every bound, by the theorem on classes. The functions here are laws: they do nothing when they run, and their clauses are theorems.
#![tactic(auto)]

ghost use Rattle.std.specs.Prelude.{◌≡◌, Ok};
ghost use Rattle.outcomes.specs.Agreement.{Agree};
ghost use Rattle.agree_recorded.specs.Bounds.{class_within, class_shows, file_within, file_shows, function_texts};
ghost use Rattle.sj_read_spec.specs.Files.{file_of};
ghost use Rattle.agree_recorded_longs.specs.Files as files;
ghost use Rattle.agree_recorded_longs.specs.Recorded as recorded;
ghost use Rattle.agree_recorded_longs.specs.Texts as texts;

/// The least int by -1 is the least int, and the remainder of -4 by 2 is zero and logged without a sign.
pub fn least_int_divided()
    ensures read { file_of files.least_int_divided ≡ Ok recorded.least_int_divided_class }
    ensures by_the_class { class_shows recorded.least_int_divided_class ≡ recorded.least_int_divided_shown }
    ensures by_the_file { file_shows recorded.least_int_divided_class.methods ≡ recorded.least_int_divided_shown }
    ensures printed { function_texts recorded.least_int_divided_class.methods ≡ texts.least_int_divided }
    ensures agree { Agree (class_within recorded.least_int_divided_class) (file_within recorded.least_int_divided_class.methods) }
{}

/// Products, shifts and quotients of the least long: a shift by 64 moves nothing, one by 65 moves by one place, and the quotient by -1 wraps.
pub fn least_long()
    ensures read { file_of files.least_long ≡ Ok recorded.least_long_class }
    ensures by_the_class { class_shows recorded.least_long_class ≡ recorded.least_long_shown }
    ensures by_the_file { file_shows recorded.least_long_class.methods ≡ recorded.least_long_shown }
    ensures printed { function_texts recorded.least_long_class.methods ≡ texts.least_long }
    ensures agree { Agree (class_within recorded.least_long_class) (file_within recorded.least_long_class.methods) }
{}

/// A shift by 128 moves nothing; a loop logs its count, and a jump leaves it behind the third.
pub fn three_counted()
    ensures read { file_of files.three_counted ≡ Ok recorded.three_counted_class }
    ensures by_the_class { class_shows recorded.three_counted_class ≡ recorded.three_counted_shown }
    ensures by_the_file { file_shows recorded.three_counted_class.methods ≡ recorded.three_counted_shown }
    ensures printed { function_texts recorded.three_counted_class.methods ≡ texts.three_counted }
    ensures agree { Agree (class_within recorded.three_counted_class) (file_within recorded.three_counted_class.methods) }
{}

/// A method takes a char and a long, and its short is joined to a char.
pub fn char_argument()
    ensures read { file_of files.char_argument ≡ Ok recorded.char_argument_class }
    ensures by_the_class { class_shows recorded.char_argument_class ≡ recorded.char_argument_shown }
    ensures by_the_file { file_shows recorded.char_argument_class.methods ≡ recorded.char_argument_shown }
    ensures printed { function_texts recorded.char_argument_class.methods ≡ texts.char_argument }
    ensures agree { Agree (class_within recorded.char_argument_class) (file_within recorded.char_argument_class.methods) }
{}

/// A long is kept in a temporary behind a line and compared to the long that a match gives.
pub fn compared_longs()
    ensures read { file_of files.compared_longs ≡ Ok recorded.compared_longs_class }
    ensures by_the_class { class_shows recorded.compared_longs_class ≡ recorded.compared_longs_shown }
    ensures by_the_file { file_shows recorded.compared_longs_class.methods ≡ recorded.compared_longs_shown }
    ensures printed { function_texts recorded.compared_longs_class.methods ≡ texts.compared_longs }
    ensures agree { Agree (class_within recorded.compared_longs_class) (file_within recorded.compared_longs_class.methods) }
{}

/// The branch with the product of longs isn't taken; the condition of the loop in the other logs in each turn.
pub fn turns_in_a_choice()
    ensures read { file_of files.turns_in_a_choice ≡ Ok recorded.turns_in_a_choice_class }
    ensures by_the_class { class_shows recorded.turns_in_a_choice_class ≡ recorded.turns_in_a_choice_shown }
    ensures by_the_file { file_shows recorded.turns_in_a_choice_class.methods ≡ recorded.turns_in_a_choice_shown }
    ensures printed { function_texts recorded.turns_in_a_choice_class.methods ≡ texts.turns_in_a_choice }
    ensures agree { Agree (class_within recorded.turns_in_a_choice_class) (file_within recorded.turns_in_a_choice_class.methods) }
{}

/// A product of ints becomes a long, and is compared to one.
pub fn int_as_long()
    ensures read { file_of files.int_as_long ≡ Ok recorded.int_as_long_class }
    ensures by_the_class { class_shows recorded.int_as_long_class ≡ recorded.int_as_long_shown }
    ensures by_the_file { file_shows recorded.int_as_long_class.methods ≡ recorded.int_as_long_shown }
    ensures printed { function_texts recorded.int_as_long_class.methods ≡ texts.int_as_long }
    ensures agree { Agree (class_within recorded.int_as_long_class) (file_within recorded.int_as_long_class.methods) }
{}

/// A long becomes an int, and that a byte.
pub fn long_as_byte()
    ensures read { file_of files.long_as_byte ≡ Ok recorded.long_as_byte_class }
    ensures by_the_class { class_shows recorded.long_as_byte_class ≡ recorded.long_as_byte_shown }
    ensures by_the_file { file_shows recorded.long_as_byte_class.methods ≡ recorded.long_as_byte_shown }
    ensures printed { function_texts recorded.long_as_byte_class.methods ≡ texts.long_as_byte }
    ensures agree { Agree (class_within recorded.long_as_byte_class) (file_within recorded.long_as_byte_class.methods) }
{}

/// The condition of a loop holds a match; an argument that logs stands in front of its call.
pub fn match_in_a_condition()
    ensures read { file_of files.match_in_a_condition ≡ Ok recorded.match_in_a_condition_class }
    ensures by_the_class { class_shows recorded.match_in_a_condition_class ≡ recorded.match_in_a_condition_shown }
    ensures by_the_file { file_shows recorded.match_in_a_condition_class.methods ≡ recorded.match_in_a_condition_shown }
    ensures printed { function_texts recorded.match_in_a_condition_class.methods ≡ texts.match_in_a_condition }
    ensures agree { Agree (class_within recorded.match_in_a_condition_class) (file_within recorded.match_in_a_condition_class.methods) }
{}

/// A choice between longs is compared to a long, beside a boolean whose value logs.
pub fn greater_long()
    ensures read { file_of files.greater_long ≡ Ok recorded.greater_long_class }
    ensures by_the_class { class_shows recorded.greater_long_class ≡ recorded.greater_long_shown }
    ensures by_the_file { file_shows recorded.greater_long_class.methods ≡ recorded.greater_long_shown }
    ensures printed { function_texts recorded.greater_long_class.methods ≡ texts.greater_long }
    ensures agree { Agree (class_within recorded.greater_long_class) (file_within recorded.greater_long_class.methods) }
{}

/// Nothing is shown; a method that nothing calls has differences, products, remainders and shifts of longs, and another gives a char.
pub fn longs_unread()
    ensures read { file_of files.longs_unread ≡ Ok recorded.longs_unread_class }
    ensures by_the_class { class_shows recorded.longs_unread_class ≡ recorded.longs_unread_shown }
    ensures by_the_file { file_shows recorded.longs_unread_class.methods ≡ recorded.longs_unread_shown }
    ensures printed { function_texts recorded.longs_unread_class.methods ≡ texts.longs_unread }
    ensures agree { Agree (class_within recorded.longs_unread_class) (file_within recorded.longs_unread_class.methods) }
{}

/// A branch that joins a char isn't taken; a method that nothing calls shifts a long.
pub fn long_moved_left()
    ensures read { file_of files.long_moved_left ≡ Ok recorded.long_moved_left_class }
    ensures by_the_class { class_shows recorded.long_moved_left_class ≡ recorded.long_moved_left_shown }
    ensures by_the_file { file_shows recorded.long_moved_left_class.methods ≡ recorded.long_moved_left_shown }
    ensures printed { function_texts recorded.long_moved_left_class.methods ≡ texts.long_moved_left }
    ensures agree { Agree (class_within recorded.long_moved_left_class) (file_within recorded.long_moved_left_class.methods) }
{}
