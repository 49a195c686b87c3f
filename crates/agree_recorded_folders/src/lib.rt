//! Recorded folders by the two meanings: what the classes of a folder show within bounds, and what the files that were put for it show.
//!
//! The folders and the answers are of an independent reference. The functions here are laws.
#![tactic(auto)]

ghost use Rattle.std.specs.Prelude.{◌≡◌, true, false, [], ◌∷◌, codes};
ghost use Rattle.outcomes.specs.Outcome.{Going, Done};
ghost use Rattle.outcomes.specs.Shown.{normal, uncaught};
ghost use Rattle.outcomes.specs.Shown as shown;
ghost use Rattle.ir_mean.specs.Shows.{ir_shows};
ghost use Rattle.js_mean.specs.Shows.{js_shows};
ghost use Rattle.agree_recorded_folders.specs.StaticsRow01Classes as statics_row_01_classes;
ghost use Rattle.agree_recorded_folders.specs.StaticsRow01Files as statics_row_01_files;
ghost use Rattle.agree_recorded_folders.specs.StaticsRow06UnusedClasses as statics_row_06_unused_classes;
ghost use Rattle.agree_recorded_folders.specs.StaticsRow06UnusedFiles as statics_row_06_unused_files;
ghost use Rattle.agree_recorded_folders.specs.StaticsRow07Classes as statics_row_07_classes;
ghost use Rattle.agree_recorded_folders.specs.StaticsRow07Files as statics_row_07_files;
ghost use Rattle.agree_recorded_folders.specs.StaticsRow08Classes as statics_row_08_classes;
ghost use Rattle.agree_recorded_folders.specs.StaticsRow08Files as statics_row_08_files;
ghost use Rattle.agree_recorded_folders.specs.StaticsRow15Classes as statics_row_15_classes;
ghost use Rattle.agree_recorded_folders.specs.StaticsRow15Files as statics_row_15_files;
ghost use Rattle.agree_recorded_folders.specs.StaticsRow20Classes as statics_row_20_classes;
ghost use Rattle.agree_recorded_folders.specs.StaticsRow20Files as statics_row_20_files;
ghost use Rattle.agree_recorded_folders.specs.StaticsRowOneClasses as statics_row_one_classes;
ghost use Rattle.agree_recorded_folders.specs.StaticsRowOneFiles as statics_row_one_files;
ghost use Rattle.agree_recorded_folders.specs.StaticsOperatorsClasses as statics_operators_classes;
ghost use Rattle.agree_recorded_folders.specs.StaticsOperatorsFiles as statics_operators_files;
ghost use Rattle.agree_recorded_folders.specs.StaticsMutualCallsClasses as statics_mutual_calls_classes;
ghost use Rattle.agree_recorded_folders.specs.StaticsMutualCallsFiles as statics_mutual_calls_files;
ghost use Rattle.agree_recorded_folders.specs.StaticsEntriesInOrderClasses as statics_entries_in_order_classes;
ghost use Rattle.agree_recorded_folders.specs.StaticsEntriesInOrderFiles as statics_entries_in_order_files;
ghost use Rattle.agree_recorded_folders.specs.StaticsStrangeNamesClasses as statics_strange_names_classes;
ghost use Rattle.agree_recorded_folders.specs.StaticsStrangeNamesFiles as statics_strange_names_files;
ghost use Rattle.agree_recorded_folders.specs.StaticsCaseWithoutKeysClasses as statics_case_without_keys_classes;
ghost use Rattle.agree_recorded_folders.specs.StaticsCaseWithoutKeysFiles as statics_case_without_keys_files;
ghost use Rattle.agree_recorded_folders.specs.StaticsRandom00Classes as statics_random_00_classes;
ghost use Rattle.agree_recorded_folders.specs.StaticsRandom00Files as statics_random_00_files;
ghost use Rattle.agree_recorded_folders.specs.ObjectsBridgesClasses as objects_bridges_classes;
ghost use Rattle.agree_recorded_folders.specs.ObjectsBridgesFiles as objects_bridges_files;
ghost use Rattle.agree_recorded_folders.specs.ObjectsByteAndShortClasses as objects_byte_and_short_classes;
ghost use Rattle.agree_recorded_folders.specs.ObjectsByteAndShortFiles as objects_byte_and_short_files;
ghost use Rattle.agree_recorded_folders.specs.ObjectsCallsByClassClasses as objects_calls_by_class_classes;
ghost use Rattle.agree_recorded_folders.specs.ObjectsCallsByClassFiles as objects_calls_by_class_files;
ghost use Rattle.agree_recorded_folders.specs.ObjectsControlClasses as objects_control_classes;
ghost use Rattle.agree_recorded_folders.specs.ObjectsControlFiles as objects_control_files;
ghost use Rattle.agree_recorded_folders.specs.ObjectsDivisionsClasses as objects_divisions_classes;
ghost use Rattle.agree_recorded_folders.specs.ObjectsDivisionsFiles as objects_divisions_files;
ghost use Rattle.agree_recorded_folders.specs.ObjectsFieldsClasses as objects_fields_classes;
ghost use Rattle.agree_recorded_folders.specs.ObjectsFieldsFiles as objects_fields_files;
ghost use Rattle.agree_recorded_folders.specs.ObjectsIdentityAndCharsClasses as objects_identity_and_chars_classes;
ghost use Rattle.agree_recorded_folders.specs.ObjectsIdentityAndCharsFiles as objects_identity_and_chars_files;
ghost use Rattle.agree_recorded_folders.specs.ObjectsNullReceiversClasses as objects_null_receivers_classes;
ghost use Rattle.agree_recorded_folders.specs.ObjectsNullReceiversFiles as objects_null_receivers_files;
ghost use Rattle.agree_recorded_folders.specs.ObjectsReflectiveCallsClasses as objects_reflective_calls_classes;
ghost use Rattle.agree_recorded_folders.specs.ObjectsReflectiveCallsFiles as objects_reflective_calls_files;
ghost use Rattle.agree_recorded_folders.specs.ObjectsRow19Classes as objects_row_19_classes;
ghost use Rattle.agree_recorded_folders.specs.ObjectsRow19Files as objects_row_19_files;
ghost use Rattle.agree_recorded_folders.specs.ObjectsRowTwoClasses as objects_row_two_classes;
ghost use Rattle.agree_recorded_folders.specs.ObjectsRowTwoFiles as objects_row_two_files;
ghost use Rattle.agree_recorded_folders.specs.ObjectsRowFourClasses as objects_row_four_classes;
ghost use Rattle.agree_recorded_folders.specs.ObjectsRowFourFiles as objects_row_four_files;
ghost use Rattle.agree_recorded_folders.specs.ObjectsUncaughtObjectClasses as objects_uncaught_object_classes;
ghost use Rattle.agree_recorded_folders.specs.ObjectsUncaughtObjectFiles as objects_uncaught_object_files;
ghost use Rattle.agree_recorded_folders.specs.ObjectsSuperclassThatIsnTMadeClasses as objects_superclass_that_isn_t_made_classes;
ghost use Rattle.agree_recorded_folders.specs.ObjectsSuperclassThatIsnTMadeFiles as objects_superclass_that_isn_t_made_files;
ghost use Rattle.agree_recorded_folders.specs.ExceptionsArrayValuesTestsAndCastsClasses as exceptions_array_values_tests_and_casts_classes;
ghost use Rattle.agree_recorded_folders.specs.ExceptionsArrayValuesTestsAndCastsFiles as exceptions_array_values_tests_and_casts_files;
ghost use Rattle.agree_recorded_folders.specs.ExceptionsArraysClasses as exceptions_arrays_classes;
ghost use Rattle.agree_recorded_folders.specs.ExceptionsArraysFiles as exceptions_arrays_files;
ghost use Rattle.agree_recorded_folders.specs.ExceptionsThrownClasses as exceptions_thrown_classes;
ghost use Rattle.agree_recorded_folders.specs.ExceptionsThrownFiles as exceptions_thrown_files;
ghost use Rattle.agree_recorded_folders.specs.ExceptionsFinalizerJumpClasses as exceptions_finalizer_jump_classes;
ghost use Rattle.agree_recorded_folders.specs.ExceptionsFinalizerJumpFiles as exceptions_finalizer_jump_files;
ghost use Rattle.agree_recorded_folders.specs.ExceptionsFinalizerThrowClasses as exceptions_finalizer_throw_classes;
ghost use Rattle.agree_recorded_folders.specs.ExceptionsFinalizerThrowFiles as exceptions_finalizer_throw_files;
ghost use Rattle.agree_recorded_folders.specs.ExceptionsFinalizerValueClasses as exceptions_finalizer_value_classes;
ghost use Rattle.agree_recorded_folders.specs.ExceptionsFinalizerValueFiles as exceptions_finalizer_value_files;
ghost use Rattle.agree_recorded_folders.specs.ExceptionsFinalizerInlinedClasses as exceptions_finalizer_inlined_classes;
ghost use Rattle.agree_recorded_folders.specs.ExceptionsFinalizerInlinedFiles as exceptions_finalizer_inlined_files;
ghost use Rattle.agree_recorded_folders.specs.ExceptionsModulesClasses as exceptions_modules_classes;
ghost use Rattle.agree_recorded_folders.specs.ExceptionsModulesFiles as exceptions_modules_files;
ghost use Rattle.agree_recorded_folders.specs.ExceptionsNullPointerBoundsClasses as exceptions_null_pointer_bounds_classes;
ghost use Rattle.agree_recorded_folders.specs.ExceptionsNullPointerBoundsFiles as exceptions_null_pointer_bounds_files;
ghost use Rattle.agree_recorded_folders.specs.ExceptionsRow13Classes as exceptions_row_13_classes;
ghost use Rattle.agree_recorded_folders.specs.ExceptionsRow13Files as exceptions_row_13_files;
ghost use Rattle.agree_recorded_folders.specs.ExceptionsRow14Classes as exceptions_row_14_classes;
ghost use Rattle.agree_recorded_folders.specs.ExceptionsRow14Files as exceptions_row_14_files;
ghost use Rattle.agree_recorded_folders.specs.ExceptionsRow17Classes as exceptions_row_17_classes;
ghost use Rattle.agree_recorded_folders.specs.ExceptionsRow17Files as exceptions_row_17_files;
ghost use Rattle.agree_recorded_folders.specs.ExceptionsRandom00Classes as exceptions_random_00_classes;
ghost use Rattle.agree_recorded_folders.specs.ExceptionsRandom00Files as exceptions_random_00_files;
ghost use Rattle.agree_recorded_folders.specs.ExceptionsRandom01Classes as exceptions_random_01_classes;
ghost use Rattle.agree_recorded_folders.specs.ExceptionsRandom01Files as exceptions_random_01_files;
ghost use Rattle.agree_recorded_folders.specs.SplitsRow16FirstClasses as splits_row_16_first_classes;
ghost use Rattle.agree_recorded_folders.specs.SplitsRow16FirstFiles as splits_row_16_first_files;
ghost use Rattle.agree_recorded_folders.specs.SplitsRow16FirstSmallestClasses as splits_row_16_first_smallest_classes;
ghost use Rattle.agree_recorded_folders.specs.SplitsRow16FirstSmallestFiles as splits_row_16_first_smallest_files;
ghost use Rattle.agree_recorded_folders.specs.SplitsRow19SmallestClasses as splits_row_19_smallest_classes;
ghost use Rattle.agree_recorded_folders.specs.SplitsRow19SmallestFiles as splits_row_19_smallest_files;
ghost use Rattle.agree_recorded_folders.specs.SplitsModulesSmallestClasses as splits_modules_smallest_classes;
ghost use Rattle.agree_recorded_folders.specs.SplitsModulesSmallestFiles as splits_modules_smallest_files;
ghost use Rattle.agree_recorded_folders.specs.SplitsSuperclassElsewhereSmallestClasses as splits_superclass_elsewhere_smallest_classes;
ghost use Rattle.agree_recorded_folders.specs.SplitsSuperclassElsewhereSmallestFiles as splits_superclass_elsewhere_smallest_files;
ghost use Rattle.agree_recorded_folders.specs.SplitsTwoEntriesFewestClasses as splits_two_entries_fewest_classes;
ghost use Rattle.agree_recorded_folders.specs.SplitsTwoEntriesFewestFiles as splits_two_entries_fewest_files;

/// The recorded folder `link-r6/row-01`: what its classes show, and what its files show.
pub fn statics_row_01()
    ensures main_within_0 { ir_shows (statics_row_01_classes.classes) (statics_row_01_classes.entries) (codes "main") 0 ≡ record { lines = []; end = Going } }
    ensures main_within_1 { ir_shows (statics_row_01_classes.classes) (statics_row_01_classes.entries) (codes "main") 1 ≡ record { lines = ((codes "hi") ∷ []); end = Done normal } }
    ensures main_within_2 { ir_shows (statics_row_01_classes.classes) (statics_row_01_classes.entries) (codes "main") 2 ≡ record { lines = ((codes "hi") ∷ []); end = Done normal } }
    ensures main_within_3 { ir_shows (statics_row_01_classes.classes) (statics_row_01_classes.entries) (codes "main") 3 ≡ record { lines = ((codes "hi") ∷ []); end = Done normal } }
    ensures main_within_5 { ir_shows (statics_row_01_classes.classes) (statics_row_01_classes.entries) (codes "main") 5 ≡ record { lines = ((codes "hi") ∷ []); end = Done normal } }
    ensures main_within_10 { ir_shows (statics_row_01_classes.classes) (statics_row_01_classes.entries) (codes "main") 10 ≡ record { lines = ((codes "hi") ∷ []); end = Done normal } }
    ensures main_within_50 { ir_shows (statics_row_01_classes.classes) (statics_row_01_classes.entries) (codes "main") 50 ≡ record { lines = ((codes "hi") ∷ []); end = Done normal } }
    ensures main_within_300 { ir_shows (statics_row_01_classes.classes) (statics_row_01_classes.entries) (codes "main") 300 ≡ record { lines = ((codes "hi") ∷ []); end = Done normal } }
    ensures main_files { js_shows (statics_row_01_files.files) (codes "main") 100 ≡ record { lines = ((codes "hi") ∷ []); end = Done normal } }
{}

/// The recorded folder `link-r6/row-06-unused`: what its classes show, and what its files show.
pub fn statics_row_06_unused()
    ensures main_within_0 { ir_shows (statics_row_06_unused_classes.classes) (statics_row_06_unused_classes.entries) (codes "main") 0 ≡ record { lines = []; end = Going } }
    ensures main_within_1 { ir_shows (statics_row_06_unused_classes.classes) (statics_row_06_unused_classes.entries) (codes "main") 1 ≡ record { lines = ((codes "hi") ∷ []); end = Done normal } }
    ensures main_within_2 { ir_shows (statics_row_06_unused_classes.classes) (statics_row_06_unused_classes.entries) (codes "main") 2 ≡ record { lines = ((codes "hi") ∷ []); end = Done normal } }
    ensures main_within_3 { ir_shows (statics_row_06_unused_classes.classes) (statics_row_06_unused_classes.entries) (codes "main") 3 ≡ record { lines = ((codes "hi") ∷ []); end = Done normal } }
    ensures main_within_5 { ir_shows (statics_row_06_unused_classes.classes) (statics_row_06_unused_classes.entries) (codes "main") 5 ≡ record { lines = ((codes "hi") ∷ []); end = Done normal } }
    ensures main_within_10 { ir_shows (statics_row_06_unused_classes.classes) (statics_row_06_unused_classes.entries) (codes "main") 10 ≡ record { lines = ((codes "hi") ∷ []); end = Done normal } }
    ensures main_within_50 { ir_shows (statics_row_06_unused_classes.classes) (statics_row_06_unused_classes.entries) (codes "main") 50 ≡ record { lines = ((codes "hi") ∷ []); end = Done normal } }
    ensures main_within_300 { ir_shows (statics_row_06_unused_classes.classes) (statics_row_06_unused_classes.entries) (codes "main") 300 ≡ record { lines = ((codes "hi") ∷ []); end = Done normal } }
    ensures main_files { js_shows (statics_row_06_unused_files.files) (codes "main") 100 ≡ record { lines = ((codes "hi") ∷ []); end = Done normal } }
{}

/// The recorded folder `link-r6/row-07`: what its classes show, and what its files show.
pub fn statics_row_07()
    ensures main_within_0 { ir_shows (statics_row_07_classes.classes) (statics_row_07_classes.entries) (codes "main") 0 ≡ record { lines = []; end = Going } }
    ensures main_within_1 { ir_shows (statics_row_07_classes.classes) (statics_row_07_classes.entries) (codes "main") 1 ≡ record { lines = ((codes "-2147483648") ∷ (codes "0") ∷ []); end = Done normal } }
    ensures main_within_2 { ir_shows (statics_row_07_classes.classes) (statics_row_07_classes.entries) (codes "main") 2 ≡ record { lines = ((codes "-2147483648") ∷ (codes "0") ∷ []); end = Done normal } }
    ensures main_within_3 { ir_shows (statics_row_07_classes.classes) (statics_row_07_classes.entries) (codes "main") 3 ≡ record { lines = ((codes "-2147483648") ∷ (codes "0") ∷ []); end = Done normal } }
    ensures main_within_5 { ir_shows (statics_row_07_classes.classes) (statics_row_07_classes.entries) (codes "main") 5 ≡ record { lines = ((codes "-2147483648") ∷ (codes "0") ∷ []); end = Done normal } }
    ensures main_within_10 { ir_shows (statics_row_07_classes.classes) (statics_row_07_classes.entries) (codes "main") 10 ≡ record { lines = ((codes "-2147483648") ∷ (codes "0") ∷ []); end = Done normal } }
    ensures main_within_50 { ir_shows (statics_row_07_classes.classes) (statics_row_07_classes.entries) (codes "main") 50 ≡ record { lines = ((codes "-2147483648") ∷ (codes "0") ∷ []); end = Done normal } }
    ensures main_within_300 { ir_shows (statics_row_07_classes.classes) (statics_row_07_classes.entries) (codes "main") 300 ≡ record { lines = ((codes "-2147483648") ∷ (codes "0") ∷ []); end = Done normal } }
    ensures main_files { js_shows (statics_row_07_files.files) (codes "main") 100 ≡ record { lines = ((codes "-2147483648") ∷ (codes "0") ∷ []); end = Done normal } }
{}

/// The recorded folder `link-r6/row-08`: what its classes show, and what its files show.
pub fn statics_row_08()
    ensures main_within_0 { ir_shows (statics_row_08_classes.classes) (statics_row_08_classes.entries) (codes "main") 0 ≡ record { lines = []; end = Going } }
    ensures main_within_1 { ir_shows (statics_row_08_classes.classes) (statics_row_08_classes.entries) (codes "main") 1 ≡ record { lines = ((codes "-9223372036854775808") ∷ (codes "-9223372036854775808") ∷ (codes "4611686018427387904") ∷ []); end = Done normal } }
    ensures main_within_2 { ir_shows (statics_row_08_classes.classes) (statics_row_08_classes.entries) (codes "main") 2 ≡ record { lines = ((codes "-9223372036854775808") ∷ (codes "-9223372036854775808") ∷ (codes "4611686018427387904") ∷ []); end = Done normal } }
    ensures main_within_3 { ir_shows (statics_row_08_classes.classes) (statics_row_08_classes.entries) (codes "main") 3 ≡ record { lines = ((codes "-9223372036854775808") ∷ (codes "-9223372036854775808") ∷ (codes "4611686018427387904") ∷ []); end = Done normal } }
    ensures main_within_5 { ir_shows (statics_row_08_classes.classes) (statics_row_08_classes.entries) (codes "main") 5 ≡ record { lines = ((codes "-9223372036854775808") ∷ (codes "-9223372036854775808") ∷ (codes "4611686018427387904") ∷ []); end = Done normal } }
    ensures main_within_10 { ir_shows (statics_row_08_classes.classes) (statics_row_08_classes.entries) (codes "main") 10 ≡ record { lines = ((codes "-9223372036854775808") ∷ (codes "-9223372036854775808") ∷ (codes "4611686018427387904") ∷ []); end = Done normal } }
    ensures main_within_50 { ir_shows (statics_row_08_classes.classes) (statics_row_08_classes.entries) (codes "main") 50 ≡ record { lines = ((codes "-9223372036854775808") ∷ (codes "-9223372036854775808") ∷ (codes "4611686018427387904") ∷ []); end = Done normal } }
    ensures main_within_300 { ir_shows (statics_row_08_classes.classes) (statics_row_08_classes.entries) (codes "main") 300 ≡ record { lines = ((codes "-9223372036854775808") ∷ (codes "-9223372036854775808") ∷ (codes "4611686018427387904") ∷ []); end = Done normal } }
    ensures main_files { js_shows (statics_row_08_files.files) (codes "main") 100 ≡ record { lines = ((codes "-9223372036854775808") ∷ (codes "-9223372036854775808") ∷ (codes "4611686018427387904") ∷ []); end = Done normal } }
{}

/// The recorded folder `link-r6/row-15`: what its classes show, and what its files show.
pub fn statics_row_15()
    ensures main_within_0 { ir_shows (statics_row_15_classes.classes) (statics_row_15_classes.entries) (codes "main") 0 ≡ record { lines = []; end = Going } }
    ensures main_within_1 { ir_shows (statics_row_15_classes.classes) (statics_row_15_classes.entries) (codes "main") 1 ≡ record { lines = ((0 ∷ 55296 ∷ 8232 ∷ 34 ∷ []) ∷ []); end = Done normal } }
    ensures main_within_2 { ir_shows (statics_row_15_classes.classes) (statics_row_15_classes.entries) (codes "main") 2 ≡ record { lines = ((0 ∷ 55296 ∷ 8232 ∷ 34 ∷ []) ∷ []); end = Done normal } }
    ensures main_within_3 { ir_shows (statics_row_15_classes.classes) (statics_row_15_classes.entries) (codes "main") 3 ≡ record { lines = ((0 ∷ 55296 ∷ 8232 ∷ 34 ∷ []) ∷ []); end = Done normal } }
    ensures main_within_5 { ir_shows (statics_row_15_classes.classes) (statics_row_15_classes.entries) (codes "main") 5 ≡ record { lines = ((0 ∷ 55296 ∷ 8232 ∷ 34 ∷ []) ∷ []); end = Done normal } }
    ensures main_within_10 { ir_shows (statics_row_15_classes.classes) (statics_row_15_classes.entries) (codes "main") 10 ≡ record { lines = ((0 ∷ 55296 ∷ 8232 ∷ 34 ∷ []) ∷ []); end = Done normal } }
    ensures main_within_50 { ir_shows (statics_row_15_classes.classes) (statics_row_15_classes.entries) (codes "main") 50 ≡ record { lines = ((0 ∷ 55296 ∷ 8232 ∷ 34 ∷ []) ∷ []); end = Done normal } }
    ensures main_within_300 { ir_shows (statics_row_15_classes.classes) (statics_row_15_classes.entries) (codes "main") 300 ≡ record { lines = ((0 ∷ 55296 ∷ 8232 ∷ 34 ∷ []) ∷ []); end = Done normal } }
    ensures main_files { js_shows (statics_row_15_files.files) (codes "main") 100 ≡ record { lines = ((0 ∷ 55296 ∷ 8232 ∷ 34 ∷ []) ∷ []); end = Done normal } }
{}

/// The recorded folder `link-r6/row-20`: what its classes show, and what its files show.
pub fn statics_row_20()
    ensures main_within_0 { ir_shows (statics_row_20_classes.classes) (statics_row_20_classes.entries) (codes "main") 0 ≡ record { lines = []; end = Going } }
    ensures main_within_1 { ir_shows (statics_row_20_classes.classes) (statics_row_20_classes.entries) (codes "main") 1 ≡ record { lines = []; end = Going } }
    ensures main_within_2 { ir_shows (statics_row_20_classes.classes) (statics_row_20_classes.entries) (codes "main") 2 ≡ record { lines = []; end = Going } }
    ensures main_within_3 { ir_shows (statics_row_20_classes.classes) (statics_row_20_classes.entries) (codes "main") 3 ≡ record { lines = ((codes "x") ∷ (codes "3") ∷ []); end = Done normal } }
    ensures main_within_5 { ir_shows (statics_row_20_classes.classes) (statics_row_20_classes.entries) (codes "main") 5 ≡ record { lines = ((codes "x") ∷ (codes "3") ∷ []); end = Done normal } }
    ensures main_within_10 { ir_shows (statics_row_20_classes.classes) (statics_row_20_classes.entries) (codes "main") 10 ≡ record { lines = ((codes "x") ∷ (codes "3") ∷ []); end = Done normal } }
    ensures main_within_50 { ir_shows (statics_row_20_classes.classes) (statics_row_20_classes.entries) (codes "main") 50 ≡ record { lines = ((codes "x") ∷ (codes "3") ∷ []); end = Done normal } }
    ensures main_within_300 { ir_shows (statics_row_20_classes.classes) (statics_row_20_classes.entries) (codes "main") 300 ≡ record { lines = ((codes "x") ∷ (codes "3") ∷ []); end = Done normal } }
    ensures main_files { js_shows (statics_row_20_files.files) (codes "main") 100 ≡ record { lines = ((codes "x") ∷ (codes "3") ∷ []); end = Done normal } }
{}

/// The recorded folder `link-r6/row-r3-1`: what its classes show, and what its files show.
pub fn statics_row_one()
    ensures main_within_0 { ir_shows (statics_row_one_classes.classes) (statics_row_one_classes.entries) (codes "main") 0 ≡ record { lines = []; end = Going } }
    ensures main_within_1 { ir_shows (statics_row_one_classes.classes) (statics_row_one_classes.entries) (codes "main") 1 ≡ record { lines = []; end = Going } }
    ensures main_within_2 { ir_shows (statics_row_one_classes.classes) (statics_row_one_classes.entries) (codes "main") 2 ≡ record { lines = []; end = Going } }
    ensures main_within_3 { ir_shows (statics_row_one_classes.classes) (statics_row_one_classes.entries) (codes "main") 3 ≡ record { lines = []; end = Going } }
    ensures main_within_5 { ir_shows (statics_row_one_classes.classes) (statics_row_one_classes.entries) (codes "main") 5 ≡ record { lines = ((codes "27") ∷ []); end = Done normal } }
    ensures main_within_10 { ir_shows (statics_row_one_classes.classes) (statics_row_one_classes.entries) (codes "main") 10 ≡ record { lines = ((codes "27") ∷ []); end = Done normal } }
    ensures main_within_50 { ir_shows (statics_row_one_classes.classes) (statics_row_one_classes.entries) (codes "main") 50 ≡ record { lines = ((codes "27") ∷ []); end = Done normal } }
    ensures main_within_300 { ir_shows (statics_row_one_classes.classes) (statics_row_one_classes.entries) (codes "main") 300 ≡ record { lines = ((codes "27") ∷ []); end = Done normal } }
    ensures main_files { js_shows (statics_row_one_files.files) (codes "main") 100 ≡ record { lines = ((codes "27") ∷ []); end = Done normal } }
{}

/// The recorded folder `link-r6/operators`: what its classes show, and what its files show.
pub fn statics_operators()
    ensures main_within_0 { ir_shows (statics_operators_classes.classes) (statics_operators_classes.entries) (codes "main") 0 ≡ record { lines = []; end = Going } }
    ensures main_within_1 { ir_shows (statics_operators_classes.classes) (statics_operators_classes.entries) (codes "main") 1 ≡ record { lines = []; end = Going } }
    ensures main_within_2 { ir_shows (statics_operators_classes.classes) (statics_operators_classes.entries) (codes "main") 2 ≡ record { lines = ((codes "8 4") ∷ (codes "9 10") ∷ (codes "10 -21") ∷ (codes "13 -1") ∷ (codes "14 5") ∷ (codes "15 -6") ∷ (codes "16 -536870912") ∷ (codes "17 0") ∷ (codes "18 0") ∷ (codes "19 false") ∷ (codes "20 true") ∷ (codes "21 false") ∷ (codes "22 false") ∷ (codes "23 true") ∷ (codes "24 true") ∷ (codes "8 2147483647") ∷ (codes "9 -2147483647") ∷ (codes "10 -2147483648") ∷ (codes "13 -1") ∷ (codes "14 -2147483648") ∷ (codes "15 2147483647") ∷ (codes "16 0") ∷ (codes "17 1") ∷ (codes "18 -1") ∷ (codes "19 false") ∷ (codes "20 true") ∷ (codes "21 true") ∷ (codes "22 true") ∷ (codes "23 false") ∷ (codes "24 false") ∷ (codes "8 -2147483616") ∷ (codes "9 2147483614") ∷ (codes "10 2147483615") ∷ (codes "13 2147483647") ∷ (codes "14 33") ∷ (codes "15 2147483614") ∷ (codes "16 -2") ∷ (codes "17 1073741823") ∷ (codes "18 1073741823") ∷ (codes "19 false") ∷ (codes "20 true") ∷ (codes "21 false") ∷ (codes "22 false") ∷ (codes "23 true") ∷ (codes "24 true") ∷ (codes "8 5") ∷ (codes "9 5") ∷ (codes "10 0") ∷ (codes "13 5") ∷ (codes "14 0") ∷ (codes "15 5") ∷ (codes "16 5") ∷ (codes "17 5") ∷ (codes "18 5") ∷ (codes "19 false") ∷ (codes "20 true") ∷ (codes "21 false") ∷ (codes "22 false") ∷ (codes "23 true") ∷ (codes "24 true") ∷ (codes "25 4") ∷ (codes "26 10") ∷ (codes "27 -21") ∷ (codes "30 -1") ∷ (codes "31 5") ∷ (codes "32 -6") ∷ (codes "33 -2305843009213693952") ∷ (codes "34 0") ∷ (codes "35 0") ∷ (codes "36 false") ∷ (codes "37 true") ∷ (codes "38 false") ∷ (codes "39 false") ∷ (codes "40 true") ∷ (codes "41 true") ∷ (codes "25 9223372036854775807") ∷ (codes "26 -9223372036854775807") ∷ (codes "27 -9223372036854775808") ∷ (codes "30 -1") ∷ (codes "31 -9223372036854775808") ∷ (codes "32 9223372036854775807") ∷ (codes "33 0") ∷ (codes "34 1") ∷ (codes "35 -1") ∷ (codes "36 false") ∷ (codes "37 true") ∷ (codes "38 true") ∷ (codes "39 true") ∷ (codes "40 false") ∷ (codes "41 false") ∷ (codes "25 -9223372036854775744") ∷ (codes "26 9223372036854775742") ∷ (codes "27 9223372036854775743") ∷ (codes "30 9223372036854775807") ∷ (codes "31 65") ∷ (codes "32 9223372036854775742") ∷ (codes "33 -2") ∷ (codes "34 4611686018427387903") ∷ (codes "35 4611686018427387903") ∷ (codes "36 false") ∷ (codes "37 true") ∷ (codes "38 false") ∷ (codes "39 false") ∷ (codes "40 true") ∷ (codes "41 true") ∷ (codes "25 5") ∷ (codes "26 5") ∷ (codes "27 0") ∷ (codes "30 5") ∷ (codes "31 0") ∷ (codes "32 5") ∷ (codes "33 5") ∷ (codes "34 5") ∷ (codes "35 5") ∷ (codes "36 false") ∷ (codes "37 true") ∷ (codes "38 false") ∷ (codes "39 false") ∷ (codes "40 true") ∷ (codes "41 true") ∷ (codes "4 true") ∷ (codes "5 false") ∷ (codes "6 true") ∷ (codes "7 true") ∷ (codes "1 false") ∷ (codes "4 false") ∷ (codes "5 true") ∷ (codes "6 true") ∷ (codes "7 false") ∷ (codes "1 false") ∷ (codes "4 false") ∷ (codes "5 true") ∷ (codes "6 true") ∷ (codes "7 false") ∷ (codes "1 true") ∷ (codes "4 true") ∷ (codes "5 false") ∷ (codes "6 false") ∷ (codes "7 false") ∷ (codes "1 true") ∷ (codes "u5 97") ∷ (codes "u6 a") ∷ (codes "u7 97") ∷ (codes "u8 97") ∷ (codes "u2 97") ∷ (codes "u3 97") ∷ (codes "u4 97") ∷ (codes "u9 97") ∷ (codes "u5 -1") ∷ (117 ∷ 54 ∷ 32 ∷ 65535 ∷ []) ∷ (codes "u7 -1") ∷ (codes "u8 -1") ∷ (codes "u2 65535") ∷ (codes "u3 -1") ∷ (codes "u4 -1") ∷ (codes "u9 -1") ∷ (codes "u5 32768") ∷ (117 ∷ 54 ∷ 32 ∷ 32768 ∷ []) ∷ (codes "u7 0") ∷ (codes "u8 -32768") ∷ (codes "u2 32768") ∷ (codes "u3 0") ∷ (codes "u4 -32768") ∷ (codes "u9 32768") ∷ (codes "u5 2147483647") ∷ (117 ∷ 54 ∷ 32 ∷ 65535 ∷ []) ∷ (codes "u7 -1") ∷ (codes "u8 -1") ∷ (codes "u2 65535") ∷ (codes "u3 -1") ∷ (codes "u4 -1") ∷ (codes "u9 2147483647") ∷ (codes "f8 -4") ∷ (codes "f9 -10") ∷ (codes "f10 -21") ∷ (codes "f11 -2") ∷ (codes "f12 -1") ∷ (codes "f13 -5") ∷ (codes "f14 1") ∷ (codes "f15 -6") ∷ (codes "f16 -56") ∷ (codes "f17 536870911") ∷ (codes "f18 -1") ∷ (codes "f19 false") ∷ (codes "f20 true") ∷ (codes "f21 true") ∷ (codes "f22 true") ∷ (codes "f23 false") ∷ (codes "f24 false") ∷ (codes "f25 -4") ∷ (codes "f26 -10") ∷ (codes "f27 -21") ∷ (codes "f28 -2") ∷ (codes "f29 -1") ∷ (codes "f30 -5") ∷ (codes "f31 1") ∷ (codes "f32 -6") ∷ (codes "f33 -56") ∷ (codes "f34 2305843009213693951") ∷ (codes "f35 -1") ∷ (codes "f36 false") ∷ (codes "f37 true") ∷ (codes "f38 true") ∷ (codes "f39 true") ∷ (codes "f40 false") ∷ (codes "f41 false") ∷ (codes "f4 false") ∷ (codes "f5 true") ∷ (codes "f6 true") ∷ (codes "f7 false") ∷ []); end = Done normal } }
    ensures main_within_3 { ir_shows (statics_operators_classes.classes) (statics_operators_classes.entries) (codes "main") 3 ≡ record { lines = ((codes "8 4") ∷ (codes "9 10") ∷ (codes "10 -21") ∷ (codes "13 -1") ∷ (codes "14 5") ∷ (codes "15 -6") ∷ (codes "16 -536870912") ∷ (codes "17 0") ∷ (codes "18 0") ∷ (codes "19 false") ∷ (codes "20 true") ∷ (codes "21 false") ∷ (codes "22 false") ∷ (codes "23 true") ∷ (codes "24 true") ∷ (codes "8 2147483647") ∷ (codes "9 -2147483647") ∷ (codes "10 -2147483648") ∷ (codes "13 -1") ∷ (codes "14 -2147483648") ∷ (codes "15 2147483647") ∷ (codes "16 0") ∷ (codes "17 1") ∷ (codes "18 -1") ∷ (codes "19 false") ∷ (codes "20 true") ∷ (codes "21 true") ∷ (codes "22 true") ∷ (codes "23 false") ∷ (codes "24 false") ∷ (codes "8 -2147483616") ∷ (codes "9 2147483614") ∷ (codes "10 2147483615") ∷ (codes "13 2147483647") ∷ (codes "14 33") ∷ (codes "15 2147483614") ∷ (codes "16 -2") ∷ (codes "17 1073741823") ∷ (codes "18 1073741823") ∷ (codes "19 false") ∷ (codes "20 true") ∷ (codes "21 false") ∷ (codes "22 false") ∷ (codes "23 true") ∷ (codes "24 true") ∷ (codes "8 5") ∷ (codes "9 5") ∷ (codes "10 0") ∷ (codes "13 5") ∷ (codes "14 0") ∷ (codes "15 5") ∷ (codes "16 5") ∷ (codes "17 5") ∷ (codes "18 5") ∷ (codes "19 false") ∷ (codes "20 true") ∷ (codes "21 false") ∷ (codes "22 false") ∷ (codes "23 true") ∷ (codes "24 true") ∷ (codes "25 4") ∷ (codes "26 10") ∷ (codes "27 -21") ∷ (codes "30 -1") ∷ (codes "31 5") ∷ (codes "32 -6") ∷ (codes "33 -2305843009213693952") ∷ (codes "34 0") ∷ (codes "35 0") ∷ (codes "36 false") ∷ (codes "37 true") ∷ (codes "38 false") ∷ (codes "39 false") ∷ (codes "40 true") ∷ (codes "41 true") ∷ (codes "25 9223372036854775807") ∷ (codes "26 -9223372036854775807") ∷ (codes "27 -9223372036854775808") ∷ (codes "30 -1") ∷ (codes "31 -9223372036854775808") ∷ (codes "32 9223372036854775807") ∷ (codes "33 0") ∷ (codes "34 1") ∷ (codes "35 -1") ∷ (codes "36 false") ∷ (codes "37 true") ∷ (codes "38 true") ∷ (codes "39 true") ∷ (codes "40 false") ∷ (codes "41 false") ∷ (codes "25 -9223372036854775744") ∷ (codes "26 9223372036854775742") ∷ (codes "27 9223372036854775743") ∷ (codes "30 9223372036854775807") ∷ (codes "31 65") ∷ (codes "32 9223372036854775742") ∷ (codes "33 -2") ∷ (codes "34 4611686018427387903") ∷ (codes "35 4611686018427387903") ∷ (codes "36 false") ∷ (codes "37 true") ∷ (codes "38 false") ∷ (codes "39 false") ∷ (codes "40 true") ∷ (codes "41 true") ∷ (codes "25 5") ∷ (codes "26 5") ∷ (codes "27 0") ∷ (codes "30 5") ∷ (codes "31 0") ∷ (codes "32 5") ∷ (codes "33 5") ∷ (codes "34 5") ∷ (codes "35 5") ∷ (codes "36 false") ∷ (codes "37 true") ∷ (codes "38 false") ∷ (codes "39 false") ∷ (codes "40 true") ∷ (codes "41 true") ∷ (codes "4 true") ∷ (codes "5 false") ∷ (codes "6 true") ∷ (codes "7 true") ∷ (codes "1 false") ∷ (codes "4 false") ∷ (codes "5 true") ∷ (codes "6 true") ∷ (codes "7 false") ∷ (codes "1 false") ∷ (codes "4 false") ∷ (codes "5 true") ∷ (codes "6 true") ∷ (codes "7 false") ∷ (codes "1 true") ∷ (codes "4 true") ∷ (codes "5 false") ∷ (codes "6 false") ∷ (codes "7 false") ∷ (codes "1 true") ∷ (codes "u5 97") ∷ (codes "u6 a") ∷ (codes "u7 97") ∷ (codes "u8 97") ∷ (codes "u2 97") ∷ (codes "u3 97") ∷ (codes "u4 97") ∷ (codes "u9 97") ∷ (codes "u5 -1") ∷ (117 ∷ 54 ∷ 32 ∷ 65535 ∷ []) ∷ (codes "u7 -1") ∷ (codes "u8 -1") ∷ (codes "u2 65535") ∷ (codes "u3 -1") ∷ (codes "u4 -1") ∷ (codes "u9 -1") ∷ (codes "u5 32768") ∷ (117 ∷ 54 ∷ 32 ∷ 32768 ∷ []) ∷ (codes "u7 0") ∷ (codes "u8 -32768") ∷ (codes "u2 32768") ∷ (codes "u3 0") ∷ (codes "u4 -32768") ∷ (codes "u9 32768") ∷ (codes "u5 2147483647") ∷ (117 ∷ 54 ∷ 32 ∷ 65535 ∷ []) ∷ (codes "u7 -1") ∷ (codes "u8 -1") ∷ (codes "u2 65535") ∷ (codes "u3 -1") ∷ (codes "u4 -1") ∷ (codes "u9 2147483647") ∷ (codes "f8 -4") ∷ (codes "f9 -10") ∷ (codes "f10 -21") ∷ (codes "f11 -2") ∷ (codes "f12 -1") ∷ (codes "f13 -5") ∷ (codes "f14 1") ∷ (codes "f15 -6") ∷ (codes "f16 -56") ∷ (codes "f17 536870911") ∷ (codes "f18 -1") ∷ (codes "f19 false") ∷ (codes "f20 true") ∷ (codes "f21 true") ∷ (codes "f22 true") ∷ (codes "f23 false") ∷ (codes "f24 false") ∷ (codes "f25 -4") ∷ (codes "f26 -10") ∷ (codes "f27 -21") ∷ (codes "f28 -2") ∷ (codes "f29 -1") ∷ (codes "f30 -5") ∷ (codes "f31 1") ∷ (codes "f32 -6") ∷ (codes "f33 -56") ∷ (codes "f34 2305843009213693951") ∷ (codes "f35 -1") ∷ (codes "f36 false") ∷ (codes "f37 true") ∷ (codes "f38 true") ∷ (codes "f39 true") ∷ (codes "f40 false") ∷ (codes "f41 false") ∷ (codes "f4 false") ∷ (codes "f5 true") ∷ (codes "f6 true") ∷ (codes "f7 false") ∷ []); end = Done normal } }
    ensures main_within_5 { ir_shows (statics_operators_classes.classes) (statics_operators_classes.entries) (codes "main") 5 ≡ record { lines = ((codes "8 4") ∷ (codes "9 10") ∷ (codes "10 -21") ∷ (codes "13 -1") ∷ (codes "14 5") ∷ (codes "15 -6") ∷ (codes "16 -536870912") ∷ (codes "17 0") ∷ (codes "18 0") ∷ (codes "19 false") ∷ (codes "20 true") ∷ (codes "21 false") ∷ (codes "22 false") ∷ (codes "23 true") ∷ (codes "24 true") ∷ (codes "8 2147483647") ∷ (codes "9 -2147483647") ∷ (codes "10 -2147483648") ∷ (codes "13 -1") ∷ (codes "14 -2147483648") ∷ (codes "15 2147483647") ∷ (codes "16 0") ∷ (codes "17 1") ∷ (codes "18 -1") ∷ (codes "19 false") ∷ (codes "20 true") ∷ (codes "21 true") ∷ (codes "22 true") ∷ (codes "23 false") ∷ (codes "24 false") ∷ (codes "8 -2147483616") ∷ (codes "9 2147483614") ∷ (codes "10 2147483615") ∷ (codes "13 2147483647") ∷ (codes "14 33") ∷ (codes "15 2147483614") ∷ (codes "16 -2") ∷ (codes "17 1073741823") ∷ (codes "18 1073741823") ∷ (codes "19 false") ∷ (codes "20 true") ∷ (codes "21 false") ∷ (codes "22 false") ∷ (codes "23 true") ∷ (codes "24 true") ∷ (codes "8 5") ∷ (codes "9 5") ∷ (codes "10 0") ∷ (codes "13 5") ∷ (codes "14 0") ∷ (codes "15 5") ∷ (codes "16 5") ∷ (codes "17 5") ∷ (codes "18 5") ∷ (codes "19 false") ∷ (codes "20 true") ∷ (codes "21 false") ∷ (codes "22 false") ∷ (codes "23 true") ∷ (codes "24 true") ∷ (codes "25 4") ∷ (codes "26 10") ∷ (codes "27 -21") ∷ (codes "30 -1") ∷ (codes "31 5") ∷ (codes "32 -6") ∷ (codes "33 -2305843009213693952") ∷ (codes "34 0") ∷ (codes "35 0") ∷ (codes "36 false") ∷ (codes "37 true") ∷ (codes "38 false") ∷ (codes "39 false") ∷ (codes "40 true") ∷ (codes "41 true") ∷ (codes "25 9223372036854775807") ∷ (codes "26 -9223372036854775807") ∷ (codes "27 -9223372036854775808") ∷ (codes "30 -1") ∷ (codes "31 -9223372036854775808") ∷ (codes "32 9223372036854775807") ∷ (codes "33 0") ∷ (codes "34 1") ∷ (codes "35 -1") ∷ (codes "36 false") ∷ (codes "37 true") ∷ (codes "38 true") ∷ (codes "39 true") ∷ (codes "40 false") ∷ (codes "41 false") ∷ (codes "25 -9223372036854775744") ∷ (codes "26 9223372036854775742") ∷ (codes "27 9223372036854775743") ∷ (codes "30 9223372036854775807") ∷ (codes "31 65") ∷ (codes "32 9223372036854775742") ∷ (codes "33 -2") ∷ (codes "34 4611686018427387903") ∷ (codes "35 4611686018427387903") ∷ (codes "36 false") ∷ (codes "37 true") ∷ (codes "38 false") ∷ (codes "39 false") ∷ (codes "40 true") ∷ (codes "41 true") ∷ (codes "25 5") ∷ (codes "26 5") ∷ (codes "27 0") ∷ (codes "30 5") ∷ (codes "31 0") ∷ (codes "32 5") ∷ (codes "33 5") ∷ (codes "34 5") ∷ (codes "35 5") ∷ (codes "36 false") ∷ (codes "37 true") ∷ (codes "38 false") ∷ (codes "39 false") ∷ (codes "40 true") ∷ (codes "41 true") ∷ (codes "4 true") ∷ (codes "5 false") ∷ (codes "6 true") ∷ (codes "7 true") ∷ (codes "1 false") ∷ (codes "4 false") ∷ (codes "5 true") ∷ (codes "6 true") ∷ (codes "7 false") ∷ (codes "1 false") ∷ (codes "4 false") ∷ (codes "5 true") ∷ (codes "6 true") ∷ (codes "7 false") ∷ (codes "1 true") ∷ (codes "4 true") ∷ (codes "5 false") ∷ (codes "6 false") ∷ (codes "7 false") ∷ (codes "1 true") ∷ (codes "u5 97") ∷ (codes "u6 a") ∷ (codes "u7 97") ∷ (codes "u8 97") ∷ (codes "u2 97") ∷ (codes "u3 97") ∷ (codes "u4 97") ∷ (codes "u9 97") ∷ (codes "u5 -1") ∷ (117 ∷ 54 ∷ 32 ∷ 65535 ∷ []) ∷ (codes "u7 -1") ∷ (codes "u8 -1") ∷ (codes "u2 65535") ∷ (codes "u3 -1") ∷ (codes "u4 -1") ∷ (codes "u9 -1") ∷ (codes "u5 32768") ∷ (117 ∷ 54 ∷ 32 ∷ 32768 ∷ []) ∷ (codes "u7 0") ∷ (codes "u8 -32768") ∷ (codes "u2 32768") ∷ (codes "u3 0") ∷ (codes "u4 -32768") ∷ (codes "u9 32768") ∷ (codes "u5 2147483647") ∷ (117 ∷ 54 ∷ 32 ∷ 65535 ∷ []) ∷ (codes "u7 -1") ∷ (codes "u8 -1") ∷ (codes "u2 65535") ∷ (codes "u3 -1") ∷ (codes "u4 -1") ∷ (codes "u9 2147483647") ∷ (codes "f8 -4") ∷ (codes "f9 -10") ∷ (codes "f10 -21") ∷ (codes "f11 -2") ∷ (codes "f12 -1") ∷ (codes "f13 -5") ∷ (codes "f14 1") ∷ (codes "f15 -6") ∷ (codes "f16 -56") ∷ (codes "f17 536870911") ∷ (codes "f18 -1") ∷ (codes "f19 false") ∷ (codes "f20 true") ∷ (codes "f21 true") ∷ (codes "f22 true") ∷ (codes "f23 false") ∷ (codes "f24 false") ∷ (codes "f25 -4") ∷ (codes "f26 -10") ∷ (codes "f27 -21") ∷ (codes "f28 -2") ∷ (codes "f29 -1") ∷ (codes "f30 -5") ∷ (codes "f31 1") ∷ (codes "f32 -6") ∷ (codes "f33 -56") ∷ (codes "f34 2305843009213693951") ∷ (codes "f35 -1") ∷ (codes "f36 false") ∷ (codes "f37 true") ∷ (codes "f38 true") ∷ (codes "f39 true") ∷ (codes "f40 false") ∷ (codes "f41 false") ∷ (codes "f4 false") ∷ (codes "f5 true") ∷ (codes "f6 true") ∷ (codes "f7 false") ∷ []); end = Done normal } }
    ensures main_within_10 { ir_shows (statics_operators_classes.classes) (statics_operators_classes.entries) (codes "main") 10 ≡ record { lines = ((codes "8 4") ∷ (codes "9 10") ∷ (codes "10 -21") ∷ (codes "13 -1") ∷ (codes "14 5") ∷ (codes "15 -6") ∷ (codes "16 -536870912") ∷ (codes "17 0") ∷ (codes "18 0") ∷ (codes "19 false") ∷ (codes "20 true") ∷ (codes "21 false") ∷ (codes "22 false") ∷ (codes "23 true") ∷ (codes "24 true") ∷ (codes "8 2147483647") ∷ (codes "9 -2147483647") ∷ (codes "10 -2147483648") ∷ (codes "13 -1") ∷ (codes "14 -2147483648") ∷ (codes "15 2147483647") ∷ (codes "16 0") ∷ (codes "17 1") ∷ (codes "18 -1") ∷ (codes "19 false") ∷ (codes "20 true") ∷ (codes "21 true") ∷ (codes "22 true") ∷ (codes "23 false") ∷ (codes "24 false") ∷ (codes "8 -2147483616") ∷ (codes "9 2147483614") ∷ (codes "10 2147483615") ∷ (codes "13 2147483647") ∷ (codes "14 33") ∷ (codes "15 2147483614") ∷ (codes "16 -2") ∷ (codes "17 1073741823") ∷ (codes "18 1073741823") ∷ (codes "19 false") ∷ (codes "20 true") ∷ (codes "21 false") ∷ (codes "22 false") ∷ (codes "23 true") ∷ (codes "24 true") ∷ (codes "8 5") ∷ (codes "9 5") ∷ (codes "10 0") ∷ (codes "13 5") ∷ (codes "14 0") ∷ (codes "15 5") ∷ (codes "16 5") ∷ (codes "17 5") ∷ (codes "18 5") ∷ (codes "19 false") ∷ (codes "20 true") ∷ (codes "21 false") ∷ (codes "22 false") ∷ (codes "23 true") ∷ (codes "24 true") ∷ (codes "25 4") ∷ (codes "26 10") ∷ (codes "27 -21") ∷ (codes "30 -1") ∷ (codes "31 5") ∷ (codes "32 -6") ∷ (codes "33 -2305843009213693952") ∷ (codes "34 0") ∷ (codes "35 0") ∷ (codes "36 false") ∷ (codes "37 true") ∷ (codes "38 false") ∷ (codes "39 false") ∷ (codes "40 true") ∷ (codes "41 true") ∷ (codes "25 9223372036854775807") ∷ (codes "26 -9223372036854775807") ∷ (codes "27 -9223372036854775808") ∷ (codes "30 -1") ∷ (codes "31 -9223372036854775808") ∷ (codes "32 9223372036854775807") ∷ (codes "33 0") ∷ (codes "34 1") ∷ (codes "35 -1") ∷ (codes "36 false") ∷ (codes "37 true") ∷ (codes "38 true") ∷ (codes "39 true") ∷ (codes "40 false") ∷ (codes "41 false") ∷ (codes "25 -9223372036854775744") ∷ (codes "26 9223372036854775742") ∷ (codes "27 9223372036854775743") ∷ (codes "30 9223372036854775807") ∷ (codes "31 65") ∷ (codes "32 9223372036854775742") ∷ (codes "33 -2") ∷ (codes "34 4611686018427387903") ∷ (codes "35 4611686018427387903") ∷ (codes "36 false") ∷ (codes "37 true") ∷ (codes "38 false") ∷ (codes "39 false") ∷ (codes "40 true") ∷ (codes "41 true") ∷ (codes "25 5") ∷ (codes "26 5") ∷ (codes "27 0") ∷ (codes "30 5") ∷ (codes "31 0") ∷ (codes "32 5") ∷ (codes "33 5") ∷ (codes "34 5") ∷ (codes "35 5") ∷ (codes "36 false") ∷ (codes "37 true") ∷ (codes "38 false") ∷ (codes "39 false") ∷ (codes "40 true") ∷ (codes "41 true") ∷ (codes "4 true") ∷ (codes "5 false") ∷ (codes "6 true") ∷ (codes "7 true") ∷ (codes "1 false") ∷ (codes "4 false") ∷ (codes "5 true") ∷ (codes "6 true") ∷ (codes "7 false") ∷ (codes "1 false") ∷ (codes "4 false") ∷ (codes "5 true") ∷ (codes "6 true") ∷ (codes "7 false") ∷ (codes "1 true") ∷ (codes "4 true") ∷ (codes "5 false") ∷ (codes "6 false") ∷ (codes "7 false") ∷ (codes "1 true") ∷ (codes "u5 97") ∷ (codes "u6 a") ∷ (codes "u7 97") ∷ (codes "u8 97") ∷ (codes "u2 97") ∷ (codes "u3 97") ∷ (codes "u4 97") ∷ (codes "u9 97") ∷ (codes "u5 -1") ∷ (117 ∷ 54 ∷ 32 ∷ 65535 ∷ []) ∷ (codes "u7 -1") ∷ (codes "u8 -1") ∷ (codes "u2 65535") ∷ (codes "u3 -1") ∷ (codes "u4 -1") ∷ (codes "u9 -1") ∷ (codes "u5 32768") ∷ (117 ∷ 54 ∷ 32 ∷ 32768 ∷ []) ∷ (codes "u7 0") ∷ (codes "u8 -32768") ∷ (codes "u2 32768") ∷ (codes "u3 0") ∷ (codes "u4 -32768") ∷ (codes "u9 32768") ∷ (codes "u5 2147483647") ∷ (117 ∷ 54 ∷ 32 ∷ 65535 ∷ []) ∷ (codes "u7 -1") ∷ (codes "u8 -1") ∷ (codes "u2 65535") ∷ (codes "u3 -1") ∷ (codes "u4 -1") ∷ (codes "u9 2147483647") ∷ (codes "f8 -4") ∷ (codes "f9 -10") ∷ (codes "f10 -21") ∷ (codes "f11 -2") ∷ (codes "f12 -1") ∷ (codes "f13 -5") ∷ (codes "f14 1") ∷ (codes "f15 -6") ∷ (codes "f16 -56") ∷ (codes "f17 536870911") ∷ (codes "f18 -1") ∷ (codes "f19 false") ∷ (codes "f20 true") ∷ (codes "f21 true") ∷ (codes "f22 true") ∷ (codes "f23 false") ∷ (codes "f24 false") ∷ (codes "f25 -4") ∷ (codes "f26 -10") ∷ (codes "f27 -21") ∷ (codes "f28 -2") ∷ (codes "f29 -1") ∷ (codes "f30 -5") ∷ (codes "f31 1") ∷ (codes "f32 -6") ∷ (codes "f33 -56") ∷ (codes "f34 2305843009213693951") ∷ (codes "f35 -1") ∷ (codes "f36 false") ∷ (codes "f37 true") ∷ (codes "f38 true") ∷ (codes "f39 true") ∷ (codes "f40 false") ∷ (codes "f41 false") ∷ (codes "f4 false") ∷ (codes "f5 true") ∷ (codes "f6 true") ∷ (codes "f7 false") ∷ []); end = Done normal } }
    ensures main_within_50 { ir_shows (statics_operators_classes.classes) (statics_operators_classes.entries) (codes "main") 50 ≡ record { lines = ((codes "8 4") ∷ (codes "9 10") ∷ (codes "10 -21") ∷ (codes "13 -1") ∷ (codes "14 5") ∷ (codes "15 -6") ∷ (codes "16 -536870912") ∷ (codes "17 0") ∷ (codes "18 0") ∷ (codes "19 false") ∷ (codes "20 true") ∷ (codes "21 false") ∷ (codes "22 false") ∷ (codes "23 true") ∷ (codes "24 true") ∷ (codes "8 2147483647") ∷ (codes "9 -2147483647") ∷ (codes "10 -2147483648") ∷ (codes "13 -1") ∷ (codes "14 -2147483648") ∷ (codes "15 2147483647") ∷ (codes "16 0") ∷ (codes "17 1") ∷ (codes "18 -1") ∷ (codes "19 false") ∷ (codes "20 true") ∷ (codes "21 true") ∷ (codes "22 true") ∷ (codes "23 false") ∷ (codes "24 false") ∷ (codes "8 -2147483616") ∷ (codes "9 2147483614") ∷ (codes "10 2147483615") ∷ (codes "13 2147483647") ∷ (codes "14 33") ∷ (codes "15 2147483614") ∷ (codes "16 -2") ∷ (codes "17 1073741823") ∷ (codes "18 1073741823") ∷ (codes "19 false") ∷ (codes "20 true") ∷ (codes "21 false") ∷ (codes "22 false") ∷ (codes "23 true") ∷ (codes "24 true") ∷ (codes "8 5") ∷ (codes "9 5") ∷ (codes "10 0") ∷ (codes "13 5") ∷ (codes "14 0") ∷ (codes "15 5") ∷ (codes "16 5") ∷ (codes "17 5") ∷ (codes "18 5") ∷ (codes "19 false") ∷ (codes "20 true") ∷ (codes "21 false") ∷ (codes "22 false") ∷ (codes "23 true") ∷ (codes "24 true") ∷ (codes "25 4") ∷ (codes "26 10") ∷ (codes "27 -21") ∷ (codes "30 -1") ∷ (codes "31 5") ∷ (codes "32 -6") ∷ (codes "33 -2305843009213693952") ∷ (codes "34 0") ∷ (codes "35 0") ∷ (codes "36 false") ∷ (codes "37 true") ∷ (codes "38 false") ∷ (codes "39 false") ∷ (codes "40 true") ∷ (codes "41 true") ∷ (codes "25 9223372036854775807") ∷ (codes "26 -9223372036854775807") ∷ (codes "27 -9223372036854775808") ∷ (codes "30 -1") ∷ (codes "31 -9223372036854775808") ∷ (codes "32 9223372036854775807") ∷ (codes "33 0") ∷ (codes "34 1") ∷ (codes "35 -1") ∷ (codes "36 false") ∷ (codes "37 true") ∷ (codes "38 true") ∷ (codes "39 true") ∷ (codes "40 false") ∷ (codes "41 false") ∷ (codes "25 -9223372036854775744") ∷ (codes "26 9223372036854775742") ∷ (codes "27 9223372036854775743") ∷ (codes "30 9223372036854775807") ∷ (codes "31 65") ∷ (codes "32 9223372036854775742") ∷ (codes "33 -2") ∷ (codes "34 4611686018427387903") ∷ (codes "35 4611686018427387903") ∷ (codes "36 false") ∷ (codes "37 true") ∷ (codes "38 false") ∷ (codes "39 false") ∷ (codes "40 true") ∷ (codes "41 true") ∷ (codes "25 5") ∷ (codes "26 5") ∷ (codes "27 0") ∷ (codes "30 5") ∷ (codes "31 0") ∷ (codes "32 5") ∷ (codes "33 5") ∷ (codes "34 5") ∷ (codes "35 5") ∷ (codes "36 false") ∷ (codes "37 true") ∷ (codes "38 false") ∷ (codes "39 false") ∷ (codes "40 true") ∷ (codes "41 true") ∷ (codes "4 true") ∷ (codes "5 false") ∷ (codes "6 true") ∷ (codes "7 true") ∷ (codes "1 false") ∷ (codes "4 false") ∷ (codes "5 true") ∷ (codes "6 true") ∷ (codes "7 false") ∷ (codes "1 false") ∷ (codes "4 false") ∷ (codes "5 true") ∷ (codes "6 true") ∷ (codes "7 false") ∷ (codes "1 true") ∷ (codes "4 true") ∷ (codes "5 false") ∷ (codes "6 false") ∷ (codes "7 false") ∷ (codes "1 true") ∷ (codes "u5 97") ∷ (codes "u6 a") ∷ (codes "u7 97") ∷ (codes "u8 97") ∷ (codes "u2 97") ∷ (codes "u3 97") ∷ (codes "u4 97") ∷ (codes "u9 97") ∷ (codes "u5 -1") ∷ (117 ∷ 54 ∷ 32 ∷ 65535 ∷ []) ∷ (codes "u7 -1") ∷ (codes "u8 -1") ∷ (codes "u2 65535") ∷ (codes "u3 -1") ∷ (codes "u4 -1") ∷ (codes "u9 -1") ∷ (codes "u5 32768") ∷ (117 ∷ 54 ∷ 32 ∷ 32768 ∷ []) ∷ (codes "u7 0") ∷ (codes "u8 -32768") ∷ (codes "u2 32768") ∷ (codes "u3 0") ∷ (codes "u4 -32768") ∷ (codes "u9 32768") ∷ (codes "u5 2147483647") ∷ (117 ∷ 54 ∷ 32 ∷ 65535 ∷ []) ∷ (codes "u7 -1") ∷ (codes "u8 -1") ∷ (codes "u2 65535") ∷ (codes "u3 -1") ∷ (codes "u4 -1") ∷ (codes "u9 2147483647") ∷ (codes "f8 -4") ∷ (codes "f9 -10") ∷ (codes "f10 -21") ∷ (codes "f11 -2") ∷ (codes "f12 -1") ∷ (codes "f13 -5") ∷ (codes "f14 1") ∷ (codes "f15 -6") ∷ (codes "f16 -56") ∷ (codes "f17 536870911") ∷ (codes "f18 -1") ∷ (codes "f19 false") ∷ (codes "f20 true") ∷ (codes "f21 true") ∷ (codes "f22 true") ∷ (codes "f23 false") ∷ (codes "f24 false") ∷ (codes "f25 -4") ∷ (codes "f26 -10") ∷ (codes "f27 -21") ∷ (codes "f28 -2") ∷ (codes "f29 -1") ∷ (codes "f30 -5") ∷ (codes "f31 1") ∷ (codes "f32 -6") ∷ (codes "f33 -56") ∷ (codes "f34 2305843009213693951") ∷ (codes "f35 -1") ∷ (codes "f36 false") ∷ (codes "f37 true") ∷ (codes "f38 true") ∷ (codes "f39 true") ∷ (codes "f40 false") ∷ (codes "f41 false") ∷ (codes "f4 false") ∷ (codes "f5 true") ∷ (codes "f6 true") ∷ (codes "f7 false") ∷ []); end = Done normal } }
    ensures main_within_300 { ir_shows (statics_operators_classes.classes) (statics_operators_classes.entries) (codes "main") 300 ≡ record { lines = ((codes "8 4") ∷ (codes "9 10") ∷ (codes "10 -21") ∷ (codes "13 -1") ∷ (codes "14 5") ∷ (codes "15 -6") ∷ (codes "16 -536870912") ∷ (codes "17 0") ∷ (codes "18 0") ∷ (codes "19 false") ∷ (codes "20 true") ∷ (codes "21 false") ∷ (codes "22 false") ∷ (codes "23 true") ∷ (codes "24 true") ∷ (codes "8 2147483647") ∷ (codes "9 -2147483647") ∷ (codes "10 -2147483648") ∷ (codes "13 -1") ∷ (codes "14 -2147483648") ∷ (codes "15 2147483647") ∷ (codes "16 0") ∷ (codes "17 1") ∷ (codes "18 -1") ∷ (codes "19 false") ∷ (codes "20 true") ∷ (codes "21 true") ∷ (codes "22 true") ∷ (codes "23 false") ∷ (codes "24 false") ∷ (codes "8 -2147483616") ∷ (codes "9 2147483614") ∷ (codes "10 2147483615") ∷ (codes "13 2147483647") ∷ (codes "14 33") ∷ (codes "15 2147483614") ∷ (codes "16 -2") ∷ (codes "17 1073741823") ∷ (codes "18 1073741823") ∷ (codes "19 false") ∷ (codes "20 true") ∷ (codes "21 false") ∷ (codes "22 false") ∷ (codes "23 true") ∷ (codes "24 true") ∷ (codes "8 5") ∷ (codes "9 5") ∷ (codes "10 0") ∷ (codes "13 5") ∷ (codes "14 0") ∷ (codes "15 5") ∷ (codes "16 5") ∷ (codes "17 5") ∷ (codes "18 5") ∷ (codes "19 false") ∷ (codes "20 true") ∷ (codes "21 false") ∷ (codes "22 false") ∷ (codes "23 true") ∷ (codes "24 true") ∷ (codes "25 4") ∷ (codes "26 10") ∷ (codes "27 -21") ∷ (codes "30 -1") ∷ (codes "31 5") ∷ (codes "32 -6") ∷ (codes "33 -2305843009213693952") ∷ (codes "34 0") ∷ (codes "35 0") ∷ (codes "36 false") ∷ (codes "37 true") ∷ (codes "38 false") ∷ (codes "39 false") ∷ (codes "40 true") ∷ (codes "41 true") ∷ (codes "25 9223372036854775807") ∷ (codes "26 -9223372036854775807") ∷ (codes "27 -9223372036854775808") ∷ (codes "30 -1") ∷ (codes "31 -9223372036854775808") ∷ (codes "32 9223372036854775807") ∷ (codes "33 0") ∷ (codes "34 1") ∷ (codes "35 -1") ∷ (codes "36 false") ∷ (codes "37 true") ∷ (codes "38 true") ∷ (codes "39 true") ∷ (codes "40 false") ∷ (codes "41 false") ∷ (codes "25 -9223372036854775744") ∷ (codes "26 9223372036854775742") ∷ (codes "27 9223372036854775743") ∷ (codes "30 9223372036854775807") ∷ (codes "31 65") ∷ (codes "32 9223372036854775742") ∷ (codes "33 -2") ∷ (codes "34 4611686018427387903") ∷ (codes "35 4611686018427387903") ∷ (codes "36 false") ∷ (codes "37 true") ∷ (codes "38 false") ∷ (codes "39 false") ∷ (codes "40 true") ∷ (codes "41 true") ∷ (codes "25 5") ∷ (codes "26 5") ∷ (codes "27 0") ∷ (codes "30 5") ∷ (codes "31 0") ∷ (codes "32 5") ∷ (codes "33 5") ∷ (codes "34 5") ∷ (codes "35 5") ∷ (codes "36 false") ∷ (codes "37 true") ∷ (codes "38 false") ∷ (codes "39 false") ∷ (codes "40 true") ∷ (codes "41 true") ∷ (codes "4 true") ∷ (codes "5 false") ∷ (codes "6 true") ∷ (codes "7 true") ∷ (codes "1 false") ∷ (codes "4 false") ∷ (codes "5 true") ∷ (codes "6 true") ∷ (codes "7 false") ∷ (codes "1 false") ∷ (codes "4 false") ∷ (codes "5 true") ∷ (codes "6 true") ∷ (codes "7 false") ∷ (codes "1 true") ∷ (codes "4 true") ∷ (codes "5 false") ∷ (codes "6 false") ∷ (codes "7 false") ∷ (codes "1 true") ∷ (codes "u5 97") ∷ (codes "u6 a") ∷ (codes "u7 97") ∷ (codes "u8 97") ∷ (codes "u2 97") ∷ (codes "u3 97") ∷ (codes "u4 97") ∷ (codes "u9 97") ∷ (codes "u5 -1") ∷ (117 ∷ 54 ∷ 32 ∷ 65535 ∷ []) ∷ (codes "u7 -1") ∷ (codes "u8 -1") ∷ (codes "u2 65535") ∷ (codes "u3 -1") ∷ (codes "u4 -1") ∷ (codes "u9 -1") ∷ (codes "u5 32768") ∷ (117 ∷ 54 ∷ 32 ∷ 32768 ∷ []) ∷ (codes "u7 0") ∷ (codes "u8 -32768") ∷ (codes "u2 32768") ∷ (codes "u3 0") ∷ (codes "u4 -32768") ∷ (codes "u9 32768") ∷ (codes "u5 2147483647") ∷ (117 ∷ 54 ∷ 32 ∷ 65535 ∷ []) ∷ (codes "u7 -1") ∷ (codes "u8 -1") ∷ (codes "u2 65535") ∷ (codes "u3 -1") ∷ (codes "u4 -1") ∷ (codes "u9 2147483647") ∷ (codes "f8 -4") ∷ (codes "f9 -10") ∷ (codes "f10 -21") ∷ (codes "f11 -2") ∷ (codes "f12 -1") ∷ (codes "f13 -5") ∷ (codes "f14 1") ∷ (codes "f15 -6") ∷ (codes "f16 -56") ∷ (codes "f17 536870911") ∷ (codes "f18 -1") ∷ (codes "f19 false") ∷ (codes "f20 true") ∷ (codes "f21 true") ∷ (codes "f22 true") ∷ (codes "f23 false") ∷ (codes "f24 false") ∷ (codes "f25 -4") ∷ (codes "f26 -10") ∷ (codes "f27 -21") ∷ (codes "f28 -2") ∷ (codes "f29 -1") ∷ (codes "f30 -5") ∷ (codes "f31 1") ∷ (codes "f32 -6") ∷ (codes "f33 -56") ∷ (codes "f34 2305843009213693951") ∷ (codes "f35 -1") ∷ (codes "f36 false") ∷ (codes "f37 true") ∷ (codes "f38 true") ∷ (codes "f39 true") ∷ (codes "f40 false") ∷ (codes "f41 false") ∷ (codes "f4 false") ∷ (codes "f5 true") ∷ (codes "f6 true") ∷ (codes "f7 false") ∷ []); end = Done normal } }
    ensures main_files { js_shows (statics_operators_files.files) (codes "main") 100 ≡ record { lines = ((codes "8 4") ∷ (codes "9 10") ∷ (codes "10 -21") ∷ (codes "13 -1") ∷ (codes "14 5") ∷ (codes "15 -6") ∷ (codes "16 -536870912") ∷ (codes "17 0") ∷ (codes "18 0") ∷ (codes "19 false") ∷ (codes "20 true") ∷ (codes "21 false") ∷ (codes "22 false") ∷ (codes "23 true") ∷ (codes "24 true") ∷ (codes "8 2147483647") ∷ (codes "9 -2147483647") ∷ (codes "10 -2147483648") ∷ (codes "13 -1") ∷ (codes "14 -2147483648") ∷ (codes "15 2147483647") ∷ (codes "16 0") ∷ (codes "17 1") ∷ (codes "18 -1") ∷ (codes "19 false") ∷ (codes "20 true") ∷ (codes "21 true") ∷ (codes "22 true") ∷ (codes "23 false") ∷ (codes "24 false") ∷ (codes "8 -2147483616") ∷ (codes "9 2147483614") ∷ (codes "10 2147483615") ∷ (codes "13 2147483647") ∷ (codes "14 33") ∷ (codes "15 2147483614") ∷ (codes "16 -2") ∷ (codes "17 1073741823") ∷ (codes "18 1073741823") ∷ (codes "19 false") ∷ (codes "20 true") ∷ (codes "21 false") ∷ (codes "22 false") ∷ (codes "23 true") ∷ (codes "24 true") ∷ (codes "8 5") ∷ (codes "9 5") ∷ (codes "10 0") ∷ (codes "13 5") ∷ (codes "14 0") ∷ (codes "15 5") ∷ (codes "16 5") ∷ (codes "17 5") ∷ (codes "18 5") ∷ (codes "19 false") ∷ (codes "20 true") ∷ (codes "21 false") ∷ (codes "22 false") ∷ (codes "23 true") ∷ (codes "24 true") ∷ (codes "25 4") ∷ (codes "26 10") ∷ (codes "27 -21") ∷ (codes "30 -1") ∷ (codes "31 5") ∷ (codes "32 -6") ∷ (codes "33 -2305843009213693952") ∷ (codes "34 0") ∷ (codes "35 0") ∷ (codes "36 false") ∷ (codes "37 true") ∷ (codes "38 false") ∷ (codes "39 false") ∷ (codes "40 true") ∷ (codes "41 true") ∷ (codes "25 9223372036854775807") ∷ (codes "26 -9223372036854775807") ∷ (codes "27 -9223372036854775808") ∷ (codes "30 -1") ∷ (codes "31 -9223372036854775808") ∷ (codes "32 9223372036854775807") ∷ (codes "33 0") ∷ (codes "34 1") ∷ (codes "35 -1") ∷ (codes "36 false") ∷ (codes "37 true") ∷ (codes "38 true") ∷ (codes "39 true") ∷ (codes "40 false") ∷ (codes "41 false") ∷ (codes "25 -9223372036854775744") ∷ (codes "26 9223372036854775742") ∷ (codes "27 9223372036854775743") ∷ (codes "30 9223372036854775807") ∷ (codes "31 65") ∷ (codes "32 9223372036854775742") ∷ (codes "33 -2") ∷ (codes "34 4611686018427387903") ∷ (codes "35 4611686018427387903") ∷ (codes "36 false") ∷ (codes "37 true") ∷ (codes "38 false") ∷ (codes "39 false") ∷ (codes "40 true") ∷ (codes "41 true") ∷ (codes "25 5") ∷ (codes "26 5") ∷ (codes "27 0") ∷ (codes "30 5") ∷ (codes "31 0") ∷ (codes "32 5") ∷ (codes "33 5") ∷ (codes "34 5") ∷ (codes "35 5") ∷ (codes "36 false") ∷ (codes "37 true") ∷ (codes "38 false") ∷ (codes "39 false") ∷ (codes "40 true") ∷ (codes "41 true") ∷ (codes "4 true") ∷ (codes "5 false") ∷ (codes "6 true") ∷ (codes "7 true") ∷ (codes "1 false") ∷ (codes "4 false") ∷ (codes "5 true") ∷ (codes "6 true") ∷ (codes "7 false") ∷ (codes "1 false") ∷ (codes "4 false") ∷ (codes "5 true") ∷ (codes "6 true") ∷ (codes "7 false") ∷ (codes "1 true") ∷ (codes "4 true") ∷ (codes "5 false") ∷ (codes "6 false") ∷ (codes "7 false") ∷ (codes "1 true") ∷ (codes "u5 97") ∷ (codes "u6 a") ∷ (codes "u7 97") ∷ (codes "u8 97") ∷ (codes "u2 97") ∷ (codes "u3 97") ∷ (codes "u4 97") ∷ (codes "u9 97") ∷ (codes "u5 -1") ∷ (117 ∷ 54 ∷ 32 ∷ 65535 ∷ []) ∷ (codes "u7 -1") ∷ (codes "u8 -1") ∷ (codes "u2 65535") ∷ (codes "u3 -1") ∷ (codes "u4 -1") ∷ (codes "u9 -1") ∷ (codes "u5 32768") ∷ (117 ∷ 54 ∷ 32 ∷ 32768 ∷ []) ∷ (codes "u7 0") ∷ (codes "u8 -32768") ∷ (codes "u2 32768") ∷ (codes "u3 0") ∷ (codes "u4 -32768") ∷ (codes "u9 32768") ∷ (codes "u5 2147483647") ∷ (117 ∷ 54 ∷ 32 ∷ 65535 ∷ []) ∷ (codes "u7 -1") ∷ (codes "u8 -1") ∷ (codes "u2 65535") ∷ (codes "u3 -1") ∷ (codes "u4 -1") ∷ (codes "u9 2147483647") ∷ (codes "f8 -4") ∷ (codes "f9 -10") ∷ (codes "f10 -21") ∷ (codes "f11 -2") ∷ (codes "f12 -1") ∷ (codes "f13 -5") ∷ (codes "f14 1") ∷ (codes "f15 -6") ∷ (codes "f16 -56") ∷ (codes "f17 536870911") ∷ (codes "f18 -1") ∷ (codes "f19 false") ∷ (codes "f20 true") ∷ (codes "f21 true") ∷ (codes "f22 true") ∷ (codes "f23 false") ∷ (codes "f24 false") ∷ (codes "f25 -4") ∷ (codes "f26 -10") ∷ (codes "f27 -21") ∷ (codes "f28 -2") ∷ (codes "f29 -1") ∷ (codes "f30 -5") ∷ (codes "f31 1") ∷ (codes "f32 -6") ∷ (codes "f33 -56") ∷ (codes "f34 2305843009213693951") ∷ (codes "f35 -1") ∷ (codes "f36 false") ∷ (codes "f37 true") ∷ (codes "f38 true") ∷ (codes "f39 true") ∷ (codes "f40 false") ∷ (codes "f41 false") ∷ (codes "f4 false") ∷ (codes "f5 true") ∷ (codes "f6 true") ∷ (codes "f7 false") ∷ []); end = Done normal } }
{}

/// The recorded folder `link-r6/mutual-calls`: what its classes show, and what its files show.
pub fn statics_mutual_calls()
    ensures main_within_0 { ir_shows (statics_mutual_calls_classes.classes) (statics_mutual_calls_classes.entries) (codes "main") 0 ≡ record { lines = []; end = Going } }
    ensures main_within_1 { ir_shows (statics_mutual_calls_classes.classes) (statics_mutual_calls_classes.entries) (codes "main") 1 ≡ record { lines = []; end = Going } }
    ensures main_within_2 { ir_shows (statics_mutual_calls_classes.classes) (statics_mutual_calls_classes.entries) (codes "main") 2 ≡ record { lines = ((codes "A5") ∷ []); end = Going } }
    ensures main_within_3 { ir_shows (statics_mutual_calls_classes.classes) (statics_mutual_calls_classes.entries) (codes "main") 3 ≡ record { lines = ((codes "A5") ∷ (codes "B4") ∷ []); end = Going } }
    ensures main_within_5 { ir_shows (statics_mutual_calls_classes.classes) (statics_mutual_calls_classes.entries) (codes "main") 5 ≡ record { lines = ((codes "A5") ∷ (codes "B4") ∷ (codes "A3") ∷ (codes "B2") ∷ []); end = Going } }
    ensures main_within_10 { ir_shows (statics_mutual_calls_classes.classes) (statics_mutual_calls_classes.entries) (codes "main") 10 ≡ record { lines = ((codes "A5") ∷ (codes "B4") ∷ (codes "A3") ∷ (codes "B2") ∷ (codes "A1") ∷ []); end = Done normal } }
    ensures main_within_50 { ir_shows (statics_mutual_calls_classes.classes) (statics_mutual_calls_classes.entries) (codes "main") 50 ≡ record { lines = ((codes "A5") ∷ (codes "B4") ∷ (codes "A3") ∷ (codes "B2") ∷ (codes "A1") ∷ []); end = Done normal } }
    ensures main_within_300 { ir_shows (statics_mutual_calls_classes.classes) (statics_mutual_calls_classes.entries) (codes "main") 300 ≡ record { lines = ((codes "A5") ∷ (codes "B4") ∷ (codes "A3") ∷ (codes "B2") ∷ (codes "A1") ∷ []); end = Done normal } }
    ensures main_files { js_shows (statics_mutual_calls_files.files) (codes "main") 100 ≡ record { lines = ((codes "A5") ∷ (codes "B4") ∷ (codes "A3") ∷ (codes "B2") ∷ (codes "A1") ∷ []); end = Done normal } }
{}

/// The recorded folder `link-r6/entries-in-order`: what its classes show, and what its files show.
pub fn statics_entries_in_order()
    ensures main_within_0 { ir_shows (statics_entries_in_order_classes.classes) (statics_entries_in_order_classes.entries) (codes "main") 0 ≡ record { lines = []; end = Going } }
    ensures main_within_1 { ir_shows (statics_entries_in_order_classes.classes) (statics_entries_in_order_classes.entries) (codes "main") 1 ≡ record { lines = ((codes "b") ∷ (codes "go") ∷ (codes "a") ∷ (codes "b") ∷ (codes "o") ∷ []); end = Done normal } }
    ensures main_within_2 { ir_shows (statics_entries_in_order_classes.classes) (statics_entries_in_order_classes.entries) (codes "main") 2 ≡ record { lines = ((codes "b") ∷ (codes "go") ∷ (codes "a") ∷ (codes "b") ∷ (codes "o") ∷ []); end = Done normal } }
    ensures main_within_3 { ir_shows (statics_entries_in_order_classes.classes) (statics_entries_in_order_classes.entries) (codes "main") 3 ≡ record { lines = ((codes "b") ∷ (codes "go") ∷ (codes "a") ∷ (codes "b") ∷ (codes "o") ∷ []); end = Done normal } }
    ensures main_within_5 { ir_shows (statics_entries_in_order_classes.classes) (statics_entries_in_order_classes.entries) (codes "main") 5 ≡ record { lines = ((codes "b") ∷ (codes "go") ∷ (codes "a") ∷ (codes "b") ∷ (codes "o") ∷ []); end = Done normal } }
    ensures main_within_10 { ir_shows (statics_entries_in_order_classes.classes) (statics_entries_in_order_classes.entries) (codes "main") 10 ≡ record { lines = ((codes "b") ∷ (codes "go") ∷ (codes "a") ∷ (codes "b") ∷ (codes "o") ∷ []); end = Done normal } }
    ensures main_within_50 { ir_shows (statics_entries_in_order_classes.classes) (statics_entries_in_order_classes.entries) (codes "main") 50 ≡ record { lines = ((codes "b") ∷ (codes "go") ∷ (codes "a") ∷ (codes "b") ∷ (codes "o") ∷ []); end = Done normal } }
    ensures main_within_300 { ir_shows (statics_entries_in_order_classes.classes) (statics_entries_in_order_classes.entries) (codes "main") 300 ≡ record { lines = ((codes "b") ∷ (codes "go") ∷ (codes "a") ∷ (codes "b") ∷ (codes "o") ∷ []); end = Done normal } }
    ensures main_files { js_shows (statics_entries_in_order_files.files) (codes "main") 100 ≡ record { lines = ((codes "b") ∷ (codes "go") ∷ (codes "a") ∷ (codes "b") ∷ (codes "o") ∷ []); end = Done normal } }
{}

/// The recorded folder `link-r6/strange-names`: what its classes show, and what its files show.
pub fn statics_strange_names()
    ensures main_within_0 { ir_shows (statics_strange_names_classes.classes) (statics_strange_names_classes.entries) (codes "main") 0 ≡ record { lines = []; end = Going } }
    ensures main_within_1 { ir_shows (statics_strange_names_classes.classes) (statics_strange_names_classes.entries) (codes "main") 1 ≡ record { lines = []; end = Going } }
    ensures main_within_2 { ir_shows (statics_strange_names_classes.classes) (statics_strange_names_classes.entries) (codes "main") 2 ≡ record { lines = ((233 ∷ 55357 ∷ 56832 ∷ []) ∷ []); end = Done normal } }
    ensures main_within_3 { ir_shows (statics_strange_names_classes.classes) (statics_strange_names_classes.entries) (codes "main") 3 ≡ record { lines = ((233 ∷ 55357 ∷ 56832 ∷ []) ∷ []); end = Done normal } }
    ensures main_within_5 { ir_shows (statics_strange_names_classes.classes) (statics_strange_names_classes.entries) (codes "main") 5 ≡ record { lines = ((233 ∷ 55357 ∷ 56832 ∷ []) ∷ []); end = Done normal } }
    ensures main_within_10 { ir_shows (statics_strange_names_classes.classes) (statics_strange_names_classes.entries) (codes "main") 10 ≡ record { lines = ((233 ∷ 55357 ∷ 56832 ∷ []) ∷ []); end = Done normal } }
    ensures main_within_50 { ir_shows (statics_strange_names_classes.classes) (statics_strange_names_classes.entries) (codes "main") 50 ≡ record { lines = ((233 ∷ 55357 ∷ 56832 ∷ []) ∷ []); end = Done normal } }
    ensures main_within_300 { ir_shows (statics_strange_names_classes.classes) (statics_strange_names_classes.entries) (codes "main") 300 ≡ record { lines = ((233 ∷ 55357 ∷ 56832 ∷ []) ∷ []); end = Done normal } }
    ensures main_files { js_shows (statics_strange_names_files.files) (codes "main") 100 ≡ record { lines = ((233 ∷ 55357 ∷ 56832 ∷ []) ∷ []); end = Done normal } }
{}

/// The recorded folder `link-r6/case-without-keys`: what its classes show, and what its files show.
pub fn statics_case_without_keys()
    ensures main_within_0 { ir_shows (statics_case_without_keys_classes.classes) (statics_case_without_keys_classes.entries) (codes "main") 0 ≡ record { lines = []; end = Going } }
    ensures main_within_1 { ir_shows (statics_case_without_keys_classes.classes) (statics_case_without_keys_classes.entries) (codes "main") 1 ≡ record { lines = ((codes "one") ∷ []); end = Done normal } }
    ensures main_within_2 { ir_shows (statics_case_without_keys_classes.classes) (statics_case_without_keys_classes.entries) (codes "main") 2 ≡ record { lines = ((codes "one") ∷ []); end = Done normal } }
    ensures main_within_3 { ir_shows (statics_case_without_keys_classes.classes) (statics_case_without_keys_classes.entries) (codes "main") 3 ≡ record { lines = ((codes "one") ∷ []); end = Done normal } }
    ensures main_within_5 { ir_shows (statics_case_without_keys_classes.classes) (statics_case_without_keys_classes.entries) (codes "main") 5 ≡ record { lines = ((codes "one") ∷ []); end = Done normal } }
    ensures main_within_10 { ir_shows (statics_case_without_keys_classes.classes) (statics_case_without_keys_classes.entries) (codes "main") 10 ≡ record { lines = ((codes "one") ∷ []); end = Done normal } }
    ensures main_within_50 { ir_shows (statics_case_without_keys_classes.classes) (statics_case_without_keys_classes.entries) (codes "main") 50 ≡ record { lines = ((codes "one") ∷ []); end = Done normal } }
    ensures main_within_300 { ir_shows (statics_case_without_keys_classes.classes) (statics_case_without_keys_classes.entries) (codes "main") 300 ≡ record { lines = ((codes "one") ∷ []); end = Done normal } }
    ensures main_files { js_shows (statics_case_without_keys_files.files) (codes "main") 100 ≡ record { lines = ((codes "one") ∷ []); end = Done normal } }
{}

/// The recorded folder `link-r6/random-00`: what its classes show, and what its files show.
pub fn statics_random_00()
    ensures main_within_0 { ir_shows (statics_random_00_classes.classes) (statics_random_00_classes.entries) (codes "main") 0 ≡ record { lines = []; end = Going } }
    ensures main_within_1 { ir_shows (statics_random_00_classes.classes) (statics_random_00_classes.entries) (codes "main") 1 ≡ record { lines = ((codes "main") ∷ []); end = Going } }
    ensures main_within_2 { ir_shows (statics_random_00_classes.classes) (statics_random_00_classes.entries) (codes "main") 2 ≡ record { lines = ((codes "main") ∷ (61 ∷ 32 ∷ 34 ∷ []) ∷ (233 ∷ 55357 ∷ 56832 ∷ []) ∷ []); end = Done normal } }
    ensures main_within_3 { ir_shows (statics_random_00_classes.classes) (statics_random_00_classes.entries) (codes "main") 3 ≡ record { lines = ((codes "main") ∷ (61 ∷ 32 ∷ 34 ∷ []) ∷ (233 ∷ 55357 ∷ 56832 ∷ []) ∷ []); end = Done normal } }
    ensures main_within_5 { ir_shows (statics_random_00_classes.classes) (statics_random_00_classes.entries) (codes "main") 5 ≡ record { lines = ((codes "main") ∷ (61 ∷ 32 ∷ 34 ∷ []) ∷ (233 ∷ 55357 ∷ 56832 ∷ []) ∷ []); end = Done normal } }
    ensures main_within_10 { ir_shows (statics_random_00_classes.classes) (statics_random_00_classes.entries) (codes "main") 10 ≡ record { lines = ((codes "main") ∷ (61 ∷ 32 ∷ 34 ∷ []) ∷ (233 ∷ 55357 ∷ 56832 ∷ []) ∷ []); end = Done normal } }
    ensures main_within_50 { ir_shows (statics_random_00_classes.classes) (statics_random_00_classes.entries) (codes "main") 50 ≡ record { lines = ((codes "main") ∷ (61 ∷ 32 ∷ 34 ∷ []) ∷ (233 ∷ 55357 ∷ 56832 ∷ []) ∷ []); end = Done normal } }
    ensures main_within_300 { ir_shows (statics_random_00_classes.classes) (statics_random_00_classes.entries) (codes "main") 300 ≡ record { lines = ((codes "main") ∷ (61 ∷ 32 ∷ 34 ∷ []) ∷ (233 ∷ 55357 ∷ 56832 ∷ []) ∷ []); end = Done normal } }
    ensures main_files { js_shows (statics_random_00_files.files) (codes "main") 100 ≡ record { lines = ((codes "main") ∷ (61 ∷ 32 ∷ 34 ∷ []) ∷ (233 ∷ 55357 ∷ 56832 ∷ []) ∷ []); end = Done normal } }
{}

/// The recorded folder `link-r7/bridges`: what its classes show, and what its files show.
pub fn objects_bridges()
    ensures main_within_0 { ir_shows (objects_bridges_classes.classes) (objects_bridges_classes.entries) (codes "main") 0 ≡ record { lines = []; end = Going } }
    ensures main_within_1 { ir_shows (objects_bridges_classes.classes) (objects_bridges_classes.entries) (codes "main") 1 ≡ record { lines = []; end = Going } }
    ensures main_within_2 { ir_shows (objects_bridges_classes.classes) (objects_bridges_classes.entries) (codes "main") 2 ≡ record { lines = []; end = Going } }
    ensures main_within_3 { ir_shows (objects_bridges_classes.classes) (objects_bridges_classes.entries) (codes "main") 3 ≡ record { lines = ((codes "I") ∷ []); end = Going } }
    ensures main_within_5 { ir_shows (objects_bridges_classes.classes) (objects_bridges_classes.entries) (codes "main") 5 ≡ record { lines = ((codes "I") ∷ (codes "I") ∷ (codes "J") ∷ []); end = Done normal } }
    ensures main_within_10 { ir_shows (objects_bridges_classes.classes) (objects_bridges_classes.entries) (codes "main") 10 ≡ record { lines = ((codes "I") ∷ (codes "I") ∷ (codes "J") ∷ []); end = Done normal } }
    ensures main_within_50 { ir_shows (objects_bridges_classes.classes) (objects_bridges_classes.entries) (codes "main") 50 ≡ record { lines = ((codes "I") ∷ (codes "I") ∷ (codes "J") ∷ []); end = Done normal } }
    ensures main_within_300 { ir_shows (objects_bridges_classes.classes) (objects_bridges_classes.entries) (codes "main") 300 ≡ record { lines = ((codes "I") ∷ (codes "I") ∷ (codes "J") ∷ []); end = Done normal } }
    ensures main_files { js_shows (objects_bridges_files.files) (codes "main") 100 ≡ record { lines = ((codes "I") ∷ (codes "I") ∷ (codes "J") ∷ []); end = Done normal } }
{}

/// The recorded folder `link-r7/byte-and-short`: what its classes show, and what its files show.
pub fn objects_byte_and_short()
    ensures main_within_0 { ir_shows (objects_byte_and_short_classes.classes) (objects_byte_and_short_classes.entries) (codes "main") 0 ≡ record { lines = []; end = Going } }
    ensures main_within_1 { ir_shows (objects_byte_and_short_classes.classes) (objects_byte_and_short_classes.entries) (codes "main") 1 ≡ record { lines = []; end = Going } }
    ensures main_within_2 { ir_shows (objects_byte_and_short_classes.classes) (objects_byte_and_short_classes.entries) (codes "main") 2 ≡ record { lines = ((codes "number") ∷ (codes "short") ∷ (codes "number") ∷ (codes "3") ∷ (codes "1") ∷ (codes "false") ∷ (codes "true") ∷ []); end = Done normal } }
    ensures main_within_3 { ir_shows (objects_byte_and_short_classes.classes) (objects_byte_and_short_classes.entries) (codes "main") 3 ≡ record { lines = ((codes "number") ∷ (codes "short") ∷ (codes "number") ∷ (codes "3") ∷ (codes "1") ∷ (codes "false") ∷ (codes "true") ∷ []); end = Done normal } }
    ensures main_within_5 { ir_shows (objects_byte_and_short_classes.classes) (objects_byte_and_short_classes.entries) (codes "main") 5 ≡ record { lines = ((codes "number") ∷ (codes "short") ∷ (codes "number") ∷ (codes "3") ∷ (codes "1") ∷ (codes "false") ∷ (codes "true") ∷ []); end = Done normal } }
    ensures main_within_10 { ir_shows (objects_byte_and_short_classes.classes) (objects_byte_and_short_classes.entries) (codes "main") 10 ≡ record { lines = ((codes "number") ∷ (codes "short") ∷ (codes "number") ∷ (codes "3") ∷ (codes "1") ∷ (codes "false") ∷ (codes "true") ∷ []); end = Done normal } }
    ensures main_within_50 { ir_shows (objects_byte_and_short_classes.classes) (objects_byte_and_short_classes.entries) (codes "main") 50 ≡ record { lines = ((codes "number") ∷ (codes "short") ∷ (codes "number") ∷ (codes "3") ∷ (codes "1") ∷ (codes "false") ∷ (codes "true") ∷ []); end = Done normal } }
    ensures main_within_300 { ir_shows (objects_byte_and_short_classes.classes) (objects_byte_and_short_classes.entries) (codes "main") 300 ≡ record { lines = ((codes "number") ∷ (codes "short") ∷ (codes "number") ∷ (codes "3") ∷ (codes "1") ∷ (codes "false") ∷ (codes "true") ∷ []); end = Done normal } }
    ensures main_files { js_shows (objects_byte_and_short_files.files) (codes "main") 100 ≡ record { lines = ((codes "number") ∷ (codes "short") ∷ (codes "number") ∷ (codes "3") ∷ (codes "1") ∷ (codes "false") ∷ (codes "true") ∷ []); end = Done normal } }
{}

/// The recorded folder `link-r7/calls-by-class`: what its classes show, and what its files show.
pub fn objects_calls_by_class()
    ensures main_within_0 { ir_shows (objects_calls_by_class_classes.classes) (objects_calls_by_class_classes.entries) (codes "main") 0 ≡ record { lines = []; end = Going } }
    ensures main_within_1 { ir_shows (objects_calls_by_class_classes.classes) (objects_calls_by_class_classes.entries) (codes "main") 1 ≡ record { lines = []; end = Going } }
    ensures main_within_2 { ir_shows (objects_calls_by_class_classes.classes) (objects_calls_by_class_classes.entries) (codes "main") 2 ≡ record { lines = []; end = Going } }
    ensures main_within_3 { ir_shows (objects_calls_by_class_classes.classes) (objects_calls_by_class_classes.entries) (codes "main") 3 ≡ record { lines = []; end = Going } }
    ensures main_within_5 { ir_shows (objects_calls_by_class_classes.classes) (objects_calls_by_class_classes.entries) (codes "main") 5 ≡ record { lines = ((codes "A.m") ∷ (codes "p") ∷ (codes "A.m") ∷ (codes "p") ∷ (codes "o") ∷ (codes "o") ∷ (codes "s") ∷ []); end = Done normal } }
    ensures main_within_10 { ir_shows (objects_calls_by_class_classes.classes) (objects_calls_by_class_classes.entries) (codes "main") 10 ≡ record { lines = ((codes "A.m") ∷ (codes "p") ∷ (codes "A.m") ∷ (codes "p") ∷ (codes "o") ∷ (codes "o") ∷ (codes "s") ∷ []); end = Done normal } }
    ensures main_within_50 { ir_shows (objects_calls_by_class_classes.classes) (objects_calls_by_class_classes.entries) (codes "main") 50 ≡ record { lines = ((codes "A.m") ∷ (codes "p") ∷ (codes "A.m") ∷ (codes "p") ∷ (codes "o") ∷ (codes "o") ∷ (codes "s") ∷ []); end = Done normal } }
    ensures main_within_300 { ir_shows (objects_calls_by_class_classes.classes) (objects_calls_by_class_classes.entries) (codes "main") 300 ≡ record { lines = ((codes "A.m") ∷ (codes "p") ∷ (codes "A.m") ∷ (codes "p") ∷ (codes "o") ∷ (codes "o") ∷ (codes "s") ∷ []); end = Done normal } }
    ensures main_files { js_shows (objects_calls_by_class_files.files) (codes "main") 100 ≡ record { lines = ((codes "A.m") ∷ (codes "p") ∷ (codes "A.m") ∷ (codes "p") ∷ (codes "o") ∷ (codes "o") ∷ (codes "s") ∷ []); end = Done normal } }
{}

/// The recorded folder `link-r7/control`: what its classes show, and what its files show.
pub fn objects_control()
    ensures main_within_0 { ir_shows (objects_control_classes.classes) (objects_control_classes.entries) (codes "main") 0 ≡ record { lines = []; end = Going } }
    ensures main_within_1 { ir_shows (objects_control_classes.classes) (objects_control_classes.entries) (codes "main") 1 ≡ record { lines = ((codes "c") ∷ []); end = Going } }
    ensures main_within_2 { ir_shows (objects_control_classes.classes) (objects_control_classes.entries) (codes "main") 2 ≡ record { lines = ((codes "c") ∷ (codes "c") ∷ []); end = Going } }
    ensures main_within_3 { ir_shows (objects_control_classes.classes) (objects_control_classes.entries) (codes "main") 3 ≡ record { lines = ((codes "c") ∷ (codes "c") ∷ (codes "c") ∷ (codes "once") ∷ (codes "two") ∷ (codes "x") ∷ (codes "6") ∷ []); end = Done normal } }
    ensures main_within_5 { ir_shows (objects_control_classes.classes) (objects_control_classes.entries) (codes "main") 5 ≡ record { lines = ((codes "c") ∷ (codes "c") ∷ (codes "c") ∷ (codes "once") ∷ (codes "two") ∷ (codes "x") ∷ (codes "6") ∷ []); end = Done normal } }
    ensures main_within_10 { ir_shows (objects_control_classes.classes) (objects_control_classes.entries) (codes "main") 10 ≡ record { lines = ((codes "c") ∷ (codes "c") ∷ (codes "c") ∷ (codes "once") ∷ (codes "two") ∷ (codes "x") ∷ (codes "6") ∷ []); end = Done normal } }
    ensures main_within_50 { ir_shows (objects_control_classes.classes) (objects_control_classes.entries) (codes "main") 50 ≡ record { lines = ((codes "c") ∷ (codes "c") ∷ (codes "c") ∷ (codes "once") ∷ (codes "two") ∷ (codes "x") ∷ (codes "6") ∷ []); end = Done normal } }
    ensures main_within_300 { ir_shows (objects_control_classes.classes) (objects_control_classes.entries) (codes "main") 300 ≡ record { lines = ((codes "c") ∷ (codes "c") ∷ (codes "c") ∷ (codes "once") ∷ (codes "two") ∷ (codes "x") ∷ (codes "6") ∷ []); end = Done normal } }
    ensures main_files { js_shows (objects_control_files.files) (codes "main") 100 ≡ record { lines = ((codes "c") ∷ (codes "c") ∷ (codes "c") ∷ (codes "once") ∷ (codes "two") ∷ (codes "x") ∷ (codes "6") ∷ []); end = Done normal } }
{}

/// The recorded folder `link-r7/divisions`: what its classes show, and what its files show.
pub fn objects_divisions()
    ensures main_within_0 { ir_shows (objects_divisions_classes.classes) (objects_divisions_classes.entries) (codes "main") 0 ≡ record { lines = []; end = Going } }
    ensures main_within_1 { ir_shows (objects_divisions_classes.classes) (objects_divisions_classes.entries) (codes "main") 1 ≡ record { lines = []; end = Going } }
    ensures main_within_2 { ir_shows (objects_divisions_classes.classes) (objects_divisions_classes.entries) (codes "main") 2 ≡ record { lines = ((codes "3") ∷ (codes "1") ∷ (codes "2") ∷ (codes "1") ∷ (codes "1") ∷ (codes "1") ∷ []); end = Done normal } }
    ensures main_within_3 { ir_shows (objects_divisions_classes.classes) (objects_divisions_classes.entries) (codes "main") 3 ≡ record { lines = ((codes "3") ∷ (codes "1") ∷ (codes "2") ∷ (codes "1") ∷ (codes "1") ∷ (codes "1") ∷ []); end = Done normal } }
    ensures main_within_5 { ir_shows (objects_divisions_classes.classes) (objects_divisions_classes.entries) (codes "main") 5 ≡ record { lines = ((codes "3") ∷ (codes "1") ∷ (codes "2") ∷ (codes "1") ∷ (codes "1") ∷ (codes "1") ∷ []); end = Done normal } }
    ensures main_within_10 { ir_shows (objects_divisions_classes.classes) (objects_divisions_classes.entries) (codes "main") 10 ≡ record { lines = ((codes "3") ∷ (codes "1") ∷ (codes "2") ∷ (codes "1") ∷ (codes "1") ∷ (codes "1") ∷ []); end = Done normal } }
    ensures main_within_50 { ir_shows (objects_divisions_classes.classes) (objects_divisions_classes.entries) (codes "main") 50 ≡ record { lines = ((codes "3") ∷ (codes "1") ∷ (codes "2") ∷ (codes "1") ∷ (codes "1") ∷ (codes "1") ∷ []); end = Done normal } }
    ensures main_within_300 { ir_shows (objects_divisions_classes.classes) (objects_divisions_classes.entries) (codes "main") 300 ≡ record { lines = ((codes "3") ∷ (codes "1") ∷ (codes "2") ∷ (codes "1") ∷ (codes "1") ∷ (codes "1") ∷ []); end = Done normal } }
    ensures main_files { js_shows (objects_divisions_files.files) (codes "main") 100 ≡ record { lines = ((codes "3") ∷ (codes "1") ∷ (codes "2") ∷ (codes "1") ∷ (codes "1") ∷ (codes "1") ∷ []); end = Done normal } }
{}

/// The recorded folder `link-r7/fields`: what its classes show, and what its files show.
pub fn objects_fields()
    ensures main_within_0 { ir_shows (objects_fields_classes.classes) (objects_fields_classes.entries) (codes "main") 0 ≡ record { lines = []; end = Going } }
    ensures main_within_1 { ir_shows (objects_fields_classes.classes) (objects_fields_classes.entries) (codes "main") 1 ≡ record { lines = []; end = Going } }
    ensures main_within_2 { ir_shows (objects_fields_classes.classes) (objects_fields_classes.entries) (codes "main") 2 ≡ record { lines = []; end = Going } }
    ensures main_within_3 { ir_shows (objects_fields_classes.classes) (objects_fields_classes.entries) (codes "main") 3 ≡ record { lines = ((codes "4") ∷ []); end = Done normal } }
    ensures main_within_5 { ir_shows (objects_fields_classes.classes) (objects_fields_classes.entries) (codes "main") 5 ≡ record { lines = ((codes "4") ∷ []); end = Done normal } }
    ensures main_within_10 { ir_shows (objects_fields_classes.classes) (objects_fields_classes.entries) (codes "main") 10 ≡ record { lines = ((codes "4") ∷ []); end = Done normal } }
    ensures main_within_50 { ir_shows (objects_fields_classes.classes) (objects_fields_classes.entries) (codes "main") 50 ≡ record { lines = ((codes "4") ∷ []); end = Done normal } }
    ensures main_within_300 { ir_shows (objects_fields_classes.classes) (objects_fields_classes.entries) (codes "main") 300 ≡ record { lines = ((codes "4") ∷ []); end = Done normal } }
    ensures main_files { js_shows (objects_fields_files.files) (codes "main") 100 ≡ record { lines = ((codes "4") ∷ []); end = Done normal } }
{}

/// The recorded folder `link-r7/identity-and-chars`: what its classes show, and what its files show.
pub fn objects_identity_and_chars()
    ensures main_within_0 { ir_shows (objects_identity_and_chars_classes.classes) (objects_identity_and_chars_classes.entries) (codes "main") 0 ≡ record { lines = []; end = Going } }
    ensures main_within_1 { ir_shows (objects_identity_and_chars_classes.classes) (objects_identity_and_chars_classes.entries) (codes "main") 1 ≡ record { lines = ((codes "true") ∷ (codes "true") ∷ (codes "false") ∷ []); end = Going } }
    ensures main_within_2 { ir_shows (objects_identity_and_chars_classes.classes) (objects_identity_and_chars_classes.entries) (codes "main") 2 ≡ record { lines = ((codes "true") ∷ (codes "true") ∷ (codes "false") ∷ (codes "true") ∷ (120 ∷ 55296 ∷ []) ∷ []); end = Done normal } }
    ensures main_within_3 { ir_shows (objects_identity_and_chars_classes.classes) (objects_identity_and_chars_classes.entries) (codes "main") 3 ≡ record { lines = ((codes "true") ∷ (codes "true") ∷ (codes "false") ∷ (codes "true") ∷ (120 ∷ 55296 ∷ []) ∷ []); end = Done normal } }
    ensures main_within_5 { ir_shows (objects_identity_and_chars_classes.classes) (objects_identity_and_chars_classes.entries) (codes "main") 5 ≡ record { lines = ((codes "true") ∷ (codes "true") ∷ (codes "false") ∷ (codes "true") ∷ (120 ∷ 55296 ∷ []) ∷ []); end = Done normal } }
    ensures main_within_10 { ir_shows (objects_identity_and_chars_classes.classes) (objects_identity_and_chars_classes.entries) (codes "main") 10 ≡ record { lines = ((codes "true") ∷ (codes "true") ∷ (codes "false") ∷ (codes "true") ∷ (120 ∷ 55296 ∷ []) ∷ []); end = Done normal } }
    ensures main_within_50 { ir_shows (objects_identity_and_chars_classes.classes) (objects_identity_and_chars_classes.entries) (codes "main") 50 ≡ record { lines = ((codes "true") ∷ (codes "true") ∷ (codes "false") ∷ (codes "true") ∷ (120 ∷ 55296 ∷ []) ∷ []); end = Done normal } }
    ensures main_within_300 { ir_shows (objects_identity_and_chars_classes.classes) (objects_identity_and_chars_classes.entries) (codes "main") 300 ≡ record { lines = ((codes "true") ∷ (codes "true") ∷ (codes "false") ∷ (codes "true") ∷ (120 ∷ 55296 ∷ []) ∷ []); end = Done normal } }
    ensures main_files { js_shows (objects_identity_and_chars_files.files) (codes "main") 100 ≡ record { lines = ((codes "true") ∷ (codes "true") ∷ (codes "false") ∷ (codes "true") ∷ (120 ∷ 55296 ∷ []) ∷ []); end = Done normal } }
{}

/// The recorded folder `link-r7/null-receivers`: what its classes show, and what its files show.
pub fn objects_null_receivers()
    ensures main_within_0 { ir_shows (objects_null_receivers_classes.classes) (objects_null_receivers_classes.entries) (codes "main") 0 ≡ record { lines = []; end = Going } }
    ensures main_within_1 { ir_shows (objects_null_receivers_classes.classes) (objects_null_receivers_classes.entries) (codes "main") 1 ≡ record { lines = ((codes "before") ∷ []); end = Going } }
    ensures main_within_2 { ir_shows (objects_null_receivers_classes.classes) (objects_null_receivers_classes.entries) (codes "main") 2 ≡ record { lines = ((codes "before") ∷ []); end = Going } }
    ensures main_within_3 { ir_shows (objects_null_receivers_classes.classes) (objects_null_receivers_classes.entries) (codes "main") 3 ≡ record { lines = ((codes "before") ∷ []); end = Going } }
    ensures main_within_5 { ir_shows (objects_null_receivers_classes.classes) (objects_null_receivers_classes.entries) (codes "main") 5 ≡ record { lines = ((codes "before") ∷ []); end = Done (uncaught (shown.object_of (codes "java.lang.NullPointerException"))) } }
    ensures main_within_10 { ir_shows (objects_null_receivers_classes.classes) (objects_null_receivers_classes.entries) (codes "main") 10 ≡ record { lines = ((codes "before") ∷ []); end = Done (uncaught (shown.object_of (codes "java.lang.NullPointerException"))) } }
    ensures main_within_50 { ir_shows (objects_null_receivers_classes.classes) (objects_null_receivers_classes.entries) (codes "main") 50 ≡ record { lines = ((codes "before") ∷ []); end = Done (uncaught (shown.object_of (codes "java.lang.NullPointerException"))) } }
    ensures main_within_300 { ir_shows (objects_null_receivers_classes.classes) (objects_null_receivers_classes.entries) (codes "main") 300 ≡ record { lines = ((codes "before") ∷ []); end = Done (uncaught (shown.object_of (codes "java.lang.NullPointerException"))) } }
    ensures main_files { js_shows (objects_null_receivers_files.files) (codes "main") 100 ≡ record { lines = ((codes "before") ∷ []); end = Done (uncaught (shown.object_of (codes "java.lang.NullPointerException"))) } }
{}

/// The recorded folder `link-r7/reflective-calls`: what its classes show, and what its files show.
pub fn objects_reflective_calls()
    ensures main_within_0 { ir_shows (objects_reflective_calls_classes.classes) (objects_reflective_calls_classes.entries) (codes "main") 0 ≡ record { lines = []; end = Going } }
    ensures main_within_1 { ir_shows (objects_reflective_calls_classes.classes) (objects_reflective_calls_classes.entries) (codes "main") 1 ≡ record { lines = []; end = Going } }
    ensures main_within_2 { ir_shows (objects_reflective_calls_classes.classes) (objects_reflective_calls_classes.entries) (codes "main") 2 ≡ record { lines = []; end = Going } }
    ensures main_within_3 { ir_shows (objects_reflective_calls_classes.classes) (objects_reflective_calls_classes.entries) (codes "main") 3 ≡ record { lines = ((codes "true") ∷ (codes "true") ∷ []); end = Going } }
    ensures main_within_5 { ir_shows (objects_reflective_calls_classes.classes) (objects_reflective_calls_classes.entries) (codes "main") 5 ≡ record { lines = ((codes "true") ∷ (codes "true") ∷ []); end = Done (uncaught (shown.object_of (codes "java.lang.NoSuchMethodException"))) } }
    ensures main_within_10 { ir_shows (objects_reflective_calls_classes.classes) (objects_reflective_calls_classes.entries) (codes "main") 10 ≡ record { lines = ((codes "true") ∷ (codes "true") ∷ []); end = Done (uncaught (shown.object_of (codes "java.lang.NoSuchMethodException"))) } }
    ensures main_within_50 { ir_shows (objects_reflective_calls_classes.classes) (objects_reflective_calls_classes.entries) (codes "main") 50 ≡ record { lines = ((codes "true") ∷ (codes "true") ∷ []); end = Done (uncaught (shown.object_of (codes "java.lang.NoSuchMethodException"))) } }
    ensures main_within_300 { ir_shows (objects_reflective_calls_classes.classes) (objects_reflective_calls_classes.entries) (codes "main") 300 ≡ record { lines = ((codes "true") ∷ (codes "true") ∷ []); end = Done (uncaught (shown.object_of (codes "java.lang.NoSuchMethodException"))) } }
    ensures main_files { js_shows (objects_reflective_calls_files.files) (codes "main") 100 ≡ record { lines = ((codes "true") ∷ (codes "true") ∷ []); end = Done (uncaught (shown.object_of (codes "java.lang.NoSuchMethodException"))) } }
{}

/// The recorded folder `link-r7/row-19`: what its classes show, and what its files show.
pub fn objects_row_19()
    ensures main_within_0 { ir_shows (objects_row_19_classes.classes) (objects_row_19_classes.entries) (codes "main") 0 ≡ record { lines = []; end = Going } }
    ensures main_within_1 { ir_shows (objects_row_19_classes.classes) (objects_row_19_classes.entries) (codes "main") 1 ≡ record { lines = ((codes "true") ∷ (codes "<0") ∷ (codes "<") ∷ []); end = Done normal } }
    ensures main_within_2 { ir_shows (objects_row_19_classes.classes) (objects_row_19_classes.entries) (codes "main") 2 ≡ record { lines = ((codes "true") ∷ (codes "<0") ∷ (codes "<") ∷ []); end = Done normal } }
    ensures main_within_3 { ir_shows (objects_row_19_classes.classes) (objects_row_19_classes.entries) (codes "main") 3 ≡ record { lines = ((codes "true") ∷ (codes "<0") ∷ (codes "<") ∷ []); end = Done normal } }
    ensures main_within_5 { ir_shows (objects_row_19_classes.classes) (objects_row_19_classes.entries) (codes "main") 5 ≡ record { lines = ((codes "true") ∷ (codes "<0") ∷ (codes "<") ∷ []); end = Done normal } }
    ensures main_within_10 { ir_shows (objects_row_19_classes.classes) (objects_row_19_classes.entries) (codes "main") 10 ≡ record { lines = ((codes "true") ∷ (codes "<0") ∷ (codes "<") ∷ []); end = Done normal } }
    ensures main_within_50 { ir_shows (objects_row_19_classes.classes) (objects_row_19_classes.entries) (codes "main") 50 ≡ record { lines = ((codes "true") ∷ (codes "<0") ∷ (codes "<") ∷ []); end = Done normal } }
    ensures main_within_300 { ir_shows (objects_row_19_classes.classes) (objects_row_19_classes.entries) (codes "main") 300 ≡ record { lines = ((codes "true") ∷ (codes "<0") ∷ (codes "<") ∷ []); end = Done normal } }
    ensures main_files { js_shows (objects_row_19_files.files) (codes "main") 100 ≡ record { lines = ((codes "true") ∷ (codes "<0") ∷ (codes "<") ∷ []); end = Done normal } }
{}

/// The recorded folder `link-r7/row-r7-2`: what its classes show, and what its files show.
pub fn objects_row_two()
    ensures main_within_0 { ir_shows (objects_row_two_classes.classes) (objects_row_two_classes.entries) (codes "main") 0 ≡ record { lines = []; end = Going } }
    ensures main_within_1 { ir_shows (objects_row_two_classes.classes) (objects_row_two_classes.entries) (codes "main") 1 ≡ record { lines = []; end = Going } }
    ensures main_within_2 { ir_shows (objects_row_two_classes.classes) (objects_row_two_classes.entries) (codes "main") 2 ≡ record { lines = []; end = Going } }
    ensures main_within_3 { ir_shows (objects_row_two_classes.classes) (objects_row_two_classes.entries) (codes "main") 3 ≡ record { lines = ((codes "d") ∷ []); end = Done normal } }
    ensures main_within_5 { ir_shows (objects_row_two_classes.classes) (objects_row_two_classes.entries) (codes "main") 5 ≡ record { lines = ((codes "d") ∷ []); end = Done normal } }
    ensures main_within_10 { ir_shows (objects_row_two_classes.classes) (objects_row_two_classes.entries) (codes "main") 10 ≡ record { lines = ((codes "d") ∷ []); end = Done normal } }
    ensures main_within_50 { ir_shows (objects_row_two_classes.classes) (objects_row_two_classes.entries) (codes "main") 50 ≡ record { lines = ((codes "d") ∷ []); end = Done normal } }
    ensures main_within_300 { ir_shows (objects_row_two_classes.classes) (objects_row_two_classes.entries) (codes "main") 300 ≡ record { lines = ((codes "d") ∷ []); end = Done normal } }
    ensures main_files { js_shows (objects_row_two_files.files) (codes "main") 100 ≡ record { lines = ((codes "d") ∷ []); end = Done normal } }
{}

/// The recorded folder `link-r7/row-r7-4`: what its classes show, and what its files show.
pub fn objects_row_four()
    ensures main_within_0 { ir_shows (objects_row_four_classes.classes) (objects_row_four_classes.entries) (codes "main") 0 ≡ record { lines = []; end = Going } }
    ensures main_within_1 { ir_shows (objects_row_four_classes.classes) (objects_row_four_classes.entries) (codes "main") 1 ≡ record { lines = ((codes "true") ∷ (codes "false") ∷ []); end = Done normal } }
    ensures main_within_2 { ir_shows (objects_row_four_classes.classes) (objects_row_four_classes.entries) (codes "main") 2 ≡ record { lines = ((codes "true") ∷ (codes "false") ∷ []); end = Done normal } }
    ensures main_within_3 { ir_shows (objects_row_four_classes.classes) (objects_row_four_classes.entries) (codes "main") 3 ≡ record { lines = ((codes "true") ∷ (codes "false") ∷ []); end = Done normal } }
    ensures main_within_5 { ir_shows (objects_row_four_classes.classes) (objects_row_four_classes.entries) (codes "main") 5 ≡ record { lines = ((codes "true") ∷ (codes "false") ∷ []); end = Done normal } }
    ensures main_within_10 { ir_shows (objects_row_four_classes.classes) (objects_row_four_classes.entries) (codes "main") 10 ≡ record { lines = ((codes "true") ∷ (codes "false") ∷ []); end = Done normal } }
    ensures main_within_50 { ir_shows (objects_row_four_classes.classes) (objects_row_four_classes.entries) (codes "main") 50 ≡ record { lines = ((codes "true") ∷ (codes "false") ∷ []); end = Done normal } }
    ensures main_within_300 { ir_shows (objects_row_four_classes.classes) (objects_row_four_classes.entries) (codes "main") 300 ≡ record { lines = ((codes "true") ∷ (codes "false") ∷ []); end = Done normal } }
    ensures main_files { js_shows (objects_row_four_files.files) (codes "main") 100 ≡ record { lines = ((codes "true") ∷ (codes "false") ∷ []); end = Done normal } }
{}

/// The recorded folder `link-r7/uncaught-object`: what its classes show, and what its files show.
pub fn objects_uncaught_object()
    ensures main_within_0 { ir_shows (objects_uncaught_object_classes.classes) (objects_uncaught_object_classes.entries) (codes "main") 0 ≡ record { lines = []; end = Going } }
    ensures main_within_1 { ir_shows (objects_uncaught_object_classes.classes) (objects_uncaught_object_classes.entries) (codes "main") 1 ≡ record { lines = ((codes "one") ∷ []); end = Going } }
    ensures main_within_2 { ir_shows (objects_uncaught_object_classes.classes) (objects_uncaught_object_classes.entries) (codes "main") 2 ≡ record { lines = ((codes "one") ∷ []); end = Going } }
    ensures main_within_3 { ir_shows (objects_uncaught_object_classes.classes) (objects_uncaught_object_classes.entries) (codes "main") 3 ≡ record { lines = ((codes "one") ∷ []); end = Done (uncaught (shown.object_of (codes "A"))) } }
    ensures main_within_5 { ir_shows (objects_uncaught_object_classes.classes) (objects_uncaught_object_classes.entries) (codes "main") 5 ≡ record { lines = ((codes "one") ∷ []); end = Done (uncaught (shown.object_of (codes "A"))) } }
    ensures main_within_10 { ir_shows (objects_uncaught_object_classes.classes) (objects_uncaught_object_classes.entries) (codes "main") 10 ≡ record { lines = ((codes "one") ∷ []); end = Done (uncaught (shown.object_of (codes "A"))) } }
    ensures main_within_50 { ir_shows (objects_uncaught_object_classes.classes) (objects_uncaught_object_classes.entries) (codes "main") 50 ≡ record { lines = ((codes "one") ∷ []); end = Done (uncaught (shown.object_of (codes "A"))) } }
    ensures main_within_300 { ir_shows (objects_uncaught_object_classes.classes) (objects_uncaught_object_classes.entries) (codes "main") 300 ≡ record { lines = ((codes "one") ∷ []); end = Done (uncaught (shown.object_of (codes "A"))) } }
    ensures main_files { js_shows (objects_uncaught_object_files.files) (codes "main") 100 ≡ record { lines = ((codes "one") ∷ []); end = Done (uncaught (shown.object_of (codes "A"))) } }
{}

/// The recorded folder `link-r7/superclass-that-isn't-made`: what its classes show, and what its files show.
pub fn objects_superclass_that_isn_t_made()
    ensures main_within_0 { ir_shows (objects_superclass_that_isn_t_made_classes.classes) (objects_superclass_that_isn_t_made_classes.entries) (codes "main") 0 ≡ record { lines = []; end = Going } }
    ensures main_within_1 { ir_shows (objects_superclass_that_isn_t_made_classes.classes) (objects_superclass_that_isn_t_made_classes.entries) (codes "main") 1 ≡ record { lines = []; end = Going } }
    ensures main_within_2 { ir_shows (objects_superclass_that_isn_t_made_classes.classes) (objects_superclass_that_isn_t_made_classes.entries) (codes "main") 2 ≡ record { lines = []; end = Going } }
    ensures main_within_3 { ir_shows (objects_superclass_that_isn_t_made_classes.classes) (objects_superclass_that_isn_t_made_classes.entries) (codes "main") 3 ≡ record { lines = []; end = Going } }
    ensures main_within_5 { ir_shows (objects_superclass_that_isn_t_made_classes.classes) (objects_superclass_that_isn_t_made_classes.entries) (codes "main") 5 ≡ record { lines = ((codes "B") ∷ []); end = Done normal } }
    ensures main_within_10 { ir_shows (objects_superclass_that_isn_t_made_classes.classes) (objects_superclass_that_isn_t_made_classes.entries) (codes "main") 10 ≡ record { lines = ((codes "B") ∷ []); end = Done normal } }
    ensures main_within_50 { ir_shows (objects_superclass_that_isn_t_made_classes.classes) (objects_superclass_that_isn_t_made_classes.entries) (codes "main") 50 ≡ record { lines = ((codes "B") ∷ []); end = Done normal } }
    ensures main_within_300 { ir_shows (objects_superclass_that_isn_t_made_classes.classes) (objects_superclass_that_isn_t_made_classes.entries) (codes "main") 300 ≡ record { lines = ((codes "B") ∷ []); end = Done normal } }
    ensures main_files { js_shows (objects_superclass_that_isn_t_made_files.files) (codes "main") 100 ≡ record { lines = ((codes "B") ∷ []); end = Done normal } }
{}

/// The recorded folder `link-r8/array-values-tests-and-casts`: what its classes show, and what its files show.
pub fn exceptions_array_values_tests_and_casts()
    ensures main_within_0 { ir_shows (exceptions_array_values_tests_and_casts_classes.classes) (exceptions_array_values_tests_and_casts_classes.entries) (codes "main") 0 ≡ record { lines = []; end = Going } }
    ensures main_within_1 { ir_shows (exceptions_array_values_tests_and_casts_classes.classes) (exceptions_array_values_tests_and_casts_classes.entries) (codes "main") 1 ≡ record { lines = []; end = Going } }
    ensures main_within_2 { ir_shows (exceptions_array_values_tests_and_casts_classes.classes) (exceptions_array_values_tests_and_casts_classes.entries) (codes "main") 2 ≡ record { lines = []; end = Going } }
    ensures main_within_3 { ir_shows (exceptions_array_values_tests_and_casts_classes.classes) (exceptions_array_values_tests_and_casts_classes.entries) (codes "main") 3 ≡ record { lines = ((codes "true") ∷ (codes "false") ∷ (codes "2") ∷ (codes "true") ∷ (codes "false") ∷ []); end = Done normal } }
    ensures main_within_5 { ir_shows (exceptions_array_values_tests_and_casts_classes.classes) (exceptions_array_values_tests_and_casts_classes.entries) (codes "main") 5 ≡ record { lines = ((codes "true") ∷ (codes "false") ∷ (codes "2") ∷ (codes "true") ∷ (codes "false") ∷ []); end = Done normal } }
    ensures main_within_10 { ir_shows (exceptions_array_values_tests_and_casts_classes.classes) (exceptions_array_values_tests_and_casts_classes.entries) (codes "main") 10 ≡ record { lines = ((codes "true") ∷ (codes "false") ∷ (codes "2") ∷ (codes "true") ∷ (codes "false") ∷ []); end = Done normal } }
    ensures main_within_50 { ir_shows (exceptions_array_values_tests_and_casts_classes.classes) (exceptions_array_values_tests_and_casts_classes.entries) (codes "main") 50 ≡ record { lines = ((codes "true") ∷ (codes "false") ∷ (codes "2") ∷ (codes "true") ∷ (codes "false") ∷ []); end = Done normal } }
    ensures main_within_300 { ir_shows (exceptions_array_values_tests_and_casts_classes.classes) (exceptions_array_values_tests_and_casts_classes.entries) (codes "main") 300 ≡ record { lines = ((codes "true") ∷ (codes "false") ∷ (codes "2") ∷ (codes "true") ∷ (codes "false") ∷ []); end = Done normal } }
    ensures main_files { js_shows (exceptions_array_values_tests_and_casts_files.files) (codes "main") 100 ≡ record { lines = ((codes "true") ∷ (codes "false") ∷ (codes "2") ∷ (codes "true") ∷ (codes "false") ∷ []); end = Done normal } }
{}

/// The recorded folder `link-r8/arrays`: what its classes show, and what its files show.
pub fn exceptions_arrays()
    ensures main_within_0 { ir_shows (exceptions_arrays_classes.classes) (exceptions_arrays_classes.entries) (codes "main") 0 ≡ record { lines = []; end = Going } }
    ensures main_within_1 { ir_shows (exceptions_arrays_classes.classes) (exceptions_arrays_classes.entries) (codes "main") 1 ≡ record { lines = ((codes "1") ∷ (codes "true") ∷ (codes "1") ∷ (codes "true") ∷ (codes "1") ∷ (codes "true") ∷ (codes "1") ∷ (codes "true") ∷ (codes "1") ∷ (codes "true") ∷ (codes "1") ∷ (codes "true") ∷ (codes "1") ∷ (codes "true") ∷ []); end = Going } }
    ensures main_within_2 { ir_shows (exceptions_arrays_classes.classes) (exceptions_arrays_classes.entries) (codes "main") 2 ≡ record { lines = ((codes "1") ∷ (codes "true") ∷ (codes "1") ∷ (codes "true") ∷ (codes "1") ∷ (codes "true") ∷ (codes "1") ∷ (codes "true") ∷ (codes "1") ∷ (codes "true") ∷ (codes "1") ∷ (codes "true") ∷ (codes "1") ∷ (codes "true") ∷ []); end = Going } }
    ensures main_within_3 { ir_shows (exceptions_arrays_classes.classes) (exceptions_arrays_classes.entries) (codes "main") 3 ≡ record { lines = ((codes "1") ∷ (codes "true") ∷ (codes "1") ∷ (codes "true") ∷ (codes "1") ∷ (codes "true") ∷ (codes "1") ∷ (codes "true") ∷ (codes "1") ∷ (codes "true") ∷ (codes "1") ∷ (codes "true") ∷ (codes "1") ∷ (codes "true") ∷ (codes "1") ∷ (codes "false") ∷ (codes "1") ∷ (codes "true") ∷ (codes "1") ∷ (codes "true") ∷ []); end = Done normal } }
    ensures main_within_5 { ir_shows (exceptions_arrays_classes.classes) (exceptions_arrays_classes.entries) (codes "main") 5 ≡ record { lines = ((codes "1") ∷ (codes "true") ∷ (codes "1") ∷ (codes "true") ∷ (codes "1") ∷ (codes "true") ∷ (codes "1") ∷ (codes "true") ∷ (codes "1") ∷ (codes "true") ∷ (codes "1") ∷ (codes "true") ∷ (codes "1") ∷ (codes "true") ∷ (codes "1") ∷ (codes "false") ∷ (codes "1") ∷ (codes "true") ∷ (codes "1") ∷ (codes "true") ∷ []); end = Done normal } }
    ensures main_within_10 { ir_shows (exceptions_arrays_classes.classes) (exceptions_arrays_classes.entries) (codes "main") 10 ≡ record { lines = ((codes "1") ∷ (codes "true") ∷ (codes "1") ∷ (codes "true") ∷ (codes "1") ∷ (codes "true") ∷ (codes "1") ∷ (codes "true") ∷ (codes "1") ∷ (codes "true") ∷ (codes "1") ∷ (codes "true") ∷ (codes "1") ∷ (codes "true") ∷ (codes "1") ∷ (codes "false") ∷ (codes "1") ∷ (codes "true") ∷ (codes "1") ∷ (codes "true") ∷ []); end = Done normal } }
    ensures main_within_50 { ir_shows (exceptions_arrays_classes.classes) (exceptions_arrays_classes.entries) (codes "main") 50 ≡ record { lines = ((codes "1") ∷ (codes "true") ∷ (codes "1") ∷ (codes "true") ∷ (codes "1") ∷ (codes "true") ∷ (codes "1") ∷ (codes "true") ∷ (codes "1") ∷ (codes "true") ∷ (codes "1") ∷ (codes "true") ∷ (codes "1") ∷ (codes "true") ∷ (codes "1") ∷ (codes "false") ∷ (codes "1") ∷ (codes "true") ∷ (codes "1") ∷ (codes "true") ∷ []); end = Done normal } }
    ensures main_within_300 { ir_shows (exceptions_arrays_classes.classes) (exceptions_arrays_classes.entries) (codes "main") 300 ≡ record { lines = ((codes "1") ∷ (codes "true") ∷ (codes "1") ∷ (codes "true") ∷ (codes "1") ∷ (codes "true") ∷ (codes "1") ∷ (codes "true") ∷ (codes "1") ∷ (codes "true") ∷ (codes "1") ∷ (codes "true") ∷ (codes "1") ∷ (codes "true") ∷ (codes "1") ∷ (codes "false") ∷ (codes "1") ∷ (codes "true") ∷ (codes "1") ∷ (codes "true") ∷ []); end = Done normal } }
    ensures main_files { js_shows (exceptions_arrays_files.files) (codes "main") 100 ≡ record { lines = ((codes "1") ∷ (codes "true") ∷ (codes "1") ∷ (codes "true") ∷ (codes "1") ∷ (codes "true") ∷ (codes "1") ∷ (codes "true") ∷ (codes "1") ∷ (codes "true") ∷ (codes "1") ∷ (codes "true") ∷ (codes "1") ∷ (codes "true") ∷ (codes "1") ∷ (codes "false") ∷ (codes "1") ∷ (codes "true") ∷ (codes "1") ∷ (codes "true") ∷ []); end = Done normal } }
{}

/// The recorded folder `link-r8/exceptions`: what its classes show, and what its files show.
pub fn exceptions_thrown()
    ensures main_within_0 { ir_shows (exceptions_thrown_classes.classes) (exceptions_thrown_classes.entries) (codes "main") 0 ≡ record { lines = []; end = Going } }
    ensures main_within_1 { ir_shows (exceptions_thrown_classes.classes) (exceptions_thrown_classes.entries) (codes "main") 1 ≡ record { lines = []; end = Going } }
    ensures main_within_2 { ir_shows (exceptions_thrown_classes.classes) (exceptions_thrown_classes.entries) (codes "main") 2 ≡ record { lines = []; end = Going } }
    ensures main_within_3 { ir_shows (exceptions_thrown_classes.classes) (exceptions_thrown_classes.entries) (codes "main") 3 ≡ record { lines = []; end = Going } }
    ensures main_within_5 { ir_shows (exceptions_thrown_classes.classes) (exceptions_thrown_classes.entries) (codes "main") 5 ≡ record { lines = ((codes "null") ∷ (codes "t") ∷ (codes "in") ∷ (codes "fin") ∷ (codes "1") ∷ (codes "5") ∷ []); end = Done normal } }
    ensures main_within_10 { ir_shows (exceptions_thrown_classes.classes) (exceptions_thrown_classes.entries) (codes "main") 10 ≡ record { lines = ((codes "null") ∷ (codes "t") ∷ (codes "in") ∷ (codes "fin") ∷ (codes "1") ∷ (codes "5") ∷ []); end = Done normal } }
    ensures main_within_50 { ir_shows (exceptions_thrown_classes.classes) (exceptions_thrown_classes.entries) (codes "main") 50 ≡ record { lines = ((codes "null") ∷ (codes "t") ∷ (codes "in") ∷ (codes "fin") ∷ (codes "1") ∷ (codes "5") ∷ []); end = Done normal } }
    ensures main_within_300 { ir_shows (exceptions_thrown_classes.classes) (exceptions_thrown_classes.entries) (codes "main") 300 ≡ record { lines = ((codes "null") ∷ (codes "t") ∷ (codes "in") ∷ (codes "fin") ∷ (codes "1") ∷ (codes "5") ∷ []); end = Done normal } }
    ensures main_files { js_shows (exceptions_thrown_files.files) (codes "main") 100 ≡ record { lines = ((codes "null") ∷ (codes "t") ∷ (codes "in") ∷ (codes "fin") ∷ (codes "1") ∷ (codes "5") ∷ []); end = Done normal } }
{}

/// The recorded folder `link-r8/finalizer-jump`: what its classes show, and what its files show.
pub fn exceptions_finalizer_jump()
    ensures main_within_0 { ir_shows (exceptions_finalizer_jump_classes.classes) (exceptions_finalizer_jump_classes.entries) (codes "main") 0 ≡ record { lines = []; end = Going } }
    ensures main_within_1 { ir_shows (exceptions_finalizer_jump_classes.classes) (exceptions_finalizer_jump_classes.entries) (codes "main") 1 ≡ record { lines = ((codes "1") ∷ []); end = Done normal } }
    ensures main_within_2 { ir_shows (exceptions_finalizer_jump_classes.classes) (exceptions_finalizer_jump_classes.entries) (codes "main") 2 ≡ record { lines = ((codes "1") ∷ []); end = Done normal } }
    ensures main_within_3 { ir_shows (exceptions_finalizer_jump_classes.classes) (exceptions_finalizer_jump_classes.entries) (codes "main") 3 ≡ record { lines = ((codes "1") ∷ []); end = Done normal } }
    ensures main_within_5 { ir_shows (exceptions_finalizer_jump_classes.classes) (exceptions_finalizer_jump_classes.entries) (codes "main") 5 ≡ record { lines = ((codes "1") ∷ []); end = Done normal } }
    ensures main_within_10 { ir_shows (exceptions_finalizer_jump_classes.classes) (exceptions_finalizer_jump_classes.entries) (codes "main") 10 ≡ record { lines = ((codes "1") ∷ []); end = Done normal } }
    ensures main_within_50 { ir_shows (exceptions_finalizer_jump_classes.classes) (exceptions_finalizer_jump_classes.entries) (codes "main") 50 ≡ record { lines = ((codes "1") ∷ []); end = Done normal } }
    ensures main_within_300 { ir_shows (exceptions_finalizer_jump_classes.classes) (exceptions_finalizer_jump_classes.entries) (codes "main") 300 ≡ record { lines = ((codes "1") ∷ []); end = Done normal } }
    ensures main_files { js_shows (exceptions_finalizer_jump_files.files) (codes "main") 100 ≡ record { lines = ((codes "1") ∷ []); end = Done normal } }
{}

/// The recorded folder `link-r8/finalizer-throw`: what its classes show, and what its files show.
pub fn exceptions_finalizer_throw()
    ensures main_within_0 { ir_shows (exceptions_finalizer_throw_classes.classes) (exceptions_finalizer_throw_classes.entries) (codes "main") 0 ≡ record { lines = []; end = Going } }
    ensures main_within_1 { ir_shows (exceptions_finalizer_throw_classes.classes) (exceptions_finalizer_throw_classes.entries) (codes "main") 1 ≡ record { lines = ((codes "1") ∷ []); end = Done normal } }
    ensures main_within_2 { ir_shows (exceptions_finalizer_throw_classes.classes) (exceptions_finalizer_throw_classes.entries) (codes "main") 2 ≡ record { lines = ((codes "1") ∷ []); end = Done normal } }
    ensures main_within_3 { ir_shows (exceptions_finalizer_throw_classes.classes) (exceptions_finalizer_throw_classes.entries) (codes "main") 3 ≡ record { lines = ((codes "1") ∷ []); end = Done normal } }
    ensures main_within_5 { ir_shows (exceptions_finalizer_throw_classes.classes) (exceptions_finalizer_throw_classes.entries) (codes "main") 5 ≡ record { lines = ((codes "1") ∷ []); end = Done normal } }
    ensures main_within_10 { ir_shows (exceptions_finalizer_throw_classes.classes) (exceptions_finalizer_throw_classes.entries) (codes "main") 10 ≡ record { lines = ((codes "1") ∷ []); end = Done normal } }
    ensures main_within_50 { ir_shows (exceptions_finalizer_throw_classes.classes) (exceptions_finalizer_throw_classes.entries) (codes "main") 50 ≡ record { lines = ((codes "1") ∷ []); end = Done normal } }
    ensures main_within_300 { ir_shows (exceptions_finalizer_throw_classes.classes) (exceptions_finalizer_throw_classes.entries) (codes "main") 300 ≡ record { lines = ((codes "1") ∷ []); end = Done normal } }
    ensures main_files { js_shows (exceptions_finalizer_throw_files.files) (codes "main") 100 ≡ record { lines = ((codes "1") ∷ []); end = Done normal } }
{}

/// The recorded folder `link-r8/finalizer-value`: what its classes show, and what its files show.
pub fn exceptions_finalizer_value()
    ensures main_within_0 { ir_shows (exceptions_finalizer_value_classes.classes) (exceptions_finalizer_value_classes.entries) (codes "main") 0 ≡ record { lines = []; end = Going } }
    ensures main_within_1 { ir_shows (exceptions_finalizer_value_classes.classes) (exceptions_finalizer_value_classes.entries) (codes "main") 1 ≡ record { lines = ((codes "1") ∷ []); end = Done normal } }
    ensures main_within_2 { ir_shows (exceptions_finalizer_value_classes.classes) (exceptions_finalizer_value_classes.entries) (codes "main") 2 ≡ record { lines = ((codes "1") ∷ []); end = Done normal } }
    ensures main_within_3 { ir_shows (exceptions_finalizer_value_classes.classes) (exceptions_finalizer_value_classes.entries) (codes "main") 3 ≡ record { lines = ((codes "1") ∷ []); end = Done normal } }
    ensures main_within_5 { ir_shows (exceptions_finalizer_value_classes.classes) (exceptions_finalizer_value_classes.entries) (codes "main") 5 ≡ record { lines = ((codes "1") ∷ []); end = Done normal } }
    ensures main_within_10 { ir_shows (exceptions_finalizer_value_classes.classes) (exceptions_finalizer_value_classes.entries) (codes "main") 10 ≡ record { lines = ((codes "1") ∷ []); end = Done normal } }
    ensures main_within_50 { ir_shows (exceptions_finalizer_value_classes.classes) (exceptions_finalizer_value_classes.entries) (codes "main") 50 ≡ record { lines = ((codes "1") ∷ []); end = Done normal } }
    ensures main_within_300 { ir_shows (exceptions_finalizer_value_classes.classes) (exceptions_finalizer_value_classes.entries) (codes "main") 300 ≡ record { lines = ((codes "1") ∷ []); end = Done normal } }
    ensures main_files { js_shows (exceptions_finalizer_value_files.files) (codes "main") 100 ≡ record { lines = ((codes "1") ∷ []); end = Done normal } }
{}

/// The recorded folder `link-r8/finalizer-inlined`: what its classes show, and what its files show.
pub fn exceptions_finalizer_inlined()
    ensures main_within_0 { ir_shows (exceptions_finalizer_inlined_classes.classes) (exceptions_finalizer_inlined_classes.entries) (codes "main") 0 ≡ record { lines = []; end = Going } }
    ensures main_within_1 { ir_shows (exceptions_finalizer_inlined_classes.classes) (exceptions_finalizer_inlined_classes.entries) (codes "main") 1 ≡ record { lines = []; end = Going } }
    ensures main_within_2 { ir_shows (exceptions_finalizer_inlined_classes.classes) (exceptions_finalizer_inlined_classes.entries) (codes "main") 2 ≡ record { lines = ((codes "1") ∷ []); end = Done normal } }
    ensures main_within_3 { ir_shows (exceptions_finalizer_inlined_classes.classes) (exceptions_finalizer_inlined_classes.entries) (codes "main") 3 ≡ record { lines = ((codes "1") ∷ []); end = Done normal } }
    ensures main_within_5 { ir_shows (exceptions_finalizer_inlined_classes.classes) (exceptions_finalizer_inlined_classes.entries) (codes "main") 5 ≡ record { lines = ((codes "1") ∷ []); end = Done normal } }
    ensures main_within_10 { ir_shows (exceptions_finalizer_inlined_classes.classes) (exceptions_finalizer_inlined_classes.entries) (codes "main") 10 ≡ record { lines = ((codes "1") ∷ []); end = Done normal } }
    ensures main_within_50 { ir_shows (exceptions_finalizer_inlined_classes.classes) (exceptions_finalizer_inlined_classes.entries) (codes "main") 50 ≡ record { lines = ((codes "1") ∷ []); end = Done normal } }
    ensures main_within_300 { ir_shows (exceptions_finalizer_inlined_classes.classes) (exceptions_finalizer_inlined_classes.entries) (codes "main") 300 ≡ record { lines = ((codes "1") ∷ []); end = Done normal } }
    ensures main_files { js_shows (exceptions_finalizer_inlined_files.files) (codes "main") 100 ≡ record { lines = ((codes "1") ∷ []); end = Done normal } }
{}

/// The recorded folder `link-r8/modules`: what its classes show, and what its files show.
pub fn exceptions_modules()
    ensures main_within_0 { ir_shows (exceptions_modules_classes.classes) (exceptions_modules_classes.entries) (codes "main") 0 ≡ record { lines = []; end = Going } }
    ensures main_within_1 { ir_shows (exceptions_modules_classes.classes) (exceptions_modules_classes.entries) (codes "main") 1 ≡ record { lines = []; end = Going } }
    ensures main_within_2 { ir_shows (exceptions_modules_classes.classes) (exceptions_modules_classes.entries) (codes "main") 2 ≡ record { lines = []; end = Going } }
    ensures main_within_3 { ir_shows (exceptions_modules_classes.classes) (exceptions_modules_classes.entries) (codes "main") 3 ≡ record { lines = ((codes "made") ∷ (codes "M") ∷ []); end = Going } }
    ensures main_within_5 { ir_shows (exceptions_modules_classes.classes) (exceptions_modules_classes.entries) (codes "main") 5 ≡ record { lines = ((codes "made") ∷ (codes "M") ∷ []); end = Done (uncaught (shown.object_of (codes "java.lang.NullPointerException"))) } }
    ensures main_within_10 { ir_shows (exceptions_modules_classes.classes) (exceptions_modules_classes.entries) (codes "main") 10 ≡ record { lines = ((codes "made") ∷ (codes "M") ∷ []); end = Done (uncaught (shown.object_of (codes "java.lang.NullPointerException"))) } }
    ensures main_within_50 { ir_shows (exceptions_modules_classes.classes) (exceptions_modules_classes.entries) (codes "main") 50 ≡ record { lines = ((codes "made") ∷ (codes "M") ∷ []); end = Done (uncaught (shown.object_of (codes "java.lang.NullPointerException"))) } }
    ensures main_within_300 { ir_shows (exceptions_modules_classes.classes) (exceptions_modules_classes.entries) (codes "main") 300 ≡ record { lines = ((codes "made") ∷ (codes "M") ∷ []); end = Done (uncaught (shown.object_of (codes "java.lang.NullPointerException"))) } }
    ensures main_files { js_shows (exceptions_modules_files.files) (codes "main") 100 ≡ record { lines = ((codes "made") ∷ (codes "M") ∷ []); end = Done (uncaught (shown.object_of (codes "java.lang.NullPointerException"))) } }
{}

/// The recorded folder `link-r8/null-pointer-bounds`: what its classes show, and what its files show.
pub fn exceptions_null_pointer_bounds()
    ensures main_within_0 { ir_shows (exceptions_null_pointer_bounds_classes.classes) (exceptions_null_pointer_bounds_classes.entries) (codes "main") 0 ≡ record { lines = []; end = Going } }
    ensures main_within_1 { ir_shows (exceptions_null_pointer_bounds_classes.classes) (exceptions_null_pointer_bounds_classes.entries) (codes "main") 1 ≡ record { lines = []; end = Going } }
    ensures main_within_2 { ir_shows (exceptions_null_pointer_bounds_classes.classes) (exceptions_null_pointer_bounds_classes.entries) (codes "main") 2 ≡ record { lines = []; end = Going } }
    ensures main_within_3 { ir_shows (exceptions_null_pointer_bounds_classes.classes) (exceptions_null_pointer_bounds_classes.entries) (codes "main") 3 ≡ record { lines = []; end = Going } }
    ensures main_within_5 { ir_shows (exceptions_null_pointer_bounds_classes.classes) (exceptions_null_pointer_bounds_classes.entries) (codes "main") 5 ≡ record { lines = ((codes "done") ∷ []); end = Done normal } }
    ensures main_within_10 { ir_shows (exceptions_null_pointer_bounds_classes.classes) (exceptions_null_pointer_bounds_classes.entries) (codes "main") 10 ≡ record { lines = ((codes "done") ∷ []); end = Done normal } }
    ensures main_within_50 { ir_shows (exceptions_null_pointer_bounds_classes.classes) (exceptions_null_pointer_bounds_classes.entries) (codes "main") 50 ≡ record { lines = ((codes "done") ∷ []); end = Done normal } }
    ensures main_within_300 { ir_shows (exceptions_null_pointer_bounds_classes.classes) (exceptions_null_pointer_bounds_classes.entries) (codes "main") 300 ≡ record { lines = ((codes "done") ∷ []); end = Done normal } }
    ensures main_files { js_shows (exceptions_null_pointer_bounds_files.files) (codes "main") 100 ≡ record { lines = ((codes "done") ∷ []); end = Done normal } }
{}

/// The recorded folder `link-r8/row-13`: what its classes show, and what its files show.
pub fn exceptions_row_13()
    ensures main_within_0 { ir_shows (exceptions_row_13_classes.classes) (exceptions_row_13_classes.entries) (codes "main") 0 ≡ record { lines = []; end = Going } }
    ensures main_within_1 { ir_shows (exceptions_row_13_classes.classes) (exceptions_row_13_classes.entries) (codes "main") 1 ≡ record { lines = []; end = Going } }
    ensures main_within_2 { ir_shows (exceptions_row_13_classes.classes) (exceptions_row_13_classes.entries) (codes "main") 2 ≡ record { lines = []; end = Going } }
    ensures main_within_3 { ir_shows (exceptions_row_13_classes.classes) (exceptions_row_13_classes.entries) (codes "main") 3 ≡ record { lines = []; end = Going } }
    ensures main_within_5 { ir_shows (exceptions_row_13_classes.classes) (exceptions_row_13_classes.entries) (codes "main") 5 ≡ record { lines = ((codes "null") ∷ (codes "A") ∷ (codes "2") ∷ (codes "bad element") ∷ []); end = Done normal } }
    ensures main_within_10 { ir_shows (exceptions_row_13_classes.classes) (exceptions_row_13_classes.entries) (codes "main") 10 ≡ record { lines = ((codes "null") ∷ (codes "A") ∷ (codes "2") ∷ (codes "bad element") ∷ []); end = Done normal } }
    ensures main_within_50 { ir_shows (exceptions_row_13_classes.classes) (exceptions_row_13_classes.entries) (codes "main") 50 ≡ record { lines = ((codes "null") ∷ (codes "A") ∷ (codes "2") ∷ (codes "bad element") ∷ []); end = Done normal } }
    ensures main_within_300 { ir_shows (exceptions_row_13_classes.classes) (exceptions_row_13_classes.entries) (codes "main") 300 ≡ record { lines = ((codes "null") ∷ (codes "A") ∷ (codes "2") ∷ (codes "bad element") ∷ []); end = Done normal } }
    ensures main_files { js_shows (exceptions_row_13_files.files) (codes "main") 100 ≡ record { lines = ((codes "null") ∷ (codes "A") ∷ (codes "2") ∷ (codes "bad element") ∷ []); end = Done normal } }
{}

/// The recorded folder `link-r8/row-14`: what its classes show, and what its files show.
pub fn exceptions_row_14()
    ensures main_within_0 { ir_shows (exceptions_row_14_classes.classes) (exceptions_row_14_classes.entries) (codes "main") 0 ≡ record { lines = []; end = Going } }
    ensures main_within_1 { ir_shows (exceptions_row_14_classes.classes) (exceptions_row_14_classes.entries) (codes "main") 1 ≡ record { lines = ((codes "in") ∷ (codes "fin") ∷ (codes "out") ∷ []); end = Done normal } }
    ensures main_within_2 { ir_shows (exceptions_row_14_classes.classes) (exceptions_row_14_classes.entries) (codes "main") 2 ≡ record { lines = ((codes "in") ∷ (codes "fin") ∷ (codes "out") ∷ []); end = Done normal } }
    ensures main_within_3 { ir_shows (exceptions_row_14_classes.classes) (exceptions_row_14_classes.entries) (codes "main") 3 ≡ record { lines = ((codes "in") ∷ (codes "fin") ∷ (codes "out") ∷ []); end = Done normal } }
    ensures main_within_5 { ir_shows (exceptions_row_14_classes.classes) (exceptions_row_14_classes.entries) (codes "main") 5 ≡ record { lines = ((codes "in") ∷ (codes "fin") ∷ (codes "out") ∷ []); end = Done normal } }
    ensures main_within_10 { ir_shows (exceptions_row_14_classes.classes) (exceptions_row_14_classes.entries) (codes "main") 10 ≡ record { lines = ((codes "in") ∷ (codes "fin") ∷ (codes "out") ∷ []); end = Done normal } }
    ensures main_within_50 { ir_shows (exceptions_row_14_classes.classes) (exceptions_row_14_classes.entries) (codes "main") 50 ≡ record { lines = ((codes "in") ∷ (codes "fin") ∷ (codes "out") ∷ []); end = Done normal } }
    ensures main_within_300 { ir_shows (exceptions_row_14_classes.classes) (exceptions_row_14_classes.entries) (codes "main") 300 ≡ record { lines = ((codes "in") ∷ (codes "fin") ∷ (codes "out") ∷ []); end = Done normal } }
    ensures main_files { js_shows (exceptions_row_14_files.files) (codes "main") 100 ≡ record { lines = ((codes "in") ∷ (codes "fin") ∷ (codes "out") ∷ []); end = Done normal } }
{}

/// The recorded folder `link-r8/row-17`: what its classes show, and what its files show.
pub fn exceptions_row_17()
    ensures main_within_0 { ir_shows (exceptions_row_17_classes.classes) (exceptions_row_17_classes.entries) (codes "main") 0 ≡ record { lines = []; end = Going } }
    ensures main_within_1 { ir_shows (exceptions_row_17_classes.classes) (exceptions_row_17_classes.entries) (codes "main") 1 ≡ record { lines = []; end = Going } }
    ensures main_within_2 { ir_shows (exceptions_row_17_classes.classes) (exceptions_row_17_classes.entries) (codes "main") 2 ≡ record { lines = []; end = Going } }
    ensures main_within_3 { ir_shows (exceptions_row_17_classes.classes) (exceptions_row_17_classes.entries) (codes "main") 3 ≡ record { lines = ((codes "A") ∷ (codes "S") ∷ []); end = Going } }
    ensures main_within_5 { ir_shows (exceptions_row_17_classes.classes) (exceptions_row_17_classes.entries) (codes "main") 5 ≡ record { lines = ((codes "A") ∷ (codes "S") ∷ (codes "name;R") ∷ []); end = Done normal } }
    ensures main_within_10 { ir_shows (exceptions_row_17_classes.classes) (exceptions_row_17_classes.entries) (codes "main") 10 ≡ record { lines = ((codes "A") ∷ (codes "S") ∷ (codes "name;R") ∷ []); end = Done normal } }
    ensures main_within_50 { ir_shows (exceptions_row_17_classes.classes) (exceptions_row_17_classes.entries) (codes "main") 50 ≡ record { lines = ((codes "A") ∷ (codes "S") ∷ (codes "name;R") ∷ []); end = Done normal } }
    ensures main_within_300 { ir_shows (exceptions_row_17_classes.classes) (exceptions_row_17_classes.entries) (codes "main") 300 ≡ record { lines = ((codes "A") ∷ (codes "S") ∷ (codes "name;R") ∷ []); end = Done normal } }
    ensures main_files { js_shows (exceptions_row_17_files.files) (codes "main") 100 ≡ record { lines = ((codes "A") ∷ (codes "S") ∷ (codes "name;R") ∷ []); end = Done normal } }
{}

/// The recorded folder `link-r8/random-00`: what its classes show, and what its files show.
pub fn exceptions_random_00()
    ensures main_within_0 { ir_shows (exceptions_random_00_classes.classes) (exceptions_random_00_classes.entries) (codes "main") 0 ≡ record { lines = []; end = Going } }
    ensures main_within_1 { ir_shows (exceptions_random_00_classes.classes) (exceptions_random_00_classes.entries) (codes "main") 1 ≡ record { lines = ((codes "C1.1") ∷ []); end = Going } }
    ensures main_within_2 { ir_shows (exceptions_random_00_classes.classes) (exceptions_random_00_classes.entries) (codes "main") 2 ≡ record { lines = ((codes "C1.1") ∷ []); end = Going } }
    ensures main_within_3 { ir_shows (exceptions_random_00_classes.classes) (exceptions_random_00_classes.entries) (codes "main") 3 ≡ record { lines = ((codes "C1.1") ∷ []); end = Going } }
    ensures main_within_5 { ir_shows (exceptions_random_00_classes.classes) (exceptions_random_00_classes.entries) (codes "main") 5 ≡ record { lines = ((codes "C1.1") ∷ (codes "C2.v") ∷ []); end = Going } }
    ensures main_within_10 { ir_shows (exceptions_random_00_classes.classes) (exceptions_random_00_classes.entries) (codes "main") 10 ≡ record { lines = ((codes "C1.1") ∷ (codes "C2.v") ∷ (codes "M0") ∷ (codes "C2.v") ∷ (codes "C1.1") ∷ (codes "C2.v") ∷ (codes "C2.v") ∷ []); end = Done normal } }
    ensures main_within_50 { ir_shows (exceptions_random_00_classes.classes) (exceptions_random_00_classes.entries) (codes "main") 50 ≡ record { lines = ((codes "C1.1") ∷ (codes "C2.v") ∷ (codes "M0") ∷ (codes "C2.v") ∷ (codes "C1.1") ∷ (codes "C2.v") ∷ (codes "C2.v") ∷ []); end = Done normal } }
    ensures main_within_300 { ir_shows (exceptions_random_00_classes.classes) (exceptions_random_00_classes.entries) (codes "main") 300 ≡ record { lines = ((codes "C1.1") ∷ (codes "C2.v") ∷ (codes "M0") ∷ (codes "C2.v") ∷ (codes "C1.1") ∷ (codes "C2.v") ∷ (codes "C2.v") ∷ []); end = Done normal } }
    ensures main_files { js_shows (exceptions_random_00_files.files) (codes "main") 100 ≡ record { lines = ((codes "C1.1") ∷ (codes "C2.v") ∷ (codes "M0") ∷ (codes "C2.v") ∷ (codes "C1.1") ∷ (codes "C2.v") ∷ (codes "C2.v") ∷ []); end = Done normal } }
{}

/// The recorded folder `link-r8/random-01`: what its classes show, and what its files show.
pub fn exceptions_random_01()
    ensures main_within_0 { ir_shows (exceptions_random_01_classes.classes) (exceptions_random_01_classes.entries) (codes "main") 0 ≡ record { lines = []; end = Going } }
    ensures main_within_1 { ir_shows (exceptions_random_01_classes.classes) (exceptions_random_01_classes.entries) (codes "main") 1 ≡ record { lines = ((codes "C0.0") ∷ []); end = Going } }
    ensures main_within_2 { ir_shows (exceptions_random_01_classes.classes) (exceptions_random_01_classes.entries) (codes "main") 2 ≡ record { lines = ((codes "C0.0") ∷ []); end = Going } }
    ensures main_within_3 { ir_shows (exceptions_random_01_classes.classes) (exceptions_random_01_classes.entries) (codes "main") 3 ≡ record { lines = ((codes "C0.0") ∷ []); end = Going } }
    ensures main_within_5 { ir_shows (exceptions_random_01_classes.classes) (exceptions_random_01_classes.entries) (codes "main") 5 ≡ record { lines = ((codes "C0.0") ∷ (codes "object") ∷ (codes "object") ∷ (codes "C0.0") ∷ (codes "object") ∷ (codes "object") ∷ (codes "C2.1") ∷ (codes "C0.v") ∷ (codes "object") ∷ (codes "object") ∷ []); end = Done normal } }
    ensures main_within_10 { ir_shows (exceptions_random_01_classes.classes) (exceptions_random_01_classes.entries) (codes "main") 10 ≡ record { lines = ((codes "C0.0") ∷ (codes "object") ∷ (codes "object") ∷ (codes "C0.0") ∷ (codes "object") ∷ (codes "object") ∷ (codes "C2.1") ∷ (codes "C0.v") ∷ (codes "object") ∷ (codes "object") ∷ []); end = Done normal } }
    ensures main_within_50 { ir_shows (exceptions_random_01_classes.classes) (exceptions_random_01_classes.entries) (codes "main") 50 ≡ record { lines = ((codes "C0.0") ∷ (codes "object") ∷ (codes "object") ∷ (codes "C0.0") ∷ (codes "object") ∷ (codes "object") ∷ (codes "C2.1") ∷ (codes "C0.v") ∷ (codes "object") ∷ (codes "object") ∷ []); end = Done normal } }
    ensures main_within_300 { ir_shows (exceptions_random_01_classes.classes) (exceptions_random_01_classes.entries) (codes "main") 300 ≡ record { lines = ((codes "C0.0") ∷ (codes "object") ∷ (codes "object") ∷ (codes "C0.0") ∷ (codes "object") ∷ (codes "object") ∷ (codes "C2.1") ∷ (codes "C0.v") ∷ (codes "object") ∷ (codes "object") ∷ []); end = Done normal } }
    ensures main_files { js_shows (exceptions_random_01_files.files) (codes "main") 100 ≡ record { lines = ((codes "C0.0") ∷ (codes "object") ∷ (codes "object") ∷ (codes "C0.0") ∷ (codes "object") ∷ (codes "object") ∷ (codes "C2.1") ∷ (codes "C0.v") ∷ (codes "object") ∷ (codes "object") ∷ []); end = Done normal } }
{}

/// The recorded folder `link-r9/row-16-first`: what its classes show, and what its files show.
pub fn splits_row_16_first()
    ensures hello_within_0 { ir_shows (splits_row_16_first_classes.classes) (splits_row_16_first_classes.entries) (codes "hello") 0 ≡ record { lines = []; end = Going } }
    ensures hello_within_1 { ir_shows (splits_row_16_first_classes.classes) (splits_row_16_first_classes.entries) (codes "hello") 1 ≡ record { lines = []; end = Going } }
    ensures hello_within_2 { ir_shows (splits_row_16_first_classes.classes) (splits_row_16_first_classes.entries) (codes "hello") 2 ≡ record { lines = ((codes "hi") ∷ []); end = Done normal } }
    ensures hello_within_3 { ir_shows (splits_row_16_first_classes.classes) (splits_row_16_first_classes.entries) (codes "hello") 3 ≡ record { lines = ((codes "hi") ∷ []); end = Done normal } }
    ensures hello_within_5 { ir_shows (splits_row_16_first_classes.classes) (splits_row_16_first_classes.entries) (codes "hello") 5 ≡ record { lines = ((codes "hi") ∷ []); end = Done normal } }
    ensures hello_within_10 { ir_shows (splits_row_16_first_classes.classes) (splits_row_16_first_classes.entries) (codes "hello") 10 ≡ record { lines = ((codes "hi") ∷ []); end = Done normal } }
    ensures hello_within_50 { ir_shows (splits_row_16_first_classes.classes) (splits_row_16_first_classes.entries) (codes "hello") 50 ≡ record { lines = ((codes "hi") ∷ []); end = Done normal } }
    ensures hello_within_300 { ir_shows (splits_row_16_first_classes.classes) (splits_row_16_first_classes.entries) (codes "hello") 300 ≡ record { lines = ((codes "hi") ∷ []); end = Done normal } }
    ensures hello_files { js_shows (splits_row_16_first_files.files) (codes "hello") 100 ≡ record { lines = ((codes "hi") ∷ []); end = Done normal } }
    ensures world_within_0 { ir_shows (splits_row_16_first_classes.classes) (splits_row_16_first_classes.entries) (codes "world") 0 ≡ record { lines = []; end = Going } }
    ensures world_within_1 { ir_shows (splits_row_16_first_classes.classes) (splits_row_16_first_classes.entries) (codes "world") 1 ≡ record { lines = []; end = Going } }
    ensures world_within_2 { ir_shows (splits_row_16_first_classes.classes) (splits_row_16_first_classes.entries) (codes "world") 2 ≡ record { lines = ((codes "hi") ∷ []); end = Done normal } }
    ensures world_within_3 { ir_shows (splits_row_16_first_classes.classes) (splits_row_16_first_classes.entries) (codes "world") 3 ≡ record { lines = ((codes "hi") ∷ []); end = Done normal } }
    ensures world_within_5 { ir_shows (splits_row_16_first_classes.classes) (splits_row_16_first_classes.entries) (codes "world") 5 ≡ record { lines = ((codes "hi") ∷ []); end = Done normal } }
    ensures world_within_10 { ir_shows (splits_row_16_first_classes.classes) (splits_row_16_first_classes.entries) (codes "world") 10 ≡ record { lines = ((codes "hi") ∷ []); end = Done normal } }
    ensures world_within_50 { ir_shows (splits_row_16_first_classes.classes) (splits_row_16_first_classes.entries) (codes "world") 50 ≡ record { lines = ((codes "hi") ∷ []); end = Done normal } }
    ensures world_within_300 { ir_shows (splits_row_16_first_classes.classes) (splits_row_16_first_classes.entries) (codes "world") 300 ≡ record { lines = ((codes "hi") ∷ []); end = Done normal } }
    ensures world_files { js_shows (splits_row_16_first_files.files) (codes "world") 100 ≡ record { lines = ((codes "hi") ∷ []); end = Done normal } }
{}

/// The recorded folder `link-r9/row-16-first-smallest`: what its classes show, and what its files show.
pub fn splits_row_16_first_smallest()
    ensures hello_within_0 { ir_shows (splits_row_16_first_smallest_classes.classes) (splits_row_16_first_smallest_classes.entries) (codes "hello") 0 ≡ record { lines = []; end = Going } }
    ensures hello_within_1 { ir_shows (splits_row_16_first_smallest_classes.classes) (splits_row_16_first_smallest_classes.entries) (codes "hello") 1 ≡ record { lines = []; end = Going } }
    ensures hello_within_2 { ir_shows (splits_row_16_first_smallest_classes.classes) (splits_row_16_first_smallest_classes.entries) (codes "hello") 2 ≡ record { lines = ((codes "hi") ∷ []); end = Done normal } }
    ensures hello_within_3 { ir_shows (splits_row_16_first_smallest_classes.classes) (splits_row_16_first_smallest_classes.entries) (codes "hello") 3 ≡ record { lines = ((codes "hi") ∷ []); end = Done normal } }
    ensures hello_within_5 { ir_shows (splits_row_16_first_smallest_classes.classes) (splits_row_16_first_smallest_classes.entries) (codes "hello") 5 ≡ record { lines = ((codes "hi") ∷ []); end = Done normal } }
    ensures hello_within_10 { ir_shows (splits_row_16_first_smallest_classes.classes) (splits_row_16_first_smallest_classes.entries) (codes "hello") 10 ≡ record { lines = ((codes "hi") ∷ []); end = Done normal } }
    ensures hello_within_50 { ir_shows (splits_row_16_first_smallest_classes.classes) (splits_row_16_first_smallest_classes.entries) (codes "hello") 50 ≡ record { lines = ((codes "hi") ∷ []); end = Done normal } }
    ensures hello_within_300 { ir_shows (splits_row_16_first_smallest_classes.classes) (splits_row_16_first_smallest_classes.entries) (codes "hello") 300 ≡ record { lines = ((codes "hi") ∷ []); end = Done normal } }
    ensures hello_files { js_shows (splits_row_16_first_smallest_files.files) (codes "hello") 100 ≡ record { lines = ((codes "hi") ∷ []); end = Done normal } }
    ensures world_within_0 { ir_shows (splits_row_16_first_smallest_classes.classes) (splits_row_16_first_smallest_classes.entries) (codes "world") 0 ≡ record { lines = []; end = Going } }
    ensures world_within_1 { ir_shows (splits_row_16_first_smallest_classes.classes) (splits_row_16_first_smallest_classes.entries) (codes "world") 1 ≡ record { lines = []; end = Going } }
    ensures world_within_2 { ir_shows (splits_row_16_first_smallest_classes.classes) (splits_row_16_first_smallest_classes.entries) (codes "world") 2 ≡ record { lines = ((codes "hi") ∷ []); end = Done normal } }
    ensures world_within_3 { ir_shows (splits_row_16_first_smallest_classes.classes) (splits_row_16_first_smallest_classes.entries) (codes "world") 3 ≡ record { lines = ((codes "hi") ∷ []); end = Done normal } }
    ensures world_within_5 { ir_shows (splits_row_16_first_smallest_classes.classes) (splits_row_16_first_smallest_classes.entries) (codes "world") 5 ≡ record { lines = ((codes "hi") ∷ []); end = Done normal } }
    ensures world_within_10 { ir_shows (splits_row_16_first_smallest_classes.classes) (splits_row_16_first_smallest_classes.entries) (codes "world") 10 ≡ record { lines = ((codes "hi") ∷ []); end = Done normal } }
    ensures world_within_50 { ir_shows (splits_row_16_first_smallest_classes.classes) (splits_row_16_first_smallest_classes.entries) (codes "world") 50 ≡ record { lines = ((codes "hi") ∷ []); end = Done normal } }
    ensures world_within_300 { ir_shows (splits_row_16_first_smallest_classes.classes) (splits_row_16_first_smallest_classes.entries) (codes "world") 300 ≡ record { lines = ((codes "hi") ∷ []); end = Done normal } }
    ensures world_files { js_shows (splits_row_16_first_smallest_files.files) (codes "world") 100 ≡ record { lines = ((codes "hi") ∷ []); end = Done normal } }
{}

/// The recorded folder `link-r9/row-19-smallest`: what its classes show, and what its files show.
pub fn splits_row_19_smallest()
    ensures main_within_0 { ir_shows (splits_row_19_smallest_classes.classes) (splits_row_19_smallest_classes.entries) (codes "main") 0 ≡ record { lines = []; end = Going } }
    ensures main_within_1 { ir_shows (splits_row_19_smallest_classes.classes) (splits_row_19_smallest_classes.entries) (codes "main") 1 ≡ record { lines = ((codes "true") ∷ (codes "<0") ∷ (codes "<") ∷ []); end = Done normal } }
    ensures main_within_2 { ir_shows (splits_row_19_smallest_classes.classes) (splits_row_19_smallest_classes.entries) (codes "main") 2 ≡ record { lines = ((codes "true") ∷ (codes "<0") ∷ (codes "<") ∷ []); end = Done normal } }
    ensures main_within_3 { ir_shows (splits_row_19_smallest_classes.classes) (splits_row_19_smallest_classes.entries) (codes "main") 3 ≡ record { lines = ((codes "true") ∷ (codes "<0") ∷ (codes "<") ∷ []); end = Done normal } }
    ensures main_within_5 { ir_shows (splits_row_19_smallest_classes.classes) (splits_row_19_smallest_classes.entries) (codes "main") 5 ≡ record { lines = ((codes "true") ∷ (codes "<0") ∷ (codes "<") ∷ []); end = Done normal } }
    ensures main_within_10 { ir_shows (splits_row_19_smallest_classes.classes) (splits_row_19_smallest_classes.entries) (codes "main") 10 ≡ record { lines = ((codes "true") ∷ (codes "<0") ∷ (codes "<") ∷ []); end = Done normal } }
    ensures main_within_50 { ir_shows (splits_row_19_smallest_classes.classes) (splits_row_19_smallest_classes.entries) (codes "main") 50 ≡ record { lines = ((codes "true") ∷ (codes "<0") ∷ (codes "<") ∷ []); end = Done normal } }
    ensures main_within_300 { ir_shows (splits_row_19_smallest_classes.classes) (splits_row_19_smallest_classes.entries) (codes "main") 300 ≡ record { lines = ((codes "true") ∷ (codes "<0") ∷ (codes "<") ∷ []); end = Done normal } }
    ensures main_files { js_shows (splits_row_19_smallest_files.files) (codes "main") 100 ≡ record { lines = ((codes "true") ∷ (codes "<0") ∷ (codes "<") ∷ []); end = Done normal } }
{}

/// The recorded folder `link-r9/modules-smallest`: what its classes show, and what its files show.
pub fn splits_modules_smallest()
    ensures main_within_0 { ir_shows (splits_modules_smallest_classes.classes) (splits_modules_smallest_classes.entries) (codes "main") 0 ≡ record { lines = []; end = Going } }
    ensures main_within_1 { ir_shows (splits_modules_smallest_classes.classes) (splits_modules_smallest_classes.entries) (codes "main") 1 ≡ record { lines = []; end = Going } }
    ensures main_within_2 { ir_shows (splits_modules_smallest_classes.classes) (splits_modules_smallest_classes.entries) (codes "main") 2 ≡ record { lines = []; end = Going } }
    ensures main_within_3 { ir_shows (splits_modules_smallest_classes.classes) (splits_modules_smallest_classes.entries) (codes "main") 3 ≡ record { lines = ((codes "made") ∷ (codes "M") ∷ []); end = Going } }
    ensures main_within_5 { ir_shows (splits_modules_smallest_classes.classes) (splits_modules_smallest_classes.entries) (codes "main") 5 ≡ record { lines = ((codes "made") ∷ (codes "M") ∷ []); end = Done (uncaught (shown.object_of (codes "java.lang.NullPointerException"))) } }
    ensures main_within_10 { ir_shows (splits_modules_smallest_classes.classes) (splits_modules_smallest_classes.entries) (codes "main") 10 ≡ record { lines = ((codes "made") ∷ (codes "M") ∷ []); end = Done (uncaught (shown.object_of (codes "java.lang.NullPointerException"))) } }
    ensures main_within_50 { ir_shows (splits_modules_smallest_classes.classes) (splits_modules_smallest_classes.entries) (codes "main") 50 ≡ record { lines = ((codes "made") ∷ (codes "M") ∷ []); end = Done (uncaught (shown.object_of (codes "java.lang.NullPointerException"))) } }
    ensures main_within_300 { ir_shows (splits_modules_smallest_classes.classes) (splits_modules_smallest_classes.entries) (codes "main") 300 ≡ record { lines = ((codes "made") ∷ (codes "M") ∷ []); end = Done (uncaught (shown.object_of (codes "java.lang.NullPointerException"))) } }
    ensures main_files { js_shows (splits_modules_smallest_files.files) (codes "main") 100 ≡ record { lines = ((codes "made") ∷ (codes "M") ∷ []); end = Done (uncaught (shown.object_of (codes "java.lang.NullPointerException"))) } }
{}

/// The recorded folder `link-r9/superclass-elsewhere-smallest`: what its classes show, and what its files show.
pub fn splits_superclass_elsewhere_smallest()
    ensures a_within_0 { ir_shows (splits_superclass_elsewhere_smallest_classes.classes) (splits_superclass_elsewhere_smallest_classes.entries) (codes "a") 0 ≡ record { lines = []; end = Going } }
    ensures a_within_1 { ir_shows (splits_superclass_elsewhere_smallest_classes.classes) (splits_superclass_elsewhere_smallest_classes.entries) (codes "a") 1 ≡ record { lines = []; end = Going } }
    ensures a_within_2 { ir_shows (splits_superclass_elsewhere_smallest_classes.classes) (splits_superclass_elsewhere_smallest_classes.entries) (codes "a") 2 ≡ record { lines = []; end = Going } }
    ensures a_within_3 { ir_shows (splits_superclass_elsewhere_smallest_classes.classes) (splits_superclass_elsewhere_smallest_classes.entries) (codes "a") 3 ≡ record { lines = []; end = Going } }
    ensures a_within_5 { ir_shows (splits_superclass_elsewhere_smallest_classes.classes) (splits_superclass_elsewhere_smallest_classes.entries) (codes "a") 5 ≡ record { lines = ((codes "B") ∷ []); end = Done normal } }
    ensures a_within_10 { ir_shows (splits_superclass_elsewhere_smallest_classes.classes) (splits_superclass_elsewhere_smallest_classes.entries) (codes "a") 10 ≡ record { lines = ((codes "B") ∷ []); end = Done normal } }
    ensures a_within_50 { ir_shows (splits_superclass_elsewhere_smallest_classes.classes) (splits_superclass_elsewhere_smallest_classes.entries) (codes "a") 50 ≡ record { lines = ((codes "B") ∷ []); end = Done normal } }
    ensures a_within_300 { ir_shows (splits_superclass_elsewhere_smallest_classes.classes) (splits_superclass_elsewhere_smallest_classes.entries) (codes "a") 300 ≡ record { lines = ((codes "B") ∷ []); end = Done normal } }
    ensures a_files { js_shows (splits_superclass_elsewhere_smallest_files.files) (codes "a") 100 ≡ record { lines = ((codes "B") ∷ []); end = Done normal } }
    ensures a_b_within_0 { ir_shows (splits_superclass_elsewhere_smallest_classes.classes) (splits_superclass_elsewhere_smallest_classes.entries) (codes "a-b") 0 ≡ record { lines = []; end = Going } }
    ensures a_b_within_1 { ir_shows (splits_superclass_elsewhere_smallest_classes.classes) (splits_superclass_elsewhere_smallest_classes.entries) (codes "a-b") 1 ≡ record { lines = []; end = Going } }
    ensures a_b_within_2 { ir_shows (splits_superclass_elsewhere_smallest_classes.classes) (splits_superclass_elsewhere_smallest_classes.entries) (codes "a-b") 2 ≡ record { lines = []; end = Going } }
    ensures a_b_within_3 { ir_shows (splits_superclass_elsewhere_smallest_classes.classes) (splits_superclass_elsewhere_smallest_classes.entries) (codes "a-b") 3 ≡ record { lines = ((codes "B") ∷ (codes "hi") ∷ []); end = Done normal } }
    ensures a_b_within_5 { ir_shows (splits_superclass_elsewhere_smallest_classes.classes) (splits_superclass_elsewhere_smallest_classes.entries) (codes "a-b") 5 ≡ record { lines = ((codes "B") ∷ (codes "hi") ∷ []); end = Done normal } }
    ensures a_b_within_10 { ir_shows (splits_superclass_elsewhere_smallest_classes.classes) (splits_superclass_elsewhere_smallest_classes.entries) (codes "a-b") 10 ≡ record { lines = ((codes "B") ∷ (codes "hi") ∷ []); end = Done normal } }
    ensures a_b_within_50 { ir_shows (splits_superclass_elsewhere_smallest_classes.classes) (splits_superclass_elsewhere_smallest_classes.entries) (codes "a-b") 50 ≡ record { lines = ((codes "B") ∷ (codes "hi") ∷ []); end = Done normal } }
    ensures a_b_within_300 { ir_shows (splits_superclass_elsewhere_smallest_classes.classes) (splits_superclass_elsewhere_smallest_classes.entries) (codes "a-b") 300 ≡ record { lines = ((codes "B") ∷ (codes "hi") ∷ []); end = Done normal } }
    ensures a_b_files { js_shows (splits_superclass_elsewhere_smallest_files.files) (codes "a-b") 100 ≡ record { lines = ((codes "B") ∷ (codes "hi") ∷ []); end = Done normal } }
    ensures a0_within_0 { ir_shows (splits_superclass_elsewhere_smallest_classes.classes) (splits_superclass_elsewhere_smallest_classes.entries) (codes "a0") 0 ≡ record { lines = []; end = Going } }
    ensures a0_within_1 { ir_shows (splits_superclass_elsewhere_smallest_classes.classes) (splits_superclass_elsewhere_smallest_classes.entries) (codes "a0") 1 ≡ record { lines = []; end = Going } }
    ensures a0_within_2 { ir_shows (splits_superclass_elsewhere_smallest_classes.classes) (splits_superclass_elsewhere_smallest_classes.entries) (codes "a0") 2 ≡ record { lines = []; end = Going } }
    ensures a0_within_3 { ir_shows (splits_superclass_elsewhere_smallest_classes.classes) (splits_superclass_elsewhere_smallest_classes.entries) (codes "a0") 3 ≡ record { lines = []; end = Going } }
    ensures a0_within_5 { ir_shows (splits_superclass_elsewhere_smallest_classes.classes) (splits_superclass_elsewhere_smallest_classes.entries) (codes "a0") 5 ≡ record { lines = ((codes "B") ∷ []); end = Done normal } }
    ensures a0_within_10 { ir_shows (splits_superclass_elsewhere_smallest_classes.classes) (splits_superclass_elsewhere_smallest_classes.entries) (codes "a0") 10 ≡ record { lines = ((codes "B") ∷ []); end = Done normal } }
    ensures a0_within_50 { ir_shows (splits_superclass_elsewhere_smallest_classes.classes) (splits_superclass_elsewhere_smallest_classes.entries) (codes "a0") 50 ≡ record { lines = ((codes "B") ∷ []); end = Done normal } }
    ensures a0_within_300 { ir_shows (splits_superclass_elsewhere_smallest_classes.classes) (splits_superclass_elsewhere_smallest_classes.entries) (codes "a0") 300 ≡ record { lines = ((codes "B") ∷ []); end = Done normal } }
    ensures a0_files { js_shows (splits_superclass_elsewhere_smallest_files.files) (codes "a0") 100 ≡ record { lines = ((codes "B") ∷ []); end = Done normal } }
{}

/// The recorded folder `link-r9/two-entries-fewest`: what its classes show, and what its files show.
pub fn splits_two_entries_fewest()
    ensures hello_within_0 { ir_shows (splits_two_entries_fewest_classes.classes) (splits_two_entries_fewest_classes.entries) (codes "hello") 0 ≡ record { lines = []; end = Going } }
    ensures hello_within_1 { ir_shows (splits_two_entries_fewest_classes.classes) (splits_two_entries_fewest_classes.entries) (codes "hello") 1 ≡ record { lines = []; end = Going } }
    ensures hello_within_2 { ir_shows (splits_two_entries_fewest_classes.classes) (splits_two_entries_fewest_classes.entries) (codes "hello") 2 ≡ record { lines = ((codes "hi") ∷ []); end = Going } }
    ensures hello_within_3 { ir_shows (splits_two_entries_fewest_classes.classes) (splits_two_entries_fewest_classes.entries) (codes "hello") 3 ≡ record { lines = ((codes "hi") ∷ (codes "hi") ∷ (codes "hi") ∷ []); end = Done normal } }
    ensures hello_within_5 { ir_shows (splits_two_entries_fewest_classes.classes) (splits_two_entries_fewest_classes.entries) (codes "hello") 5 ≡ record { lines = ((codes "hi") ∷ (codes "hi") ∷ (codes "hi") ∷ []); end = Done normal } }
    ensures hello_within_10 { ir_shows (splits_two_entries_fewest_classes.classes) (splits_two_entries_fewest_classes.entries) (codes "hello") 10 ≡ record { lines = ((codes "hi") ∷ (codes "hi") ∷ (codes "hi") ∷ []); end = Done normal } }
    ensures hello_within_50 { ir_shows (splits_two_entries_fewest_classes.classes) (splits_two_entries_fewest_classes.entries) (codes "hello") 50 ≡ record { lines = ((codes "hi") ∷ (codes "hi") ∷ (codes "hi") ∷ []); end = Done normal } }
    ensures hello_within_300 { ir_shows (splits_two_entries_fewest_classes.classes) (splits_two_entries_fewest_classes.entries) (codes "hello") 300 ≡ record { lines = ((codes "hi") ∷ (codes "hi") ∷ (codes "hi") ∷ []); end = Done normal } }
    ensures hello_files { js_shows (splits_two_entries_fewest_files.files) (codes "hello") 100 ≡ record { lines = ((codes "hi") ∷ (codes "hi") ∷ (codes "hi") ∷ []); end = Done normal } }
    ensures world_within_0 { ir_shows (splits_two_entries_fewest_classes.classes) (splits_two_entries_fewest_classes.entries) (codes "world") 0 ≡ record { lines = []; end = Going } }
    ensures world_within_1 { ir_shows (splits_two_entries_fewest_classes.classes) (splits_two_entries_fewest_classes.entries) (codes "world") 1 ≡ record { lines = []; end = Going } }
    ensures world_within_2 { ir_shows (splits_two_entries_fewest_classes.classes) (splits_two_entries_fewest_classes.entries) (codes "world") 2 ≡ record { lines = []; end = Going } }
    ensures world_within_3 { ir_shows (splits_two_entries_fewest_classes.classes) (splits_two_entries_fewest_classes.entries) (codes "world") 3 ≡ record { lines = ((codes "hi") ∷ (codes "hi") ∷ []); end = Done normal } }
    ensures world_within_5 { ir_shows (splits_two_entries_fewest_classes.classes) (splits_two_entries_fewest_classes.entries) (codes "world") 5 ≡ record { lines = ((codes "hi") ∷ (codes "hi") ∷ []); end = Done normal } }
    ensures world_within_10 { ir_shows (splits_two_entries_fewest_classes.classes) (splits_two_entries_fewest_classes.entries) (codes "world") 10 ≡ record { lines = ((codes "hi") ∷ (codes "hi") ∷ []); end = Done normal } }
    ensures world_within_50 { ir_shows (splits_two_entries_fewest_classes.classes) (splits_two_entries_fewest_classes.entries) (codes "world") 50 ≡ record { lines = ((codes "hi") ∷ (codes "hi") ∷ []); end = Done normal } }
    ensures world_within_300 { ir_shows (splits_two_entries_fewest_classes.classes) (splits_two_entries_fewest_classes.entries) (codes "world") 300 ≡ record { lines = ((codes "hi") ∷ (codes "hi") ∷ []); end = Done normal } }
    ensures world_files { js_shows (splits_two_entries_fewest_files.files) (codes "world") 100 ≡ record { lines = ((codes "hi") ∷ (codes "hi") ∷ []); end = Done normal } }
{}
