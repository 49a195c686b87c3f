//! What the helpers of arrays do: objects of arrays are made, their items are read and set, and their types are told.
//!
//! `specs/` has what is asked of a program in which these functions stand. The functions here are laws: they do nothing when they run, and their clauses
//! are theorems.
#![tactic(auto)]

ghost use Rattle.std.specs.Prelude.{◌≡◌, [], ◌∷◌, ◌++◌, codes};
ghost use Rattle.array_code.specs.Arrays.{ArrayClassMakes, MakingTells, ArraysAreMade, MadeAreArrays};
ghost use Rattle.array_code.specs.ArrayTests.{ArrayTestsTell, ArrayCastsTell};
ghost use Rattle.array_code.specs.Covering.{CoversTells, CoverCases};
ghost use Rattle.array_code.specs.Fitting.{ClassesTell, DeepFitsTell, FlatFitsTell, ShortFitsGo};
ghost use Rattle.array_code.specs.Items.{ChecksTell, GetsTell, SetsTell, PutsTell, SetItemsStay};
ghost use Rattle.array_code.specs.Worked.{worked_lines, worked_index, worked_element, worked_index_first, worked_size, worked_depth, worked_cast};
ghost use Rattle.js_mean.specs.Shows.{js_shows};
ghost use Rattle.outcomes.specs.Outcome.{Done, Going};
ghost use Rattle.outcomes.specs.Shown.{uncaught, object_of};

/// The constructor of the class of arrays costs one unit more than that of the class above, and gives the object that this makes with the depth, the type of
/// the elements and the array of the items.
pub fn array_class_makes()
    ensures { ArrayClassMakes }
{}

/// The helper that makes arrays costs one unit: it makes an array that is filled and an object of the class of arrays, and on a negative length it comes to
/// what the function that throws comes to on that.
pub fn arrays_are_made()
    ensures helper { MakingTells }
    ensures whole { ArraysAreMade }
    ensures objects { MadeAreArrays }
{}

/// The check of an index costs one unit, and gives undefined on an index of the array; on any other it comes to what the function that throws comes to on
/// that.
pub fn checks_tell()
    ensures { ChecksTell }
{}

/// The helpers that read and set items cost two units: the index is checked, and then the item is given, or set. Before an item is set that may be an object,
/// it is checked that its value is null or fits, behind the check of the index.
pub fn items_are_read_and_set()
    ensures gets { GetsTell }
    ensures sets { SetsTell }
    ensures puts { PutsTell }
    ensures stay { SetItemsStay }
{}

/// The helper that tells whether arrays of one type are of another costs one unit.
pub fn covers_tells()
    ensures tells { CoversTells }
    ensures cases { CoverCases }
{}

/// The helper that gives what is known of the class of a value costs two units.
pub fn classes_tell()
    ensures { ClassesTell }
{}

/// The helper that tells whether a value may be an element of an array: one of an array of arrays is an array whose type is covered; one of an array of a
/// class has the marker of the class, and bytes and shorts are told by their ranges.
pub fn fits_tell()
    ensures deep { DeepFitsTell }
    ensures flat { FlatFitsTell }
    ensures short { ShortFitsGo }
{}

/// The test of an array type tells whether its value is an array whose type is covered. The cast gives null for null and the value where the test is true;
/// on any other value it comes to what the function that throws comes to on the name of the type.
pub fn array_types_tell()
    ensures tests { ArrayTestsTell }
    ensures casts { ArrayCastsTell }
{}

/// A program made of pieces: arrays of a class below are arrays of the class above, and arrays of another depth are none but of objects; items are set and
/// read; and at last an index, an element, a length or a cast that throws.
pub fn worked_arrays()
    ensures within_3 { js_shows worked_index (codes "main") 3 ≡ record { lines = codes "yes" ∷ codes "no" ∷ codes "yes" ∷ codes "no" ∷ codes "no" ∷ codes "no" ∷ codes "yes" ∷ []; end = Going } }
    ensures index { js_shows worked_index (codes "main") 5 ≡ record { lines = worked_lines ++ codes "2" ∷ []; end = Done (uncaught (object_of (codes "java.lang.ArrayIndexOutOfBoundsException"))) } }
    ensures element { js_shows worked_element (codes "main") 4 ≡ record { lines = worked_lines ++ codes "bad element" ∷ []; end = Done (uncaught (object_of (codes "java.lang.ArrayStoreException"))) } }
    ensures index_first { js_shows worked_index_first (codes "main") 5 ≡ record { lines = worked_lines ++ codes "2" ∷ []; end = Done (uncaught (object_of (codes "java.lang.ArrayIndexOutOfBoundsException"))) } }
    ensures size { js_shows worked_size (codes "main") 4 ≡ record { lines = worked_lines ++ codes "-1" ∷ []; end = Done (uncaught (object_of (codes "java.lang.NegativeArraySizeException"))) } }
    ensures depth { js_shows worked_depth (codes "main") 4 ≡ record { lines = worked_lines ++ codes "bad element" ∷ []; end = Done (uncaught (object_of (codes "java.lang.ArrayStoreException"))) } }
    ensures cast { js_shows worked_cast (codes "main") 4 ≡ record { lines = worked_lines ++ codes "[LB;" ∷ []; end = Done (uncaught (object_of (codes "java.lang.ClassCastException"))) } }
{}
