// The laws of the file that a class is written as.
ghost use Rattle.sj_trees.specs.declared.classes.ClassDef.{ClassDef};
ghost use Rattle.sj_write_spec.specs.Fields.{Fields};
ghost use Rattle.sj_write_spec.specs.Classes.{NamesItsFiles};
ghost use Rattle.sj_write_spec.specs.Laws.{IsOfSomeFile, IsReadBack, AreTablesOf, EntriesAreCompared};

/// What a class of some file is written as is read back as the same class, apart from the numbers of its source files; every
/// position names the same text.
pub fn written_classes_are_read_back()
    ensures { (class : ClassDef) → IsOfSomeFile class → IsReadBack class }
{}

/// The tables of what is written hold each entry that is used, once, in the order of first use.
pub fn tables_hold_each_entry_once()
    ensures tables { (fields : Fields) → AreTablesOf fields }
    ensures compared { EntriesAreCompared }
{}

/// Each position of the class of a file names one of its source files.
pub fn classes_of_files_name_their_files()
    ensures { (class : ClassDef) → IsOfSomeFile class → NamesItsFiles class }
{}
