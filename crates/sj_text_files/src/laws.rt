// The law that joins class files and listings.
ghost use Rattle.sj_text_files.specs.Listed.{EachFileIsListed, EachListedIsBare, EachListedIsMade, EachListedNamesItsFiles};

/// Each class that some bytes are the file of has a listing.
pub fn each_class_of_a_file_has_a_listing()
    ensures { EachFileIsListed }
{}

/// What is listed is a class with every position zero, one source file with the empty name, and no hash.
pub fn each_listed_class_is_bare()
    ensures { EachListedIsBare }
{}

/// Each position of a class that is listed names one of its source files.
pub fn each_listed_class_names_its_files()
    ensures { EachListedNamesItsFiles }
{}

/// A class that is listed and that some bytes are the file of is written as the file of a class with the same listing.
pub fn each_listed_class_is_made()
    ensures { EachListedIsMade }
{}
