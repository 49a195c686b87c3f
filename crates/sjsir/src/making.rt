// The class file of a listing.
ghost use Rattle.std.specs.Prelude.{◌≡◌, ◌↔◌, Some, IfOk, IsTrue, Err, is_some, false};
ghost use Rattle.sj_outside.specs.Contents.{Parts, file_at};
ghost use Rattle.sjsir.specs.Making as making;
ghost use Rattle.sjsir.specs.Nesting.{is_deep};
ghost use Rattle.sjsir.specs.Output as output;
ghost use Rattle.sjsir.specs.Printing as spec;

use crate::nesting::is_deep;
use crate::reading::read_whole;
use crate::stops::Stop;
use sj_names::{Bytes, Meter, NoMemory};
use sj_outside::{Folders, without_line_feed};
use sj_read::read_class;
use sj_text::{ListingError, parse_listing};
use sj_text_print::print_listing;
use sj_trees::ReadRefusal;
use sj_write::write_class;
use std::alloc::Global;

/// What a text comes to that is to be a listing.
#[derive(Drop)]
pub enum Made {
    /// The file of its class.
    File(Bytes),
    /// It is no listing: so many of its bytes begin one, and no more.
    NoListing(u64),
    /// No class file has its class.
    NoFile,
    /// More than 600 parentheses stand one in another in it, which are more than the listing of a class file has.
    TooDeep,
}

/// What the text in the file at `path` comes to.
pub fn made_at<F: Folders>(alloc: Global, path: &str, folders: &mut F) -> Result<Made, Stop>
    ensures same { F.holds folders.new ≡ F.holds folders.old }
    ensures told { (c : Parts) → F.holds folders.old ≡ Some c → IfOk result (λ m. making.IsMadeAt c path.now m) }
    ensures read_fault { spec.HasCause (result ≡ Err Stop.ReadFault) (F.faults folders.old) (F.faults folders.new) }
    ensures no_write_fault { result ≡ Err Stop.WriteFault → ⊥ }
    ensures missing { (c : Parts) → F.holds folders.old ≡ Some c → IsTrue (is_some (file_at c path.now)) → F.missing folders.new ≡ F.missing folders.old }
{
    let bytes = match read_whole(alloc, path, folders) {
        Ok(bytes) => bytes,
        Err(stop) => return Err(stop),
    };
    match made_of(alloc, without_line_feed(bytes.as_slice())) {
        Ok(made) => Ok(made),
        Err(NoMemory) => Err(Stop::NoMemory),
    }
}

/// What this text comes to.
fn made_of(alloc: Global, text: &[u8]) -> Result<Made, NoMemory>
    ensures { IfOk result (λ m. making.IsMade text.now m) }
{
    if is_deep(text) {
        Ok(Made::TooDeep)
    } else {
        made_of_shallow(alloc, text)
    }
}

/// What a text comes to that isn't too deep.
fn made_of_shallow(alloc: Global, text: &[u8]) -> Result<Made, NoMemory>
    requires { is_deep text.now ≡ false }
    ensures { IfOk result (λ m. making.IsMade text.now m) }
{
    let class = match parse_listing(alloc, text) {
        Ok(class) => class,
        Err(error) => return no_listing(text, error),
    };
    let file = write_class(alloc, &class)?;
    if is_file_of(alloc, file.as_slice(), text)? {
        Ok(Made::File(Bytes::from_vec(file)))
    } else {
        Ok(Made::NoFile)
    }
}

/// What a text comes to that gave no class.
fn no_listing(text: &[u8], error: ListingError) -> Result<Made, NoMemory>
    requires why { making.IsWhyNot text.now error }
    requires shallow { is_deep text.now ≡ false }
    ensures { IfOk result (λ m. making.IsMade text.now m) }
{
    match error {
        ListingError::BadListing(place) => Ok(Made::NoListing(place)),
        ListingError::NoMemory => Err(NoMemory),
    }
}

/// Whether the bytes are the file of a class that the text lists.
fn is_file_of(alloc: Global, bytes: &[u8], text: &[u8]) -> Result<bool, NoMemory>
    ensures { IfOk result (λ b. IsTrue b ↔ output.IsFileOf text.now bytes.now) }
{
    let mut meter = Meter::new();
    match read_class(alloc, bytes, &mut meter) {
        Ok(class) => Ok(print_listing(alloc, &class)?.as_slice() == text),
        Err(ReadRefusal::Bad { .. }) => Ok(false),
        Err(ReadRefusal::NoMemory) => Err(NoMemory),
    }
}
