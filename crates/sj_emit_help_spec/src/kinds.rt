//! The kinds of primitive values, and the helpers of the emitted code that have a fixed text.

/// A kind of primitive values. A byte and a short are ints with a range of their own.
#[derive(Clone, Copy, Debug, PartialEq, Eq)]
pub enum Kind {
    Undefined,
    Boolean,
    Char,
    Byte,
    Short,
    Int,
    Long,
    Text,
}

/// Why a helper throws.
#[derive(Clone, Copy, Debug, PartialEq, Eq)]
pub enum Failure {
    /// `$npe`: a receiver is null.
    NullReceiver,
    /// `$ae`: a division by zero.
    Division,
    /// `$cce`: a cast fails.
    Cast,
    /// `$ioe`: an index isn't in the range of an array.
    Index,
    /// `$ase`: an element is of a wrong class.
    Store,
    /// `$nse`: a length is negative.
    Size,
    /// `$nme`: a reflective call has no target.
    Method,
}

/// A helper with a fixed text.
#[derive(Clone, Copy, Debug, PartialEq, Eq)]
pub enum Helper {
    /// `$isX`: the test of a kind.
    TestOf(Kind),
    /// `$asX`: the cast to a kind.
    CastTo(Kind),
    /// `$kX`: what the running code knows of the class of a kind.
    ConstantsOf(Kind),
    /// `$nn`: a value that isn't null.
    NotNull,
    /// `$id`
    IntQuotient,
    /// `$im`
    IntRemainder,
    /// `$ld`
    LongQuotient,
    /// `$lm`
    LongRemainder,
    /// `$C`: the class of boxed characters.
    BoxedChar,
    /// `$eq`
    Equal,
    /// `$A`: the class of arrays.
    ArrayClass,
    /// `$mk`: a new array.
    MakeArray,
    /// `$ix`: the check of an index.
    CheckIndex,
    /// `$get`
    Get,
    /// `$set`: an element of a primitive type is set.
    Set,
    /// `$put`: any other element is set.
    Put,
    /// `$cov`: whether arrays of one element type are of another type.
    Covers,
    /// `$fits`: whether a value may be an element.
    Fits,
    /// `$kof`: what the running code knows of the class of a value.
    ClassOf,
    /// `$isA`: the test of an array type.
    TestOfArray,
    /// `$asA`: the cast to an array type.
    CastToArray,
    /// The helper that throws for a reason.
    Throws(Failure),
}
