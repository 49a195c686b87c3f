// How far the text of a name has come.

/// Where the text of a name, a reference or a method name has come to.
#[derive(Clone, Copy)]
pub enum Spot {
    /// In front of the name of a field, a local or a label.
    NameStart,
    /// Behind some of its characters.
    Name,
    /// In front of a part of a class name.
    PartStart,
    /// Behind some of the characters of the part.
    Part,
    /// In front of a reference to an array.
    ArrayStart,
    /// Behind this many dimensions.
    ArrayBase(u8),
    /// Behind an array's letter.
    ArrayEnd,
    /// In front of a method name.
    MethodStart,
    /// Behind `<`, and so on to `<init`.
    Less,
    LessI,
    LessIn,
    LessIni,
    LessInit,
    /// Behind `<init>`.
    InitEnd,
    /// Behind some of the characters of a method's plain name.
    Simple,
    /// In front of a parameter or a result.
    TypeStart,
    /// Behind this many dimensions of one.
    TypeBase(u8),
    /// In front of a part of the class name of one.
    TypePartStart,
    /// Behind some of the characters of the part.
    TypePart,
    /// Behind the letter of one.
    TypeEnd,
    /// Behind what is only a result.
    Last,
}
