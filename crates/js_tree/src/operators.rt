//! The operators and the fixed calls of the subset.
ghost use Rattle.std.specs.Prelude.{◌≡◌};

/// An operator between two operands (ECMA-262, sections 12.7 to 12.13 of the 2020 edition).
#[derive(Clone, Copy, Debug, PartialEq, Eq)]
pub enum BinaryOperator {
    /// `+`
    Add,
    /// `-`
    Subtract,
    /// `*`
    Multiply,
    /// `/`
    Divide,
    /// `%`
    Remainder,
    /// `&`
    BitAnd,
    /// `|`
    BitOr,
    /// `^`
    BitXor,
    /// `<<`
    ShiftLeft,
    /// `>>`
    ShiftRight,
    /// `>>>`
    ShiftRightUnsigned,
    /// `===`
    StrictEqual,
    /// `!==`
    StrictNotEqual,
    /// `<`
    Less,
    /// `<=`
    LessOrEqual,
    /// `>`
    Greater,
    /// `>=`
    GreaterOrEqual,
    /// `&&`
    And,
    /// `||`
    Or,
    /// `in`
    In,
    /// `instanceof`
    InstanceOf,
}

/// An operator before its operand.
#[derive(Clone, Copy, Debug, PartialEq, Eq)]
pub enum UnaryOperator {
    /// `!`
    Not,
    /// `typeof`
    TypeOf,
}

/// A fixed function of one argument.
#[derive(Clone, Copy, Debug, PartialEq, Eq)]
pub enum HostFunction {
    /// `BigInt(e)`
    BigInt,
    /// `Number(e)`
    Number,
    /// `String.fromCharCode(e)`
    StringFromCharCode,
    /// `console.log(e)`
    ConsoleLog,
}

/// A fixed function of two arguments.
#[derive(Clone, Copy, Debug, PartialEq, Eq)]
pub enum HostOperation {
    /// `BigInt.asIntN(e, e)`
    BigIntAsIntN,
    /// `BigInt.asUintN(e, e)`
    BigIntAsUintN,
    /// `Math.imul(e, e)`
    MathImul,
}

impl BinaryOperator {
    ghost use Rattle.js_tree.specs.Words.{binary_text};

    /// The operator as it is written.
    pub fn text(self) -> &'static str
        ensures { result.now ≡ binary_text self }
    {
        match self {
            BinaryOperator::Add => "+",
            BinaryOperator::Subtract => "-",
            BinaryOperator::Multiply => "*",
            BinaryOperator::Divide => "/",
            BinaryOperator::Remainder => "%",
            BinaryOperator::BitAnd => "&",
            BinaryOperator::BitOr => "|",
            BinaryOperator::BitXor => "^",
            BinaryOperator::ShiftLeft => "<<",
            BinaryOperator::ShiftRight => ">>",
            BinaryOperator::ShiftRightUnsigned => ">>>",
            BinaryOperator::StrictEqual => "===",
            BinaryOperator::StrictNotEqual => "!==",
            BinaryOperator::Less => "<",
            BinaryOperator::LessOrEqual => "<=",
            BinaryOperator::Greater => ">",
            BinaryOperator::GreaterOrEqual => ">=",
            BinaryOperator::And => "&&",
            BinaryOperator::Or => "||",
            BinaryOperator::In => "in",
            BinaryOperator::InstanceOf => "instanceof",
        }
    }
}

impl UnaryOperator {
    ghost use Rattle.js_tree.specs.Words.{unary_text};

    /// The operator as it is written, with the space before an operand where one is wanted.
    pub fn text(self) -> &'static str
        ensures { result.now ≡ unary_text self }
    {
        match self {
            UnaryOperator::Not => "!",
            UnaryOperator::TypeOf => "typeof ",
        }
    }
}

impl HostFunction {
    ghost use Rattle.js_tree.specs.Words.{host_text};

    /// The function as it is written.
    pub fn text(self) -> &'static str
        ensures { result.now ≡ host_text self }
    {
        match self {
            HostFunction::BigInt => "BigInt",
            HostFunction::Number => "Number",
            HostFunction::StringFromCharCode => "String.fromCharCode",
            HostFunction::ConsoleLog => "console.log",
        }
    }
}

impl HostOperation {
    ghost use Rattle.js_tree.specs.Words.{host_of_two_text};

    /// The function as it is written.
    pub fn text(self) -> &'static str
        ensures { result.now ≡ host_of_two_text self }
    {
        match self {
            HostOperation::BigIntAsIntN => "BigInt.asIntN",
            HostOperation::BigIntAsUintN => "BigInt.asUintN",
            HostOperation::MathImul => "Math.imul",
        }
    }
}
