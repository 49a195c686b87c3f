// What the first word of a part says of it.
use js_tree::BinaryOperator;
use sj_names::Text;

/// The word that an expression begins with.
#[derive(Drop)]
pub enum Head {
    Name(Text),
    Null,
    True,
    False,
    This,
    New,
    BigInt,
    Number,
    Math,
    String,
    Console,
}

/// The word behind `new`.
#[derive(Drop)]
pub enum NewHead {
    Name(Text),
    Array,
}

/// The word behind an opening parenthesis.
#[derive(Drop)]
pub enum ParenthesisHead {
    Void,
    TypeOf,
    Expression(Head),
}

/// What stands between two expressions in parentheses.
#[derive(Clone, Copy)]
pub enum Infix {
    Operator(BinaryOperator),
    Question,
}

/// The word that a statement begins with.
#[derive(Drop)]
pub enum StatementHead {
    Const,
    Let,
    Super,
    Throw,
    Return,
    Break,
    If,
    While,
    Do,
    Try,
    Switch,
    Expression(Head),
}

/// The word that an item begins with.
#[derive(Drop)]
pub enum ItemHead {
    Const,
    Let,
    Function,
    Class,
    Expression(Head),
}

/// The word that a line of a module begins with.
#[derive(Drop)]
pub enum LineHead {
    Import,
    Export,
    Item(ItemHead),
}

/// The word that a member of a class begins with.
#[derive(Drop)]
pub enum MemberHead {
    Constructor,
    Method(Text),
}

/// Where the reader of a module stands: before its first item, behind it, behind its export line.
#[derive(Clone, Copy)]
pub enum Stage {
    Imports,
    Items,
    End,
}
