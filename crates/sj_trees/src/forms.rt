// The forms of trees, each with the code that stands for it in a file and the word that stands for it in a listing.
ghost use Rattle.std.specs.Prelude.{◌≡◌};
ghost use Rattle.sj_trees.specs.Forms.{among, form_codes, form_code, form_of};
ghost use Rattle.sj_trees.specs.View.{view};

use crate::Tree;

/// A form of a tree.
#[derive(Clone, Copy)]
pub enum Form {
    Leaf(LeafForm),
    Statement(StatementForm),
    Branch(BranchForm),
    Call(CallForm),
    Operation(OperationForm),
}

/// A form without trees in it.
#[derive(Clone, Copy)]
pub enum LeafForm {
    Skip,
    LoadModule,
    SelectStatic,
    Undefined,
    Null,
    BooleanLiteral,
    CharLiteral,
    ByteLiteral,
    ShortLiteral,
    IntLiteral,
    LongLiteral,
    StringLiteral,
    VarRef,
    This,
}

/// A form that sets, leaves, throws or writes, or holds statements in a row.
#[derive(Clone, Copy)]
pub enum StatementForm {
    VarDef,
    Block,
    Labeled,
    Assign,
    Return,
    Throw,
    StoreModule,
    Log,
}

/// A form that chooses, repeats or catches.
#[derive(Clone, Copy)]
pub enum BranchForm {
    If,
    While,
    DoWhile,
    TryCatch,
    TryFinally,
    Match,
}

/// A form that calls a method or reads a field of an object.
#[derive(Clone, Copy)]
pub enum CallForm {
    New,
    Select,
    Apply,
    ApplyStatically,
    ApplyStatic,
}

/// A form of an operator, an array or a type test.
#[derive(Clone, Copy)]
pub enum OperationForm {
    UnaryOp,
    BinaryOp,
    NewArray,
    ArrayValue,
    ArrayLength,
    ArraySelect,
    IsInstanceOf,
    AsInstanceOf,
}

/// The forms by their words in listings.
pub const FORM_WORDS: [(&str, Form); 41] = [
    ("VarDef", Form::Statement(StatementForm::VarDef)),
    ("Skip", Form::Leaf(LeafForm::Skip)),
    ("Block", Form::Statement(StatementForm::Block)),
    ("Labeled", Form::Statement(StatementForm::Labeled)),
    ("Assign", Form::Statement(StatementForm::Assign)),
    ("Return", Form::Statement(StatementForm::Return)),
    ("If", Form::Branch(BranchForm::If)),
    ("While", Form::Branch(BranchForm::While)),
    ("DoWhile", Form::Branch(BranchForm::DoWhile)),
    ("TryCatch", Form::Branch(BranchForm::TryCatch)),
    ("TryFinally", Form::Branch(BranchForm::TryFinally)),
    ("Throw", Form::Statement(StatementForm::Throw)),
    ("Match", Form::Branch(BranchForm::Match)),
    ("New", Form::Call(CallForm::New)),
    ("LoadModule", Form::Leaf(LeafForm::LoadModule)),
    ("StoreModule", Form::Statement(StatementForm::StoreModule)),
    ("Select", Form::Call(CallForm::Select)),
    ("SelectStatic", Form::Leaf(LeafForm::SelectStatic)),
    ("Apply", Form::Call(CallForm::Apply)),
    ("ApplyStatically", Form::Call(CallForm::ApplyStatically)),
    ("ApplyStatic", Form::Call(CallForm::ApplyStatic)),
    ("UnaryOp", Form::Operation(OperationForm::UnaryOp)),
    ("BinaryOp", Form::Operation(OperationForm::BinaryOp)),
    ("NewArray", Form::Operation(OperationForm::NewArray)),
    ("ArrayValue", Form::Operation(OperationForm::ArrayValue)),
    ("ArrayLength", Form::Operation(OperationForm::ArrayLength)),
    ("ArraySelect", Form::Operation(OperationForm::ArraySelect)),
    ("IsInstanceOf", Form::Operation(OperationForm::IsInstanceOf)),
    ("AsInstanceOf", Form::Operation(OperationForm::AsInstanceOf)),
    ("Undefined", Form::Leaf(LeafForm::Undefined)),
    ("Null", Form::Leaf(LeafForm::Null)),
    ("BooleanLiteral", Form::Leaf(LeafForm::BooleanLiteral)),
    ("CharLiteral", Form::Leaf(LeafForm::CharLiteral)),
    ("ByteLiteral", Form::Leaf(LeafForm::ByteLiteral)),
    ("ShortLiteral", Form::Leaf(LeafForm::ShortLiteral)),
    ("IntLiteral", Form::Leaf(LeafForm::IntLiteral)),
    ("LongLiteral", Form::Leaf(LeafForm::LongLiteral)),
    ("StringLiteral", Form::Leaf(LeafForm::StringLiteral)),
    ("VarRef", Form::Leaf(LeafForm::VarRef)),
    ("This", Form::Leaf(LeafForm::This)),
    ("Log", Form::Statement(StatementForm::Log)),
];

impl Form {
    /// The form with this code; None where it has none.
    pub fn from_code(code: u8) -> Option<Form>
        ensures { result ≡ among form_codes code }
    {
        match code {
            1 => Some(Form::Statement(StatementForm::VarDef)),
            2 => Some(Form::Leaf(LeafForm::Skip)),
            3 => Some(Form::Statement(StatementForm::Block)),
            4 => Some(Form::Statement(StatementForm::Labeled)),
            5 => Some(Form::Statement(StatementForm::Assign)),
            6 => Some(Form::Statement(StatementForm::Return)),
            7 => Some(Form::Branch(BranchForm::If)),
            8 => Some(Form::Branch(BranchForm::While)),
            9 => Some(Form::Branch(BranchForm::DoWhile)),
            10 => Some(Form::Branch(BranchForm::TryCatch)),
            11 => Some(Form::Branch(BranchForm::TryFinally)),
            12 => Some(Form::Statement(StatementForm::Throw)),
            13 => Some(Form::Branch(BranchForm::Match)),
            14 => Some(Form::Call(CallForm::New)),
            15 => Some(Form::Leaf(LeafForm::LoadModule)),
            16 => Some(Form::Statement(StatementForm::StoreModule)),
            17 => Some(Form::Call(CallForm::Select)),
            18 => Some(Form::Leaf(LeafForm::SelectStatic)),
            19 => Some(Form::Call(CallForm::Apply)),
            20 => Some(Form::Call(CallForm::ApplyStatically)),
            21 => Some(Form::Call(CallForm::ApplyStatic)),
            22 => Some(Form::Operation(OperationForm::UnaryOp)),
            23 => Some(Form::Operation(OperationForm::BinaryOp)),
            24 => Some(Form::Operation(OperationForm::NewArray)),
            25 => Some(Form::Operation(OperationForm::ArrayValue)),
            26 => Some(Form::Operation(OperationForm::ArrayLength)),
            27 => Some(Form::Operation(OperationForm::ArraySelect)),
            28 => Some(Form::Operation(OperationForm::IsInstanceOf)),
            29 => Some(Form::Operation(OperationForm::AsInstanceOf)),
            30 => Some(Form::Leaf(LeafForm::Undefined)),
            31 => Some(Form::Leaf(LeafForm::Null)),
            32 => Some(Form::Leaf(LeafForm::BooleanLiteral)),
            33 => Some(Form::Leaf(LeafForm::CharLiteral)),
            34 => Some(Form::Leaf(LeafForm::ByteLiteral)),
            35 => Some(Form::Leaf(LeafForm::ShortLiteral)),
            36 => Some(Form::Leaf(LeafForm::IntLiteral)),
            37 => Some(Form::Leaf(LeafForm::LongLiteral)),
            38 => Some(Form::Leaf(LeafForm::StringLiteral)),
            39 => Some(Form::Leaf(LeafForm::VarRef)),
            40 => Some(Form::Leaf(LeafForm::This)),
            41 => Some(Form::Statement(StatementForm::Log)),
            _ => None,
        }
    }

    /// The code of the form.
    pub fn code(self) -> u8
        ensures { result ≡ form_code self }
    {
        match self {
            Form::Statement(StatementForm::VarDef) => 1,
            Form::Leaf(LeafForm::Skip) => 2,
            Form::Statement(StatementForm::Block) => 3,
            Form::Statement(StatementForm::Labeled) => 4,
            Form::Statement(StatementForm::Assign) => 5,
            Form::Statement(StatementForm::Return) => 6,
            Form::Branch(BranchForm::If) => 7,
            Form::Branch(BranchForm::While) => 8,
            Form::Branch(BranchForm::DoWhile) => 9,
            Form::Branch(BranchForm::TryCatch) => 10,
            Form::Branch(BranchForm::TryFinally) => 11,
            Form::Statement(StatementForm::Throw) => 12,
            Form::Branch(BranchForm::Match) => 13,
            Form::Call(CallForm::New) => 14,
            Form::Leaf(LeafForm::LoadModule) => 15,
            Form::Statement(StatementForm::StoreModule) => 16,
            Form::Call(CallForm::Select) => 17,
            Form::Leaf(LeafForm::SelectStatic) => 18,
            Form::Call(CallForm::Apply) => 19,
            Form::Call(CallForm::ApplyStatically) => 20,
            Form::Call(CallForm::ApplyStatic) => 21,
            Form::Operation(OperationForm::UnaryOp) => 22,
            Form::Operation(OperationForm::BinaryOp) => 23,
            Form::Operation(OperationForm::NewArray) => 24,
            Form::Operation(OperationForm::ArrayValue) => 25,
            Form::Operation(OperationForm::ArrayLength) => 26,
            Form::Operation(OperationForm::ArraySelect) => 27,
            Form::Operation(OperationForm::IsInstanceOf) => 28,
            Form::Operation(OperationForm::AsInstanceOf) => 29,
            Form::Leaf(LeafForm::Undefined) => 30,
            Form::Leaf(LeafForm::Null) => 31,
            Form::Leaf(LeafForm::BooleanLiteral) => 32,
            Form::Leaf(LeafForm::CharLiteral) => 33,
            Form::Leaf(LeafForm::ByteLiteral) => 34,
            Form::Leaf(LeafForm::ShortLiteral) => 35,
            Form::Leaf(LeafForm::IntLiteral) => 36,
            Form::Leaf(LeafForm::LongLiteral) => 37,
            Form::Leaf(LeafForm::StringLiteral) => 38,
            Form::Leaf(LeafForm::VarRef) => 39,
            Form::Leaf(LeafForm::This) => 40,
            Form::Statement(StatementForm::Log) => 41,
        }
    }
}

impl Tree {
    /// The form of the tree.
    pub fn form(&self) -> Form
        ensures { result ≡ form_of (view self.now) }
    {
        match self {
            Tree::VarDef { .. } => Form::Statement(StatementForm::VarDef),
            Tree::Skip { .. } => Form::Leaf(LeafForm::Skip),
            Tree::Block { .. } => Form::Statement(StatementForm::Block),
            Tree::Labeled { .. } => Form::Statement(StatementForm::Labeled),
            Tree::Assign { .. } => Form::Statement(StatementForm::Assign),
            Tree::Return { .. } => Form::Statement(StatementForm::Return),
            Tree::If { .. } => Form::Branch(BranchForm::If),
            Tree::While { .. } => Form::Branch(BranchForm::While),
            Tree::DoWhile { .. } => Form::Branch(BranchForm::DoWhile),
            Tree::TryCatch { .. } => Form::Branch(BranchForm::TryCatch),
            Tree::TryFinally { .. } => Form::Branch(BranchForm::TryFinally),
            Tree::Throw { .. } => Form::Statement(StatementForm::Throw),
            Tree::Match { .. } => Form::Branch(BranchForm::Match),
            Tree::New { .. } => Form::Call(CallForm::New),
            Tree::LoadModule { .. } => Form::Leaf(LeafForm::LoadModule),
            Tree::StoreModule { .. } => Form::Statement(StatementForm::StoreModule),
            Tree::Select { .. } => Form::Call(CallForm::Select),
            Tree::SelectStatic { .. } => Form::Leaf(LeafForm::SelectStatic),
            Tree::Apply { .. } => Form::Call(CallForm::Apply),
            Tree::ApplyStatically { .. } => Form::Call(CallForm::ApplyStatically),
            Tree::ApplyStatic { .. } => Form::Call(CallForm::ApplyStatic),
            Tree::UnaryOp { .. } => Form::Operation(OperationForm::UnaryOp),
            Tree::BinaryOp { .. } => Form::Operation(OperationForm::BinaryOp),
            Tree::NewArray { .. } => Form::Operation(OperationForm::NewArray),
            Tree::ArrayValue { .. } => Form::Operation(OperationForm::ArrayValue),
            Tree::ArrayLength { .. } => Form::Operation(OperationForm::ArrayLength),
            Tree::ArraySelect { .. } => Form::Operation(OperationForm::ArraySelect),
            Tree::IsInstanceOf { .. } => Form::Operation(OperationForm::IsInstanceOf),
            Tree::AsInstanceOf { .. } => Form::Operation(OperationForm::AsInstanceOf),
            Tree::Undefined { .. } => Form::Leaf(LeafForm::Undefined),
            Tree::Null { .. } => Form::Leaf(LeafForm::Null),
            Tree::BooleanLiteral { .. } => Form::Leaf(LeafForm::BooleanLiteral),
            Tree::CharLiteral { .. } => Form::Leaf(LeafForm::CharLiteral),
            Tree::ByteLiteral { .. } => Form::Leaf(LeafForm::ByteLiteral),
            Tree::ShortLiteral { .. } => Form::Leaf(LeafForm::ShortLiteral),
            Tree::IntLiteral { .. } => Form::Leaf(LeafForm::IntLiteral),
            Tree::LongLiteral { .. } => Form::Leaf(LeafForm::LongLiteral),
            Tree::StringLiteral { .. } => Form::Leaf(LeafForm::StringLiteral),
            Tree::VarRef { .. } => Form::Leaf(LeafForm::VarRef),
            Tree::This { .. } => Form::Leaf(LeafForm::This),
            Tree::Log { .. } => Form::Statement(StatementForm::Log),
        }
    }
}
