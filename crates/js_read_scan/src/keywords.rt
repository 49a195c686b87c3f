//! Keywords: the words of fixed tables.
ghost use Rattle.std.specs.Prelude.{◌≡◌};
ghost use Rattle.exact_place.specs.Tokens.{entry_of};
ghost use Rattle.js_read_spec.specs.Words as words;

use js_read_spec::{Head, ItemHead, LineHead, ParenthesisHead, StatementHead};
use text_scan::value_of;

// A keyword that an expression begins with.
#[derive(Clone, Copy)]
enum ExpressionWord {
    Null,
    True,
    False,
    This,
    New,
    BigInt,
    Number,
    Math,
    String,
    Console,
}

const EXPRESSION_WORDS: [(&str, ExpressionWord); 10] = [
    ("null", ExpressionWord::Null),
    ("true", ExpressionWord::True),
    ("false", ExpressionWord::False),
    ("this", ExpressionWord::This),
    ("new", ExpressionWord::New),
    ("BigInt", ExpressionWord::BigInt),
    ("Number", ExpressionWord::Number),
    ("Math", ExpressionWord::Math),
    ("String", ExpressionWord::String),
    ("console", ExpressionWord::Console),
];

impl ExpressionWord {
    ghost use Rattle.js_read_scan.specs.Keywords.{expression_head};

    fn head(self) -> Head
        ensures { result ≡ expression_head self }
    {
        match self {
            ExpressionWord::Null => Head::Null,
            ExpressionWord::True => Head::True,
            ExpressionWord::False => Head::False,
            ExpressionWord::This => Head::This,
            ExpressionWord::New => Head::New,
            ExpressionWord::BigInt => Head::BigInt,
            ExpressionWord::Number => Head::Number,
            ExpressionWord::Math => Head::Math,
            ExpressionWord::String => Head::String,
            ExpressionWord::Console => Head::Console,
        }
    }
}

// A keyword that a statement begins with and an expression does not.
#[derive(Clone, Copy)]
enum StatementWord {
    Const,
    Let,
    Super,
    Throw,
    Return,
    Break,
    If,
    While,
    Do,
    Try,
    Switch,
}

const STATEMENT_WORDS: [(&str, StatementWord); 11] = [
    ("const", StatementWord::Const),
    ("let", StatementWord::Let),
    ("super", StatementWord::Super),
    ("throw", StatementWord::Throw),
    ("return", StatementWord::Return),
    ("break", StatementWord::Break),
    ("if", StatementWord::If),
    ("while", StatementWord::While),
    ("do", StatementWord::Do),
    ("try", StatementWord::Try),
    ("switch", StatementWord::Switch),
];

impl StatementWord {
    ghost use Rattle.js_read_scan.specs.Keywords.{statement_head};

    fn head(self) -> StatementHead
        ensures { result ≡ statement_head self }
    {
        match self {
            StatementWord::Const => StatementHead::Const,
            StatementWord::Let => StatementHead::Let,
            StatementWord::Super => StatementHead::Super,
            StatementWord::Throw => StatementHead::Throw,
            StatementWord::Return => StatementHead::Return,
            StatementWord::Break => StatementHead::Break,
            StatementWord::If => StatementHead::If,
            StatementWord::While => StatementHead::While,
            StatementWord::Do => StatementHead::Do,
            StatementWord::Try => StatementHead::Try,
            StatementWord::Switch => StatementHead::Switch,
        }
    }
}

// A keyword that an item begins with and an expression does not.
#[derive(Clone, Copy)]
enum ItemWord {
    Const,
    Let,
    Function,
    Class,
}

const ITEM_WORDS: [(&str, ItemWord); 4] = [
    ("const", ItemWord::Const),
    ("let", ItemWord::Let),
    ("function", ItemWord::Function),
    ("class", ItemWord::Class),
];

impl ItemWord {
    ghost use Rattle.js_read_scan.specs.Keywords.{item_head};

    fn head(self) -> ItemHead
        ensures { result ≡ item_head self }
    {
        match self {
            ItemWord::Const => ItemHead::Const,
            ItemWord::Let => ItemHead::Let,
            ItemWord::Function => ItemHead::Function,
            ItemWord::Class => ItemHead::Class,
        }
    }
}

/// The keyword that an expression may begin with.
pub fn expression_keyword(word: &[u8]) -> Option<Head>
    ensures { result ≡ entry_of (words.expression_words (λ h. h)) word.now }
{
    match value_of(EXPRESSION_WORDS.as_slice(), word) {
        Some(keyword) => Some(keyword.head()),
        None => None,
    }
}

/// The keyword that may stand behind an opening parenthesis.
#[tactic(auto, using(crate::proofs::KeywordTables::keyword_steps))]
pub fn parenthesis_keyword(word: &[u8]) -> Option<ParenthesisHead>
    ensures { result ≡ entry_of words.parenthesis_words word.now }
{
    if word == b"void".as_slice() {
        Some(ParenthesisHead::Void)
    } else if word == b"typeof".as_slice() {
        Some(ParenthesisHead::TypeOf)
    } else {
        match expression_keyword(word) {
            Some(head) => Some(ParenthesisHead::Expression(head)),
            None => None,
        }
    }
}

/// The keyword that a statement may begin with.
#[tactic(auto, using(crate::proofs::KeywordTables::keyword_steps))]
pub fn statement_keyword(word: &[u8]) -> Option<StatementHead>
    ensures { result ≡ entry_of words.statement_words word.now }
{
    match value_of(STATEMENT_WORDS.as_slice(), word) {
        Some(keyword) => Some(keyword.head()),
        None => match expression_keyword(word) {
            Some(head) => Some(StatementHead::Expression(head)),
            None => None,
        },
    }
}

// The keyword that an item may begin with.
#[tactic(auto, using(crate::proofs::KeywordTables::keyword_steps))]
fn item_keyword(word: &[u8]) -> Option<ItemHead>
    ensures { result ≡ entry_of (words.item_words (λ h. h)) word.now }
{
    match value_of(ITEM_WORDS.as_slice(), word) {
        Some(keyword) => Some(keyword.head()),
        None => match expression_keyword(word) {
            Some(head) => Some(ItemHead::Expression(head)),
            None => None,
        },
    }
}

// The keyword that a line may begin with behind an item.
#[tactic(auto, using(crate::proofs::KeywordTables::keyword_steps))]
fn later_keyword(word: &[u8]) -> Option<LineHead>
    ensures { result ≡ entry_of words.later_words word.now }
{
    if word == b"export".as_slice() {
        Some(LineHead::Export)
    } else {
        match item_keyword(word) {
            Some(head) => Some(LineHead::Item(head)),
            None => None,
        }
    }
}

/// The keyword that a line may begin with, where an import may come or not any more.
pub fn line_keyword(imports: bool, word: &[u8]) -> Option<LineHead>
    ensures { result ≡ entry_of (words.line_words imports) word.now }
{
    if imports {
        if word == b"import".as_slice() {
            Some(LineHead::Import)
        } else {
            later_keyword(word)
        }
    } else {
        later_keyword(word)
    }
}
