//! First words: names and the keywords that may stand in their place, and operators.
ghost use Rattle.std.specs.Prelude.{◌≡◌, IfOk};
ghost use Rattle.exact_place.specs.Reading.{lead_at};
ghost use Rattle.text_scan.specs.Gives.{Gives};
ghost use Rattle.js_read_spec.specs.Tokens.{name_at, property_at, head_at, new_head_at, parenthesis_head_at, statement_head_at, line_head_at, member_head_at, infix_at};
ghost use Rattle.js_read_spec.specs.Words as words;

use crate::keywords::{expression_keyword, line_keyword, parenthesis_keyword, statement_keyword};
use crate::names::{is_binding_name, is_property_name, split_name, split_property, text_of};
use js_read_spec::{
    Head, Infix, ItemHead, LineHead, MemberHead, NewHead, ParenthesisHead, StatementHead,
};
use js_tree::BinaryOperator;
use sj_names::{NoMemory, Text};
use std::alloc::Global;
use text_scan::{Stop, literal, word_of};

fn head_word(alloc: Global, word: &[u8]) -> Result<Option<Head>, NoMemory>
    ensures { IfOk result (λ h. h ≡ words.head_of word.now) }
{
    if is_binding_name(word) {
        Ok(Some(Head::Name(text_of(alloc, word)?)))
    } else {
        Ok(expression_keyword(word))
    }
}

/// A name.
#[tactic(auto, using(crate::proofs::HeadSteps::head_steps))]
pub fn name_of<'a>(alloc: Global, bytes: &'a [u8]) -> Result<(Text, &'a [u8]), Stop>
    ensures { Gives (λ x. (x.0, x.1.now)) result (name_at bytes.now) }
{
    let (word, rest) = split_name(bytes);
    if is_binding_name(word) {
        Ok((text_of(alloc, word)?, rest))
    } else {
        Err(Stop::Bad(rest.len()))
    }
}

/// A name behind these bytes.
pub fn name_behind<'a>(
    alloc: Global,
    lead: &[u8],
    bytes: &'a [u8],
) -> Result<(Text, &'a [u8]), Stop>
    ensures { Gives (λ x. (x.0, x.1.now)) result (lead_at lead.now name_at bytes.now) }
{
    let rest = literal(lead, bytes)?;
    name_of(alloc, rest)
}

/// The name of a property.
#[tactic(auto, using(crate::proofs::HeadSteps::head_steps))]
pub fn property_of<'a>(alloc: Global, bytes: &'a [u8]) -> Result<(Text, &'a [u8]), Stop>
    ensures { Gives (λ x. (x.0, x.1.now)) result (property_at bytes.now) }
{
    let (word, rest) = split_property(bytes);
    if is_property_name(word) {
        Ok((text_of(alloc, word)?, rest))
    } else {
        Err(Stop::Bad(rest.len()))
    }
}

/// The word that an expression begins with.
#[tactic(auto, using(crate::proofs::HeadSteps::head_steps))]
pub fn head_of<'a>(alloc: Global, bytes: &'a [u8]) -> Result<(Head, &'a [u8]), Stop>
    ensures { Gives (λ x. (x.0, x.1.now)) result (head_at bytes.now) }
{
    let (word, rest) = split_name(bytes);
    match head_word(alloc, word)? {
        Some(head) => Ok((head, rest)),
        None => Err(Stop::Bad(rest.len())),
    }
}

fn new_word(alloc: Global, word: &[u8]) -> Result<Option<NewHead>, NoMemory>
    ensures { IfOk result (λ h. h ≡ words.new_head_of word.now) }
{
    if is_binding_name(word) {
        Ok(Some(NewHead::Name(text_of(alloc, word)?)))
    } else if word == b"Array".as_slice() {
        Ok(Some(NewHead::Array))
    } else {
        Ok(None)
    }
}

/// The word behind `new`.
pub fn new_head_of<'a>(alloc: Global, bytes: &'a [u8]) -> Result<(NewHead, &'a [u8]), Stop>
    ensures { Gives (λ x. (x.0, x.1.now)) result (new_head_at bytes.now) }
{
    let (word, rest) = split_name(bytes);
    match new_word(alloc, word)? {
        Some(head) => Ok((head, rest)),
        None => Err(Stop::Bad(rest.len())),
    }
}

fn parenthesis_word(alloc: Global, word: &[u8]) -> Result<Option<ParenthesisHead>, NoMemory>
    ensures { IfOk result (λ h. h ≡ words.parenthesis_head_of word.now) }
{
    if is_binding_name(word) {
        Ok(Some(ParenthesisHead::Expression(Head::Name(text_of(alloc, word)?))))
    } else {
        Ok(parenthesis_keyword(word))
    }
}

/// The word behind an opening parenthesis.
pub fn parenthesis_head_of<'a>(
    alloc: Global,
    bytes: &'a [u8],
) -> Result<(ParenthesisHead, &'a [u8]), Stop>
    ensures { Gives (λ x. (x.0, x.1.now)) result (parenthesis_head_at bytes.now) }
{
    let (word, rest) = split_name(bytes);
    match parenthesis_word(alloc, word)? {
        Some(head) => Ok((head, rest)),
        None => Err(Stop::Bad(rest.len())),
    }
}

fn statement_word(alloc: Global, word: &[u8]) -> Result<Option<StatementHead>, NoMemory>
    ensures { IfOk result (λ h. h ≡ words.statement_head_of word.now) }
{
    if is_binding_name(word) {
        Ok(Some(StatementHead::Expression(Head::Name(text_of(alloc, word)?))))
    } else {
        Ok(statement_keyword(word))
    }
}

/// The word that a statement begins with.
pub fn statement_head_of<'a>(
    alloc: Global,
    bytes: &'a [u8],
) -> Result<(StatementHead, &'a [u8]), Stop>
    ensures { Gives (λ x. (x.0, x.1.now)) result (statement_head_at bytes.now) }
{
    let (word, rest) = split_name(bytes);
    match statement_word(alloc, word)? {
        Some(head) => Ok((head, rest)),
        None => Err(Stop::Bad(rest.len())),
    }
}

fn line_word(alloc: Global, imports: bool, word: &[u8]) -> Result<Option<LineHead>, NoMemory>
    ensures { IfOk result (λ h. h ≡ words.line_head_of imports word.now) }
{
    if is_binding_name(word) {
        let name = text_of(alloc, word)?;
        Ok(Some(LineHead::Item(ItemHead::Expression(Head::Name(name)))))
    } else {
        Ok(line_keyword(imports, word))
    }
}

/// The word that a line of a module begins with, where an import may come or not any more.
pub fn line_head_of<'a>(
    alloc: Global,
    imports: bool,
    bytes: &'a [u8],
) -> Result<(LineHead, &'a [u8]), Stop>
    ensures { Gives (λ x. (x.0, x.1.now)) result (line_head_at imports bytes.now) }
{
    let (word, rest) = split_name(bytes);
    match line_word(alloc, imports, word)? {
        Some(head) => Ok((head, rest)),
        None => Err(Stop::Bad(rest.len())),
    }
}

fn member_word(alloc: Global, word: &[u8]) -> Result<Option<MemberHead>, NoMemory>
    ensures { IfOk result (λ h. h ≡ words.member_head_of word.now) }
{
    if is_property_name(word) {
        Ok(Some(MemberHead::Method(text_of(alloc, word)?)))
    } else if word == b"constructor".as_slice() {
        Ok(Some(MemberHead::Constructor))
    } else {
        Ok(None)
    }
}

/// The word that a member of a class begins with.
pub fn member_head_of<'a>(alloc: Global, bytes: &'a [u8]) -> Result<(MemberHead, &'a [u8]), Stop>
    ensures { Gives (λ x. (x.0, x.1.now)) result (member_head_at bytes.now) }
{
    let (word, rest) = split_property(bytes);
    match member_word(alloc, word)? {
        Some(head) => Ok((head, rest)),
        None => Err(Stop::Bad(rest.len())),
    }
}

const INFIXES: [(&str, Infix); 22] = [
    ("+", Infix::Operator(BinaryOperator::Add)),
    ("-", Infix::Operator(BinaryOperator::Subtract)),
    ("*", Infix::Operator(BinaryOperator::Multiply)),
    ("/", Infix::Operator(BinaryOperator::Divide)),
    ("%", Infix::Operator(BinaryOperator::Remainder)),
    ("&", Infix::Operator(BinaryOperator::BitAnd)),
    ("|", Infix::Operator(BinaryOperator::BitOr)),
    ("^", Infix::Operator(BinaryOperator::BitXor)),
    ("<<", Infix::Operator(BinaryOperator::ShiftLeft)),
    (">>", Infix::Operator(BinaryOperator::ShiftRight)),
    (">>>", Infix::Operator(BinaryOperator::ShiftRightUnsigned)),
    ("===", Infix::Operator(BinaryOperator::StrictEqual)),
    ("!==", Infix::Operator(BinaryOperator::StrictNotEqual)),
    ("<", Infix::Operator(BinaryOperator::Less)),
    ("<=", Infix::Operator(BinaryOperator::LessOrEqual)),
    (">", Infix::Operator(BinaryOperator::Greater)),
    (">=", Infix::Operator(BinaryOperator::GreaterOrEqual)),
    ("&&", Infix::Operator(BinaryOperator::And)),
    ("||", Infix::Operator(BinaryOperator::Or)),
    ("in", Infix::Operator(BinaryOperator::In)),
    ("instanceof", Infix::Operator(BinaryOperator::InstanceOf)),
    ("?", Infix::Question),
];

/// The operator between two expressions, or `?`.
pub fn infix_of(bytes: &[u8]) -> Result<(Infix, &[u8]), Stop>
    ensures { Gives (λ x. (x.0, x.1.now)) result (infix_at bytes.now) }
{
    word_of(INFIXES.as_slice(), bytes)
}
