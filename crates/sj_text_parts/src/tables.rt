// Words of fixed tables: the names of forms, types, namespaces and kinds.
ghost use Rattle.std.specs.Prelude.{◌≡◌};
ghost use Rattle.sj_text_spec.specs.Reading as reading;
ghost use Rattle.text_scan.specs.Gives.{Gives};
ghost use Rattle.sj_text_parts.specs.TypeWords.{type_of_word};

use sj_names::Namespace;
use sj_trees::{ClassKind, FORM_WORDS, Form};
use text_scan::{Stop, word_of};

const NAMESPACES: [(&str, Namespace); 5] = [
    ("Public", Namespace::Public),
    ("PublicStatic", Namespace::PublicStatic),
    ("Private", Namespace::Private),
    ("PrivateStatic", Namespace::PrivateStatic),
    ("Constructor", Namespace::Constructor),
];

const KINDS: [(&str, ClassKind); 4] = [
    ("Class", ClassKind::Class),
    ("ModuleClass", ClassKind::ModuleClass),
    ("Interface", ClassKind::Interface),
    ("HijackedClass", ClassKind::HijackedClass),
];

/// A type of one word.
#[derive(Clone, Copy)]
pub enum TypeWord {
    Any,
    Nothing,
    Undefined,
    Boolean,
    Char,
    Byte,
    Short,
    Int,
    Long,
    String,
    Null,
    NoType,
}

const TYPES: [(&str, TypeWord); 12] = [
    ("any", TypeWord::Any),
    ("nothing", TypeWord::Nothing),
    ("undef", TypeWord::Undefined),
    ("boolean", TypeWord::Boolean),
    ("char", TypeWord::Char),
    ("byte", TypeWord::Byte),
    ("short", TypeWord::Short),
    ("int", TypeWord::Int),
    ("long", TypeWord::Long),
    ("string", TypeWord::String),
    ("null", TypeWord::Null),
    ("none", TypeWord::NoType),
];

/// The name of a form.
#[tactic(auto, unfolding(sj_text_spec::specs::Reading::form_at))]
pub fn form_of(bytes: &[u8]) -> Result<(Form, &[u8]), Stop>
    ensures { Gives (λ x. (x.0, x.1.now)) result (reading.form_at bytes.now) }
{
    word_of(FORM_WORDS.as_slice(), bytes)
}

/// A namespace.
#[tactic(auto, unfolding(sj_text_spec::specs::Reading::namespace_at))]
pub fn namespace_of(bytes: &[u8]) -> Result<(Namespace, &[u8]), Stop>
    ensures { Gives (λ x. (x.0, x.1.now)) result (reading.namespace_at bytes.now) }
{
    word_of(NAMESPACES.as_slice(), bytes)
}

/// A kind of class.
#[tactic(auto, unfolding(sj_text_spec::specs::Reading::kind_at))]
pub fn kind_of(bytes: &[u8]) -> Result<(ClassKind, &[u8]), Stop>
    ensures { Gives (λ x. (x.0, x.1.now)) result (reading.kind_at bytes.now) }
{
    word_of(KINDS.as_slice(), bytes)
}

/// A type of one word.
#[tactic(auto, unfolding(sj_text_spec::specs::Reading::type_word_at))]
pub fn type_word_of(bytes: &[u8]) -> Result<(TypeWord, &[u8]), Stop>
    ensures { Gives (λ x. (type_of_word x.0, x.1.now)) result (reading.type_word_at bytes.now) }
{
    word_of(TYPES.as_slice(), bytes)
}
