// Trees.
ghost use Rattle.std.specs.Prelude.{◌≡◌, OnOk, map};
ghost use Rattle.sj_trees.specs.View.{view, terms_view, cases_view};
ghost use Rattle.sj_write_spec.specs.Fields.{HasFiles};
ghost use Rattle.sj_write_spec.specs.Trees.{namespace_code, keys_fields, term_fields, terms_fields, cases_fields};
ghost use Rattle.sj_write.specs.TreeFields.{field_written, fields_written};
ghost use Rattle.sj_write.specs.Writing.{put};
ghost use Rattle.tree_fields.specs.Fields.{field_seen};

use crate::writer::ClassWriter;
use sj_names::{Namespace, NoMemory, Text};
use sj_trees::{MatchCase, Tree};
use tree_fields::{Field, fields_in};

// The code of a namespace.
pub fn namespace_code(namespace: Namespace) -> u8
    ensures { result ≡ namespace_code namespace }
{
    match namespace {
        Namespace::Public => 0,
        Namespace::PublicStatic => 1,
        Namespace::Private => 2,
        Namespace::PrivateStatic => 3,
        Namespace::Constructor => 4,
    }
}

impl ClassWriter {
    #[cycle(tree)]
    pub fn tree(&mut self, files: &[Text], tree: &Tree) -> Result<(), NoMemory>
        requires { HasFiles (term_fields files.now (view tree.now)) }
        ensures { OnOk result (self.new ≡ put (term_fields files.now (view tree.now)) self.old) }
    {
        self.byte(tree.form().code())?;
        self.fields_of_tree(files, &fields_in(tree))
    }

    #[cycle(tree)]
    fn fields_of_tree(&mut self, files: &[Text], fields: &[Field<'_>]) -> Result<(), NoMemory>
        requires { HasFiles (fields_written files.now (map field_seen fields.now)) }
        ensures { OnOk result (self.new ≡ put (fields_written files.now (map field_seen fields.now)) self.old) }
    {
        for each in fields {
            self.field_of_tree(files, *each)?;
        }
        Ok(())
    }

    #[cycle(tree)]
    fn field_of_tree(&mut self, files: &[Text], field: Field<'_>) -> Result<(), NoMemory>
        requires { HasFiles (field_written files.now (field_seen field)) }
        ensures { OnOk result (self.new ≡ put (field_written files.now (field_seen field.entry)) self.old) }
    {
        match field {
            Field::None => Ok(()),
            Field::Position(position) => self.position(files, position),
            Field::Name(name) => self.name(name),
            Field::Type(tpe) => self.type_field(tpe),
            Field::Mark(is_set) => self.mark(is_set),
            Field::Method(method) => self.method(method),
            Field::Namespace(namespace) => self.byte(namespace_code(namespace)),
            Field::Unary(operator) => self.byte(operator.code()),
            Field::Binary(operator) => self.byte(operator.code()),
            Field::Array(array) => self.array_reference(array),
            Field::Unit(value) => self.short(value),
            Field::Byte(value) => self.byte(value.cast_unsigned()),
            Field::Short(value) => self.short(value.cast_unsigned()),
            Field::Int(value) => self.number(value.cast_unsigned()),
            Field::Long(value) => self.long(value.cast_unsigned()),
            Field::Text(text) => self.string(text),
            Field::Tree(tree) => self.tree(files, tree),
            Field::Trees(trees) => self.trees(files, trees),
            Field::Cases(cases) => self.cases(files, cases),
        }
    }

    // How many trees there are, and the trees.
    #[cycle(tree)]
    #[tactic(auto, using(std::proofs::lemmas::Grind::common_steps, crate::proofs::Steps::counting))]
    fn trees(&mut self, files: &[Text], trees: &[Tree]) -> Result<(), NoMemory>
        requires { HasFiles (terms_fields files.now (terms_view trees.now)) }
        ensures { OnOk result (self.new ≡ put (terms_fields files.now (terms_view trees.now)) self.old) }
    {
        self.count(trees.len())?;
        for each in trees {
            self.tree(files, each)?;
        }
        Ok(())
    }

    // How many cases there are, and the cases.
    #[cycle(tree)]
    #[tactic(auto, using(std::proofs::lemmas::Grind::common_steps, crate::proofs::Steps::counting))]
    fn cases(&mut self, files: &[Text], cases: &[MatchCase]) -> Result<(), NoMemory>
        requires { HasFiles (cases_fields files.now (cases_view cases.now)) }
        ensures { OnOk result (self.new ≡ put (cases_fields files.now (cases_view cases.now)) self.old) }
    {
        self.count(cases.len())?;
        for each in cases {
            self.keys(each.keys.as_slice())?;
            self.tree(files, &each.body)?;
        }
        Ok(())
    }

    // How many keys a case has, and the keys.
    fn keys(&mut self, keys: &[i32]) -> Result<(), NoMemory>
        ensures { OnOk result (self.new ≡ put (keys_fields keys.now) self.old) }
    {
        self.count(keys.len())?;
        for each in keys {
            self.number(each.cast_unsigned())?;
        }
        Ok(())
    }
}
