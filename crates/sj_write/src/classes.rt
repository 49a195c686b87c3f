// A class and its members.
ghost use Rattle.std.specs.Prelude.{◌≡◌, OnOk};
ghost use Rattle.sj_write_spec.specs.Fields.{HasFiles, name_field, plain_field, each, list_fields, option_fields};
ghost use Rattle.sj_write_spec.specs.Trees.{term_fields};
ghost use Rattle.sj_write_spec.specs.Classes.{kind_code, param_fields, field_fields, method_fields, members_fields, class_fields};
ghost use Rattle.sj_write.specs.Writing.{put};

use crate::trees::namespace_code;
use crate::writer::ClassWriter;
use sj_names::{ClassName, NoMemory, Text};
use sj_trees::{Body, ClassDef, ClassKind, FieldDef, MethodDef, ParamDef};

// The code of a kind.
fn kind_code(kind: ClassKind) -> u8
    ensures { result ≡ kind_code kind }
{
    match kind {
        ClassKind::Class => 1,
        ClassKind::ModuleClass => 2,
        ClassKind::Interface => 3,
        ClassKind::HijackedClass => 4,
    }
}

impl ClassWriter {
    // The class behind the tables: the fields are written in front of the methods.
    pub fn class(&mut self, class: &ClassDef) -> Result<(), NoMemory>
        requires { HasFiles (class_fields class.now) }
        ensures { OnOk result (self.new ≡ put (class_fields class.now) self.old) }
    {
        let files = class.files.as_slice();
        self.position(files, class.pos)?;
        self.name(class.name.text())?;
        self.byte(kind_code(class.kind))?;
        self.superclass(&class.superclass)?;
        self.interfaces(class.interfaces.as_slice())?;
        self.members(files, class.fields.as_slice(), class.methods.as_slice())
    }

    fn superclass(&mut self, superclass: &Option<ClassName>) -> Result<(), NoMemory>
        ensures { OnOk result (self.new ≡ put (option_fields name_field superclass.now) self.old) }
    {
        match superclass {
            Some(name) => {
                self.mark(true)?;
                self.name(name.text())
            }
            None => self.mark(false),
        }
    }

    fn interfaces(&mut self, interfaces: &[ClassName]) -> Result<(), NoMemory>
        ensures { OnOk result (self.new ≡ put (list_fields name_field interfaces.now) self.old) }
    {
        self.count(interfaces.len())?;
        for each in interfaces {
            self.name(each.text())?;
        }
        Ok(())
    }

    fn members(
        &mut self,
        files: &[Text],
        fields: &[FieldDef],
        methods: &[MethodDef],
    ) -> Result<(), NoMemory>
        requires { HasFiles (members_fields files.now fields.now methods.now) }
        ensures { OnOk result (self.new ≡ put (members_fields files.now fields.now methods.now) self.old) }
    {
        self.count(fields.len() + methods.len())?;
        self.fields(files, fields)?;
        self.methods(files, methods)
    }

    fn fields(&mut self, files: &[Text], fields: &[FieldDef]) -> Result<(), NoMemory>
        requires { HasFiles (each (field_fields files.now) fields.now) }
        ensures { OnOk result (self.new ≡ put (each (field_fields files.now) fields.now) self.old) }
    {
        for each in fields {
            self.field(files, each)?;
        }
        Ok(())
    }

    fn field(&mut self, files: &[Text], field: &FieldDef) -> Result<(), NoMemory>
        requires { HasFiles (field_fields files.now field.now) }
        ensures { OnOk result (self.new ≡ put (field_fields files.now field.now) self.old) }
    {
        self.byte(1)?;
        self.position(files, field.pos)?;
        self.mark(field.is_static)?;
        self.mark(field.mutable)?;
        self.name(field.name.text())?;
        self.type_field(&field.tpe)
    }

    fn methods(&mut self, files: &[Text], methods: &[MethodDef]) -> Result<(), NoMemory>
        requires { HasFiles (each (method_fields files.now) methods.now) }
        ensures { OnOk result (self.new ≡ put (each (method_fields files.now) methods.now) self.old) }
    {
        for each in methods {
            self.method_def(files, each)?;
        }
        Ok(())
    }

    fn method_def(&mut self, files: &[Text], method: &MethodDef) -> Result<(), NoMemory>
        requires { HasFiles (method_fields files.now method.now) }
        ensures { OnOk result (self.new ≡ put (method_fields files.now method.now) self.old) }
    {
        self.byte(2)?;
        self.position(files, method.pos)?;
        self.byte(namespace_code(method.namespace))?;
        self.method(&method.name)?;
        self.params(method.params.as_slice())?;
        self.type_field(&method.result)?;
        self.body(files, &method.body)?;
        self.hash(&method.hash)
    }

    fn params(&mut self, params: &[ParamDef]) -> Result<(), NoMemory>
        ensures { OnOk result (self.new ≡ put (list_fields param_fields params.now) self.old) }
    {
        self.count(params.len())?;
        for each in params {
            self.param(each)?;
        }
        Ok(())
    }

    fn param(&mut self, param: &ParamDef) -> Result<(), NoMemory>
        ensures { OnOk result (self.new ≡ put (param_fields param.now) self.old) }
    {
        self.name(param.name.text())?;
        self.mark(param.mutable)?;
        self.type_field(&param.tpe)
    }

    fn body(&mut self, files: &[Text], body: &Option<Body>) -> Result<(), NoMemory>
        requires { HasFiles (option_fields (term_fields files.now) body.now) }
        ensures { OnOk result (self.new ≡ put (option_fields (term_fields files.now) body.now) self.old) }
    {
        match body {
            Some(body) => {
                self.mark(true)?;
                self.tree(files, body.tree())
            }
            None => self.mark(false),
        }
    }

    fn hash(&mut self, hash: &Option<[u8; 20]>) -> Result<(), NoMemory>
        ensures { OnOk result (self.new ≡ put (option_fields plain_field hash.now) self.old) }
    {
        match hash {
            Some(hash) => {
                self.mark(true)?;
                self.bytes(hash)
            }
            None => self.mark(false),
        }
    }
}
