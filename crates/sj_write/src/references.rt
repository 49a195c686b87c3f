// Types, references and the names of methods.
ghost use Rattle.std.specs.Prelude.{◌≡◌, OnOk};
ghost use Rattle.sj_write_spec.specs.Fields.{name_field, ◌▸◌, byte, list_fields};
ghost use Rattle.sj_write_spec.specs.References.{type_fields, array_fields, base_fields, reference_fields, result_fields, method_name_fields};
ghost use Rattle.sj_write.specs.Writing.{put};

use crate::writer::ClassWriter;
use sj_names::{ArrayRef, BaseRef, ClassName, MethodName, NoMemory, TypeRef};
use sj_trees::IrType;

impl ClassWriter {
    // A code and the name of a class.
    fn coded_name(&mut self, code: u8, name: &ClassName) -> Result<(), NoMemory>
        ensures { OnOk result (self.new ≡ put (byte code ▸ name_field name.now) self.old) }
    {
        self.byte(code)?;
        self.name(name.text())
    }

    pub fn type_field(&mut self, tpe: &IrType) -> Result<(), NoMemory>
        ensures { OnOk result (self.new ≡ put (type_fields tpe.now) self.old) }
    {
        match tpe {
            IrType::Any => self.byte(1),
            IrType::Nothing => self.byte(2),
            IrType::Undefined => self.byte(3),
            IrType::Boolean => self.byte(4),
            IrType::Char => self.byte(5),
            IrType::Byte => self.byte(6),
            IrType::Short => self.byte(7),
            IrType::Int => self.byte(8),
            IrType::Long => self.byte(9),
            IrType::String => self.byte(10),
            IrType::Null => self.byte(11),
            IrType::Class(name) => self.coded_name(12, name),
            IrType::Array(array) => {
                self.byte(13)?;
                self.array_reference(array)
            }
            IrType::NoType => self.byte(14),
        }
    }

    // A reference to an array.
    pub fn array_reference(&mut self, array: &ArrayRef) -> Result<(), NoMemory>
        ensures { OnOk result (self.new ≡ put (array_fields array.now) self.old) }
    {
        self.byte(9)?;
        self.byte(array.dimensions)?;
        self.base(&array.base)
    }

    fn base(&mut self, base: &BaseRef) -> Result<(), NoMemory>
        ensures { OnOk result (self.new ≡ put (base_fields base.now) self.old) }
    {
        match base {
            BaseRef::Boolean => self.byte(2),
            BaseRef::Char => self.byte(3),
            BaseRef::Byte => self.byte(4),
            BaseRef::Short => self.byte(5),
            BaseRef::Int => self.byte(6),
            BaseRef::Long => self.byte(7),
            BaseRef::Class(name) => self.coded_name(8, name),
        }
    }

    fn reference(&mut self, reference: &TypeRef) -> Result<(), NoMemory>
        ensures { OnOk result (self.new ≡ put (reference_fields reference.now) self.old) }
    {
        match reference {
            TypeRef::Void => self.byte(1),
            TypeRef::Boolean => self.byte(2),
            TypeRef::Char => self.byte(3),
            TypeRef::Byte => self.byte(4),
            TypeRef::Short => self.byte(5),
            TypeRef::Int => self.byte(6),
            TypeRef::Long => self.byte(7),
            TypeRef::Class(name) => self.coded_name(8, name),
            TypeRef::Array(array) => self.array_reference(array),
        }
    }

    // The entry of a method name in its table.
    pub fn method_name(&mut self, method: &MethodName) -> Result<(), NoMemory>
        ensures { OnOk result (self.new ≡ put (method_name_fields method.now) self.old) }
    {
        self.name(method.simple.text())?;
        self.references(method.params.as_slice())?;
        self.outcome(&method.result)
    }

    fn references(&mut self, references: &[TypeRef]) -> Result<(), NoMemory>
        ensures { OnOk result (self.new ≡ put (list_fields reference_fields references.now) self.old) }
    {
        self.count(references.len())?;
        for each in references {
            self.reference(each)?;
        }
        Ok(())
    }

    // The reference of a result, or 0 where a reflective proxy has none.
    fn outcome(&mut self, outcome: &Option<TypeRef>) -> Result<(), NoMemory>
        ensures { OnOk result (self.new ≡ put (result_fields outcome.now) self.old) }
    {
        match outcome {
            Some(reference) => self.reference(reference),
            None => self.byte(0),
        }
    }
}
