// Classes and their members.
ghost use Rattle.std.specs.Prelude.{◌≡◌, ◌↔◌, IfOk, IsTrue};

use crate::{Body, IrType, Position};
use sj_names::{ClassName, FieldName, LocalName, MethodName, Namespace, NoMemory, Shared, Text};

/// What a class definition defines.
#[derive(Clone, Copy, Debug, PartialEq, Eq)]
pub enum ClassKind {
    Class,
    /// A class with one instance.
    ModuleClass,
    Interface,
    /// A class whose instances are primitive values.
    HijackedClass,
}

/// A parameter of a method.
#[derive(Drop)]
pub struct ParamDef {
    pub name: LocalName,
    pub mutable: bool,
    pub tpe: IrType,
}

/// A field of a class.
#[derive(Drop)]
pub struct FieldDef {
    pub pos: Position,
    pub is_static: bool,
    pub mutable: bool,
    pub name: FieldName,
    pub tpe: IrType,
}

/// A method of a class, abstract where it has no body.
#[derive(Drop)]
pub struct MethodDef {
    pub pos: Position,
    pub namespace: Namespace,
    pub name: MethodName,
    pub params: Shared<ParamDef>,
    pub result: IrType,
    pub body: Option<Body>,
    /// The hash that the file gives; nothing is computed from it.
    pub hash: Option<[u8; 20]>,
}

/// A class as one file defines it: the source files that its positions name, and its members in the file's order.
#[derive(Drop)]
pub struct ClassDef {
    pub pos: Position,
    pub files: Shared<Text>,
    pub name: ClassName,
    pub kind: ClassKind,
    pub superclass: Option<ClassName>,
    pub interfaces: Shared<ClassName>,
    pub fields: Shared<FieldDef>,
    pub methods: Shared<MethodDef>,
}

impl ParamDef {
    /// The same parameter once more.
    pub fn copied(&self) -> Result<ParamDef, NoMemory>
        ensures { IfOk result (λ p. p ≡ self.now) }
    {
        Ok(ParamDef {
            name: self.name.copied()?,
            mutable: self.mutable,
            tpe: self.tpe.copied()?,
        })
    }

    /// Whether both are the same parameter.
    pub fn is_same(&self, other: &ParamDef) -> bool
        ensures { IsTrue result ↔ (self.now ≡ other.now) }
    {
        self.mutable == other.mutable
            && self.name.is_same(&other.name)
            && self.tpe.is_same(&other.tpe)
    }
}

impl FieldDef {
    /// The same field once more.
    pub fn copied(&self) -> Result<FieldDef, NoMemory>
        ensures { IfOk result (λ f. f ≡ self.now) }
    {
        Ok(FieldDef {
            pos: self.pos,
            is_static: self.is_static,
            mutable: self.mutable,
            name: self.name.copied()?,
            tpe: self.tpe.copied()?,
        })
    }

    /// Whether both are the same field, at the same position.
    pub fn is_same(&self, other: &FieldDef) -> bool
        ensures { IsTrue result ↔ (self.now ≡ other.now) }
    {
        self.pos == other.pos
            && self.is_static == other.is_static
            && self.mutable == other.mutable
            && self.name.is_same(&other.name)
            && self.tpe.is_same(&other.tpe)
    }
}

impl MethodDef {
    /// The same method once more. Its parameters and its body are shared.
    pub fn copied(&self) -> Result<MethodDef, NoMemory>
        ensures { IfOk result (λ m. m ≡ self.now) }
    {
        Ok(MethodDef {
            pos: self.pos,
            namespace: self.namespace,
            name: self.name.copied()?,
            params: self.params.copied()?,
            result: self.result.copied()?,
            body: copied_body(&self.body)?,
            hash: self.hash,
        })
    }
}

fn copied_body(body: &Option<Body>) -> Result<Option<Body>, NoMemory>
    ensures { IfOk result (λ b. b ≡ body.now) }
{
    match body {
        Some(body) => Ok(Some(body.copied()?)),
        None => Ok(None),
    }
}

impl ClassDef {
    /// The same class once more. Its lists and its methods' bodies are shared.
    pub fn copied(&self) -> Result<ClassDef, NoMemory>
        ensures { IfOk result (λ c. c ≡ self.now) }
    {
        Ok(ClassDef {
            pos: self.pos,
            files: self.files.copied()?,
            name: self.name.copied()?,
            kind: self.kind,
            superclass: copied_name(&self.superclass)?,
            interfaces: self.interfaces.copied()?,
            fields: self.fields.copied()?,
            methods: self.methods.copied()?,
        })
    }
}

fn copied_name(name: &Option<ClassName>) -> Result<Option<ClassName>, NoMemory>
    ensures { IfOk result (λ n. n ≡ name.now) }
{
    match name {
        Some(name) => Ok(Some(name.copied()?)),
        None => Ok(None),
    }
}
