// What calls on receivers call.
use sj_names::{ClassName, Member, MethodName};

/// What is called on a receiver.
#[derive(Drop)]
pub enum Callee {
    /// This member, or the one that its class inherits, where it is public.
    Member(Member),
    /// A public method that is looked up by the class of the receiver, which is this class or one below it, and no hijacked one.
    LookedUp(ClassName, MethodName),
    /// A public method of an array.
    OfArray(MethodName),
    /// Whichever method of the receiver the reflective name stands for.
    Reflective(MethodName),
}
