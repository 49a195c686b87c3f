//! The agreement of the two meanings for calls: what a call of a method comes to by the IR, a call of its emitted function comes to by
//! ECMA-262, at every bound.
//!
//! `specs/` has what is asked of a method. The functions here are laws: they do nothing when they run, and
//! their clauses are theorems.
#![tactic(auto)]

ghost use Rattle.std.specs.Prelude.{◌≡◌, ℕ, ◌≤◌, Bool, true, List, ◌∷◌};
ghost use Rattle.std.specs.List.{Contains};
ghost use Rattle.outcomes.specs.Agreement.{IsNotWrong, Agree, Room, forward, Sim};
ghost use Rattle.outcomes.specs.Outcome.{Out};
ghost use Rattle.dispatch_laws.specs.Dispatch.{chain_of};
ghost use Rattle.dispatch_laws.specs.Shows.{initializers, ir_shows};
ghost use Rattle.dispatch_laws.specs.States as ir;
ghost use Rattle.dispatch_laws.specs.World as ir_world;
ghost use Rattle.js_mean.specs.Meaning as js_meaning;
ghost use Rattle.js_mean.specs.Proper.{is_proper_module};
ghost use Rattle.js_mean.specs.Shows.{js_shows};
ghost use Rattle.js_mean.specs.States as js;
ghost use Rattle.js_tree.specs.Terms.{Name};
ghost use Rattle.sj_core.specs.Terms as core;
ghost use Rattle.agree_bodies.specs.Coercions.{coerced};
ghost use Rattle.sj_names.specs.declared.entry_points.EntryPoint.{EntryPoint};
ghost use Rattle.sj_names.specs.declared.method_names.Member.{Member};
ghost use Rattle.agree_bodies.specs.Standing.{types_referred};
ghost use Rattle.dispatch_laws.specs.Known.{Classes};
ghost use Rattle.dispatch_laws.specs.SjWorldLaws.{IsPlain};
ghost use Rattle.dispatch_laws.specs.Subtypes.{IsSub};
ghost use Rattle.agree_bodies.specs.Settings.{Place, Top, IsField, FieldsDiffer, SameState, NamesDiffer, Setting, Based, Inside, Valued, shown, BoxesAlike, MayBox};
ghost use Rattle.agree_bodies.specs.AgreePlainTreesStanding.{Takes};
ghost use Rattle.agree_bodies.specs.Worlds.{World, SameValues};
ghost use Rattle.agree_bodies.specs.EmittedMethods.{EmittedMethod, HasFunction};
ghost use Rattle.agree_bodies.specs.Emitted.{initializer_member, module_with};
ghost use Rattle.sj_trees.specs.declared.types.IrType.{IrType};
ghost use Rattle.agree_calls.specs.Chains.{ChainStands, ChainFields, BeginsAtZero};
ghost use Rattle.agree_calls.specs.Files.{program_with, IsEmitted};
ghost use Rattle.agree_calls.specs.Helpers.{BoxStands};
ghost use Rattle.agree_calls.specs.Methods.{CallsAlone, Linked, CallsAgree};
ghost use Rattle.agree_calls.specs.Made.{ChainsMake, ShortBoundsGo};
ghost use Rattle.agree_calls.specs.Names.{emitted_in};
ghost use Rattle.agree_calls.specs.Worlds.{HasObjects, Stands};
ghost use Rattle.agree_bodies.specs.Built.{Usable, members_alone};

/// The theorem on calls, for any names of variables and labels that differ and any files of functions: let each member that the code of a file can use
/// be a method of the classes with the types that its name tells, whose body keeps the rules by what the code of its own file can use and reaches by name there, and whose emitted function
/// stands in that file; let no code make objects or use them; and among the classes by which bodies are typed, which may be any, let none write a hijacked class and none stand above `java.lang.Object`. Then a call of such a member by the IR and a call of its function agree where the arguments, of the types that the name tells, and the states stand for each
/// other: what the one shows within a bound, the other shows within each bound that is enough for it by the room of the place, and with no room within each that isn't less.
pub fn calls_agree()
    ensures { (p : Place) → IsPlain p.typing → NamesDiffer p → ((f : Name) (m : Member) → (p.has f).linked m ≡ true → Linked p m) → CallsAlone p → (f : Name) (m : Member) → (p.has f).linked m ≡ true → (w : World) (vs : List ir.Value) (xs : List js.Value) (env : ir.Env) (s : ir.State) (u : js.State) → SameValues w (types_referred m.method.params) vs xs → SameState p w s u → CallsAgree p m w vs xs env s u }
{}

/// The same where code makes objects and uses them: let none of the classes of the IR write a hijacked class or stand above `java.lang.Object` either, let what the code of each file can use be there, each with the conditions that its kind asks for,
/// and let a call have the units that a null check and the constructors of a chain take beyond those of the IR. Then a call of a static member by
/// the IR and a call of its function agree: the objects that they make stand for each other, and so does what they answer, throw and print.
pub fn calls_with_objects_agree()
    ensures { (p : Place) → IsPlain p.classes → IsPlain p.typing → NamesDiffer p → HasObjects p → (f : Name) (m : Member) → (p.has f).linked m ≡ true → (w : World) (vs : List ir.Value) (xs : List js.Value) (env : ir.Env) (s : ir.State) (u : js.State) → SameValues w (types_referred m.method.params) vs xs → SameState p w s u → CallsAgree p m w vs xs env s u }
{}

/// `new` of a class of the emitted code makes one object and nothing else: its properties are those that lead to the constants of the first class of the chain,
/// and each field of each class of the chain at the zero of its type. It takes a unit for each class of the chain, and with fewer it is going.
pub fn constructors_make_one_object()
    ensures enough { ChainsMake }
    ensures short { ShortBoundsGo }
{}

/// A new object of the emitted code stands for the new object of the IR: let no two fields have one property, let each field begin at the zero of its
/// type, let the classes of the chain stand in the program, and let their constructors set the fields that they have.
pub fn new_objects_stand()
    ensures { (p : Place) → FieldsDiffer p → ((d g : Name) (t : IrType) → IsField p.classes d g t → BeginsAtZero p d g t) → (c : Name) (cs : List Name) (st : ChainStands p (c ∷ cs)) → ChainFields p (c ∷ cs) st → chain_of p.classes c ≡ c ∷ cs → (w : World) (s : ir.State) (u : js.State) → SameState p w s u → Stands p c w u }
{}

/// A char becomes an object that holds it. Let the class `$C` stand in the program with its constructor, let its file reach the constants of
/// `java.lang.Character`, and let the code of some file be able to use them: then `new $C` of a char makes an object that the emitted code has for
/// itself and that stands for the char at each other type that chars suit, by the forward half within a unit or more, by the backward half within any.
/// Let a tree and its expression be alike at the type of the tree, and let that type stand where another is expected: then the tree and its
/// expression as it is coerced are alike at the type that is expected. And in a world where no class writes a hijacked class, a subtype stands
/// wherever a supertype of it is expected.
pub fn chars_become_objects()
    ensures boxes { (z : Setting) (n : ℕ) → BoxStands z.place → z.js_low ≡ js_meaning.below z.place.program n → (z.direction ≡ forward → 1 ≤ n) → BoxesAlike z }
    ensures coerces { (z : Setting) → Based z → (expected own : IrType) → Takes expected own → MayBox z expected own → (w : World) (env : ir.Env) (s : ir.State) (sc : js.Scope) (u : js.State) → Inside z.place z.code sc → SameState z.place w s u → (o : Out ir.Ended) (e : core.Expression) → Sim z.direction (Valued z.place w env own) o (shown z e sc u) → Sim z.direction (Valued z.place w env expected) o (shown z (coerced expected own e) sc u) }
    ensures subtypes { (w : Classes) → IsPlain w → (expected own : IrType) → IsSub w own expected → Takes expected own }
{}

/// The names of the emitted code differ: no two variables have one name, whatever numbers a name is made of, no two labels, and no variable has
/// the name of a function, a class or a helper.
pub fn emitted_names_differ()
    ensures { (classes typing : ir_world.World) (program : js.Program) (home : Top → Name) (has : Name → Usable) (room : Room) → NamesDiffer (emitted_in classes typing program home has room) }
{}

/// The theorem on files: take a module that has the functions of these methods in this order and then calls the initializers of a public module,
/// and that has no early error. Let each method be that of its member in the classes, with the types that its name tells and a body that keeps the rules by classes of which none writes a hijacked class and none stands above `java.lang.Object`, these or any others, let each member that is
/// called have one of the functions, and let the initializers be among them. Then the file shows of the public module what the classes show,
/// unless the classes are wrong at some bound: what the one shows within any bound the other shows within some bound, and the other way round.
pub fn file_of_functions_agrees()
    ensures { (w typing : ir_world.World) → IsPlain typing → (entries : List EntryPoint) (id : List ℕ) (fs : List EmittedMethod) (linked : Member → Bool) → is_proper_module (module_with fs (initializers entries id)) ≡ true → ((e : EmittedMethod) → Contains fs e → IsEmitted w typing (members_alone linked) e) → ((m : Member) → linked m ≡ true → HasFunction fs m) → ((e : EntryPoint) → Contains (initializers entries id) e → linked (initializer_member e) ≡ true) → ((n : ℕ) → IsNotWrong (ir_shows w entries id n).end) → Agree (ir_shows w entries id) (js_shows (program_with id fs (initializers entries id)) id) }
{}
