//! Items and members.
ghost use Rattle.std.specs.Prelude.{◌≡◌, ◌<◌, ◌==◌, codes, map};
ghost use Rattle.exact_place.specs.Reading.{after_at, either_at, lead_at, map_at, value_at};
ghost use Rattle.js_tree.specs.Terms as terms;
ghost use Rattle.js_tree.specs.Views as views;
ghost use Rattle.text_scan.specs.Gives.{Gives};
ghost use Rattle.js_read_spec.specs.Tokens.{name_at};
ghost use Rattle.js_read_spec.specs.Modules as reading;
ghost use Rattle.js_read_spec.specs.declared.words.ItemHead.TheVariants as heads;

use js_read_expressions::{expression_after, expression_before, expression_between, expression_of};
use js_read_scan::{member_head_of, name_behind, name_of, property_of};
use js_read_spec::{Head, ItemHead, MemberHead};
use js_read_statements::block_of;
use js_tree::{ClassMember, JsBody, JsItem, ObjectProperty};
use sj_names::{Items, Text};
use std::alloc::Global;
use text_scan::{Item, Stop, in_front, list_of, literal, next_is};

// What a reader of items gives: the item and the rest.
type Read<'a> = Result<(JsItem, &'a [u8]), Stop>;

// A comma, a space and a name.
#[derive(Drop)]
struct NameItem;

impl Item for NameItem {
    ghost use Rattle.std.specs.Prelude.{List, ℕ, ◌==◌, codes};
    ghost use Rattle.exact_place.specs.Reading.{lead_at};
    ghost use Rattle.js_read_spec.specs.Tokens.{name_at};
    ghost use Rattle.js_read_spec.specs.Expressions.{is_comma};

    type Value = Text;

    ghost Seen = { List ℕ };

    ghost seen = { λ x. x };

    ghost test = { λ s. is_comma };

    ghost reading = { λ s. lead_at (codes ", ") name_at };

    fn starts(&self, bytes: &[u8]) -> bool {
        next_is(b',', bytes)
    }

    fn read<'a>(&self, alloc: Global, bytes: &'a [u8]) -> Result<(Text, &'a [u8]), Stop> {
        name_behind(alloc, b", ", bytes)
    }
}

/// One name or more.
#[tactic(auto, unfolding(js_read_spec::specs::Modules::names_at))]
pub fn names_of<'a>(
    alloc: Global,
    fuel: usize,
    bytes: &'a [u8],
) -> Result<(Items<Text>, &'a [u8]), Stop>
    ensures { Gives (λ x. (x.0, x.1.now)) result (reading.names_at fuel bytes.now) }
{
    let (first, rest) = name_of(alloc, bytes)?;
    let (others, rest) = list_of(alloc, fuel, &NameItem, rest)?;
    Ok((Items::from_vec(in_front(first, others)?), rest))
}

// Parameters, behind `(`.
#[tactic(auto, unfolding(js_read_spec::specs::Modules::parameters_at))]
fn parameters_of<'a>(
    alloc: Global,
    fuel: usize,
    bytes: &'a [u8],
) -> Result<(Items<Text>, &'a [u8]), Stop>
    ensures { Gives (λ x. (x.0, x.1.now)) result (reading.parameters_at fuel bytes.now) }
{
    if next_is(b')', bytes) {
        let rest = literal(b")", bytes)?;
        Ok((Items::from_vec(Vec::new(alloc)), rest))
    } else {
        let (names, rest) = names_of(alloc, fuel, bytes)?;
        let rest = literal(b")", rest)?;
        Ok((names, rest))
    }
}

// `p: e`
#[tactic(auto, unfolding(js_read_spec::specs::Modules::object_property_at))]
fn object_property_of<'a>(
    alloc: Global,
    fuel: usize,
    bytes: &'a [u8],
) -> Result<(ObjectProperty, &'a [u8]), Stop>
    ensures { Gives (λ x. (views.property_view x.0, x.1.now)) result (reading.object_property_at fuel bytes.now) }
{
    let (name, rest) = property_of(alloc, bytes)?;
    let rest = literal(b": ", rest)?;
    let (value, rest) = expression_of(alloc, fuel, rest)?;
    Ok((ObjectProperty { name, value }, rest))
}

#[derive(Drop)]
struct PropertyItem(usize);

impl Item for PropertyItem {
    ghost use Rattle.std.specs.Prelude.{codes};
    ghost use Rattle.exact_place.specs.Reading.{lead_at};
    ghost use Rattle.js_tree.specs.Terms.{Property};
    ghost use Rattle.js_tree.specs.Views.{property_view};
    ghost use Rattle.js_read_spec.specs.Modules.{object_property_at};
    ghost use Rattle.js_read_spec.specs.Expressions.{is_comma};

    type Value = ObjectProperty;

    ghost Seen = { Property };

    ghost seen = { property_view };

    ghost test = { λ s. is_comma };

    ghost reading = { λ s. lead_at (codes ", ") (object_property_at s.0) };

    fn starts(&self, bytes: &[u8]) -> bool {
        next_is(b',', bytes)
    }

    fn read<'a>(&self, alloc: Global, bytes: &'a [u8]) -> Result<(ObjectProperty, &'a [u8]), Stop> {
        let rest = literal(b", ", bytes)?;
        object_property_of(alloc, self.0, rest)
    }
}

// One property or more.
#[tactic(auto, unfolding(js_read_spec::specs::Modules::properties_at))]
fn properties_of<'a>(
    alloc: Global,
    fuel: usize,
    bytes: &'a [u8],
) -> Result<(Vec<ObjectProperty>, &'a [u8]), Stop>
    ensures { Gives (λ x. (map views.property_view x.0.items, x.1.now)) result (reading.properties_at fuel bytes.now) }
{
    let (first, rest) = object_property_of(alloc, fuel, bytes)?;
    let (others, rest) = list_of(alloc, fuel, &PropertyItem(fuel), rest)?;
    Ok((in_front(first, others)?, rest))
}

// The properties of an object and what ends its item, behind `{`.
#[tactic(auto, unfolding(js_read_spec::specs::Modules::object_at))]
fn object_of<'a>(alloc: Global, fuel: usize, name: Text, bytes: &'a [u8]) -> Read<'a>
    ensures { Gives (λ x. (views.item_view x.0, x.1.now)) result (reading.object_at fuel name bytes.now) }
{
    if next_is(b'}', bytes) {
        let rest = literal(b"};", bytes)?;
        Ok((
            JsItem::ConstObject {
                name,
                properties: Vec::new(alloc),
            },
            rest,
        ))
    } else {
        let (properties, rest) = properties_of(alloc, fuel, bytes)?;
        let rest = literal(b"};", rest)?;
        Ok((JsItem::ConstObject { name, properties }, rest))
    }
}

// The block of a function or a member at this level.
#[tactic(auto, unfolding(js_read_spec::specs::Modules::body_at))]
fn body_of<'a>(
    alloc: Global,
    fuel: usize,
    level: usize,
    bytes: &'a [u8],
) -> Result<(JsBody, &'a [u8]), Stop>
    requires { level < 2 }
    ensures { Gives (λ x. (views.body_view x.0, x.1.now)) result (reading.body_at fuel level bytes.now) }
{
    let (statements, rest) = block_of(alloc, fuel, level, bytes)?;
    Ok((JsBody::new(alloc, statements)?, rest))
}

// A space and the block of a function or a member at this level.
fn body_behind<'a>(
    alloc: Global,
    fuel: usize,
    level: usize,
    bytes: &'a [u8],
) -> Result<(JsBody, &'a [u8]), Stop>
    requires { level < 2 }
    ensures { Gives (λ x. (views.body_view x.0, x.1.now)) result (lead_at (codes " ") (reading.body_at fuel level) bytes.now) }
{
    let rest = literal(b" ", bytes)?;
    body_of(alloc, fuel, level, rest)
}

// A member of its head, its parameters and its block.
fn member_from(head: MemberHead, parameters: Items<Text>, body: JsBody) -> ClassMember
    ensures { views.member_view result ≡ reading.member_of head parameters (views.body_view body) }
{
    match head {
        MemberHead::Constructor => ClassMember::Constructor { parameters, body },
        MemberHead::Method(name) => ClassMember::Method {
            name,
            parameters,
            body,
        },
    }
}

// What stands behind the parameters of a member.
fn member_body_of<'a>(
    alloc: Global,
    fuel: usize,
    head: MemberHead,
    parameters: Items<Text>,
    bytes: &'a [u8],
) -> Result<(ClassMember, &'a [u8]), Stop>
    ensures { Gives (λ x. (views.member_view x.0, x.1.now)) result (lead_at (codes " ") (after_at (reading.body_at fuel 1) (λ ss. lead_at (codes "\n") (value_at (reading.member_of head parameters ss)))) bytes.now) }
{
    let (body, rest) = body_behind(alloc, fuel, 1, bytes)?;
    let rest = literal(b"\n", rest)?;
    Ok((member_from(head, parameters, body), rest))
}

// What stands behind the first word of a member.
fn member_after<'a>(
    alloc: Global,
    fuel: usize,
    head: MemberHead,
    bytes: &'a [u8],
) -> Result<(ClassMember, &'a [u8]), Stop>
    ensures { Gives (λ x. (views.member_view x.0, x.1.now)) result (lead_at (codes "(") (after_at (reading.parameters_at fuel) (λ xs. lead_at (codes " ") (after_at (reading.body_at fuel 1) (λ ss. lead_at (codes "\n") (value_at (reading.member_of head xs ss)))))) bytes.now) }
{
    let rest = literal(b"(", bytes)?;
    let (parameters, rest) = parameters_of(alloc, fuel, rest)?;
    member_body_of(alloc, fuel, head, parameters, rest)
}

// A member of a class and the line feed behind it.
#[tactic(auto, unfolding(js_read_spec::specs::Modules::member_at))]
fn member_of<'a>(
    alloc: Global,
    fuel: usize,
    bytes: &'a [u8],
) -> Result<(ClassMember, &'a [u8]), Stop>
    ensures { Gives (λ x. (views.member_view x.0, x.1.now)) result (reading.member_at fuel bytes.now) }
{
    let rest = literal(b"  ", bytes)?;
    let (head, rest) = member_head_of(alloc, rest)?;
    member_after(alloc, fuel, head, rest)
}

#[derive(Drop)]
struct MemberItem(usize);

impl Item for MemberItem {
    ghost use Rattle.std.specs.Prelude.{◌==◌};
    ghost use Rattle.js_tree.specs.Terms.{Member};
    ghost use Rattle.js_tree.specs.Views.{member_view};
    ghost use Rattle.js_read_spec.specs.Modules.{member_at};

    type Value = ClassMember;

    ghost Seen = { Member };

    ghost seen = { member_view };

    ghost test = { λ s c. c == 32 };

    ghost reading = { λ s. member_at s.0 };

    fn starts(&self, bytes: &[u8]) -> bool {
        next_is(b' ', bytes)
    }

    fn read<'a>(&self, alloc: Global, bytes: &'a [u8]) -> Result<(ClassMember, &'a [u8]), Stop> {
        member_of(alloc, self.0, bytes)
    }
}

// The members of a class in their braces.
#[tactic(auto, unfolding(js_read_spec::specs::Modules::members_at))]
fn members_of<'a>(
    alloc: Global,
    fuel: usize,
    bytes: &'a [u8],
) -> Result<(Vec<ClassMember>, &'a [u8]), Stop>
    ensures { Gives (λ x. (map views.member_view x.0.items, x.1.now)) result (reading.members_at fuel bytes.now) }
{
    let rest = literal(b"{\n", bytes)?;
    let (members, rest) = list_of(alloc, fuel, &MemberItem(fuel), rest)?;
    let rest = literal(b"}", rest)?;
    Ok((members, rest))
}

// A constant that is no object, behind ` = `.
#[tactic(auto, unfolding(js_read_spec::specs::Modules::item_ended_at, js_read_scan::specs::Parts::before_at))]
fn plain_const_of<'a>(alloc: Global, fuel: usize, name: Text, bytes: &'a [u8]) -> Read<'a>
    ensures { Gives (λ x. (views.item_view x.0, x.1.now)) result (reading.item_ended_at fuel (λ e. terms.const_item name e) bytes.now) }
{
    let (value, rest) = expression_before(alloc, fuel, b";", bytes)?;
    Ok((JsItem::Const { name, value }, rest))
}

// A constant or an object, behind ` = `.
fn const_of<'a>(alloc: Global, fuel: usize, name: Text, bytes: &'a [u8]) -> Read<'a>
    ensures { Gives (λ x. (views.item_view x.0, x.1.now)) result (either_at (λ c. c == 123) (lead_at (codes "{") (reading.object_at fuel name)) (reading.item_ended_at fuel (λ e. terms.const_item name e)) bytes.now) }
{
    if next_is(b'{', bytes) {
        let rest = literal(b"{", bytes)?;
        object_of(alloc, fuel, name, rest)
    } else {
        plain_const_of(alloc, fuel, name, bytes)
    }
}

// What stands behind `const`.
#[tactic(auto, unfolding(js_read_spec::specs::Modules::item_after_at))]
fn const_after<'a>(alloc: Global, fuel: usize, bytes: &'a [u8]) -> Read<'a>
    ensures { Gives (λ x. (views.item_view x.0, x.1.now)) result (reading.item_after_at fuel heads.Const bytes.now) }
{
    let (name, rest) = name_behind(alloc, b" ", bytes)?;
    let rest = literal(b" = ", rest)?;
    const_of(alloc, fuel, name, rest)
}

// What stands behind `let`.
#[tactic(auto, unfolding(js_read_spec::specs::Modules::item_after_at, js_read_spec::specs::Modules::item_ended_at, js_read_scan::specs::Parts::before_at))]
fn let_after<'a>(alloc: Global, fuel: usize, bytes: &'a [u8]) -> Read<'a>
    ensures { Gives (λ x. (views.item_view x.0, x.1.now)) result (reading.item_after_at fuel heads.Let bytes.now) }
{
    let (name, rest) = name_behind(alloc, b" ", bytes)?;
    let (value, rest) = expression_between(alloc, fuel, b" = ", b";", rest)?;
    Ok((JsItem::Let { name, value }, rest))
}

// What stands behind the name of a function.
fn function_of<'a>(alloc: Global, fuel: usize, name: Text, bytes: &'a [u8]) -> Read<'a>
    ensures { Gives (λ x. (views.item_view x.0, x.1.now)) result (lead_at (codes "(") (after_at (reading.parameters_at fuel) (λ xs. lead_at (codes " ") (map_at (λ ss. terms.function_item name xs ss) (reading.body_at fuel 0)))) bytes.now) }
{
    let rest = literal(b"(", bytes)?;
    let (parameters, rest) = parameters_of(alloc, fuel, rest)?;
    let (body, rest) = body_behind(alloc, fuel, 0, rest)?;
    Ok((
        JsItem::Function {
            name,
            parameters,
            body,
        },
        rest,
    ))
}

// What stands behind `function`.
#[tactic(auto, unfolding(js_read_spec::specs::Modules::item_after_at))]
fn function_after<'a>(alloc: Global, fuel: usize, bytes: &'a [u8]) -> Read<'a>
    ensures { Gives (λ x. (views.item_view x.0, x.1.now)) result (reading.item_after_at fuel heads.Function bytes.now) }
{
    let (name, rest) = name_behind(alloc, b" ", bytes)?;
    function_of(alloc, fuel, name, rest)
}

// The members of a class that has a parent, behind the parent's name.
fn subclass_members_of<'a>(
    alloc: Global,
    fuel: usize,
    name: Text,
    parent: Text,
    bytes: &'a [u8],
) -> Read<'a>
    ensures { Gives (λ x. (views.item_view x.0, x.1.now)) result (lead_at (codes " ") (map_at (λ ms. terms.subclass_item name parent ms) (reading.members_at fuel)) bytes.now) }
{
    let rest = literal(b" ", bytes)?;
    let (members, rest) = members_of(alloc, fuel, rest)?;
    Ok((
        JsItem::Subclass {
            name,
            parent,
            members,
        },
        rest,
    ))
}

// What stands behind the name of a class that has a parent.
fn subclass_of<'a>(alloc: Global, fuel: usize, name: Text, bytes: &'a [u8]) -> Read<'a>
    ensures { Gives (λ x. (views.item_view x.0, x.1.now)) result (lead_at (codes "extends ") (after_at name_at (λ y. lead_at (codes " ") (map_at (λ ms. terms.subclass_item name y ms) (reading.members_at fuel)))) bytes.now) }
{
    let (parent, rest) = name_behind(alloc, b"extends ", bytes)?;
    subclass_members_of(alloc, fuel, name, parent, rest)
}

// What stands behind the name of a class and a space.
fn class_of<'a>(alloc: Global, fuel: usize, name: Text, bytes: &'a [u8]) -> Read<'a>
    ensures { Gives (λ x. (views.item_view x.0, x.1.now)) result (either_at (λ c. c == 123) (map_at (λ ms. terms.class_item name ms) (reading.members_at fuel)) (lead_at (codes "extends ") (after_at name_at (λ y. lead_at (codes " ") (map_at (λ ms. terms.subclass_item name y ms) (reading.members_at fuel))))) bytes.now) }
{
    if next_is(b'{', bytes) {
        let (members, rest) = members_of(alloc, fuel, bytes)?;
        Ok((JsItem::Class { name, members }, rest))
    } else {
        subclass_of(alloc, fuel, name, bytes)
    }
}

// What stands behind `class`.
#[tactic(auto, unfolding(js_read_spec::specs::Modules::item_after_at))]
fn class_after<'a>(alloc: Global, fuel: usize, bytes: &'a [u8]) -> Read<'a>
    ensures { Gives (λ x. (views.item_view x.0, x.1.now)) result (reading.item_after_at fuel heads.Class bytes.now) }
{
    let (name, rest) = name_behind(alloc, b" ", bytes)?;
    let rest = literal(b" ", rest)?;
    class_of(alloc, fuel, name, rest)
}

// An item that is an expression, behind its first word.
#[tactic(auto, unfolding(js_read_spec::specs::Modules::item_after_at))]
fn expression_item_after<'a>(alloc: Global, fuel: usize, head: Head, bytes: &'a [u8]) -> Read<'a>
    ensures { Gives (λ x. (views.item_view x.0, x.1.now)) result (reading.item_after_at fuel (heads.Expression head) bytes.now) }
{
    let (expression, rest) = expression_after(alloc, fuel, head, bytes)?;
    let rest = literal(b";", rest)?;
    Ok((JsItem::Expression(expression), rest))
}

/// An item behind its first word.
pub fn item_after<'a>(alloc: Global, fuel: usize, head: ItemHead, bytes: &'a [u8]) -> Read<'a>
    ensures { Gives (λ x. (views.item_view x.0, x.1.now)) result (reading.item_after_at fuel head bytes.now) }
{
    match head {
        ItemHead::Const => const_after(alloc, fuel, bytes),
        ItemHead::Let => let_after(alloc, fuel, bytes),
        ItemHead::Function => function_after(alloc, fuel, bytes),
        ItemHead::Class => class_after(alloc, fuel, bytes),
        ItemHead::Expression(head) => expression_item_after(alloc, fuel, head, bytes),
    }
}
