// What is known of calls on receivers.
ghost use Rattle.std.specs.Prelude.{◌≡◌, Ok, IfOk, OnOk, option_copied};
ghost use Rattle.sj_emit_expr_questions.specs.Task.{Found, asks_one};
ghost use Rattle.sj_ask.specs.Answers.{IsAnswer};
ghost use Rattle.sj_ask.specs.Runs.{Ran};
ghost use Rattle.sj_ask.specs.Tasks as tasks;
ghost use Rattle.sj_emit_expr_spec.specs.Templates.{called_member};
ghost use Rattle.sj_emit_expr_parts.specs.Known as known;
ghost use Rattle.sj_emit_expr_parts.specs.Known.{lookup_of, target_of, Keeps, AreAsked};
ghost use Rattle.sj_names.specs.declared.memory.NoMemory.{NoMemory};

use indexmap::IndexMap;
use sj_ask::{Answer, Oracle, Question};
use sj_emit_expr_questions::Inquiry;
use sj_names::{ClassName, Member, Namespace, NoMemory};
use std::alloc::Global;

/// What is known of calls on receivers: for public members the members whose functions calls of them run, and for classes whether a hijacked class
/// stands below them.
#[derive(Drop)]
pub struct CallLookup {
    targets: IndexMap<Member, Member>,
    mixed: IndexMap<ClassName, bool>,
}

impl CallLookup {
    fn new(alloc: Global) -> CallLookup
        ensures { known.KnowsNothing result }
    {
        CallLookup {
            targets: IndexMap::new(alloc),
            mixed: IndexMap::new(alloc),
        }
    }

    // Keeps the target of a call, if it has one.
    fn put_target(&mut self, call: &Member, target: Option<&Member>) -> Result<(), NoMemory>
        ensures { OnOk result ((found : Found) → Keeps self.old found → Keeps self.new (known.more_targets call.now (option_copied target.entry) found)) }
    {
        if let Some(target) = target {
            self.targets.insert(call.copied()?, target.copied()?)?;
        }
        Ok(())
    }

    // Keeps whether a hijacked class stands below a class.
    fn put_hijacked(&mut self, class: &ClassName, is_mixed: bool) -> Result<(), NoMemory>
        ensures { OnOk result ((found : Found) → Keeps self.old found → Keeps self.new (known.more_mixed class.now is_mixed found)) }
    {
        self.mixed.insert(class.copied()?, is_mixed)?;
        Ok(())
    }

    // Keeps what was answered.
    fn put(&mut self, inquiry: &Inquiry, answer: &Answer) -> Result<(), NoMemory>
        ensures { OnOk result ((found : Found) → Keeps self.old found → Keeps self.new (known.found_more inquiry.now answer.now found)) }
    {
        match inquiry {
            Inquiry::Target(call) => self.put_target(call, member_in(answer)),
            Inquiry::Hijacked(class) => self.put_hijacked(class, says_yes(answer)),
        }
    }

    /// The member whose function a call of a member on a receiver runs: of a public member its target, where it has one, and else the member itself.
    pub fn called<'t>(&'t self, member: &'t Member) -> &'t Member
        ensures { result.now ≡ called_member (lookup_of self.now) member.now.namespace member.now }
    {
        match member.namespace {
            Namespace::Public => self.target(member),
            Namespace::PublicStatic
            | Namespace::Private
            | Namespace::PrivateStatic
            | Namespace::Constructor => member,
        }
    }

    fn target<'t>(&'t self, member: &'t Member) -> &'t Member
        ensures { result.now ≡ target_of self.now member.now }
    {
        match self.targets.get(member) {
            Some(target) => target,
            None => member,
        }
    }

    /// Whether a hijacked class stands below the class, as far as this was asked for.
    pub fn has_hijacked(&self, class: &ClassName) -> bool
        ensures { result ≡ known.has_hijacked_of self.now class.now }
    {
        match self.mixed.get(class) {
            Some(is_mixed) => *is_mixed,
            None => false,
        }
    }
}

fn question_of(inquiry: &Inquiry) -> Result<Question, NoMemory>
    ensures { IfOk result (λ q. q ≡ known.question_of inquiry.now) }
{
    match inquiry {
        Inquiry::Target(call) => Ok(Question::Resolve(call.class.copied()?, call.method.copied()?)),
        Inquiry::Hijacked(class) => Ok(Question::HasHijacked(class.copied()?)),
    }
}

// The member that an answer gives.
fn member_in(answer: &Answer) -> Option<&Member>
    ensures { option_copied result ≡ tasks.found_member answer.now }
{
    match answer {
        Answer::Member(found) => found.as_ref(),
        Answer::Yes(_) | Answer::Field(_) | Answer::Body(_) => None,
    }
}

fn says_yes(answer: &Answer) -> bool
    ensures { result ≡ tasks.says_yes answer.now }
{
    match answer {
        Answer::Yes(yes) => *yes,
        Answer::Member(_) | Answer::Field(_) | Answer::Body(_) => false,
    }
}

// The answer to what has to be asked.
fn ask_one<O: Oracle>(alloc: Global, inquiry: &Inquiry, oracle: &mut O) -> Result<Answer, NoMemory>
    ensures stand { O.stand oracle.new ≡ O.stand oracle.old }
    ensures ran { IfOk result (λ x. (found : Found) → Ran {E = NoMemory} (IsAnswer (O.stand oracle.old)) (asks_one inquiry.now found) (Ok (known.found_more inquiry.now x found)) (O.told oracle.old) (O.told oracle.new)) }
{
    let question = question_of(inquiry)?;
    let answer = oracle.answer(alloc, &question)?;
    Ok(answer)
}

/// What is known of calls by what the oracle is asked, in order. Want of memory is the only error.
pub fn ask_all<O: Oracle>(
    alloc: Global,
    inquiries: &[Inquiry],
    oracle: &mut O,
) -> Result<CallLookup, NoMemory>
    ensures stand { O.stand oracle.new ≡ O.stand oracle.old }
    ensures asked { IfOk result (λ known. AreAsked (IsAnswer (O.stand oracle.old)) inquiries.now known (O.told oracle.old) (O.told oracle.new)) }
{
    let mut known = CallLookup::new(alloc);
    for inquiry in inquiries {
        let answer = ask_one(alloc, inquiry, oracle)?;
        known.put(inquiry, &answer)?;
    }
    Ok(known)
}
