// Oracles that keep what was asked.
ghost use Rattle.std.specs.Prelude.{◌≡◌, [], Some};

use sj_ask::{Answer, Log, Oracle, Question};
use sj_names::{Items, Member, NoMemory};
use std::alloc::Global;

/// An oracle that gives the answers of another and keeps each question with its answer, under the member that it was made for.
#[derive(Drop)]
pub struct Recorder<O: Oracle> {
    oracle: O,
    member: Member,
    asked: Vec<(Question, Answer)>,
}

impl<O: Oracle> Oracle for Recorder<O> {
    ghost use Rattle.std.specs.Prelude.{Some};

    ghost stand = { λ r. O.stand r.oracle };

    ghost told = { λ r. Some (record { member = r.member; asked = r.asked.items }) };

    fn answer(&mut self, alloc: Global, question: &Question) -> Result<Answer, NoMemory> {
        let answer = self.oracle.answer(alloc, question)?;
        let kept = answer.copied()?;
        self.asked.push((question.copied()?, kept))?;
        Ok(answer)
    }
}

impl<O: Oracle + Drop> Recorder<O> {
    /// A recorder of what is asked of `oracle` in the work on the member `k`. Nothing was asked yet. It takes no memory.
    pub fn new(alloc: Global, k: Member, oracle: O) -> Recorder<O>
        ensures stand { ⟦<Recorder<O> as Oracle>⟧.stand result ≡ O.stand oracle }
        ensures told { ⟦<Recorder<O> as Oracle>⟧.told result ≡ Some (record { member = k; asked = [] }) }
    {
        Recorder {
            oracle,
            member: k,
            asked: Vec::new(alloc),
        }
    }

    /// The log of what was asked, under the member that the recorder was made for. It takes no memory.
    pub fn into_log(self) -> Log
        ensures { ⟦<Recorder<O> as Oracle>⟧.told self ≡ Some result }
    {
        let Recorder {
            oracle: _,
            member,
            asked,
        } = self;
        Log {
            member,
            asked: Items::from_vec(asked),
        }
    }
}
