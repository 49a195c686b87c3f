// What was asked.
use crate::{Answer, Question};
use sj_names::{Items, Member};

/// What was asked in the work on a member: the questions in the order in which they were asked, each with its answer.
#[derive(Drop)]
pub struct Log {
    pub member: Member,
    pub asked: Items<(Question, Answer)>,
}
