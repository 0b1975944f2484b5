ghost use Rattle.std.specs.Prelude.{◌≡◌, ◌≢◌, ◌⊎◌, map, IfOk, OnErr};
ghost use Rattle.sure_outside.specs.Replies.{answer_of};

use es_outside::{Host, HostAnswer, Prim, Prims, Reply, Talk};
use std::alloc::{AllocError, Global};
use std::marker::Model;

/// A host in memory that never fails. It gives the listed replies in order, then undefined for ever,
/// and tells what it heard and replied.
#[derive(Debug, Drop)]
pub struct SureHost {
    /// The replies that are left, the next one last.
    replies: Vec<Reply>,
    talk: Talk,
}

impl Model for SureHost {
    ghost use Rattle.std.specs.Prelude.{map, reverse};
    ghost use Rattle.es_outside.specs.ListHosts.{Listed};
    ghost use Rattle.sure_outside.specs.Replies.{answer_of};

    ghost Value = { Listed };

    ghost view = { λ host. record {
      answers = map answer_of (reverse host.replies.items);
      talk = host.talk;
      faults = 0;
    } };
}

/// The answer that gives this reply.
fn answer_of(alloc: Global, reply: &Reply) -> Result<HostAnswer, AllocError>
    ensures { IfOk result (λ answer. answer ≡ answer_of reply.now) }
{
    match reply {
        Reply::Give(value) => Ok(HostAnswer::Give(value.copy(alloc)?)),
        Reply::Throw(value) => Ok(HostAnswer::Throw(value.copy(alloc)?)),
    }
}

impl SureHost {
    ghost use Rattle.es_outside.specs.ListHosts.{listed, next_answer, after_answer};

    /// A host that is to give these replies.
    pub fn new(alloc: Global, mut replies: Vec<Reply>) -> SureHost
        ensures { result ≡ listed (map answer_of replies.items) }
    {
        replies.reverse();
        SureHost {
            replies,
            talk: Talk::new(alloc),
        }
    }

    /// Takes the next answer, or nothing where memory is wanting.
    fn next(&mut self, alloc: Global, args: &[Prim]) -> Result<HostAnswer, AllocError>
        ensures ok { IfOk result (λ answer.
            (answer ≡ next_answer self.old.answers) × (self.new ≡ after_answer self.old args.now)) }
        ensures err { OnErr result (self.new ≡ self.old) }
        ensures never_fails { IfOk result (λ answer. answer ≢ HostAnswer.Failed) }
    {
        let answer = match self.replies.last() {
            Some(reply) => answer_of(alloc, reply)?,
            None => HostAnswer::Give(Prim::Undefined),
        };
        self.talk.add(alloc, args, &answer)?;
        self.replies.pop();
        Ok(answer)
    }
}

impl Host for SureHost {
    ghost use Rattle.std.specs.Prelude.{Some, true};
    ghost use Rattle.es_outside.specs.ListHosts.{next_answer, after_answer};

    ghost talk = { λ host. Some host.talk };

    ghost faults = { λ _. 0 };

    ghost sure = { λ _. true };

    fn answer(&mut self, alloc: Global, args: &[Prim]) -> HostAnswer
        ensures next { ((result ≡ next_answer self.old.answers) × (self.new ≡ after_answer self.old args.now))
            ⊎ ((result ≡ HostAnswer.OutOfMemory) × (self.new ≡ self.old)) }
        ensures never_fails { result ≢ HostAnswer.Failed }
    {
        match self.next(alloc, args) {
            Ok(answer) => answer,
            Err(_) => HostAnswer::OutOfMemory,
        }
    }

    fn heard(&self) -> Option<&[Prims]> {
        Some(self.talk.heard.as_slice())
    }
}
