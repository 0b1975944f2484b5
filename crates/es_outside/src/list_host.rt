ghost use Rattle.std.specs.Prelude.{◌≡◌, ◌≤◌, false, ◌⊎◌, IfOk, OnErr, Some};

use crate::{FaultCount, Host, HostAnswer, Prim, Prims, Talk};
use std::alloc::{AllocError, Global};
use std::marker::Model;

/// A host in memory, which gives the listed answers in order, then undefined for ever. It tells what it heard
/// and replied.
#[derive(Debug, Drop)]
pub struct ListHost {
    /// The answers that are left, the next one last.
    answers: Vec<HostAnswer>,
    talk: Talk,
    faults: FaultCount,
}

impl Model for ListHost {
    ghost use Rattle.std.specs.Prelude.{reverse};
    ghost use Rattle.es_outside.specs.ListHosts.{Listed};

    ghost Value = { Listed };

    ghost view = { λ host. record { answers = reverse host.answers.items; talk = host.talk; faults = host.faults } };
}

impl ListHost {
    ghost use Rattle.es_outside.specs.Counts.{CountRose};
    ghost use Rattle.es_outside.specs.ListHosts.{listed, next_answer, after_answer};

    /// A host that is to give these answers.
    pub fn new(alloc: Global, mut answers: Vec<HostAnswer>) -> ListHost
        ensures { result ≡ listed answers.items }
    {
        answers.reverse();
        ListHost {
            answers,
            talk: Talk::new(alloc),
            faults: FaultCount::new(),
        }
    }

    /// Takes the next answer, or nothing where memory is wanting.
    fn next(&mut self, alloc: Global, args: &[Prim]) -> Result<HostAnswer, AllocError>
        ensures ok { IfOk result (λ answer. (answer ≡ next_answer self.old.answers) × (self.new ≡ after_answer self.old args.now)) }
        ensures err { OnErr result (self.new ≡ self.old) }
        ensures no_fall { self.old.faults ≤ self.new.faults }
        ensures failed { IfOk result (λ answer. answer ≡ HostAnswer.Failed → CountRose self.old.faults self.new.faults) }
    {
        let answer = match self.answers.last() {
            Some(answer) => answer.copy(alloc)?,
            None => HostAnswer::Give(Prim::Undefined),
        };
        self.talk.add(alloc, args, &answer)?;
        if let HostAnswer::Failed = answer {
            self.faults.raise();
        }
        self.answers.pop();
        Ok(answer)
    }
}

impl Host for ListHost {
    ghost use Rattle.es_outside.specs.Counts.{CountRose};
    ghost use Rattle.es_outside.specs.ListHosts.{next_answer, after_answer};

    ghost talk = { λ host. Some host.talk };

    ghost faults = { λ host. host.faults };

    ghost sure = { λ _. false };

    fn answer(&mut self, alloc: Global, args: &[Prim]) -> HostAnswer
        ensures next { ((result ≡ next_answer self.old.answers) × (self.new ≡ after_answer self.old args.now))
            ⊎ ((result ≡ HostAnswer.OutOfMemory) × (self.new ≡ self.old)) }
        ensures no_fall { self.old.faults ≤ self.new.faults }
        ensures failed { result ≡ HostAnswer.Failed → CountRose self.old.faults self.new.faults }
    {
        match self.next(alloc, args) {
            Ok(answer) => answer,
            Err(_) => HostAnswer::OutOfMemory,
        }
    }

    fn heard(&self) -> Option<&[Prims]> {
        Some(self.talk.heard.as_slice())
    }
}
