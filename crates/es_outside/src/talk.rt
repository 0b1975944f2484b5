ghost use Rattle.std.specs.Prelude.{◌≡◌, [], ◌∷◌, ◌++◌, OnOk, OnErr};

use crate::{HostAnswer, Prim, Prims, Reply};
use sqlite_items::Items;
use std::alloc::{AllocError, Global};

/// What a host heard and replied: the argument lists of its calls and its replies, in order.
#[derive(Debug, Drop)]
pub struct Talk {
    pub heard: Items<Prims>,
    pub replies: Items<Reply>,
}

impl Talk {
    ghost use Rattle.es_outside.specs.Talk.{talk_after};

    /// Nothing heard yet.
    pub fn new(alloc: Global) -> Talk
        ensures { result ≡ record { heard = []; replies = [] } }
    {
        Talk {
            heard: Items::new(alloc),
            replies: Items::new(alloc),
        }
    }

    /// Adds a call with these arguments and its answer, and nothing where memory is wanting.
    pub fn add(
        &mut self,
        alloc: Global,
        args: &[Prim],
        answer: &HostAnswer,
    ) -> Result<(), AllocError>
        ensures ok { OnOk result (self.new ≡ talk_after args.now answer.now self.old) }
        ensures err { OnErr result (self.new ≡ self.old) }
    {
        match answer {
            HostAnswer::Give(value) => self.turn(alloc, args, Reply::Give(value.copy(alloc)?)),
            HostAnswer::Throw(value) => self.turn(alloc, args, Reply::Throw(value.copy(alloc)?)),
            HostAnswer::Failed => self.hear(alloc, args),
            HostAnswer::OutOfMemory => Ok(()),
        }
    }

    fn hear(&mut self, alloc: Global, args: &[Prim]) -> Result<(), AllocError>
        ensures ok { OnOk result (self.new ≡ record self.old { heard = self.old.heard ++ args.now ∷ [] }) }
        ensures err { OnErr result (self.new ≡ self.old) }
    {
        self.heard.push(Prims::copy_of(alloc, args)?)
    }

    fn turn(&mut self, alloc: Global, args: &[Prim], reply: Reply) -> Result<(), AllocError>
        ensures ok { OnOk result (self.new ≡ record { heard = self.old.heard ++ args.now ∷ []; replies = self.old.replies ++ reply ∷ [] }) }
        ensures err { OnErr result (self.new ≡ self.old) }
    {
        self.replies.push(reply)?;
        let heard = self.hear(alloc, args);
        if heard.is_err() {
            self.replies.pop();
        }
        heard
    }
}
