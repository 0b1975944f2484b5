//! The modules that are evaluated, and those whose requests are under way.

ghost use Rattle.std.specs.Prelude.{◌≡◌, get_or, replicate, false, slice_get, IfOk, OnOk};
ghost use Rattle.module_order.specs.Order.{is_marked, requests_of};
ghost use Rattle.module_order.specs.Steps.{begins, begun, continued, entered, gone_on, pushed};

use sqlite_items::{Items, at};
use std::alloc::{AllocError, Global};

/// Which modules are evaluated, and those that have run, in order.
#[derive(Drop)]
pub(crate) struct Evaluation {
    pub(crate) marks: Items<bool>,
    pub(crate) order: Items<u32>,
}

/// A module whose requests are under way, and the place of the next.
#[derive(Clone, Copy)]
pub(crate) struct Frame {
    pub(crate) number: u32,
    pub(crate) next: usize,
}

/// An evaluation under way; the module that goes on next stands last.
#[derive(Drop)]
pub(crate) struct Walk {
    pub(crate) evaluation: Evaluation,
    pub(crate) stack: Items<Frame>,
}

fn requests_of<'a>(graph: &'a [Items<u32>], number: u32) -> &'a [u32]
    ensures { result.now ≡ requests_of graph.now number }
{
    match at(graph, number as usize) {
        None => &[],
        Some(requests) => requests.as_slice(),
    }
}

/// The next request of a module under way, if there is one more.
fn next_of(graph: &[Items<u32>], frame: Frame) -> Option<u32>
    ensures { result ≡ slice_get (requests_of graph.now frame.number) frame.next }
{
    match at(requests_of(graph, frame.number), frame.next) {
        None => None,
        Some(number) => Some(*number),
    }
}

fn all_unmarked(alloc: Global, count: usize) -> Result<Items<bool>, AllocError>
    ensures { IfOk result (λ marks. marks ≡ replicate count false) }
{
    let mut marks = Vec::new(alloc);
    marks.resize(count, false)?;
    Ok(Items::from_vec(marks))
}

impl Walk {
    /// Nothing is evaluated yet.
    pub(crate) fn begun(alloc: Global, count: usize) -> Result<Walk, AllocError>
        ensures { IfOk result (λ w. w ≡ begun count) }
    {
        Ok(Walk {
            evaluation: Evaluation {
                marks: all_unmarked(alloc, count)?,
                order: Items::new(alloc),
            },
            stack: Items::new(alloc),
        })
    }

    fn is_marked(&self, number: u32) -> bool
        ensures { result ≡ is_marked number self.now.evaluation }
    {
        match at(self.evaluation.marks.as_slice(), number as usize) {
            None => true,
            Some(mark) => *mark,
        }
    }

    fn push(&mut self, frame: Frame) -> Result<(), AllocError>
        ensures { OnOk result (self.new ≡ pushed frame self.old) }
    {
        self.stack.push(frame)
    }

    fn begin(&mut self, number: u32) -> Result<(), AllocError>
        ensures { OnOk result (self.new ≡ begins number self.old) }
    {
        let place = number as usize;
        if place < self.evaluation.marks.len() {
            self.evaluation.marks.set(place, true);
        }
        self.push(Frame { number, next: 0 })
    }

    /// A module is reached.
    pub(crate) fn enter(&mut self, number: u32) -> Result<(), AllocError>
        ensures { OnOk result (self.new ≡ entered number self.old) }
    {
        if self.is_marked(number) {
            return Ok(());
        }
        self.begin(number)
    }

    #[tactic(auto, unfolding(crate::specs::Steps::continued))]
    fn go_on_with(&mut self, frame: Frame, request: Option<u32>) -> Result<(), AllocError>
        ensures { OnOk result (self.new ≡ continued frame request self.old) }
    {
        let Some(number) = request else {
            return self.evaluation.order.push(frame.number);
        };
        let Some(next) = frame.next.checked_add(1) else {
            return Err(AllocError);
        };
        self.push(Frame {
            number: frame.number,
            next,
        })?;
        self.enter(number)
    }

    /// The module on the top, which was taken off, goes on with its next request, or runs.
    pub(crate) fn go_on(&mut self, graph: &[Items<u32>], frame: Frame) -> Result<(), AllocError>
        ensures { OnOk result (self.new ≡ gone_on graph.now frame self.old) }
    {
        self.go_on_with(frame, next_of(graph, frame))
    }
}
