ghost use Rattle.std.specs.Prelude.{◌≡◌, ◌<◌, ◌↔◌, map, IfOk, IsTrue, Option};
ghost use Rattle.std.specs.List.{range_with_len};

use crate::held::{held_by, publish_last};
use crate::published::Published;
use crate::step::{Step, StepError};
use bp_faults::{NodeId, OutOfMemory};
use serial_pass::laws::{
    edge_numbers_are_together, results_meet_their_equation, starts_of_edges_rise,
};
use serial_pass::{Plan, Visit, empty_slots, in_degrees, no_marks, starts_of, unwrapped};
use std::alloc::Global;
use std::marker::Model;

/// A pass whose steps may be taken in any order that the counters allow.
#[derive(Drop)]
pub struct Core<V: Visit> {
    plan: Plan,
    visitor: V,
    starts: Vec<u32>,
    counters: Vec<u32>,
    claimed: Vec<bool>,
    filled: Vec<Option<Published<V::Out>>>,
    subtracted: Vec<bool>,
    fetched: Vec<bool>,
    unfetched: Vec<u32>,
    published: Vec<Option<Published<V::Out>>>,
    steps: u64,
}

impl<V: Visit> Model for Core<V> {
    ghost use Rattle.pass_core.specs.CoreViews.{CoreView};
    ghost use Rattle.pass_core.specs.CoreKept.{state_of, IsCore};

    ghost Value = { CoreView V V.Out };

    ghost view = { λ c. record {
      plan = c.plan;
      visitor = c.visitor;
      state = state_of c.counters.items c.claimed.items c.filled.items c.subtracted.items c.fetched.items;
    } };

    ghost invariant = { λ c. IsCore (V.meaning c.visitor) (V.takes c.visitor) c.plan c.starts.items
        (state_of c.counters.items c.claimed.items c.filled.items c.subtracted.items c.fetched.items)
        c.unfetched.items c.published.items c.steps };
}

impl<V: Visit> Core<V> {
    ghost use Rattle.std.specs.Prelude.{◌≡◌, ◌↔◌, IsTrue};
    ghost use Rattle.pass_core.specs.declared.step.Step.TheVariants.{Claim, Fetch, Fill, Subtract};
    ghost use Rattle.pass_core.specs.CoreAnswers.{AnswersCoreStep};
    ghost use Rattle.pass_core.specs.CoreStates.{IsFinished, IsReachedIn};
    ghost use Rattle.serial_pass.specs.Plans.{IsPlan, HasNoCycle};

    /// How many steps were taken. Its clauses are what the laws of the core machine ask of a state, for every core.
    pub fn steps(&self) -> u64
        ensures plan { IsPlan self.now.plan }
        ensures free { HasNoCycle self.now.plan.edges }
        ensures reached { IsReachedIn (V.meaning self.now.visitor) self.now.plan result self.now.state }
    {
        self.steps
    }

    /// Whether every visit was made, and every edge is filled, subtracted and fetched.
    pub fn finished(&self) -> bool
        ensures { IsTrue result ↔ IsFinished self.now.plan self.now.state }
    {
        self.steps == u64::from(self.plan.count) + 3 * self.plan.edges.as_slice().len() as u64
    }

    /// Takes a step, where it is allowed.
    pub fn step(&mut self, alloc: Global, s: Step) -> Result<(), StepError>
        ensures { AnswersCoreStep (V.meaning self.old.visitor) self.old s result self.new }
    {
        match s {
            Step::Claim(n) => self.claim(alloc, n),
            Step::Fetch(e) => self.fetch(alloc, e),
            Step::Fill(e) => self.fill(alloc, e),
            Step::Subtract(e) => self.subtract(e),
        }
    }

    fn claim(&mut self, alloc: Global, n: NodeId) -> Result<(), StepError>
        ensures { AnswersCoreStep (V.meaning self.old.visitor) self.old (Claim n) result self.new }
    {
        let node = n.0 as usize;
        if n.0 >= self.plan.count || self.claimed[node] || self.counters[node] != 0 {
            return Err(StepError::NotAllowed(Step::Claim(n)));
        }
        results_meet_their_equation::<V::Out>();
        edge_numbers_are_together();
        starts_of_edges_rise();
        let held = held_by(&self.filled, &self.starts, n);
        let last = self.unfetched[node] == 0;
        publish_last(alloc, &self.visitor, n, held, last, &mut self.published)?;
        self.claimed[node] = true;
        self.steps += 1;
        Ok(())
    }

    fn fetch(&mut self, alloc: Global, e: u32) -> Result<(), StepError>
        ensures { AnswersCoreStep (V.meaning self.old.visitor) self.old (Fetch e) result self.new }
    {
        let edge = e as usize;
        if edge >= self.fetched.len() || self.filled[edge].is_none() || self.fetched[edge] {
            return Err(StepError::NotAllowed(Step::Fetch(e)));
        }
        let n = self.plan.edges.as_slice()[edge].to;
        let node = n.0 as usize;
        if !self.claimed[node] {
            return Err(StepError::NotAllowed(Step::Fetch(e)));
        }
        results_meet_their_equation::<V::Out>();
        edge_numbers_are_together();
        starts_of_edges_rise();
        let held = held_by(&self.filled, &self.starts, n);
        let last = self.unfetched[node] == 1;
        publish_last(alloc, &self.visitor, n, held, last, &mut self.published)?;
        self.unfetched[node] -= 1;
        self.fetched[edge] = true;
        self.steps += 1;
        Ok(())
    }

    fn fill(&mut self, alloc: Global, e: u32) -> Result<(), StepError>
        ensures { AnswersCoreStep (V.meaning self.old.visitor) self.old (Fill e) result self.new }
    {
        let edge = e as usize;
        if edge >= self.filled.len() || self.filled[edge].is_some() {
            return Err(StepError::NotAllowed(Step::Fill(e)));
        }
        results_meet_their_equation::<V::Out>();
        let source = self.plan.edges.as_slice()[edge].from.0 as usize;
        match &self.published[source] {
            Some(result) => {
                self.filled[edge] = Some(result.copy(alloc)?);
                self.steps += 1;
                Ok(())
            }
            None => Err(StepError::NotAllowed(Step::Fill(e))),
        }
    }

    fn subtract(&mut self, e: u32) -> Result<(), StepError>
        ensures { AnswersCoreStep (V.meaning self.old.visitor) self.old (Subtract e) result self.new }
    {
        let edge = e as usize;
        if edge >= self.filled.len() || self.filled[edge].is_none() || self.subtracted[edge] {
            return Err(StepError::NotAllowed(Step::Subtract(e)));
        }
        results_meet_their_equation::<V::Out>();
        let node = self.plan.edges.as_slice()[edge].to.0 as usize;
        self.counters[node] -= 1;
        self.subtracted[edge] = true;
        self.steps += 1;
        Ok(())
    }
}

impl<V: Visit + Drop> Core<V> {
    ghost use Rattle.std.specs.Prelude.{◌≡◌, map};
    ghost use Rattle.std.specs.List.{range_with_len};
    ghost use Rattle.pass_core.specs.CoreStates.{IsFinished, beginning};
    ghost use Rattle.serial_pass.specs.Outcomes.{TakesPlan};
    ghost use Rattle.serial_pass.specs.Plans.{IsPlan, HasNoCycle};
    ghost use Rattle.serial_pass.specs.Results.{node_result};
    ghost use Rattle.pass_core.specs.Shown.{published_result};

    /// A pass that hasn't begun.
    pub fn new(alloc: Global, plan: Plan, v: V) -> Result<Core<V>, OutOfMemory>
        requires plan { IsPlan plan }
        requires free { HasNoCycle plan.edges }
        requires takes { TakesPlan (V.takes v) plan }
        ensures { IfOk result (λ core. core ≡ record { plan = plan; visitor = v; state = beginning plan }) }
    {
        let many = plan.edges.as_slice().len();
        let count = plan.count as usize;
        let starts = starts_of(alloc, &plan)?;
        let counters = in_degrees(alloc, &plan, &starts)?;
        let unfetched = in_degrees(alloc, &plan, &starts)?;
        let claimed = no_marks(alloc, count)?;
        let subtracted = no_marks(alloc, many)?;
        let fetched = no_marks(alloc, many)?;
        let filled = empty_slots(alloc, many as u32)?;
        let published = empty_slots(alloc, plan.count)?;
        Ok(Core {
            plan,
            visitor: v,
            starts,
            counters,
            claimed,
            filled,
            subtracted,
            fetched,
            unfetched,
            published,
            steps: 0,
        })
    }

    /// The results by node number.
    pub fn into_outs(self, alloc: Global) -> Result<Vec<Published<V::Out>>, OutOfMemory>
        requires { IsFinished self.plan self.state }
        ensures { IfOk result (λ outs. map published_result outs.items
            ≡ map (node_result (V.meaning self.visitor) self.plan) (range_with_len 0 self.plan.count)) }
    {
        Ok(unwrapped(alloc, self.published)?)
    }
}
