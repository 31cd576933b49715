//! The core: what it has, and how it begins. (Our own, after Harbor's job service and its task
//! manager.)
ghost use Rattle.std.specs.Prelude.{◌≡◌, ◌≤◌, ◌<◌, IfOk};
ghost use Rattle.std.specs.List.{AllByRecursion};
ghost use Rattle.hr_lane.specs.Conn.{links_of};
ghost use Rattle.hr_promise.specs.Lane.{IsLaneSound};

use crate::made::Made;
use crate::marks::Marks;
use hr_adapter::Registry;
use hr_base::{Hook, List, Memory, Moment};
use hr_board::PlainBoard;
use hr_event::TaskSpec;
use hr_lane::{Conn, Lane};
use hr_queue::Queue;
use hr_store::Store;
use std::alloc::Global;
use std::marker::Model;

/// The core: lanes that copy, the words of the jobs' revisions, their turns, their rows, and the
/// hooks that go from the first to the last.
#[derive(Drop)]
pub struct Core<A: Registry> {
    pub(crate) lanes: Vec<Lane<A>>,
    pub(crate) board: PlainBoard,
    pub(crate) turns: Queue,
    pub(crate) store: Store,
    pub(crate) made: Made,
    pub(crate) hooks: Vec<Hook>,
    pub(crate) delivered: Marks,
    pub(crate) moment: Moment,
    pub(crate) others: Vec<Conn<A>>,
    pub(crate) plan: Option<List<TaskSpec>>,
}

impl<A: Registry> Model for Core<A> {
    ghost use Rattle.hr_lane.specs.Conn.{links_of};
    ghost use Rattle.hr_run.specs.State.{CoreState};

    ghost Value = { CoreState };

    ghost view = { λ c. record {
      lanes = c.lanes.items;
      board = c.board;
      turns = c.turns;
      store = c.store;
      made = c.made;
      hooks = c.hooks.items;
      delivered = c.delivered.marks;
      now = c.moment.0;
      others = links_of A.seen c.others.items;
      plan = c.plan;
    } };
}

impl<A: Registry> Core<A> {
    ghost use Rattle.hr_run.specs.Sound.{IsSound};
    ghost use Rattle.hr_run.specs.State.{opening};

    /// The core before the first event: with lanes, with connections to registries that no lane
    /// reads or writes, with the tasks that a trigger of policy 1 plans, or none where the source
    /// could not be listed, and with room for so many jobs. The moment is 0.
    pub fn new(
        alloc: Global,
        lanes: List<Lane<A>>,
        others: List<Conn<A>>,
        plan: Option<List<TaskSpec>>,
        jobs: u32,
    ) -> Result<Core<A>, Memory>
        requires { jobs ≤ 262144 }
        ensures { IfOk result (λ core. core ≡ opening lanes (links_of A.seen others) plan jobs) }
    {
        Ok(Core {
            lanes: Vec::from(lanes),
            board: PlainBoard::new(alloc, jobs)?,
            turns: Queue::new(alloc),
            store: Store::new(alloc, jobs),
            made: Made::new(),
            hooks: Vec::new(alloc),
            delivered: Marks::new(alloc),
            moment: Moment(0),
            others: Vec::from(others),
            plan,
        })
    }

    /// Its lanes, with their journals and their connections.
    pub fn lanes(&self) -> &[Lane<A>]
        ensures { result.now ≡ self.now.lanes }
    {
        &self.lanes
    }

    /// The words of the jobs' revisions.
    pub fn board(&self) -> &PlainBoard
        ensures { result.now ≡ self.now.board }
    {
        &self.board
    }

    /// The turns of the jobs.
    pub fn queue(&self) -> &Queue
        ensures { result.now ≡ self.now.turns }
    {
        &self.turns
    }

    /// The executions with their rows.
    pub fn store(&self) -> &Store
        ensures { result.now ≡ self.now.store }
    {
        &self.store
    }

    /// The hooks that were emitted, over all lanes and stops, the oldest first.
    pub fn hooks(&self) -> &[Hook]
        ensures { result.now ≡ self.now.hooks }
    {
        &self.hooks
    }

    /// The moment, in seconds.
    pub fn now(&self) -> Moment
        ensures { result.0 ≡ self.now.now }
    {
        self.moment
    }

    /// A law: what its board, its queue, its store and its lanes keep to at every moment.
    pub fn is_sound(&self)
        ensures { IsSound self.now }
    {
        self.board.is_lawful();
        self.turns.is_whole();
        self.store.is_sound();
        are_sound(&self.lanes);
    }
}

// A law: every connection of each lane is sound at every moment.
fn are_sound<A: Registry>(lanes: &[Lane<A>])
    ensures { AllByRecursion IsLaneSound lanes.now }
{
    for at in 0..lanes.len() {
        lanes[at].is_sound();
    }
}
