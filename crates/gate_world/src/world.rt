//! A world: goals that build, walk and search over one table of words, each by events of its own.

ghost use Rattle.std.specs.Prelude.{◌≡◌, ◌≢◌, ◌≤◌, ◌<◌, ◌^◌, ℕ, List, All, None, Some, is_some, length, map, replicate, slice_get, slice_set, IfOk};
ghost use Rattle.bv_expr.specs.declared.goal.Goal.{Goal as GoalShown};
ghost use Rattle.gate_world.specs.Work.{is_false};
ghost use Rattle.gate_world.specs.World.{Actor, begun as begun_world};
ghost use Rattle.gate_world.specs.Right.{AreScripted};
ghost use Rattle.gate_world.specs.Tasks.{IsOf, IsTask, outcome_in};
ghost use Rattle.gate_world.specs.Reached.{AreIn, IsCancelled, IsWorld, StepsTo, TurnsTo, problems_of};
ghost use Rattle.gate_world.specs.declared.task.Task.{Task as TaskShown};

use crate::count::gate_counts;
use crate::event::{Event, Phase};
use crate::task::Task;
use bv_expr::Goal;
use goal_reply::{GateCounts, Outcome};
use std::alloc::{AllocError, Global};
use std::mem;

/// Goals over one table of words. The type keeps that some events lead to what it shows: so whatever holds for every list of
/// events holds of it.
#[derive(Drop)]
pub struct World<'a> {
    alloc: Global,
    goals: Vec<&'a Goal>,
    words: Vec<u64>,
    budget: u64,
    tasks: Vec<Task>,
    pub ghost reached: { ∥ IsWorld (map (λ g. g.now) goals.items) words.items budget tasks.items ∥₁ },
}

impl<'a> World<'a> {
    ghost use Rattle.std.specs.Prelude.{IfSome, IfNone};
    ghost use Rattle.gate_probe.specs.Sound.{IsSound};
    ghost use Rattle.gate_world.specs.Work.{Ended, End};
    ghost use Rattle.gate_world.specs.World.{World as ModelWorld, actor_at};
    ghost use Rattle.gate_world.specs.Right.{IsRight};
    ghost use Rattle.gate_world.specs.Counted.{gates_in_cones, distinct_gates};
    ghost use Rattle.gate_world.specs.Solving.{IsOutcomeOf, IsOutcomeBacked};
    ghost use Rattle.gate_world.specs.Scheduled.{AreBacked, AreOutcomesOf};
    ghost use Rattle.gate_world.specs.Shown.{AllHappen, Happens, IsSameWorld, NamesGoals, Shows, goals_of, phase_of};

    /// Goals over `words` empty words, 1 to 4,000,000, each with this budget of machine steps, at most 2^62. There are at
    /// most 65,536 goals. Takes what their scripts take, in time and memory. The only error is want of memory.
    pub fn new(
        alloc: Global,
        goals: &'a [Goal],
        words: u32,
        budget: u64,
    ) -> Result<World<'a>, AllocError>
        requires words { (1 ≤ words) × (words ≤ 4000000) }
        requires goals { length goals.now ≤ 65536 }
        requires budget { budget ≤ 2 ^ 62 }
        ensures goals { IfOk result (λ world. goals_of world ≡ goals.now) }
        ensures begun { IfOk result (λ world. Shows world (begun_world (problems_of goals.now) words budget)) }
        ensures scripted { IfOk result (λ world. AreScripted (problems_of (goals_of world))) }
    {
        let mut lent = Vec::new(alloc);
        for goal in goals {
            lent.push(goal)?;
        }
        World::over(alloc, lent, words, budget)
    }

    /// The same over goals that stand apart.
    pub fn over(
        alloc: Global,
        goals: Vec<&'a Goal>,
        words: u32,
        budget: u64,
    ) -> Result<World<'a>, AllocError>
        requires words { (1 ≤ words) × (words ≤ 4000000) }
        requires goals { length goals.items ≤ 65536 }
        requires budget { budget ≤ 2 ^ 62 }
        ensures goals { IfOk result (λ world. goals_of world ≡ map (λ g. g.now) goals.entry.items) }
        ensures begun { IfOk result (λ world. Shows world (begun_world (problems_of (map (λ g. g.now) goals.entry.items)) words budget)) }
        ensures scripted { IfOk result (λ world. AreScripted (problems_of (goals_of world))) }
    {
        let tasks = begun(alloc, &goals, words, budget)?;
        Ok(World {
            alloc,
            goals,
            words: Vec::from_elem(alloc, 0u64, words as usize)?,
            budget,
            tasks,
        })
    }

    /// One load or claim, one machine step, or one cancellation; what doesn't fit what the goal has in hand changes
    /// nothing. A goal that runs out of memory ends by it, and no other does. Takes what that one load, claim or step takes.
    pub fn step(&mut self, event: Event)
        requires { NamesGoals (length (goals_of self.old)) event }
        ensures happens { Happens event self.old self.new }
        ensures same { IsSameWorld self.old self.new }
    {
        match event {
            Event::Step(goal) => self.load(goal as usize),
            Event::Turn(goal) => self.turn(goal as usize),
            Event::Cancel { goal, cause } => self.cancel(goal as usize, cause),
        }
    }

    /// Events, from the first on.
    pub fn run(&mut self, events: &[Event])
        requires { All (NamesGoals (length (goals_of self.old))) events.now }
        ensures happen { AllHappen events.now self.old self.new }
        ensures same { IsSameWorld self.old self.new }
        ensures right { (w : ModelWorld) → Shows self.new w → IsRight (problems_of (goals_of self.new)) (length w.words) w.budget w }
    {
        for event in events {
            self.step(*event);
        }
        self.known();
    }

    /// How far a goal has come. O(1).
    pub fn phase(&self, goal: u32) -> Phase
        requires { goal < length (goals_of self.now) }
        ensures { (w : ModelWorld) → Shows self.now w → result ≡ phase_of (actor_at w goal).work }
    {
        self.known();
        self.tasks[goal as usize].phase()
    }

    /// A goal's outcome; `None` exactly where it hasn't ended. O(1).
    pub fn outcome(&self, goal: u32) -> Option<&Outcome>
        requires { goal < length (goals_of self.now) }
        ensures some { IfSome result (λ o. (w : ModelWorld) → Shows self.now w → (end : End) × ((actor_at w goal).work ≡ Ended end) × IsOutcomeOf o.now end) }
        ensures backed { IfSome result (λ o. (g : GoalShown) → slice_get (goals_of self.now) goal ≡ Some g → IsOutcomeBacked g o.now) }
        ensures none { IfNone result ((w : ModelWorld) → Shows self.now w → phase_of (actor_at w goal).work ≢ Phase.Ended) }
    {
        self.known();
        self.tasks[goal as usize].outcome()
    }

    /// The table's words; an empty one is 0. O(1).
    pub fn words(&self) -> &[u64]
        ensures words { (w : ModelWorld) → Shows self.now w → result.now ≡ w.words }
        ensures sound { IsSound result.now }
    {
        self.known();
        self.words.as_slice()
    }

    /// The gates in the cones of the goals that were searched to an end. Linear in these cones, one look-up by hash a gate.
    /// The only error is want of memory.
    pub fn gates(&self) -> Result<GateCounts, AllocError>
        ensures { IfOk result (λ counts. (w : ModelWorld) → Shows self.now w → (counts.in_cones ≡ gates_in_cones w.actors) × (counts.distinct ≡ distinct_gates w.actors)) }
    {
        self.known();
        gate_counts(self.alloc, &self.tasks)
    }

    /// The outcomes of the goals in order, all of which have ended. Linear in the goals. The only error is want of memory.
    pub fn into_outcomes(self) -> Result<Vec<Outcome>, AllocError>
        requires { (w : ModelWorld) → Shows self w → All (λ a. phase_of a.work ≡ Phase.Ended) w.actors }
        ensures outcomes { IfOk result (λ outcomes. (w : ModelWorld) → Shows self.entry w → AreOutcomesOf w.actors outcomes.items) }
        ensures backed { IfOk result (λ outcomes. AreBacked (goals_of self.entry) outcomes.items) }
    {
        self.known();
        outcomes_of(self.alloc, self.tasks)
    }

    /// What the type keeps. Nothing is done.
    fn known(&self)
        ensures { IsWorld (goals_of self.now) self.now.words.items self.now.budget self.now.tasks.items }
    {}

    fn load(&mut self, goal: usize)
        requires { goal < length (goals_of self.old) }
        ensures happens { Happens (Event.Step goal) self.old self.new }
        ensures same { IsSameWorld self.old self.new }
    {
        self.known();
        if has_outcome(&self.tasks, goal) {
            return;
        }
        let task = take(self.alloc, &mut self.tasks, goal);
        let next = stepped(
            self.alloc,
            task,
            self.goals[goal],
            &mut self.words,
            self.budget,
        );
        put(&mut self.tasks, goal, next);
    }

    fn turn(&mut self, goal: usize)
        requires { goal < length (goals_of self.old) }
        ensures happens { Happens (Event.Turn goal) self.old self.new }
        ensures same { IsSameWorld self.old self.new }
    {
        self.known();
        if has_outcome(&self.tasks, goal) {
            return;
        }
        let task = take(self.alloc, &mut self.tasks, goal);
        let next = turned(self.alloc, task, self.goals[goal]);
        put(&mut self.tasks, goal, next);
    }

    fn cancel(&mut self, goal: usize, cause: u32)
        requires goal { goal < length (goals_of self.old) }
        requires cause { cause < length (goals_of self.old) }
        ensures happens { Happens (Event.Cancel goal cause) self.old self.new }
        ensures same { IsSameWorld self.old self.new }
    {
        self.known();
        if !is_replied_false(&self.tasks, cause as usize) {
            return;
        }
        if has_outcome(&self.tasks, goal) {
            return;
        }
        let next = cancelled(self.alloc, cause);
        put(&mut self.tasks, goal, next);
    }
}

/// Whether the goal has ended.
fn has_outcome(tasks: &Vec<Task>, goal: usize) -> bool
    requires { goal < length tasks.now.items }
    ensures { (t : TaskShown) → slice_get tasks.now.items goal ≡ Some t → result ≡ is_some (outcome_in t) }
{
    tasks[goal].outcome().is_some()
}

/// Whether the goal is replied false.
fn is_replied_false(tasks: &Vec<Task>, goal: usize) -> bool
    requires { goal < length tasks.now.items }
    ensures { (t : TaskShown) (g : GoalShown) → slice_get tasks.now.items goal ≡ Some t → IsOf g t (λ work. result ≡ is_false work) }
{
    tasks[goal].is_false()
}

/// A goal that is cancelled.
fn cancelled(alloc: Global, cause: u32) -> Task
    ensures { IsCancelled cause result }
{
    Task::Ended(Outcome::Cancelled(cause), Vec::new(alloc))
}

/// The task of a goal, in whose place one stands that ran out of memory.
fn take(alloc: Global, tasks: &mut Vec<Task>, goal: usize) -> Task
    requires { goal < length tasks.old.items }
    ensures taken { slice_get tasks.old.items goal ≡ Some result }
    ensures rest { (broken : TaskShown) × (tasks.new.items ≡ slice_set tasks.old.items goal broken) }
{
    mem::replace(&mut tasks[goal], Task::broken(alloc))
}

/// What the goal has in hand from now on.
fn put(tasks: &mut Vec<Task>, goal: usize, task: Task)
    requires { goal < length tasks.old.items }
    ensures { tasks.new.items ≡ slice_set tasks.old.items goal task }
{
    tasks[goal] = task;
}

/// One load or claim; where memory is wanting, the goal has run out of it.
fn stepped(alloc: Global, task: Task, goal: &Goal, words: &mut [u64], budget: u64) -> Task
    requires budget { budget ≤ 2 ^ 62 }
    requires task { (a : Actor) × IsTask a words.old budget goal.now task }
    ensures { StepsTo words.old budget goal.now task words.new result }
{
    match task.step(alloc, goal, words, budget) {
        Ok(next) => next,
        Err(_) => Task::broken(alloc),
    }
}

/// One machine step; where memory is wanting, the goal has run out of it.
fn turned(alloc: Global, task: Task, goal: &Goal) -> Task
    requires { (a : Actor) × (words : List ℕ) × (budget : ℕ) × IsTask a words budget goal.now task }
    ensures { TurnsTo goal.now task result }
{
    match task.turn(alloc, goal) {
        Ok(next) => next,
        Err(_) => Task::broken(alloc),
    }
}

/// The outcome of a goal that has ended.
fn outcome_of(task: Task) -> Outcome
    requires { outcome_in task ≢ None }
    ensures { outcome_in task ≡ Some result }
{
    match task {
        Task::Ended(outcome, _) => outcome,
        _ => unreachable!(),
    }
}

/// The outcomes of goals that have ended, in their order.
fn outcomes_of(alloc: Global, tasks: Vec<Task>) -> Result<Vec<Outcome>, AllocError>
    requires { All (λ task. outcome_in task ≢ None) tasks.items }
    ensures { IfOk result (λ outcomes. map outcome_in tasks.items ≡ map (λ o. Some o) outcomes.items) }
{
    let mut outcomes = Vec::new(alloc);
    for task in tasks {
        outcomes.push(outcome_of(task))?;
    }
    Ok(outcomes)
}

/// The goals at the first load or claim of their scripts.
fn begun(alloc: Global, goals: &[&Goal], size: u32, budget: u64) -> Result<Vec<Task>, AllocError>
    requires size { (1 ≤ size) × (size ≤ 4000000) }
    requires budget { budget ≤ 2 ^ 62 }
    ensures scripted { IfOk result (λ tasks. AreScripted (problems_of (map (λ g. g.now) goals.now))) }
    ensures begun { IfOk result (λ tasks. AreIn (map (λ g. g.now) goals.now) (replicate size 0) budget tasks.items (begun_world (problems_of (map (λ g. g.now) goals.now)) size budget)) }
{
    let mut tasks = Vec::new(alloc);
    for goal in goals {
        tasks.push(Task::begin(alloc, *goal, size, budget)?)?;
    }
    Ok(tasks)
}
