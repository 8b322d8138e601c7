//! A schedule: the events of goals are drawn by a generator until all goals have ended.

ghost use Rattle.std.specs.Prelude.{◌≡◌, ◌≤◌, ◌<◌, ◌^◌, length, map, IfOk};
ghost use Rattle.rand_pcg.specs.Pcg.{pcg32};
ghost use Rattle.gate_world.specs.World.{World as ModelWorld, actor_at};
ghost use Rattle.gate_world.specs.Drawn.{event_for, has_ended};
ghost use Rattle.gate_world.specs.Left.{AreLeft, Draws};
ghost use Rattle.gate_world.specs.Scheduled.{AreRightOutcomes, IsScheduled};
ghost use Rattle.gate_world.specs.Shown.{event_of as model_event, IsSameWorld, NamesGoals, Shows, goals_of};

use crate::event::{Event, Phase};
use crate::world::World;
use bv_expr::Goal;
use goal_reply::{GateCounts, Outcome};
use rand_core::utils::NextWord;
use rand_pcg::Lcg64Xsh32;
use std::alloc::{AllocError, Global};

/// What goals came to, in order, and the gates in the cones of those that were searched to an end.
#[derive(Drop)]
pub struct Scheduled {
    pub outcomes: Vec<Outcome>,
    pub counts: GateCounts,
}

/// The next event of a goal that hasn't ended.
fn event_of(world: &World<'_>, goal: u32) -> Event
    requires { goal < length (goals_of world.now) }
    ensures event { (w : ModelWorld) → Shows world.now w → model_event result ≡ event_for w goal }
    ensures names { NamesGoals (length (goals_of world.now)) result }
{
    match world.phase(goal) {
        Phase::Searching => Event::Turn(goal),
        _ => Event::Step(goal),
    }
}

/// Whether a goal has ended.
fn is_ended(world: &World<'_>, goal: u32) -> bool
    requires { goal < length (goals_of world.now) }
    ensures { (w : ModelWorld) → Shows world.now w → result ≡ has_ended (actor_at w goal).work }
{
    matches!(world.phase(goal), Phase::Ended)
}

/// The numbers of the goals that haven't ended, of so many, in rising order.
fn unended(alloc: Global, world: &World<'_>, count: u32) -> Result<Vec<u32>, AllocError>
    requires { count ≡ length (goals_of world.now) }
    ensures { IfOk result (λ left. AreLeft world.now left.items) }
{
    let mut goals = Vec::new(alloc);
    for goal in 0..count {
        if !is_ended(world, goal) {
            goals.push(goal)?;
        }
    }
    Ok(goals)
}

/// One event, which the generator draws, of the goals that are left.
fn draw(world: &mut World<'_>, generator: &mut Lcg64Xsh32, left: &mut Vec<u32>)
    requires shown { (w : ModelWorld) × Shows world.old w }
    requires left { AreLeft world.old left.old.items }
    requires some { 1 ≤ length left.old.items }
    ensures draws { Draws (pcg32 generator.old).0 world.old world.new }
    ensures generator { generator.new ≡ (pcg32 generator.old).1 }
    ensures left { AreLeft world.new left.new.items }
    ensures same { IsSameWorld world.old world.new }
{
    let at = generator.next_word() as usize % left.len();
    let goal = left[at];
    let event = event_of(world, goal);
    world.step(event);
    if is_ended(world, goal) {
        let _ended = left.remove(at);
    }
}

/// The goals over `words` empty words, 1 to 4,000,000, each with this budget of machine steps, at most 2^62, where the
/// generator `Lcg64Xsh32::new(seed, 1)` draws the events: as long as goals are unended, the one at index (next word mod
/// their number) in rising order gets the next event, a machine step where it searches and else a load or claim. There are at
/// most 65,536 goals.
///
/// Each goal has the reply that it has alone, or ran out of memory, or found each word of the table taken. The only error
/// is want of memory. Takes at most calls * (2 * words + 2) + gates loads and claims a goal, for the calls of its script
/// and the gates of its cone, and budget + 1 machine steps; an event moves the numbers of the goals behind one that ended.
pub fn schedule(
    alloc: Global,
    goals: Vec<&Goal>,
    seed: u32,
    words: u32,
    budget: u64,
) -> Result<Scheduled, AllocError>
    requires words { (1 ≤ words) × (words ≤ 4000000) }
    requires goals { length goals.items ≤ 65536 }
    requires budget { budget ≤ 2 ^ 62 }
    ensures scheduled { IfOk result (λ s. IsScheduled (map (λ g. g.now) goals.entry.items) seed words budget s.outcomes.items s.counts) }
    ensures right { IfOk result (λ s. AreRightOutcomes budget (map (λ g. g.now) goals.entry.items) s.outcomes.items) }
{
    let count = goals.len() as u32;
    let mut world = World::over(alloc, goals, words, budget)?;
    let mut left = unended(alloc, &world, count)?;
    let mut generator = Lcg64Xsh32::new(u64::from(seed), 1);
    while !left.is_empty() {
        draw(&mut world, &mut generator, &mut left);
    }
    let counts = world.gates()?;
    let outcomes = world.into_outcomes()?;
    Ok(Scheduled { outcomes, counts })
}
