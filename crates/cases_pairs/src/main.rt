// The pairs of many plans at random, those that the library tells beside those of the solver; then the same with
// catalogues, plans and areas that are damaged, of which most are refused.

#![tactic(auto)]

mod compare;

ghost use Rattle.std.specs.Prelude.{◌<◌, ◌≤◌};

use cases_random::{
    Catalogue, Plan, Random, area_size, harm, harm_size, plan_size, random_catalogue, random_plan,
};
use cases_report::every;
use compare::agree;

// The size of a plan: most are short, some as long as a plan may be.
fn size(random: &mut Random) -> usize
    ensures { result ≤ 1024 }
{
    match random.draw(8) {
        0 => 1024,
        1 => random.draw(1025),
        _ => random.draw(65),
    }
}

// A catalogue and a plan at random. Not that of cases_slots: it draws another size, and commands of the first 6.
fn drawn(random: &mut Random) -> (Catalogue, Plan)
    ensures { (result.0.size < 3300) × (result.1.size ≤ 1024) }
{
    let n = 1 + random.draw(24);
    let c = random_catalogue(random, n);
    let size = size(random);
    let some = 1 + random.draw(n);
    let plan = random_plan(random, size, some);
    (c, plan)
}

// Puts a catalogue and a plan at random to library and solver, with areas that are large enough: do they agree.
fn whole(random: &mut Random) -> bool {
    let (c, plan) = drawn(random);
    let first = random.room(plan.size);
    let second = random.room(plan.size);
    agree(c.used(), plan.used(), first, second)
}

// The same, damaged.
fn harmed(random: &mut Random) -> bool {
    let (mut c, mut plan) = drawn(random);
    harm(random, &mut c);
    harm(random, &mut plan);
    harm_size(random, &mut c);
    let m = plan_size(random, plan.size);
    plan.size = m;
    let first = area_size(random, m);
    let second = area_size(random, m);
    agree(c.used(), plan.used(), first, second)
}

// 50,000 plans as they should be, then as many that are damaged.
fn main() {
    let mut random = Random::new();
    every(50000, |_| whole(&mut random), b" plans agree, in pairs\n");
    let mut random = Random::new();
    every(
        50000,
        |_| harmed(&mut random),
        b" damaged inputs agree, in refusals and pairs\n",
    );
}
