// Slots and the precedence check: many short plans at random, with what the library says of them beside what the solver
// says; then the same with catalogues, plans, areas and lists of places that are damaged, of which most are refused.

#![tactic(auto)]

mod compare;
mod list;

ghost use Rattle.std.specs.Prelude.{◌<◌, ◌≤◌, length};

use cases_random::{
    Catalogue, Plan, Random, area_size, harm, harm_size, plan_size, random_catalogue, random_plan,
};
use cases_report::every;
use cases_solver::normal_form;
use compare::{list_agrees, pairs_agree, slots_agree};
use list::random_list;

// The most bytes of a plan whose normal form has at most 6 letters, if the bytes behind them are left out.
fn short(c: &[u8], plan: &[u8]) -> usize
    ensures { result ≤ length plan.now }
{
    for n in (1..=plan.len()).rev() {
        if normal_form(c, &plan[..n]).length <= 6 {
            return n;
        }
    }
    0
}

// Do library and solver agree on a list of places at random, which may be wrong (the module list says what that is).
fn some_list_agrees(random: &mut Random, c: &[u8], plan: &[u8], wrong: bool) -> bool {
    let mut room = [0; 8];
    let letters = normal_form(c, plan).length;
    list_agrees(c, plan, random_list(random, &mut room, letters, wrong))
}

// A number of commands, of the first n: one to 6.
fn few(random: &mut Random, n: usize) -> usize
    requires { 0 < n }
    ensures { (0 < result) × (result ≤ n) }
{
    1 + random.draw(n.min(6))
}

// A catalogue and a plan of at most 16 bytes, with letters of few commands, at random. Not that of cases_pairs, which
// draws longer plans, of any commands.
fn drawn(random: &mut Random) -> (Catalogue, Plan)
    ensures { (result.0.size < 3300) × (result.1.size ≤ 1024) }
{
    let n = 1 + random.draw(24);
    let c = random_catalogue(random, n);
    let size = random.draw(17);
    let some = few(random, n);
    let plan = random_plan(random, size, some);
    (c, plan)
}

// Puts a catalogue and a plan at random to library and solver, with areas that are large enough: do they agree.
fn whole(random: &mut Random) -> bool {
    let (catalogue, mut plan) = drawn(random);
    let c = catalogue.used();
    plan.size = short(c, plan.used());
    let v = plan.used();
    let first = random.room(plan.size);
    let second = random.room(plan.size);
    slots_agree(c, v, first, second) && pairs_agree(c, v) && some_list_agrees(random, c, v, false)
}

// The same, damaged.
fn harmed(random: &mut Random) -> bool {
    let (mut catalogue, mut plan) = drawn(random);
    harm(random, &mut catalogue);
    harm(random, &mut plan);
    harm_size(random, &mut catalogue);
    let c = catalogue.used();
    let short = short(c, plan.used());
    let m = plan_size(random, short);
    plan.size = m;
    let first = area_size(random, m);
    let second = area_size(random, m);
    slots_agree(c, plan.used(), first, second) && some_list_agrees(random, c, plan.used(), true)
}

// 50,000 plans as they should be, then as many that are damaged.
fn main() {
    let mut random = Random::new();
    every(
        50000,
        |_| whole(&mut random),
        b" plans agree, in slots and precedence\n",
    );
    let mut random = Random::new();
    every(
        50000,
        |_| harmed(&mut random),
        b" damaged inputs agree, in refusals, slots and precedence\n",
    );
}
