// Refusals: what is wrong with the input of a call, straight from the specification's table.

use crate::catalogue::{commands, index, is_second, records, walk};
use crate::form::normal_form;
use crate::word::at;

// A line of the table by its number, with the plan and the place that it names.
#[derive(Clone, Copy, PartialEq, Eq)]
pub struct Refusal {
    pub number: u8,
    pub plan: u8,
    pub place: usize,
}

// Refuses by a line at the place at which it holds, if there is one.
fn refuse_at(number: u8, plan: u8, place: Option<usize>) -> Result<(), Refusal> {
    match place {
        Some(place) => Err(Refusal {
            number,
            plan,
            place,
        }),
        None => Ok(()),
    }
}

// Line 1.
fn wrong_size(c: &[u8]) -> bool {
    let size = if is_second(c) {
        3 + 2 * commands(c) + 3 * records(c)
    } else {
        2 + commands(c) + 2 * records(c)
    };
    c.len() != size
}

// What stands at a place of a catalogue, but for its start and the high bytes of indices.
#[derive(Clone, Copy, PartialEq, Eq)]
enum Part {
    Head,
    Command,
    Next,
}

// What stands at place k of a catalogue of the first edition.
fn part_of_first(c: &[u8], k: usize) -> Option<Part> {
    let records = 2 + commands(c);
    if k < 2 {
        None
    } else if k < records {
        Some(Part::Head)
    } else if (k - records) % 2 == 0 {
        Some(Part::Command)
    } else {
        Some(Part::Next)
    }
}

// The same in the second edition.
fn part_of_second(c: &[u8], k: usize) -> Option<Part> {
    let records = 3 + 2 * commands(c);
    if k < 3 {
        None
    } else if k < records {
        (k % 2 == 1).then_some(Part::Head)
    } else {
        match (k - records) % 3 {
            0 => Some(Part::Command),
            1 => Some(Part::Next),
            _ => None,
        }
    }
}

// The same in either.
fn part_at(c: &[u8], k: usize) -> Option<Part> {
    if c.len() <= k {
        None
    } else if is_second(c) {
        part_of_second(c, k)
    } else {
        part_of_first(c, k)
    }
}

// Line 17, whose place is 1.
fn wrong_count(c: &[u8], k: usize) -> bool {
    k == 1 && 1024 < records(c)
}

// Line 3.
fn wrong_index(c: &[u8], k: usize) -> bool {
    matches!(part_at(c, k), Some(Part::Head | Part::Next)) && records(c) < index(c, k)
}

// Line 4.
fn wrong_command(c: &[u8], k: usize) -> bool {
    part_at(c, k) == Some(Part::Command) && (at(c, k) == 0 || commands(c) < at(c, k) as usize)
}

// Line 5, where there is no goal, and line 6, where it is the same head.
fn wrong_chain(c: &[u8], k: usize, goal: Option<usize>) -> bool {
    part_at(c, k) == Some(Part::Head) && walk(c, k, goal)
}

// Line 8.
fn wrong_byte(c: &[u8], b: u8) -> bool {
    b == 128 || commands(c) < (b % 128) as usize
}

// Does a line hold at place k of the catalogue (1 to 6 and 17) or of the plan (7 and 8). A number picks the line, since
// the manual's table has numbers: closures, or an enum, would name its lines once more, and `refuse` tells the number.
fn holds(c: &[u8], plan: &[u8], line: u8, k: usize) -> bool {
    match line {
        1 => wrong_size(c),
        2 => 24 < commands(c),
        3 => wrong_index(c, k),
        4 => wrong_command(c, k),
        5 => wrong_chain(c, k, None),
        6 => wrong_chain(c, k, Some(k)),
        7 => 1024 < plan.len(),
        17 => wrong_count(c, k),
        _ => wrong_byte(c, at(plan, k)),
    }
}

// Refuses by a line, at the first place at which it holds.
fn refuse_by(c: &[u8], plan: &[u8], line: u8, number: u8) -> Result<(), Refusal> {
    let mut places = 0..=c.len() + plan.len();
    refuse_at(line, number, places.find(|k| holds(c, plan, line, *k)))
}

// Refuses by the first of some lines that holds.
fn refuse(c: &[u8], plan: &[u8], lines: &[u8], number: u8) -> Result<(), Refusal> {
    for line in lines {
        refuse_by(c, plan, *line, number)?;
    }
    Ok(())
}

// Line 9, for an area of so many bytes for each command.
fn check_area(room: usize, commands: usize, bytes: usize) -> Result<(), Refusal> {
    let small = commands != 0 && room / commands < bytes;
    refuse_at(9, 0, small.then_some(0))
}

// Line 12, or 9 of the slots call, for a second area of so many numbers.
fn check_second(line: u8, numbers: usize, bytes: usize) -> Result<(), Refusal> {
    refuse_at(line, 0, (numbers < bytes).then_some(1))
}

// Does a pair lack its second place, or name one past the letters, or the same place twice.
fn wrong_pair(pair: &[u16], letters: usize) -> bool {
    match pair {
        [i, j] => letters <= usize::from(*i) || letters <= usize::from(*j) || *i == *j,
        _ => true,
    }
}

// Line 16, for places in a normal form of so many letters.
fn check_places(places: &[u16], letters: usize) -> Result<(), Refusal> {
    let wrong = places.chunks(2).position(|pair| wrong_pair(pair, letters));
    refuse_at(16, 0, wrong)
}

// Of a catalogue.
pub fn check_catalogue(c: &[u8]) -> Result<(), Refusal> {
    refuse(c, b"", &[1, 2, 17, 3, 4, 5, 6], 0)
}

// Of a core.
pub fn check_form(c: &[u8], plan: &[u8], room: usize) -> Result<(), Refusal> {
    check_catalogue(c)?;
    refuse(c, plan, &[7, 8], 1)?;
    check_area(room, 1, plan.len())
}

// Of a normal form, whose second area has room for so many numbers.
pub fn check_normal_form(
    c: &[u8],
    plan: &[u8],
    room: usize,
    numbers: usize,
) -> Result<(), Refusal> {
    check_form(c, plan, room)?;
    check_second(12, numbers, plan.len())
}

// Of the slots of a normal form, likewise.
pub fn check_slots(c: &[u8], plan: &[u8], room: usize, numbers: usize) -> Result<(), Refusal> {
    check_form(c, plan, room)?;
    check_second(9, numbers, plan.len())
}

// Of a precedence check.
pub fn check_precedence(c: &[u8], plan: &[u8], places: &[u16]) -> Result<(), Refusal> {
    check_form(c, plan, plan.len())?;
    check_places(places, normal_form(c, plan).length)
}

// Of two plans, whatever the area.
fn check_two(c: &[u8], v: &[u8], w: &[u8]) -> Result<(), Refusal> {
    check_form(c, v, v.len())?;
    refuse(c, w, &[7, 8], 2)
}

// Of two loops.
pub fn check_loops(c: &[u8], v: &[u8], w: &[u8], room: usize) -> Result<(), Refusal> {
    check_two(c, v, w)?;
    check_area(room, commands(c), v.len() + w.len())
}

// Of two plans and a lead-in, which is never too long here, whatever the areas.
pub fn check_three(c: &[u8], v: &[u8], w: &[u8], u: &[u8]) -> Result<(), Refusal> {
    check_two(c, v, w)?;
    refuse(c, u, &[8], 3)
}
