// What must be believed, and nothing else: the types of the answers here, and in specs/ the definitions of what the
// manual says (docs/MANUAL.md), with the statements of the demands (specs/Demands.antt). The crate spec_laws proves
// those statements.

#![tactic(auto)]

// The lines of the manual's table, each with its number there (docs/MANUAL.md, "Refusals"), so that `reason as u8` is that
// number. Number 10 is retired and not used again (specs/Retired.antt).
#[derive(Clone, Copy, PartialEq, Eq)]
pub enum Reason {
    CatalogueSize = 1,
    CommandCount = 2,
    Index = 3,
    RecordCommand = 4,
    EndlessChain = 5,
    OwnChain = 6,
    PlanSize = 7,
    PlanByte = 8,
    AreaSize = 9,
    Framing = 11,
    PairsSize = 12,
    Text = 13,
    Nesting = 14,
    WrittenSize = 15,
    Places = 16,
    RecordCount = 17,
}

// plan is 1, 2 or 3 in the order given, and 0 for the catalogue, for areas and for places. place counts from 0: it is
// that of a byte, the number of an area, or that of a pair of places.
#[derive(Clone, Copy, PartialEq, Eq)]
pub struct Refusal {
    pub reason: Reason,
    pub plan: u8,
    pub place: usize,
}

// The answer of a call is a Result of what it gives and a Refusal. That of reading a catalogue is its number of commands;
// that of writing a plan, the length of what stands at the start of the area; that of a comparison or of a precedence
// check, yes or no. The others give these:

// A normal form: its length, where it stands at the start of the area, and the number of pairs of places whose letters
// cancelled with each other, which stand at the start of the second area.
#[derive(Clone, Copy, PartialEq, Eq)]
pub struct NormalForm {
    pub length: usize,
    pub pairs: usize,
}

// Two loops: the length of their lead-in, which stands at the start of the area, if they are joined; and the largest
// number of rounds that settling a part of either core takes.
#[derive(Clone, Copy, PartialEq, Eq)]
pub struct Loops {
    pub lead_in: Option<usize>,
    pub rounds: usize,
}

// Whether u is a lead-in from v to w, and the lengths of the normal forms of v·u and u·w, which stand at the starts of
// the two areas.
#[derive(Clone, Copy, PartialEq, Eq)]
pub struct LeadIn {
    pub yes: bool,
    pub vu: usize,
    pub uw: usize,
}

// A normal form with a slot beside each letter: its length, where it stands at the start of the area and the slots at
// the start of the second area, and how many different slots there are.
#[derive(Clone, Copy, PartialEq, Eq)]
pub struct Slots {
    pub length: usize,
    pub in_use: usize,
}
