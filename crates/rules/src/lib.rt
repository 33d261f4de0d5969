// The values that every call answers with, and the paper as definitions, in specs/. What each value means stands there.
#![tactic(auto)]

// A record: its kind, and its two numbers.
#[derive(Clone, Copy, Debug, PartialEq, Eq)]
pub struct Record {
    pub kind: u8,
    pub x: u16,
    pub y: u16,
}

// Why a call is turned away, under the paper's names. The number is the place: of a record, or of a reply byte, from 1.
#[derive(Clone, Copy, Debug, PartialEq, Eq)]
pub enum Refusal {
    Ragged,
    Long,
    Kind(usize),
    Field(usize),
    Nesting(usize),
    Skip(usize),
    Growth,
    Room,
    Reply(usize),
    State,
    Far(usize),
    Label(usize),
}

// What a check, a conversion or a translation answers: how many records there are, or why it is turned away.
pub type Verdict = Result<usize, Refusal>;

// The counter stack.
#[derive(Clone, Copy)]
pub struct Stack {
    pub entries: [u16; 96],
    pub depth: usize,
}

// A machine state: a position, 0 for ended, and the counter stack.
#[derive(Clone, Copy)]
pub struct State {
    pub at: usize,
    pub stack: Stack,
}

// Why a run stopped.
#[derive(Clone, Copy, Debug, PartialEq, Eq)]
pub enum Status {
    Ended,
    NoReply,
    LogFull,
    StackFull,
    Spent,
}

// How a run or a step came out: why it stopped, or why it is turned away.
pub type Outcome = Result<Status, Refusal>;

// What a run or a step answers.
#[derive(Clone, Copy)]
pub struct Ran {
    pub outcome: Outcome,
    pub state: State,
    pub steps: u64,
    pub replies: usize,
    pub actions: usize,
}

// The three notations that files are written in.
#[derive(Clone, Copy, Debug, PartialEq, Eq)]
pub enum Notation {
    Routine,
    Base,
    Relative,
}

// A row of the table of kinds: the ranges of x and y, and the places added in the base, once and for each record of the routine.
#[derive(Clone, Copy)]
pub struct Row {
    pub xmin: u16,
    pub xmax: u16,
    pub ymin: u16,
    pub ymax: u16,
    pub once: usize,
    pub each: usize,
}
