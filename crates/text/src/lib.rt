// The desk's text of a routine, as definitions, in specs/, and the values that its calls answer with.
#![tactic(auto)]

ghost use Rattle.std.specs.Prelude.{◌≡◌};
ghost use Rattle.text.specs.declared.TextRefusal.TheVariants.{Earlier};

use rules::Refusal;

// Why a text, or a routine to be written as text, is turned away: 12 and 13 of the request, or one of the paper's own. The number of
// the first two is the place: of a byte of the text or of a record, from 1, or 0 for the list of names.
#[derive(Clone, Copy, Debug, PartialEq, Eq)]
pub enum TextRefusal {
    Text(usize),
    Name(usize),
    Earlier(Refusal),
}

// A refusal of the paper's is one of a text's too.
impl From<Refusal> for TextRefusal {
    ghost from_gives = { λ r t. t ≡ Earlier r };

    fn from(r: Refusal) -> TextRefusal {
        TextRefusal::Earlier(r)
    }
}

// What the two calls answer: how many records were read or bytes written, or why not.
pub type TextVerdict = Result<usize, TextRefusal>;

// The three sorts of bytes that come in runs.
#[derive(Clone, Copy, Debug, PartialEq, Eq)]
pub enum Sort {
    Blank,
    Digit,
    Named,
}

// How far a text follows a form: whether to its end, and the first byte that cannot be; where the names of x and y start, from 1.
// Numbers, 0 for none, and `far` beside `whole`: the definitions and theorems of the text count places so, and compare `far` either way.
#[derive(Clone, Copy, Debug, PartialEq, Eq)]
pub struct Fit {
    pub form: usize,
    pub whole: bool,
    pub far: usize,
    pub x: usize,
    pub y: usize,
}
