ghost use Rattle.std.specs.Prelude.{◌≡◌};
ghost use Rattle.daysheet.specs.Replies.{said_of};

use manager::call::Answer;
use table::refusal::Refusal;
use text::answer::IMAGE;

// What an accepted line answers.
#[derive(Clone, Copy)]
pub enum Said {
    Nothing,
    Released(usize),
    Reserved(usize, u32, usize),
    Image([u8; IMAGE]),
}

// What the manager answers, in the sheet's words.
impl From<Answer> for Said {
    ghost from_gives = { λ answer said. said ≡ said_of answer };

    fn from(answer: Answer) -> Said {
        match answer {
            Answer::Reserved(spacing, grant, slots) => Said::Reserved(spacing, grant, slots),
            Answer::Released(slots) => Said::Released(slots),
            _ => Said::Nothing,
        }
    }
}

// A refused line: the refusal whole as its layer found it, the place that its question names, and the line's number, from 1.
#[derive(Clone, Copy)]
pub struct LineRefusal {
    pub refusal: Refusal,
    pub place: usize,
    pub line: usize,
}

// What a line came to: how many bytes its answer has, and its refusal if it was refused.
#[derive(Clone, Copy)]
pub struct Reply {
    pub bytes: usize,
    pub refused: Option<LineRefusal>,
}
