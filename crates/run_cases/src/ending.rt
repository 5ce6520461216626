// What the run call and the plain engine answer alike.
use plain::PlainEnding;
use refusals::Refusal;
use run_lines::{RunAnswer, RunNumbers};
use std::fmt;

// The paper's numbers of both, as they are printed; those that an answer does not name are 0.
#[derive(Clone, Copy, Default, PartialEq)]
pub(crate) struct Ending {
    number: u32,
    slot: i32,
    steps: u32,
    used: u32,
}

impl From<RunAnswer> for Ending {
    fn from(answer: RunAnswer) -> Ending {
        let RunNumbers {
            number,
            slot,
            steps,
            used,
            ..
        } = answer.into();
        Ending {
            number,
            slot,
            steps,
            used,
        }
    }
}

impl From<Result<PlainEnding, Refusal>> for Ending {
    fn from(answer: Result<PlainEnding, Refusal>) -> Ending {
        match answer {
            Err(refusal) => Ending {
                number: refusal.into(),
                ..Ending::default()
            },
            Ok(PlainEnding::Done { slot, steps, used }) => Ending {
                slot,
                steps,
                used,
                ..Ending::default()
            },
            Ok(PlainEnding::Stopped { why, steps, used }) => Ending {
                number: why.into(),
                steps,
                used,
                ..Ending::default()
            },
        }
    }
}

impl fmt::Display for Ending {
    fn fmt<W: fmt::Write>(&self, f: &mut fmt::Formatter<W>) -> fmt::Result {
        let Ending {
            number,
            slot,
            steps,
            used,
        } = self;
        write!(f, "plain {number} slot {slot} steps {steps} used {used}")
    }
}
