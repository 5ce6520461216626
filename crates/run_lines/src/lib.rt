// The lines of what a run answers, by the paper's numbers.
#![tactic(auto)]

use engine::Ending;
use refusals::Refusal;
use std::fmt;

pub type RunAnswer = Result<Ending, Refusal>;

// The paper's numbers of a run, as they are printed; those that an answer does not name are 0.
#[derive(Clone, Copy, Default)]
pub struct RunNumbers {
    pub number: u32,
    pub slot: i32,
    pub f: i32,
    pub x: i32,
    pub steps: u32,
    pub used: u32,
    pub waiting: u32,
}

impl From<RunAnswer> for RunNumbers {
    fn from(answer: RunAnswer) -> RunNumbers {
        match answer {
            Err(refusal) => RunNumbers {
                number: refusal.into(),
                ..RunNumbers::default()
            },
            Ok(Ending::Done { slot, steps, used }) => RunNumbers {
                slot,
                steps,
                used,
                ..RunNumbers::default()
            },
            Ok(
                Ending::Stopped {
                    why,
                    f,
                    x,
                    steps,
                    used,
                    waiting,
                },
            ) => RunNumbers {
                number: why.into(),
                slot: 0,
                f,
                x,
                steps,
                used,
                waiting,
            },
        }
    }
}

impl fmt::Display for RunNumbers {
    fn fmt<W: fmt::Write>(&self, to: &mut fmt::Formatter<W>) -> fmt::Result {
        let RunNumbers {
            number,
            slot,
            f,
            x,
            steps,
            used,
            waiting,
        } = self;
        write!(
            to,
            "answer {number} slot {slot} f {f} x {x} steps {steps} used {used} waiting {waiting}"
        )
    }
}
