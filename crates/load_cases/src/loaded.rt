// What a load answers, by the paper's numbers.
use loader::Accepted;
use refusals::Refusal;
use std::fmt;

// The paper's numbers of a load, as they are printed; those that an answer does not name are 0.
#[derive(Clone, Copy)]
pub(crate) struct LoadNumbers {
    pub(crate) number: u32,
    pub(crate) nodes: u32,
    pub(crate) exports: u32,
}

impl From<Result<Accepted, Refusal>> for LoadNumbers {
    fn from(answer: Result<Accepted, Refusal>) -> LoadNumbers {
        match answer {
            Err(refusal) => LoadNumbers {
                number: refusal.into(),
                nodes: 0,
                exports: 0,
            },
            Ok(Accepted { nodes, exports }) => LoadNumbers {
                number: 0,
                nodes,
                exports,
            },
        }
    }
}

impl fmt::Display for LoadNumbers {
    fn fmt<W: fmt::Write>(&self, f: &mut fmt::Formatter<W>) -> fmt::Result {
        let LoadNumbers {
            number,
            nodes,
            exports,
        } = self;
        write!(f, "answer {number} nodes {nodes} exports {exports}")
    }
}
