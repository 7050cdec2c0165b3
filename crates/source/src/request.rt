// A request to a source: how many bytes it asked for, and what became of it. No Result, since either way there is nothing more to answer.
#[derive(Clone, Copy, Debug, PartialEq, Eq)]
pub enum Outcome {
    Granted,
    Refused,
}

#[derive(Clone, Copy, Debug, PartialEq, Eq)]
pub struct Request {
    pub size: usize,
    pub outcome: Outcome,
}
