// The lines that are printed of a run.
ghost use Rattle.std.specs.Prelude.{Some};
ghost use Rattle.job.specs.Texts.{answer_text, line_text, totals_text};

use allocator::AllocationStats;
use cards::Letter;
use session::Fault;
use std::fmt;

// What was done for an entry: a push has its address, and a pop is done. No Option, since a pop that is done is no absence, and each has its text.
#[derive(Clone, Copy, PartialEq, Eq, Debug)]
pub enum Answer {
    At(usize),
    Done,
}

impl fmt::Display for Answer {
    ghost output = { λ x. Some (answer_text x) };

    fn fmt<W: fmt::Write>(&self, f: &mut fmt::Formatter<W>) -> fmt::Result {
        match *self {
            Answer::At(address) => write!(f, "{address}"),
            Answer::Done => write!(f, "ok"),
        }
    }
}

#[derive(Clone, Copy, PartialEq, Eq, Debug)]
pub struct Line {
    // from 1
    pub number: usize,
    pub letter: Letter,
    pub answer: Result<Answer, Fault>,
}

impl fmt::Display for Line {
    ghost output = { λ x. Some (line_text x) };

    fn fmt<W: fmt::Write>(&self, f: &mut fmt::Formatter<W>) -> fmt::Result {
        let Line {
            number,
            letter,
            answer,
        } = *self;
        match answer {
            Ok(answer) => write!(f, "{number} {letter} {answer}"),
            Err(fault) => write!(f, "{number} {letter} {fault}"),
        }
    }
}

// The last line.
#[derive(Clone, Copy, PartialEq, Eq, Debug)]
pub struct Totals {
    pub stats: AllocationStats,
    pub grown: usize,
    pub held: usize,
}

impl fmt::Display for Totals {
    ghost output = { λ x. Some (totals_text x) };

    fn fmt<W: fmt::Write>(&self, f: &mut fmt::Formatter<W>) -> fmt::Result {
        let Totals { stats, grown, held } = *self;
        write!(
            f,
            "peak {} {} {} need {} grown {grown} held {held}",
            stats.max_bytes_allocated,
            stats.max_allocations,
            stats.max_alignment,
            stats.min_arena_capacity()
        )
    }
}
