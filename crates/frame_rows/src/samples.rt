//! Frames of each kind, for the rows.
use hex::FromHexError;
use px_base::{
    Along, Answer, Fold, Form, Frame, Items, Memory, Order, Own, Program, Rank, Reads, Setup,
    Start, TOP, Triple, Update, Value,
};
use std::alloc::Global;

/// A frame, and its spelling in hexadecimal.
#[derive(Drop)]
pub struct Sample {
    pub text: &'static str,
    pub frame: Frame,
}

/// The bytes that are written in hexadecimal.
pub fn bytes_of(alloc: Global, text: &str) -> Result<Vec<u8>, FromHexError> {
    hex::decode(alloc, text)
}

fn pairs(alloc: Global, list: &[(u32, Value)]) -> Result<Items<Update>, Memory> {
    let mut all = Vec::with_capacity(alloc, list.len())?;
    for (vertex, value) in list {
        all.push(Update {
            vertex: *vertex,
            value: *value,
        })?;
    }
    Ok(Items::from_vec(all))
}

fn triples(alloc: Global, list: &[(u32, u32, u64)]) -> Result<Items<Triple>, Memory> {
    let mut all = Vec::with_capacity(alloc, list.len())?;
    for (target, source, weight) in list {
        all.push(Triple {
            target: *target,
            source: *source,
            weight: *weight,
        })?;
    }
    Ok(Items::from_vec(all))
}

fn setup() -> Setup {
    Setup {
        index: 1,
        low: 2,
        high: 5,
        program: Program {
            form: Form::Simple,
            reads: Reads::Earlier(Rank::ByDegree),
            start: Start::Source(0, TOP),
            along: Along::Minus(3),
            fold: Fold::Count(4),
            own: Own::Drop,
        },
        chunks: 4,
        mirrors: 1,
        boundary: 2,
        reads: 3,
    }
}

/// The frames of a load.
fn loads(alloc: Global, all: &mut Vec<Sample>) -> Result<(), Memory> {
    let values = [5, TOP].to_vec(alloc)?;
    let vertices = [0, 7].to_vec(alloc)?;
    let reads = [(1, 2, 3), (1, 2, 3), (2, 0, 4_294_967_295)];
    all.push(Sample {
        text: "500101000000003e000000010000000200000005020200\
               00000000000000007fffffffffffffff0500000000000000030300000004\
               0100000004000000010000000200000003",
        frame: Frame::Setup(setup()),
    })?;
    all.push(Sample {
        text: "500102000000001000000000000000057fffffffffffffff",
        frame: Frame::Starts(Items::from_vec(values)),
    })?;
    all.push(Sample {
        text: "5001030000000018000000010000000000000000003fffff7fffffffffffffff",
        frame: Frame::Mirrors(pairs(alloc, &[(1, 0), (4_194_303, TOP)])?),
    })?;
    all.push(Sample {
        text: "50010400000000080000000000000007",
        frame: Frame::Boundary(Items::from_vec(vertices)),
    })?;
    all.push(Sample {
        text: "50010500000000240000000100000002000000030000000100000002000000030000000200000000ffffffff",
        frame: Frame::Reads(triples(alloc, &reads)?),
    })?;
    all.push(Sample {
        text: "5001060000000000",
        frame: Frame::Ready,
    })?;
    Ok(())
}

/// Orders and answers.
fn talks(alloc: Global, all: &mut Vec<Sample>) -> Result<(), Memory> {
    let values = [3].to_vec(alloc)?;
    all.push(Sample {
        text: "500107000000001c00000001000000000000000000000001000000020000000000000001",
        frame: Frame::Order(Order::Step {
            epoch: 1,
            round: 0,
            updates: pairs(alloc, &[(2, 1)])?,
        }),
    })?;
    all.push(Sample {
        text: "500108000000000400000001",
        frame: Frame::Order(Order::Report { epoch: 1 }),
    })?;
    all.push(Sample {
        text: "50010900000000290000000100000000000000000100000002\
               000000000000000000000000000000010000000000000004",
        frame: Frame::Answer(Answer::Stepped {
            epoch: 1,
            round: 0,
            changed: true,
            updates: pairs(alloc, &[(0, 0), (1, 4)])?,
        }),
    })?;
    all.push(Sample {
        text: "50010a000000001000000002000000010000000000000003",
        frame: Frame::Answer(Answer::Reported {
            epoch: 2,
            values: Items::from_vec(values),
        }),
    })?;
    Ok(())
}

/// A frame of each kind.
pub fn samples(alloc: Global) -> Result<Vec<Sample>, Memory> {
    let mut all = Vec::new(alloc);
    loads(alloc, &mut all)?;
    talks(alloc, &mut all)?;
    Ok(all)
}
