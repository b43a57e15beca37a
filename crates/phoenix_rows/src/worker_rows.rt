//! Rows of `worker`: from the bytes of frames to the status, the frames that it answers and the fault line.

use hex::FromHexError;
use phoenix_cli::phoenix;
use px_base::{Memory, Words};
use px_io::{MemSink, MemSource, SureSink, SureSource};
use std::alloc::Global;
use std::process::Abort;
use std::test::Fail;
use std::thread::Threads;

/// The setup of `bfs` for worker 0, which has no vertex: 70 bytes.
const SETUP: &str = "500101000000003e000000000000000000000000000000\
                     00000000000000007fffffffffffffff0100000000000000010000000000\
                     0000000001000000000000000000000000";

/// The same with a vertex.
const ONE_VERTEX: &str = "500101000000003e000000000000000000000001000000\
                          00000000000000007fffffffffffffff0100000000000000010000000000\
                          0000000001000000000000000000000000";

/// The same with an own value that is dropped, though all neighbours are read: a program without a class.
const NO_CLASS: &str = "500101000000003e000000000000000000000000000000\
                        00000000000000007fffffffffffffff0100000000000000010000000000\
                        0100000001000000000000000000000000";

/// The same with a form that is none.
const NO_FORM: &str = "500101000000003e000000000000000000000000030000\
                       00000000000000007fffffffffffffff0100000000000000010000000000\
                       0000000001000000000000000000000000";

/// The same without its last byte.
const CUT_SETUP: &str = "500101000000003e000000000000000000000000000000\
                         00000000000000007fffffffffffffff0100000000000000010000000000\
                         00000000010000000000000000000000";

const READY: &str = "5001060000000000";

/// A report order of epoch 0, that of a world that was asked for no step.
const REPORT: &str = "500108000000000400000000";

/// A report order of epoch 1.
const LATER_REPORT: &str = "500108000000000400000001";

/// The report of no vertex.
const REPORTED: &str = "50010a00000000080000000000000000";

/// Worker 0 of two for `sssp` from vertex 1 of the lines `1 2 4`, `1 3 1`, `3 2 2` and `2 4 5`. It has the positions 0
/// and 1 with starts 0 and TOP, and mirrors position 2. Position 1 reads 0 at weight 4 and 2 at weight 2; worker 1 reads
/// both.
const LOAD: [&str; 6] = [
    "500101000000003e000000000000000000000002000000\
     00000000000000007fffffffffffffff0200000000000000000000000000\
     0000000001000000010000000200000002",
    "500102000000001000000000000000007fffffffffffffff",
    "500103000000000c000000027fffffffffffffff",
    "50010400000000080000000000000001",
    "5001050000000018000000010000000000000004000000010000000200000002",
    READY,
];

/// Its orders: a step without updates, one with value 1 for position 2, and a report.
const ORDERS: [&str; 3] = [
    "500107000000001000000001000000000000000000000000",
    "500107000000001c00000001000000000000000100000001000000020000000000000001",
    LATER_REPORT,
];

/// Its answers: 0 and 4 are announced, then 3 for position 1, and 0 and 3 are reported.
const ANSWERS: [&str; 3] = [
    "5001090000000029000000010000000000000000010000000200000000000000000000000000000001\
     0000000000000004",
    "500109000000001d00000001000000000000000101000000010000000100000000\
     00000003",
    "50010a0000000018000000010000000200000000000000000000000000000003",
];

/// What a call answered, and what it wrote.
#[derive(Drop)]
struct Ran {
    status: u8,
    answer: Vec<u8>,
    fault: Vec<u8>,
}

/// The bytes that are written in hexadecimal, one text after another.
fn bytes_of(alloc: Global, texts: &[&str]) -> Result<Vec<u8>, FromHexError> {
    let mut bytes = Vec::new(alloc);
    for text in texts {
        bytes.extend_from_slice(&hex::decode(alloc, text)?)?;
    }
    Ok(bytes)
}

fn worker_words(alloc: Global) -> Result<Words, Memory> {
    let mut words = Words::new(alloc);
    words.push("worker")?;
    Ok(words)
}

/// Serves a worker over a source and sinks that never fail, and give and take at most so many bytes a call.
fn served<R: Threads + Sync>(
    rt: &R,
    alloc: Global,
    input: &[u8],
    most: usize,
) -> Result<Ran, Memory> {
    let words = worker_words(alloc)?;
    let mut source = SureSource::new(input.to_vec(alloc)?, most.max(1));
    let mut sink = SureSink::new(alloc, most.max(1));
    let mut faults = SureSink::new(alloc, most.max(1));
    let status = phoenix(rt, alloc, &words, &mut source, &mut sink, &mut faults);
    Ok(Ran {
        status,
        answer: sink.bytes().to_vec(alloc)?,
        fault: faults.bytes().to_vec(alloc)?,
    })
}

/// Serves a worker where the source and the sink fail at the calls with these numbers, counted from 1; 0 is no call. Each
/// gives and takes up to 4096 bytes a call.
fn served_failing<R: Threads + Sync>(
    rt: &R,
    alloc: Global,
    input: &[u8],
    read: u64,
    write: u64,
) -> Result<Ran, Memory> {
    let words = worker_words(alloc)?;
    let mut source = MemSource::new(input.to_vec(alloc)?, 4096, [read].to_vec(alloc)?);
    let mut sink = MemSink::new(alloc, 4096, [write].to_vec(alloc)?);
    let mut faults = SureSink::new(alloc, 4096);
    let status = phoenix(rt, alloc, &words, &mut source, &mut sink, &mut faults);
    Ok(Ran {
        status,
        answer: sink.bytes().to_vec(alloc)?,
        fault: faults.bytes().to_vec(alloc)?,
    })
}

/// Asserts what the frames give, over sources of 1, 5 and 4096 bytes a call. Without a fault the status is 0.
fn assert_served<R: Abort + Threads + Sync>(
    rt: &R,
    alloc: Global,
    frames: &[&str],
    answers: &[&str],
    status: u8,
    fault: &str,
) -> Result<(), Fail> {
    let input = bytes_of(alloc, frames)?;
    let answer = bytes_of(alloc, answers)?;
    for most in [1, 5, 4096] {
        let ran = served(rt, alloc, &input, most)?;
        assert_eq!(rt; ran.status, status, "{frames:?} by {most}");
        assert_eq!(rt;
            ran.answer.as_slice(),
            answer.as_slice(),
            "{frames:?} by {most}"
        );
        assert_eq!(rt;
            ran.fault.as_slice(),
            fault.as_bytes(),
            "{frames:?} by {most}"
        );
    }
    Ok(())
}

#[test]
fn serves_no_frames(rt: HostRuntime) -> Result<(), Fail> {
    assert_served(&rt, rt.alloc(), &[], &[], 0, "")?;
    Ok(())
}

#[test]
fn reports_no_vertex(rt: HostRuntime) -> Result<(), Fail> {
    assert_served(&rt, rt.alloc(), &[SETUP, READY, REPORT], &[REPORTED], 0, "")?;
    assert_served(
        &rt,
        rt.alloc(),
        &[SETUP, READY, REPORT, REPORT],
        &[REPORTED, REPORTED],
        0,
        "",
    )?;
    Ok(())
}

#[test]
fn ends_inside_a_load(rt: HostRuntime) -> Result<(), Fail> {
    assert_served(&rt, rt.alloc(), &[SETUP], &[], 0, "")?;
    assert_served(&rt, rt.alloc(), &[SETUP, READY], &[], 0, "")?;
    Ok(())
}

#[test]
fn stops_at_a_frame(rt: HostRuntime) -> Result<(), Fail> {
    let rows: [(&[&str], &str); 12] = [
        (&["5001"], "phoenix: frame at byte 0: cut\n"),
        (&[CUT_SETUP], "phoenix: frame at byte 0: cut\n"),
        (&[SETUP, READY, "50"], "phoenix: frame at byte 78: cut\n"),
        (&[NO_FORM], "phoenix: frame at byte 0: not a frame\n"),
        (
            &["0000000000000000"],
            "phoenix: frame at byte 0: not a frame\n",
        ),
        (
            &[SETUP, "5001060100000000"],
            "phoenix: frame at byte 70: not a frame\n",
        ),
        (&[READY], "phoenix: frame at byte 0: refused\n"),
        (&[REPORTED], "phoenix: frame at byte 0: refused\n"),
        (&[NO_CLASS], "phoenix: frame at byte 0: refused\n"),
        (&[SETUP, SETUP], "phoenix: frame at byte 70: refused\n"),
        (&[ONE_VERTEX, READY], "phoenix: frame at byte 70: refused\n"),
        (
            &[SETUP, READY, LATER_REPORT],
            "phoenix: frame at byte 78: refused\n",
        ),
    ];
    for (frames, fault) in rows {
        assert_served(&rt, rt.alloc(), frames, &[], 13, fault)?;
    }
    Ok(())
}

/// The answers before the place where it stops are written.
#[test]
fn answers_before_it_stops(rt: HostRuntime) -> Result<(), Fail> {
    let rows = [
        ("50", "phoenix: frame at byte 90: cut\n"),
        (
            "5100000000000000",
            "phoenix: frame at byte 90: not a frame\n",
        ),
        (LATER_REPORT, "phoenix: frame at byte 90: refused\n"),
    ];
    for (last, fault) in rows {
        let frames = [SETUP, READY, REPORT, last];
        assert_served(&rt, rt.alloc(), &frames, &[REPORTED], 13, fault)?;
    }
    Ok(())
}

#[test]
fn serves_a_session(rt: HostRuntime) -> Result<(), Fail> {
    let [setup, starts, mirrors, boundary, reads, ready] = LOAD;
    let [first, second, last] = ORDERS;
    let frames = [
        setup, starts, mirrors, boundary, reads, ready, first, second, last,
    ];
    assert_served(&rt, rt.alloc(), &frames, &ANSWERS, 0, "")?;
    Ok(())
}

/// The frames of the load at these places, in this order, and then the first order.
fn load_by(places: &[usize]) -> [&'static str; 8] {
    let mut frames = [""; 8];
    for (k, place) in places.iter().enumerate() {
        if k < 7 && *place < 6 {
            frames[k] = LOAD[*place];
        }
    }
    frames[7] = ORDERS[0];
    frames
}

/// Each frame of the load is left out, comes twice, and changes places with the next one.
#[test]
fn refuses_loads(rt: HostRuntime) -> Result<(), Fail> {
    let rows: [(&[usize], &str); 17] = [
        (&[1, 2, 3, 4, 5], "0"),
        (&[0, 2, 3, 4, 5], "138"),
        (&[0, 1, 3, 4, 5], "142"),
        (&[0, 1, 2, 4, 5], "146"),
        (&[0, 1, 2, 3, 5], "130"),
        (&[0, 1, 2, 3, 4], "162"),
        (&[0, 0, 1, 2, 3, 4, 5], "70"),
        (&[0, 1, 1, 2, 3, 4, 5], "186"),
        (&[0, 1, 2, 2, 3, 4, 5], "182"),
        (&[0, 1, 2, 3, 3, 4, 5], "178"),
        (&[0, 1, 2, 3, 4, 4, 5], "194"),
        (&[0, 1, 2, 3, 4, 5, 5], "170"),
        (&[1, 0, 2, 3, 4, 5], "0"),
        (&[0, 2, 1, 3, 4, 5], "90"),
        (&[0, 1, 3, 2, 4, 5], "110"),
        (&[0, 1, 2, 4, 3, 5], "146"),
        (&[0, 1, 2, 3, 5, 4], "130"),
    ];
    for (places, place) in rows {
        let fault = format!(in rt.alloc(); "phoenix: frame at byte {place}: refused\n")?;
        assert_served(&rt, rt.alloc(), &load_by(places), &[], 13, fault.as_str())?;
    }
    Ok(())
}

/// After a step of epoch 1 come a step of epoch 0, a report of it, and an update of a vertex that isn't mirrored.
#[test]
fn refuses_orders(rt: HostRuntime) -> Result<(), Fail> {
    let [setup, starts, mirrors, boundary, reads, ready] = LOAD;
    let rows = [
        "500107000000001000000000000000000000000000000000",
        REPORT,
        "500107000000001c00000001000000000000000100000001000000030000000000000001",
    ];
    for order in rows {
        let frames = [
            setup, starts, mirrors, boundary, reads, ready, ORDERS[0], order,
        ];
        let fault = "phoenix: frame at byte 194: refused\n";
        assert_served(&rt, rt.alloc(), &frames, &ANSWERS[..1], 13, fault)?;
    }
    Ok(())
}

#[test]
fn takes_no_words(rt: HostRuntime) -> Result<(), Fail> {
    let alloc = rt.alloc();
    let mut words = worker_words(alloc)?;
    words.push("x")?;
    let mut source = SureSource::new(bytes_of(alloc, &[SETUP])?, 4096);
    let mut sink = SureSink::new(alloc, 4096);
    let mut faults = SureSink::new(alloc, 4096);
    let status = phoenix(&rt, alloc, &words, &mut source, &mut sink, &mut faults);
    assert_eq!(rt; status, 2);
    assert!(rt; sink.bytes().is_empty());
    assert_eq!(rt; faults.bytes(), b"phoenix: bad words\n".as_slice());
    Ok(())
}

#[test]
fn stops_at_a_write_fault(rt: HostRuntime) -> Result<(), Fail> {
    let input = bytes_of(rt.alloc(), &[SETUP, READY, REPORT, REPORT])?;
    let ran = served_failing(&rt, rt.alloc(), &input, 0, 1)?;
    assert_eq!(rt; ran.status, 7);
    assert!(rt; ran.answer.is_empty());
    assert_eq!(rt; ran.fault.as_slice(), b"phoenix: write fault\n".as_slice());
    Ok(())
}

#[test]
fn stops_at_a_read_fault(rt: HostRuntime) -> Result<(), Fail> {
    // The 90 bytes come in one call, and the second would find the end.
    let input = bytes_of(rt.alloc(), &[SETUP, READY, REPORT])?;
    let ran = served_failing(&rt, rt.alloc(), &input, 2, 0)?;
    assert_eq!(rt; ran.status, 6);
    let answer = bytes_of(rt.alloc(), &[REPORTED])?;
    assert_eq!(rt; ran.answer.as_slice(), answer.as_slice());
    assert_eq!(rt; ran.fault.as_slice(), b"phoenix: read fault\n".as_slice());
    Ok(())
}

#[test]
fn asks_no_more_after_the_end(rt: HostRuntime) -> Result<(), Fail> {
    let input = bytes_of(rt.alloc(), &[SETUP, READY, REPORT])?;
    let ran = served_failing(&rt, rt.alloc(), &input, 3, 0)?;
    assert_eq!(rt; ran.status, 0);
    assert!(rt; ran.fault.is_empty());
    Ok(())
}
