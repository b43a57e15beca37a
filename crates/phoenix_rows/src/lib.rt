//! Tests of whole rows: from the words and the bytes of an input to the status, the answer and the fault line.
#![tactic(auto)]

#[cfg(test)]
mod stream_rows;
#[cfg(test)]
mod worker_rows;

#[cfg(test)]
mod tests {
    use phoenix_cli::phoenix;
    use px_base::{Memory, Words, write_number};
    use px_io::{MemSink, MemSource, ReadFrom, SureSink, SureSource, WriteTo};
    use std::alloc::Global;
    use std::process::Abort;
    use std::test::Fail;
    use std::thread::Threads;

    /// An edge list of four vertices, where vertex 2 is reached by two ways.
    const FOUR: &str = "1 2\n1 3\n3 2\n2 4\n";

    /// The same with weights.
    const WEIGHED: &str = "1 2 4\n1 3 1\n3 2 2\n2 4 5\n";

    /// The row of `colour` with the earlier neighbours by degree.
    const BY_DEGREE: &str = "simple; earlier degree; each 0; same; mex; drop";

    /// What a call answered, and what it wrote.
    #[derive(Drop)]
    struct Ran {
        status: u8,
        answer: Vec<u8>,
        fault: Vec<u8>,
    }

    fn words_of(alloc: Global, texts: &[&str]) -> Result<Words, Memory> {
        let mut words = Words::new(alloc);
        for text in texts {
            words.push(text)?;
        }
        Ok(words)
    }

    /// Runs over a source and sinks that never fail, and give and take at most so many bytes a call.
    fn run_row<R: Threads + Sync>(
        rt: &R,
        alloc: Global,
        words: &[&str],
        input: &[u8],
        most: usize,
    ) -> Result<Ran, Memory> {
        let words = words_of(alloc, words)?;
        let mut source = SureSource::new(input.to_vec(alloc)?, most.max(1));
        let mut sink = SureSink::new(alloc, most.max(1));
        let mut faults = SureSink::new(alloc, most.max(1));
        let status = phoenix(rt, alloc, &words, &mut source, &mut sink, &mut faults);
        Ok(Ran {
            status,
            answer: sink.bytes().to_vec(alloc)?,
            fault: faults.bytes().to_vec(alloc)?,
        })
    }

    /// Asserts what the row gives, over sources of 1, 5 and 4096 bytes a call.
    fn assert_row<R: Abort + Threads + Sync>(
        rt: &R,
        alloc: Global,
        words: &[&str],
        input: &str,
        status: u8,
        answer: &str,
        fault: &str,
    ) -> Result<(), Memory> {
        for most in [1, 5, 4096] {
            let ran = run_row(rt, alloc, words, input.as_bytes(), most)?;
            assert_eq!(rt; ran.status, status, "{words:?} over {input:?} by {most}");
            assert_eq!(rt;
                ran.answer.as_slice(),
                answer.as_bytes(),
                "{words:?} over {input:?} by {most}"
            );
            assert_eq!(rt;
                ran.fault.as_slice(),
                fault.as_bytes(),
                "{words:?} over {input:?} by {most}"
            );
        }
        Ok(())
    }

    /// Asserts that the words stop with the line of this text, over an input whose weight is none.
    fn assert_fault<R: Abort + Threads + Sync>(
        rt: &R,
        alloc: Global,
        words: &[&str],
        status: u8,
        text: &str,
    ) -> Result<(), Memory> {
        let ran = run_row(rt, alloc, words, b"1 2 4294967296\n", 4096)?;
        assert_eq!(rt; ran.status, status, "{words:?}");
        assert!(rt; ran.answer.is_empty());
        assert!(rt; ran.fault.as_slice().starts_with(b"phoenix: "));
        assert!(rt; ran.fault.as_slice().ends_with(b"\n"));
        assert_eq!(rt; ran.fault.len(), text.len() + 10, "{words:?}");
        assert_eq!(rt;
            &ran.fault.as_slice()[9..ran.fault.len() - 1],
            text.as_bytes(),
            "{words:?}"
        );
        Ok(())
    }

    /// Runs `run bfs SOURCE` over a source of 5 bytes and sinks of 4 bytes a call. Of each of them the call with the
    /// number that is given fails; calls count from 1.
    fn run_failing<R: Threads + Sync>(
        rt: &R,
        alloc: Global,
        id: &str,
        input: &str,
        failing: (u64, u64, u64),
    ) -> Result<Ran, Memory> {
        let (read, write, report) = failing;
        let words = words_of(alloc, &["run", "bfs", id])?;
        let mut source = MemSource::new(input.as_bytes().to_vec(alloc)?, 5, [read].to_vec(alloc)?);
        let mut sink = MemSink::new(alloc, 4, [write].to_vec(alloc)?);
        let mut faults = MemSink::new(alloc, 4, [report].to_vec(alloc)?);
        let status = phoenix(rt, alloc, &words, &mut source, &mut sink, &mut faults);
        Ok(Ran {
            status,
            answer: sink.bytes().to_vec(alloc)?,
            fault: faults.bytes().to_vec(alloc)?,
        })
    }

    #[test]
    fn answers(rt: HostRuntime) -> Result<(), Fail> {
        let rows = [
            ("1", FOUR, "1 0\n2 1\n3 1\n4 2\n"),
            ("4", FOUR, "1 inf\n2 inf\n3 inf\n4 0\n"),
            ("1", "1 2 4\n", "1 0\n2 1\n"),
            ("1", "1 2 x y z\n", "1 0\n2 1\n"),
            ("1", "1 2 4294967296\n", "1 0\n2 1\n"),
            ("1", "1 2\n1 2\n", "1 0\n2 1\n"),
            ("1", "1 2\r", "1 0\n2 1\n"),
            ("1", "\r\n \t \n\t1 2\t\r\n", "1 0\n2 1\n"),
            (
                "1",
                "# Directed graph\n1\t2\r\n\n2 3 4 1199\n% x\n 3\t1",
                "1 0\n2 1\n3 2\n",
            ),
            ("0", "4294967295 0\n", "0 0\n4294967295 inf\n"),
            (
                "5",
                "0000000000000000000000000000000000000000000000000000000000005 7\n",
                "5 0\n7 1\n",
            ),
            ("00000000000000000005", "5 7\n", "5 0\n7 1\n"),
            ("3", "1 2\n3 4", "1 inf\n2 inf\n3 0\n4 1\n"),
            ("5", "5 5\n5 6\n6 5\n", "5 0\n6 1\n"),
        ];
        for (id, input, answer) in rows {
            assert_row(&rt, rt.alloc(), &["run", "bfs", id], input, 0, answer, "")?;
        }
        Ok(())
    }

    #[test]
    fn refuses_inputs(rt: HostRuntime) -> Result<(), Fail> {
        let rows = [
            ("9", FOUR, 12, "phoenix: source 9 is in no edge line\n"),
            ("007", FOUR, 12, "phoenix: source 7 is in no edge line\n"),
            ("1", "", 12, "phoenix: source 1 is in no edge line\n"),
            ("1", "# 1 2\n", 12, "phoenix: source 1 is in no edge line\n"),
            ("1", "1 x\n", 3, "phoenix: line 1: bad vertex\n"),
            ("1", "x 5\n", 3, "phoenix: line 1: bad vertex\n"),
            ("1", "+1 2\n", 3, "phoenix: line 1: bad vertex\n"),
            ("1", "4294967296 1\n", 3, "phoenix: line 1: bad vertex\n"),
            ("1", "1 2\r\r\n", 3, "phoenix: line 1: bad vertex\n"),
            ("1", "1\r2 3\n", 3, "phoenix: line 1: bad vertex\n"),
            ("1", "\u{feff}1 2\n", 3, "phoenix: line 1: bad vertex\n"),
            ("1", "1\u{0}2 3\n", 3, "phoenix: line 1: bad vertex\n"),
            ("1", " # 1 2\n", 3, "phoenix: line 1: bad vertex\n"),
            ("1", "7\n", 3, "phoenix: line 1: vertex missing\n"),
            ("1", "7", 3, "phoenix: line 1: vertex missing\n"),
            ("1", "1 2\n3\n", 3, "phoenix: line 2: vertex missing\n"),
            (
                "1",
                "1 2\n\n# x\n3 -\n4\n",
                3,
                "phoenix: line 4: bad vertex\n",
            ),
        ];
        for (id, input, status, fault) in rows {
            assert_row(
                &rt,
                rt.alloc(),
                &["run", "bfs", id],
                input,
                status,
                "",
                fault,
            )?;
        }
        Ok(())
    }

    #[test]
    fn refuses_words(rt: HostRuntime) -> Result<(), Fail> {
        let rows: [&[&str]; 15] = [
            &[],
            &["walk"],
            &["run"],
            &["run", "walk", "x"],
            &["run", "bfs", "-1"],
            &["run", "bfs", "4294967296"],
            &["run", "bfs", "1x"],
            &["run", "bfs", "000000000000000000001"],
            &["run", "bfs", ""],
            &["run", "bfs", "1", "--workers", "65"],
            &["run", "--workers", "bfs", "1"],
            &["run", "bfs", "1", "--workers=2", "--workers", "2"],
            &["solve", "bfs", "1", "--workers", "2"],
            &["classify", "bfs", "bfs"],
            &["parts", "bfs", "1"],
        ];
        for words in rows {
            assert_row(&rt, rt.alloc(), words, FOUR, 2, "", "phoenix: bad words\n")?;
        }
        Ok(())
    }

    #[test]
    fn runs_by_workers(rt: HostRuntime) -> Result<(), Fail> {
        let distances = "1 0\n2 3\n3 1\n4 8\n";
        let widths = "1 inf\n2 4\n3 1\n4 4\n";
        let rows: [(&[&str], &str, &str); 12] = [
            (&["run", "sssp", "1"], WEIGHED, distances),
            (&["run", "sssp", "1", "--workers", "1"], WEIGHED, distances),
            (&["run", "--workers=3", "sssp", "1"], WEIGHED, distances),
            (&["run", "sssp", "--workers", "64", "1"], WEIGHED, distances),
            (&["run", "widest", "1", "--workers", "2"], WEIGHED, widths),
            (&["run", "widest", "1", "--workers", "3"], WEIGHED, widths),
            (&["run", "components", "--workers", "3"], "", ""),
            (
                &["run", "sssp", "3", "--workers", "2"],
                "1 2 0\n2 1 0\n3 1 7\n",
                "1 7\n2 7\n3 0\n",
            ),
            (
                &["run", "components"],
                "4294967295 0\n",
                "0 0\n4294967295 0\n",
            ),
            (&["run", "bfs", "1", "4", "1"], FOUR, "1 0\n2 1\n3 1\n4 0\n"),
            (&["run", "bfs", "1"], "1 2 4294967296\n", "1 0\n2 1\n"),
            (
                &["run", "back; all; source 0 inf; plus 1; least; keep", "4"],
                FOUR,
                "1 2\n2 1\n3 2\n4 0\n",
            ),
        ];
        for (words, input, answer) in rows {
            assert_row(&rt, rt.alloc(), words, input, 0, answer, "")?;
        }
        Ok(())
    }

    #[test]
    fn solves_plainly(rt: HostRuntime) -> Result<(), Fail> {
        let path = "1 4\n3 4\n2 3\n";
        let triangle = "1 2\n1 3\n2 3\n1 4\n";
        let loops = "5 5\n5 6\n6 5\n";
        let rows: [(&[&str], &str, &str); 15] = [
            (&["solve", "sssp", "1"], WEIGHED, "1 0\n2 3\n3 1\n4 8\n"),
            (&["solve", "widest", "1"], WEIGHED, "1 inf\n2 4\n3 1\n4 4\n"),
            (&["solve", "bfs", "4"], FOUR, "1 inf\n2 inf\n3 inf\n4 0\n"),
            (&["solve", "colour"], WEIGHED, "1 0\n2 1\n3 2\n4 0\n"),
            (&["solve", "levels"], WEIGHED, "1 0\n2 1\n3 2\n4 2\n"),
            (&["solve", BY_DEGREE], WEIGHED, "1 1\n2 0\n3 2\n4 1\n"),
            (&["solve", "kcore:2"], WEIGHED, "1 1\n2 1\n3 1\n4 0\n"),
            (&["solve", "components"], "", ""),
            (
                &["solve", "sssp", "3"],
                "1 2 0\n2 1 0\n3 1 7\n",
                "1 7\n2 7\n3 0\n",
            ),
            (&["solve", "kcore:2"], path, "1 0\n2 0\n3 0\n4 0\n"),
            (&["solve", "kcore:2"], triangle, "1 1\n2 1\n3 1\n4 0\n"),
            (&["solve", "kcore:1"], loops, "5 1\n6 1\n"),
            (&["solve", "kcore:0"], loops, "5 1\n6 1\n"),
            (&["solve", "levels"], loops, "5 0\n6 1\n"),
            (
                &["solve", "sssp", "--unweighted", "1"],
                "1 2 4294967296\n",
                "1 0\n2 1\n",
            ),
        ];
        for (words, input, answer) in rows {
            assert_row(&rt, rt.alloc(), words, input, 0, answer, "")?;
        }
        Ok(())
    }

    #[test]
    fn tells_classes_and_parts(rt: HostRuntime) -> Result<(), Fail> {
        let blocks =
            "worker 0: masters 2, mirrors 1, reads 2\nworker 1: masters 2, mirrors 2, reads 2\n";
        let empty =
            "worker 0: masters 0, mirrors 0, reads 0\nworker 1: masters 0, mirrors 0, reads 0\n";
        let rows: [(&[&str], &str, &str); 11] = [
            (&["classify", "sssp"], "1 x", "locally correcting\n"),
            (&["classify", "bfs"], "", "locally correcting\n"),
            (&["classify", "widest"], "", "locally correcting\n"),
            (&["classify", "components"], "", "locally correcting\n"),
            (&["classify", "colour"], "", "self-stabilising\n"),
            (&["classify", "levels"], "", "self-stabilising\n"),
            (
                &["classify", "kcore:0000000003"],
                "",
                "globally correcting\n",
            ),
            (&["classify", BY_DEGREE], "", "self-stabilising\n"),
            (&["parts", "sssp", "--workers", "2"], WEIGHED, blocks),
            (&["parts", "sssp"], "", empty),
            (
                &["parts", "components", "--workers=3"],
                "1 2\n",
                "worker 0: masters 0, mirrors 0, reads 0\nworker 1: masters 1, mirrors 1, reads 1\nworker 2: masters 1, mirrors 1, reads 1\n",
            ),
        ];
        for (words, input, answer) in rows {
            assert_row(&rt, rt.alloc(), words, input, 0, answer, "")?;
        }
        Ok(())
    }

    #[test]
    fn refuses_programs(rt: HostRuntime) -> Result<(), Fail> {
        let rows = [
            ("walk", "unknown program"),
            ("given", "unknown program"),
            (" bfs", "unknown program"),
            ("kcore:", "unknown program"),
            ("kcore:4294967296", "unknown program"),
            ("kcore:00000000003", "unknown program"),
            (";", "row field 1: missing"),
            ("given;", "row field 2: missing"),
            ("given; all; id; same; least", "row field 6: missing"),
            (
                "given;\tall; id; same; least; keep",
                "row field 2: unknown word",
            ),
            (
                "given; all; id; plus; least; keep",
                "row field 4: unknown word",
            ),
            (
                "given; all; each x; same; least; keep",
                "row field 3: bad number",
            ),
            (
                "given; all; each 4294967296; same; least; keep",
                "row field 3: bad number",
            ),
            (
                "given; all; id; same; least; keep;",
                "row: more than six fields",
            ),
            (
                "given; all; source 0 inf; minus 1; least; keep",
                "program refused: edge value improves 1 at weight 0",
            ),
            (
                "given; all; source inf 0; plus 1; greatest; keep",
                "program refused: edge value improves 0 at weight 1",
            ),
            (
                "simple; all; each 0; same; mex; drop",
                "program refused: drop needs an earlier order",
            ),
            (
                "simple; all; each 0; same; mex; keep",
                "program refused: mex needs drop",
            ),
            (
                "simple; all; each 1; plus 0; count 2; keep",
                "program refused: count needs the k-core form",
            ),
        ];
        for (program, text) in rows {
            assert_fault(&rt, rt.alloc(), &["classify", program], 4, text)?;
        }
        Ok(())
    }

    #[test]
    fn stops_before_the_text(rt: HostRuntime) -> Result<(), Fail> {
        let needs = "this program needs a source";
        let takes = "this program takes no source";
        let rows: [(&[&str], u8, &str); 12] = [
            (&["run", "bfs"], 2, needs),
            (&["solve", "sssp"], 2, needs),
            (&["run", "components", "1"], 2, takes),
            (&["solve", "kcore:2", "1"], 2, takes),
            (&["run", "walk"], 4, "unknown program"),
            (&["run", "kcore:2"], 4, "class not built"),
            (&["run", "colour", "1"], 4, "class not built"),
            (&["run", "sssp", "1"], 3, "line 1: bad weight"),
            (&["parts", "widest"], 3, "line 1: bad weight"),
            (
                &["solve", "bfs", "1", "9", "8"],
                12,
                "source 9 is in no edge line",
            ),
            (&["solve", "walk", "1"], 4, "unknown program"),
            (&["parts", ";"], 4, "row field 1: missing"),
        ];
        for (words, status, text) in rows {
            assert_fault(&rt, rt.alloc(), words, status, text)?;
        }
        Ok(())
    }

    #[test]
    fn goes_along_a_path(rt: HostRuntime) -> Result<(), Fail> {
        let mut path = Vec::new(rt.alloc());
        for id in 1..40u64 {
            write_number(&mut path, id)?;
            path.push(b' ')?;
            write_number(&mut path, id + 1)?;
            path.push(b'\n')?;
        }
        let ran = run_row(&rt, rt.alloc(), &["run", "bfs", "1"], path.as_slice(), 4096)?;
        assert_eq!(rt; ran.status, 0);
        assert!(rt; ran.answer.as_slice().ends_with(b"\n39 38\n40 39\n"));
        Ok(())
    }

    #[test]
    fn stops_at_a_read_fault(rt: HostRuntime) -> Result<(), Fail> {
        // The 16 bytes come in four calls, and a fifth finds the end.
        for call in 1..8u64 {
            let ran = run_failing(&rt, rt.alloc(), "1", FOUR, (call, 0, 0))?;
            let (status, answer, fault) = if call <= 5 {
                (6, "", "phoenix: read fault\n")
            } else {
                (0, "1 0\n2 1\n3 1\n4 2\n", "")
            };
            assert_eq!(rt; ran.status, status, "at call {call}");
            assert_eq!(rt; ran.answer.as_slice(), answer.as_bytes(), "at call {call}");
            assert_eq!(rt; ran.fault.as_slice(), fault.as_bytes(), "at call {call}");
        }
        Ok(())
    }

    #[test]
    fn leaves_a_failing_source_alone(rt: HostRuntime) -> Result<(), Fail> {
        let alloc = rt.alloc();
        let rows: [(&[&str], u8); 3] = [
            (&["classify", "sssp"], 0),
            (&["run", ";", "1"], 4),
            (&["solve", "bfs"], 2),
        ];
        for (words, status) in rows {
            let words = words_of(alloc, words)?;
            let mut source = MemSource::new(FOUR.as_bytes().to_vec(alloc)?, 5, [1].to_vec(alloc)?);
            let mut sink = SureSink::new(alloc, 4096);
            let mut faults = SureSink::new(alloc, 4096);
            let answer = phoenix(&rt, alloc, &words, &mut source, &mut sink, &mut faults);
            assert_eq!(rt; answer, status);
        }
        Ok(())
    }

    #[test]
    fn judges_a_line_before_a_later_read_fault(rt: HostRuntime) -> Result<(), Fail> {
        let ran = run_failing(&rt, rt.alloc(), "1", "1 x\n1 2\n", (2, 0, 0))?;
        assert_eq!(rt; ran.status, 3);
        assert_eq!(rt;
            ran.fault.as_slice(),
            b"phoenix: line 1: bad vertex\n".as_slice()
        );
        Ok(())
    }

    #[test]
    fn goes_over_readers_and_writers(rt: HostRuntime) -> Result<(), Fail> {
        let alloc = rt.alloc();
        let words = words_of(alloc, &["run", "bfs", "1"])?;
        let mut answer = Vec::new(alloc);
        let mut fault = Vec::new(alloc);
        let status = phoenix(
            &rt,
            alloc,
            &words,
            &mut ReadFrom::new(FOUR.as_bytes()),
            &mut WriteTo::new(&mut answer),
            &mut WriteTo::new(&mut fault),
        );
        assert_eq!(rt; status, 0);
        assert_eq!(rt; answer.as_slice(), b"1 0\n2 1\n3 1\n4 2\n".as_slice());
        assert!(rt; fault.is_empty());
        Ok(())
    }

    #[test]
    fn finds_a_writer_that_is_full(rt: HostRuntime) -> Result<(), Fail> {
        let alloc = rt.alloc();
        let words = words_of(alloc, &["run", "bfs", "1"])?;
        let mut room = [0u8; 6];
        let mut fault = Vec::new(alloc);
        let status = phoenix(
            &rt,
            alloc,
            &words,
            &mut ReadFrom::new(FOUR.as_bytes()),
            &mut WriteTo::new(room.as_mut_slice()),
            &mut WriteTo::new(&mut fault),
        );
        assert_eq!(rt; status, 7);
        assert_eq!(rt; room.as_slice(), b"1 0\n2 ".as_slice());
        assert_eq!(rt; fault.as_slice(), b"phoenix: write fault\n".as_slice());
        Ok(())
    }

    #[test]
    fn stops_at_a_write_fault(rt: HostRuntime) -> Result<(), Fail> {
        // The second number is of the call of the sink that fails, and the third of that for the fault line.
        let rows = [
            ("1", FOUR, 1, 0, 7, "", "phoenix: write fault\n"),
            ("1", FOUR, 2, 0, 7, "1 0\n", "phoenix: write fault\n"),
            ("1", FOUR, 3, 0, 7, "1 0\n2 1\n", "phoenix: write fault\n"),
            (
                "1",
                FOUR,
                4,
                0,
                7,
                "1 0\n2 1\n3 1\n",
                "phoenix: write fault\n",
            ),
            ("1", FOUR, 5, 0, 0, "1 0\n2 1\n3 1\n4 2\n", ""),
            ("1", FOUR, 2, 1, 7, "1 0\n", ""),
            ("1", "1 x\n", 0, 2, 3, "", "phoe"),
            ("9", FOUR, 0, 3, 12, "", "phoenix:"),
            ("x", FOUR, 0, 1, 2, "", ""),
        ];
        for (id, input, write, report, status, answer, fault) in rows {
            let ran = run_failing(&rt, rt.alloc(), id, input, (0, write, report))?;
            assert_eq!(rt; ran.status, status, "at {write} and {report}");
            assert_eq!(rt;
                ran.answer.as_slice(),
                answer.as_bytes(),
                "at {write} and {report}"
            );
            assert_eq!(rt;
                ran.fault.as_slice(),
                fault.as_bytes(),
                "at {write} and {report}"
            );
        }
        Ok(())
    }
}
