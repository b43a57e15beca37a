//! Tests of frames against bytes that were written down by hand from the format.
#![tactic(auto)]

#[cfg(test)]
mod samples;

#[cfg(test)]
mod tests {
    use crate::samples::{Sample, bytes_of, samples};
    use px_base::Memory;
    use px_frames::{
        Decoder, FeedFault, Frame, boundary_fits, frame_fits, mirrors_fit, order_fits, reads_fit,
        starts_fit, write_boundary, write_frame, write_mirrors, write_order, write_reads,
        write_starts,
    };
    use std::alloc::Global;
    use std::process::Abort;
    use std::test::Fail;

    /// A report order of epoch 1.
    const REPORT: &str = "500108000000000400000001";

    /// Feeds the bytes in pieces, and gives how many were fed when `Torn` came, with its place.
    fn torn_after(
        alloc: Global,
        bytes: &[u8],
        most: usize,
    ) -> Result<Option<(usize, u64)>, Memory> {
        let mut decoder = Decoder::new(alloc);
        let mut fed = 0usize;
        for piece in bytes.chunks(most.max(1)) {
            fed = fed.saturating_add(piece.len());
            match decoder.feed(piece) {
                Ok(()) => {}
                Err(FeedFault::Torn { at }) => return Ok(Some((fed, at))),
                Err(FeedFault::Memory) => return Err(Memory),
            }
        }
        Ok(None)
    }

    /// Asserts that the decoder gives this frame now, and no other after it.
    fn assert_next<R: Abort>(rt: &R, decoder: &mut Decoder, frame: &Frame, text: &str) {
        let Some(got) = decoder.next() else {
            assert!(rt; false, "no frame in {text}");
            return;
        };
        assert_eq!(rt; &got, frame, "{text}");
        assert!(rt; decoder.next().is_none(), "a second frame in {text}");
    }

    /// Asserts that the sample is read, in pieces of so many bytes, with its last byte and not before.
    fn assert_read<R: Abort>(
        rt: &R,
        alloc: Global,
        sample: &Sample,
        most: usize,
    ) -> Result<(), Fail> {
        let Sample { text, frame } = sample;
        let bytes = bytes_of(alloc, text)?;
        let mut decoder = Decoder::new(alloc);
        let mut left = bytes.len();
        for piece in bytes.chunks(most.max(1)) {
            assert!(rt; decoder.next().is_none(), "{text} by {most}");
            assert_eq!(rt; decoder.taken(), 0, "{text} by {most}");
            assert_eq!(rt; decoder.between(), left == bytes.len(), "{text} by {most}");
            decoder.feed(piece)?;
            left = left.saturating_sub(piece.len());
        }
        assert!(rt; decoder.between(), "{text} by {most}");
        assert_eq!(rt; decoder.taken(), bytes.len() as u64, "{text} by {most}");
        assert_next(rt, &mut decoder, frame, text);
        Ok(())
    }

    #[test]
    fn spellings(rt: HostRuntime) -> Result<(), Fail> {
        for sample in &samples(rt.alloc())? {
            let Sample { text, frame } = sample;
            assert!(&rt; frame_fits(frame), "{text}");
            let mut out = [7].to_vec(rt.alloc())?;
            write_frame(&mut out, frame)?;
            let mut want = [7].to_vec(rt.alloc())?;
            want.extend_from_slice(&bytes_of(rt.alloc(), text)?)?;
            assert_eq!(&rt; out.as_slice(), want.as_slice(), "{text}");
            for most in [1, 5, 4096] {
                assert_read(&rt, rt.alloc(), sample, most)?;
            }
        }
        Ok(())
    }

    /// Writes what the frame has by the writer that takes it lent, and says whether its kind has one.
    fn write_lent<R: Abort>(rt: &R, out: &mut Vec<u8>, frame: &Frame) -> Result<bool, Memory> {
        match frame {
            Frame::Starts(values) => {
                assert!(rt; starts_fit(values.as_slice()));
                write_starts(out, values.as_slice())?;
            }
            Frame::Mirrors(pairs) => {
                assert!(rt; mirrors_fit(pairs.as_slice()));
                write_mirrors(out, pairs.as_slice())?;
            }
            Frame::Boundary(vertices) => {
                assert!(rt; boundary_fits(vertices.as_slice()));
                write_boundary(out, vertices.as_slice())?;
            }
            Frame::Reads(triples) => {
                assert!(rt; reads_fit(triples.as_slice()));
                write_reads(out, triples.as_slice())?;
            }
            Frame::Order(order) => {
                assert!(rt; order_fits(order));
                write_order(out, order)?;
            }
            Frame::Setup(_) | Frame::Ready | Frame::Answer(_) => return Ok(false),
        }
        Ok(true)
    }

    /// The kinds of a load's entries, and both orders.
    #[test]
    fn lent_spellings(rt: HostRuntime) -> Result<(), Fail> {
        let mut lent = 0usize;
        for sample in &samples(rt.alloc())? {
            let Sample { text, frame } = sample;
            let mut out = [7].to_vec(rt.alloc())?;
            if !write_lent(&rt, &mut out, frame)? {
                continue;
            }
            let mut want = [7].to_vec(rt.alloc())?;
            want.extend_from_slice(&bytes_of(rt.alloc(), text)?)?;
            assert_eq!(&rt; out.as_slice(), want.as_slice(), "{text}");
            lent = lent.saturating_add(1);
        }
        assert_eq!(&rt; lent, 6);
        Ok(())
    }

    #[test]
    fn one_after_another(rt: HostRuntime) -> Result<(), Fail> {
        let all = samples(rt.alloc())?;
        let mut bytes = Vec::new(rt.alloc());
        for sample in &all {
            bytes.extend_from_slice(&bytes_of(rt.alloc(), sample.text)?)?;
        }
        for most in [1, 5, 4096] {
            let mut decoder = Decoder::new(rt.alloc());
            for piece in bytes.chunks(most) {
                decoder.feed(piece)?;
            }
            assert!(&rt; decoder.between());
            assert_eq!(&rt; decoder.taken(), bytes.len() as u64);
            for sample in &all {
                assert_eq!(&rt; decoder.next().as_ref(), Some(&sample.frame), "by {most}");
            }
            assert!(&rt; decoder.next().is_none());
        }
        Ok(())
    }

    /// A report order in whose place of its length stands 5, and which has 5 bytes more, is torn at the byte that makes
    /// them whole.
    #[test]
    fn torn_at_the_thirteenth_byte(rt: HostRuntime) -> Result<(), Fail> {
        let bytes = bytes_of(rt.alloc(), "50010800000000050000000150")?;
        assert_eq!(&rt; bytes.len(), 13);
        assert_eq!(&rt; torn_after(rt.alloc(), &bytes, 1)?, Some((13, 0)));
        assert_eq!(&rt; torn_after(rt.alloc(), &bytes, 4096)?, Some((13, 0)));
        let mut decoder = Decoder::new(rt.alloc());
        decoder.feed(&bytes_of(rt.alloc(), REPORT)?)?;
        for byte in &bytes[..12] {
            decoder.feed(&[*byte])?;
        }
        for _ in 0..3 {
            assert_eq!(&rt; decoder.feed(&bytes[12..]), Err(FeedFault::Torn { at: 12 }));
            assert!(&rt; !decoder.between());
            assert_eq!(&rt; decoder.taken(), 12);
        }
        assert!(&rt; decoder.next().is_some());
        assert!(&rt; decoder.next().is_none());
        assert_eq!(&rt; decoder.feed(&[]), Err(FeedFault::Torn { at: 12 }));
        Ok(())
    }

    /// A byte of the header of a report order is changed. Then the bytes are torn once so many came, or never (0).
    #[test]
    fn changed_headers(rt: HostRuntime) -> Result<(), Fail> {
        let rows = [
            (0, 0x51, 8),
            (0, 0, 8),
            (1, 0, 8),
            (1, 2, 8),
            (2, 0, 8),
            (2, 11, 8),
            (2, 255, 8),
            (2, 1, 12),
            (2, 2, 12),
            (2, 3, 12),
            (2, 4, 0),
            (2, 5, 12),
            (2, 6, 12),
            (2, 7, 12),
            (2, 9, 12),
            (2, 10, 12),
            (3, 1, 8),
            (4, 1, 0),
            (4, 3, 0),
            (4, 4, 8),
            (4, 255, 8),
            (5, 1, 0),
            (6, 1, 0),
            (7, 0, 8),
            (7, 3, 11),
            (7, 5, 0),
        ];
        let right = bytes_of(rt.alloc(), REPORT)?;
        for (place, byte, count) in rows {
            let mut bytes = right.clone()?;
            if let Some(old) = bytes.get_mut(place) {
                *old = byte;
            }
            let torn = torn_after(rt.alloc(), &bytes, 1)?;
            let want = if count == 0 { None } else { Some((count, 0)) };
            assert_eq!(&rt; torn, want, "{byte} at {place}");
        }
        Ok(())
    }

    /// Each sample with a body of one byte less or more, and a header that says so.
    #[test]
    fn other_lengths(rt: HostRuntime) -> Result<(), Fail> {
        for Sample { text, frame: _ } in &samples(rt.alloc())? {
            let mut bytes = bytes_of(rt.alloc(), text)?;
            let whole = bytes.len();
            bytes.push(0)?;
            set_length(&mut bytes, whole.saturating_sub(7));
            let longer = torn_after(rt.alloc(), &bytes, 1)?;
            assert_eq!(&rt;
                longer,
                Some((whole.saturating_add(1), 0)),
                "{text} and more"
            );
            if whole > 8 {
                bytes.truncate(whole.saturating_sub(1));
                set_length(&mut bytes, whole.saturating_sub(9));
                let shorter = torn_after(rt.alloc(), &bytes, 1)?;
                assert_eq!(&rt;
                    shorter,
                    Some((whole.saturating_sub(1), 0)),
                    "less of {text}"
                );
            }
        }
        Ok(())
    }

    /// Puts a length below 256 into a header.
    fn set_length(bytes: &mut Vec<u8>, length: usize) {
        if let Some(last) = bytes.get_mut(7) {
            *last = (length % 256) as u8;
        }
    }

    /// Bodies that are no frame's, and their neighbours that are.
    #[test]
    fn limits(rt: HostRuntime) -> Result<(), Fail> {
        let rows = [
            // Values, up to the greatest.
            ("50010200000000087fffffffffffffff", true),
            ("50010200000000088000000000000000", false),
            // Vertices, below 2^22.
            ("5001040000000004003fffff", true),
            ("500104000000000400400000", false),
            // Vertices that rise, stay and fall.
            ("50010400000000080000000100000002", true),
            ("50010400000000080000000100000001", false),
            ("50010400000000080000000200000001", false),
            // No entries.
            ("5001040000000000", false),
            // Triples that stay, and that fall by weight.
            (
                "5001050000000018000000010000000200000003000000010000000200000003",
                true,
            ),
            (
                "5001050000000018000000010000000200000003000000010000000200000002",
                false,
            ),
            (
                "5001050000000018000000010000000200000003000000000000000200000003",
                false,
            ),
            // Pairs whose vertices stay.
            (
                "5001030000000018000000010000000000000000000000010000000000000001",
                false,
            ),
            // Neither changed nor not.
            ("50010900000000110000000100000000000000000200000000", false),
            // A count of none, and one that isn't met.
            ("500107000000001000000001000000000000000000000000", true),
            ("500107000000001000000001000000000000000000000001", false),
            ("500108000000000400000000", true),
        ];
        for (text, right) in rows {
            let bytes = bytes_of(rt.alloc(), text)?;
            let want = if right { None } else { Some((bytes.len(), 0)) };
            assert_eq!(&rt; torn_after(rt.alloc(), &bytes, 1)?, want, "{text}");
        }
        Ok(())
    }
}
