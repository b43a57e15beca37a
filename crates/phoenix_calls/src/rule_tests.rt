//! Tests of gathers, edge values and the rows of the built-in programs.
use crate::graphs::program_of;
use program_table::{read_row, write_row};
use px_base::{Along, Fold, Program, TOP};
use std::test::Fail;
use value_laws::{EdgeRule, Gather, LeastGather, MexGather, core_form, edge_value, flip};

#[test]
fn gathers(rt: HostRuntime) {
    assert_eq!(&rt; MexGather.gather(0, &[0, 1, 3]), 2);
    assert_eq!(&rt; MexGather.gather(0, &[]), 0);
    assert_eq!(&rt; LeastGather.gather(5, &[7, 3]), 3);
}

#[test]
fn edges(rt: HostRuntime) -> Result<(), Fail> {
    assert_eq!(&rt; edge_value(Along::CapWeight, 5, 3), 3);
    assert_eq!(&rt; flip(0), TOP);
    let program = program_of("sssp")?;
    let sums = core_form(&program);
    assert!(&rt; sums.never_improves());
    assert_eq!(&rt; sums.value(5, 3), 8);
    let widest = core_form(&program_of("widest")?);
    assert_eq!(&rt; widest.value(TOP - 5, 3), TOP - 3);
    let lowering = Program {
        along: Along::Minus(1),
        fold: Fold::Least,
        ..program
    };
    assert!(&rt; !core_form(&lowering).never_improves());
    Ok(())
}

#[test]
fn rows(rt: HostRuntime) -> Result<(), Fail> {
    let rows = [
        ("bfs", "given; all; source 0 inf; plus 1; least; keep"),
        ("sssp", "given; all; source 0 inf; plus weight; least; keep"),
        (
            "widest",
            "given; all; source inf 0; cap weight; greatest; keep",
        ),
        ("components", "simple; all; id; same; least; keep"),
        ("colour", "simple; earlier id; each 0; same; mex; drop"),
        (
            "levels",
            "simple; earlier id; each 0; plus 1; greatest; drop",
        ),
        ("kcore:2", "simple; all; each 1; same; count 2; keep"),
    ];
    for (name, text) in rows {
        let program = program_of(name)?;
        let mut row = Vec::new(rt.alloc());
        write_row(&mut row, &program)?;
        assert_eq!(&rt; row.as_slice(), text.as_bytes(), "{name}");
        assert_eq!(&rt; read_row(text), Ok(program), "{name}");
    }
    Ok(())
}
