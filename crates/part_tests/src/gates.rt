//! The gate over a window in which serial 0 alone is visible, where the defence delays nothing (`transmit_gate`;
//! `docs/machine.md`, "Issue").
use crate::asserting::assert_same;
use crate::descriptions::small;
use rv_types::Kind;
use std::test::Fail;
use transmit_gate::may_transmit;
use visibility::VisPoint;

#[test]
fn loads_and_divisions_wait_for_their_roots(rt: HostRuntime) -> Result<(), Fail> {
    let desc = small(rt.alloc())?;
    let point = VisPoint::new(&desc);
    let rows: [(Kind, [Option<u64>; 2], bool); 9] = [
        (Kind::Load, [None, None], true),
        (Kind::Load, [Some(0), Some(7)], true),
        (Kind::Load, [Some(7), None], false),
        (Kind::Div, [Some(0), None], true),
        (Kind::Div, [Some(7), None], false),
        (Kind::Div, [None, Some(7)], false),
        (Kind::Store, [Some(7), Some(7)], true),
        (Kind::Branch, [Some(7), Some(7)], true),
        (Kind::Mul, [Some(7), Some(7)], true),
    ];
    for (kind, roots, want) in rows {
        let may = may_transmit(kind, 7, roots, &point, &desc);
        assert_same(&rt, &(kind, roots, may), &(kind, roots, want));
    }
    Ok(())
}
