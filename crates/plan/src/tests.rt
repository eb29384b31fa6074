// The figures as runs of the code, and plans at the edges.
use crate::even::Even;
use crate::measure::{FARTHEST, Measure};
use crate::nearest::nearest;
use crate::planner::plan;
use crate::relative::Relative;
use rules::refusal::Refusal;
use std::test::Fail;

// Two services, at tags 0 and 63.
fn two(first: u32, last: u32) -> [Option<u32>; 64] {
    let mut targets = [None; 64];
    targets[0] = Some(first);
    targets[63] = Some(last);
    targets
}

#[test]
fn measures_miss(rt: HostRuntime) {
    assert_eq!(rt; Even.miss(8, 51, 32), 19);
    assert_eq!(rt; Even.miss(8, 51, 64), 13);
    assert_eq!(rt; Relative.miss(8, 51, 32), 92);
    assert_eq!(rt; Relative.miss(8, 51, 64), 254);
    assert_eq!(rt; Even.miss(25, 0, 0), FARTHEST);
    assert_eq!(rt; Even.miss(8, 51, 257), FARTHEST);
    assert_eq!(rt; Relative.miss(8, 257, 51), FARTHEST);
    assert_eq!(rt; Relative.miss(8, 0, 1), FARTHEST);
    assert_eq!(rt; Relative.miss(8, 256, 255), FARTHEST);
    assert_eq!(rt; Relative.miss(8, 0, 0), 0);
}

#[test]
fn nearest_weights(rt: HostRuntime) -> Result<(), Fail> {
    assert_eq!(rt; nearest(&Even, 8, 51, 1)?, 0);
    assert_eq!(rt; nearest(&Even, 8, 51, 2)?, 64);
    assert_eq!(rt; nearest(&Even, 8, 51, 3)?, 48);
    assert_eq!(rt; nearest(&Even, 8, 51, 4)?, 50);
    assert_eq!(rt; nearest(&Relative, 8, 51, 2)?, 32);
    assert_eq!(rt; nearest(&Even, 8, 128, 1)?, 0);
    assert_eq!(rt; nearest(&Relative, 8, 128, 1)?, 0);
    assert_eq!(rt; nearest(&Even, 8, 11, 2)?, 8);
    assert_eq!(rt; nearest(&Relative, 8, 11, 2)?, 8);
    Ok(())
}

#[test]
fn nearest_refuses(rt: HostRuntime) {
    assert_eq!(rt; nearest(&Even, 0, 1, 0), Err(Refusal::WidthOutOfRange));
    assert_eq!(rt; nearest(&Even, 25, 1, 1), Err(Refusal::WidthOutOfRange));
    assert_eq!(rt; nearest(&Even, 8, 257, 0), Err(Refusal::BeyondWidth));
    assert_eq!(rt;
        nearest(&Even, 8, 256, 0),
        Err(Refusal::RuleCountOutOfRange)
    );
}

#[test]
fn tied_services_stay_level(rt: HostRuntime) -> Result<(), Fail> {
    let planned = plan(&Even, 8, 3, &two(51, 51))?;
    assert_eq!(rt; planned.worst, 51);
    assert_eq!(rt; planned.rules, 2);
    let weights = planned.weights;
    assert_eq!(rt; weights[0], Some(0));
    assert_eq!(rt; weights[63], Some(0));
    assert_eq!(rt; weights[1], None);
    Ok(())
}

// 51 takes 5 rules and 128 takes 2.
#[test]
fn capacity_decides(rt: HostRuntime) -> Result<(), Fail> {
    let exact = plan(&Even, 8, 7, &two(51, 128))?;
    assert_eq!(rt; (exact.worst, exact.rules), (0, 7));
    let tight = plan(&Even, 8, 5, &two(51, 128))?;
    assert_eq!(rt; (tight.worst, tight.rules), (3, 5));
    let weights = tight.weights;
    assert_eq!(rt; weights[0], Some(48));
    assert_eq!(rt; weights[63], Some(128));
    let least = plan(&Even, 8, 2, &two(51, 128))?;
    assert_eq!(rt; (least.worst, least.rules), (128, 2));
    Ok(())
}

#[test]
fn no_service(rt: HostRuntime) -> Result<(), Fail> {
    let planned = plan(&Even, 8, 0, &[None; 64])?;
    assert_eq!(rt; (planned.worst, planned.rules), (0, 0));
    Ok(())
}

#[test]
fn narrow_and_wide(rt: HostRuntime) -> Result<(), Fail> {
    let narrow = plan(&Even, 1, 3, &two(1, 2))?;
    assert_eq!(rt; (narrow.worst, narrow.rules), (0, 3));
    let halved = plan(&Even, 1, 2, &two(1, 2))?;
    assert_eq!(rt; (halved.worst, halved.rules), (1, 2));
    // Every second bit of 24: 13 rules, the most that a weight can need.
    let wide = plan(&Even, 24, 832, &[Some(0x55_5555); 64])?;
    assert_eq!(rt; (wide.worst, wide.rules), (0, 832));
    let less = plan(&Even, 24, 831, &[Some(0x55_5555); 64])?;
    assert_eq!(rt; (less.worst, less.rules), (1, 768));
    Ok(())
}

#[test]
fn ends_are_exact(rt: HostRuntime) -> Result<(), Fail> {
    let even = plan(&Even, 8, 2, &two(0, 256))?;
    assert_eq!(rt; (even.worst, even.rules), (0, 2));
    let relative = plan(&Relative, 8, 2, &two(0, 256))?;
    assert_eq!(rt; (relative.worst, relative.rules), (0, 2));
    let weights = relative.weights;
    assert_eq!(rt; weights[0], Some(0));
    assert_eq!(rt; weights[63], Some(256));
    Ok(())
}

#[test]
fn plan_refuses(rt: HostRuntime) {
    assert_eq!(rt;
        plan(&Even, 25, 0, &two(1, 1)),
        Err(Refusal::WidthOutOfRange)
    );
    assert_eq!(rt; plan(&Even, 8, 0, &two(1, 257)), Err(Refusal::BeyondWidth));
    assert_eq!(rt;
        plan(&Even, 8, 1, &two(1, 256)),
        Err(Refusal::TooManyServices)
    );
}
