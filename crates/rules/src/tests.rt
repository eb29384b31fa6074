// Worked examples, each expected value computed by hand from the definitions.
use crate::counter::{Count, count_addresses};
use crate::fewest::fewest_rules;
use crate::neighbours::neighbours;
use crate::refusal::Refusal;
use crate::rule::Rule;
use crate::server::Server::{self, One, Two};
use crate::shortest::shortest_table;
use std::process::Abort;
use std::test::Fail;

fn rule(server: Server, start: u32, length: u32) -> Rule {
    Rule {
        start,
        length,
        server,
    }
}

fn is_table(rt: &impl Abort, width: u32, weight: u32, expected: &[Rule]) -> Result<(), Fail> {
    let mut table = shortest_table(width, weight)?;
    for rule in expected {
        assert_eq!(rt; table.next(), Some(*rule));
    }
    assert_eq!(rt; table.next(), None);
    assert_eq!(rt; fewest_rules(width, weight)? as usize, expected.len());
    Ok(())
}

#[test]
fn shortest_tables(rt: HostRuntime) -> Result<(), Fail> {
    is_table(
        &rt,
        5,
        15,
        &[rule(Two, 0, 0), rule(One, 0, 1), rule(Two, 15, 5)],
    )?;
    is_table(
        &rt,
        8,
        51,
        &[
            rule(Two, 0, 0),
            rule(One, 0, 2),
            rule(Two, 48, 4),
            rule(One, 48, 6),
            rule(Two, 51, 8),
        ],
    )?;
    is_table(
        &rt,
        8,
        205,
        &[
            rule(One, 0, 0),
            rule(Two, 192, 2),
            rule(One, 192, 4),
            rule(Two, 204, 6),
            rule(One, 204, 8),
        ],
    )?;
    is_table(&rt, 8, 0, &[rule(Two, 0, 0)])?;
    is_table(&rt, 8, 256, &[rule(One, 0, 0)])?;
    is_table(&rt, 8, 128, &[rule(Two, 0, 0), rule(One, 0, 1)])?;
    is_table(&rt, 8, 255, &[rule(One, 0, 0), rule(Two, 255, 8)])
}

#[test]
fn neighbours_under_small_limits(rt: HostRuntime) {
    assert_eq!(rt; neighbours(8, 51, 1), Ok((0, 256)));
    assert_eq!(rt; neighbours(8, 51, 2), Ok((32, 64)));
    assert_eq!(rt; neighbours(8, 51, 3), Ok((48, 56)));
    assert_eq!(rt; neighbours(8, 51, 4), Ok((50, 52)));
    assert_eq!(rt; neighbours(8, 51, 5), Ok((51, 51)));
    assert_eq!(rt; neighbours(8, 11, 2), Ok((8, 16)));
    assert_eq!(rt; neighbours(8, 11, 3), Ok((10, 12)));
    assert_eq!(rt; neighbours(8, 11, 4), Ok((11, 11)));
}

fn is_count(
    rt: &impl Abort,
    rules: &[Rule],
    one: u32,
    two: u32,
    unmatched: u32,
    excess: Option<u32>,
) {
    assert_eq!(rt;
        count_addresses(8, rules),
        Ok(Count {
            one,
            two,
            unmatched,
            excess,
        })
    );
}

#[test]
fn counts(rt: HostRuntime) {
    // The table of 51 from the longest prefix on, and from the shortest, where all but the first rule are dead.
    is_count(
        &rt,
        &[
            rule(Two, 51, 8),
            rule(One, 48, 6),
            rule(Two, 48, 4),
            rule(One, 0, 2),
            rule(Two, 0, 0),
        ],
        51,
        205,
        0,
        Some(0),
    );
    is_count(
        &rt,
        &[
            rule(Two, 0, 0),
            rule(One, 0, 2),
            rule(Two, 48, 4),
            rule(One, 48, 6),
            rule(Two, 51, 8),
        ],
        0,
        256,
        0,
        Some(4),
    );
    // A gap, a rule that stands twice, no rule.
    is_count(
        &rt,
        &[rule(One, 0, 2), rule(Two, 128, 1)],
        64,
        128,
        64,
        None,
    );
    is_count(
        &rt,
        &[
            rule(One, 0, 1),
            rule(Two, 0, 1),
            rule(One, 0, 1),
            rule(Two, 128, 1),
        ],
        128,
        128,
        0,
        Some(2),
    );
    is_count(&rt, &[], 0, 0, 256, None);
}

#[test]
fn refused_widths_and_weights(rt: HostRuntime) {
    assert_eq!(rt; fewest_rules(0, 0), Err(Refusal::WidthOutOfRange));
    assert_eq!(rt; fewest_rules(25, 0), Err(Refusal::WidthOutOfRange));
    assert_eq!(rt;
        fewest_rules(4_294_967_295, 4_294_967_295),
        Err(Refusal::WidthOutOfRange)
    );
    assert_eq!(rt; fewest_rules(24, 16_777_216), Ok(1));
    assert_eq!(rt; fewest_rules(24, 16_777_217), Err(Refusal::BeyondWidth));
    assert_eq!(rt; neighbours(1, 3, 0), Err(Refusal::BeyondWidth));
    assert_eq!(rt; neighbours(1, 2, 0), Err(Refusal::RuleCountOutOfRange));
    assert!(rt; shortest_table(1, 3).is_err());
}

#[test]
fn refused_lists(rt: HostRuntime) {
    let many = [rule(One, 0, 0); 1025];
    assert_eq!(rt; count_addresses(0, &many), Err(Refusal::WidthOutOfRange));
    assert_eq!(rt;
        count_addresses(8, &many),
        Err(Refusal::RuleCountOutOfRange)
    );
    let most = [rule(One, 0, 0); 1024];
    is_count(&rt, &most, 256, 0, 0, Some(1023));
    assert_eq!(rt;
        count_addresses(8, &[rule(Two, 0, 0), rule(One, 32, 2)]),
        Err(Refusal::BrokenLayout)
    );
    for broken in [
        rule(One, 0, 9),
        rule(One, 256, 8),
        rule(One, 4_294_967_295, 4_294_967_295),
    ] {
        assert_eq!(rt; count_addresses(8, &[broken]), Err(Refusal::BrokenLayout));
    }
}

#[test]
fn numbers_and_texts(rt: HostRuntime) -> Result<(), Fail> {
    assert_eq!(rt; Server::try_from(1), Ok(One));
    assert_eq!(rt; Server::try_from(2), Ok(Two));
    assert_eq!(rt; Server::try_from(0), Err(Refusal::BrokenLayout));
    assert_eq!(rt; Server::try_from(3), Err(Refusal::BrokenLayout));
    let rule = rule(Two, 48, 4);
    assert_eq!(rt; format!(in rt.alloc(); "{rule}")?.as_str(), "48 4 2");
    let why = Refusal::BufferTooShort;
    assert_eq!(rt; format!(in rt.alloc(); "{why}")?.as_str(), "16");
    Ok(())
}
