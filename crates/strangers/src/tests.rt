use super::constant::RankZero;
use super::until::UntilDecided;
use bounds::{Bound, Larger, LongestPath, LookAhead};
use graph::{Arc, CaseSource, Pair, TimeMeasure};
use measures::{OrderedSeconds, Seconds};
use planner::Planner;
use sources::Listed;
use std::test::Fail;

fn arc(from: u16, to: u16, weight: i32) -> Arc {
    Arc {
        from,
        to,
        weight,
        mark: 0,
    }
}

fn pair(first: Arc, second: Arc) -> Pair {
    Pair { first, second }
}

/// Two trains want one section: each is in time alone, the first going first costs 90, the second going first 110.
fn two_trains() -> [Arc; 6] {
    [
        arc(0, 1, 0),
        arc(1, 2, 100),
        arc(2, 5, -100),
        arc(0, 3, 30),
        arc(3, 4, 60),
        arc(4, 5, -90),
    ]
}

/// A bound's answer in seconds.
fn asked<B: Bound, S: CaseSource>(
    bound: B,
    source: &S,
    arms: &mut [u8; 60],
    times: &mut [Seconds],
) -> Option<i64> {
    bound.ask(source, arms, times).map(Seconds::value)
}

/// A bound's answer in seconds, with an arm of the first pair and places for six events.
fn with_first<B: Bound, S: CaseSource>(bound: B, source: &S, arm: u8) -> Option<i64> {
    let mut arms = [0; 60];
    arms[0] = arm;
    let mut times = [Seconds::zero(); 6];
    asked(bound, source, &mut arms, &mut times)
}

/// Every bound goes through the same calls, those of a stranger too.
#[test]
fn arms(rt: HostRuntime) {
    let fixed = two_trains();
    let pairs = [pair(arc(2, 3, 20), arc(4, 1, 20))];
    let case = Listed::over(5, &fixed, &pairs);
    let until = UntilDecided { pair: 1 };
    let strangers = Larger {
        one: RankZero,
        other: until,
    };
    let mixed = Larger {
        one: strangers,
        other: LookAhead,
    };
    for (arm, path, ahead) in [
        (0, 0, 90),
        (1, 90, 90),
        (2, 110, 110),
        (3, 0, 90),
        (255, 0, 90),
    ] {
        assert_eq!(rt; with_first(LongestPath, &case, arm), Some(path));
        assert_eq!(rt; with_first(LookAhead, &case, arm), Some(ahead));
        assert_eq!(rt; with_first(RankZero, &case, arm), Some(0));
        assert_eq!(rt; with_first(strangers, &case, arm), Some(path));
        assert_eq!(rt; with_first(mixed, &case, arm), Some(ahead));
    }
}

/// A cycle that sums above 0 leaves none. Looking ahead leaves out an arm that closes one, and answers none where both
/// do. The stranger's bound falls to 0 where the pair is decided.
#[test]
fn cycles(rt: HostRuntime) {
    let none = arc(0, 1, 0);
    let late = arc(0, 1, 30);
    let wide = arc(1, 2, 20);
    let close = arc(2, 1, -5);
    for (back, first, second, path, ahead) in [
        (-5, none, none, None, None),
        (-10, none, none, Some(10), Some(10)),
        (-10, wide, late, Some(10), Some(40)),
        (-10, late, wide, Some(10), Some(40)),
        (-10, wide, close, Some(10), None),
    ] {
        let fixed = [arc(1, 2, 10), arc(2, 1, back)];
        let pairs = [pair(first, second)];
        let case = Listed::over(2, &fixed, &pairs);
        let until = UntilDecided { pair: 0 };
        let mixed = Larger {
            one: LookAhead,
            other: until,
        };
        assert_eq!(rt; with_first(LongestPath, &case, 0), path);
        assert_eq!(rt; with_first(LookAhead, &case, 0), ahead);
        assert_eq!(rt; with_first(until, &case, 0), path);
        assert_eq!(rt; with_first(until, &case, 1), Some(0));
        assert_eq!(rt; with_first(mixed, &case, 0), ahead);
    }
}

/// The arms come back as they were, and times behind a place for each event stay; with fewer places none is written.
#[test]
fn lent(rt: HostRuntime) -> Result<(), Fail> {
    let fixed = two_trains();
    let pairs = [pair(arc(2, 3, 20), arc(4, 1, 20))];
    let case = Listed::over(5, &fixed, &pairs);
    let mut arms = [255; 60];
    let mut times = [Seconds::of_arc(7, 0); 7];
    assert_eq!(rt; asked(LookAhead, &case, &mut arms, &mut times), Some(90));
    assert_eq!(rt; arms, [255; 60]);
    assert_eq!(rt; times[6].value(), 7);
    let mut short = [Seconds::of_arc(7, 0); 5];
    assert_eq!(rt; asked(LongestPath, &case, &mut arms, &mut short), Some(0));
    assert_eq!(rt; asked(LookAhead, &case, &mut arms, &mut short), Some(0));
    for time in short {
        assert_eq!(rt; time.value(), 7);
    }
    let mut ordered = [OrderedSeconds::zero(); 6];
    if let Some(time) = LookAhead.ask(&case, &mut arms, &mut ordered) {
        assert_eq!(rt; time.second(), 90);
        return Ok(());
    }
    Err(Fail::new("there is a bound"))
}

/// The lower bound on show after a search, in seconds.
fn lower_after<B: Bound, S: CaseSource + Copy>(
    planner: &mut Planner<S, Seconds, B>,
    budget: u64,
    times: &mut [Seconds],
) -> i64 {
    let _ = planner.search(budget, times);
    planner.lower_bound().value()
}

/// A search by a stranger's bound: where the bound falls along the tree, the lower bound on show does not, and the weakest
/// bound has every node examined.
#[test]
fn searched(rt: HostRuntime) {
    let fixed = [arc(0, 1, 50)];
    let pairs = [
        pair(arc(0, 1, 60), arc(0, 1, 70)),
        pair(arc(0, 1, 0), arc(0, 1, 0)),
    ];
    let case = Listed::over(1, &fixed, &pairs);
    let mut times = [Seconds::zero(); 2];
    let mut falling = Planner::open(case, UntilDecided { pair: 1 });
    assert_eq!(rt; lower_after(&mut falling, 1, &mut times), 60);
    assert_eq!(rt; lower_after(&mut falling, 1, &mut times), 60);
    assert_eq!(rt; falling.count(), 2);
    assert_eq!(rt; lower_after(&mut falling, 100, &mut times), 60);
    assert!(rt; falling.is_finished());
    let mut weakest = Planner::open(case, RankZero);
    assert_eq!(rt; lower_after(&mut weakest, 100, &mut times), 60);
    assert_eq!(rt; weakest.count(), 7);
    assert_eq!(rt; times[1].value(), 60);
}
