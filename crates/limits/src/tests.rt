use graph::{Arc, CaseSource, Pair, Refusal, TimeMeasure, least_times};
use measures::Seconds;
use messages::{CaseFault, MessageFault};
use sources::{Listed, Message, check_listed, check_message, write_message};

/// The empty case as a message.
const EMPTY: [u8; 10] = [0, 0, 0, 6, 1, 0, 1, 0, 0, 0];

fn arc(from: u16, to: u16, weight: i32, mark: u8) -> Arc {
    Arc {
        from,
        to,
        weight,
        mark,
    }
}

/// Layer, cause and place of a fault, or zeros where there is none.
fn numbers<F: Refusal>(told: Result<(), F>) -> (u8, u8, usize) {
    match told {
        Ok(()) => (0, 0, 0),
        Err(fault) => (fault.layer(), fault.cause(), fault.place()),
    }
}

/// The least times of a listed case in seconds, with an arm of its first pair, in a row of six, or none; refused, how many
/// places are needed.
fn times<'a>(
    end: usize,
    fixed: &'a [Arc],
    pairs: &'a [Pair],
    arm: u8,
) -> Result<Option<[i64; 6]>, usize> {
    let mut arms = [0; 60];
    arms[0] = arm;
    let mut times = [Seconds::zero(); 6];
    match least_times(&Listed::over(end, fixed, pairs), &arms, &mut times) {
        Ok(found) => Ok(found.then_some(times.map(Seconds::value))),
        Err(few) => Err(few.needed),
    }
}

#[test]
fn worked_examples(rt: HostRuntime) {
    let fixed = [
        arc(0, 1, 0, 0),
        arc(1, 2, 100, 0),
        arc(2, 5, -100, 0),
        arc(0, 3, 30, 0),
        arc(3, 4, 60, 0),
        arc(4, 5, -90, 0),
    ];
    let pairs = [Pair {
        first: arc(2, 3, 20, 0),
        second: arc(4, 1, 20, 0),
    }];
    assert_eq!(rt;
        times(5, &fixed, &pairs, 1),
        Ok(Some([0, 0, 100, 120, 180, 90]))
    );
    assert_eq!(rt;
        times(5, &fixed, &pairs, 2),
        Ok(Some([0, 110, 210, 30, 90, 110]))
    );
    assert_eq!(rt; times(5, &fixed, &pairs, 3), times(5, &fixed, &pairs, 0));
    let rising = [arc(1, 2, 10, 0), arc(2, 1, -5, 0)];
    assert_eq!(rt; times(2, &rising, &[], 0), Ok(None));
    let level = [arc(1, 2, 10, 0), arc(2, 1, -10, 0)];
    assert_eq!(rt; times(2, &level, &[], 0), Ok(Some([0, 0, 10, 0, 0, 0])));
    assert_eq!(rt; times(6, &level, &[], 0), Err(7));
}

#[test]
fn limits_of_arcs(rt: HostRuntime) {
    let good = arc(0, 1, 0, 0);
    let table = [
        (arc(0, 2, -1_000_000, 0), 0),
        (arc(2, 0, 1_000_000, 1), 0),
        (arc(0, 3, 0, 0), 5),
        (arc(3, 0, 0, 0), 5),
        (arc(3, 3, 0, 2), 5),
        (arc(2, 2, 1_000_001, 2), 6),
        (arc(0, 1, -1_000_001, 0), 7),
        (arc(0, 1, 1_000_001, 2), 7),
        (arc(0, 1, 0, 2), 8),
    ];
    for (wrong, cause) in table {
        let layer = if cause == 0 { 0 } else { 2 };
        let place = if cause == 0 { 0 } else { 1 };
        let second = [Pair {
            first: good,
            second: wrong,
        }];
        assert_eq!(rt;
            numbers(check_listed(2, &[good, wrong], &[])),
            (layer, cause, place)
        );
        assert_eq!(rt;
            numbers(check_listed(2, &[], &second)),
            (layer, cause, place)
        );
    }
}

#[test]
fn limits_of_sizes(rt: HostRuntime) {
    let arcs = [arc(0, 1, 0, 0); 2049];
    let pairs = [Pair {
        first: arc(0, 1, 0, 0),
        second: arc(1, 0, 0, 0),
    }; 61];
    assert_eq!(rt; numbers(check_listed(0, &[], &[])), (2, 3, 0));
    assert_eq!(rt; numbers(check_listed(512, &arcs, &pairs)), (2, 3, 0));
    assert_eq!(rt; numbers(check_listed(511, &arcs, &pairs)), (2, 3, 1));
    assert_eq!(rt;
        numbers(check_listed(511, &arcs[0..2048], &pairs)),
        (2, 3, 2)
    );
    assert_eq!(rt;
        numbers(check_listed(1, &arcs[0..2048], &pairs[0..60])),
        (0, 0, 0)
    );
}

#[test]
fn limits_of_messages(rt: HostRuntime) {
    let table = [
        (EMPTY, (0, 0, 0)),
        ([0, 0, 0, 6, 1, 1, 255, 0, 0, 0], (0, 0, 0)),
        ([0, 0, 0, 6, 0, 0, 0, 9, 9, 99], (1, 2, 4)),
        ([0, 0, 0, 6, 2, 0, 1, 0, 0, 0], (1, 2, 4)),
        ([0, 0, 0, 6, 1, 0, 0, 9, 9, 99], (1, 3, 5)),
        ([0, 0, 0, 6, 1, 2, 0, 0, 0, 0], (1, 3, 5)),
        ([0, 0, 0, 6, 1, 0, 1, 8, 1, 99], (1, 3, 7)),
        ([0, 0, 0, 6, 1, 0, 1, 8, 0, 61], (1, 3, 9)),
        ([0, 0, 0, 6, 1, 0, 1, 8, 0, 60], (1, 4, 0)),
        ([0, 0, 0, 7, 1, 0, 1, 0, 0, 0], (1, 4, 0)),
        ([0, 0, 0, 6, 1, 0, 1, 0, 1, 0], (1, 4, 0)),
    ];
    for (bytes, told) in table {
        assert_eq!(rt; numbers(check_message(&bytes)), told);
    }
    assert_eq!(rt; numbers(check_message(&EMPTY[0..9])), (1, 1, 9));
    assert_eq!(rt;
        numbers(check_message(&[0, 0, 0, 6, 1, 0, 1, 0, 0, 0, 0])),
        (1, 4, 0)
    );
}

#[test]
fn sources_that_are_read(rt: HostRuntime) {
    let arcs = [arc(0, 3, 5, 1), arc(3, 1, -5, 0)];
    let pairs = [Pair {
        first: arcs[0],
        second: arcs[1],
    }];
    let bytes = [
        0, 0, 0, 33, 1, 0, 3, 0, 1, 1, 0, 0, 0, 3, 0, 0, 0, 5, 1, 0, 0, 0, 3, 0, 0, 0, 5, 1, 0, 3,
        0, 1, 255, 255, 255, 251, 0,
    ];
    let listed = Listed::read(3, &arcs[0..1], &pairs).expect(&rt, "within the limits");
    let message = Message::read(&bytes).expect(&rt, "accepted");
    for at in 0..2 {
        assert_eq!(rt; listed.fixed_arc(at), message.fixed_arc(at));
    }
    for arm in 0..4 {
        assert_eq!(rt; listed.arm(0, arm), message.arm(0, arm));
    }
    assert_eq!(rt; message.arm(0, 2), Some(arcs[1]));
    assert_eq!(rt; message.arm(1, 1), None);
    let refused = Listed::read(2, &arcs, &[]).map(|source| source.end());
    assert_eq!(rt; refused, Err(CaseFault::UnknownEvent(0)));
    let refused = Message::read(&bytes[0..36]).map(|source| source.end());
    assert_eq!(rt; refused, Err(MessageFault::Length));
    assert_eq!(rt; Message::over(&bytes[0..36]).end(), 1);
}

#[test]
fn room_to_write(rt: HostRuntime) {
    let source = Message::over(&EMPTY);
    let mut short = [7; 9];
    assert_eq!(rt;
        write_message(&source, &mut short),
        Err(MessageFault::NoRoom(10))
    );
    assert_eq!(rt; short, [7; 9]);
    let mut out = [7; 12];
    assert_eq!(rt; write_message(&source, &mut out), Ok(10));
    assert_eq!(rt; out, [0, 0, 0, 6, 1, 0, 1, 0, 0, 0, 7, 7]);
}
