use graph::{Arc, CaseSource};
use railway::{Railway, check_railway};
use std::process::Abort;
use std::test::Fail;
use trains::{Kind, RailwayFault, Step, Train, UnknownKind};

fn train(kind: Kind, entry: u32, due: u32, steps: u8) -> Train {
    Train {
        kind,
        entry,
        due,
        steps,
    }
}

fn step(section: u8, running: u16) -> Step {
    Step { section, running }
}

fn arc(from: u16, to: u16, weight: i32, mark: u8) -> Arc {
    Arc {
        from,
        to,
        weight,
        mark,
    }
}

/// Compares all that a source answers with the arcs and the pairs that are expected, and asks one past the last of each.
fn compare<'a>(
    rt: &impl Abort,
    trains: &'a [Train],
    steps: &'a [Step],
    end: usize,
    fixed: &[Arc],
    pairs: &[(Arc, Arc)],
) {
    assert_eq!(rt; check_railway(trains, steps), Ok(()));
    let source = Railway::over(trains, steps);
    let copy = source;
    assert_eq!(rt; source.end(), end);
    assert_eq!(rt; source.fixed_count(), fixed.len());
    assert_eq!(rt; source.pair_count(), pairs.len());
    for (at, arc) in fixed.iter().enumerate() {
        assert_eq!(rt; copy.fixed_arc(at), Some(*arc));
    }
    for (at, (first, second)) in pairs.iter().enumerate() {
        assert_eq!(rt; copy.arm(at, 0), None);
        assert_eq!(rt; copy.arm(at, 1), Some(*first));
        assert_eq!(rt; copy.arm(at, 2), Some(*second));
        assert_eq!(rt; copy.arm(at, 3), None);
    }
    assert_eq!(rt; copy.fixed_arc(fixed.len()), None);
    assert_eq!(rt; copy.arm(pairs.len(), 1), None);
}

/// Two light engines, one each way through sections 1 and 2.
#[test]
fn engines_meet(rt: HostRuntime) {
    let engine = train(Kind::LightEngine, 0, 120, 2);
    let steps = [step(1, 60), step(2, 60), step(2, 60), step(1, 60)];
    let fixed = [
        arc(0, 1, 0, 0),
        arc(1, 2, 60, 0),
        arc(2, 3, 60, 0),
        arc(3, 7, -120, 0),
        arc(0, 4, 0, 0),
        arc(4, 5, 60, 0),
        arc(5, 6, 60, 0),
        arc(6, 7, -120, 0),
    ];
    let pairs = [
        (arc(2, 5, 0, 1), arc(6, 1, 0, 1)),
        (arc(3, 4, 0, 1), arc(5, 2, 0, 1)),
    ];
    compare(&rt, &[engine, engine], &steps, 7, &fixed, &pairs);
}

/// A loaded ore train and a staff train on section 5: each separation is that of the kind that goes first.
#[test]
fn ore_meets_staff(rt: HostRuntime) {
    let trains = [
        train(Kind::LoadedOre, 0, 300, 1),
        train(Kind::Staff, 60, 200, 1),
    ];
    let fixed = [
        arc(0, 1, 0, 0),
        arc(1, 2, 300, 0),
        arc(2, 5, -300, 0),
        arc(0, 3, 60, 0),
        arc(3, 4, 100, 0),
        arc(4, 5, -200, 0),
    ];
    let pairs = [(arc(2, 3, 150, 1), arc(4, 1, 90, 1))];
    compare(
        &rt,
        &trains,
        &[step(5, 300), step(5, 100)],
        5,
        &fixed,
        &pairs,
    );
}

/// The exit weighs the unhindered exit where the train is due before it, and a railway may have no trains.
#[test]
fn corners(rt: HostRuntime) {
    let late = [train(Kind::HotMetal, 40, 50, 1)];
    let fixed = [arc(0, 1, 40, 0), arc(1, 2, 60, 0), arc(2, 3, -100, 0)];
    compare(&rt, &late, &[step(0, 60)], 3, &fixed, &[]);
    compare(&rt, &[], &[], 1, &[], &[]);
    assert_eq!(rt;
        check_railway(&[], &[step(0, 60)]),
        Err(RailwayFault::Steps(1))
    );
}

/// Each limit of a train and of a step, and the number of steps, on both sides.
#[test]
fn limits(rt: HostRuntime) {
    let kind = Kind::EmptyOre;
    let rows = [
        (train(kind, 0, 0, 1), step(0, 1), 1, Ok(())),
        (train(kind, 86_400, 86_400, 16), step(63, 3_600), 16, Ok(())),
        (
            train(kind, 86_401, 0, 1),
            step(0, 1),
            1,
            Err(RailwayFault::Train(0)),
        ),
        (
            train(kind, 0, 86_401, 1),
            step(0, 1),
            1,
            Err(RailwayFault::Train(0)),
        ),
        (
            train(kind, 0, 0, 0),
            step(0, 1),
            0,
            Err(RailwayFault::Train(0)),
        ),
        (
            train(kind, 0, 0, 17),
            step(0, 1),
            17,
            Err(RailwayFault::Train(0)),
        ),
        (
            train(kind, 0, 0, 2),
            step(0, 1),
            1,
            Err(RailwayFault::Steps(1)),
        ),
        (
            train(kind, 0, 0, 2),
            step(0, 1),
            3,
            Err(RailwayFault::Steps(3)),
        ),
        (
            train(kind, 0, 0, 1),
            step(64, 1),
            1,
            Err(RailwayFault::Step(0)),
        ),
        (
            train(kind, 0, 0, 1),
            step(0, 0),
            1,
            Err(RailwayFault::Step(0)),
        ),
        (
            train(kind, 0, 0, 1),
            step(0, 3_601),
            1,
            Err(RailwayFault::Step(0)),
        ),
    ];
    for (train, step, count, told) in rows {
        let steps = [step; 17];
        assert!(rt; count <= 17);
        assert_eq!(rt; check_railway(&[train], &steps[0..count]), told);
    }
}

/// Thirteen steps, each on a section of its own.
fn apart() -> [Step; 13] {
    let mut steps = [step(0, 60); 13];
    for (at, step) in steps.iter_mut().enumerate() {
        step.section = at as u8;
    }
    steps
}

fn first_twelve(trains: &[Train; 13], steps: &[Step; 13]) -> Result<(), RailwayFault> {
    check_railway(&trains[0..12], &steps[0..12])
}

/// Twelve trains are taken and thirteen refused; the train and the step that break a limit are named.
#[test]
fn trains_are_counted(rt: HostRuntime) {
    let mut trains = [train(Kind::Staff, 0, 0, 1); 13];
    let mut steps = apart();
    assert_eq!(rt; first_twelve(&trains, &steps), Ok(()));
    assert_eq!(rt;
        check_railway(&trains, &steps),
        Err(RailwayFault::TooManyTrains)
    );
    steps[7].running = 0;
    assert_eq!(rt; first_twelve(&trains, &steps), Err(RailwayFault::Step(7)));
    trains[5].due = 86_401;
    assert_eq!(rt; first_twelve(&trains, &steps), Err(RailwayFault::Train(5)));
}

/// Six steps of one train meet ten of another on section 1; the third train may meet one more, on section 2.
#[test]
fn pairs_are_counted(rt: HostRuntime) {
    let kind = Kind::LoadedOre;
    let trains = [
        train(kind, 0, 0, 7),
        train(kind, 0, 0, 10),
        train(kind, 0, 0, 1),
    ];
    let mut steps = [step(1, 60); 18];
    steps[6].section = 2;
    steps[17].section = 3;
    assert_eq!(rt; check_railway(&trains, &steps), Ok(()));
    assert_eq!(rt; Railway::over(&trains, &steps).pair_count(), 60);
    let read = Railway::read(&trains, &steps).map(|railway| railway.pair_count());
    assert_eq!(rt; read, Ok(60));
    steps[17].section = 2;
    assert_eq!(rt;
        check_railway(&trains, &steps),
        Err(RailwayFault::TooManyPairs)
    );
    let told = Railway::read(&trains, &steps).map(|railway| railway.end());
    assert_eq!(rt; told, Err(RailwayFault::TooManyPairs));
    let refused = Railway::over(&trains, &steps);
    assert_eq!(rt; refused.end(), 1);
    assert_eq!(rt; refused.fixed_count(), 0);
    assert_eq!(rt; refused.pair_count(), 0);
}

/// The kinds by number, and the number past the last.
#[test]
fn kinds_are_numbered(rt: HostRuntime) -> Result<(), Fail> {
    for number in 0..5u8 {
        let kind = Kind::try_from(number)?;
        assert_eq!(rt; u8::from(kind), number);
    }
    assert_eq!(rt; Kind::try_from(5), Err(UnknownKind));
    assert_eq!(rt; Kind::HotMetal.separation(Kind::HotMetal), 240);
    assert_eq!(rt; Kind::LightEngine.separation(Kind::EmptyOre), 50);
    Ok(())
}

/// The words of the kinds, and their names with a blank.
#[test]
fn kinds_are_named(rt: HostRuntime) -> Result<(), Fail> {
    let words = [
        "loaded-ore",
        "empty-ore",
        "hot-metal",
        "staff",
        "light-engine",
    ];
    let names = [
        "loaded ore",
        "empty ore",
        "hot metal",
        "staff",
        "light engine",
    ];
    for (word, name) in words.iter().zip(names) {
        let kind = word.parse::<Kind>()?;
        assert_eq!(rt; kind.to_string(rt.alloc())?.as_str(), name);
    }
    assert_eq!(rt; "loaded ore".parse::<Kind>(), Err(UnknownKind));
    Ok(())
}
