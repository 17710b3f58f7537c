use crate::{AtDepthZero, Case, marked_cases};
use policies::{DepthIsolation, WriteOrExecute};
use rulebook::{
    Alone, Cache, Denial, Group, Half, Narrow, NarrowAnswer, Pair, Question, Rulebook, Tags,
};
use std::test::Fail;
use transcript::{read_numbers, read_question};

#[test]
fn marked_cases_run(rt: HostRuntime) {
    for case in marked_cases() {
        match case {
            Case::Asked { question, answer } => {
                let mut alone = Alone {
                    rules: DepthIsolation,
                };
                assert_eq!(rt; alone.ask(question), answer);
            }
            Case::Computed { op, x, y, result } => assert_eq!(rt; op.apply(x, y), result),
        }
    }
}

// group, pc, ci, a, b and m
fn question(group: Group, tags: [u32; 5]) -> Question {
    let [pc, ci, a, b, m] = tags;
    Question {
        group,
        pc,
        ci,
        a,
        b,
        m,
    }
}

#[test]
fn each_violation_of_depth_isolation(rt: HostRuntime) {
    let cases = [
        (Group::Fetch, [256, 16, 0, 0, 0], 1),
        (Group::Fetch, [0, 1, 0, 0, 0], 2),
        (Group::Move, [0, 16, 256, 0, 0], 3),
        (Group::Load, [2, 16, 0, 0, 257], 4),
        (Group::Load, [0, 16, 0, 0, 1], 5),
        (Group::Store, [0, 16, 0, 0, 17], 6),
        (Group::Store, [1, 16, 512, 0, 0], 7),
        (Group::Store, [1, 17, 512, 0, 257], 8),
        (Group::Call, [255, 16, 0, 0, 0], 9),
        (Group::Ret, [2, 16, 512, 0, 0], 10),
    ];
    for (group, tags, violation) in cases {
        let answer = DepthIsolation.decide(question(group, tags));
        assert_eq!(rt; answer, Err(violation));
    }
}

#[test]
fn each_violation_of_write_or_execute(rt: HostRuntime) {
    let allowed = Ok(Tags { pc: 0, r: 0 });
    let cases = [
        (Group::Load, [0, 1, 0, 0, 0], allowed),
        (Group::Post, [0, 0, 0, 0, 0], allowed),
        (Group::Load, [1, 0, 0, 0, 1], Err(1)),
        (Group::Add, [0, 1, 0, 1, 0], Err(1)),
        (Group::Load, [0, 0, 0, 0, 1], Err(2)),
        (Group::Store, [0, 1, 0, 0, 1], Err(3)),
    ];
    for (group, tags, answer) in cases {
        assert_eq!(rt; WriteOrExecute.decide(question(group, tags)), answer);
    }
}

// Whether a rulebook, of any violations, decides two questions alike. What it decides is copied, compared and let go.
fn agrees<N: Narrow>(rules: &N, p: Question, q: Question) -> bool {
    let once = rules.decide(p);
    let again = once;
    once == again && again == rules.decide(q)
}

#[test]
fn what_a_narrow_rulebook_decides_is_compared(rt: HostRuntime) {
    let here = question(Group::Load, [0, 16, 0, 0, 0]);
    let below = question(Group::Load, [1, 16, 0, 0, 0]);
    let beyond = question(Group::Load, [256, 16, 0, 0, 0]);
    assert!(rt; agrees(&DepthIsolation, here, here));
    assert!(rt; !agrees(&DepthIsolation, here, below));
    assert!(rt; agrees(&WriteOrExecute, below, beyond));
    assert!(rt; !agrees(&WriteOrExecute, here, below));
    assert!(rt; agrees(&AtDepthZero, below, beyond));
    let mut alone = Alone { rules: AtDepthZero };
    let denial = Denial {
        half: Half::Alone,
        violation: 3,
    };
    assert_eq!(rt; alone.ask(below), Err(denial));
    assert_eq!(rt; alone.ask(here), Ok(Tags { pc: 0, r: 0 }));
}

// One of several rulebooks, chosen when the program runs.
fn chosen(number: u32, q: Question) -> NarrowAnswer {
    let rules: &dyn Narrow = match number {
        0 => &DepthIsolation,
        1 => &WriteOrExecute,
        _ => &AtDepthZero,
    };
    rules.decide(q)
}

#[test]
fn a_narrow_rulebook_is_chosen_by_a_number(rt: HostRuntime) {
    let below = question(Group::Load, [1, 16, 0, 0, 0]);
    assert_eq!(rt; chosen(0, below), Ok(Tags { pc: 1, r: 0 }));
    assert_eq!(rt; chosen(1, below), Err(1));
    assert_eq!(rt; chosen(2, below), Err(3));
}

#[test]
fn a_pair_joins_tags_and_lets_the_lower_deny_first(rt: HostRuntime) {
    let mut pair = Pair {
        lower: WriteOrExecute,
        upper: DepthIsolation,
    };
    let cases = [
        (
            [0x0001_0000, 0x0010_0001, 0, 0, 0],
            Ok(Tags {
                pc: 0x0002_0000,
                r: 0x0201_0000,
            }),
        ),
        (
            [0x0001_0001, 0x0000_0001, 0, 0, 0],
            Err(Denial {
                half: Half::Lower,
                violation: 1,
            }),
        ),
        (
            [0x0001_0000, 0x0000_0001, 0, 0, 0],
            Err(Denial {
                half: Half::Upper,
                violation: 2,
            }),
        ),
    ];
    for (tags, answer) in cases {
        assert_eq!(rt; pair.ask(question(Group::Call, tags)), answer);
    }
}

#[test]
fn a_cache_remembers_the_first_64_different_allowed_answers(rt: HostRuntime) -> Result<(), Fail> {
    let mut cache = Cache::over(Alone {
        rules: DepthIsolation,
    });
    for pc in 0..300 {
        let q = question(Group::Fetch, [pc, 16, 0, 0, 0]);
        let answer = if pc < 256 {
            Ok(Tags { pc, r: 0 })
        } else {
            Err(Denial {
                half: Half::Alone,
                violation: 1,
            })
        };
        assert_eq!(rt; cache.ask(q), answer);
        assert_eq!(rt; cache.ask(q), answer);
    }
    assert_eq!(rt; cache.count(), 64);
    let Some(last) = cache.entry(63) else {
        return Err(Fail::new("63 is remembered"));
    };
    assert_eq!(rt; last.question.pc, 63);
    assert!(rt; cache.entry(64).is_none());
    Ok(())
}

#[test]
fn lines_of_six_numbers(rt: HostRuntime) {
    let cases: [(&[u8], Option<[u32; 6]>); 10] = [
        (b"1 2 3 4 5 6", Some([1, 2, 3, 4, 5, 6])),
        (b" \t 1  2\t3 4 5 6 \r", Some([1, 2, 3, 4, 5, 6])),
        (
            b"007 0 00 10 20 4294967295",
            Some([7, 0, 0, 10, 20, 4294967295]),
        ),
        (b"1 2 3 4 5 4294967296", None),
        (b"1 2 3 4 5", None),
        (b"1 2 3 4 5 6 7", None),
        (b"1 2 3 x 5 6", None),
        (b"1 2 3 -4 5 6", None),
        (b"+1 2 3 4 5 6", None),
        (b"", None),
    ];
    for (line, numbers) in cases {
        assert_eq!(rt; read_numbers(line), numbers);
    }
    assert!(rt; read_question(b"17 0 0 0 0 0").is_some());
    assert!(rt; read_question(b"18 0 0 0 0 0").is_none());
}
