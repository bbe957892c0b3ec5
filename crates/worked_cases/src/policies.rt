//! Choices that were worked out apart, by a program that draws its numbers as O'Neill (2014)
//! published them, and each call once.

ghost use Rattle.std.specs.Prelude.{◌≡◌, ◌<◌, length};
ghost use Rattle.tuple_span.specs.declared.route.Via.TheVariants as via;
ghost use Rattle.tuple_span.specs.declared.route.Route.TheVariants as route;
ghost use Rattle.route_policy.specs.Routes.{AreChoices};

use route_policy::{
    AnyPolicy, Greedy, Lottery, Policy, PolicyCall, Pressure, Recorder, RouteScript, ScriptFault,
};
use std::alloc::{AllocError, Global};
use std::test::Fail;
use tuple_span::{Route, Tuple, Via};

/// A probe.
fn probe(alias: u8, via: Via) -> Route
    ensures { result ≡ route.Probe alias via }
{
    Route::Probe { alias, via }
}

/// The probe of all entries of an alias.
fn all(alias: u8) -> Route
    ensures { result ≡ route.Probe alias via.All }
{
    probe(alias, Via::All)
}

/// The routes of a turn: four lists that come round, one for each class.
fn routes(step: u64) -> [Route; 6]
    ensures choices { AreChoices result }
{
    match step % 4 {
        0 => [
            Route::Select(0),
            Route::Select(5),
            Route::Build { alias: 2 },
            probe(1, Via::Equal(3)),
            all(3),
            probe(4, Via::Literal(7)),
        ],
        1 => [
            probe(0, Via::Literal(1)),
            probe(1, Via::Literal(2)),
            probe(2, Via::Range(3)),
            all(2),
            probe(1, Via::Literal(9)),
            probe(5, Via::Literal(4)),
        ],
        2 => [all(2), all(1), all(0), all(11), all(2), all(3)],
        _ => [
            probe(1, Via::Range(0)),
            all(1),
            probe(2, Via::Range(47)),
            probe(0, Via::Range(1)),
            all(4),
            probe(4, Via::Range(2)),
        ],
    }
}

/// Whether the choice of a turn is shown: the first thirty, and those round the 256th and 512th.
fn is_shown(turn: u64) -> bool {
    turn < 30 || (250 <= turn && turn < 265) || (506 <= turn && turn < 521)
}

/// How many tuples come of the choice of a turn.
fn count(turn: u64) -> u64 {
    if turn % 16 == 5 {
        1500
    } else {
        turn % 5 * 7 % 5
    }
}

/// The places that a policy chooses in 521 turns, as far as they are shown. Each third turn it is
/// told what came back.
fn choices<P: Policy>(alloc: Global, policy: &mut P) -> Result<String, AllocError> {
    let tuple = Tuple::single(0, 0);
    let mut shown = String::new(alloc);
    for turn in 0..521 {
        let legal = routes(turn);
        let choice = policy.choose(&tuple, &legal);
        if is_shown(turn) {
            shown.push(char::from(b'0' + choice as u8))?;
        }
        if turn % 3 == 0 {
            policy.returned(legal[choice], count(turn));
        }
    }
    Ok(shown)
}

#[test]
fn policies_choose_as_worked_out(rt: HostRuntime) -> Result<(), Fail> {
    let alloc = rt.alloc();
    let seeds = [
        (
            0,
            "352004131000111224133135203205533112304014350022502304325222",
        ),
        (
            1,
            "242335052443104220030023200224452545202324222022002200335000",
        ),
        (
            u64::MAX,
            "242320032050250011101115355515323112040034153023402140220001",
        ),
    ];
    for (seed, expected) in seeds {
        let shown = choices(alloc, &mut Lottery::new(seed))?;
        assert_eq!(rt; shown.as_str(), expected, "of the seed {seed}");
    }
    let pressure = "000015350052155501050550013520351032003200550550032005210320";
    let shown = choices(alloc, &mut AnyPolicy::Pressure(Pressure::new()))?;
    assert_eq!(rt; shown.as_str(), pressure);
    Ok(())
}

#[test]
fn few_routes(rt: HostRuntime) {
    let tuple = Tuple::single(0, 0);
    let two = [Route::Select(0), Route::Build { alias: 0 }];
    let mut pressure = Pressure::new();
    assert_eq!(rt; pressure.choose(&tuple, &two), 0);
    assert_eq!(rt; pressure.choose(&tuple, &two), 1);
    pressure.returned(Route::Select(0), 5);
    assert_eq!(rt; pressure.choose(&tuple, &two), 1);
    let mut lottery = AnyPolicy::Lottery(Lottery::new(1));
    for turn in 0..300 {
        assert_eq!(rt; lottery.asked(), turn);
        assert_eq!(rt; lottery.choose(&tuple, &two[..1]), 0);
    }
    assert_eq!(rt; lottery.asked(), 300);
}

/// Tells a greedy policy what came of the route at a place, and asks it again.
fn after(greedy: &mut Greedy, legal: &[Route], place: usize, count: u64) -> usize
    requires choices { AreChoices legal.now }
    requires within { place < length legal.now }
    ensures { result < length legal.now }
{
    greedy.returned(legal[place], count);
    greedy.choose(&Tuple::single(0, 0), legal)
}

#[test]
fn greedy_arrivals(rt: HostRuntime) {
    let mut greedy = Greedy::new();
    let legal = [
        Route::Select(3),
        Route::Select(5),
        Route::Build { alias: 2 },
    ];
    assert_eq!(rt; greedy.choose(&Tuple::single(0, 0), &legal), 0);
    // each selection is expected to keep 64 of 1,024, and then the first one 60
    assert_eq!(rt; after(&mut greedy, &legal, 0, 1), 1);
    assert_eq!(rt; after(&mut greedy, &legal, 1, 1), 0);
    assert_eq!(rt; after(&mut greedy, &legal, 0, 0), 0);
    // 120 where it kept more than the other; of a build nothing is learnt
    assert_eq!(rt; after(&mut greedy, &legal, 0, 1), 1);
    assert_eq!(rt; after(&mut greedy, &legal[2..], 0, 1), 0);
    assert_eq!(rt; greedy.asked(), 6);
}

#[test]
fn greedy_kills_and_probes(rt: HostRuntime) {
    let tuple = Tuple::single(0, 0);
    let mut greedy = Greedy::new();
    let legal = [
        probe(1, Via::Equal(0)),
        all(1),
        probe(4, Via::Equal(7)),
        all(4),
    ];
    assert_eq!(rt; greedy.choose(&tuple, &legal), 1);
    greedy.returned(all(1), 9);
    greedy.touched(1);
    assert_eq!(rt; greedy.choose(&tuple, &legal), 3);
    greedy.touched(4);
    // (clock 1) nothing is expected of either
    assert_eq!(rt; greedy.choose(&tuple, &legal), 0);
    // (2) 192 - 4 beside 0
    assert_eq!(rt; after(&mut greedy, &legal, 0, 3), 2);
    // (3) 192 - 8 beside 320 - 4
    assert_eq!(rt; after(&mut greedy, &legal, 2, 5), 0);
    // (4) 372 - 4 beside 320 - 8
    assert_eq!(rt; after(&mut greedy, &legal, 0, 3), 2);
    // (5) 372 - 8 beside 620 - 4
    assert_eq!(rt; after(&mut greedy, &legal, 2, 5), 0);
    // a candidate alone: the clock stays
    assert_eq!(rt; greedy.choose(&tuple, &legal[2..]), 0);
    // (6) 540 - 4 beside 620 - 8
    assert_eq!(rt; after(&mut greedy, &legal, 0, 3), 0);
    // (7) nearly 2 ^ 28 - 4 beside 620 - 12
    assert_eq!(rt; after(&mut greedy, &legal, 0, u64::MAX), 2);
    assert_eq!(rt; greedy.asked(), 10);
}

#[test]
fn scripts_choose_as_worked_out(rt: HostRuntime) -> Result<(), Fail> {
    let alloc = rt.alloc();
    let tuple = Tuple::single(0, 0);
    let cases = [
        ("", "0000"),
        ("b", "2000"),
        ("s5", "1000"),
        ("a3", "4050"),
        ("v3", "3200"),
        ("v0", "0000"),
        ("a0,a1", "0021"),
        ("s7,v7", "5000"),
        ("v9,s5,b", "1400"),
        ("v47,a4", "0002"),
        ("a4,v2", "0104"),
        ("a11", "0030"),
        ("s0,v1,a1,v2", "0013"),
    ];
    for (text, expected) in cases {
        let mut script = AnyPolicy::Script(RouteScript::read(text)?);
        let mut shown = String::new(alloc);
        for turn in 0..4 {
            let choice = script.choose(&tuple, &routes(turn));
            shown.push(char::from(b'0' + choice as u8))?;
        }
        script.returned(all(0), 1);
        assert_eq!(rt; shown.as_str(), expected, "of {text}");
        assert_eq!(rt; script.asked(), 4);
    }
    Ok(())
}

#[test]
fn bands_are_chosen(rt: HostRuntime) -> Result<(), Fail> {
    let tuple = Tuple::single(0, 0);
    let legal = [
        probe(1, Via::Range(2)),
        all(1),
        probe(1, Via::Band(2)),
        probe(3, Via::Band(7)),
        probe(2, Via::Literal(5)),
    ];
    // the place among all five, and among the first four
    let scripts = [
        ("", 4, 2),
        ("w2", 2, 2),
        ("v2", 0, 0),
        ("w7", 3, 3),
        ("v7,w3", 4, 2),
        ("w8,v7,a1", 1, 1),
    ];
    for (text, five, four) in scripts {
        let mut script = RouteScript::read(text)?;
        assert_eq!(rt; script.choose(&tuple, &legal), five, "of {text}");
        assert_eq!(rt; script.choose(&tuple, &legal[..4]), four, "of {text}");
    }
    let mut pressure = Pressure::new();
    assert_eq!(rt; pressure.choose(&tuple, &legal), 4);
    assert_eq!(rt; pressure.choose(&tuple, &legal[..4]), 2);
    assert_eq!(rt; pressure.choose(&tuple, &legal[..4]), 3);
    // a kill, then nothing is expected of either band, and then 192 - 4 beside 0
    let mut greedy = Greedy::new();
    assert_eq!(rt; greedy.choose(&tuple, &legal[..4]), 1);
    greedy.touched(1);
    assert_eq!(rt; greedy.choose(&tuple, &legal[..4]), 2);
    assert_eq!(rt; after(&mut greedy, &legal[..4], 2, 3), 3);
    let mut lottery = Lottery::new(1);
    for _ in 0..40 {
        let place = lottery.choose(&tuple, &legal[..4]);
        assert_eq!(rt; place == 2 || place == 3, true);
    }
    Ok(())
}

/// So many words `b` with a comma behind each, and a last word.
fn long_script(alloc: Global, count: u64, last: &str) -> Result<String, AllocError> {
    let mut text = String::new(alloc);
    for _ in 0..count {
        text.push_str("b,")?;
    }
    text.push_str(last)?;
    Ok(text)
}

#[test]
fn scripts_are_read(rt: HostRuntime) -> Result<(), Fail> {
    let alloc = rt.alloc();
    let in_form = [
        "",
        "b",
        "s0,s47,a0,a11,v0,v47,b,s9,v10",
        "b,b",
        "w0,w47,v3,w10",
    ];
    for text in in_form {
        assert_eq!(rt; RouteScript::read(text).err(), None, "of {text}");
    }
    let bad = [
        ("b,", 2),
        ("b,q", 2),
        (",b", 0),
        ("a12", 0),
        ("v48", 0),
        ("s48", 0),
        ("s00", 0),
        ("s07", 0),
        ("s", 0),
        ("S1", 0),
        ("b1", 0),
        ("s1 ", 0),
        ("v+1", 0),
        ("s:", 0),
        ("v/", 0),
        ("w", 0),
        ("w48", 0),
        ("w07", 0),
        ("b,w1w", 2),
        ("a9,v10,sx,q", 7),
        ("v7,s123", 3),
        ("s1,é", 3),
    ];
    for (text, at) in bad {
        let expected = Some(ScriptFault::BadWord { at });
        assert_eq!(rt; RouteScript::read(text).err(), expected, "of {text}");
    }
    let long = [
        (63, "b", None),
        (64, "b", Some(ScriptFault::TooLong)),
        (64, "q", Some(ScriptFault::TooLong)),
        (63, "q", Some(ScriptFault::BadWord { at: 126 })),
    ];
    for (count, last, expected) in long {
        let text = long_script(alloc, count, last)?;
        assert_eq!(rt;
            RouteScript::read(text.as_str()).err(),
            expected,
            "of {count} words and {last}"
        );
    }
    let bad_word = ScriptFault::BadWord { at: 2 }.to_string(alloc)?;
    assert_eq!(rt; bad_word.as_str(), "no route word at byte 2");
    let too_long = ScriptFault::TooLong.to_string(alloc)?;
    assert_eq!(rt; too_long.as_str(), "more than 64 route words");
    Ok(())
}

/// Takes what threads may hand to each other.
fn crosses_threads<T: Send>(_value: &T) {}

#[test]
fn recorders_keep_the_first_calls(rt: HostRuntime) -> Result<(), Fail> {
    let alloc = rt.alloc();
    let tuple = Tuple::single(3, 8);
    let legal = [all(1), probe(1, Via::Equal(0))];
    let mut recorder = Recorder::new(alloc, AnyPolicy::Script(RouteScript::read("v0")?), 3)?;
    crosses_threads(&recorder);
    for count in 0..2 {
        assert_eq!(rt; recorder.choose(&tuple, &legal), 1);
        recorder.returned(all(1), count);
    }
    assert_eq!(rt; recorder.asked(), 2);
    let calls = recorder.calls();
    assert_eq!(rt; calls.len(), 3);
    for (place, call) in calls.iter().enumerate() {
        match call {
            PolicyCall::Chose {
                tuple,
                legal: shown,
                choice,
            } => {
                assert!(rt; place % 2 == 0);
                assert_eq!(rt; tuple.part(3), Some(8));
                assert_eq!(rt; shown.as_slice(), legal.as_slice());
                assert_eq!(rt; *choice, 1);
            }
            PolicyCall::Returned { route, count } => {
                assert_eq!(rt; place, 1);
                assert_eq!(rt; *route, all(1));
                assert_eq!(rt; *count, 0);
            }
        }
    }
    Ok(())
}
