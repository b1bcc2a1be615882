// Halls of three gates of which any one may be broken, with cues worked out by hand.
use agreement::stage::{Answer, Stage};
use hall::call::Call;
use hall::parts::Hall;
use hall::replay::replay;
use hall::state::State;
use refusals::Refusal;
use rig_kinds::noise::NoiseRig;
use rig_kinds::script::ScriptRig;
use rigs::VOID;
use rules::count::CountRule;
use sets::{all, contains, without};
use std::alloc::Global;
use std::test::Fail;
use words::WordKind;
use words::gate::Gate;
use words::scene::Scene;

// The entries of the script, the take, what all hold after round 2, which lamps are lit after round 3, and what all end on,
// where station 0 is broken and opens with HOLD.
const CUES: [(&[u16], u16, u16, u16, Gate); 4] = [
    (&[1], 0, 1, 7, Gate::Go),
    (&[0, 1], 0, 0, 7, Gate::Hold),
    (&[0, 1], 1, 1, 7, Gate::Go),
    (&[7, 1, 0, 7], 0, VOID, 0, Gate::Hold),
];

// A hall of three gates that rest on HOLD, on a script rig with these entries.
fn three_gates(heap: Global, entries: &[u16]) -> Result<Hall<ScriptRig, CountRule, Gate>, Fail> {
    let rig = ScriptRig {
        list: entries.to_vec(heap)?,
    };
    let rule = CountRule::new(3, 1)?;
    Ok(Hall::new(rig, rule, Gate::Hold))
}

#[test]
fn cues_by_hand(rt: HostRuntime) -> Result<(), Fail> {
    for (entries, take, after_two, lit, word) in CUES {
        let mut hall = three_gates(rt.alloc(), entries)?;
        let mut sheet = [9; 4100];
        hall.mark(0)?;
        hall.open(take, 0, Gate::Hold)?;
        hall.round(&mut sheet)?;
        hall.round(&mut sheet)?;
        assert!(rt; hall.state().held[0..3] == [after_two; 3]);
        hall.round(&mut sheet)?;
        assert_eq!(rt; hall.state().lamps, lit);
        hall.round(&mut sheet)?;
        assert!(rt; hall.read(0) == Ok(word));
        assert!(rt; hall.read(1) == Ok(word));
        assert!(rt; hall.read(2) == Ok(word));
        assert_eq!(rt; sheet[4096], 9);
    }
    Ok(())
}

// What a hall has at its making, before any call.
#[test]
fn a_new_hall(rt: HostRuntime) -> Result<(), Fail> {
    let hall = three_gates(rt.alloc(), &[1])?;
    assert!(rt; hall.state().stage == Stage::Idle);
    assert_eq!(rt; hall.state().broken, 0);
    assert!(rt; hall.state().held == [VOID; 16]);
    assert_eq!(rt; hall.state().lamps, 0);
    hall.agrees();
    Ok(())
}

// Each call on an idle hall, and what refuses it first.
#[test]
fn calls_when_idle(rt: HostRuntime) -> Result<(), Fail> {
    let mut hall = three_gates(rt.alloc(), &[1])?;
    let mut sheet = [9; 4096];
    assert_eq!(rt; hall.round(&mut sheet), Err(Refusal::NotRunning));
    assert_eq!(rt; hall.strike(), Err(Refusal::Idle));
    assert_eq!(rt; hall.read(0).err(), Some(Refusal::NotDecided));
    assert_eq!(rt; hall.lamp(3), Err(Refusal::Idle));
    assert_eq!(rt; hall.mark(3), Err(Refusal::NoSuchStation));
    assert_eq!(rt; hall.clear(65535), Err(Refusal::NoSuchStation));
    assert_eq!(rt; hall.open(0, 3, Gate::Go), Err(Refusal::NoSuchStation));
    hall.mark(2)?;
    assert_eq!(rt; hall.mark(1), Err(Refusal::TooManyBroken));
    assert_eq!(rt; hall.state().broken, 4);
    hall.clear(2)?;
    assert_eq!(rt; hall.state().broken, 0);
    hall.open(0, 0, Gate::Go)?;
    Ok(())
}

// Each call on a running hall, and what refuses it first.
#[test]
fn calls_while_running(rt: HostRuntime) -> Result<(), Fail> {
    let mut hall = three_gates(rt.alloc(), &[1])?;
    let mut sheet = [9; 4096];
    hall.open(0, 0, Gate::Go)?;
    assert_eq!(rt; hall.open(0, 0, Gate::Go), Err(Refusal::NotIdle));
    assert_eq!(rt; hall.mark(3), Err(Refusal::NoSuchStation));
    hall.mark(2)?;
    assert_eq!(rt; hall.mark(1), Err(Refusal::TooManyBroken));
    assert_eq!(rt; hall.clear(2), Err(Refusal::NotIdle));
    assert_eq!(rt; hall.read(3).err(), Some(Refusal::NotDecided));
    assert_eq!(rt; hall.lamp(3), Err(Refusal::NoSuchStation));
    assert_eq!(rt; hall.lamp(0), Ok(0));
    assert_eq!(rt;
        hall.round(&mut sheet[0..4095]),
        Err(Refusal::SheetTooShort)
    );
    hall.round(&mut sheet)?;
    hall.strike()?;
    assert!(rt; hall.state().stage == Stage::Idle);
    assert!(rt; hall.state().held == [VOID; 16]);
    assert_eq!(rt; hall.state().broken, 4);
    Ok(())
}

// Each call on a decided hall, and what refuses it first.
#[test]
fn calls_when_decided(rt: HostRuntime) -> Result<(), Fail> {
    let mut hall = three_gates(rt.alloc(), &[1])?;
    let mut sheet = [9; 4096];
    hall.mark(2)?;
    hall.open(0, 0, Gate::Go)?;
    for _ in 0..4 {
        hall.round(&mut sheet)?;
    }
    assert_eq!(rt; hall.open(0, 3, Gate::Go), Err(Refusal::NotIdle));
    assert_eq!(rt; hall.round(&mut sheet), Err(Refusal::NotRunning));
    assert_eq!(rt; hall.mark(3), Err(Refusal::NoSuchStation));
    assert_eq!(rt; hall.mark(1), Err(Refusal::TooManyBroken));
    hall.mark(2)?;
    assert_eq!(rt; hall.clear(2), Err(Refusal::NotIdle));
    assert_eq!(rt; hall.read(3).err(), Some(Refusal::NoSuchStation));
    assert!(rt; hall.read(1) == Ok(Gate::Go));
    assert_eq!(rt; hall.lamp(3), Err(Refusal::NoSuchStation));
    assert_eq!(rt; hall.lamp(1), Ok(1));
    hall.strike()?;
    assert!(rt; hall.state().held == [VOID; 16]);
    assert_eq!(rt; hall.state().broken, 4);
    hall.clear(2)?;
    assert_eq!(rt; hall.state().broken, 0);
    Ok(())
}

// What was seen of the cue that is on: the stations that were good all along, and the caller's word.
#[derive(Clone, Copy)]
struct Watch {
    good: u16,
    caller: u8,
    word: Scene,
}

// The next number of a series.
fn next(number: u32) -> u32 {
    number.wrapping_mul(1664525).wrapping_add(1013904223)
}

// Whether all stations of the set hold this code.
fn all_hold(held: &[u16; 16], set: u16, code: u16) -> bool {
    (0..16).all(|p| !contains(set, p) || held.get(usize::from(p)) == Some(&code))
}

// Whether the stations of the set all hold one code.
fn alike(held: &[u16; 16], set: u16) -> bool {
    held.iter().any(|code| all_hold(held, set, *code))
}

// Whether what the hall holds is as it was promised: once the cue is decided the good stations hold one word, the caller's if he was good
// all along; and where the lamp of a good one is lit behind a graded round, all good ones agree.
fn keeps_its_promises(state: State, watch: Watch) -> bool {
    let kept = match state.stage {
        Stage::Decided => alike(&state.held, watch.good),
        Stage::Running { rounds, .. } => {
            rounds == 0
                || rounds % 3 != 0
                || state.lamps & watch.good == 0
                || alike(&state.held, watch.good)
        }
        Stage::Idle => true,
    };
    let decided = state.stage == Stage::Decided;
    kept && (!decided
        || !contains(watch.good, watch.caller)
        || all_hold(&state.held, watch.good, watch.word.encode()))
}

// Cues of seven stations of which any three may be broken, on noise: 60 cues of each of 12 seeds, with marks in their midst.
#[test]
fn random_histories(rt: HostRuntime) -> Result<(), Fail> {
    let mut number = 2026;
    let mut sheet = [0; 4096];
    for seed in 0..12 {
        let rule = CountRule::new(7, 3)?;
        let mut hall = Hall::new(NoiseRig { seed }, rule, Scene::new(0, 5)?);
        for _ in 0..60 {
            number = next(number);
            let word = Scene::new(0, (number >> 20) as u16 % 64)?;
            let caller = (number >> 18) as u16 % 7;
            hall.open(seed as u16, caller, word)?;
            let mut watch = Watch {
                good: all(7) & !hall.state().broken,
                caller: caller as u8,
                word,
            };
            for _ in 0..13 {
                number = next(number);
                let station = (number >> 16) as u16 % 7;
                if number % 5 == 0 && hall.mark(station).is_ok() {
                    watch.good = without(watch.good, station as u8);
                }
                let _ = hall.round(&mut sheet);
                assert!(rt; keeps_its_promises(hall.state(), watch));
            }
            assert!(rt; hall.state().stage == Stage::Decided);
            hall.strike()?;
            number = next(number);
            let _ = hall.clear((number >> 16) as u16 % 7);
            let _ = hall.clear((number >> 20) as u16 % 7);
        }
    }
    Ok(())
}

// The first of the worked cues as one list of calls, with a refused one at its end.
#[test]
fn a_history_replayed(rt: HostRuntime) -> Result<(), Fail> {
    let rig = ScriptRig {
        list: [1].to_vec(rt.alloc())?,
    };
    let calls = [
        Call::Mark(0),
        Call::Open {
            take: 0,
            caller: 0,
            word: Gate::Hold,
        },
        Call::Round,
        Call::Round,
        Call::Round,
        Call::Round,
        Call::Read(1),
        Call::Lamp(2),
        Call::Clear(0),
    ];
    let mut sheet = [9; 4096];
    let run = replay(
        rt.alloc(),
        rig,
        CountRule::new(3, 1)?,
        Gate::Hold,
        &calls,
        &mut sheet,
    )?;
    let answers = run.steps.as_slice();
    assert_eq!(rt; answers.len(), 9);
    assert!(rt; matches!(answers[0].answer, Ok(Answer::Done)));
    assert!(rt; matches!(answers[6].answer, Ok(Answer::Word(Gate::Go))));
    assert!(rt; matches!(answers[7].answer, Ok(Answer::Lit(1))));
    assert!(rt; matches!(answers[8].answer, Err(Refusal::NotIdle)));
    assert!(rt; run.hall.state().stage == Stage::Decided);
    Ok(())
}
