// The rounds run on small halls, with outcomes worked out by hand.

#![tactic(auto)]

#[cfg(test)]
mod tests {
    use agreement::stage::RoundKind;
    use refusals::Refusal;
    use rig_kinds::noise::NoiseRig;
    use rigs::VOID;
    use rounds::graded::graded;
    use rounds::round::run;
    use rounds::start::Start;
    use rounds::weak::weak;
    use rules::count::CountRule;
    use std::test::Fail;
    use words::gate::Gate;
    use words::scene::Scene;

    // A round of a cue that station 2 of four has called, where none is broken and no lamp is lit.
    fn start(round: u8, held: [u16; 16]) -> Start {
        Start {
            take: 5,
            caller: 2,
            round,
            broken: 0,
            held,
            lamps: 0,
        }
    }

    // Where no station is broken, all take the caller's word, have it of every trio, hold it after every round, and light their lamps.
    #[test]
    fn good_stations_follow_the_caller(rt: HostRuntime) -> Result<(), Fail> {
        let rule = CountRule::new(4, 1)?;
        let rig = NoiseRig { seed: 7 };
        let mut sheet = [9; 4096];
        let mut held = [VOID; 16];
        held[0] = 0;
        held[1] = 0;
        held[2] = 1;
        held[3] = 0;
        let first = run(
            &rig,
            &rule,
            Gate::Hold,
            RoundKind::Caller,
            &start(1, held),
            &mut sheet,
        )?;
        assert_eq!(rt; first.held[0], 1);
        assert_eq!(rt; first.held[3], 1);
        assert_eq!(rt; first.held[4], VOID);
        assert_eq!(rt; first.lamps, 0);
        assert_eq!(rt; sheet[18], 9);
        let second = run(
            &rig,
            &rule,
            Gate::Hold,
            RoundKind::Weak,
            &start(2, first.held),
            &mut sheet,
        )?;
        assert_eq!(rt; second.held[0], 1);
        assert_eq!(rt; second.held[3], 1);
        assert_eq!(rt; sheet[18], 1);
        assert_eq!(rt; sheet[0], VOID);
        assert_eq!(rt; sheet[4], VOID);
        let third = run(
            &rig,
            &rule,
            Gate::Hold,
            RoundKind::Graded,
            &start(3, second.held),
            &mut sheet,
        )?;
        assert_eq!(rt; third.held[1], 1);
        assert_eq!(rt; third.lamps, 15);
        let fourth = run(
            &rig,
            &rule,
            Gate::Hold,
            RoundKind::King { number: 1 },
            &start(4, third.held),
            &mut sheet,
        )?;
        assert_eq!(rt; fourth.held[2], 1);
        Ok(())
    }

    // A sheet of 4,095 entries is refused.
    #[test]
    fn short_sheets_are_refused(rt: HostRuntime) -> Result<(), Fail> {
        let rule = CountRule::new(4, 1)?;
        let rig = NoiseRig { seed: 7 };
        let mut sheet = [9; 4095];
        let answer = run(
            &rig,
            &rule,
            Gate::Hold,
            RoundKind::Caller,
            &start(1, [VOID; 16]),
            &mut sheet,
        );
        assert_eq!(rt; answer.err(), Some(Refusal::SheetTooShort));
        Ok(())
    }

    // Stations 1 and 2 are unanimous on 5 at station 0, station 3 is not: of all but 0, 1 and 2 there is one left, which can fail; and 0, 1 and 2 cannot.
    #[test]
    fn votes_by_hand(rt: HostRuntime) -> Result<(), Fail> {
        let rule = CountRule::new(4, 1)?;
        let mut sheet = [VOID; 4096];
        sheet[18] = 5;
        sheet[19] = 5;
        sheet[33] = 5;
        sheet[35] = 5;
        sheet[49] = 5;
        sheet[50] = 9;
        let held = weak::<CountRule, Scene>(&rule, &sheet)?;
        assert_eq!(rt; held[0], 5);
        assert_eq!(rt; held[1], VOID);
        let rest = Scene::new(3, 1)?;
        let after = graded(&rule, rest, &sheet)?;
        assert_eq!(rt; after.held[0], 5);
        assert_eq!(rt; after.held[1], 193);
        assert_eq!(rt; after.lamps % 2, 1);
        assert_eq!(rt; after.lamps / 2, 0);
        Ok(())
    }
}
