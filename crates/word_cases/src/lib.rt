// Examples of words and codes, proved safe and then run.

#![tactic(auto)]

#[cfg(test)]
mod tests {
    use refusals::Refusal;
    use std::test::Fail;
    use words::gate::Gate;
    use words::scene::Scene;
    use words::{WordKind, is_word};

    // A bank, a slot and the scene's code.
    struct Row {
        bank: u16,
        slot: u16,
        code: u16,
    }

    const SCENES: [Row; 5] = [
        Row {
            bank: 0,
            slot: 0,
            code: 0,
        },
        Row {
            bank: 0,
            slot: 63,
            code: 63,
        },
        Row {
            bank: 1,
            slot: 0,
            code: 64,
        },
        Row {
            bank: 2,
            slot: 5,
            code: 133,
        },
        Row {
            bank: 15,
            slot: 63,
            code: 1023,
        },
    ];

    #[test]
    fn scenes_have_codes(rt: HostRuntime) -> Result<(), Fail> {
        for row in &SCENES {
            let scene = Scene::new(row.bank, row.slot)?;
            assert_eq!(rt; scene.encode(), row.code);
            assert!(rt; Scene::decode(row.code) == Some(scene));
        }
        Ok(())
    }

    #[test]
    fn scenes_are_refused(rt: HostRuntime) {
        assert!(rt; Scene::new(16, 0) == Err(Refusal::NoWord));
        assert!(rt; Scene::new(0, 64) == Err(Refusal::NoWord));
        assert!(rt; Scene::decode(1024) == None);
    }

    #[test]
    fn gates_have_codes(rt: HostRuntime) {
        assert_eq!(rt; Gate::Hold.encode(), 0);
        assert_eq!(rt; Gate::Go.encode(), 1);
        assert!(rt; Gate::decode(0) == Some(Gate::Hold));
        assert!(rt; Gate::decode(1) == Some(Gate::Go));
        assert!(rt; is_word::<Gate>(1) & !is_word::<Gate>(2) & !is_word::<Gate>(65534));
    }
}
