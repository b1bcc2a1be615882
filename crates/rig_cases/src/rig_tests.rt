// Each kind of rig on tables worked out by hand.
use mender::mender::Mender;
use mender::slack::Slack;
use rig_kinds::noise::NoiseRig;
use rig_kinds::script::ScriptRig;
use rig_kinds::torn::TornRig;
use rigs::keys::{TrioKey, WireKey};
use rigs::{Rig, SILENCE, VOID, WeakRig, Wire};
use std::test::Fail;

// The wire from 0 to 1, at place 16,385.
const WIRE: WireKey = WireKey {
    take: 0,
    round: 1,
    from: 0,
    to: 1,
};

// The trio 0, 1, 2 with 0 as speaker, at place 16,456.
const TRIO: TrioKey = TrioKey {
    take: 0,
    round: 1,
    a: 0,
    b: 1,
    c: 2,
    speaker: 0,
};

#[test]
fn script_by_hand(rt: HostRuntime) -> Result<(), Fail> {
    let rig = ScriptRig {
        list: [10, 20, 30].to_vec(rt.alloc())?,
    };
    // 16,385 is 2 modulo 3
    assert_eq!(rt; rig.wire(WIRE, 7, 0b001), 30);
    assert_eq!(rt; rig.wire(WIRE, 7, 0b110), 7);
    assert_eq!(rt; rig.wire(WireKey { round: 0, ..WIRE }, 7, 0), SILENCE);
    // 16,456, 16,457 and 16,458 are 1, 2 and 0 modulo 3
    assert_eq!(rt; rig.trio(TRIO, 7, 0b001), (20, 20, 20));
    assert_eq!(rt;
        rig.trio(TrioKey { speaker: 1, ..TRIO }, 7, 0b010),
        (30, 30, 30)
    );
    assert_eq!(rt;
        rig.trio(TrioKey { speaker: 2, ..TRIO }, 7, 0b100),
        (10, 10, 10)
    );
    assert_eq!(rt; rig.trio(TRIO, 7, 0b110), (7, 7, 7));
    assert_eq!(rt;
        rig.trio(TrioKey { speaker: 3, ..TRIO }, 7, 0),
        (SILENCE, SILENCE, SILENCE)
    );
    Ok(())
}

#[test]
fn empty_script(rt: HostRuntime) {
    let rig = ScriptRig {
        list: Vec::new(rt.alloc()),
    };
    assert_eq!(rt; rig.wire(WIRE, 7, 0b001), 7);
    assert_eq!(rt; rig.trio(TRIO, 7, 0b001), (7, 7, 7));
}

// what place plus seed is, modulo 2^32, and what it sounds as
const NOISES: [(u32, u16); 4] = [(0, 0), (1, 40503), (2, 15470), (3, 55974)];

#[test]
fn noise_by_hand(rt: HostRuntime) {
    for (sum, sound) in NOISES {
        let on_wire = NoiseRig {
            seed: sum.wrapping_sub(16385),
        };
        assert_eq!(rt; on_wire.wire(WIRE, 7, 0b001), sound);
        assert_eq!(rt; on_wire.wire(WIRE, 7, 0b010), 7);
        let on_trio = NoiseRig {
            seed: sum.wrapping_sub(16456),
        };
        assert_eq!(rt; on_trio.trio(TRIO, 7, 0b001), (sound, sound, sound));
        assert_eq!(rt; on_trio.trio(TRIO, 7, 0b110), (7, 7, 7));
    }
    assert_eq!(rt;
        NoiseRig { seed: 1 }.wire(WireKey { to: 16, ..WIRE }, 7, 0),
        SILENCE
    );
}

// the one entry, and what the three hear of the broken speaker 0
const TORN: [(u16, (u16, u16, u16)); 7] = [
    (5, (5, 5, 5)),
    (8191, (8191, 8191, 8191)),
    (8197, (SILENCE, 5, 5)),
    (16389, (5, SILENCE, 5)),
    (32773, (5, 5, SILENCE)),
    (57349, (SILENCE, SILENCE, SILENCE)),
    (4096, (4096, 4096, 4096)),
];

#[test]
fn torn_by_hand(rt: HostRuntime) -> Result<(), Fail> {
    for (entry, heard) in TORN {
        let rig = TornRig {
            script: ScriptRig {
                list: [entry].to_vec(rt.alloc())?,
            },
        };
        assert_eq!(rt; rig.cast(TRIO, 7, 0b001), heard);
        assert_eq!(rt; rig.cast(TRIO, 7, 0b110), (7, 7, 7));
        // the wire and the telling use the whole entry
        assert_eq!(rt; rig.wire(WIRE, 7, 0b001), entry);
        assert_eq!(rt; rig.tell(TRIO, 1, 7, 0b010), entry);
        assert_eq!(rt; rig.tell(TRIO, 1, 7, 0b101), 7);
        assert_eq!(rt; rig.tell(TRIO, 0, 7, 0b001), SILENCE);
    }
    Ok(())
}

#[test]
fn tellers_have_their_own_places(rt: HostRuntime) -> Result<(), Fail> {
    let rig = TornRig {
        script: ScriptRig {
            list: [1, 2, 3, 4].to_vec(rt.alloc())?,
        },
    };
    // 16,456, 16,457 and 16,458 are 0, 1 and 2 modulo 4
    assert_eq!(rt; rig.cast(TRIO, 7, 0b111), (1, 1, 1));
    assert_eq!(rt; rig.tell(TRIO, 1, 7, 0b111), 2);
    assert_eq!(rt; rig.tell(TRIO, 2, 7, 0b111), 3);
    assert_eq!(rt;
        rig.cast(TrioKey { round: 65, ..TRIO }, 7, 0),
        (SILENCE, SILENCE, SILENCE)
    );
    Ok(())
}

// the one entry, the broken set, and what the three have once the line is mended
const MENDED: [(u16, u16, (u16, u16, u16)); 7] = [
    (5, 0b001, (5, 5, 5)),
    // a listener in silence takes what the other heard
    (16389, 0b001, (5, 5, 5)),
    (32773, 0b001, (5, 5, 5)),
    // both listeners in silence have void, and the speaker keeps what it heard
    (49157, 0b001, (5, VOID, VOID)),
    (57349, 0b001, (SILENCE, VOID, VOID)),
    (8197, 0b001, (SILENCE, 5, 5)),
    // a broken listener tells its entry
    (16389, 0b101, (5, 16389, 5)),
];

#[test]
fn mended_by_hand(rt: HostRuntime) -> Result<(), Fail> {
    for (entry, broken, heard) in MENDED {
        let rig = Mender {
            weak: TornRig {
                script: ScriptRig {
                    list: [entry].to_vec(rt.alloc())?,
                },
            },
        };
        assert_eq!(rt; rig.trio(TRIO, 7, broken), heard);
        assert_eq!(rt; rig.wire(WIRE, 7, 0b001), entry);
        // a good speaker's void stays void, whatever a broken listener tells
        assert_eq!(rt; rig.trio(TRIO, VOID, 0b110), (VOID, VOID, VOID));
        assert_eq!(rt;
            rig.trio(TrioKey { c: 16, ..TRIO }, 7, 0),
            (SILENCE, SILENCE, SILENCE)
        );
    }
    Ok(())
}

#[test]
fn slack_by_hand(rt: HostRuntime) -> Result<(), Fail> {
    let rig = Slack {
        rig: ScriptRig {
            list: [10, 20, 30].to_vec(rt.alloc())?,
        },
    };
    assert_eq!(rt; rig.cast(TRIO, 7, 0b001), (20, 20, 20));
    assert_eq!(rt; rig.wire(WIRE, 7, 0b001), 30);
    // the wire from 1 to 2 is at place 16,402, which is 1 modulo 3
    assert_eq!(rt; rig.tell(TRIO, 1, 7, 0b010), 20);
    assert_eq!(rt; rig.tell(TRIO, 1, 7, 0b101), 7);
    assert_eq!(rt; rig.tell(TRIO, 0, 7, 0), SILENCE);
    let again = Mender { weak: rig };
    assert_eq!(rt; again.trio(TRIO, 7, 0b001), (20, 20, 20));
    Ok(())
}
