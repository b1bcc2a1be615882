// Patches and piles on tables worked out by hand.
use mender::mender::Mender;
use patch::number::Patch;
use patch::patched::Patched;
use piles::floors;
use piles::hearing::{good_hear_alike, on_three_floors};
use refusals::Refusal;
use rig_kinds::script::ScriptRig;
use rig_kinds::torn::TornRig;
use rigs::keys::{TrioKey, WireKey};
use rigs::{Rig, SILENCE, Wire};
use std::test::Fail;

// Stations 0, 1, 2 on boxes 2, 1, 0, the others on their own.
const TURNED: u64 = 0xFEDCBA9876543012;

// Station i on box 15 - i.
const REVERSED: u64 = 0x0123456789ABCDEF;

// The trio 0, 1, 2 with 0 as speaker.
const TRIO: TrioKey = TrioKey {
    take: 0,
    round: 1,
    a: 0,
    b: 1,
    c: 2,
    speaker: 0,
};

// a number, and whether it is a patch
const NUMBERS: [(u64, bool); 7] = [
    (0xFEDCBA9876543210, true),
    (TURNED, true),
    (REVERSED, true),
    (0, false),
    (0xFEDCBA9876543211, false),
    (0x0EDCBA9876543210, false),
    (0xFFFFFFFFFFFFFFFF, false),
];

#[test]
fn numbers_of_patches(rt: HostRuntime) {
    for (number, made) in NUMBERS {
        assert_eq!(rt; Patch::new(number).is_ok(), made);
        assert_eq!(rt; floors::check(&[TURNED, number]).is_ok(), made);
    }
    assert!(rt; floors::check(&[]).is_ok());
    assert_eq!(rt;
        floors::check(&[TURNED, 0, REVERSED]),
        Err(Refusal::DigitTwice)
    );
}

// station, box under it in the turned patch, box under it in the reversed one
const UNDER: [(u8, u8, u8); 5] = [(0, 2, 15), (1, 1, 14), (2, 0, 13), (3, 3, 12), (15, 15, 0)];

// a set, and the boxes under it in the turned patch and in the reversed one
const DOWN: [(u16, u16, u16); 5] = [
    (0, 0, 0),
    (0b001, 0b100, 0x8000),
    (0b011, 0b110, 0xC000),
    (0b1001, 0b1100, 0x9000),
    (0xFFFF, 0xFFFF, 0xFFFF),
];

#[test]
fn boxes_by_hand(rt: HostRuntime) -> Result<(), Fail> {
    let turned = Patch::new(TURNED)?;
    let reversed = Patch::new(REVERSED)?;
    for (station, first, second) in UNDER {
        assert_eq!(rt; turned.under(station), first);
        assert_eq!(rt; reversed.under(station), second);
    }
    assert_eq!(rt; turned.under(16), 0);
    for (set, first, second) in DOWN {
        assert_eq!(rt; turned.down(set), first);
        assert_eq!(rt; reversed.down(set), second);
    }
    Ok(())
}

#[test]
fn keys_go_down(rt: HostRuntime) -> Result<(), Fail> {
    let reversed = Patch::new(REVERSED)?;
    let wire = reversed.wire_key(WireKey {
        take: 4,
        round: 5,
        from: 0,
        to: 3,
    });
    assert!(rt; wire.take == 4 && wire.round == 5 && wire.from == 15 && wire.to == 12);
    let trio = reversed.trio_key(TRIO);
    assert!(rt; trio.a == 13 && trio.b == 14 && trio.c == 15 && trio.speaker == 15);
    let turned = Patch::new(TURNED)?.trio_key(TRIO);
    assert!(rt; turned.a == 0 && turned.b == 1 && turned.c == 2 && turned.speaker == 2);
    Ok(())
}

#[test]
fn wires_under_a_patch(rt: HostRuntime) -> Result<(), Fail> {
    let rig = Patched {
        patch: Patch::new(TURNED)?,
        rig: ScriptRig {
            list: [10, 20, 30].to_vec(rt.alloc())?,
        },
    };
    // boxes 2 and 1: place 16,417, which is 1 modulo 3
    assert_eq!(rt;
        rig.wire(
            WireKey {
                take: 0,
                round: 1,
                from: 0,
                to: 1,
            },
            7,
            0b001,
        ),
        20
    );
    assert_eq!(rt;
        rig.wire(
            WireKey {
                take: 0,
                round: 1,
                from: 0,
                to: 1,
            },
            7,
            0b100,
        ),
        7
    );
    assert_eq!(rt;
        rig.wire(
            WireKey {
                take: 0,
                round: 1,
                from: 1,
                to: 1,
            },
            7,
            0,
        ),
        SILENCE
    );
    Ok(())
}

// the one entry, and what stations 0, 1, 2 hear of the broken speaker 0, on box 2
const TURNED_TRIOS: [(u16, (u16, u16, u16)); 3] = [
    (5, (5, 5, 5)),
    // position 2 is the speaker's box: it keeps silence
    (32773, (SILENCE, 5, 5)),
    // position 0 is station 2's box: it takes what station 1's box tells
    (8197, (5, 5, 5)),
];

#[test]
fn trios_under_a_patch(rt: HostRuntime) -> Result<(), Fail> {
    for (entry, heard) in TURNED_TRIOS {
        let rig = Patched {
            patch: Patch::new(TURNED)?,
            rig: Mender {
                weak: TornRig {
                    script: ScriptRig {
                        list: [entry].to_vec(rt.alloc())?,
                    },
                },
            },
        };
        assert_eq!(rt; rig.trio(TRIO, 7, 0b001), heard);
        assert_eq!(rt; rig.trio(TRIO, 7, 0b110), (7, 7, 7));
        assert_eq!(rt;
            rig.trio(TrioKey { speaker: 3, ..TRIO }, 7, 0),
            (SILENCE, SILENCE, SILENCE)
        );
    }
    Ok(())
}

#[test]
fn three_floors(rt: HostRuntime) -> Result<(), Fail> {
    // two reversals undo each other: the turned patch is left
    let pile = Patched {
        patch: Patch::new(REVERSED)?,
        rig: Patched {
            patch: Patch::new(REVERSED)?,
            rig: Patched {
                patch: Patch::new(TURNED)?,
                rig: Mender {
                    weak: TornRig {
                        script: ScriptRig {
                            list: [32773].to_vec(rt.alloc())?,
                        },
                    },
                },
            },
        },
    };
    assert_eq!(rt; pile.trio(TRIO, 7, 0b001), (SILENCE, 5, 5));
    assert!(rt; good_hear_alike(&pile, TRIO, 7, 0b001));
    assert!(rt; on_three_floors(&pile, TRIO, 7, 0b011));
    Ok(())
}
