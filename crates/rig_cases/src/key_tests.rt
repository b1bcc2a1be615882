// Keys at their borders, and places worked out by hand.
use rigs::keys::{TrioKey, WireKey};

// round, from, to, and whether the key is good
const WIRES: [(u8, u8, u8, bool); 12] = [
    (0, 0, 1, false),
    (1, 0, 1, true),
    (64, 0, 1, true),
    (65, 0, 1, false),
    (255, 0, 1, false),
    (1, 15, 0, true),
    (1, 16, 0, false),
    (1, 0, 15, true),
    (1, 0, 16, false),
    (1, 3, 3, false),
    (1, 15, 15, false),
    (1, 255, 0, false),
];

#[test]
fn wire_keys_at_their_borders(rt: HostRuntime) {
    for (round, from, to, good) in WIRES {
        assert_eq!(rt;
            WireKey {
                take: 9,
                round,
                from,
                to,
            }
            .is_good(),
            good
        );
    }
}

// round, a, b, c, speaker, and whether the key is good
const TRIOS: [(u8, u8, u8, u8, u8, bool); 13] = [
    (0, 0, 1, 2, 0, false),
    (1, 0, 1, 2, 0, true),
    (64, 0, 1, 2, 2, true),
    (65, 0, 1, 2, 0, false),
    (1, 13, 14, 15, 15, true),
    (1, 13, 14, 16, 14, false),
    (1, 14, 15, 16, 16, false),
    (1, 0, 0, 1, 0, false),
    (1, 0, 2, 2, 0, false),
    (1, 1, 0, 2, 0, false),
    (1, 0, 2, 1, 0, false),
    (1, 0, 1, 2, 3, false),
    (1, 2, 5, 9, 5, true),
];

#[test]
fn trio_keys_at_their_borders(rt: HostRuntime) {
    for (round, a, b, c, speaker, good) in TRIOS {
        assert_eq!(rt;
            TrioKey {
                take: 9,
                round,
                a,
                b,
                c,
                speaker,
            }
            .is_good(),
            good
        );
    }
}

// teller and whether it may tell, where 5 speaks to 2, 5 and 9
const TELLERS: [(u8, bool); 5] = [(2, true), (9, true), (5, false), (3, false), (16, false)];

#[test]
fn tellers(rt: HostRuntime) {
    let key = TrioKey {
        take: 100,
        round: 3,
        a: 2,
        b: 5,
        c: 9,
        speaker: 5,
    };
    for (teller, may) in TELLERS {
        assert_eq!(rt; key.tells(teller), may);
        assert!(rt; !TrioKey { round: 65, ..key }.tells(teller));
    }
    assert_eq!(rt; key.other(2), 9);
    assert_eq!(rt; key.other(9), 2);
    assert!(rt; key.holds(5) && !key.holds(3));
    assert!(rt; key.position(2) == 0 && key.position(5) == 1 && key.position(9) == 2);
}

// take, round, from, to, place
const WIRE_PLACES: [(u16, u8, u8, u8, u32); 4] = [
    (0, 1, 0, 1, 16385),
    (0, 1, 1, 0, 16400),
    (1, 2, 3, 4, 32821),
    (65535, 64, 15, 14, 1114365),
];

#[test]
fn places_of_wires(rt: HostRuntime) {
    for (take, round, from, to, place) in WIRE_PLACES {
        assert_eq!(rt;
            WireKey {
                take,
                round,
                from,
                to,
            }
            .place(),
            place
        );
    }
}

// take, round, a, b, c, speaker or teller, place
const TRIO_PLACES: [(u16, u8, u8, u8, u8, u8, u32); 5] = [
    (0, 1, 0, 1, 2, 0, 16456),
    (0, 1, 0, 1, 2, 1, 16457),
    (0, 1, 0, 1, 2, 2, 16458),
    (100, 3, 2, 5, 9, 5, 51657),
    (65535, 64, 13, 14, 15, 15, 1128381),
];

#[test]
fn places_of_trios(rt: HostRuntime) {
    for (take, round, a, b, c, s, place) in TRIO_PLACES {
        assert_eq!(rt;
            TrioKey {
                take,
                round,
                a,
                b,
                c,
                speaker: a,
            }
            .place(s),
            place
        );
    }
}
