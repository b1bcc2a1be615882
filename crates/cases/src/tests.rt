// Rules at the borders of what is made, sets and kings on tables worked out by hand.
use refusals::Refusal;
use rules::Rule;
use rules::count::CountRule;
use rules::group::GroupRule;
use rules::king::kings_of;
use sets::text::Listed;
use sets::{all, among, complement, contains, make_up, size, union, with, within, without};
use std::test::Fail;

// n, t and whether they make a count rule
const COUNTS: [(u16, u16, bool); 18] = [
    (0, 1, false),
    (2, 1, false),
    (3, 0, false),
    (3, 1, true),
    (3, 2, false),
    (4, 1, true),
    (4, 2, false),
    (5, 2, true),
    (5, 3, false),
    (15, 7, true),
    (16, 1, true),
    (16, 7, true),
    (16, 8, false),
    (17, 1, false),
    (17, 8, false),
    (16, 65535, false),
    (65535, 1, false),
    (16, 32769, false),
];

#[test]
fn count_rules_at_their_borders(rt: HostRuntime) {
    for (n, t, made) in COUNTS {
        assert_eq!(rt; CountRule::new(n, t).is_ok(), made);
    }
}

// n, one mask, and whether they make a group rule
const GROUPS: [(u16, u16, bool); 15] = [
    (2, 0, false),
    (3, 0, true),
    (3, 0b001, true),
    (3, 0b100, true),
    (3, 0b1000, false),
    (3, 0b011, false),
    (4, 0b0011, true),
    (4, 0b0111, false),
    (6, 0b100000, true),
    (6, 0b1000000, false),
    (6, 0b001111, true),
    (6, 0b011111, false),
    (16, 0x8000, true),
    (16, 0x7fff, false),
    (17, 0b001, false),
];

#[test]
fn group_rules_at_their_borders(rt: HostRuntime) {
    for (n, mask, made) in GROUPS {
        let mut rule = GroupRule::new();
        assert_eq!(rt; rule.make(n, &[mask]).is_ok(), made);
        // a refused making leaves the rule as it was: three stations
        assert!(rt; made || rule.n() == 3);
    }
}

#[test]
fn sixteen_masks_and_no_more(rt: HostRuntime) {
    let mut rule = GroupRule::new();
    assert!(rt; rule.make(16, &[3; 16]).is_ok());
    assert!(rt; rule.can_fail(3));
    assert!(rt; rule.make(16, &[3; 17]).is_err());
    assert_eq!(rt; rule.n(), 16);
}

#[test]
fn two_masks_together(rt: HostRuntime) {
    let mut rule = GroupRule::new();
    assert!(rt; rule.make(6, &[0b000111, 0b111000]).is_err());
    assert!(rt; rule.make(6, &[0b000111, 0b011000]).is_ok());
    assert!(rt; rule.can_fail(0b000101));
    assert!(rt; rule.can_fail(0b100000));
    assert!(rt; !rule.can_fail(0b100001));
    // a set with a station from n on cannot fail, and the empty set can
    assert!(rt; !rule.can_fail(0b1000000));
    assert!(rt; rule.can_fail(0));
}

#[test]
fn counted_sets(rt: HostRuntime) -> Result<(), Fail> {
    let Ok(rule) = CountRule::new(5, 2) else {
        assert!(rt; false);
        return Ok(());
    };
    assert!(rt; rule.can_fail(0b10001));
    assert!(rt; !rule.can_fail(0b10011));
    assert!(rt; !rule.can_fail(0b100001));
    Ok(())
}

// caller, kings, how many, rounds: six stations, of which {0,1,2} or {3,4} may be broken
const KINGS: [(u16, u16, u8, u16); 6] = [
    (0, 0b001110, 3, 10),
    (1, 0b001101, 3, 10),
    (2, 0b001011, 3, 10),
    (3, 0b000001, 1, 4),
    (4, 0b000001, 1, 4),
    (5, 0b000001, 1, 4),
];

#[test]
fn kings_of_each_caller(rt: HostRuntime) -> Result<(), Fail> {
    let mut rule = GroupRule::new();
    assert!(rt; rule.make(6, &[0b000111, 0b011000]).is_ok());
    for (caller, set, count, rounds) in KINGS {
        let Ok(kings) = kings_of(&rule, caller) else {
            assert!(rt; false);
            return Ok(());
        };
        assert_eq!(rt; kings.set, set);
        assert_eq!(rt; kings.count, count);
        assert_eq!(rt; kings.rounds(), rounds);
    }
    match kings_of(&rule, 6) {
        Err(Refusal::NoSuchStation) => Ok(()),
        _ => {
            assert!(rt; false);
            Ok(())
        },
    }
}

#[test]
fn kings_by_number(rt: HostRuntime) -> Result<(), Fail> {
    let mut rule = GroupRule::new();
    assert!(rt; rule.make(6, &[0b000111, 0b011000]).is_ok());
    let Ok(kings) = kings_of(&rule, 1) else {
        assert!(rt; false);
        return Ok(());
    };
    assert_eq!(rt; kings.king(0), None);
    assert_eq!(rt; kings.king(1), Some(0));
    assert_eq!(rt; kings.king(2), Some(2));
    assert_eq!(rt; kings.king(3), Some(3));
    assert_eq!(rt; kings.king(4), None);
    Ok(())
}

#[test]
fn sets_of_stations(rt: HostRuntime) {
    assert!(rt; contains(0x8000, 15));
    assert!(rt; !contains(0xffff, 16));
    assert_eq!(rt; with(0, 15), 0x8000);
    assert_eq!(rt; with(1, 16), 1);
    assert_eq!(rt; without(0xffff, 0), 0xfffe);
    assert_eq!(rt; without(0xffff, 16), 0xffff);
    assert_eq!(rt; union(0b0101, 0b0011), 0b0111);
    assert_eq!(rt; all(3), 0b111);
    assert_eq!(rt; all(16), 0xffff);
    assert_eq!(rt; all(17), 0xffff);
    assert_eq!(rt; complement(0b0101, 4), 0b1010);
    assert_eq!(rt; size(0xf00f), 8);
}

#[test]
fn sets_compared(rt: HostRuntime) {
    assert!(rt; within(0b0101, 0b0111));
    assert!(rt; !within(0b1101, 0b0111));
    assert!(rt; make_up(4, 0b0101, 0b1011));
    assert!(rt; !make_up(4, 0b0101, 0b0011));
    assert!(rt; !make_up(17, 0xffff, 0xffff));
    assert!(rt; among(0b111, 3));
    assert!(rt; !among(0b1000, 3));
    assert!(rt; among(0xffff, 16));
}

#[test]
fn sets_in_words(rt: HostRuntime) -> Result<(), Fail> {
    let heap = rt.alloc();
    assert_eq!(rt; Listed { set: 0 }.to_string(heap)?.as_str(), "{}");
    assert_eq!(rt;
        Listed { set: 0x8401 }.to_string(heap)?.as_str(),
        "{0,10,15}"
    );
    Ok(())
}

#[test]
fn refusals_in_words(rt: HostRuntime) -> Result<(), Fail> {
    let heap = rt.alloc();
    assert_eq!(rt;
        Refusal::UnlawfulRule.to_string(heap)?.as_str(),
        "the rule is not lawful"
    );
    assert_eq!(rt;
        Refusal::NoSuchStation.to_string(heap)?.as_str(),
        "no such station"
    );
    Ok(())
}
