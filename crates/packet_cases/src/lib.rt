// Examples of packets: what other libraries write, and what is refused.
#![tactic(auto)]

#[cfg(test)]
mod tests {
    use packets::{Argument, Entry, Place, packet_size, read_message, write_message};
    use refusals::Refusal;
    use std::test::Fail;

    // /abc with the blob 01 02 03, the text x and the number 65,536, as Protocol::OSC writes it
    const WORKED: [u8; 32] = [
        0x2f, 0x61, 0x62, 0x63, 0, 0, 0, 0, 0x2c, 0x62, 0x73, 0x69, 0, 0, 0, 0, 0, 0, 0, 3, 1, 2,
        3, 0, 0x78, 0, 0, 0, 0, 1, 0, 0,
    ];

    #[test]
    fn reads_one_argument_at_a_time(rt: HostRuntime) -> Result<(), Fail> {
        let mut m = read_message(&WORKED)?;
        assert!(rt; m.address() == b"/abc".as_slice());
        assert!(rt; m.tags() == b"bsi".as_slice());
        match m.next() {
            Some(Argument::Blob(b)) => assert!(rt; b == [1, 2, 3].as_slice()),
            _ => return Err(Fail::new("no blob")),
        }
        match m.next() {
            Some(Argument::Text(s)) => assert!(rt; s == b"x".as_slice()),
            _ => return Err(Fail::new("no text")),
        }
        match m.next() {
            Some(Argument::Number(n)) => assert_eq!(rt; n, 65536),
            _ => return Err(Fail::new("no number")),
        }
        assert!(rt; m.next().is_none());
        assert!(rt; m.tags().is_empty());
        assert!(rt; m.address() == b"/abc".as_slice());
        Ok(())
    }

    #[test]
    fn writes_what_protocol_osc_writes(rt: HostRuntime) -> Result<(), Fail> {
        let mut out = [9u8; 34];
        let entries = [
            Entry::Blob(Place { from: 1, to: 4 }),
            Entry::Text(Place { from: 0, to: 1 }),
            Entry::Number(65536),
        ];
        let n = write_message(b"/abc", &entries, &[0x78, 1, 2, 3], &mut out)?;
        assert_eq!(rt; n, 32);
        assert!(rt; &out[0..32] == WORKED.as_slice());
        assert!(rt; out[32] == 9 && out[33] == 9);
        Ok(())
    }

    #[test]
    fn writes_what_liblo_writes(rt: HostRuntime) -> Result<(), Fail> {
        let mut out = [9u8; 36];
        let entries = [
            Entry::Number(2147483647),
            Entry::Number(-2147483648),
            Entry::Number(-1),
        ];
        let n = write_message(b"/numbers", &entries, &[], &mut out)?;
        assert_eq!(rt; n, 32);
        assert!(rt;
            out == [
                0x2f, 0x6e, 0x75, 0x6d, 0x62, 0x65, 0x72, 0x73, 0, 0, 0, 0, 0x2c, 0x69, 0x69, 0x69,
                0, 0, 0, 0, 0x7f, 0xff, 0xff, 0xff, 0x80, 0, 0, 0, 0xff, 0xff, 0xff, 0xff, 9, 9, 9,
                9,
            ]
        );
        Ok(())
    }

    fn is_broken(packet: &[u8]) -> bool {
        matches!(read_message(packet), Err(Refusal::BrokenLayout))
    }

    #[test]
    fn refuses_what_is_no_message(rt: HostRuntime) {
        let broken: [&[u8]; 12] = [
            b"",
            b"/",
            b"/go",
            b"/go\0",
            b"/go\0,\0\0",
            b"/go\0,\0\0\0\0",
            b"go/\0,\0\0\0",
            b"#go\0,\0\0\0",
            b"/go\0i\0\0\0\0\0\0\x01",
            b"/go\0,b\0\0\x80\0\0\0",
            b"/go\0,b\0\0\0\0\0\x01\x07\0\0",
            b"/go\0,s\0\0abcd",
        ];
        for packet in broken {
            assert!(rt; is_broken(packet));
        }
    }

    #[test]
    fn holds_4096_bytes_and_no_more(rt: HostRuntime) {
        let mut packet = [0u8; 4100];
        packet[0..12].copy_from_slice(b"/a\0\0,b\0\0\0\0\x0f\xf4");
        assert!(rt; !is_broken(&packet[0..4096]));
        packet[11] = 0xf8;
        assert!(rt; is_broken(&packet));
    }

    #[test]
    fn refuses_to_write(rt: HostRuntime) {
        let mut out = [9u8; 11];
        let text = [Entry::Text(Place { from: 0, to: 3 })];
        assert_eq!(rt;
            write_message(b"go", &[], &[], &mut out),
            Err(Refusal::BrokenLayout)
        );
        assert_eq!(rt;
            write_message(b"/a", &text, b"a\0c", &mut out),
            Err(Refusal::BrokenLayout)
        );
        assert_eq!(rt;
            write_message(b"/a", &text, b"ab", &mut out),
            Err(Refusal::BrokenLayout)
        );
        assert_eq!(rt;
            write_message(b"/a", &text, b"abc", &mut out),
            Err(Refusal::BufferTooShort)
        );
        assert!(rt; out == [9u8; 11]);
    }

    #[test]
    fn knows_sizes(rt: HostRuntime) {
        assert_eq!(rt; packet_size([0, 0, 0, 4]), Ok(4));
        assert_eq!(rt; packet_size([0, 0, 16, 0]), Ok(4096));
        assert_eq!(rt; packet_size([0, 0, 0, 0]), Err(Refusal::BrokenLayout));
        assert_eq!(rt; packet_size([0, 0, 0, 6]), Err(Refusal::BrokenLayout));
        assert_eq!(rt; packet_size([0, 0, 16, 4]), Err(Refusal::BrokenLayout));
        assert_eq!(rt; packet_size([4, 0, 0, 0]), Err(Refusal::BrokenLayout));
    }
}
