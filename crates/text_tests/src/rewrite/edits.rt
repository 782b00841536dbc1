//! Edits of a stream by hand.

use ftp_rewrite::{Added, Adjust};
use std::test::Fail;

/// What was answered, in words.
fn word(added: Added) -> &'static str {
    match added {
        Added::Added => "added",
        Added::Again => "again",
        Added::Overlap => "overlap",
        Added::Full => "full",
    }
}

#[test]
fn a_longer_text(rt: HostRuntime) {
    // 15 bytes at 1006 become 16.
    let mut adjust = Adjust::new(1000);
    assert!(rt; adjust.is_empty());
    assert_eq!(rt; word(adjust.add(1006, 15, 16)), "added");
    assert_eq!(rt; word(adjust.add(1006, 15, 16)), "again");
    assert_eq!(rt; word(adjust.add(1010, 15, 16)), "overlap");
    assert!(rt; !adjust.is_empty());
    let moves = [
        (999, 999),
        (1000, 1000),
        (1006, 1006),
        (1007, 1006),
        (1020, 1006),
        (1021, 1022),
        (1023, 1024),
    ];
    for (seq, want) in moves {
        assert_eq!(rt; adjust.forward(seq), want, "{seq}");
    }
    let moves = [
        (999, 999),
        (1006, 1006),
        (1007, 1006),
        (1010, 1006),
        (1021, 1006),
        (1022, 1021),
        (1024, 1023),
    ];
    for (ack, want) in moves {
        assert_eq!(rt; adjust.back(ack), want, "{ack}");
    }
}

#[test]
fn a_shorter_text_and_one_as_long(rt: HostRuntime) {
    let mut adjust = Adjust::new(0);
    assert_eq!(rt; word(adjust.add(10, 20, 5)), "added");
    // At the end of the last edit there is no overlap.
    assert_eq!(rt; word(adjust.add(30, 7, 7)), "added");
    // The same bytes by fewer others, and an earlier place.
    assert_eq!(rt; word(adjust.add(10, 20, 6)), "overlap");
    assert_eq!(rt; word(adjust.add(0, 1, 1)), "overlap");
    assert_eq!(rt; word(adjust.add(10, 20, 5)), "again");
    let moves = [(10, 10), (29, 10), (30, 15), (36, 15), (37, 22), (100, 85)];
    for (seq, want) in moves {
        assert_eq!(rt; adjust.forward(seq), want, "{seq}");
    }
    let moves = [(10, 10), (14, 10), (15, 30), (21, 30), (22, 37), (85, 100)];
    for (ack, want) in moves {
        assert_eq!(rt; adjust.back(ack), want, "{ack}");
    }
}

#[test]
fn numbers_wrap_within_an_edit(rt: HostRuntime) {
    let mut adjust = Adjust::new(0xffff_fff0);
    assert_eq!(rt; word(adjust.add(0xffff_fffa, 15, 16)), "added");
    assert_eq!(rt; adjust.forward(0xffff_fffa), 0xffff_fffa);
    assert_eq!(rt; adjust.forward(3), 0xffff_fffa);
    assert_eq!(rt; adjust.forward(9), 10);
    assert_eq!(rt; adjust.back(9), 0xffff_fffa);
    assert_eq!(rt; adjust.back(10), 9);
    // Behind the base numbers stay, and so does what is 2^31 bytes ahead.
    assert_eq!(rt; adjust.forward(0xffff_ffef), 0xffff_ffef);
    assert_eq!(rt; adjust.forward(0x7fff_fff0), 0x7fff_fff0);
    assert_eq!(rt; adjust.forward(0x7fff_ffef), 0x7fff_fff0);
    assert_eq!(rt; adjust.back(0x7fff_fff0), 0x7fff_fff0);
    assert_eq!(rt; word(adjust.add(0x7fff_ffe0, 16, 1)), "overlap");
    assert_eq!(rt; word(adjust.add(0x7fff_ffe0, 15, 1)), "added");
}

#[test]
fn no_edit_but_the_65th_is_too_many(rt: HostRuntime) -> Result<(), Fail> {
    let mut adjust = Adjust::new(7);
    for index in 0..64u32 {
        assert_eq!(rt; word(adjust.add(7 + 10 * index, 2, 3)), "added", "{index}");
    }
    assert_eq!(rt; word(adjust.add(7 + 640, 2, 3)), "full");
    assert_eq!(rt; word(adjust.add(7 + 630, 2, 3)), "again");
    assert_eq!(rt; word(adjust.add(7 + 631, 2, 3)), "overlap");
    assert_eq!(rt; adjust.forward(7 + 640), 7 + 640 + 64);
    assert_eq!(rt; adjust.back(7 + 640 + 64), 7 + 640);
    Ok(())
}
