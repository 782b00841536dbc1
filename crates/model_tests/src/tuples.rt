//! Tuples, their inverses, their words and their buckets, typed from the rules.

use tuple_core::{Proto, Tuple, bucket_of, invert, is_valid, of_words, words};

/// The tuple from 10.0.0.1 to 10.0.0.2.
fn there(proto: Proto, a: u16, b: u16) -> Tuple {
    Tuple {
        proto,
        zone: 0,
        src: 0x0a00_0001,
        dst: 0x0a00_0002,
        a,
        b,
    }
}

/// The tuple from 10.0.0.2 to 10.0.0.1.
fn back(proto: Proto, a: u16, b: u16) -> Tuple {
    Tuple {
        proto,
        zone: 0,
        src: 0x0a00_0002,
        dst: 0x0a00_0001,
        a,
        b,
    }
}

#[test]
fn inverses(rt: HostRuntime) {
    for (proto, (a, b), (c, d)) in [
        (Proto::Udp, (5000, 53), (53, 5000)),
        (Proto::Tcp, (40000, 80), (80, 40000)),
        // Echo, code 0.
        (Proto::Icmp, (77, 0x0800), (77, 0x0000)),
        // Timestamp, information and address mask, with codes.
        (Proto::Icmp, (77, 0x0d05), (77, 0x0e05)),
        (Proto::Icmp, (0, 0x0f01), (0, 0x1001)),
        (Proto::Icmp, (65535, 0x11ff), (65535, 0x12ff)),
    ] {
        let one = there(proto, a, b);
        let other = back(proto, c, d);
        assert!(rt; is_valid(&one), "at {b}");
        assert!(rt; is_valid(&other), "at {d}");
        assert!(rt; invert(&one) == other, "at {b}");
        assert!(rt; invert(&other) == one, "at {d}");
        assert!(rt; invert(&one.in_zone(7)) == other.in_zone(7), "at {b}");
    }
}

#[test]
fn icmp_types_that_make_no_flow(rt: HostRuntime) {
    for kind in [1u16, 3, 4, 5, 7, 9, 11, 12, 19, 255] {
        assert!(rt;
            !is_valid(&there(Proto::Icmp, 77, kind * 256)),
            "type {kind}"
        );
    }
}

#[test]
fn icmp_tuples_of_types_that_make_a_flow(rt: HostRuntime) {
    for (kind, code, b) in [
        (0u8, 0u8, 0x0000),
        (8, 0, 0x0800),
        (13, 1, 0x0d01),
        (14, 2, 0x0e02),
        (15, 3, 0x0f03),
        (16, 4, 0x1004),
        (17, 5, 0x1105),
        (18, 255, 0x12ff),
    ] {
        let made = Tuple::icmp(0x0a00_0001, 0x0a00_0002, kind, code, 77);
        assert!(rt; made.ok() == Some(there(Proto::Icmp, 77, b)), "type {kind}");
    }
}

#[test]
fn icmp_types_refused(rt: HostRuntime) {
    for kind in [1u8, 3, 4, 5, 7, 9, 11, 12, 19, 255] {
        match Tuple::icmp(0x0a00_0001, 0x0a00_0002, kind, 0, 77) {
            Ok(_made) => assert!(rt; false, "type {kind}"),
            Err(refused) => assert_eq!(rt; refused.0, kind),
        }
    }
}

#[test]
fn words_there_and_back(rt: HostRuntime) {
    for (t, flow) in [
        (there(Proto::Udp, 5000, 53), 0x0000_0011_1388_0035),
        (there(Proto::Tcp, 65535, 1), 0x0000_0006_ffff_0001),
        (there(Proto::Icmp, 77, 0x0d05), 0x0000_0001_004d_0d05),
        (
            there(Proto::Udp, 5000, 53).in_zone(1),
            0x0000_0111_1388_0035,
        ),
        (
            there(Proto::Tcp, 65535, 1).in_zone(65535),
            0x00ff_ff06_ffff_0001,
        ),
    ] {
        let [first, second] = words(&t);
        assert_eq!(rt; first, 0x0a00_0001_0a00_0002);
        assert_eq!(rt; second, flow);
        assert!(rt; of_words([first, second]) == Some(t), "at {flow}");
    }
}

#[test]
fn words_of_no_tuple(rt: HostRuntime) {
    for flow in [
        // Protocols 0, 2 and 255.
        0x0000_0000_1388_0035,
        0x0000_0002_1388_0035,
        0x0000_00ff_1388_0035,
        // The number of UDP, with a bit above those of a zone.
        0x0100_0011_1388_0035,
        0x8000_0011_1388_0035,
        // Protocol 0 in zone 17.
        0x0000_1100_1388_0035,
        // ICMP types 3 and 19.
        0x0000_0001_004d_0300,
        0x0000_0001_004d_1300,
    ] {
        assert!(rt;
            of_words([0x0a00_0001_0a00_0002, flow]).is_none(),
            "at {flow}"
        );
    }
}

#[test]
fn buckets_of_two_tuples(rt: HostRuntime) {
    let query = there(Proto::Udp, 5000, 53);
    let echo = there(Proto::Icmp, 77, 0x0800);
    for (buckets, of_query, of_echo) in [(1u32, 0, 0), (2, 1, 0), (65536, 23041, 9922)] {
        assert!(rt; buckets.is_power_of_two());
        assert_eq!(rt; bucket_of(&query, 0x0123_4567_89ab_cdef, buckets), of_query);
        assert_eq!(rt; bucket_of(&echo, 0, buckets), of_echo);
    }
}

#[test]
fn buckets_of_one_tuple_in_zones(rt: HostRuntime) {
    let query = there(Proto::Udp, 5000, 53);
    for (zone, buckets, bucket) in [
        (0u16, 65536u32, 23041),
        (1, 65536, 26369),
        (65535, 65536, 19713),
    ] {
        assert!(rt; buckets.is_power_of_two());
        assert_eq!(rt;
            bucket_of(&query.in_zone(zone), 0x0123_4567_89ab_cdef, buckets),
            bucket
        );
    }
}
