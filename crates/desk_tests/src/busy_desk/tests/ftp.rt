//! What becomes of a control connection of FTP and of its data connection where another pass comes between.

use super::super::stage::{Act, Call, Turn};
use super::case::{Case, Fate, LATE, SECOND, Step, holds};
use expect_table::expectation::Want;
use history_book::record::Flow;
use history_book::verdict::{Ftp, Label};
use proto_rules::{Part, PartKind, TcpState};
use std::test::Fail;
use tuple_core::{Proto, Tuple};

/// A segment of TCP with SYN from 10.0.0.1:40000 to 10.0.0.2:21.
const SYN: [u8; 40] = [
    0x45, 0, 0, 40, 0, 0, 0, 0, 0x40, 6, 0, 0, 10, 0, 0, 1, 10, 0, 0, 2, 0x9c, 0x40, 0, 21, 0, 0,
    0, 0, 0, 0, 0, 0, 0x50, 0x02, 0, 0, 0, 0, 0, 0,
];

/// The answer to it, with SYN and ACK.
const SYN_ACK: [u8; 40] = [
    0x45, 0, 0, 40, 0, 0, 0, 0, 0x40, 6, 0, 0, 10, 0, 0, 2, 10, 0, 0, 1, 0, 21, 0x9c, 0x40, 0, 0,
    0, 0, 0, 0, 0, 0, 0x50, 0x12, 0, 0, 0, 0, 0, 0,
];

/// The answer to that, with ACK.
const ACK: [u8; 40] = [
    0x45, 0, 0, 40, 0, 0, 0, 0, 0x40, 6, 0, 0, 10, 0, 0, 1, 10, 0, 0, 2, 0x9c, 0x40, 0, 21, 0, 0,
    0, 0, 0, 0, 0, 0, 0x50, 0x10, 0, 0, 0, 0, 0, 0,
];

/// A segment of the client, with ACK and PSH, that names its port 40001.
const PORT: [u8; 62] = [
    0x45, 0, 0, 62, 0, 0, 0, 0, 0x40, 6, 0, 0, 10, 0, 0, 1, 10, 0, 0, 2, 0x9c, 0x40, 0, 21, 0, 0,
    0, 0, 0, 0, 0, 0, 0x50, 0x18, 0, 0, 0, 0, 0, 0, b'P', b'O', b'R', b'T', b' ', b'1', b'0', b',',
    b'0', b',', b'0', b',', b'1', b',', b'1', b'5', b'6', b',', b'6', b'5', b'\r', b'\n',
];

/// A segment with SYN from 10.0.0.2:20 to 10.0.0.1:40001.
const DATA: [u8; 40] = [
    0x45, 0, 0, 40, 0, 0, 0, 0, 0x40, 6, 0, 0, 10, 0, 0, 2, 10, 0, 0, 1, 0, 20, 0x9c, 0x41, 0, 0,
    0, 0, 0, 0, 0, 0, 0x50, 0x02, 0, 0, 0, 0, 0, 0,
];

/// The tuple of that segment.
const DATA_TUPLE: Tuple = Tuple {
    proto: Proto::Tcp,
    zone: 0,
    src: 0x0a00_0002,
    dst: 0x0a00_0001,
    a: 20,
    b: 40_001,
};

/// The tuples of control connections from the client's ports 40000, 40010 and 40020.
const CONTROL: Tuple = Tuple {
    proto: Proto::Tcp,
    zone: 0,
    src: 0x0a00_0001,
    dst: 0x0a00_0002,
    a: 40_000,
    b: 21,
};

const SECOND_CONTROL: Tuple = Tuple {
    a: 40_010,
    ..CONTROL
};

const THIRD_CONTROL: Tuple = Tuple {
    a: 40_020,
    ..CONTROL
};

/// What is wanted where the client's port 40001 is named.
const WANT: Want = Want {
    src: 0x0a00_0002,
    dst: 0x0a00_0001,
    port: 40_001,
};

/// What a segment with SYN sets of an entry, expired from 121 s on.
const SYN_SENT: Part = Part {
    kind: PartKind::Tcp(TcpState::SynSent),
    replied: false,
    assured: false,
    deadline: 121 * SECOND,
};

/// The flow of the data connection, and those of the second and the third control connection.
const DATA_FLOW: Flow = Flow {
    original: DATA_TUPLE,
    reply: Tuple {
        proto: Proto::Tcp,
        zone: 0,
        src: 0x0a00_0001,
        dst: 0x0a00_0002,
        a: 40_001,
        b: 20,
    },
    part: SYN_SENT,
    helper: false,
    master: None,
};

const SECOND_FLOW: Flow = Flow {
    original: SECOND_CONTROL,
    reply: Tuple {
        proto: Proto::Tcp,
        zone: 0,
        src: 0x0a00_0002,
        dst: 0x0a00_0001,
        a: 21,
        b: 40_010,
    },
    part: SYN_SENT,
    helper: true,
    master: None,
};

const THIRD_FLOW: Flow = Flow {
    original: THIRD_CONTROL,
    reply: Tuple {
        proto: Proto::Tcp,
        zone: 0,
        src: 0x0a00_0002,
        dst: 0x0a00_0001,
        a: 21,
        b: 40_020,
    },
    ..SECOND_FLOW
};

/// The control connection is opened from 1 s on.
const OPENED: Step<'static> = Step {
    packet: &SYN,
    moment: SECOND,
    fate: Fate::Anything,
    events: None,
};

const ANSWERED: Step<'static> = Step {
    packet: &SYN_ACK,
    moment: 2 * SECOND,
    ..OPENED
};

const READY: Step<'static> = Step {
    packet: &ACK,
    moment: 3 * SECOND,
    ..OPENED
};

/// It names a port, at 4 s.
const NAMED: Step<'static> = Step {
    packet: &PORT,
    moment: 4 * SECOND,
    ..OPENED
};

#[test]
fn the_control_connection_goes_before_it_expects_something(rt: HostRuntime) -> Result<(), Fail> {
    static CASE: Case<'static> = Case {
        rules: "",
        helped: true,
        turns: &[Turn {
            before: Call::Expect,
            act: Act::Expire(LATE),
        }],
        steps: &[
            OPENED,
            ANSWERED,
            READY,
            Step {
                fate: Fate::PassedWith {
                    label: Label::Established,
                    id: 0,
                    at: 4,
                    ftp: Ftp::Gone { at: 5 },
                },
                events: Some((3, 1)),
                ..NAMED
            },
            Step {
                packet: &DATA,
                moment: 5 * SECOND,
                fate: Fate::MadeBeside {
                    id: 5,
                    at: 6,
                    unclaimed: Some(5),
                },
                events: Some((4, 1)),
            },
        ],
    };
    holds(&rt, &CASE)
}

#[test]
fn the_other_pass_expects_the_same_connection_first(rt: HostRuntime) -> Result<(), Fail> {
    static CASE: Case<'static> = Case {
        rules: "",
        helped: true,
        turns: &[
            Turn {
                before: Call::Find,
                act: Act::Confirm(SECOND_FLOW),
            },
            Turn {
                before: Call::Find,
                act: Act::Expect {
                    master: SECOND_CONTROL,
                    want: WANT,
                    moment: SECOND,
                },
            },
        ],
        steps: &[
            OPENED,
            ANSWERED,
            READY,
            Step {
                fate: Fate::PassedWith {
                    label: Label::Established,
                    id: 1,
                    at: 6,
                    ftp: Ftp::Clash { id: 2, at: 6 },
                },
                events: Some((3, 1)),
                ..NAMED
            },
        ],
    };
    holds(&rt, &CASE)
}

#[test]
fn the_other_pass_expects_all_for_which_there_is_room(rt: HostRuntime) -> Result<(), Fail> {
    static CASE: Case<'static> = Case {
        rules: "",
        helped: true,
        turns: &[
            Turn {
                before: Call::Find,
                act: Act::Confirm(SECOND_FLOW),
            },
            Turn {
                before: Call::Take,
                act: Act::Confirm(THIRD_FLOW),
            },
            Turn {
                before: Call::Find,
                act: Act::Expect {
                    master: SECOND_CONTROL,
                    want: Want {
                        port: 40_011,
                        ..WANT
                    },
                    moment: SECOND,
                },
            },
            Turn {
                before: Call::Find,
                act: Act::Expect {
                    master: THIRD_CONTROL,
                    want: Want {
                        port: 40_021,
                        ..WANT
                    },
                    moment: SECOND,
                },
            },
        ],
        steps: &[
            OPENED,
            ANSWERED,
            READY,
            Step {
                fate: Fate::PassedWith {
                    label: Label::Established,
                    id: 2,
                    at: 8,
                    ftp: Ftp::Full { at: 8 },
                },
                events: Some((3, 1)),
                ..NAMED
            },
        ],
    };
    holds(&rt, &CASE)
}

#[test]
fn the_other_pass_expects_another_connection_first(rt: HostRuntime) -> Result<(), Fail> {
    static CASE: Case<'static> = Case {
        rules: "",
        helped: true,
        turns: &[Turn {
            before: Call::Expect,
            act: Act::Expect {
                master: CONTROL,
                want: Want {
                    port: 40_002,
                    ..WANT
                },
                moment: SECOND,
            },
        }],
        steps: &[
            OPENED,
            ANSWERED,
            READY,
            Step {
                fate: Fate::PassedWith {
                    label: Label::Established,
                    id: 0,
                    at: 4,
                    ftp: Ftp::Expected { id: 5 },
                },
                events: Some((3, 2)),
                ..NAMED
            },
            Step {
                packet: &DATA,
                moment: 5 * SECOND,
                fate: Fate::MadeBeside {
                    id: 7,
                    at: 8,
                    unclaimed: None,
                },
                events: Some((5, 2)),
            },
        ],
    };
    holds(&rt, &CASE)
}

#[test]
fn the_other_pass_claims_the_expectation_first(rt: HostRuntime) -> Result<(), Fail> {
    static CASE: Case<'static> = Case {
        rules: "",
        helped: true,
        turns: &[
            // The control connection's own, which is expected by nobody.
            Turn {
                before: Call::Claim,
                act: Act::Nothing,
            },
            Turn {
                before: Call::Claim,
                act: Act::Claim {
                    tuple: DATA_TUPLE,
                    moment: 5 * SECOND,
                },
            },
        ],
        steps: &[
            OPENED,
            ANSWERED,
            READY,
            Step {
                fate: Fate::PassedWith {
                    label: Label::Established,
                    id: 0,
                    at: 4,
                    ftp: Ftp::Expected { id: 4 },
                },
                events: Some((3, 2)),
                ..NAMED
            },
            Step {
                packet: &DATA,
                moment: 5 * SECOND,
                fate: Fate::MadeBeside {
                    id: 6,
                    at: 7,
                    unclaimed: Some(6),
                },
                events: Some((5, 1)),
            },
        ],
    };
    holds(&rt, &CASE)
}

#[test]
fn a_claim_stands_where_the_other_pass_confirms_the_flow_first(
    rt: HostRuntime,
) -> Result<(), Fail> {
    static CASE: Case<'static> = Case {
        rules: "",
        helped: true,
        turns: &[
            // The control connection's own place.
            Turn {
                before: Call::Take,
                act: Act::Nothing,
            },
            Turn {
                before: Call::Take,
                act: Act::Confirm(DATA_FLOW),
            },
        ],
        steps: &[
            OPENED,
            ANSWERED,
            READY,
            NAMED,
            Step {
                packet: &DATA,
                moment: 5 * SECOND,
                fate: Fate::Clash { id: 5, at: 7 },
                events: Some((5, 1)),
            },
            Step {
                packet: &DATA,
                moment: 6 * SECOND,
                fate: Fate::PassedWith {
                    label: Label::New,
                    id: 5,
                    at: 8,
                    ftp: Ftp::Nothing,
                },
                events: Some((6, 1)),
            },
        ],
    };
    holds(&rt, &CASE)
}
