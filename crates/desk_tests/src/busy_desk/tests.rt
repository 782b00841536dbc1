//! What becomes of a packet where another pass comes between the calls of its own.

use super::stage::{Act, Call, Turn};
use crate::packets::{QUERY, SYN};
use case::{Case, Fate, LATE, SECOND, Step, holds};
use history_book::record::Flow;
use history_book::verdict::Label;
use proto_rules::{Part, PartKind, TcpState};
use std::test::Fail;
use tuple_core::{Direction, Proto, Segment, Tuple};

mod case;
mod ftp;

/// A segment of TCP with RST from 10.0.0.1:40000 to 10.0.0.2:80.
const RST: [u8; 40] = [
    0x45, 0, 0, 0x28, 0, 0, 0, 0, 0x40, 6, 0, 0, 10, 0, 0, 1, 10, 0, 0, 2, 0x9c, 0x40, 0, 0x50, 0,
    0, 0, 0, 0, 0, 0, 0, 0x50, 4, 0, 0, 0, 0, 0, 0,
];

/// The tuple of the query.
const ASKS: Tuple = Tuple {
    proto: Proto::Udp,
    zone: 0,
    src: 0x0a00_0001,
    dst: 0x0a00_0002,
    a: 5000,
    b: 53,
};

/// The tuple of its answer.
const ANSWERS: Tuple = Tuple {
    proto: Proto::Udp,
    zone: 0,
    src: 0x0a00_0002,
    dst: 0x0a00_0001,
    a: 53,
    b: 5000,
};

/// The flow of the query, expired from 31 s on.
const ASKED: Flow = Flow {
    original: ASKS,
    reply: ANSWERS,
    part: Part {
        kind: PartKind::Udp,
        replied: false,
        assured: false,
        deadline: 31 * SECOND,
    },
    helper: false,
    master: None,
};

/// The flow of the SYN, expired from 121 s on.
const OPENED: Flow = Flow {
    original: Tuple {
        proto: Proto::Tcp,
        zone: 0,
        src: 0x0a00_0001,
        dst: 0x0a00_0002,
        a: 40_000,
        b: 80,
    },
    reply: Tuple {
        proto: Proto::Tcp,
        zone: 0,
        src: 0x0a00_0002,
        dst: 0x0a00_0001,
        a: 80,
        b: 40_000,
    },
    part: Part {
        kind: PartKind::Tcp(TcpState::SynSent),
        replied: false,
        assured: false,
        deadline: 121 * SECOND,
    },
    helper: false,
    master: None,
};

#[test]
fn an_entry_goes_before_it_is_touched(rt: HostRuntime) -> Result<(), Fail> {
    static CASE: Case<'static> = Case {
        rules: "",
        helped: false,
        turns: &[Turn {
            before: Call::Touch,
            act: Act::Expire(LATE),
        }],
        steps: &[
            Step {
                packet: &QUERY,
                moment: SECOND,
                fate: Fate::Made { id: 0, at: 1 },
                events: Some((0, 1)),
            },
            Step {
                packet: &QUERY,
                moment: 2 * SECOND,
                fate: Fate::Made { id: 2, at: 3 },
                events: Some((1, 1)),
            },
            Step {
                packet: &QUERY,
                moment: 3 * SECOND,
                fate: Fate::Passed {
                    label: Label::New,
                    id: 2,
                    at: 4,
                },
                events: Some((2, 1)),
            },
        ],
    };
    holds(&rt, &CASE)
}

#[test]
fn an_expired_entry_is_touched_before_it_is_destroyed(rt: HostRuntime) -> Result<(), Fail> {
    static CASE: Case<'static> = Case {
        rules: "",
        helped: false,
        turns: &[Turn {
            before: Call::Kill,
            act: Act::Touch {
                direction: Direction::Reply,
                segment: Segment::Udp,
                moment: 20 * SECOND,
            },
        }],
        steps: &[
            Step {
                packet: &QUERY,
                moment: SECOND,
                fate: Fate::Made { id: 0, at: 1 },
                events: Some((0, 1)),
            },
            Step {
                packet: &QUERY,
                moment: 31 * SECOND,
                fate: Fate::Passed {
                    label: Label::Established,
                    id: 0,
                    at: 3,
                },
                events: Some((1, 1)),
            },
            Step {
                packet: &QUERY,
                moment: 32 * SECOND,
                fate: Fate::Passed {
                    label: Label::Established,
                    id: 0,
                    at: 4,
                },
                events: Some((2, 1)),
            },
        ],
    };
    holds(&rt, &CASE)
}

/// A turn in which the other pass confirms the flow of the query.
const CONFIRMS: Turn = Turn {
    before: Call::Find,
    act: Act::Confirm(ASKED),
};

#[test]
fn a_fifth_expired_entry_is_left(rt: HostRuntime) -> Result<(), Fail> {
    static CASE: Case<'static> = Case {
        rules: "",
        helped: false,
        turns: &[CONFIRMS, CONFIRMS, CONFIRMS, CONFIRMS, CONFIRMS],
        steps: &[
            Step {
                packet: &QUERY,
                moment: 100 * SECOND,
                fate: Fate::Contended { id: 8, at: 9 },
                events: Some((0, 4)),
            },
            Step {
                packet: &QUERY,
                moment: 101 * SECOND,
                fate: Fate::Made { id: 10, at: 11 },
                events: Some((4, 2)),
            },
        ],
    };
    holds(&rt, &CASE)
}

#[test]
fn the_other_pass_confirms_the_flow_first(rt: HostRuntime) -> Result<(), Fail> {
    static CASE: Case<'static> = Case {
        rules: "",
        helped: false,
        turns: &[Turn {
            before: Call::Take,
            act: Act::Confirm(ASKED),
        }],
        steps: &[
            Step {
                packet: &QUERY,
                moment: SECOND,
                fate: Fate::Merged { id: 0, at: 1 },
                events: Some((0, 0)),
            },
            Step {
                packet: &QUERY,
                moment: 2 * SECOND,
                fate: Fate::Passed {
                    label: Label::New,
                    id: 0,
                    at: 2,
                },
                events: Some((0, 1)),
            },
        ],
    };
    holds(&rt, &CASE)
}

#[test]
fn the_other_pass_confirms_the_connection_first(rt: HostRuntime) -> Result<(), Fail> {
    static CASE: Case<'static> = Case {
        rules: "",
        helped: false,
        turns: &[Turn {
            before: Call::Take,
            act: Act::Confirm(OPENED),
        }],
        steps: &[
            Step {
                packet: &SYN,
                moment: SECOND,
                fate: Fate::Clash { id: 0, at: 1 },
                events: Some((0, 0)),
            },
            Step {
                packet: &SYN,
                moment: 2 * SECOND,
                fate: Fate::Passed {
                    label: Label::New,
                    id: 0,
                    at: 2,
                },
                events: Some((0, 1)),
            },
        ],
    };
    holds(&rt, &CASE)
}

/// The flow of another client's query with the same reply tuple.
const ELSEWHERE: Flow = Flow {
    original: Tuple {
        src: 0x0a00_0003,
        ..ASKS
    },
    ..ASKED
};

#[test]
fn the_other_pass_confirms_a_flow_with_the_reply_tuple_first(rt: HostRuntime) -> Result<(), Fail> {
    static CASE: Case<'static> = Case {
        rules: "",
        helped: false,
        turns: &[Turn {
            before: Call::Take,
            act: Act::Confirm(ELSEWHERE),
        }],
        steps: &[
            Step {
                packet: &QUERY,
                moment: SECOND,
                fate: Fate::Clash { id: 0, at: 1 },
                events: Some((0, 0)),
            },
            Step {
                packet: &QUERY,
                moment: 2 * SECOND,
                fate: Fate::Clash { id: 0, at: 1 },
                events: Some((0, 0)),
            },
        ],
    };
    holds(&rt, &CASE)
}

/// The flow of the query the other way round.
const REVERSED: Flow = Flow {
    original: ANSWERS,
    reply: ASKS,
    ..ASKED
};

#[test]
fn the_other_pass_confirms_the_flow_the_other_way_round_first(rt: HostRuntime) -> Result<(), Fail> {
    static CASE: Case<'static> = Case {
        rules: "",
        helped: false,
        turns: &[Turn {
            before: Call::Take,
            act: Act::Confirm(REVERSED),
        }],
        steps: &[
            Step {
                packet: &QUERY,
                moment: SECOND,
                fate: Fate::Clash { id: 0, at: 1 },
                events: Some((0, 0)),
            },
            Step {
                packet: &QUERY,
                moment: 2 * SECOND,
                fate: Fate::Passed {
                    label: Label::EstablishedReply,
                    id: 0,
                    at: 2,
                },
                events: Some((0, 1)),
            },
        ],
    };
    holds(&rt, &CASE)
}

#[test]
fn a_reset_connection_goes_before_it_is_destroyed(rt: HostRuntime) -> Result<(), Fail> {
    static CASE: Case<'static> = Case {
        rules: "",
        helped: false,
        turns: &[Turn {
            before: Call::Kill,
            act: Act::Expire(LATE),
        }],
        steps: &[
            Step {
                packet: &SYN,
                moment: SECOND,
                fate: Fate::Made { id: 0, at: 1 },
                events: Some((0, 1)),
            },
            Step {
                packet: &RST,
                moment: 2 * SECOND,
                fate: Fate::NoEntry { at: 2 },
                events: Some((1, 0)),
            },
            Step {
                packet: &SYN,
                moment: 3 * SECOND,
                fate: Fate::Made { id: 2, at: 3 },
                events: Some((1, 1)),
            },
        ],
    };
    holds(&rt, &CASE)
}

/// The query's answer, sent to the port 7000 of 192.0.2.1.
const ANSWERS_TO_7000: Tuple = Tuple {
    dst: 0xc000_0201,
    b: 7000,
    ..ANSWERS
};

/// The same, sent to the port 5000.
const ANSWERS_TO_5000: Tuple = Tuple {
    dst: 0xc000_0201,
    b: 5000,
    ..ANSWERS
};

/// The flow of another client's query that has the reply tuple which a rule chooses.
const OTHER_TO_7000: Flow = Flow {
    reply: ANSWERS_TO_7000,
    ..ELSEWHERE
};

#[test]
fn the_chosen_reply_tuple_is_taken_first(rt: HostRuntime) -> Result<(), Fail> {
    static CASE: Case<'static> = Case {
        rules: "snat -p udp to 192.0.2.1:7000",
        helped: false,
        turns: &[Turn {
            before: Call::Take,
            act: Act::Confirm(OTHER_TO_7000),
        }],
        steps: &[
            Step {
                packet: &QUERY,
                moment: SECOND,
                fate: Fate::ClashByRule {
                    id: 0,
                    at: 1,
                    reply: ANSWERS_TO_7000,
                },
                events: None,
            },
            Step {
                packet: &QUERY,
                moment: 2 * SECOND,
                fate: Fate::NoPort { from: 1, to: 1 },
                events: None,
            },
        ],
    };
    holds(&rt, &CASE)
}

/// The flow of the query with that reply tuple.
const SAME_TO_7000: Flow = Flow {
    reply: ANSWERS_TO_7000,
    ..ASKED
};

#[test]
fn the_translated_flow_is_confirmed_first(rt: HostRuntime) -> Result<(), Fail> {
    static CASE: Case<'static> = Case {
        rules: "snat -p udp to 192.0.2.1:7000",
        helped: false,
        turns: &[Turn {
            before: Call::Take,
            act: Act::Confirm(SAME_TO_7000),
        }],
        steps: &[Step {
            packet: &QUERY,
            moment: SECOND,
            fate: Fate::Merged { id: 0, at: 1 },
            events: None,
        }],
    };
    holds(&rt, &CASE)
}

/// The flow of another client's query that has the port of the query's own.
const OTHER_TO_5000: Flow = Flow {
    reply: ANSWERS_TO_5000,
    ..ELSEWHERE
};

#[test]
fn the_flows_own_port_is_taken_after_its_tuple_was_looked_up(rt: HostRuntime) -> Result<(), Fail> {
    static CASE: Case<'static> = Case {
        rules: "snat to 192.0.2.1",
        helped: false,
        turns: &[
            Turn {
                before: Call::Find,
                act: Act::Nothing,
            },
            Turn {
                before: Call::Find,
                act: Act::Confirm(OTHER_TO_5000),
            },
        ],
        steps: &[Step {
            packet: &QUERY,
            moment: SECOND,
            fate: Fate::MadeByRule {
                id: 1,
                at: 2,
                unclaimed: Some(1),
                own: 5000,
                taken_at: 1,
            },
            events: None,
        }],
    };
    holds(&rt, &CASE)
}
