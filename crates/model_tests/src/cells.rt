//! The tables at cells that are typed from their rules.

use case_grid::{droppable_cells, flag_sets, tcp_original, tcp_reply};

#[test]
fn flag_sets_of_segments(rt: HostRuntime) {
    let sets = flag_sets();
    for (name, row, column, valid) in [
        ("SYN", 0, 2, 1),
        ("SYN and ACK", 1, 2, 1),
        ("ACK", 1, 0, 1),
        ("FIN and ACK", 1, 1, 1),
        ("RST", 0, 4, 1),
        ("RST and ACK", 1, 4, 1),
        ("URG and ACK", 3, 0, 1),
        ("FIN, URG and ACK", 3, 1, 1),
        ("SYN and URG", 2, 2, 1),
        ("none", 0, 0, 0),
        ("FIN", 0, 1, 0),
        ("SYN and FIN", 0, 3, 0),
        ("SYN, FIN and ACK", 1, 3, 0),
        ("RST and SYN", 0, 6, 0),
        ("SYN, URG and ACK", 3, 2, 0),
        ("RST, URG and ACK", 3, 4, 0),
        ("all", 3, 7, 0),
    ] {
        assert_eq!(rt; sets.at(row, column), valid, "{name}");
    }
}

#[test]
fn states_of_a_connection(rt: HostRuntime) {
    let original = tcp_original();
    for (name, row, column, cell) in [
        ("SYN begins", 0, 0, 1),
        ("SYN reopens after TIME_WAIT", 0, 7, 1),
        ("SYN from SYN_SENT2", 0, 9, 9),
        ("SYN and ACK from SYN_SENT", 1, 1, 10),
        ("FIN from ESTABLISHED", 2, 3, 4),
        ("ACK begins", 3, 0, 3),
        ("RST from SYN_SENT", 4, 1, 8),
        ("none from CLOSE", 5, 8, 10),
    ] {
        assert_eq!(rt; original.at(row, column), cell, "{name}");
    }
    let reply = tcp_reply();
    for (name, row, column, cell) in [
        ("SYN from SYN_SENT", 0, 1, 9),
        ("SYN and ACK from SYN_SENT", 1, 1, 2),
        ("SYN and ACK from TIME_WAIT", 1, 7, 11),
        ("FIN from FIN_WAIT", 2, 4, 6),
        ("ACK from SYN_SENT2", 3, 9, 11),
        ("RST of no connection", 4, 0, 10),
    ] {
        assert_eq!(rt; reply.at(row, column), cell, "{name}");
    }
}

#[test]
fn entries_that_may_go(rt: HostRuntime) {
    let cells = droppable_cells();
    for (name, row, column, cell) in [
        ("a flow that is not assured", 0, 0, 1),
        ("an assured flow of UDP", 1, 0, 0),
        ("a connection that begins", 2, 1, 1),
        ("an established one that is not assured", 2, 3, 1),
        ("an assured one in SYN_RECV", 3, 2, 0),
        ("an assured one that is established", 3, 3, 0),
        ("an assured one in FIN_WAIT", 3, 4, 1),
        ("an assured one that is closed", 3, 8, 1),
        ("an assured one in SYN_SENT2", 3, 9, 0),
    ] {
        assert_eq!(rt; cells.at(row, column), cell, "{name}");
    }
}
