//! A table of fewer places than there are threads, before a flush and behind it.

use super::confirms::is_reached;
use super::threads::TURNS;
use super::{REPLAYED, SCRIPT, SECOND};
use crate::case::{Case, Number, Text, holds_through};
use crate::content::Content;
use ct_io::{Crossing, Gate};
use std::sync::atomic::{AtomicU64, Ordering};
use std::test::Fail;

/// The thread of the last capture, and that of the script.
const LAST: u32 = 62;

const SCRIPTED: u32 = 63;

/// A gate at which the script waits until each thread but the last is done with its query, and the last one until the
/// script has performed its first command.
#[derive(Drop)]
struct InTurn {
    packets: AtomicU64,
    commands: AtomicU64,
    missed: AtomicU64,
}

impl InTurn {
    /// Waits until a count is so high.
    fn wait(&self, count: &AtomicU64, least: u64) {
        if !is_reached(count, least, TURNS) {
            self.missed.fetch_add(1, Ordering::SeqCst);
        }
    }
}

impl Gate for InTurn {
    fn at(&self, worker: u32, crossing: Crossing) {
        match (worker, crossing) {
            (_, Crossing::InConfirm) => {}
            (LAST, _) => self.wait(&self.commands, 2),
            (SCRIPTED, _) => {
                self.commands.fetch_add(1, Ordering::SeqCst);
                self.wait(&self.packets, 124);
            }
            (_, _) => {
                self.packets.fetch_add(1, Ordering::SeqCst);
            }
        }
    }
}

/// 62 flows want one of twenty places, each in a thread of its own: some drop others, some may find none to drop. Once all are
/// flushed no place is lost: twenty flows of another thread are confirmed.
#[test]
fn no_place_is_lost(rt: HostRuntime) -> Result<(), Fail> {
    static CASE: Case<'static> = Case {
        words: &[
            "ctreplay",
            "--entries=20",
            "--script",
            SCRIPT,
            "--summary",
            "00",
            "01",
            "02",
            "03",
            "04",
            "05",
            "06",
            "07",
            "08",
            "09",
            "10",
            "11",
            "12",
            "13",
            "14",
            "15",
            "16",
            "17",
            "18",
            "19",
            "20",
            "21",
            "22",
            "23",
            "24",
            "25",
            "26",
            "27",
            "28",
            "29",
            "30",
            "31",
            "32",
            "33",
            "34",
            "35",
            "36",
            "37",
            "38",
            "39",
            "40",
            "41",
            "42",
            "43",
            "44",
            "45",
            "46",
            "47",
            "48",
            "49",
            "50",
            "51",
            "52",
            "53",
            "54",
            "55",
            "56",
            "57",
            "58",
            "59",
            "60",
            "61",
            SECOND,
        ],
        files: &[
            (SCRIPT, Content::Text("-F\n-C\n")),
            ("00", Content::Asked(0x0a00_0001)),
            ("01", Content::Asked(0x0a00_0002)),
            ("02", Content::Asked(0x0a00_0003)),
            ("03", Content::Asked(0x0a00_0004)),
            ("04", Content::Asked(0x0a00_0005)),
            ("05", Content::Asked(0x0a00_0006)),
            ("06", Content::Asked(0x0a00_0007)),
            ("07", Content::Asked(0x0a00_0008)),
            ("08", Content::Asked(0x0a00_0009)),
            ("09", Content::Asked(0x0a00_000a)),
            ("10", Content::Asked(0x0a00_000b)),
            ("11", Content::Asked(0x0a00_000c)),
            ("12", Content::Asked(0x0a00_000d)),
            ("13", Content::Asked(0x0a00_000e)),
            ("14", Content::Asked(0x0a00_000f)),
            ("15", Content::Asked(0x0a00_0010)),
            ("16", Content::Asked(0x0a00_0011)),
            ("17", Content::Asked(0x0a00_0012)),
            ("18", Content::Asked(0x0a00_0013)),
            ("19", Content::Asked(0x0a00_0014)),
            ("20", Content::Asked(0x0a00_0015)),
            ("21", Content::Asked(0x0a00_0016)),
            ("22", Content::Asked(0x0a00_0017)),
            ("23", Content::Asked(0x0a00_0018)),
            ("24", Content::Asked(0x0a00_0019)),
            ("25", Content::Asked(0x0a00_001a)),
            ("26", Content::Asked(0x0a00_001b)),
            ("27", Content::Asked(0x0a00_001c)),
            ("28", Content::Asked(0x0a00_001d)),
            ("29", Content::Asked(0x0a00_001e)),
            ("30", Content::Asked(0x0a00_001f)),
            ("31", Content::Asked(0x0a00_0020)),
            ("32", Content::Asked(0x0a00_0021)),
            ("33", Content::Asked(0x0a00_0022)),
            ("34", Content::Asked(0x0a00_0023)),
            ("35", Content::Asked(0x0a00_0024)),
            ("36", Content::Asked(0x0a00_0025)),
            ("37", Content::Asked(0x0a00_0026)),
            ("38", Content::Asked(0x0a00_0027)),
            ("39", Content::Asked(0x0a00_0028)),
            ("40", Content::Asked(0x0a00_0029)),
            ("41", Content::Asked(0x0a00_002a)),
            ("42", Content::Asked(0x0a00_002b)),
            ("43", Content::Asked(0x0a00_002c)),
            ("44", Content::Asked(0x0a00_002d)),
            ("45", Content::Asked(0x0a00_002e)),
            ("46", Content::Asked(0x0a00_002f)),
            ("47", Content::Asked(0x0a00_0030)),
            ("48", Content::Asked(0x0a00_0031)),
            ("49", Content::Asked(0x0a00_0032)),
            ("50", Content::Asked(0x0a00_0033)),
            ("51", Content::Asked(0x0a00_0034)),
            ("52", Content::Asked(0x0a00_0035)),
            ("53", Content::Asked(0x0a00_0036)),
            ("54", Content::Asked(0x0a00_0037)),
            ("55", Content::Asked(0x0a00_0038)),
            ("56", Content::Asked(0x0a00_0039)),
            ("57", Content::Asked(0x0a00_003a)),
            ("58", Content::Asked(0x0a00_003b)),
            ("59", Content::Asked(0x0a00_003c)),
            ("60", Content::Asked(0x0a00_003d)),
            ("61", Content::Asked(0x0a00_003e)),
            (SECOND, Content::Ports(0x0a01_0001, 20)),
        ],
        out: Text::Numbers(
            "summary threads=63 packets=144 events=",
            &[
                (0, 4, Number::Is(20)),
                (1, 1, Number::Is(62)),
                (2, 1, Number::Within(40, 82)),
            ],
        ),
        ..REPLAYED
    };
    let gate = InTurn {
        packets: AtomicU64::new(0),
        commands: AtomicU64::new(0),
        missed: AtomicU64::new(0),
    };
    holds_through(&rt, &CASE, &gate, 0)?;
    assert_eq!(rt;
        gate.missed.load(Ordering::SeqCst),
        0,
        "a thread waited in vain"
    );
    Ok(())
}
