//! Command lines of made workloads.

use super::{USUAL, Wanted, are_misused, are_past, are_zeros, flags_wanted, split};
use command_words::{Asked, Origin, WordsLimit, Workload, read_words};
use std::alloc::{AllocError, Global};
use std::process::Abort;
use std::test::Fail;

/// Whether this workload is asked for, with the entries and the flags that are wanted.
fn is_made(asked: &Asked<'_>, workload: (u32, u32, u32), wanted: &Wanted<'_>) -> bool {
    let made = match asked.origin {
        Origin::Made(
            Workload {
                seed,
                packets,
                threads,
            },
        ) => (seed, packets, threads) == workload,
        Origin::Named(_) => false,
    };
    made && are_zeros(asked.zones.as_slice(), workload.2 as usize)
        && asked.entries == wanted.entries
        && flags_wanted(asked, wanted)
}

/// Whether the line asks for this.
fn makes(
    alloc: Global,
    line: &str,
    workload: (u32, u32, u32),
    wanted: &Wanted<'_>,
) -> Result<bool, AllocError> {
    let words = split(alloc, line)?;
    match read_words(alloc, words.as_slice()) {
        Ok(asked) => Ok(is_made(&asked, workload, wanted)),
        Err(_) => Ok(false),
    }
}

/// The line asks for this.
fn is_asked<R: Abort + AllocGlobal>(
    rt: &R,
    line: &str,
    workload: (u32, u32, u32),
    wanted: &Wanted<'_>,
) -> Result<(), Fail> {
    assert!(rt; makes(rt.alloc(), line, workload, wanted)?, "{line}");
    Ok(())
}

#[test]
fn workloads(rt: HostRuntime) -> Result<(), Fail> {
    static CASES: &[(&str, (u32, u32, u32))] = &[
        ("ctreplay --make 0 --packets 8 --threads 2", (0, 8, 2)),
        ("ctreplay --make=0 --packets=8 --threads=2", (0, 8, 2)),
        ("ctreplay --threads 2 --packets 8 --make 0 --", (0, 8, 2)),
        (
            "ctreplay --make 4294967295 --packets 1 --threads 63",
            (4_294_967_295, 1, 63),
        ),
        (
            "ctreplay --make 0000000001 --packets 262144 --threads 1",
            (1, 262_144, 1),
        ),
        (
            "ctreplay --make 7 --packets 4160 --threads 63",
            (7, 4_160, 63),
        ),
    ];
    for (line, workload) in CASES {
        is_asked(&rt, line, *workload, &USUAL)?;
    }
    Ok(())
}

#[test]
fn workloads_with_options(rt: HostRuntime) -> Result<(), Fail> {
    static CASES: &[(&str, Wanted<'static>)] = &[
        (
            "ctreplay --make 0 --packets 8 --threads 2 --entries 4",
            Wanted {
                entries: 4,
                ..USUAL
            },
        ),
        (
            "ctreplay --entries 5 --summary --make 0 --packets 8 --threads 2",
            Wanted {
                entries: 5,
                summary: true,
                ..USUAL
            },
        ),
        (
            "ctreplay --make 0 --packets 8 --threads 2 --defrag",
            Wanted {
                defrag: true,
                ..USUAL
            },
        ),
        (
            "ctreplay --make 0 --listen --packets 8 --threads 2",
            Wanted {
                listen: true,
                ..USUAL
            },
        ),
        (
            "ctreplay --rewrite --make 0 --packets 8 --threads 2",
            Wanted {
                rewrite: true,
                ..USUAL
            },
        ),
    ];
    for (line, wanted) in CASES {
        is_asked(&rt, line, (0, 8, 2), wanted)?;
    }
    Ok(())
}

#[test]
fn no_workloads(rt: HostRuntime) -> Result<(), Fail> {
    static LINES: &[&str] = &[
        "ctreplay --make 0",
        "ctreplay --make 0 --packets 8",
        "ctreplay --make 0 --threads 2",
        "ctreplay --packets 8 --threads 2",
        "ctreplay --packets 8",
        "ctreplay --threads 2",
        "ctreplay --make=0 c",
        "ctreplay --packets 8 c",
        "ctreplay --packets 8 --threads 2 c",
        "ctreplay --make 0 --threads 2 c",
        "ctreplay --make 0 --packets 8 c",
        "ctreplay --make 0 --packets 8 --threads 2 c",
        "ctreplay --make 0 --packets 8 --threads 2 -- c",
        "ctreplay --make 0 --packets 8 --threads 2 --rules f",
        "ctreplay --make 0 --packets 8 --threads 2 --script s",
        "ctreplay --make 0 --packets 8 --threads 2 --zones 1,2",
        "ctreplay --zones 0,0 --make 0 --packets 8 --threads 2",
        "ctreplay --make 0 --packets 8 --threads 2 --zones=",
        "ctreplay --make 0 --packets 8 --threads 2 ",
        "ctreplay --make= --packets 8 --threads 2",
        "ctreplay --make x --packets 8 --threads 2",
        "ctreplay --make=-1 --packets 8 --threads 2",
        "ctreplay --make 00000000000 --packets 8 --threads 2",
        "ctreplay --make 0 --packets 8. --threads 2",
        "ctreplay --make 0 --packets 10000000000 --threads 2",
        "ctreplay --make 0 --packets 8 --threads +2",
        "ctreplay --make 0 --packets 8 --threads",
        // The form is before all limits.
        "ctreplay --make 4294967296 --packets 8",
        "ctreplay --make 0 --packets 0 --threads 2 --buckets 3",
        "ctreplay --make 0 --packets 0 --threads 2 --ftp 0",
    ];
    are_misused(&rt, LINES)
}

#[test]
fn limits(rt: HostRuntime) -> Result<(), Fail> {
    static CASES: &[(&str, WordsLimit)] = &[
        (
            "ctreplay --make 4294967296 --packets 8 --threads 2",
            WordsLimit::Seed,
        ),
        (
            "ctreplay --make 0 --packets 0 --threads 2",
            WordsLimit::Packets,
        ),
        (
            "ctreplay --make 0 --packets 262145 --threads 2",
            WordsLimit::Packets,
        ),
        (
            "ctreplay --make 0 --packets 4294967297 --threads 2",
            WordsLimit::Packets,
        ),
        (
            "ctreplay --make 0 --packets 8 --threads 0",
            WordsLimit::Threads,
        ),
        (
            "ctreplay --make 0 --packets 8 --threads 64",
            WordsLimit::Threads,
        ),
        (
            "ctreplay --make 0 --packets 8 --threads 4294967297",
            WordsLimit::Threads,
        ),
        (
            "ctreplay --make 0 --packets 8 --threads 2 --entries 3",
            WordsLimit::Flows,
        ),
        (
            "ctreplay --make 0 --packets 9 --threads 1 --entries 2",
            WordsLimit::Flows,
        ),
        (
            "ctreplay --make 0 --packets 4161 --threads 63",
            WordsLimit::Flows,
        ),
        (
            "ctreplay --make 0 --packets 262144 --threads 2",
            WordsLimit::Flows,
        ),
        // The first that is passed is told.
        (
            "ctreplay --make 4294967296 --packets 0 --threads 0 --buckets 131072 --entries 0",
            WordsLimit::Entries,
        ),
        (
            "ctreplay --make 4294967296 --packets 0 --threads 0 --buckets 131072",
            WordsLimit::Buckets,
        ),
        (
            "ctreplay --make 4294967296 --packets 0 --threads 0",
            WordsLimit::Seed,
        ),
        (
            "ctreplay --make 0 --packets 0 --threads 0",
            WordsLimit::Packets,
        ),
        (
            "ctreplay --make 0 --packets 262144 --threads 64",
            WordsLimit::Threads,
        ),
    ];
    are_past(&rt, CASES)
}
