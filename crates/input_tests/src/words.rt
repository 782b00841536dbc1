//! Command lines, and what they ask for.

use command_words::{Asked, Named, Origin, WordsError, WordsLimit, read_words};
use std::alloc::{AllocError, Global};
use std::process::Abort;
use std::test::Fail;

mod made;

/// The words of a line, which stand between single spaces.
fn split(alloc: Global, line: &str) -> Result<Vec<String>, AllocError> {
    let mut words = Vec::new(alloc);
    for word in line.split(' ') {
        words.push(String::from_str(alloc, word)?)?;
    }
    Ok(words)
}

/// The answer to a line that asks for nothing.
fn fault(alloc: Global, line: &str) -> Result<Option<WordsError>, AllocError> {
    let words = split(alloc, line)?;
    match read_words(alloc, words.as_slice()) {
        Ok(_) => Ok(None),
        Err(why) => Ok(Some(why)),
    }
}

/// No line has the form.
fn are_misused<R: Abort + AllocGlobal>(rt: &R, lines: &[&str]) -> Result<(), Fail> {
    for line in lines {
        assert!(rt;
            fault(rt.alloc(), line)? == Some(WordsError::Usage),
            "{line}"
        );
    }
    Ok(())
}

/// Each line passes the limit beside it.
fn are_past<R: Abort + AllocGlobal>(rt: &R, cases: &[(&str, WordsLimit)]) -> Result<(), Fail> {
    for (line, limit) in cases {
        assert!(rt;
            fault(rt.alloc(), line)? == Some(WordsError::Limit(*limit)),
            "{line}"
        );
    }
    Ok(())
}

/// What a line asks for.
#[derive(Drop)]
struct Wanted<'a> {
    rules: Option<&'a str>,
    script: Option<&'a str>,
    captures: &'a [&'a str],
    /// Without a list each capture is in zone 0.
    zones: Option<&'a [u16]>,
    entries: u32,
    buckets: u32,
    ftp: &'a [u16],
    summary: bool,
    defrag: bool,
    listen: bool,
    rewrite: bool,
}

/// What is wanted of a line without options.
const USUAL: Wanted<'static> = Wanted {
    rules: None,
    script: None,
    captures: &["c"],
    zones: None,
    entries: 65_536,
    buckets: 16_384,
    ftp: &[21],
    summary: false,
    defrag: false,
    listen: false,
    rewrite: false,
};

/// Whether these are the files that are wanted.
fn names_wanted(names: &Named<'_>, wanted: &Wanted<'_>) -> bool {
    names.rules == wanted.rules
        && names.script == wanted.script
        && names.captures.as_slice() == wanted.captures
}

/// Whether so many captures are all in zone 0.
fn are_zeros(zones: &[u16], captures: usize) -> bool {
    zones.len() == captures && zones.iter().all(|zone| *zone == 0)
}

/// Whether these are the zones that are wanted.
fn zones_wanted(zones: &[u16], wanted: &Wanted<'_>) -> bool {
    match wanted.zones {
        Some(listed) => zones == listed,
        None => are_zeros(zones, wanted.captures.len()),
    }
}

/// Whether the flags are those that are wanted.
fn flags_wanted(asked: &Asked<'_>, wanted: &Wanted<'_>) -> bool {
    asked.summary == wanted.summary
        && asked.defrag == wanted.defrag
        && asked.listen == wanted.listen
        && asked.rewrite == wanted.rewrite
}

/// Whether it is what is wanted.
fn is_wanted(asked: &Asked<'_>, wanted: &Wanted<'_>) -> bool {
    let named = match &asked.origin {
        Origin::Named(names) => names_wanted(names, wanted),
        Origin::Made(_) => false,
    };
    named
        && zones_wanted(asked.zones.as_slice(), wanted)
        && asked.entries == wanted.entries
        && asked.buckets == wanted.buckets
        && asked.ftp.as_slice() == wanted.ftp
        && flags_wanted(asked, wanted)
}

/// Whether the line asks for what is wanted.
fn asks(alloc: Global, line: &str, wanted: &Wanted<'_>) -> Result<bool, AllocError> {
    let words = split(alloc, line)?;
    match read_words(alloc, words.as_slice()) {
        Ok(asked) => Ok(is_wanted(&asked, wanted)),
        Err(_) => Ok(false),
    }
}

/// The line asks for what is wanted.
fn is_asked<R: Abort + AllocGlobal>(rt: &R, line: &str, wanted: &Wanted<'_>) -> Result<(), Fail> {
    assert!(rt; asks(rt.alloc(), line, wanted)?, "{line}");
    Ok(())
}

#[test]
fn missing_words(rt: HostRuntime) -> Result<(), Fail> {
    static LINES: &[&str] = &[
        "ctreplay",
        "c.pcap",
        "ctreplay --rules",
        "ctreplay --rules f",
        "ctreplay c --rules",
        "ctreplay c --script",
        "ctreplay c --entries",
        "ctreplay c --buckets",
        "ctreplay c --ftp",
        "ctreplay c --zones",
        "ctreplay --zones 1",
        "ctreplay --summary",
        "ctreplay --defrag",
        "ctreplay --listen",
        "ctreplay --rewrite",
    ];
    are_misused(&rt, LINES)
}

#[test]
fn repeated_and_unknown_options(rt: HostRuntime) -> Result<(), Fail> {
    static LINES: &[&str] = &[
        "ctreplay --rules --script s c",
        "ctreplay --rules a --rules b c",
        "ctreplay --script a --script a c",
        "ctreplay --entries 5 --entries=5 c",
        "ctreplay --buckets 4 c --buckets 4",
        "ctreplay --ftp 21 --ftp 21 c",
        "ctreplay --zones 1 --zones 1 c",
        "ctreplay --zone 1 c",
        "ctreplay --rule f c",
        "ctreplay --Rules f c",
        "ctreplay -rules f c",
        "ctreplay -r f c",
        "ctreplay -c",
        "ctreplay --make 0 --make 0 --packets 8 --threads 2",
        "ctreplay --make 0 --packets 8 --packets 8 --threads 2",
        "ctreplay --make 0 --packets 8 --threads 2 --threads 2",
    ];
    are_misused(&rt, LINES)
}

#[test]
fn repeated_and_unknown_flags(rt: HostRuntime) -> Result<(), Fail> {
    static LINES: &[&str] = &[
        "ctreplay --summary --summary c",
        "ctreplay --summary=true c",
        "ctreplay --summary= c",
        "ctreplay -s c",
        "ctreplay --defrag --defrag c",
        "ctreplay --defrag=true c",
        "ctreplay --defrag= c",
        "ctreplay --defra c",
        "ctreplay --listen --listen c",
        "ctreplay --listen c --listen",
        "ctreplay --listen=true c",
        "ctreplay --listen= c",
        "ctreplay --liste c",
        "ctreplay --Listen c",
        "ctreplay --listens c",
        "ctreplay --rewrite --rewrite c",
        "ctreplay --rewrite c --rewrite",
        "ctreplay --rewrite=true c",
        "ctreplay --rewrite= c",
        "ctreplay --rewrit c",
        "ctreplay --Rewrite c",
        "ctreplay --rewrites c",
    ];
    are_misused(&rt, LINES)
}

#[test]
fn other_options(rt: HostRuntime) -> Result<(), Fail> {
    static LINES: &[&str] = &[
        "ctreplay -1",
        "ctreplay --help",
        "ctreplay -h",
        "ctreplay --version c",
        "ctreplay -V c",
        "ctreplay --",
        "ctreplay --rules -- c",
        "ctreplay --rules -f c",
        "ctreplay --captures c",
    ];
    are_misused(&rt, LINES)
}

#[test]
fn no_entries(rt: HostRuntime) -> Result<(), Fail> {
    static LINES: &[&str] = &[
        "ctreplay --entries  c",
        "ctreplay --entries= c",
        "ctreplay --entries x c",
        "ctreplay --entries +5 c",
        "ctreplay --entries=-5 c",
        "ctreplay --entries 0x10 c",
        "ctreplay --entries 5. c",
        "ctreplay --entries 00000000005 c",
        "ctreplay --entries 99999999999 c",
    ];
    are_misused(&rt, LINES)
}

#[test]
fn no_powers_of_two(rt: HostRuntime) -> Result<(), Fail> {
    static LINES: &[&str] = &[
        "ctreplay --buckets 0 c",
        "ctreplay --buckets 3 c",
        "ctreplay --buckets 65535 c",
        "ctreplay --buckets 65537 c",
        "ctreplay --buckets 4294967295 c",
        "ctreplay --buckets 00000000016 c",
        "ctreplay --buckets= c",
    ];
    are_misused(&rt, LINES)
}

#[test]
fn no_ports(rt: HostRuntime) -> Result<(), Fail> {
    static LINES: &[&str] = &[
        "ctreplay --ftp= c",
        "ctreplay --ftp  c",
        "ctreplay --ftp , c",
        "ctreplay --ftp 21, c",
        "ctreplay --ftp ,21 c",
        "ctreplay --ftp 21,,22 c",
        "ctreplay --ftp 0 c",
        "ctreplay --ftp 65536 c",
        "ctreplay --ftp 000021 c",
        "ctreplay --ftp 21,x c",
        "ctreplay --ftp 21;22 c",
        "ctreplay --ftp 1,2,3,4,5,6,7,8,9 c",
        "ctreplay --ftp 1,2,3,4,5,6,7,8, c",
    ];
    are_misused(&rt, LINES)
}

#[test]
fn no_zones(rt: HostRuntime) -> Result<(), Fail> {
    static LINES: &[&str] = &[
        "ctreplay --zones= c",
        "ctreplay --zones  c",
        "ctreplay --zones , c",
        "ctreplay --zones 1, c",
        "ctreplay --zones ,1 c",
        "ctreplay --zones 1,,2 a b",
        "ctreplay --zones 65536 c",
        "ctreplay --zones 000007 c",
        "ctreplay --zones +7 c",
        "ctreplay --zones=-1 c",
        "ctreplay --zones 0x7 c",
        "ctreplay --zones x c",
        "ctreplay --zones 1,x a b",
        "ctreplay --zones 1;2 a b",
        // There is one for each capture.
        "ctreplay --zones 1,2 c",
        "ctreplay --zones 1 a b",
        "ctreplay --zones 1,2 a b c",
        "ctreplay --zones 1,2, a b",
        "ctreplay --zones 1,2,3,4 a b c",
        "ctreplay --zones 1 2 a b",
    ];
    are_misused(&rt, LINES)
}

#[test]
fn form_before_limits(rt: HostRuntime) -> Result<(), Fail> {
    static LINES: &[&str] = &[
        "ctreplay --entries 0 --buckets 3 c",
        "ctreplay --entries 65537 --ftp 0 c",
        "ctreplay --entries 0",
        "ctreplay --buckets 131072 --ftp 21,0 c",
        "ctreplay --buckets 131072 --zones 1,2 c",
        "ctreplay --entries 0 --zones 65536 c",
    ];
    are_misused(&rt, LINES)
}

#[test]
fn no_words(rt: HostRuntime) {
    let answer = read_words(rt.alloc(), &[]);
    assert!(rt; matches!(answer, Err(WordsError::Usage)));
}

#[test]
fn limits(rt: HostRuntime) -> Result<(), Fail> {
    static CASES: &[(&str, WordsLimit)] = &[
        ("ctreplay --entries 0 c", WordsLimit::Entries),
        ("ctreplay --entries 0000000000 c", WordsLimit::Entries),
        ("ctreplay --entries 65537 c", WordsLimit::Entries),
        ("ctreplay --entries 4294967297 c", WordsLimit::Entries),
        ("ctreplay --entries 9999999999 c", WordsLimit::Entries),
        ("ctreplay --buckets 131072 c", WordsLimit::Buckets),
        ("ctreplay --buckets 4294967296 c", WordsLimit::Buckets),
        ("ctreplay --buckets 8589934592 c", WordsLimit::Buckets),
        // The first that is passed is told.
        (
            "ctreplay --buckets 131072 c --entries 0",
            WordsLimit::Entries,
        ),
    ];
    are_past(&rt, CASES)
}

/// The answer to a line with these options and so many captures.
fn fault_with(
    alloc: Global,
    options: &str,
    captures: u32,
) -> Result<Option<WordsError>, AllocError> {
    let mut line = String::from_str(alloc, options)?;
    for _ in 0..captures {
        line.push_str(" c")?;
    }
    fault(alloc, line.as_str())
}

#[test]
fn many_captures(rt: HostRuntime) -> Result<(), Fail> {
    let alloc = rt.alloc();
    let too_many = Some(WordsError::Limit(WordsLimit::Captures));
    let too_many_buckets = Some(WordsError::Limit(WordsLimit::Buckets));
    assert!(rt; fault_with(alloc, "ctreplay", 63)?.is_none());
    assert!(rt; fault_with(alloc, "ctreplay", 64)? == too_many);
    assert!(rt; fault_with(alloc, "ctreplay --ftp 1 --", 64)? == too_many);
    assert!(rt; fault_with(alloc, "ctreplay --ftp 0", 64)? == Some(WordsError::Usage));
    assert!(rt; fault_with(alloc, "ctreplay --buckets 131072", 64)? == too_many_buckets);
    Ok(())
}

#[test]
fn captures(rt: HostRuntime) -> Result<(), Fail> {
    static CASES: &[(&str, &[&str])] = &[
        ("ctreplay c", &["c"]),
        ("ctreplay -- c", &["c"]),
        ("ctreplay c --", &["c"]),
        ("ctreplay -- -c", &["-c"]),
        ("ctreplay -- --rules", &["--rules"]),
        ("ctreplay -- --", &["--"]),
        ("ctreplay -", &["-"]),
        ("ctreplay ", &[""]),
        ("ctreplay a b a", &["a", "b", "a"]),
        ("ctreplay b  a", &["b", "", "a"]),
        ("ctreplay rules help", &["rules", "help"]),
        // The first word is not looked at.
        ("--rules c", &["c"]),
        (" c", &["c"]),
    ];
    for (line, captures) in CASES {
        let wanted = Wanted { captures, ..USUAL };
        is_asked(&rt, line, &wanted)?;
    }
    Ok(())
}

#[test]
fn names(rt: HostRuntime) -> Result<(), Fail> {
    static CASES: &[(&str, Option<&str>, Option<&str>)] = &[
        ("ctreplay --rules f c", Some("f"), None),
        ("ctreplay --rules=f c", Some("f"), None),
        ("ctreplay c --rules f", Some("f"), None),
        ("ctreplay --rules= c", Some(""), None),
        ("ctreplay --rules  c", Some(""), None),
        ("ctreplay --rules=-f c", Some("-f"), None),
        ("ctreplay --rules==f c", Some("=f"), None),
        ("ctreplay --rules - c", Some("-"), None),
        ("ctreplay --rules=-- c", Some("--"), None),
        ("ctreplay --rules=--script c", Some("--script"), None),
        ("ctreplay --script s c", None, Some("s")),
        ("ctreplay c --script=s", None, Some("s")),
        ("ctreplay --script s --rules f c", Some("f"), Some("s")),
        ("ctreplay --rules f c --script s", Some("f"), Some("s")),
    ];
    for (line, rules, script) in CASES {
        let wanted = Wanted {
            rules: *rules,
            script: *script,
            ..USUAL
        };
        is_asked(&rt, line, &wanted)?;
    }
    Ok(())
}

#[test]
fn sizes(rt: HostRuntime) -> Result<(), Fail> {
    static CASES: &[(&str, u32, u32)] = &[
        ("ctreplay --entries=16 c", 16, 16_384),
        ("ctreplay --entries 1 c", 1, 16_384),
        ("ctreplay --entries 65536 c", 65_536, 16_384),
        ("ctreplay c --entries 0000000005", 5, 16_384),
        ("ctreplay --buckets 1 c", 65_536, 1),
        ("ctreplay --buckets=2 c", 65_536, 2),
        ("ctreplay --buckets 65536 c", 65_536, 65_536),
        ("ctreplay --buckets 0000032768 c", 65_536, 32_768),
        ("ctreplay --buckets 8 c --entries 7", 7, 8),
    ];
    for (line, entries, buckets) in CASES {
        let wanted = Wanted {
            entries: *entries,
            buckets: *buckets,
            ..USUAL
        };
        is_asked(&rt, line, &wanted)?;
    }
    Ok(())
}

#[test]
fn ports(rt: HostRuntime) -> Result<(), Fail> {
    static CASES: &[(&str, &[u16])] = &[
        ("ctreplay --ftp 1 c", &[1]),
        ("ctreplay --ftp=65535 c", &[65_535]),
        ("ctreplay --ftp 00021 c", &[21]),
        ("ctreplay --ftp 21,21 c", &[21, 21]),
        ("ctreplay c --ftp 2121,21", &[2121, 21]),
        (
            "ctreplay --ftp 8,7,6,5,4,3,2,1 c",
            &[8, 7, 6, 5, 4, 3, 2, 1],
        ),
    ];
    for (line, ftp) in CASES {
        let wanted = Wanted { ftp, ..USUAL };
        is_asked(&rt, line, &wanted)?;
    }
    Ok(())
}

#[test]
fn zones(rt: HostRuntime) -> Result<(), Fail> {
    static CASES: &[(&str, &[&str], &[u16])] = &[
        ("ctreplay --zones 7 c", &["c"], &[7]),
        ("ctreplay --zones=65535 c", &["c"], &[65_535]),
        ("ctreplay c --zones 00007", &["c"], &[7]),
        ("ctreplay --zones 0 c", &["c"], &[0]),
        ("ctreplay --zones 1,2 a b", &["a", "b"], &[1, 2]),
        ("ctreplay b --zones 2,1 a", &["b", "a"], &[2, 1]),
        ("ctreplay --zones 5,5 a a", &["a", "a"], &[5, 5]),
        (
            "ctreplay --zones 0,65535,1 a b -- -c",
            &["a", "b", "-c"],
            &[0, 65_535, 1],
        ),
    ];
    for (line, captures, zones) in CASES {
        let wanted = Wanted {
            captures,
            zones: Some(*zones),
            ..USUAL
        };
        is_asked(&rt, line, &wanted)?;
    }
    Ok(())
}

#[test]
fn summaries(rt: HostRuntime) -> Result<(), Fail> {
    static CASES: &[(&str, &[&str], bool)] = &[
        ("ctreplay --summary c", &["c"], true),
        ("ctreplay c --summary", &["c"], true),
        ("ctreplay -- --summary", &["--summary"], false),
        ("ctreplay --summary true c", &["true", "c"], true),
    ];
    for (line, captures, summary) in CASES {
        let wanted = Wanted {
            captures,
            summary: *summary,
            ..USUAL
        };
        is_asked(&rt, line, &wanted)?;
    }
    Ok(())
}

#[test]
fn fragments(rt: HostRuntime) -> Result<(), Fail> {
    static CASES: &[(&str, &[&str], bool)] = &[
        ("ctreplay --defrag c", &["c"], true),
        ("ctreplay c --defrag", &["c"], true),
        ("ctreplay -- --defrag", &["--defrag"], false),
        ("ctreplay --defrag false c", &["false", "c"], true),
    ];
    for (line, captures, defrag) in CASES {
        let wanted = Wanted {
            captures,
            defrag: *defrag,
            ..USUAL
        };
        is_asked(&rt, line, &wanted)?;
    }
    Ok(())
}

#[test]
fn listeners(rt: HostRuntime) -> Result<(), Fail> {
    static CASES: &[(&str, &[&str], bool)] = &[
        ("ctreplay --listen c", &["c"], true),
        ("ctreplay c --listen", &["c"], true),
        ("ctreplay -- --listen", &["--listen"], false),
        ("ctreplay listen", &["listen"], false),
        ("ctreplay --listen false c", &["false", "c"], true),
    ];
    for (line, captures, listen) in CASES {
        let wanted = Wanted {
            captures,
            listen: *listen,
            ..USUAL
        };
        is_asked(&rt, line, &wanted)?;
    }
    Ok(())
}

#[test]
fn rewritten_packets(rt: HostRuntime) -> Result<(), Fail> {
    static CASES: &[(&str, &[&str], bool)] = &[
        ("ctreplay --rewrite c", &["c"], true),
        ("ctreplay c --rewrite", &["c"], true),
        ("ctreplay -- --rewrite", &["--rewrite"], false),
        ("ctreplay rewrite", &["rewrite"], false),
        ("ctreplay --rewrite false c", &["false", "c"], true),
    ];
    for (line, captures, rewrite) in CASES {
        let wanted = Wanted {
            captures,
            rewrite: *rewrite,
            ..USUAL
        };
        is_asked(&rt, line, &wanted)?;
    }
    Ok(())
}

#[test]
fn all_options(rt: HostRuntime) -> Result<(), Fail> {
    let wanted = Wanted {
        rules: Some("f"),
        script: Some("s"),
        captures: &["a", "b", "-x"],
        zones: Some(&[3, 0, 9]),
        entries: 10,
        buckets: 32,
        ftp: &[2121],
        summary: true,
        defrag: true,
        listen: true,
        rewrite: true,
    };
    let line =
        "ctreplay --rewrite a --ftp 2121 --script s --buckets 32 --listen b --zones 3,0,9 --summary --rules f --entries 10 --defrag -- -x";
    assert!(rt; asks(rt.alloc(), line, &wanted)?);
    Ok(())
}
