//! Where a script waits for the captures, read off its text.

/// The first line of a text, and what stands behind it.
fn first_line(text: &[u8]) -> (&[u8], &[u8]) {
    for (at, byte) in text.iter().enumerate() {
        if *byte == b'\n' {
            let (line, rest) = text.split_at(at);
            return (line, rest.split_at(1).1);
        }
    }
    (text, &[])
}

/// Whether a line is a command, or `wait`: it has words, and is no remark.
fn has_words(line: &[u8]) -> bool {
    !line.is_empty() && !line.starts_with(b"#")
}

/// How many commands stand in front of the line `wait` of a script; none where the text has no such line.
pub fn wait_in(text: &[u8]) -> Option<usize> {
    let mut left = text;
    let mut commands = 0usize;
    for _ in 0..text.len() {
        let (line, rest) = first_line(left);
        if line == b"wait".as_slice() {
            return Some(commands);
        }
        if has_words(line) {
            commands = commands.wrapping_add(1);
        }
        left = rest;
    }
    None
}
