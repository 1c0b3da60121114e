//! The faults of texts, as `gx write` names them. A line that is refused changes nothing, so reading goes on behind it; a
//! line with the word `next` ends one text and begins another. What it prints is compared with the file `stdout` beside
//! `src`.

#![tactic(auto)]

use cli::TextFault;
use std::io;
use std::io::{BufRead, BufReader};
use text::Reading;
use words::is_word;

fn main(rt: HostRuntime) -> io::Result<()> {
    let mut reading = Reading::new();
    let lines = BufReader::new(rt.alloc(), rt.stdin())?.split(rt.alloc(), b'\n');
    for (line, octets) in (1u64..).zip(lines) {
        let octets = octets?;
        if is_word(octets.as_slice(), "next") {
            if let Err(expected) = reading.finish() {
                rt.println(TextFault { line, expected })?;
            }
            reading = Reading::new();
        } else if let Err(expected) = reading.line(octets.as_slice()) {
            rt.println(TextFault { line, expected })?;
        }
    }
    Ok(())
}
