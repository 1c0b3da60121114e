//! `gx check`: each line of standard input is judged, and the answers are counted.
use crate::answer::{each_message, refuse, request_of};
use crate::tally::{Outcome, Tally};
use std::alloc::Global;
use std::io;
use std::io::{BufWriter, Write};

pub(crate) fn check(rt: &HostRuntime) -> io::Result<()> {
    let heap = rt.alloc();
    let mut out = BufWriter::new(heap, rt.stdout())?;
    let mut tally = Tally::default();
    each_message(rt, |number, line| {
        tally.add(answer(&mut out, heap, number, line)?);
        Ok(())
    })?;
    writeln!(out, "{tally}")?;
    out.flush()
}

// Writes the answer to one line.
fn answer<W: Write>(out: &mut W, heap: Global, number: u64, line: &[u8]) -> io::Result<Outcome> {
    let Some(request) = request_of(out, heap, number, line)? else {
        return Ok(Outcome::Error);
    };
    match message::verdict(request.kind, request.octets.as_slice()) {
        Ok(()) => {
            writeln!(out, "sound")?;
            Ok(Outcome::Sound)
        }
        Err(fault) => {
            refuse(out, &request, fault)?;
            Ok(Outcome::Refused)
        }
    }
}
