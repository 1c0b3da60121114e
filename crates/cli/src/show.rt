//! `gx show`: each message of standard input as text.
use crate::answer::{each_message, refuse, request_of};
use crate::octets::read_message;
use std::alloc::Global;
use std::io;
use std::io::{BufWriter, Write};
use text_trip::printed;

pub(crate) fn show(rt: &HostRuntime) -> io::Result<()> {
    let heap = rt.alloc();
    let mut out = BufWriter::new(heap, rt.stdout())?;
    each_message(rt, |number, line| answer(&mut out, heap, number, line))?;
    out.flush()
}

// Writes the answer to one line.
fn answer<W: Write>(out: &mut W, heap: Global, number: u64, line: &[u8]) -> io::Result<()> {
    let Some(request) = request_of(out, heap, number, line)? else {
        return Ok(());
    };
    match read_message(request.kind, request.octets.as_slice()) {
        Ok(message) => {
            let text = printed(&message);
            writeln!(out, "{text}")
        }
        Err(fault) => refuse(out, &request, fault),
    }
}
