//! Lines of input that hold messages, and lines of output that more than one command writes.
use fault::Fault;
use request::Request;
use sentence::Refusal;
use std::alloc::Global;
use std::io;
use std::io::{BufRead, BufReader, Write};
use words::{is_skipped, without_return};

// Takes a step at each line of standard input that says something, with the line's number.
pub(crate) fn each_message<F: FnMut(u64, &[u8]) -> io::Result<()>>(
    rt: &HostRuntime,
    mut step: F,
) -> io::Result<()>
    requires { F.IsAlwaysCallable step }
{
    let heap = rt.alloc();
    let lines = BufReader::new(heap, rt.stdin())?.split(heap, b'\n');
    for (number, line) in (1u64..).zip(lines) {
        let line = line?;
        let text = without_return(line.as_slice());
        if !is_skipped(text) {
            step(number, text)?;
        }
    }
    Ok(())
}

// The message of a line of input. Where it is none, that is written, with the line's number.
pub(crate) fn request_of<W: Write>(
    out: &mut W,
    heap: Global,
    number: u64,
    line: &[u8],
) -> io::Result<Option<Request>> {
    match Request::parse(heap, line) {
        Ok(request) => Ok(Some(request)),
        Err(error) => {
            writeln!(out, "error line {number}: {error}")?;
            Ok(None)
        }
    }
}

pub(crate) fn refuse<W: Write>(out: &mut W, request: &Request, fault: Fault) -> io::Result<()> {
    let refusal = Refusal {
        kind: request.kind,
        octets: request.octets.as_slice(),
        fault,
    };
    writeln!(out, "{refusal}")
}
