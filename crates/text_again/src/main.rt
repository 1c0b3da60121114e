//! Messages shown as text, read again from that text and written again: whether the octets are the same. What it prints
//! is compared with the file `stdout` beside `src`.

#![tactic(auto)]

use anyhow::Context;
use cli::{read_message, write_message};
use request::Request;
use std::alloc::Global;
use std::io::{BufRead, BufReader};
use text::{Message, Reading};
use text_trip::push_message;
use words::{is_skipped, without_return};

// The message that the text of a message writes.
fn retold(heap: Global, message: &Message) -> anyhow::Result<Message> {
    let mut text = String::new(heap);
    push_message(&mut text, message)?;
    let mut reading = Reading::new();
    for line in text.as_str().lines() {
        reading
            .line(line.as_bytes())
            .ok()
            .context("a line of the text is refused")?;
    }
    reading.finish().ok().context("the text has no message")
}

fn answer(heap: Global, request: &Request) -> anyhow::Result<&'static str> {
    let Ok(message) = read_message(request.kind, request.octets.as_slice()) else {
        return Ok("refused");
    };
    let mut octets = [0; 1560];
    let again = retold(heap, &message)?;
    let length = write_message(&mut octets, &again)
        .ok()
        .context("the message that was read from its text is refused")?;
    if octets.get(..length) == Some(request.octets.as_slice()) {
        Ok("same")
    } else {
        Ok("other form")
    }
}

fn run(rt: &HostRuntime) -> anyhow::Result<()> {
    let heap = rt.alloc();
    for line in BufReader::new(heap, rt.stdin())?.split(heap, b'\n') {
        let line = line?;
        let text = without_return(line.as_slice());
        if is_skipped(text) {
            continue;
        }
        match Request::parse(heap, text) {
            Ok(request) => rt.println(answer(heap, &request)?)?,
            Err(error) => rt.println(error)?,
        }
    }
    Ok(())
}

fn main(rt: HostRuntime) -> anyhow::Result<()> {
    run(&rt)
}
