//! Figures that the documents state, shown by writing and reading real messages. What it prints is compared with the
//! file `stdout` beside `src`.

#![tactic(auto)]

use anyhow::Context;
use information::ReportGroup;
use key::Key;
use message::{Entry, Groups, Report};
use std::io;
use units::{Level, RequestType, Units};

fn report_of(groups: Groups<ReportGroup>) -> Report {
    Report {
        number: 1,
        request_type: RequestType::Update,
        groups,
    }
}

fn group(octets: &[u8], used: Units) -> Option<ReportGroup> {
    let key = Key::new(octets)?;
    Some(ReportGroup {
        place: 0,
        key,
        level: Level::Rule,
        used,
    })
}

// A report of one key of four octets, in total form.
fn lib1() -> Option<Report> {
    let mut groups = Groups::new(ReportGroup::blank());
    groups.push(group(b"lib1", Units::Total(400))?).ok()?;
    Some(report_of(groups))
}

// A report of sixteen keys of sixteen octets, in both directions.
fn largest() -> Option<Report> {
    let mut groups = Groups::new(ReportGroup::blank());
    for n in 0..16u8 {
        let mut octets = [b'k'; 16];
        octets[0] = n;
        let both = Units::Both {
            uplink: 1_099_511_627_775,
            downlink: 0,
        };
        groups.push(group(&octets, both)?).ok()?;
    }
    Some(report_of(groups))
}

fn show(rt: &HostRuntime, what: &str, report: &Report, size: usize) -> io::Result<()> {
    let mut octets = [0xa5; 2000];
    let Some(out) = octets.get_mut(..size) else {
        return Ok(());
    };
    match trip::write_numbered(out, report) {
        Ok(length) => {
            let past = out.len().saturating_sub(length);
            let back = out
                .get(..length)
                .and_then(|octets| Report::read(octets).ok());
            let groups = back.map_or(0, |report| report.groups.as_slice().len());
            println!(rt;
                "{what} into {size}: {length} octets, {past} left alone, {groups} groups read back"
            )
        }
        Err(fault) => {
            let code = fault.code.number();
            let zeros = count(out, 0);
            let kept = count(out, 0xa5);
            println!(rt;
                "{what} into {size}: refused {code}, {zeros} octets are 0, {kept} as they were"
            )
        }
    }
}

fn count(octets: &[u8], value: u8) -> usize {
    octets.iter().filter(|octet| **octet == value).count()
}

fn run(rt: &HostRuntime) -> anyhow::Result<()> {
    let one = lib1().context("lib1 is a key")?;
    show(rt, "lib1", &one, 92)?;
    show(rt, "lib1", &one, 91)?;
    show(rt, "lib1", &one, 100)?;
    let all = largest().context("sixteen octets are a key")?;
    show(rt, "sixteen keys", &all, 1560)?;
    show(rt, "sixteen keys", &all, 1559)?;
    let mut odd = one;
    odd.number = 1_048_576;
    show(rt, "number 1048576", &odd, 100)?;
    let mut twice = one;
    let again = group(b"lib1", Units::Uplink(1)).context("lib1 is a key")?;
    twice.groups.push(again).ok().context("two groups fit")?;
    show(rt, "lib1 twice", &twice, 200)?;
    Ok(())
}

fn main(rt: HostRuntime) -> anyhow::Result<()> {
    run(&rt)
}
