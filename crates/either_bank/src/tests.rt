use crate::pass;
use bank::{Bank, Counts, DOWNLINK, UPLINK};
use fault::Fault;
use rolling_bank::RollingBank;
use std::process::Abort;
use std::test::Fail;
use word_bank::WordBank;

#[derive(Clone, Copy)]
enum Call {
    // place, direction, octets; and then the place is read
    Add(usize, u64, u64),
    TakeOut(usize),
    Read(usize),
    // place, octets up, octets down
    Pass(usize, u64, u64),
}

// What a bank answers: both counts, or the number of the code.
type Answer = Result<(u64, u64), u32>;

// What a new bank answers, call after call. Code 5 comes before code 19, and a refusal leaves the counts.
const DAY: [(Call, Answer); 20] = [
    (Call::Read(0), Ok((0, 0))),
    (Call::Read(15), Ok((0, 0))),
    (Call::Add(3, UPLINK, 500), Ok((500, 0))),
    (Call::Add(3, DOWNLINK, 7), Ok((500, 7))),
    (Call::Add(15, DOWNLINK, 1), Ok((0, 1))),
    (Call::Add(3, UPLINK, 0), Ok((500, 7))),
    (Call::Pass(3, 20, 30), Ok((520, 37))),
    (Call::Read(3), Ok((0, 0))),
    (Call::TakeOut(15), Ok((0, 1))),
    (Call::TakeOut(15), Ok((0, 0))),
    (Call::Add(0, UPLINK, 65_535), Ok((65_535, 0))),
    (Call::Add(16, UPLINK, u64::MAX), Err(5)),
    (Call::Add(0, 2, u64::MAX), Err(5)),
    (Call::TakeOut(16), Err(5)),
    (Call::Read(usize::MAX), Err(5)),
    (Call::Pass(16, 1, 1), Err(5)),
    (Call::Add(0, UPLINK, u64::MAX), Err(19)),
    (Call::Pass(0, 1, u64::MAX), Err(19)),
    (Call::Read(0), Ok((65_535, 0))),
    (Call::Read(1), Ok((0, 0))),
];

fn made<B: Bank>(bank: &mut B, call: Call) -> Result<Counts, Fault> {
    match call {
        Call::Add(place, direction, octets) => {
            bank.add(place, direction, octets)?;
            bank.read(place)
        }
        Call::TakeOut(place) => bank.take_out(place),
        Call::Read(place) => bank.read(place),
        Call::Pass(place, uplink, downlink) => pass(bank, place, Counts { uplink, downlink }),
    }
}

fn told<B: Bank>(bank: &mut B, call: Call) -> Answer {
    made(bank, call)
        .map(|counts| (counts.uplink, counts.downlink))
        .map_err(|fault| fault.code.number())
}

fn answers<B: Bank>(rt: &impl Abort, bank: &mut B, calls: &[(Call, Answer)]) {
    for &(call, expected) in calls {
        assert_eq!(rt; told(bank, call), expected);
    }
}

// A count at the ceiling takes nothing more.
fn full<B: Bank>(rt: &impl Abort, bank: &mut B) {
    let top = B::top();
    let calls = [
        (Call::Add(9, DOWNLINK, top), Ok((0, top))),
        (Call::Add(9, DOWNLINK, 1), Err(19)),
        (Call::Add(9, DOWNLINK, 0), Ok((0, top))),
        (Call::TakeOut(9), Ok((0, top))),
    ];
    answers(rt, bank, &calls);
}

#[test]
fn the_word_bank(rt: HostRuntime) -> Result<(), Fail> {
    let mut words = [7; 32];
    answers(&rt, &mut WordBank::over(&mut words)?, &DAY);
    full(&rt, &mut WordBank::new(&mut words));
    assert_eq!(rt; WordBank::top(), 1_099_511_627_775);
    Ok(())
}

#[test]
fn the_rolling_bank(rt: HostRuntime) -> Result<(), Fail> {
    let mut words = [4_294_967_290; 64];
    answers(&rt, &mut RollingBank::over(&mut words)?, &DAY);
    full(&rt, &mut RollingBank::new(&mut words));
    assert_eq!(rt; RollingBank::top(), 4_294_967_295);
    Ok(())
}

#[test]
fn a_counter_rolls_over(rt: HostRuntime) {
    let mut words = [0; 64];
    words[0] = 4_294_967_290;
    let mut bank = RollingBank::new(&mut words);
    assert_eq!(rt; told(&mut bank, Call::Add(0, UPLINK, 10)), Ok((10, 0)));
    assert_eq!(rt; words[0], 4, "the counter");
    assert_eq!(rt; words[32], 4_294_967_290, "the mark");
}

#[test]
fn a_take_out_moves_marks_alone(rt: HostRuntime) {
    let mut words = [100; 64];
    let calls = [
        (
            Call::Add(2, DOWNLINK, 4_294_967_295),
            Ok((0, 4_294_967_295)),
        ),
        (Call::Add(2, DOWNLINK, 1), Err(19)),
        (Call::TakeOut(2), Ok((0, 4_294_967_295))),
    ];
    answers(&rt, &mut RollingBank::new(&mut words), &calls);
    assert_eq!(rt; [words[4], words[5]], [100, 99], "the counters");
    assert_eq!(rt; [words[36], words[37]], [100, 99], "the marks");
}

#[test]
fn a_store_of_another_length(rt: HostRuntime) {
    let mut words = [7; 33];
    let mut rolling = [7; 63];
    assert!(rt; WordBank::check(&words).is_err());
    assert!(rt; RollingBank::check(&rolling).is_err());
    assert!(rt; WordBank::over(&mut words).is_err());
    assert!(rt; RollingBank::over(&mut rolling).is_err());
    assert_eq!(rt; words, [7; 33]);
    assert_eq!(rt; rolling, [7; 63]);
    assert!(rt; WordBank::check(&words[1..33]).is_ok());
}
