ghost use Rattle.std.specs.Prelude.{◌≡◌};
ghost use Rattle.bank.specs.Slots.{slot_of};
ghost use Rattle.bank.specs.Directions.{direction_of};

use fault::{Code, Fault};

/// The way that octets go. A call takes its number.
#[derive(Clone, Copy, Debug, PartialEq, Eq)]
pub enum Direction {
    /// 0: towards the network.
    Uplink,
    /// 1: towards the subscriber.
    Downlink,
}

/// The number of the direction towards the network.
pub const UPLINK: u64 = Direction::Uplink as u64;

/// The number of the direction towards the subscriber.
pub const DOWNLINK: u64 = Direction::Downlink as u64;

impl TryFrom<u64> for Direction {
    type Error = Fault;

    ghost try_from_gives = { λ number r. r ≡ direction_of number };

    // A number other than 0 and 1 is refused with code 5.
    fn try_from(number: u64) -> Result<Direction, Fault> {
        match number {
            UPLINK => Ok(Direction::Uplink),
            DOWNLINK => Ok(Direction::Downlink),
            _ => Err(Fault::call(Code::Range, 0)),
        }
    }
}

/// Where a bank of thirty-two words in a row has a count: the uplink of place 0, its downlink, the uplink of place 1 and
/// so on. Refused with code 5 for a place above 15 or a direction other than 0 and 1.
pub fn slot(place: usize, direction: u64) -> Result<usize, Fault>
    ensures { result ≡ slot_of place direction }
{
    let direction = Direction::try_from(direction)?;
    if place > 15 {
        return Err(Fault::call(Code::Range, 0));
    }
    Ok(2 * place + direction as usize)
}
