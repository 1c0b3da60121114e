ghost use Rattle.wire.specs.Octets.{command_data};
ghost use Rattle.wire.specs.Lengths.{command_four};
ghost use Rattle.wire.specs.Sound.{sound_command};

use crate::data::Data;
use crate::parts::{Counted, key_size};
use crate::sound::{are_sound_units, is_sound_key};
use crate::written::Written;
use avp::Name;
use draft::Draft;
use fault::Fault;
use information::{CommandGroup, Order};

impl Data for CommandGroup {
    ghost octets = { command_data };

    ghost four = { command_four };

    fn size(&self) -> u16 {
        match self.order {
            Order::Grant { key, level, units } => Counted { key, units, level }.size(),
            Order::Disable { key } => key_size(&key) + 16,
            Order::Request { key } => 16 + key.map_or(0, |key| key_size(&key)),
        }
    }

    fn put_data(&self, draft: &mut Draft) -> Result<(), Fault> {
        match self.order {
            Order::Grant { key, level, units } => {
                Counted { key, units, level }.put(draft, Name::GrantedServiceUnit)
            }
            Order::Disable { key } => {
                draft.put_key(&key)?;
                draft.put_number(Name::UsageMonitoringSupport, 0)
            }
            Order::Request { key } => {
                draft.put_number(Name::UsageMonitoringReport, 0)?;
                match key {
                    None => Ok(()),
                    Some(key) => draft.put_key(&key),
                }
            }
        }
    }
}

impl Written for CommandGroup {
    ghost sound = { sound_command };

    fn is_sound(&self) -> bool {
        match self.order {
            Order::Grant { key, units, .. } => is_sound_key(&key) && are_sound_units(true, units),
            Order::Disable { key } => is_sound_key(&key),
            Order::Request { key } => key.is_none_or(|key| is_sound_key(&key)),
        }
    }
}
