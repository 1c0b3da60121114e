ghost use Rattle.wire.specs.Octets.{answer_data};
ghost use Rattle.wire.specs.Lengths.{answer_four};
ghost use Rattle.wire.specs.Sound.{sound_answer};

use crate::data::{Data, put_avp};
use crate::parts::key_size;
use crate::sound::{are_sound_units, is_sound_key};
use crate::written::Written;
use avp::Name;
use draft::Draft;
use fault::Fault;
use information::AnswerGroup;

impl Data for AnswerGroup {
    ghost octets = { answer_data };

    ghost four = { answer_four };

    fn size(&self) -> u16 {
        key_size(&self.key) + 16 + self.granted.map_or(0, |units| 8 + units.size())
    }

    fn put_data(&self, draft: &mut Draft) -> Result<(), Fault> {
        draft.put_key(&self.key)?;
        draft.put_number(Name::UsageMonitoringLevel, self.level.into())?;
        match self.granted {
            None => Ok(()),
            Some(units) => put_avp(draft, Name::GrantedServiceUnit, &units),
        }
    }
}

impl Written for AnswerGroup {
    ghost sound = { sound_answer };

    fn is_sound(&self) -> bool {
        is_sound_key(&self.key)
            && self
                .granted
                .is_none_or(|units| are_sound_units(true, units))
    }
}
