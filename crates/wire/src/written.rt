ghost use Rattle.std.specs.Prelude.{◌≡◌, Bool, flat_map};
ghost use Rattle.std.specs.List.{list_all};
ghost use Rattle.draft.specs.Drafts.{Put};
ghost use Rattle.wire.specs.Octets.{group_avp};
ghost use Rattle.wire.specs.Sound.{checked, distinct, fault_of};

use crate::data::{Data, put_avp};
use avp::Name;
use draft::Draft;
use fault::{Code, Fault};
use message::{Entry, has_key};

/// A Usage-Monitoring-Information that can be written, if a sound message may hold it.
pub trait Written: Data + Entry {
    ghost sound: { Self → Bool };

    /// Whether a sound message may hold it.
    fn is_sound(&self) -> bool
        ensures { result ≡ sound self.now };
}

fn are_sound<V: Written>(groups: &[V]) -> bool
    ensures { result ≡ list_all V.sound groups.now }
{
    groups.iter().all(V::is_sound)
}

fn are_distinct<V: Entry>(groups: &[V]) -> bool
    ensures { result ≡ distinct V.keyed groups.now }
{
    groups
        .iter()
        .enumerate()
        .all(|(i, group)| !has_key(&groups[0..i], group.key()))
}

// Whether a sound message can hold these groups.
pub(crate) fn check<V: Written>(groups: &[V]) -> Result<(), Fault>
    ensures { result ≡ checked (fault_of (list_all V.sound groups.now) (distinct V.keyed groups.now)) }
{
    if !are_sound(groups) {
        return Err(Fault::call(Code::Range, 0));
    }
    if !are_distinct(groups) {
        return Err(Fault::call(Code::RepeatedKey, 0));
    }
    Ok(())
}

pub(crate) fn put_all<V: Written>(draft: &mut Draft, groups: &[V]) -> Result<(), Fault>
    ensures { Put draft.old (flat_map (λ v. group_avp (V.octets v)) groups.now) result draft.new }
{
    for group in groups {
        put_avp(draft, Name::UsageMonitoringInformation, group)?;
    }
    Ok(())
}
