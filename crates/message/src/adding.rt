ghost use Rattle.std.specs.Prelude.{◌≡◌};
ghost use Rattle.avp.specs.Header.{span};
ghost use Rattle.group.specs.Members.{left};
ghost use Rattle.group.specs.Walk.{then};
ghost use Rattle.message.specs.Groups.{list_of};
ghost use Rattle.message.specs.Keyed.{added, has_key};

use crate::entry::Entry;
use crate::groups::Groups;
use avp::Part;
use fault::{Code, Fault};
use key::Key;

/// Whether one of the groups has this key.
pub fn has_key<V: Entry>(groups: &[V], key: Option<Key>) -> bool
    ensures { result ≡ has_key V.Entry.keyed key groups.now }
{
    groups.iter().any(|group| match (group.key(), key) {
        (Some(one), Some(other)) => one.is(&other),
        _ => false,
    })
}

impl<V: Entry> Groups<V> {
    /// Reads one group more, which starts at `place`, and whose data are `part`.
    pub fn add(&mut self, place: usize, part: Part) -> Result<(), Fault>
        ensures { left result (list_of self.new) ≡ then (V.Entry.reads place (span part.entry)) (added V.Entry.keyed (list_of self.old) place) }
    {
        let group = V::read(place, part)?;
        if has_key(self.as_slice(), group.key()) {
            return Err(Fault::message(Code::RepeatedKey, place));
        }
        self.push(group)
            .map_err(|_| Fault::message(Code::TooMany, place))
    }
}
