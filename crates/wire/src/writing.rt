ghost use Rattle.std.specs.Prelude.{◌≡◌, ◌++◌, length, None, flat_map};
ghost use Rattle.draft.specs.Drafts.{Put};
ghost use Rattle.wire.specs.Octets.{group_avp, opening, start_of};
ghost use Rattle.wire.specs.Sound.{afterwards, outcome};

use crate::written::{Written, put_all};
use avp::Name;
use draft::Draft;
use fault::Fault;
use units::RequestType;

/// What stands before the groups of a report or an answer.
#[derive(Clone, Copy)]
pub(crate) struct Start {
    pub(crate) number: u32,
    pub(crate) request_type: RequestType,
}

impl Start {
    fn put(&self, draft: &mut Draft) -> Result<(), Fault>
        ensures { Put draft.old (start_of self.now.number self.now.request_type) result draft.new }
    {
        draft.put_number(Name::CcRequestNumber, self.number)?;
        draft.put_number(Name::CcRequestType, self.request_type.into())
    }
}

// Writes a message whose value is sound.
pub(crate) fn write_sound<V: Written>(
    out: &mut [u8],
    start: Option<Start>,
    groups: &[V],
) -> Result<usize, Fault>
    ensures value { result ≡ outcome None (opening start ++ flat_map (λ v. group_avp (V.octets v)) groups.now) (length out.old) }
    ensures after { out.new ≡ afterwards None (opening start ++ flat_map (λ v. group_avp (V.octets v)) groups.now) out.old }
{
    let mut draft = Draft::begin(out);
    if let Some(start) = start {
        start.put(&mut draft)?;
    }
    put_all(&mut draft, groups)?;
    Ok(draft.finish())
}
