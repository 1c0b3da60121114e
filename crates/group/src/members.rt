ghost use Rattle.std.specs.Prelude.{◌≡◌, ℕ, List, if◌then◌else◌, Some, None, Result};
ghost use Rattle.std.specs.Option.{option_map};
ghost use Rattle.fault.specs.declared.Fault.{Fault};
ghost use Rattle.avp.specs.declared.name.Name.{Name};
ghost use Rattle.avp.specs.declared.field.Limits.{Limits};
ghost use Rattle.avp.specs.Header.{seen, span};
ghost use Rattle.avp.specs.Fields.{Value, value};
ghost use Rattle.group.specs.Shapes.{admits as admitted, complete, repeated};
ghost use Rattle.group.specs.Members.{ended, left, meaning, member, read_group, Rules};

use avp::{Avp, Field, Limits, Name, Part};
use fault::{Code, Fault};

/// What is gathered from the members of one kind of group.
pub trait Group {
    /// What the group is when it is whole.
    type Whole;

    ghost Sofar: { Type 0 };

    ghost sofar: { Self → Sofar };

    ghost Meant: { Type 0 };

    ghost meant: { Self.Whole → Meant };

    ghost rules: { Rules Sofar Meant };

    /// Whether the member would stand in the group a second time.
    fn repeats(&self, name: Name) -> bool
        ensures { result ≡ repeated (rules.holds (sofar self.now)) name };

    /// Whether some permitted kind of this group has the member and all that came before.
    fn admits(&self, name: Name) -> bool
        ensures { result ≡ admitted (rules.shapes (sofar self.now)) (rules.holds (sofar self.now)) name };

    /// The numbers that the member may have.
    fn limits(&self, name: Name) -> Limits
        ensures { result ≡ rules.limits (sofar self.now) name };

    /// Takes one member more, whose AVP starts at `place`.
    fn put(&mut self, name: Name, field: Field, place: usize) -> Result<(), Fault>
        ensures { left result (sofar self.new) ≡ rules.puts (sofar self.old) name (value field.entry) place };

    /// What the group is, unless a member is missing.
    fn whole(&self) -> Option<Self::Whole>
        ensures { option_map meant result ≡ (if complete (rules.shapes (sofar self.now)) (rules.holds (sofar self.now)) then Some (rules.whole (sofar self.now)) else None) };
}

fn take<G: Group>(group: &mut G, avp: &Avp) -> Result<(), Fault>
    ensures { left result (G.Group.sofar group.new) ≡ member G.Group.rules (G.Group.sofar group.old) (seen avp.now) }
{
    let Some(name) = Name::of(avp.code, avp.vendor) else {
        if avp.is_mandatory() {
            return Err(Fault::message(Code::UnknownAvp, avp.place));
        }
        return Ok(());
    };
    if !group.admits(name) {
        let code = if group.repeats(name) {
            Code::Repeated
        } else {
            Code::Foreign
        };
        return Err(Fault::message(code, avp.place));
    }
    let field = avp.field(name, group.limits(name))?;
    group.put(name, field, avp.place)
}

fn finish<G: Group>(group: &G, part: Part) -> Result<G::Whole, Fault>
    ensures { meaning G.Group.meant result ≡ ended G.Group.rules (span part.entry) (G.Group.sofar group.now) }
{
    group
        .whole()
        .ok_or(Fault::message(Code::Absent, part.end()))
}

/// Reads a group or message from its first octet to its last, into `group`, which has no members so far.
pub fn read<G: Group>(group: &mut G, part: Part) -> Result<G::Whole, Fault>
    ensures { meaning G.Group.meant result ≡ read_group G.Group.rules (G.Group.sofar group.old) (span part.entry) }
{
    let mut rest = part;
    while !rest.is_empty() {
        let avp = rest.first()?;
        take(group, &avp)?;
        rest = avp.rest;
    }
    finish(group, part)
}
