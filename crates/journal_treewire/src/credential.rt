// Callers, by the credentials of their calls.
ghost use Rattle.std.specs.Prelude.{◌≡◌, ◌≤◌, IfSome, map};
ghost use Rattle.journal_xdr.specs.Basic.{word};
ghost use Rattle.journal_xdr.specs.Items.{ReadsItem};
ghost use Rattle.journal_xdr.specs.Lists.{run};
ghost use Rattle.journal_nfs3_wire.specs.Whole.{whole};
ghost use Rattle.journal_tree.specs.Callers.{squashed_number, squashed, caller_of};
ghost use Rattle.journal_treewire.specs.Credentials.{groups, groups_of, system_body, system_body_of, filled, found_system, credential_in, credential_of, found_credential};

use journal_tree::{Caller, GROUPS, NOBODY};
use journal_xdr::Reader;

// The flavors of credentials that are taken (RFC 5531, section 8.2).
const AUTH_NONE: u32 = 0;

const AUTH_SYS: u32 = 1;

// The most bytes of the name of a caller's machine (RFC 5531, appendix A).
const MACHINE_BYTES: u32 = 255;

/// The caller of a call, as its credential has him.
#[derive(Clone, Copy, Debug, PartialEq, Eq)]
pub enum Credential {
    /// Nothing.
    Nobody,
    /// This user, with his groups.
    System(Caller),
}

// Groups that a caller is in.
#[derive(Clone, Copy)]
pub(crate) struct Groups {
    // The groups, and his own in the rest.
    pub(crate) groups: [u32; GROUPS],
    // How many they are.
    pub(crate) count: usize,
}

// The body of a credential of AUTH_SYS.
#[derive(Clone, Copy)]
pub(crate) struct SystemBody<'a> {
    pub(crate) stamp: u32,
    pub(crate) machine: &'a [u8],
    pub(crate) user: u32,
    pub(crate) group: u32,
    pub(crate) groups: Groups,
}

/// The credential of this flavor with this body (RFC 5531, section 8.2 and appendix A). `None` if
/// the flavor is neither AUTH_NONE nor AUTH_SYS, and if a body of AUTH_SYS cannot be read.
pub fn read_credential(flavor: u32, body: &[u8]) -> Option<Credential>
    ensures { found_credential result ≡ credential_in flavor body.now }
{
    match flavor {
        AUTH_NONE => Some(Credential::Nobody),
        AUTH_SYS => {
            let found = read_whole_system_body(body)?;
            Some(Credential::System(Caller {
                user: found.user,
                group: found.group,
                groups: found.groups.groups,
            }))
        }
        _ => None,
    }
}

impl Credential {
    /// The caller by whom rights are decided. If root is squashed, root's user and group become
    /// `NOBODY`, also among his groups.
    pub fn caller(&self, squash: bool) -> Caller
        ensures { result ≡ caller_of squash (credential_of self.now) }
    {
        match self {
            Credential::Nobody => Caller::NOBODY,
            Credential::System(caller) => { if squash { squashed(caller) } else { *caller } }
        }
    }
}

// The caller, with root's numbers replaced.
fn squashed(caller: &Caller) -> Caller
    ensures { result ≡ squashed caller.now }
{
    Caller {
        user: squashed_number(caller.user),
        group: squashed_number(caller.group),
        groups: squashed_groups(&caller.groups),
    }
}

// Groups, with root's replaced.
fn squashed_groups(all: &[u32; GROUPS]) -> [u32; GROUPS]
    ensures { result ≡ map squashed_number all.now }
{
    let mut squashed = [0; GROUPS];
    for at in 0..GROUPS {
        squashed[at] = squashed_number(all[at]);
    }
    squashed
}

// The number of a user or a group. Root's becomes nobody's.
fn squashed_number(number: u32) -> u32
    ensures { result ≡ squashed_number number }
{
    if number == 0 { NOBODY } else { number }
}

fn read_whole_system_body(bytes: &[u8]) -> Option<SystemBody<'_>>
    ensures found { found_system result ≡ whole system_body bytes.now }
    ensures filled { IfSome result (λ b. b.groups.groups ≡ filled b.group (groups_of b.groups)) }
{
    let mut reader = Reader::new(bytes);
    let body = read_system_body(&mut reader)?;
    if reader.is_at_end() { Some(body) } else { None }
}

#[tactic(auto, unfolding(crate::specs::Credentials::system_body))]
fn read_system_body<'a>(reader: &mut Reader<'a>) -> Option<SystemBody<'a>>
    ensures reading { ReadsItem system_body system_body_of reader.old reader.new result }
    ensures filled { IfSome result (λ b. b.groups.groups ≡ filled b.group (groups_of b.groups)) }
{
    let stamp = reader.word()?;
    let machine = reader.string(MACHINE_BYTES)?;
    let user = reader.word()?;
    let group = reader.word()?;
    let groups = read_groups(reader, group)?;
    Some(SystemBody {
        stamp,
        machine,
        user,
        group,
        groups,
    })
}

// Reads the groups of a caller whose own group this is.
fn read_groups(reader: &mut Reader<'_>, own: u32) -> Option<Groups>
    ensures reading { ReadsItem groups groups_of reader.old reader.new result }
    ensures filled { IfSome result (λ g. g.groups ≡ filled own (groups_of g)) }
{
    let count = reader.word()?;
    if count > GROUPS as u32 {
        return None;
    }
    read_some_groups(reader, own, count as usize)
}

// Reads `count` groups over the caller's own.
fn read_some_groups(reader: &mut Reader<'_>, own: u32, count: usize) -> Option<Groups>
    requires { count ≤ 16 }
    ensures reading { ReadsItem (run word count) groups_of reader.old reader.new result }
    ensures filled { IfSome result (λ g. g.groups ≡ filled own (groups_of g)) }
{
    let mut groups = [own; GROUPS];
    for at in 0..count {
        match reader.word() {
            Some(group) => groups[at] = group,
            None => return None,
        }
    }
    Some(Groups { groups, count })
}
