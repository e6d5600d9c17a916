// Who calls, and what he may do to a node.
ghost use Rattle.std.specs.Prelude.{◌≡◌, ◌≤◌};
ghost use Rattle.journal_tree.specs.Callers.{is_root, is_member};
ghost use Rattle.journal_tree.specs.Rights.{has_bit, is_owner, bits_for, may_read, may_write, may_search, may_run, may_fetch, may_store, may_rename, may_take};

use crate::limits::NOBODY;
use crate::reply::Attributes;

/// How many groups a caller is in beside his own, at most.
pub const GROUPS: usize = 16;

// The bits of a mode.
const READ: u16 = 4;

const WRITE: u16 = 2;

const EXECUTE: u16 = 1;

const GROUP_EXECUTE: u16 = 8;

const OWNER_EXECUTE: u16 = 64;

const STICKY: u16 = 512;

/// The user who calls.
#[derive(Clone, Copy, Debug, PartialEq, Eq)]
pub struct Caller {
    /// The user's number. 0 is root's.
    pub user: u32,
    /// His own group.
    pub group: u32,
    /// The groups that he is in. Where there are fewer, his own stands in the rest.
    pub groups: [u32; GROUPS],
}

impl Caller {
    /// Who says nothing of himself, by AUTH_NONE.
    pub const NOBODY: Caller = Caller {
        user: NOBODY,
        group: NOBODY,
        groups: [NOBODY; GROUPS],
    };

    /// True if he is root.
    pub fn is_root(&self) -> bool
        ensures { result ≡ is_root self.now }
    {
        self.user == 0
    }

    /// True if the group is his own, or one that he is in.
    pub fn is_member(&self, group: u32) -> bool
        ensures { result ≡ is_member self.now group }
    {
        self.group == group || self.groups.contains(&group)
    }

    /// True if he owns a node of these attributes.
    pub fn is_owner(&self, attributes: &Attributes) -> bool
        ensures { result ≡ is_owner self.now attributes.now }
    {
        self.user == attributes.owner
    }

    /// True if the mode lets him read a node.
    pub fn may_read(&self, attributes: &Attributes) -> bool
        ensures { result ≡ may_read self.now attributes.now }
    {
        self.is_root() || has_bit(self.bits_for(attributes), READ)
    }

    /// True if the mode lets him write a node.
    pub fn may_write(&self, attributes: &Attributes) -> bool
        ensures { result ≡ may_write self.now attributes.now }
    {
        self.is_root() || has_bit(self.bits_for(attributes), WRITE)
    }

    /// True if the mode lets him search a directory for a name.
    pub fn may_search(&self, attributes: &Attributes) -> bool
        ensures { result ≡ may_search self.now attributes.now }
    {
        self.is_root() || has_bit(self.bits_for(attributes), EXECUTE)
    }

    /// True if the mode lets him run a file. Root runs what anybody may run.
    pub fn may_run(&self, attributes: &Attributes) -> bool
        ensures { result ≡ may_run self.now attributes.now }
    {
        if self.is_root() {
            let mode = attributes.mode;
            return has_bit(mode, OWNER_EXECUTE)
                || has_bit(mode, GROUP_EXECUTE)
                || has_bit(mode, EXECUTE);
        }
        has_bit(self.bits_for(attributes), EXECUTE)
    }

    /// True if READ is his: a file's owner is never refused for its mode, and who may run a file
    /// may read it (RFC 1813, section 4.4).
    pub fn may_fetch(&self, attributes: &Attributes) -> bool
        ensures { result ≡ may_fetch self.now attributes.now }
    {
        self.is_owner(attributes) || self.may_read(attributes) || self.may_run(attributes)
    }

    /// True if WRITE is his, and a new size: a file's owner is never refused for its mode.
    pub fn may_store(&self, attributes: &Attributes) -> bool
        ensures { result ≡ may_store self.now attributes.now }
    {
        self.is_owner(attributes) || self.may_write(attributes)
    }

    /// True if he may put names into a directory and take them out of it.
    pub fn may_rename(&self, directory: &Attributes) -> bool
        ensures { result ≡ may_rename self.now directory.now }
    {
        self.may_write(directory) && self.may_search(directory)
    }

    /// True if a directory whose names he may change lets him take this node out of it. A sticky one
    /// does so where the node is his own, or the directory.
    pub fn may_take(&self, directory: &Attributes, node: &Attributes) -> bool
        ensures { result ≡ may_take self.now directory.now node.now }
    {
        !has_bit(directory.mode, STICKY)
            || self.is_root()
            || self.is_owner(node)
            || self.is_owner(directory)
    }

    // The mode shifted, so that its lowest three bits are those that hold for him.
    fn bits_for(&self, attributes: &Attributes) -> u16
        ensures { result ≡ bits_for self.now attributes.now }
    {
        if self.is_owner(attributes) {
            return attributes.mode / 64;
        }
        if self.is_member(attributes.group) {
            return attributes.mode / 8;
        }
        attributes.mode
    }
}

// Whether a mode has a bit.
pub(crate) fn has_bit(mode: u16, bit: u16) -> bool
    requires { 1 ≤ bit }
    ensures { result ≡ has_bit mode bit }
{
    mode / bit % 2 == 1
}
