// What a call may set, and what attributes become.
ghost use Rattle.std.specs.Prelude.{◌≡◌, ◌≤◌, ◌<◌};
ghost use Rattle.journal_tree.specs.declared.limits.TheConstants.{MODES};
ghost use Rattle.journal_tree.specs.Times.{IsTime, is_same_time, time_of_names};
ghost use Rattle.journal_tree.specs.Rights.{SET_GROUP_BIT, has_bit, with_bit, without_bit};
ghost use Rattle.journal_tree.specs.Changes.{with_times};
ghost use Rattle.journal_tree.specs.Attributes.{new_mtime, plain_mode, group_mode, asked_mode, becomes_plain, set_attributes, asks_nothing, asks_as_owner, is_client_time, is_server_time, keeps_owner, may_give, may_set, may_set_bytes};
ghost use Rattle.journal_tree.specs.Contents.{written_attributes};
ghost use Rattle.journal_tree.specs.Names.{group_within, new_group, new_owner, mode_within, new_mode, new_attributes, exclusive_attributes, is_verifier};

use crate::caller::{Caller, has_bit};
use crate::limits::MODES;
use crate::reply::{Attributes, Kind};
use crate::settings::{NewTime, Settings};
use crate::time::Time;

// The bits of a mode that stand above the nine of the rights, and the group's right to run.
const SET_USER: u16 = 2048;

const SET_GROUP: u16 = 1024;

const GROUP_EXECUTE: u16 = 8;

impl Settings {
    /// True if nothing is asked for.
    pub fn asks_nothing(&self) -> bool
        ensures { result ≡ asks_nothing self.now }
    {
        self.mode.is_none()
            && self.owner.is_none()
            && self.group.is_none()
            && self.size.is_none()
            && !(is_client_time(self.mtime) || is_server_time(self.mtime))
    }

    // Whether something is asked for that a node's owner alone may set.
    fn asks_as_owner(&self) -> bool
        ensures { result ≡ asks_as_owner self.now }
    {
        self.mode.is_some()
            || self.owner.is_some()
            || self.group.is_some()
            || is_client_time(self.mtime)
    }
}

impl Caller {
    /// True if he is one who may ask this of a node: root, or its owner. An owner gives a node to
    /// nobody else, and to no group that he is not in.
    pub fn may_set(&self, settings: &Settings, attributes: &Attributes) -> bool
        ensures { result ≡ may_set self.now settings.now attributes.now }
    {
        self.is_root()
            || !settings.asks_as_owner()
            || self.is_owner(attributes)
                && keeps_owner(settings.owner, attributes)
                && self.may_give(settings.group, attributes)
    }

    /// True if a size and the time of the call as mtime are his to set, where they are asked for.
    pub fn may_set_bytes(&self, settings: &Settings, attributes: &Attributes) -> bool
        ensures { result ≡ may_set_bytes self.now settings.now attributes.now }
    {
        settings.size.is_none() && !is_server_time(settings.mtime) || self.may_store(attributes)
    }

    // Whether he may give a node of his own to this group.
    fn may_give(&self, group: Option<u32>, attributes: &Attributes) -> bool
        ensures { result ≡ may_give self.now group attributes.now }
    {
        match group {
            None => true,
            Some(group) => group == attributes.group || self.is_member(group),
        }
    }

    // The mode that is asked for, or the old one. Who is neither root nor in the group sets no
    // set-group-ID bit.
    fn asked_mode(&self, mode: Option<u32>, group: u32, old: u16) -> u16
        ensures { result ≡ asked_mode self.now mode group old }
    {
        match mode {
            None => old,
            Some(mode) => self.group_mode(group, (mode % MODES) as u16),
        }
    }

    // The mode, without the set-group-ID bit for who is neither root nor in the group.
    fn group_mode(&self, group: u32, mode: u16) -> u16
        ensures { result ≡ group_mode self.now group mode }
    {
        if self.is_root() || self.is_member(group) {
            return mode;
        }
        without_bit(mode, SET_GROUP)
    }

    // The group of a new node in a directory, where none is asked for.
    fn group_within(&self, directory: &Attributes) -> u32
        ensures { result ≡ group_within self.now directory.now }
    {
        if has_bit(directory.mode, SET_GROUP) {
            directory.group
        } else {
            self.group
        }
    }

    // Whose a new node is.
    fn new_owner(&self, settings: &Settings) -> u32
        ensures { result ≡ new_owner self.now settings.now }
    {
        if self.is_root() {
            settings.owner.unwrap_or(self.user)
        } else {
            self.user
        }
    }

    // And its group.
    fn new_group(&self, settings: &Settings, directory: &Attributes) -> u32
        ensures { result ≡ new_group self.now settings.now directory.now }
    {
        let group = self.group_within(directory);
        if self.is_root() {
            settings.group.unwrap_or(group)
        } else {
            group
        }
    }
}

impl Attributes {
    /// The attributes of a node of which this is set at a moment, by a caller who may.
    pub fn set(&self, caller: &Caller, settings: &Settings, kind: Kind, now: Time) -> Attributes
        requires last { IsTime self.now.ctime }
        requires now { IsTime now }
        ensures { result ≡ set_attributes caller.now settings.now kind self.now now }
    {
        let group = settings.group.unwrap_or(self.group);
        let mode = caller.asked_mode(settings.mode, group, self.mode);
        let time = self.ctime.of_change(now);
        Attributes {
            mode: if becomes_plain(caller, settings, kind) {
                plain_mode(mode)
            } else {
                mode
            },
            owner: settings.owner.unwrap_or(self.owner),
            group,
            mtime: new_mtime(settings.size.is_some(), settings.mtime, time, self.mtime),
            ctime: time,
            verifier: None,
        }
    }

    /// The attributes of a file whose bytes a caller writes at a moment.
    pub fn written(&self, caller: &Caller, now: Time) -> Attributes
        requires last { IsTime self.now.ctime }
        requires now { IsTime now }
        ensures { result ≡ written_attributes caller.now self.now now }
    {
        let time = self.ctime.of_change(now);
        Attributes {
            mode: if caller.is_root() {
                self.mode
            } else {
                plain_mode(self.mode)
            },
            owner: self.owner,
            group: self.group,
            mtime: time,
            ctime: time,
            verifier: None,
        }
    }

    /// The attributes of a directory whose names change at a moment. Its mtime is another than
    /// before, whatever a client had set it to.
    pub fn with_names_changed(&self, now: Time) -> Attributes
        requires last { IsTime self.now.ctime }
        requires now { IsTime now }
        ensures { result ≡ with_times self.now (time_of_names self.now now) }
    {
        let change = self.ctime.of_change(now);
        let time = if change == self.mtime {
            change.following()
        } else {
            change
        };
        Attributes {
            mode: self.mode,
            owner: self.owner,
            group: self.group,
            mtime: time,
            ctime: time,
            verifier: None,
        }
    }

    /// The attributes of a new node in a directory of these attributes. `mode` is taken where none
    /// is asked for.
    pub fn within(
        &self,
        caller: &Caller,
        settings: &Settings,
        kind: Kind,
        mode: u32,
        now: Time,
    ) -> Attributes
        ensures { result ≡ new_attributes caller.now settings.now self.now kind mode now }
    {
        let group = caller.new_group(settings, self);
        let asked = caller.group_mode(group, (settings.mode.unwrap_or(mode) % MODES) as u16);
        Attributes {
            mode: self.mode_within(kind, asked),
            owner: caller.new_owner(settings),
            group,
            mtime: new_mtime(false, settings.mtime, now, now),
            ctime: now,
            verifier: None,
        }
    }

    /// The attributes of a file that an exclusive CREATE of this verifier makes in a directory of
    /// these attributes: it has no rights yet.
    pub fn within_exclusive(&self, caller: &Caller, verifier: u64, now: Time) -> Attributes
        ensures { result ≡ exclusive_attributes caller.now verifier self.now now }
    {
        Attributes {
            mode: 0,
            owner: caller.user,
            group: caller.group_within(self),
            mtime: now,
            ctime: now,
            verifier: Some(verifier),
        }
    }

    /// True if an exclusive CREATE of this verifier made the node, and nothing of it was changed
    /// since.
    pub fn has_verifier(&self, verifier: u64) -> bool
        ensures { result ≡ is_verifier self.now.verifier verifier }
    {
        match self.verifier {
            None => false,
            Some(own) => own == verifier,
        }
    }

    // The mode of a new node here: a directory has the set-group-ID bit where this one has it.
    fn mode_within(&self, kind: Kind, mode: u16) -> u16
        requires { mode < MODES }
        ensures { result ≡ mode_within self.now kind mode }
    {
        match kind {
            Kind::Directory if has_bit(self.mode, SET_GROUP) => with_bit(mode, SET_GROUP),
            _ => mode,
        }
    }
}

fn is_client_time(mtime: NewTime) -> bool
    ensures { result ≡ is_client_time mtime }
{
    match mtime {
        NewTime::Client(_) => true,
        NewTime::Server => false,
        NewTime::Leave => false,
    }
}

fn is_server_time(mtime: NewTime) -> bool
    ensures { result ≡ is_server_time mtime }
{
    match mtime {
        NewTime::Client(_) => false,
        NewTime::Server => true,
        NewTime::Leave => false,
    }
}

// Whether an owner leaves a node his own.
fn keeps_owner(owner: Option<u32>, attributes: &Attributes) -> bool
    ensures { result ≡ keeps_owner owner attributes.now }
{
    match owner {
        None => true,
        Some(owner) => owner == attributes.owner,
    }
}

// mtime, where a change has this time.
fn new_mtime(sized: bool, mtime: NewTime, time: Time, old: Time) -> Time
    ensures { result ≡ new_mtime sized mtime time old }
{
    match mtime {
        NewTime::Client(asked) => asked,
        NewTime::Server => time,
        NewTime::Leave => if sized { time } else { old },
    }
}

// Whether a file is no longer run as another after these are set by a caller.
fn becomes_plain(caller: &Caller, settings: &Settings, kind: Kind) -> bool
    ensures { result ≡ becomes_plain caller.now settings.now kind }
{
    match kind {
        Kind::Directory | Kind::Link => false,
        Kind::File => settings.owner.is_some()
            || settings.group.is_some()
            || settings.size.is_some() && !caller.is_root(),
    }
}

// The mode by which nobody runs a file as another.
fn plain_mode(mode: u16) -> u16
    ensures { result ≡ plain_mode mode }
{
    let mode = without_bit(mode, SET_USER);
    if has_bit(mode, GROUP_EXECUTE) {
        without_bit(mode, SET_GROUP)
    } else {
        mode
    }
}

fn without_bit(mode: u16, bit: u16) -> u16
    requires { 1 ≤ bit }
    ensures { result ≡ without_bit mode bit }
{
    if has_bit(mode, bit) { mode - bit } else { mode }
}

fn with_bit(mode: u16, bit: u16) -> u16
    requires low { mode < MODES }
    requires bit { 1 ≤ bit }
    requires few { bit < MODES }
    ensures { result ≡ with_bit mode bit }
{
    if has_bit(mode, bit) { mode } else { mode + bit }
}
