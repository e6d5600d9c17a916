// Names and their kinds.
ghost use Rattle.std.specs.Prelude.{◌≡◌, ◌↔◌, IsTrue};
ghost use Rattle.journal_tree.specs.Calls.{name_kind, other_name};

use journal_tree::{MOST_NAME, NameKind};

// The kind of a name.
pub(crate) fn name_kind(name: &[u8]) -> NameKind
    ensures { result ≡ name_kind name.now }
{
    if are_same(name, b".") {
        return NameKind::Dot;
    }
    if are_same(name, b"..") {
        return NameKind::DotDot;
    }
    if are_same(name, b"") {
        return NameKind::NoName;
    }
    other_kind(name)
}

// Its kind, if it is neither empty nor `.` or `..`.
fn other_kind(name: &[u8]) -> NameKind
    ensures { result ≡ other_name name.now }
{
    if name.contains(&0) || name.contains(&b'/') {
        return NameKind::NoName;
    }
    if name.len() > MOST_NAME {
        return NameKind::LongName;
    }
    NameKind::Name
}

pub(crate) fn are_same(left: &[u8], right: &[u8]) -> bool
    ensures { IsTrue result ↔ (left.now ≡ right.now) }
{
    left == right
}
