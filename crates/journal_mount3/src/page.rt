// The entries of a listing, and pages of them.
ghost use Rattle.std.specs.Prelude.{◌≤◌, length};

use journal_filestore::Attributes;

// The cookie of the last file, f511. Each file's is one above its number.
pub(crate) const LAST_COOKIE: u64 = 512;

// An entry: its cookie, which says its name, and what it names.
#[derive(Clone, Copy, Debug, Drop)]
pub(crate) struct Entry {
    pub cookie: u64,
    pub generation: u32,
    pub attributes: Attributes,
    pub ghost named: { (1 ≤ cookie) × (cookie ≤ 512) },
}

// A page of a listing.
#[derive(Debug, Drop)]
pub(crate) struct Listing<E: Drop> {
    pub entries: Vec<E>,
    // Whether nothing is behind it.
    pub is_end: bool,
    pub ghost few: { length entries.items ≤ 512 },
}
