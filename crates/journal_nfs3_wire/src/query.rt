// Queries: procedures that only read.
ghost use Rattle.std.specs.Prelude.{◌≡◌};
ghost use Rattle.journal_xdr.specs.Items.{ReadsItem};
ghost use Rattle.journal_nfs3_wire.specs.Queries.{query_arguments, query_of, page, page_of, page_plus, page_plus_of};

use crate::reading::HANDLE_BYTES;
use journal_xdr::{Enumeration, Reader};

// The bytes of the verifier of a cookie (RFC 1813, section 2.4).
const COOKIE_VERIFIER_BYTES: usize = 8;

/// A procedure of NFS version 3 that only reads (RFC 1813, section 3.3).
#[derive(Clone, Copy, Debug, PartialEq, Eq)]
pub enum QueryProcedure {
    /// ACCESS.
    Access,
    /// READDIR.
    ReadDirectory,
    /// READDIRPLUS.
    ReadDirectoryPlus,
    /// FSSTAT.
    FileSystemStatus,
    /// FSINFO.
    FileSystemInformation,
    /// PATHCONF.
    PathConfiguration,
}

impl Enumeration for QueryProcedure {
    ghost use Rattle.journal_nfs3_wire.specs.Queries.{query_procedure_of, query_procedure_number, query_procedure_is, query_procedure_back};

    ghost meaning = { query_procedure_of };

    ghost code = { query_procedure_number };

    ghost is_listed = { query_procedure_is };

    ghost has_one_number = { query_procedure_back };

    fn from_number(number: u32) -> Option<QueryProcedure> {
        match number {
            4 => Some(QueryProcedure::Access),
            16 => Some(QueryProcedure::ReadDirectory),
            17 => Some(QueryProcedure::ReadDirectoryPlus),
            18 => Some(QueryProcedure::FileSystemStatus),
            19 => Some(QueryProcedure::FileSystemInformation),
            20 => Some(QueryProcedure::PathConfiguration),
            _ => None,
        }
    }

    fn number(self) -> u32 {
        match self {
            QueryProcedure::Access => 4,
            QueryProcedure::ReadDirectory => 16,
            QueryProcedure::ReadDirectoryPlus => 17,
            QueryProcedure::FileSystemStatus => 18,
            QueryProcedure::FileSystemInformation => 19,
            QueryProcedure::PathConfiguration => 20,
        }
    }
}

/// A part of a listing that is asked for (RFC 1813, section 3.3.16): the lines after a cookie.
#[derive(Clone, Copy, Debug)]
pub struct PageArguments<'a> {
    pub handle: &'a [u8],
    pub cookie: u64,
    /// The verifier of the reply that gave the cookie.
    pub verifier: &'a [u8],
    /// The most bytes of the results after their status.
    pub count: u32,
}

/// The same with attributes and handles (RFC 1813, section 3.3.17).
#[derive(Clone, Copy, Debug)]
pub struct PagePlusArguments<'a> {
    pub handle: &'a [u8],
    pub cookie: u64,
    /// The verifier of the reply that gave the cookie.
    pub verifier: &'a [u8],
    /// The most bytes of the numbers, names and cookies.
    pub names_count: u32,
    /// The most bytes of the results after their status.
    pub count: u32,
}

/// A query with its arguments (RFC 1813, section 3.3). Handles are as the caller sent them, of at
/// most 64 bytes.
#[derive(Clone, Copy, Debug)]
pub enum Query<'a> {
    /// A handle, and the rights that are asked for.
    Access(&'a [u8], u32),
    ReadDirectory(PageArguments<'a>),
    ReadDirectoryPlus(PagePlusArguments<'a>),
    FileSystemStatus(&'a [u8]),
    FileSystemInformation(&'a [u8]),
    PathConfiguration(&'a [u8]),
}

/// Reads the arguments of a query. `None` if none are spelled at the front.
#[tactic(auto, unfolding(crate::specs::Queries::query_arguments))]
pub fn read_query<'a>(procedure: QueryProcedure, reader: &mut Reader<'a>) -> Option<Query<'a>>
    ensures { ReadsItem (query_arguments procedure) query_of reader.old reader.new result }
{
    Some(match procedure {
        QueryProcedure::Access => Query::Access(reader.opaque(HANDLE_BYTES)?, reader.word()?),
        QueryProcedure::ReadDirectory => Query::ReadDirectory(read_page(reader)?),
        QueryProcedure::ReadDirectoryPlus => Query::ReadDirectoryPlus(read_page_plus(reader)?),
        QueryProcedure::FileSystemStatus => Query::FileSystemStatus(reader.opaque(HANDLE_BYTES)?),
        QueryProcedure::FileSystemInformation => {
            Query::FileSystemInformation(reader.opaque(HANDLE_BYTES)?)
        }
        QueryProcedure::PathConfiguration => Query::PathConfiguration(reader.opaque(HANDLE_BYTES)?),
    })
}

// Reads the arguments of READDIR.
#[tactic(auto, unfolding(crate::specs::Queries::page))]
fn read_page<'a>(reader: &mut Reader<'a>) -> Option<PageArguments<'a>>
    ensures { ReadsItem page page_of reader.old reader.new result }
{
    Some(PageArguments {
        handle: reader.opaque(HANDLE_BYTES)?,
        cookie: reader.hyper()?,
        verifier: reader.fixed(COOKIE_VERIFIER_BYTES)?,
        count: reader.word()?,
    })
}

// Reads the arguments of READDIRPLUS.
#[tactic(auto, unfolding(crate::specs::Queries::page_plus))]
fn read_page_plus<'a>(reader: &mut Reader<'a>) -> Option<PagePlusArguments<'a>>
    ensures { ReadsItem page_plus page_plus_of reader.old reader.new result }
{
    Some(PagePlusArguments {
        handle: reader.opaque(HANDLE_BYTES)?,
        cookie: reader.hyper()?,
        verifier: reader.fixed(COOKIE_VERIFIER_BYTES)?,
        names_count: reader.word()?,
        count: reader.word()?,
    })
}
