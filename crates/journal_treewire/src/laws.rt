// Laws of all arguments, handles and credentials.
ghost use Rattle.std.specs.Prelude.{◌≡◌, ◌↔◌, List, ℕ, Ok};
ghost use Rattle.journal_xdr.specs.Items.{IsGrammar};
ghost use Rattle.journal_tree.specs.declared.reply.Handle.{Handle};
ghost use Rattle.journal_nfs3_wire.specs.QueryResults.{page_results};
ghost use Rattle.journal_nfs3_wire.specs.Results.{outcome, post_op_attributes, change};
ghost use Rattle.journal_nfs3_wire.specs.Whole.{IsSpelling};
ghost use Rattle.journal_treewire.specs.declared.procedure.DirectoryProcedure.{DirectoryProcedure};
ghost use Rattle.journal_treewire.specs.Bounds.{PartsAreShort, TextsAreShort, ListingsAreFew, PlusListingsAreFew};
ghost use Rattle.journal_treewire.specs.Credentials.{system_body};
ghost use Rattle.journal_treewire.specs.Directories.{DirectoryOperation, directory_arguments, directory_procedure_number};
ghost use Rattle.journal_treewire.specs.Handles.{disk_handle, handle_in};
ghost use Rattle.journal_treewire.specs.ListLengths.{ListingsFit, PlusListingsFit, PlusNamesFit};
ghost use Rattle.journal_treewire.specs.Results.{found_results, link_results, made_results, two_changes, entry_plus};
ghost use Rattle.journal_treewire.specs.Requests.{requested, directory};

/// The arguments of the procedures of directories and links are items, as those of the others are
/// in `journal_nfs3_wire`: what is read is spelled so, and what is spelled so is read (RFC 1813,
/// section 3.3). An operation is asked exactly where the arguments are its spelling.
pub fn directory_arguments_are_spellings()
    ensures items { (procedure : DirectoryProcedure) → IsGrammar (directory_arguments procedure) }
    ensures asks { (procedure : DirectoryProcedure) (bytes : List ℕ) (operation : DirectoryOperation)
        → (requested (directory_procedure_number procedure) bytes ≡ Ok (directory operation)) ↔ IsSpelling (directory_arguments procedure) bytes operation }
{}

/// A handle is the 16 bytes of a number of the disk's own, a number and a generation. Bytes are a
/// handle on a disk exactly where they are spelled so with the disk's number.
pub fn disk_handles_are_spellings()
    ensures item { IsGrammar disk_handle }
    ensures named { (disk : ℕ) (bytes : List ℕ) (handle : Handle)
        → (handle_in disk bytes ≡ Ok handle) ↔ IsSpelling disk_handle bytes (record { disk = disk; handle = handle }) }
{}

/// The body of a credential of AUTH_SYS is an item.
pub fn credentials_are_spellings()
    ensures { IsGrammar system_body }
{}

/// A listing has no more bytes than it is asked to have. Those of READDIR and READDIRPLUS are
/// counted after the status, and `count` bounds them if it has room for a listing without lines.
/// `dircount` of READDIRPLUS bounds the lines as READDIR has them (RFC 1813, sections 3.3.16 and
/// 3.3.17).
pub fn listings_have_room()
    ensures plain { ListingsFit }
    ensures plus { PlusListingsFit }
    ensures names { PlusNamesFit }
{}

/// A READ answers no more bytes than it is asked for, and at most `TRANSFER_BYTES`. A READLINK
/// answers at most `MOST_LINK`. A listing has at most one line for each 24 bytes that it is asked
/// to have.
pub fn answers_are_bounded()
    ensures parts { PartsAreShort }
    ensures texts { TextsAreShort }
    ensures plain { ListingsAreFew }
    ensures plus { PlusListingsAreFew }
{}

/// The results of LOOKUP, of READLINK, of the procedures that make a node, of RENAME and of
/// READDIRPLUS are items, as those of the others are in `journal_nfs3_wire`.
pub fn node_results_are_spellings()
    ensures found { IsGrammar (outcome found_results post_op_attributes) }
    ensures text { IsGrammar (outcome link_results post_op_attributes) }
    ensures made { IsGrammar (outcome made_results change) }
    ensures renamed { IsGrammar (outcome two_changes two_changes) }
    ensures listing { IsGrammar (outcome (page_results entry_plus) post_op_attributes) }
{}
