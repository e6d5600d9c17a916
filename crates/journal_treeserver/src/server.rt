// A tree that is served.
ghost use Rattle.std.specs.Prelude.{◌≡◌};

use crate::client::ClientAddress;
use crate::hints::FreeHints;
use crate::reply_table::ReplyTable;
use journal_disk::BlockDisk;
use journal_history::Naming;
use journal_nfs3_wire::Verifier;
use journal_treefs::{TreeRule, TreeStore};
use journal_treestore::Cut;

/// How a tree is served to a client.
#[derive(Clone, Copy, Debug, PartialEq, Eq)]
pub struct Export {
    /// The number of the disk's own, which its description has.
    pub disk: u64,
    /// True if root is squashed.
    pub squash: bool,
    /// True if a call that would change the tree is answered by ROFS.
    pub is_read_only: bool,
    /// The number of this run of the server.
    pub verifier: Verifier,
    /// The client's address. Of a client that has none no reply is kept.
    pub client: Option<ClientAddress>,
}

/// The calls on a tree, answered by NFS and MOUNT.
pub struct TreeServer<'s, 'b, D: BlockDisk, R: TreeRule, J: Naming, H: FreeHints> {
    /// The store.
    pub store: &'s TreeStore<'b, D, R, J>,
    /// Where numbers and blocks come from that may be free.
    pub hints: &'s H,
    /// The replies that are kept.
    pub replies: &'s ReplyTable<'b, J, R>,
    /// How the disk is cut.
    pub cut: Cut,
    /// How it is served.
    pub export: Export,
    pub ghost is_its_cut: { store.now.cut ≡ cut },
}

impl<'s, 'b, D: BlockDisk, R: TreeRule, J: Naming, H: FreeHints> TreeServer<'s, 'b, D, R, J, H> {
    /// The same tree, as it is served to a client at this address, if it has one.
    pub fn for_client(&self, client: Option<ClientAddress>) -> TreeServer<'s, 'b, D, R, J, H>
        ensures store { result.store.now ≡ self.now.store.now }
        ensures export { result.export ≡ record self.now.export { client = client } }
    {
        TreeServer {
            store: self.store,
            hints: self.hints,
            replies: self.replies,
            cut: self.cut,
            export: Export {
                client,
                ..self.export
            },
        }
    }
}

impl<'s, 'b, D: BlockDisk, R: TreeRule, J: Naming, H: FreeHints> Drop
    for TreeServer<'s, 'b, D, R, J, H> {
    fn drop(self) {
        let TreeServer {
            store: _,
            hints: _,
            replies: _,
            cut: _,
            export: _,
        } = self;
    }
}
