// A tree as it is served to each client.

use journal_clients::ByClient;
use journal_disk::BlockDisk;
use journal_history::Naming;
use journal_treefs::TreeRule;
use journal_treeserver::{ClientAddress, FreeHints, TreeServer};
use std::net::IpAddr;

/// The clients of a tree that is served.
pub(crate) struct TreeClients<'t, 's, 'b, D: BlockDisk, R: TreeRule, J: Naming, H: FreeHints>(
    pub &'t TreeServer<'s, 'b, D, R, J, H>,
);

impl<'t, 's, 'b, D: BlockDisk, R: TreeRule, J: Naming, H: FreeHints> Drop
    for TreeClients<'t, 's, 'b, D, R, J, H> {
    fn drop(self) {
        let TreeClients(_) = self;
    }
}

impl<'t, 's, 'b, D: BlockDisk, R: TreeRule, J: Naming, H: FreeHints> ByClient
    for TreeClients<'t, 's, 'b, D, R, J, H> {
    type Protocol = TreeServer<'s, 'b, D, R, J, H>;

    fn for_client(&self, address: Option<IpAddr>) -> TreeServer<'s, 'b, D, R, J, H> {
        self.0.for_client(address.map(client_at))
    }
}

// The client at an address. One of version 4 of IP is given as version 6 maps it.
fn client_at(address: IpAddr) -> ClientAddress {
    match address {
        IpAddr::V4(address) => ClientAddress(address.to_ipv6_mapped().octets()),
        IpAddr::V6(address) => ClientAddress(address.octets()),
    }
}
