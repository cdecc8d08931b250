use params::set::SetFault;

// Why a host does not begin or go on: the set, a memory's length, a reply that is not the one awaited.
#[derive(Clone, Copy)]
pub enum HostFault {
    Set(SetFault),
    Length,
    Reply,
}
