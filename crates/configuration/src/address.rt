//! Where a replica is.

/// The host of a replica, and the first of its ports. Its ports are this one and those that follow: docs/FORMATS.md says
/// which is for whom.
#[derive(Clone, Copy, Debug, PartialEq, Eq)]
pub struct Address {
    /// The four numbers of an IPv4 address.
    pub host: [u8; 4],
    /// 1 to 65,000.
    pub port: u16,
}
