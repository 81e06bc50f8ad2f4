use nuc_base::Label;

/// A document on its way: of a group, in a revision, to a device.
#[derive(Debug, Drop)]
pub struct Packet {
    pub device: u32,
    pub group: Label,
    pub revision: u64,
}

/// A packet that was sent, and whether it is gone.
#[derive(Debug, Drop)]
pub struct Sent {
    pub packet: Packet,
    pub is_lost: bool,
}
