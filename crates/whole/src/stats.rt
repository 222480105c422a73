// The specification's counts record, with the Rust's names.
#[repr(C)]
#[derive(Clone, Copy)]
pub struct Stats {
    pub payload_messages_received: u64,
    pub control_messages_received: u64,
    pub max_last_delivery_hop: u16,
}

impl Stats {
    // "the counts zero"
    pub const ZERO: Stats = Stats {
        payload_messages_received: 0,
        control_messages_received: 0,
        max_last_delivery_hop: 0,
    };
}
