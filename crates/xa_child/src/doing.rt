use xa_types::Octets;

/// What a server's program waits for, behind the frame that it wrote last.
#[derive(Drop)]
pub enum Doing {
    /// A request, or its end.
    Waits,
    /// The answer to RELAY's tpcall.
    Relays,
    /// What came of ADV's tpadvertise or tpunadvertise.
    Advertises,
    /// A message, for CHAT, which joined these octets so far.
    Receives(Octets),
    /// What came of CHAT's first message, which had these octets.
    SendsFirst(Octets),
    /// What came of its second message, which had so many.
    SendsLast(u32),
}
