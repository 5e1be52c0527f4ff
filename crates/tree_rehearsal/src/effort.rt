// How much work a rehearsal may do.

/// How much work a rehearsal may do: so many linear programs, of so many pivots and rounds at most, and so many leaves that are
/// priced in wider nodes.
#[derive(Clone, Copy, Debug)]
pub struct Effort {
    pub programs: u32,
    pub pivots: u32,
    pub rounds: u32,
    pub pricings: u32,
}
