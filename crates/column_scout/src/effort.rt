// How much work a scout may do, and what it goes out from.
use crew_instance::Plan;
use price_ascent::FoundRoute;
use std::collections::VecDeque;

/// How much work a scout may do: so many pivots and rounds; and how many routes it may hand over.
#[derive(Clone, Copy, Debug)]
pub struct Effort {
    pub pivots: u32,
    pub rounds: u32,
    pub routes: u32,
}

/// What a scout goes out from: the routes of the last rounds of an ascent, and the best plan, where there is one.
#[derive(Clone, Copy)]
pub struct Leads<'a> {
    pub routes: &'a VecDeque<FoundRoute>,
    pub plan: Option<&'a Plan>,
}
