// Tests of exact numbers, the queue of nodes, sources and sinks, and words and fields.
#![tactic(auto)]

#[cfg(test)]
mod asserts;
#[cfg(test)]
mod exact_numbers;
#[cfg(test)]
mod node_queues;
#[cfg(test)]
mod sources_and_sinks;
#[cfg(test)]
mod words_and_fields;
