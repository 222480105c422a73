// Tests of the tables of a block whose limits are at their ceilings: empty, with a first row, full, and as the first row and the last go.
#![tactic(auto)]

#[cfg(test)]
mod cached;
#[cfg(test)]
mod contents;
#[cfg(test)]
mod events;
#[cfg(test)]
mod grafted;
#[cfg(test)]
mod layout;
#[cfg(test)]
mod links;
#[cfg(test)]
mod missing;
#[cfg(test)]
mod queue;
#[cfg(test)]
mod received;
#[cfg(test)]
mod record;
#[cfg(test)]
mod test_panel;
#[cfg(test)]
mod timers;
