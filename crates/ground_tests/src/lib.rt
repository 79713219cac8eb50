// Tests of what all arrays share, at the edges: ledgers, forms, stops and cuts.
#![tactic(auto)]

#[cfg(test)]
mod cuts;
#[cfg(test)]
mod forms;
#[cfg(test)]
mod ledgers;
#[cfg(test)]
mod stops;
