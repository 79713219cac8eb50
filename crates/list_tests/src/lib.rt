// Tests of offset lists, views, fixed lists and nests at their edges: trials, questions and cuts.
#![tactic(auto)]

#[cfg(test)]
mod fixed;
#[cfg(test)]
mod given;
#[cfg(test)]
mod lists;
#[cfg(test)]
mod nests;
#[cfg(test)]
mod views;
