// Tests: what a chart says, and the charts of scripts.
#![tactic(auto)]

#[cfg(test)]
mod captions;
#[cfg(test)]
mod drawn;
#[cfg(test)]
mod shapes;
