// The steps of replicas and clients by example: every refusal with what it leaves as it was, and the ways that go on.
#![tactic(auto)]

#[cfg(test)]
mod beginning;
#[cfg(test)]
mod changing;
#[cfg(test)]
mod closing;
#[cfg(test)]
mod counting;
#[cfg(test)]
mod fetching;
#[cfg(test)]
mod moving;
#[cfg(test)]
mod scene;
#[cfg(test)]
mod serving;
#[cfg(test)]
mod trying;
