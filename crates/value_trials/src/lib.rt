// Values and their words, the list, the reading of text, and questions, by example.
#![tactic(auto)]

#[cfg(test)]
mod asking;
#[cfg(test)]
mod listing;
#[cfg(test)]
mod reading;
#[cfg(test)]
mod values;
