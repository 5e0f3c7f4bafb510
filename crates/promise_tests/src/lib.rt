//! Shelves that lists of calls have reached, refusals among them, and each call that tells what is promised of them.
#![tactic(auto)]

#[cfg(test)]
mod figures;
#[cfg(test)]
mod hand;
#[cfg(test)]
mod lists;
#[cfg(test)]
mod marks;
#[cfg(test)]
mod reach;
#[cfg(test)]
mod summaries;
#[cfg(test)]
mod texts;
#[cfg(test)]
mod whole;
