//! Every call and every question, written once for every kind of shelf: the three shelves with names, and one over a
//! buyer's monoid. What each kind tells of the texts stands in a table of its own, which was reckoned apart from the code.
#![tactic(auto)]

#[cfg(test)]
mod ask;
#[cfg(test)]
mod every;
#[cfg(test)]
mod figures;
#[cfg(test)]
mod kind;
#[cfg(test)]
mod marked;
#[cfg(test)]
mod run;
#[cfg(test)]
mod shelves;
#[cfg(test)]
mod steps;
#[cfg(test)]
mod texts;
