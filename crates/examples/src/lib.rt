// Examples that are run: files and figures that just break a rule or just keep it, plans of files, walks through tables, and calls on address spaces.
#![tactic(auto)]

#[cfg(test)]
mod base;
#[cfg(test)]
mod opening;
#[cfg(test)]
mod planning;
#[cfg(test)]
mod reading;
#[cfg(test)]
mod spaces;
#[cfg(test)]
mod walking;
