//! Commands that break off, played through [`jop_cli::run`]: each call on a target fails in turn,
//! landed or not, each call of the client's tables, and each read and write of a link to a server.
//! The command is made again each time. Then the rows, the conflict notes and the files are those
//! of one run in which nothing failed.
#![tactic(auto)]

#[cfg(test)]
mod breaking;
#[cfg(test)]
mod fault;
#[cfg(test)]
mod machine;
#[cfg(test)]
mod place;
#[cfg(test)]
mod scene;
#[cfg(test)]
mod scenes;
#[cfg(test)]
mod served;
#[cfg(test)]
mod standing;
